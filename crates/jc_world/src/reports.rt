//! The return of a writer in a world: the keys that it leaves, and the keys of its request as they are shown.
ghost use Rattle.std.specs.Prelude.{◌≡◌, ◌∷◌, [], IfOk};
ghost use Rattle.jc_model.specs.Batches.{is_among};
ghost use Rattle.jc_world.specs.Premises.{report_for};

use crate::command::CallKind;
use crate::outside::report_with;
use crate::read_only::ReadOnlyList;
use indexmap::IndexSet;
use jc_model::{Change, WriteAnswer, batch_answer};
use jc_types::{Key, Value};
use std::alloc::{AllocError, Global};
use std::marker::Model;

/// The keys that a writer's collection still holds as the writer returns: it takes out what it has written or deleted (JSR 107,
/// "Integration"; `CacheWriter.writeAll`, `deleteAll`).
#[derive(Drop)]
pub struct LeftKeys {
    keys: IndexSet<Key>,
}

impl Model for LeftKeys {
    ghost use Rattle.std.specs.Prelude.{List};
    ghost use Rattle.jc_model.specs.Cache.{Bytes};

    ghost Value = { List Bytes };

    ghost view = { λ left. left.keys.keys };
}

impl LeftKeys {
    /// No key is left.
    pub fn new(alloc: Global) -> LeftKeys
        ensures { result ≡ [] }
    {
        LeftKeys {
            keys: IndexSet::new(alloc),
        }
    }

    /// These keys are left.
    pub fn of(keys: IndexSet<Key>) -> LeftKeys
        ensures { result ≡ keys.keys }
    {
        LeftKeys { keys }
    }

    /// One key is left. An `Err` says that an allocation failed.
    pub fn one(alloc: Global, key: &Key) -> Result<LeftKeys, AllocError>
        ensures { IfOk result (λ left. left ≡ key.now ∷ []) }
    {
        let mut keys = IndexSet::new(alloc);
        keys.insert(*key)?;
        Ok(LeftKeys { keys })
    }

    /// Whether a key is left. It costs one look-up.
    pub fn is_left(&self, key: &Key) -> bool
        ensures { result ≡ is_among self.now key.now }
    {
        self.keys.contains(key)
    }
}

/// What the return of a writer says for a key of a call of this kind. In a call of one key that is the writer's fault or none,
/// whatever is left. In a call of many keys each key that is left failed, and each other one was written or deleted.
pub(crate) fn report_for(
    kind: CallKind,
    left: &LeftKeys,
    fault: Option<u32>,
    key: &Key,
) -> WriteAnswer
    ensures { result ≡ report_for kind left.now fault key.now }
{
    match kind {
        CallKind::Single => report_with(fault),
        CallKind::Batch | CallKind::InvokeAll => batch_answer(left.is_left(key), fault),
    }
}

/// For which keys a call has the writer asked now, of those that the writer is to be asked for and hasn't returned for. The writer
/// changes the store for these, and its next return is for all of them.
#[derive(Clone, Copy, Debug, PartialEq, Eq)]
pub enum WriterBatch {
    /// For none: in an `invokeAll` a key waits for its processor.
    Nothing,
    /// For those with a write: in an `invokeAll`, once each processor has run.
    Writes,
    /// For all. In an `invokeAll` these are then deletes.
    All,
}

/// A key for which a writer returns.
#[derive(Clone, Copy, Debug, PartialEq, Eq)]
pub struct ReportedKey {
    /// The key.
    pub key: Key,
    /// The change that the writer was asked for.
    pub change: Change,
    /// Whether it had changed the store.
    pub is_changed: bool,
}

/// A writer's return, as it is shown.
#[derive(Drop)]
pub struct Reported {
    /// The keys of the call that the writer was asked for together, and hadn't returned for before, in the order of the call.
    pub keys: ReadOnlyList<ReportedKey>,
    /// The code of the writer's fault, if it failed.
    pub fault: Option<u32>,
}
