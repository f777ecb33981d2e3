//! The commands of a world's calls: one operation on one key, or one on each of many keys.
ghost use Rattle.std.specs.Prelude.{◌≡◌, [], is_some, length, option_map};
ghost use Rattle.jc_world.specs.Calls.{kind_of, sweep_of, is_bulk, cause_after, keeps_open, tasks, has_too_many};

use crate::sweep::Sweep;
use indexmap::{IndexMap, IndexSet};
use jc_model::Op;
use jc_types::{BULK_KEYS_MAX, Key, Refusal, Value};
use std::alloc::Global;

/// The command of a call: one operation on one key, or one operation on each of many keys, in their order.
#[derive(Drop)]
pub enum Command {
    /// One operation on one key, as `get` and `put` are.
    Single {
        /// The operation.
        op: Op,
        /// The key, of any stripe.
        key: Key,
    },
    /// A `Get` of each key (`getAll`).
    GetAll {
        /// The keys.
        keys: IndexSet<Key>,
    },
    /// A `Put` of each entry (`putAll`).
    PutAll {
        /// The entries.
        entries: IndexMap<Key, Value>,
    },
    /// A `Remove` of each key (`removeAll(keys)`).
    RemoveAll {
        /// The keys.
        keys: IndexSet<Key>,
    },
    /// A `Remove` of each key that is cached (`removeAll()`).
    RemoveEvery,
    /// A `Clear` of each key that is cached (`clear`).
    Clear,
    /// A `LoadAll` of each key (`loadAll`). The loader is asked whether or not read-through is on.
    LoadAll {
        /// Whether keys whose entry is present are loaded anew, too (`replaceExistingValues`).
        replace: bool,
        /// The keys.
        keys: IndexSet<Key>,
    },
    /// An entry processor on each key (`invokeAll`).
    InvokeAll {
        /// The keys.
        keys: IndexSet<Key>,
    },
}

impl Command {
    /// How the call takes its keys.
    pub fn kind(&self) -> CallKind
        ensures { result ≡ kind_of self.now }
    {
        match self {
            Command::Single { op: _, key: _ } => CallKind::Single,
            Command::InvokeAll { keys: _ } => CallKind::InvokeAll,
            Command::GetAll { keys: _ }
            | Command::PutAll { entries: _ }
            | Command::RemoveAll { keys: _ }
            | Command::RemoveEvery
            | Command::Clear
            | Command::LoadAll {
                replace: _,
                keys: _,
            } => CallKind::Batch,
        }
    }

    /// The operation at each cached key, if the command takes the cached keys, whichever they are.
    fn sweep_op(&self) -> Option<Op>
        ensures { sweep_of self.now ≡ option_map (λ op. record { op = op; looked = [] }) result }
    {
        match self {
            Command::RemoveEvery => Some(Op::Remove),
            Command::Clear => Some(Op::Clear),
            Command::Single { op: _, key: _ }
            | Command::GetAll { keys: _ }
            | Command::PutAll { entries: _ }
            | Command::RemoveAll { keys: _ }
            | Command::LoadAll {
                replace: _,
                keys: _,
            }
            | Command::InvokeAll { keys: _ } => None,
        }
    }

    /// Its sweep of the stripes before its first look, if it takes the keys that are cached.
    pub(crate) fn sweep(&self, alloc: Global) -> Option<Sweep>
        ensures { result ≡ sweep_of self.now }
    {
        match self.sweep_op() {
            Some(op) => Some(Sweep::new(alloc, op)),
            None => None,
        }
    }

    /// Whether the command takes the keys that are cached, whichever they are: its call looks at each stripe once.
    pub fn is_sweep(&self) -> bool
        ensures { result ≡ is_some (sweep_of self.now) }
    {
        match self.sweep_op() {
            Some(_op) => true,
            None => false,
        }
    }

    /// How many keys the command names. `removeAll()` and `clear` name none: theirs are those that are cached.
    fn keys_len(&self) -> usize
        ensures { result ≡ length (tasks self.now) }
    {
        match self {
            Command::Single { op: _, key: _ } => 1,
            Command::PutAll { entries } => entries.len(),
            Command::RemoveEvery | Command::Clear => 0,
            Command::GetAll { keys }
            | Command::RemoveAll { keys }
            | Command::LoadAll { replace: _, keys }
            | Command::InvokeAll { keys } => keys.len(),
        }
    }

    /// Whether the command names more than [`BULK_KEYS_MAX`](jc_types::BULK_KEYS_MAX) keys: its call is refused whole.
    pub fn has_too_many_keys(&self) -> bool
        ensures { result ≡ has_too_many (tasks self.now) }
    {
        self.keys_len() > BULK_KEYS_MAX
    }
}

/// How a call takes its keys.
#[derive(Clone, Copy, Debug, PartialEq, Eq)]
pub enum CallKind {
    /// It has one key.
    Single,
    /// It has many keys, and takes each that it can, whatever becomes of the others. The loader or the writer is asked for them
    /// together.
    Batch,
    /// It has many keys, and takes each that it can, so too. On each that it has reserved an entry processor runs, and then the writer
    /// is asked for the writes together, and after that for the deletes. Each key has a result of its own, so that a fault is that
    /// of its key alone (JSR 107, "Entry Processors").
    InvokeAll,
}

impl CallKind {
    /// Whether such a call has many keys.
    pub fn is_bulk(self) -> bool
        ensures { result ≡ is_bulk self }
    {
        match self {
            CallKind::Single => false,
            CallKind::Batch | CallKind::InvokeAll => true,
        }
    }

    /// The first fault, or refusal that isn't put off, that such a call has met, once it meets this or nothing. A call of
    /// one key doesn't keep it, nor does an `invokeAll`.
    pub(crate) fn cause_after(self, was: Option<Refusal>, met: Option<Refusal>) -> Option<Refusal>
        ensures { result ≡ cause_after self was met }
    {
        match self {
            CallKind::Single | CallKind::InvokeAll => None,
            CallKind::Batch => was.or(met),
        }
    }

    /// Whether a key of such a call that meets this refusal stays open, to be tried again. In a call of one key each refusal is the
    /// last.
    pub(crate) fn keeps_open(self, refusal: &Refusal) -> bool
        ensures { result ≡ keeps_open self refusal.now }
    {
        match self {
            CallKind::Single => false,
            CallKind::Batch | CallKind::InvokeAll => refusal.is_put_off(),
        }
    }
}
