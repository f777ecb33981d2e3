//! The keys of a batch, and their split.
ghost use Rattle.std.specs.Prelude.{◌≡◌, ◌<◌, ◌≤◌, ◌+◌, ◌++◌, [], IfOk, length, vec_len, vec_capacity};
ghost use Rattle.std.specs.List.{cons_option};
ghost use Rattle.jc_batch.specs.Batch.{with_item, empty_batch};
ghost use Rattle.jc_batch.specs.Splitting.{success_of, failure_of, successes_in, failures_in};

use crate::leftover::Leftover;
use crate::split::Split;
use jc_model::{WriteAnswer, batch_answer};
use jc_types::Key;
use std::alloc::{AllocError, Global};
use std::marker::Model;

/// The keys of a batch, in the order in which they were added, with the memory that their split takes.
#[derive(Drop)]
pub struct BatchKeys {
    keys: Vec<Key>,
    room: usize,
    split: Split,
}

impl Model for BatchKeys {
    ghost use Rattle.std.specs.Prelude.{◌≡◌, ◌≤◌, ◌+◌, [], vec_len, vec_capacity};
    ghost use Rattle.jc_model.specs.Cache.{Bytes};
    ghost use Rattle.jc_batch.specs.Batch.{BatchState};
    ghost use Rattle.jc_batch.specs.BatchInside.{AreBatchKeys};

    ghost Value = { BatchState Bytes };

    ghost view = { λ a. record { items = a.keys.items; room = a.room } };

    ghost invariant = { λ a. AreBatchKeys (vec_len a.keys + a.room) a.keys a.split };
}

impl BatchKeys {
    /// No keys, with room for `n`. An `Err` says that an allocation failed.
    pub(crate) fn with_capacity(alloc: Global, n: usize) -> Result<Self, AllocError>
        ensures { IfOk result (λ keys. keys ≡ empty_batch n) }
    {
        let keys = Vec::with_capacity(alloc, n)?;
        let written = Vec::with_capacity(alloc, n)?;
        let failed = Vec::with_capacity(alloc, n)?;
        Ok(BatchKeys {
            keys,
            room: n,
            split: Split { written, failed },
        })
    }

    /// How many keys there are.
    pub fn len(&self) -> usize
        ensures { result ≡ length self.now.items }
    {
        self.keys.len()
    }

    /// Adds a key, after those that are there. It takes no memory.
    ///
    /// Condition: there is room.
    pub(crate) fn push(&mut self, key: Key)
        requires { 0 < self.old.room }
        ensures { self.new ≡ with_item self.old key }
    {
        self.keys.push_reserved(key);
        self.room -= 1;
    }

    /// Splits the keys by what the writer left in its collection, and by its fault, if any. A key that is left failed, with the
    /// fault's code, or with 0 after a normal return. Every other key was written. It takes no memory.
    pub fn split<C: Leftover>(self, left: &C, fault: Option<u32>) -> Split
        ensures written { result.written.items ≡ successes_in (C.leftover_keys left.now) fault self.items }
        ensures failed { result.failed.items ≡ failures_in (C.leftover_keys left.now) fault self.items }
    {
        let BatchKeys {
            keys,
            room: _,
            split,
        } = self;
        let mut split = split;
        split_keys(&keys, left, fault, &mut split);
        split
    }
}

/// Notes each of the keys by its answer.
fn split_keys<C: Leftover>(keys: &[Key], left: &C, fault: Option<u32>, split: &mut Split)
    requires empty { (split.old.written.items ≡ []) × (split.old.failed.items ≡ []) }
    requires written_room { length keys.now ≤ vec_capacity split.old.written }
    requires failed_room { length keys.now ≤ vec_capacity split.old.failed }
    ensures written { split.new.written.items ≡ successes_in (C.leftover_keys left.now) fault keys.now }
    ensures failed { split.new.failed.items ≡ failures_in (C.leftover_keys left.now) fault keys.now }
{
    for key in keys {
        note(split, key, batch_answer(left.is_left(key), fault));
    }
}

/// Puts a key in the list of its answer.
fn note(split: &mut Split, key: &Key, answer: WriteAnswer)
    requires written_room { vec_len split.old.written < vec_capacity split.old.written }
    requires failed_room { vec_len split.old.failed < vec_capacity split.old.failed }
    ensures written { split.new.written.items ≡ split.old.written.items ++ cons_option (success_of key.now answer) [] }
    ensures failed { split.new.failed.items ≡ split.old.failed.items ++ cons_option (failure_of key.now answer) [] }
    ensures written_len { vec_len split.new.written ≤ vec_len split.old.written + 1 }
    ensures failed_len { vec_len split.new.failed ≤ vec_len split.old.failed + 1 }
    ensures written_room { vec_capacity split.new.written ≡ vec_capacity split.old.written }
    ensures failed_room { vec_capacity split.new.failed ≡ vec_capacity split.old.failed }
{
    match answer {
        WriteAnswer::Done => split.written.push_reserved(*key),
        WriteAnswer::Failed(code) => split.failed.push_reserved((*key, code)),
        WriteAnswer::NotAsked => {}
    }
}
