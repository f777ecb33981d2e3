//! The batch of a bulk write.
ghost use Rattle.std.specs.Prelude.{◌≡◌, ◌<◌, IfOk, false, length};
ghost use Rattle.std.specs.Map.{keys_of};
ghost use Rattle.jc_model.specs.Batches.{is_among};
ghost use Rattle.jc_batch.specs.Batch.{with_item, empty_batch};

use crate::batch_keys::BatchKeys;
use crate::new_entry::insert_new;
use indexmap::IndexMap;
use jc_types::{Key, Value};
use std::alloc::{AllocError, Global};
use std::marker::Model;

/// The entries that one call of `writeAll` is to write, in the order in which they were added.
#[derive(Drop)]
pub struct WriteBatch {
    entries: IndexMap<Key, Value>,
    keys: BatchKeys,
}

impl Model for WriteBatch {
    ghost use Rattle.std.specs.Prelude.{◌≡◌, ◌≤◌};
    ghost use Rattle.std.specs.Map.{keys_of};
    ghost use Rattle.indexmap.specs.IndexMap.{spare};
    ghost use Rattle.jc_model.specs.Cache.{Bytes};
    ghost use Rattle.jc_batch.specs.Batch.{BatchState};

    ghost Value = { BatchState (Bytes × Bytes) };

    ghost view = { λ b. record { items = b.entries.entries; room = b.keys.room } };

    ghost invariant = { λ b. (b.keys.items ≡ keys_of b.entries.entries) × (b.keys.room ≤ spare b.entries) };
}

impl WriteBatch {
    /// No entries, with room for `n`. An `Err` says that an allocation failed.
    pub fn with_capacity(alloc: Global, n: usize) -> Result<Self, AllocError>
        ensures { IfOk result (λ batch. batch ≡ empty_batch n) }
    {
        let entries = IndexMap::with_capacity(alloc, n)?;
        let keys = BatchKeys::with_capacity(alloc, n)?;
        Ok(WriteBatch { entries, keys })
    }

    /// How many entries there are.
    pub fn len(&self) -> usize
        ensures { result ≡ length self.now.items }
    {
        self.entries.len()
    }

    /// Adds an entry, after those that are there. It takes no memory.
    ///
    /// Conditions: there is room, and the key isn't in the batch.
    pub fn insert(&mut self, key: Key, value: Value)
        requires room { 0 < self.old.room }
        requires new { is_among (keys_of self.old.items) key ≡ false }
        ensures { self.new ≡ with_item self.old (key, value) }
    {
        insert_new(&mut self.entries, &key, value);
        self.keys.push(key);
    }

    /// The collection for the writer, and the keys, which are split later by what the writer leaves in it.
    pub fn into_parts(self) -> (IndexMap<Key, Value>, BatchKeys)
        ensures entries { result.0.entries ≡ self.items }
        ensures keys { result.1.items ≡ keys_of self.items }
    {
        let WriteBatch { entries, keys } = self;
        (entries, keys)
    }
}
