//! The batch of a bulk delete.
ghost use Rattle.std.specs.Prelude.{◌≡◌, ◌<◌, IfOk, false, length};
ghost use Rattle.jc_model.specs.Batches.{is_among};
ghost use Rattle.jc_batch.specs.Batch.{with_item, empty_batch};

use crate::batch_keys::BatchKeys;
use indexmap::IndexSet;
use jc_types::Key;
use std::alloc::{AllocError, Global};
use std::marker::Model;

/// The keys that one call of `deleteAll` is to delete, in the order in which they were added.
#[derive(Drop)]
pub struct DeleteBatch {
    collection: IndexSet<Key>,
    keys: BatchKeys,
}

impl Model for DeleteBatch {
    ghost use Rattle.std.specs.Prelude.{◌≡◌, ◌≤◌};
    ghost use Rattle.indexmap.specs.IndexSet.{spare};
    ghost use Rattle.jc_model.specs.Cache.{Bytes};
    ghost use Rattle.jc_batch.specs.Batch.{BatchState};

    ghost Value = { BatchState Bytes };

    ghost view = { λ b. record { items = b.collection.keys; room = b.keys.room } };

    ghost invariant = { λ b. (b.keys.items ≡ b.collection.keys) × (b.keys.room ≤ spare b.collection) };
}

impl DeleteBatch {
    /// No keys, with room for `n`. An `Err` says that an allocation failed.
    pub fn with_capacity(alloc: Global, n: usize) -> Result<Self, AllocError>
        ensures { IfOk result (λ batch. batch ≡ empty_batch n) }
    {
        let collection = IndexSet::with_capacity(alloc, n)?;
        let keys = BatchKeys::with_capacity(alloc, n)?;
        Ok(DeleteBatch { collection, keys })
    }

    /// How many keys there are.
    pub fn len(&self) -> usize
        ensures { result ≡ length self.now.items }
    {
        self.collection.len()
    }

    /// Adds a key, after those that are there. It takes no memory.
    ///
    /// Conditions: there is room, and the key isn't in the batch.
    pub fn insert(&mut self, key: Key)
        requires room { 0 < self.old.room }
        requires new { is_among self.old.items key ≡ false }
        ensures { self.new ≡ with_item self.old key }
    {
        match self.collection.insert(key) {
            Ok(_is_new) => {}
            Err(_failed) => unreachable!(),
        }
        self.keys.push(key);
    }

    /// The collection for the writer, and the keys, which are split later by what the writer leaves in it.
    pub fn into_parts(self) -> (IndexSet<Key>, BatchKeys)
        ensures deletes { result.0.keys ≡ self.items }
        ensures keys { result.1.items ≡ self.items }
    {
        let DeleteBatch { collection, keys } = self;
        (collection, keys)
    }
}
