//! The batch of a bulk load.
ghost use Rattle.std.specs.Prelude.{◌≡◌, ◌<◌, ◌≤◌, ◌+◌, ◌++◌, ◌∷◌, [], List, IfOk, length, vec_capacity};
ghost use Rattle.std.specs.FinMap.{from_entries};
ghost use Rattle.indexmap.specs.IndexMap.{index_map_len, spare};
ghost use Rattle.jc_model.specs.Cache.{Bytes, key_cmp};
ghost use Rattle.jc_batch.specs.Batch.{with_item, empty_batch};
ghost use Rattle.jc_batch.specs.Answers.{no_answers};

use crate::answers::Answers;
use indexmap::IndexMap;
use jc_types::{Key, Value};
use std::alloc::{AllocError, Global};
use std::marker::Model;

/// The keys that one call of `loadAll` is to load, in the order in which they were added, with the memory that their answers
/// take.
#[derive(Drop)]
pub struct LoadBatch {
    keys: Vec<Key>,
    room: usize,
    answers: IndexMap<Key, Option<Value>>,
}

impl Model for LoadBatch {
    ghost use Rattle.std.specs.Prelude.{◌+◌};
    ghost use Rattle.std.specs.FinMap.{from_entries};
    ghost use Rattle.indexmap.specs.IndexMap.{index_map_len, spare};
    ghost use Rattle.jc_model.specs.Cache.{Bytes, key_cmp};
    ghost use Rattle.jc_batch.specs.Batch.{BatchState};
    ghost use Rattle.jc_batch.specs.LoadBatch.{IsLoadBatch};

    ghost Value = { BatchState Bytes };

    ghost view = { λ b. record { items = b.keys.items; room = b.room } };

    ghost invariant = { λ b. IsLoadBatch b.room (spare b.answers) (index_map_len b.answers + spare b.answers) b.keys (from_entries {R = key_cmp} b.answers.entries) };
}

impl LoadBatch {
    /// No keys, with room for `n`. An `Err` says that an allocation failed.
    pub fn with_capacity(alloc: Global, n: usize) -> Result<Self, AllocError>
        ensures { IfOk result (λ batch. batch ≡ empty_batch n) }
    {
        let keys = Vec::with_capacity(alloc, n)?;
        let answers = IndexMap::with_capacity(alloc, n)?;
        Ok(LoadBatch {
            keys,
            room: n,
            answers,
        })
    }

    /// How many keys there are.
    pub fn len(&self) -> usize
        ensures { result ≡ length self.now.items }
    {
        self.keys.len()
    }

    /// Adds a key, after those that are there. It takes no memory.
    ///
    /// Condition: there is room.
    pub fn insert(&mut self, key: Key)
        requires { 0 < self.old.room }
        ensures { self.new ≡ with_item self.old key }
    {
        ask(&mut self.answers, key);
        self.keys.push_reserved(key);
        self.room -= 1;
    }

    /// The keys, and their answers, of which none was given yet. Both have memory for the keys and for as many more as the batch
    /// had room for.
    pub fn into_parts(self) -> (Vec<Key>, Answers)
        ensures keys { result.0.items ≡ self.items }
        ensures keys_room { length self.items + self.room ≤ vec_capacity result.0 }
        ensures answers { result.1 ≡ record { by_key = no_answers self.items; room = length self.items + self.room } }
    {
        let LoadBatch {
            keys,
            room,
            answers,
        } = self;
        let places = keys.len() + room;
        (keys, Answers::of(answers, places))
    }

    /// A batch without keys, made from the parts of an earlier one. It takes no memory: there is room for as many keys as the
    /// answers have memory for.
    ///
    /// Condition: the list of keys has memory for as many keys.
    pub fn of_parts(keys: Vec<Key>, answers: Answers) -> LoadBatch
        requires { answers.room ≤ vec_capacity keys }
        ensures { result ≡ empty_batch answers.room }
    {
        let (answers, room) = answers.into_empty();
        let mut keys = keys;
        keys.clear();
        LoadBatch {
            keys,
            room,
            answers,
        }
    }
}

/// Puts a key in, with no answer, if it isn't there. It takes no memory.
fn ask(answers: &mut IndexMap<Key, Option<Value>>, key: Key)
    requires room { 0 < spare answers.old }
    requires none { (keys : List Bytes) × (from_entries {R = key_cmp} answers.old.entries ≡ no_answers keys) }
    ensures asked { (keys : List Bytes) → from_entries {R = key_cmp} answers.old.entries ≡ no_answers keys
        → from_entries {R = key_cmp} answers.new.entries ≡ no_answers (keys ++ key ∷ []) }
    ensures spare { spare answers.old ≤ spare answers.new + 1 }
    ensures places { index_map_len answers.old + spare answers.old ≤ index_map_len answers.new + spare answers.new }
{
    if answers.contains_key(&key) {
        return;
    }
    match answers.insert(key, None) {
        Ok(_old) => {}
        Err(_failed) => unreachable!(),
    }
}
