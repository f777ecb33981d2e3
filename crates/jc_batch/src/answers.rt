//! The answers of a `loadAll`.
ghost use Rattle.std.specs.Prelude.{◌≡◌, ◌≤◌, ◌+◌, [], IfOk, OnOk};
ghost use Rattle.std.specs.FinMap.{from_entries, len};
ghost use Rattle.jc_model.specs.Cache.{key_cmp};
ghost use Rattle.jc_batch.specs.Answers.{no_answers, is_asked, answers_with, answers_with_found, answer_of};
ghost use Rattle.indexmap.specs.IndexMap.{index_map_len, spare};

use indexmap::IndexMap;
use jc_types::{Key, Value};
use std::alloc::{AllocError, Global};
use std::marker::Model;

/// The answers of a loader to `loadAll`: for each key that was asked, the last value that the loader put, or none.
///
/// Contracts see a map from each key that was asked to its answer, and the number of keys that there is memory for. Only
/// [`put`](Answers::put) and [`put_found`](Answers::put_found) change them, and both keep the memory.
#[derive(Drop)]
pub struct Answers {
    answers: IndexMap<Key, Option<Value>>,
    room: usize,
}

impl Model for Answers {
    ghost use Rattle.std.specs.Coded.{codes};
    ghost use Rattle.std.specs.FinMap.{from_entries};
    ghost use Rattle.std.specs.Prelude.{◌≤◌, ◌+◌};
    ghost use Rattle.indexmap.specs.IndexMap.{index_map_len, spare};
    ghost use Rattle.jc_model.specs.Cache.{key_cmp};
    ghost use Rattle.jc_batch.specs.Answers.{AnswersState, answers_code};

    ghost Value = { AnswersState };

    ghost coded = { Prim.hlevel (codes, answers_code) };

    ghost view = { λ a. record { by_key = from_entries {R = key_cmp} a.answers.entries; room = a.room } };

    ghost invariant = { λ a. a.room ≤ index_map_len a.answers + spare a.answers };
}

impl Answers {
    /// No answers yet, of these keys. It allocates all memory that the answers take: the room is the number of keys, each counted
    /// once. An `Err` says that an allocation failed.
    #[tactic(auto, using(crate::proofs::Answering::len_once))]
    pub fn new(alloc: Global, keys: &[Key]) -> Result<Self, AllocError>
        ensures answers { IfOk result (λ a. a.by_key ≡ no_answers keys.now) }
        ensures room { IfOk result (λ a. a.room ≡ len a.by_key) }
    {
        let mut answers = IndexMap::with_capacity(alloc, keys.len())?;
        ask_all(&mut answers, keys)?;
        let room = answers.len();
        Ok(Answers { answers, room })
    }

    /// The answers of a map from each key that is asked to its answer, which has memory for `room` keys.
    pub(crate) fn of(answers: IndexMap<Key, Option<Value>>, room: usize) -> Self
        requires { room ≤ index_map_len answers + spare answers }
        ensures { result ≡ record { by_key = from_entries {R = key_cmp} answers.entries; room = room } }
    {
        Answers { answers, room }
    }

    /// The map without its keys, and the number of keys that it has memory for.
    pub(crate) fn into_empty(self) -> (IndexMap<Key, Option<Value>>, usize)
        ensures empty { result.0.entries ≡ [] }
        ensures room { (result.1 ≡ self.room) × (self.room ≤ spare result.0) }
    {
        let Answers { answers, room } = self;
        let mut answers = answers;
        answers.clear();
        (answers, room)
    }

    /// Puts this value at a key as its answer, in place of an earlier one, and returns whether the key was asked. If it wasn't,
    /// nothing changes. It takes no memory.
    pub fn put(&mut self, key: &Key, value: &Value) -> bool
        ensures asked { result ≡ is_asked self.old.by_key key.now }
        ensures answers { self.new.by_key ≡ answers_with self.old.by_key key.now value.now }
        ensures room { self.new.room ≡ self.old.room }
    {
        match self.answers.get_mut(key) {
            Some(answer) => *answer = Some(*value),
            None => return false,
        }
        true
    }

    /// [Puts](Answers::put) what was found at a key, in the store say. If nothing was, nothing changes.
    pub fn put_found(&mut self, key: &Key, found: &Option<Value>)
        ensures answers { self.new.by_key ≡ answers_with_found self.old.by_key key.now found.now }
        ensures room { self.new.room ≡ self.old.room }
    {
        if let Some(value) = found {
            self.put(key, value);
        }
    }

    /// The answer at a key: none if nothing was put there, or if the key wasn't asked.
    pub fn get(&self, key: &Key) -> Option<Value>
        ensures { result ≡ answer_of self.now.by_key key.now }
    {
        match self.answers.get(key) {
            Some(answer) => *answer,
            None => None,
        }
    }
}

/// Puts each of the keys in, with no answer. It takes no memory if there is room.
fn ask_all(answers: &mut IndexMap<Key, Option<Value>>, keys: &[Key]) -> Result<(), AllocError>
    requires { answers.old.entries ≡ [] }
    ensures { OnOk result (from_entries {R = key_cmp} answers.new.entries ≡ no_answers keys.now) }
{
    for key in keys {
        answers.insert(*key, None)?;
    }
    Ok(())
}
