//! The pairs of a line that names each key once.
ghost use Rattle.std.specs.Prelude.{◌≡◌, ◌++◌, ◌∷◌, [], false, length, IfOk, OnOk};
ghost use Rattle.jc_text.specs.Words.{names_key};

use indexmap::IndexMap;
use jc_types::{Key, Value};
use std::alloc::{AllocError, Global};
use std::marker::Model;

/// Keys with their values, each key once, in the order of a line.
#[derive(Drop)]
pub struct DistinctPairs {
    map: IndexMap<Key, Value>,
}

impl Model for DistinctPairs {
    ghost use Rattle.std.specs.Prelude.{List, ℕ};

    ghost Value = { List (List ℕ × List ℕ) };

    ghost view = { λ p. p.map.entries };
}

impl DistinctPairs {
    /// No pair.
    pub fn new(alloc: Global) -> DistinctPairs
        ensures { result ≡ [] }
    {
        DistinctPairs {
            map: IndexMap::new(alloc),
        }
    }

    /// How many pairs there are.
    pub fn len(&self) -> usize
        ensures { result ≡ length self.now }
    {
        self.map.len()
    }

    /// Whether a pair has the key.
    pub fn names(&self, key: &Key) -> bool
        ensures { result ≡ names_key self.now key.now }
    {
        self.map.contains_key(key)
    }

    /// Appends a pair, whose key is new.
    pub fn add(&mut self, key: Key, value: Value) -> Result<(), AllocError>
        requires { names_key self.old key ≡ false }
        ensures { OnOk result (self.new ≡ self.old ++ (key, value) ∷ []) }
    {
        self.map.insert(key, value)?;
        Ok(())
    }

    /// The same pairs, for a call of many keys.
    pub fn copy(&self) -> Result<IndexMap<Key, Value>, AllocError>
        ensures { IfOk result (λ map. map.entries ≡ self.now) }
    {
        self.map.clone()
    }
}
