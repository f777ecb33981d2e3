//! The keys of a line.
ghost use Rattle.std.specs.Prelude.{◌≡◌, ◌++◌, ◌∷◌, [], cond, not, IfOk, OnOk};
ghost use Rattle.jc_model.specs.Batches.{is_among};

use indexmap::IndexSet;
use jc_types::Key;
use std::alloc::{AllocError, Global};
use std::marker::Model;

/// Keys, each once, in the order of a line.
#[derive(Drop)]
pub struct Keys {
    set: IndexSet<Key>,
}

impl Model for Keys {
    ghost use Rattle.std.specs.Prelude.{List};
    ghost use Rattle.jc_model.specs.Cache.{Bytes};

    ghost Value = { List Bytes };

    ghost view = { λ k. k.set.keys };
}

impl Keys {
    /// No key.
    pub fn new(alloc: Global) -> Keys
        ensures { result ≡ [] }
    {
        Keys {
            set: IndexSet::new(alloc),
        }
    }

    /// Whether a key is among them. It costs one look-up.
    pub fn contains(&self, key: &Key) -> bool
        ensures { result ≡ is_among self.now key.now }
    {
        self.set.contains(key)
    }

    /// Appends a key if it is new, and returns whether it is. A key that is there already stays where it is.
    pub fn add(&mut self, key: Key) -> Result<bool, AllocError>
        ensures new { IfOk result (λ is_new. is_new ≡ not (is_among self.old key)) }
        ensures keys { OnOk result (
            self.new ≡ cond (is_among self.old key) self.old (self.old ++ key ∷ [])) }
    {
        Ok(self.set.insert(key)?)
    }

    /// The same keys, for a call of many keys.
    pub fn copy(&self) -> Result<IndexSet<Key>, AllocError>
        ensures { IfOk result (λ set. set.keys ≡ self.now) }
    {
        self.set.clone()
    }
}
