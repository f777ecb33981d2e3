//! The pairs of a line.
ghost use Rattle.std.specs.Prelude.{◌≡◌, ◌++◌, ◌∷◌, [], OnOk};

use jc_model::LoadAnswer;
use jc_types::{Key, Value};
use std::alloc::{AllocError, Global};
use std::marker::Model;

/// Keys with their values, in the order of a line. A key may come again.
#[derive(Drop)]
pub struct Pairs {
    list: Vec<(Key, Value)>,
}

impl Model for Pairs {
    ghost use Rattle.std.specs.Prelude.{List, ℕ};

    ghost Value = { List (List ℕ × List ℕ) };

    ghost view = { λ p. p.list.items };
}

impl Pairs {
    ghost use Rattle.jc_text.specs.Words.{said};

    /// No pair.
    pub fn new(alloc: Global) -> Pairs
        ensures { result ≡ [] }
    {
        Pairs {
            list: Vec::new(alloc),
        }
    }

    /// Appends a pair.
    pub fn add(&mut self, key: Key, value: Value) -> Result<(), AllocError>
        ensures { OnOk result (self.new ≡ self.old ++ (key, value) ∷ []) }
    {
        self.list.push((key, value))?;
        Ok(())
    }

    /// The answer for a key of a loader that speaks by these pairs.
    pub fn said(&self, key: &Key) -> LoadAnswer
        ensures { result ≡ said self.now key.now }
    {
        let mut answer = LoadAnswer::Nothing;
        for pair in &self.list {
            if pair.0 == *key {
                answer = LoadAnswer::Found(pair.1);
            }
        }
        answer
    }
}
