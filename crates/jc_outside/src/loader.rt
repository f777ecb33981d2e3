//! Loaders, which a caller brings to a cache (JSR 107, `CacheLoader`).
use jc_batch::Answers;
use jc_types::{Key, Value};

/// Loads the entries that a cache misses (`javax.cache.integration.CacheLoader`; JSR 107, "Integration").
///
/// A call is a relation of the loader before, its arguments, its answer, and the loader's state afterwards as plain data. So a
/// contract can state that a loader was called once, with this key and this answer, and a loader states by its relations what it
/// answers. A loader that waits, for example for a lock, holds its own runtime.
pub trait CacheLoader {
    ghost use Rattle.std.specs.Prelude.{◌≡◌, ℕ, List, Option, Result};
    ghost use Rattle.jc_model.specs.Cache.{Bytes};
    ghost use Rattle.jc_batch.specs.Answers.{AnswersByKey, no_answers};

    /// The loader's state, as plain data.
    ghost load_state: { Self → List ℕ };

    /// One call of `load`: the key, the answer.
    ghost loads: { Self → Bytes → Result (Option Bytes) ℕ → List ℕ → Type 0 };

    /// One call of `load_all`: the keys, whether it failed, the answers.
    ghost loads_all: { Self → List Bytes → Result (Unit {0}) ℕ → AnswersByKey → List ℕ → Type 0 };

    /// The value at a key, or none (`load`). An `Err` has a code of the loader's own.
    fn load(&mut self, key: &Key) -> Result<Option<Value>, u32>
        ensures { loads self.old key.now result (load_state self.new) };

    /// Puts the value at each of the keys that has one into `answers` (`loadAll`). A key that is left out has none. An `Err` has
    /// a code of the loader's own, and holds for each of the keys.
    ///
    /// `answers` keep their memory, which is used again for the loads of a later round: change them by [`Answers::put`] alone.
    ///
    /// Conditions: `answers` are of these keys, and have no answer yet.
    fn load_all(&mut self, keys: &[Key], answers: &mut Answers) -> Result<(), u32>
        requires { answers.old.by_key ≡ no_answers keys.now }
        ensures loads { loads_all self.old keys.now result answers.new.by_key (load_state self.new) }
        ensures room { answers.new.room ≡ answers.old.room };
}
