//! Loaders.
ghost use Rattle.std.specs.Prelude.{◌≡◌};

use jc_outside::{Answers, CacheLoader};
use jc_types::{Key, Value};

/// Reads the entries that a cache misses from a store (`javax.cache.integration.CacheLoader`; JSR 107, "Integration").
///
/// A loader is called while the session holds no stripe, and must not call the cache. A loader that waits, for example for a lock
/// or a connection, holds a runtime of its own.
///
/// Its relations are those of [`jc_outside::CacheLoader`]. They hold of every call unless an author gives others, so without
/// contracts of your own you write none of the `ghost` lines.
pub trait Load {
    ghost use Rattle.std.specs.Prelude.{◌⊎◌, ℕ, List, [], Option, Result};
    ghost use Rattle.jc_model.specs.Cache.{Bytes};
    ghost use Rattle.jc_outside.specs.Answers.{AnswersByKey};
    ghost use Rattle.jc_plain.specs.Loads.{LoadsEach};

    /// The loader's state, as plain data.
    ghost load_state: { Self → List ℕ } = { λ l. [] };

    /// One call of `load`: the key, the answer.
    ghost loads: { Self → Bytes → Result (Option Bytes) ℕ → List ℕ → Type 0 } = { λ l key answer after. Unit {0} };

    /// One call of a `load_all` of the author's own: the keys, whether it failed, the answers.
    ghost loads_all: { Self → List Bytes → Result (Unit {0}) ℕ → AnswersByKey → List ℕ → Type 0 } = { λ l keys answer answers after. Unit {0} };

    /// The value at a key, or none if the store has none (`load`).
    ///
    /// An `Err` has a code of the author's own: the call that asked fails with `LoaderFailed` of that code, and its entry stays as
    /// it was.
    fn load(&mut self, key: &Key) -> Result<Option<Value>, u32>
        ensures { loads self.old key.now result (load_state self.new) };

    /// Puts the value at each of the keys that has one into `answers` (`loadAll`). A key that is left out has none.
    ///
    /// By default it loads one key after another, in their order, up to the first failure, which it returns. An `Err` holds for
    /// each of the keys, whatever `answers` have then. For a store that finds many keys in one query, write your own body; it
    /// must change `answers` only by [`Answers::put`], since a later round of the call uses their memory again.
    fn load_all(&mut self, keys: &[Key], answers: &mut Answers) -> Result<(), u32>
        ensures loads { LoadsEach loads load_state self.old keys.now answers.old.by_key result answers.new.by_key (load_state self.new)
            ⊎ loads_all self.old keys.now result answers.new.by_key (load_state self.new) }
        ensures room { answers.new.room ≡ answers.old.room }
    {
        for key in keys {
            match self.load(key) {
                Ok(found) => answers.put_found(key, &found),
                Err(code) => return Err(code),
            }
        }
        Ok(())
    }
}

/// Adapts an `L` to `CacheLoader`.
///
/// It forwards each call once, and returns what `L` returns: its relations are those of `L`. To state more, implement
/// [`jc_outside::CacheLoader`].
#[derive(Drop)]
pub struct Loading<L: Load + Drop> {
    /// The wrapped loader.
    pub loader: L,
}

impl<L: Load + Drop> CacheLoader for Loading<L> {
    ghost use Rattle.std.specs.Prelude.{◌⊎◌};
    ghost use Rattle.jc_outside.specs.Answers.{no_answers};
    ghost use Rattle.jc_plain.specs.Loads.{LoadsEach};

    ghost load_state = { λ l. L.load_state l.loader };

    ghost loads = { λ l key answer after. L.loads l.loader key answer after };

    ghost loads_all = { λ l keys answer answers after. LoadsEach L.loads L.load_state l.loader keys (no_answers keys) answer answers after
        ⊎ L.loads_all l.loader keys answer answers after };

    fn load(&mut self, key: &Key) -> Result<Option<Value>, u32> {
        self.loader.load(key)
    }

    fn load_all(&mut self, keys: &[Key], answers: &mut Answers) -> Result<(), u32> {
        self.loader.load_all(keys, answers)
    }
}
