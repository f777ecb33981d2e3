//! Writers, which a caller brings to a cache (JSR 107, `CacheWriter`).
use indexmap::{IndexMap, IndexSet};
use jc_types::{Key, Value};

/// Changes the store when the cache is changed (`javax.cache.integration.CacheWriter`; JSR 107, "Integration").
///
/// A call is a relation of the writer before, its arguments, its answer, and the writer's state afterwards as plain data. A write
/// and a delete of one key are one relation.
pub trait CacheWriter {
    ghost use Rattle.std.specs.Prelude.{ℕ, List, Result};
    ghost use Rattle.jc_model.specs.Cache.{Bytes};
    ghost use Rattle.jc_model.specs.declared.event.Change.{Change};
    ghost use Rattle.jc_model.specs.declared.event.Change.TheVariants.{Write, Delete};

    /// The writer's state, as plain data.
    ghost write_state: { Self → List ℕ };

    /// One call of `write` or `delete`: the key, the change, the answer.
    ghost writes: { Self → Bytes → Change → Result (Unit {0}) ℕ → List ℕ → Type 0 };

    /// One call of `write_all`: the entries, the answer, the entries that are left.
    ghost writes_all: { Self → List (Bytes × Bytes) → Result (Unit {0}) ℕ → List (Bytes × Bytes) → List ℕ → Type 0 };

    /// One call of `delete_all`: the keys, the answer, the keys that are left.
    ghost deletes_all: { Self → List Bytes → Result (Unit {0}) ℕ → List Bytes → List ℕ → Type 0 };

    /// Writes a value (`write`). An `Err` has a code of the writer's own.
    fn write(&mut self, key: &Key, value: &Value) -> Result<(), u32>
        ensures { writes self.old key.now (Write value.now) result (write_state self.new) };

    /// Deletes the entry of a key, if there is one (`delete`). An `Err` has a code of the writer's own.
    fn delete(&mut self, key: &Key) -> Result<(), u32>
        ensures { writes self.old key.now Delete result (write_state self.new) };

    /// Writes entries (`writeAll`), and removes each that it has written from the collection: an entry that is left wasn't
    /// written. An `Err` has a code of the writer's own.
    fn write_all(&mut self, entries: &mut IndexMap<Key, Value>) -> Result<(), u32>
        ensures { writes_all self.old entries.old.entries result entries.new.entries (write_state self.new) };

    /// Deletes the entries of these keys (`deleteAll`), and removes each that it has deleted from the collection: a key that is
    /// left wasn't deleted. An `Err` has a code of the writer's own.
    fn delete_all(&mut self, keys: &mut IndexSet<Key>) -> Result<(), u32>
        ensures { deletes_all self.old keys.old.keys result keys.new.keys (write_state self.new) };
}
