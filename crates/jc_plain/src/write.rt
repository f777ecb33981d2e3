//! Writers.
use crate::attempts::{attempt_entries, attempt_keys};
use indexmap::{IndexMap, IndexSet};
use jc_outside::CacheWriter;
use jc_types::{Key, Value};

/// Changes a store when its cache is changed (`javax.cache.integration.CacheWriter`; JSR 107, "Integration").
///
/// A writer is called while the session holds no stripe, before the cache changes, and must not call the cache. A writer that
/// waits, for example for a lock or a connection, holds a runtime of its own.
///
/// Its relations are those of [`jc_outside::CacheWriter`]. They hold of every call unless an author gives others, so without
/// contracts of your own you write none of the `ghost` lines.
pub trait Write {
    ghost use Rattle.std.specs.Prelude.{◌⊎◌, ℕ, List, [], Result};
    ghost use Rattle.jc_model.specs.Cache.{Bytes};
    ghost use Rattle.jc_model.specs.declared.event.Change.{Change};
    ghost use Rattle.jc_model.specs.declared.event.Change.TheVariants.{Write, Delete};
    ghost use Rattle.jc_plain.specs.Writes.{WritesEach, DeletesEach};

    /// The writer's state, as plain data.
    ghost write_state: { Self → List ℕ } = { λ w. [] };

    /// One call of `write` or `delete`: the key, the change, the answer.
    ghost writes: { Self → Bytes → Change → Result (Unit {0}) ℕ → List ℕ → Type 0 } = { λ w key change answer after. Unit {0} };

    /// One call of a `write_all` of the author's own: the entries, the answer, the entries that are left.
    ghost writes_all: { Self → List (Bytes × Bytes) → Result (Unit {0}) ℕ → List (Bytes × Bytes) → List ℕ → Type 0 } = { λ w entries answer left after. Unit {0} };

    /// One call of a `delete_all` of the author's own: the keys, the answer, the keys that are left.
    ghost deletes_all: { Self → List Bytes → Result (Unit {0}) ℕ → List Bytes → List ℕ → Type 0 } = { λ w keys answer left after. Unit {0} };

    /// Writes a value (`write`).
    ///
    /// An `Err` has a code of the author's own: the call that asked fails with `WriterFailed` of that code, and its entry stays as
    /// it was. So an `Err` should mean that the store hasn't changed.
    fn write(&mut self, key: &Key, value: &Value) -> Result<(), u32>
        ensures { writes self.old key.now (Write value.now) result (write_state self.new) };

    /// Deletes the entry of a key (`delete`). It is no failure if there is none.
    ///
    /// An `Err` has the meaning of that of [`write`](Write::write).
    fn delete(&mut self, key: &Key) -> Result<(), u32>
        ensures { writes self.old key.now Delete result (write_state self.new) };

    /// Writes entries, and removes each that it has written from the collection (`writeAll`).
    ///
    /// By default it writes one entry after another, in their order, and continues after one that failed. Then exactly those that
    /// failed are left, in their order. It is `Ok` exactly if nothing is left; an `Err` is the last failure.
    ///
    /// For a store that writes many entries in one transaction, write your own body. What it leaves decides, whatever it returns:
    /// each entry that is left failed, with the code, or with 0 after an `Ok`; each other one was written. So a transaction that
    /// fails should leave all, and one that commits should end with `entries.clear()`.
    fn write_all(&mut self, entries: &mut IndexMap<Key, Value>) -> Result<(), u32>
        ensures { WritesEach writes write_state self.old entries.old.entries result entries.new.entries
            ⊎ writes_all self.old entries.old.entries result entries.new.entries (write_state self.new) }
    {
        attempt_entries(
            entries,
            |key: &Key, value: &Value| -> Result<(), u32>
                requires { Unit {0} }
                ensures { writes self.entry.now key.now (Write value.now) result (write_state self.exit.now) }
            { self.write(key, value) },
        )
    }

    /// Deletes the entries of these keys, and removes each key that it has deleted from the collection (`deleteAll`).
    ///
    /// The default and the rules of a body of its own are those of [`write_all`](Write::write_all).
    fn delete_all(&mut self, keys: &mut IndexSet<Key>) -> Result<(), u32>
        ensures { DeletesEach writes write_state self.old keys.old.keys result keys.new.keys
            ⊎ deletes_all self.old keys.old.keys result keys.new.keys (write_state self.new) }
    {
        attempt_keys(
            keys,
            |key: &Key| -> Result<(), u32>
                requires { Unit {0} }
                ensures { writes self.entry.now key.now Delete result (write_state self.exit.now) }
            { self.delete(key) },
        )
    }
}

/// Adapts a `W` to `CacheWriter`.
///
/// It forwards each call once, and returns and leaves what `W` does: its relations are those of `W`. To state more, implement
/// [`jc_outside::CacheWriter`].
#[derive(Drop)]
pub struct Writing<W: Write + Drop> {
    /// The wrapped writer.
    pub writer: W,
}

impl<W: Write + Drop> CacheWriter for Writing<W> {
    ghost use Rattle.std.specs.Prelude.{◌⊎◌};
    ghost use Rattle.jc_plain.specs.Writes.{WritesEach, DeletesEach};

    ghost write_state = { λ w. W.write_state w.writer };

    ghost writes = { λ w key change answer after. W.writes w.writer key change answer after };

    ghost writes_all = { λ w entries answer left after. WritesEach W.writes W.write_state w.writer entries answer left
        ⊎ W.writes_all w.writer entries answer left after };

    ghost deletes_all = { λ w keys answer left after. DeletesEach W.writes W.write_state w.writer keys answer left
        ⊎ W.deletes_all w.writer keys answer left after };

    fn write(&mut self, key: &Key, value: &Value) -> Result<(), u32> {
        self.writer.write(key, value)
    }

    fn delete(&mut self, key: &Key) -> Result<(), u32> {
        self.writer.delete(key)
    }

    fn write_all(&mut self, entries: &mut IndexMap<Key, Value>) -> Result<(), u32> {
        self.writer.write_all(entries)
    }

    fn delete_all(&mut self, keys: &mut IndexSet<Key>) -> Result<(), u32> {
        self.writer.delete_all(keys)
    }
}
