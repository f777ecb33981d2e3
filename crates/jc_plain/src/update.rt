//! Entry processors.
use jc_mutentry::{EntryProcessor, MutableEntry};
use jc_outside::CacheLoader;
use jc_types::{Key, Value};

/// Changes the value of an entry (`javax.cache.processor.EntryProcessor`; JSR 107, "Entry Processors").
///
/// It sees only the value, and neither the entry nor the loader. If a processor must not load, or must write a value even if it
/// is there already, implement [`jc_mutentry::EntryProcessor`].
///
/// Its relation holds of every call unless an author gives another, so without a contract of your own you write none of the
/// `ghost` lines.
pub trait Update {
    ghost use Rattle.std.specs.Prelude.{ℕ, List, [], Option, Result};
    ghost use Rattle.jc_model.specs.Cache.{Bytes};

    /// The processor's state, as plain data.
    ghost update_state: { Self → List ℕ } = { λ u. [] };

    /// One call: the key, the value that was found, the arguments, the answer, the value that is left.
    ghost updates: { Self → Bytes → Option Bytes → List Bytes → Result (Option Bytes) ℕ → Option Bytes → List ℕ → Type 0 } = { λ u key found args answer left after. Unit {0} };

    /// Changes the value at a key in place, and returns the call's answer: a value, or none. `args` are those of the call.
    ///
    /// `value` is the entry's value, or the value that was loaded for a missing entry, or none. Its value afterwards decides:
    ///
    /// | Before | After | The entry |
    /// |---|---|---|
    /// | none | none | stays missing. The writer isn't asked |
    /// | a value | the same value | stays as it is. It isn't written, and counts as no put, also if it was assigned |
    /// | none, or a value | another value | gets that value; with write-through on it is written first (`setValue`) |
    /// | a value | none | is removed; with write-through on it is deleted in the store first (`remove`) |
    ///
    /// An `Err` has a code of the author's own: the call fails with `ProcessorFailed` of that code, and neither the entry nor the
    /// store changes.
    fn update(
        &mut self,
        key: &Key,
        value: &mut Option<Value>,
        args: &[Value],
    ) -> Result<Option<Value>, u32>
        ensures { updates self.old key.now value.old args.now result value.new (update_state self.new) };
}

/// Adapts a `U` to `EntryProcessor`.
///
/// It always gets the value first: with read-through on, a missing entry is loaded. If that load fails, the update isn't made,
/// and the call fails with `LoaderFailed`. Then it lets `U` change the value, and sets or removes the entry if the value has
/// changed. If it hasn't, a value that was loaded is cached. It may wait, as long as the loader and `U` do.
///
/// It asks `U` once, and returns what `U` returns; its relation states this by that of `U`. To state more, implement
/// [`jc_mutentry::EntryProcessor`].
#[derive(Drop)]
pub struct Updating<U: Update + Drop> {
    /// The wrapped processor.
    pub processor: U,
}

impl<U: Update + Drop> EntryProcessor for Updating<U> {
    ghost use Rattle.jc_plain.specs.Updates.{UpdatesEntry};

    ghost process_state = { λ p. U.update_state p.processor };

    ghost processes = { λ p key args calls answers answer after.
        UpdatesEntry U.updates U.update_state p.processor key args calls answers answer after };

    fn process(
        &mut self,
        entry: &mut MutableEntry,
        loader: &mut dyn CacheLoader,
        args: &[Value],
    ) -> Result<Option<Value>, u32> {
        let old = match entry.get_value(loader) {
            Ok(old) => old,
            Err(code) => return Err(code),
        };
        let key = *entry.key();
        let mut value = old;
        let answer = match self.processor.update(&key, &mut value, args) {
            Ok(answer) => answer,
            Err(code) => return Err(code),
        };
        if value == old {
            return Ok(answer);
        }
        match value {
            Some(new) => {
                entry.set_value(&new);
                Ok(answer)
            }
            None => {
                entry.remove();
                Ok(answer)
            }
        }
    }
}
