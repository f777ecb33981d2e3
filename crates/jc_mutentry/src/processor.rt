//! Entry processors that a caller brings.
use crate::entry::MutableEntry;
use jc_outside::{Answers, CacheLoader};
use jc_types::{Key, Value};

/// The loader of a session that has none: it finds nothing.
#[derive(Drop)]
struct NoLoader;

impl CacheLoader for NoLoader {
    ghost use Rattle.std.specs.Prelude.{◌≡◌, [], None, Ok};

    ghost load_state = { λ l. [] };

    ghost loads = { λ l key answer after. answer ≡ Ok None };

    ghost loads_all = { λ l keys answer answers after. answer ≡ Ok tt };

    fn load(&mut self, _key: &Key) -> Result<Option<Value>, u32> {
        Ok(None)
    }

    fn load_all(&mut self, _keys: &[Key], _answers: &mut Answers) -> Result<(), u32> {
        Ok(())
    }
}

/// Runs on one entry (`javax.cache.processor.EntryProcessor`; JSR 107, "Entry Processors").
///
/// A run is a relation of the processor before, the key, the arguments, the calls on the entry with their answers, the
/// processor's own answer, and its state afterwards as plain data. So a contract can state that a processor was run once, and a
/// processor states by its relation what it does.
pub trait EntryProcessor {
    ghost use Rattle.std.specs.Prelude.{◌≡◌, ℕ, List, Option, Result};
    ghost use Rattle.jc_model.specs.Cache.{Bytes};
    ghost use Rattle.jc_model.specs.declared.processor.EntryCall.{EntryCall};
    ghost use Rattle.jc_model.specs.declared.processor.EntryAnswer.{EntryAnswer};
    ghost use Rattle.jc_model.specs.declared.event.LoadAnswer.TheVariants.{Nothing};
    ghost use Rattle.jc_model.specs.Table.{is_load_given};
    ghost use Rattle.jc_model.specs.Processor.{answer_if};
    ghost use Rattle.jc_mutentry.specs.Entries.{new_entry, IsAfter, IsSameEntry, LoadsOn};

    /// The processor's state, as plain data.
    ghost process_state: { Self → List ℕ };

    /// One run: the key, the arguments, the calls on the entry, the answer to each of them, the processor's answer.
    ghost processes: { Self → Bytes → List Bytes → List EntryCall → List EntryAnswer → Result (Option Bytes) ℕ → List ℕ → Type 0 };

    /// Runs on an entry on which no call was made, and keeps its key and its initial value. It calls the loader only by the
    /// entry's `get_value`. An `Err` has a code of the processor's own, and then none of its mutations counts.
    ///
    /// Condition: no call was made on the entry.
    fn process(
        &mut self,
        entry: &mut MutableEntry,
        loader: &mut dyn CacheLoader,
        args: &[Value],
    ) -> Result<Option<Value>, u32>
        requires { entry.old.entry ≡ new_entry entry.old.entry.initial entry.old.entry.may_load }
        ensures key { entry.new.key ≡ entry.old.key }
        ensures same { IsSameEntry entry.old.entry entry.new.entry }
        ensures calls { (calls : List EntryCall) × (answers : List EntryAnswer) × IsAfter entry.new.entry calls answers
            × processes self.old entry.old.key args.now calls answers result (process_state self.new) }
        ensures loader { LoadsOn loads load_state entry.old.key
            entry.old.entry.load entry.new.entry.load loader.old loader.new };

    /// As [`process`](EntryProcessor::process), for a session without a loader: a load finds nothing.
    ///
    /// Condition: no call was made on the entry.
    fn process_alone(
        &mut self,
        entry: &mut MutableEntry,
        args: &[Value],
    ) -> Result<Option<Value>, u32>
        requires { entry.old.entry ≡ new_entry entry.old.entry.initial entry.old.entry.may_load }
        ensures key { entry.new.key ≡ entry.old.key }
        ensures same { IsSameEntry entry.old.entry entry.new.entry }
        ensures calls { (calls : List EntryCall) × (answers : List EntryAnswer) × IsAfter entry.new.entry calls answers
            × processes self.old entry.old.key args.now calls answers result (process_state self.new) }
        ensures load { entry.new.entry.load ≡ answer_if (is_load_given entry.new.entry.load) Nothing }
    {
        self.process(entry, &mut NoLoader, args)
    }
}
