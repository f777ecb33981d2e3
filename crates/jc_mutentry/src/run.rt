//! Runs of entry processors.
ghost use Rattle.std.specs.Prelude.{◌≡◌, List, true};
ghost use Rattle.jc_model.specs.Table.{is_process_given};
ghost use Rattle.jc_model.specs.declared.processor.EntryCall.{EntryCall};
ghost use Rattle.jc_model.specs.declared.processor.EntryAnswer.{EntryAnswer};
ghost use Rattle.jc_model.specs.Processor.{process_answer};
ghost use Rattle.jc_outside.specs.Calling.{KeepsType};
ghost use Rattle.jc_outside.specs.declared.done.Origin.TheVariants.{Live};
ghost use Rattle.jc_mutentry.specs.Entries.{new_entry, IsAfter, IsSameEntry};
ghost use Rattle.jc_mutentry.specs.Running.{RunsOnce, LoadsIfGiven};

use crate::ask::AskProcess;
use crate::done::ProcDone;
use crate::entry::MutableEntry;
use crate::processor::EntryProcessor;
use jc_model::{Effect, ProcessAnswer};
use jc_outside::{CacheLoader, Hands, Origin, Outside};
use jc_types::Value;
use std::sync::Wait;

/// Runs an entry processor once, on the entry of the ask. The session's loader is called at most once, if the processor asks for
/// the value of an entry that it may load; without a loader nothing is found.
///
/// It may wait, as long as the processor and the loader do.
///
/// Condition: the session holds no stripe.
pub fn run_processor<A: AskProcess, R: Wait>(
    _rt: &R,
    hands: &mut Hands<Outside>,
    processor: &mut Box<dyn EntryProcessor + Send + Drop>,
    ask: A,
    args: &[Value],
) -> ProcDone<A>
    requires { hands.old.held ≡ 0 }
    ensures ask { result.ask ≡ ask }
    ensures origin { result.origin ≡ Live }
    ensures given { is_process_given result.process ≡ true }
    ensures run { RunsOnce processes process_state
        processor.old (A.key ask) args.now (A.may_load ask) (A.initial ask) result.load result.process processor.new }
    ensures processor_type { processor.new.vtable ≡ processor.old.vtable }
    ensures loader_type { KeepsType hands.old.outside.loader hands.new.outside.loader }
    ensures loader { LoadsIfGiven (λ b. loads (b.vtable, b.value)) (λ b. load_state (b.vtable, b.value))
        hands.old.outside.loader (A.key ask) result.load hands.new.outside.loader }
    ensures writer { hands.new.outside.writer ≡ hands.old.outside.writer }
    ensures held { hands.new.held ≡ 0 }
{
    let mut entry = MutableEntry::new(*ask.key(), ask.initial(), ask.may_load());
    let mut loader = hands.take_loader();
    let returned = run_on(processor, &mut entry, &mut loader, args);
    hands.put_loader(loader);
    let (load, effect) = entry.into_parts();
    ProcDone::new(ask, Origin::Live, load, process_answer(effect, returned))
}

/// Runs a processor on an entry, with a session's loader or without one.
fn run_on(
    processor: &mut Box<dyn EntryProcessor + Send + Drop>,
    entry: &mut MutableEntry,
    loader: &mut Option<Box<dyn CacheLoader + Send + Drop>>,
    args: &[Value],
) -> Result<Option<Value>, u32>
    requires { entry.old.entry ≡ new_entry entry.old.entry.initial entry.old.entry.may_load }
    ensures same { IsSameEntry entry.old.entry entry.new.entry }
    ensures calls { (calls : List EntryCall) × (answers : List EntryAnswer) × IsAfter entry.new.entry calls answers
        × processes processor.old entry.old.key args.now calls answers result (process_state processor.new) }
    ensures processor_type { processor.new.vtable ≡ processor.old.vtable }
    ensures loader_type { KeepsType loader.old loader.new }
    ensures loader { LoadsIfGiven loads load_state loader.old entry.old.key entry.new.entry.load loader.new }
{
    match loader {
        Some(loader) => processor.process(entry, &mut **loader, args),
        None => processor.process_alone(entry, args),
    }
}

/// The answer of a processor, by its net effect and its return.
pub(crate) fn process_answer(effect: Effect, returned: Result<Option<Value>, u32>) -> ProcessAnswer
    ensures { result ≡ process_answer effect returned }
{
    match returned {
        Ok(outcome) => ProcessAnswer::Ended { effect, outcome },
        Err(code) => ProcessAnswer::Failed(code),
    }
}
