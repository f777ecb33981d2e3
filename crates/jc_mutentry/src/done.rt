//! The outcome of an entry processor, and the answer of its loader.
ghost use Rattle.std.specs.Prelude.{◌≡◌, true};
ghost use Rattle.jc_model.specs.Table.{is_process_given, load_fits, wanted_if, is_load_given};
ghost use Rattle.jc_mutentry.specs.Done.{effect_change};

use crate::ask::AskProcess;
use jc_model::{Change, LoadAnswer, Op, ProcessAnswer};
use jc_outside::Origin;
use std::marker::Model;
use std::snapshot::Snapshot;

/// The outcome of an entry processor on the entry of one ask, and the loader's answer if `getValue` asked it.
///
/// The ask was spent when this was made, and only clauses see it. A done value can be neither dropped nor copied: the commit that
/// ends the ask's reservation spends it.
pub struct ProcDone<A: AskProcess> {
    ask: Snapshot<A>,
    origin: Origin,
    load: LoadAnswer,
    process: ProcessAnswer,
}

impl<A: AskProcess> Model for ProcDone<A> {
    ghost use Rattle.std.specs.Prelude.{◌≡◌, true};
    ghost use Rattle.jc_model.specs.Table.{is_process_given, load_fits, wanted_if, is_load_given};
    ghost use Rattle.jc_mutentry.specs.Done.{ProcessResult};

    ghost Value = { ProcessResult A };

    ghost view = { λ d. record { ask = d.ask.value; origin = d.origin; load = d.load; process = d.process } };

    ghost invariant = { λ d. (is_process_given d.process ≡ true)
        × (load_fits (wanted_if (A.may_load d.ask.value)) (is_load_given d.load) ≡ true) };
}

impl<A: AskProcess> ProcDone<A> {
    /// The loader's answer: `NotAsked` if the processor's calls didn't ask it.
    pub fn load(&self) -> &LoadAnswer
        ensures { result.now ≡ self.now.load }
    {
        &self.load
    }

    /// The processor's answer.
    pub fn process(&self) -> &ProcessAnswer
        ensures { result.now ≡ self.now.process }
    {
        &self.process
    }

    /// The write or delete that the writer is to be asked for with write-through on: that of the net effect, or none. After a
    /// loader's or processor's fault there is none (JSR 107, "Entry Processors").
    pub fn change(&self) -> Option<Change>
        ensures { result ≡ effect_change self.now.load self.now.process }
    {
        match self.load {
            LoadAnswer::Failed(_) => None,
            LoadAnswer::NotAsked | LoadAnswer::Found(_) | LoadAnswer::Nothing => {
                match Op::Invoke.write_ask(&None, &self.process) {
                    Some(change) => Some(change.to_change()),
                    None => None,
                }
            }
        }
    }

    /// The answers of the loader and the processor. The done value is spent.
    pub fn into_answers(self) -> (LoadAnswer, ProcessAnswer)
        ensures load { result.0 ≡ self.load }
        ensures process { result.1 ≡ self.process }
        ensures given { is_process_given self.process ≡ true }
        ensures fits { load_fits (wanted_if (A.may_load self.ask)) (is_load_given self.load) ≡ true }
    {
        let ProcDone {
            ask: _,
            origin: _,
            load,
            process,
        } = self;
        (load, process)
    }

    /// The done value of an ask, which is spent.
    pub(crate) fn new(ask: A, origin: Origin, load: LoadAnswer, process: ProcessAnswer) -> Self
        requires given { is_process_given process ≡ true }
        requires fits { load_fits (wanted_if (A.may_load ask)) (is_load_given load) ≡ true }
        ensures { result ≡ record { ask = ask; origin = origin; load = load; process = process } }
    {
        let answered = Snapshot::of(&ask);
        ask.spend();
        ProcDone {
            ask: answered,
            origin,
            load,
            process,
        }
    }
}
