//! Played runs of entry processors: a script or a test states the calls that they make.
ghost use Rattle.std.specs.Prelude.{◌≡◌, ◌++◌, ◌+◌, ◌≤◌, ◌<◌, List, [], ◌∷◌, true, None, length, vec_len, vec_capacity, unwrap_or};
ghost use Rattle.jc_model.specs.declared.processor.EntryCall.{EntryCall};
ghost use Rattle.jc_model.specs.declared.processor.EntryCall.TheVariants.{GetValue};
ghost use Rattle.jc_model.specs.declared.processor.EntryAnswer.{EntryAnswer};
ghost use Rattle.jc_model.specs.Table.{is_load_given, is_process_given, load_fits, wanted_if};
ghost use Rattle.jc_model.specs.Processor.{answer_value};
ghost use Rattle.jc_outside.specs.declared.done.Origin.TheVariants.{Played};
ghost use Rattle.jc_mutentry.specs.Entries.{new_entry, Makes};
ghost use Rattle.jc_mutentry.specs.Inside.{is_load_failed};
ghost use Rattle.jc_mutentry.specs.Playing.{played_answers, played_load, played_outcome, LoadsAs, IsPlayed};

use crate::ask::AskProcess;
use crate::done::ProcDone;
use crate::entry_core::{EntryCore, GetOutcome};
use crate::run::process_answer;
use jc_model::{EntryAnswer, EntryCall, LoadAnswer, ProcessAnswer};
use jc_outside::Origin;
use jc_types::Value;

/// A played run of a processor. It makes these calls on the entry, and then fails with the code, or returns the last value that a
/// `getValue` answered, or none. If the loader is asked, it answers `load`. After a failed load no further call is made.
///
/// The answer to each call is appended to `answers`, in their order.
///
/// Conditions: the loader's answer isn't `NotAsked`, and there is room for one answer for each call.
pub fn played_process<A: AskProcess>(
    ask: A,
    calls: &[EntryCall],
    fail: Option<u32>,
    load: LoadAnswer,
    answers: &mut Vec<EntryAnswer>,
) -> ProcDone<A>
    requires given { is_load_given load ≡ true }
    requires room { vec_len answers.old + length calls.now ≤ vec_capacity answers.old }
    ensures ask { result.ask ≡ ask }
    ensures origin { result.origin ≡ Played }
    ensures load { result.load ≡ played_load (A.may_load ask) (A.initial ask) load calls.now }
    ensures process { result.process ≡ played_outcome (A.may_load ask) (A.initial ask) load calls.now fail }
    ensures answers { answers.new.items ≡ answers.old.items ++ played_answers (A.may_load ask) (A.initial ask) load calls.now }
{
    let mut entry = EntryCore::new(ask.initial(), ask.may_load());
    let last = play_calls(&mut entry, calls, &load, answers);
    let returned = match fail {
        Some(code) => Err(code),
        None => Ok(last),
    };
    let (answered, effect) = (entry.load_answer(), entry.effect());
    ProcDone::new(
        ask,
        Origin::Played,
        answered,
        process_answer(effect, returned),
    )
}

/// The done value of a processor that ran elsewhere, as its driver states it.
///
/// Conditions: the processor ran, and the loader was asked only if the ask says that it may be.
pub fn said_process<A: AskProcess>(ask: A, load: LoadAnswer, process: ProcessAnswer) -> ProcDone<A>
    requires given { is_process_given process ≡ true }
    requires fits { load_fits (wanted_if (A.may_load ask)) (is_load_given load) ≡ true }
    ensures { result ≡ record { ask = ask; origin = Played; load = load; process = process } }
{
    ProcDone::new(ask, Origin::Played, load, process)
}

/// Makes the calls, each unless the load has failed, and returns the last value among the answers.
fn play_calls(
    entry: &mut EntryCore,
    calls: &[EntryCall],
    load: &LoadAnswer,
    answers: &mut Vec<EntryAnswer>,
) -> Option<Value>
    requires new_entry { entry.old ≡ new_entry entry.old.initial entry.old.may_load }
    requires given { is_load_given load.now ≡ true }
    requires room { vec_len answers.old + length calls.now ≤ vec_capacity answers.old }
    ensures same { (entry.new.initial ≡ entry.old.initial) × (entry.new.may_load ≡ entry.old.may_load) }
    ensures played { (given : List EntryAnswer) × IsPlayed entry.new load.now calls.now given result
        × (answers.new.items ≡ answers.old.items ++ given) }
{
    let mut last = None;
    for call in calls {
        play_call(entry, call, load, answers, &mut last);
    }
    last
}

/// Makes one more call, unless the load has failed.
fn play_call(
    entry: &mut EntryCore,
    call: &EntryCall,
    load: &LoadAnswer,
    answers: &mut Vec<EntryAnswer>,
    last: &mut Option<Value>,
)
    requires given { is_load_given load.now ≡ true }
    requires room { vec_len answers.old < vec_capacity answers.old }
    ensures same { (entry.new.initial ≡ entry.old.initial) × (entry.new.may_load ≡ entry.old.may_load) }
    ensures capacity { vec_capacity answers.new ≡ vec_capacity answers.old }
    ensures len { vec_len answers.new ≤ vec_len answers.old + 1 }
    ensures played { (calls : List EntryCall) (given : List EntryAnswer) → IsPlayed entry.old load.now calls given last.old
        → (more : List EntryAnswer) × IsPlayed entry.new load.now (calls ++ call.now ∷ []) (given ++ more) last.new
        × (answers.new.items ≡ answers.old.items ++ more) }
{
    if has_failed(&entry.load_answer()) {
        return;
    }
    let answer = make_call(entry, call, load);
    note(last, &answer);
    answers.push_reserved(answer);
}

/// Notes the value, if the answer has one.
fn note(last: &mut Option<Value>, answer: &EntryAnswer)
    ensures { last.new ≡ unwrap_or (answer_value answer.now) last.old }
{
    match answer {
        EntryAnswer::Value(value) => *last = *value,
        EntryAnswer::Present(_) | EntryAnswer::Done | EntryAnswer::Failed(_) => {}
    }
}

/// Whether the load failed.
fn has_failed(load: &LoadAnswer) -> bool
    ensures { result ≡ is_load_failed load.now }
{
    match load {
        LoadAnswer::Failed(_) => true,
        LoadAnswer::NotAsked | LoadAnswer::Found(_) | LoadAnswer::Nothing => false,
    }
}

/// Makes a call, and returns its answer. If the loader is asked, it answers this.
fn make_call(entry: &mut EntryCore, call: &EntryCall, load: &LoadAnswer) -> EntryAnswer
    requires { is_load_given load.now ≡ true }
    ensures makes { Makes entry.old call.now result entry.new }
    ensures load { LoadsAs load.now entry.old.load entry.new.load }
{
    match call {
        EntryCall::GetValue => got_with(entry, load),
        EntryCall::Exists => EntryAnswer::Present(entry.exists()),
        EntryCall::SetValue(value) => {
            entry.set_value(value);
            EntryAnswer::Done
        }
        EntryCall::Remove => {
            entry.remove();
            EntryAnswer::Done
        }
    }
}

/// Asks for the value. If the loader is asked, it answers this.
fn got_with(entry: &mut EntryCore, load: &LoadAnswer) -> EntryAnswer
    requires { is_load_given load.now ≡ true }
    ensures makes { Makes entry.old GetValue result entry.new }
    ensures load { LoadsAs load.now entry.old.load entry.new.load }
{
    match entry.get_value() {
        GetOutcome::Value(value) => EntryAnswer::Value(value),
        GetOutcome::Failed(code) => EntryAnswer::Failed(code),
        GetOutcome::MustLoad => match entry.load(*load) {
            Ok(value) => EntryAnswer::Value(value),
            Err(code) => EntryAnswer::Failed(code),
        },
    }
}
