//! What an entry processor saw of its entry.
ghost use Rattle.std.specs.Prelude.{◌≡◌, ◌↔◌, ◌&&◌, ◌||◌, ◌<◌, ◌++◌, ◌∷◌, [], ℕ, IsTrue, is_none, is_some, length, get_or, option_map, take, map, unwrap_or};
ghost use Rattle.std.specs.Option.{option_or};
ghost use Rattle.jc_model.specs.Processor.{answer_after, before_mutation, failed_load, found_in, has_get, last_mutation, loaded_in};
ghost use Rattle.jc_model.specs.Processor.{mutation, net_effect, uses_load, value_or_fault};
ghost use Rattle.jc_check.specs.Spot.{AreAnswered, FitsEffect, FitsProcess, FitsSights, calls_of};

use crate::record::EntrySight;
use jc_model::{Effect, EntryAnswer, EntryCall, LoadAnswer, Out, ProcessAnswer};
use jc_types::Value;

/// The entry that a mutation leaves: missing, or with a value.
fn mutation(call: &EntryCall) -> Option<Option<Value>>
    ensures { result ≡ mutation call.now }
{
    match call {
        EntryCall::SetValue(value) => Some(Some(*value)),
        EntryCall::Remove => Some(None),
        EntryCall::GetValue | EntryCall::Exists => None,
    }
}

/// The last mutation among the calls, if any.
fn last_mutation(sights: &[EntrySight]) -> Option<Option<Value>>
    ensures { result ≡ last_mutation (calls_of sights.now) }
{
    let mut last = None;
    for sight in sights {
        last = mutation(&sight.call).or(last);
    }
    last
}

/// Whether a call asks for the value before the first mutation.
fn has_early_get(sights: &[EntrySight]) -> bool
    ensures { result ≡ has_get (before_mutation (calls_of sights.now)) }
{
    for sight in sights {
        match sight.call {
            EntryCall::GetValue => return true,
            EntryCall::SetValue(_) | EntryCall::Remove => return false,
            EntryCall::Exists => {}
        }
    }
    false
}

/// Whether the loader is asked.
fn uses_load(read_through: bool, entry: &Option<Value>, sights: &[EntrySight]) -> bool
    ensures { result ≡ uses_load read_through entry.now (calls_of sights.now) }
{
    read_through && entry.is_none() && has_early_get(sights)
}

/// The code of the load that failed, if one did.
fn failed_load(
    read_through: bool,
    entry: &Option<Value>,
    answer: &LoadAnswer,
    sights: &[EntrySight],
) -> Option<u32>
    ensures { result ≡ failed_load read_through entry.now answer.now (calls_of sights.now) }
{
    if !uses_load(read_through, entry, sights) {
        return None;
    }
    match answer {
        LoadAnswer::Failed(code) => Some(*code),
        LoadAnswer::NotAsked | LoadAnswer::Found(_) | LoadAnswer::Nothing => None,
    }
}

/// The value that the loader found, if any.
fn found_in(answer: &LoadAnswer) -> Option<Value>
    ensures { result ≡ found_in answer.now }
{
    match answer {
        LoadAnswer::Found(value) => Some(*value),
        LoadAnswer::NotAsked | LoadAnswer::Nothing | LoadAnswer::Failed(_) => None,
    }
}

/// The answer to a call for the value.
fn value_after(
    read_through: bool,
    entry: &Option<Value>,
    answer: &LoadAnswer,
    before: &[EntrySight],
) -> Option<Value>
    ensures { result ≡ unwrap_or (last_mutation (calls_of before.now)) (option_or entry.now (loaded_in read_through answer.now)) }
{
    match last_mutation(before) {
        Some(value) => value,
        None => match entry {
            Some(value) => Some(*value),
            None => { if read_through { found_in(answer) } else { None } }
        },
    }
}

/// The net effect of a processor.
fn net_effect(
    read_through: bool,
    entry: &Option<Value>,
    answer: &LoadAnswer,
    sights: &[EntrySight],
) -> Effect
    ensures { result ≡ net_effect read_through entry.now answer.now (calls_of sights.now) }
{
    if failed_load(read_through, entry, answer, sights).is_some() {
        return Effect::Keep;
    }
    match last_mutation(sights) {
        None => Effect::Keep,
        Some(None) => Effect::Remove,
        Some(Some(value)) => Effect::Set(value),
    }
}

/// The answer to a call for the value: the fault of a load that failed, or the value.
fn value_or_fault(fault: Option<u32>, value: Option<Value>) -> EntryAnswer
    ensures { result ≡ value_or_fault fault value }
{
    match fault {
        Some(code) => EntryAnswer::Failed(code),
        None => EntryAnswer::Value(value),
    }
}

/// Whether the entry is there for a processor, if no load has failed.
fn is_there(
    read_through: bool,
    entry: &Option<Value>,
    answer: &LoadAnswer,
    before: &[EntrySight],
) -> bool
    ensures { result ≡ unwrap_or (option_map is_some (last_mutation (calls_of before.now)))
        (is_some entry.now || (uses_load read_through entry.now (calls_of before.now) && is_some (found_in answer.now))) }
{
    match last_mutation(before) {
        Some(value) => value.is_some(),
        None => entry.is_some()
            || (uses_load(read_through, entry, before) && found_in(answer).is_some()),
    }
}

/// The answer to a call, after these calls before it; `with` has the call, too.
fn answer_after(
    read_through: bool,
    entry: &Option<Value>,
    answer: &LoadAnswer,
    before: &[EntrySight],
    with: &[EntrySight],
    call: EntryCall,
) -> EntryAnswer
    requires { calls_of with.now ≡ calls_of before.now ++ call ∷ [] }
    ensures { result ≡ answer_after read_through entry.now answer.now (calls_of before.now) call }
{
    match call {
        EntryCall::GetValue => value_or_fault(
            failed_load(read_through, entry, answer, with),
            value_after(read_through, entry, answer, before),
        ),
        EntryCall::Exists => EntryAnswer::Present(
            failed_load(read_through, entry, answer, before).is_none()
                && is_there(read_through, entry, answer, before),
        ),
        EntryCall::SetValue(_) | EntryCall::Remove => EntryAnswer::Done,
    }
}

/// Whether two answers are the same.
fn is_same_answer(first: &EntryAnswer, second: &EntryAnswer) -> bool
    ensures { IsTrue result ↔ (first.now ≡ second.now) }
{
    *first == *second
}

/// Whether each call was answered as the table has it.
fn do_answers_fit(
    read_through: bool,
    entry: &Option<Value>,
    answer: &LoadAnswer,
    sights: &[EntrySight],
) -> bool
    ensures { IsTrue result ↔ AreAnswered read_through entry.now answer.now sights.now }
{
    for place in 0..sights.len() {
        let expected = answer_after(
            read_through,
            entry,
            answer,
            &sights[..place],
            &sights[..place + 1],
            sights[place].call,
        );
        if !is_same_answer(&sights[place].answer, &expected) {
            return false;
        }
    }
    true
}

/// Whether the net effect of a processor that ended is this one.
fn does_effect_fit(process: &ProcessAnswer, net: &Effect) -> bool
    ensures { IsTrue result ↔ FitsEffect process.now net.now }
{
    match process {
        ProcessAnswer::Ended { effect, outcome: _ } => *effect == *net,
        ProcessAnswer::NotAsked | ProcessAnswer::Failed(_) => true,
    }
}

/// Whether a processor saw what the table has, if the operation runs one.
pub(crate) fn do_sights_fit(
    is_invoke: bool,
    read_through: bool,
    entry: &Option<Value>,
    sights: &[EntrySight],
    out: &Out,
) -> bool
    ensures { IsTrue result ↔ FitsSights is_invoke read_through entry.now sights.now out.now }
{
    if !is_invoke {
        return true;
    }
    out.load.is_given() == uses_load(read_through, entry, sights)
        && do_answers_fit(read_through, entry, &out.load, sights)
        && does_effect_fit(
            &out.process,
            &net_effect(read_through, entry, &out.load, sights),
        )
}
