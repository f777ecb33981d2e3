//! The events of a history, for C.
ghost use Rattle.std.specs.Prelude.{◌≡◌, ◌==◌, ◌&&◌, ◌||◌, ◌↔◌, ◌⊎◌, ◌<◌, ℕ, true, false, length, map, nat_le, nat_lt, slice_get, is_some, IsTrue, IfOk, IfSome, Option, Some, None, if◌then◌else◌};
ghost use Rattle.std.specs.List.{list_all};
ghost use Rattle.jc_model.specs.Cache.{Bytes};
ghost use Rattle.jc_model.specs.declared.event.Event.{Event};
ghost use Rattle.jc_model.specs.declared.event.ProcessAnswer.TheVariants.{Ended};
ghost use Rattle.jc_model.specs.Legal.{Legal};
ghost use Rattle.jc_model.specs.Table.{op_values};
ghost use Rattle.jc_c.specs.declared.codes.TheConstants.{JC_OK, JC_CODE_NONE, JC_CODE_NO_MEMORY, JC_CODE_BAD_ARGUMENT, JC_ANSWER_NOT_ASKED, JC_EFFECT_NOT_RUN, JC_CAUSE_INVALIDATED, JC_REPLY_PROCESSOR_FAILED};
ghost use Rattle.jc_c.specs.Layouts.{inline_value, is_inline_value, StaysBehindValue, inline_entries, config_of};
ghost use Rattle.jc_c.specs.Requests.{op_of_number, op_number_fits, load_number_fits, write_number_fits, effect_number_fits, load_of_number, write_of_number, process_answer_of, read_outcome, entry_fits};
ghost use Rattle.jc_c.specs.Events.{read_cause, process_if_run, read_outside, shared_in, read_reply, step_fits, read_step, outside_fits, event_fits, read_event, HasOutsideLengths, HasLengths, ShowsEvent};
ghost use Rattle.jc_c.specs.Replies.{KeepsBesideValue};
ghost use Rattle.jc_c.specs.Events.{KeepsBesideValues, KeepsBesideLoad, KeepsBesideWrite, KeepsBesideEffect, KeepsBesideProcess, KeepsBesideOutside, KeepsBesideShared, KeepsBesideEvent};
ghost use Rattle.jc_c.specs.Exports.{export_code};

use crate::codes::{
    JC_ANSWER_FAILED, JC_ANSWER_FOUND, JC_ANSWER_NOT_ASKED, JC_ANSWER_NOTHING, JC_ANSWER_WRITTEN,
    JC_CAUSE_INVALIDATED, JC_CAUSE_MEMORY, JC_CAUSE_ROOM, JC_CODE_BAD_ARGUMENT, JC_CODE_NO_MEMORY,
    JC_CODE_NONE, JC_CODE_WRONG_HANDLE, JC_EFFECT_FAILED, JC_EFFECT_KEEP, JC_EFFECT_NOT_RUN,
    JC_EFFECT_REMOVE, JC_EFFECT_SET, JC_EVENT_EVICTION, JC_EVENT_STEP, JC_OK,
    JC_REPLY_LOADER_FAILED, JC_REPLY_NO, JC_REPLY_NULL, JC_REPLY_PROCESSOR_FAILED, JC_REPLY_UNIT,
    JC_REPLY_VALUE, JC_REPLY_WRITER_FAILED, JC_REPLY_YES,
};
use crate::handle::Handle;
use crate::layouts::{CacheShape, FlatEvent, InlineEntry, InlineValue, ProcessorAnswers};
use crate::opening::{config_of, contents_of, entries_fit};
use crate::replies::{show_reply, show_value};
use crate::requests::{answers_beside, read_op, read_process};
use jc_model::{
    Cause, Effect, Event, LoadAnswer, Op, OpValues, Out, ProcessAnswer, Reply, WriteAnswer, legal,
};
use jc_parcel::Loose;
use jc_types::{Caller, Field, Key, Refusal, Value};
use std::alloc::{AllocError, Global};

/// Writes an operation: its number, and its values.
fn show_op(op: &Op, number: &mut u32, value: &mut InlineValue, other: &mut InlineValue)
    ensures op { op_of_number number.new (inline_value value.new) (inline_value other.new) ≡ op.now }
    ensures number { op_number_fits number.new ≡ true }
    ensures value { is_inline_value value.old ≡ true → is_inline_value value.new ≡ true }
    ensures other { is_inline_value other.old ≡ true → is_inline_value other.new ≡ true }
    ensures others { KeepsBesideValues (op_values op.now) value.old value.new other.old other.new }
{
    *number = u32::from(op.number());
    match op.values() {
        OpValues::Nothing => {}
        OpValues::One(held) => show_value(held, value),
        OpValues::Two { first, second } => {
            show_value(first, value);
            show_value(second, other);
        }
    }
}

/// Writes a number, and a value beside it.
fn show_with(value: &Value, is: u32, number: &mut u32, room: &mut InlineValue)
    ensures number { number.new ≡ is }
    ensures value { inline_value room.new ≡ value.now }
    ensures fits { is_inline_value room.new ≡ true }
    ensures behind { StaysBehindValue room.old room.new }
{
    *number = is;
    show_value(value, room);
}

/// Writes the answer of a loader.
fn show_load(load: &LoadAnswer, number: &mut u32, code: &mut u32, room: &mut InlineValue)
    ensures load { load_of_number number.new code.new (inline_value room.new) ≡ load.now }
    ensures number { ((number.new == JC_ANSWER_NOT_ASKED) || load_number_fits number.new) ≡ true }
    ensures fits { is_inline_value room.old ≡ true → is_inline_value room.new ≡ true }
    ensures others { KeepsBesideLoad load.now code.old code.new room.old room.new }
{
    match load {
        LoadAnswer::NotAsked => *number = JC_ANSWER_NOT_ASKED,
        LoadAnswer::Found(value) => show_with(value, JC_ANSWER_FOUND, number, room),
        LoadAnswer::Nothing => *number = JC_ANSWER_NOTHING,
        LoadAnswer::Failed(failed) => {
            *number = JC_ANSWER_FAILED;
            *code = *failed;
        }
    }
}

/// Writes the answer of a writer.
fn show_write(write: &WriteAnswer, number: &mut u32, code: &mut u32)
    ensures write { write_of_number number.new code.new ≡ write.now }
    ensures number { ((number.new == JC_ANSWER_NOT_ASKED) || write_number_fits number.new) ≡ true }
    ensures others { KeepsBesideWrite write.now code.old code.new }
{
    match write {
        WriteAnswer::NotAsked => *number = JC_ANSWER_NOT_ASKED,
        WriteAnswer::Done => *number = JC_ANSWER_WRITTEN,
        WriteAnswer::Failed(failed) => {
            *number = JC_ANSWER_FAILED;
            *code = *failed;
        }
    }
}

/// Writes the effect of a processor on its entry.
fn show_effect(effect: &Effect, number: &mut u32, room: &mut InlineValue)
    ensures number { (number.new == JC_EFFECT_NOT_RUN) ≡ false }
    ensures known { effect_number_fits number.new ≡ true }
    ensures fits { is_inline_value room.old ≡ true → is_inline_value room.new ≡ true }
    ensures effect { (code : ℕ) (outcome : Option Bytes) → process_answer_of number.new code (inline_value room.new) outcome ≡ Ended effect.now outcome }
    ensures others { KeepsBesideEffect effect.now room.old room.new }
{
    match effect {
        Effect::Keep => *number = JC_EFFECT_KEEP,
        Effect::Set(value) => show_with(value, JC_EFFECT_SET, number, room),
        Effect::Remove => *number = JC_EFFECT_REMOVE,
    }
}

/// Writes the return of a processor, if it returned a value.
fn show_outcome(outcome: &Option<Value>, has: &mut bool, room: &mut InlineValue)
    ensures outcome { read_outcome has.new (inline_value room.new) ≡ outcome.now }
    ensures fits { is_inline_value room.old ≡ true → is_inline_value room.new ≡ true }
    ensures others { KeepsBesideValue outcome.now room.old room.new }
{
    match outcome {
        None => *has = false,
        Some(value) => {
            *has = true;
            show_value(value, room);
        }
    }
}

/// Writes the answer of a processor, if one ran.
fn show_process(process: &ProcessAnswer, out: &mut ProcessorAnswers)
    ensures process { process_if_run out.new ≡ process.now }
    ensures number { ((out.new.effect == JC_EFFECT_NOT_RUN) || effect_number_fits out.new.effect) ≡ true }
    ensures set { is_inline_value out.old.set ≡ true → is_inline_value out.new.set ≡ true }
    ensures outcome { is_inline_value out.old.outcome ≡ true → is_inline_value out.new.outcome ≡ true }
    ensures load { (out.new.load ≡ out.old.load) × (out.new.load_code ≡ out.old.load_code) × (out.new.loaded ≡ out.old.loaded) }
    ensures write { (out.new.write ≡ out.old.write) × (out.new.write_code ≡ out.old.write_code) }
    ensures others { KeepsBesideProcess process.now out.old out.new }
{
    match process {
        ProcessAnswer::NotAsked => out.effect = JC_EFFECT_NOT_RUN,
        ProcessAnswer::Ended { effect, outcome } => {
            show_effect(effect, &mut out.effect, &mut out.set);
            show_outcome(outcome, &mut out.has_outcome, &mut out.outcome);
        }
        ProcessAnswer::Failed(failed) => {
            out.effect = JC_EFFECT_FAILED;
            out.code = *failed;
        }
    }
}

/// Writes the outside answers.
fn show_outside(answers: &Out, out: &mut ProcessorAnswers)
    ensures answers { read_outside out.new ≡ answers.now }
    ensures load { ((out.new.load == JC_ANSWER_NOT_ASKED) || load_number_fits out.new.load) ≡ true }
    ensures write { ((out.new.write == JC_ANSWER_NOT_ASKED) || write_number_fits out.new.write) ≡ true }
    ensures effect { ((out.new.effect == JC_EFFECT_NOT_RUN) || effect_number_fits out.new.effect) ≡ true }
    ensures fits { HasOutsideLengths out.old → HasOutsideLengths out.new }
    ensures others { KeepsBesideOutside answers.now out.old out.new }
{
    show_load(
        &answers.load,
        &mut out.load,
        &mut out.load_code,
        &mut out.loaded,
    );
    show_write(&answers.write, &mut out.write, &mut out.write_code);
    show_process(&answers.process, out);
}

/// Writes an event.
fn show_event(event: &Event, out: &mut FlatEvent)
    ensures shown { ShowsEvent event.now out.new }
    ensures others { KeepsBesideEvent event.now out.old out.new }
    ensures fits { HasLengths out.old → HasLengths out.new }
{
    match event {
        Event::Step {
            caller,
            op,
            key,
            out: answers,
            shared_with,
            reply,
        } => {
            out.kind = JC_EVENT_STEP;
            out.session = caller.session;
            out.call = caller.call;
            show_op(op, &mut out.op, &mut out.value, &mut out.other);
            out.key.set(key);
            show_outside(answers, &mut out.outside);
            show_shared(*shared_with, &mut out.is_shared, &mut out.shared_with);
            show_reply(reply, &mut out.reply, &mut out.reply_code, &mut out.replied);
        }
        Event::Evict { key, cause } => {
            out.kind = JC_EVENT_EVICTION;
            out.key.set(key);
            out.cause = match cause {
                Cause::Full => JC_CAUSE_ROOM,
                Cause::Memory => JC_CAUSE_MEMORY,
                Cause::Invalidated => JC_CAUSE_INVALIDATED,
            };
        }
    }
}

/// Writes the place of the step whose load is shared, if it is.
fn show_shared(shared: Option<u32>, is_shared: &mut bool, place: &mut u32)
    ensures shared { (if is_shared.new then Some place.new else None) ≡ shared }
    ensures others { KeepsBesideShared shared place.old place.new }
{
    match shared {
        None => *is_shared = false,
        Some(step) => {
            *is_shared = true;
            *place = step;
        }
    }
}

/// Writes the event at a place of the present generation, from 0. `JC_CODE_NONE` says that it has no such place.
#[unsafe(no_mangle)]
pub extern "C" fn jc_event(h: &mut Handle, alloc: Global, place: usize, out: &mut FlatEvent) -> u32
    ensures code { result ≡ export_code h.old.is_open true (nat_lt place (length h.old.desk.stripe.history)) JC_CODE_NONE }
    ensures shown { result ≡ JC_OK → (event : Event) × (slice_get h.old.desk.stripe.history place ≡ Some event) × ShowsEvent event out.new
        × KeepsBesideEvent event out.old out.new }
    ensures fits { result ≡ JC_OK → HasLengths out.old → HasLengths out.new }
    ensures none { (result ≡ JC_OK) ⊎ (out.new ≡ out.old) }
    ensures same { (h.new.is_open ≡ h.old.is_open) × (h.new.desk ≡ h.old.desk) }
{
    if !h.is_open() {
        return JC_CODE_WRONG_HANDLE;
    }
    let rooms = h.take(alloc).into_box();
    if rooms.desk.events_len() <= place {
        h.put(Loose::of(rooms));
        return JC_CODE_NONE;
    }
    let event = rooms.desk.event(place);
    h.put(Loose::of(rooms));
    show_event(&event, out);
    JC_OK
}

/// Reads the cause of an eviction.
fn read_cause(number: u32) -> Cause
    ensures { result ≡ read_cause number }
{
    if number == JC_CAUSE_ROOM {
        Cause::Full
    } else if number == JC_CAUSE_MEMORY {
        Cause::Memory
    } else {
        Cause::Invalidated
    }
}

/// Reads a reply, by its number.
fn read_reply(number: u32, code: u32, value: Value) -> Option<Reply>
    ensures fits { is_some result ≡ nat_le number JC_REPLY_PROCESSOR_FAILED }
    ensures reply { IfSome result (λ reply. reply ≡ read_reply number code value) }
{
    match number {
        JC_REPLY_UNIT => Some(Reply::Unit),
        JC_REPLY_NO => Some(Reply::Flag(false)),
        JC_REPLY_YES => Some(Reply::Flag(true)),
        JC_REPLY_NULL => Some(Reply::Value(None)),
        JC_REPLY_VALUE => Some(Reply::Value(Some(value))),
        JC_REPLY_LOADER_FAILED => Some(Reply::Fault(Refusal::LoaderFailed(code))),
        JC_REPLY_WRITER_FAILED => Some(Reply::Fault(Refusal::WriterFailed(code))),
        JC_REPLY_PROCESSOR_FAILED => Some(Reply::Fault(Refusal::ProcessorFailed(code))),
        _ => None,
    }
}

/// Reads the outside answers of a step. `None` says that a number is unknown or a value is too long.
fn read_outside(outside: &ProcessorAnswers) -> Option<Out>
    ensures fits { is_some result ≡ outside_fits outside.now }
    ensures answers { IfSome result (λ out. out ≡ read_outside outside.now) }
{
    let _types: Option<&(Effect, Value)> = None;
    if outside.effect == JC_EFFECT_NOT_RUN {
        return answers_beside(outside, ProcessAnswer::NotAsked);
    }
    let process = read_process(outside)?;
    answers_beside(outside, process)
}

/// Reads a step at this key.
fn read_step(flat: &FlatEvent, key: Key) -> Option<Event>
    ensures fits { is_some result ≡ step_fits flat.now }
    ensures step { IfSome result (λ event. event ≡ read_step flat.now key) }
{
    let value = flat.value.value()?;
    let other = flat.other.value()?;
    let op = read_op(flat.op, value.bytes(), other.bytes())?;
    let out = read_outside(&flat.outside)?;
    let replied = flat.replied.value()?;
    let reply = read_reply(flat.reply, flat.reply_code, replied)?;
    Some(Event::Step {
        caller: Caller {
            session: flat.session,
            call: flat.call,
        },
        op,
        key,
        out,
        shared_with: shared_in(flat),
        reply,
    })
}

/// Reads the place of the step whose load is shared, if it is.
fn shared_in(flat: &FlatEvent) -> Option<u32>
    ensures { result ≡ shared_in flat.now }
{
    if flat.is_shared {
        Some(flat.shared_with)
    } else {
        None
    }
}

/// Reads an event. `None` says that a field doesn't fit.
fn read_event(flat: &FlatEvent) -> Option<Event>
    ensures fits { is_some result ≡ event_fits flat.now }
    ensures event { IfSome result (λ event. event ≡ read_event flat.now) }
{
    let key = flat.key.key()?;
    if flat.kind == JC_EVENT_EVICTION {
        if flat.cause > JC_CAUSE_INVALIDATED {
            return None;
        }
        return Some(Event::Evict {
            key,
            cause: read_cause(flat.cause),
        });
    }
    if flat.kind != JC_EVENT_STEP {
        return None;
    }
    read_step(flat, key)
}

/// Whether each of these can be read as an event.
fn flat_events_fit(events: &[FlatEvent]) -> bool
    ensures { result ≡ list_all event_fits events.now }
{
    events.iter().all(|flat| read_event(flat).is_some())
}

/// Reads the events that C passes. An `Err` says that an allocation failed.
fn read_events(alloc: Global, events: &[FlatEvent]) -> Result<Vec<Event>, AllocError>
    requires { list_all event_fits events.now ≡ true }
    ensures { IfOk result (λ list. list.items ≡ map read_event events.now) }
{
    let _answers: Option<(Out, LoadAnswer, WriteAnswer, ProcessAnswer, Effect, Value)> = None;
    let _types: Option<&(Caller, Op, Key, Reply, Refusal, Field, Cause)> = None;
    let mut list = Vec::with_capacity(alloc, events.len())?;
    for flat in events {
        match read_event(flat) {
            Some(event) => list.push_reserved(event),
            None => unreachable!(),
        }
    }
    Ok(list)
}

/// Writes whether these events are a legal history of one stripe of a cache of this shape, that began with these entries. It
/// needs no desk. `JC_CODE_BAD_ARGUMENT` says that an entry or an event has a number that is unknown, or a length that doesn't fit.
#[unsafe(no_mangle)]
pub extern "C" fn jc_legal(
    alloc: Global,
    shape: &CacheShape,
    opening: &[InlineEntry],
    events: &[FlatEvent],
    is_legal: &mut bool,
) -> u32
    ensures told { result ≡ JC_OK → (IsTrue is_legal.new ↔ Legal (config_of shape.now) (inline_entries opening.now) (map read_event events.now)) }
    ensures bad { (result ≡ JC_CODE_BAD_ARGUMENT) ↔ ((list_all entry_fits opening.now && list_all event_fits events.now) ≡ false) }
    ensures codes { (result ≡ JC_OK) ⊎ (result ≡ JC_CODE_BAD_ARGUMENT) ⊎ (result ≡ JC_CODE_NO_MEMORY) }
    ensures none { (result ≡ JC_OK) ⊎ (is_legal.new ≡ is_legal.old) }
{
    if !entries_fit(opening) || !flat_events_fit(events) {
        return JC_CODE_BAD_ARGUMENT;
    }
    let Ok(contents) = contents_of(alloc, opening) else {
        return JC_CODE_NO_MEMORY;
    };
    let Ok(history) = read_events(alloc, events) else {
        return JC_CODE_NO_MEMORY;
    };
    match legal(alloc, &config_of(shape), &contents, &history) {
        Ok(told) => {
            *is_legal = told;
            JC_OK
        }
        Err(AllocError) => JC_CODE_NO_MEMORY,
    }
}
