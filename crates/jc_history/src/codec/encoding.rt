//! Encodes events as bytes.
//!
//! Each function appends to a vector that has room for the longest thing of its kind with as many values, so it takes no memory.
//! It ensures which bytes it appends, and that they decode to the thing.
ghost use Rattle.std.specs.Prelude.{◌≡◌, ◌+◌, ◌*◌, ◌<◌, ◌≤◌, ◌^◌, ◌∷◌, ◌++◌, length, vec_len, vec_capacity, Some};
ghost use Rattle.std.specs.List.{AllByRecursion};
ghost use Rattle.std.specs.Option.{option_len};
ghost use Rattle.std.specs.Int.{w16, w32, to_le_bytes};
ghost use Rattle.jc_model.specs.declared.event.Reply.TheVariants as reply;
ghost use Rattle.jc_model.specs.Table.{lent_values};
ghost use Rattle.jc_history.specs.Appending.{Appends};
ghost use Rattle.jc_history.specs.Encoding.{text_bytes, optional_bytes, caller_bytes, values_bytes, op_bytes, load_bytes, write_bytes};
ghost use Rattle.jc_history.specs.Encoding.{effect_bytes, process_bytes, out_bytes, refusal_bytes, reply_bytes, event_bytes};
ghost use Rattle.jc_history.specs.Encodable.{IsCode, IsKeyText, IsValueText, IsEncodableOptional, IsEncodableCaller};
ghost use Rattle.jc_history.specs.Encodable.{IsEncodableOp, IsEncodableLoad, IsEncodableWrite, IsEncodableEffect};
ghost use Rattle.jc_history.specs.Encodable.{IsEncodableProcess, IsEncodableOut, IsEncodableRefusal, IsEncodableReply};
ghost use Rattle.jc_history.specs.Encodable.{IsEncodable};
ghost use Rattle.jc_history.specs.Past.{hit_event};
ghost use Rattle.jc_history.specs.Values.{repeats_outside, values_in_op, values_in_load, values_in_effect};
ghost use Rattle.jc_history.specs.Values.{values_in_process, values_in_out, values_in_reply, IsStorable};

use crate::lent::LentStep;
use crate::room::{
    CALLER_ROOM, EVENT_ROOM, KEY_ROOM, LENGTH_ROOM, OUT_ROOM, REPLY_ROOM, TAG_ROOM,
    TAGGED_CODE_ROOM, TAGGED_VALUE_ROOM, VALUE_ROOM,
};
use jc_model::{
    Cause, Effect, Event, LoadAnswer, Op, OpValues, Out, ProcessAnswer, Reply, WriteAnswer,
};
use jc_types::{Caller, Field, Key, Refusal, Value};

/// Appends bytes.
fn append(out: &mut Vec<u8>, bytes: &[u8])
    requires { vec_len out.old + length bytes.now ≤ vec_capacity out.old }
    ensures items { out.new.items ≡ out.old.items ++ bytes.now }
    ensures len { vec_len out.new ≡ vec_len out.old + length bytes.now }
    ensures capacity { vec_capacity out.old ≤ vec_capacity out.new }
{
    let _ = out.extend_from_slice(bytes);
}

fn encode_text(out: &mut Vec<u8>, text: &[u8])
    requires short { length text.now < 2 ^ 16 }
    requires room { vec_len out.old + LENGTH_ROOM + length text.now ≤ vec_capacity out.old }
    ensures { Appends out.old out.new (text_bytes text.now) (LENGTH_ROOM + length text.now) }
{
    append(out, &(text.len() as u16).to_le_bytes());
    append(out, text);
}

fn encode_key(out: &mut Vec<u8>, key: &Key)
    requires { vec_len out.old + KEY_ROOM ≤ vec_capacity out.old }
    ensures appends { Appends out.old out.new (text_bytes key.now) KEY_ROOM }
    ensures encodable { IsKeyText key.now }
{
    encode_text(out, key.bytes());
}

fn encode_value(out: &mut Vec<u8>, value: &Value)
    requires { vec_len out.old + VALUE_ROOM ≤ vec_capacity out.old }
    ensures appends { Appends out.old out.new (text_bytes value.now) VALUE_ROOM }
    ensures encodable { IsValueText value.now }
{
    encode_text(out, value.bytes());
}

/// Appends a tag, and the value after it.
fn encode_tagged_value(out: &mut Vec<u8>, tag: u8, value: &Value)
    requires { vec_len out.old + TAGGED_VALUE_ROOM ≤ vec_capacity out.old }
    ensures appends { Appends out.old out.new (tag ∷ text_bytes value.now) TAGGED_VALUE_ROOM }
    ensures encodable { IsValueText value.now }
{
    out.push_reserved(tag);
    encode_value(out, value);
}

/// Appends a tag, and the number after it.
fn encode_tagged_code(out: &mut Vec<u8>, tag: u8, code: u32)
    requires { vec_len out.old + TAGGED_CODE_ROOM ≤ vec_capacity out.old }
    ensures appends { Appends out.old out.new (tag ∷ to_le_bytes w32 code) TAGGED_CODE_ROOM }
{
    let [a, b, c, d] = code.to_le_bytes();
    append(out, &[tag, a, b, c, d]);
}

fn encode_caller(out: &mut Vec<u8>, caller: &Caller)
    requires { vec_len out.old + CALLER_ROOM ≤ vec_capacity out.old }
    ensures appends { Appends out.old out.new (caller_bytes caller.now) CALLER_ROOM }
    ensures encodable { IsEncodableCaller caller.now }
{
    append(out, &caller.session.to_le_bytes());
    append(out, &caller.call.to_le_bytes());
}

/// Appends the values of an operation, one after another.
fn encode_values(out: &mut Vec<u8>, values: OpValues)
    requires { vec_len out.old + length (lent_values values) * VALUE_ROOM ≤ vec_capacity out.old }
    ensures appends { Appends out.old out.new (values_bytes (lent_values values.entry)) (length (lent_values values.entry) * VALUE_ROOM) }
    ensures encodable { AllByRecursion IsValueText (lent_values values.entry) }
{
    match values {
        OpValues::Nothing => {}
        OpValues::One(value) => encode_value(out, value),
        OpValues::Two { first, second } => {
            encode_value(out, first);
            encode_value(out, second);
        }
    }
}

fn encode_op(out: &mut Vec<u8>, op: &Op)
    requires { vec_len out.old + (TAG_ROOM + values_in_op op.now * VALUE_ROOM) ≤ vec_capacity out.old }
    ensures appends { Appends out.old out.new (op_bytes op.now) (TAG_ROOM + values_in_op op.now * VALUE_ROOM) }
    ensures encodable { IsEncodableOp op.now }
{
    out.push_reserved(op.number());
    encode_values(out, op.values());
}

fn encode_load(out: &mut Vec<u8>, answer: &LoadAnswer)
    requires { vec_len out.old + (TAGGED_CODE_ROOM + values_in_load answer.now * VALUE_ROOM) ≤ vec_capacity out.old }
    ensures appends { Appends out.old out.new (load_bytes answer.now) (TAGGED_CODE_ROOM + values_in_load answer.now * VALUE_ROOM) }
    ensures encodable { IsEncodableLoad answer.now }
{
    match answer {
        LoadAnswer::NotAsked => out.push_reserved(0),
        LoadAnswer::Found(value) => encode_tagged_value(out, 1, value),
        LoadAnswer::Nothing => out.push_reserved(2),
        LoadAnswer::Failed(code) => encode_tagged_code(out, 3, *code),
    }
}

fn encode_write(out: &mut Vec<u8>, answer: &WriteAnswer)
    requires { vec_len out.old + TAGGED_CODE_ROOM ≤ vec_capacity out.old }
    ensures appends { Appends out.old out.new (write_bytes answer.now) TAGGED_CODE_ROOM }
    ensures encodable { IsEncodableWrite answer.now }
{
    match answer {
        WriteAnswer::NotAsked => out.push_reserved(0),
        WriteAnswer::Done => out.push_reserved(1),
        WriteAnswer::Failed(code) => encode_tagged_code(out, 2, *code),
    }
}

fn encode_effect(out: &mut Vec<u8>, effect: &Effect)
    requires { vec_len out.old + (TAG_ROOM + values_in_effect effect.now * VALUE_ROOM) ≤ vec_capacity out.old }
    ensures appends { Appends out.old out.new (effect_bytes effect.now) (TAG_ROOM + values_in_effect effect.now * VALUE_ROOM) }
    ensures encodable { IsEncodableEffect effect.now }
{
    match effect {
        Effect::Keep => out.push_reserved(0),
        Effect::Set(value) => encode_tagged_value(out, 1, value),
        Effect::Remove => out.push_reserved(2),
    }
}

fn encode_outcome(out: &mut Vec<u8>, outcome: &Option<Value>)
    requires { vec_len out.old + (TAG_ROOM + option_len outcome.now * VALUE_ROOM) ≤ vec_capacity out.old }
    ensures appends { Appends out.old out.new (optional_bytes text_bytes outcome.now) (TAG_ROOM + option_len outcome.now * VALUE_ROOM) }
    ensures encodable { IsEncodableOptional IsValueText outcome.now }
{
    match outcome {
        None => out.push_reserved(0),
        Some(value) => encode_tagged_value(out, 1, value),
    }
}

fn encode_process(out: &mut Vec<u8>, answer: &ProcessAnswer)
    requires { vec_len out.old + (TAGGED_CODE_ROOM + values_in_process answer.now * VALUE_ROOM) ≤ vec_capacity out.old }
    ensures appends { Appends out.old out.new (process_bytes answer.now) (TAGGED_CODE_ROOM + values_in_process answer.now * VALUE_ROOM) }
    ensures encodable { IsEncodableProcess answer.now }
{
    match answer {
        ProcessAnswer::NotAsked => out.push_reserved(0),
        ProcessAnswer::Ended { effect, outcome } => {
            out.push_reserved(1);
            encode_effect(out, effect);
            encode_outcome(out, outcome);
        }
        ProcessAnswer::Failed(code) => encode_tagged_code(out, 2, *code),
    }
}

fn encode_out(out: &mut Vec<u8>, answers: &Out)
    requires { vec_len out.old + (OUT_ROOM + values_in_out answers.now * VALUE_ROOM) ≤ vec_capacity out.old }
    ensures appends { Appends out.old out.new (out_bytes answers.now) (OUT_ROOM + values_in_out answers.now * VALUE_ROOM) }
    ensures encodable { IsEncodableOut answers.now }
{
    encode_load(out, &answers.load);
    encode_write(out, &answers.write);
    encode_process(out, &answers.process);
}

fn encode_refusal(out: &mut Vec<u8>, refusal: &Refusal)
    requires { vec_len out.old + TAGGED_CODE_ROOM ≤ vec_capacity out.old }
    ensures appends { Appends out.old out.new (refusal_bytes refusal.now) TAGGED_CODE_ROOM }
    ensures encodable { IsEncodableRefusal refusal.now }
{
    match refusal {
        Refusal::HistoryFull => out.push_reserved(0),
        Refusal::Busy => out.push_reserved(1),
        Refusal::TooManyInFlight => out.push_reserved(2),
        Refusal::TooManyJoiners => out.push_reserved(3),
        Refusal::LoaderFailed(code) => encode_tagged_code(out, 4, *code),
        Refusal::WriterFailed(code) => encode_tagged_code(out, 5, *code),
        Refusal::ProcessorFailed(code) => encode_tagged_code(out, 6, *code),
        Refusal::OutOfMemory => out.push_reserved(7),
        Refusal::TooManyKeys => out.push_reserved(8),
        Refusal::BadConfig(Field::Stripes) => out.push_reserved(9),
        Refusal::BadConfig(Field::Capacity) => out.push_reserved(10),
        Refusal::BadConfig(Field::History) => out.push_reserved(11),
        Refusal::NoLoader => out.push_reserved(12),
        Refusal::NoWriter => out.push_reserved(13),
        Refusal::TooManySessions => out.push_reserved(14),
        Refusal::StillReserved => out.push_reserved(15),
        Refusal::RepeatedKey => out.push_reserved(16),
    }
}

/// Whether a reply with a value of these bytes repeats one that came from outside.
fn repeats_outside(answers: &Out, value: &[u8]) -> bool
    ensures { result ≡ repeats_outside answers.now value.now }
{
    match &answers.process {
        ProcessAnswer::Ended {
            effect: _,
            outcome: Some(outcome),
        } => outcome.bytes() == value,
        ProcessAnswer::NotAsked
        | ProcessAnswer::Ended {
            effect: _,
            outcome: None,
        }
        | ProcessAnswer::Failed(_) => match &answers.load {
            LoadAnswer::Found(found) => found.bytes() == value,
            LoadAnswer::NotAsked | LoadAnswer::Nothing | LoadAnswer::Failed(_) => false,
        },
    }
}

/// Appends a reply that is a value. A value from outside is in the event already, and isn't stored again.
fn encode_value_reply(out: &mut Vec<u8>, answers: &Out, value: &Value)
    requires { vec_len out.old + (TAG_ROOM + values_in_reply answers.now (reply.Value (Some value.now)) * VALUE_ROOM)
        ≤ vec_capacity out.old }
    ensures appends { Appends out.old out.new (reply_bytes answers.now (reply.Value (Some value.now)))
        (TAG_ROOM + values_in_reply answers.now (reply.Value (Some value.now)) * VALUE_ROOM) }
    ensures encodable { IsValueText value.now }
{
    if repeats_outside(answers, value.bytes()) {
        out.push_reserved(6);
    } else {
        encode_tagged_value(out, 4, value);
    }
}

/// Appends the reply of a step with these outside answers.
fn encode_reply(out: &mut Vec<u8>, answers: &Out, reply: &Reply)
    requires { vec_len out.old + (REPLY_ROOM + values_in_reply answers.now reply.now * VALUE_ROOM) ≤ vec_capacity out.old }
    ensures appends { Appends out.old out.new (reply_bytes answers.now reply.now)
        (REPLY_ROOM + values_in_reply answers.now reply.now * VALUE_ROOM) }
    ensures encodable { IsEncodableReply reply.now }
{
    match reply {
        Reply::Unit => out.push_reserved(0),
        Reply::Flag(false) => out.push_reserved(1),
        Reply::Flag(true) => out.push_reserved(2),
        Reply::Value(None) => out.push_reserved(3),
        Reply::Value(Some(value)) => encode_value_reply(out, answers, value),
        Reply::Fault(refusal) => {
            out.push_reserved(5);
            encode_refusal(out, refusal);
        }
    }
}

fn encode_shared_with(out: &mut Vec<u8>, place: &Option<u32>)
    requires { vec_len out.old + TAGGED_CODE_ROOM ≤ vec_capacity out.old }
    ensures appends { Appends out.old out.new (optional_bytes (to_le_bytes w32) place.now) TAGGED_CODE_ROOM }
    ensures encodable { IsEncodableOptional IsCode place.now }
{
    match place {
        None => out.push_reserved(0),
        Some(place) => encode_tagged_code(out, 1, *place),
    }
}

/// Appends the bytes of a step, at most [`EVENT_ROOM`] of them.
pub(crate) fn encode_step(out: &mut Vec<u8>, step: &LentStep)
    requires storable { IsStorable step.now }
    requires room { vec_len out.old + EVENT_ROOM ≤ vec_capacity out.old }
    ensures appends { Appends out.old out.new (event_bytes step.now) EVENT_ROOM }
    ensures encodable { IsEncodable step.now }
{
    out.push_reserved(0);
    encode_out(out, step.out);
    encode_reply(out, step.out, step.reply);
    encode_caller(out, step.caller);
    encode_key(out, step.key);
    encode_op(out, step.op);
    encode_shared_with(out, step.shared_with);
}

/// Appends the length of a value and the tags before it: those of a step, of a loader, a writer and a processor that were not
/// asked, and of a reply with a value.
fn encode_hit_start(out: &mut Vec<u8>, length: u16)
    requires { vec_len out.old + (5 * TAG_ROOM + LENGTH_ROOM) ≤ vec_capacity out.old }
    ensures { Appends out.old out.new (0 ∷ 0 ∷ 0 ∷ 0 ∷ 4 ∷ to_le_bytes w16 length) (5 * TAG_ROOM + LENGTH_ROOM) }
{
    let [a, b] = length.to_le_bytes();
    append(out, &[0, 0, 0, 0, 4, a, b]);
}

/// Appends a caller, and the length of the key that follows.
fn encode_hit_caller(out: &mut Vec<u8>, caller: &Caller, length: u16)
    requires { vec_len out.old + (CALLER_ROOM + LENGTH_ROOM) ≤ vec_capacity out.old }
    ensures appends { Appends out.old out.new (caller_bytes caller.now ++ to_le_bytes w16 length) (CALLER_ROOM + LENGTH_ROOM) }
    ensures encodable { IsEncodableCaller caller.now }
{
    let Caller { session, call } = *caller;
    let [a, b, c, d] = session.to_le_bytes();
    let [e, f, g, h, i, j, k, l] = call.to_le_bytes();
    let [m, n] = length.to_le_bytes();
    append(out, &[a, b, c, d, e, f, g, h, i, j, k, l, m, n]);
}

/// Appends the bytes of a `get` that found this value, and asked nobody. These are the bytes that [`encode_step`] appends for the
/// same step, in fewer pieces of fixed size.
pub(crate) fn encode_hit(out: &mut Vec<u8>, caller: &Caller, key: &Key, value: &Value)
    requires { vec_len out.old + EVENT_ROOM ≤ vec_capacity out.old }
    ensures appends { Appends out.old out.new (event_bytes (hit_event caller.now key.now value.now)) EVENT_ROOM }
    ensures encodable { IsEncodable (hit_event caller.now key.now value.now) }
{
    let (value, key) = (value.bytes(), key.bytes());
    encode_hit_start(out, value.len() as u16);
    append(out, value);
    encode_hit_caller(out, caller, key.len() as u16);
    append(out, key);
    // `Get`, and no load shared.
    append(out, &[0, 0]);
}

/// Appends the bytes of an event, at most [`EVENT_ROOM`] of them.
pub(crate) fn encode_event(out: &mut Vec<u8>, event: &Event)
    requires storable { IsStorable event.now }
    requires room { vec_len out.old + EVENT_ROOM ≤ vec_capacity out.old }
    ensures appends { Appends out.old out.new (event_bytes event.now) EVENT_ROOM }
    ensures encodable { IsEncodable event.now }
{
    match event {
        Event::Step {
            caller,
            op,
            key,
            out: answers,
            shared_with,
            reply,
        } => encode_step(
            out,
            &LentStep {
                caller,
                op,
                key,
                out: answers,
                shared_with,
                reply,
            },
        ),
        Event::Evict { key, cause } => {
            out.push_reserved(match cause {
                Cause::Full => 1,
                Cause::Memory => 2,
                Cause::Invalidated => 3,
            });
            encode_key(out, key);
        }
    }
}
