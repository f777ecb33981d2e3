//! Decodes events from bytes.
//!
//! Each function reads a thing at the beginning of its input, and leaves the bytes after it there. Bytes that are no encoding of
//! an event also decode to some event.
ghost use Rattle.std.specs.Prelude.{◌≡◌, ◌≤◌, length, Some};
ghost use Rattle.jc_history.specs.Past.{reply_in};
ghost use Rattle.jc_history.specs.Values.{value_from_outside};
ghost use Rattle.jc_history.specs.Decoding.{byte, number_2, number_4, number_8, decode_text, decode_value, decode_key};
ghost use Rattle.jc_history.specs.Decoding.{decode_optional, decode_caller, decode_op, decode_load, decode_write};
ghost use Rattle.jc_history.specs.Decoding.{decode_effect, decode_process, decode_out, decode_refusal, decode_reply};
ghost use Rattle.jc_history.specs.Decoding.{decode_step, decode_event};

use jc_model::{Cause, Effect, Event, LoadAnswer, Op, Out, ProcessAnswer, Reply, WriteAnswer};
use jc_types::{Caller, Field, KEY_MAX, Key, Refusal, VALUE_MAX, Value};

/// The bytes that are left to read.
#[derive(Drop)]
struct Input<'a> {
    bytes: &'a [u8],
}

#[tactic(auto, unfolding(crate::specs::Decoding::byte))]
fn byte(input: &mut Input) -> u8
    ensures { (result, input.new.bytes.now) ≡ byte input.old.bytes.now }
{
    match input.bytes {
        [] => 0,
        [n, after @ ..] => {
            input.bytes = after;
            *n
        }
    }
}

#[tactic(auto, unfolding(crate::specs::Decoding::number_2))]
fn number_2(input: &mut Input) -> u16
    ensures { (result, input.new.bytes.now) ≡ number_2 input.old.bytes.now }
{
    match input.bytes {
        [a, b, after @ ..] => {
            input.bytes = after;
            u16::from_le_bytes([*a, *b])
        }
        _ => {
            input.bytes = &[];
            0
        }
    }
}

#[tactic(auto, unfolding(crate::specs::Decoding::number_4))]
fn number_4(input: &mut Input) -> u32
    ensures { (result, input.new.bytes.now) ≡ number_4 input.old.bytes.now }
{
    match input.bytes {
        [a, b, c, d, after @ ..] => {
            input.bytes = after;
            u32::from_le_bytes([*a, *b, *c, *d])
        }
        _ => {
            input.bytes = &[];
            0
        }
    }
}

#[tactic(auto, unfolding(crate::specs::Decoding::number_8))]
fn number_8(input: &mut Input) -> u64
    ensures { (result, input.new.bytes.now) ≡ number_8 input.old.bytes.now }
{
    match input.bytes {
        [a, b, c, d, e, f, g, h, after @ ..] => {
            input.bytes = after;
            u64::from_le_bytes([*a, *b, *c, *d, *e, *f, *g, *h])
        }
        _ => {
            input.bytes = &[];
            0
        }
    }
}

#[tactic(auto, unfolding(crate::specs::Decoding::decode_text))]
fn decode_text<'a>(input: &mut Input<'a>, most: usize) -> &'a [u8]
    ensures text { (result.now, input.new.bytes.now) ≡ decode_text most input.old.bytes.now }
    ensures few { length result.now ≤ most }
{
    let len = number_2(input) as usize;
    if len <= most && len <= input.bytes.len() {
        let (text, after) = input.bytes.split_at(len);
        input.bytes = after;
        text
    } else {
        &[]
    }
}

#[tactic(auto, unfolding(crate::specs::Decoding::decode_value))]
fn decode_value(input: &mut Input) -> Value
    ensures { (result, input.new.bytes.now) ≡ decode_value input.old.bytes.now }
{
    Value::new(decode_text(input, VALUE_MAX)).unwrap()
}

#[tactic(auto, unfolding(crate::specs::Decoding::decode_key))]
fn decode_key(input: &mut Input) -> Key
    ensures { (result, input.new.bytes.now) ≡ decode_key input.old.bytes.now }
{
    let text = decode_text(input, KEY_MAX);
    let text = if text.is_empty() { &[0] } else { text };
    Key::new(text).unwrap()
}

#[tactic(auto, unfolding(crate::specs::Decoding::decode_optional))]
fn decode_outcome(input: &mut Input) -> Option<Value>
    ensures { (result, input.new.bytes.now) ≡ decode_optional decode_value input.old.bytes.now }
{
    match byte(input) {
        0 => None,
        _ => Some(decode_value(input)),
    }
}

#[tactic(auto, unfolding(crate::specs::Decoding::decode_optional))]
fn decode_shared_with(input: &mut Input) -> Option<u32>
    ensures { (result, input.new.bytes.now) ≡ decode_optional number_4 input.old.bytes.now }
{
    match byte(input) {
        0 => None,
        _ => Some(number_4(input)),
    }
}

#[tactic(auto, unfolding(crate::specs::Decoding::decode_caller))]
fn decode_caller(input: &mut Input) -> Caller
    ensures { (result, input.new.bytes.now) ≡ decode_caller input.old.bytes.now }
{
    let session = number_4(input);
    let call = number_8(input);
    Caller { session, call }
}

#[tactic(auto, unfolding(crate::specs::Decoding::decode_op))]
fn decode_op(input: &mut Input) -> Op
    ensures { (result, input.new.bytes.now) ≡ decode_op input.old.bytes.now }
{
    let number = byte(input);
    match Op::value_count(number) {
        0 => Op::of_number(number, &Value::default(), &Value::default()),
        1 => Op::of_number(number, &decode_value(input), &Value::default()),
        _ => {
            let first = decode_value(input);
            let second = decode_value(input);
            Op::of_number(number, &first, &second)
        }
    }
}

#[tactic(auto, unfolding(crate::specs::Decoding::decode_load))]
fn decode_load(input: &mut Input) -> LoadAnswer
    ensures { (result, input.new.bytes.now) ≡ decode_load input.old.bytes.now }
{
    match byte(input) {
        0 => LoadAnswer::NotAsked,
        1 => LoadAnswer::Found(decode_value(input)),
        2 => LoadAnswer::Nothing,
        _ => LoadAnswer::Failed(number_4(input)),
    }
}

#[tactic(auto, unfolding(crate::specs::Decoding::decode_write))]
fn decode_write(input: &mut Input) -> WriteAnswer
    ensures { (result, input.new.bytes.now) ≡ decode_write input.old.bytes.now }
{
    match byte(input) {
        0 => WriteAnswer::NotAsked,
        1 => WriteAnswer::Done,
        _ => WriteAnswer::Failed(number_4(input)),
    }
}

#[tactic(auto, unfolding(crate::specs::Decoding::decode_effect))]
fn decode_effect(input: &mut Input) -> Effect
    ensures { (result, input.new.bytes.now) ≡ decode_effect input.old.bytes.now }
{
    match byte(input) {
        0 => Effect::Keep,
        1 => Effect::Set(decode_value(input)),
        _ => Effect::Remove,
    }
}

#[tactic(auto, unfolding(crate::specs::Decoding::decode_process))]
fn decode_process(input: &mut Input) -> ProcessAnswer
    ensures { (result, input.new.bytes.now) ≡ decode_process input.old.bytes.now }
{
    match byte(input) {
        0 => ProcessAnswer::NotAsked,
        1 => {
            let effect = decode_effect(input);
            let outcome = decode_outcome(input);
            ProcessAnswer::Ended { effect, outcome }
        }
        _ => ProcessAnswer::Failed(number_4(input)),
    }
}

#[tactic(auto, unfolding(crate::specs::Decoding::decode_out))]
fn decode_out(input: &mut Input) -> Out
    ensures { (result, input.new.bytes.now) ≡ decode_out input.old.bytes.now }
{
    let load = decode_load(input);
    let write = decode_write(input);
    let process = decode_process(input);
    Out {
        load,
        write,
        process,
    }
}

#[tactic(auto, unfolding(crate::specs::Decoding::decode_refusal))]
fn decode_refusal(input: &mut Input) -> Refusal
    ensures { (result, input.new.bytes.now) ≡ decode_refusal input.old.bytes.now }
{
    match byte(input) {
        0 => Refusal::HistoryFull,
        1 => Refusal::Busy,
        2 => Refusal::TooManyInFlight,
        3 => Refusal::TooManyJoiners,
        4 => Refusal::LoaderFailed(number_4(input)),
        5 => Refusal::WriterFailed(number_4(input)),
        6 => Refusal::ProcessorFailed(number_4(input)),
        7 => Refusal::OutOfMemory,
        8 => Refusal::TooManyKeys,
        9 => Refusal::BadConfig(Field::Stripes),
        10 => Refusal::BadConfig(Field::Capacity),
        11 => Refusal::BadConfig(Field::History),
        12 => Refusal::NoLoader,
        13 => Refusal::NoWriter,
        14 => Refusal::TooManySessions,
        15 => Refusal::StillReserved,
        _ => Refusal::RepeatedKey,
    }
}

/// The value that a reply may repeat: the one that the processor answered, otherwise the one that the loader found.
fn value_from_outside(out: &Out) -> Option<Value>
    ensures { result ≡ value_from_outside out.now }
{
    match out.process {
        ProcessAnswer::Ended {
            effect: _,
            outcome: Some(outcome),
        } => Some(outcome),
        ProcessAnswer::NotAsked
        | ProcessAnswer::Ended {
            effect: _,
            outcome: None,
        }
        | ProcessAnswer::Failed(_) => match out.load {
            LoadAnswer::Found(found) => Some(found),
            LoadAnswer::NotAsked | LoadAnswer::Nothing | LoadAnswer::Failed(_) => None,
        },
    }
}

#[tactic(auto, unfolding(crate::specs::Decoding::decode_reply))]
fn decode_reply(input: &mut Input, out: &Out) -> Reply
    ensures { (result, input.new.bytes.now) ≡ decode_reply out.now input.old.bytes.now }
{
    match byte(input) {
        0 => Reply::Unit,
        1 => Reply::Flag(false),
        2 => Reply::Flag(true),
        3 => Reply::Value(None),
        4 => Reply::Value(Some(decode_value(input))),
        5 => Reply::Fault(decode_refusal(input)),
        _ => Reply::Value(value_from_outside(out)),
    }
}

#[tactic(auto, unfolding(crate::specs::Decoding::decode_step))]
fn decode_step(input: &mut Input) -> Event
    ensures { (result, input.new.bytes.now) ≡ decode_step input.old.bytes.now }
{
    let out = decode_out(input);
    let reply = decode_reply(input, &out);
    let caller = decode_caller(input);
    let key = decode_key(input);
    let op = decode_op(input);
    let shared_with = decode_shared_with(input);
    Event::Step {
        caller,
        op,
        key,
        out,
        shared_with,
        reply,
    }
}

/// The event that the bytes begin with.
#[tactic(auto, unfolding(crate::specs::Decoding::decode_event))]
pub(crate) fn decode_event(bytes: &[u8]) -> Event
    ensures { result ≡ (decode_event bytes.now).0 }
{
    let mut input = Input { bytes };
    match byte(&mut input) {
        0 => decode_step(&mut input),
        1 => {
            let key = decode_key(&mut input);
            let cause = Cause::Full;
            Event::Evict { key, cause }
        }
        2 => {
            let key = decode_key(&mut input);
            let cause = Cause::Memory;
            Event::Evict { key, cause }
        }
        _ => {
            let key = decode_key(&mut input);
            let cause = Cause::Invalidated;
            Event::Evict { key, cause }
        }
    }
}

/// The reply of the event that the bytes begin with, if it is a step. It reads no more of the event than the outside answers and
/// the reply.
#[tactic(auto, unfolding(crate::specs::Decoding::decode_event, crate::specs::Decoding::decode_step))]
pub(crate) fn decode_reply_of_step(bytes: &[u8]) -> Option<Reply>
    ensures { result ≡ reply_in (Some (decode_event bytes.now).0) }
{
    let mut input = Input { bytes };
    match byte(&mut input) {
        0 => {
            let out = decode_out(&mut input);
            Some(decode_reply(&mut input, &out))
        }
        _ => None,
    }
}
