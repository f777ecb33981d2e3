//! The answer to a record, as text.
ghost use Rattle.std.specs.Prelude.{◌≡◌, ◌++◌, ◌+◌, ◌<◌, ◌^◌, OnOk, codes, decimal};
ghost use Rattle.jc_text.specs.Printing.{reply_text, value_or_none_text};
ghost use Rattle.jc_record.specs.Answers.{answered_text, answers_text, asked_text, call_line, call_lines, calls_text, change_text, closing_text, count_text, end_text, end_words, foreign_text, key_line, load_text, op_text, process_failure_text, process_text, question_text, replace_if_text, role_text, span_text, tally_with, valued_text, verdicts_text, write_text, writer_text};

use jc_check::{Recorded, Role};
use jc_model::{Change, LoadAnswer, Op, ProcessAnswer, Reply, WriteAnswer};
use jc_text::print::{Piece, put, put_number, put_pieces};
use jc_types::{Key, Value};
use std::alloc::AllocError;

/// How a key ends.
#[derive(Clone, Copy, Debug, PartialEq, Eq)]
pub enum KeyEnd {
    /// Some order explains its calls.
    Explained,
    /// No order does.
    NotExplained,
    /// A call asked its loader or its writer twice for the key, or answered before they did. No rule allows that.
    Odd,
    /// More than this number of states were met.
    GaveUp(usize),
}

/// How many keys ended how.
#[derive(Clone, Copy, Debug, PartialEq, Eq)]
pub struct Tally {
    /// Those that are explained.
    pub explained: u64,
    /// Those that aren't.
    pub refuted: u64,
    /// Those whose search gave up.
    pub stopped: u64,
}

/// A name, a space and a value.
#[tactic(auto, unfolding(crate::specs::Answers::valued_text))]
fn put_valued<'a>(out: &mut Vec<u8>, name: &'a str, value: &'a Value) -> Result<(), AllocError>
    ensures { OnOk result (out.new.items ≡ out.old.items ++ valued_text name.now value.now) }
{
    put_pieces(
        out,
        &[Piece::Text(name), Piece::Text(" "), Piece::Value(value)],
    )
}

#[tactic(auto, unfolding(crate::specs::Answers::replace_if_text))]
fn put_replace_if<'a>(out: &mut Vec<u8>, old: &'a Value, new: &'a Value) -> Result<(), AllocError>
    ensures { OnOk result (out.new.items ≡ out.old.items ++ replace_if_text old.now new.now) }
{
    put_pieces(
        out,
        &[
            Piece::Text("replaceif "),
            Piece::Value(old),
            Piece::Text(" "),
            Piece::Value(new),
        ],
    )
}

/// A text, and a number.
fn put_coded(out: &mut Vec<u8>, text: &str, code: u32) -> Result<(), AllocError>
    ensures { OnOk result (out.new.items ≡ out.old.items ++ (text.now ++ decimal code)) }
{
    put(out, text)?;
    put_number(out, u64::from(code))
}

fn put_op(out: &mut Vec<u8>, op: &Op) -> Result<(), AllocError>
    ensures { OnOk result (out.new.items ≡ out.old.items ++ op_text op.now) }
{
    match op {
        Op::Get => put(out, "get"),
        Op::ContainsKey => put(out, "contains"),
        Op::Put(value) => put_valued(out, "put", value),
        Op::GetAndPut(value) => put_valued(out, "getput", value),
        Op::PutIfAbsent(value) => put_valued(out, "putif", value),
        Op::Remove => put(out, "remove"),
        Op::RemoveIf(old) => put_valued(out, "removeif", old),
        Op::GetAndRemove => put(out, "getremove"),
        Op::Replace(value) => put_valued(out, "replace", value),
        Op::ReplaceIf { old, new } => put_replace_if(out, old, new),
        Op::GetAndReplace(value) => put_valued(out, "getreplace", value),
        Op::Clear => put(out, "clear"),
        Op::LoadAll { replace } => {
            if *replace {
                put(out, "loadall replace")
            } else {
                put(out, "loadall keep")
            }
        }
        Op::Invoke => put(out, "invoke"),
    }
}

fn put_change(out: &mut Vec<u8>, change: &Change) -> Result<(), AllocError>
    ensures { OnOk result (out.new.items ≡ out.old.items ++ change_text change.now) }
{
    match change {
        Change::Write(value) => put_valued(out, "write", value),
        Change::Delete => put(out, "delete"),
    }
}

#[tactic(auto, unfolding(crate::specs::Answers::foreign_text))]
fn put_foreign(out: &mut Vec<u8>, change: &Option<Change>) -> Result<(), AllocError>
    ensures { OnOk result (out.new.items ≡ out.old.items ++ foreign_text change.now) }
{
    match change {
        None => put(out, "another program"),
        Some(change) => {
            put(out, "another program: ")?;
            put_change(out, change)
        }
    }
}

/// What a call did.
fn put_role(out: &mut Vec<u8>, call: &Recorded) -> Result<(), AllocError>
    ensures { OnOk result (out.new.items ≡ out.old.items ++ role_text call.now (call.now).role) }
{
    match call.role {
        Role::Call | Role::Forgotten => put_op(out, &call.op),
        Role::Foreign => put_foreign(out, &call.change),
    }
}

fn put_load(out: &mut Vec<u8>, answer: &LoadAnswer) -> Result<(), AllocError>
    ensures { OnOk result (out.new.items ≡ out.old.items ++ load_text answer.now) }
{
    match answer {
        LoadAnswer::NotAsked => Ok(()),
        LoadAnswer::Found(value) => put_valued(out, ", the loader found", value),
        LoadAnswer::Nothing => put(out, ", the loader found nothing"),
        LoadAnswer::Failed(code) => put_coded(out, ", the loader failed with ", *code),
    }
}

fn put_write(out: &mut Vec<u8>, answer: &WriteAnswer) -> Result<(), AllocError>
    ensures { OnOk result (out.new.items ≡ out.old.items ++ write_text answer.now) }
{
    match answer {
        WriteAnswer::NotAsked => put(out, ", no answer"),
        WriteAnswer::Done => put(out, ", done"),
        WriteAnswer::Failed(code) => put_coded(out, ", failed with ", *code),
    }
}

#[tactic(auto, unfolding(crate::specs::Answers::asked_text))]
fn put_asked(out: &mut Vec<u8>, change: &Change, answer: &WriteAnswer) -> Result<(), AllocError>
    ensures { OnOk result (out.new.items ≡ out.old.items ++ asked_text change.now answer.now) }
{
    put(out, ", the writer was asked to ")?;
    put_change(out, change)?;
    put_write(out, answer)
}

fn put_writer(out: &mut Vec<u8>, call: &Recorded) -> Result<(), AllocError>
    ensures { OnOk result (out.new.items ≡ out.old.items ++ writer_text (call.now).role (call.now).change (call.now).out.write) }
{
    match (&call.role, &call.change) {
        (Role::Foreign, _) => Ok(()),
        (_, None) => Ok(()),
        (_, Some(change)) => put_asked(out, change, &call.out.write),
    }
}

fn put_outcome(out: &mut Vec<u8>, outcome: &Option<Value>) -> Result<(), AllocError>
    ensures { OnOk result (out.new.items ≡ out.old.items ++ codes ", the processor returned " ++ value_or_none_text outcome.now) }
{
    put_pieces(
        out,
        &[
            Piece::Text(", the processor returned "),
            Piece::ValueOrNone(outcome),
        ],
    )
}

fn put_process_failure(out: &mut Vec<u8>, code: u32) -> Result<(), AllocError>
    ensures { OnOk result (out.new.items ≡ out.old.items ++ process_failure_text code) }
{
    put_coded(out, ", the processor failed with ", code)?;
    Ok(())
}

fn put_process(out: &mut Vec<u8>, answer: &ProcessAnswer) -> Result<(), AllocError>
    ensures { OnOk result (out.new.items ≡ out.old.items ++ process_text answer.now) }
{
    match answer {
        ProcessAnswer::NotAsked => Ok(()),
        ProcessAnswer::Ended { effect: _, outcome } => put_outcome(out, outcome),
        ProcessAnswer::Failed(code) => put_process_failure(out, *code),
    }
}

fn put_told(out: &mut Vec<u8>, reply: &Reply) -> Result<(), AllocError>
    ensures { OnOk result (out.new.items ≡ out.old.items ++ codes ": " ++ reply_text reply.now) }
{
    put_pieces(out, &[Piece::Text(": "), Piece::Reply(reply)])
}

fn put_answered(out: &mut Vec<u8>, call: &Recorded) -> Result<(), AllocError>
    ensures { OnOk result (out.new.items ≡ out.old.items ++ answered_text (call.now).role (call.now).reply) }
{
    match (&call.role, &call.reply) {
        (Role::Foreign, _) => Ok(()),
        (_, None) => put(out, ", no answer that counts"),
        (_, Some(reply)) => put_told(out, reply),
    }
}

fn put_end(out: &mut Vec<u8>, ended: Option<u64>) -> Result<(), AllocError>
    ensures { OnOk result (out.new.items ≡ out.old.items ++ end_text ended) }
{
    match ended {
        None => Ok(()),
        Some(at) => put_number(out, at),
    }
}

/// The thread of a call, and its time.
#[tactic(auto, unfolding(crate::specs::Answers::span_text))]
pub(crate) fn put_span(out: &mut Vec<u8>, call: &Recorded) -> Result<(), AllocError>
    ensures { OnOk result (out.new.items ≡ out.old.items ++ span_text call.now) }
{
    put_pieces(
        out,
        &[
            Piece::Text("  t"),
            Piece::Number(u64::from(call.thread)),
            Piece::Text(" "),
            Piece::Number(call.began),
            Piece::Text(".."),
        ],
    )?;
    put_end(out, call.ended)?;
    put(out, " ")
}

/// What a call did, and what its loader answered.
#[tactic(auto, unfolding(crate::specs::Answers::question_text))]
fn put_question(out: &mut Vec<u8>, call: &Recorded) -> Result<(), AllocError>
    ensures { OnOk result (out.new.items ≡ out.old.items ++ question_text call.now) }
{
    put_span(out, call)?;
    put_role(out, call)?;
    put_load(out, &call.out.load)
}

/// What its processor and its writer answered, and the call itself.
#[tactic(auto, unfolding(crate::specs::Answers::answers_text))]
fn put_answers(out: &mut Vec<u8>, call: &Recorded) -> Result<(), AllocError>
    ensures { OnOk result (out.new.items ≡ out.old.items ++ answers_text call.now) }
{
    put_process(out, &call.out.process)?;
    put_writer(out, call)?;
    put_answered(out, call)
}

/// The line of a call.
#[tactic(auto, unfolding(crate::specs::Answers::call_line))]
pub(crate) fn put_call(out: &mut Vec<u8>, call: &Recorded) -> Result<(), AllocError>
    ensures { OnOk result (out.new.items ≡ out.old.items ++ call_line call.now) }
{
    put_question(out, call)?;
    put_answers(out, call)?;
    put(out, "\n")
}

/// The lines of some calls.
pub(crate) fn put_calls(out: &mut Vec<u8>, calls: &[Recorded]) -> Result<(), AllocError>
    ensures { OnOk result (out.new.items ≡ out.old.items ++ call_lines calls.now) }
{
    for call in calls {
        put_call(out, call)?;
    }
    Ok(())
}

fn put_gave_up(out: &mut Vec<u8>, states: usize) -> Result<(), AllocError>
    ensures { OnOk result (out.new.items ≡ out.old.items ++ end_words (KeyEnd.GaveUp states)) }
{
    put_pieces(
        out,
        &[
            Piece::Text(": gave up after "),
            Piece::Number(states as u64),
            Piece::Text(" states, "),
        ],
    )
}

fn put_end_words(out: &mut Vec<u8>, end: KeyEnd) -> Result<(), AllocError>
    ensures { OnOk result (out.new.items ≡ out.old.items ++ end_words end) }
{
    match end {
        KeyEnd::Explained => put(out, ": explained, "),
        KeyEnd::NotExplained => put(out, ": not explained, "),
        KeyEnd::Odd => put(
            out,
            ": not explained, a call asked twice or answered too soon, ",
        ),
        KeyEnd::GaveUp(states) => put_gave_up(out, states),
    }
}

/// The line of a key.
#[tactic(auto, unfolding(crate::specs::Answers::key_line))]
pub(crate) fn put_key_line(
    out: &mut Vec<u8>,
    key: &Key,
    end: KeyEnd,
    calls: &[Recorded],
) -> Result<(), AllocError>
    ensures { OnOk result (out.new.items ≡ out.old.items ++ key_line key.now end calls.now) }
{
    put_pieces(out, &[Piece::Key(key)])?;
    put_end_words(out, end)?;
    put_pieces(
        out,
        &[Piece::Number(calls.len() as u64), Piece::Text(" calls\n")],
    )
}

impl Tally {
    /// No key.
    pub(crate) fn new() -> Tally
        ensures { result ≡ record { explained = 0; refuted = 0; stopped = 0 } }
    {
        Tally {
            explained: 0,
            refuted: 0,
            stopped: 0,
        }
    }

    /// One more key.
    pub(crate) fn with(self, end: KeyEnd) -> Tally
        requires { self.explained + self.refuted + self.stopped + 1 < 2 ^ 64 }
        ensures { result ≡ tally_with self end }
    {
        let mut tally = self;
        match end {
            KeyEnd::Explained => tally.explained += 1,
            KeyEnd::NotExplained | KeyEnd::Odd => tally.refuted += 1,
            KeyEnd::GaveUp(_) => tally.stopped += 1,
        }
        tally
    }
}

/// A text, and how many.
#[tactic(auto, unfolding(crate::specs::Answers::count_text))]
fn put_count(out: &mut Vec<u8>, text: &str, count: u64) -> Result<(), AllocError>
    ensures { OnOk result (out.new.items ≡ out.old.items ++ count_text text.now count) }
{
    put(out, text)?;
    put_number(out, count)
}

/// How many keys have which verdict.
fn put_verdicts(out: &mut Vec<u8>, tally: &Tally) -> Result<(), AllocError>
    ensures { OnOk result (out.new.items ≡ out.old.items ++ verdicts_text tally.now) }
{
    put_count(out, "keys explained: ", tally.explained)?;
    put_count(out, ", not explained: ", tally.refuted)?;
    Ok(())
}

/// The last line.
pub(crate) fn put_closing(out: &mut Vec<u8>, tally: &Tally) -> Result<(), AllocError>
    ensures { OnOk result (out.new.items ≡ out.old.items ++ closing_text tally.now) }
{
    put_verdicts(out, tally)?;
    put_count(out, ", given up: ", tally.stopped)?;
    put(out, "\n")?;
    Ok(())
}
