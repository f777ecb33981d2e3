//! Outcomes, as text.
ghost use Rattle.std.specs.Prelude.{◌≡◌, ◌++◌, ◌+◌, ◌<◌, ◌^◌, length, slice_get, OnOk};
ghost use Rattle.jc_litmus.specs.ReplyTexts.{refused_text, replied_text};
ghost use Rattle.jc_litmus.specs.Spaced.{spaced};
ghost use Rattle.jc_litmus.specs.Outcomes.{asked_words, call_name, calls_before, item_text, number_line, outcome_if, outcome_text, outcomes_text, thread_call_text};
ghost use Rattle.jc_litmus.specs.Outcomes.{replies_to, reply_line, state_text, thread_at, thread_text, threads_text, unanswered_line};

use crate::calls::is_call;
use crate::judge::reply_of;
use crate::spelling::put_operation;
use crate::witness::put_witness;
use jc_explore::{FinalState, Finding, Item, Program, ThreadReply};
use jc_model::{Op, Reply};
use jc_text::print::audit::{put_coherence, put_entries_line};
use jc_text::print::{Piece, put, put_pieces};
use jc_types::Refusal;
use std::alloc::{AllocError, Global};

/// The number of calls before a place of a thread's list.
fn calls_before(items: &[Item], at: usize) -> usize
    requires { at < length items.now }
    ensures { result ≡ calls_before items.now at }
{
    items[..at].iter().filter(|item| is_call(*item)).count()
}

/// The number of replies that a thread got.
fn replies_to(thread: usize, replies: &[ThreadReply]) -> usize
    ensures { result ≡ replies_to thread replies.now }
{
    replies.iter().filter(|r| r.thread == thread).count()
}

/// Appends the text of a refusal. A failure is written with its code, as in a transcript. Any other refusal is marked as one,
/// since a value may be spelled like its name.
fn put_refused(out: &mut Vec<u8>, refusal: &Refusal) -> Result<(), AllocError>
    ensures { OnOk result (out.new.items ≡ out.old.items ++ refused_text refusal.now) }
{
    if refusal.is_fault() {
        put_pieces(out, &[Piece::Refusal(refusal)])
    } else {
        put_pieces(out, &[Piece::Text("refused "), Piece::Text(refusal.name())])
    }
}

/// Appends the text of a reply.
fn put_replied(out: &mut Vec<u8>, reply: &Reply) -> Result<(), AllocError>
    ensures { OnOk result (out.new.items ≡ out.old.items ++ replied_text reply.now) }
{
    match reply {
        Reply::Fault(refusal) => put_refused(out, refusal),
        Reply::Unit | Reply::Flag(_) | Reply::Value(_) => put_pieces(out, &[Piece::Reply(reply)]),
    }
}

/// Appends the words of what a call asks for, each after a space.
fn put_asked(out: &mut Vec<u8>, item: &Item) -> Result<(), AllocError>
    ensures { OnOk result (out.new.items ≡ out.old.items ++ spaced (asked_words item.now)) }
{
    match item {
        Item::Call { op, key } => put_operation(out, op, key),
        Item::Invoke { key, calls: _ } => put_operation(out, &Op::Invoke, key),
        Item::Foreign { key: _, value: _ } | Item::Invalidate { key: _ } => Ok(()),
    }
}

/// Appends a call as it is named, and a colon.
#[tactic(auto, unfolding(crate::specs::Outcomes::call_name))]
fn put_call_name(out: &mut Vec<u8>, thread: usize, at: usize, item: &Item) -> Result<(), AllocError>
    requires thread { thread + 1 < 2 ^ 64 }
    requires at { at + 1 < 2 ^ 64 }
    ensures { OnOk result (out.new.items ≡ out.old.items ++ call_name thread at item.now) }
{
    put_pieces(
        out,
        &[
            Piece::Number(thread as u64 + 1),
            Piece::Text("."),
            Piece::Number(at as u64 + 1),
        ],
    )?;
    put_asked(out, item)?;
    put(out, ": ")
}

/// Appends the line of a call that was answered.
#[tactic(auto, unfolding(crate::specs::Outcomes::reply_line))]
fn put_reply_line(
    out: &mut Vec<u8>,
    thread: usize,
    at: usize,
    item: &Item,
    reply: &Reply,
) -> Result<(), AllocError>
    requires thread { thread + 1 < 2 ^ 64 }
    requires at { at + 1 < 2 ^ 64 }
    ensures { OnOk result (out.new.items ≡ out.old.items ++ reply_line thread at item.now reply.now) }
{
    put_call_name(out, thread, at, item)?;
    put_replied(out, reply)?;
    put(out, "\n")
}

/// Appends the line of a call that is never answered.
#[tactic(auto, unfolding(crate::specs::Outcomes::unanswered_line))]
fn put_unanswered_line(
    out: &mut Vec<u8>,
    thread: usize,
    at: usize,
    item: &Item,
) -> Result<(), AllocError>
    requires thread { thread + 1 < 2 ^ 64 }
    requires at { at + 1 < 2 ^ 64 }
    ensures { OnOk result (out.new.items ≡ out.old.items ++ unanswered_line thread at item.now) }
{
    put_call_name(out, thread, at, item)?;
    put_pieces(out, &[Piece::Text("never answered"), Piece::Text("\n")])
}

/// Appends the line of a call, if it was answered, or is the first of its thread that wasn't.
fn put_call(
    out: &mut Vec<u8>,
    replies: &[ThreadReply],
    thread: usize,
    at: usize,
    item: &Item,
    call: usize,
) -> Result<(), AllocError>
    requires thread { thread + 1 < 2 ^ 64 }
    requires at { at + 1 < 2 ^ 64 }
    ensures { OnOk result (out.new.items
        ≡ out.old.items ++ thread_call_text replies.now thread at item.now call) }
{
    match reply_of(thread, call, replies) {
        Some(reply) => put_reply_line(out, thread, at, item, &reply),
        None => {
            if call == replies_to(thread, replies) {
                put_unanswered_line(out, thread, at, item)
            } else {
                Ok(())
            }
        }
    }
}

/// Appends the line of a thread's item, if it has one.
fn put_item(
    out: &mut Vec<u8>,
    replies: &[ThreadReply],
    thread: usize,
    items: &[Item],
    at: usize,
) -> Result<(), AllocError>
    requires thread { thread + 1 < 2 ^ 64 }
    requires at { at < length items.now }
    ensures { OnOk result (out.new.items ≡ out.old.items ++ item_text replies.now thread items.now at) }
{
    let item = &items[at];
    if is_call(item) {
        put_call(out, replies, thread, at, item, calls_before(items, at))
    } else {
        Ok(())
    }
}

/// Appends the lines of a thread.
fn put_thread(
    out: &mut Vec<u8>,
    replies: &[ThreadReply],
    thread: usize,
    items: &[Item],
) -> Result<(), AllocError>
    requires { thread + 1 < 2 ^ 64 }
    ensures { OnOk result (out.new.items ≡ out.old.items ++ thread_text replies.now thread items.now) }
{
    for at in 0..items.len() {
        put_item(out, replies, thread, items, at)?;
    }
    Ok(())
}

/// Appends the lines of a thread, if there is one with this number.
fn put_thread_at(
    out: &mut Vec<u8>,
    program: &Program,
    replies: &[ThreadReply],
    thread: usize,
) -> Result<(), AllocError>
    requires { thread + 1 < 2 ^ 64 }
    ensures { OnOk result (out.new.items
        ≡ out.old.items ++ thread_at replies.now thread (slice_get program.now.threads.items thread)) }
{
    match program.threads.get(thread) {
        Some(items) => put_thread(out, replies, thread, items),
        None => Ok(()),
    }
}

/// Appends the lines of all threads.
fn put_threads(
    out: &mut Vec<u8>,
    program: &Program,
    replies: &[ThreadReply],
) -> Result<(), AllocError>
    ensures { OnOk result (out.new.items ≡ out.old.items ++ threads_text program.now replies.now) }
{
    for thread in 0..program.threads.len() {
        put_thread_at(out, program, replies, thread)?;
    }
    Ok(())
}

/// Appends a final state.
fn put_state(out: &mut Vec<u8>, program: &Program, state: &FinalState) -> Result<(), AllocError>
    ensures { OnOk result (out.new.items ≡ out.old.items ++ state_text program.now state.now) }
{
    put_threads(out, program, &state.replies)?;
    put_entries_line(out, "cache", &state.cache)?;
    put_entries_line(out, "store", &state.store)?;
    put_coherence(out, &state.differing)
}

/// Appends the number of an outcome.
#[tactic(auto, unfolding(crate::specs::Outcomes::number_line))]
fn put_number_line(out: &mut Vec<u8>, at: usize) -> Result<(), AllocError>
    requires { at + 1 < 2 ^ 64 }
    ensures { OnOk result (out.new.items ≡ out.old.items ++ number_line at) }
{
    put_pieces(
        out,
        &[
            Piece::Text("outcome "),
            Piece::Number(at as u64 + 1),
            Piece::Text("\n"),
        ],
    )
}

/// Appends an outcome: its number, its final state and its script.
fn put_outcome(
    alloc: Global,
    out: &mut Vec<u8>,
    program: &Program,
    at: usize,
    finding: &Finding,
) -> Result<(), AllocError>
    requires { at + 1 < 2 ^ 64 }
    ensures { OnOk result (out.new.items ≡ out.old.items ++ outcome_text program.now at finding.now) }
{
    put_number_line(out, at)?;
    put_state(out, program, &finding.state)?;
    put_witness(alloc, out, program, &finding.witness)
}

/// Appends the outcome at a place of a list, if there is one.
fn put_outcome_at(
    alloc: Global,
    out: &mut Vec<u8>,
    program: &Program,
    found: &[Finding],
    at: usize,
) -> Result<(), AllocError>
    requires { at + 1 < 2 ^ 64 }
    ensures { OnOk result (out.new.items
        ≡ out.old.items ++ outcome_if program.now at (slice_get found.now at)) }
{
    match found.get(at) {
        Some(finding) => put_outcome(alloc, out, program, at, finding),
        None => Ok(()),
    }
}

/// Appends outcomes, one after another.
pub fn put_outcomes(
    alloc: Global,
    out: &mut Vec<u8>,
    program: &Program,
    found: &[Finding],
) -> Result<(), AllocError>
    ensures { OnOk result (out.new.items ≡ out.old.items ++ outcomes_text program.now found.now) }
{
    for at in 0..found.len() {
        put_outcome_at(alloc, out, program, found, at)?;
    }
    Ok(())
}
