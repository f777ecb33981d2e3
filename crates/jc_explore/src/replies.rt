//! The replies to threads.
ghost use Rattle.std.specs.Prelude.{◌≡◌, true, false, count_by, nat_le, OnOk, Some};
ghost use Rattle.jc_explore.specs.Schedule.{outcome_reply, with_thread_reply, replies_after};

use jc_model::Reply;
use jc_world::{Outcome, Shown};
use std::alloc::AllocError;

/// A reply to a thread.
#[derive(Clone, Copy, Debug, PartialEq, Eq)]
pub struct ThreadReply {
    /// The thread, from 0.
    pub thread: usize,
    /// The reply. A refusal is a fault.
    pub reply: Reply,
}

/// The reply of a call in an outcome, if there is one.
fn outcome_reply(outcome: &Outcome) -> Option<Reply>
    ensures { result ≡ outcome_reply outcome.now }
{
    match outcome {
        Outcome::Stepped(stepped) => Some(stepped.reply),
        Outcome::PickedUp(answer) => Some(answer.reply),
        Outcome::Refused(refusal) => Some(Reply::Fault(*refusal)),
        _ => None,
    }
}

/// How many replies are of threads up to this one.
fn up_to(replies: &[ThreadReply], thread: usize) -> usize
    ensures { result ≡ count_by (λ r. nat_le r.thread thread) replies.now }
{
    replies.iter().filter(|r| r.thread <= thread).count()
}

/// Adds a reply after those of the threads up to its own.
fn put_reply(replies: &mut Vec<ThreadReply>, thread: usize, reply: Reply) -> Result<(), AllocError>
    ensures { OnOk result (replies.new.items ≡ with_thread_reply thread replies.old.items (Some reply)) }
{
    let at = up_to(replies, thread);
    replies.insert(at, ThreadReply { thread, reply })?;
    Ok(())
}

/// Adds the reply in an outcome, if there is one.
fn put_reply_in(
    replies: &mut Vec<ThreadReply>,
    thread: usize,
    outcome: &Outcome,
) -> Result<(), AllocError>
    ensures { OnOk result (
        replies.new.items ≡ with_thread_reply thread replies.old.items (outcome_reply outcome.now)) }
{
    match outcome_reply(outcome) {
        Some(reply) => put_reply(replies, thread, reply),
        None => Ok(()),
    }
}

/// Adds the replies in the outcomes that were shown.
pub(crate) fn put_replies(
    replies: &mut Vec<ThreadReply>,
    thread: usize,
    shown: &[Shown],
) -> Result<(), AllocError>
    ensures { OnOk result (
        replies.new.items ≡ replies_after thread replies.old.items shown.now) }
{
    for one in shown {
        put_reply_in(replies, thread, &one.outcome)?;
    }
    Ok(())
}

/// Whether two replies to threads are the same.
fn is_reply(one: &ThreadReply, other: &ThreadReply) -> bool
    ensures same { result ≡ true → one.now ≡ other.now }
    ensures apart { result ≡ false → one.now ≡ other.now → ⊥ }
{
    *one == *other
}

/// Whether two lists of replies are the same.
pub(crate) fn same_replies(one: &[ThreadReply], other: &[ThreadReply]) -> bool
    ensures same { result ≡ true → one.now ≡ other.now }
    ensures apart { result ≡ false → one.now ≡ other.now → ⊥ }
{
    if one.len() != other.len() {
        return false;
    }
    for at in 0..one.len() {
        if !is_reply(&one[at], &other[at]) {
            return false;
        }
    }
    true
}
