//! The calls of a program, by the numbers with which an expectation names them.
ghost use Rattle.std.specs.Prelude.{◌≡◌, count_by, map, take, slice_get};
ghost use Rattle.jc_litmus.specs.Calls.{item_reply_kind, is_call, reply_kind_at, call_in, place_of, call_at, call_named};

use crate::program::LineFault;
use crate::reply_words::{ReplyKind, reply_kind};
use jc_explore::Item;
use jc_model::Op;

/// The kind of replies of a call. No other item is answered.
fn item_reply_kind(item: &Item) -> Option<ReplyKind>
    ensures { result ≡ item_reply_kind item.now }
{
    match item {
        Item::Call { op, .. } => Some(reply_kind(op)),
        Item::Invoke { .. } => Some(reply_kind(&Op::Invoke)),
        Item::Foreign { .. } | Item::Invalidate { .. } => None,
    }
}

/// Whether an item is a call, and neither a write of another program nor an invalidation.
pub(crate) fn is_call(item: &Item) -> bool
    ensures { result ≡ is_call item.now }
{
    match item {
        Item::Call { .. } | Item::Invoke { .. } => true,
        Item::Foreign { .. } | Item::Invalidate { .. } => false,
    }
}

/// The number of calls among these items.
fn calls_in(items: &[Item]) -> usize
    ensures { result ≡ count_by is_call items.now }
{
    items.iter().filter(|item| is_call(item)).count()
}

/// The first `count` items, or all if there are fewer.
fn first_items(items: &[Item], count: usize) -> &[Item]
    ensures { result.now ≡ take count items.now }
{
    if items.len() < count {
        items
    } else {
        &items[..count]
    }
}

/// The kind of replies of the item at a place, if it is there and is a call.
fn reply_kind_at(items: &[Item], at: usize) -> Option<ReplyKind>
    ensures { result ≡ reply_kind_at (slice_get items.now at) }
{
    match items.get(at) {
        None => None,
        Some(item) => item_reply_kind(item),
    }
}

/// A call of a thread: its place among the thread's calls, and its kind of replies.
fn call_in(items: &[Item], at: usize) -> Result<(usize, ReplyKind), LineFault>
    ensures { result ≡ call_in items.now at }
{
    match reply_kind_at(items, at) {
        None => Err(LineFault::NoSuchItem),
        Some(kind) => Ok((calls_in(first_items(items, at)), kind)),
    }
}

/// The place of a number that counts from 1.
fn place_of(number: u32) -> Result<usize, LineFault>
    ensures { result ≡ place_of number }
{
    if number == 0 {
        return Err(LineFault::NoSuchItem);
    }
    Ok(number as usize - 1)
}

/// A call that an expectation names.
#[derive(Clone, Copy)]
pub(crate) struct Named {
    /// The thread, from 0.
    pub thread: usize,
    /// The place among the thread's calls, from 0.
    pub call: usize,
    /// Its kind of replies.
    pub kind: ReplyKind,
}

/// The call at a place of a thread.
fn call_at(threads: &[Vec<Item>], thread: usize, at: usize) -> Result<Named, LineFault>
    ensures { result ≡ call_at thread at (slice_get (map (λ t. t.items) threads.now) thread) }
{
    match threads.get(thread) {
        None => Err(LineFault::NoSuchItem),
        Some(items) => {
            let (call, kind) = call_in(items, at)?;
            Ok(Named { thread, call, kind })
        }
    }
}

/// The call with these numbers of its thread and of its item, which count from 1.
#[tactic(auto, unfolding(crate::specs::Calls::call_named))]
pub(crate) fn call_named(threads: &[Vec<Item>], thread: u32, item: u32) -> Result<Named, LineFault>
    ensures { result ≡ call_named (map (λ t. t.items) threads.now) thread item }
{
    let thread = place_of(thread)?;
    let at = place_of(item)?;
    call_at(threads, thread, at)
}
