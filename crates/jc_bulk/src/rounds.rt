//! The rounds of a bulk call, with their calls outside and the memory for them.
ghost use Rattle.std.specs.Prelude.{◌≡◌, ◌≤◌, [], IfSome, IfErr, IfOk, None};
ghost use Rattle.jc_rounds.specs.Underway.{CallPast, IsOver};
ghost use Rattle.jc_rounds.specs.Running.{HasRun};
ghost use Rattle.jc_bulk.specs.Outside.{bulk_behavior};
ghost use Rattle.jc_bulk.specs.BulkRounds.{IsOutsideReady, RunsOn};

use crate::outside::{OutsideCall, OutsideKind};
use jc_cache::{Cache, Session};
use jc_rounds::BulkCall;
use std::alloc::{AllocError, Global};
use std::sync::Wait;

/// Makes rounds until each key has ended. A round that has reserved keys asks the loader or the writer once for them.
///
/// Between two rounds it waits for a change on the stripe of a key that was put off, with no reservation out. It may wait for
/// ever. Each round uses the memory of the first one, except for a batch that was handed to the writer: a new one is taken before
/// the first phase of the next round. If that fails, each key that waits is refused.
pub(crate) fn run_rounds<R: Wait>(
    alloc: Global,
    rt: &R,
    cache: &Cache,
    session: &mut Session,
    call: &mut BulkCall<'_>,
    outside: OutsideCall,
)
    requires ready { IsOutsideReady call.old outside }
    requires run { (past : CallPast) × HasRun cache.now past session.old call.old }
    ensures over { IsOver call.new }
    ensures runs { (past : CallPast) → HasRun cache.now past session.old call.old
        → RunsOn (bulk_behavior loads_all load_state writes_all deletes_all write_state)
        cache.now past session.old call.old session.new call.new }
{
    let kind = outside.kind();
    let mut next = outside;
    for _ in rt.forever() {
        if !call.reserve(rt, cache, session) {
            next.end();
            return;
        }
        let (answers, fault, rest) = next.ask_for(rt, session, &mut call.tickets);
        let spent = call.end_round(rt, cache, session, answers, fault);
        let left = OutsideCall::again(spent, rest);
        if !call.wait(rt, cache, session) {
            end_left(left);
            return;
        }
        match ready(alloc, kind, call.most(), left) {
            Ok(outside) => next = outside,
            Err(_failed) => {
                call.refuse_rest();
                return;
            }
        }
    }
    unreachable!()
}

/// The memory for a round's call outside: what the round before has left, or, if it was spent, new memory for as many keys. An
/// `Err` says that an allocation failed.
fn ready(
    alloc: Global,
    kind: OutsideKind,
    most: usize,
    left: Option<OutsideCall>,
) -> Result<OutsideCall, AllocError>
    requires { IfSome left (λ call. (call.kind ≡ kind) × (call.items ≡ []) × (most ≤ call.room)) }
    ensures ok { IfOk result (λ call. (call.kind ≡ kind) × (call.items ≡ []) × (most ≤ call.room)) }
    ensures err { IfErr result (λ failed. left ≡ None) }
{
    match left {
        Some(outside) => Ok(outside),
        None => kind.call(alloc, most),
    }
}

/// Frees the memory with which no round has asked.
fn end_left(left: Option<OutsideCall>)
    requires { IfSome left (λ call. call.items ≡ []) }
{
    match left {
        Some(outside) => outside.end(),
        None => {}
    }
}
