//! The rounds of a call that runs a processor on many keys, with their calls outside and the memory for them.
ghost use Rattle.std.specs.Prelude.{◌≡◌, ℕ, Bool, IfErr, IfOk, IfSome, None};
ghost use Rattle.jc_rounds.specs.Underway.{CallPast, IsOver};
ghost use Rattle.jc_rounds.specs.Running.{HasRun};
ghost use Rattle.jc_invoke.specs.InvokeRounds.{IsInvokeReady, RunsOn};
ghost use Rattle.jc_invoke.specs.Processing.{KeepsProcessing};
ghost use Rattle.jc_invoke.specs.RoundRooms.{IsRoundRoomFor};
ghost use Rattle.jc_invoke.specs.Runs.{run_behavior};

use crate::room::RoundRoom;
use crate::run::Processing;
use jc_cache::{Cache, Session};
use jc_rounds::BulkCall;
use std::alloc::{AllocError, Global};
use std::sync::Wait;

/// Makes rounds until each key has ended. A round that has reserved keys runs the processor on them, and then asks the writer.
///
/// Between two rounds it pauses until something has changed on the stripe of a key that was put off, with no reservation out. It
/// may wait for ever. Without write-through each round uses the memory of the first one. With it, a round after one that has
/// asked takes new memory for its calls outside, before its first phase; if the allocation fails, each key that waits is refused.
pub(crate) fn run_rounds<R: Wait>(
    rt: &R,
    cache: &Cache,
    session: &mut Session,
    call: &mut BulkCall<'_>,
    room: RoundRoom,
    processing: &mut Processing<'_>,
)
    requires ready { IsInvokeReady cache.now.config call.old room }
    requires run { (past : CallPast) × HasRun cache.now past session.old call.old }
    ensures over { IsOver call.new × KeepsProcessing processing.old processing.new }
    ensures runs { (past : CallPast) → HasRun cache.now past session.old call.old
        → RunsOn (run_behavior loads load_state writes_all deletes_all write_state processes process_state)
        processing.old.args.now cache.now past session.old call.old processing.old.processor.now
        session.new call.new processing.new.processor.now }
{
    let mut next = room;
    for _ in rt.forever() {
        if !call.reserve(rt, cache, session) {
            next.end();
            return;
        }
        let (answers, rest) = next.ask(rt, session, &mut call.tickets, processing);
        let spent = call.end_round(rt, cache, session, answers, None);
        let left = RoundRoom::again(spent, rest);
        if !call.wait(rt, cache, session) {
            end_room(left);
            return;
        }
        match next_room(processing.alloc, cache, call.most(), left) {
            Ok(room) => next = room,
            Err(_failed) => {
                call.refuse_rest();
                return;
            }
        }
    }
    unreachable!()
}

/// The memory for the next round's calls outside: what the last round has left, or as much anew. An `Err` says that an allocation
/// failed.
fn next_room(
    alloc: Global,
    cache: &Cache,
    keys: usize,
    left: Option<RoundRoom>,
) -> Result<RoundRoom, AllocError>
    requires { IfSome left (λ room. IsRoundRoomFor keys cache.now.config.write_through room) }
    ensures { IfOk result (λ room. IsRoundRoomFor keys cache.now.config.write_through room) × IfErr result (λ failed. left ≡ None) }
{
    match left {
        Some(room) => Ok(room),
        None => RoundRoom::new(alloc, cache.config().write_through, keys),
    }
}

/// Frees what the last round has left.
fn end_room(left: Option<RoundRoom>)
    requires { (keys : ℕ) × (through : Bool) × IfSome left (λ room. IsRoundRoomFor keys through room) }
{
    match left {
        Some(room) => room.end(),
        None => {}
    }
}
