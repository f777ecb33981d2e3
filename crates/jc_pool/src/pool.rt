//! A pool: workers side by side, which do the pieces of one job (`run_pieces`).
ghost use Rattle.std.specs.Prelude.{◌≡◌, ◌+◌, ◌^◌, ◌<◌, ◌++◌, All, length, OnOk, OnErr};
ghost use Rattle.std.specs.List.{zip};
ghost use denote.Param.Send.{IsSync, IsSend};
ghost use Rattle.jc_pool.specs.Shares.{CanDoAll, DoesEachOnce};
ghost use Rattle.jc_pool.specs.Views.{fresh_claims};
ghost use Rattle.jc_pool.specs.Teams.{CanBegin, CanBeginHalves, HasEnded, HaveEnded};

use crate::counter::{Claimer, Counter};
use crate::view::JobPlan;
use crate::work::{Work, WorkWith};
use std::alloc::{AllocError, Global};
use std::thread::{Threads, join_mut};

/// Does the pieces whose numbers are below `pieces`, each once, by all workers side by side.
///
/// Each worker claims the next piece, does it and claims again, until none is left. So each has a share of the pieces, which it
/// does in rising order. The first worker works on the calling thread, each of the others on a thread of its own. If no thread
/// can be started, fewer threads do the work of all workers. It returns once all workers have ended, so it waits for as long as
/// their pieces do. Which worker has which share is not promised.
///
/// An `Err` says that an allocation failed. No piece was done, and the workers are as they were.
///
/// Conditions: there is at least one worker; pieces and workers together are at most `usize::MAX`; each worker can do every
/// piece.
pub fn run_pieces<W: Work + Send, R: Threads + Sync>(
    alloc: Global,
    rt: &R,
    workers: &mut [W],
    pieces: usize,
) -> Result<(), AllocError>
    requires some { 0 < length workers.old }
    requires fits { pieces + length workers.old < 2 ^ 64 }
    requires able { All (CanDoAll W.can_do pieces) workers.old }
    ensures done { OnOk result (DoesEachOnce W.did W.job W.can_do W.does pieces workers.old workers.new) }
    ensures err { OnErr result (workers.new ≡ workers.old) }
{
    let mut tools = vec![in alloc; (); workers.len()]?;
    run_pieces_with(alloc, rt, workers, tools.as_mut_slice(), pieces)
}

/// Does the pieces as [`run_pieces`] does, with a tool for each worker: the one at its own place in `tools`.
///
/// An `Err` says that an allocation failed. No piece was done, and workers and tools are as they were.
///
/// Conditions: there is at least one worker, and there are as many tools; pieces and workers together are at most `usize::MAX`;
/// each worker can do every piece.
pub fn run_pieces_with<T: Send, W: WorkWith<T> + Send, R: Threads + Sync>(
    alloc: Global,
    rt: &R,
    workers: &mut [W],
    tools: &mut [T],
    pieces: usize,
) -> Result<(), AllocError>
    requires some { 0 < length workers.old }
    requires tools { length tools.old ≡ length workers.old }
    requires fits { pieces + length workers.old < 2 ^ 64 }
    requires able { All (CanDoAll W.can_do pieces) (zip workers.old tools.old) }
    ensures done { OnOk result (DoesEachOnce W.did W.job W.can_do W.does pieces (zip workers.old tools.old) (zip workers.new tools.new)) }
    ensures len { (length workers.new ≡ length workers.old) × (length tools.new ≡ length tools.old) }
    ensures err { OnErr result ((workers.new ≡ workers.old) × (tools.new ≡ tools.old)) }
{
    let plan = JobPlan {
        pieces,
        workers: workers.len(),
    };
    let (counter, mut claimer) = Counter::new(alloc, &plan)?;
    work_side_by_side(rt, &counter, &mut claimer, workers, tools);
    counter.close(claimer);
    Ok(())
}

/// Makes all these workers claim and do pieces until none is left. The list is halved at each step, so that the stack grows as
/// the logarithm of its length.
///
/// Conditions: the claimer is for just these workers, of whom there is at least one, and nothing was claimed with it; there are
/// as many tools; each worker can do every piece.
#[cycle(halves)]
fn work_side_by_side<T: Send, W: WorkWith<T> + Send, R: Threads + Sync>(
    rt: &R,
    counter: &Counter,
    claimer: &mut Claimer,
    workers: &mut [W],
    tools: &mut [T],
)
    requires { CanBegin W.can_do counter.now claimer.old workers.old tools.old }
    ensures { HaveEnded W.did W.job W.can_do W.does counter.now claimer.new workers.old tools.old workers.new tools.new }
{
    if workers.len() == 1 {
        work(counter, claimer, &mut workers[0], &mut tools[0]);
        return;
    }
    let half = workers.len() / 2;
    let (first, rest) = workers.split_at_mut(workers.len() - half);
    let (first_tools, rest_tools) = tools.split_at_mut(tools.len() - half);
    let context = WorkerContext { rt, counter };
    work_in_halves(context, claimer, first, first_tools, rest, rest_tools);
}

/// The data that all workers share.
struct WorkerContext<'a, R> {
    /// The runtime, which starts threads.
    rt: &'a R,
    /// The counter that they claim from.
    counter: &'a Counter,
}

/// Runs the first half of the workers on this thread, and the others on a new one. If no thread can be started, the others work
/// afterwards on this one.
///
/// Conditions: as for all of them together; the second half is half of them, rounded down, and there are as many tools for each.
#[cycle(halves)]
fn work_in_halves<T: Send, W: WorkWith<T> + Send, R: Threads + Sync>(
    context: WorkerContext<'_, R>,
    claimer: &mut Claimer,
    first: &mut [W],
    first_tools: &mut [T],
    rest: &mut [W],
    rest_tools: &mut [T],
)
    requires { CanBeginHalves W.can_do context.counter.now claimer.old first.old first_tools.old rest.old rest_tools.old }
    ensures { HaveEnded W.did W.job W.can_do W.does context.entry.counter.now claimer.new
        (first.old ++ rest.old) (first_tools.old ++ rest_tools.old) (first.new ++ rest.new) (first_tools.new ++ rest_tools.new) }
{
    let WorkerContext { rt, counter } = context;
    let mut other = counter.split(claimer);
    let mut here = ||
        requires { IsSync R.row × IsSend W.row × IsSend T.row × CanBegin W.can_do counter.now claimer.now first.now first_tools.now }
        ensures { HaveEnded W.did W.job W.can_do W.does counter.entry.now claimer.exit.now first.entry.now first_tools.entry.now first.exit.now first_tools.exit.now }
    { work_side_by_side(rt, counter, claimer, first, first_tools) };
    let mut there = ||
        requires { IsSync R.row × IsSend W.row × IsSend T.row × CanBegin W.can_do counter.now other rest.now rest_tools.now }
        ensures { HaveEnded W.did W.job W.can_do W.does counter.entry.now other.exit rest.entry.now rest_tools.entry.now rest.exit.now rest_tools.exit.now }
    { work_side_by_side(rt, counter, &mut other, rest, rest_tools) };
    join_mut(rt, &mut there, &mut here);
    counter.join(claimer, other);
}

/// Makes one worker claim and do pieces until none is left.
///
/// Conditions: the claimer is for one worker, and nothing was claimed with it; the worker can do every piece.
fn work<T, W: WorkWith<T>>(counter: &Counter, claimer: &mut Claimer, worker: &mut W, tool: &mut T)
    requires claimer { (claimer.old.0 ≡ counter.now.0) × (claimer.old.1 ≡ fresh_claims counter.now.1 1) }
    requires able { CanDoAll W.can_do counter.now.1.pieces (worker.old, tool.old) }
    ensures { HasEnded W.did W.job W.can_do W.does counter.now claimer.new (worker.old, tool.old) (worker.new, tool.new) }
{
    while let Some(piece) = counter.claim(claimer) {
        worker.piece_with(tool, piece);
    }
}
