//! Threads that share a cache, and count together.
//!
//! Each thread has a session of its own, and increments one counter by an entry processor. So a lost update would show in the
//! counter, in the store of record, or in the history.
ghost use Rattle.std.specs.Prelude.{◌≡◌, ◌+◌, ◌≤◌, OnOk, IfOk, All, length};
ghost use Rattle.jc_cache.specs.Sessions.{MayCall};
ghost use Rattle.jcache.specs.Reports.{AreCounts, IsReportOf};
ghost use Rattle.jcache.specs.Teams.{HasCounted};

use crate::report::Report;
use jc_cache::{
    Cache, CacheLoader, CacheOwner, CacheWriter, Config, EntryProcessor, Key, Refusal, Session,
    Value,
};
use jc_commands::plan::{Plan, WORKERS_MAX};
use jc_store::SharedStore;
use std::alloc::{AllocError, Global};
use std::sync::Wait;
use std::thread::{self, Threads};

/// The key that all threads increment.
const COUNTER: &[u8] = b"counter";

/// The most entries that the cache keeps. It has one.
const CAPACITY: usize = 16;

/// The number of events that the history has room for beside the increments: a call needs room for three, and the last `get` for
/// one.
const SPARE_EVENTS: u64 = 16;

/// A thread's own session and entry processor.
#[derive(Drop)]
pub struct Incrementer {
    session: Session,
    increment: Box<dyn EntryProcessor + Send + Drop>,
}

/// The shape of a cache of one stripe that reads and writes through, with room for `history` events in its history.
fn shape(history: usize) -> Config {
    Config {
        stripes: 1,
        capacity: CAPACITY,
        history,
        read_through: true,
        write_through: true,
    }
}

/// The owner of the cache of a plan: it lives on, or has room for each increment in its history.
fn owner_for(alloc: Global, plan: &Plan) -> Result<CacheOwner, Refusal> {
    match plan.history {
        Some(events) => CacheOwner::living(alloc, &shape(events as usize)),
        None => {
            let events = plan.increments().saturating_add(SPARE_EVENTS);
            CacheOwner::new(alloc, &shape(events as usize))
        }
    }
}

/// The parts of a session on a thread: a loader and a writer of its own, and an entry processor that increments.
#[derive(Drop)]
pub struct Outfit {
    /// The session's loader.
    pub loader: Box<dyn CacheLoader + Send + Drop>,
    /// The session's writer.
    pub writer: Box<dyn CacheWriter + Send + Drop>,
    /// The entry processor that the thread runs.
    pub increment: Box<dyn EntryProcessor + Send + Drop>,
}

/// The parts of a count: the store of record, which must be empty, and an outfit over it for each session, [`OUTFITS`] of them.
///
/// `main` makes it, since a loader that waits can be boxed only where the runtime is known.
#[derive(Drop)]
pub struct Crew {
    /// The store of record.
    pub store: SharedStore,
    /// The outfits of the sessions.
    pub outfits: Vec<Outfit>,
}

/// The number of outfits of a crew: one for each of the most threads, and one for the session that reads the counter in the end.
pub const OUTFITS: u32 = WORKERS_MAX + 1;

/// Counts on threads by the plan, each worker on a thread of its own if one can be started, and reports the numbers found.
///
/// It waits until all threads have ended. An `Err` says that an allocation failed, that there is no session left, or that the
/// crew has too few outfits.
pub fn count_on_threads<R: Threads + Wait + Sync>(
    rt: &R,
    alloc: Global,
    crew: Crew,
    plan: &Plan,
) -> Result<Report, AllocError>
    ensures { IfOk result (λ report. IsReportOf plan.now report) }
{
    let Crew { store, outfits } = crew;
    let Ok(mut owner) = owner_for(alloc, plan) else {
        return Err(AllocError);
    };
    let team = hire(alloc, &mut owner, outfits, plan.workers)?;
    count(rt, alloc, owner, &store, team, plan)
}

/// Creates the workers, and one more, each with a session of its own.
fn hire(
    alloc: Global,
    owner: &mut CacheOwner,
    outfits: Vec<Outfit>,
    workers: u32,
) -> Result<Vec<Incrementer>, AllocError>
    ensures ready { IfOk result (λ team. All (λ w. HasCounted owner.new.cache 0 w.session) team.items) }
    ensures len { IfOk result (λ team. length team.items ≡ workers + 1) }
{
    let wanted = workers as usize + 1;
    let mut outfits = outfits;
    let mut team = Vec::new(alloc);
    while team.len() < wanted {
        let Some(outfit) = outfits.pop() else {
            return Err(AllocError);
        };
        enlist(alloc, owner, outfit, &mut team)?;
    }
    Ok(team)
}

/// Adds a worker with a session of its own. An `Err` says that there is no session left, or that an allocation failed.
fn enlist(
    alloc: Global,
    owner: &mut CacheOwner,
    outfit: Outfit,
    team: &mut Vec<Incrementer>,
) -> Result<(), AllocError>
    requires team { All (λ w. HasCounted owner.old.cache 0 w.session) team.old.items }
    ensures team { OnOk result (All (λ w. HasCounted owner.new.cache 0 w.session) team.new.items) }
    ensures one { OnOk result (length team.new.items ≡ length team.old.items + 1) }
{
    let Outfit {
        loader,
        writer,
        increment,
    } = outfit;
    match owner.session(alloc, Some(loader), Some(writer)) {
        Ok(session) => {
            team.push(Incrementer { session, increment })?;
            Ok(())
        }
        Err(_) => Err(AllocError),
    }
}

/// Lets all of the team except the last one count, each on a thread of its own. Then the last one gets the counter, and the cache
/// is closed.
fn count<R: Threads + Wait + Sync>(
    rt: &R,
    alloc: Global,
    owner: CacheOwner,
    store: &SharedStore,
    team: Vec<Incrementer>,
    plan: &Plan,
) -> Result<Report, AllocError>
    requires ready { All (λ w. HasCounted owner.cache 0 w.session) team.items }
    requires len { length team.items ≡ plan.now.workers + 1 }
    ensures { IfOk result (λ report. IsReportOf plan.now report) }
{
    let mut team = team;
    let Ok(key) = Key::new(COUNTER) else {
        unreachable!()
    };
    let Some(last) = team.pop() else {
        unreachable!()
    };
    let own = work_side_by_side(rt, owner.cache(), team, &key, plan.rounds)?;
    let counter = counter(rt, owner.cache(), last, &key);
    let legal = end(alloc, owner)?;
    Ok(Report {
        plan: *plan,
        counter,
        store: store.read(rt, &key),
        own,
        legal,
    })
}

/// Lets each of the team work, on a thread of its own if one can be started. It waits until all have ended, and returns the
/// number of steps of each session, in their order.
fn work_side_by_side<R: Threads + Wait + Sync>(
    rt: &R,
    cache: &Cache,
    team: Vec<Incrementer>,
    key: &Key,
    rounds: u32,
) -> Result<Vec<u64>, AllocError>
    requires { All (λ w. HasCounted cache.now 0 w.session) team.items }
    ensures { IfOk result (λ own. AreCounts (length team.items) rounds own.items) }
{
    thread::map_vec(
        rt,
        team,
        &|worker: Incrementer| -> u64
            requires { HasCounted cache.now 0 worker.session }
            ensures { result ≤ rounds }
        { work(rt, cache, worker, key, rounds) },
    )
}

/// The work of one thread: `rounds` increments. It returns the number of steps that its session has made.
fn work<R: Wait>(rt: &R, cache: &Cache, worker: Incrementer, key: &Key, rounds: u32) -> u64
    requires { HasCounted cache.now 0 worker.session }
    ensures { result ≤ rounds }
{
    let mut worker = worker;
    for round in 0..rounds {
        increment(rt, cache, &mut worker, key, round);
    }
    worker.session.own()
}

/// Makes one increment, in a thread that has made `made` of them. If it is refused or fails, the final numbers show it.
fn increment<R: Wait>(rt: &R, cache: &Cache, worker: &mut Incrementer, key: &Key, made: u32)
    requires { HasCounted cache.now made worker.old.session }
    ensures { HasCounted cache.now (made + 1) worker.new.session }
{
    let _ = cache.invoke(rt, &mut worker.session, key, &mut worker.increment, &[]);
}

/// The counter in the cache, as this worker's session gets it, or `None` if it isn't there or the call fails.
fn counter<R: Wait>(rt: &R, cache: &Cache, worker: Incrementer, key: &Key) -> Option<Value>
    requires { MayCall cache.now worker.session }
{
    let mut worker = worker;
    match cache.get(rt, &mut worker.session, key) {
        Ok(value) => value,
        Err(_) => None,
    }
}

/// Closes the cache, and returns whether its history is legal. If the cache can't be closed, it returns `false`. An `Err` says
/// that an allocation failed.
fn end(alloc: Global, owner: CacheOwner) -> Result<bool, AllocError> {
    match owner.end(alloc) {
        Ok(ended) => Ok(ended.legal),
        Err(fault) => {
            if fault.refusal == Refusal::OutOfMemory {
                Err(AllocError)
            } else {
                Ok(false)
            }
        }
    }
}
