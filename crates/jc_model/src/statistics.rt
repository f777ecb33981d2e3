//! The counts of a cache (JSR 107, "Statistics"; `javax.cache.management.CacheStatisticsMXBean`).
ghost use Rattle.std.specs.Prelude.{◌≡◌, ◌+◌, ℕ, Option, []};
ghost use Rattle.jc_types.specs.declared.caller.Caller.{Caller};
ghost use Rattle.jc_model.specs.Cache.{Bytes};
ghost use Rattle.jc_model.specs.Statistics.{has_value, has_none, has_flag, has_no_fault, sets, removes, step_hits, step_misses};
ghost use Rattle.jc_model.specs.Statistics.{step_puts, step_removes, capped, statistics_of, more_if, with_event, together, StatisticsLaws};
ghost use Rattle.jc_model.specs.declared.event.Event.TheVariants.{Step};

use crate::event::{Cause, Effect, Event, Op, Out, ProcessAnswer, Reply};

/// How often a cache was asked and changed. A count that has reached `u64::MAX` stays there.
///
/// A step that asks for its entry counts as a hit if the key had an entry before it, otherwise as a miss. So do a `remove(key,
/// oldValue)` or `replace(key, oldValue, newValue)` that answers false, and an `invoke`, whatever its processor does. A call
/// whose writer failed counts as neither, unless it is an `invoke`. A history has no times, so there are no averages.
#[derive(Clone, Copy, Debug, PartialEq, Eq)]
pub struct Statistics {
    /// `CacheHits`: steps that asked for an entry, and found it cached. `containsKey` doesn't ask for it.
    pub hits: u64,
    /// `CacheMisses`: steps that asked for an entry, and didn't find it cached, whatever the loader answered then.
    pub misses: u64,
    /// `CachePuts`: steps that gave an entry a value. A load isn't one, and neither is a step whose writer failed.
    pub puts: u64,
    /// `CacheRemovals`: steps that removed an entry, or whose processor did. `clear` and evictions aren't counted here.
    pub removals: u64,
    /// `CacheEvictions`: entries that the cache evicted.
    pub evictions: u64,
}

fn has_value(reply: &Reply) -> bool
    ensures { result ≡ has_value reply.now }
{
    matches!(reply, Reply::Value(Some(_)))
}

fn has_none(reply: &Reply) -> bool
    ensures { result ≡ has_none reply.now }
{
    matches!(reply, Reply::Value(None))
}

fn has_flag(wanted: bool, reply: &Reply) -> bool
    ensures { result ≡ has_flag wanted reply.now }
{
    match reply {
        Reply::Flag(flag) => *flag == wanted,
        Reply::Unit | Reply::Value(_) | Reply::Fault(_) => false,
    }
}

fn has_no_fault(reply: &Reply) -> bool
    ensures { result ≡ has_no_fault reply.now }
{
    !matches!(reply, Reply::Fault(_))
}

fn sets(answer: &ProcessAnswer) -> bool
    ensures { result ≡ sets answer.now }
{
    match answer {
        ProcessAnswer::Ended { effect, .. } => matches!(effect, Effect::Set(_)),
        ProcessAnswer::NotAsked | ProcessAnswer::Failed(_) => false,
    }
}

fn removes(answer: &ProcessAnswer) -> bool
    ensures { result ≡ removes answer.now }
{
    match answer {
        ProcessAnswer::Ended { effect, .. } => matches!(effect, Effect::Remove),
        ProcessAnswer::NotAsked | ProcessAnswer::Failed(_) => false,
    }
}

/// Whether a step asked for its entry, and found it cached.
fn step_hits(found: bool, op: &Op, out: &Out, reply: &Reply) -> bool
    ensures { result ≡ step_hits found op.now out.now reply.now }
{
    match op {
        Op::Get => !out.load.is_given() && has_value(reply),
        Op::GetAndPut(_) | Op::GetAndRemove | Op::GetAndReplace(_) => has_value(reply),
        Op::PutIfAbsent(_) => has_flag(false, reply),
        Op::Replace(_) => has_flag(true, reply),
        Op::RemoveIf(_) | Op::ReplaceIf { .. } => found && has_no_fault(reply),
        Op::Invoke => found,
        Op::ContainsKey | Op::Put(_) | Op::Remove | Op::Clear => false,
        Op::LoadAll { .. } => false,
    }
}

/// Whether a step asked for its entry, and didn't find it cached.
fn step_misses(found: bool, op: &Op, out: &Out, reply: &Reply) -> bool
    ensures { result ≡ step_misses found op.now out.now reply.now }
{
    match op {
        Op::Get => out.load.is_given() || has_none(reply),
        Op::GetAndPut(_) | Op::GetAndRemove | Op::GetAndReplace(_) => has_none(reply),
        Op::PutIfAbsent(_) => has_flag(true, reply),
        Op::Replace(_) => has_flag(false, reply),
        Op::RemoveIf(_) | Op::ReplaceIf { .. } => !found && has_no_fault(reply),
        Op::Invoke => !found,
        Op::ContainsKey | Op::Put(_) | Op::Remove | Op::Clear => false,
        Op::LoadAll { .. } => false,
    }
}

/// Whether a step gave its entry a value that the caller brought.
fn step_puts(op: &Op, out: &Out, reply: &Reply) -> bool
    ensures { result ≡ step_puts op.now out.now reply.now }
{
    match op {
        Op::Put(_) | Op::GetAndPut(_) => has_no_fault(reply),
        Op::GetAndReplace(_) => has_value(reply),
        Op::PutIfAbsent(_) | Op::Replace(_) | Op::ReplaceIf { .. } => has_flag(true, reply),
        Op::Invoke => has_no_fault(reply) && sets(&out.process),
        Op::Get | Op::ContainsKey | Op::Remove | Op::RemoveIf(_) => false,
        Op::GetAndRemove | Op::Clear | Op::LoadAll { .. } => false,
    }
}

/// Whether a step removed its entry, or its processor did.
fn step_removes(op: &Op, out: &Out, reply: &Reply) -> bool
    ensures { result ≡ step_removes op.now out.now reply.now }
{
    match op {
        Op::Remove | Op::RemoveIf(_) => has_flag(true, reply),
        Op::GetAndRemove => has_value(reply),
        Op::Invoke => has_no_fault(reply) && removes(&out.process),
        Op::Get | Op::ContainsKey | Op::Put(_) | Op::GetAndPut(_) | Op::PutIfAbsent(_) => false,
        Op::Replace(_) | Op::ReplaceIf { .. } | Op::GetAndReplace(_) => false,
        Op::Clear | Op::LoadAll { .. } => false,
    }
}

fn more_if(counts: bool, number: u64) -> u64
    ensures { result ≡ more_if counts number }
{
    if counts {
        number.saturating_add(1)
    } else {
        number
    }
}

impl Statistics {
    /// All counts are 0.
    pub fn new() -> Statistics
        ensures { result ≡ statistics_of [] }
    {
        Statistics {
            hits: 0,
            misses: 0,
            puts: 0,
            removals: 0,
            evictions: 0,
        }
    }

    /// `CacheGets`: hits and misses.
    pub fn gets(&self) -> u64
        ensures { result ≡ capped (self.now.hits + self.now.misses) }
    {
        self.hits.saturating_add(self.misses)
    }

    /// These counts with one more event. `found` says whether its key had an entry before it.
    pub fn with_event(&self, found: bool, event: &Event) -> Statistics
        ensures { result ≡ with_event self.now found event.now }
    {
        match event {
            Event::Step { op, out, reply, .. } => self.with_step(found, op, out, reply),
            Event::Evict { cause, .. } => match cause {
                Cause::Full | Cause::Memory => Statistics {
                    evictions: self.evictions.saturating_add(1),
                    ..*self
                },
                Cause::Invalidated => *self,
            },
        }
    }

    /// These counts with one more step, given by the parts that decide how it counts. `found` says whether its key had an entry
    /// before it.
    pub fn with_step(&self, found: bool, op: &Op, out: &Out, reply: &Reply) -> Statistics
        ensures { (caller : Caller) (key : Bytes) (shared_with : Option ℕ)
            → result ≡ with_event self.now found (Step caller op.now key out.now shared_with reply.now) }
    {
        Statistics {
            hits: more_if(step_hits(found, op, out, reply), self.hits),
            misses: more_if(step_misses(found, op, out, reply), self.misses),
            puts: more_if(step_puts(op, out, reply), self.puts),
            removals: more_if(step_removes(op, out, reply), self.removals),
            evictions: self.evictions,
        }
    }

    /// These counts with one more hit.
    pub fn with_hit(&self) -> Statistics
        ensures { result ≡ record self.now { hits = capped (self.now.hits + 1) } }
    {
        Statistics {
            hits: self.hits.saturating_add(1),
            ..*self
        }
    }

    /// The sums of these counts and others, each at most `u64::MAX`.
    pub fn together(&self, other: &Statistics) -> Statistics
        ensures { result ≡ together self.now other.now }
    {
        Statistics {
            hits: self.hits.saturating_add(other.hits),
            misses: self.misses.saturating_add(other.misses),
            puts: self.puts.saturating_add(other.puts),
            removals: self.removals.saturating_add(other.removals),
            evictions: self.evictions.saturating_add(other.evictions),
        }
    }
}

/// A law: how the counts of a list of events follow from those of its parts. It does nothing.
pub fn statistics_laws()
    ensures { StatisticsLaws }
{}
