//! The end of a cache.
ghost use Rattle.std.specs.Prelude.{◌≡◌, ◌⊎◌, ◌≤◌, ◌++◌, true, [], IsTrue, IfOk, IfErr, OnOk, OnErr, All, length, map, min, vec_capacity};
ghost use Rattle.atomic_table.specs.Seated.{TableId};
ghost use Rattle.jc_lock.specs.declared.view.View.{View};
ghost use Rattle.std.specs.FinMap.{from_entries};
ghost use Rattle.jc_types.specs.declared.limits.TheConstants.{LAST_NUMBER};
ghost use Rattle.jc_types.specs.declared.refusal.Refusal.TheVariants.{OutOfMemory};
ghost use Rattle.jc_model.specs.Legal.{Legal};
ghost use Rattle.jc_model.specs.Listed.{has_distinct_keys};
ghost use Rattle.jc_model.specs.Statistics.{statistics_of};
ghost use Rattle.jc_stripe.specs.Occurrences.{all_occurrences};
ghost use Rattle.jc_stripe.specs.OrderOfUse.{by_use};
ghost use Rattle.jc_stripe.specs.Reached.{IsReached};
ghost use Rattle.jc_stripe.specs.Reopening.{shares_key};
ghost use Rattle.jc_cache.specs.Caches.{logs_of};
ghost use Rattle.jc_cache.specs.Closing.{AreIdle, HasClosed, HasEnded, HasNotClosed, HasNotEnded};
ghost use Rattle.jc_cache.specs.ClosingInside.{HaveTaken, IsRowRefusal, KeepSeats, LeavesUnchanged, OwnsSeats};
ghost use Rattle.jc_cache.specs.Sessions.{IsOf};

mod own_seats;

use crate::cache::Cache;
use crate::owner::CacheOwner;
use jc_lock::{HistLock, Seat};
use jc_model::{Event, Statistics};
use jc_outside::Outside;
use jc_session::Session;
use jc_stripe::Stripe;
use jc_stripe::phase_laws::is_legal;
use jc_types::{Key, Refusal, Value};
use own_seats::{join_all, take_all, test_all_idle};
use std::alloc::{AllocError, Global};
use std::fmt;
use std::marker::Model;
use thiserror::Error;

/// A stripe of a closed cache: the history of its present generation, and what was cached at its end. Contracts see its last state.
///
/// The history is stored as the cache stored it, in a few bytes for each event. What the stripe opened with isn't stored: only
/// contracts see it. It is nothing if the cache was made by [`CacheOwner::new`]; [`CacheOwner::reopen`] says how to know it.
#[derive(Drop)]
pub struct ClosedStripe {
    stripe: Box<Stripe>,
}

impl Model for ClosedStripe {
    ghost use Rattle.std.specs.Coded.{codes};
    ghost use Rattle.jc_model.specs.Cache.{cache_code};
    ghost use Rattle.jc_stripe.specs.State.{State};

    ghost Value = { State };

    ghost coded = { Prim.hlevel (codes, cache_code) };

    ghost view = { λ s. s.stripe.value };
}

impl ClosedStripe {
    /// The number of events in the history, which is legal from what the generation opened with.
    pub fn events_len(&self) -> usize
        ensures len { result ≡ length self.now.history }
        ensures legal { Legal self.now.config self.now.opening self.now.history }
        ensures reached { IsReached self.now }
    {
        self.stripe.events_len()
    }

    /// Whether its cache lived on.
    pub fn lives(&self) -> bool
        ensures { result ≡ self.now.lives }
    {
        self.stripe.lives()
    }

    /// Whether it was shut when its cache was closed: all its entries were to be forgotten, but its history had no place for that
    /// ([`Cache::invalidate`]). [`CacheOwner::reopen`] opens with none of them.
    pub fn is_shut(&self) -> bool
        ensures { result ≡ self.now.shut }
    {
        self.stripe.is_shut()
    }

    /// The number of generations that ended before this history. A count that has reached `u64::MAX` stays there.
    pub fn generations_ended(&self) -> u64
        ensures { result ≡ min (length self.now.ended) LAST_NUMBER }
    {
        self.stripe.generations_ended()
    }

    /// The statistics of the events of all its generations, the last one included (JSR 107, "Statistics"). It reads no event.
    pub fn statistics(&self) -> Statistics
        ensures { result ≡ statistics_of (all_occurrences self.now) }
    {
        self.stripe.statistics()
    }

    /// Appends this history, oldest event first. An `Err` says that an allocation failed, and then nothing is appended.
    pub fn append_events(&self, out: &mut Vec<Event>) -> Result<(), AllocError>
        ensures ok { OnOk result (out.new.items ≡ out.old.items ++ self.now.history) }
        ensures err { OnErr result (out.new.items ≡ out.old.items) }
    {
        self.stripe.append_events(0, self.stripe.events_len(), out)
    }

    /// Appends the entries, each key once, the most recently used first; also those that were to be forgotten, if the stripe
    /// [was shut](ClosedStripe::is_shut). An `Err` says that an allocation failed, and then nothing is appended.
    pub fn append_entries(&self, out: &mut Vec<(Key, Value)>) -> Result<(), AllocError>
        ensures by_use { OnOk result (out.new.items
            ≡ out.old.items ++ by_use self.now.opening self.now.history) }
        ensures cache { (from_entries (by_use self.now.opening self.now.history) ≡ self.now.cache)
            × IsTrue (has_distinct_keys (by_use self.now.opening self.now.history)) }
        ensures err { OnErr result (out.new.items ≡ out.old.items) }
    {
        self.stripe.entries(out)
    }

    /// Whether a key is cached both here and in the other stripe. It takes no memory.
    pub(crate) fn shares_key(&self, other: &ClosedStripe) -> bool
        ensures { result ≡ shares_key self.now other.now }
    {
        self.stripe.shares_key(&other.stripe)
    }
}

/// A closed cache.
#[derive(Drop)]
pub struct Closed {
    /// Its stripes, by their numbers.
    pub stripes: Vec<ClosedStripe>,
    /// The loader and the writer of each session, in the order in which the sessions were handed in.
    pub outside: Vec<Outside>,
    /// The owner's seats. They take no bytes: contracts see in them what closing did at each stripe.
    pub seats: Vec<Seat>,
    /// Whether each history is legal from what its stripe opened with, and leads to the stripe's entries: it always is.
    pub legal: bool,
}

/// A cache that was not closed, with all that was handed in. Its text is the refusal's.
#[derive(Drop, Error)]
#[error("{refusal}")]
pub struct CloseFault {
    /// The reason: `StillReserved` or `OutOfMemory`; or `Busy`, see [`CacheOwner::close`].
    pub refusal: Refusal,
    /// The owner of the cache.
    pub owner: CacheOwner,
    /// The sessions.
    pub sessions: Vec<Session>,
}

/// Shows the refusal alone.
impl fmt::Debug for CloseFault {
    fn fmt<W: fmt::Write>(&self, f: &mut fmt::Formatter<W>) -> fmt::Result {
        write!(f, "CloseFault {:?}", self.refusal)
    }
}

impl CacheOwner {
    /// Ends the cache, with all of its sessions, and returns their loaders and writers. What was cached is still in the store of
    /// record, if every change was written through.
    ///
    /// It is refused, and hands everything back, if a session was not handed in, or if a reservation or an answer that was not
    /// picked up is out (`StillReserved`), or if an allocation failed (`OutOfMemory`), tested in this order. It never waits.
    ///
    /// `Busy` would say that somebody held a stripe though all sessions are handed in. No session holds a stripe between its
    /// calls, so that can't happen.
    ///
    /// Condition: the sessions are of this cache.
    pub fn close(self, alloc: Global, sessions: Vec<Session>) -> Result<Closed, CloseFault>
        requires { All (λ s. IsOf self.cache s) sessions.items }
        ensures ok { IfOk result
            (λ c. HasClosed self sessions.items c.stripes.items c.outside.items c.seats.items c.legal) }
        ensures err { IfErr result
            (λ f. HasNotClosed self sessions.items f.refusal f.owner f.sessions.items) }
    {
        if sessions.len() == self.given as usize {
            return self.close_with_all(alloc, sessions);
        }
        Err(CloseFault {
            refusal: Refusal::StillReserved,
            owner: self,
            sessions,
        })
    }

    /// Ends the cache as [`CacheOwner::close`] does, but without its sessions, which may be gone. Their loaders and writers don't
    /// come back, and what the sessions have seen isn't stated. Use it if the cache had clients, and you don't need their
    /// sessions back.
    ///
    /// It is refused, and hands the owner back, if a reservation or an answer that was not picked up is out (`StillReserved`), or
    /// if an allocation failed (`OutOfMemory`), tested in this order; or as `Busy`, see there. It never waits.
    pub fn end(self, alloc: Global) -> Result<Closed, CloseFault>
        ensures ok { IfOk result (λ c. HasEnded self c.stripes.items c.outside.items c.seats.items c.legal) }
        ensures err { IfErr result (λ f. HasNotEnded self f.refusal f.owner f.sessions.items) }
    {
        is_legal();
        let CacheOwner {
            cache,
            given,
            mut seats,
        } = self;
        match take_stripes(alloc, cache.locks(), &mut seats, 0) {
            Ok((stripes, outside)) => Ok(Closed {
                stripes,
                outside,
                seats,
                legal: true,
            }),
            Err(refusal) => Err(CloseFault {
                refusal,
                owner: CacheOwner {
                    cache,
                    given,
                    seats,
                },
                sessions: Vec::new(alloc),
            }),
        }
    }

    /// Ends the cache as [`CacheOwner::close`] does, with all sessions that were given out.
    fn close_with_all(self, alloc: Global, sessions: Vec<Session>) -> Result<Closed, CloseFault>
        requires own { All (λ s. IsOf self.cache s) sessions.items }
        requires all { length sessions.items ≡ self.given }
        ensures ok { IfOk result
            (λ c. HasClosed self sessions.items c.stripes.items c.outside.items c.seats.items c.legal) }
        ensures err { IfErr result
            (λ f. HasNotClosed self sessions.items f.refusal f.owner f.sessions.items) }
    {
        is_legal();
        let CacheOwner {
            cache,
            given,
            mut seats,
        } = self;
        match take_stripes(alloc, cache.locks(), &mut seats, sessions.len()) {
            Ok((stripes, mut outside)) => {
                join_all(cache.locks(), &mut seats, &stripes, sessions, &mut outside);
                Ok(Closed {
                    stripes,
                    outside,
                    seats,
                    legal: true,
                })
            }
            Err(refusal) => Err(CloseFault {
                refusal,
                owner: CacheOwner {
                    cache,
                    given,
                    seats,
                },
                sessions,
            }),
        }
    }
}

/// Takes all stripes, if nothing is out at any, and makes a list with room for what the sessions bring. An `Err` leaves all
/// stripes at their locks.
fn take_stripes(
    alloc: Global,
    locks: &[HistLock],
    own: &mut Vec<Seat>,
    sessions: usize,
) -> Result<(Vec<ClosedStripe>, Vec<Outside>), Refusal>
    requires { OwnsSeats locks.now own.old.items [] }
    ensures keeps { KeepSeats LeavesUnchanged own.old.items own.new.items }
    ensures ok { IfOk result (λ r. HaveTaken own.new.items r.0.items
        × (length r.0.items ≡ length own.new.items)
        × AreIdle (logs_of own.old.items) (logs_of own.new.items)) }
    ensures room { IfOk result (λ r. (r.1.items ≡ []) × (sessions ≤ vec_capacity r.1)) }
    ensures err { IfErr result (λ r. HaveTaken own.new.items []
        × (IsRowRefusal r own.old.items own.new.items ⊎ ((r ≡ OutOfMemory)
        × AreIdle (logs_of own.old.items) (logs_of own.new.items)))) }
{
    test_all_idle(locks, own)?;
    let Ok(outside) = Vec::with_capacity(alloc, sessions) else {
        return Err(Refusal::OutOfMemory);
    };
    let Ok(stripes) = Vec::with_capacity(alloc, locks.len()) else {
        return Err(Refusal::OutOfMemory);
    };
    let stripes = take_all(locks, own, stripes)?;
    Ok((stripes, outside))
}
