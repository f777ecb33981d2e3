//! The statistics of a cache.
ghost use Rattle.std.specs.Prelude.{◌≡◌};
ghost use Rattle.jc_model.specs.Statistics.{statistics_of};
ghost use Rattle.jc_stripe.specs.Occurrences.{all_occurrences};
ghost use Rattle.jc_cache.specs.Caches.{noted_by};
ghost use Rattle.jc_cache.specs.Counting.{HasRead, HasReadEach, Reads, occurred_in};
ghost use Rattle.jc_cache.specs.Meeting.{IsSessionSeat, AreSessionSeats, KeepRow};
ghost use Rattle.jc_cache.specs.Sessions.{Completes, MayCall};

use crate::cache::Cache;
use crate::closing::{Closed, ClosedStripe};
use jc_lock::{HistLock, Seat};
use jc_model::Statistics;
use jc_model::statistics::statistics_laws;
use jc_session::{Agent, Session};
use std::sync::Wait;

impl Cache {
    /// The statistics of the steps of all sessions so far, in all generations (JSR 107, "Statistics"; `CacheStatisticsMXBean`).
    /// Each step counts by whether its key had an entry before it.
    ///
    /// It reads one stripe after another, each as it is then, and reads no event. The session has then seen of each stripe what
    /// was counted there.
    ///
    /// It may wait for a stripe while a phase is made there. It appends nothing to a history and takes no memory: the session's own
    /// steps, its counts and its numbers stay.
    ///
    /// Condition: the session may call the cache.
    pub fn statistics<R: Wait>(&self, rt: &R, session: &mut Session) -> Statistics
        requires { MayCall self.now session.old }
        ensures { Completes self.now session.new (Reads session.old session.new
            × (result ≡ statistics_of (occurred_in (noted_by session.new.seats.items)))) }
    {
        read_each(rt, &self.locks, &mut session.agent, &mut session.seats)
    }
}

impl Closed {
    /// The statistics of the steps of all sessions, in all generations (JSR 107, "Statistics"). It reads no event.
    pub fn statistics(&self) -> Statistics
        ensures { result ≡ statistics_of (occurred_in self.now.stripes.items) }
    {
        count_each(&self.stripes)
    }
}

/// Adds up the statistics of these stripes.
fn count_each(stripes: &[ClosedStripe]) -> Statistics
    ensures { result ≡ statistics_of (occurred_in stripes.now) }
{
    statistics_laws();
    let mut total = Statistics::new();
    for i in 0..stripes.len() {
        total = total.together(&stripes[i].statistics());
    }
    total
}

/// Reads the statistics of the stripe at each of these locks, and adds them up.
fn read_each<R: Wait>(
    rt: &R,
    locks: &[HistLock],
    agent: &mut Agent,
    seats: &mut Vec<Seat>,
) -> Statistics
    requires { (agent.old.hands.held ≡ 0) × AreSessionSeats locks.now agent.old.caller.session seats.old.items }
    ensures agent { agent.new ≡ agent.old }
    ensures keeps { KeepRow seats.old.items seats.new.items }
    ensures reads { HasReadEach seats.old.items seats.new.items }
    ensures counted { result ≡ statistics_of (occurred_in (noted_by seats.new.items)) }
{
    statistics_laws();
    let mut total = Statistics::new();
    for i in 0..locks.len() {
        total = total.together(&read_at(rt, &locks[i], agent, &mut seats[i]));
    }
    total
}

/// Takes the stripe, reads its statistics, and gives it back.
fn read_at<R: Wait>(rt: &R, lock: &HistLock, agent: &mut Agent, seat: &mut Seat) -> Statistics
    requires { (agent.old.hands.held ≡ 0) × IsSessionSeat lock.now agent.old.caller.session seat.old }
    ensures agent { agent.new ≡ agent.old }
    ensures lock { seat.new.0 ≡ seat.old.0 }
    ensures reads { HasRead seat.old.1 seat.new.1 }
    ensures counted { result ≡ statistics_of (all_occurrences seat.new.1.noted) }
{
    let mut gate = lock;
    let stripe = agent.take(rt, &mut gate, seat);
    let statistics = stripe.statistics();
    agent.give_back(&mut gate, seat, stripe);
    statistics
}
