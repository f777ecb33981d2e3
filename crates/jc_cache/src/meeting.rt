//! Two sessions meet: one tells the other what it has seen.
ghost use Rattle.std.specs.Prelude.{ℕ, ◌≡◌};
ghost use Rattle.jc_cache.specs.Meeting.{TellsAt, TellEach, HaveMet, IsSessionSeat, AreSessionSeats, KeepRow};
ghost use Rattle.jc_cache.specs.Sessions.{MayCall};

use crate::cache::Cache;
use jc_lock::{HistLock, Seat};
use jc_session::{Agent, Session};
use std::sync::Wait;

impl Cache {
    /// Makes two sessions meet: afterwards the hearer knows all that the teller knows of the cache. At each stripe in order, the
    /// teller's front is brought up to date, and is a prefix of the hearer's from then on. Use it to hand work on: the hearer's
    /// next calls are ordered after everything that the teller has seen.
    ///
    /// It may wait for a stripe while a phase is made there. It appends nothing to a history and takes no memory: the own steps of
    /// both sessions, their counts and their numbers stay.
    ///
    /// Conditions: both sessions may call the cache.
    pub fn meet<R: Wait>(&self, rt: &R, teller: &mut Session, hearer: &mut Session)
        requires teller { MayCall self.now teller.old }
        requires hearer { MayCall self.now hearer.old }
        ensures { HaveMet self.now teller.old hearer.old teller.new hearer.new }
    {
        let agent = &mut teller.agent;
        tell_each(rt, &self.locks, agent, &mut teller.seats, &mut hearer.seats);
    }
}

/// Brings the seat of the first row at each of these locks up to date, and tells the seat of the second row what it has seen.
fn tell_each<R: Wait>(
    rt: &R,
    locks: &[HistLock],
    agent: &mut Agent,
    tellers: &mut Vec<Seat>,
    hearers: &mut Vec<Seat>,
)
    requires tellers { (agent.old.hands.held ≡ 0) × AreSessionSeats locks.now agent.old.caller.session tellers.old.items }
    requires hearers { (session : ℕ) × AreSessionSeats locks.now session hearers.old.items }
    ensures agent { agent.new ≡ agent.old }
    ensures tellers { KeepRow tellers.old.items tellers.new.items }
    ensures hearers { KeepRow hearers.old.items hearers.new.items }
    ensures told { TellEach
        tellers.old.items hearers.old.items tellers.new.items hearers.new.items }
{
    for i in 0..locks.len() {
        tell_at(rt, &locks[i], agent, &mut tellers[i], &mut hearers[i]);
    }
}

/// The teller's seat takes the stripe, gives it back, and tells the hearer's seat what it has seen.
fn tell_at<R: Wait>(
    rt: &R,
    lock: &HistLock,
    agent: &mut Agent,
    teller: &mut Seat,
    hearer: &mut Seat,
)
    requires teller { (agent.old.hands.held ≡ 0) × IsSessionSeat lock.now agent.old.caller.session teller.old }
    requires hearer { (session : ℕ) × IsSessionSeat lock.now session hearer.old }
    ensures agent { agent.new ≡ agent.old }
    ensures locks { (teller.new.0 ≡ teller.old.0) × (hearer.new.0 ≡ hearer.old.0) }
    ensures told { TellsAt teller.old.1 hearer.old.1 teller.new.1 hearer.new.1 }
{
    let mut gate = lock;
    let stripe = agent.take(rt, &mut gate, teller);
    agent.give_back(&mut gate, teller, stripe);
    lock.tell(teller, hearer);
}
