//! Invalidations: somebody else has written keys in the store, and the cache is to forget what it has of them.
//!
//! They are evictions of a cause of their own, and no steps: they take no call number, and the session's own steps stay. Statistics
//! don't count them.
ghost use Rattle.std.specs.Prelude.{◌≡◌};
ghost use Rattle.jc_stripe.specs.State.{State};
ghost use Rattle.jc_session.specs.Counting.{counts_after};
ghost use Rattle.jc_engine.specs.Doors.{waiting};
ghost use Rattle.jc_cache.specs.Forgetting.{HasInvalidated, HasInvalidatedAll, HasForgotten, HasForgottenAll, HasForgottenEach, HasSwept};
ghost use Rattle.jc_cache.specs.Meeting.{AreSessionSeats, IsSessionSeat, KeepRow};
ghost use Rattle.jc_cache.specs.PhaseCalls.{SeatPhase};
ghost use Rattle.jc_cache.specs.Sessions.{Completes, MayCall};

use crate::cache::Cache;
use jc_engine::laws::one_lending;
use jc_engine::{Access, Invalidate, InvalidateAll, Phase, Sweep};
use jc_lock::{HistLock, Seat};
use jc_model::Reply;
use jc_session::{Agent, Session};
use jc_stripe::phase_laws::forgets;
use jc_types::Key;
use std::sync::Wait;

impl Cache {
    /// Forgets a key that somebody else has written in the store: no call that begins later is answered from what is cached or
    /// reserved of it now.
    ///
    /// - If a call has reserved the key, as while it is loaded, the key is marked: each call that begins at it waits (`Busy`) until
    ///   that reservation is over. Calls that have joined its load are answered; then its entry is evicted.
    /// - Otherwise its entry is evicted at once, if it has one.
    /// - If the stripe's history is full, and its generation may end, it ends first. If not, the stripe is shut: each call that
    ///   begins there is `Busy`, and those that wait evict all its entries as places become free. In a cache that doesn't live on
    ///   no place becomes free, and calls are refused as `HistoryFull`. What a stripe that is shut hasn't evicted when the cache is
    ///   closed is forgotten then: [`reopen`](crate::CacheOwner::reopen) doesn't open with it.
    ///
    /// It is never refused, asks nobody, takes no memory, and waits for nothing but the stripe, while a phase is made there. It is
    /// no step: it takes no call number, and the session's own steps and its counts stay. The session has then seen the stripe's
    /// whole history.
    ///
    /// Condition: the session may call the cache.
    pub fn invalidate<R: Wait>(&self, rt: &R, session: &mut Session, key: &Key)
        requires { MayCall self.now session.old }
        ensures { Completes self.now session.new (HasInvalidated self.now session.old key.now session.new) }
    {
        let at = self.stripe_of(key);
        let seat = &mut session.seats[at];
        forget_at(rt, &self.locks[at], &mut session.agent, seat, key);
    }

    /// Forgets all keys, as [`invalidate`](Cache::invalidate) forgets one: one stripe after another, each key of a stripe at one
    /// moment. The stripe is shut then, and its entries that aren't reserved are evicted one after another, before calls begin
    /// there again.
    ///
    /// It is never refused, asks nobody, takes no memory, and waits for nothing but the stripes. Use it if it isn't known which
    /// keys were written, as after messages were lost.
    ///
    /// Condition: the session may call the cache.
    pub fn invalidate_all<R: Wait>(&self, rt: &R, session: &mut Session)
        requires { MayCall self.now session.old }
        ensures { Completes self.now session.new (HasInvalidatedAll session.old session.new) }
    {
        forget_each(rt, &self.locks, &mut session.agent, &mut session.seats);
    }
}

/// Forgets all keys of the stripe at each of these locks.
fn forget_each<R: Wait>(rt: &R, locks: &[HistLock], agent: &mut Agent, seats: &mut Vec<Seat>)
    requires { (agent.old.hands.held ≡ 0) × AreSessionSeats locks.now agent.old.caller.session seats.old.items }
    ensures agent { agent.new ≡ agent.old }
    ensures keeps { KeepRow seats.old.items seats.new.items }
    ensures forgets { HasForgottenEach seats.old.items seats.new.items }
{
    for i in 0..locks.len() {
        forget_all_at(rt, &locks[i], agent, &mut seats[i]);
    }
}

/// Forgets all keys of a stripe, and sweeps it.
fn forget_all_at<R: Wait>(rt: &R, lock: &HistLock, agent: &mut Agent, seat: &mut Seat)
    requires { (agent.old.hands.held ≡ 0) × IsSessionSeat lock.now agent.old.caller.session seat.old }
    ensures agent { agent.new ≡ agent.old }
    ensures lock { seat.new.0 ≡ seat.old.0 }
    ensures forgets { HasForgottenAll seat.old.1 seat.new.1 }
{
    forgets();
    one_lending();
    let session = agent.caller().session;
    lend_at(
        rt,
        lock,
        agent,
        seat,
        InvalidateAll { session },
        &mut Reply::Unit,
    );
    sweep_at(rt, lock, agent, seat);
}

/// Sweeps a stripe that is shut, until calls may begin again there, or no place is free and no generation may end.
fn sweep_at<R: Wait>(rt: &R, lock: &HistLock, agent: &mut Agent, seat: &mut Seat)
    requires { (agent.old.hands.held ≡ 0) × IsSessionSeat lock.now agent.old.caller.session seat.old }
    ensures agent { agent.new ≡ agent.old }
    ensures lock { seat.new.0 ≡ seat.old.0 }
    ensures swept { HasSwept seat.old.1 seat.new.1 }
{
    one_lending();
    let session = agent.caller().session;
    for _ in rt.forever() {
        if !lend_at(rt, lock, agent, seat, Sweep { session }, &mut Reply::Unit) {
            return;
        }
    }
    unreachable!()
}

/// Forgets a key of the stripe at this lock.
fn forget_at<R: Wait>(rt: &R, lock: &HistLock, agent: &mut Agent, seat: &mut Seat, key: &Key)
    requires { (agent.old.hands.held ≡ 0) × IsSessionSeat lock.now agent.old.caller.session seat.old }
    ensures agent { agent.new ≡ agent.old }
    ensures lock { seat.new.0 ≡ seat.old.0 }
    ensures forgets { HasForgotten key.now seat.old.1 seat.new.1 }
{
    forgets();
    one_lending();
    let session = agent.caller().session;
    lend_at(
        rt,
        lock,
        agent,
        seat,
        Invalidate { session, key },
        &mut Reply::Unit,
    );
}

/// Makes a phase on the stripe at this lock.
fn lend_at<P: Phase, R: Wait>(
    rt: &R,
    lock: &HistLock,
    agent: &mut Agent,
    seat: &mut Seat,
    phase: P,
    reply: &mut Reply,
) -> P::Answer
    requires seat { (agent.old.hands.held ≡ 0) × IsSessionSeat lock.now agent.old.caller.session seat.old }
    requires who { P.who phase ≡ agent.old.caller.session }
    requires needs { (a : State) → P.needs phase a }
    ensures agent { agent.new
        ≡ record agent.old { counts = counts_after agent.old.counts (P.counts result) } }
    ensures lock { seat.new.0 ≡ seat.old.0 }
    ensures phase { SeatPhase agent.old.caller.session seat.old.1
        (waiting (P.due phase) (P.puts_off phase) (λ a b. P.makes phase a result reply.new b)) seat.new.1 }
{
    one_lending();
    let mut gate = lock;
    let mut access = Access {
        gate: &mut gate,
        token: seat,
        agent,
    };
    access.lend(rt, phase, reply)
}
