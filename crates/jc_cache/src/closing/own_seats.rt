//! The cache's own seats take all stripes, and learn what the sessions have seen.
//!
//! They are passed as a `&mut Vec<Seat>`, because a seat takes no bytes, and a pointer to an element of no size in a slice gets no
//! proof.
ghost use Rattle.std.specs.Prelude.{ℕ, ◌≡◌, ◌≤◌, ◌+◌, ◌++◌, [], IfOk, IfErr, OnOk, All, length, map, slice_get, vec_len, vec_capacity};
ghost use Rattle.atomic_table.specs.Seated.{TableId};
ghost use Rattle.jc_stripe.specs.State.{IsIdle};
ghost use Rattle.jc_lock.specs.declared.view.View.{View};
ghost use Rattle.jc_cache.specs.Caches.{log_of, logs_of};
ghost use Rattle.jc_cache.specs.Closing.{AreIdle, HasFront, HasLookedOnce, all_lent, lent_at};
ghost use Rattle.jc_cache.specs.ClosingInside.{AreAtLocks, HasTaken, HaveTaken, IsFreeSeat, IsRowRefusal, IsTakeRefusal, KeepSeats, KeepsSeat, KeepsOwn, LeavesUnchanged, OwnsSeats, Whatever};

use crate::closing::ClosedStripe;
use jc_lock::{HistLock, Seat};
use jc_outside::Outside;
use jc_session::Session;
use jc_types::Refusal;

/// Tests that nothing is out at the stripe and nobody else holds it, and gives it back as it was.
fn test_idle(lock: &HistLock, seat: &mut Seat) -> Result<(), Refusal>
    requires { (seat.old.0 ≡ lock.now) × IsFreeSeat seat.old.1 }
    ensures keeps { KeepsSeat LeavesUnchanged seat.old seat.new }
    ensures free { IsFreeSeat seat.new.1 }
    ensures ok { OnOk result (HasLookedOnce (log_of seat.old.1) (log_of seat.new.1) seat.new.1.noted
        × IsIdle seat.new.1.noted) }
    ensures err { IfErr result (λ r. IsTakeRefusal r seat.old.1 seat.new.1) }
{
    let Some(stripe) = lock.try_take(seat) else {
        return Err(Refusal::Busy);
    };
    let is_idle = stripe.is_idle();
    lock.give(seat, stripe);
    if !is_idle {
        return Err(Refusal::StillReserved);
    }
    Ok(())
}

/// Tests that nothing is out at any stripe and nobody else holds one, and gives all back as they were.
pub(super) fn test_all_idle(locks: &[HistLock], own: &mut Vec<Seat>) -> Result<(), Refusal>
    requires { OwnsSeats locks.now own.old.items [] }
    ensures own { KeepsOwn LeavesUnchanged own.old.items own.new.items [] }
    ensures ok { OnOk result (AreIdle (logs_of own.old.items) (logs_of own.new.items)) }
    ensures err { IfErr result (λ r. IsRowRefusal r own.old.items own.new.items) }
{
    for i in 0..locks.len() {
        test_idle(&locks[i], &mut own[i])?;
    }
    Ok(())
}

/// Takes the stripe, if nothing is out there and nobody else holds it.
fn take_idle(lock: &HistLock, seat: &mut Seat) -> Result<ClosedStripe, Refusal>
    requires { (seat.old.0 ≡ lock.now) × IsFreeSeat seat.old.1 }
    ensures keeps { KeepsSeat LeavesUnchanged seat.old seat.new }
    ensures ok { IfOk result (λ s. HasTaken seat.new.1 s × (log_of seat.new.1 ≡ log_of seat.old.1)) }
    ensures err { IfErr result (λ r. IsFreeSeat seat.new.1 × IsTakeRefusal r seat.old.1 seat.new.1) }
{
    let Some(stripe) = lock.try_take(seat) else {
        return Err(Refusal::Busy);
    };
    if !stripe.is_idle() {
        lock.give(seat, stripe);
        return Err(Refusal::StillReserved);
    }
    Ok(ClosedStripe { stripe })
}

/// Takes all stripes into a list that has room for them. If something is out at one, or somebody else holds one, none is taken.
pub(super) fn take_all(
    locks: &[HistLock],
    own: &mut Vec<Seat>,
    stripes: Vec<ClosedStripe>,
) -> Result<Vec<ClosedStripe>, Refusal>
    requires own { OwnsSeats locks.now own.old.items [] }
    requires empty { stripes.items ≡ [] }
    requires room { length locks.now ≤ vec_capacity stripes }
    ensures keeps { KeepSeats LeavesUnchanged own.old.items own.new.items }
    ensures ok { IfOk result (λ s. HaveTaken own.new.items s.items
        × (length s.items ≡ length own.new.items)
        × (logs_of own.new.items ≡ logs_of own.old.items)) }
    ensures err { IfErr result (λ r. HaveTaken own.new.items [] × IsRowRefusal r own.old.items own.new.items) }
{
    let mut stripes = stripes;
    for i in 0..locks.len() {
        match take_idle(&locks[i], &mut own[i]) {
            Ok(stripe) => stripes.push_reserved(stripe),
            Err(refusal) => {
                give_all(locks, own, stripes);
                return Err(refusal);
            }
        }
    }
    Ok(stripes)
}

/// Gives these stripes back to their locks.
fn give_all(locks: &[HistLock], own: &mut Vec<Seat>, stripes: Vec<ClosedStripe>)
    requires { OwnsSeats locks.now own.old.items stripes.items }
    ensures own { KeepsOwn LeavesUnchanged own.old.items own.new.items [] }
    ensures rest { (i : ℕ) → length stripes.items ≤ i → slice_get own.new.items i ≡ slice_get own.old.items i }
{
    let mut stripes = stripes;
    while let Some(closed) = stripes.pop() {
        let i = stripes.len();
        let ClosedStripe { stripe } = closed;
        locks[i].give(&mut own[i], stripe);
    }
}

/// Ends these seats of a session. The cache's own seats, which have taken the stripes, learn what these have seen.
fn join_seats(locks: &[HistLock], own: &mut Vec<Seat>, stripes: &[ClosedStripe], seats: Vec<Seat>)
    requires own { OwnsSeats locks.now own.old.items stripes.now }
    requires count { length stripes.now ≡ length locks.now }
    requires seats { AreAtLocks locks.now seats.items }
    ensures own { KeepsOwn Whatever own.old.items own.new.items stripes.now }
    ensures front { HasFront stripes.now seats.items }
    ensures handed { (i : ℕ) → lent_at own.new.items i ≡ lent_at own.old.items i ++ lent_at seats.items i }
{
    let mut seats = seats;
    while let Some(seat) = seats.pop() {
        let i = seats.len();
        locks[i].join(&mut own[i], seat);
    }
}

/// Ends a session, and returns its seats, its loader and its writer.
///
/// Condition: it holds no stripe.
fn parts_of(session: Session) -> (Vec<Seat>, Outside)
    requires { session.agent.hands.held ≡ 0 }
    ensures seats { result.0.items ≡ session.seats.items }
    ensures outside { result.1 ≡ session.agent.hands.outside }
{
    let Session { seats, agent } = session;
    (seats, agent.into_outside())
}

/// Ends these sessions, and puts the loader and the writer of each into the list, in the order of the sessions. The cache's own
/// seats, which have taken the stripes, learn what the sessions have seen.
///
/// Conditions: no session holds a stripe, and there is room for them in the list.
pub(super) fn join_all(
    locks: &[HistLock],
    own: &mut Vec<Seat>,
    stripes: &[ClosedStripe],
    sessions: Vec<Session>,
    outside: &mut Vec<Outside>,
)
    requires own { OwnsSeats locks.now own.old.items stripes.now }
    requires count { length stripes.now ≡ length locks.now }
    requires sessions { All (λ s. AreAtLocks locks.now s.seats.items × (s.agent.hands.held ≡ 0)) sessions.items }
    requires room { vec_len outside.old + length sessions.items ≤ vec_capacity outside.old }
    ensures own { KeepsOwn Whatever own.old.items own.new.items stripes.now }
    ensures fronts { All (λ s. HasFront stripes.now s.seats.items) sessions.items }
    ensures handed { (i : ℕ) → lent_at own.new.items i ≡ lent_at own.old.items i ++ all_lent sessions.items i }
    ensures outside { outside.new.items ≡ outside.old.items ++ map (λ s. s.agent.hands.outside) sessions.items }
{
    for session in sessions {
        let (seats, brought) = parts_of(session);
        join_seats(locks, own, stripes, seats);
        outside.push_reserved(brought);
    }
}
