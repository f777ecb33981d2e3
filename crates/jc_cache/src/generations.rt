//! The end of a generation by a session, which archives its events.
ghost use Rattle.std.specs.Prelude.{◌≡◌, ◌<◌};
ghost use Rattle.jc_stripe.specs.State.{State};
ghost use Rattle.jc_lock.specs.Views.{Finds, after_give, after_take};
ghost use Rattle.jc_cache.specs.Fronts.{HasSeen};
ghost use Rattle.jc_cache.specs.Generations.{IsEndOf, EndsAt};
ghost use Rattle.jc_cache.specs.Meeting.{IsSessionSeat};
ghost use Rattle.jc_cache.specs.Sessions.{Completes, MayCall};

use crate::cache::Cache;
use jc_lock::{HistLock, Seat};
use jc_model::Event;
use jc_session::{Agent, Session};
use jc_stripe::phase_laws::renewal;
use std::alloc::AllocError;
use std::sync::Wait;

impl Cache {
    /// Ends the present generation of a stripe of a cache that lives on, and appends its events, the oldest first. It returns how
    /// many generations of the stripe had ended before. `None` says that there is nothing to end, and nothing changes: nothing
    /// has happened in the generation, a load's answer is there that nobody has picked up, or the cache doesn't live on.
    ///
    /// Use it to archive the history: a generation is whole and legal, and leaves what the next one opens with. A generation that
    /// was full before has ended without this call, and its events are gone; then the numbers that this call returns have a gap.
    /// So an archive is complete if each stripe is asked for more often than its history is filled.
    ///
    /// It may wait for the stripe while a phase is made there, and holds it while the events are copied. An `Err` says that an
    /// allocation failed, and changes nothing. The session's own steps, its counts and its numbers stay.
    ///
    /// Conditions: the session may call the cache; there is a stripe of this number.
    pub fn end_generation<R: Wait>(
        &self,
        rt: &R,
        session: &mut Session,
        stripe: usize,
        out: &mut Vec<Event>,
    ) -> Result<Option<u64>, AllocError>
        requires may { MayCall self.now session.old }
        requires stripe { stripe < self.now.config.stripes }
        ensures { Completes self.now session.new
            (EndsAt stripe session.old
            (λ found left. IsEndOf result out.old.items out.new.items found left) session.new) }
    {
        let seat = &mut session.seats[stripe];
        end_at(rt, &self.locks[stripe], &mut session.agent, seat, out)
    }
}

/// Takes the stripe, ends its generation if that may end, and gives it back.
fn end_at<R: Wait>(
    rt: &R,
    lock: &HistLock,
    agent: &mut Agent,
    seat: &mut Seat,
    out: &mut Vec<Event>,
) -> Result<Option<u64>, AllocError>
    requires { (agent.old.hands.held ≡ 0) × IsSessionSeat lock.now agent.old.caller.session seat.old }
    ensures agent { agent.new ≡ agent.old }
    ensures lock { seat.new.0 ≡ seat.old.0 }
    ensures ended { (found : State) × (left : State) × Finds seat.old.1 found
        × IsEndOf result out.old.items out.new.items found left
        × (seat.new.1 ≡ after_give (after_take seat.old.1 found) left) × HasSeen seat.old.1 seat.new.1 }
{
    renewal();
    let mut gate = lock;
    let mut stripe = agent.take(rt, &mut gate, seat);
    let ended = stripe.end_generation(out);
    agent.give_back(&mut gate, seat, stripe);
    ended
}
