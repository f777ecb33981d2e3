//! A call up to the point at which it is done, refused, or needs an outside answer.
ghost use Rattle.std.specs.Prelude.{◌≡◌, ℕ};
ghost use Rattle.std.specs.Bool.{OnTrue, OnFalse};
ghost use Rattle.jc_stripe.specs.Polled.{Answer, Again};
ghost use Rattle.jc_session.specs.Counting.{counts_after};
ghost use Rattle.jc_session.specs.declared.counts.Counted.TheVariants.{Answered, Retried};
ghost use Rattle.jc_engine.specs.Rows.{LentPhase};
ghost use Rattle.jc_engine.specs.Doors.{IsReady, MakesPhase};
ghost use Rattle.jc_engine.specs.Calls.{Enters, MayCallAt};
ghost use Rattle.jc_engine.specs.Entering.{counts_entered};
ghost use Rattle.jc_engine.specs.Turns.{picking};

use crate::access::Access;
use crate::first::{BeginCall, How};
use crate::joining::PickUp;
use crate::laws::one_lending;
use jc_gate::Gate;
use jc_model::{Op, Reply};
use jc_stripe::{Join, Picked, Started, Ticket};
use jc_types::{Key, Refusal};
use std::sync::Wait;

impl<'a, G: Gate> Access<'a, G> {
    /// Carries the agent's current call to the point at which it is done, refused, or needs an outside answer. A ticket says that
    /// the call has reserved its key and needs an outside answer. `None` says that it is done: it has made its step, or has
    /// shared another call's load, and its reply is written to `reply`. An `Err` says that nothing was done.
    ///
    /// It waits out `Busy`, `TooManyInFlight` and `TooManyJoiners`. A call that joins a load waits for the load's answer; if the
    /// load is withdrawn, the call begins again.
    ///
    /// Conditions: the agent holds no stripe, and has no reservation and no join out; the token has not taken the gate's stripe
    /// and speaks for the session; the stripe that a take finds is live, and the session's own steps there allow the call.
    pub(crate) fn enter<R: Wait>(
        &mut self,
        rt: &R,
        key: &Key,
        op: &Op,
        reply: &mut Reply,
    ) -> Result<Option<Ticket>, Refusal>
        requires ready { IsReady G.is_free G.speaks_for self.old }
        requires may { MayCallAt G.finds key.now self.old }
        ensures { MakesPhase G.is_free G.speaks_for
            self.old (counts_entered self.old.agent.now.counts result) self.new
            (Enters G.takes G.gives G.finds
            self.old.agent.now.caller key.now op.now self.old.gate.now self.old.token.now result reply.new
            self.new.gate.now self.new.token.now) }
    {
        one_lending();
        for _ in rt.forever() {
            let first = BeginCall::of(self.agent, key, op, How::Waits);
            match self.lend(rt, first, reply) {
                Started::Done(_step) => return Ok(None),
                Started::Refused(refusal) => return Err(refusal),
                Started::Asks(ticket) => return Ok(Some(ticket)),
                Started::Joined(join) => {
                    if self.pick_up(rt, join, reply) {
                        return Ok(None);
                    }
                }
            }
        }
        unreachable!()
    }

    /// Waits for the answer of a load that was joined, and writes it to `reply`. `false` says that the load was withdrawn.
    ///
    /// It is not inlined, so that a call that joins no load doesn't clear memory for a pick-up.
    #[inline(never)]
    fn pick_up<R: Wait>(&mut self, rt: &R, join: Join, reply: &mut Reply) -> bool
        requires ready { IsReady G.is_free G.speaks_for self.old }
        requires who { join.caller.session ≡ self.old.agent.now.caller.session }
        ensures answered { OnTrue result (MakesPhase G.is_free G.speaks_for
            self.old (counts_after self.old.agent.now.counts Answered) self.new
            ((place : ℕ) × (shared_with : ℕ) × LentPhase G.takes G.gives G.finds
            self.old.agent.now.caller.session self.old.gate.now self.old.token.now
            (picking join (Answer reply.new place shared_with)) self.new.gate.now self.new.token.now)) }
        ensures again { OnFalse result (MakesPhase G.is_free G.speaks_for
            self.old (counts_after self.old.agent.now.counts Retried) self.new
            (LentPhase G.takes G.gives G.finds
            self.old.agent.now.caller.session self.old.gate.now self.old.token.now
            (picking join Again) self.new.gate.now self.new.token.now)) }
    {
        let pick_up = PickUp { join, waits: true };
        match self.lend(rt, pick_up, reply) {
            Picked::Answer {
                place: _,
                shared_with: _,
            } => true,
            Picked::Again => false,
            Picked::NotYet(_join) => unreachable!(),
        }
    }
}
