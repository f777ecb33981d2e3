//! A call that never waits.
ghost use Rattle.jc_stripe.specs.State.{State};
ghost use Rattle.jc_engine.specs.Asking.{own_after};
ghost use Rattle.jc_engine.specs.Needs.{BeginsIfClear};
ghost use Rattle.jc_engine.specs.Calls.{IsTried};
ghost use Rattle.jc_engine.specs.Entering.{ended_with};
ghost use Rattle.jc_engine.specs.Doors.{IsReady, MakesPhase};

use crate::access::Access;
use crate::first::{BeginCall, How};
use jc_gate::Gate;
use jc_model::{Op, Reply};
use jc_stripe::Started;
use jc_types::{Key, Refusal};

impl<'a, G: Gate> Access<'a, G> {
    /// Carries out the agent's current call, if it can be done at once, and writes its reply to `reply`. It never waits, never
    /// joins a load and never asks anybody outside.
    ///
    /// It is refused as `Busy` if somebody else holds the stripe, if this session has a call out on the stripe, or if the call
    /// would have to ask the loader, the writer or a processor, or to join a load. Otherwise it is refused as any call is.
    ///
    /// Conditions: the agent holds no stripe; the token has not taken the gate's and speaks for the session; the stripe that a
    /// take finds is live, and the session's own steps there allow the call.
    pub fn try_call(&mut self, key: &Key, op: &Op, reply: &mut Reply) -> Result<(), Refusal>
        requires ready { IsReady G.is_free G.speaks_for self.old }
        requires begins { (a : State) → G.finds self.old.gate.now self.old.token.now a
            → BeginsIfClear self.old.agent.now.caller key.now a }
        ensures { MakesPhase G.is_free G.speaks_for
            self.old (record self.old.agent.now.counts { own = own_after self.old.agent.now.counts.own (ended_with result reply.new) }) self.new
            (IsTried G.takes G.gives G.finds G.misses self.old.agent.now.caller key.now op.now
            self.old.gate.now self.old.token.now (ended_with result reply.new) self.new.gate.now self.new.token.now) }
    {
        let first = BeginCall::of(self.agent, key, op, How::Alone);
        match self.try_lend(first, reply) {
            Ok(started) => match started {
                Started::Done(_step) => Ok(()),
                Started::Refused(refusal) => Err(refusal),
                Started::Asks(_ticket) => unreachable!(),
                Started::Joined(_join) => unreachable!(),
            },
            Err(_first) => Err(Refusal::Busy),
        }
    }
}
