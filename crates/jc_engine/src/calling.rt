//! A whole call on one key.
ghost use Rattle.std.specs.Prelude.{◌≡◌, ◌||◌, true, false};
ghost use Rattle.jc_model.specs.Table.{is_invoke};
ghost use Rattle.jc_stripe.specs.Tickets.{asks_loader, asks_writer};
ghost use Rattle.jc_engine.specs.Calls.{IsCall, AsksAndEnds, MayCallAt, MayEnd};
ghost use Rattle.jc_engine.specs.Entering.{ended_with};
ghost use Rattle.jc_engine.specs.Doors.{IsReady, MakesCall};

use crate::access::Access;
use crate::ending::Commit;
use crate::laws::one_lending;
use jc_gate::Gate;
use jc_model::{Op, Reply};
use jc_stripe::{First, Ticket};
use jc_types::{Key, Refusal};
use std::sync::Wait;

impl<'a, G: Gate> Access<'a, G> {
    /// Carries out the agent's current call: its first phase, then the loader or the writer while no stripe is held, then its
    /// last phase; or it takes the answer of a load that it has joined. The call's reply is written to `reply`.
    ///
    /// It waits while others hold the stripe, for the loader or the writer, for a load that it has joined, and until it may begin
    /// (`Busy`, `TooManyInFlight` and `TooManyJoiners` are waited out). It may wait for ever. Of the refusals that change
    /// nothing, it returns `HistoryFull` alone.
    ///
    /// Conditions: the agent holds no stripe, and has no reservation and no join out; the token has not taken the gate's stripe
    /// and speaks for the session; the stripe that a take finds is live, and the session's own steps there allow the call; if the
    /// stripe has write-through on, the agent has a writer; the operation runs no processor.
    ///
    /// It is not inlined, so that a hit of [`get_into`](Access::get_into) doesn't clear memory for the loader's answer.
    #[inline(never)]
    pub fn call<R: Wait>(
        &mut self,
        rt: &R,
        key: &Key,
        op: &Op,
        reply: &mut Reply,
    ) -> Result<(), Refusal>
        requires ready { IsReady G.is_free G.speaks_for self.old }
        requires may { MayCallAt G.finds key.now self.old }
        requires op { is_invoke op.now ≡ false }
        ensures { MakesCall G.is_free G.speaks_for self.old self.new
            (IsCall loads load_state writes write_state G.takes G.gives G.finds
            self.old.agent.now key.now op.now self.old.gate.now self.old.token.now (ended_with result reply.new)
            self.new.agent.now self.new.gate.now self.new.token.now) }
    {
        one_lending();
        match self.enter(rt, key, op, reply) {
            Ok(Some(ticket)) => {
                self.ask_and_end(rt, ticket, reply);
                Ok(())
            }
            Ok(None) => Ok(()),
            Err(refusal) => Err(refusal),
        }
    }

    /// Asks the loader or the writer, whichever the ticket's reservation asks first, while no stripe is held, and commits the
    /// call. The step's reply is written to `reply`.
    ///
    /// It is not inlined, so that a call that is done at once doesn't clear memory for an outside answer.
    #[inline(never)]
    fn ask_and_end<R: Wait>(&mut self, rt: &R, ticket: Ticket, reply: &mut Reply)
        requires ready { IsReady G.is_free G.speaks_for self.old }
        requires may { MayEnd G.finds ticket self.old }
        requires first { asks_loader ticket.reservation.first || asks_writer ticket.reservation.first ≡ true }
        ensures { MakesCall G.is_free G.speaks_for self.old self.new
            (AsksAndEnds loads load_state writes write_state G.takes G.gives G.finds
            ticket.reservation self.old.agent.now self.old.gate.now self.old.token.now reply.new
            self.new.agent.now self.new.gate.now self.new.token.now) }
    {
        let mut ticket = ticket;
        match ticket.reservation().first {
            First::Loader => {
                let answer = self.agent.ask_loader(rt, ticket.ask());
                self.lend(rt, Commit { ticket, answer }, reply);
            }
            First::Writer(_) => {
                let answer = self.agent.ask_writer(rt, ticket.ask());
                self.lend(rt, Commit { ticket, answer }, reply);
            }
            First::Nobody | First::Processor { .. } => unreachable!(),
        }
    }
}
