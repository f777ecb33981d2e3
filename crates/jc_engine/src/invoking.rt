//! A whole call that runs a processor.
ghost use Rattle.std.specs.Prelude.{◌≡◌, true, false, IsSome};
ghost use Rattle.jc_stripe.specs.State.{State};
ghost use Rattle.jc_stripe.specs.Tickets.{asks_processor, claim_of};
ghost use Rattle.jc_engine.specs.Asking.{IsProcessed, WritesEffect};
ghost use Rattle.jc_engine.specs.Calls.{IsInvocation, MayCallAt};
ghost use Rattle.jc_engine.specs.Entering.{ended_with};
ghost use Rattle.jc_engine.specs.Doors.{IsReady, MakesCall};

use crate::access::Access;
use crate::ending::{Commit, Processed};
use crate::first::{BeginCall, How};
use crate::laws::one_lending;
use jc_gate::Gate;
use jc_model::{Op, Reply};
use jc_mutentry::EntryProcessor;
use jc_session::Agent;
use jc_stripe::{Ask, ProcDone, Started, Ticket, WriteDone};
use jc_types::{Key, Refusal, Value};
use std::sync::Wait;

/// What a call runs on its key: an entry processor, with its arguments.
#[derive(Drop)]
pub struct Invocation<'a> {
    /// The processor.
    pub processor: &'a mut Box<dyn EntryProcessor + Send + Drop>,
    /// Its arguments.
    pub args: &'a [Value],
}

impl<'a, G: Gate> Access<'a, G> {
    /// Carries out the agent's current call, which runs a processor: its first phase, then the processor and, if its net effect
    /// is to be written, the writer, then its last phase. No stripe is held while the processor and the writer are called. The
    /// call's reply is written to `reply`.
    ///
    /// It waits as [`call`](Access::call) does, but joins no load.
    ///
    /// Conditions: those of [`call`](Access::call), except for the operation; and `write_through` is what the stripe has.
    pub fn invoke<R: Wait>(
        &mut self,
        rt: &R,
        key: &Key,
        write_through: bool,
        invocation: &mut Invocation<'_>,
        reply: &mut Reply,
    ) -> Result<(), Refusal>
        requires ready { IsReady G.is_free G.speaks_for self.old }
        requires may { MayCallAt G.finds key.now self.old }
        requires through { (a : State) → G.finds self.old.gate.now self.old.token.now a
            → a.config.write_through ≡ write_through }
        ensures same { invocation.new.processor.ghost_name ≡ invocation.old.processor.ghost_name }
        ensures call { MakesCall G.is_free G.speaks_for self.old self.new
            (IsInvocation loads load_state writes write_state processes process_state
            G.takes G.gives G.finds
            self.old.agent.now key.now invocation.old.args.now invocation.old.processor.now self.old.gate.now self.old.token.now
            (ended_with result reply.new)
            self.new.agent.now invocation.new.processor.now self.new.gate.now self.new.token.now) }
    {
        one_lending();
        let first = BeginCall::of(self.agent, key, &Op::Invoke, How::Waits);
        match self.lend(rt, first, reply) {
            Started::Refused(refusal) => Err(refusal),
            Started::Asks(ticket) => {
                let mut ticket = ticket;
                let answer = run(rt, self.agent, write_through, &mut ticket, invocation);
                self.lend(rt, Commit { ticket, answer }, reply);
                Ok(())
            }
            Started::Done(_step) => unreachable!(),
            Started::Joined(_join) => unreachable!(),
        }
    }
}

/// Runs the processor, and calls the writer if the net effect is to be written. The call may then be committed. The agent holds
/// no stripe meanwhile.
fn run<R: Wait>(
    rt: &R,
    agent: &mut Agent,
    write_through: bool,
    ticket: &mut Ticket,
    invocation: &mut Invocation<'_>,
) -> Processed
    requires held { agent.old.hands.held ≡ 0 }
    requires unasked { (ticket.old.asked ≡ false) × (ticket.old.writer_asked ≡ false)
        × (asks_processor ticket.old.reservation.first ≡ true) }
    requires writer { write_through ≡ true → IsSome agent.old.hands.outside.writer }
    ensures same { invocation.new.processor.ghost_name ≡ invocation.old.processor.ghost_name }
    ensures run { IsProcessed loads load_state writes write_state processes process_state
        write_through agent.old ticket.old invocation.old.args.now invocation.old.processor.now
        result.done result.report agent.new ticket.new invocation.new.processor.now }
{
    let done = agent.run_processor(rt, ticket.ask(), invocation.processor, invocation.args);
    let report = write_effect(rt, agent, write_through, ticket, &done);
    Processed { done, report }
}

/// Calls the writer for a processor's net effect: once, if write-through is on and there is a change. The agent holds no stripe
/// meanwhile.
fn write_effect<R: Wait>(
    rt: &R,
    agent: &mut Agent,
    write_through: bool,
    ticket: &mut Ticket,
    done: &ProcDone<Ask>,
) -> Option<WriteDone<Ask>>
    requires held { agent.old.hands.held ≡ 0 }
    requires writer { write_through ≡ true → IsSome agent.old.hands.outside.writer }
    requires asked { (ticket.old.asked ≡ true) × (ticket.old.writer_asked ≡ false) }
    requires claim { done.now.ask ≡ claim_of ticket.old.reservation }
    ensures { WritesEffect writes write_state
        write_through agent.old ticket.old done.now result agent.new ticket.new }
{
    if !write_through {
        return None;
    }
    match done.change() {
        Some(_change) => Some(agent.ask_writer(rt, ticket.ask_writer(done))),
        None => None,
    }
}
