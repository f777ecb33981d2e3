//! The calls outside of one round: a processor for each key that it has reserved, and then the writer.
ghost use Rattle.std.specs.Prelude.{◌≡◌, vec_capacity};
ghost use Rattle.jc_cache.specs.Sessions.{HasAsked, HoldsNothing};
ghost use Rattle.jc_rounds.specs.Answers.{done_room};
ghost use Rattle.jc_rounds.specs.AskingRounds.{KeepsTickets};
ghost use Rattle.jc_invoke.specs.RoundRooms.{LeavesBatches};
ghost use Rattle.jc_invoke.specs.Runs.{run_behavior};
ghost use Rattle.jc_invoke.specs.Processing.{HasNoted, HasRunEach, IsRoundAsked, IsTicketRun, IsToBeRun, KeepsProcessing, KeepsRunsRoom, MayNote, MayRunEach, TakesKey};

use crate::room::{Batches, RoundRoom};
use jc_cache::Session;
use jc_model::Change;
use jc_mutentry::EntryProcessor;
use jc_rounds::{RoundAnswers, change_after};
use jc_stripe::{Ask, ProcDone, Ticket};
use jc_types::Value;
use std::alloc::Global;
use std::sync::Wait;

/// The processor that a call runs at each key, and the allocator of its rounds.
#[derive(Drop)]
pub(crate) struct Processing<'a> {
    /// The allocator.
    pub(crate) alloc: Global,
    /// The processor.
    pub(crate) processor: &'a mut Box<dyn EntryProcessor + Send + Drop>,
    /// Its arguments.
    pub(crate) args: &'a [Value],
}

impl RoundRoom {
    /// Runs the processor once for each of these tickets, in their order, each run from the state that the one before has left.
    /// Then the writer is called, at most twice: for the writes, and for the deletes, also if the first call failed. What it
    /// returns is dropped, since the answers have each key that it leaves in a collection. In a cache that doesn't write through,
    /// the batches come back as they were, for a later round.
    ///
    /// It may wait, as long as the processor, the loader and the writer do. It takes no memory.
    ///
    /// Conditions: the session is of the cache; nobody was asked for any of these tickets, and their keys differ; there is room
    /// for all of them.
    pub(crate) fn ask<R: Wait>(
        self,
        rt: &R,
        session: &mut Session,
        tickets: &mut Vec<Ticket>,
        processing: &mut Processing<'_>,
    ) -> (RoundAnswers, Option<Batches>)
        requires may { MayRunEach session.old tickets.old self }
        ensures asked { HasAsked session.old session.new
            (IsRoundAsked (run_behavior loads load_state writes_all deletes_all write_state processes process_state)
            processing.old.args.now self.through session.old.agent tickets.old.items processing.old.processor.now
            session.new.agent result.0 processing.new.processor.now) }
        ensures left { LeavesBatches self result.1 × (done_room result.0 ≡ vec_capacity self.runs) }
        ensures same { KeepsTickets tickets.old tickets.new × KeepsProcessing processing.old processing.new }
    {
        let mut room = self;
        room.run_each(rt, session, tickets, processing);
        let RoundRoom {
            through,
            runs,
            writes,
            deletes,
        } = room;
        let mut done = runs;
        done.reverse();
        if through {
            let (written, _returned) = writes.ask(rt, session);
            let (deleted, _also_returned) = deletes.ask(rt, session);
            (RoundAnswers::Processes(done, written, deleted), None)
        } else {
            let written = Vec::new(processing.alloc);
            let deleted = Vec::new(processing.alloc);
            let rest = Batches { writes, deletes };
            (RoundAnswers::Processes(done, written, deleted), Some(rest))
        }
    }

    /// Runs the processor once for each of these tickets, and notes the changes for the writer.
    fn run_each<R: Wait>(
        &mut self,
        rt: &R,
        session: &mut Session,
        tickets: &mut Vec<Ticket>,
        processing: &mut Processing<'_>,
    )
        requires may { MayRunEach session.old tickets.old self.old }
        ensures run { HasAsked session.old session.new
            (HasRunEach (run_behavior loads load_state writes_all deletes_all write_state processes process_state)
            processing.old.args.now self.old.through session.old.agent tickets.old.items processing.old.processor.now
            session.new.agent self.new processing.new.processor.now) }
        ensures room { KeepsRunsRoom self.old self.new }
        ensures same { KeepsTickets tickets.old tickets.new × KeepsProcessing processing.old processing.new }
    {
        for place in 0..tickets.len() {
            self.run_one(rt, session, &mut tickets[place], processing);
        }
    }

    /// Runs the processor for one ticket, and notes the change for the writer, if there is one.
    fn run_one<R: Wait>(
        &mut self,
        rt: &R,
        session: &mut Session,
        ticket: &mut Ticket,
        processing: &mut Processing<'_>,
    )
        requires may { HoldsNothing session.old × IsToBeRun ticket.old × TakesKey self.old ticket.old.reservation.key }
        ensures run { HasAsked session.old session.new
            (IsTicketRun (run_behavior loads load_state writes_all deletes_all write_state processes process_state)
            processing.old.args.now session.old.agent ticket.old self.old processing.old.processor.now
            session.new.agent ticket.new self.new processing.new.processor.now) }
        ensures same { KeepsRunsRoom self.old self.new × KeepsProcessing processing.old processing.new }
    {
        let done = session
            .agent
            .run_processor(rt, ticket.ask(), processing.processor, processing.args);
        self.note(ticket, &done);
        self.runs.push_reserved(done);
    }

    /// Notes the change for the writer after a processor's run: with write-through on its net effect, if there is one.
    fn note(&mut self, ticket: &mut Ticket, done: &ProcDone<Ask>)
        requires may { MayNote self.old ticket.old done.now }
        ensures noted { HasNoted (record { reservation = ticket.old.reservation; load = done.now.load; process = done.now.process })
            self.old self.new }
        ensures same { (self.new.runs ≡ self.old.runs) × KeepsRunsRoom self.old self.new
            × (ticket.new.reservation ≡ ticket.old.reservation) }
    {
        match change_after(self.through, done) {
            None => {}
            Some(Change::Write(_)) => self.writes.push(ticket.ask_writer(done)),
            Some(Change::Delete) => self.deletes.push(ticket.ask_writer(done)),
        }
    }
}
