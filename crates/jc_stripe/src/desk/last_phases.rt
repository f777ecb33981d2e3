//! The last phases of calls at a desk. If the named reservation or join isn't out, nothing is done, and the answer says so.
ghost use Rattle.std.specs.Prelude.{◌≡◌, ◌==◌, position, is_some, not, IfSome, IfNone};
ghost use Rattle.std.specs.Bool.{OnTrue, OnFalse};
ghost use Rattle.std.specs.Option.{option_copied};
ghost use Rattle.jc_model.specs.Group.{load_only, write_only};
ghost use Rattle.jc_mutentry.specs.Done.{effect_change};
ghost use Rattle.jc_stripe.specs.Tickets.{asks_loader, asks_writer};
ghost use Rattle.jc_stripe.specs.DeskPhases.{CommitsAtDesk, WithdrawsAtDesk, PicksUpAtDesk, is_pick_up_misuse, is_join_out, ticket_of, takes_load, takes_write, takes_process, asks_first, AnswersTicket, fits_processor, wants_writer};

use super::Desk;
use super::answers::{CommitDone, PickUpAnswer};
use super::moves::ValueMoves;
use crate::begun::Picked;
use crate::ticket::{First, Join, Reservation};
use jc_model::{Effect, LoadAnswer, Out, ProcessAnswer, Reply, WriteAnswer};
use jc_types::{Caller, Config, Key};

/// The place of the reservation with this number.
fn place_of(tickets: &[Box<Reservation>], number: u64) -> Option<usize>
    ensures { result ≡ position (λ b. b.value.number == number) tickets.now }
{
    tickets.iter().position(|ticket| ticket.number == number)
}

/// Whether there is a reservation, and it asks the loader first.
fn asks_loader(ticket: Option<&Reservation>) -> bool
    ensures { result ≡ asks_first asks_loader (option_copied ticket.entry) }
{
    match ticket {
        Some(ticket) => matches!(ticket.first, First::Loader),
        None => false,
    }
}

/// Whether there is a reservation, and it asks the writer first.
fn asks_writer(ticket: Option<&Reservation>) -> bool
    ensures { result ≡ asks_first asks_writer (option_copied ticket.entry) }
{
    match ticket {
        Some(ticket) => matches!(ticket.first, First::Writer(_)),
        None => false,
    }
}

/// Whether there is a reservation that asks a processor first, and these answers fit it.
fn fits_ticket(ticket: Option<&Reservation>, load: &LoadAnswer, process: &ProcessAnswer) -> bool
    ensures { result ≡ asks_first (fits_processor load.now process.now) (option_copied ticket.entry) }
{
    match ticket {
        Some(ticket) => fits_processor(&ticket.first, load, process),
        None => false,
    }
}

/// Whether a processor is asked, it ran, and its loader answered only if it may be asked.
fn fits_processor(first: &First, load: &LoadAnswer, process: &ProcessAnswer) -> bool
    ensures { result ≡ fits_processor load.now process.now first.now }
{
    match first {
        First::Processor { entry: _, may_load } => {
            process.is_given() && (*may_load || !load.is_given())
        }
        First::Nobody | First::Loader | First::Writer(_) => false,
    }
}

/// Whether the writer is to be asked after a processor.
fn wants_writer(config: &Config, load: &LoadAnswer, process: &ProcessAnswer) -> bool
    ensures { result ≡ wants_writer config.now load.now process.now }
{
    config.write_through && has_change(load, process)
}

/// Whether there is a change to ask the writer for after a processor.
fn has_change(load: &LoadAnswer, process: &ProcessAnswer) -> bool
    ensures { result ≡ is_some (effect_change load.now process.now) }
{
    if matches!(load, LoadAnswer::Failed(_)) {
        return false;
    }
    match process {
        ProcessAnswer::Ended { effect, outcome: _ } => !matches!(effect, Effect::Keep),
        ProcessAnswer::NotAsked | ProcessAnswer::Failed(_) => false,
    }
}

impl Desk {
    /// The last phase of a call whose loader was asked. Its reply is written to `reply`, and the values that came and went to
    /// `moves`. `None` says that no such ticket is out, or that it asks somebody else; then nothing was done.
    pub fn commit_load(
        &mut self,
        number: u64,
        answer: LoadAnswer,
        reply: &mut Reply,
        moves: &mut ValueMoves,
    ) -> Option<CommitDone>
        ensures taken { is_some result ≡ takes_load self.old.stripe number answer }
        ensures some { IfSome result (λ said. CommitsAtDesk self.old number (load_only answer) reply.new moves.new said self.new) }
        ensures none { IfNone result (self.new ≡ self.old) }
    {
        if !self.takes_load(number, &answer) {
            return None;
        }
        Some(self.commit(number, &Out::load_only(answer), reply, moves))
    }

    /// The last phase of a call whose writer was asked. Its reply is written to `reply`, and the values that came and went to
    /// `moves`. `None` says that no such ticket is out, or that it asks somebody else; then nothing was done.
    pub fn commit_write(
        &mut self,
        number: u64,
        answer: WriteAnswer,
        reply: &mut Reply,
        moves: &mut ValueMoves,
    ) -> Option<CommitDone>
        ensures taken { is_some result ≡ takes_write self.old.stripe number answer }
        ensures some { IfSome result (λ said. CommitsAtDesk self.old number (write_only answer) reply.new moves.new said self.new) }
        ensures none { IfNone result (self.new ≡ self.old) }
    {
        if !self.takes_write(number, &answer) {
            return None;
        }
        Some(self.commit(number, &Out::write_only(answer), reply, moves))
    }

    /// The last phase of a call whose processor ran, with the answers of its loader, if it was asked, of the processor, and of
    /// the writer. Its reply is written to `reply`, and the values that came and went to `moves`.
    ///
    /// The writer is to be asked exactly if write-through is on, the processor has a change, and neither loader nor processor
    /// failed. `None` says that no such ticket is out, that it asks somebody else, or that these aren't the ones to be asked;
    /// then nothing was done.
    pub fn commit_process(
        &mut self,
        number: u64,
        load: LoadAnswer,
        process: ProcessAnswer,
        write: WriteAnswer,
        reply: &mut Reply,
        moves: &mut ValueMoves,
    ) -> Option<CommitDone>
        ensures taken { is_some result ≡ takes_process self.old.stripe number (record { load = load; write = write; process = process }) }
        ensures some { IfSome result (λ said. CommitsAtDesk self.old number (record { load = load; write = write; process = process }) reply.new moves.new said self.new) }
        ensures none { IfNone result (self.new ≡ self.old) }
    {
        let out = Out {
            load,
            write,
            process,
        };
        if !self.takes_process(number, &out) {
            return None;
        }
        Some(self.commit(number, &out, reply, moves))
    }

    /// The reservation with this number that is out.
    fn ticket(&self, number: u64) -> Option<&Reservation>
        ensures { option_copied result ≡ ticket_of self.now.stripe number }
    {
        match place_of(&self.tickets, number) {
            Some(place) => Some(&self.tickets[place]),
            None => None,
        }
    }

    /// Whether a reservation with this number is out that asks the loader, and the loader answered.
    fn takes_load(&self, number: u64, answer: &LoadAnswer) -> bool
        ensures { result ≡ takes_load self.now.stripe number answer.now }
    {
        let asks = asks_loader(self.ticket(number));
        answer.is_given() && asks
    }

    /// Whether a reservation with this number is out that asks the writer, and the writer answered.
    fn takes_write(&self, number: u64, answer: &WriteAnswer) -> bool
        ensures { result ≡ takes_write self.now.stripe number answer.now }
    {
        let asks = asks_writer(self.ticket(number));
        answer.is_given() && asks
    }

    /// Whether a reservation with this number is out that asks a processor, these answers fit it, and the writer answered exactly if it
    /// was to be asked.
    fn takes_process(&self, number: u64, out: &Out) -> bool
        ensures { result ≡ takes_process self.now.stripe number out.now }
    {
        let fits = fits_ticket(self.ticket(number), &out.load, &out.process);
        let wants = wants_writer(self.stripe.config(), &out.load, &out.process);
        fits && wants == out.write.is_given()
    }

    /// The last phase of the reservation with this number, with these answers.
    #[inline(always)]
    fn commit(
        &mut self,
        number: u64,
        out: &Out,
        reply: &mut Reply,
        moves: &mut ValueMoves,
    ) -> CommitDone
        requires { AnswersTicket self.old.stripe number out.now }
        ensures { CommitsAtDesk self.old number out.now reply.new moves.new result self.new }
    {
        let Some(place) = place_of(&self.tickets, number) else {
            unreachable!();
        };
        let _ = self.stripe.events_len();
        let ticket = self.tickets.remove(place);
        let shared = self.stripe.waiting(number);
        let step = moves.note_commit(&mut self.stripe, ticket, out, reply);
        CommitDone {
            place: step.place,
            shared,
        }
    }

    /// Gives back a reservation whose loader, writer or processor was not asked. If its key was invalidated meanwhile, its entry is
    /// evicted, and the value written to `moves`. A `false` says that no such ticket is out; then nothing was done.
    pub fn withdraw(&mut self, number: u64, moves: &mut ValueMoves) -> bool
        ensures out { result ≡ is_some (ticket_of self.old.stripe number) }
        ensures done { OnTrue result (WithdrawsAtDesk self.old number moves.new self.new) }
        ensures none { OnFalse result ((self.new ≡ self.old) × (moves.new ≡ moves.old)) }
    {
        let Some(place) = place_of(&self.tickets, number) else {
            return false;
        };
        let _ = self.stripe.events_len();
        let ticket = self.tickets.remove(place);
        moves.note_withdrawal(&mut self.stripe, ticket);
        true
    }

    /// Picks up the answer of a load that was joined, and writes it.
    pub fn pick_up(
        &mut self,
        caller: Caller,
        key: &Key,
        load: u64,
        told: &mut Reply,
    ) -> PickUpAnswer
        ensures misuse { is_pick_up_misuse result ≡ not (is_join_out self.old.stripe (record { caller = caller; key = key.now; load = load })) }
        ensures picks_up { PicksUpAtDesk self.old (record { caller = caller; key = key.now; load = load }) told.new result self.new }
    {
        let join = Join::new(caller, key, load);
        if !self.stripe.holds_join(&join) {
            join.spend();
            return PickUpAnswer::Misuse;
        }
        let _ = self.stripe.events_len();
        match self.stripe.pick_up(join, told) {
            Picked::Answer { place, shared_with } => PickUpAnswer::Answer { place, shared_with },
            Picked::Again => PickUpAnswer::Again,
            Picked::NotYet(back) => {
                back.spend();
                PickUpAnswer::NotYet
            }
        }
    }
}
