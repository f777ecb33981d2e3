//! A stripe and its phases.
ghost use Rattle.std.specs.Prelude.{◌≡◌, ◌≤◌, ◌<◌, ◌+◌, ◌++◌, ◌↔◌, ◌⊎◌, true, false, IsTrue, OnOk, OnErr, None};
ghost use Rattle.std.specs.Prelude.{Some, is_some, length, slice_get, slice_range};
ghost use Rattle.std.specs.Bool.{OnTrue, OnFalse};
ghost use Rattle.std.specs.FinMap as map;
ghost use Rattle.jc_model.specs.declared.event.Op.{Op};
ghost use Rattle.jc_model.specs.declared.event.Op.TheVariants.{Get};
ghost use Rattle.jc_stripe.specs.Outcomes.{Done};
ghost use Rattle.jc_model.specs.Cache.{entry_at};
ghost use Rattle.jc_model.specs.Listed.{has_distinct_keys};
ghost use Rattle.jc_model.specs.Table.{is_write_given};
ghost use Rattle.jc_model.specs.Group.{load_only, write_only};
ghost use Rattle.jc_model.specs.Legal.{Legal};
ghost use Rattle.jc_stripe.specs.Tickets.{asks_loader, asks_writer, asks_processor, claim_of};
ghost use Rattle.jc_types.specs.declared.limits.TheConstants.{HIT_PLACES};
ghost use Rattle.jc_stripe.specs.State.{IsOut, IsJoined, IsIdle};
ghost use Rattle.jc_stripe.specs.OrderOfUse.{by_use};
ghost use Rattle.jc_stripe.specs.Refusals.{may_hit};
ghost use Rattle.jc_stripe.specs.Invalidating.{Ends, GivesBack};
ghost use Rattle.jc_stripe.specs.Appending.{AnswersFirst, HasToldStep, after_pick_up};
ghost use Rattle.jc_stripe.specs.Phases.{MayBegin, Begins, begun_with, hit_done, Commits, with_reply, Withdraws, PicksUp, polled_with, told_to};
ghost use Rattle.jc_stripe.specs.Effects.{HasReport, change_due, report_answer, process_out};
ghost use Rattle.jc_stripe.specs.OnePhase.{IsPhaseOf};

pub(crate) mod beginning;
mod conditions;
mod finding;
mod invalidating;
mod living;
mod looking;
mod making;

use crate::appending::{NewGroup, append_group, apply_to_entries};
use crate::begun::{Appended, Picked, Started};
use crate::life::Life;
use crate::marks::Marks;
use crate::stripe_tables::{StripeJoiners, StripeReservations};
use crate::ticket::{Ask, Join, Reservation, Ticket};
use crate::ticket_boxes::TicketBoxes;
use beginning::{appended_alone, is_get};
use jc_entries::Entries;
use jc_history::History;
use jc_inflight::JoinState;
use jc_model::statistics::statistics_laws;
use jc_model::{Event, Op, Out, Reply, WriteAnswer};
use jc_mutentry::ProcDone;
use jc_outside::{LoadDone, Origin, WriteDone};
use jc_types::{Caller, Config, HIT_PLACES, Key, STEP_PLACES, Value};
use std::alloc::AllocError;
use std::marker::Model;

/// The writer's answer, if it was asked. The report is spent.
fn report_answer(report: Option<WriteDone<Ask>>) -> WriteAnswer
    ensures answer { result ≡ report_answer report }
    ensures given { is_write_given result ≡ is_some report }
{
    match report {
        Some(done) => done.into_answer(),
        None => WriteAnswer::NotAsked,
    }
}

/// One stripe of a cache: the entries, the keys that calls have reserved, the calls that have joined a load, and the history.
///
/// Each of its calls is one phase, and allocates only for a new entry: all other memory is allocated by `new`.
#[derive(Drop)]
pub struct Stripe {
    config: Config,
    number: usize,
    origin: Origin,
    entries: Entries,
    reservations: StripeReservations,
    boxes: TicketBoxes,
    joiners: StripeJoiners,
    history: History,
    lives: bool,
    life: Life,
    marks: Marks,
    is_shut: bool,
}

impl Model for Stripe {
    ghost use Rattle.jc_stripe.specs.State.{State};
    ghost use Rattle.std.specs.Coded.{codes};
    ghost use Rattle.jc_model.specs.Cache.{cache_code};

    ghost Value = { State };

    ghost coded = { Prim.hlevel (codes, cache_code) };

    ghost use Rattle.jc_stripe.specs.Inside.{state_of, IsStripe};

    ghost view = { state_of };

    ghost invariant = { IsStripe };
}

impl Stripe {
    ghost use Rattle.jc_stripe.specs.Reached.{IsReached};

    /// The first phase of a call, on one key.
    ///
    /// - It answers `Done` if nobody is asked, and writes the call's reply to `reply`.
    /// - It answers `Joined` if it is a `get` whose key is missing and is being loaded by another call, with read-through on.
    /// - Otherwise it reserves the key and answers `Asks`.
    ///
    /// It is refused, and nothing is done, in these cases, tested in this order:
    /// - `HistoryFull`: the history lacks the places, or a number would overflow: the call's own, or that of the next
    ///   reservation.
    /// - `Busy`: the key is reserved, and the call needs it free.
    /// - `TooManyInFlight`: the call needs a reservation, and `RESERVATIONS_MAX` are out.
    /// - `TooManyJoiners`: the call would join, and there are `JOINERS_MAX` joiners, counting those that haven't picked up their
    ///   answer.
    ///
    /// A `containsKey`, and a `get` that finds the entry or doesn't read through, answer from the entry even while another call
    /// has the key reserved (JSR 107, "Default Consistency").
    ///
    /// Conditions: the key is of this stripe, by `stripe_of`. The call's number is at least that of every step of its session in
    /// this history. The session has no reservation and no join out here under another number; a join counts until it is picked
    /// up. And there is no step, no reservation and no join here of this call at this key.
    pub fn begin(&mut self, caller: Caller, key: &Key, op: &Op, reply: &mut Reply) -> Started
        requires begins { MayBegin self.old caller key.now }
        ensures begins { Begins self.old caller key.now op.now (begun_with result reply.new) self.new }
        ensures phase { IsPhaseOf caller.session self.old self.new }
    {
        if !is_get(op) || !self.may_hit(caller.call, key) {
            return self.begin_at(caller, key, op, reply);
        }
        let place = self.next_place();
        if !self.find_and_use(caller, key) {
            return self.begin_missing(caller, key, op, reply);
        }
        *reply = Reply::Value(Some(*self.most_recent()));
        Started::Done(appended_alone(place))
    }

    /// A `get` that finds its entry, as [`begin`](Stripe::begin) makes it, and writes its value to `value`. A `false` says that
    /// the entry is missing, that the history lacks the place, that a number would overflow, or that the key was invalidated
    /// while it is reserved. Then nothing is done, and `value` stays.
    ///
    /// Conditions: those of [`begin`](Stripe::begin).
    pub fn hit_into(&mut self, caller: Caller, key: &Key, value: &mut Value) -> bool
        requires begins { MayBegin self.old caller key.now }
        ensures none { OnFalse result ((self.new ≡ self.old) × (value.new ≡ value.old)) }
        ensures missing { OnFalse result ((may_hit self.old caller.call key.now ≡ false) ⊎ (entry_at self.old.cache key.now ≡ None)) }
        ensures room { OnTrue result (may_hit self.old caller.call key.now ≡ true) }
        ensures some { OnTrue result (Begins self.old caller key.now Get
            (Done (hit_done (length self.old.history) value.new)) self.new) }
    {
        if !self.may_hit(caller.call, key) || !self.find_and_use(caller, key) {
            return false;
        }
        value.copy_from(self.most_recent());
        true
    }

    /// The last phase of a call whose loader was asked: its reservation ends, and its step is appended with the loader's answer.
    /// The reply is written to `reply`.
    ///
    /// A failed load leaves the entry as it was, and is the step's reply (`LoaderFailed`). Each call that has joined the load and
    /// waits shares it: its step is appended directly after this one, in the order of joining, and its answer stays until it is
    /// picked up.
    ///
    /// Conditions: the ticket's reservation is out here, and asks the loader first. `done` was made of this ticket's ask, and has
    /// this stripe's origin.
    pub fn commit_load(
        &mut self,
        ticket: Ticket,
        done: LoadDone<Ask>,
        reply: &mut Reply,
    ) -> Appended
        requires out { IsOut self.old ticket.reservation }
        requires first { asks_loader ticket.reservation.first ≡ true }
        requires claim { done.ask ≡ claim_of ticket.reservation }
        requires origin { done.origin ≡ self.old.origin }
        ensures ends { Ends self.old ticket.reservation (load_only done.answer) (with_reply result reply.new) self.new }
        ensures phase { IsPhaseOf ticket.reservation.caller.session self.old self.new }
    {
        self.commit(ticket.spend(), &Out::load_only(done.into_answer()), reply)
    }

    /// The last phase of a call whose writer was asked: its reservation ends, and its step is appended with the writer's report.
    /// The reply is written to `reply`.
    ///
    /// A failed write leaves the entry as it was, and is the step's reply (`WriterFailed`).
    ///
    /// Conditions: the ticket's reservation is out here, and asks the writer first. `done` was made of this ticket's ask, and has
    /// this stripe's origin.
    pub fn commit_write(
        &mut self,
        ticket: Ticket,
        done: WriteDone<Ask>,
        reply: &mut Reply,
    ) -> Appended
        requires out { IsOut self.old ticket.reservation }
        requires first { asks_writer ticket.reservation.first ≡ true }
        requires claim { done.ask ≡ claim_of ticket.reservation }
        requires origin { done.origin ≡ self.old.origin }
        ensures ends { Ends self.old ticket.reservation (write_only done.answer) (with_reply result reply.new) self.new }
        ensures phase { IsPhaseOf ticket.reservation.caller.session self.old self.new }
    {
        self.commit(ticket.spend(), &Out::write_only(done.into_answer()), reply)
    }

    /// The last phase of a call whose processor ran: its reservation ends, and its step is appended with the answers of the
    /// loader, the processor and the writer. The reply is written to `reply`.
    ///
    /// The processor's net effect becomes the entry; without one a loaded value is kept. A failed load, processor or write leaves
    /// the entry as it was, and missing if it was missing, even if a value was loaded. The first of these faults is the step's
    /// reply (JSR 107, "Entry Processors").
    ///
    /// Conditions: the ticket's reservation is out here, and asks the processor first. `done` was made of this ticket's ask. With
    /// write-through on, and if `done` has a change to ask for, `report` is there and was made of this ticket's ask of the writer
    /// for that change; otherwise it is `None`. Both have this stripe's origin.
    pub fn commit_process(
        &mut self,
        ticket: Ticket,
        done: ProcDone<Ask>,
        report: Option<WriteDone<Ask>>,
        reply: &mut Reply,
    ) -> Appended
        requires out { IsOut self.old ticket.reservation }
        requires first { asks_processor ticket.reservation.first ≡ true }
        requires claim { done.ask ≡ claim_of ticket.reservation }
        requires origin { done.origin ≡ self.old.origin }
        requires report { HasReport self.old.origin ticket.reservation (change_due self.old.config done) report }
        ensures ends { Ends self.old ticket.reservation (process_out done report) (with_reply result reply.new) self.new }
        ensures phase { IsPhaseOf ticket.reservation.caller.session self.old self.new }
    {
        let write = report_answer(report);
        let (load, process) = done.into_answers();
        let out = Out {
            load,
            write,
            process,
        };
        self.commit(ticket.spend(), &out, reply)
    }

    /// Gives back a ticket that asked nobody: nothing is appended, and the entry and the store stay. Each call that has joined a
    /// load and waits is told to retry.
    ///
    /// Conditions: the ticket's reservation is out here: the stripe's reservation of the key is this one. The ticket has asked
    /// nobody.
    pub fn withdraw(&mut self, ticket: Ticket)
        requires out { IsOut self.old ticket.reservation }
        requires unasked { ticket.asked ≡ false }
        ensures gives_back { GivesBack self.old ticket.reservation self.new }
        ensures phase { IsPhaseOf ticket.reservation.caller.session self.old self.new }
    {
        // For its contract: the stripe is reached.
        let _ = self.events_len();
        let reservation = ticket.spend();
        let key = reservation.key;
        let is_marked = self.is_marked(&key);
        self.give_back(reservation);
        self.settle_given(is_marked, &key);
    }

    /// Picks up the answer of the load that a call has joined, and writes it to `reply`. If the load isn't over, the join is
    /// returned and nothing changes; if it was withdrawn, the call is told to retry.
    ///
    /// Conditions: the join is out here: its call is among this stripe's joiners of its key, and joined this load.
    pub fn pick_up(&mut self, join: Join, reply: &mut Reply) -> Picked
        requires { IsJoined self.old join }
        ensures picks_up { PicksUp self.old join (polled_with result reply.new) self.new }
        ensures phase { IsPhaseOf join.caller.session self.old self.new }
    {
        self.answer(join, reply)
    }

    /// The shape of the stripe's cache.
    pub fn config(&self) -> &Config
        ensures { result.now ≡ self.now.config }
    {
        &self.config
    }

    /// The stripe's number among those of the cache, from 0.
    pub fn number(&self) -> usize
        ensures { result ≡ self.now.stripe }
    {
        self.number
    }

    /// Whether the outside answers are live or played.
    pub fn origin(&self) -> Origin
        ensures { result ≡ self.now.origin }
    {
        self.origin
    }

    /// Whether no reservation and no join is out. A join is out until it is picked up.
    pub fn is_idle(&self) -> bool
        ensures { IsTrue result ↔ IsIdle self.now }
    {
        self.reservations.is_empty() && self.joiners.is_empty()
    }

    /// Appends the cached entries, each key once, the most recently used first.
    ///
    /// An `Err` says that an allocation failed, and leaves `out` as it was.
    pub fn entries(&self, out: &mut Vec<(Key, Value)>) -> Result<(), AllocError>
        ensures by_use { OnOk result (out.new.items ≡ out.old.items ++ by_use self.now.opening self.now.history) }
        ensures cache { map.from_entries (by_use self.now.opening self.now.history) ≡ self.now.cache }
        ensures once { IsTrue (has_distinct_keys (by_use self.now.opening self.now.history)) }
        ensures err { OnErr result (out.new.items ≡ out.old.items) }
    {
        self.entries.append_to(out)
    }

    /// The number of events of the history. The history is legal from the stripe's opening, and leaves the cached entries.
    pub fn events_len(&self) -> usize
        ensures len { result ≡ length self.now.history }
        ensures legal { Legal self.now.config self.now.opening self.now.history }
        ensures reached { IsReached self.now }
    {
        self.history.len()
    }

    /// The event at a place of the history, from 0.
    pub fn event(&self, place: usize) -> Event
        requires { place < length self.now.history }
        ensures { slice_get self.now.history place ≡ Some result }
    {
        self.history.event(place)
    }

    /// Appends the events from the place `from` up to the place `to`, which is left out.
    ///
    /// An `Err` says that an allocation failed, and leaves `out` as it was.
    pub fn append_events(
        &self,
        from: usize,
        to: usize,
        out: &mut Vec<Event>,
    ) -> Result<(), AllocError>
        requires order { from ≤ to }
        requires within { to ≤ length self.now.history }
        ensures ok { OnOk result (out.new.items ≡ out.old.items ++ slice_range self.now.history from to) }
        ensures err { OnErr result (out.new.items ≡ out.old.items) }
    {
        self.history.append_to(from, to, out)
    }

    /// Ends a reservation, and appends its step and those of its joiners. Its ticket's box is free again.
    fn commit(&mut self, reservation: Box<Reservation>, out: &Out, reply: &mut Reply) -> Appended
        requires out { IsOut self.old reservation.value }
        requires answers { AnswersFirst self.old.config reservation.value.first out.now }
        ensures { Ends self.old reservation.value out.now (with_reply result reply.new) self.new }
    {
        let mut entry = None;
        self.entry_into(&reservation.key, &mut entry);
        self.commit_on(reservation, out, &entry, reply)
    }

    /// Ends the reservation of a key that has this entry, and appends its step and those of its joiners. If the key was
    /// invalidated meanwhile, its entry is evicted then.
    #[inline(always)]
    pub(crate) fn commit_on(
        &mut self,
        reservation: Box<Reservation>,
        out: &Out,
        entry: &Option<Value>,
        reply: &mut Reply,
    ) -> Appended
        requires out { IsOut self.old reservation.value }
        requires answers { AnswersFirst self.old.config reservation.value.first out.now }
        requires entry { entry.now ≡ entry_at self.old.cache reservation.value.key }
        ensures { Ends self.old reservation.value out.now (with_reply result reply.new) self.new }
    {
        // For its contract: the stripe is reached.
        let _ = self.events_len();
        let key = reservation.key;
        let is_marked = self.is_marked(&key);
        let step = self.commit_step(reservation, out, entry, reply);
        self.settle(is_marked, &key, step)
    }

    /// Ends the reservation of a key that has this entry, and appends its step and those of its joiners.
    ///
    /// The step's place in the history is the point at which the call takes effect (its linearization point), so the order here
    /// counts:
    /// 1. The reservation ends first: its key is no longer pinned when the step's entry is inserted.
    /// 2. The step changes the entries, which may evict a victim or the step's own key.
    /// 3. The reply is computed from the entry that the step found.
    /// 4. The events are appended: the victim's eviction, the step, the shared step of each joiner, the eviction of the step's
    ///    own key.
    /// 5. Then each joiner gets its answer, the place of its shared step, which follows from the step's place.
    /// 6. The box is given back last, since all of this reads the reservation in it.
    #[inline(always)]
    fn commit_step(
        &mut self,
        reservation: Box<Reservation>,
        out: &Out,
        entry: &Option<Value>,
        reply: &mut Reply,
    ) -> Appended
        requires out { IsOut self.old reservation.value }
        requires answers { AnswersFirst self.old.config reservation.value.first out.now }
        requires entry { entry.now ≡ entry_at self.old.cache reservation.value.key }
        ensures { Commits self.old reservation.value out.now (with_reply result reply.new) self.new }
    {
        statistics_laws();
        let ended = &*reservation;
        let key = ended.key;
        let load = ended.number;
        let _ = self.reservations.release(&key);
        self.marks.remove(&key);
        let kept = STEP_PLACES + self.joiners.waiting(load) as usize;
        let pinned = self.reservations.keys();
        let op = &ended.op;
        let (victim, evicted) = apply_to_entries(&mut self.entries, pinned, &key, entry, op, out);
        op.reply_into(entry.as_ref(), out, reply);
        let group = NewGroup {
            caller: ended.caller,
            key: &key,
            op,
            out,
            reply,
            victim,
            evicted,
            found: entry.is_some(),
        };
        let done = append_group(&mut self.history, &self.joiners, Some(load), &group, kept);
        let _ = self.joiners.resolve(load, done.place);
        self.boxes.give_back(reservation);
        done
    }

    /// Ends a reservation without a step: its joiners are told to retry, its places are free, and so is its ticket's box.
    fn give_back(&mut self, reservation: Box<Reservation>)
        requires { IsOut self.old reservation.value }
        ensures { Withdraws self.old reservation.value self.new }
    {
        let ended = &*reservation;
        let _ = self.reservations.release(&ended.key);
        self.marks.remove(&ended.key);
        let waiting = self.joiners.dissolve(ended.number);
        self.history.unpromise(STEP_PLACES + waiting as usize);
        self.boxes.give_back(reservation);
    }

    /// The state of a joiner's load. If the load is over, the joiner is removed.
    fn take(&mut self, join: &Join) -> JoinState
        requires { IsJoined self.old join.now }
        ensures told { told_to self.old join.now ≡ Some result }
        ensures step { HasToldStep self.old join.now result }
        ensures left { self.new ≡ after_pick_up self.old join.now result }
    {
        match self.joiners.take(join.caller(), join.key()) {
            Some(state) => state,
            None => unreachable!(),
        }
    }

    /// The answer to a joiner, which is removed if its load is over. The reply is written to `reply`.
    fn answer(&mut self, join: Join, reply: &mut Reply) -> Picked
        requires { IsJoined self.old join }
        ensures { PicksUp self.old join (polled_with result reply.new) self.new }
    {
        match self.take(&join) {
            JoinState::Answered { place, shared_with } => {
                join.spend();
                match self.history.reply(place as usize) {
                    Some(answer) => {
                        *reply = answer;
                        Picked::Answer { place, shared_with }
                    }
                    None => unreachable!(),
                }
            }
            JoinState::Again => {
                join.spend();
                Picked::Again
            }
            JoinState::Waiting => Picked::NotYet(join),
        }
    }
}
