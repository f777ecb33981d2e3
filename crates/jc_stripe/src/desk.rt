//! A stripe for a driver that can't be trusted with tickets, for example a program in another language. The desk keeps the
//! tickets itself: the driver names a reservation by its number, and if no such reservation is out, nothing is done and the
//! answer says so. The desk also numbers the calls, ends full generations, and reports which values came and went.
//!
//! Why it is so:
//! - The tickets are the stripe's reservations, in their order, so that the meaning of a number is one equation on the stripe's
//!   state.
//! - The stripe is of origin `Played`, because the outside answers are what the driver states.
//! - A full generation ends before a first phase, so that no driver meets a full history. A driver that wants the events is
//!   answered `Full` first.
//! - A desk that is shut says so at each first phase, so that no driver forgets to sweep.
ghost use Rattle.std.specs.Prelude.{◌≡◌, ◌==◌, ◌≤◌, ◌<◌, true, not, Some, Ok, ◌++◌, length, slice_get, is_some, IfOk, IfErr, IfSome, IfNone, OnOk, OnErr};
ghost use Rattle.std.specs.Bool.{OnTrue, OnFalse};
ghost use Rattle.std.specs.List.{list_all};
ghost use Rattle.std.specs.Option.{option_copied};
ghost use Rattle.jc_types.specs.Limits.{check};
ghost use Rattle.jc_types.specs.Stripes.{stripe_of};
ghost use Rattle.jc_model.specs.Cache.{entry_at};
ghost use Rattle.jc_model.specs.Listed.{has_distinct_keys};
ghost use Rattle.jc_model.specs.Legal.{Legal};
ghost use Rattle.jc_model.specs.Statistics.{statistics_of};
ghost use Rattle.jc_stripe.specs.OrderOfUse.{by_use};
ghost use Rattle.jc_stripe.specs.Occurrences.{all_occurrences};
ghost use Rattle.jc_stripe.specs.Reached.{IsReached};
ghost use Rattle.jc_stripe.specs.Generations.{after_renewal};
ghost use Rattle.jc_stripe.specs.Renewal.{can_renew};
ghost use Rattle.jc_stripe.specs.DeskState.{opened_desk, is_open_shape, are_contents, may_call_next, awaits_end, nothing_is_out, OpenFails};
ghost use Rattle.jc_stripe.specs.DeskPhases.{BeginsAtDesk, is_first_misuse, newest, HitsAtDesk, hits_next, without_hit};

mod answers;
mod forgetting;
mod last_phases;
mod moves;
mod opening;

use crate::begun::Started;
use crate::stripe::Stripe;
use crate::ticket::Reservation;
pub use answers::{CommitDone, FirstAnswer, OpenFault, PickUpAnswer, SweepAnswer};
use jc_entries::Entries;
use jc_model::{Event, Op, Reply, Statistics};
use jc_outside::Origin;
use jc_types::{Caller, Config, Key, LAST_NUMBER, RESERVATIONS_MAX, Value};
pub use moves::ValueMoves;
use opening::{are_contents, is_open_shape};
use std::alloc::{AllocError, Global};
use std::marker::Model;

/// A stripe, and the boxes of the tickets that are out, in the order of the stripe's reservations.
///
/// A driver makes calls of many sessions here: a session is a caller that has at most one call out at this desk. It asks its
/// loader, writer and processor itself, between the phases.
#[derive(Drop)]
pub struct Desk {
    stripe: Stripe,
    tickets: Vec<Box<Reservation>>,
    next_call: u64,
    keeps_events: bool,
}

impl Model for Desk {
    ghost use Rattle.std.specs.Prelude.{◌≤◌, map, vec_capacity};
    ghost use Rattle.std.specs.Coded.{codes};
    ghost use Rattle.jc_types.specs.declared.limits.TheConstants.{RESERVATIONS_MAX};
    ghost use Rattle.jc_model.specs.Cache.{cache_code};
    ghost use Rattle.jc_stripe.specs.DeskState.{DeskState, IsDesk};

    ghost Value = { DeskState };

    ghost coded = { Prim.hlevel (codes, cache_code) };

    ghost view = { λ d. record { stripe = d.stripe; next = d.next_call; keeps_events = d.keeps_events } };

    ghost invariant = { λ d. (RESERVATIONS_MAX ≤ vec_capacity d.tickets) × IsDesk d.stripe (map (λ b. b.value) d.tickets.items) d.next_call };
}

impl Desk {
    /// A desk over a stripe that opens with these entries, the first one the most recently used. With `keeps_events` a full
    /// generation ends only by [`end_generation`](Desk::end_generation), so that its events can be read first.
    ///
    /// An `Err` says why none was opened. `Memory` is returned only if the shape and the contents fit.
    pub fn open(
        alloc: Global,
        config: &Config,
        number: usize,
        keeps_events: bool,
        contents: &[(Key, Value)],
    ) -> Result<Desk, OpenFault>
        ensures opened { IfOk result (λ d. d ≡ opened_desk config.now number keeps_events contents.now) }
        ensures fits { IfOk result (λ d. (is_open_shape config.now number ≡ true) × (are_contents config.now number contents.now ≡ true)) }
        ensures err { IfErr result (λ fault. OpenFails fault config.now number contents.now) }
    {
        if !is_open_shape(config, number) {
            return Err(OpenFault::Shape);
        }
        if !are_contents(config, number, contents) {
            return Err(OpenFault::Contents);
        }
        match Desk::open_over(alloc, config, number, keeps_events, contents) {
            Ok(desk) => Ok(desk),
            Err(AllocError) => Err(OpenFault::Memory),
        }
    }

    /// Opens a desk whose shape and contents fit. An `Err` says that an allocation failed.
    fn open_over(
        alloc: Global,
        config: &Config,
        number: usize,
        keeps_events: bool,
        contents: &[(Key, Value)],
    ) -> Result<Desk, AllocError>
        requires fits { check config.now ≡ Ok tt }
        requires few { length contents.now ≤ config.now.capacity }
        requires once { has_distinct_keys contents.now ≡ true }
        requires own { list_all (λ entry. stripe_of entry.0 config.now.stripes == number) contents.now ≡ true }
        ensures { IfOk result (λ d. d ≡ opened_desk config.now number keeps_events contents.now) }
    {
        let tickets = Vec::with_capacity(alloc, RESERVATIONS_MAX)?;
        let entries = Entries::of(alloc, config.capacity, contents)?;
        let mut stripe = Stripe::open_with(alloc, config, number, Origin::Played, entries)?;
        stripe.live_on();
        Ok(Desk {
            stripe,
            tickets,
            next_call: 0,
            keeps_events,
        })
    }

    /// The first phase of a session's next call. It returns the call's number and the outcome. If the call is done, its reply is
    /// written to `reply`, and the values that came and went to `moves`.
    ///
    /// A full generation ends first, unless its events are to be taken: then the answer is `Full`. If the desk is shut, it is `Shut`.
    pub fn begin(
        &mut self,
        session: u32,
        key: &Key,
        op: &Op,
        reply: &mut Reply,
        moves: &mut ValueMoves,
    ) -> (u64, FirstAnswer)
        ensures misuse { is_first_misuse result.1 ≡ not (may_call_next self.old session key.now) }
        ensures begins { BeginsAtDesk self.old session result.0 key.now op.now reply.new moves.new result.1 self.new }
    {
        let call = self.next_call;
        let caller = Caller { session, call };
        if call == LAST_NUMBER || !self.stripe.is_clear(caller, key) {
            return (call, FirstAnswer::Misuse);
        }
        if self.awaits_end() {
            return (call, FirstAnswer::Full);
        }
        if self.is_shut() {
            return (call, FirstAnswer::Shut);
        }
        let _ = self.stripe.events_len();
        self.stripe.renew_if_full();
        let _ = self.stripe.events_len();
        self.next_call = call + 1;
        let asked = match moves.note_begin(&mut self.stripe, caller, key, op, reply) {
            Started::Done(step) => FirstAnswer::Done(step.place),
            Started::Asks(ticket) => {
                let kept = ticket.spend();
                let number = kept.number;
                self.tickets.push_reserved(kept);
                FirstAnswer::Asks(number)
            }
            Started::Joined(join) => {
                let load = join.load();
                join.spend();
                FirstAnswer::Joined(load)
            }
            Started::Refused(refusal) => FirstAnswer::Refused(refusal),
        };
        (call, asked)
    }

    /// A `get` that finds its entry, as a session's next call: it writes the entry's value to `value`, and returns the call's
    /// number.
    ///
    /// `None` says that no call was made: the call may not begin; its key has no entry; it was invalidated while it is reserved; the
    /// desk is shut; the generation is full and its events are to be taken; or the generation is full and an answer that is parked
    /// keeps it from ending. If the call may begin, a full generation may have ended, but none whose events are to be taken.
    pub fn hit(&mut self, session: u32, key: &Key, value: &mut Value) -> Option<u64>
        ensures found { is_some result ≡ hits_next self.old session key.now }
        ensures some { IfSome result (λ call. HitsAtDesk self.old session key.now value.new call self.new) }
        ensures none { IfNone result ((value.new ≡ value.old) × (self.new ≡ without_hit self.old session key.now)) }
    {
        let call = self.next_call;
        let caller = Caller { session, call };
        if call == LAST_NUMBER || !self.stripe.is_clear(caller, key) {
            return None;
        }
        if self.awaits_end() {
            return None;
        }
        let _ = self.stripe.events_len();
        self.stripe.renew_if_full();
        let _ = self.stripe.events_len();
        if !self.stripe.hit_into(caller, key, value) {
            return None;
        }
        self.next_call = call + 1;
        Some(call)
    }

    /// Whether the generation is full and may end, and its events are to be taken first.
    #[inline(always)]
    fn awaits_end(&self) -> bool
        ensures { result ≡ awaits_end self.now }
    {
        self.keeps_events && self.stripe.is_renewable()
    }

    /// The latest reservation among those that are out. Its `first` names whom to ask.
    pub fn newest(&self) -> Option<&Reservation>
        ensures { option_copied result ≡ newest self.now.stripe }
    {
        match self.tickets.last() {
            Some(ticket) => Some(&**ticket),
            None => None,
        }
    }

    /// The key's value, or none. No call is made, and the order of use stays.
    pub fn entry(&self, key: &Key) -> Option<&Value>
        ensures { option_copied result ≡ entry_at self.now.stripe.cache key.now }
    {
        self.stripe.entry(key)
    }

    /// The counts of the events of all generations, the present one included (JSR 107, "Statistics"). It reads no event.
    pub fn statistics(&self) -> Statistics
        ensures { result ≡ statistics_of (all_occurrences self.now.stripe) }
    {
        self.stripe.statistics()
    }

    /// Appends the cached entries, each key once, the most recently used first.
    ///
    /// An `Err` says that an allocation failed, and leaves `out` as it was.
    pub fn entries(&self, out: &mut Vec<(Key, Value)>) -> Result<(), AllocError>
        ensures ok { OnOk result (out.new.items ≡ out.old.items ++ by_use self.now.stripe.opening self.now.stripe.history) }
        ensures err { OnErr result (out.new.items ≡ out.old.items) }
    {
        self.stripe.entries(out)
    }

    /// How many events the present generation has. They are legal from its opening.
    pub fn events_len(&self) -> usize
        ensures len { result ≡ length self.now.stripe.history }
        ensures legal { Legal self.now.stripe.config self.now.stripe.opening self.now.stripe.history }
        ensures reached { IsReached self.now.stripe }
        ensures lives { self.now.stripe.lives ≡ true }
    {
        self.stripe.events_len()
    }

    /// The event at a place of the present generation, from 0.
    pub fn event(&self, place: usize) -> Event
        requires { place < length self.now.stripe.history }
        ensures { slice_get self.now.stripe.history place ≡ Some result }
    {
        self.stripe.event(place)
    }

    /// Ends the present generation if it may end, and returns whether it did. It may end if it has an event, and no answer is
    /// parked for a joiner. Otherwise nothing changes.
    pub fn end_generation(&mut self) -> bool
        ensures may { result ≡ can_renew self.old.stripe }
        ensures done { OnTrue result (self.new ≡ record self.old { stripe = after_renewal self.old.stripe }) }
        ensures none { OnFalse result (self.new ≡ self.old) }
    {
        if !self.stripe.can_renew() {
            return false;
        }
        self.stripe.renew();
        true
    }

    /// Whether no ticket and no join is out. A join is out until it is picked up.
    pub fn is_idle(&self) -> bool
        ensures { result ≡ nothing_is_out self.now.stripe }
    {
        self.stripe.is_idle()
    }
}
