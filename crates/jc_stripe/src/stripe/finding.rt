//! The findings of a first phase at its key, and whether it is refused: the conditions in the order in which they are tested.
ghost use Rattle.std.specs.Prelude.{◌≡◌, length, nat_le};
ghost use Rattle.std.specs.Option.{option_copied};
ghost use Rattle.jc_types.specs.declared.limits.TheConstants.{RESERVATIONS_MAX, JOINERS_MAX};
ghost use Rattle.jc_model.specs.declared.event.Op.{Op};
ghost use Rattle.jc_model.specs.Cache.{Bytes, entry_at};
ghost use Rattle.jc_stripe.specs.State.{is_reserved, reservation_of};
ghost use Rattle.jc_stripe.specs.Refusals.{has_room, may_hit, full_refusal, first_refusal, load_at};
ghost use Rattle.jc_stripe.specs.Finding.{found_at};

use super::Stripe;
use crate::call_rules::{
    Found, answers_at_once, asks_anybody, is_to_reserve, load_of, may_join, places_needed,
};
use jc_model::Op;
use jc_types::{
    Caller, HIT_PLACES, JOINERS_MAX, Key, LAST_NUMBER, RESERVATIONS_MAX, Refusal, Value,
};

impl Stripe {
    /// The findings of a call at its key, which has this entry.
    pub(super) fn find(&self, key: &Key, op: &Op, entry: &Option<Value>) -> Found
        requires entry { entry.now ≡ entry_at self.now.cache key.now }
        ensures { result ≡ found_at self.now key.now op.now }
    {
        let asks = asks_anybody(&self.config, op, entry);
        if answers_at_once(&self.config, op, entry) {
            return Found {
                load: None,
                asks,
                needs_free_key: false,
                is_busy: self.is_barred(key),
            };
        }
        let (is_reserved, loading) = self.load_at(key);
        let joins = may_join(op) && self.config.read_through && entry.is_none();
        let load = if joins { loading } else { None };
        let needs_free_key = load.is_none();
        Found {
            load,
            asks,
            needs_free_key,
            is_busy: self.is_barred(key) || (is_reserved && needs_free_key),
        }
    }

    /// The key's value, or none. No call is made, and the order of use stays.
    pub fn entry(&self, key: &Key) -> Option<&Value>
        ensures { option_copied result ≡ entry_at self.now.cache key.now }
    {
        self.entries.peek_lent(key)
    }

    /// Writes the key's value, or none, to `entry`.
    pub(crate) fn entry_into(&self, key: &Key, entry: &mut Option<Value>)
        ensures { entry.new ≡ entry_at self.now.cache key.now }
    {
        self.entries.peek_into(key, entry);
    }

    /// Whether the key is reserved, and the load of its reservation, if that asked the loader.
    pub(super) fn load_at(&self, key: &Key) -> (bool, Option<u64>)
        ensures reserved { result.0 ≡ is_reserved self.now key.now }
        ensures load { result.1 ≡ load_at (reservation_of self.now key.now) }
    {
        match self.reservations.find(key) {
            Some(held) => (true, load_of(&held.first, held.number)),
            None => (false, None),
        }
    }

    /// Whether the needed places of the history are free, and neither the call's number nor the next reservation's is the last
    /// one.
    pub(super) fn has_room(&self, call: u64, needed: usize) -> bool
        ensures { result ≡ has_room self.now call needed }
    {
        if !self.history.has_room(needed) {
            return false;
        }
        call < LAST_NUMBER && !self.reservations.is_used_up()
    }

    /// Whether a call that finds its entry may answer from it: there is room, and the key isn't barred.
    #[inline(always)]
    pub(super) fn may_hit(&self, call: u64, key: &Key) -> bool
        ensures { result ≡ may_hit self.now call key.now }
    {
        self.has_room(call, HIT_PLACES) && !self.is_barred(key)
    }

    /// Whether no further reservation can be made.
    fn is_reserving_full(&self) -> bool
        ensures { result ≡ nat_le RESERVATIONS_MAX (length self.now.reservations) }
    {
        self.reservations.is_full()
    }

    /// Whether no further call can join a load.
    fn is_joining_full(&self) -> bool
        ensures { result ≡ nat_le JOINERS_MAX (length self.now.joiners) }
    {
        self.joiners.is_full()
    }

    /// The refusal of a call that lacks room.
    fn full_refusal(&self, call: u64) -> Refusal
        ensures { result ≡ full_refusal self.now call }
    {
        if self.lives && call < LAST_NUMBER && !self.reservations.is_used_up() {
            Refusal::Busy
        } else {
            Refusal::HistoryFull
        }
    }

    /// The first refusal whose condition holds, if any, by the call's findings at its key.
    pub(super) fn refusal(&self, caller: Caller, found: &Found) -> Option<Refusal>
        ensures { (key : Bytes) (op : Op) → found.now ≡ found_at self.now key op → result ≡ first_refusal self.now caller key op }
    {
        let needed = places_needed(found.needs_free_key);
        if !self.has_room(caller.call, needed) {
            return Some(self.full_refusal(caller.call));
        }
        if found.is_busy {
            return Some(Refusal::Busy);
        }
        if is_to_reserve(found) && self.is_reserving_full() {
            return Some(Refusal::TooManyInFlight);
        }
        if found.load.is_some() && self.is_joining_full() {
            return Some(Refusal::TooManyJoiners);
        }
        None
    }
}
