//! Tests of a stripe, by which a driver that had given it back sees whether a condition of a phase still holds. They change
//! nothing.
ghost use Rattle.std.specs.Prelude.{◌≡◌, ◌↔◌, IsTrue, find, option_map};
ghost use Rattle.std.specs.List.{list_all};
ghost use Rattle.jc_inflight.specs.Joining.{belongs_to};
ghost use Rattle.jc_stripe.specs.State.{is_of, IsOut, IsJoined};
ghost use Rattle.jc_stripe.specs.Phases.{MayBegin, is_other_call, is_other_join};
ghost use Rattle.jc_stripe.specs.OwnSteps.{may_come_all};
ghost use Rattle.jc_stripe.specs.Tests.{is_clear, asks_outside};

use super::Stripe;
use crate::call_rules::asks_anybody;
use crate::same::is_same_reservation;
use crate::ticket::{Join, Reservation};
use jc_history::History;
use jc_inflight::Joiner;
use jc_model::Op;
use jc_types::{Caller, Key, stripe_of};

/// Whether a reservation doesn't keep a call from beginning at a key: it is another session's, or this very call's at another
/// key.
///
/// A reservation of another call of the session does, since a session makes one call at a time. So does one of this call at this
/// key, since a call has one operation at a key.
fn is_other_call(held: &Reservation, caller: Caller, key: &Key) -> bool
    ensures { result ≡ is_other_call caller key.now held.now }
{
    let who = held.caller;
    who.session != caller.session || (who.call == caller.call && held.key != *key)
}

/// Whether a joiner doesn't keep a call from beginning at a key: it is another session's, or this very call's at another key.
fn is_other_join(joiner: &Joiner, caller: Caller, key: &Key) -> bool
    ensures { result ≡ is_other_join caller key.now joiner.now }
{
    let who = joiner.caller;
    who.session != caller.session || (who.call == caller.call && joiner.key != *key)
}

fn are_other_calls(held: &[Reservation], caller: Caller, key: &Key) -> bool
    ensures { result ≡ list_all (is_other_call caller key.now) held.now }
{
    held.iter().all(|r| is_other_call(r, caller, key))
}

fn are_other_joins(joiners: &[Joiner], caller: Caller, key: &Key) -> bool
    ensures { result ≡ list_all (is_other_join caller key.now) joiners.now }
{
    joiners.iter().all(|j| is_other_join(j, caller, key))
}

/// The call's joiner at a key, if it is among the joiners.
fn joiner_of(joiners: &[Joiner], caller: Caller, key: &Key) -> Option<Joiner>
    ensures { result ≡ find (belongs_to caller key.now) joiners.now }
{
    joiners.iter().copied().find(|j| j.belongs_to(caller, key))
}

/// The load that a call has joined at a key, if it is among the joiners.
fn load_joined(joiners: &[Joiner], caller: Caller, key: &Key) -> Option<u64>
    ensures { result ≡ option_map (λ j. j.load) (find (belongs_to caller key.now) joiners.now) }
{
    match joiner_of(joiners, caller, key) {
        Some(joiner) => Some(joiner.load),
        None => None,
    }
}

/// Whether a step of this caller at this key may come after each event of a history. It reads the whole history.
fn may_come_all(history: &History, caller: &Caller, key: &Key) -> bool
    ensures { result ≡ may_come_all history.now.events caller.now key.now }
{
    for place in 0..history.len() {
        if !history.event(place).may_come(caller, key) {
            return false;
        }
    }
    true
}

impl Stripe {
    /// Whether a call may begin here: the condition of [`begin`](Stripe::begin). It reads the whole history. For a driver that
    /// knows its session's own steps, [`is_clear`](Stripe::is_clear) is enough.
    pub fn admits(&self, caller: Caller, key: &Key) -> bool
        ensures { IsTrue result ↔ MayBegin self.now caller key.now }
    {
        self.is_clear(caller, key) && may_come_all(&self.history, &caller, key)
    }

    /// The part of [`admits`](Stripe::admits) that looks at no event: the key is of this stripe, and no reservation and
    /// no joiner of the session is of another call or of this key. It compares at most as many callers as there may be
    /// reservations and joiners.
    ///
    /// It is the whole condition if the session's own steps here are of lower call numbers, or of this call at other
    /// keys (`phase_laws::caller_numbers`).
    pub fn is_clear(&self, caller: Caller, key: &Key) -> bool
        ensures { result ≡ is_clear self.now caller key.now }
    {
        self.is_own(key)
            && are_other_calls(self.reservations.list(), caller, key)
            && are_other_joins(self.joiners.list(), caller, key)
    }

    /// Whether the key is of this stripe.
    pub(crate) fn is_own(&self, key: &Key) -> bool
        ensures { result ≡ is_of self.now key.now }
    {
        // For its contract: every stripe is reached, so its config has at least one stripe.
        let _ = self.events_len();
        stripe_of(key, self.config.stripes) == self.number
    }

    /// Whether a call would ask the loader, the writer or the processor, or join a load, if it isn't refused. A call that may not
    /// wait for an outside answer tests this first.
    pub fn asks_outside(&self, key: &Key, op: &Op) -> bool
        ensures { result ≡ asks_outside self.now key.now op.now }
    {
        let mut entry = None;
        self.entry_into(key, &mut entry);
        asks_anybody(&self.config, op, &entry)
    }

    /// Whether a ticket is out here: the stripe's reservation of the key has the ticket's caller, operation and number, and asks
    /// the same first.
    pub fn holds(&self, reservation: &Reservation) -> bool
        ensures { IsTrue result ↔ IsOut self.now reservation.now }
    {
        match self.reservations.find(&reservation.key) {
            Some(held) => is_same_reservation(held, reservation),
            None => false,
        }
    }

    /// Whether a join is out here: its call is among the joiners of its key, and joined this load.
    pub fn holds_join(&self, join: &Join) -> bool
        ensures { IsTrue result ↔ IsJoined self.now join.now }
    {
        match load_joined(self.joiners.list(), join.caller(), join.key()) {
            Some(load) => load == join.load(),
            None => false,
        }
    }
}
