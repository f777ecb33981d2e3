//! The tables of a stripe, each in a block of its own.
//!
//! A table has 64 places in the value itself; the reservations take 56 kB. A stripe is made through many function calls, and each
//! would clear and copy the tables, which took 547 kB of stack. So a table is the only element of a vector, and the stripe has a
//! pointer to it. Making a table allocates once; nothing else allocates.
//!
//! It is a vector and not a box, because `push_reserved` writes the table to its block, while `Box::new` would copy it once more
//! on the stack.
ghost use Rattle.std.specs.Prelude.{◌≡◌, ◌≤◌, ◌<◌, ◌+◌, ◌^◌, ◌↔◌, [], false, IsTrue, IfOk, IfSome, MatchBool, is_some, count_by, length, map, nat_le, option_map};
ghost use Rattle.std.specs.Bool.{OnTrue, OnFalse};
ghost use Rattle.jc_types.specs.declared.limits.TheConstants.{RESERVATIONS_MAX, JOINERS_MAX, LAST_NUMBER};
ghost use Rattle.jc_reserve.specs.Reserving.{is_held, reservation_at, CanReserve, table_with, table_without};
ghost use Rattle.jc_reserve.specs.IsReservationTable.{IsReservationTable};
ghost use Rattle.jc_inflight.specs.Joining.{has_joined, waits_for, joiners_with};
ghost use Rattle.jc_inflight.specs.Resolving.{after_resolve};
ghost use Rattle.jc_inflight.specs.Dissolving.{after_dissolve};
ghost use Rattle.jc_inflight.specs.Taking.{join_state_of, joiners_after_take};
ghost use Rattle.jc_inflight.specs.IsJoinerList.{IsJoinerList};
ghost use Rattle.jc_stripe.specs.declared.ticket.Reservation.{Reservation};

use crate::ticket::Reservation;
use jc_inflight::{JoinState, Joiner, Joiners};
use jc_reserve::Reservations;
use jc_types::{Caller, Key};
use std::alloc::{AllocError, Global};
use std::marker::Model;

/// The stripe's [`Reservations`]: each method forwards to theirs.
#[derive(Drop)]
pub(crate) struct StripeReservations {
    only: Vec<Reservations<Reservation>>,
}

impl Model for StripeReservations {
    ghost use Rattle.std.specs.Prelude.{◌≡◌, [], get_or, vec_len};
    ghost use Rattle.jc_reserve.specs.Table.{Table};
    ghost use Rattle.jc_stripe.specs.declared.ticket.Reservation.{Reservation};

    ghost Value = { Table Reservation };

    ghost view = { λ t. get_or t.only.items 0 (record { held = []; next = 0 }) };

    ghost invariant = { λ t. vec_len t.only ≡ 1 };
}

impl StripeReservations {
    /// No reservation; the first one has this number. An `Err` says that an allocation failed.
    pub(crate) fn new_from(alloc: Global, next: u64) -> Result<Self, AllocError>
        ensures { IfOk result (λ b. b ≡ record { held = []; next = next }) }
    {
        let mut only = Vec::with_capacity(alloc, 1)?;
        only.push_reserved(Reservations::new_from(next));
        Ok(StripeReservations { only })
    }

    /// Ends all, and numbers from 0 again.
    pub(crate) fn restart(&mut self)
        ensures { self.new ≡ record { held = []; next = 0 } }
    {
        self.only[0].restart();
    }

    /// The number of the next reservation.
    pub(crate) fn next_number(&self) -> u64
        ensures { result ≡ self.now.next }
    {
        self.only[0].next_number()
    }

    /// Reserves the key of a reservation that has the next number.
    pub(crate) fn reserve(&mut self, reservation: &Reservation) -> Option<u64>
        requires { reservation.now.number ≡ self.old.next }
        ensures can { IsTrue (is_some result) ↔ CanReserve (λ (x : Reservation). x.key) self.old reservation.now.key }
        ensures number { IfSome result (λ number. number ≡ self.old.next) }
        ensures table { MatchBool (is_some result) (self.new ≡ table_with self.old reservation.now) (self.new ≡ self.old) }
    {
        self.only[0].reserve(reservation)
    }

    /// The reservation of a key, or `None` if the key is free.
    pub(crate) fn find(&self, key: &Key) -> Option<&Reservation>
        ensures found { option_map (λ r. r.now) result ≡ reservation_at (λ (x : Reservation). x.key) self.now key.now }
        ensures table { IsReservationTable (λ (x : Reservation). x.key) (λ (x : Reservation). x.number) self.now }
    {
        self.only[0].find(key)
    }

    /// Ends a key's reservation, and returns whether there was one. The reservations made after it move up: up to 63 of them, 840
    /// bytes each. That takes time only if many are out.
    pub(crate) fn release(&mut self, key: &Key) -> bool
        ensures found { result ≡ is_held (λ (x : Reservation). x.key) self.old key.now }
        ensures released { self.new ≡ table_without (λ (x : Reservation). x.key) self.old key.now }
    {
        self.only[0].release(key)
    }

    /// The reservations in the order of reserving.
    pub(crate) fn list(&self) -> &[Reservation]
        ensures list { result.now ≡ self.now.held }
        ensures table { IsReservationTable (λ (x : Reservation). x.key) (λ (x : Reservation). x.number) self.now }
    {
        self.only[0].list()
    }

    /// The reserved keys in the order of reserving.
    pub(crate) fn keys(&self) -> &[Key]
        ensures keys { result.now ≡ map (λ (x : Reservation). x.key) self.now.held }
        ensures table { IsReservationTable (λ (x : Reservation). x.key) (λ (x : Reservation). x.number) self.now }
    {
        self.only[0].keys()
    }

    /// Whether no key is reserved.
    pub(crate) fn is_empty(&self) -> bool
        ensures { IsTrue result ↔ (length self.now.held ≡ 0) }
    {
        self.only[0].is_empty()
    }

    /// Whether all places for reservations are taken.
    pub(crate) fn is_full(&self) -> bool
        ensures { result ≡ nat_le RESERVATIONS_MAX (length self.now.held) }
    {
        self.only[0].is_full()
    }

    /// Whether the numbers are used up.
    pub(crate) fn is_used_up(&self) -> bool
        ensures { IsTrue result ↔ (LAST_NUMBER ≤ self.now.next) }
    {
        self.only[0].is_used_up()
    }
}

/// The stripe's [`Joiners`]: each method forwards to theirs.
#[derive(Drop)]
pub(crate) struct StripeJoiners {
    only: Vec<Joiners>,
}

impl Model for StripeJoiners {
    ghost use Rattle.std.specs.Prelude.{◌≡◌, [], List, get_or, vec_len};
    ghost use Rattle.jc_inflight.specs.declared.joiner.Joiner.{Joiner};

    ghost Value = { List Joiner };

    ghost view = { λ t. get_or t.only.items 0 [] };

    ghost invariant = { λ t. vec_len t.only ≡ 1 };
}

impl StripeJoiners {
    /// No joiner. An `Err` says that an allocation failed.
    ///
    /// It isn't inlined: beside the maker of the other table it would add its stack to that one's.
    #[inline(never)]
    pub(crate) fn new(alloc: Global) -> Result<Self, AllocError>
        ensures { IfOk result (λ b. b ≡ []) }
    {
        let mut only = Vec::with_capacity(alloc, 1)?;
        only.push_reserved(Joiners::new());
        Ok(StripeJoiners { only })
    }

    /// Removes all joiners.
    pub(crate) fn clear(&mut self)
        ensures { self.new ≡ [] }
    {
        self.only[0].clear();
    }

    /// Adds a joiner: a call that hasn't joined at the key joins its load.
    pub(crate) fn join(&mut self, caller: Caller, key: &Key, load: u64) -> bool
        requires { has_joined caller key.now self.old ≡ false }
        ensures room { IsTrue result ↔ (length self.old < JOINERS_MAX) }
        ensures joined { OnTrue result (self.new ≡ joiners_with caller key.now load self.old) }
        ensures full { OnFalse result (self.new ≡ self.old) }
    {
        self.only[0].join(caller, key, load)
    }

    /// Ends a load that was committed at place `step` of the history, and returns how many joiners waited for it.
    pub(crate) fn resolve(&mut self, load: u64, step: u32) -> u32
        requires { step + count_by (waits_for load) self.old < 2 ^ 32 }
        ensures resolved { self.new ≡ after_resolve load step self.old }
        ensures count { result ≡ count_by (waits_for load) self.old }
    {
        self.only[0].resolve(load, step)
    }

    /// Ends a load that was withdrawn, and returns how many joiners waited for it.
    pub(crate) fn dissolve(&mut self, load: u64) -> u32
        ensures dissolved { self.new ≡ after_dissolve load self.old }
        ensures count { result ≡ count_by (waits_for load) self.old }
    {
        self.only[0].dissolve(load)
    }

    /// How many joiners wait for a load.
    pub(crate) fn waiting(&self, load: u64) -> u32
        ensures count { result ≡ count_by (waits_for load) self.now }
        ensures few { result ≤ JOINERS_MAX }
    {
        self.only[0].waiting(load)
    }

    /// The state of the load that a call has joined at a key. If the load is over, the joiner is removed.
    pub(crate) fn take(&mut self, caller: Caller, key: &Key) -> Option<JoinState>
        ensures state { result ≡ join_state_of caller key.now self.old }
        ensures left { self.new ≡ joiners_after_take caller key.now self.old }
    {
        self.only[0].take(caller, key)
    }

    /// The joiners in the order of joining.
    pub(crate) fn list(&self) -> &[Joiner]
        ensures joiners { result.now ≡ self.now }
        ensures list { IsJoinerList self.now }
    {
        self.only[0].list()
    }

    /// Whether nobody has joined.
    pub(crate) fn is_empty(&self) -> bool
        ensures { IsTrue result ↔ (length self.now ≡ 0) }
    {
        self.only[0].is_empty()
    }

    /// Whether no further call can join.
    pub(crate) fn is_full(&self) -> bool
        ensures { result ≡ nat_le JOINERS_MAX (length self.now) }
    {
        self.only[0].is_full()
    }
}
