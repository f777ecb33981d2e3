//! The reservations of a stripe.
ghost use Rattle.std.specs.Prelude.{◌≡◌, ◌≤◌, ◌↔◌, ◌==◌, [], IsTrue, IfSome, MatchBool, is_some, length, map, nat_le, option_map, position};
ghost use Rattle.std.specs.Cmp.Lexicographic.{pointwise};
ghost use Rattle.jc_types.specs.declared.limits.TheConstants.{RESERVATIONS_MAX, LAST_NUMBER};
ghost use Rattle.jc_reserve.specs.Reserving.{has_key, is_held, reservation_at, CanReserve, table_with, table_without};
ghost use Rattle.jc_reserve.specs.IsReservationTable.{IsReservationTable};

use crate::Reserved;
use arrayvec::ArrayVec;
use jc_types::{Key, LAST_NUMBER, RESERVATIONS_MAX};
use std::marker::Model;

/// The reservations that calls have made, at most [`RESERVATIONS_MAX`] of them and none of a key twice, in the order of
/// reserving.
///
/// The numbers rise from one reservation to the next and are never used again, also after a release. So a number distinguishes a
/// reservation from an earlier one of the same key. The table is in the value itself: no call allocates.
#[derive(Drop)]
pub struct Reservations<R: Reserved> {
    held: ArrayVec<R, RESERVATIONS_MAX>,
    // The keys of `held`, in the same order. They are apart so that they can be lent as one slice, and so that a look-up reads
    // them close together.
    keys: ArrayVec<Key, RESERVATIONS_MAX>,
    // The number of the next reservation.
    next: u64,
}

impl<R: Reserved> Model for Reservations<R> {
    ghost use Rattle.jc_reserve.specs.Table.{Table};

    ghost Value = { Table R };

    ghost use Rattle.jc_reserve.specs.Inside.{table_of, HasTable};

    ghost view = { table_of };

    ghost invariant = { HasTable R.key R.number };
}

impl<R: Reserved> Reservations<R> {
    /// A table with no key reserved, whose first reservation has the number 0.
    pub fn new() -> Self
        ensures { result ≡ record { held = []; next = 0 } }
    {
        Reservations::new_from(0)
    }

    /// A table with no key reserved, whose first reservation has this number. If it is [`LAST_NUMBER`], no key can be reserved.
    pub fn new_from(next: u64) -> Self
        ensures { result ≡ record { held = []; next = next } }
    {
        Reservations {
            held: ArrayVec::new(),
            keys: ArrayVec::new(),
            next,
        }
    }

    /// Ends all reservations, and numbers from 0 again: the table is then as [`new`](Reservations::new) makes it.
    pub fn restart(&mut self)
        ensures { self.new ≡ record { held = []; next = 0 } }
    {
        self.held.clear();
        self.keys.clear();
        self.next = 0;
    }

    /// The number of the next reservation. It is [`LAST_NUMBER`] once the numbers are used up.
    pub fn next_number(&self) -> u64
        ensures { result ≡ self.now.next }
    {
        self.next
    }

    /// Reserves the key of a reservation, and returns the reservation's number.
    ///
    /// `None` leaves the table as it was: [`RESERVATIONS_MAX`] keys are reserved, or this key is one of them, or the numbers are
    /// used up.
    ///
    /// Condition: the reservation has the next number.
    pub fn reserve(&mut self, reservation: &R) -> Option<u64>
        requires { R.number reservation.now ≡ self.old.next }
        ensures can { IsTrue (is_some result) ↔ CanReserve R.key self.old (R.key reservation.now) }
        ensures number { IfSome result (λ number. number ≡ self.old.next) }
        ensures table { MatchBool (is_some result) (self.new ≡ table_with self.old reservation.now) (self.new ≡ self.old) }
    {
        let key = *reservation.key();
        if !self.can_reserve(&key) {
            return None;
        }
        let number = self.next;
        self.held.push(*reservation);
        self.keys.push(key);
        self.next += 1;
        Some(number)
    }

    /// The reservation of a key, or `None` if the key is free.
    pub fn find(&self, key: &Key) -> Option<&R>
        ensures found { option_map (λ r. r.now) result ≡ reservation_at R.key self.now key.now }
        ensures table { IsReservationTable R.key R.number self.now }
    {
        let place = self.place_of(key)?;
        Some(&self.held[place])
    }

    /// Whether a key is reserved.
    pub fn is_reserved(&self, key: &Key) -> bool
        ensures { result ≡ is_held R.key self.now key.now }
    {
        self.place_of(key).is_some()
    }

    /// Ends a key's reservation, and returns whether there was one. The other keys stay in their order, and the next number
    /// stays.
    ///
    /// The reservations made after it move up one place each: up to [`RESERVATIONS_MAX`] - 1 records and keys are copied.
    pub fn release(&mut self, key: &Key) -> bool
        ensures found { result ≡ is_held R.key self.old key.now }
        ensures released { self.new ≡ table_without R.key self.old key.now }
    {
        let Some(place) = self.place_of(key) else {
            return false;
        };
        self.keys.remove(place);
        self.held.remove(place);
        true
    }

    /// The reservations in the order of reserving.
    pub fn list(&self) -> &[R]
        ensures list { result.now ≡ self.now.held }
        ensures table { IsReservationTable R.key R.number self.now }
    {
        &self.held
    }

    /// The reserved keys in the order of reserving: those whose entries can't be evicted.
    pub fn keys(&self) -> &[Key]
        ensures keys { result.now ≡ map R.key self.now.held }
        ensures table { IsReservationTable R.key R.number self.now }
    {
        &self.keys
    }

    /// Whether no key is reserved.
    pub fn is_empty(&self) -> bool
        ensures { IsTrue result ↔ (length self.now.held ≡ 0) }
    {
        self.held.is_empty()
    }

    /// Whether [`RESERVATIONS_MAX`] keys are reserved.
    pub fn is_full(&self) -> bool
        ensures { result ≡ nat_le RESERVATIONS_MAX (length self.now.held) }
    {
        self.held.is_full()
    }

    /// Whether the numbers are used up: the next one is [`LAST_NUMBER`], which no reservation gets.
    pub fn is_used_up(&self) -> bool
        ensures { IsTrue result ↔ (LAST_NUMBER ≤ self.now.next) }
    {
        self.next == LAST_NUMBER
    }
}

impl<R: Reserved> Reservations<R> {
    /// Whether a key can be reserved.
    fn can_reserve(&self, key: &Key) -> bool
        ensures { IsTrue result ↔ CanReserve R.key self.now key.now }
    {
        !self.is_full() && self.next < LAST_NUMBER && !self.is_reserved(key)
    }

    /// The place of a key's reservation, in the order of reserving.
    fn place_of(&self, key: &Key) -> Option<usize>
        ensures place { result ≡ position (has_key R.key key.now) self.now.held }
        ensures table { IsReservationTable R.key R.number self.now }
    {
        place_among(&self.keys, key)
    }
}

/// The place of a key among these.
fn place_among(keys: &[Key], key: &Key) -> Option<usize>
    ensures { result ≡ position (pointwise ◌==◌ key.now) keys.now }
{
    keys.iter().position(|k| *key == *k)
}
