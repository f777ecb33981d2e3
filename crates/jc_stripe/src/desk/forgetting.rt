//! How a desk forgets what somebody else has written in the store. Nothing here is a call: no session makes it, and it has no number.
//!
//! Why it is so: each value that leaves is reported by the phase in which it leaves, so a sweep evicts one entry, and its driver repeats
//! it. There is no loop, and no list of values.
ghost use Rattle.std.specs.Prelude.{◌≡◌};
ghost use Rattle.std.specs.Bool.{OnTrue, OnFalse};
ghost use Rattle.jc_stripe.specs.State.{is_of};
ghost use Rattle.jc_stripe.specs.DeskPhases.{with_place, InvalidatesAtDesk, InvalidatesAllAtDesk, SweepsAtDesk};

use super::Desk;
use super::answers::SweepAnswer;
use super::moves::ValueMoves;
use jc_types::Key;

impl Desk {
    /// Invalidates a key: no call that begins later is answered from what is cached or reserved of it now. If its entry was evicted, the
    /// value is written to `moves`. A `false` says that the key is of another stripe; then nothing was done.
    ///
    /// - If it is reserved, each call that begins at it is `Busy` until the reservation is over; its entry is evicted then. Calls that
    ///   have joined its load are answered.
    /// - Otherwise its entry is evicted now, if it has one. A generation without a place for that ends first, if it may end, but none
    ///   whose events are to be taken.
    /// - If there is no place, the desk is shut: no call begins until [`sweep`](Desk::sweep) has evicted all entries that aren't
    ///   reserved.
    pub fn invalidate(&mut self, key: &Key, moves: &mut ValueMoves) -> bool
        ensures of { result ≡ is_of self.old.stripe key.now }
        ensures done { OnTrue result (InvalidatesAtDesk self.old key.now moves.new self.new) }
        ensures none { OnFalse result ((self.new ≡ self.old) × (moves.new ≡ moves.old)) }
    {
        if !self.stripe.is_own(key) {
            return false;
        }
        self.make_place();
        let _ = self.stripe.events_len();
        moves.note_invalidation(&mut self.stripe, key);
        true
    }

    /// Invalidates all keys: those that are reserved as [`invalidate`](Desk::invalidate) does; and the desk is shut until
    /// [`sweep`](Desk::sweep) has evicted the entries of all others.
    pub fn invalidate_all(&mut self)
        ensures { InvalidatesAllAtDesk self.old self.new }
    {
        let _ = self.stripe.events_len();
        self.stripe.invalidate_all();
    }

    /// Evicts an entry of a desk that is shut, the least recently used one that isn't reserved, and writes its key and its value to
    /// `moves`, as a victim's. If none is left, calls may begin again.
    ///
    /// A generation without a place for that ends first, if it may end, but none whose events are to be taken.
    pub fn sweep(&mut self, moves: &mut ValueMoves) -> SweepAnswer
        ensures { SweepsAtDesk self.old moves.new result self.new }
    {
        self.make_place();
        let _ = self.stripe.events_len();
        if moves.note_sweep(&mut self.stripe) {
            return SweepAnswer::Evicted;
        }
        if !self.stripe.is_shut() {
            return SweepAnswer::Open;
        }
        if self.stripe.can_renew() {
            SweepAnswer::Full
        } else {
            SweepAnswer::NoPlace
        }
    }

    /// Whether no call begins here until a sweep has found nothing left to evict.
    pub fn is_shut(&self) -> bool
        ensures { result ≡ self.now.stripe.shut }
    {
        self.stripe.is_shut()
    }

    /// Ends a generation without a place for an eviction, if it may end, and its events aren't to be taken.
    fn make_place(&mut self)
        ensures { self.new ≡ record self.old { stripe = with_place self.old } }
    {
        if !self.keeps_events && !self.stripe.has_place() && self.stripe.can_renew() {
            self.stripe.renew();
        }
    }
}
