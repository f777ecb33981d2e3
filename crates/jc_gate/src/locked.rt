//! A lock as a gate.
use crate::gate::Gate;
use jc_lock::{HistLock, Seat};
use jc_stripe::Stripe;
use std::sync::Wait;

/// A lock that threads share lends its stripe to the holders of its seats. A take finds a state that fits the seat's view.
impl Gate for &HistLock {
    ghost use Rattle.std.specs.Prelude.{◌≡◌, Some, true, false};
    ghost use Rattle.jc_lock.specs.Views.{Finds, after_take, after_give, after_miss};

    type Token = Seat;

    ghost speaks_for = { λ t n. t.1.session ≡ Some n };

    ghost is_anonymous = { λ t. ⊥ };

    ghost is_free = { λ g t. (t.0 ≡ g.now) × (t.1.holds ≡ false) };

    ghost has = { λ g t a. (t.0 ≡ g.now) × (t.1.holds ≡ true) × (t.1.noted ≡ a) };

    ghost finds = { λ g t a. Finds t.1 a };

    ghost takes = { λ g t a h u. (u ≡ (t.0, after_take t.1 a)) × Finds t.1 a };

    ghost gives = { λ g t b h u. u ≡ (t.0, after_give t.1 b) };

    ghost misses = { λ g t h u. u ≡ (t.0, after_miss t.1) };

    fn try_take(&mut self, token: &mut Seat) -> Option<Box<Stripe>> {
        let lock: &HistLock = self;
        lock.try_take(token)
    }

    fn take<R: Wait>(&mut self, rt: &R, token: &mut Seat) -> Box<Stripe> {
        let lock: &HistLock = self;
        lock.take(rt, token)
    }

    fn give(&mut self, token: &mut Seat, stripe: Box<Stripe>) {
        let lock: &HistLock = self;
        lock.give(token, stripe);
    }
}
