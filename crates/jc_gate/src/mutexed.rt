//! A `Mutex` as a gate.
ghost use Rattle.std.specs.Prelude.{◌≡◌, None, IfSome};
ghost use Rattle.jc_stripe.specs.Reached.{IsReached};

use crate::gate::Gate;
use crossbeam_utils::Backoff;
use jc_stripe::Stripe;
use std::marker::Model;
use std::snapshot::Snapshot;
use std::sync::{Mutex, MutexGuard, Wait};

/// A `Mutex` round a stripe, which threads share by `&MutexGate`. It is for tests and comparisons with `HistLock`: it knows
/// nothing of what its users have seen, so a take finds any stripe with the invariant of every stripe.
#[derive(Drop)]
pub struct MutexGate {
    stripe: Mutex<Option<Box<Stripe>>>,
}

/// The seat of one user of a [`MutexGate`], which each call needs. It has the guard of the `Mutex` while the user holds the
/// stripe. If it is dropped meanwhile, later takes find no stripe: `try_take` returns `None`, and `take` waits forever.
///
/// Contracts see the state in which the user took the stripe, or none if the user holds no stripe.
#[derive(Drop)]
pub struct MutexSeat<'a> {
    held: Option<Held<'a>>,
}

/// A stripe that was taken from a [`MutexGate`].
#[derive(Drop)]
struct Held<'a> {
    guard: MutexGuard<'a, Option<Box<Stripe>>>,
    taken: Snapshot<Stripe>,
}

impl<'a> Model for MutexSeat<'a> {
    ghost use Rattle.std.specs.Prelude.{Option, option_map};
    ghost use Rattle.std.specs.Coded.{codes};
    ghost use Rattle.jc_model.specs.Cache.{cache_code};
    ghost use Rattle.jc_stripe.specs.State.{State};

    ghost Value = { Option State };

    ghost coded = { Prim.hlevel (codes, cache_code) };

    ghost view = { λ s. option_map (λ h. h.taken.value) s.held };
}

impl MutexGate {
    /// Puts a stripe behind a `Mutex`.
    pub fn new(stripe: Box<Stripe>) -> MutexGate {
        MutexGate {
            stripe: Mutex::new(Some(stripe)),
        }
    }

    /// Makes a seat for one more user. It holds no stripe.
    pub fn seat(&self) -> MutexSeat<'_>
        ensures { result ≡ None }
    {
        MutexSeat { held: None }
    }

    /// Ends the gate, and returns its stripe, or `None` if a seat was dropped while it held the stripe.
    pub fn into_stripe(self) -> Option<Box<Stripe>>
        ensures { IfSome result (λ s. IsReached s.value) }
    {
        let stripe = self.stripe.into_inner()?;
        // For its contract: every stripe is reached.
        let _ = stripe.events_len();
        Some(stripe)
    }
}

/// A `Mutex` that threads share lends its stripe to the holders of its seats. No seat speaks for a session, since nothing is known of
/// what others did between a give and the next take.
impl<'a> Gate for &'a MutexGate {
    ghost use Rattle.std.specs.Prelude.{◌≡◌, Some, None};
    ghost use Rattle.jc_stripe.specs.Reached.{IsReached};

    type Token = MutexSeat<'a>;

    ghost speaks_for = { λ t n. ⊥ };

    ghost is_anonymous = { λ t. Unit {0} };

    ghost is_free = { λ g t. t ≡ None };

    ghost has = { λ g t a. t ≡ Some a };

    ghost finds = { λ g t a. IsReached a };

    ghost takes = { λ g t a h u. u ≡ Some a };

    ghost gives = { λ g t b h u. u ≡ None };

    ghost misses = { λ g t h u. (h ≡ g) × (u ≡ t) };

    fn try_take(&mut self, token: &mut MutexSeat<'a>) -> Option<Box<Stripe>> {
        let gate: &'a MutexGate = *self;
        let mut guard = gate.stripe.try_lock()?;
        let stripe = guard.take()?;
        // For its contract: every stripe is reached.
        let _ = stripe.events_len();
        let taken = Snapshot::of(&*stripe);
        token.held = Some(Held { guard, taken });
        Some(stripe)
    }

    fn take<R: Wait>(&mut self, rt: &R, token: &mut MutexSeat<'a>) -> Box<Stripe> {
        let gate: &'a MutexGate = *self;
        let backoff = Backoff::new();
        for _ in rt.forever() {
            let mut guard = gate.stripe.lock(rt);
            if let Some(stripe) = guard.take() {
                // For its contract: every stripe is reached.
                let _ = stripe.events_len();
                let taken = Snapshot::of(&*stripe);
                token.held = Some(Held { guard, taken });
                return stripe;
            }
            backoff.snooze();
        }
        unreachable!()
    }

    fn give(&mut self, token: &mut MutexSeat<'a>, stripe: Box<Stripe>) {
        match token.held.take() {
            Some(held) => put_back(held, stripe),
            None => unreachable!(),
        }
    }
}

/// Puts the stripe back under the lock, and releases it.
fn put_back(held: Held<'_>, stripe: Box<Stripe>) {
    let Held { guard, taken: _ } = held;
    let mut guard = guard;
    *guard = Some(stripe);
}
