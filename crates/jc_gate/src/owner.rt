//! The plain owner of a stripe.
ghost use Rattle.std.specs.Prelude.{◌≡◌, ◌≢◌, Some, None};

use crate::gate::Gate;
use jc_stripe::Stripe;
use std::marker::Model;
use std::snapshot::Snapshot;
use std::sync::Wait;

/// Owns a stripe, and lends it to whoever the owner itself is lent to. So a take never fails, and the token is empty.
///
/// Contracts see the stripe's state, or none while it is out, and the state in which it was taken last.
#[derive(Drop)]
pub struct Owner {
    stripe: Option<Box<Stripe>>,
    taken: Snapshot<Stripe>,
}

impl Model for Owner {
    ghost use Rattle.std.specs.Coded.{codes};
    ghost use Rattle.jc_model.specs.Cache.{cache_code};
    ghost use Rattle.jc_gate.specs.Owned.{OwnerState, state_in};

    ghost Value = { OwnerState };

    ghost coded = { Prim.hlevel (codes, cache_code) };

    ghost view = { λ o. record { here = state_in (λ b. b.value) o.stripe; taken = o.taken.value } };
}

impl Owner {
    /// The owner of a stripe.
    pub fn new(stripe: Box<Stripe>) -> Owner
        ensures { result.here ≡ Some stripe.value }
    {
        Owner {
            taken: Snapshot::of(&*stripe),
            stripe: Some(stripe),
        }
    }

    /// The stripe, for reading.
    ///
    /// Condition: it is there.
    pub fn stripe(&self) -> &Stripe
        requires { self.now.here ≢ None }
        ensures { self.now.here ≡ Some result.now }
    {
        match &self.stripe {
            Some(stripe) => stripe,
            None => unreachable!(),
        }
    }
}

impl Gate for Owner {
    ghost use Rattle.std.specs.Prelude.{◌≡◌, ◌≢◌, Some, None};

    type Token = ();

    ghost speaks_for = { λ t n. Unit {0} };

    ghost is_anonymous = { λ t. ⊥ };

    ghost is_free = { λ g t. g.here ≢ None };

    ghost has = { λ g t a. g ≡ record { here = None; taken = a } };

    ghost finds = { λ g t a. g.here ≡ Some a };

    ghost takes = { λ g t a h u. (g.here ≡ Some a) × (h ≡ record { here = None; taken = a }) };

    ghost gives = { λ g t b h u. h.here ≡ Some b };

    ghost misses = { λ g t h u. ⊥ };

    fn try_take(&mut self, _token: &mut ()) -> Option<Box<Stripe>> {
        match self.stripe.take() {
            Some(stripe) => {
                // For its contract: every stripe is reached.
                let _ = stripe.events_len();
                self.taken = Snapshot::of(&*stripe);
                Some(stripe)
            }
            None => unreachable!(),
        }
    }

    fn take<R: Wait>(&mut self, _rt: &R, _token: &mut ()) -> Box<Stripe> {
        match self.stripe.take() {
            Some(stripe) => {
                // For its contract: every stripe is reached.
                let _ = stripe.events_len();
                self.taken = Snapshot::of(&*stripe);
                stripe
            }
            None => unreachable!(),
        }
    }

    fn give(&mut self, _token: &mut (), stripe: Box<Stripe>) {
        self.stripe = Some(stripe);
    }
}
