//! Invalidations, and the sweeps of a stripe that is shut. They are phases of no session, so any session may make them.
//!
//! Each runs once no full generation has to end before it. So it finds a place of the history, unless the stripe doesn't live on, or
//! an answer of a load is parked.
ghost use Rattle.std.specs.Prelude.{◌≡◌};
ghost use Rattle.jc_engine.specs.Forgetting.{may_go_on};

use crate::door::Phase;
use jc_model::Reply;
use jc_session::Counted;
use jc_stripe::Stripe;
use jc_types::Key;

/// The invalidation of a key.
#[derive(Drop)]
pub struct Invalidate<'a> {
    /// The session that makes it.
    pub session: u32,
    /// The key.
    pub key: &'a Key,
}

impl<'a> Phase for Invalidate<'a> {
    ghost use Rattle.std.specs.Prelude.{IsTrue, not};
    ghost use Rattle.jc_stripe.specs.Invalidating.{Invalidates};
    ghost use Rattle.jc_stripe.specs.Renewal.{is_renewable};
    ghost use Rattle.jc_session.specs.declared.counts.Counted.TheVariants.{Nothing};

    type Answer = ();

    ghost who = { λ p. p.session };

    ghost needs = { λ p a. Unit {0} };

    ghost due = { λ p a. IsTrue (not (is_renewable a)) };

    ghost puts_off = { λ p a. ⊥ };

    ghost makes = { λ p a none reply b. Invalidates a p.key.now b };

    ghost counts = { λ none. Nothing };

    ghost stays = { λ p a b after needs. needs };

    fn is_due(&self, stripe: &Stripe) -> bool {
        !stripe.is_renewable()
    }

    fn make(self, stripe: &mut Stripe, _reply: &mut Reply) -> Result<(), Self> {
        stripe.invalidate(self.key);
        Ok(())
    }

    fn counted(_none: &()) -> Counted
        ensures { result ≡ Nothing }
    {
        Counted::Nothing
    }
}

/// The invalidation of all keys of a stripe, which is shut then.
#[derive(Drop)]
pub struct InvalidateAll {
    /// The session that makes it.
    pub session: u32,
}

impl Phase for InvalidateAll {
    ghost use Rattle.std.specs.Prelude.{IsTrue, not};
    ghost use Rattle.jc_stripe.specs.Invalidating.{InvalidatesAll};
    ghost use Rattle.jc_stripe.specs.Renewal.{is_renewable};
    ghost use Rattle.jc_session.specs.declared.counts.Counted.TheVariants.{Nothing};

    type Answer = ();

    ghost who = { λ p. p.session };

    ghost needs = { λ p a. Unit {0} };

    ghost due = { λ p a. IsTrue (not (is_renewable a)) };

    ghost puts_off = { λ p a. ⊥ };

    ghost makes = { λ p a none reply b. InvalidatesAll a b };

    ghost counts = { λ none. Nothing };

    ghost stays = { λ p a b after needs. needs };

    fn is_due(&self, stripe: &Stripe) -> bool {
        !stripe.is_renewable()
    }

    fn make(self, stripe: &mut Stripe, _reply: &mut Reply) -> Result<(), Self> {
        stripe.invalidate_all();
        Ok(())
    }

    fn counted(_none: &()) -> Counted {
        Counted::Nothing
    }
}

/// A sweep of a stripe that is shut: it evicts an entry, or lets calls begin again. It returns whether a further one can do more.
#[derive(Drop)]
pub struct Sweep {
    /// The session that makes it.
    pub session: u32,
}

impl Phase for Sweep {
    ghost use Rattle.std.specs.Prelude.{◌≡◌, IsTrue, not};
    ghost use Rattle.jc_stripe.specs.Invalidating.{Sweeps};
    ghost use Rattle.jc_stripe.specs.Renewal.{is_renewable};
    ghost use Rattle.jc_session.specs.declared.counts.Counted.TheVariants.{Nothing};
    ghost use Rattle.jc_engine.specs.Forgetting.{may_go_on};

    type Answer = bool;

    ghost who = { λ p. p.session };

    ghost needs = { λ p a. Unit {0} };

    ghost due = { λ p a. IsTrue (not (is_renewable a)) };

    ghost puts_off = { λ p a. ⊥ };

    ghost makes = { λ p a more reply b. Sweeps a b × (more ≡ may_go_on b) };

    ghost counts = { λ more. Nothing };

    ghost stays = { λ p a b after needs. needs };

    fn is_due(&self, stripe: &Stripe) -> bool {
        !stripe.is_renewable()
    }

    fn make(self, stripe: &mut Stripe, _reply: &mut Reply) -> Result<bool, Self> {
        stripe.sweep();
        Ok(may_go_on(stripe))
    }

    fn counted(_more: &bool) -> Counted {
        Counted::Nothing
    }
}

/// Whether a stripe that is shut can be swept further.
fn may_go_on(stripe: &Stripe) -> bool
    ensures { result ≡ may_go_on stripe.now }
{
    stripe.is_shut() && (stripe.has_place() || stripe.can_renew())
}
