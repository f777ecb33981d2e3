//! The pick-up of a call that has joined a load.
ghost use Rattle.std.specs.Prelude.{◌≡◌};
ghost use Rattle.jc_engine.specs.Needs.{is_early};

use crate::door::Phase;
use jc_model::Reply;
use jc_session::Counted;
use jc_stripe::{Join, Picked, Stripe};

/// The pick-up of a joined load's answer. It can be made where the join is out. If there is an answer, it is written to the
/// reply.
pub struct PickUp {
    /// The join of the call.
    pub join: Join,
    /// Whether the pick-up waits until the load was answered or withdrawn. Otherwise it may return that there is no answer yet.
    pub waits: bool,
}

impl Phase for PickUp {
    ghost use Rattle.jc_stripe.specs.State.{IsJoined};
    ghost use Rattle.jc_session.specs.Counting.{counted_picked};
    ghost use Rattle.jc_engine.specs.Needs.{IsTooEarly, PicksUpBy};

    type Answer = Picked;

    ghost who = { λ p. p.join.caller.session };

    ghost needs = { λ p a. Unit {0} };

    ghost due = { λ p a. IsJoined a p.join };

    ghost puts_off = { λ p a. IsTooEarly p.waits p.join a };

    ghost makes = { λ p a picked reply b. PicksUpBy p.waits a p.join picked reply b };

    ghost counts = { λ picked. counted_picked picked };

    ghost stays = { λ p a b after needs. needs };

    fn is_due(&self, stripe: &Stripe) -> bool {
        stripe.holds_join(&self.join)
    }

    fn make(self, stripe: &mut Stripe, reply: &mut Reply) -> Result<Picked, Self> {
        let PickUp { join, waits } = self;
        let picked = stripe.pick_up(join, reply);
        if !is_early(waits, &picked) {
            return Ok(picked);
        }
        match picked {
            Picked::NotYet(join) => Err(PickUp { join, waits }),
            Picked::Answer { .. } => unreachable!(),
            Picked::Again => unreachable!(),
        }
    }

    fn counted(picked: &Picked) -> Counted
        ensures { result ≡ counted_picked picked.now }
    {
        Counted::of_picked(picked)
    }
}

/// Whether a pick-up that waits is too early.
fn is_early(waits: bool, picked: &Picked) -> bool
    ensures { result ≡ is_early waits picked.now }
{
    match picked {
        Picked::NotYet(_) => waits,
        Picked::Answer { .. } | Picked::Again => false,
    }
}
