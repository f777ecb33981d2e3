//! The end of a world: each ticket and each join is spent.
ghost use Rattle.std.specs.Prelude.{◌≡◌, []};
ghost use Rattle.jc_world.specs.Ending.{AreLeft, HasHeld, HasJoins, NoneReserved};
ghost use Rattle.jc_world.specs.Held.{parts_of, joins_of};

use crate::held_keys::{HeldKeys, take_any};
use crate::joined::{Joins, take_any_join};
use jc_model::Reply;
use jc_stripe::phase_laws::stays_reached;
use jc_stripe::{Picked, Stripe};
use jc_types::{Config, stripe_of};

/// Ends all reservations: an answered one is committed, and every other one is given back.
pub(crate) fn end_all(
    config: &Config,
    stripes: &mut Vec<Stripe>,
    held: &mut HeldKeys,
    joins: &Joins,
)
    requires left { AreLeft config.now stripes.old.items }
    requires held { HasHeld config.now stripes.old.items (parts_of held.old) }
    requires joins { HasJoins config.now stripes.old.items (joins_of joins.now) }
    ensures left { AreLeft config.now stripes.new.items }
    ensures none { NoneReserved stripes.new.items }
    ensures joins { HasJoins config.now stripes.new.items (joins_of joins.now) }
    ensures empty { held.new.entries ≡ [] }
{
    stays_reached();
    'ending: while let Some(one) = take_any(held) {
        let number = stripe_of(&one.key(), config.stripes);
        let stripe = &mut stripes[number];
        one.close(stripe);
    }
}

/// Picks up the answer of every join, once no load is under way any more.
pub(crate) fn pick_all(config: &Config, stripes: &mut Vec<Stripe>, joins: &mut Joins)
    requires left { AreLeft config.now stripes.old.items }
    requires none { NoneReserved stripes.old.items }
    requires joins { HasJoins config.now stripes.old.items (joins_of joins.old) }
    ensures left { AreLeft config.now stripes.new.items }
    ensures none { NoneReserved stripes.new.items }
    ensures empty { joins.new.entries ≡ [] }
{
    stays_reached();
    'picking: while let Some(join) = take_any_join(joins) {
        let number = stripe_of(join.key(), config.stripes);
        let stripe = &mut stripes[number];
        let mut reply = Reply::Unit;
        match stripe.pick_up(join, &mut reply) {
            Picked::Answer {
                place: _,
                shared_with: _,
            }
            | Picked::Again => {}
            Picked::NotYet(_join) => unreachable!(),
        }
    }
}
