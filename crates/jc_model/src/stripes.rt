//! The keys of one stripe's history, as the checker tests them: those of the opening and of the events are of one stripe.
ghost use Rattle.std.specs.Prelude.{◌≡◌, ◌==◌, ◌<◌};
ghost use Rattle.std.specs.List.{list_all};
ghost use Rattle.jc_types.specs.Stripes.{stripe_of};
ghost use Rattle.jc_model.specs.Legal.{is_of_stripe};
ghost use Rattle.jc_model.specs.Reader.{first_stripe, are_of_one_stripe};

use crate::event::Event;
use jc_types::{Key, Value, stripe_of};

/// The stripe of the first key, of the opening or else of the events. Without a key it is 0.
fn first_stripe(stripes: usize, opening: &[(Key, Value)], events: &[Event]) -> usize
    requires { 0 < stripes }
    ensures { result ≡ first_stripe stripes opening.now events.now }
{
    match opening.first() {
        Some(entry) => stripe_of(&entry.0, stripes),
        None => match events.first() {
            Some(event) => stripe_of(event.key(), stripes),
            None => 0,
        },
    }
}

/// Whether the keys of an opening are all of this stripe.
///
/// Condition: there is at least one stripe.
pub fn is_opening_of(stripes: usize, stripe: usize, opening: &[(Key, Value)]) -> bool
    requires { 0 < stripes }
    ensures { result ≡ list_all (λ entry. stripe_of entry.0 stripes == stripe) opening.now }
{
    opening
        .iter()
        .all(|entry| stripe_of(&entry.0, stripes) == stripe)
}

/// Whether the keys of the events are all of this stripe.
fn are_events_of(stripes: usize, stripe: usize, events: &[Event]) -> bool
    requires { 0 < stripes }
    ensures { result ≡ list_all (is_of_stripe stripes stripe) events.now }
{
    events
        .iter()
        .all(|event| stripe_of(event.key(), stripes) == stripe)
}

/// Whether all keys, of the opening and of the events, are of one stripe.
pub(crate) fn are_of_one_stripe(stripes: usize, opening: &[(Key, Value)], events: &[Event]) -> bool
    requires { 0 < stripes }
    ensures { result ≡ are_of_one_stripe stripes opening.now events.now }
{
    let stripe = first_stripe(stripes, opening, events);
    is_opening_of(stripes, stripe, opening) && are_events_of(stripes, stripe, events)
}
