//! The slow checker of one stripe's history: it makes every step again, on a map.
ghost use Rattle.std.specs.Prelude.{◌≡◌, ◌↔◌, ◌≤◌, IsTrue, IfOk, Ok, length};
ghost use Rattle.jc_types.specs.Limits.{check};
ghost use Rattle.jc_model.specs.Listed.{has_distinct_keys};
ghost use Rattle.jc_model.specs.Legal.{Legal, in_order};
ghost use Rattle.jc_model.specs.Reader.{are_of_one_stripe};

use crate::callers::is_in_order;
use crate::event::Event;
use crate::listed::value_in;
use crate::reader::are_accepted;
use crate::stripes::are_of_one_stripe;
use jc_types::{Config, Key, Value};
use std::alloc::{AllocError, Global};

/// Whether no key is there twice. It compares each entry with all that follow it, and takes no memory.
pub fn is_apart(entries: &[(Key, Value)]) -> bool
    ensures { result ≡ has_distinct_keys entries.now }
{
    for (i, entry) in entries.iter().enumerate() {
        if value_in(&entries[i + 1..], &entry.0).is_some() {
            return false;
        }
    }
    true
}

/// Whether the events are lawful groups, given that the configuration, the opening and the keys fit.
fn is_spelled(
    alloc: Global,
    config: &Config,
    opening: &[(Key, Value)],
    events: &[Event],
) -> Result<bool, AllocError>
    requires config { check config.now ≡ Ok tt }
    requires once { IsTrue (has_distinct_keys opening.now) }
    requires few { length opening.now ≤ config.now.capacity }
    requires stripe { IsTrue (are_of_one_stripe config.now.stripes opening.now events.now) }
    requires order { IsTrue (in_order events.now) }
    ensures { IfOk result (λ b. IsTrue b ↔ Legal config.now opening.now events.now) }
{
    are_accepted(alloc, config, opening, events)
}

/// Whether the events are a legal history of one stripe, that began with these entries, its opening.
///
/// They are legal if they fall into groups, each of one step with at most one eviction before it, the `Get`s that shared its
/// load, and at most one eviction of its key. Each step asks, leaves and replies as the operation table states, in the cache that
/// the groups before it leave. Each eviction and each shared load is lawful. After a group the stripe holds at most `capacity`
/// entries. And the numbers of a session's calls never fall (JSR 107, "Consistency": each call is one step at its key, and a
/// caller sees its calls in order).
///
/// A `config` that `check` refuses, an opening with a repeated key or with more than `capacity` entries, and keys of two stripes
/// give false. The only error is that an allocation failed. It goes over the events once; for the callers' order it also looks
/// back from each step to the previous one of its session.
pub fn legal(
    alloc: Global,
    config: &Config,
    opening: &[(Key, Value)],
    events: &[Event],
) -> Result<bool, AllocError>
    ensures { IfOk result (λ b. IsTrue b ↔ Legal config.now opening.now events.now) }
{
    if config.check().is_err() || !is_apart(opening) || opening.len() > config.capacity {
        return Ok(false);
    }
    if !are_of_one_stripe(config.stripes, opening, events) || !is_in_order(events) {
        return Ok(false);
    }
    is_spelled(alloc, config, opening, events)
}
