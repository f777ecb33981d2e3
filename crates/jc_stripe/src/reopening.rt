//! Stripes that open with the entries that other stripes had cached, in any shape.
ghost use Rattle.std.specs.Prelude.{◌≡◌, ℕ, ◌<◌, true, [], IfOk, All, Ok, Some, slice_get, option_map, vec_len};
ghost use Rattle.jc_types.specs.Limits.{check};
ghost use Rattle.jc_model.specs.Listed.{has_distinct_keys};
ghost use Rattle.jc_stripe.specs.Reached.{IsReached};
ghost use Rattle.jc_stripe.specs.Reopening.{kept, opened_stripes, dropped, KeepsOrDrops};

use crate::stripe::Stripe;
use jc_entries::Entries;
use jc_outside::Origin;
use jc_types::{Config, Key, Value, stripe_of};
use std::alloc::{AllocError, Global};

/// Stripes that were opened with given entries.
#[derive(Drop)]
pub struct ReopenedStripes {
    /// The stripes, by their numbers.
    pub stripes: Vec<Stripe>,
    /// The entries for which the stripe of their key had no room, in the order in which they were given.
    pub dropped: Vec<(Key, Value)>,
}

/// Entries, each in the list of its stripe, and those for which there was no room.
#[derive(Drop)]
struct Dealt {
    lists: Vec<Vec<(Key, Value)>>,
    dropped: Vec<(Key, Value)>,
}

/// Opens as many stripes as the shape has, with these entries. Each stripe keeps the entries of its own keys, in the given order,
/// which is then its order of use: the first one is the most recently used. It keeps as many as it has room for, and the others
/// are dropped.
///
/// An `Err` says that an allocation failed. Time and memory grow with the number of entries and with the shape.
///
/// Conditions: `config.check()` is `Ok`; each key is there once.
pub fn reopen(
    alloc: Global,
    config: &Config,
    origin: Origin,
    entries: &[(Key, Value)],
) -> Result<ReopenedStripes, AllocError>
    requires fits { check config.now ≡ Ok tt }
    requires once { has_distinct_keys entries.now ≡ true }
    ensures stripes { IfOk result (λ r. r.stripes.items ≡ opened_stripes config.now origin entries.now 0 config.now.stripes) }
    ensures dropped { IfOk result (λ r. r.dropped.items ≡ dropped config.now entries.now) }
    ensures reached { IfOk result (λ r. All IsReached r.stripes.items) }
{
    let Dealt { lists, dropped } = deal(alloc, config, entries)?;
    let mut stripes = Vec::with_capacity(alloc, config.stripes)?;
    for number in 0..config.stripes {
        let contents = Entries::of(alloc, config.capacity, &lists[number])?;
        stripes.push_reserved(Stripe::open_with(alloc, config, number, origin, contents)?);
    }
    Ok(ReopenedStripes { stripes, dropped })
}

/// A law: a reopening loses no entry and doubles none. The entries that all the stripes open with and the dropped ones, together,
/// are the given entries, each as often as it was given. It does nothing.
pub fn keeps_or_drops()
    ensures { KeepsOrDrops }
{}

/// Gives each entry to the list of its stripe, as long as the stripe has room for it, and drops the others.
fn deal(alloc: Global, config: &Config, entries: &[(Key, Value)]) -> Result<Dealt, AllocError>
    requires fits { check config.now ≡ Ok tt }
    ensures count { IfOk result (λ d. vec_len d.lists ≡ config.now.stripes) }
    ensures lists { IfOk result (λ d. (n : ℕ) → n < config.now.stripes →
        option_map (λ list. list.items) (slice_get d.lists.items n) ≡ Some (kept config.now n entries.now)) }
    ensures dropped { IfOk result (λ d. d.dropped.items ≡ dropped config.now entries.now) }
{
    let mut lists = empty_lists(alloc, config.stripes)?;
    let mut dropped = Vec::new(alloc);
    for entry in entries {
        let list = &mut lists[stripe_of(&entry.0, config.stripes)];
        if list.len() < config.capacity {
            list.push(*entry)?;
        } else {
            dropped.push(*entry)?;
        }
    }
    Ok(Dealt { lists, dropped })
}

/// `count` empty lists.
fn empty_lists(alloc: Global, count: usize) -> Result<Vec<Vec<(Key, Value)>>, AllocError>
    ensures count { IfOk result (λ lists. vec_len lists ≡ count) }
    ensures empty { IfOk result (λ lists. (n : ℕ) → n < count →
        option_map (λ list. list.items) (slice_get lists.items n) ≡ Some []) }
{
    let mut lists = Vec::with_capacity(alloc, count)?;
    for _ in 0..count {
        lists.push_reserved(Vec::new(alloc));
    }
    Ok(lists)
}
