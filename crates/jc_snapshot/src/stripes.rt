//! A stripe as a row of numbers.
ghost use Rattle.std.specs.Prelude.{◌≡◌, ◌++◌, [], ◌∷◌, List, ℕ, map, slice_get, IfOk, OnOk};
ghost use Rattle.std.specs.FinMap.{from_entries};
ghost use Rattle.jc_world.specs.Essence.{answer_in, essence_of};
ghost use Rattle.jc_world.specs.Sound.{HaveNoneEnded};
ghost use Rattle.jc_snapshot.specs.Numbers.{AreNumbers, Continues};
ghost use Rattle.jc_snapshot.specs.Rows.{flat, AreRows};
ghost use Rattle.jc_snapshot.specs.Snapshot.{IsStripeRow, GrowsTo, origin_word, bit};
ghost use Rattle.jc_stripe.specs.OrderOfUse.{by_use};

use crate::rows::{five_rows, push_row};
use crate::seen::Seen;
use crate::table::{Table, numbers_of};
use jc_inflight::{JoinState, Joiner};
use jc_model::{Cause, Effect, Event, LoadAnswer, Op, Out, ProcessAnswer, Reply, WriteAnswer};
use jc_stripe::{Origin, Stripe};
use jc_types::{Caller, Key, Refusal, Value};
use std::alloc::{AllocError, Global};

/// The rows of stripes, written one after another. An `Err` says that an allocation failed.
///
/// Condition: no stripe has ended a generation.
pub(crate) fn stripe_rows(
    alloc: Global,
    stripes: &[Stripe],
    seen: &mut Seen,
) -> Result<Vec<u64>, AllocError>
    requires { HaveNoneEnded stripes.now }
    ensures rows { IfOk result (λ words. (rows : List (List ℕ)) × (words.items ≡ flat rows)
        × AreRows (IsStripeRow seen.new) (map essence_of stripes.now) rows) }
    ensures grows { GrowsTo seen.old seen.new }
{
    let mut words = Vec::new(alloc);
    for stripe in stripes {
        let row = stripe_row(alloc, stripe, seen)?;
        push_row(&mut words, &row)?;
    }
    Ok(words)
}

/// The row of a stripe. An `Err` says that an allocation failed.
fn stripe_row(alloc: Global, stripe: &Stripe, seen: &mut Seen) -> Result<Vec<u64>, AllocError>
    requires { stripe.now.ended ≡ [] }
    ensures row { IfOk result (λ row. IsStripeRow seen.new (essence_of stripe.now) row.items) }
    ensures grows { GrowsTo seen.old seen.new }
{
    let config = seen.configs.number_of(stripe.config())?;
    let entries = entry_numbers(alloc, stripe, &mut seen.entries)?;
    let reservations = numbers_of(alloc, &mut seen.reservations, stripe.reservations())?;
    let joiners = numbers_of(alloc, &mut seen.joiners, stripe.joiners())?;
    let answers = answer_numbers(alloc, stripe, &mut seen.answers)?;
    let marks = numbers_of(alloc, &mut seen.marks, stripe.marks())?;
    let scalars = [
        config,
        stripe.number() as u64,
        origin_word(stripe.origin()),
        bit(stripe.lives()),
        bit(stripe.is_shut()),
        stripe.events_len() as u64,
        stripe.next_number(),
    ];
    let mut row = five_rows(alloc, &entries, &reservations, &joiners, &answers, &scalars)?;
    push_row(&mut row, &marks)?;
    Ok(row)
}

/// The numbers of a stripe's entries, the most recently used first.
fn entry_numbers(
    alloc: Global,
    stripe: &Stripe,
    table: &mut Table<(Key, Value)>,
) -> Result<Vec<u64>, AllocError>
    ensures numbers { IfOk result (λ numbers.
        AreNumbers table.new (by_use stripe.now.opening stripe.now.history) numbers.items) }
    ensures cache { from_entries (by_use stripe.now.opening stripe.now.history) ≡ stripe.now.cache }
    ensures grows { Continues table.old table.new }
{
    let mut entries = Vec::new(alloc);
    stripe.entries(&mut entries)?;
    let numbers = numbers_of(alloc, table, &entries)?;
    Ok(numbers)
}

/// The numbers of the answers to a stripe's joiners.
fn answer_numbers(
    alloc: Global,
    stripe: &Stripe,
    table: &mut Table<Option<Event>>,
) -> Result<Vec<u64>, AllocError>
    ensures numbers { IfOk result (λ numbers. AreNumbers table.new
        (map (λ j. answer_in stripe.now.history j.state) stripe.now.joiners) numbers.items) }
    ensures grows { Continues table.old table.new }
{
    let answers = answers_of(alloc, stripe)?;
    let numbers = numbers_of(alloc, table, &answers)?;
    Ok(numbers)
}

/// The answers to a stripe's joiners.
fn answers_of(alloc: Global, stripe: &Stripe) -> Result<Vec<Option<Event>>, AllocError>
    ensures { IfOk result (λ answers. answers.items
        ≡ map (λ j. answer_in stripe.now.history j.state) stripe.now.joiners) }
{
    let joiners = stripe.joiners();
    let mut answers = Vec::new(alloc);
    for joiner in joiners {
        push_answer(stripe, joiner, &mut answers)?;
    }
    Ok(answers)
}

/// Appends the answer to a joiner, or none.
fn push_answer(
    stripe: &Stripe,
    joiner: &Joiner,
    answers: &mut Vec<Option<Event>>,
) -> Result<(), AllocError>
    ensures { OnOk result (answers.new.items
        ≡ answers.old.items ++ answer_in stripe.now.history joiner.now.state ∷ []) }
{
    let _types: Option<
        &(
            Op,
            Out,
            LoadAnswer,
            WriteAnswer,
            ProcessAnswer,
            Effect,
            Reply,
            Caller,
            Key,
            Value,
            Refusal,
            Cause,
        ),
    > = None;
    answers.push(answer_in(stripe, joiner))?;
    Ok(())
}

/// The event that answers a joiner, if it is answered.
fn answer_in(stripe: &Stripe, joiner: &Joiner) -> Option<Event>
    ensures { result ≡ answer_in stripe.now.history joiner.now.state }
{
    match joiner.state {
        JoinState::Answered {
            place,
            shared_with: _,
        } => event_at(stripe, place as usize),
        JoinState::Waiting | JoinState::Again => None,
    }
}

/// The event at a place of the history, if there is one.
fn event_at(stripe: &Stripe, place: usize) -> Option<Event>
    ensures { result ≡ slice_get stripe.now.history place }
{
    if place < stripe.events_len() {
        Some(stripe.event(place))
    } else {
        None
    }
}

/// A number for the origin of a stripe's outside answers.
fn origin_word(origin: Origin) -> u64
    ensures { result ≡ origin_word origin }
{
    match origin {
        Origin::Live => 0,
        Origin::Played => 1,
    }
}

/// A number for a flag.
pub(crate) fn bit(flag: bool) -> u64
    ensures { result ≡ bit flag }
{
    if flag { 1 } else { 0 }
}
