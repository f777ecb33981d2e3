//! The stripes of a world, and the order of all that they append to their histories.
ghost use Rattle.std.specs.Prelude.{◌≡◌, ◌+◌, ◌-◌, ◌≤◌, ◌<◌, ◌++◌, [], Ok, true, None, Some, nat_lt, if◌then◌else◌, IsSomeAnd, IfOk, OnOk, length};
ghost use Rattle.std.specs.Prelude.{ℕ, replicate, vec_len, vec_capacity, slice_get, is_none};
ghost use Rattle.jc_types.specs.declared.limits.TheConstants.{STEP_PLACES, HIT_PLACES, JOINERS_MAX, STRIPES_MAX};
ghost use Rattle.jc_types.specs.Limits.{check};
ghost use Rattle.jc_stripe.specs.State.{IsOut, IsJoined, is_reserved};
ghost use Rattle.jc_stripe.specs.Phases.{MayBegin, begun_with, with_reply, PicksUp, polled_with};
ghost use Rattle.jc_stripe.specs.Invalidating.{Ends, GivesBack, Invalidates};
ghost use Rattle.jc_world.specs.Fits.{may_invalidate};
ghost use Rattle.jc_outside.specs.declared.done.Origin.TheVariants.{Played};
ghost use Rattle.jc_model.specs.Cache.{entry_at};
ghost use Rattle.jc_world.specs.Premises.{is_agreed};
ghost use Rattle.jc_world.specs.World.{entry_in, out_of_part, is_all_answered, is_unanswered, fresh_stripes};
ghost use Rattle.jc_world.specs.Sound.{IsDue};
ghost use Rattle.jc_stripe.specs.Reached.{IsReached};
ghost use Rattle.jc_world.specs.Ending.{AreLeft, HasHeld, HasJoins, NoneReserved};
ghost use Rattle.jc_world.specs.Events.{BeginsAs, step_of, eviction_place, invalidated_as};
ghost use Rattle.jc_world.specs.declared.event.Outcome.TheVariants as outcome;
ghost use Rattle.jc_world.specs.Held.{parts_of, joins_of};
ghost use Rattle.jc_world.specs.Turns.{IsPhase, IsQuietPhase, history_at, merge, AreTurns};

use crate::ending::{end_all, pick_all};
use crate::event::{EvictionPlace, Outcome, Stepped};
use crate::held::HeldKey;
use crate::held_keys::HeldKeys;
use crate::joined::Joins;
use jc_model::{Contents, Effect, Event, LoadAnswer, Op, Out, ProcessAnswer, Reply, WriteAnswer};
use jc_stripe::phase_laws::grows;
use jc_stripe::{Appended, Join, Origin, Picked, Started, Stripe};
use jc_types::{Caller, Config, HIT_PLACES, JOINERS_MAX, Key, STEP_PLACES, STRIPES_MAX, Value};
use std::alloc::{AllocError, Global};
use std::marker::Model;

/// The most events that one phase appends: a victim, a step, the steps that share its load, the eviction of its own key, and that of
/// a key that was invalidated.
const EVENTS_MAX: usize = STEP_PLACES + JOINERS_MAX + HIT_PLACES;

/// The stripes, and the order of all their events. An event is kept once, in the history of its stripe: the order has a turn for
/// it, which is the number of that stripe.
#[derive(Drop)]
pub(crate) struct Stripes {
    items: Vec<Stripe>,
    turns: Vec<u8>,
}

impl Model for Stripes {
    ghost use Rattle.std.specs.Coded.{codes};
    ghost use Rattle.std.specs.FinMap.{code};
    ghost use Rattle.jc_world.specs.Turns.{OrderedStripes, ordered_stripes, IsMergeable};

    ghost Value = { OrderedStripes };

    ghost coded = { Prim.hlevel (codes, code) };

    ghost view = { ordered_stripes };

    ghost invariant = { IsMergeable };
}

impl Stripes {
    /// An empty stripe for each number, and no event.
    pub(crate) fn new(alloc: Global, config: &Config) -> Result<Self, AllocError>
        requires { check config.now ≡ Ok tt }
        ensures stripes { IfOk result (λ made.
            made.stripes ≡ fresh_stripes config.now 0 config.now.stripes) }
        ensures order { IfOk result (λ made. made.order ≡ []) }
    {
        let items = make_stripes(alloc, config)?;
        Ok(Stripes::of(alloc, items))
    }

    /// These stripes, in which nothing has happened yet.
    pub(crate) fn of(alloc: Global, items: Vec<Stripe>) -> Self
        requires count { length items.items ≤ STRIPES_MAX }
        requires empty { (number : ℕ) → history_at items.items number ≡ [] }
        ensures stripes { result.stripes ≡ items.items }
        ensures order { result.order ≡ [] }
    {
        Stripes {
            items,
            turns: Vec::new(alloc),
        }
    }

    /// Ends what is out in the stripes, and makes each as `new` makes it. No key is held and no call has joined then.
    pub(crate) fn restart(&mut self, config: &Config, held: &mut HeldKeys, joins: &mut Joins)
        requires left { AreLeft config.now self.old.stripes }
        requires held { HasHeld config.now self.old.stripes (parts_of held.old) }
        requires joins { HasJoins config.now self.old.stripes (joins_of joins.old) }
        ensures stripes { self.new.stripes ≡ fresh_stripes config.now 0 config.now.stripes }
        ensures order { self.new.order ≡ [] }
        ensures held { held.new.entries ≡ [] }
        ensures joins { joins.new.entries ≡ [] }
    {
        end_all(config, &mut self.items, held, joins);
        pick_all(config, &mut self.items, joins);
        restart_each(config, &mut self.items);
        self.turns.clear();
    }

    /// Takes room for what one phase may append, before its first change.
    pub(crate) fn reserve(&mut self) -> Result<(), AllocError>
        ensures same { self.new ≡ record self.old { room = self.new.room } }
        ensures room { OnOk result (STEP_PLACES + JOINERS_MAX + HIT_PLACES ≤ self.new.room) }
    {
        self.turns.try_reserve(EVENTS_MAX)
    }

    /// Whether a stripe caches nothing for a key.
    pub(crate) fn is_missing(&self, number: usize, key: &Key) -> bool
        ensures { result ≡ is_none (entry_in (slice_get self.now.stripes number) key.now) }
    {
        match self.items.get(number) {
            Some(stripe) => stripe.entry(key).is_none(),
            None => true,
        }
    }

    /// Whether what a stripe caches for a key is what the store holds, or nothing is cached.
    pub(crate) fn is_agreed(&self, number: usize, key: &Key, store: &Contents) -> bool
        ensures { result ≡ is_agreed (entry_in (slice_get self.now.stripes number) key.now) (entry_at store.now key.now) }
    {
        match self.items.get(number) {
            Some(stripe) => agrees(stripe, key, store),
            None => true,
        }
    }

    /// The first phase of an operation at a key, on the stripe of that key. What it appends is at the end of the order, too. If the call
    /// is done, what it replies is written to `reply`.
    pub(crate) fn begin(
        &mut self,
        number: usize,
        caller: &Caller,
        key: &Key,
        op: &Op,
        reply: &mut Reply,
    ) -> Started
        requires begins { IsSomeAnd (slice_get self.old.stripes number)
            (λ s. MayBegin s caller.now key.now) }
        requires room { STEP_PLACES + JOINERS_MAX + HIT_PLACES ≤ self.old.room }
        ensures { IsPhase self.old number (BeginsAs caller.now key.now op.now (begun_with result reply.new)) self.new }
    {
        grows();
        let stripe = &mut self.items[number];
        let before = history_len(stripe);
        let started = stripe.begin(*caller, key, op, reply);
        give_turns(&mut self.turns, number, stripe, before);
        started
    }

    /// The last phase of a key on its stripe. What it appends is at the end of the order, too. What the step replies is written to
    /// `reply`.
    pub(crate) fn commit(&mut self, number: usize, held: HeldKey, reply: &mut Reply) -> Appended
        requires out { IsSomeAnd (slice_get self.old.stripes number) (λ s. IsOut s held.reservation
            × (s.origin ≡ Played) × IsDue s.config held) }
        requires answered { is_all_answered held ≡ true }
        requires room { STEP_PLACES + JOINERS_MAX + HIT_PLACES ≤ self.old.room }
        ensures { IsPhase self.old number
            (λ from to. Ends from held.reservation (out_of_part held) (with_reply result reply.new) to) self.new }
    {
        grows();
        let stripe = &mut self.items[number];
        let before = history_len(stripe);
        let step = held.commit(stripe, reply);
        give_turns(&mut self.turns, number, stripe, before);
        step
    }

    /// Gives a key's reservation back. If the key was invalidated, the eviction of its entry is at the end of the order, too, and is
    /// returned.
    pub(crate) fn withdraw(&mut self, number: usize, held: HeldKey) -> Option<EvictionPlace>
        requires out { IsSomeAnd (slice_get self.old.stripes number) (λ s. IsOut s held.reservation) }
        requires open { is_unanswered held.progress.out ≡ true }
        requires room { STEP_PLACES + JOINERS_MAX + HIT_PLACES ≤ self.old.room }
        ensures { IsPhase self.old number
            (λ from to. GivesBack from held.reservation to × (result ≡ eviction_place number from to)) self.new }
    {
        grows();
        let stripe = &mut self.items[number];
        let before = history_len(stripe);
        held.withdraw(stripe);
        give_turns(&mut self.turns, number, stripe, before);
        eviction_since(number, before, stripe)
    }

    /// Invalidates a key at its stripe, and returns what that shows. If its entry is evicted, that is at the end of the order, too.
    pub(crate) fn invalidate(&mut self, number: usize, key: &Key) -> Outcome
        requires fits { may_invalidate (slice_get self.old.stripes number) key.now ≡ true }
        requires room { STEP_PLACES + JOINERS_MAX + HIT_PLACES ≤ self.old.room }
        ensures { IsPhase self.old number
            (λ from to. Invalidates from key.now to × (result ≡ invalidated_as number key.now from to)) self.new }
    {
        let stripe = &mut self.items[number];
        let before = history_len(stripe);
        let reserved = is_reserved(stripe, key);
        stripe.invalidate(key);
        give_turns(&mut self.turns, number, stripe, before);
        invalidated_as(reserved, eviction_since(number, before, stripe))
    }

    /// Whether a key may be invalidated at its stripe.
    pub(crate) fn may_invalidate(&self, number: usize, key: &Key) -> bool
        ensures { result ≡ may_invalidate (slice_get self.now.stripes number) key.now }
    {
        match self.items.get(number) {
            Some(stripe) => may_invalidate_at(stripe, key),
            None => false,
        }
    }

    /// Asks for the answer of the load that a call has joined, and writes it to `reply`.
    pub(crate) fn pick_up(&mut self, number: usize, join: Join, reply: &mut Reply) -> Picked
        requires { IsSomeAnd (slice_get self.old.stripes number) (λ s. IsJoined s join) }
        ensures { IsQuietPhase self.old number (λ from to. PicksUp from join (polled_with result reply.new) to) self.new }
    {
        let stripe = &mut self.items[number];
        stripe.pick_up(join, reply)
    }

    /// How many events there are.
    pub(crate) fn events_len(&self) -> usize
        ensures { result ≡ length self.now.order }
    {
        self.turns.len()
    }

    /// All events in their order.
    pub(crate) fn order(&self, alloc: Global) -> Result<Vec<Event>, AllocError>
        ensures { IfOk result (λ order. order.items ≡ self.now.order) }
    {
        merge(alloc, &self.items, &self.turns)
    }

    /// The stripes.
    pub(crate) fn items(&self) -> &[Stripe]
        ensures { result.now ≡ self.now.stripes }
    {
        &self.items
    }

    /// The stripes, to be ended.
    pub(crate) fn into_items(self) -> Vec<Stripe>
        ensures { result.items ≡ self.stripes }
    {
        let Stripes { items, turns: _ } = self;
        items
    }
}

/// An empty stripe for each number.
fn make_stripes(alloc: Global, config: &Config) -> Result<Vec<Stripe>, AllocError>
    requires { check config.now ≡ Ok tt }
    ensures { IfOk result (λ made. made.items ≡ fresh_stripes config.now 0 config.now.stripes) }
{
    let mut made = Vec::with_capacity(alloc, config.stripes)?;
    for number in 0..config.stripes {
        made.push(Stripe::new(alloc, config, number, Origin::Played)?)?;
    }
    Ok(made)
}

/// Makes each stripe as it was made, once no key is reserved.
fn restart_each(config: &Config, stripes: &mut [Stripe])
    requires left { AreLeft config.now stripes.old }
    requires none { NoneReserved stripes.old }
    ensures { stripes.new ≡ fresh_stripes config.now 0 config.now.stripes }
{
    for stripe in stripes.iter_mut() {
        stripe.restart();
    }
}

/// How many events a stripe's history has.
fn history_len(stripe: &Stripe) -> usize
    ensures len { result ≡ length stripe.now.history }
    ensures reached { IsReached stripe.now }
{
    stripe.events_len()
}

/// Gives a stripe a turn for each event that its history has from a place on. There is room for them.
fn give_turns(turns: &mut Vec<u8>, number: usize, stripe: &Stripe, from: usize)
    requires number { number < STRIPES_MAX }
    requires place { from ≤ length stripe.now.history }
    requires room { vec_len turns.old + (length stripe.now.history - from) ≤ vec_capacity turns.old }
    ensures { turns.new.items ≡ turns.old.items ++ replicate (length stripe.now.history - from) number }
{
    for place in from..history_len(stripe) {
        turns.push_reserved(number as u8);
    }
}

/// The merge of the stripes' histories by turns.
fn merge(alloc: Global, stripes: &[Stripe], turns: &[u8]) -> Result<Vec<Event>, AllocError>
    requires turns { AreTurns stripes.now turns.now }
    requires count { length stripes.now ≤ STRIPES_MAX }
    ensures { IfOk result (λ order. order.items ≡ merge (history_at stripes.now) turns.now) }
{
    // Names the types that the prover looks for: see docs/CONTRIBUTING.md, "Idioms that the prover asks for".
    let _types: Option<
        (
            Op,
            Out,
            LoadAnswer,
            WriteAnswer,
            ProcessAnswer,
            Effect,
            Reply,
            Value,
        ),
    > = None;
    let mut order = Vec::with_capacity(alloc, turns.len())?;
    let mut taken = [0usize; STRIPES_MAX];
    for turn in turns {
        let number = *turn as usize;
        let place = taken[number];
        order.push_reserved(stripes[number].event(place));
        taken[number] = place + 1;
    }
    Ok(order)
}

/// The eviction of an invalidated key, if a stripe has one more event than before.
fn eviction_since(number: usize, before: usize, stripe: &Stripe) -> Option<EvictionPlace>
    ensures { result ≡ (if nat_lt before (length stripe.now.history)
        then Some (record { stripe = number; place = before }) else None) }
{
    if before < history_len(stripe) {
        Some(EvictionPlace {
            stripe: number,
            place: before,
        })
    } else {
        None
    }
}

/// What is shown of an invalidation.
fn invalidated_as(is_reserved: bool, evicted: Option<EvictionPlace>) -> Outcome
    ensures { result ≡ (if is_reserved then outcome.Marked else outcome.Invalidated evicted) }
{
    if is_reserved {
        Outcome::Marked
    } else {
        Outcome::Invalidated(evicted)
    }
}

/// Whether a stripe has reserved a key.
fn is_reserved(stripe: &Stripe, key: &Key) -> bool
    ensures { result ≡ is_reserved stripe.now key.now }
{
    stripe.reservations().iter().any(|r| *key == r.key)
}

/// Whether a key may be invalidated at this stripe.
fn may_invalidate_at(stripe: &Stripe, key: &Key) -> bool
    ensures { result ≡ may_invalidate (Some stripe.now) key.now }
{
    is_reserved(stripe, key) || stripe.entry(key).is_none() || stripe.has_place()
}

/// A stripe's step with this reply, as it is shown.
pub(crate) fn shown_of(number: usize, done: Appended, reply: &Reply) -> Stepped
    ensures step { step_of result ≡ with_reply done reply.now }
    ensures stripe { result.stripe ≡ number }
{
    Stepped {
        reply: *reply,
        stripe: number,
        place: done.place,
        victim: done.victim,
        evicted: done.evicted,
    }
}

/// Whether what a stripe caches for a key is what the store holds, or nothing is cached.
fn agrees(stripe: &Stripe, key: &Key, store: &Contents) -> bool
    ensures { result ≡ is_agreed (entry_at stripe.now.cache key.now) (entry_at store.now key.now) }
{
    match stripe.entry(key) {
        Some(value) => store.get(key).is_some_and(|held| *held == *value),
        None => true,
    }
}
