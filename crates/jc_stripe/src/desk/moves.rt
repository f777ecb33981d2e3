//! The values that came into a stripe with a step, and those that left it.
ghost use Rattle.std.specs.Prelude.{◌≡◌, None, Some, is_some, option_map, if◌then◌else◌};
ghost use Rattle.std.specs.Option.{option_copied};
ghost use Rattle.std.specs.Map.Iter.{deref_pair};
ghost use Rattle.jc_model.specs.Cache.{entry_at};
ghost use Rattle.jc_stripe.specs.State.{IsOut};
ghost use Rattle.jc_stripe.specs.OrderOfUse.{next_victim};
ghost use Rattle.jc_stripe.specs.Appending.{AnswersFirst};
ghost use Rattle.jc_stripe.specs.OnePhase.{IsPhaseOf};
ghost use Rattle.jc_stripe.specs.Phases.{MayBegin, Begins, begun_with, with_reply};
ghost use Rattle.jc_stripe.specs.Invalidating.{Ends, GivesBack, Invalidates, Sweeps};
ghost use Rattle.jc_stripe.specs.ValuesMoved.{holds_value, is_new_value, value_lost, victim_entry, nothing_moved, MovesValues, HasMovesIfDone};
ghost use Rattle.jc_stripe.specs.ValuesMoved.{value_dropped, moves_of_drop, DropsValue, swept_key, SweepsValue};

use crate::begun::{Appended, Started};
use crate::stripe::Stripe;
use crate::stripe::beginning::appended_alone;
use crate::ticket::{Reservation, Ticket};
use jc_model::{Cause, Op, Out, Reply};
use jc_types::{Caller, Key, Value};
use std::marker::Model;

/// The values that came into a stripe with a step, and those that left it. From them a driver that keeps objects beside the
/// stripe, for which the values stand, knows which to keep and which to free.
///
/// It can be used for many calls: only the bytes that count are copied.
#[derive(Drop)]
pub struct ValueMoves {
    is_kept: bool,
    has_left: bool,
    before: Option<Value>,
    victim: Option<Key>,
    evicted: Value,
    own: Option<Cause>,
}

impl Model for ValueMoves {
    ghost use Rattle.std.specs.Prelude.{Some, None, option_map, if◌then◌else◌};
    ghost use Rattle.jc_stripe.specs.ValuesMoved.{MovesMade};

    ghost Value = { MovesMade };

    ghost view = { λ m. record {
      kept = m.is_kept;
      left = if m.has_left then m.before else None;
      victim = option_map (λ key. (key, m.evicted)) m.victim;
      own = m.own;
    } };
}

/// Whether an entry has this value.
fn holds_value(entry: &Option<Value>, value: &Value) -> bool
    ensures { result ≡ holds_value entry.now value.now }
{
    match entry {
        Some(held) => *held == *value,
        None => false,
    }
}

/// The cause for which a step's own key was evicted after it, if it was.
fn eviction_cause(step: &Appended) -> Option<Cause>
    ensures { result ≡ option_map (λ e. e.cause) step.now.evicted }
{
    match &step.evicted {
        Some(eviction) => Some(eviction.cause),
        None => None,
    }
}

/// Writes the key that would be evicted if a key with this entry got a new value, and the victim's value.
fn note_victim(
    stripe: &Stripe,
    entry: &Option<Value>,
    victim: &mut Option<Key>,
    evicted: &mut Value,
)
    ensures { option_map (λ key. (key, evicted.new)) victim.new ≡ (if is_some entry.now then None else victim_entry stripe.now (next_victim stripe.now)) }
{
    *victim = None;
    if entry.is_some() {
        return;
    }
    note_entry_of(stripe, stripe.next_victim(), victim, evicted);
}

/// Writes a key, if there is one and it has an entry, and its value.
fn note_entry_of(stripe: &Stripe, key: Option<Key>, victim: &mut Option<Key>, evicted: &mut Value)
    ensures { option_map (λ key. (key, evicted.new)) victim.new ≡ victim_entry stripe.now key }
{
    *victim = None;
    if let Some(key) = key {
        if let Some(value) = stripe.entry(&key) {
            *victim = Some(key);
            evicted.copy_from(value);
        }
    }
}

/// The key whose entry a sweep would evict.
fn swept_key(stripe: &Stripe) -> Option<Key>
    ensures { result ≡ swept_key stripe.now }
{
    if stripe.is_shut() && stripe.has_place() {
        stripe.least_used()
    } else {
        None
    }
}

impl ValueMoves {
    /// Nothing came, and nothing left.
    pub fn new() -> ValueMoves
        ensures { result ≡ nothing_moved }
    {
        ValueMoves {
            is_kept: false,
            has_left: false,
            before: None,
            victim: None,
            evicted: Value::default(),
            own: None,
        }
    }

    /// Whether the key's entry has a value now that it didn't have before.
    pub fn is_kept(&self) -> bool
        ensures { result ≡ self.now.kept }
    {
        self.is_kept
    }

    /// The value that the key's entry had before, and doesn't have now.
    pub fn left(&self) -> Option<&Value>
        ensures { option_copied result ≡ self.now.left }
    {
        if self.has_left {
            self.before.as_ref()
        } else {
            None
        }
    }

    /// The key whose entry was evicted for the step, and the value that it had.
    pub fn victim(&self) -> Option<(&Key, &Value)>
        ensures { option_map deref_pair result ≡ self.now.victim }
    {
        match &self.victim {
            Some(key) => Some((key, &self.evicted)),
            None => None,
        }
    }

    /// The cause for which the step's own key was evicted after it, if it was.
    pub fn own(&self) -> Option<Cause>
        ensures { result ≡ self.now.own }
    {
        self.own
    }

    /// A first phase at a stripe. If the call is done, it notes the values that came and went.
    #[inline(always)]
    pub(super) fn note_begin(
        &mut self,
        stripe: &mut Stripe,
        caller: Caller,
        key: &Key,
        op: &Op,
        reply: &mut Reply,
    ) -> Started
        requires begins { MayBegin stripe.old caller key.now }
        ensures begins { Begins stripe.old caller key.now op.now (begun_with result reply.new) stripe.new }
        ensures moves { HasMovesIfDone stripe.old key.now result self.new stripe.new }
        ensures phase { IsPhaseOf caller.session stripe.old stripe.new }
    {
        if let Some(place) = stripe.hit_or_entry(caller, key, op, &mut self.before, reply) {
            self.clear();
            return Started::Done(appended_alone(place));
        }
        self.has_left = true;
        note_victim(stripe, &self.before, &mut self.victim, &mut self.evicted);
        let started = stripe.begin_on(caller, key, op, &self.before, reply);
        if let Started::Done(step) = &started {
            self.note_after(stripe, key, step);
        }
        started
    }

    /// A last phase at a stripe, of the reservation in this box: it notes the values that came and went.
    #[inline(always)]
    pub(super) fn note_commit(
        &mut self,
        stripe: &mut Stripe,
        reservation: Box<Reservation>,
        out: &Out,
        reply: &mut Reply,
    ) -> Appended
        requires out { IsOut stripe.old reservation.value }
        requires answers { AnswersFirst stripe.old.config reservation.value.first out.now }
        ensures ends { Ends stripe.old reservation.value out.now (with_reply result reply.new) stripe.new }
        ensures moves { MovesValues stripe.old reservation.value.key result.victim result.evicted self.new stripe.new }
    {
        let _ = stripe.events_len();
        let key = reservation.key;
        stripe.entry_into(&key, &mut self.before);
        self.has_left = true;
        note_victim(stripe, &self.before, &mut self.victim, &mut self.evicted);
        let step = stripe.commit_on(reservation, out, &self.before, reply);
        self.note_after(stripe, &key, &step);
        step
    }

    /// A withdrawal at a stripe, of the reservation in this box: it notes the value of its entry, if that was evicted, since the key
    /// was invalidated.
    pub(super) fn note_withdrawal(&mut self, stripe: &mut Stripe, reservation: Box<Reservation>)
        requires out { IsOut stripe.old reservation.value }
        ensures gives_back { GivesBack stripe.old reservation.value stripe.new }
        ensures moves { DropsValue stripe.old reservation.value.key self.new stripe.new }
    {
        let key = reservation.key;
        self.note_before(stripe, &key);
        stripe.withdraw(Ticket::new(reservation));
        self.note_drop(stripe.entry(&key));
    }

    /// An invalidation of a key at a stripe: it notes the value of its entry, if that was evicted.
    pub(super) fn note_invalidation(&mut self, stripe: &mut Stripe, key: &Key)
        ensures invalidates { Invalidates stripe.old key.now stripe.new }
        ensures moves { DropsValue stripe.old key.now self.new stripe.new }
    {
        self.note_before(stripe, key);
        stripe.invalidate(key);
        self.note_drop(stripe.entry(key));
    }

    /// A sweep at a stripe: it notes the entry that was evicted, and returns whether one was.
    pub(super) fn note_sweep(&mut self, stripe: &mut Stripe) -> bool
        ensures sweeps { Sweeps stripe.old stripe.new }
        ensures evicted { result ≡ is_some (swept_key stripe.old) }
        ensures moves { SweepsValue stripe.old self.new stripe.new }
    {
        let key = swept_key(stripe);
        self.clear();
        note_entry_of(stripe, key, &mut self.victim, &mut self.evicted);
        stripe.sweep();
        key.is_some()
    }

    /// Notes the value of a key's entry.
    fn note_before(&mut self, stripe: &Stripe, key: &Key)
        ensures { self.new.left ≡ entry_at stripe.now.cache key.now }
    {
        stripe.entry_into(key, &mut self.before);
        self.has_left = true;
    }

    /// Notes that the entry whose value was noted is gone, if there is none.
    fn note_drop(&mut self, entry: Option<&Value>)
        ensures { self.new ≡ moves_of_drop (value_dropped self.old.left (option_copied entry.entry)) }
    {
        self.is_kept = false;
        self.victim = None;
        self.has_left = self.has_left && self.before.is_some() && entry.is_none();
        self.own = if self.has_left {
            Some(Cause::Invalidated)
        } else {
            None
        };
    }

    /// Notes that nothing came, and nothing left.
    #[inline(always)]
    fn clear(&mut self)
        ensures { self.new ≡ nothing_moved }
    {
        self.is_kept = false;
        self.has_left = false;
        self.victim = None;
        self.own = None;
    }

    /// Notes the values that came and went with this step.
    fn note_after(&mut self, stripe: &Stripe, key: &Key, step: &Appended)
        ensures kept { self.new.kept ≡ is_new_value self.old.left (entry_at stripe.now.cache key.now) }
        ensures left { self.new.left ≡ value_lost self.old.left (entry_at stripe.now.cache key.now) }
        ensures victim { self.new.victim ≡ (if is_some step.now.victim then self.old.victim else None) }
        ensures own { self.new.own ≡ option_map (λ e. e.cause) step.now.evicted }
    {
        self.note_entry(stripe.entry(key));
        self.own = eviction_cause(step);
        if step.victim.is_none() {
            self.victim = None;
        }
    }

    /// Notes the entry of the step's own key after it.
    #[inline(always)]
    fn note_entry(&mut self, entry: Option<&Value>)
        ensures { self.new ≡ record self.old {
          kept = is_new_value self.old.left (option_copied entry.entry);
          left = value_lost self.old.left (option_copied entry.entry);
        } }
    {
        match entry {
            Some(value) => {
                let stays = self.has_left && holds_value(&self.before, value);
                self.is_kept = !stays;
                self.has_left = self.has_left && !stays;
            }
            None => self.is_kept = false,
        }
    }
}
