//! The invalidation of a key: no call that begins later is answered from what was cached or reserved of it before.
//!
//! Why it is so:
//! - It is an eviction with a cause of its own, and no step, because it is nobody's call: it needs no session and no number, and no
//!   other session's steps change by it.
//! - The entry of a reserved key stays until its reservation is over, because the operation table judges the step by the entry that
//!   the call has found. So the key is marked, and its entry evicted then, in a place that was reserved for the step.
//! - If no place is free, the stripe is shut: it forgets everything that isn't reserved, as places come free. A list of the keys
//!   would take memory.
ghost use Rattle.std.specs.Prelude.{◌≡◌, ◌++◌, [], ◌∷◌, true, false, length, map, Some, is_some, nat_lt, if◌then◌else◌};
ghost use Rattle.std.specs.Bool.{OnTrue, OnFalse};
ghost use Rattle.jc_types.specs.declared.limits.TheConstants.{RESERVATIONS_MAX};
ghost use Rattle.jc_model.specs.Cache.{entry_at};
ghost use Rattle.jc_model.specs.declared.event.Cause.TheVariants.{Invalidated};
ghost use Rattle.jc_stripe.specs.State.{is_reserved, is_marked, is_barred, with_mark};
ghost use Rattle.jc_stripe.specs.Invalidating.{has_place, without_entry, is_dropped, end_with, drop_or_shut, Invalidates, InvalidatesAll, Sweeps};
ghost use Rattle.jc_stripe.specs.OrderOfUse.{least_used};

use super::Stripe;
use crate::begun::{Appended, Eviction};
use jc_model::statistics::statistics_laws;
use jc_model::{Cause, Event};
use jc_types::{HIT_PLACES, Key};

impl Stripe {
    /// Invalidates a key: no call that begins later is answered from what is cached or reserved of it now.
    ///
    /// - If it is reserved, it is marked, and each call that begins at it is `Busy` until the reservation is over; its entry is
    ///   evicted then. Calls that have joined its load are answered.
    /// - Otherwise its entry is evicted now, if it has one.
    /// - If no place of the history is free for that, the stripe is shut: no call begins until [`sweep`](Stripe::sweep) has evicted
    ///   all entries that aren't reserved.
    ///
    /// It is never refused, asks nobody, and takes no memory.
    pub fn invalidate(&mut self, key: &Key)
        ensures { Invalidates self.old key.now self.new }
    {
        if self.is_reserved(key) {
            self.mark(key);
        } else if self.has_entry(key) {
            self.drop_or_shut(key);
        }
    }

    /// Invalidates all keys: the reserved ones are marked, and the stripe is shut until [`sweep`](Stripe::sweep) has evicted all
    /// others.
    ///
    /// It is never refused, asks nobody, and takes no memory.
    pub fn invalidate_all(&mut self)
        ensures { InvalidatesAll self.old self.new }
    {
        self.mark_all();
        self.set_shut(true);
    }

    /// Evicts an entry of a stripe that is shut, the least recently used one that isn't reserved, if a place of the history is
    /// free. If there is none left, calls may begin again.
    pub fn sweep(&mut self)
        ensures { Sweeps self.old self.new }
    {
        if !self.is_shut() {
            return;
        }
        // For its contract: the stripe is reached.
        let _ = self.events_len();
        match self.least_used() {
            Some(key) => self.drop_if_place(&key),
            None => self.set_shut(false),
        }
    }

    /// Whether no call begins here until all entries that aren't reserved are evicted.
    pub fn is_shut(&self) -> bool
        ensures { result ≡ self.now.shut }
    {
        self.is_shut
    }

    /// Whether a place of the history is free for the eviction of an invalidated key.
    pub fn has_place(&self) -> bool
        ensures { result ≡ has_place self.now }
    {
        self.history.has_room(HIT_PLACES)
    }

    /// Whether no call begins at a key: it is marked, or the stripe is shut.
    #[inline(always)]
    pub(super) fn is_barred(&self, key: &Key) -> bool
        ensures { result ≡ is_barred self.now key.now }
    {
        self.is_shut || self.marks.contains(key)
    }

    /// Whether a key is reserved and was invalidated since.
    pub fn is_marked(&self, key: &Key) -> bool
        ensures { result ≡ is_marked self.now key.now }
    {
        self.marks.contains(key)
    }

    /// Evicts the entry of a key whose reservation is over by this step, if the key was marked and has one. The step tells it.
    #[inline(always)]
    pub(super) fn settle(&mut self, is_marked: bool, key: &Key, step: Appended) -> Appended
        requires free { is_reserved self.old key.now ≡ false }
        requires place { is_some (entry_at self.old.cache key.now) ≡ true → has_place self.old ≡ true }
        ensures told { result ≡ (if is_dropped is_marked self.old key.now then record step { evicted = Some (record { cause = Invalidated; place = length self.old.history }) } else step) }
        ensures left { self.new ≡ end_with is_marked self.old key.now }
    {
        if !is_marked {
            return step;
        }
        self.drop_after(key, step)
    }

    /// Evicts a key's entry, if it has one. The step tells it.
    #[inline(never)]
    fn drop_after(&mut self, key: &Key, step: Appended) -> Appended
        requires free { is_reserved self.old key.now ≡ false }
        requires place { is_some (entry_at self.old.cache key.now) ≡ true → has_place self.old ≡ true }
        ensures told { result ≡ (if is_some (entry_at self.old.cache key.now) then record step { evicted = Some (record { cause = Invalidated; place = length self.old.history }) } else step) }
        ensures left { self.new ≡ end_with true self.old key.now }
    {
        if !self.has_entry(key) {
            return step;
        }
        let place = self.events_len() as u32;
        self.drop_entry(key);
        Appended {
            evicted: Some(Eviction {
                cause: Cause::Invalidated,
                place,
            }),
            ..step
        }
    }

    /// Evicts the entry of a key whose reservation was given back, if the key was marked and has one.
    #[inline(never)]
    pub(super) fn settle_given(&mut self, is_marked: bool, key: &Key)
        requires free { is_reserved self.old key.now ≡ false }
        requires place { is_some (entry_at self.old.cache key.now) ≡ true → has_place self.old ≡ true }
        ensures { self.new ≡ end_with is_marked self.old key.now }
    {
        if is_marked && self.has_entry(key) {
            self.drop_entry(key);
        }
    }

    /// Marks a key.
    fn mark(&mut self, key: &Key)
        requires { is_reserved self.old key.now ≡ true }
        ensures { self.new ≡ with_mark self.old key.now }
    {
        if !self.is_marked(key) && !self.add_mark(key) {
            self.mark_all();
        }
    }

    /// Evicts a key's entry, or shuts the stripe.
    fn drop_or_shut(&mut self, key: &Key)
        requires free { is_reserved self.old key.now ≡ false }
        requires there { is_some (entry_at self.old.cache key.now) ≡ true }
        ensures { self.new ≡ drop_or_shut self.old key.now }
    {
        if self.has_place() {
            self.drop_entry(key);
        } else {
            self.set_shut(true);
        }
    }

    /// Evicts a key's entry, if there is a place for it.
    fn drop_if_place(&mut self, key: &Key)
        requires free { is_reserved self.old key.now ≡ false }
        requires there { is_some (entry_at self.old.cache key.now) ≡ true }
        ensures { self.new ≡ (if has_place self.old then without_entry self.old key.now else self.old) }
    {
        if self.has_place() {
            self.drop_entry(key);
        }
    }

    /// Whether a key is reserved.
    fn is_reserved(&self, key: &Key) -> bool
        ensures { result ≡ is_reserved self.now key.now }
    {
        self.load_at(key).0
    }

    /// Whether a key has an entry.
    fn has_entry(&self, key: &Key) -> bool
        ensures { result ≡ is_some (entry_at self.now.cache key.now) }
    {
        self.entry(key).is_some()
    }

    /// The least recently used key that isn't reserved.
    pub(crate) fn least_used(&self) -> Option<Key>
        ensures { result ≡ least_used self.now }
    {
        self.entries.lru_victim(self.reservations.keys())
    }

    /// Marks one more key, and returns whether there was room.
    fn add_mark(&mut self, key: &Key) -> bool
        requires { is_reserved self.old key.now ≡ true }
        ensures room { result ≡ nat_lt (length self.old.marked) RESERVATIONS_MAX }
        ensures added { OnTrue result (self.new ≡ record self.old { marked = self.old.marked ++ key.now ∷ [] }) }
        ensures full { OnFalse result (self.new ≡ self.old) }
    {
        self.marks.add(key)
    }

    /// Marks each reserved key. It stands for one mark more where there is no room, which never happens: there is room for as many
    /// marks as reservations, and only reserved keys are marked.
    fn mark_all(&mut self)
        ensures { self.new ≡ record self.old { marked = map (λ r. r.key) self.old.reservations } }
    {
        self.marks.set(self.reservations.keys());
    }

    /// Shuts the stripe, or lets calls begin again.
    fn set_shut(&mut self, shut: bool)
        ensures { self.new ≡ record self.old { shut = shut } }
    {
        self.is_shut = shut;
    }

    /// Evicts a key's entry.
    #[inline(never)]
    fn drop_entry(&mut self, key: &Key)
        requires free { is_reserved self.old key.now ≡ false }
        requires there { is_some (entry_at self.old.cache key.now) ≡ true }
        requires place { has_place self.old ≡ true }
        ensures { self.new ≡ without_entry self.old key.now }
    {
        statistics_laws();
        let cause = Cause::Invalidated;
        let _ = self.entries.remove(key);
        let _ = self.history.promise(HIT_PLACES);
        self.history.push(&Event::Evict { key: *key, cause }, true);
    }
}
