//! The entries of one stripe, in order of use (LRU), on the kit's `lru`.
//!
//! JSR 107 leaves eviction to the provider. Here the least recently used entry is evicted, unless its
//! key is pinned, as is the key of a call that is asking the loader or the writer.
ghost use Rattle.std.specs.Prelude.{◌≡◌, ◌+◌, ◌<◌, ◌≤◌, [], ◌∷◌, ◌++◌, length, true, not, is_some, option_map, IsOk, IfOk, OnOk};
ghost use Rattle.std.specs.Prelude.{OnErr, vec_len, vec_capacity};
ghost use Rattle.std.specs.Map.{keys_of};
ghost use Rattle.std.specs.Option.{option_copied};
ghost use Rattle.std.specs.FinMap as finite;
ghost use Rattle.jc_model.specs.Cache.{key_cmp};
ghost use Rattle.jc_model.specs.Listed.{others, has_distinct_keys};
ghost use Rattle.jc_model.specs.Apart.{keys_apart};
ghost use Rattle.jc_entries.specs.ByUse.{IsValidByUse, after_touch, lru_victim};
ghost use Rattle.jc_entries.specs.MostRecent.{most_recent};

use jc_model::Cause;
use jc_types::{CAPACITY_MAX, Key, Value};
use lru::LruCache;
use std::alloc::{AllocError, Global};
use std::marker::Model;
use std::num::NonZeroUsize;

/// The outcome of an insertion.
#[derive(Clone, Copy, Debug, PartialEq, Eq)]
pub enum Inserted {
    /// The entry is kept, as the most recently used, and no other was evicted.
    Kept,
    /// The entry is kept, as the most recently used, and the entry of this key was evicted for it.
    KeptAfter(Key),
    /// The entry isn't kept.
    ///
    /// - [`Cause::Full`]: there was no room, and each entry is pinned. No entry was evicted, and the entries are as they were.
    /// - [`Cause::Memory`]: the new entry has a new key, and an allocation for it failed. If there was no room, an entry was
    ///   evicted before that was known, and its key is beside the cause; otherwise no key is there. The other entries are as they
    ///   were, in their order. Nothing is promised about when an allocation fails.
    NotKept(Cause, Option<Key>),
}

/// The entries that one stripe caches: each key once, in order of use.
///
/// The number of entries that may be kept is chosen when this is made, from 1 to [`CAPACITY_MAX`]. A look-up, a use, an insertion
/// and a removal take as many steps in a full stripe as in one with a single entry. An insertion that evicts also passes over the
/// pinned entries at the least recently used end.
#[derive(Drop)]
pub struct Entries {
    cache: LruCache<Key, Value>,
}

impl Model for Entries {
    ghost use Rattle.jc_entries.specs.ByUse.{ByUse, IsValidByUse};

    ghost Value = { ByUse };

    ghost use Rattle.jc_entries.specs.EntriesInside.{by_use_of};

    ghost view = { by_use_of };

    ghost invariant = { λ e. IsValidByUse (by_use_of e) };
}

impl Entries {
    ghost use Rattle.jc_entries.specs.Inserting.{Inserts, has_room_for};

    /// No entry, with room for `capacity` of them, from 1 to [`CAPACITY_MAX`].
    ///
    /// The table in which keys are looked up is allocated here for `capacity` entries; an `Err` says
    /// that this failed. Each entry has a block of its own, which is allocated when its key is inserted
    /// and freed when it is removed or evicted.
    pub fn new(alloc: Global, capacity: usize) -> Result<Self, AllocError>
        requires least { 0 < capacity }
        requires most { capacity ≤ CAPACITY_MAX }
        ensures { IfOk result (λ e. e ≡ record { capacity = capacity; list = [] }) }
    {
        let capacity = NonZeroUsize::new(capacity).unwrap();
        let cache = LruCache::new(alloc, capacity)?;
        Ok(Entries { cache })
    }

    /// These entries, the first one the most recently used. An `Err` says that an allocation failed.
    ///
    /// Conditions: each key is there once; there are at most `capacity` entries; `capacity` is from 1 to [`CAPACITY_MAX`].
    pub fn of(alloc: Global, capacity: usize, contents: &[(Key, Value)]) -> Result<Self, AllocError>
        requires least { 0 < capacity }
        requires most { capacity ≤ CAPACITY_MAX }
        requires few { length contents.now ≤ capacity }
        requires once { has_distinct_keys contents.now ≡ true }
        ensures { IfOk result (λ e. e ≡ record { capacity = capacity; list = contents.now }) }
    {
        let mut entries = Entries::new(alloc, capacity)?;
        let mut left = contents.len();
        while left > 0 {
            left -= 1;
            let (key, value) = &contents[left];
            entries.put_first(key, value)?;
        }
        Ok(entries)
    }

    /// The key's value, or none. The order of use stays as it is.
    pub fn peek(&self, key: &Key) -> Option<Value>
        ensures { result ≡ finite.find key_cmp key.now self.now.list }
    {
        self.cache.peek(key).copied()
    }

    /// The key's value, or none, as a reference into the entries. The order of use stays as it is.
    #[inline(always)]
    pub fn peek_lent(&self, key: &Key) -> Option<&Value>
        ensures { option_copied result ≡ finite.find key_cmp key.now self.now.list }
    {
        self.cache.peek(key)
    }

    /// Writes the key's value, or none, to `value`: the value is copied once. The order of use stays as it is.
    #[inline(always)]
    pub fn peek_into(&self, key: &Key, value: &mut Option<Value>)
        ensures { value.new ≡ finite.find key_cmp key.now self.now.list }
    {
        match self.cache.peek(key) {
            Some(found) => *value = Some(*found),
            None => *value = None,
        }
    }

    /// Whether some key has an entry in both. Each key of these entries is looked up in the others; no order changes.
    pub fn shares_key(&self, other: &Entries) -> bool
        ensures { result ≡ not (keys_apart self.now.list other.now.list) }
    {
        for (key, _) in &self.cache {
            if other.peek(key).is_some() {
                return true;
            }
        }
        false
    }

    /// Makes the key's entry the most recently used, and returns whether the key has an entry. If it has none, nothing changes.
    /// It takes one look-up.
    pub fn touch(&mut self, key: &Key) -> bool
        ensures found { result ≡ is_some (finite.find key_cmp key.now self.old.list) }
        ensures after { self.new ≡ record self.old { list = after_touch key.now self.old.list } }
        ensures valid { IsValidByUse self.new }
    {
        self.cache.promote(key)
    }

    /// The value of the most recently used entry, or none if there is no entry.
    pub fn most_recent(&self) -> Option<&Value>
        ensures { option_map (λ v. v.now) result ≡ most_recent self.now.list }
    {
        match self.cache.peek_mru() {
            Some((_, value)) => Some(value),
            None => None,
        }
    }

    /// Gives the key this value, and makes its entry the most recently used.
    ///
    /// If the key has an entry already, its value is replaced and nothing is evicted, however full the stripe is. If the key is
    /// new and the stripe is full, the least recently used entry whose key isn't in `pinned` is evicted first; if all keys are in
    /// it, the new entry isn't kept. The order of `pinned` doesn't matter. The answer tells whether the entry is kept, which key
    /// was evicted, and what a failed allocation leaves: see [`Inserted`].
    pub fn insert(&mut self, key: &Key, value: &Value, pinned: &[Key]) -> Inserted
        ensures inserts { Inserts self.old self.new key.now value.now pinned.now result }
        ensures valid { IsValidByUse self.new }
    {
        if self.has_room_for(key) {
            return match self.put_first(key, value) {
                Ok(()) => Inserted::Kept,
                Err(_) => Inserted::NotKept(Cause::Memory, None),
            };
        }
        let Some(victim) = self.lru_victim(pinned) else {
            return Inserted::NotKept(Cause::Full, None);
        };
        self.remove(&victim);
        match self.put_first(key, value) {
            Ok(()) => Inserted::KeptAfter(victim),
            Err(_) => Inserted::NotKept(Cause::Memory, Some(victim)),
        }
    }

    /// Removes the key's entry, and returns its value, or none if there was no entry. The others stay in their order.
    pub fn remove(&mut self, key: &Key) -> Option<Value>
        ensures value { result ≡ finite.find key_cmp key.now self.old.list }
        ensures after { self.new ≡ record self.old { list = others key.now self.old.list } }
        ensures valid { IsValidByUse self.new }
    {
        self.cache.pop(key)
    }

    /// Removes all entries: the stripe's entries are then as [`new`](Entries::new) makes them. The table for look-ups keeps its
    /// memory.
    pub fn clear(&mut self)
        ensures { self.new ≡ record { capacity = self.old.capacity; list = [] } }
    {
        self.cache.clear();
    }

    /// Appends the keys to a vector that has room for them, the most recently used first.
    pub fn keys(&self, out: &mut Vec<Key>)
        requires { vec_len out.old + length self.now.list ≤ vec_capacity out.old }
        ensures items { out.new.items ≡ out.old.items ++ keys_of self.now.list }
        ensures capacity { vec_capacity out.new ≡ vec_capacity out.old }
    {
        for (key, _) in &self.cache {
            out.push_reserved(*key);
        }
    }

    /// Appends the entries, the most recently used first.
    ///
    /// An `Err` says that an allocation failed, and leaves `out` as it was. There is none if `out` has room for all of them.
    pub fn append_to(&self, out: &mut Vec<(Key, Value)>) -> Result<(), AllocError>
        ensures ok { OnOk result (out.new.items ≡ out.old.items ++ self.now.list) }
        ensures err { OnErr result (out.new.items ≡ out.old.items) }
        ensures capacity { OnErr result (vec_capacity out.new ≡ vec_capacity out.old) }
        ensures succeeds { vec_len out.old + length self.now.list ≤ vec_capacity out.old → IsOk result }
        ensures valid { IsValidByUse self.now }
    {
        out.try_reserve(self.len())?;
        for (key, value) in &self.cache {
            out.push_reserved((*key, *value));
        }
        Ok(())
    }

    /// The number of entries, at most [`capacity`](Entries::capacity).
    pub fn len(&self) -> usize
        ensures len { result ≡ length self.now.list }
        ensures valid { IsValidByUse self.now }
    {
        self.cache.len()
    }

    /// The most entries that may be kept, from 1 to [`CAPACITY_MAX`].
    pub fn capacity(&self) -> usize
        ensures capacity { result ≡ self.now.capacity }
        ensures valid { IsValidByUse self.now }
    {
        self.cache.cap().get()
    }

    /// Whether the key has an entry already, or there is room for another one.
    fn has_room_for(&self, key: &Key) -> bool
        ensures room { result ≡ has_room_for key.now self.now }
        ensures valid { IsValidByUse self.now }
    {
        let has_room = self.len() < self.capacity();
        has_room || self.peek(key).is_some()
    }

    /// Gives the key this value, and makes its entry the most recently used. If it had no entry, the
    /// allocation for one may fail, and nothing changes.
    fn put_first(&mut self, key: &Key, value: &Value) -> Result<(), AllocError>
        requires room { has_room_for key.now self.old ≡ true }
        ensures ok { OnOk result (self.new ≡ record self.old { list = (key.now, value.now) ∷ others key.now self.old.list }) }
        ensures err { OnErr result (self.new ≡ self.old) }
        ensures is_new { OnErr result (finite.find key_cmp key.now self.old.list ≡ None) }
        ensures valid { IsValidByUse self.new }
    {
        self.cache.put(*key, *value)?;
        Ok(())
    }

    /// The key that is evicted if there is no room: the least recently used one that isn't pinned.
    pub fn lru_victim(&self, pinned: &[Key]) -> Option<Key>
        ensures { result ≡ lru_victim self.now.list pinned.now }
    {
        let mut rest = self.cache.iter();
        while let Some((key, _)) = rest.next_back() {
            if !pinned.contains(key) {
                return Some(*key);
            }
        }
        None
    }
}
