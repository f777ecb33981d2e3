//! The audit of a machine.
ghost use Rattle.std.specs.Prelude.{IsTrue, ◌≡◌, ◌&&◌, [], true, Ok, IfOk};
ghost use Rattle.std.specs.FinMap as map;
ghost use Rattle.std.specs.List.{list_all};
ghost use Rattle.jc_world.specs.Premises.{is_stored};
ghost use Rattle.jc_world.specs.World.{has_progress, has_changed, has_any, is_untold};
ghost use Rattle.jc_world.specs.Sound.{IsSoundWorld};
ghost use Rattle.jc_world.specs.Coherent.{all_hold, CoherentAsTold};
ghost use Rattle.jc_world.specs.Audit.{differs, differing, untold_among, untold_keys, IsAudit};

use crate::audit::{Audit, gather};
use crate::held_keys::held_at;
use crate::machine::Machine;
use jc_model::Contents;
use jc_types::{Key, Value, stripe_of};
use std::alloc::{AllocError, Global};

impl Machine {
    /// The audit of the world.
    pub(crate) fn audit(&self, alloc: Global) -> Result<Audit, AllocError>
        requires { IsSoundWorld self.now }
        ensures audit { IfOk result (λ a.
            IsAudit self.now a.cache.items a.store.items a.differing.items a.events a.is_legal) }
        ensures coherent { IfOk result (λ a. all_hold self.now ≡ true → CoherentAsTold self.now
            × (list_all (is_untold self.now) a.differing.items ≡ true)) }
        ensures legal { IfOk result (λ a. IsTrue a.is_legal) }
    {
        let all = gather(alloc, self.stripes.items())?;
        let cache = all.entries(alloc)?;
        let store = self.store.entries(alloc)?;
        let differing = self.differing(alloc, &cache)?;
        Ok(Audit {
            cache,
            store,
            differing,
            events: self.stripes.events_len(),
            is_legal: true,
        })
    }

    /// The keys of the entries that aren't the store's, while no writer's change of their keys waits for its commit.
    fn differing(&self, alloc: Global, entries: &[(Key, Value)]) -> Result<Vec<Key>, AllocError>
        ensures { IfOk result (λ keys. keys.items ≡ differing self.now entries.now) }
    {
        let mut keys = Vec::new(alloc);
        for entry in entries {
            if self.is_differing(entry) {
                keys.push(entry.0)?;
            }
        }
        Ok(keys)
    }

    /// Whether an entry isn't the store's, while no writer's change of its key waits for its commit.
    fn is_differing(&self, entry: &(Key, Value)) -> bool
        ensures { result ≡ differs self.now entry.now }
    {
        !is_stored(&self.store, entry) && !self.is_changing(&entry.0)
    }

    /// The keys that are untold, in byte order.
    pub(crate) fn untold_keys(&self, alloc: Global) -> Result<Vec<Key>, AllocError>
        requires { IsSoundWorld self.now }
        ensures { IfOk result (λ keys. keys.items ≡ untold_keys self.now) }
    {
        let foreign = self.foreign.entries(alloc)?;
        self.untold_among(alloc, &foreign)
    }

    /// Those of these entries' keys that are untold.
    fn untold_among(&self, alloc: Global, foreign: &[(Key, Value)]) -> Result<Vec<Key>, AllocError>
        requires { IsSoundWorld self.now }
        ensures { IfOk result (λ keys. keys.items ≡ untold_among self.now foreign.now) }
    {
        let mut keys = Vec::new(alloc);
        for entry in foreign {
            if self.is_untold(&entry.0) {
                keys.push(entry.0)?;
            }
        }
        Ok(keys)
    }

    /// Whether the key is foreign, and the cache has something of it.
    pub(crate) fn is_untold(&self, key: &Key) -> bool
        requires { IsSoundWorld self.now }
        ensures { result ≡ is_untold self.now key.now }
    {
        self.foreign.get(key).is_some() && self.has_any(key)
    }

    /// Whether a key has an entry, or is reserved.
    fn has_any(&self, key: &Key) -> bool
        requires { IsSoundWorld self.now }
        ensures { result ≡ has_any self.now key.now }
    {
        let number = stripe_of(key, self.config.stripes);
        !self.stripes.is_missing(number, key) || held_at(&self.held, key).is_some()
    }

    /// Whether a writer's change of a key waits for its commit.
    fn is_changing(&self, key: &Key) -> bool
        ensures { result ≡ has_progress has_changed (map.get self.now.parts key.now) }
    {
        held_at(&self.held, key).is_some_and(|held| held.has_changed())
    }
}

/// Whether the store has this entry.
pub(super) fn is_stored(store: &Contents, entry: &(Key, Value)) -> bool
    ensures { result ≡ is_stored store.now entry.now }
{
    let (key, value) = entry;
    store.get(key).is_some_and(|held| *held == *value)
}
