//! A cache that is opened again.
ghost use Rattle.std.specs.Prelude.{◌≡◌, true, map, IfOk, OnErr, OnOk};
ghost use Rattle.std.specs.List.{list_all};
ghost use Rattle.jc_model.specs.Cache.{Bytes};
ghost use Rattle.jc_stripe.specs.Reopening.{all_entries};
ghost use Rattle.jc_world.specs.declared.event.WorldEvent.TheVariants as event;
ghost use Rattle.jc_world.specs.Fits.{fits};
ghost use Rattle.jc_world.specs.Premises.{is_as_told, is_stored};
ghost use Rattle.jc_world.specs.Events.{Happens};
ghost use Rattle.jc_world.specs.Sound.{IsSoundWorld};

use crate::event::{Outcome, Premises, Shown, show};
use crate::foreign::forget_all;
use crate::machine::Machine;
use crate::machine::auditing::is_stored;
use crate::read_only::ReadOnlyList;
use crate::stripes::Stripes;
use jc_model::Contents;
use jc_stripe::{Origin, ReopenedStripes, Stripe, reopen};
use jc_types::{Config, Key, Value};
use std::alloc::{AllocError, Global};

impl Machine {
    /// The cache is closed, and opened again in this shape. No key is reserved and no load joined, since no call is under way: these
    /// maps stay as they are. What takes memory comes before the first change.
    #[inline(never)]
    pub(super) fn reopen(&mut self, config: &Config, seen: &mut Shown) -> Result<(), AllocError>
        requires sound { IsSoundWorld self.old }
        requires fits { fits self.old (event.Reopen config.now) ≡ true }
        ensures ok { OnOk result (Happens self.old (event.Reopen config.now) seen.new self.new) }
        ensures err { OnErr result (self.new ≡ self.old) }
    {
        let entries = all_entries(self.alloc, self.stripes.items())?;
        let ReopenedStripes { stripes, dropped } = reopen(
            self.alloc,
            config,
            Origin::Played,
            &entries,
        )?;
        let keys = keys_of(self.alloc, &dropped)?;
        let opened = all_entries(self.alloc, &stripes)?;
        let opening = are_as_told(&self.foreign, &self.store, &opened);
        let stored = are_stored(&self.store, &opened);
        forget_all(self.alloc, &mut self.foreign, stored);
        self.config = *config;
        self.stripes = Stripes::of(self.alloc, stripes);
        self.premises = Premises {
            writers: true,
            loaders: true,
            opening,
        };
        self.is_fresh = false;
        show(seen, Outcome::Reopened(ReadOnlyList::new(keys)));
        Ok(())
    }
}

/// The cached entries of these stripes, stripe by stripe, the most recently used first.
fn all_entries(alloc: Global, stripes: &[Stripe]) -> Result<Vec<(Key, Value)>, AllocError>
    ensures { IfOk result (λ entries. entries.items ≡ all_entries stripes.now) }
{
    let mut entries = Vec::new(alloc);
    for stripe in stripes {
        stripe.entries(&mut entries)?;
    }
    Ok(entries)
}

/// The keys of these entries.
fn keys_of(alloc: Global, entries: &[(Key, Value)]) -> Result<Vec<Key>, AllocError>
    ensures { IfOk result (λ keys. keys.items ≡ map (λ (entry : Bytes × Bytes). entry.0) entries.now) }
{
    let mut keys = Vec::with_capacity(alloc, entries.len())?;
    for entry in entries {
        keys.push_reserved(entry.0);
    }
    Ok(keys)
}

/// Whether each of these entries is the store's.
fn are_stored(store: &Contents, entries: &[(Key, Value)]) -> bool
    ensures { result ≡ list_all (is_stored store.now) entries.now }
{
    entries.iter().all(|entry| is_stored(store, entry))
}

/// Whether each of these entries is the store's, but for foreign keys.
fn are_as_told(foreign: &Contents, store: &Contents, entries: &[(Key, Value)]) -> bool
    ensures { result ≡ list_all (is_as_told foreign.now store.now) entries.now }
{
    entries
        .iter()
        .all(|entry| is_as_told(foreign, store, entry))
}

/// Whether the store has this entry, or its key is foreign.
fn is_as_told(foreign: &Contents, store: &Contents, entry: &(Key, Value)) -> bool
    ensures { result ≡ is_as_told foreign.now store.now entry.now }
{
    foreign.get(&entry.0).is_some() || is_stored(store, entry)
}
