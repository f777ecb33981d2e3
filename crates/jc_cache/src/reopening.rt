//! The reopening of a closed cache, in the same shape or another.
ghost use Rattle.std.specs.Prelude.{◌≡◌, ◌⊎◌, ◌++◌, None, Some, IfOk, IfErr, OnOk, not};
ghost use Rattle.std.specs.List.{list_any};
ghost use Rattle.jc_types.specs.declared.refusal.Refusal.TheVariants.{OutOfMemory};
ghost use Rattle.jc_model.specs.Listed.{has_distinct_keys};
ghost use Rattle.jc_stripe.specs.Reached.{IsReached};
ghost use Rattle.jc_cache.specs.Reopening.{IsReopened, lived, IsReopenRefusal, all_left, entries_left, shares_left};

use crate::closing::{Closed, ClosedStripe};
use crate::owner::{CacheOwner, open_with};
use jc_outside::Outside;
use jc_stripe::keeps_or_drops;
use jc_types::{Config, Key, Refusal, Value};
use std::alloc::{AllocError, Global};
use std::fmt;
use thiserror::Error;

/// A cache that was opened again.
#[derive(Drop)]
pub struct Reopened {
    /// The owner of the cache.
    pub owner: CacheOwner,
    /// The entries for which the stripe of their key had no room, old stripe by old stripe, the most recently used first.
    pub dropped: Vec<(Key, Value)>,
    /// The loaders and writers that the closed cache had, in the same order.
    pub outside: Vec<Outside>,
}

/// A closed cache that was not opened again, as it was handed in. Its text is the refusal's.
#[derive(Drop, Error)]
#[error("{refusal}")]
pub struct ReopenFault {
    /// The reason: `BadConfig`, `RepeatedKey` or `OutOfMemory`.
    pub refusal: Refusal,
    /// The closed cache.
    pub closed: Closed,
}

/// Shows the refusal alone.
impl fmt::Debug for ReopenFault {
    fn fmt<W: fmt::Write>(&self, f: &mut fmt::Formatter<W>) -> fmt::Result {
        write!(f, "ReopenFault {:?}", self.refusal)
    }
}

impl CacheOwner {
    /// Opens a closed cache again, in this shape, with what it had cached. Old stripe by old stripe, each from its most recently
    /// used entry on, every entry goes to the stripe of its key. That stripe keeps as many entries as it has room for, in this
    /// order of use, and the others are dropped. A cache that lived on lives on.
    ///
    /// A stripe that was [shut](ClosedStripe::is_shut) when it was closed leaves no entry: each of them was to be forgotten, and
    /// had no place for its eviction.
    ///
    /// The new histories are empty, and legal from what is kept. The closed histories end here: read them before. A stripe
    /// doesn't store what it was opened with. To check a later history by `legal`, keep the entries that
    /// [`ClosedStripe::append_entries`] gives of each old stripe that wasn't shut, in their order: a stripe's opening is the first
    /// `capacity` of those that `stripe_of` sends to it.
    ///
    /// It is refused, and hands the closed cache back, if the shape is out of its limits (`BadConfig`), if a key is left twice,
    /// as in stripes of two caches (`RepeatedKey`), or if an allocation failed (`OutOfMemory`), tested in this order. Old and new
    /// stripes are there together until it returns.
    pub fn reopen(alloc: Global, closed: Closed, config: &Config) -> Result<Reopened, ReopenFault>
        ensures ok { IfOk result (λ r. IsReopened (lived closed.stripes.items) config.now (all_left closed.stripes.items) r.owner r.dropped.items
            × (r.outside ≡ closed.outside)) }
        ensures err { IfErr result (λ f. IsReopenRefusal config.now (all_left closed.stripes.items) f.refusal × (f.closed ≡ closed)) }
    {
        match open_again(alloc, &closed.stripes, config) {
            Ok((owner, dropped)) => {
                let Closed {
                    stripes: _stripes,
                    seats: _seats,
                    outside,
                    legal: _,
                } = closed;
                Ok(Reopened {
                    owner,
                    dropped,
                    outside,
                })
            }
            Err(refusal) => Err(ReopenFault { refusal, closed }),
        }
    }
}

impl ClosedStripe {
    /// Appends the entries that the stripe leaves to the cache that opens. An `Err` says that an allocation failed.
    fn append_left(&self, out: &mut Vec<(Key, Value)>) -> Result<(), AllocError>
        ensures { OnOk result (out.new.items ≡ out.old.items ++ entries_left self.now) }
    {
        if self.is_shut() {
            return Ok(());
        }
        self.append_entries(out)
    }

    /// Whether this stripe and the other leave the same key. It takes no memory.
    fn shares_left(&self, other: &ClosedStripe) -> bool
        ensures { result ≡ shares_left self.now other.now }
    {
        !self.is_shut() && !other.is_shut() && self.shares_key(other)
    }
}

/// Opens a cache of this shape with what these stripes leave. It returns the owner, and the entries that were dropped.
fn open_again(
    alloc: Global,
    stripes: &[ClosedStripe],
    config: &Config,
) -> Result<(CacheOwner, Vec<(Key, Value)>), Refusal>
    ensures ok { IfOk result (λ r. IsReopened (lived stripes.now) config.now (all_left stripes.now) r.0 r.1.items) }
    ensures err { IfErr result (λ r. IsReopenRefusal config.now (all_left stripes.now) r) }
{
    keeps_or_drops();
    config.check()?;
    if has_repeated_key(stripes) {
        return Err(Refusal::RepeatedKey);
    }
    let Ok(entries) = copy_entries(alloc, stripes) else {
        return Err(Refusal::OutOfMemory);
    };
    match open_with(alloc, config, lived(stripes), &entries) {
        Ok(made) => Ok(made),
        Err(_) => Err(Refusal::OutOfMemory),
    }
}

/// Whether the cache of these stripes lived on.
fn lived(stripes: &[ClosedStripe]) -> bool
    ensures { result ≡ lived stripes.now }
{
    match stripes.first() {
        Some(stripe) => stripe.lives(),
        None => false,
    }
}

/// Whether two of these stripes leave the same key. It takes no memory.
fn has_repeated_key(stripes: &[ClosedStripe]) -> bool
    ensures { result ≡ not (has_distinct_keys (all_left stripes.now)) }
{
    let mut found = false;
    for i in 0..stripes.len() {
        // No stripe is skipped, because the proof needs of each one that it is reached, as every stripe is.
        let shares = shares_with_any(&stripes[i], &stripes[i + 1..]);
        found = found || shares;
    }
    found
}

/// Whether a stripe and one of the others leave the same key.
fn shares_with_any(stripe: &ClosedStripe, others: &[ClosedStripe]) -> bool
    ensures shares { result ≡ list_any (shares_left stripe.now) others.now }
    ensures reached { IsReached stripe.now }
{
    let _reached = stripe.events_len();
    for other in others {
        if stripe.shares_left(other) {
            return true;
        }
    }
    false
}

/// Copies what these stripes leave, stripe by stripe. An `Err` says that an allocation failed.
fn copy_entries(alloc: Global, stripes: &[ClosedStripe]) -> Result<Vec<(Key, Value)>, AllocError>
    ensures { IfOk result (λ r. r.items ≡ all_left stripes.now) }
{
    let mut entries = Vec::new(alloc);
    for stripe in stripes {
        stripe.append_left(&mut entries)?;
    }
    Ok(entries)
}
