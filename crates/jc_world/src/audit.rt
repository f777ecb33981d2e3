//! Audits of a world.
ghost use Rattle.std.specs.Prelude.{◌≡◌, IfOk, OnOk, None};
ghost use Rattle.std.specs.FinMap as map;
ghost use Rattle.jc_model.specs.Cache.{Bytes, key_cmp, entry_at};
ghost use Rattle.jc_world.specs.Gathered.{or_else, found_after};

use jc_model::Contents;
use jc_stripe::Stripe;
use jc_types::{Key, Value};
use std::alloc::{AllocError, Global};

/// The result of an audit. Entries and keys are in the byte order of the keys.
#[derive(Drop)]
pub struct Audit {
    /// The cached entries, over all stripes.
    pub cache: Vec<(Key, Value)>,
    /// The entries of the store.
    pub store: Vec<(Key, Value)>,
    /// The keys whose cached value isn't the store's, but for those whose writer has changed the store and isn't committed.
    pub differing: Vec<Key>,
    /// How many events the histories of all stripes have.
    pub events: usize,
    /// Whether the order of all events is one legal history, and what is cached is what it leaves. It always is.
    pub is_legal: bool,
}

/// Adds entries to a map: of two with one key the first counts, and before what was there.
fn add_entries(all: &mut Contents, entries: &[(Key, Value)]) -> Result<(), AllocError>
    ensures { OnOk result ((key : Bytes)
        → entry_at all.new key ≡ or_else (map.find key_cmp key entries.now) (entry_at all.old key)) }
{
    for (key, value) in entries.iter().rev() {
        all.set(key, Some(*value))?;
    }
    Ok(())
}

/// The cached entries of the stripes, in one map.
pub(crate) fn gather(alloc: Global, stripes: &[Stripe]) -> Result<Contents, AllocError>
    ensures { IfOk result (λ all. (key : Bytes)
        → entry_at all key ≡ found_after None stripes.now key) }
{
    let mut all = Contents::new(alloc);
    for stripe in stripes {
        let mut entries = Vec::new(alloc);
        stripe.entries(&mut entries)?;
        add_entries(&mut all, &entries)?;
    }
    Ok(all)
}
