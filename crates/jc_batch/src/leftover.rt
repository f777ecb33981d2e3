//! What a writer leaves of the collection that it was given for a batch.
ghost use Rattle.std.specs.Prelude.{◌≡◌};

use indexmap::{IndexMap, IndexSet};
use jc_types::{Key, Value};

/// A collection that a writer was given, after it has taken out what it wrote or deleted.
pub trait Leftover {
    ghost use Rattle.std.specs.Prelude.{◌≡◌, List};
    ghost use Rattle.jc_model.specs.Cache.{Bytes};
    ghost use Rattle.jc_model.specs.Batches.{is_among};

    /// The keys that are left.
    ghost leftover_keys: { Self → List Bytes };

    /// Whether a key is left. It costs one look-up.
    fn is_left(&self, key: &Key) -> bool
        ensures { result ≡ is_among (leftover_keys self.now) key.now };
}

/// The entries that `writeAll` leaves.
impl Leftover for IndexMap<Key, Value> {
    ghost use Rattle.std.specs.Map.{keys_of};

    ghost leftover_keys = { λ entries. keys_of entries.entries };

    fn is_left(&self, key: &Key) -> bool {
        self.contains_key(key)
    }
}

/// The keys that `deleteAll` leaves.
impl Leftover for IndexSet<Key> {
    ghost leftover_keys = { λ keys. keys.keys };

    fn is_left(&self, key: &Key) -> bool {
        self.contains(key)
    }
}
