//! An entry for a new key, added to the map of a batch that has room for it.
ghost use Rattle.std.specs.Prelude.{◌≡◌, ◌==◌, ◌≤◌, ◌<◌, ◌+◌, ◌++◌, ◌∷◌, [], false};
ghost use Rattle.std.specs.List.{list_any};
ghost use Rattle.std.specs.Map.{keys_of};
ghost use Rattle.std.specs.Cmp.Lexicographic.{pointwise};
ghost use Rattle.indexmap.specs.IndexMap.{spare};

use indexmap::IndexMap;
use jc_types::Key;

/// Adds an entry for a new key, after those that are there. It takes no memory.
///
/// Conditions: there is room, and the key isn't in the map.
pub fn insert_new<V: Copy>(map: &mut IndexMap<Key, V>, key: &Key, value: V)
    requires new { list_any (pointwise ◌==◌ key.now) (keys_of map.old.entries) ≡ false }
    requires room { 0 < spare map.old }
    ensures entries { map.new.entries ≡ map.old.entries ++ (key.now, value) ∷ [] }
    ensures room { spare map.old ≤ spare map.new + 1 }
{
    match map.insert(*key, value) {
        Ok(_old) => {}
        Err(_failed) => unreachable!(),
    }
}
