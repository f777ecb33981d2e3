//! Entries in the order of their keys.
ghost use Rattle.std.specs.Prelude.{◌≡◌, IfOk};
ghost use Rattle.std.specs.FinMap as map;
ghost use Rattle.std.specs.FinMap.{IsAntisymmetric};

use std::alloc::{AllocError, Global};
use std::collections::BTreeMap;

/// Entries in the order of their keys. If two have the same key, the first counts. An `Err` says that an allocation failed.
///
/// Condition: only equal keys compare as equal.
pub(crate) fn sorted<K: Ord + Copy, V: Copy>(
    alloc: Global,
    entries: &[(K, V)],
) -> Result<Vec<(K, V)>, AllocError>
    requires { IsAntisymmetric K.cmp }
    ensures { IfOk result (λ list.
        list.items ≡ map.entries (map.from_entries {R = K.cmp} entries.now)) }
{
    let tree = tree_of(alloc, entries)?;
    list_of(alloc, &tree)
}

/// A tree with these entries.
fn tree_of<K: Ord + Copy, V: Copy>(
    alloc: Global,
    entries: &[(K, V)],
) -> Result<BTreeMap<K, V>, AllocError>
    requires { IsAntisymmetric K.cmp }
    ensures { IfOk result (λ tree. map.from_entries {R = K.cmp} tree.entries
        ≡ map.from_entries {R = K.cmp} entries.now) }
{
    let mut tree = BTreeMap::new(alloc);
    for (key, value) in entries.iter().rev() {
        tree.insert(*key, *value)?;
    }
    Ok(tree)
}

/// The entries of a tree, in its order.
fn list_of<K: Ord + Copy, V: Copy>(
    alloc: Global,
    tree: &BTreeMap<K, V>,
) -> Result<Vec<(K, V)>, AllocError>
    requires { IsAntisymmetric K.cmp }
    ensures { IfOk result (λ list.
        list.items ≡ map.entries (map.from_entries {R = K.cmp} tree.now.entries)) }
{
    let mut list = Vec::with_capacity(alloc, tree.len())?;
    for (key, value) in tree {
        list.push((*key, *value))?;
    }
    Ok(list)
}
