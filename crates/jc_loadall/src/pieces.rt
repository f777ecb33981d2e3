//! The pieces into which keys are cut.
ghost use Rattle.std.specs.Prelude.{◌≡◌, ◌==◌, ◌*◌, ◌+◌, ◌<◌, ◌≤◌, ◌++◌, ◌∷◌, ◌^◌, [], ℕ, false, length, min};
ghost use Rattle.std.specs.List.{IsDistinct};
ghost use Rattle.std.specs.Cmp.Lexicographic.{pointwise};
ghost use Rattle.indexmap.specs.IndexSet.{spare};
ghost use Rattle.jc_model.specs.Batches.{is_among};
ghost use Rattle.jc_loadall.specs.Pieces.{piece_at, piece_count};
ghost use Rattle.jc_loadall.specs.declared.limits.TheConstants.{PIECE_KEYS};

use crate::limits::PIECE_KEYS;
use indexmap::IndexSet;
use jc_types::Key;
use std::ops::Range;

/// The number of pieces into which `keys` keys are cut.
pub(crate) fn piece_count(keys: usize) -> usize
    requires { keys < 2 ^ 63 }
    ensures { result ≡ piece_count keys }
{
    (keys + (PIECE_KEYS - 1)) / PIECE_KEYS
}

/// The places of a piece's keys, among `keys` keys.
pub(crate) fn places_of(keys: usize, piece: usize) -> Range<usize>
    requires { (keys < 2 ^ 63) × (piece < piece_count keys) }
    ensures start { result.start ≡ PIECE_KEYS * piece }
    ensures end { result.end ≡ min keys (PIECE_KEYS * piece + PIECE_KEYS) }
{
    let start = piece * PIECE_KEYS;
    start..keys.min(start + PIECE_KEYS)
}

/// Fills the set with the keys of a piece alone. It takes no memory.
///
/// Conditions: there is such a piece, and the keys all differ; the set has room for the keys of a piece.
pub(crate) fn fill(set: &mut IndexSet<Key>, keys: &[Key], piece: usize)
    requires piece { (piece < piece_count (length keys.now)) × IsDistinct (pointwise ◌==◌) keys.now }
    requires room { PIECE_KEYS ≤ length set.old.keys + spare set.old }
    ensures keys { set.new.keys ≡ piece_at keys.now piece }
    ensures few { (length set.new.keys ≤ PIECE_KEYS) × (PIECE_KEYS ≤ length set.new.keys + spare set.new)
        × IsDistinct (pointwise ◌==◌) set.new.keys }
{
    set.clear();
    let places = places_of(keys.len(), piece);
    for place in places.start..places.end {
        insert_new(set, &keys[place]);
    }
}

/// Adds a key behind the others. It takes no memory.
///
/// Conditions: there is room, and the key isn't in the set.
fn insert_new(set: &mut IndexSet<Key>, key: &Key)
    requires new { is_among set.old.keys key.now ≡ false }
    requires room { 0 < spare set.old }
    ensures keys { set.new.keys ≡ set.old.keys ++ key.now ∷ [] }
    ensures room { spare set.old ≤ spare set.new + 1 }
{
    match set.insert(*key) {
        Ok(_is_new) => {}
        Err(_failed) => unreachable!(),
    }
}
