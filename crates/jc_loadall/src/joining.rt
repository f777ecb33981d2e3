//! The results of all pieces, joined.
ghost use Rattle.std.specs.Prelude.{◌≡◌, ◌==◌, ◌*◌, ◌+◌, ◌<◌, ◌≤◌, ◌++◌, [], IfNone, IfSome, None, Some, length, map};
ghost use Rattle.std.specs.List.{IsDistinct, flat_map};
ghost use Rattle.std.specs.Cmp.Lexicographic.{pointwise};
ghost use Rattle.indexmap.specs.IndexMap.{spare};
ghost use Rattle.jc_loadall.specs.Notes.{MayAdd, all_noted, cause_noted, entries_noted, find_note, first_noted, result_in};
ghost use Rattle.jc_loadall.specs.Pieces.{piece_at, piece_count};
ghost use Rattle.jc_loadall.specs.declared.limits.TheConstants.{PIECE_KEYS};

use crate::notes::{PieceResult, find_note};
use crate::pieces::places_of;
use crate::worker::Worker;
use indexmap::IndexMap;
use jc_rounds::insert_some;
use jc_types::{Key, Refusal};

/// Joins the notes of all pieces: it returns the first cause, and adds each key that ended in a fault or a refusal, in the order
/// of the keys. It takes no memory.
///
/// Conditions: the keys are cut into `pieces` pieces, and they all differ; there is room for all, and none is there yet.
pub(crate) fn join_notes<F>(
    workers: &[Worker<'_, F>],
    keys: &[Key],
    pieces: usize,
    failed: &mut IndexMap<Key, Refusal>,
) -> Option<Refusal>
    requires keys { (pieces ≡ piece_count (length keys.now)) × IsDistinct (pointwise ◌==◌) keys.now }
    requires empty { (failed.old.entries ≡ []) × (length keys.now ≤ spare failed.old) }
    ensures cause { result ≡ first_noted (result_in (flat_map (λ w. w.notes.items) workers.now)) pieces }
    ensures failed { failed.new.entries ≡ all_noted (result_in (flat_map (λ w. w.notes.items) workers.now)) keys.now pieces }
{
    let mut cause = None;
    for piece in 0..pieces {
        cause = cause.or(join_piece(workers, keys, piece, failed));
    }
    cause
}

/// Adds each key of a piece that failed behind those of the pieces before it. It returns the cause of the piece, if it has one.
fn join_piece<F>(
    workers: &[Worker<'_, F>],
    keys: &[Key],
    piece: usize,
    failed: &mut IndexMap<Key, Refusal>,
) -> Option<Refusal>
    requires piece { (piece < piece_count (length keys.now)) × IsDistinct (pointwise ◌==◌) keys.now }
    requires may { MayAdd keys.now (PIECE_KEYS * piece) failed.old }
    ensures noted { (result ≡ cause_noted (result_in (flat_map (λ w. w.notes.items) workers.now) piece))
        × (failed.new.entries ≡ failed.old.entries
        ++ entries_noted (result_in (flat_map (λ w. w.notes.items) workers.now) piece) (piece_at keys.now piece)) }
    ensures may { MayAdd keys.now (PIECE_KEYS * piece + PIECE_KEYS) failed.new }
{
    match result_of(workers, piece) {
        Some(noted) => {
            insert_piece(noted, keys, piece, failed);
            noted.cause()
        }
        None => None,
    }
}

/// The note of a piece, if a worker has one.
fn result_of<'w, 'a, F>(workers: &'w [Worker<'a, F>], piece: usize) -> Option<&'w PieceResult>
    ensures none { IfNone result (find_note piece (flat_map (λ w. w.notes.items) workers.now) ≡ None) }
    ensures some { IfSome result (λ r. find_note piece (flat_map (λ w. w.notes.items) workers.now) ≡ Some r.now) }
{
    for worker in workers {
        if let Some(result) = find_note(worker.notes.as_slice(), piece) {
            return Some(result);
        }
    }
    None
}

/// Adds each key of a piece that ended in a fault or a refusal, in their order. It takes no memory.
///
/// Conditions: there is such a piece, and the keys all differ; none of its keys and of later ones is there; there is room for
/// all.
fn insert_piece(
    noted: &PieceResult,
    keys: &[Key],
    piece: usize,
    failed: &mut IndexMap<Key, Refusal>,
)
    requires piece { (piece < piece_count (length keys.now)) × IsDistinct (pointwise ◌==◌) keys.now }
    requires may { MayAdd keys.now (PIECE_KEYS * piece) failed.old }
    ensures entries { failed.new.entries ≡ failed.old.entries ++ entries_noted noted.now (piece_at keys.now piece) }
    ensures may { MayAdd keys.now (PIECE_KEYS * piece + PIECE_KEYS) failed.new }
{
    let places = places_of(keys.len(), piece);
    for place in places.start..places.end {
        let key = keys[place];
        insert_some(failed, &key, noted.refusal_at(&key));
    }
}
