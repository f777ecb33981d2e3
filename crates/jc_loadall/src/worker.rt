//! Workers, each of which loads pieces by a session or a client.
ghost use Rattle.std.specs.Prelude.{◌≡◌, ◌==◌, ◌+◌, ◌≤◌, ◌<◌, map, length, vec_len, vec_capacity, IfOk, All, IfSome, IfNone, None, Some, [], List};
ghost use Rattle.std.specs.List.{IsDistinct, flat_map};
ghost use Rattle.std.specs.Cmp.Lexicographic.{pointwise};
ghost use Rattle.indexmap.specs.IndexSet.{spare};
ghost use Rattle.jc_loadall.specs.Working.{CanLoad, CanLoadBy, DoesPiece, IsIdleWorker, LoadsBy};
ghost use Rattle.jc_loadall.specs.declared.limits.TheConstants.{PIECE_KEYS};

use crate::limits::PIECE_KEYS;
use crate::notes::{Note, PieceResult};
use crate::pieces::fill;
use indexmap::IndexSet;
use jc_pool::WorkWith;
use jc_types::Key;
use std::alloc::{AllocError, Global};

/// A worker that loads pieces with the tool that it is lent: a session or a client.
#[derive(Drop)]
pub(crate) struct Worker<'a, F> {
    /// Loads the keys of one piece with a tool.
    load: &'a F,
    /// The keys of all pieces.
    keys: &'a [Key],
    /// The keys of the piece that it loads.
    piece_keys: IndexSet<Key>,
    /// The ends of its pieces, in the order in which it loaded them.
    pub(crate) notes: Vec<Note>,
}

impl<'a, F> Worker<'a, F> {
    /// A worker that has loaded nothing, with room for its notes.
    pub(crate) fn new(
        alloc: Global,
        load: &'a F,
        keys: &'a [Key],
        pieces: usize,
    ) -> Result<Worker<'a, F>, AllocError>
        ensures { IfOk result (λ w. IsIdleWorker load.now keys.now pieces w) }
    {
        Ok(Worker {
            load,
            keys,
            piece_keys: IndexSet::with_capacity(alloc, PIECE_KEYS)?,
            notes: Vec::with_capacity(alloc, pieces)?,
        })
    }
}

impl<'a, T, F: Fn(&IndexSet<Key>, &mut T) -> PieceResult> WorkWith<T> for Worker<'a, F> {
    type Job = ();

    ghost did = { λ both. map (λ note. note.piece) both.0.notes.items };

    ghost job = { λ both. tt };

    ghost can_do = { λ both piece. CanLoad F.Fn both.0.load.now both.0.keys.now both.1
        (length both.0.piece_keys.keys + spare both.0.piece_keys) (vec_len both.0.notes) (vec_capacity both.0.notes) piece };

    ghost does = { λ old piece new. (new.0.load.now ≡ old.0.load.now) × (new.0.keys.now ≡ old.0.keys.now)
        × DoesPiece F.Fn old.0.load.now old.0.keys.now old.0.notes.items old.1 piece new.0.notes.items new.1 };

    fn piece_with(&mut self, tool: &mut T, piece: usize) {
        fill(&mut self.piece_keys, self.keys, piece);
        let result = load_by(self.load, &self.piece_keys, tool);
        self.notes.push_reserved(Note { piece, result });
    }
}

/// Calls the function that loads a piece.
///
/// Conditions: it may be called with the tool; the keys are no more than those of a piece, and they all differ.
fn load_by<T, F: Fn(&IndexSet<Key>, &mut T) -> PieceResult>(
    load: &F,
    keys: &IndexSet<Key>,
    tool: &mut T,
) -> PieceResult
    requires may { CanLoadBy F.Fn load.now tool.old }
    requires keys { (length keys.now.keys ≤ PIECE_KEYS) × IsDistinct (pointwise ◌==◌) keys.now.keys }
    ensures { LoadsBy F.Fn load.now keys.now.keys tool.old result tool.new }
{
    load(keys, tool)
}
