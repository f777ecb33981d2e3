//! The notes of a worker about the pieces that it loads.
ghost use Rattle.std.specs.Prelude.{◌≡◌, IfNone, IfSome, None, Some};
ghost use Rattle.jc_loadall.specs.Notes.{IsResultOf, cause_noted, find_note, refusal_noted};

use jc_bulk::BulkFault;
use jc_types::{Key, Refusal};

/// The end of a piece, as its call returned it.
#[derive(Drop)]
pub(crate) enum PieceResult {
    /// No key failed.
    Loaded,
    /// The call names each key that failed.
    Failed(BulkFault),
    /// The call was refused whole, because an allocation failed. So each key of the piece is refused.
    Refused,
}

/// A piece, by its number, and how it ended.
#[derive(Drop)]
pub(crate) struct Note {
    pub(crate) piece: usize,
    pub(crate) result: PieceResult,
}

impl PieceResult {
    /// The result of a piece whose call returned this.
    pub(crate) fn of(ended: Result<(), BulkFault>) -> PieceResult
        ensures { IsResultOf ended result }
    {
        match ended {
            Ok(()) => PieceResult::Loaded,
            Err(fault) => if fault.failed.is_empty() && fault.cause == Refusal::OutOfMemory {
                PieceResult::Refused
            } else {
                PieceResult::Failed(fault)
            },
        }
    }

    /// The fault or refusal that the piece met first, if it met one.
    pub(crate) fn cause(&self) -> Option<Refusal>
        ensures { result ≡ cause_noted self.now }
    {
        match self {
            PieceResult::Loaded => None,
            PieceResult::Failed(fault) => Some(fault.cause),
            PieceResult::Refused => Some(Refusal::OutOfMemory),
        }
    }

    /// The fault or refusal in which a key of the piece ended, if it did.
    pub(crate) fn refusal_at(&self, key: &Key) -> Option<Refusal>
        ensures { result ≡ refusal_noted self.now key.now }
    {
        match self {
            PieceResult::Loaded => None,
            PieceResult::Failed(fault) => fault.failed.get(key).copied(),
            PieceResult::Refused => Some(Refusal::OutOfMemory),
        }
    }
}

/// The note of a piece, if there is one.
pub(crate) fn find_note(notes: &[Note], piece: usize) -> Option<&PieceResult>
    ensures none { IfNone result (find_note piece notes.now ≡ None) }
    ensures some { IfSome result (λ r. find_note piece notes.now ≡ Some r.now) }
{
    for note in notes {
        if note.piece == piece {
            return Some(&note.result);
        }
    }
    None
}
