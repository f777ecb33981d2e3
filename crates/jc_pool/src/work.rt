//! The workers of a pool, which its caller brings: each does pieces of one job (`Work`).
ghost use Rattle.std.specs.Prelude.{◌≡◌, ℕ, ◌<◌, ◌++◌, [], ◌∷◌, List};

/// A worker, which does pieces of a job. The pieces are numbered from 0 on.
pub trait Work {
    /// The job, as data that the worker's contract names. No piece changes it.
    type Job;

    /// The numbers of the pieces that it did, in the order of doing them.
    ghost did: { Self → List ℕ };

    /// Its job.
    ghost job: { Self → Self.Job };

    /// It can do the piece with this number: it has all that the piece needs, and room to note that it did the piece.
    ghost can_do: { Self → ℕ → Type 0 };

    /// The effect of one piece: the worker before, the piece's number, and the worker afterwards.
    ghost does: { Self → ℕ → Self → Type 0 };

    /// Does one piece, and notes that it did the piece. It may wait.
    ///
    /// Doing a piece never makes a later piece impossible.
    ///
    /// Condition: it can do the piece.
    fn piece(&mut self, piece: usize)
        requires { can_do self.old piece }
        ensures did { did self.new ≡ did self.old ++ piece ∷ [] }
        ensures job { job self.new ≡ job self.old }
        ensures does { does self.old piece self.new }
        ensures later { (later : ℕ) → piece < later → can_do self.old later → can_do self.new later };
}

/// A worker, which does pieces of a job with a tool that the caller lends it during the call. Its relations are about worker and
/// tool together.
pub trait WorkWith<T> {
    /// The job, as data that the worker's contract names. No piece changes it.
    type Job;

    /// The numbers of the pieces that were done, in the order of doing them.
    ghost did: { Self × T → List ℕ };

    /// The job.
    ghost job: { Self × T → Self.Job };

    /// It can do the piece with this number: it has all that the piece needs, and room to note that it did the piece.
    ghost can_do: { Self × T → ℕ → Type 0 };

    /// The effect of one piece: worker and tool before, the piece's number, and both afterwards.
    ghost does: { Self × T → ℕ → Self × T → Type 0 };

    /// Does one piece, and notes that it did the piece. It may wait.
    ///
    /// Doing a piece never makes a later piece impossible.
    ///
    /// Condition: it can do the piece.
    fn piece_with(&mut self, tool: &mut T, piece: usize)
        requires { can_do (self.old, tool.old) piece }
        ensures did { did (self.new, tool.new) ≡ did (self.old, tool.old) ++ piece ∷ [] }
        ensures job { job (self.new, tool.new) ≡ job (self.old, tool.old) }
        ensures does { does (self.old, tool.old) piece (self.new, tool.new) }
        ensures later { (later : ℕ) → piece < later → can_do (self.old, tool.old) later → can_do (self.new, tool.new) later };
}

impl<W: Work> WorkWith<()> for W {
    type Job = W::Job;

    ghost did = { λ both. W.did both.0 };

    ghost job = { λ both. W.job both.0 };

    ghost can_do = { λ both. W.can_do both.0 };

    ghost does = { λ old piece new. W.does old.0 piece new.0 };

    fn piece_with(&mut self, _tool: &mut (), piece: usize) {
        self.piece(piece)
    }
}
