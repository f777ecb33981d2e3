//! The memory of one round for what it asks outside.
use jc_rounds::{RoundAnswers, WriteCall};
use jc_stripe::{Ask, ProcDone};
use std::alloc::{AllocError, Global};

/// The memory that a round takes for what it asks outside, before its first phase: room for its keys, with nothing in it yet. It
/// can't be dropped.
pub(crate) struct RoundRoom {
    /// Whether the cache writes through.
    pub(crate) through: bool,
    /// The processor's runs: none yet.
    pub(crate) runs: Vec<ProcDone<Ask>>,
    /// The changes to be written: none yet.
    pub(crate) writes: WriteCall,
    /// The keys to be deleted: none yet.
    pub(crate) deletes: WriteCall,
}

/// The empty batches of a round that had nothing to write, in a cache that doesn't write through. They can't be dropped.
pub(crate) struct Batches {
    /// The batch of writes.
    pub(crate) writes: WriteCall,
    /// The batch of deletes.
    pub(crate) deletes: WriteCall,
}

impl RoundRoom {
    ghost use Rattle.std.specs.Prelude.{ℕ, [], Bool, IfOk};
    ghost use Rattle.jc_types.specs.declared.config.Config.{Config};
    ghost use Rattle.jc_rounds.specs.Answers.{AreAnswers};
    ghost use Rattle.jc_rounds.specs.Rounds.{ProcessAll, ProcessRound};
    ghost use Rattle.jc_invoke.specs.RoundRooms.{IsRoundRoomFor, IsNextRoom};

    /// Room for `keys` keys, in a cache that writes through or doesn't. An `Err` says that an allocation failed.
    pub(crate) fn new(alloc: Global, through: bool, keys: usize) -> Result<RoundRoom, AllocError>
        ensures { IfOk result (λ room. IsRoundRoomFor keys through room) }
    {
        let runs = Vec::with_capacity(alloc, keys)?;
        match WriteCall::writes(alloc, keys) {
            Ok(writes) => match WriteCall::deletes(alloc, keys) {
                Ok(deletes) => Ok(RoundRoom {
                    through,
                    runs,
                    writes,
                    deletes,
                }),
                Err(failed) => {
                    runs.destroy_empty();
                    writes.end();
                    Err(failed)
                }
            },
            Err(failed) => {
                runs.destroy_empty();
                Err(failed)
            }
        }
    }

    /// The memory of the next round, of what a round has left, once all its answers were taken. It takes no new memory. A round
    /// that had a batch for the writer leaves none.
    pub(crate) fn again(answers: RoundAnswers, rest: Option<Batches>) -> Option<RoundRoom>
        requires { (config : Config) × (round : ProcessRound) × AreAnswers config (ProcessAll round) answers [] }
        ensures { IsNextRoom rest answers result }
    {
        match rest {
            Some(Batches { writes, deletes }) => Some(RoundRoom {
                through: false,
                runs: answers.into_runs(),
                writes,
                deletes,
            }),
            None => {
                answers.end();
                None
            }
        }
    }

    /// Frees the memory of a round that has asked nobody.
    pub(crate) fn end(self)
        requires { (keys : ℕ) × (through : Bool) × IsRoundRoomFor keys through self }
    {
        let RoundRoom {
            through: _,
            runs,
            writes,
            deletes,
        } = self;
        runs.destroy_empty();
        writes.end();
        deletes.end();
    }
}
