//! Workers side by side.
ghost use Rattle.std.specs.Prelude.{◌≡◌, All, IfOk, OnErr, length, vec_len};
ghost use Rattle.std.specs.List.{IsDistinct};
ghost use Rattle.jc_bulk.specs.Bulk.{OrRefused};
ghost use Rattle.jc_loadall.specs.Pieces.{piece_count};
ghost use Rattle.jc_loadall.specs.Working.{CanLoadByAll, EndsByTeam, IsIdleWorker};

use crate::joining::join_notes;
use crate::notes::PieceResult;
use crate::pieces::piece_count;
use crate::worker::Worker;
use indexmap::{IndexMap, IndexSet};
use jc_bulk::BulkFault;
use jc_pool::run_pieces_with;
use jc_types::{BULK_KEYS_MAX, Key, Refusal};
use std::alloc::{AllocError, Global};
use std::thread::Threads;

/// Loads many keys in pieces, by as many workers side by side as there are tools, or refuses the whole call.
///
/// An `Err` names each key that failed. Or the whole is refused, and the tools are as they were: there are more than
/// [`BULK_KEYS_MAX`] keys (`TooManyKeys`), or an allocation before the first piece failed (`OutOfMemory`).
///
/// Conditions: those of [`load_by_team`].
pub(crate) fn load_or_refuse<
    T: Send,
    F: Fn(&IndexSet<Key>, &mut T) -> PieceResult + Sync,
    R: Threads + Sync,
>(alloc: Global, rt: &R, load: &F, tools: &mut [T], keys: &IndexSet<Key>) -> Result<(), BulkFault>
    requires { CanLoadByAll F.Fn load.now tools.old }
    ensures { OrRefused (EndsByTeam F.Fn load.now keys.now.keys tools.old) (length keys.now.keys) tools.old result tools.new }
{
    if keys.len() > BULK_KEYS_MAX {
        return Err(BulkFault::of_whole_call(alloc, Refusal::TooManyKeys));
    }
    match load_by_team(alloc, rt, load, tools, keys) {
        Ok(ended) => ended,
        Err(AllocError) => Err(BulkFault::of_whole_call(alloc, Refusal::OutOfMemory)),
    }
}

/// Loads the keys in pieces, by as many workers side by side as there are tools, and returns how the call ended.
///
/// An `Err` says that an allocation failed. Nothing was loaded, and the tools are as they were.
///
/// Conditions: there is at least one tool; the function that loads a piece may be called with each, and can be called again.
fn load_by_team<T: Send, F: Fn(&IndexSet<Key>, &mut T) -> PieceResult + Sync, R: Threads + Sync>(
    alloc: Global,
    rt: &R,
    load: &F,
    tools: &mut [T],
    keys: &IndexSet<Key>,
) -> Result<Result<(), BulkFault>, AllocError>
    requires { CanLoadByAll F.Fn load.now tools.old }
    ensures err { OnErr result (tools.new ≡ tools.old) }
    ensures ended { IfOk result (λ ended. EndsByTeam F.Fn load.now keys.now.keys tools.old ended tools.new) }
{
    let pieces = piece_count(keys.len());
    let mut failed = IndexMap::with_capacity(alloc, keys.len())?;
    let mut workers = hire(alloc, load, keys.as_slice(), tools.len(), pieces)?;
    run_pieces_with(alloc, rt, workers.as_mut_slice(), tools, pieces)?;
    let cause = join_notes(workers.as_slice(), keys.as_slice(), pieces, &mut failed);
    Ok(BulkFault::unless_done(alloc, cause, failed))
}

/// Creates the workers, each of which has loaded nothing, and has room for its notes. An `Err` says that an allocation failed.
fn hire<'a, F>(
    alloc: Global,
    load: &'a F,
    keys: &'a [Key],
    workers: usize,
    pieces: usize,
) -> Result<Vec<Worker<'a, F>>, AllocError>
    ensures { IfOk result (λ team. (vec_len team ≡ workers) × All (IsIdleWorker load.now keys.now pieces) team.items) }
{
    let mut team = Vec::with_capacity(alloc, workers)?;
    'hiring: while team.len() < workers {
        team.push_reserved(Worker::new(alloc, load, keys, pieces)?);
    }
    Ok(team)
}
