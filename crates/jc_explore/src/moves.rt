//! The moves of a program's threads, one at a time.
ghost use Rattle.std.specs.Prelude.{◌≡◌, ◌++◌, ◌∷◌, [], IfOk, OnOk};
ghost use Rattle.jc_explore.specs.Moves.{moves_of_thread, moves_up_to, is_begin};

use std::alloc::{AllocError, Global};

/// The next step of a thread: one phase of its call, or an answer from outside.
#[derive(Clone, Copy, Debug, PartialEq, Eq)]
pub enum Act {
    /// Its next item begins: a call makes its first phase, another program writes the store, or a key is invalidated.
    Begin,
    /// Its loader reads the store.
    Read,
    /// Its loader fails.
    LoadFails,
    /// Its entry processor runs. If its loader is asked, it reads the store.
    Process,
    /// Its entry processor runs. If its loader is asked, it fails.
    ProcessLoadFails,
    /// Its entry processor runs, and then fails. If its loader is asked, it reads the store.
    ProcessFails,
    /// Its writer does as it was asked.
    Write,
    /// Its writer fails, and has changed nothing.
    WriteFails,
    /// Its writer fails, and has changed the store.
    WriteLies,
    /// The last phase of its call.
    Commit,
    /// It asks for the answer of the load that it has joined.
    PickUp,
}

impl Act {
    /// Whether an item begins.
    pub(crate) fn is_begin(self) -> bool
        ensures { result ≡ is_begin self }
    {
        matches!(self, Act::Begin)
    }
}

/// A move of a schedule.
#[derive(Clone, Copy, Debug, PartialEq, Eq)]
pub struct Move {
    /// The thread, from 0.
    pub thread: usize,
    /// The act of the thread.
    pub act: Act,
}

/// Appends a move.
fn put_move(moves: &mut Vec<Move>, thread: usize, act: Act) -> Result<(), AllocError>
    ensures { OnOk result (
        moves.new.items ≡ moves.old.items ++ record { thread = thread; act = act } ∷ []) }
{
    moves.push(Move { thread, act })?;
    Ok(())
}

/// Appends the moves of a thread.
fn put_moves(moves: &mut Vec<Move>, thread: usize) -> Result<(), AllocError>
    ensures { OnOk result (moves.new.items ≡ moves.old.items ++ moves_of_thread thread) }
{
    put_move(moves, thread, Act::Begin)?;
    put_move(moves, thread, Act::Read)?;
    put_move(moves, thread, Act::LoadFails)?;
    put_move(moves, thread, Act::Process)?;
    put_move(moves, thread, Act::ProcessLoadFails)?;
    put_move(moves, thread, Act::ProcessFails)?;
    put_move(moves, thread, Act::Write)?;
    put_move(moves, thread, Act::WriteFails)?;
    put_move(moves, thread, Act::WriteLies)?;
    put_move(moves, thread, Act::Commit)?;
    put_move(moves, thread, Act::PickUp)?;
    Ok(())
}

/// Each move that a program of `threads` threads can have, thread by thread.
pub(crate) fn moves_up_to(alloc: Global, threads: usize) -> Result<Vec<Move>, AllocError>
    ensures { IfOk result (λ moves. moves.items ≡ moves_up_to threads) }
{
    let mut moves = Vec::new(alloc);
    for thread in 0..threads {
        put_moves(&mut moves, thread)?;
    }
    Ok(moves)
}
