//! A pool of workers, which do the pieces of one job side by side: each piece once.
//!
//! The caller brings the workers, values of one type that is a [`Work`], and lends them to [`run_pieces`] with the number of
//! pieces. Each worker claims the next piece, does it, and claims again, until none is left. So a slow piece holds up one worker,
//! and the others do more. The call returns once all workers have ended.
//!
//! ```rust,ignore
//! /// A worker that notes the pieces that it did. `Tally` of `jc_bulk_tests` is this one with its relations.
//! struct Tally {
//!     done: Vec<usize>,
//! }
//!
//! impl Work for Tally {
//!     fn piece(&mut self, piece: usize) {
//!         self.done.push_reserved(piece);
//!     }
//! }
//!
//! run_pieces(alloc, &rt, workers.as_mut_slice(), 100)?;
//! ```
//!
//! A worker keeps in its own fields what it did, and its results. Workers share nothing that they write. If each of them needs
//! something that the caller has, for example a session, the worker is a [`WorkWith`], and [`run_pieces_with`] lends each worker
//! the tool at its own place.
//!
//! # What is proved
//!
//! After an `Ok` there is a share of the pieces for each worker (`DoesEachOnce` in `specs/Shares.antt`):
//!
//! - every number below the number of pieces is in exactly one share, and once there; no other number is in any;
//! - each worker did the pieces of its share, in rising order, and no others;
//! - these pieces, one after another, led from the worker (and its tool) before to the worker after; the worker's type states by
//!   `does` what one piece does;
//! - each worker has its former job, and can still do the pieces from that number on that it could do before.
//!
//! After an `Err` an allocation failed; no piece was done, and the workers are as they were. All memory is allocated before the
//! first piece. The stack grows as the logarithm of the number of workers.
//!
//! # What isn't proved
//!
//! - Which worker has which share, and how many pieces each one does.
//! - That workers run at the same time, and on how many threads: if no thread can be started, one thread does the work of several
//!   workers, one after another.
//! - That an `Err` is returned only if an allocation failed.
//! - That the call returns: it does if every piece does.
//!
//! # How
//!
//! The counter (`src/counter.rt`) is one word of an `atomic_table`, the number of the next piece, and a claim is one `fetch_add`
//! on it. Each thread has a claimer, a token that takes no bytes. Proofs see in it the pieces that were claimed with it, and the
//! number of workers that it is for. The invariant of the word and all claimers between any two steps is `CountsClaims` in
//! `specs/Rule.antt`. There are four kinds of step: the counter is made, a claimer is split, two are joined, a piece is claimed.
//! They are proved one by one in `proofs/Steps.antt`. In the end one claimer has all claims, and all workers have ended: so each
//! piece was claimed once.
//!
//! Why it is so:
//! - A worker states which pieces it can do (`can_do`), because a piece takes memory only if the worker brought it.
//! - A worker's share is a list that rises, because it claims from one number that only rises.
//! - Tools are lent in a slice, because everything about them is then known afterwards.
//! - The list of workers is halved for the threads, so that the stack stays small; the first worker stays on the calling thread.
//! - A thread that can't be started is no error, because the other threads can do its pieces.
#![tactic(auto)]

mod counter;
mod pool;
mod rule;
mod view;
mod work;

pub use pool::{run_pieces, run_pieces_with};
pub use work::{Work, WorkWith};
