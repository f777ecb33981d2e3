//! Every outcome of a small program of threads: the replies that they can get, and the contents of the cache and the store at the
//! end.
//!
//! A program is a cache's shape, the entries of its store, and a list of calls for each thread. [`explore`] follows every
//! interleaving of their phases and of the answers of loaders, writers and processors. It returns each final state once, with a
//! schedule that leads there. The essence of a world alone decides what it may do next (`jc_world::essence`), so of all schedules
//! that lead to one essence it follows one.
//!
//! Bulk calls, calls that give up, reopening the cache, and failed allocations are left out.
#![tactic(auto)]

mod events;
mod final_state;
mod key;
mod known;
mod moves;
mod places;
mod program;
mod replies;
mod scene;
mod search;
mod watch;

pub use final_state::FinalState;
pub use moves::{Act, Move};
pub use program::{Faults, Item, Program};
pub use replies::ThreadReply;
pub use search::{ExploreFault, Explored, Finding, OUTCOMES_MAX, explore};
pub use watch::{Unwatched, Watch};
