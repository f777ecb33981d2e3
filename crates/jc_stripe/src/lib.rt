//! One stripe of a cache: a pure machine of phases. A first phase decides and perhaps reserves its key; then the loader, the
//! writer or the processor is asked, while the stripe is free for others; a last phase appends the step. A `get` of a key that is
//! being loaded joins that load, and later picks up its answer.
//!
//! Why it is so:
//! - There is one kind of ticket, with one ask and one withdrawal, because the ticket's reservation (`First`) names whom it asks.
//!   There are three commits, because the answers of a loader, a writer and a processor have different types.
//! - A ticket keeps its reservation, 840 bytes, in a box that the stripe has made and lends it, so that a phase allocates nothing
//!   and a ticket is as small as a pointer.
//! - The reserved places of the history are a function of the state, three for each reservation and one for each joiner that
//!   waits, so that no phase can forget to free one.
//! - The conditions of a first phase are required and not tested, because the order of a session's calls rests on them, and a
//!   test would read the whole history.
//! - A phase that ends a call writes its reply into the caller's buffer and returns the rest (`Appended`, `Started`, `Picked`), because a
//!   reply that is returned is cleared and copied at each function on the way: 250 bytes each time, even without a value.
#![tactic(auto)]

mod appending;
mod begun;
mod call_rules;
mod desk;
mod life;
mod log;
mod marks;
pub mod phase_laws;
mod reopening;
pub mod same;
mod stripe;
mod stripe_tables;
mod ticket;
mod ticket_boxes;

pub use begun::{Appended, Eviction, Picked, Started};
pub use desk::{CommitDone, Desk, FirstAnswer, OpenFault, PickUpAnswer, SweepAnswer, ValueMoves};
pub use jc_mutentry::{AskProcess, ProcDone};
pub use jc_outside::{LoadDone, Origin, WriteDone, played_load, played_write};
pub use reopening::{ReopenedStripes, keeps_or_drops, reopen};
pub use stripe::Stripe;
pub use ticket::{Ask, First, Join, Reservation, Ticket};
