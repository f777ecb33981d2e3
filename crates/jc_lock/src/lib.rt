//! A lock round a stripe, which knows what each of its users has seen of the stripe's history.
//!
//! One holder at a time takes the stripe, makes at most one phase, and gives it back. Every user has a [`Seat`], which takes no
//! bytes: contracts see in it the prefix of the history that its session has seen, and the session's own steps.
//!
//! The lock is one word and one slot of an `atomic_table`. The table's invariant between any two of its steps is `LockRule` in
//! `specs/Rule.antt`; the effect of each call on a seat's view is in `specs/Views.antt`.
//!
//! Why it is so:
//! - A user's knowledge is a seat, a value of its own without bytes, so that contracts can state it without a cost at run time.
//! - There is one seat for each session and stripe, because a seat's own steps are all those of its session there.
//! - Only the first seat gives out session numbers, so that no two sessions get the same one.
//! - Telling a seat what another has seen is a split and a join, so that the table needs no further kind of step.
//! - A lock is made held, and opened by its first give, because a give is the step that puts the stripe into the slot.
#![tactic(auto)]

mod lock;
mod rule;
mod view;

pub use lock::{HistLock, Seat};
pub use view::View;
