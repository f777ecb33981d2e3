//! The calls that have joined the load of another call, and the state of that load.
//!
//! A `get` whose key is missing and is being loaded by another call asks no loader of its own: it joins that load and waits
//! (request coalescing). When the load commits, each joiner has its answer; when it is withdrawn, each is told to retry (JSR 107,
//! "Integration": read-through; that loads are shared is this provider's own).
//!
//! Why it is so:
//! - Joiners that wait and answers that were not picked up are one list, each with a state. So one limit of 64 is the length of
//!   that list, answers keep the order of joining, and no answer is there twice.
//! - A parked answer is two places and no reply, because the reply is in the history.
#![tactic(auto)]

mod joiner;
mod joiners;

pub use joiner::{JoinState, Joiner};
pub use joiners::Joiners;
