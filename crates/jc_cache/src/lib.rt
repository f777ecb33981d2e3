//! A cache of stripes, each under a lock of its own, that threads share; its sessions, and whole calls (JSR 107,
//! `javax.cache.Cache`).
//!
//! Threads share a cache by `&Cache`. Each thread has a session of its own, which it doesn't share; contracts state what a
//! session has seen of the cache. The crate also has what a service needs of the crates below: keys and values, the shape of a
//! cache, refusals, and the traits of its loader, writer and entry processors.
//!
//! Why it is so:
//! - Phase calls take tickets, joins and done values as the stripe gives them, and test what they need of the stripe once it is
//!   taken. Which cache a ticket comes from isn't tested: a ticket of another cache is taken if the same reservation is out here.
//! - A session shows by its seats that it is of a cache, since each seat is of one lock.
//! - `close` tests whether something is out, and only then takes memory. It returns `Busy` if somebody holds a stripe though all
//!   sessions are there; nobody can, but the lock's rule doesn't say so.
//! - Calls that make no phase take the stripe without the engine's door: look, meet, statistics, end of a generation, close.
#![tactic(auto)]

mod cache;
mod calls;
mod closing;
mod counting;
mod enlisting;
mod forgetting;
mod generations;
pub mod laws;
mod meeting;
mod owner;
mod phase_calls;
mod reopening;
mod skipping;
mod trying;

pub use cache::Cache;
pub use closing::{CloseFault, Closed, ClosedStripe};
pub use jc_model::{Event, Op, Reply, Statistics};
pub use jc_mutentry::{EntryProcessor, MutableEntry};
pub use jc_outside::{Answers, CacheLoader, CacheWriter, Outside};
pub use jc_session::{Session, SessionFault};
pub use jc_stripe::{
    Appended, Ask, First, Join, LoadDone, Picked, ProcDone, Started, Ticket, WriteDone,
};
pub use jc_types::{Config, Key, Refusal, Value};
pub use owner::CacheOwner;
pub use reopening::{ReopenFault, Reopened};
