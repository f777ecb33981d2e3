//! Clients of a cache, and services of many of them on threads (JSR 107, `javax.cache.Cache`).
//!
//! A [`Client`] is a session, together with the cache that it may call. Its calls have no condition, so its user states nothing
//! to the prover. [`serve`] runs a whole service: it opens a cache, runs a client for each session on a thread, and ends the
//! cache. The crate also has what a service needs of the crates below: the owner and the sessions of a cache, keys and values,
//! the shape of a cache, refusals, and the traits of its loader, writer and entry processors.
#![tactic(auto)]

mod client;
mod lists;
mod serving;

pub use client::Client;
pub use jc_cache::{
    Answers, Cache, CacheLoader, CacheOwner, CacheWriter, CloseFault, Closed, ClosedStripe, Config,
    EntryProcessor, Event, Key, MutableEntry, Op, Outside, Refusal, ReopenFault, Reopened, Reply,
    Session, SessionFault, Statistics, Value,
};
pub use lists::{clients, sessions_of};
pub use serving::{Service, serve, work_all};
