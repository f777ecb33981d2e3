//! Calls with many keys on a cache that threads share (JSR 107, `javax.cache.Cache`): [`get_all`], [`put_all`], [`remove_all`],
//! [`remove_every`] (`removeAll` without keys) and [`clear`], and the part of `loadAll` that one session does ([`load_keys`]).
//!
//! Each is one call of its session, with one number. It makes one step of the key's stripe for each key that isn't refused; the
//! whole isn't atomic. It works in rounds. A round begins each key that it can, without waiting, calls the loader or the writer
//! once for those that it has reserved, and commits them; then it waits for the loads that it has joined. A key that another call
//! has reserved is put off to a later round. All memory is taken before the first phase, except for the batch of a round after
//! one that has asked the writer.
//!
//! A call that fails returns a [`BulkFault`]: the cause, each key that failed, and the values that were found.
//!
//! Why it is so:
//! - Contracts state a call by what its session has seen, key by key, so that the order in which it picks up the loads that it
//!   has joined doesn't matter.
#![tactic(auto)]

mod carrying;
mod fault;
mod getting;
mod loading;
mod outside;
mod rounds;
mod sweeping;
mod writing;

pub use fault::BulkFault;
pub use getting::get_all;
pub use loading::load_keys;
pub use sweeping::{clear, remove_every};
pub use writing::{put_all, remove_all};
