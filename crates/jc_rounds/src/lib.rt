//! The rounds of a call with many keys on a cache that threads share (JSR 107, `javax.cache.Cache`: `getAll`, `putAll`, `removeAll`,
//! `clear`, `loadAll`, `invokeAll`), for the crates that have these calls.
//!
//! Such a call is one call of its session, with one number. It makes one step of the key's stripe for each key that isn't
//! refused. It works in rounds:
//!
//! - A round begins each key that it can, without waiting. [`BulkCall::reserve`] makes rounds until one has reserved keys, or
//!   each key has ended.
//! - The caller then asks outside for these keys, in [`LoadCall`]s, [`WriteCall`]s or by a processor.
//! - [`BulkCall::end_round`] commits the keys by the answers, and waits for the loads that the round has joined.
//! - A key that another call has reserved is put off to a later round, before which the call pauses ([`BulkCall::wait`]).
//!
//! Why it is so:
//! - The caller makes the calls outside, and not a method of a trait, because the toolchain states no method with a `dyn` in its
//!   signature (here the session's loader and writer) of a type that holds another one (the processor).
//! - Tickets and joins are two vectors with room for what all stripes may have out, so that each round uses the same memory.
//! - A round has room for all its keys, or for one more than all stripes may have reserved, because more than that can't be
//!   reserved.
#![tactic(auto)]

mod answers;
mod bulk_call;
mod committing;
mod ends;
mod key;
mod load_call;
mod picking;
mod progress;
mod rounds;
mod starting;
mod targets;
mod write_call;

pub use answers::{RoundAnswers, change_after};
pub use bulk_call::{BulkCall, Rooms};
pub use ends::{OfEnd, add_entries, insert_some};
pub use load_call::{LoadCall, SpentLoads};
pub use progress::KeyProgress;
pub use targets::Targets;
pub use write_call::WriteCall;
