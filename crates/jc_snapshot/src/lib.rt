//! Snapshots: a world's state as few numbers, without its events. Worlds with equal snapshots continue in the same way, and two
//! worlds of one essence have equal snapshots.
//!
//! Why it is so:
//! - A list of things is a list of their numbers in a table of the things met so far, because there are few different things, and
//!   some take 1,700 bytes.
//! - Parts and joins are in the order of their keys, because a map has no order of its own, and one essence would otherwise have
//!   several snapshots.
//! - A snapshot is one list of numbers, each row after its length, because it then takes one block of memory, and two are
//!   compared by one comparison.
#![tactic(auto)]

mod calls;
pub mod heads;
pub mod laws;
mod rows;
mod same;
pub mod seen;
pub mod snapshot;
mod sorted;
mod stripes;
pub mod table;

pub use heads::CallHead;
pub use seen::Seen;
pub use snapshot::Snapshot;
pub use table::{Comparable, Table};
