//! The entries of one stripe, in order of use (LRU).
//!
//! Why it is so:
//! - The entries are on the kit's `lru`, because a look-up, a use, an insertion and a removal then cost the same however many
//!   entries there are. Each entry has a block of its own, which is allocated when its key is inserted.
//! - Contracts leave open when an allocation fails, because that is the allocator's to decide. They define what an insertion with
//!   cause `Memory` leaves.
#![tactic(auto)]

pub mod entries;

pub use entries::{Entries, Inserted};
