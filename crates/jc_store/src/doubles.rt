//! Test doubles of loaders and writers, which count their calls.
//!
//! A double is a wrapper with the relations of what it wraps, so that a test can wrap any loader or writer, except one in a box.

mod counting;
mod counts;

pub use counting::{Counting, SharedCounts};
pub use counts::{Call, CallCounts};
