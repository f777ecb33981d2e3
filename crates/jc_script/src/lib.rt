//! Scripts: lines of commands for a world, and the transcript that they print.
//!
//! A script is bytes, and so is its transcript: one line for each thing that happened, up to the first line with a fault.
//!
//! - [`play`] plays lines on a world.
//! - [`run`] runs a script whole, from its bytes to its transcript's.
//!
//! How a line is read, and how what happened is printed, is in `jc_text`.
//!
//! Why it is so:
//! - One table tells when a line is `not now`, for one key and for many, because each key of a call goes through the same steps.
//! - A script over the limit prints nothing, because a transcript is made whole before its first byte is written.
//! - `drop` of a joined call is `not now`, because a call that has joined a load has reserved nothing that it could give back.
#![tactic(auto)]

pub mod determinism;
pub mod play;
pub mod reached;
pub mod run;

pub use run::{RunEnd, RunFault};
