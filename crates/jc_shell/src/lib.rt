//! The shell: lines of a script that are answered one after another, as they are typed.
//!
//! Why it is so:
//! - A session's accepted lines are a script, and the answers to them are its transcript, because both are defined by the
//!   script's own definition.
//! - A line with a fault is told as a run of that script and this line would tell it, with the line's number there, and does
//!   nothing, so that a session never differs from a run.
//! - `undo` plays the lines before the last one anew, on a world of their own, because no step of a world can be taken back.
//! - The prompt is written to the same stream as the answers, because their order then is fixed. It is empty if nobody types.
//! - A script is saved through a trait, so that a contract can state which bytes were saved.
#![tactic(auto)]

pub mod laws;
pub mod run;
pub mod save;
mod session;
pub mod words;

pub use run::ShellFault;
pub use save::Save;
