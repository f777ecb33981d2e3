//! The text of scripts: what a line asks for, and how what happened is printed.
//!
//! - [`lines`] cuts bytes into lines.
//! - [`read`] reads a line's words, and says what the line asks for.
//! - [`print`] prints what happened, and where in its line a fault is.
//! - [`input`] takes all that a reader gives, and gives a writer all that was printed.
//!
//! Why it is so:
//! - No line is played here, because programs of threads are text as well, and are explored without a script.
//! - Failures are noted by the streams (`Noted`), not by who reads, because a contract over any reader can't state that a read failed.
#![tactic(auto)]

pub mod fault;
pub mod input;
pub mod laws;
pub mod lines;
pub mod noted;
pub mod print;
pub mod read;

pub use fault::{Fault, ReadError};
pub use noted::Noted;
pub use print::{put, put_flag, put_number};
pub use read::commands::op_name;
