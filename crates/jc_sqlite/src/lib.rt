//! A loader and a writer over a SQLite file: a table of keys and values.
//!
//! [`Database`] is the file. Each session brings a [`DatabaseLoader`] and a [`DatabaseWriter`] of it (JSR 107, "Integration"),
//! which share the database's one connection behind a lock. A call that fails returns a code, one of [`code`]'s constants;
//! [`Database::last_error`] has the text of the last failure. The statements themselves, over any connection, are in [`table`].
#![tactic(auto)]

mod batch;
pub mod code;
mod database;
mod failure;
mod loader;
mod opening;
mod shared;
pub mod table;
mod writer;

pub use code::code_of;
pub use database::Database;
pub use failure::{Failure, OpenCause, OpenError};
pub use loader::DatabaseLoader;
pub use opening::OpenOptions;
pub use writer::DatabaseWriter;
