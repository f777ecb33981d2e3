//! A store of record that many sessions read through and write through, for tests and programs.
//!
//! [`Store`] is the store itself. [`SharedStore`] is a store behind a lock, and makes a loader and a writer for each session (JSR
//! 107, "Integration"). [`Increment`] is an entry processor that counts in the store. [`Counting`] is a test double: a loader or a
//! writer that counts its calls.
#![tactic(auto)]

mod doubles;
mod increment;
mod loader;
mod shared;
mod store;
mod writer;

pub use doubles::{Call, CallCounts, Counting, SharedCounts};
pub use increment::Increment;
pub use loader::StoreLoader;
pub use shared::SharedStore;
pub use store::{NO_MEMORY, Store};
pub use writer::StoreWriter;
