//! Entry processors: their asks, their runs on a mutable entry, and their outcomes (JSR 107, "Entry Processors";
//! `javax.cache.processor`).
//!
//! Why it is so:
//! - The definition of a processor's calls looks back in their list, while the code keeps one state, so that neither copies the
//!   other.
//! - A session without a loader runs a processor with a loader that finds nothing. The trait has a method with a body for this
//!   (`process_alone`), so no processor has to write one.
#![tactic(auto)]

mod ask;
mod done;
mod entry;
mod entry_core;
mod played;
mod processor;
mod run;

pub use ask::AskProcess;
pub use done::ProcDone;
pub use entry::MutableEntry;
pub use entry_core::{EntryCore, GetOutcome};
pub use played::{played_process, said_process};
pub use processor::EntryProcessor;
pub use run::run_processor;
