//! What is outside a cache: loaders, writers and completion listeners that a caller brings, and their answers.
//!
//! A call outside is made while the session holds no stripe, and takes an ask, which only the ticket of a reservation gives. It
//! returns a done value, which only the commit of that reservation spends. So each answer that comes into a cache was given once,
//! for one reservation (JSR 107, "Integration").
//!
//! Why it is so:
//! - A done value is made in this crate, below the stripes, of an ask of any type, so that loaders and writers need nothing of a
//!   stripe, and only this crate makes a live answer.
//! - A done value stands for its ask, which is spent when it is made and is then seen by clauses alone (a `Snapshot`, no bytes),
//!   so that it is as large as its answer.
//! - Hands have the loader and the writer, because a mere count of stripes could be made anew by a caller who wants to ask while
//!   it holds a stripe.
#![tactic(auto)]

mod ask;
mod calls;
mod calls_all;
mod done;
mod hands;
mod listener;
mod loader;
mod writer;

pub use ask::{Ask, AskWrite};
pub use calls::{call_loader, call_writer, load_answer};
pub use calls_all::{call_loader_all, call_writer_all};
pub use done::{LoadDone, Origin, WriteDone, played_load, played_write};
pub use hands::{Hands, Outside};
pub use jc_batch::{Answers, LoadBatch};
pub use listener::CompletionListener;
pub use loader::CacheLoader;
pub use writer::CacheWriter;
