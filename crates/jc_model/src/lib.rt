//! The definition of a cache (JSR 107, JCache 1.1): the operations, the answers of a loader, a writer and an entry processor, the
//! entry and the reply of a step, and the events of a history.
//!
//! - [`event`] has the types that every crate uses.
//! - [`table`] states what each operation asks for, leaves and replies, as methods of [`event::Op`].
//! - [`batches`] states the meaning of a bulk write for each of its keys.
//! - [`processor`] has an entry processor's calls on its entry.
//! - [`statistics`] has the counts of a history.
//! - [`contents`] has a cache's contents as a map.
//! - [`same`] has the tests of equality, which the crates above use.
//! - [`legal`] is the slow checker of one stripe's history. It rests on `callers` (the callers' order), `stripes` (the keys of
//!   one stripe), `listed` (an opening as a plain list) and `reader` (reading event by event).
//!
//! Why it is so:
//! - `Op` has all fourteen operations, and the meaning of an entry processor's calls is defined beside them, so that a new
//!   operation adds code and changes no definition. Twelve of them are calls by themselves; `Clear` and `LoadAll` are one key of
//!   a bulk call.
//! - A history is a list of groups, each of a step and all that belongs to it, and it is judged group by group, because whether
//!   an eviction is lawful depends on its step.
//! - The numbers of a session's calls rise, but may leave gaps, because a refused call uses its number up.
#![tactic(auto)]

pub mod batches;
mod callers;
mod checker;
pub mod contents;
pub mod event;
mod listed;
pub mod processor;
mod reader;
pub mod same;
pub mod statistics;
mod stripes;
pub mod table;
pub mod table_laws;

pub use batches::{batch_answer, is_among};
pub use checker::{is_apart, legal};
pub use contents::Contents;
pub use event::{
    Cause, Change, Effect, Event, LoadAnswer, Op, OpKind, Out, ProcessAnswer, Reply, WriteAnswer,
};
pub use processor::{EntryAnswer, EntryCall};
pub use statistics::Statistics;
pub use stripes::is_opening_of;
pub use table::{LentChange, LoaderAsk, OpValues};
