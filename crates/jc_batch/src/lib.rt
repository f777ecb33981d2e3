//! Batches: the keys of a bulk call that one call of the loader or the writer is asked for, and which of them were written (JSR
//! 107, "Integration"; `CacheLoader.loadAll`, `CacheWriter.writeAll`, `deleteAll`).
//!
//! A batch is made with all its memory before the first phase of the bulk call. It is filled while keys are reserved. A loader is
//! given its keys, and answers by [`Answers`]; a writer is given its collection, and what it leaves there splits the batch's
//! keys. Neither filling nor answering nor splitting takes memory. The results of a bulk call are filled in the same way
//! ([`insert_new`]).
//!
//! Why it is so:
//! - A batch is made with the memory of its split, before the first phase of its round, so that no outcome is lost for lack of
//!   memory after the writer has changed the store.
#![tactic(auto)]

mod answers;
mod batch;
mod batch_keys;
mod delete_batch;
mod leftover;
mod load_batch;
mod new_entry;
mod split;
mod write_batch;

pub use answers::Answers;
pub use batch::Batch;
pub use batch_keys::BatchKeys;
pub use delete_batch::DeleteBatch;
pub use leftover::Leftover;
pub use load_batch::LoadBatch;
pub use new_entry::insert_new;
pub use split::{Outcomes, Split};
pub use write_batch::WriteBatch;
