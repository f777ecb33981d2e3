//! Loaders, writers, entry processors and listeners without contracts of their own (JSR 107, "Integration" and "Entry
//! Processors").
//!
//! [`Load`], [`Write`], [`Update`] and [`Listen`] have only plain methods. A wrapper adapts each to the trait that a cache calls:
//! [`Loading`] a [`jc_outside::CacheLoader`], [`Writing`] a [`jc_outside::CacheWriter`], [`Updating`] a
//! [`jc_mutentry::EntryProcessor`], and [`Listening`] a [`jc_outside::CompletionListener`]. A program puts the wrapper into a box
//! in its `main`, and hands the box to a session or to a call:
//!
//! ```rust,ignore
//! let loader: Box<dyn CacheLoader + Send + Drop> = Box::new(alloc, Loading { loader: rows })?;
//! let writer: Box<dyn CacheWriter + Send + Drop> = Box::new(alloc, Writing { writer: table })?;
//! let mut visit: Box<dyn EntryProcessor + Send + Drop> = Box::new(alloc, Updating { processor: Visit })?;
//! ```
//!
//! **Their contracts** state only that they can't break: no index, sum or cast goes wrong in them, and those that don't wait
//! return. Their answers are free: unless the author states relations, the default relations hold of every answer. So the cache's
//! contracts state for a call that the loader was asked once, for this key, and what it answered; they don't state that this is
//! the store's value. To state more about a loader, a writer or a processor, give the trait's relations, or implement the full
//! trait.
//!
//! **Codes.** A failure is a `u32` of the author's own, which the caller gets as `LoaderFailed(code)`, `WriterFailed(code)` or
//! `ProcessorFailed(code)`. The database's own error stays with the loader. The loader can keep its last error where the program
//! can look it up, here behind a lock that both share:
//!
//! ```rust,ignore
//! struct Rows<R: Wait + Drop> {
//!     rt: R,
//!     table: Table,
//!     /// The last error of the database. The program keeps the other handle.
//!     last: Arc<Mutex<Option<TableError>>>,
//! }
//!
//! impl<R: Wait + Drop> Load for Rows<R> {
//!     fn load(&mut self, key: &Key) -> Result<Option<Value>, u32> {
//!         match self.table.find(key.bytes()) {
//!             Ok(row) => Ok(row),
//!             Err(error) => {
//!                 let code = error.code();
//!                 *self.last.lock(&self.rt) = Some(error);
//!                 Err(code)
//!             }
//!         }
//!     }
//! }
//! ```
#![tactic(auto)]

mod attempts;
mod listen;
mod load;
mod update;
mod write;

pub use listen::{Listen, Listening};
pub use load::{Load, Loading};
pub use update::{Update, Updating};
pub use write::{Write, Writing};
