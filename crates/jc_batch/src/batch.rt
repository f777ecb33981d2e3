//! The batch of one call of a writer.
use crate::delete_batch::DeleteBatch;
use crate::write_batch::WriteBatch;

/// The batch of a bulk call that changes the store: either kind is one call of the writer.
#[derive(Drop)]
pub enum Batch {
    /// One call of `writeAll`.
    Writes(WriteBatch),
    /// One call of `deleteAll`.
    Deletes(DeleteBatch),
}
