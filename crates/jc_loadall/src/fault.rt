//! The faults of a `loadAll` of clients.
use jc_bulk::BulkFault;
use thiserror::Error;

/// The outcome of a `loadAll` of clients that had no client, that was refused whole, or of which a key failed.
#[derive(Debug, Drop, Error)]
pub enum LoadAllFault {
    /// The list of clients is empty, so nothing was loaded. A call needs at least one client.
    #[error("there is no client that could load")]
    NoClient,
    /// A key failed, or the call was refused whole. Its text is that of the cause.
    #[error("{0}")]
    Failed(BulkFault),
}
