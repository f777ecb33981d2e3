//! The faults of bulk calls.
ghost use Rattle.std.specs.Prelude.{◌≡◌, [], IfNone};
ghost use Rattle.jc_bulk.specs.Bulk.{NamesNoKey, TellsDone};

use indexmap::IndexMap;
use jc_types::{Key, Refusal, Value};
use std::alloc::Global;
use thiserror::Error;

/// The outcome of a bulk call that was refused whole, or of which a key failed. Its text is that of its cause.
#[derive(Debug, Drop, Error)]
#[error("{cause}")]
pub struct BulkFault {
    /// The first fault or refusal that the call met; refusals that are put off don't count. A call that is refused whole has
    /// `TooManyKeys`, if it names more than [`BULK_KEYS_MAX`](jc_types::BULK_KEYS_MAX) keys, or `OutOfMemory`.
    pub cause: Refusal,
    /// Each key that ended in a fault or a refusal, with it. It is empty if the call was refused whole, and also if a writer
    /// failed and left no key.
    pub failed: IndexMap<Key, Refusal>,
    /// For a `getAll`: each key that has a value, with the value.
    pub found: IndexMap<Key, Value>,
}

impl BulkFault {
    /// The fault of a call that is refused whole, and so names no key. It takes no memory.
    pub fn of_whole_call(alloc: Global, cause: Refusal) -> BulkFault
        ensures { NamesNoKey result cause }
    {
        BulkFault {
            cause,
            failed: IndexMap::new(alloc),
            found: IndexMap::new(alloc),
        }
    }
    /// The result of a call with this cause, if any, and these failed keys: that it is done, or its fault. It takes no memory.
    ///
    /// Condition: without a cause no key failed.
    pub fn unless_done(
        alloc: Global,
        cause: Option<Refusal>,
        failed: IndexMap<Key, Refusal>,
    ) -> Result<(), BulkFault>
        requires { IfNone cause (failed.entries ≡ []) }
        ensures { TellsDone result cause failed.entries }
    {
        match cause {
            None => Ok(()),
            Some(cause) => Err(BulkFault {
                cause,
                failed,
                found: IndexMap::new(alloc),
            }),
        }
    }
}
