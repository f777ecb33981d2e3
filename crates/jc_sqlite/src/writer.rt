//! A writer that changes the table.
use crate::database::Database;
use crate::shared::Shared;
use indexmap::{IndexMap, IndexSet};
use jc_outside::CacheWriter;
use jc_types::{Key, Value};
use std::alloc::{AllocError, Global};
use std::sync::{Arc, Mutex, Wait};

/// A writer of a database, for one session. A call waits for the database's lock.
///
/// Each call is one transaction: when it returns `Ok`, its changes are in the file, and stay there if the machine stops. So
/// `write_all` and `delete_all` leave nothing in the collection, or all of it. An `Err` has the failure's code, and the database
/// keeps the failure.
///
/// After an `Err` nothing of the call is in the file, with one exception: a failure of the disk may shut the connection, which
/// fails every later call with `CLOSED`, until [`Database::reopen`] has opened it again. Then, as after a crash, the file has the
/// call's whole transaction or nothing of it: a sync that failed may have written all. The cache's entries for these keys may be
/// older than the file, so load them again.
#[derive(Drop)]
pub struct DatabaseWriter<R: Wait + Drop> {
    rt: R,
    shared: Arc<Mutex<Shared>, Global>,
}

impl<R: Wait + Drop> DatabaseWriter<R> {
    /// A writer of this database. It takes no memory: an `Err` says that there are too many handles.
    pub fn new(rt: R, database: &Database) -> Result<Self, AllocError> {
        Ok(DatabaseWriter {
            rt,
            shared: database.share()?,
        })
    }
}

impl<R: Wait + Drop> CacheWriter for DatabaseWriter<R> {
    ghost use Rattle.std.specs.Prelude.{[], ◌<◌, IfErr};
    ghost use Rattle.jc_sqlite.specs.Leaving.{LeavesAllOrNone};

    ghost write_state = { λ w. [] };

    ghost writes = { λ w key change answer after. IfErr answer (λ code. 0 < code) };

    ghost writes_all = { λ w entries answer left after. LeavesAllOrNone entries answer left };

    ghost deletes_all = { λ w keys answer left after. LeavesAllOrNone keys answer left };

    fn write(&mut self, key: &Key, value: &Value) -> Result<(), u32> {
        self.shared.lock(&self.rt).write(key, value)
    }

    fn delete(&mut self, key: &Key) -> Result<(), u32> {
        self.shared.lock(&self.rt).delete(key)
    }

    fn write_all(&mut self, entries: &mut IndexMap<Key, Value>) -> Result<(), u32> {
        self.shared.lock(&self.rt).write_all(entries)
    }

    fn delete_all(&mut self, keys: &mut IndexSet<Key>) -> Result<(), u32> {
        self.shared.lock(&self.rt).delete_all(keys)
    }
}
