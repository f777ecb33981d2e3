//! The database, which all its loaders and writers share.
ghost use Rattle.std.specs.Prelude.{◌<◌, IfErr};
ghost use Rattle.jc_sqlite.specs.Opening.{HasOwnTable};

use crate::failure::{Failure, OpenCause, OpenError};
use crate::opening::{OpenOptions, open_file};
use crate::shared::Shared;
use sqlite::{Connection, Error, ErrorCode, File, FileStore};
use std::alloc::{AllocError, Global};
use std::sync::{Arc, Mutex, Wait};

const NO_MEMORY: OpenCause = OpenCause::Failed(Error::SqliteFailure(ErrorCode::OutOfMemory));

/// A SQLite file with a table of keys and values, behind a cache.
///
/// The table is `entry`, with the columns `key` and `value`, both `BLOB NOT NULL`, and `key` its primary key: [`table::create`]
/// has its text, and a table of another text is refused. Any program that reads SQLite, such as `sqlite3`, can read it once this
/// database is dropped: until then the file is locked. Beside the file there may be a second one, whose name ends in `-wal`; keep
/// both together.
///
/// A file has one connection at a time. So all loaders and writers of a database share its connection, behind a lock. Calls of
/// different sessions wait for one another here, even if the cache lets them run at the same time. A `load_all` is a query for
/// each key, and holds the lock until the last one. A `write_all` or a `delete_all` is one transaction, and waits for the disk
/// once: a service that writes much should make few calls for many keys.
#[derive(Drop)]
pub struct Database {
    path: String,
    shared: Arc<Mutex<Shared>, Global>,
}

impl Database {
    /// Opens a file as [`Database::open_with`] does, in one try: a file that is locked is an error at once.
    pub fn open(rt: &HostRuntime, path: &str) -> Result<Database, OpenError> {
        Database::open_with(rt, path, &OpenOptions::ONCE)
    }

    /// Opens a file, or makes it, and makes the table if it isn't there. If the file is locked, it tries again, according to the
    /// options: it sleeps between two tries, and waits for nothing else.
    ///
    /// Errors have the path and the cause: `Locked` if the file was still open at the last try, in this process or another;
    /// `OtherTable` if the file has another `entry`; `Failed` with `CannotOpen` if it can't be opened or made, with
    /// `NotADatabase` or `DatabaseCorrupt` if it is no database, and otherwise with the error of a read or a write of the file. A
    /// file that is no database, or has another `entry`, is left as it is, possibly with an empty second file beside it.
    pub fn open_with(
        rt: &HostRuntime,
        path: &str,
        options: &OpenOptions,
    ) -> Result<Database, OpenError> {
        match open_file(rt, path, options) {
            Ok(connection) => Database::over(rt.alloc(), path, connection),
            Err(cause) => Err(OpenError::of(rt.alloc(), path, cause)),
        }
    }

    /// A database over a file that is open. Condition: its table was found to be its own.
    fn over(
        alloc: Global,
        path: &str,
        connection: Connection<FileStore<File>>,
    ) -> Result<Database, OpenError>
        requires { HasOwnTable connection }
    {
        let Ok(kept) = String::from_str(alloc, path) else {
            return Err(OpenError::of(alloc, path, NO_MEMORY));
        };
        match Arc::new(alloc, Mutex::new(Shared::new(connection))) {
            Ok(shared) => Ok(Database { path: kept, shared }),
            Err(_failed) => Err(OpenError {
                path: kept,
                cause: NO_MEMORY,
            }),
        }
    }

    /// Closes the file and opens it again, as [`Database::open_with`] does. The loaders and writers stay, and continue with the
    /// new connection. Use it if a failure of the disk has shut the connection (`CLOSED`). It does no harm otherwise: all that
    /// was written is in the file. It waits for the lock, and holds it until it is done: a call meanwhile waits for the new
    /// connection.
    ///
    /// After an `Err` the database is shut: each call fails with `CLOSED`, until a later `reopen` succeeds. Meanwhile another
    /// program may open the file. Of the call whose failure shut the connection, the file has all or nothing, so the cache's
    /// entries for its keys may be older. The last error stays.
    pub fn reopen(
        &self,
        host: &HostRuntime,
        rt: &impl Wait,
        options: &OpenOptions,
    ) -> Result<(), OpenError> {
        let path = self.path.as_str();
        match self.shared.lock(rt).reopen(host, path, options) {
            Ok(()) => Ok(()),
            Err(cause) => Err(OpenError::of(host.alloc(), path, cause)),
        }
    }

    /// The number of entries in the table. It waits for the lock. An `Err` has the failure's code, which isn't 0.
    pub fn entry_count(&self, rt: &impl Wait) -> Result<u64, u32>
        ensures { IfErr result (λ code. 0 < code) }
    {
        self.shared.lock(rt).entry_count()
    }

    /// The last failure of a loader or a writer of this database, or none if none has failed. It stays after a later success, and
    /// after a call that fails because an earlier failure has shut the connection. It waits for the lock.
    ///
    /// `Display` writes its text, such as `at the key "ann": database or disk is full`. A call of the cache returns only its
    /// code.
    pub fn last_error(&self, rt: &impl Wait) -> Option<Failure> {
        self.shared.lock(rt).last_error()
    }

    pub(crate) fn share(&self) -> Result<Arc<Mutex<Shared>, Global>, AllocError> {
        Arc::try_clone(&self.shared)
    }
}
