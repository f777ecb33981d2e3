//! The state that all loaders and writers of a database share, behind a lock.
ghost use Rattle.std.specs.Prelude.{◌≡◌, ◌<◌, map, Some, None, IsSomeAnd, IfErr, OnOk, OnErr};
ghost use Rattle.sqlite.specs.Files.{over_files};
ghost use Rattle.jc_sqlite.specs.Opening.{HasOwnTable};
ghost use Rattle.jc_sqlite.specs.Batch.{RunsAsOne};
ghost use Rattle.jc_sqlite.specs.Statements.{write_sql, delete_sql, entry_row, key_row, ExecutesOnce, Counts, Loads};
ghost use Rattle.jc_sqlite.specs.Leaving.{LeavesAllOrNone, failure_to_keep, IsShut, IsShutAtFirst, KeepsAnswer, AnswersOver, IsAt};
ghost use Rattle.jc_sqlite.specs.Leaving.{IsAtOneOf, OnCleanDisk, LoadsFromFile};

use crate::code::code_of;
use crate::failure::{Failure, OpenCause};
use crate::opening::{OpenOptions, open_file};
use crate::table;
use indexmap::{IndexMap, IndexSet};
use jc_outside::Answers;
use jc_types::{Key, Value};
use sqlite::{Connection, Error, ErrorCode, File, FileStore};

/// The file isn't open.
const SHUT: Error = Error::SqliteFailure(ErrorCode::Closed);

/// The one connection to the file, and the last failure. Each call keeps its failure, and returns the failure's code. A call that
/// fails because the connection is shut keeps the failure that shut it.
#[derive(Drop)]
pub struct Shared {
    connection: Option<Connection<FileStore<File>>>,
    last_error: Option<Failure>,
}

impl Shared {
    /// A connection, of which no call has failed. Condition: its table was found to be its own.
    pub(crate) fn new(connection: Connection<FileStore<File>>) -> Shared
        requires { HasOwnTable connection }
    {
        Shared {
            connection: Some(connection),
            last_error: None,
        }
    }

    /// Closes the file and opens it again. If that fails there is no connection, and each call fails with `CLOSED`.
    pub(crate) fn reopen(
        &mut self,
        rt: &HostRuntime,
        path: &str,
        options: &OpenOptions,
    ) -> Result<(), OpenCause>
        ensures open { OnOk result (IsSomeAnd self.new.connection HasOwnTable) }
        ensures shut { OnErr result (self.new.connection ≡ None) }
        ensures kept { self.new.last_error ≡ self.old.last_error }
    {
        self.connection = None;
        self.connection = Some(open_file(rt, path, options)?);
        Ok(())
    }

    pub(crate) fn last_error(&self) -> Option<Failure>
        ensures { result ≡ self.now.last_error }
    {
        self.last_error
    }

    pub(crate) fn entry_count(&mut self) -> Result<u64, u32>
        ensures code { IfErr result (λ code. 0 < code) }
        ensures answers { AnswersOver (IsShut None) (IsAt None (OnCleanDisk Counts))
            self.old.connection self.old.last_error result self.new.connection self.new.last_error }
    {
        let Some(connection) = &mut self.connection else {
            return Err(self.shut(None));
        };
        match table::entry_count(connection) {
            Ok(count) => Ok(count),
            Err(error) => Err(self.failed(Failure { key: None, error })),
        }
    }

    pub(crate) fn load(&mut self, key: &Key) -> Result<Option<Value>, u32>
        ensures code { IfErr result (λ code. 0 < code) }
        ensures answers { AnswersOver (IsShut (Some key.now)) (IsAt (Some key.now) (OnCleanDisk (Loads key.now)))
            self.old.connection self.old.last_error result self.new.connection self.new.last_error }
    {
        let Some(connection) = &mut self.connection else {
            return Err(self.shut(Some(*key)));
        };
        match table::load(connection, key) {
            Ok(found) => Ok(found),
            Err(error) => Err(self.failed(Failure {
                key: Some(*key),
                error,
            })),
        }
    }

    pub(crate) fn load_all(&mut self, keys: &[Key], answers: &mut Answers) -> Result<(), u32>
        ensures code { IfErr result (λ code. 0 < code) }
        ensures answers { AnswersOver (IsShutAtFirst keys.now)
            (IsAtOneOf keys.now (LoadsFromFile keys.now answers.old.by_key answers.new.by_key))
            self.old.connection self.old.last_error result self.new.connection self.new.last_error }
        ensures room { answers.new.room ≡ answers.old.room }
    {
        let Some(connection) = &mut self.connection else {
            return self.shut_at_first(keys);
        };
        match table::load_all(connection, keys, answers) {
            Ok(()) => Ok(()),
            Err(failure) => Err(self.failed(failure)),
        }
    }

    pub(crate) fn write(&mut self, key: &Key, value: &Value) -> Result<(), u32>
        ensures code { IfErr result (λ code. 0 < code) }
        ensures answers { AnswersOver (IsShut (Some key.now))
            (IsAt (Some key.now) (OnCleanDisk (ExecutesOnce write_sql (entry_row (key.now, value.now)))))
            self.old.connection self.old.last_error result self.new.connection self.new.last_error }
    {
        let Some(connection) = &mut self.connection else {
            return Err(self.shut(Some(*key)));
        };
        match table::write(connection, key, value) {
            Ok(()) => Ok(()),
            Err(error) => Err(self.failed(Failure {
                key: Some(*key),
                error,
            })),
        }
    }

    pub(crate) fn delete(&mut self, key: &Key) -> Result<(), u32>
        ensures code { IfErr result (λ code. 0 < code) }
        ensures answers { AnswersOver (IsShut (Some key.now))
            (IsAt (Some key.now) (OnCleanDisk (ExecutesOnce delete_sql (key_row key.now))))
            self.old.connection self.old.last_error result self.new.connection self.new.last_error }
    {
        let Some(connection) = &mut self.connection else {
            return Err(self.shut(Some(*key)));
        };
        match table::delete(connection, key) {
            Ok(()) => Ok(()),
            Err(error) => Err(self.failed(Failure {
                key: Some(*key),
                error,
            })),
        }
    }

    pub(crate) fn write_all(&mut self, entries: &mut IndexMap<Key, Value>) -> Result<(), u32>
        ensures left { LeavesAllOrNone entries.old.entries result entries.new.entries }
        ensures answers { AnswersOver (IsShut None) (IsAt None (RunsAsOne over_files write_sql (map entry_row entries.old.entries)))
            self.old.connection self.old.last_error result self.new.connection self.new.last_error }
    {
        let Some(connection) = &mut self.connection else {
            return Err(self.shut(None));
        };
        match table::write_all(connection, entries) {
            Ok(()) => Ok(()),
            Err(error) => Err(self.failed(Failure { key: None, error })),
        }
    }

    pub(crate) fn delete_all(&mut self, keys: &mut IndexSet<Key>) -> Result<(), u32>
        ensures left { LeavesAllOrNone keys.old.keys result keys.new.keys }
        ensures answers { AnswersOver (IsShut None) (IsAt None (RunsAsOne over_files delete_sql (map key_row keys.old.keys)))
            self.old.connection self.old.last_error result self.new.connection self.new.last_error }
    {
        let Some(connection) = &mut self.connection else {
            return Err(self.shut(None));
        };
        match table::delete_all(connection, keys) {
            Ok(()) => Ok(()),
            Err(error) => Err(self.failed(Failure { key: None, error })),
        }
    }

    /// Without a connection the load of the first key fails.
    fn shut_at_first(&mut self, keys: &[Key]) -> Result<(), u32>
        ensures code { IfErr result (λ code. 0 < code) }
        ensures kept { KeepsAnswer (IsShutAtFirst keys.now) self.old.last_error result self.new.last_error }
        ensures same { self.new.connection ≡ self.old.connection }
    {
        match keys.first() {
            Some(key) => Err(self.shut(Some(*key))),
            None => Ok(()),
        }
    }

    /// Without a connection a call fails.
    fn shut(&mut self, key: Option<Key>) -> u32
        ensures code { 0 < result }
        ensures kept { self.new.last_error ≡ Some (failure_to_keep self.old.last_error (record { key = key; error = Error.SqliteFailure ErrorCode.Closed })) }
        ensures same { self.new.connection ≡ self.old.connection }
    {
        self.failed(Failure { key, error: SHUT })
    }

    fn failed(&mut self, failure: Failure) -> u32
        ensures code { 0 < result }
        ensures kept { self.new.last_error ≡ Some (failure_to_keep self.old.last_error failure) }
        ensures same { self.new.connection ≡ self.old.connection }
    {
        let code = code_of(failure.error);
        let kept = self.last_error;
        self.last_error = Some(failure_to_keep(kept, failure));
        code
    }
}

/// The failure that is kept: the new one, unless it only says that the connection is shut, and the failure that shut it is kept.
fn failure_to_keep(kept: Option<Failure>, failure: Failure) -> Failure
    ensures { result ≡ failure_to_keep kept failure }
{
    match (kept, failure.error) {
        (Some(first), Error::SqliteFailure(ErrorCode::Closed)) => first,
        _ => failure,
    }
}
