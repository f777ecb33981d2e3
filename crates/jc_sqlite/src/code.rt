//! Failures of the database as codes, which are SQLite's own result codes.
ghost use Rattle.std.specs.Prelude.{◌<◌};

use sqlite::{Error, ErrorCode};

/// A failure for which SQLite has no code of its own (`SQLITE_ERROR`).
pub const FAILED: u32 = 1;

/// Another connection has the file open (`SQLITE_BUSY`).
pub const BUSY: u32 = 5;

/// An allocation failed (`SQLITE_NOMEM`).
pub const NO_MEMORY: u32 = 7;

/// A limit on steps was met (`SQLITE_INTERRUPT`).
pub const INTERRUPTED: u32 = 9;

/// A read, a write or a sync of the file failed (`SQLITE_IOERR`).
pub const DISK_FAULT: u32 = 10;

/// The file's content is damaged (`SQLITE_CORRUPT`).
pub const CORRUPT: u32 = 11;

/// The disk is full, or the file has met a limit of its format (`SQLITE_FULL`).
pub const DISK_FULL: u32 = 13;

/// The file can't be opened (`SQLITE_CANTOPEN`).
pub const CANNOT_OPEN: u32 = 14;

/// A key or a value has more bytes than one of a cache has (`SQLITE_TOOBIG`).
pub const TOO_BIG: u32 = 18;

/// The row breaks a rule of the table (`SQLITE_CONSTRAINT`).
pub const CONSTRAINT: u32 = 19;

/// A column has another type (`SQLITE_MISMATCH`).
pub const MISMATCH: u32 = 20;

/// The file isn't open (`SQLITE_MISUSE`): an earlier failure of the disk closed the database, or the last
/// [`reopen`](crate::Database::reopen) failed, for example because another program has the file open.
pub const CLOSED: u32 = 21;

/// The file is no database, or one that this library can't read (`SQLITE_NOTADB`).
pub const NOT_A_DATABASE: u32 = 26;

/// The code of a failure, as loaders and writers return it. It is never 0.
pub fn code_of(error: Error) -> u32
    ensures { 0 < result }
{
    match error {
        Error::SqliteFailure(failure) => code_of_failure(failure),
        Error::InvalidColumnType(_, _) | Error::IntegralValueOutOfRange(_) => MISMATCH,
        Error::SqlInputError(_)
        | Error::InvalidParameterCount(_, _)
        | Error::ExecuteReturnedResults
        | Error::InvalidQuery
        | Error::MultipleStatement
        | Error::QueryReturnedNoRows
        | Error::InvalidColumnIndex(_)
        | Error::Utf8Error(_) => FAILED,
    }
}

fn code_of_failure(failure: ErrorCode) -> u32
    ensures { 0 < result }
{
    match failure {
        ErrorCode::DatabaseBusy => BUSY,
        ErrorCode::OutOfMemory => NO_MEMORY,
        ErrorCode::OperationInterrupted => INTERRUPTED,
        ErrorCode::SystemIoFailure => DISK_FAULT,
        ErrorCode::DatabaseCorrupt => CORRUPT,
        ErrorCode::DiskFull | ErrorCode::NoRowid => DISK_FULL,
        ErrorCode::CannotOpen => CANNOT_OPEN,
        ErrorCode::TooBig => TOO_BIG,
        ErrorCode::ConstraintViolation(_) => CONSTRAINT,
        ErrorCode::TypeMismatch => MISMATCH,
        ErrorCode::Closed => CLOSED,
        ErrorCode::NotADatabase => NOT_A_DATABASE,
        ErrorCode::IntegerOverflow
        | ErrorCode::ForeignKeyMismatch
        | ErrorCode::TooDeep
        | ErrorCode::NoClock
        | ErrorCode::NameTaken
        | ErrorCode::BadName
        | ErrorCode::BadKey
        | ErrorCode::BadText
        | ErrorCode::SchemaTooBig
        | ErrorCode::TransactionState
        | ErrorCode::NoSuchSavepoint => FAILED,
    }
}
