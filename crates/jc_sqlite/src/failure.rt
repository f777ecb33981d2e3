//! Failures of a call, with its key, and of the opening of a file.
ghost use Rattle.std.specs.Prelude.{◌≡◌};

use jc_types::Key;
use sqlite::{Error, ErrorCode};
use std::alloc::Global;
use std::fmt::{self, Display, Formatter, Write};

/// A failure of a call, and the key of the call.
///
/// `Display` writes the key and then the error: `at the key "ann": string or blob too big`.
#[derive(Clone, Copy)]
pub struct Failure {
    /// The key that was loaded, written or deleted. It is none if the call was for a batch that fails as a whole, or for no key.
    pub key: Option<Key>,
    /// The error of the database.
    pub error: Error,
}

impl Display for Failure {
    fn fmt<W: Write>(&self, f: &mut Formatter<W>) -> fmt::Result {
        if let Some(key) = &self.key {
            write!(f, "at the key {key:?}: ")?;
        }
        write!(f, "{}", self.error)
    }
}

/// Why a file wasn't opened.
#[derive(Clone, Copy, Debug, PartialEq, Eq)]
pub enum OpenCause {
    /// The file is open already: in another process, or by another [`Database`](crate::Database) of this one.
    Locked,
    /// The file has another `entry` than the table that [`create`](crate::table::create) makes: one with other columns, a view, or one
    /// with a trigger.
    OtherTable,
    /// The file, or an allocation, failed.
    Failed(Error),
}

impl Display for OpenCause {
    fn fmt<W: Write>(&self, f: &mut Formatter<W>) -> fmt::Result {
        match self {
            OpenCause::Locked => f.write_str(
                "database is locked: open in another process, or twice in this one",
            ),
            OpenCause::OtherTable => f.write_str(
                "`entry` in this file is not the table of keys and values that jc_sqlite makes",
            ),
            OpenCause::Failed(error) => write!(f, "{error}"),
        }
    }
}

impl From<Error> for OpenCause {
    fn from(error: Error) -> OpenCause {
        match error {
            Error::SqliteFailure(ErrorCode::DatabaseBusy) => OpenCause::Locked,
            other => OpenCause::Failed(other),
        }
    }
}

/// A file that wasn't opened, and the cause.
///
/// `Display` writes both: `visits.db: unable to open database file`.
#[derive(Debug, Drop)]
pub struct OpenError {
    /// The file's path, as it was given. It is empty if an allocation for it failed.
    pub path: String,
    /// Why it wasn't opened.
    pub cause: OpenCause,
}

impl OpenError {
    /// The error of a file at this path.
    pub(crate) fn of(alloc: Global, path: &str, cause: OpenCause) -> OpenError
        ensures { result.cause ≡ cause }
    {
        match String::from_str(alloc, path) {
            Ok(path) => OpenError { path, cause },
            Err(_) => OpenError {
                path: String::new(alloc),
                cause,
            },
        }
    }
}

impl Display for OpenError {
    fn fmt<W: Write>(&self, f: &mut Formatter<W>) -> fmt::Result {
        write!(f, "{}: {}", self.path, self.cause)
    }
}

impl std::error::Error for OpenError {}
