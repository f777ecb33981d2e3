//! A loader that reads the table.
use crate::database::Database;
use crate::shared::Shared;
use jc_outside::{Answers, CacheLoader};
use jc_types::{Key, Value};
use std::alloc::{AllocError, Global};
use std::sync::{Arc, Mutex, Wait};

/// A loader of a database, for one session. A call waits for the database's lock.
///
/// `load` makes one query, and `load_all` one for each key, in their order, up to the first that fails. An `Err` has the
/// failure's code, and the database keeps the failure. A row whose value is longer than a cache's value is a failure, `TOO_BIG`,
/// and so is one whose value isn't bytes, `MISMATCH`.
#[derive(Drop)]
pub struct DatabaseLoader<R: Wait + Drop> {
    rt: R,
    shared: Arc<Mutex<Shared>, Global>,
}

impl<R: Wait + Drop> DatabaseLoader<R> {
    /// A loader of this database. It takes no memory: an `Err` says that there are too many handles.
    pub fn new(rt: R, database: &Database) -> Result<Self, AllocError> {
        Ok(DatabaseLoader {
            rt,
            shared: database.share()?,
        })
    }
}

impl<R: Wait + Drop> CacheLoader for DatabaseLoader<R> {
    ghost use Rattle.std.specs.Prelude.{[], ◌<◌, IfErr};

    ghost load_state = { λ l. [] };

    ghost loads = { λ l key answer after. IfErr answer (λ code. 0 < code) };

    ghost loads_all = { λ l keys answer answers after. IfErr answer (λ code. 0 < code) };

    fn load(&mut self, key: &Key) -> Result<Option<Value>, u32> {
        self.shared.lock(&self.rt).load(key)
    }

    fn load_all(&mut self, keys: &[Key], answers: &mut Answers) -> Result<(), u32> {
        self.shared.lock(&self.rt).load_all(keys, answers)
    }
}
