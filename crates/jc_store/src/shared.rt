//! One store for many sessions.
ghost use Rattle.std.specs.Prelude.{IfOk};
ghost use Rattle.jc_store.specs.Shared.{AreOfAStore};

use crate::loader::StoreLoader;
use crate::store::Store;
use crate::writer::StoreWriter;
use jc_types::{Key, Value};
use std::alloc::{AllocError, Global};
use std::sync::{Arc, Mutex, Wait};

/// A store behind a lock, which the loaders and writers of many sessions share.
///
/// Contracts don't see the store behind the lock. The effect of a read or a change is stated by the [`Store`] itself.
#[derive(Drop)]
pub struct SharedStore {
    store: Arc<Mutex<Store>, Global>,
}

impl SharedStore {
    /// Puts a store behind a lock. An `Err` says that an allocation failed, and drops the store.
    pub fn new(alloc: Global, store: Store) -> Result<Self, AllocError> {
        let store = Arc::new(alloc, Mutex::new(store))?;
        Ok(SharedStore { store })
    }

    /// A loader from this store. It waits for the lock by `rt`. An `Err` says that there are too many handles.
    pub fn loader<R: Wait + Drop>(&self, rt: R) -> Result<StoreLoader<R>, AllocError> {
        let store = Arc::try_clone(&self.store)?;
        Ok(StoreLoader::new(rt, store))
    }

    /// A writer to this store. It waits for the lock by `rt`. An `Err` says that there are too many handles.
    pub fn writer<R: Wait + Drop>(&self, rt: R) -> Result<StoreWriter<R>, AllocError> {
        let store = Arc::try_clone(&self.store)?;
        Ok(StoreWriter::new(rt, store))
    }

    /// The value that the store has at a key, or none. It waits for the lock.
    pub fn read<R: Wait>(&self, rt: &R, key: &Key) -> Option<Value> {
        self.store.lock(rt).read(key).copied()
    }

    /// The store's entries at one moment, in the byte order of the keys. It waits for the lock, and holds it while it copies.
    /// An `Err` says that an allocation failed.
    pub fn entries<R: Wait>(&self, rt: &R, alloc: Global) -> Result<Vec<(Key, Value)>, AllocError>
        ensures { IfOk result (λ entries. AreOfAStore entries.items) }
    {
        self.store.lock(rt).entries(alloc)
    }
}
