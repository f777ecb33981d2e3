//! Writers to a shared store.
ghost use Rattle.std.specs.Prelude.{◌≡◌};
ghost use Rattle.jc_store.specs.Shared.{store_report};

use crate::store::{NO_MEMORY, Store};
use indexmap::{IndexMap, IndexSet};
use jc_outside::CacheWriter;
use jc_types::{Key, Value};
use std::alloc::{AllocError, Global};
use std::sync::{Arc, Mutex, Wait};

/// Writes to a [`SharedStore`](crate::SharedStore), and waits for its lock. If an allocation fails, a write returns
/// [`NO_MEMORY`], and leaves the store as it was. A delete never fails.
///
/// A batch is written under one lock.
#[derive(Drop)]
pub struct StoreWriter<R: Wait + Drop> {
    rt: R,
    store: Arc<Mutex<Store>, Global>,
}

impl<R: Wait + Drop> StoreWriter<R> {
    /// A writer to this store, which waits by `rt`.
    pub(crate) fn new(rt: R, store: Arc<Mutex<Store>, Global>) -> Self {
        StoreWriter { rt, store }
    }
}

impl<R: Wait + Drop> CacheWriter for StoreWriter<R> {
    ghost use Rattle.std.specs.Prelude.{[]};
    ghost use Rattle.jc_store.specs.Shared.{ReportsChange, WritesAllToAStore, DeletesAll};

    ghost write_state = { λ w. [] };

    ghost writes = { λ w key change answer after. ReportsChange change answer };

    ghost writes_all = { λ w entries answer left after. WritesAllToAStore entries answer left };

    ghost deletes_all = { λ w keys answer left after. DeletesAll answer left };

    fn write(&mut self, key: &Key, value: &Value) -> Result<(), u32> {
        report(self.store.lock(&self.rt).write(key, value))
    }

    fn delete(&mut self, key: &Key) -> Result<(), u32> {
        self.store.lock(&self.rt).delete(key);
        Ok(())
    }

    fn write_all(&mut self, entries: &mut IndexMap<Key, Value>) -> Result<(), u32> {
        report(self.store.lock(&self.rt).write_all(entries))
    }

    fn delete_all(&mut self, keys: &mut IndexSet<Key>) -> Result<(), u32> {
        self.store.lock(&self.rt).delete_all(keys);
        Ok(())
    }
}

/// The report of a writer on a change.
fn report(changed: Result<(), AllocError>) -> Result<(), u32>
    ensures { result ≡ store_report changed }
{
    match changed {
        Ok(()) => Ok(()),
        Err(AllocError) => Err(NO_MEMORY),
    }
}
