//! Loaders from a shared store.
use crate::store::Store;
use jc_outside::{Answers, CacheLoader};
use jc_types::{Key, Value};
use std::alloc::Global;
use std::sync::{Arc, Mutex, Wait};

/// Loads from a [`SharedStore`](crate::SharedStore). It never fails, and waits for the store's lock.
///
/// A batch is read under one lock: its answers are those of one moment.
#[derive(Drop)]
pub struct StoreLoader<R: Wait + Drop> {
    rt: R,
    store: Arc<Mutex<Store>, Global>,
}

impl<R: Wait + Drop> StoreLoader<R> {
    /// A loader from this store, which waits by `rt`.
    pub(crate) fn new(rt: R, store: Arc<Mutex<Store>, Global>) -> Self {
        StoreLoader { rt, store }
    }
}

impl<R: Wait + Drop> CacheLoader for StoreLoader<R> {
    ghost use Rattle.std.specs.Prelude.{[]};
    ghost use Rattle.jc_store.specs.Shared.{LoadsFromAStore, LoadsAllFromAStore};

    ghost load_state = { λ l. [] };

    ghost loads = { λ l key answer after. LoadsFromAStore key answer };

    ghost loads_all = { λ l keys answer answers after. LoadsAllFromAStore keys answer answers };

    fn load(&mut self, key: &Key) -> Result<Option<Value>, u32> {
        match self.store.lock(&self.rt).read(key) {
            Some(value) => Ok(Some(*value)),
            None => Ok(None),
        }
    }

    fn load_all(&mut self, keys: &[Key], answers: &mut Answers) -> Result<(), u32> {
        self.store.lock(&self.rt).read_all(keys, answers);
        Ok(())
    }
}
