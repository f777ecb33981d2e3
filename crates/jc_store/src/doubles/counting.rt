//! Loaders and writers that count their calls.
use crate::doubles::counts::{Call, CallCounts};
use indexmap::{IndexMap, IndexSet};
use jc_outside::{Answers, CacheLoader, CacheWriter};
use jc_types::{Key, Value};
use std::alloc::{AllocError, Global};
use std::sync::{Arc, Mutex, Wait};

/// Counts behind a lock. All handles made from one `SharedCounts` count together, and read the same counts.
#[derive(Drop)]
pub struct SharedCounts {
    counts: Arc<Mutex<CallCounts>, Global>,
}

impl SharedCounts {
    /// Counts that are all 0. An `Err` says that an allocation failed.
    pub fn new(alloc: Global) -> Result<Self, AllocError> {
        let counts = Arc::new(alloc, Mutex::new(CallCounts::ZERO))?;
        Ok(SharedCounts { counts })
    }

    /// The counts so far. It waits for the lock.
    pub fn now<R: Wait>(&self, rt: &R) -> CallCounts {
        *self.counts.lock(rt)
    }

    /// A loader or a writer that counts each call here, and forwards it to `inner`. It waits for the lock by `rt`. An `Err` says
    /// that there are too many handles, and drops both.
    pub fn counting<T: Drop, R: Wait + Drop>(
        &self,
        rt: R,
        inner: T,
    ) -> Result<Counting<T, R>, AllocError> {
        let counts = Arc::try_clone(&self.counts)?;
        Ok(Counting { rt, counts, inner })
    }
}

/// A loader or a writer that counts each call and forwards it to another one (`inner`), whatever that one answers.
///
/// Its relations are those of `inner`: contracts don't see the counts.
#[derive(Drop)]
pub struct Counting<T, R: Wait + Drop> {
    rt: R,
    counts: Arc<Mutex<CallCounts>, Global>,
    inner: T,
}

impl<T, R: Wait + Drop> Counting<T, R> {
    fn count(&self, call: Call) {
        self.counts.lock(&self.rt).count(call);
    }
}

impl<L: CacheLoader, R: Wait + Drop> CacheLoader for Counting<L, R> {
    ghost load_state = { λ c. L.load_state c.inner };

    ghost loads = { λ c key answer after. L.loads c.inner key answer after };

    ghost loads_all = { λ c keys answer answers after. L.loads_all c.inner keys answer answers after };

    fn load(&mut self, key: &Key) -> Result<Option<Value>, u32> {
        self.count(Call::Load);
        self.inner.load(key)
    }

    fn load_all(&mut self, keys: &[Key], answers: &mut Answers) -> Result<(), u32> {
        self.count(Call::LoadAll);
        self.inner.load_all(keys, answers)
    }
}

impl<W: CacheWriter, R: Wait + Drop> CacheWriter for Counting<W, R> {
    ghost write_state = { λ c. W.write_state c.inner };

    ghost writes = { λ c key change answer after. W.writes c.inner key change answer after };

    ghost writes_all = { λ c entries answer left after. W.writes_all c.inner entries answer left after };

    ghost deletes_all = { λ c keys answer left after. W.deletes_all c.inner keys answer left after };

    fn write(&mut self, key: &Key, value: &Value) -> Result<(), u32> {
        self.count(Call::Write);
        self.inner.write(key, value)
    }

    fn delete(&mut self, key: &Key) -> Result<(), u32> {
        self.count(Call::Delete);
        self.inner.delete(key)
    }

    fn write_all(&mut self, entries: &mut IndexMap<Key, Value>) -> Result<(), u32> {
        self.count(Call::WriteAll);
        self.inner.write_all(entries)
    }

    fn delete_all(&mut self, keys: &mut IndexSet<Key>) -> Result<(), u32> {
        self.count(Call::DeleteAll);
        self.inner.delete_all(keys)
    }
}
