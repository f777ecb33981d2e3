//! Programs: a cache's shape, the entries of its store, and the items of each thread.
ghost use Rattle.std.specs.Prelude.{◌≡◌, option_copied};
ghost use Rattle.jc_explore.specs.Schedule.{item_at};

use jc_model::Op;
use jc_types::{Config, Key, Value};
use jc_world::EntryCalls;

/// One item of a thread: a call, another program's write, or an invalidation.
#[derive(Drop)]
pub enum Item {
    /// A call of one key. An operation that is no call by itself never begins, and an `Op::Invoke` makes no call on its entry.
    Call {
        /// The operation.
        op: Op,
        /// The key.
        key: Key,
    },
    /// An `invoke`: an entry processor runs on the key's entry.
    Invoke {
        /// The key.
        key: Key,
        /// The processor's calls on its entry.
        calls: EntryCalls,
    },
    /// Another program writes or deletes in the store.
    Foreign {
        /// The key.
        key: Key,
        /// The value, or none for a delete.
        value: Option<Value>,
    },
    /// The cache forgets a key, also a reserved one. It is no call, and asks nobody.
    Invalidate {
        /// The key.
        key: Key,
    },
}

/// The faults that may happen: the code with which the loader, the writer or the processor may fail, at each of its calls.
/// Without a code it never fails.
#[derive(Clone, Copy, Debug, PartialEq, Eq)]
pub struct Faults {
    /// The loader.
    pub load: Option<u32>,
    /// The writer, having changed nothing.
    pub write: Option<u32>,
    /// The writer, having changed the store, as after a timeout.
    pub lie: Option<u32>,
    /// The entry processor, after its calls.
    pub process: Option<u32>,
}

/// A program: each thread is a session, the first one session 1.
#[derive(Drop)]
pub struct Program {
    /// The cache's shape.
    pub config: Config,
    /// The entries of the store. If two have the same key, the last counts.
    pub stored: Vec<(Key, Value)>,
    /// The items of each thread, in their order. There are at most [`SESSIONS_MAX`](jc_types::SESSIONS_MAX).
    pub threads: Vec<Vec<Item>>,
    /// The faults that may happen.
    pub faults: Faults,
}

impl Program {
    /// The item of a thread at a place of its list.
    pub fn item(&self, thread: usize, at: usize) -> Option<&Item>
        ensures { option_copied result ≡ item_at self.now thread at }
    {
        match self.threads.get(thread) {
            Some(items) => items.get(at),
            None => None,
        }
    }
}
