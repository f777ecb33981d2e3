//! The types that every crate uses: operations, outside answers, replies, and the events of a history.
use jc_types::{Caller, Key, Refusal, Value};

/// An operation on the cache, at one key: those of `javax.cache.Cache`.
///
/// A bulk call is one of these for each of its keys, and isn't atomic over them (JSR 107, "Consistency"). The operation table, in
/// [`table`](crate::table), states what each operation asks outside, leaves and replies.
#[derive(Clone, Copy, Debug, PartialEq, Eq)]
pub enum Op {
    /// `get`, and each key of `getAll`: the value, loaded if it is missing and read-through is on.
    Get,
    /// `containsKey`: whether the key has an entry. It never loads (JSR 107, "Integration").
    ContainsKey,
    /// `put`, and each mapping of `putAll`.
    Put(Value),
    /// `getAndPut`: the old value, which is never loaded.
    GetAndPut(Value),
    /// `putIfAbsent`: mutates if the key has no entry.
    PutIfAbsent(Value),
    /// `remove(key)`, and each key of `removeAll`.
    Remove,
    /// `remove(key, oldValue)`: mutates if the entry has this value.
    RemoveIf(Value),
    /// `getAndRemove`.
    GetAndRemove,
    /// `replace(key, value)`: mutates if the key has an entry.
    Replace(Value),
    /// `replace(key, oldValue, newValue)`: mutates if the entry has the old value.
    ReplaceIf {
        /// The value that the entry must have.
        old: Value,
        /// The value that takes its place.
        new: Value,
    },
    /// `getAndReplace`: mutates if the key has an entry.
    GetAndReplace(Value),
    /// Each key of `clear`: removes the entry, and asks no writer (JSR 107, "Integration").
    Clear,
    /// Each key of `loadAll`: loads a key that has no entry. The loader is asked whether read-through is on
    /// or not.
    LoadAll {
        /// Whether a key that has an entry is loaded, too.
        replace: bool,
    },
    /// `invoke`, and each key of `invokeAll`: an entry processor runs on the entry (JSR 107, "Entry
    /// Processors").
    Invoke,
}

/// The kind of an operation. The operations of one kind are alike to everybody but the tables that tell what a write leaves, replies,
/// asks the writer for and counts as.
#[derive(Clone, Copy, Debug, PartialEq, Eq)]
pub enum OpKind {
    /// `get`.
    Get,
    /// `containsKey`.
    ContainsKey,
    /// A put, a replace or a remove: it may change the entry, and has the writer asked for the change.
    Write,
    /// Each key of `clear`.
    Clear,
    /// Each key of `loadAll`.
    LoadAll {
        /// Whether a key that has an entry is loaded, too.
        replace: bool,
    },
    /// `invoke`.
    Invoke,
}

impl Op {
    ghost use Rattle.std.specs.Prelude.{◌≡◌};
    ghost use Rattle.jc_model.specs.Table.{op_kind};

    /// The kind of the operation. It copies no value.
    #[inline(always)]
    pub fn kind(&self) -> OpKind
        ensures { result ≡ op_kind self.now }
    {
        match self {
            Op::Get => OpKind::Get,
            Op::ContainsKey => OpKind::ContainsKey,
            Op::Put(_) | Op::GetAndPut(_) | Op::PutIfAbsent(_) => OpKind::Write,
            Op::Remove | Op::RemoveIf(_) | Op::GetAndRemove => OpKind::Write,
            Op::Replace(_) | Op::ReplaceIf { .. } | Op::GetAndReplace(_) => OpKind::Write,
            Op::Clear => OpKind::Clear,
            Op::LoadAll { replace } => OpKind::LoadAll { replace: *replace },
            Op::Invoke => OpKind::Invoke,
        }
    }

    /// Copies the other operation into this one. If both are a `get`, a `put`, a `remove(key)` or an `invoke`, it copies only the
    /// bytes that count.
    #[inline(always)]
    pub fn copy_from(&mut self, op: &Op)
        ensures { self.new ≡ op.now }
    {
        match (&mut *self, op) {
            (Op::Get, Op::Get) | (Op::Remove, Op::Remove) | (Op::Invoke, Op::Invoke) => {}
            (Op::Put(room), Op::Put(value)) => room.copy_from(value),
            _ => *self = *op,
        }
    }
}

/// The loader's answer, for one key (`javax.cache.integration.CacheLoader`; JSR 107, "Integration").
#[derive(Clone, Copy, Debug, PartialEq, Eq)]
pub enum LoadAnswer {
    /// It wasn't asked.
    NotAsked,
    /// It found this value.
    Found(Value),
    /// It found nothing: a `null`, or a key that `loadAll` left out.
    Nothing,
    /// It failed with this code. The step leaves the entry as it was.
    Failed(u32),
}

impl LoadAnswer {
    ghost use Rattle.std.specs.Prelude.{◌≡◌};
    ghost use Rattle.jc_model.specs.Table.{is_load_given};

    /// Whether the loader answered: it found a value, found nothing, or failed.
    pub fn is_given(&self) -> bool
        ensures { result ≡ is_load_given self.now }
    {
        match self {
            LoadAnswer::NotAsked => false,
            LoadAnswer::Found(_) | LoadAnswer::Nothing | LoadAnswer::Failed(_) => true,
        }
    }
}

/// The writer's answer, for one key (`javax.cache.integration.CacheWriter`; JSR 107, "Integration").
#[derive(Clone, Copy, Debug, PartialEq, Eq)]
pub enum WriteAnswer {
    /// It wasn't asked.
    NotAsked,
    /// It did as it was asked.
    Done,
    /// It failed with this code. The step leaves the entry as it was.
    Failed(u32),
}

impl WriteAnswer {
    ghost use Rattle.std.specs.Prelude.{◌≡◌};
    ghost use Rattle.jc_model.specs.Table.{is_write_given};

    /// Whether the writer returned: it did as it was asked, or failed.
    pub fn is_given(&self) -> bool
        ensures { result ≡ is_write_given self.now }
    {
        match self {
            WriteAnswer::NotAsked => false,
            WriteAnswer::Done | WriteAnswer::Failed(_) => true,
        }
    }
}

/// A change of the store at one key, which the writer is asked for.
#[derive(Clone, Copy, Debug, PartialEq, Eq)]
pub enum Change {
    /// To write this value (`CacheWriter.write`).
    Write(Value),
    /// To delete what is there, if anything (`CacheWriter.delete`).
    Delete,
}

/// The net effect of a processor on its entry, by all its calls on the entry together. The writer is asked for this alone (JSR
/// 107, "Entry Processors").
#[derive(Clone, Copy, Debug, PartialEq, Eq)]
pub enum Effect {
    /// Nothing: the entry is kept as it is, or as it was loaded.
    Keep,
    /// The entry has this value.
    Set(Value),
    /// The entry is removed.
    Remove,
}

/// The answer of an entry processor (`javax.cache.processor.EntryProcessor`).
#[derive(Clone, Copy, Debug, PartialEq, Eq)]
pub enum ProcessAnswer {
    /// It didn't run.
    NotAsked,
    /// It ended.
    Ended {
        /// Its effect on the entry.
        effect: Effect,
        /// Its answer to the caller.
        outcome: Option<Value>,
    },
    /// It failed with this code. The step leaves the entry as it was, also if a value was loaded.
    Failed(u32),
}

impl ProcessAnswer {
    ghost use Rattle.std.specs.Prelude.{◌≡◌};
    ghost use Rattle.jc_model.specs.Table.{is_process_given};

    /// Whether the processor ran: it ended, or failed.
    pub fn is_given(&self) -> bool
        ensures { result ≡ is_process_given self.now }
    {
        match self {
            ProcessAnswer::NotAsked => false,
            ProcessAnswer::Ended { .. } | ProcessAnswer::Failed(_) => true,
        }
    }
}

/// The outside answers of one step: those of the loader, the writer and the entry processor.
#[derive(Clone, Copy, Debug, PartialEq, Eq)]
pub struct Out {
    /// The loader's answer.
    pub load: LoadAnswer,
    /// The writer's answer.
    pub write: WriteAnswer,
    /// The entry processor's answer.
    pub process: ProcessAnswer,
}

impl Out {
    ghost use Rattle.std.specs.Prelude.{◌≡◌};
    ghost use Rattle.jc_model.specs.Group.{nothing_said, load_only, write_only};

    /// Nobody was asked.
    pub fn nothing_said() -> Out
        ensures { result ≡ nothing_said }
    {
        Out {
            load: LoadAnswer::NotAsked,
            write: WriteAnswer::NotAsked,
            process: ProcessAnswer::NotAsked,
        }
    }

    /// The loader alone answered.
    pub fn load_only(answer: LoadAnswer) -> Out
        ensures { result ≡ load_only answer }
    {
        Out {
            load: answer,
            write: WriteAnswer::NotAsked,
            process: ProcessAnswer::NotAsked,
        }
    }

    /// The writer alone answered.
    pub fn write_only(answer: WriteAnswer) -> Out
        ensures { result ≡ write_only answer }
    {
        Out {
            load: LoadAnswer::NotAsked,
            write: answer,
            process: ProcessAnswer::NotAsked,
        }
    }
}

/// The answer of a step to its caller.
#[derive(Clone, Copy, Debug, PartialEq, Eq)]
pub enum Reply {
    /// The operation is done, and answers nothing.
    Unit,
    /// Whether the key was there, or whether the operation mutated.
    Flag(bool),
    /// A value, or none, which is `null` in Java.
    Value(Option<Value>),
    /// The loader, the processor or the writer failed. It names the first of them that failed: `LoaderFailed`, `ProcessorFailed`
    /// or `WriterFailed`. The entry is as it was.
    Fault(Refusal),
}

/// Why an entry was evicted. JSR 107 leaves eviction to the provider ("Fundamentals").
#[derive(Clone, Copy, Debug, PartialEq, Eq)]
pub enum Cause {
    /// The stripe held as many entries as it may.
    Full,
    /// An allocation for the entry failed.
    Memory,
    /// The key was invalidated: somebody else may have written it.
    Invalidated,
}

/// One event of a stripe's history.
#[derive(Clone, Copy, Debug, PartialEq, Eq)]
pub enum Event {
    /// One operation on one key, made as one step.
    Step {
        /// Whose call it is.
        caller: Caller,
        /// The operation.
        op: Op,
        /// The key of the operation.
        key: Key,
        /// The outside answers.
        out: Out,
        /// For a `Get` that joined a load: the place of the step whose load it shares.
        shared_with: Option<u32>,
        /// The answer to the caller.
        reply: Reply,
    },
    /// An entry is evicted. No writer is asked (JSR 107, "Integration").
    Evict {
        /// The key whose entry is evicted.
        key: Key,
        /// The cause of the eviction.
        cause: Cause,
    },
}

impl Event {
    ghost use Rattle.std.specs.Prelude.{◌≡◌};
    ghost use Rattle.jc_model.specs.Legal.{event_key};

    /// The key of the step, or the evicted key.
    pub(crate) fn key(&self) -> &Key
        ensures { result.now ≡ event_key self.now }
    {
        match self {
            Event::Step { key, .. } => key,
            Event::Evict { key, .. } => key,
        }
    }
}
