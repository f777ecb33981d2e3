//! The calls of an entry processor on its entry, and the answer to each (JSR 107, "Entry Processors";
//! `javax.cache.processor.MutableEntry`).
use jc_types::Value;

/// A call of an entry processor on its entry.
#[derive(Clone, Copy, Debug, PartialEq, Eq)]
pub enum EntryCall {
    /// `getValue`: the value, loaded if the entry is missing and read-through is on.
    GetValue,
    /// `exists`: whether the entry has a value. It never loads.
    Exists,
    /// `setValue`.
    SetValue(Value),
    /// `remove`.
    Remove,
}

/// The answer to a call of an entry processor on its entry.
#[derive(Clone, Copy, Debug, PartialEq, Eq)]
pub enum EntryAnswer {
    /// `getValue`: the value, or none, which is `null` in Java.
    Value(Option<Value>),
    /// `exists`: whether the entry has a value.
    Present(bool),
    /// `setValue` and `remove`, which answer nothing.
    Done,
    /// `getValue`: the loader failed with this code.
    Failed(u32),
}
