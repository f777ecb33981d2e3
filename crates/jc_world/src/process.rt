//! Entry processors in a world: the calls that one makes on its entry, how its loader answers, and what is shown of its run.
ghost use Rattle.std.specs.Prelude.{◌≡◌, ◌++◌, ◌∷◌, [], IfOk, OnErr, OnOk};
ghost use Rattle.jc_world.specs.Premises.{load_from};

use crate::outside::answer_of;
use crate::read_only::ReadOnlyList;
use jc_model::{Change, EntryAnswer, EntryCall, LoadAnswer};
use jc_types::Value;
use std::alloc::{AllocError, Global};
use std::marker::Model;

/// How the loader answers if an entry processor's calls ask it.
#[derive(Clone, Copy, Debug, PartialEq, Eq)]
pub enum LoadSource {
    /// The store's value when the processor runs.
    Store,
    /// This value, or none, whatever the store holds.
    Stated(Option<Value>),
    /// It fails with this code.
    Failing(u32),
}

impl LoadSource {
    /// The loader's answer, with this in the store.
    pub(crate) fn answer(&self, stored: Option<Value>) -> LoadAnswer
        ensures { result ≡ load_from self.now stored }
    {
        match self {
            LoadSource::Store => answer_of(stored),
            LoadSource::Stated(value) => answer_of(*value),
            LoadSource::Failing(code) => LoadAnswer::Failed(*code),
        }
    }
}

/// The calls that an entry processor makes on its entry, in their order (JSR 107, "Entry Processors").
#[derive(Drop)]
pub struct EntryCalls {
    list: Vec<EntryCall>,
}

impl Model for EntryCalls {
    ghost use Rattle.std.specs.Prelude.{List};
    ghost use Rattle.jc_model.specs.declared.processor.EntryCall.{EntryCall};

    ghost Value = { List EntryCall };

    ghost view = { λ c. c.list.items };
}

impl EntryCalls {
    /// No call.
    pub fn new(alloc: Global) -> EntryCalls
        ensures { result ≡ [] }
    {
        EntryCalls {
            list: Vec::new(alloc),
        }
    }

    /// One more call, after the others. An `Err` says that an allocation failed, and leaves the calls as they were.
    pub fn push(&mut self, call: EntryCall) -> Result<(), AllocError>
        ensures ok { OnOk result (self.new ≡ self.old ++ call ∷ []) }
        ensures err { OnErr result (self.new ≡ self.old) }
    {
        self.list.push(call)?;
        Ok(())
    }

    /// The calls, to be read.
    pub fn as_slice(&self) -> &[EntryCall]
        ensures { result.now ≡ self.now }
    {
        &self.list
    }

    /// The same calls once more. An `Err` says that an allocation failed.
    pub fn copy(&self, alloc: Global) -> Result<EntryCalls, AllocError>
        ensures { IfOk result (λ calls. calls ≡ self.now) }
    {
        let mut list = Vec::with_capacity(alloc, self.list.len())?;
        list.extend_from_slice(&self.list)?;
        Ok(EntryCalls { list })
    }
}

/// An entry processor's run, as it is shown.
#[derive(Drop)]
pub struct ShownRun {
    /// The answers to its calls, in their order. A failed load is the last answer: no call follows it.
    pub answers: ReadOnlyList<EntryAnswer>,
    /// The loader's answer: `NotAsked` if no call asked it. The first `getValue` asks it.
    pub load: LoadAnswer,
    /// The code with which the processor failed, if it did.
    pub fault: Option<u32>,
    /// The change that the writer is asked for now, if it is: with write-through on the net effect of the calls, unless the loader
    /// or the processor failed.
    pub change: Option<Change>,
}
