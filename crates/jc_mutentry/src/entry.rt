//! An entry as its processor sees it.
ghost use Rattle.std.specs.Prelude.{◌≡◌};
ghost use Rattle.jc_model.specs.declared.processor.EntryCall.TheVariants.{GetValue, Exists, SetValue, Remove};
ghost use Rattle.jc_model.specs.declared.processor.EntryAnswer.TheVariants.{Present, Done};
ghost use Rattle.jc_mutentry.specs.Entries.{new_entry, get_answer, Makes, LoadsOn};

use crate::entry_core::{EntryCore, GetOutcome};
use jc_model::{Effect, LoadAnswer};
use jc_outside::{CacheLoader, load_answer};
use jc_types::{Key, Value};
use std::marker::Model;

/// The entry that a processor runs on (`javax.cache.processor.MutableEntry`; JSR 107, "Entry Processors").
///
/// The mutations take effect once the processor has ended. The session's loader is lent beside the entry, and only `get_value`
/// calls it.
#[derive(Drop)]
pub struct MutableEntry {
    key: Key,
    core: EntryCore,
}

impl Model for MutableEntry {
    ghost use Rattle.jc_mutentry.specs.Entries.{MutableState};

    ghost Value = { MutableState };

    ghost view = { λ e. record { key = e.key; entry = e.core } };
}

impl MutableEntry {
    /// An entry on which no call was made yet.
    pub(crate) fn new(key: Key, initial: Option<Value>, may_load: bool) -> Self
        ensures { result ≡ record { key = key; entry = new_entry initial may_load } }
    {
        MutableEntry {
            key,
            core: EntryCore::new(initial, may_load),
        }
    }

    /// The entry's key.
    pub fn key(&self) -> &Key
        ensures { result.now ≡ self.now.key }
    {
        &self.key
    }

    /// `exists`: whether the entry has a value. It never loads. After a failed load it is false.
    pub fn exists(&self) -> bool
        ensures { Makes self.now.entry Exists (Present result) self.now.entry }
    {
        self.core.exists()
    }

    /// `getValue`: the value, or none. If nothing is there and read-through is on, the first such call, and no other, calls the
    /// loader. An `Err` has the code of the loader's failure; each later `getValue` returns it again.
    ///
    /// It may wait, as long as the loader does.
    pub fn get_value(&mut self, loader: &mut dyn CacheLoader) -> Result<Option<Value>, u32>
        ensures key { self.new.key ≡ self.old.key }
        ensures get { Makes self.old.entry GetValue (get_answer result) self.new.entry }
        ensures loader { LoadsOn loads load_state self.old.key
            self.old.entry.load self.new.entry.load loader.old loader.new }
        ensures loader_type { loader.new.0 ≡ loader.old.0 }
    {
        match self.core.get_value() {
            GetOutcome::Value(value) => Ok(value),
            GetOutcome::Failed(code) => Err(code),
            GetOutcome::MustLoad => {
                let answer = load_answer(loader.load(&self.key));
                self.core.load(answer)
            }
        }
    }

    /// `setValue`. After a failed load nothing changes.
    pub fn set_value(&mut self, value: &Value)
        ensures key { self.new.key ≡ self.old.key }
        ensures set { Makes self.old.entry (SetValue value.now) Done self.new.entry }
        ensures load { self.new.entry.load ≡ self.old.entry.load }
    {
        self.core.set_value(value);
    }

    /// `remove`. After a failed load nothing changes.
    pub fn remove(&mut self)
        ensures key { self.new.key ≡ self.old.key }
        ensures remove { Makes self.old.entry Remove Done self.new.entry }
        ensures load { self.new.entry.load ≡ self.old.entry.load }
    {
        self.core.remove();
    }

    /// What the loader answered, if it was asked, and the net effect.
    pub(crate) fn into_parts(self) -> (LoadAnswer, Effect)
        ensures load { result.0 ≡ self.entry.load }
        ensures effect { result.1 ≡ self.entry.effect }
    {
        (self.core.load_answer(), self.core.effect())
    }
}
