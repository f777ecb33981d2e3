//! An entry while a processor runs, without a loader.
ghost use Rattle.std.specs.Prelude.{◌≡◌, [], true};
ghost use Rattle.jc_model.specs.Table.{is_load_given};
ghost use Rattle.jc_model.specs.declared.processor.EntryCall.TheVariants.{GetValue, Exists, SetValue, Remove};
ghost use Rattle.jc_model.specs.declared.processor.EntryAnswer.TheVariants.{Present, Done};
ghost use Rattle.jc_mutentry.specs.Entries.{new_entry, asks_load, get_answer, IsAfter, Makes};
ghost use Rattle.jc_mutentry.specs.GetOutcomes.{IsGetOutcome};
ghost use Rattle.jc_mutentry.specs.Inside.{is_present, get_outcome, outcome_by_load, effect_after, get_result};

use jc_model::{Effect, LoadAnswer};
use jc_types::Value;
use std::marker::Model;

/// The outcome of `getValue` before a loader is asked.
#[derive(Clone, Copy, Debug, PartialEq, Eq)]
pub enum GetOutcome {
    /// The value, or none.
    Value(Option<Value>),
    /// The loader is to be asked, and its answer to be passed to [`EntryCore::load`].
    MustLoad,
    /// The loader has failed with this code.
    Failed(u32),
}

/// An entry while a processor runs (`javax.cache.processor.MutableEntry`; JSR 107, "Entry Processors"), without its key and
/// without a loader: the caller asks the loader if [`get_value`](EntryCore::get_value) answers `MustLoad`.
///
/// It keeps one state: the loader's answer, and the net effect of the calls so far. No call takes memory.
#[derive(Drop)]
pub struct EntryCore {
    initial: Option<Value>,
    may_load: bool,
    load: LoadAnswer,
    effect: Effect,
}

impl Model for EntryCore {
    ghost use Rattle.jc_mutentry.specs.Entries.{EntryState};

    ghost Value = { EntryState };

    ghost view = { λ e. record { initial = e.initial; may_load = e.may_load; load = e.load; effect = e.effect } };
}

impl EntryCore {
    /// An entry on which no call was made. It has this value or none; the loader may be asked, if read-through is on and nothing
    /// is there.
    pub fn new(initial: Option<Value>, may_load: bool) -> Self
        ensures entry { result ≡ new_entry initial may_load }
        ensures after { IsAfter result [] [] }
    {
        EntryCore {
            initial,
            may_load,
            load: LoadAnswer::NotAsked,
            effect: Effect::Keep,
        }
    }

    /// `exists`: whether the entry has a value. It never loads. After a failed load it is false.
    pub fn exists(&self) -> bool
        ensures { Makes self.now Exists (Present result) self.now }
    {
        is_present(&self.initial, &self.load, &self.effect)
    }

    /// `getValue` without a loader: the value, the fault of a load that has failed, or that the loader is to be asked.
    pub fn get_value(&self) -> GetOutcome
        ensures { IsGetOutcome self.now result }
    {
        get_outcome(&self.initial, self.may_load, &self.load, &self.effect)
    }

    /// Ends a `getValue` with the loader's answer: the value, or the code of the failure.
    ///
    /// Conditions: the loader was to be asked, and has answered.
    pub fn load(&mut self, answer: LoadAnswer) -> Result<Option<Value>, u32>
        requires asks { asks_load self.old ≡ true }
        requires given { is_load_given answer ≡ true }
        ensures get { Makes self.old GetValue (get_answer result) self.new }
        ensures load { self.new.load ≡ answer }
    {
        self.load = answer;
        get_result(&self.load)
    }

    /// `setValue`. After a failed load nothing changes.
    pub fn set_value(&mut self, value: &Value)
        ensures set { Makes self.old (SetValue value.now) Done self.new }
        ensures load { self.new.load ≡ self.old.load }
    {
        mutate(&self.load, &mut self.effect, Effect::Set(*value));
    }

    /// `remove`. After a failed load nothing changes.
    pub fn remove(&mut self)
        ensures remove { Makes self.old Remove Done self.new }
        ensures load { self.new.load ≡ self.old.load }
    {
        mutate(&self.load, &mut self.effect, Effect::Remove);
    }

    /// The loader's answer, if it was asked.
    pub fn load_answer(&self) -> LoadAnswer
        ensures { result ≡ self.now.load }
    {
        self.load
    }

    /// The net effect of the calls so far.
    pub fn effect(&self) -> Effect
        ensures { result ≡ self.now.effect }
    {
        self.effect
    }
}

/// Whether a value is there: by the net effect, otherwise by the initial value, otherwise by the load.
fn is_present(initial: &Option<Value>, load: &LoadAnswer, effect: &Effect) -> bool
    ensures { result ≡ is_present initial.now load.now effect.now }
{
    match effect {
        Effect::Set(_) => true,
        Effect::Remove => false,
        Effect::Keep => match load {
            LoadAnswer::Found(_) => true,
            LoadAnswer::NotAsked | LoadAnswer::Nothing | LoadAnswer::Failed(_) => initial.is_some(),
        },
    }
}

/// The outcome of `getValue`.
fn get_outcome(
    initial: &Option<Value>,
    may_load: bool,
    load: &LoadAnswer,
    effect: &Effect,
) -> GetOutcome
    ensures { result ≡ get_outcome initial.now may_load load.now effect.now }
{
    match effect {
        Effect::Set(value) => GetOutcome::Value(Some(*value)),
        Effect::Remove => GetOutcome::Value(None),
        Effect::Keep => outcome_by_load(initial, may_load, load),
    }
}

/// The outcome of `getValue` while nothing has mutated the entry.
fn outcome_by_load(initial: &Option<Value>, may_load: bool, load: &LoadAnswer) -> GetOutcome
    ensures { result ≡ outcome_by_load initial.now may_load load.now }
{
    match load {
        LoadAnswer::Found(value) => GetOutcome::Value(Some(*value)),
        LoadAnswer::Nothing => GetOutcome::Value(None),
        LoadAnswer::Failed(code) => GetOutcome::Failed(*code),
        LoadAnswer::NotAsked => {
            if may_load && initial.is_none() {
                GetOutcome::MustLoad
            } else {
                GetOutcome::Value(*initial)
            }
        }
    }
}

/// The return of `getValue` once the loader has answered.
fn get_result(load: &LoadAnswer) -> Result<Option<Value>, u32>
    ensures { result ≡ get_result load.now }
{
    match load {
        LoadAnswer::Found(value) => Ok(Some(*value)),
        LoadAnswer::Nothing | LoadAnswer::NotAsked => Ok(None),
        LoadAnswer::Failed(code) => Err(*code),
    }
}

/// Adds a mutation to the net effect. After a failed load none counts.
fn mutate(load: &LoadAnswer, effect: &mut Effect, next: Effect)
    ensures { effect.new ≡ effect_after load.now effect.old next }
{
    match load {
        LoadAnswer::Failed(_) => {}
        LoadAnswer::NotAsked | LoadAnswer::Found(_) | LoadAnswer::Nothing => *effect = next,
    }
}
