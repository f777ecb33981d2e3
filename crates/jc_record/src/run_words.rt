//! What an entry processor saw, and how it ended.
ghost use Rattle.std.specs.Prelude.{◌≡◌, ◌++◌, ◌∷◌, [], map, OnOk};
ghost use Rattle.jc_text.specs.Lines.{Gives, ok_with};
ghost use Rattle.jc_text.specs.Words.{words_onto};
ghost use Rattle.jc_record.specs.Words.{after_sign, effect_after, effect_from, effect_with, end_named, flag_said, has_failed, is_end, is_failed, net_of, new_run, run_of, run_onto, sight_named, sight_of, whole_run};

use jc_check::EntrySight;
use jc_model::{Effect, EntryAnswer, EntryCall, ProcessAnswer};
use jc_text::read::words::{is, key_text, number, value, value_or_none};
use jc_text::{Fault, ReadError};
use jc_types::Value;
use std::alloc::{AllocError, Global};
use std::marker::Model;

/// The run of an entry processor.
#[derive(Drop)]
pub(crate) struct ProcessorRun {
    /// Its calls on its entry, and how each was answered.
    pub sights: Vec<EntrySight>,
    /// How it ended; `NotAsked` if it hasn't.
    pub end: ProcessAnswer,
}

impl Model for ProcessorRun {
    ghost use Rattle.jc_record.specs.Words.{RunValue};

    ghost Value = { RunValue };

    ghost view = { λ r. record { sights = r.sights.items; end = r.end } };
}

/// What follows the equals sign of a word; nothing if there is none.
fn after_sign(word: &[u8]) -> &[u8]
    ensures { result.now ≡ after_sign word.now }
{
    let name = key_text(word).len();
    if word.len() <= name {
        return &[];
    }
    &word[name + 1..]
}

fn flag_said(word: &[u8]) -> Result<bool, Fault>
    ensures { result ≡ flag_said word.now }
{
    match word {
        _ if is(word, "true") => Ok(true),
        _ if is(word, "false") => Ok(false),
        _ => Err(Fault::BadLine),
    }
}

/// What a processor saw, by the name before the equals sign of a word, and by what follows it.
fn sight_named(name: &[u8], says: &[u8]) -> Result<EntrySight, Fault>
    ensures { result ≡ sight_named name.now says.now }
{
    match name {
        _ if is(name, "get") => Ok(EntrySight {
            call: EntryCall::GetValue,
            answer: EntryAnswer::Value(value_or_none(says)?),
        }),
        _ if is(name, "getfails") => Ok(EntrySight {
            call: EntryCall::GetValue,
            answer: EntryAnswer::Failed(number(says)?),
        }),
        _ if is(name, "exists") => Ok(EntrySight {
            call: EntryCall::Exists,
            answer: EntryAnswer::Present(flag_said(says)?),
        }),
        _ if is(name, "set") => Ok(EntrySight {
            call: EntryCall::SetValue(value(says)?),
            answer: EntryAnswer::Done,
        }),
        _ => Err(Fault::BadLine),
    }
}

fn sight_of(word: &[u8]) -> Result<EntrySight, Fault>
    ensures { result ≡ sight_of word.now }
{
    if is(word, "remove") {
        return Ok(EntrySight {
            call: EntryCall::Remove,
            answer: EntryAnswer::Done,
        });
    }
    sight_named(key_text(word), after_sign(word))
}

fn effect_with(effect: &Effect, call: &EntryCall) -> Effect
    ensures { result ≡ effect_with effect.now call.now }
{
    match call {
        EntryCall::GetValue | EntryCall::Exists => *effect,
        EntryCall::SetValue(value) => Effect::Set(*value),
        EntryCall::Remove => Effect::Remove,
    }
}

/// The effect of all these calls.
fn effect_of(sights: &[EntrySight]) -> Effect
    ensures { result ≡ effect_from Effect.Keep sights.now }
{
    let mut effect = Effect::Keep;
    for sight in sights {
        effect = effect_with(&effect, &sight.call);
    }
    effect
}

fn is_failed(answer: &EntryAnswer) -> bool
    ensures { result ≡ is_failed answer.now }
{
    matches!(answer, EntryAnswer::Failed(_))
}

fn has_failed(sights: &[EntrySight]) -> bool
    ensures { result ≡ has_failed sights.now }
{
    for sight in sights {
        if is_failed(&sight.answer) {
            return true;
        }
    }
    false
}

/// The net effect of a processor that saw this: nothing if its load failed.
fn net_of(sights: &[EntrySight]) -> Effect
    ensures { result ≡ net_of sights.now }
{
    if has_failed(sights) {
        return Effect::Keep;
    }
    effect_of(sights)
}

fn end_named(sights: &[EntrySight], name: &[u8], says: &[u8]) -> Result<ProcessAnswer, Fault>
    ensures { result ≡ end_named sights.now name.now says.now }
{
    match name {
        _ if is(name, "returns") => Ok(ProcessAnswer::Ended {
            effect: net_of(sights),
            outcome: value_or_none(says)?,
        }),
        _ if is(name, "fails") => Ok(ProcessAnswer::Failed(number(says)?)),
        _ => Err(Fault::BadLine),
    }
}

/// Whether a word says how a processor ended.
fn is_end(word: &[u8]) -> bool
    ensures { result ≡ is_end word.now }
{
    let name = key_text(word);
    is(name, "returns") || is(name, "fails")
}

fn push_sight(sights: &mut Vec<EntrySight>, sight: EntrySight) -> Result<(), AllocError>
    ensures { OnOk result (sights.new.items ≡ sights.old.items ++ sight ∷ []) }
{
    let _types: Option<&(EntryCall, EntryAnswer, Value, Option<Value>)> = None;
    sights.push(sight)?;
    Ok(())
}

impl ProcessorRun {
    /// A run with no call yet.
    pub(crate) fn new(alloc: Global) -> ProcessorRun
        ensures { result ≡ new_run }
    {
        ProcessorRun {
            sights: Vec::new(alloc),
            end: ProcessAnswer::NotAsked,
        }
    }

    /// Appends a word.
    #[tactic(auto, unfolding(crate::specs::Words::run_onto))]
    fn add(&mut self, word: &[u8]) -> Result<(), ReadError>
        ensures { Gives (ok_with self.new result) (run_onto self.old word.now) }
    {
        let _types: Option<&(Effect, EntryCall, EntryAnswer, Value, Option<Value>)> = None;
        if self.end.is_given() {
            return Err(ReadError::Fault(Fault::BadLine));
        }
        if is_end(word) {
            self.end = end_named(&self.sights, key_text(word), after_sign(word))?;
            return Ok(());
        }
        let sight = sight_of(word)?;
        push_sight(&mut self.sights, sight)?;
        Ok(())
    }

    /// Appends words.
    fn add_all(&mut self, words: &[&[u8]]) -> Result<(), ReadError>
        ensures { Gives (ok_with self.new result) (words_onto run_onto self.old (map (λ w. w.now) words.now)) }
    {
        for word in words {
            self.add(word)?;
        }
        Ok(())
    }
}

/// The run that words tell.
pub(crate) fn run_of(alloc: Global, words: &[&[u8]]) -> Result<ProcessorRun, ReadError>
    ensures { Gives result (run_of (map (λ w. w.now) words.now)) }
{
    let mut run = ProcessorRun::new(alloc);
    run.add_all(words)?;
    if !run.end.is_given() {
        return Err(ReadError::Fault(Fault::BadLine));
    }
    Ok(run)
}
