//! The operation table: for each [`Op`] the asks of the loader and the writer, the entry that it leaves, and its reply (JSR 107,
//! "Integration", whose two tables are the first two of these; "Entry Processors").
//!
//! Functions on a call's path are inlined, to save a copy of the value that they return.
ghost use Rattle.std.specs.Prelude.{◌≡◌, is_some, is_none, option_map, unwrap_or, Some, if◌then◌else◌};
ghost use Rattle.std.specs.Option.{option_copied};
ghost use Rattle.jc_model.specs.Table.{holds, entry_after_replace, value_after_load, loader_ask, always_if, wanted_if, load_fits};
ghost use Rattle.jc_model.specs.Table.{is_invoke, early_fault, first_fault, write_ask, answers_fit, after_effect, outcome_of};
ghost use Rattle.jc_model.specs.Table.{entry_without_fault, reply_without_fault, entry_after, reply_after};
ghost use Rattle.jc_model.specs.declared.event.Reply.TheVariants as replies;
ghost use Rattle.jc_model.specs.Table.{to_change, ask_if, process_ask, op_number, op_values, lent_values, value_count, numbered_op};
ghost use Rattle.jc_model.specs.Lawful.{loads_whole};

use crate::event::{
    Change, Effect, LoadAnswer, Op, OpKind, Out, ProcessAnswer, Reply, WriteAnswer,
};
use jc_types::{Config, Refusal, Value};

/// Whether the entry has this value.
#[inline(always)]
fn holds(entry: Option<&Value>, value: &Value) -> bool
    ensures { result ≡ holds (option_copied entry.entry) value.now }
{
    match entry {
        Some(held) => *held == *value,
        None => false,
    }
}

/// The entry, or the loaded value if one was found.
#[inline(always)]
fn value_after_load<'a>(answer: &'a LoadAnswer, entry: Option<&'a Value>) -> Option<&'a Value>
    ensures { option_copied result ≡ value_after_load answer.now (option_copied entry.entry) }
{
    match answer {
        LoadAnswer::Found(value) => Some(value),
        LoadAnswer::NotAsked | LoadAnswer::Nothing | LoadAnswer::Failed(_) => entry,
    }
}

/// `next` if the entry has the value `old`, otherwise the entry.
#[inline(always)]
fn entry_if<'a>(entry: Option<&'a Value>, old: &Value, next: Option<&'a Value>) -> Option<&'a Value>
    ensures { option_copied result ≡ (if holds (option_copied entry.entry) old.now
        then option_copied next.entry else option_copied entry.entry) }
{
    if holds(entry, old) { next } else { entry }
}

/// The entry, or this value if there is none.
#[inline(always)]
fn entry_or<'a>(entry: Option<&'a Value>, value: &'a Value) -> Option<&'a Value>
    ensures { option_copied result ≡ Some (unwrap_or (option_copied entry.entry) value.now) }
{
    match entry {
        Some(held) => Some(held),
        None => Some(value),
    }
}

/// The value, if there is an entry to replace.
#[inline(always)]
fn entry_after_replace<'a>(entry: Option<&Value>, value: &'a Value) -> Option<&'a Value>
    ensures { option_copied result ≡ entry_after_replace (option_copied entry.entry) value.now }
{
    match entry {
        Some(_) => Some(value),
        None => None,
    }
}

/// The entry with a processor's net effect.
#[inline(always)]
fn after_effect<'a>(answer: &'a ProcessAnswer, entry: Option<&'a Value>) -> Option<&'a Value>
    ensures { option_copied result ≡ after_effect answer.now (option_copied entry.entry) }
{
    match answer {
        ProcessAnswer::Ended { effect, outcome: _ } => match effect {
            Effect::Keep => entry,
            Effect::Set(value) => Some(value),
            Effect::Remove => None,
        },
        ProcessAnswer::NotAsked | ProcessAnswer::Failed(_) => entry,
    }
}

/// The value that a processor answers to the caller, or none.
#[inline(always)]
fn outcome_of(answer: &ProcessAnswer) -> Option<&Value>
    ensures { option_copied result ≡ outcome_of answer.now }
{
    match answer {
        ProcessAnswer::Ended { effect: _, outcome } => outcome.as_ref(),
        ProcessAnswer::NotAsked | ProcessAnswer::Failed(_) => None,
    }
}

/// Writes the reply with this value, or with none.
#[inline(always)]
fn write_value(value: Option<&Value>, reply: &mut Reply)
    ensures { reply.new ≡ replies.Value (option_copied value.entry) }
{
    match value {
        Some(value) => *reply = Reply::Value(Some(*value)),
        None => *reply = Reply::Value(None),
    }
}

impl Out {
    /// The first fault of the outside answers: the loader's before the processor's before the writer's. A step with a
    /// fault leaves the entry as it was.
    #[inline(always)]
    pub fn first_fault(&self) -> Option<Refusal>
        ensures { result ≡ first_fault self.now }
    {
        if let LoadAnswer::Failed(code) = self.load {
            return Some(Refusal::LoaderFailed(code));
        }
        if let ProcessAnswer::Failed(code) = self.process {
            return Some(Refusal::ProcessorFailed(code));
        }
        if let WriteAnswer::Failed(code) = self.write {
            return Some(Refusal::WriterFailed(code));
        }
        None
    }
}

impl Op {
    /// The entry afterwards, if there was no fault.
    #[inline(always)]
    fn entry_without_fault<'a>(
        &'a self,
        entry: Option<&'a Value>,
        out: &'a Out,
    ) -> Option<&'a Value>
        ensures { option_copied result ≡ entry_without_fault self.now (option_copied entry.entry) out.now }
    {
        match self {
            Op::Get | Op::LoadAll { .. } => value_after_load(&out.load, entry),
            Op::ContainsKey => entry,
            Op::Put(value) | Op::GetAndPut(value) => Some(value),
            Op::PutIfAbsent(value) => entry_or(entry, value),
            Op::Remove | Op::GetAndRemove | Op::Clear => None,
            Op::RemoveIf(old) => entry_if(entry, old, None),
            Op::Replace(value) | Op::GetAndReplace(value) => entry_after_replace(entry, value),
            Op::ReplaceIf { old, new } => entry_if(entry, old, Some(new)),
            Op::Invoke => after_effect(&out.process, value_after_load(&out.load, entry)),
        }
    }

    /// Writes the reply, if there was no fault.
    #[inline(always)]
    fn reply_without_fault(&self, entry: Option<&Value>, out: &Out, reply: &mut Reply)
        ensures { reply.new ≡ reply_without_fault self.now (option_copied entry.entry) out.now }
    {
        match self {
            Op::Get => write_value(value_after_load(&out.load, entry), reply),
            Op::ContainsKey | Op::Remove | Op::Replace(_) => *reply = Reply::Flag(entry.is_some()),
            Op::Put(_) | Op::Clear | Op::LoadAll { .. } => *reply = Reply::Unit,
            Op::GetAndPut(_) | Op::GetAndRemove | Op::GetAndReplace(_) => write_value(entry, reply),
            Op::PutIfAbsent(_) => *reply = Reply::Flag(entry.is_none()),
            Op::RemoveIf(old) | Op::ReplaceIf { old, .. } => {
                *reply = Reply::Flag(holds(entry, old));
            }
            Op::Invoke => write_value(outcome_of(&out.process), reply),
        }
    }

    /// The entry that a step leaves if it found this one, with these outside answers. A failed load, processor or
    /// write leaves it as it was.
    #[inline(always)]
    pub fn entry_after<'a>(&'a self, entry: Option<&'a Value>, out: &'a Out) -> Option<&'a Value>
        ensures { option_copied result ≡ entry_after self.now (option_copied entry.entry) out.now }
    {
        match out.first_fault() {
            Some(_) => entry,
            None => self.entry_without_fault(entry, out),
        }
    }

    /// The reply of a step that found this entry, with these outside answers. If the load, the processor or the write failed, the
    /// reply is the first of these faults.
    #[inline(always)]
    pub fn reply_after(&self, entry: Option<&Value>, out: &Out) -> Reply
        ensures { result ≡ reply_after self.now (option_copied entry.entry) out.now }
    {
        let mut reply = Reply::Unit;
        self.reply_into(entry, out, &mut reply);
        reply
    }

    /// Writes the reply of a step that found this entry, with these outside answers, to `reply`: a value is copied once.
    #[inline(always)]
    pub fn reply_into(&self, entry: Option<&Value>, out: &Out, reply: &mut Reply)
        ensures { reply.new ≡ reply_after self.now (option_copied entry.entry) out.now }
    {
        match out.first_fault() {
            Some(fault) => *reply = Reply::Fault(fault),
            None => self.reply_without_fault(entry, out, reply),
        }
    }
}

/// The values of an operation, lent.
#[derive(Clone, Copy, Debug)]
pub enum OpValues<'a> {
    /// It has none.
    Nothing,
    /// It has this one.
    One(&'a Value),
    /// It has two.
    Two {
        /// The first of them.
        first: &'a Value,
        /// The second of them.
        second: &'a Value,
    },
}

impl Op {
    /// The operation's number, by which it is stored. No other operation has it.
    #[inline(always)]
    pub fn number(&self) -> u8
        ensures { result ≡ op_number self.now }
    {
        match self {
            Op::Get => 0,
            Op::ContainsKey => 1,
            Op::Put(_) => 2,
            Op::GetAndPut(_) => 3,
            Op::PutIfAbsent(_) => 4,
            Op::Remove => 5,
            Op::RemoveIf(_) => 6,
            Op::GetAndRemove => 7,
            Op::Replace(_) => 8,
            Op::ReplaceIf { .. } => 9,
            Op::GetAndReplace(_) => 10,
            Op::Clear => 11,
            Op::LoadAll { replace: false } => 12,
            Op::LoadAll { replace: true } => 13,
            Op::Invoke => 14,
        }
    }

    /// The operation's values, in their order.
    #[inline(always)]
    pub fn values(&self) -> OpValues<'_>
        ensures { lent_values result ≡ op_values self.now }
    {
        match self {
            Op::Put(value) | Op::GetAndPut(value) | Op::PutIfAbsent(value) => OpValues::One(value),
            Op::RemoveIf(old) => OpValues::One(old),
            Op::Replace(value) | Op::GetAndReplace(value) => OpValues::One(value),
            Op::ReplaceIf { old, new } => OpValues::Two {
                first: old,
                second: new,
            },
            Op::Get | Op::ContainsKey | Op::Remove | Op::GetAndRemove => OpValues::Nothing,
            Op::Clear | Op::LoadAll { .. } | Op::Invoke => OpValues::Nothing,
        }
    }

    /// The operation with this number, and with these values as far as it has any. A number that no operation has stands for
    /// `Invoke`.
    pub fn of_number(number: u8, first: &Value, second: &Value) -> Op
        ensures { result ≡ numbered_op number first.now second.now }
    {
        match number {
            0 => Op::Get,
            1 => Op::ContainsKey,
            2 => Op::Put(*first),
            3 => Op::GetAndPut(*first),
            4 => Op::PutIfAbsent(*first),
            5 => Op::Remove,
            6 => Op::RemoveIf(*first),
            7 => Op::GetAndRemove,
            8 => Op::Replace(*first),
            9 => Op::ReplaceIf {
                old: *first,
                new: *second,
            },
            10 => Op::GetAndReplace(*first),
            11 => Op::Clear,
            12 => Op::LoadAll { replace: false },
            13 => Op::LoadAll { replace: true },
            _ => Op::Invoke,
        }
    }

    /// How many values the operation with this number has.
    pub fn value_count(number: u8) -> usize
        ensures { result ≡ value_count number }
    {
        match number {
            2 | 3 | 4 | 6 | 8 | 10 => 1,
            9 => 2,
            _ => 0,
        }
    }
}

/// Whether an operation asks the loader: an answer of the loader table.
#[derive(Clone, Copy, Debug, PartialEq, Eq)]
pub enum LoaderAsk {
    /// The loader is not asked.
    Never,
    /// The loader is asked.
    Always,
    /// The loader is asked if the entry processor asks for the value.
    IfWanted,
}

/// `Always` if `asked` holds, otherwise `Never`.
fn always_if(asked: bool) -> LoaderAsk
    ensures { result ≡ always_if asked }
{
    if asked {
        LoaderAsk::Always
    } else {
        LoaderAsk::Never
    }
}

/// `IfWanted` if `asked` holds, otherwise `Never`.
fn wanted_if(asked: bool) -> LoaderAsk
    ensures { result ≡ wanted_if asked }
{
    if asked {
        LoaderAsk::IfWanted
    } else {
        LoaderAsk::Never
    }
}

/// Whether the loader was asked, or not, as the loader table states.
fn load_fits(ask: LoaderAsk, given: bool) -> bool
    ensures { result ≡ load_fits ask given }
{
    match ask {
        LoaderAsk::Never => !given,
        LoaderAsk::Always => given,
        LoaderAsk::IfWanted => true,
    }
}

/// A change of the store whose value is lent.
#[derive(Clone, Copy, Debug)]
pub enum LentChange<'a> {
    /// The value is written.
    Write(&'a Value),
    /// The key is deleted.
    Delete,
}

impl<'a> LentChange<'a> {
    /// The change, with a copy of its value.
    pub fn to_change(self) -> Change
        ensures { result ≡ to_change self.entry }
    {
        match self {
            LentChange::Write(value) => Change::Write(*value),
            LentChange::Delete => Change::Delete,
        }
    }
}

/// The change, if it is asked for.
#[inline(always)]
fn ask_if<'a>(asked: bool, change: LentChange<'a>) -> Option<LentChange<'a>>
    ensures { option_map to_change result ≡ ask_if asked (to_change change.entry) }
{
    if asked { Some(change) } else { None }
}

/// The change that the writer is asked for after a processor.
#[inline(always)]
fn process_ask<'a>(answer: &'a ProcessAnswer) -> Option<LentChange<'a>>
    ensures { option_map to_change result ≡ process_ask answer.now }
{
    match answer {
        ProcessAnswer::Ended { effect, outcome: _ } => match effect {
            Effect::Keep => None,
            Effect::Set(value) => Some(LentChange::Write(value)),
            Effect::Remove => Some(LentChange::Delete),
        },
        ProcessAnswer::NotAsked | ProcessAnswer::Failed(_) => None,
    }
}

/// Whether the loader or the processor failed, after which no writer is asked.
fn has_early_fault(out: &Out) -> bool
    ensures { result ≡ is_some (early_fault out.now) }
{
    let load_failed = match out.load {
        LoadAnswer::Failed(_) => true,
        LoadAnswer::NotAsked | LoadAnswer::Found(_) | LoadAnswer::Nothing => false,
    };
    let process_failed = match out.process {
        ProcessAnswer::Failed(_) => true,
        ProcessAnswer::NotAsked | ProcessAnswer::Ended { .. } => false,
    };
    load_failed || process_failed
}

impl Op {
    /// The loader table: whether the loader is asked by a step that finds this entry (JSR 107, "Integration").
    #[inline(always)]
    pub fn loader_ask(&self, read_through: bool, entry: &Option<Value>) -> LoaderAsk
        ensures { result ≡ loader_ask read_through self.now entry.now }
    {
        match self.kind() {
            OpKind::Get => always_if(read_through && entry.is_none()),
            OpKind::LoadAll { replace } => always_if(replace || entry.is_none()),
            OpKind::Invoke => wanted_if(read_through && entry.is_none()),
            OpKind::ContainsKey | OpKind::Write | OpKind::Clear => LoaderAsk::Never,
        }
    }

    /// Whether the operation runs an entry processor.
    pub fn is_invoke(&self) -> bool
        ensures { result ≡ is_invoke self.now }
    {
        match self.kind() {
            OpKind::Invoke => true,
            OpKind::Get | OpKind::ContainsKey | OpKind::Write => false,
            OpKind::Clear | OpKind::LoadAll { .. } => false,
        }
    }

    /// Whether the operation loads its key whole, so that a `Get` may join its load.
    pub fn loads_whole(&self) -> bool
        ensures { result ≡ loads_whole self.now }
    {
        match self.kind() {
            OpKind::Get | OpKind::LoadAll { .. } => true,
            OpKind::ContainsKey | OpKind::Write | OpKind::Clear | OpKind::Invoke => false,
        }
    }

    /// The writer table: the change that the writer is asked for by a step that finds this entry, or nothing (JSR 107,
    /// "Integration"). It holds with write-through on; with write-through off, the writer isn't asked.
    ///
    /// For `Invoke` the processor's answer decides; the other operations do not look at it.
    #[inline(always)]
    pub fn write_ask<'a>(
        &'a self,
        entry: &Option<Value>,
        answer: &'a ProcessAnswer,
    ) -> Option<LentChange<'a>>
        ensures { option_map to_change result ≡ write_ask self.now entry.now answer.now }
    {
        match self {
            Op::Put(value) | Op::GetAndPut(value) => Some(LentChange::Write(value)),
            Op::PutIfAbsent(value) => ask_if(entry.is_none(), LentChange::Write(value)),
            Op::Remove | Op::GetAndRemove => Some(LentChange::Delete),
            Op::RemoveIf(old) => ask_if(holds(entry.as_ref(), old), LentChange::Delete),
            Op::Replace(value) | Op::GetAndReplace(value) => {
                ask_if(entry.is_some(), LentChange::Write(value))
            }
            Op::ReplaceIf { old, new } => ask_if(
                holds(entry.as_ref(), old),
                LentChange::Write(new),
            ),
            Op::Invoke => process_ask(answer),
            Op::Get | Op::ContainsKey | Op::Clear | Op::LoadAll { .. } => None,
        }
    }

    /// Whether exactly those answered whom a step asks if it finds this entry: the loader and the writer by their tables, and for
    /// `Invoke` the processor. After a failed load or processor no writer is asked. It doesn't judge what they answered.
    pub fn answers_fit(&self, config: &Config, entry: &Option<Value>, out: &Out) -> bool
        ensures { result ≡ answers_fit config.now self.now entry.now out.now }
    {
        let asked = config.write_through
            && !has_early_fault(out)
            && self.write_ask(entry, &out.process).is_some();
        load_fits(
            self.loader_ask(config.read_through, entry),
            out.load.is_given(),
        ) && out.process.is_given() == self.is_invoke()
            && out.write.is_given() == asked
    }
}
