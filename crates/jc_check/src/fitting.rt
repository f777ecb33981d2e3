//! Whether a call's step fits at a key, and what it leaves there.
ghost use Rattle.std.specs.Prelude.{◌≡◌, ◌↔◌, IsTrue, Some, option_map};
ghost use Rattle.jc_model.specs.Group.{nothing_said};
ghost use Rattle.jc_model.specs.Table.{to_change};
ghost use Rattle.jc_check.specs.Spot.{FitsChange, FitsLoad, FitsReply, FitsShare, FitsStep, LoadedFrom, joined_answer, shared_reply};
ghost use Rattle.jc_check.specs.Spot.{spot_after, store_after, store_told, store_written, stored_by};

use crate::record::{Recorded, Rules, Spot, Stored};
use crate::sights::do_sights_fit;
use jc_model::same::is_same_reply;
use jc_model::{Change, LentChange, LoadAnswer, Op, Out, ProcessAnswer, Reply, WriteAnswer};
use jc_types::Value;

/// Whether nobody was asked outside.
fn is_nothing_said(out: &Out) -> bool
    ensures { IsTrue result ↔ (out.now ≡ nothing_said) }
{
    out.load == LoadAnswer::NotAsked
        && out.write == WriteAnswer::NotAsked
        && out.process == ProcessAnswer::NotAsked
}

/// Whether the loader's answer is what the store had.
fn is_loaded_from(store: &Stored, answer: &LoadAnswer) -> bool
    ensures { IsTrue result ↔ LoadedFrom store.now answer.now }
{
    match store {
        Stored::Unknown => true,
        Stored::Known(value) => match answer {
            LoadAnswer::NotAsked | LoadAnswer::Failed(_) => true,
            LoadAnswer::Found(found) => match value {
                Some(stored) => *stored == *found,
                None => false,
            },
            LoadAnswer::Nothing => value.is_none(),
        },
    }
}

/// Whether the loader's answer fits the store, if that counts.
fn does_load_fit(is_known: bool, store: &Stored, answer: &LoadAnswer) -> bool
    ensures { IsTrue result ↔ FitsLoad is_known store.now answer.now }
{
    if is_known {
        is_loaded_from(store, answer)
    } else {
        true
    }
}

/// Whether the answer that was recorded, if any, is this one.
fn does_reply_fit(told: &Option<Reply>, reply: &Reply) -> bool
    ensures { IsTrue result ↔ FitsReply told.now reply.now }
{
    match told {
        None => true,
        Some(told) => is_same_reply(told, reply),
    }
}

/// Whether the writer was asked for this change.
fn is_same_change(told: &Option<Change>, asked: Option<LentChange>) -> bool
    ensures { IsTrue result ↔ (told.now ≡ option_map to_change asked.entry) }
{
    match asked {
        None => told.is_none(),
        Some(asked) => match told {
            None => false,
            Some(told) => *told == asked.to_change(),
        },
    }
}

/// Whether the writer was asked for what the table has.
fn does_change_fit(call: &Recorded, entry: &Option<Value>) -> bool
    ensures { IsTrue result ↔ FitsChange call.now entry.now }
{
    if call.out.write.is_given() {
        is_same_change(&call.change, call.op.write_ask(entry, &call.out.process))
    } else {
        call.change.is_none()
    }
}

/// The store after a change, if there is one.
pub(crate) fn stored_by(change: &Option<Change>, store: Stored) -> Stored
    ensures { result ≡ stored_by change.now store }
{
    match change {
        None => store,
        Some(Change::Write(value)) => Stored::Known(Some(*value)),
        Some(Change::Delete) => Stored::Known(None),
    }
}

/// The store after the loader told what it has.
fn store_told(answer: &LoadAnswer, store: Stored) -> Stored
    ensures { result ≡ store_told answer.now store }
{
    match answer {
        LoadAnswer::NotAsked | LoadAnswer::Failed(_) => store,
        LoadAnswer::Found(value) => Stored::Known(Some(*value)),
        LoadAnswer::Nothing => Stored::Known(None),
    }
}

/// The store after the writer's answer.
fn store_written(answer: &WriteAnswer, change: &Option<Change>, store: Stored) -> Stored
    ensures { result ≡ store_written answer.now change.now store }
{
    match answer {
        WriteAnswer::Done => stored_by(change, store),
        WriteAnswer::NotAsked | WriteAnswer::Failed(_) => store,
    }
}

/// The store after a step, if the store counts.
fn store_after(is_known: bool, call: &Recorded, store: Stored) -> Stored
    ensures { result ≡ store_after is_known call.now store }
{
    if is_known {
        store_written(
            &call.out.write,
            &call.change,
            store_told(&call.out.load, store),
        )
    } else {
        store
    }
}

/// The answer that others may share after the step.
fn joined_answer(rules: &Rules, call: &Recorded, entry: &Option<Value>) -> LoadAnswer
    ensures { result ≡ joined_answer rules.now call.now entry.now }
{
    if rules.config.read_through && call.op.loads_whole() && entry.is_none() {
        call.out.load
    } else {
        LoadAnswer::NotAsked
    }
}

/// Whether this answer was recorded.
fn is_told(told: &Option<Reply>, reply: &Reply) -> bool
    ensures { IsTrue result ↔ (told.now ≡ Some reply.now) }
{
    match told {
        None => false,
        Some(told) => is_same_reply(told, reply),
    }
}

impl Spot {
    /// Whether a call may make its step here: it asked whom the operation table says, for what it says, and answered so; and its
    /// processor saw what the table says.
    pub fn does_step_fit(&self, rules: &Rules, call: &Recorded) -> bool
        ensures { IsTrue result ↔ FitsStep rules.now self.now call.now }
    {
        call.op.answers_fit(&rules.config, &self.entry, &call.out)
            && does_change_fit(call, &self.entry)
            && does_load_fit(rules.is_store_known, &self.store, &call.out.load)
            && does_reply_fit(
                &call.reply,
                &call.op.reply_after(self.entry.as_ref(), &call.out),
            )
            && do_sights_fit(
                call.op.is_invoke(),
                rules.config.read_through,
                &self.entry,
                &call.sights,
                &call.out,
            )
    }

    /// What a call's step leaves.
    pub fn after_step(&self, rules: &Rules, call: &Recorded) -> Spot
        ensures { result ≡ spot_after rules.now self.now call.now }
    {
        Spot {
            entry: call.op.entry_after(self.entry.as_ref(), &call.out).copied(),
            store: store_after(rules.is_store_known, call, self.store),
            shared: joined_answer(rules, call, &self.entry),
        }
    }

    /// Whether a call may share the load that was just made: it asked nobody itself, and answered as that load.
    pub fn does_share_fit(&self, call: &Recorded) -> bool
        ensures { IsTrue result ↔ FitsShare self.now call.now }
    {
        call.op == Op::Get
            && is_nothing_said(&call.out)
            && call.change.is_none()
            && self.shared.is_given()
            && is_told(
                &call.reply,
                &Op::Get.reply_after(None, &Out::load_only(self.shared)),
            )
    }
}
