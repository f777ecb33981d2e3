//! Turns, one after the other.
ghost use Rattle.std.specs.Prelude.{◌≡◌, ◌↔◌, IfNone, IfSome, IsTrue, None, Some};
ghost use Rattle.jc_check.specs.Explains.{CallGoes, Goes, PlaysTurns, entry_of_change, entry_of_effect, entry_of_op, is_foreign, is_forgotten};
ghost use Rattle.jc_check.specs.Explains.{left_entry, may_land, must_be_placed, spot_foreign, spot_landed, spot_left, spot_loaded, spot_vanished};
ghost use Rattle.jc_check.specs.declared.record.Act.TheVariants as acts;
ghost use Rattle.jc_model.specs.Table.{value_after_load};

use crate::fitting::stored_by;
use crate::node::is_write_done;
use crate::record::{Act, Recorded, Role, Rules, Spot, Turn};
use jc_model::{Change, Effect, LoadAnswer, Op, ProcessAnswer};
use jc_types::Value;

impl Recorded {
    /// Whether it stands for what another program did.
    fn is_foreign(&self) -> bool
        ensures { result ≡ is_foreign self.now.role }
    {
        match self.role {
            Role::Foreign => true,
            Role::Call | Role::Forgotten => false,
        }
    }

    /// Whether it is forgotten.
    pub fn is_forgotten(&self) -> bool
        ensures { result ≡ is_forgotten self.now.role }
    {
        match self.role {
            Role::Forgotten => true,
            Role::Call | Role::Foreign => false,
        }
    }

    /// Whether the call's write may change the store though the call makes no step, or answered that it failed.
    pub fn may_land(&self) -> bool
        ensures { result ≡ may_land self.now }
    {
        !self.is_foreign()
            && self.change.is_some()
            && (self.reply.is_none() || !is_write_done(&self.out.write))
    }

    /// Whether the call has ended and isn't forgotten: an order has to place it.
    pub fn must_be_placed(&self) -> bool
        ensures { result ≡ must_be_placed self.now }
    {
        !self.is_forgotten() && self.reply.is_some()
    }

    /// The entry that the call leaves if it mutates.
    fn left_entry(&self) -> Option<Option<Value>>
        ensures { result ≡ left_entry self.now.change self.now.op self.now.out.process }
    {
        match &self.change {
            Some(change) => Some(entry_of_change(change)),
            None => entry_of_op(&self.op, &self.out.process),
        }
    }
}

/// The entry that goes with a change of the store.
fn entry_of_change(change: &Change) -> Option<Value>
    ensures { result ≡ entry_of_change change.now }
{
    match change {
        Change::Write(value) => Some(*value),
        Change::Delete => None,
    }
}

/// The entry that goes with a processor's net effect, if there is one.
fn entry_of_effect(answer: &ProcessAnswer) -> Option<Option<Value>>
    ensures { result ≡ entry_of_effect answer.now }
{
    match answer {
        ProcessAnswer::Ended { effect, outcome: _ } => match effect {
            Effect::Keep => None,
            Effect::Set(value) => Some(Some(*value)),
            Effect::Remove => Some(None),
        },
        ProcessAnswer::NotAsked | ProcessAnswer::Failed(_) => None,
    }
}

/// The entry that an operation leaves if it mutates, if it may.
fn entry_of_op(op: &Op, answer: &ProcessAnswer) -> Option<Option<Value>>
    ensures { result ≡ entry_of_op op.now answer.now }
{
    match op {
        Op::Get | Op::ContainsKey | Op::LoadAll { .. } => None,
        Op::Put(value) | Op::GetAndPut(value) | Op::PutIfAbsent(value) => Some(Some(*value)),
        Op::Replace(value) | Op::GetAndReplace(value) => Some(Some(*value)),
        Op::ReplaceIf { old: _, new } => Some(Some(*new)),
        Op::Remove | Op::RemoveIf(_) | Op::GetAndRemove | Op::Clear => Some(None),
        Op::Invoke => entry_of_effect(answer),
    }
}

impl Spot {
    /// What is there when the entry has vanished.
    pub(crate) fn vanished(&self) -> Spot
        ensures { result ≡ spot_vanished self.now }
    {
        self.left(None)
    }

    /// What is there when a call's change is in the store.
    fn landed(&self, call: &Recorded) -> Spot
        ensures { result ≡ spot_landed self.now call.now }
    {
        Spot {
            entry: self.entry,
            store: stored_by(&call.change, self.store),
            shared: self.shared,
        }
    }

    /// What is there when another program has changed the store.
    fn after_foreign(&self, rules: &Rules, call: &Recorded) -> Spot
        ensures { result ≡ spot_foreign rules.now.is_store_known self.now call.now }
    {
        if rules.is_store_known {
            self.landed(call)
        } else {
            *self
        }
    }

    /// What is there when this entry was left.
    fn left(&self, entry: Option<Value>) -> Spot
        ensures { result ≡ spot_left self.now entry }
    {
        Spot {
            entry,
            store: self.store,
            shared: LoadAnswer::NotAsked,
        }
    }

    /// What is there when a forgotten call has cached what its loader answered.
    fn loaded(&self, call: &Recorded) -> Spot
        ensures { result ≡ spot_loaded self.now call.now }
    {
        let entry = match &call.out.load {
            LoadAnswer::Found(value) => Some(*value),
            LoadAnswer::NotAsked | LoadAnswer::Nothing | LoadAnswer::Failed(_) => self.entry,
        };
        Spot {
            entry,
            store: self.store,
            shared: call.out.load,
        }
    }
}

/// What is there after a call's step, if it fits.
fn after_step(rules: &Rules, spot: &Spot, call: &Recorded) -> Option<Spot>
    ensures some { IfSome result (λ next. CallGoes rules.now call.now spot.now acts.Step next) }
    ensures none { IfNone result ((next : _) → CallGoes rules.now call.now spot.now acts.Step next → ⊥) }
{
    if call.role == Role::Call && spot.does_step_fit(rules, call) {
        Some(spot.after_step(rules, call))
    } else {
        None
    }
}

/// What is there after a call has shared a load, if it may.
fn after_share(rules: &Rules, spot: &Spot, call: &Recorded) -> Option<Spot>
    ensures some { IfSome result (λ next. CallGoes rules.now call.now spot.now acts.Share next) }
    ensures none { IfNone result ((next : _) → CallGoes rules.now call.now spot.now acts.Share next → ⊥) }
{
    let _rules = *rules;
    if call.role == Role::Call && spot.does_share_fit(call) {
        Some(*spot)
    } else {
        None
    }
}

/// What is there after a call's write has landed, if it may.
fn after_landing(rules: &Rules, spot: &Spot, call: &Recorded) -> Option<Spot>
    ensures some { IfSome result (λ next. CallGoes rules.now call.now spot.now acts.Land next) }
    ensures none { IfNone result ((next : _) → CallGoes rules.now call.now spot.now acts.Land next → ⊥) }
{
    if rules.is_store_known && call.may_land() {
        Some(spot.landed(call))
    } else {
        None
    }
}

/// What is there after another program has changed the store, if that is what the line stands for.
fn after_foreign(rules: &Rules, spot: &Spot, call: &Recorded) -> Option<Spot>
    ensures some { IfSome result (λ next. CallGoes rules.now call.now spot.now acts.Foreign next) }
    ensures none { IfNone result ((next : _) → CallGoes rules.now call.now spot.now acts.Foreign next → ⊥) }
{
    if call.role == Role::Foreign {
        Some(spot.after_foreign(rules, call))
    } else {
        None
    }
}

/// What is there after a forgotten call has left its entry, if it may leave one.
fn after_left_entry(rules: &Rules, spot: &Spot, call: &Recorded) -> Option<Spot>
    ensures some { IfSome result (λ next. CallGoes rules.now call.now spot.now acts.LeaveEntry next) }
    ensures none { IfNone result ((next : _) → CallGoes rules.now call.now spot.now acts.LeaveEntry next → ⊥) }
{
    let _rules = *rules;
    if call.role != Role::Forgotten {
        return None;
    }
    match call.left_entry() {
        Some(entry) => Some(spot.left(entry)),
        None => None,
    }
}

/// What is there after a forgotten call has changed the store, if it may.
fn after_left_store(rules: &Rules, spot: &Spot, call: &Recorded) -> Option<Spot>
    ensures some { IfSome result (λ next. CallGoes rules.now call.now spot.now acts.LeaveStore next) }
    ensures none { IfNone result ((next : _) → CallGoes rules.now call.now spot.now acts.LeaveStore next → ⊥) }
{
    if call.role == Role::Forgotten && rules.is_store_known && call.change.is_some() {
        Some(spot.landed(call))
    } else {
        None
    }
}

/// What is there after a forgotten call has changed entry and store, if it may.
fn after_left_both(rules: &Rules, spot: &Spot, call: &Recorded) -> Option<Spot>
    ensures some { IfSome result (λ next. CallGoes rules.now call.now spot.now acts.LeaveBoth next) }
    ensures none { IfNone result ((next : _) → CallGoes rules.now call.now spot.now acts.LeaveBoth next → ⊥) }
{
    if call.role != Role::Forgotten || !rules.is_store_known {
        return None;
    }
    match &call.change {
        Some(change) => Some(spot.landed(call).left(entry_of_change(change))),
        None => None,
    }
}

/// What is there after a forgotten call has cached what its loader answered, if it did.
fn after_left_load(rules: &Rules, spot: &Spot, call: &Recorded) -> Option<Spot>
    ensures some { IfSome result (λ next. CallGoes rules.now call.now spot.now acts.LeaveLoad next) }
    ensures none { IfNone result ((next : _) → CallGoes rules.now call.now spot.now acts.LeaveLoad next → ⊥) }
{
    let _rules = *rules;
    if call.role == Role::Forgotten && call.out.load.is_given() {
        Some(spot.loaded(call))
    } else {
        None
    }
}

/// What is there after a call has acted, if it may.
fn after_act(rules: &Rules, spot: &Spot, call: &Recorded, act: Act) -> Option<Spot>
    ensures some { IfSome result (λ next. CallGoes rules.now call.now spot.now act next) }
    ensures none { IfNone result ((next : _) → CallGoes rules.now call.now spot.now act next → ⊥) }
{
    match act {
        Act::Step => after_step(rules, spot, call),
        Act::Share => after_share(rules, spot, call),
        Act::Land => after_landing(rules, spot, call),
        Act::Foreign => after_foreign(rules, spot, call),
        Act::LeaveEntry => after_left_entry(rules, spot, call),
        Act::LeaveStore => after_left_store(rules, spot, call),
        Act::LeaveBoth => after_left_both(rules, spot, call),
        Act::LeaveLoad => after_left_load(rules, spot, call),
    }
}

/// What is there after a turn, if it fits.
pub fn after_turn(rules: &Rules, calls: &[Recorded], spot: &Spot, turn: Turn) -> Option<Spot>
    ensures some { IfSome result (λ next. Goes rules.now calls.now spot.now turn next) }
    ensures none { IfNone result ((next : _) → Goes rules.now calls.now spot.now turn next → ⊥) }
{
    match turn {
        Turn::Vanish => {
            if rules.may_vanish {
                Some(spot.vanished())
            } else {
                None
            }
        }
        Turn::Call { call, act } => match calls.get(call) {
            Some(what) => after_act(rules, spot, what, act),
            None => None,
        },
    }
}
