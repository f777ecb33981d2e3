//! Nodes: what the turns so far have done, as far as it counts for those to come.
ghost use Rattle.std.specs.Prelude.{◌≡◌, ◌↔◌, ◌<◌, ℕ, IfNone, IfOk, IfSome, IsTrue, OnOk, Some, max, option_map, slice_get, true};
ghost use Rattle.jc_check.specs.Explains.{call_at, call_of, changes_at, changes_store, is_write_done, placed_call, places, some_if, stored_call};
ghost use Rattle.jc_check.specs.Nodes.{HasLanded, IsFresh, IsLost, IsMarked, IsNot, IsOutrun, IsSettled, IsSettledBy, IsWhole, Keeps, MayGo};
ghost use Rattle.jc_check.specs.Nodes.{NodeGoes, NotesNext, is_landable, kept, landable_at, landed_call, landed_with, must_at, node_value, opening_node};
ghost use Rattle.jc_check.specs.Orders.{AreOrdered, IsEnd};

use crate::order::{comes_before, end_of};
use crate::playing::after_turn;
use crate::record::{Act, Recorded, Rules, Spot, Turn};
use jc_model::WriteAnswer;
use std::alloc::{AllocError, Global};

/// Some calls: those before a number, and those that are marked from there to another one.
#[derive(Drop)]
pub struct Marks {
    /// The first number.
    pub from: usize,
    /// The other one.
    pub end: usize,
    /// The marks from there on.
    pub rest: Vec<bool>,
}

/// What the turns so far have done.
#[derive(Drop)]
pub struct Node {
    /// The calls that are placed, or can't be placed any more.
    pub settled: Marks,
    /// Of the calls whose write may land: those whose write has changed the store.
    pub landed: Vec<usize>,
    /// What is at the key.
    pub spot: Spot,
}

/// Whether the writer reported success.
pub(crate) fn is_write_done(answer: &WriteAnswer) -> bool
    ensures { result ≡ is_write_done answer.now }
{
    match answer {
        WriteAnswer::Done => true,
        WriteAnswer::NotAsked | WriteAnswer::Failed(_) => false,
    }
}

impl Act {
    /// Whether the act places its call.
    pub(crate) fn places(&self) -> bool
        ensures { result ≡ places self.now }
    {
        match self {
            Act::Land => false,
            Act::Step | Act::Share | Act::Foreign => true,
            Act::LeaveEntry | Act::LeaveStore | Act::LeaveBoth | Act::LeaveLoad => true,
        }
    }

    /// Whether the call's write changes the store by the act.
    fn changes_store(&self, call: &Recorded) -> bool
        ensures { result ≡ changes_store self.now call.now }
    {
        match self {
            Act::Step => is_write_done(&call.out.write),
            Act::Share | Act::Foreign | Act::LeaveEntry | Act::LeaveLoad => false,
            Act::Land | Act::LeaveStore | Act::LeaveBoth => true,
        }
    }

    /// The same of the call with a number, if there is one.
    fn changes_at(&self, calls: &[Recorded], call: usize) -> bool
        ensures { result ≡ changes_at self.now (slice_get calls.now call) }
    {
        match calls.get(call) {
            Some(what) => self.changes_store(what),
            None => false,
        }
    }
}

/// A number if a condition holds.
fn some_if(is_there: bool, number: usize) -> Option<usize>
    ensures { result ≡ some_if is_there number }
{
    if is_there { Some(number) } else { None }
}

impl Turn {
    /// The call that the turn places, if it places one.
    pub(crate) fn placed_call(&self) -> Option<usize>
        ensures { result ≡ placed_call self.now }
    {
        match self {
            Turn::Vanish => None,
            Turn::Call { call, act } => some_if(act.places(), *call),
        }
    }

    /// The call that acts, if one does.
    pub(crate) fn call_of(&self) -> Option<usize>
        ensures { result ≡ call_of self.now }
    {
        match self {
            Turn::Vanish => None,
            Turn::Call { call, act: _ } => Some(*call),
        }
    }

    /// The call whose write changes the store, if one does.
    pub(crate) fn stored_call(&self, calls: &[Recorded]) -> Option<usize>
        ensures { result ≡ stored_call calls.now self.now }
    {
        match self {
            Turn::Vanish => None,
            Turn::Call { call, act } => some_if(act.changes_at(calls, *call), *call),
        }
    }
}

/// The call with a number, if there is one.
pub(crate) fn call_at(calls: &[Recorded], call: Option<usize>) -> Option<&Recorded>
    ensures { option_map (λ v. v.now) result ≡ call_at calls.now call }
{
    match call {
        Some(call) => calls.get(call),
        None => None,
    }
}

/// Whether a call, if it is there, has to be placed.
pub(crate) fn must_at(calls: &[Recorded], call: usize) -> bool
    ensures { result ≡ must_at calls.now call }
{
    match calls.get(call) {
        Some(call) => call.must_be_placed(),
        None => false,
    }
}

/// Whether the write of a call, if it is there, may change the store though the call makes no step, or answered that it failed.
pub(crate) fn landable_at(calls: &[Recorded], call: usize) -> bool
    ensures { result ≡ landable_at calls.now call }
{
    match calls.get(call) {
        Some(call) => call.may_land(),
        None => false,
    }
}

/// The same of a call that acts, if one does.
fn is_landable(call: Option<&Recorded>) -> bool
    ensures { result ≡ is_landable (option_map (λ v. v.now) call.entry) }
{
    match call {
        Some(call) => call.may_land(),
        None => false,
    }
}

/// A call, under a condition.
fn kept(is_kept: bool, call: Option<usize>) -> Option<usize>
    ensures { result ≡ kept is_kept call }
{
    if is_kept { call } else { None }
}

impl Turn {
    /// The call whose write may land and changes the store, if one does.
    pub(crate) fn landed_call(&self, calls: &[Recorded]) -> Option<usize>
        ensures { result ≡ landed_call calls.now self.now }
    {
        kept(
            is_landable(call_at(calls, self.call_of())),
            self.stored_call(calls),
        )
    }
}

impl Marks {
    /// Whether a call is marked.
    fn has(&self, call: usize) -> bool
        ensures { IsTrue result ↔ IsMarked self.now.from self.now.end self.now.rest.items call }
    {
        if call < self.from {
            return true;
        }
        let place = call - self.from;
        if call < self.end && place < self.rest.len() {
            self.rest[place]
        } else {
            false
        }
    }
}

impl Marks {
    /// Notes whether the next call is marked. An `Err` says that an allocation failed.
    fn note(&mut self, call: usize, is_marked: bool) -> Result<(), AllocError>
        requires { call < usize.MAX }
        ensures end { OnOk result (self.new.end ≡ self.old.end) }
        ensures next { OnOk result (NotesNext self.old self.new call is_marked) }
    {
        if is_marked && self.rest.is_empty() {
            self.from = call + 1;
            return Ok(());
        }
        self.rest.push(is_marked)?;
        Ok(())
    }
}

/// The larger of two numbers.
fn larger(one: usize, other: usize) -> usize
    ensures { result ≡ max one other }
{
    if one < other { other } else { one }
}

/// Whether a call is in a list.
fn has_landed(landed: &[usize], call: usize) -> bool
    ensures { IsTrue result ↔ HasLanded landed.now call }
{
    for other in landed {
        if *other == call {
            return true;
        }
    }
    false
}

/// Whether a call, if there is one, isn't in a list.
fn is_unlanded(landed: &[usize], call: Option<usize>) -> bool
    ensures { IsTrue result ↔ IsNot (HasLanded landed.now) call }
{
    match call {
        Some(call) => !has_landed(landed, call),
        None => true,
    }
}

/// Whether each of some calls is in a list.
pub(crate) fn are_landed(some: &[usize], landed: &[usize]) -> bool
    ensures { IsTrue result ↔ ((call : ℕ) → HasLanded some.now call → HasLanded landed.now call) }
{
    for call in some {
        if !has_landed(landed, *call) {
            return false;
        }
    }
    true
}

/// Appends a call, if there is one.
fn push_landed(landed: &mut Vec<usize>, call: Option<usize>) -> Result<(), AllocError>
    ensures { OnOk result (landed.new.items ≡ landed_with call landed.old.items) }
{
    match call {
        Some(call) => landed.push(call)?,
        None => {}
    }
    Ok(())
}

/// Whether this is that call.
fn is_call(placed: Option<usize>, call: usize) -> bool
    ensures { IsTrue result ↔ (placed ≡ Some call) }
{
    match placed {
        Some(placed) => placed == call,
        None => false,
    }
}

/// Whether a call that need not be placed can't be placed after a turn.
fn is_outrun(rules: &Rules, calls: &[Recorded], turn: Turn, call: usize) -> bool
    ensures { IsTrue result ↔ IsOutrun rules.now calls.now turn call }
{
    !must_at(calls, call) && comes_before(rules, calls, call, turn)
}

impl Node {
    /// The node at first.
    pub fn opening(alloc: Global, spot: &Spot) -> Node
        ensures { node_value result ≡ opening_node spot.now }
    {
        Node {
            settled: Marks {
                from: 0,
                end: 0,
                rest: Vec::new(alloc),
            },
            landed: Vec::new(alloc),
            spot: *spot,
        }
    }

    /// Whether a call is placed, or can't be placed any more.
    pub fn is_settled(&self, call: usize) -> bool
        ensures { IsTrue result ↔ IsSettled (node_value self.now) call }
    {
        self.settled.has(call)
    }

    /// Whether the call that a turn places isn't settled.
    fn is_placeable(&self, turn: Turn) -> bool
        ensures { IsTrue result ↔ IsNot (IsSettled (node_value self.now)) (placed_call turn) }
    {
        match turn.placed_call() {
            Some(call) => !self.is_settled(call),
            None => true,
        }
    }

    /// Whether a turn places no call that is settled, and no write changes the store again in it.
    fn is_fresh(&self, calls: &[Recorded], turn: Turn) -> bool
        ensures { IsTrue result ↔ IsFresh calls.now (node_value self.now) turn }
    {
        self.is_placeable(turn) && is_unlanded(&self.landed, turn.landed_call(calls))
    }

    /// Whether this call has to be placed, isn't settled, and can't be placed after a turn that doesn't place it.
    fn is_lost(&self, rules: &Rules, calls: &[Recorded], turn: Turn, call: usize) -> bool
        ensures { IsTrue result ↔ IsLost rules.now calls.now (node_value self.now) turn call }
    {
        must_at(calls, call)
            && !self.is_settled(call)
            && !is_call(turn.placed_call(), call)
            && comes_before(rules, calls, call, turn)
    }

    /// Whether no call that has to be placed, and isn't, has to come before what a turn does; none from `end` on does.
    pub(crate) fn keeps(&self, rules: &Rules, calls: &[Recorded], turn: Turn, end: usize) -> bool
        requires { IsEnd rules.now calls.now turn end }
        ensures { IsTrue result ↔ Keeps rules.now calls.now (node_value self.now) turn }
    {
        for call in self.settled.from..end {
            if self.is_lost(rules, calls, turn, call) {
                return false;
            }
        }
        true
    }

    /// Whether a call is settled after a turn.
    fn is_settled_by(&self, rules: &Rules, calls: &[Recorded], turn: Turn, call: usize) -> bool
        ensures { IsTrue result ↔ IsSettledBy rules.now calls.now (node_value self.now) turn call }
    {
        self.is_settled(call)
            || is_call(turn.placed_call(), call)
            || is_outrun(rules, calls, turn, call)
    }

    /// The calls that are settled after a turn that may be made.
    fn settled_by(
        &self,
        alloc: Global,
        rules: &Rules,
        calls: &[Recorded],
        turn: Turn,
        end: usize,
    ) -> Result<Marks, AllocError>
        requires last { IsEnd rules.now calls.now turn end }
        requires placed { (call : ℕ) → placed_call turn ≡ Some call → call < end }
        ensures { IfOk result (λ marks. (call : ℕ) → IsMarked marks.from marks.end marks.rest.items call
            ↔ IsSettledBy rules.now calls.now (node_value self.now) turn call) }
    {
        let end = larger(end, self.settled.end);
        let mut marks = Marks {
            from: self.settled.from,
            end,
            rest: Vec::new(alloc),
        };
        for call in self.settled.from..end {
            let is_settled = self.is_settled_by(rules, calls, turn, call);
            marks.note(call, is_settled)?;
        }
        Ok(marks)
    }

    /// What is at the key after a turn, if it may be made.
    pub(crate) fn spot_after(
        &self,
        rules: &Rules,
        calls: &[Recorded],
        is_ordered: bool,
        turn: Turn,
    ) -> Option<Spot>
        requires { is_ordered ≡ true → AreOrdered calls.now }
        ensures some { IfSome result (λ spot. MayGo rules.now calls.now (node_value self.now) turn spot) }
        ensures none { IfNone result ((spot : _) → MayGo rules.now calls.now (node_value self.now) turn spot → ⊥) }
    {
        if !self.is_fresh(calls, turn) {
            return None;
        }
        let end = end_of(rules, calls, is_ordered, turn);
        if !self.keeps(rules, calls, turn, end) {
            return None;
        }
        match after_turn(rules, calls, &self.spot, turn) {
            Some(spot) => Some(spot),
            None => None,
        }
    }

    /// The node to which a turn leads that may be made, and leaves this at the key. An `Err` says that an allocation failed.
    pub(crate) fn next(
        &self,
        alloc: Global,
        rules: &Rules,
        calls: &[Recorded],
        is_ordered: bool,
        turn: Turn,
        spot: Spot,
    ) -> Result<Node, AllocError>
        requires ordered { is_ordered ≡ true → AreOrdered calls.now }
        requires goes { MayGo rules.now calls.now (node_value self.now) turn spot }
        ensures { IfOk result (λ next. NodeGoes rules.now calls.now (node_value self.now) turn (node_value next)) }
    {
        let end = end_of(rules, calls, is_ordered, turn);
        let settled = self.settled_by(alloc, rules, calls, turn, end)?;
        let mut landed = Vec::from_slice(alloc, &self.landed)?;
        push_landed(&mut landed, turn.landed_call(calls))?;
        Ok(Node {
            settled,
            landed,
            spot,
        })
    }

    /// Whether each call that has to be placed is settled.
    pub fn is_whole(&self, calls: &[Recorded]) -> bool
        ensures { IsTrue result ↔ IsWhole calls.now (node_value self.now) }
    {
        for call in self.settled.from..calls.len() {
            if must_at(calls, call) && !self.is_settled(call) {
                return false;
            }
        }
        true
    }
}
