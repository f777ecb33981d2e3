//! All that turns lead to: each node is looked at once, and each turn from it is made.
ghost use Rattle.std.specs.Prelude.{◌≡◌, ◌≤◌, ◌<◌, ℕ, IfOk, OnOk};
ghost use Rattle.jc_check.specs.declared.record.Turn.TheVariants.{Call};
ghost use Rattle.jc_check.specs.Exploring.{Covers, CoversActs, CoversAll, CoversLandings, EndsRight, IsSurvey};
ghost use Rattle.jc_check.specs.Nodes.{NodeValue};
ghost use Rattle.jc_check.specs.States.{AreKnown, Grows, IsAt};

use crate::node::landable_at;
use crate::order::{are_ordered, barred_from};
use crate::record::{Act, Recorded, Rules, Turn};
use crate::states::{States, Step};
use std::alloc::{AllocError, Global};

/// What is known of the calls of a record as a whole.
#[derive(Drop)]
pub(crate) struct Survey {
    /// Whether they are in the order of their beginnings, and none ended before it began.
    pub is_ordered: bool,
    /// Those whose writes may land.
    pub landable: Vec<usize>,
}

/// How an exploration ended.
#[derive(Clone, Copy)]
pub(crate) enum Ending {
    /// The node at this place is whole.
    Whole(usize),
    /// There is nothing left to look at.
    Closed,
    /// More nodes than the budget were met.
    Spent,
}

/// What is known of the calls of a record as a whole. An `Err` says that an allocation failed.
pub(crate) fn survey_of(alloc: Global, calls: &[Recorded]) -> Result<Survey, AllocError>
    ensures { IfOk result (λ survey. IsSurvey calls.now survey) }
{
    let is_ordered = are_ordered(calls);
    let mut landable = Vec::new(alloc);
    for call in 0..calls.len() {
        if landable_at(calls, call) {
            landable.push(call)?;
        }
    }
    Ok(Survey {
        is_ordered,
        landable,
    })
}

/// Makes a turn from the node at a place, if there is one, and notes where it leads. An `Err` says that an allocation failed.
fn try_turn(
    rules: &Rules,
    calls: &[Recorded],
    survey: &Survey,
    states: &mut States,
    place: usize,
    turn: Turn,
) -> Result<(), AllocError>
    requires survey { IsSurvey calls.now survey.now }
    requires known { AreKnown rules.now calls.now states.old }
    ensures known { OnOk result (AreKnown rules.now calls.now states.new) }
    ensures grows { OnOk result (Grows states.old states.new) }
    ensures covers { OnOk result ((n : NodeValue) → IsAt states.old place n → Covers rules.now calls.now states.new n turn) }
{
    if place >= states.list.len() {
        return Ok(());
    }
    let node = &states.list[place];
    match node.spot_after(rules, calls, survey.is_ordered, turn) {
        Some(spot) => {
            let next = node.next(states.alloc, rules, calls, survey.is_ordered, turn, spot)?;
            states.note(rules, calls, next, Step { from: place, turn })?;
            Ok(())
        }
        None => Ok(()),
    }
}

/// The turn in which a call acts.
fn turn_of(call: usize, act: Act) -> Turn
    ensures { result ≡ Call call act }
{
    Turn::Call { call, act }
}

/// Makes each turn that places a call, from the node at a place. An `Err` says that an allocation failed.
fn try_call(
    rules: &Rules,
    calls: &[Recorded],
    survey: &Survey,
    states: &mut States,
    place: usize,
    call: usize,
) -> Result<(), AllocError>
    requires survey { IsSurvey calls.now survey.now }
    requires known { AreKnown rules.now calls.now states.old }
    ensures known { OnOk result (AreKnown rules.now calls.now states.new) }
    ensures grows { OnOk result (Grows states.old states.new) }
    ensures covers { OnOk result ((n : NodeValue) → IsAt states.old place n → CoversActs rules.now calls.now states.new n call) }
{
    let step = turn_of(call, Act::Step);
    let share = turn_of(call, Act::Share);
    let foreign = turn_of(call, Act::Foreign);
    let entry = turn_of(call, Act::LeaveEntry);
    let store = turn_of(call, Act::LeaveStore);
    let both = turn_of(call, Act::LeaveBoth);
    let load = turn_of(call, Act::LeaveLoad);
    try_turn(rules, calls, survey, states, place, step)?;
    try_turn(rules, calls, survey, states, place, share)?;
    try_turn(rules, calls, survey, states, place, foreign)?;
    try_turn(rules, calls, survey, states, place, entry)?;
    try_turn(rules, calls, survey, states, place, store)?;
    try_turn(rules, calls, survey, states, place, both)?;
    try_turn(rules, calls, survey, states, place, load)?;
    Ok(())
}

/// Makes each turn that places a call from `from` to `end`, from the node at a place. An `Err` says that an allocation failed.
fn try_calls(
    rules: &Rules,
    calls: &[Recorded],
    survey: &Survey,
    states: &mut States,
    place: usize,
    from: usize,
    end: usize,
) -> Result<(), AllocError>
    requires survey { IsSurvey calls.now survey.now }
    requires known { AreKnown rules.now calls.now states.old }
    ensures known { OnOk result (AreKnown rules.now calls.now states.new) }
    ensures grows { OnOk result (Grows states.old states.new) }
    ensures covers { OnOk result ((n : NodeValue) → IsAt states.old place n
        → (call : ℕ) → from ≤ call → call < end → CoversActs rules.now calls.now states.new n call) }
{
    for call in from..end {
        try_call(rules, calls, survey, states, place, call)?;
    }
    Ok(())
}

/// Makes each turn in which a write lands, from the node at a place. An `Err` says that an allocation failed.
fn try_landings(
    rules: &Rules,
    calls: &[Recorded],
    survey: &Survey,
    states: &mut States,
    place: usize,
) -> Result<(), AllocError>
    requires survey { IsSurvey calls.now survey.now }
    requires known { AreKnown rules.now calls.now states.old }
    ensures known { OnOk result (AreKnown rules.now calls.now states.new) }
    ensures grows { OnOk result (Grows states.old states.new) }
    ensures covers { OnOk result ((n : NodeValue) → IsAt states.old place n
        → CoversLandings rules.now calls.now states.new survey.now.landable.items n) }
{
    for at in 0..survey.landable.len() {
        let call = survey.landable[at];
        let turn = turn_of(call, Act::Land);
        try_turn(rules, calls, survey, states, place, turn)?;
    }
    Ok(())
}

/// Makes each turn from the node at a place. An `Err` says that an allocation failed.
fn try_all(
    rules: &Rules,
    calls: &[Recorded],
    survey: &Survey,
    states: &mut States,
    place: usize,
) -> Result<(), AllocError>
    requires survey { IsSurvey calls.now survey.now }
    requires known { AreKnown rules.now calls.now states.old }
    ensures known { OnOk result (AreKnown rules.now calls.now states.new) }
    ensures grows { OnOk result (Grows states.old states.new) }
    ensures covers { OnOk result ((n : NodeValue) → IsAt states.old place n → CoversAll rules.now calls.now states.new n) }
{
    if place >= states.list.len() {
        return Ok(());
    }
    let node = &states.list[place];
    let from = node.settled.from;
    let end = barred_from(rules, calls, survey.is_ordered, node);
    try_turn(rules, calls, survey, states, place, Turn::Vanish)?;
    try_calls(rules, calls, survey, states, place, from, end)?;
    try_landings(rules, calls, survey, states, place)?;
    Ok(())
}

/// Looks at the nodes, one after the other, while they are at most `budget`: until one is whole, or all were looked at. An `Err` says
/// that an allocation failed.
pub(crate) fn explore(
    rules: &Rules,
    calls: &[Recorded],
    survey: &Survey,
    budget: usize,
    states: &mut States,
) -> Result<Ending, AllocError>
    requires survey { IsSurvey calls.now survey.now }
    requires known { AreKnown rules.now calls.now states.old }
    ensures known { OnOk result (AreKnown rules.now calls.now states.new) }
    ensures grows { OnOk result (Grows states.old states.new) }
    ensures ends { IfOk result (λ ending. EndsRight rules.now calls.now budget states.new ending) }
{
    for place in 0..budget {
        if place >= states.list.len() {
            return Ok(Ending::Closed);
        }
        if states.list[place].is_whole(calls) {
            return Ok(Ending::Whole(place));
        }
        try_all(rules, calls, survey, states, place)?;
        if states.list.len() > budget {
            return Ok(Ending::Spent);
        }
    }
    if states.list.len() > budget {
        return Ok(Ending::Spent);
    }
    Ok(Ending::Closed)
}
