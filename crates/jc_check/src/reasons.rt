//! What could be at the key when it was a call's turn, of a record that no order explains.
ghost use Rattle.std.specs.Prelude.{◌≡◌, ◌↔◌, ℕ, IfOk, IfSome, IsTrue, OnOk, option_map, true};
ghost use Rattle.std.specs.List.{Any};
ghost use Rattle.jc_check.specs.Nodes.{IsAmong, IsClosed, NodeValue, must_at, node_value};
ghost use Rattle.jc_check.specs.Reasons.{CouldBe, FitsAt, IsForeseen, IsReady, IsReason, IsSeen, seen_load, seen_spot};
ghost use Rattle.jc_check.specs.States.{node_values};
ghost use Rattle.jc_check.specs.declared.record.Spot.{Spot as SpotValue};

use crate::laws::closed_nodes_foresee;
use crate::node::{Node, call_at, must_at};
use crate::order::end_of;
use crate::record::{Act, Recorded, Rules, Spot, Turn};
use crate::states::{States, is_same_spot};
use crate::verdict::{Verdict, check};
use jc_model::LoadAnswer;
use std::alloc::{AllocError, Global};

/// Why no order explains a record: what could be at the key when it was the turn of one of its calls, where that call's answers don't fit.
#[derive(Drop)]
pub struct Reason {
    /// The call.
    pub call: usize,
    /// What could be there.
    pub spots: Vec<Spot>,
}

/// Whether at a node it is a call's turn.
fn is_ready(rules: &Rules, calls: &[Recorded], node: &Node, call: usize) -> bool
    ensures { IsTrue result ↔ IsReady rules.now calls.now (node_value node.now) call }
{
    let turn = Turn::Call {
        call,
        act: Act::Land,
    };
    let end = end_of(rules, calls, false, turn);
    !node.is_settled(call) && node.keeps(rules, calls, turn, end)
}

fn seen_load(answer: &LoadAnswer) -> LoadAnswer
    ensures { result ≡ seen_load answer.now }
{
    match answer {
        LoadAnswer::NotAsked | LoadAnswer::Found(_) => LoadAnswer::NotAsked,
        LoadAnswer::Nothing => LoadAnswer::Nothing,
        LoadAnswer::Failed(code) => LoadAnswer::Failed(*code),
    }
}

fn seen_spot(spot: &Spot) -> Spot
    ensures { result ≡ seen_spot spot.now }
{
    Spot {
        entry: spot.entry,
        store: spot.store,
        shared: seen_load(&spot.shared),
    }
}

/// Whether this is among these.
fn has_spot(spots: &[Spot], spot: &Spot) -> bool
    ensures { IsTrue result ↔ Any (λ s. s ≡ spot.now) spots.now }
{
    for other in spots {
        if is_same_spot(other, spot) {
            return true;
        }
    }
    false
}

/// Appends what is at the key, unless it is there. An `Err` says that an allocation failed.
fn note_spot(spots: &mut Vec<Spot>, spot: &Spot) -> Result<(), AllocError>
    ensures seen { OnOk result (IsSeen spots.new.items spot.now) }
    ensures others { OnOk result ((s : SpotValue) → IsSeen spots.old.items s → IsSeen spots.new.items s) }
{
    let seen = seen_spot(spot);
    if !has_spot(spots, &seen) {
        spots.push(seen)?;
    }
    Ok(())
}

/// Whether the answers of a call, if it is there, fit what is at the key.
fn does_fit(rules: &Rules, call: Option<&Recorded>, spot: &Spot) -> bool
    ensures { result ≡ true → FitsAt rules.now (option_map (λ c. c.now) call.entry) spot.now }
{
    match call {
        Some(call) => spot.does_step_fit(rules, call) || spot.does_share_fit(call),
        None => false,
    }
}

/// The same at one node, if it is the call's turn there, and its answers don't fit. An `Err` says that an allocation failed.
fn note_node(
    rules: &Rules,
    calls: &[Recorded],
    node: &Node,
    call: usize,
    spots: &mut Vec<Spot>,
) -> Result<(), AllocError>
    ensures seen { OnOk result (IsReady rules.now calls.now (node_value node.now) call
        → IsForeseen rules.now calls.now call spots.new.items (node_value node.now).spot) }
    ensures others { OnOk result ((s : SpotValue) → IsSeen spots.old.items s → IsSeen spots.new.items s) }
{
    if !is_ready(rules, calls, node, call) || does_fit(rules, calls.get(call), &node.spot) {
        return Ok(());
    }
    note_spot(spots, &node.spot)
}

/// What is at the key at the nodes at which it is a call's turn, and its answers don't fit. An `Err` says that an allocation failed.
fn spots_at(
    alloc: Global,
    rules: &Rules,
    calls: &[Recorded],
    states: &States,
    call: usize,
) -> Result<Vec<Spot>, AllocError>
    ensures { IfOk result (λ spots. (n : NodeValue) → IsAmong (node_values states.now.list.items) n → IsReady rules.now calls.now n call
        → IsForeseen rules.now calls.now call spots.items n.spot) }
{
    let mut spots = Vec::new(alloc);
    for node in &states.list {
        note_node(rules, calls, node, call, &mut spots)?;
    }
    Ok(spots)
}

/// What could be at the key when it was the turn of a call that has to be placed, by the nodes of a refusal: whatever turns lead up to
/// it, what is there then is among what is returned, or the call's answers fit it. An `Err` says that an allocation failed.
pub fn could_be(
    alloc: Global,
    rules: &Rules,
    calls: &[Recorded],
    states: &States,
    call: usize,
) -> Result<Vec<Spot>, AllocError>
    ensures { IfOk result (λ spots. (opening : SpotValue) → IsClosed rules.now calls.now opening (node_values states.now.list.items)
        → must_at calls.now call ≡ true → CouldBe rules.now calls.now opening call spots.items) }
{
    closed_nodes_foresee();
    let spots = spots_at(alloc, rules, calls, states, call)?;
    Ok(spots)
}

/// Whether a call ended after another one, if there is one. It is a hint.
fn is_later(calls: &[Recorded], call: usize, other: Option<usize>) -> bool
    requires { Unit {0} }
{
    match (call_at(calls, Some(call)), call_at(calls, other)) {
        (Some(first), Some(second)) => first.ended >= second.ended,
        _ => true,
    }
}

/// Of the calls that have to be placed, that which ended last, if there is one.
fn last_call(calls: &[Recorded]) -> Option<usize>
    ensures { IfSome result (λ call. must_at calls.now call ≡ true) }
{
    let mut last = None;
    for call in 0..calls.len() {
        if must_at(calls, call) && is_later(calls, call, last) {
            last = Some(call);
        }
    }
    last
}

/// Why no order explains a record: of the call that has to be placed and ended last. None if some order does, or more than `budget`
/// nodes were met. An `Err` says that an allocation failed.
pub fn reason_of(
    alloc: Global,
    rules: &Rules,
    calls: &[Recorded],
    opening: &Spot,
    budget: usize,
) -> Result<Option<Reason>, AllocError>
    ensures { IfOk result (λ o. IfSome o (IsReason rules.now calls.now opening.now)) }
{
    let Some(call) = last_call(calls) else {
        return Ok(None);
    };
    match check(alloc, rules, calls, opening, budget)? {
        Verdict::Refuted(states) => {
            let spots = could_be(alloc, rules, calls, &states, call)?;
            Ok(Some(Reason { call, spots }))
        }
        Verdict::Explained(_) | Verdict::Stopped(_) => Ok(None),
    }
}
