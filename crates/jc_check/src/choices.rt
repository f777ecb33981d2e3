//! What may be done next in a guess. No contract speaks of it: what is guessed is checked.
use crate::lanes::{Lanes, Stand, end_at};
use crate::playing::after_turn;
use crate::record::{Act, Recorded, Role, Rules, Spot, Turn};
use jc_model::{LoadAnswer, Op, Reply, WriteAnswer};
use std::alloc::AllocError;

/// What is done next: a write may land first, and then the entry may vanish.
#[derive(Clone, Copy)]
pub(crate) struct Choice {
    /// The call whose write lands.
    pub landing: Option<usize>,
    /// Whether the entry vanishes.
    pub vanishes: bool,
    /// The call that acts.
    pub call: usize,
    /// What it does.
    pub act: Act,
}

/// Whether a call's step leaves the entry and the store as they are, wherever it fits.
fn is_pure(call: &Recorded) -> bool
    requires { Unit {0} }
{
    if call.out.load != LoadAnswer::NotAsked || call.out.write != WriteAnswer::NotAsked {
        return false;
    }
    match call.op {
        Op::Get | Op::ContainsKey | Op::LoadAll { .. } => true,
        Op::PutIfAbsent(_) | Op::RemoveIf(_) | Op::Replace(_) | Op::ReplaceIf { .. } => {
            call.reply == Some(Reply::Flag(false))
        }
        Op::GetAndReplace(_) => call.reply == Some(Reply::Value(None)),
        _ => false,
    }
}

/// What a call that has to be placed may do here that leaves everything as it is.
pub(crate) fn pure_act(rules: &Rules, spot: &Spot, call: &Recorded) -> Option<Act>
    requires { Unit {0} }
{
    if call.role != Role::Call || !call.must_be_placed() {
        return None;
    }
    if spot.does_share_fit(call) {
        return Some(Act::Share);
    }
    if is_pure(call) && spot.shared == LoadAnswer::NotAsked && spot.does_step_fit(rules, call) {
        return Some(Act::Step);
    }
    None
}

/// Whether a call has to come before another one.
fn is_before(rules: &Rules, a: &Recorded, b: &Recorded) -> bool
    requires { Unit {0} }
{
    if a.thread == b.thread && a.began < b.began {
        return true;
    }
    match a.ended {
        Some(at) => rules.is_real && at < b.began,
        None => false,
    }
}

/// Whether a call is one of these.
fn is_one_of(some: &[usize], call: usize) -> bool
    requires { Unit {0} }
{
    for other in some {
        if *other == call {
            return true;
        }
    }
    false
}

/// Whether one of some calls that need not be placed has to come before this one.
pub(crate) fn is_blocked(rules: &Rules, calls: &[Recorded], some: &[usize], call: usize) -> bool
    requires { Unit {0} }
{
    for other in some {
        if *other < calls.len()
            && call < calls.len()
            && !calls[*other].must_be_placed()
            && is_before(rules, &calls[*other], &calls[call])
        {
            return true;
        }
    }
    false
}

/// Of the calls from a place on, takes the one that ended first to this place.
pub(crate) fn take_soonest(calls: &[Recorded], some: &mut Vec<usize>, place: usize)
    requires { Unit {0} }
{
    let mut soonest = place;
    for at in place..some.len() {
        if soonest < some.len()
            && end_at(calls, Some(some[at])) < end_at(calls, Some(some[soonest]))
        {
            soonest = at;
        }
    }
    if place < some.len() && soonest < some.len() {
        some.swap(place, soonest);
    }
}

/// Whether the entry may vanish here, and is worth it.
fn may_vanish(rules: &Rules, spot: &Spot) -> bool
    requires { Unit {0} }
{
    rules.may_vanish && spot.entry.is_some()
}

/// Whether a call's step fits where its entry may vanish although it fits with the entry, and leaves something else then.
fn is_two_faced(call: &Recorded) -> bool
    requires { Unit {0} }
{
    if !call.must_be_placed() {
        return true;
    }
    match call.op {
        Op::LoadAll { replace } => replace,
        _ => false,
    }
}

/// Appends a call's step where it fits, after a landing or none. Returns whether there is one.
fn push_step(
    rules: &Rules,
    calls: &[Recorded],
    spot: &Spot,
    landing: Option<usize>,
    call: usize,
    choices: &mut Vec<Choice>,
) -> Result<bool, AllocError>
    requires { Unit {0} }
{
    if call >= calls.len() {
        return Ok(false);
    }
    let what = &calls[call];
    let fits = spot.does_step_fit(rules, what);
    if fits {
        choices.push(Choice {
            landing,
            vanishes: false,
            call,
            act: Act::Step,
        })?;
    }
    if (!fits || is_two_faced(what))
        && may_vanish(rules, spot)
        && spot.vanished().does_step_fit(rules, what)
    {
        choices.push(Choice {
            landing,
            vanishes: true,
            call,
            act: Act::Step,
        })?;
        return Ok(true);
    }
    Ok(fits)
}

/// Whether a call's write may land now.
fn may_land_now(
    rules: &Rules,
    calls: &[Recorded],
    lanes: &Lanes,
    stand: &Stand,
    call: usize,
    end: u64,
) -> bool
    requires { Unit {0} }
{
    if !rules.is_store_known || call >= calls.len() || calls[call].began > end {
        return false;
    }
    if is_one_of(&stand.landed, call) {
        return false;
    }
    match lanes.first_left(calls, stand, calls[call].thread as usize) {
        Some(left) => left >= calls.len() || calls[left].began >= calls[call].began,
        None => true,
    }
}

/// Appends a call's step after the landing of some write that makes it fit.
fn push_landed_steps(
    rules: &Rules,
    calls: &[Recorded],
    lanes: &Lanes,
    stand: &Stand,
    call: usize,
    choices: &mut Vec<Choice>,
) -> Result<(), AllocError>
    requires { Unit {0} }
{
    let end = lanes.first_end(rules, calls, stand);
    for at in &lanes.landable {
        let other = *at;
        if other != call && may_land_now(rules, calls, lanes, stand, other, end) {
            let turn = Turn::Call {
                call: other,
                act: Act::Land,
            };
            if let Some(spot) = after_turn(rules, calls, &stand.spot, turn) {
                push_step(rules, calls, &spot, Some(other), call, choices)?;
            }
        }
    }
    Ok(())
}

/// Appends what a call may do that isn't its step, if it changes something.
fn push_act(
    rules: &Rules,
    calls: &[Recorded],
    spot: &Spot,
    call: usize,
    act: Act,
    choices: &mut Vec<Choice>,
) -> Result<(), AllocError>
    requires { Unit {0} }
{
    let Some(next) = after_turn(rules, calls, spot, Turn::Call { call, act }) else {
        return Ok(());
    };
    if next != *spot || act == Act::Share || act == Act::Foreign {
        choices.push(Choice {
            landing: None,
            vanishes: false,
            call,
            act,
        })?;
    }
    Ok(())
}

/// Appends what a forgotten call may do.
fn push_forgotten(
    rules: &Rules,
    calls: &[Recorded],
    spot: &Spot,
    call: usize,
    choices: &mut Vec<Choice>,
) -> Result<(), AllocError>
    requires { Unit {0} }
{
    push_act(rules, calls, spot, call, Act::LeaveBoth, choices)?;
    push_act(rules, calls, spot, call, Act::LeaveEntry, choices)?;
    push_act(rules, calls, spot, call, Act::LeaveLoad, choices)?;
    push_act(rules, calls, spot, call, Act::LeaveStore, choices)
}

/// Appends what a call of the cache may do.
fn push_own(
    rules: &Rules,
    calls: &[Recorded],
    lanes: &Lanes,
    stand: &Stand,
    call: usize,
    choices: &mut Vec<Choice>,
) -> Result<(), AllocError>
    requires { Unit {0} }
{
    if call >= calls.len() || (!calls[call].must_be_placed() && is_pure(&calls[call])) {
        return Ok(());
    }
    if !push_step(rules, calls, &stand.spot, None, call, choices)?
        && calls[call].out.load.is_given()
    {
        push_landed_steps(rules, calls, lanes, stand, call, choices)?;
    }
    push_act(rules, calls, &stand.spot, call, Act::Share, choices)
}

/// Appends what a call may do next.
pub(crate) fn push_choices(
    rules: &Rules,
    calls: &[Recorded],
    lanes: &Lanes,
    stand: &Stand,
    call: usize,
    choices: &mut Vec<Choice>,
) -> Result<(), AllocError>
    requires { Unit {0} }
{
    if call >= calls.len() {
        return Ok(());
    }
    match calls[call].role {
        Role::Call => push_own(rules, calls, lanes, stand, call, choices),
        Role::Foreign => push_act(rules, calls, &stand.spot, call, Act::Foreign, choices),
        Role::Forgotten => push_forgotten(rules, calls, &stand.spot, call, choices),
    }
}
