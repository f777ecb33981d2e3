//! Which calls have to come before which.
ghost use Rattle.std.specs.Prelude.{◌≡◌, ◌↔◌, ◌≤◌, ◌<◌, ℕ, IsTrue, Some, length, option_map, slice_get, true};
ghost use Rattle.jc_check.specs.Explains.{CallPrecedes, CallsPrecede, EndsBefore, IsThreadBefore, NumbersPrecede, call_at, call_of};
ghost use Rattle.jc_check.specs.Orders.{AreBarred, AreOrdered, DoEndBefore, IsEnd, IsLeft};
ghost use Rattle.jc_check.specs.Nodes.{node_value};

use crate::node::{Node, call_at, must_at};
use crate::record::{Recorded, Rules, Turn};

/// Whether a call had ended before another one began.
fn does_end_before(a: &Recorded, b: &Recorded) -> bool
    ensures { IsTrue result ↔ EndsBefore a.now b.now }
{
    match a.ended {
        Some(at) => at < b.began,
        None => false,
    }
}

/// Whether a call of the same thread began before another one.
fn is_thread_before(a: &Recorded, b: &Recorded) -> bool
    ensures { IsTrue result ↔ IsThreadBefore a.now b.now }
{
    a.thread == b.thread && a.began < b.began
}

/// Whether a call has to come before another one.
fn does_precede(rules: &Rules, a: &Recorded, b: &Recorded) -> bool
    ensures { IsTrue result ↔ CallPrecedes rules.now a.now b.now }
{
    (rules.is_real && does_end_before(a, b)) || is_thread_before(a, b)
}

/// Whether a call has to come before another one, if both are there.
fn do_precede(rules: &Rules, first: Option<&Recorded>, second: Option<&Recorded>) -> bool
    ensures { IsTrue result ↔ CallsPrecede rules.now (option_map (λ v. v.now) first.entry) (option_map (λ v. v.now) second.entry) }
{
    match first {
        Some(a) => match second {
            Some(b) => does_precede(rules, a, b),
            None => false,
        },
        None => false,
    }
}

/// Whether a call has to come before what acts in a turn.
pub(crate) fn comes_before(rules: &Rules, calls: &[Recorded], call: usize, turn: Turn) -> bool
    ensures { IsTrue result ↔ NumbersPrecede rules.now calls.now (Some call) (call_of turn) }
{
    do_precede(
        rules,
        call_at(calls, Some(call)),
        call_at(calls, turn.call_of()),
    )
}

/// Whether a call lasts at least from when it began.
fn is_lasting(call: &Recorded) -> bool
    ensures { IsTrue result ↔ ((at : ℕ) → call.now.ended ≡ Some at → call.now.began ≤ at) }
{
    match call.ended {
        Some(at) => call.began <= at,
        None => true,
    }
}

/// Whether the calls are in the order of their beginnings, and none ended before it began.
pub(crate) fn are_ordered(calls: &[Recorded]) -> bool
    ensures { result ≡ true → AreOrdered calls.now }
{
    let mut latest = 0;
    for at in 0..calls.len() {
        if calls[at].began < latest || !is_lasting(&calls[at]) {
            return false;
        }
        latest = calls[at].began;
    }
    true
}

/// From which number on no call has to come before what acts in a turn.
pub(crate) fn end_of(rules: &Rules, calls: &[Recorded], is_ordered: bool, turn: Turn) -> usize
    requires { is_ordered ≡ true → AreOrdered calls.now }
    ensures last { IsEnd rules.now calls.now turn result }
    ensures acts { (call : ℕ) → call_of turn ≡ Some call → call < length calls.now → call < result }
{
    let _rules = *rules;
    match turn.call_of() {
        Some(call) => {
            if is_ordered && call < calls.len() {
                call + 1
            } else {
                calls.len()
            }
        }
        None => calls.len(),
    }
}

/// Whether a call ended before another one did, if there is one. It is a hint.
fn is_sooner(calls: &[Recorded], call: usize, other: Option<usize>) -> bool
    requires { Unit {0} }
{
    match (call_at(calls, Some(call)), call_at(calls, other)) {
        (Some(first), Some(second)) => match (first.ended, second.ended) {
            (Some(at), Some(late)) => at < late,
            (Some(_), None) => true,
            (None, _) => false,
        },
        _ => true,
    }
}

/// Whether a call, if there is one, ended before another one began.
fn is_late(calls: &[Recorded], first: Option<usize>, call: usize) -> bool
    ensures { result ≡ true → DoEndBefore (call_at calls.now first) (slice_get calls.now call) }
{
    match call_at(calls, first) {
        Some(a) => match calls.get(call) {
            Some(b) => does_end_before(a, b),
            None => false,
        },
        None => false,
    }
}

/// Whether a call has to be placed and isn't settled.
fn is_left(calls: &[Recorded], node: &Node, call: usize) -> bool
    ensures { result ≡ true → IsLeft calls.now (node_value node.now) call }
{
    must_at(calls, call) && !node.is_settled(call)
}

/// A number from which on each call is barred: in real time, a call ended before them that has to be placed and isn't settled.
pub(crate) fn barred_from(rules: &Rules, calls: &[Recorded], is_ordered: bool, node: &Node) -> usize
    requires { is_ordered ≡ true → AreOrdered calls.now }
    ensures { AreBarred rules.now calls.now (node_value node.now) result }
{
    if !is_ordered || !rules.is_real {
        return calls.len();
    }
    let mut urgent = None;
    for call in node.settled.from..calls.len() {
        if is_late(calls, urgent, call) {
            return call;
        }
        if is_left(calls, node, call) && is_sooner(calls, call, urgent) {
            urgent = Some(call);
        }
    }
    calls.len()
}
