//! Whether the outcomes are as a program's author expects.
ghost use Rattle.std.specs.Prelude.{◌≡◌, ◌&&◌, ◌<◌, ◌+◌, ◌^◌, length, position, IfSome};
ghost use Rattle.std.specs.List.{list_any};
ghost use Rattle.jc_explore.specs.Final.{final_of};
ghost use Rattle.jc_litmus.specs.Judging.{IsNumbered, code_of, decides, end_of, first_deciding, has_all, has_atom, is_failure, reply_of, same_code};
ghost use Rattle.jc_litmus.specs.Judging.{same_flag, same_refusal, same_reply, same_value, value_of_key, verdict_from, verdict_on, was_answered};

use crate::program::{Atom, Expectation, Quantifier};
use crate::run::LitmusEnd;
use jc_explore::{Explored, FinalState, Finding, ThreadReply};
use jc_model::Reply;
use jc_types::{Key, Refusal, Value};

/// The verdict on an expectation. Outcomes are counted from 0.
#[derive(Clone, Copy, Debug, PartialEq, Eq)]
pub enum Verdict {
    /// It holds. A `sometimes` holds because of this outcome.
    Holds(Option<usize>),
    /// It fails. A `never` or an `always` fails because of this outcome.
    Fails(Option<usize>),
    /// The outcomes that were found don't decide it, and there may be others.
    Open,
}

/// The reply to a call of a thread, by its place among the thread's calls.
pub fn reply_of(thread: usize, call: usize, replies: &[ThreadReply]) -> Option<Reply>
    ensures { result ≡ reply_of thread call replies.now }
{
    let mut left = call;
    for one in replies {
        if one.thread == thread {
            if left == 0 {
                return Some(one.reply);
            }
            left -= 1;
        }
    }
    None
}

/// The value of a key in these entries, or none.
fn value_of_key(key: &Key, entries: &[(Key, Value)]) -> Option<Value>
    ensures { result ≡ value_of_key key.now entries.now }
{
    for entry in entries {
        if entry.0 == *key {
            return Some(entry.1);
        }
    }
    None
}

fn same_value(one: &Option<Value>, other: &Option<Value>) -> bool
    ensures { result ≡ same_value one.now other.now }
{
    match (one, other) {
        (None, None) => true,
        (Some(a), Some(b)) => *a == *b,
        _ => false,
    }
}

fn same_flag(one: bool, other: bool) -> bool
    ensures { result ≡ same_flag one other }
{
    if one { other } else { !other }
}

/// The code of a refusal, if it has one.
fn code_of(refusal: &Refusal) -> Option<u32>
    ensures { result ≡ code_of refusal.now }
{
    match refusal {
        Refusal::LoaderFailed(code)
        | Refusal::WriterFailed(code)
        | Refusal::ProcessorFailed(code) => Some(*code),
        _ => None,
    }
}

fn same_code(one: Option<u32>, other: Option<u32>) -> bool
    ensures { result ≡ same_code one other }
{
    match (one, other) {
        (None, None) => true,
        (Some(a), Some(b)) => a == b,
        _ => false,
    }
}

/// Whether two refusals have the same name and the same code.
fn same_refusal(one: &Refusal, other: &Refusal) -> bool
    ensures { result ≡ same_refusal one.now other.now }
{
    one.name().as_bytes() == other.name().as_bytes() && same_code(code_of(one), code_of(other))
}

/// Whether two replies are the same.
fn same_reply(one: &Reply, other: &Reply) -> bool
    ensures { result ≡ same_reply one.now other.now }
{
    match (one, other) {
        (Reply::Unit, Reply::Unit) => true,
        (Reply::Flag(a), Reply::Flag(b)) => same_flag(*a, *b),
        (Reply::Value(a), Reply::Value(b)) => same_value(a, b),
        (Reply::Fault(a), Reply::Fault(b)) => same_refusal(a, b),
        _ => false,
    }
}

/// Whether a call was answered with this reply.
fn was_answered(found: &Option<Reply>, reply: &Reply) -> bool
    ensures { result ≡ was_answered found.now reply.now }
{
    match found {
        None => false,
        Some(found) => same_reply(found, reply),
    }
}

/// Whether an outcome has an atom.
fn has_atom(state: &FinalState, atom: &Atom) -> bool
    ensures { result ≡ has_atom (final_of state.now) atom.now }
{
    match atom {
        Atom::Replied {
            thread,
            call,
            reply,
        } => was_answered(&reply_of(*thread, *call, &state.replies), reply),
        Atom::Cached { key, value } => same_value(&value_of_key(key, &state.cache), value),
        Atom::Stored { key, value } => same_value(&value_of_key(key, &state.store), value),
        Atom::Coherent => state.differing.is_empty(),
        Atom::Differs => !state.differing.is_empty(),
    }
}

/// Whether an outcome has each of some atoms.
fn has_all(state: &FinalState, atoms: &[Atom]) -> bool
    ensures { result ≡ has_all (final_of state.now) atoms.now }
{
    atoms.iter().all(|atom| has_atom(state, atom))
}

/// Whether an outcome alone decides an expectation: it has the atoms of a `sometimes` or a `never`, or lacks one of an `always`.
fn decides(state: &FinalState, expectation: &Expectation) -> bool
    ensures { result ≡ decides expectation.now (final_of state.now) }
{
    let has = has_all(state, &expectation.atoms);
    match expectation.quantifier {
        Quantifier::Never | Quantifier::Sometimes => has,
        Quantifier::Always => !has,
    }
}

/// The place of the first outcome that decides an expectation.
fn first_deciding(expectation: &Expectation, found: &[Finding]) -> Option<usize>
    ensures place { result ≡ first_deciding expectation.now found.now }
    ensures within { IfSome result (λ place. place < length found.now) }
{
    found
        .iter()
        .position(|one| decides(&one.state, expectation))
}

/// The verdict on an expectation that this outcome decides, or none of those that were found.
fn verdict_from(quantifier: Quantifier, first: Option<usize>, is_whole: bool) -> Verdict
    requires { IfSome first (λ place. place + 1 < 2 ^ 64) }
    ensures verdict { result ≡ verdict_from quantifier first is_whole }
    ensures numbered { IsNumbered result }
{
    match (quantifier, first) {
        (Quantifier::Sometimes, Some(place)) => Verdict::Holds(Some(place)),
        (_, Some(place)) => Verdict::Fails(Some(place)),
        (_, None) if !is_whole => Verdict::Open,
        (Quantifier::Sometimes, None) => Verdict::Fails(None),
        (_, None) => Verdict::Holds(None),
    }
}

/// The verdict on an expectation, by an exploration.
pub fn verdict_on(explored: &Explored, expectation: &Expectation) -> Verdict
    ensures verdict { result ≡ verdict_on explored.now expectation.now }
    ensures numbered { IsNumbered result }
{
    let first = first_deciding(expectation, &explored.found);
    verdict_from(expectation.quantifier, first, explored.is_whole)
}

/// Whether the verdict is that the expectation fails.
fn is_failure(verdict: Verdict) -> bool
    ensures { result ≡ is_failure verdict }
{
    match verdict {
        Verdict::Fails(_) => true,
        Verdict::Holds(_) | Verdict::Open => false,
    }
}

/// Whether an expectation fails, by an exploration.
fn fails(explored: &Explored, expectation: &Expectation) -> bool
    ensures { result ≡ is_failure (verdict_on explored.now expectation.now) }
{
    is_failure(verdict_on(explored, expectation))
}

/// Whether any of some expectations fails, by an exploration.
fn any_fails(explored: &Explored, expectations: &[Expectation]) -> bool
    ensures { result ≡ list_any (λ e. is_failure (verdict_on explored.now e)) expectations.now }
{
    expectations.iter().any(|one| fails(explored, one))
}

/// The end of an exploration with these expectations.
pub fn end_of(explored: &Explored, expectations: &[Expectation]) -> LitmusEnd
    ensures { result ≡ end_of explored.now expectations.now }
{
    if any_fails(explored, expectations) {
        LitmusEnd::Fails
    } else if explored.is_whole {
        LitmusEnd::Holds
    } else {
        LitmusEnd::Open
    }
}
