//! Lines of a program that scripts spell in another way.
ghost use Rattle.std.specs.Prelude.{◌≡◌, ◌++◌, codes, map, OnOk, IfOk};
ghost use Rattle.std.specs.List.{flat_map};
ghost use Rattle.jc_text.specs.Lines.{ok_with};
ghost use Rattle.jc_litmus.specs.LineResults.{ReadsAs};
ghost use Rattle.jc_litmus.specs.Grammar.{after_space, begin_line, begin_words, process_text, made_line, operation_in, plain_calls, act_calls, line_calls, calls_of_text};
ghost use Rattle.jc_litmus.specs.Grammar.{failing_named, is_outside, may_fail, with_fault, quantifier_named};

use crate::line_error::LineError;
use crate::program::{LineFault, Quantifier};
use jc_explore::Faults;
use jc_text::read::grammar::{begin, read};
use jc_text::read::line::{Line, Operation, ScriptAct};
use jc_text::read::words::{is, number};
use jc_text::{Fault, put};
use jc_world::process::{EntryCalls, LoadSource};
use std::alloc::{AllocError, Global};

/// The words after `begin` in a line of a script that begins this call. The call's number and session, which a program doesn't
/// have, are placeholders.
fn begin_words<'a>(
    alloc: Global,
    first: &'a [u8],
    rest: &[&'a [u8]],
) -> Result<Vec<&'a [u8]>, AllocError>
    ensures { IfOk result (λ words.
        map (λ w. w.now) words.items ≡ begin_words first.now (map (λ w. w.now) rest.now)) }
{
    let mut words = Vec::new(alloc);
    words.push("1".as_bytes())?;
    words.push("s1".as_bytes())?;
    words.push(first)?;
    words.extend_from_slice(rest)?;
    Ok(words)
}

fn put_word(text: &mut Vec<u8>, word: &[u8]) -> Result<(), AllocError>
    ensures { OnOk result (text.new.items ≡ text.old.items ++ codes " " ++ word.now) }
{
    put(text, " ")?;
    text.extend_from_slice(word)?;
    Ok(())
}

/// Appends words, each after a space.
fn put_words(text: &mut Vec<u8>, words: &[&[u8]]) -> Result<(), AllocError>
    ensures { OnOk result (
        text.new.items ≡ text.old.items ++ flat_map after_space (map (λ w. w.now) words.now)) }
{
    for word in words {
        put_word(text, word)?;
    }
    Ok(())
}

/// The line of a script in which an entry processor makes these calls.
fn process_text(alloc: Global, words: &[&[u8]]) -> Result<Vec<u8>, AllocError>
    ensures { IfOk result (λ text.
        text.items ≡ process_text (flat_map after_space (map (λ w. w.now) words.now))) }
{
    let mut text = Vec::new(alloc);
    put(&mut text, "process 1")?;
    put_words(&mut text, words)?;
    Ok(text)
}

/// Reads a line of a script into `line`. The line is no comment.
fn made_line(alloc: Global, text: &[u8], line: &mut Line) -> Result<(), LineError>
    ensures { ReadsAs (ok_with line.new result) (made_line text.now) }
{
    let mut words = Vec::new(alloc);
    match read(alloc, text, &mut words, line) {
        Ok(true) => Ok(()),
        Ok(false) => Err(LineError::Fault(LineFault::Script(Fault::BadLine))),
        Err(error) => Err(LineError::from(error)),
    }
}

/// Reads the line of a script that begins the call of these words into `line`.
pub(crate) fn begin_line(
    alloc: Global,
    first: &[u8],
    rest: &[&[u8]],
    line: &mut Line,
) -> Result<(), LineError>
    ensures { ReadsAs (ok_with line.new result) (begin_line first.now (map (λ w. w.now) rest.now)) }
{
    let words = begin_words(alloc, first, rest)?;
    match begin(alloc, &words, line) {
        Ok(()) => Ok(()),
        Err(error) => Err(LineError::from(error)),
    }
}

/// The operation that a line of a script begins.
pub(crate) fn operation_in(line: &Line) -> Result<Operation, LineFault>
    ensures { result ≡ operation_in line.now }
{
    match line {
        Line::Begin(_, _, operation) => Ok(*operation),
        _ => Err(LineFault::NotACall),
    }
}

/// The calls of an entry processor that fails neither by itself nor by its loader.
fn plain_calls(
    alloc: Global,
    load: &LoadSource,
    calls: &EntryCalls,
    fail: &Option<u32>,
) -> Result<EntryCalls, LineError>
    ensures { ReadsAs result (plain_calls load.now calls.now fail.now) }
{
    match load {
        LoadSource::Store => match fail {
            None => Ok(calls.copy(alloc)?),
            Some(_) => Err(LineError::Fault(LineFault::Script(Fault::BadLine))),
        },
        _ => Err(LineError::Fault(LineFault::Script(Fault::BadLine))),
    }
}

/// The calls of such an entry processor, from what happens next to a call.
fn act_calls(alloc: Global, act: &ScriptAct) -> Result<EntryCalls, LineError>
    ensures { ReadsAs result (act_calls act.now) }
{
    match act {
        ScriptAct::Process { load, calls, fail } => plain_calls(alloc, load, calls, fail),
        _ => Err(LineError::Fault(LineFault::Script(Fault::BadLine))),
    }
}

/// The calls of such an entry processor, from the line of a script.
fn line_calls(alloc: Global, line: &Line) -> Result<EntryCalls, LineError>
    ensures { ReadsAs result (line_calls line.now) }
{
    match line {
        Line::OfCall(_, act) => act_calls(alloc, act),
        _ => Err(LineError::Fault(LineFault::Script(Fault::BadLine))),
    }
}

/// The calls that an entry processor makes, from their words. `line` is a buffer for a line.
pub(crate) fn entry_calls(
    alloc: Global,
    words: &[&[u8]],
    line: &mut Line,
) -> Result<EntryCalls, LineError>
    ensures { ReadsAs result (
        calls_of_text (process_text (flat_map after_space (map (λ w. w.now) words.now)))) }
{
    let text = process_text(alloc, words)?;
    made_line(alloc, &text, line)?;
    line_calls(alloc, line)
}

/// Whether a word names the loader, the writer or the processor.
pub(crate) fn is_outside(word: &[u8]) -> bool
    ensures { result ≡ is_outside word.now }
{
    is(word, "loader") || is(word, "writer") || is(word, "processor")
}

/// The partner that may fail, and how.
#[derive(Clone, Copy)]
pub(crate) enum WhoFails {
    /// The loader.
    Load,
    /// The writer, having changed nothing.
    Write,
    /// The writer, having changed the store.
    Lie,
    /// The entry processor.
    Process,
}

/// The partner that may fail, and how, from the words that name it.
pub(crate) fn failing_named(who: &[u8], how: &[u8]) -> Option<WhoFails>
    ensures { result ≡ failing_named who.now how.now }
{
    match who {
        _ if is(who, "loader") && is(how, "fail") => Some(WhoFails::Load),
        _ if is(who, "writer") && is(how, "fail") => Some(WhoFails::Write),
        _ if is(who, "writer") && is(how, "lie") => Some(WhoFails::Lie),
        _ if is(who, "processor") && is(how, "fail") => Some(WhoFails::Process),
        _ => None,
    }
}

/// The partner that may fail, and with which code, from the words of a line.
pub(crate) fn may_fail(words: &[&[u8]]) -> Result<(WhoFails, u32), Fault>
    ensures { result ≡ may_fail (map (λ w. w.now) words.now) }
{
    match words {
        [who, may, how, code] if is(may, "may") => match failing_named(who, how) {
            Some(failing) => Ok((failing, number(code)?)),
            None => Err(Fault::BadLine),
        },
        _ => Err(Fault::BadLine),
    }
}

/// The faults that may happen, with one more. If there are two codes of one kind, the later counts.
pub(crate) fn with_fault(faults: Faults, failing: WhoFails, code: u32) -> Faults
    ensures { result ≡ with_fault faults failing code }
{
    let mut faults = faults;
    match failing {
        WhoFails::Load => faults.load = Some(code),
        WhoFails::Write => faults.write = Some(code),
        WhoFails::Lie => faults.lie = Some(code),
        WhoFails::Process => faults.process = Some(code),
    }
    faults
}

/// The quantifier of an expectation that begins with this word.
pub(crate) fn quantifier_named(word: &[u8]) -> Option<Quantifier>
    ensures { result ≡ quantifier_named word.now }
{
    match word {
        _ if is(word, "never") => Some(Quantifier::Never),
        _ if is(word, "sometimes") => Some(Quantifier::Sometimes),
        _ if is(word, "always") => Some(Quantifier::Always),
        _ => None,
    }
}
