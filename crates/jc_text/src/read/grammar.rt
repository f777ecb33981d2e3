//! The kinds of line, and what each asks for.
ghost use Rattle.std.specs.Prelude.{◌≡◌, map};
ghost use Rattle.std.specs.List.{list_all};
ghost use Rattle.jc_text.specs.Lines.{Gives, ok_with, with_line, flags_of, shape_of, open_of, reopen_of, set_of};
ghost use Rattle.jc_text.specs.Lines.{begin_of, number_alone, lone_act, lone_of, coded_act, coded_of, process_of, say_of};
ghost use Rattle.jc_text.specs.Lines.{has_but_shape, left_of, apply_of, apply_fail_of};
ghost use Rattle.jc_text.specs.Lines.{foreign_of, invalidate_of, audit_of, untold_of, line_of, are_words, parsed, is_plain, is_comment, read_line};

use crate::fault::{Fault, ReadError};
use crate::read::commands::{begin_command, form_named, has_shape};
use crate::read::keys::Keys;
use crate::read::line::{Line, ScriptAct, put_line};
use crate::read::process_words::{has_process_shape, read_calls, read_source, without_load};
use crate::read::words::{caller, is, key, keys, number, pairs, split, value, value_or_none};
use jc_types::{Config, LINE_MAX};
use std::alloc::Global;

/// The next step of a call, with no other word than the call's number.
#[derive(Clone, Copy)]
pub enum Lone {
    Read,
    End,
    Drop,
    More,
    Take,
}

/// The next step of a call, with a code.
#[derive(Clone, Copy)]
pub enum Coded {
    ReadFail,
    ApplyLie,
}

fn flags(words: &[&[u8]]) -> Result<(bool, bool), Fault>
    ensures { result ≡ flags_of (map (λ w. w.now) words.now) }
{
    match words {
        [] => Ok((false, false)),
        [a] if is(a, "read") => Ok((true, false)),
        [a] if is(a, "write") => Ok((false, true)),
        [a, b] if is(a, "read") && is(b, "write") => Ok((true, true)),
        _ => Err(Fault::BadLine),
    }
}

/// The shape of a world.
#[tactic(auto, unfolding(crate::specs::Lines::shape_of))]
#[inline(never)]
fn shape(words: &[&[u8]]) -> Result<Config, Fault>
    ensures { result ≡ shape_of (map (λ w. w.now) words.now) }
{
    match words {
        [s, c, h, rest @ ..] => {
            let (read_through, write_through) = flags(rest)?;
            let stripes = number(s)? as usize;
            let capacity = number(c)? as usize;
            let history = number(h)? as usize;
            Ok(Config {
                stripes,
                capacity,
                history,
                read_through,
                write_through,
            })
        }
        _ => Err(Fault::BadLine),
    }
}

#[inline(never)]
fn open(words: &[&[u8]], line: &mut Line) -> Result<(), Fault>
    ensures { ok_with line.new result ≡ open_of (map (λ w. w.now) words.now) }
{
    let config = shape(words)?;
    put_line(line, Line::Open(config));
    Ok(())
}

#[inline(never)]
fn reopen(words: &[&[u8]], line: &mut Line) -> Result<(), Fault>
    ensures { ok_with line.new result ≡ reopen_of (map (λ w. w.now) words.now) }
{
    let config = shape(words)?;
    put_line(line, Line::Reopen(config));
    Ok(())
}

#[tactic(auto, unfolding(crate::specs::Lines::set_of))]
#[inline(never)]
fn set(words: &[&[u8]], line: &mut Line) -> Result<(), Fault>
    ensures { ok_with line.new result ≡ set_of (map (λ w. w.now) words.now) }
{
    match words {
        [k, v] => {
            let key = key(k)?;
            put_line(line, Line::Set(key, value(v)?));
            Ok(())
        }
        _ => Err(Fault::BadLine),
    }
}

/// Leaves in `line` what the words after `begin` ask for: a call's number, a session, and the call.
#[tactic(auto, unfolding(crate::specs::Lines::begin_of))]
pub fn begin(alloc: Global, words: &[&[u8]], line: &mut Line) -> Result<(), ReadError>
    ensures { Gives (ok_with line.new result) (begin_of (map (λ w. w.now) words.now)) }
{
    match words {
        [n, who, name, rest @ ..] => {
            let form = form_named(name)?;
            if !has_shape(form, rest) {
                return Err(ReadError::Fault(Fault::BadLine));
            }
            let call = number(n)?;
            let session = caller(who)?;
            begin_command(alloc, call, session, form, rest, line)
        }
        _ => Err(ReadError::Fault(Fault::BadLine)),
    }
}

fn number_alone(words: &[&[u8]]) -> Result<u32, Fault>
    ensures { result ≡ number_alone (map (λ w. w.now) words.now) }
{
    match words {
        [n] => number(n),
        _ => Err(Fault::BadLine),
    }
}

fn lone_act(lone: Lone) -> ScriptAct
    ensures { result ≡ lone_act lone }
{
    match lone {
        Lone::Read => ScriptAct::Read,
        Lone::End => ScriptAct::End,
        Lone::Drop => ScriptAct::Drop,
        Lone::More => ScriptAct::More,
        Lone::Take => ScriptAct::Take,
    }
}

#[inline(never)]
fn lone_line(lone: Lone, words: &[&[u8]], line: &mut Line) -> Result<(), Fault>
    ensures { ok_with line.new result ≡ lone_of (lone_act lone) (map (λ w. w.now) words.now) }
{
    let n = number_alone(words)?;
    put_line(line, Line::OfCall(n, lone_act(lone)));
    Ok(())
}

fn coded_act(coded: Coded, code: u32) -> ScriptAct
    ensures { result ≡ coded_act coded code }
{
    match coded {
        Coded::ReadFail => ScriptAct::ReadFail(code),
        Coded::ApplyLie => ScriptAct::ApplyLie(code),
    }
}

#[tactic(auto, unfolding(crate::specs::Lines::coded_of))]
#[inline(never)]
fn coded_line(coded: Coded, words: &[&[u8]], line: &mut Line) -> Result<(), Fault>
    ensures { ok_with line.new result ≡ coded_of (coded_act coded) (map (λ w. w.now) words.now) }
{
    match words {
        [n, rest @ ..] => {
            if rest.len() != 1 {
                return Err(Fault::BadLine);
            }
            let n = number(n)?;
            let code = number_alone(rest)?;
            put_line(line, Line::OfCall(n, coded_act(coded, code)));
            Ok(())
        }
        _ => Err(Fault::BadLine),
    }
}

/// Whether nothing follows what the writer does, or `but` and at least `least` words.
fn has_but_shape(least: usize, words: &[&[u8]]) -> bool
    ensures { result ≡ has_but_shape least (map (λ w. w.now) words.now) }
{
    match words {
        [] => true,
        [word, rest @ ..] => is(word, "but") && least <= rest.len(),
    }
}

/// The keys that the writer leaves, if `but` is there.
fn left(alloc: Global, words: &[&[u8]]) -> Result<Option<Keys>, ReadError>
    ensures { Gives result (left_of (map (λ w. w.now) words.now)) }
{
    match words {
        [] => Ok(None),
        [_, rest @ ..] => Ok(Some(keys(alloc, rest)?)),
    }
}

#[tactic(auto, unfolding(crate::specs::Lines::apply_of))]
#[inline(never)]
fn apply(alloc: Global, words: &[&[u8]], line: &mut Line) -> Result<(), ReadError>
    ensures { Gives (ok_with line.new result) (apply_of (map (λ w. w.now) words.now)) }
{
    match words {
        [n, rest @ ..] => {
            if !has_but_shape(1, rest) {
                return Err(ReadError::Fault(Fault::BadLine));
            }
            let n = number(n)?;
            let left = left(alloc, rest)?;
            put_line(line, Line::OfCall(n, ScriptAct::Apply(left)));
            Ok(())
        }
        _ => Err(ReadError::Fault(Fault::BadLine)),
    }
}

#[tactic(auto, unfolding(crate::specs::Lines::apply_fail_of))]
#[inline(never)]
fn apply_fail(alloc: Global, words: &[&[u8]], line: &mut Line) -> Result<(), ReadError>
    ensures { Gives (ok_with line.new result) (apply_fail_of (map (λ w. w.now) words.now)) }
{
    match words {
        [n, c, rest @ ..] => {
            if !has_but_shape(0, rest) {
                return Err(ReadError::Fault(Fault::BadLine));
            }
            let n = number(n)?;
            let code = number(c)?;
            let left = left(alloc, rest)?;
            put_line(line, Line::OfCall(n, ScriptAct::ApplyFail(code, left)));
            Ok(())
        }
        _ => Err(ReadError::Fault(Fault::BadLine)),
    }
}

#[tactic(auto, unfolding(crate::specs::Lines::say_of))]
#[inline(never)]
fn say(alloc: Global, words: &[&[u8]], line: &mut Line) -> Result<(), ReadError>
    ensures { Gives (ok_with line.new result) (say_of (map (λ w. w.now) words.now)) }
{
    match words {
        [n, rest @ ..] => {
            let n = number(n)?;
            let pairs = pairs(alloc, rest)?;
            put_line(line, Line::OfCall(n, ScriptAct::Say(pairs)));
            Ok(())
        }
        _ => Err(ReadError::Fault(Fault::BadLine)),
    }
}

#[tactic(auto, unfolding(crate::specs::Lines::process_of))]
#[inline(never)]
fn process(alloc: Global, words: &[&[u8]], line: &mut Line) -> Result<(), ReadError>
    ensures { Gives (ok_with line.new result) (process_of (map (λ w. w.now) words.now)) }
{
    match words {
        [n, rest @ ..] => {
            if !has_process_shape(rest) {
                return Err(ReadError::Fault(Fault::BadLine));
            }
            let n = number(n)?;
            let load = read_source(rest)?;
            let (calls, fail) = read_calls(alloc, without_load(rest))?;
            put_line(
                line,
                Line::OfCall(n, ScriptAct::Process { load, calls, fail }),
            );
            Ok(())
        }
        _ => Err(ReadError::Fault(Fault::BadLine)),
    }
}

#[tactic(auto, unfolding(crate::specs::Lines::foreign_of))]
#[inline(never)]
fn foreign(words: &[&[u8]], line: &mut Line) -> Result<(), Fault>
    ensures { ok_with line.new result ≡ foreign_of (map (λ w. w.now) words.now) }
{
    match words {
        [k, v] => {
            let key = key(k)?;
            put_line(line, Line::Foreign(key, value_or_none(v)?));
            Ok(())
        }
        _ => Err(Fault::BadLine),
    }
}

#[tactic(auto, unfolding(crate::specs::Lines::invalidate_of))]
fn invalidate(words: &[&[u8]], line: &mut Line) -> Result<(), Fault>
    ensures { ok_with line.new result ≡ invalidate_of (map (λ w. w.now) words.now) }
{
    match words {
        [k] => {
            put_line(line, Line::Invalidate(key(k)?));
            Ok(())
        }
        _ => Err(Fault::BadLine),
    }
}

fn audit(words: &[&[u8]], line: &mut Line) -> Result<(), Fault>
    ensures { ok_with line.new result ≡ audit_of (map (λ w. w.now) words.now) }
{
    match words {
        [] => {
            put_line(line, Line::Audit);
            Ok(())
        }
        _ => Err(Fault::BadLine),
    }
}

fn untold(words: &[&[u8]], line: &mut Line) -> Result<(), Fault>
    ensures { ok_with line.new result ≡ untold_of (map (λ w. w.now) words.now) }
{
    match words {
        [] => {
            put_line(line, Line::Untold);
            Ok(())
        }
        _ => Err(Fault::BadLine),
    }
}

/// The line that a first word names, with what the words after it say.
fn line_of(alloc: Global, first: &[u8], words: &[&[u8]], line: &mut Line) -> Result<(), ReadError>
    ensures { Gives (ok_with line.new result) (line_of first.now (map (λ w. w.now) words.now)) }
{
    match first {
        _ if is(first, "begin") => begin(alloc, words, line),
        _ if is(first, "open") => Ok(open(words, line)?),
        _ if is(first, "set") => Ok(set(words, line)?),
        _ if is(first, "foreign") => Ok(foreign(words, line)?),
        _ if is(first, "audit") => Ok(audit(words, line)?),
        _ if is(first, "read") => Ok(lone_line(Lone::Read, words, line)?),
        _ if is(first, "apply") => apply(alloc, words, line),
        _ if is(first, "end") => Ok(lone_line(Lone::End, words, line)?),
        _ if is(first, "drop") => Ok(lone_line(Lone::Drop, words, line)?),
        _ if is(first, "more") => Ok(lone_line(Lone::More, words, line)?),
        _ if is(first, "take") => Ok(lone_line(Lone::Take, words, line)?),
        _ if is(first, "say") => say(alloc, words, line),
        _ if is(first, "readfail") => Ok(coded_line(Coded::ReadFail, words, line)?),
        _ if is(first, "applyfail") => apply_fail(alloc, words, line),
        _ if is(first, "applylie") => Ok(coded_line(Coded::ApplyLie, words, line)?),
        _ if is(first, "process") => process(alloc, words, line),
        _ if is(first, "reopen") => Ok(reopen(words, line)?),
        _ if is(first, "untold") => Ok(untold(words, line)?),
        _ if is(first, "invalidate") => Ok(invalidate(words, line)?),
        _ => Err(ReadError::Fault(Fault::BadLine)),
    }
}

/// Whether no word is empty.
pub fn none_empty(words: &[&[u8]]) -> bool
    ensures { result ≡ are_words (map (λ w. w.now) words.now) }
{
    for w in words {
        if w.is_empty() {
            return false;
        }
    }
    true
}

#[tactic(auto, unfolding(crate::specs::Lines::parsed))]
fn parse(alloc: Global, words: &[&[u8]], line: &mut Line) -> Result<(), ReadError>
    ensures { Gives (ok_with line.new result) (parsed (map (λ w. w.now) words.now)) }
{
    match words {
        [] => Err(ReadError::Fault(Fault::BadLine)),
        [first, rest @ ..] => {
            if !none_empty(words) {
                return Err(ReadError::Fault(Fault::BadLine));
            }
            line_of(alloc, first, rest, line)
        }
    }
}

/// Whether a byte may be in a line: a space up to a tilde.
pub fn is_plain(b: u8) -> bool
    ensures { result ≡ is_plain b }
{
    b' ' <= b && b <= b'~'
}

/// Whether each byte may be in a line.
fn all_plain(text: &[u8]) -> bool
    ensures { result ≡ list_all is_plain text.now }
{
    // No byte ends the loop, so the processor can look at many at a time.
    let mut plain = true;
    for b in text {
        plain = plain & is_plain(*b);
    }
    plain
}

/// Whether a line asks for nothing: it is empty, or its first byte is #.
fn comment(text: &[u8]) -> bool
    ensures { result ≡ is_comment text.now }
{
    match text {
        [] => true,
        [first, ..] => *first == b'#',
    }
}

/// Reads the bytes of a line, of which it has at most 65,536. What they ask for is left in `line`, if they ask for anything: a
/// comment gives `false`.
///
/// `words` is room for the words, which may hold those of another line.
#[tactic(auto, unfolding(crate::specs::Lines::read_line))]
pub fn read<'a>(
    alloc: Global,
    text: &'a [u8],
    words: &mut Vec<&'a [u8]>,
    line: &mut Line,
) -> Result<bool, ReadError>
    ensures { Gives (with_line line.new result) (read_line text.now) }
{
    if LINE_MAX < text.len() {
        return Err(ReadError::Fault(Fault::LineTooLong));
    }
    if !all_plain(text) {
        return Err(ReadError::Fault(Fault::BadByte));
    }
    if comment(text) {
        return Ok(false);
    }
    split(text, words)?;
    parse(alloc, words, line)?;
    Ok(true)
}
