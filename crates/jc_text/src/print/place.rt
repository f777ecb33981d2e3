//! The text on standard error for the fault at which a script has ended: its place in the line, and the word.
ghost use Rattle.std.specs.Prelude.{◌≡◌, ◌++◌, ◌<◌, map, drop, not, length, IfSome, OnOk};
ghost use Rattle.std.specs.List.{position};
ghost use Rattle.jc_text.specs.Lines.{is_plain};
ghost use Rattle.jc_text.specs.Words.{words_of};
ghost use Rattle.jc_text.specs.Places.{shape_text, what_text, quoted, word_text, byte_text, bytes_text, whole_text, bad_byte_text, begins_call};
ghost use Rattle.jc_text.specs.Places.{not_now_hint, hint_of, word_meant, fault_text, complaint};

use crate::fault::{Fault, text};
use crate::print::{put, put_number};
use crate::read::grammar::is_plain;
use crate::read::place::{start_of, word_meant};
use crate::read::process_words::begins;
use crate::read::words::{is, split};
use jc_types::Field;
use std::alloc::{AllocError, Global};

/// Whether a line begins a call.
fn begins_call(words: &[&[u8]]) -> bool
    ensures { result ≡ begins_call (map (λ w. w.now) words.now) }
{
    match words {
        [] => false,
        [first, ..] => is(first, "begin"),
    }
}

/// The fault of a line's shape, by the first word that isn't as it should be and those after it.
fn shape_text(begins: bool, at: usize, words: &[&[u8]]) -> &'static str
    ensures { result.now ≡ shape_text begins at (map (λ w. w.now) words.now) }
{
    match words {
        [] => "wrong number or order of words",
        [word, ..] if word.is_empty() => "no word (single spaces separate words)",
        _ if at == 0 => "unknown word",
        _ if begins && at == 3 => "unknown operation",
        _ => "unexpected word",
    }
}

fn what_text(fault: Fault, at: usize, words: &[&[u8]]) -> &'static str
    ensures { result.now ≡ what_text fault at (map (λ w. w.now) words.now) }
{
    match fault {
        Fault::BadLine => shape_text(begins_call(words), at, words_from(at, words)),
        _ => text(fault),
    }
}

/// The first of these words, in quotes.
fn put_quoted(out: &mut Vec<u8>, words: &[&[u8]]) -> Result<(), AllocError>
    ensures { OnOk result (out.new.items ≡ out.old.items ++ quoted (map (λ w. w.now) words.now)) }
{
    match words {
        [] => Ok(()),
        [word, ..] => {
            if word.is_empty() {
                return Ok(());
            }
            put(out, " '")?;
            out.extend_from_slice(word)?;
            put(out, "'")
        }
    }
}

/// The words from a place on.
fn words_from<'a, 'b>(at: usize, words: &'a [&'b [u8]]) -> &'a [&'b [u8]]
    ensures { map (λ w. w.now) result.now ≡ drop at (map (λ w. w.now) words.now) }
{
    if words.len() < at { &[] } else { &words[at..] }
}

/// When a line with this first word fits.
fn not_now_hint(words: &[&[u8]]) -> &'static str
    ensures { result.now ≡ not_now_hint (map (λ w. w.now) words.now) }
{
    match words {
        [] => "",
        [first, ..] if is(first, "read") || is(first, "readfail") || is(first, "say") => {
            " (it fits while the call waits for its loader)"
        }
        [first, ..] if is(first, "apply") || is(first, "applyfail") || is(first, "applylie") => {
            " (it fits while the call waits for its writer; with but, if the call has many keys)"
        }
        [first, ..] if is(first, "process") => " (it fits while the call waits for its processor)",
        [first, ..] if is(first, "end") => {
            " (it fits if the call has a started key, and waits for no loader, writer or processor)"
        }
        [first, ..] if is(first, "drop") => {
            " (it fits if no key is joined, and nothing has answered for a started key)"
        }
        [first, ..] if is(first, "take") => " (it fits if a key is joined, and none is started)",
        [first, ..] if is(first, "more") => {
            " (it fits if a key was put off or told to retry, and none is started or joined)"
        }
        [first, ..] if is(first, "invalidate") => {
            " (it fits if the key is reserved, or isn't cached, or the history of its stripe has a free place)"
        }
        _ => " (it fits if no call is under way)",
    }
}

/// A text that tells what would fit in the place of a wrong word, or when the line fits.
fn hint(fault: Fault, words: &[&[u8]]) -> &'static str
    ensures { result.now ≡ hint_of fault (map (λ w. w.now) words.now) }
{
    match fault {
        Fault::BadNumber => " (0 to 999999999, without leading zeros)",
        Fault::BadCaller => " (s1 to s32)",
        Fault::BadKey => " (1 to 32 letters, digits, _ or .)",
        Fault::BadValue => {
            " (1 to 256 letters, digits, _ or .; or ~ for the empty value; a pair is KEY=VALUE)"
        }
        Fault::NotOpen => " (a script begins with open)",
        Fault::BadConfig(Field::Stripes) => " (1 to 64)",
        Fault::BadConfig(Field::Capacity) => " (1 to 4096)",
        Fault::BadConfig(Field::History) => " (16 to 65536)",
        Fault::SetTooLate => " (it fits before the first begin, foreign, invalidate or reopen)",
        Fault::NotRising => " (the number of each call is above those before)",
        Fault::CallerBusy => " (its call isn't over)",
        Fault::NotNow => not_now_hint(words),
        Fault::CutLine
        | Fault::LineTooLong
        | Fault::BadByte
        | Fault::BadLine
        | Fault::RepeatedKey
        | Fault::OpenTwice
        | Fault::NoSuchCall => "",
    }
}

/// The text for a fault of the word at a place: the column, the fault, the word, and what would fit.
#[tactic(auto, unfolding(crate::specs::Places::word_text))]
fn put_word_text(
    out: &mut Vec<u8>,
    fault: Fault,
    at: usize,
    words: &[&[u8]],
    line: &[u8],
) -> Result<(), AllocError>
    requires { map (λ w. w.now) words.now ≡ words_of line.now }
    ensures { OnOk result (out.new.items ≡ out.old.items ++ word_text fault at line.now) }
{
    put(out, ", column ")?;
    put_number(out, start_of(at, line) as u64 + 1)?;
    put(out, ": ")?;
    put(out, what_text(fault, at, words))?;
    put_quoted(out, words_from(at, words))?;
    put(out, hint(fault, words))
}

/// The text for a fault of a word.
fn put_word_fault(
    alloc: Global,
    out: &mut Vec<u8>,
    fault: Fault,
    line: &[u8],
) -> Result<(), AllocError>
    ensures { OnOk result (out.new.items ≡ out.old.items ++ word_text fault (word_meant fault (words_of line.now)) line.now) }
{
    let mut words = Vec::new(alloc);
    split(line, &mut words)?;
    let at = word_meant(alloc, fault, &words)?;
    put_word_text(out, fault, at, &words, line)
}

/// The fault of the first of these bytes.
fn byte_text(bytes: &[u8]) -> &'static str
    ensures { result.now ≡ byte_text bytes.now }
{
    match bytes {
        _ if begins(&[0xEF, 0xBB, 0xBF], bytes) => {
            "byte order mark (save the script without one)"
        }
        _ if begins(&[b'\r'], bytes) => "carriage return (lines end with a line feed alone)",
        _ if begins(&[b'\t'], bytes) => "tab (single spaces separate words)",
        _ => text(Fault::BadByte),
    }
}

/// The place of the first byte that may not be in a line.
fn bad_byte(line: &[u8]) -> Option<usize>
    ensures place { result ≡ position (λ b. not (is_plain b)) line.now }
    ensures within { IfSome result (λ at. at < length line.now) }
{
    line.iter().position(|b| !is_plain(*b))
}

#[tactic(auto, unfolding(crate::specs::Places::bytes_text))]
fn put_bytes_text(out: &mut Vec<u8>, at: usize, line: &[u8]) -> Result<(), AllocError>
    requires { at < length line.now }
    ensures { OnOk result (out.new.items ≡ out.old.items ++ bytes_text at line.now) }
{
    put(out, ", column ")?;
    put_number(out, at as u64 + 1)?;
    put(out, ": ")?;
    put(out, byte_text(&line[at..]))
}

/// The text for a byte that may not be in a line: the column, and the fault.
fn put_bad_byte(out: &mut Vec<u8>, line: &[u8]) -> Result<(), AllocError>
    ensures { OnOk result (out.new.items ≡ out.old.items ++ bad_byte_text (position (λ b. not (is_plain b)) line.now) line.now) }
{
    match bad_byte(line) {
        None => put_whole(out, Fault::BadByte),
        Some(at) => put_bytes_text(out, at, line),
    }
}

/// The text for a fault of the whole line.
fn put_whole(out: &mut Vec<u8>, fault: Fault) -> Result<(), AllocError>
    ensures { OnOk result (out.new.items ≡ out.old.items ++ whole_text fault) }
{
    put(out, ": ")?;
    put(out, text(fault))
}

fn put_fault_text(
    alloc: Global,
    out: &mut Vec<u8>,
    fault: Fault,
    line: &[u8],
) -> Result<(), AllocError>
    ensures { OnOk result (out.new.items ≡ out.old.items ++ fault_text fault line.now) }
{
    match fault {
        Fault::CutLine | Fault::LineTooLong => put_whole(out, fault),
        Fault::BadByte => put_bad_byte(out, line),
        _ => put_word_fault(alloc, out, fault, line),
    }
}

/// The text on standard error for the fault of a line with this number.
#[tactic(auto, unfolding(crate::specs::Places::complaint))]
pub fn put_complaint(
    alloc: Global,
    out: &mut Vec<u8>,
    number: u64,
    line: &[u8],
    fault: Fault,
) -> Result<(), AllocError>
    ensures { OnOk result (out.new.items ≡ out.old.items ++ complaint number line.now fault) }
{
    put(out, "line ")?;
    put_number(out, number)?;
    put_fault_text(alloc, out, fault, line)?;
    put(out, "\n")
}
