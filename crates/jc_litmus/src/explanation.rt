//! The text on standard error for the fault at which a program has ended: its place in the line, the word, and what would fit.
ghost use Rattle.std.specs.Prelude.{◌≡◌, ◌++◌, drop, false, map, OnOk};
ghost use Rattle.jc_text.specs.Places.{quoted, shape_text};
ghost use Rattle.jc_text.specs.Words.{words_of};
ghost use Rattle.jc_litmus.specs.Explanations.{IsExplained, begins_shared_line, explanation, hint_of, is_shared, is_unknown, own_explanation, shape_hint, what_text, word_text};

use crate::fault_word::{LineForm, form_of, start_of, word_meant};
use crate::line_error::LineError;
use crate::program::{LineFault, ProgramFault};
use jc_explore::Item;
use jc_text::Fault;
use jc_text::print::place::put_complaint;
use jc_text::print::{put, put_number};
use jc_text::read::words::{is, split};
use std::alloc::{AllocError, Global};

/// Whether a line begins with a word that scripts and programs share.
fn begins_shared_line(words: &[&[u8]]) -> bool
    ensures { result ≡ begins_shared_line (map (λ w. w.now) words.now) }
{
    match words {
        [] => false,
        [first, ..] => {
            is(first, "open") || is(first, "set") || is(first, "foreign") || is(first, "invalidate")
        }
    }
}

/// Whether a line has none of the forms that only programs have.
fn is_unknown(form: LineForm) -> bool
    ensures { result ≡ is_unknown form }
{
    match form {
        LineForm::Unknown => true,
        LineForm::Outside
        | LineForm::Expectation
        | LineForm::Thread
        | LineForm::Invoke
        | LineForm::Call { .. } => false,
    }
}

/// Whether the fault of a line is told as one of a script's.
fn is_shared(fault: Fault, words: &[&[u8]]) -> bool
    ensures { result ≡ is_shared fault (map (λ w. w.now) words.now) }
{
    match fault {
        Fault::CutLine | Fault::LineTooLong | Fault::BadByte => true,
        Fault::NotOpen | Fault::SetTooLate => false,
        Fault::BadLine => begins_shared_line(words),
        _ => is_unknown(form_of(words)),
    }
}

/// The fault of a line's shape, by the place of the first word that isn't as it should be, and the words from there on.
fn shape_text(at: usize, words: &[&[u8]]) -> &'static str
    ensures { result.now ≡ shape_text false at (map (λ w. w.now) words.now) }
{
    match words {
        [] => "wrong number or order of words",
        [word, ..] if word.is_empty() => "no word (single spaces separate words)",
        _ if at == 0 => "unknown word",
        _ => "unexpected word",
    }
}

fn what_text(fault: LineFault, at: usize, words: &[&[u8]]) -> &'static str
    ensures { result.now ≡ what_text fault at (map (λ w. w.now) words.now) }
{
    match fault {
        LineFault::Script(Fault::BadLine) => shape_text(at, words),
        _ => fault.text(),
    }
}

/// The first of these words, in quotes.
fn put_quoted(out: &mut Vec<u8>, words: &[&[u8]]) -> Result<(), AllocError>
    ensures { OnOk result (out.new.items ≡ out.old.items ++ quoted (map (λ w. w.now) words.now)) }
{
    match words {
        [] => Ok(()),
        [word, ..] => {
            if word.is_empty() {
                return Ok(());
            }
            put(out, " '")?;
            out.extend_from_slice(word)?;
            put(out, "'")
        }
    }
}

/// The words from a place on.
fn words_from<'a, 'b>(at: usize, words: &'a [&'b [u8]]) -> &'a [&'b [u8]]
    ensures { map (λ w. w.now) result.now ≡ drop at (map (λ w. w.now) words.now) }
{
    if words.len() < at { &[] } else { &words[at..] }
}

/// What a line of this form has, for a fault of its shape.
fn shape_hint(form: LineForm) -> &'static str
    ensures { result.now ≡ shape_hint form }
{
    match form {
        LineForm::Outside => {
            " (loader may fail C, writer may fail C, writer may lie C or processor may fail C)"
        }
        LineForm::Expectation => {
            " (an atom is T.I=REPLY, cache.K=V, store.K=V, coherent or differs)"
        }
        LineForm::Thread => " (a line thread has no other word)",
        LineForm::Invoke => " (invoke K : CALL .., each CALL get, exists, remove or set=V)",
        LineForm::Call { .. } => " (a call has its key, and as many values as its name asks for)",
        LineForm::Unknown => {
            " (a call is get, contains, put, getput, putif, remove, removeif, getremove, forget, replace, replaceif, getreplace or invoke)"
        }
    }
}

/// What would fit in the place of the word, or when the line fits.
fn hint(fault: LineFault, words: &[&[u8]]) -> &'static str
    ensures { result.now ≡ hint_of fault (map (λ w. w.now) words.now) }
{
    match fault {
        LineFault::Script(Fault::BadLine) => shape_hint(form_of(words)),
        LineFault::Script(Fault::BadNumber) => " (0 to 999999999, without leading zeros)",
        LineFault::Script(Fault::BadKey) => " (1 to 32 letters, digits, _ or .)",
        LineFault::Script(Fault::BadValue) => {
            " (1 to 256 letters, digits, _ or .; or ~ for the empty value)"
        }
        LineFault::Script(Fault::NotOpen) => " (a program begins with open)",
        LineFault::Script(Fault::SetTooLate) => " (it fits before the first thread)",
        LineFault::Script(_) => "",
        LineFault::NoThread => " (a line thread begins the first thread, and items follow it)",
        LineFault::TooManyThreads => " (at most 8)",
        LineFault::TooManyItems => " (at most 32, of all threads together)",
        LineFault::BadReply => {
            " (what this call can answer: ok, true, false, a value or -, WriterFailed:7, refused:HistoryFull, ..)"
        }
        LineFault::NoSuchItem => " (T.I is a call on a line above: item I of thread T)",
        LineFault::NotACall => " (items are calls of one key, forget, foreign and invalidate)",
    }
}

/// The text for a fault of a word: the column, the fault, the word, and what would fit. The threads are those above the line.
#[tactic(auto, unfolding(crate::specs::Explanations::word_text))]
fn put_word_text(
    out: &mut Vec<u8>,
    threads: &[Vec<Item>],
    fault: LineFault,
    words: &[&[u8]],
    line: &[u8],
) -> Result<(), AllocError>
    requires { map (λ w. w.now) words.now ≡ words_of line.now }
    ensures { OnOk result (out.new.items ≡ out.old.items ++ word_text (map (λ t. t.items) threads.now) fault line.now) }
{
    let at = word_meant(threads, fault, words);
    put(out, ", column ")?;
    put_number(out, start_of(at, line) as u64 + 1)?;
    put(out, ": ")?;
    put(out, what_text(fault, at, words_from(at, words)))?;
    put_quoted(out, words_from(at, words))?;
    put(out, hint(fault, words))
}

/// The text for the fault of a line as programs have it.
#[tactic(auto, unfolding(crate::specs::Explanations::own_explanation))]
fn put_own_explanation(
    out: &mut Vec<u8>,
    threads: &[Vec<Item>],
    number: u64,
    line: &[u8],
    fault: LineFault,
    words: &[&[u8]],
) -> Result<(), AllocError>
    requires { map (λ w. w.now) words.now ≡ words_of line.now }
    ensures { OnOk result (out.new.items ≡ out.old.items ++ own_explanation (map (λ t. t.items) threads.now) number line.now fault) }
{
    put(out, "line ")?;
    put_number(out, number)?;
    put_word_text(out, threads, fault, words, line)?;
    put(out, "\n")
}

/// The text for the fault of the line with this number. The threads are those above the line.
fn put_explanation(
    alloc: Global,
    out: &mut Vec<u8>,
    threads: &[Vec<Item>],
    number: u64,
    line: &[u8],
    fault: LineFault,
) -> Result<(), AllocError>
    ensures { OnOk result (out.new.items ≡ out.old.items ++ explanation (map (λ t. t.items) threads.now) number line.now fault) }
{
    let mut words = Vec::new(alloc);
    split(line, &mut words)?;
    match fault {
        LineFault::Script(f) => {
            if is_shared(f, &words) {
                return put_complaint(alloc, out, number, line, f);
            }
            put_own_explanation(out, threads, number, line, fault, &words)
        }
        LineFault::NoThread
        | LineFault::TooManyThreads
        | LineFault::TooManyItems
        | LineFault::BadReply
        | LineFault::NoSuchItem
        | LineFault::NotACall => { put_own_explanation(out, threads, number, line, fault, &words) }
    }
}

/// Notes where an error of the line with this number is, if it is a fault, and returns it. The threads are those above the line.
pub(crate) fn note_error(
    alloc: Global,
    notes: &mut Vec<u8>,
    threads: &[Vec<Item>],
    number: u64,
    line: &[u8],
    error: LineError,
) -> ProgramFault
    ensures { IsExplained (map (λ t. t.items) threads.now) number line.now error notes.old.items notes.new.items result }
{
    match error {
        LineError::Memory => ProgramFault::OutOfMemory,
        LineError::Fault(fault) => {
            match put_explanation(alloc, notes, threads, number, line, fault) {
                Ok(()) => ProgramFault::Line(number, fault),
                Err(_) => ProgramFault::OutOfMemory,
            }
        }
    }
}
