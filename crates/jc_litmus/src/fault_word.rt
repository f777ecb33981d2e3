//! Which word of a program's line a fault is about. The lines here are those that no script has; `jc_text` knows the others.
ghost use Rattle.std.specs.Prelude.{◌≡◌, ◌+◌, ◌≤◌, length, map};
ghost use Rattle.jc_litmus.specs.FaultWords.{bad_word, form_of, is_bad, is_bare_call, is_entry_call, is_misplaced, is_valued_call, is_wrong};
ghost use Rattle.jc_litmus.specs.FaultWords.{line_form, reads_entry_call, search_for, word_meant};
ghost use Rattle.jc_text.specs.Places.{start_of};

use crate::atoms::{atom_of, is_atom};
use crate::grammar::{failing_named, is_outside, quantifier_named};
use crate::program::LineFault;
use crate::word_parts::{begins_with, behind};
use jc_explore::Item;
use jc_text::Fault;
use jc_text::read::words::{is, key, number, value};

/// The forms of a line that no script has.
#[derive(Clone, Copy)]
pub(crate) enum LineForm {
    /// The loader, the writer or the processor may fail.
    Outside,
    /// An expectation.
    Expectation,
    /// A thread begins.
    Thread,
    /// An entry processor.
    Invoke,
    /// A call of one key, whose last word has this place.
    Call {
        /// The place of its last word: that of the key or of a value.
        last: usize,
    },
    /// None of these.
    Unknown,
}

/// Which words are looked for.
#[derive(Clone, Copy)]
pub(crate) enum WordSearch {
    /// A missing or unknown word, of a line without a known shape.
    Shape,
    /// A word that doesn't fit its place.
    Content,
}

/// Whether a word names a call with a key and no value.
fn is_bare_call(word: &[u8]) -> bool
    ensures { result ≡ is_bare_call word.now }
{
    is(word, "get")
        || is(word, "contains")
        || is(word, "remove")
        || is(word, "getremove")
        || is(word, "forget")
}

/// Whether a word names a call with a key and one value.
fn is_valued_call(word: &[u8]) -> bool
    ensures { result ≡ is_valued_call word.now }
{
    is(word, "put")
        || is(word, "getput")
        || is(word, "putif")
        || is(word, "removeif")
        || is(word, "replace")
        || is(word, "getreplace")
}

/// The form of a line with this first word.
fn line_form(first: &[u8]) -> LineForm
    ensures { result ≡ line_form first.now }
{
    match first {
        _ if is_outside(first) => LineForm::Outside,
        _ if quantifier_named(first).is_some() => LineForm::Expectation,
        _ if is(first, "thread") => LineForm::Thread,
        _ if is(first, "invoke") => LineForm::Invoke,
        _ if is_bare_call(first) => LineForm::Call { last: 1 },
        _ if is_valued_call(first) => LineForm::Call { last: 2 },
        _ if is(first, "replaceif") => LineForm::Call { last: 3 },
        _ => LineForm::Unknown,
    }
}

/// The form of a line with these words.
pub(crate) fn form_of(words: &[&[u8]]) -> LineForm
    ensures { result ≡ form_of (map (λ w. w.now) words.now) }
{
    match words {
        [] => LineForm::Unknown,
        [first, ..] => line_form(first),
    }
}

/// Whether a word has the shape of a call on an entry.
fn is_entry_call(word: &[u8]) -> bool
    ensures { result ≡ is_entry_call word.now }
{
    is(word, "get") || is(word, "exists") || is(word, "remove") || begins_with("set=", word)
}

/// Whether a word is a call on an entry.
fn reads_entry_call(word: &[u8]) -> bool
    ensures { result ≡ reads_entry_call word.now }
{
    if begins_with("set=", word) {
        value(behind(4, word)).is_ok()
    } else {
        is_entry_call(word)
    }
}

/// Whether no word of this shape may be at this place. `first` is the first word of the line.
fn is_misplaced(form: LineForm, first: &[u8], at: usize, word: &[u8]) -> bool
    ensures { result ≡ is_misplaced form first.now at word.now }
{
    match form {
        LineForm::Outside => {
            (at == 1 && !is(word, "may"))
                || (at == 2 && !failing_named(first, word).is_some())
                || 3 < at
        }
        LineForm::Expectation => 0 < at && !is_atom(word),
        LineForm::Thread => 0 < at,
        LineForm::Invoke => (at == 2 && !is(word, ":")) || (2 < at && !is_entry_call(word)),
        LineForm::Call { last } => last < at,
        LineForm::Unknown => true,
    }
}

/// Whether a word doesn't say what its place asks for. The threads are those above the line.
fn is_wrong(threads: &[Vec<Item>], form: LineForm, at: usize, word: &[u8]) -> bool
    ensures { result ≡ is_wrong (map (λ t. t.items) threads.now) form at word.now }
{
    match form {
        LineForm::Outside => at == 3 && !number(word).is_ok(),
        LineForm::Expectation => 0 < at && !atom_of(threads, word).is_ok(),
        LineForm::Invoke => (at == 1 && !key(word).is_ok()) || (2 < at && !reads_entry_call(word)),
        LineForm::Call { last: _ } => {
            (at == 1 && !key(word).is_ok()) || (1 < at && !value(word).is_ok())
        }
        LineForm::Thread | LineForm::Unknown => false,
    }
}

fn is_bad(search: WordSearch, threads: &[Vec<Item>], first: &[u8], at: usize, word: &[u8]) -> bool
    ensures { result ≡ is_bad search (map (λ t. t.items) threads.now) first.now at word.now }
{
    match search {
        WordSearch::Shape => { word.is_empty() || is_misplaced(line_form(first), first, at, word) }
        WordSearch::Content => is_wrong(threads, line_form(first), at, word),
    }
}

/// The first word from the left that is looked for, or the place behind the last one.
fn bad_word(search: WordSearch, threads: &[Vec<Item>], first: &[u8], words: &[&[u8]]) -> usize
    ensures { result ≡ bad_word search (map (λ t. t.items) threads.now) first.now (map (λ w. w.now) words.now) }
{
    let mut at = 0;
    for word in words {
        if is_bad(search, threads, first, at, word) {
            return at;
        }
        at += 1;
    }
    at
}

/// Which words a fault looks for. None are looked for if the whole line is meant.
fn search_for(fault: LineFault) -> Option<WordSearch>
    ensures { result ≡ search_for fault }
{
    match fault {
        LineFault::Script(Fault::BadLine) => Some(WordSearch::Shape),
        LineFault::Script(Fault::BadNumber | Fault::BadKey | Fault::BadValue) => {
            Some(WordSearch::Content)
        }
        LineFault::BadReply | LineFault::NoSuchItem => Some(WordSearch::Content),
        LineFault::Script(_)
        | LineFault::NoThread
        | LineFault::TooManyThreads
        | LineFault::TooManyItems
        | LineFault::NotACall => None,
    }
}

/// The word that a fault is about. The threads are those above the line.
pub(crate) fn word_meant(threads: &[Vec<Item>], fault: LineFault, words: &[&[u8]]) -> usize
    ensures { result ≡ word_meant (map (λ t. t.items) threads.now) fault (map (λ w. w.now) words.now) }
{
    match (search_for(fault), words) {
        (Some(search), [first, ..]) => bad_word(search, threads, first, words),
        _ => 0,
    }
}

/// How many bytes of a line are before a word. Behind the last word it is one more than the line has.
pub(crate) fn start_of(word: usize, line: &[u8]) -> usize
    ensures place { result ≡ start_of word line.now }
    ensures within { result ≤ length line.now + 1 }
{
    let mut left = word;
    let mut at = 0;
    for b in line {
        if left == 0 {
            return at;
        }
        if *b == b' ' {
            left -= 1;
        }
        at += 1;
    }
    if left == 0 { at } else { at + 1 }
}
