//! Where in its line a fault is: which word is meant, and at how many bytes it begins. Nothing here runs before a script has ended at a
//! fault.
ghost use Rattle.std.specs.Prelude.{◌≡◌, ◌≤◌, ◌<◌, ◌+◌, ◌^◌, map, drop, length, IfOk, []};
ghost use Rattle.jc_text.specs.Places.{kind_in, is_unknown, is_wrong, is_bad, bad_among, form_in, after_name, operation_kinds};
ghost use Rattle.jc_text.specs.Places.{bad_in_begin, bad_in_line, bad_word, is_lone, list_start, repeat_from, repeated_word};
ghost use Rattle.jc_text.specs.Places.{word_meant, start_of};

use crate::fault::{Fault, ReadError};
use crate::read::commands::{BulkName, Form, form_named, is_load_mode};
use crate::read::keys::Keys;
use crate::read::process_words::{is_entry_word, reads_entry_word};
use crate::read::words::{
    add_key, caller, is, is_pair, key, key_text, number, value, value_or_none,
};
use jc_types::Field;
use std::alloc::{AllocError, Global};

/// The kinds of word at a place of a line.
#[derive(Clone, Copy)]
pub enum Kind {
    /// A first word that is known.
    First,
    /// A number or a code.
    Number,
    /// A session.
    Caller,
    /// The name of an operation.
    Operation,
    /// `keep` or `replace`.
    LoadMode,
    /// `but`.
    But,
    /// `read` or `write`.
    Flag,
    /// A key.
    Key,
    /// A value.
    Value,
    /// A value, or a dash for none.
    ValueOrNone,
    /// A key, an equals sign and a value.
    Pair,
    /// How a loader answers, a processor's call, or its failure.
    Entry,
    /// None: the line has ended.
    Nothing,
}

/// Which words are looked for.
#[derive(Clone, Copy)]
pub enum WordSearch {
    /// A missing or unknown word, of a line without a known shape.
    Shape,
    /// A word that doesn't fit its place.
    Content,
}

/// The kinds of word after the name of an operation.
#[derive(Clone, Copy)]
struct Following {
    first: Kind,
    second: Kind,
    third: Kind,
    /// Each word after the third.
    rest: Kind,
}

fn after_name(first: Kind, second: Kind, third: Kind, rest: Kind) -> Following
    ensures { result ≡ after_name first second third rest }
{
    Following {
        first,
        second,
        third,
        rest,
    }
}

/// The kind of the next word.
fn kind_in(kinds: &[Kind], rest: Kind) -> Kind
    ensures { result ≡ kind_in kinds.now rest }
{
    match kinds {
        [] => rest,
        [kind, ..] => *kind,
    }
}

/// The kinds of the words after it.
fn after(kinds: &[Kind]) -> &[Kind]
    ensures { result.now ≡ drop 1 kinds.now }
{
    match kinds {
        [] => kinds,
        [_, rest @ ..] => rest,
    }
}

fn is_unknown(kind: Kind, word: &[u8]) -> bool
    ensures { result ≡ is_unknown kind word.now }
{
    match kind {
        Kind::Operation => !form_named(word).is_ok(),
        Kind::LoadMode => !is_load_mode(word),
        Kind::But => !is(word, "but"),
        Kind::Flag => !(is(word, "read") || is(word, "write")),
        Kind::Entry => !is_entry_word(word),
        Kind::Nothing => true,
        Kind::First
        | Kind::Number
        | Kind::Caller
        | Kind::Key
        | Kind::Value
        | Kind::ValueOrNone
        | Kind::Pair => false,
    }
}

fn is_wrong(kind: Kind, word: &[u8]) -> bool
    ensures { result ≡ is_wrong kind word.now }
{
    match kind {
        Kind::Number => !number(word).is_ok(),
        Kind::Caller => !caller(word).is_ok(),
        Kind::Key => !key(word).is_ok(),
        Kind::Value => !value(word).is_ok(),
        Kind::ValueOrNone => !value_or_none(word).is_ok(),
        Kind::Pair => !is_pair(word),
        Kind::Entry => !reads_entry_word(word),
        Kind::First | Kind::Operation | Kind::LoadMode | Kind::But | Kind::Flag | Kind::Nothing =>
            false,
    }
}

fn is_bad(search: WordSearch, kind: Kind, word: &[u8]) -> bool
    ensures { result ≡ is_bad search kind word.now }
{
    match search {
        WordSearch::Shape => word.is_empty() || is_unknown(kind, word),
        WordSearch::Content => is_wrong(kind, word),
    }
}

/// The first word from the left that is looked for, or the place behind the last one.
fn bad_among(search: WordSearch, kinds: &[Kind], rest: Kind, words: &[&[u8]]) -> usize
    ensures { result ≡ bad_among search kinds.now rest (map (λ w. w.now) words.now) }
{
    let mut left = kinds;
    let mut at = 0;
    for word in words {
        if is_bad(search, kind_in(left, rest), word) {
            return at;
        }
        left = after(left);
        at += 1;
    }
    at
}

/// The operation that a `begin` names.
fn form_in(words: &[&[u8]]) -> Result<Form, Fault>
    ensures { result ≡ form_in (map (λ w. w.now) words.now) }
{
    match words {
        [_, _, _, word, ..] => form_named(word),
        _ => Err(Fault::BadLine),
    }
}

fn operation_kinds(form: Result<Form, Fault>) -> Following
    ensures { result ≡ operation_kinds form }
{
    match form {
        Ok(Form::Bare(_)) => after_name(Kind::Key, Kind::Nothing, Kind::Nothing, Kind::Nothing),
        Ok(Form::Valued(_)) => after_name(Kind::Key, Kind::Value, Kind::Nothing, Kind::Nothing),
        Ok(Form::ReplaceIf) => after_name(Kind::Key, Kind::Value, Kind::Value, Kind::Nothing),
        Ok(Form::Bulk(BulkName::PutAll)) => {
            after_name(Kind::Pair, Kind::Pair, Kind::Pair, Kind::Pair)
        }
        Ok(Form::Bulk(BulkName::LoadAll)) => {
            after_name(Kind::LoadMode, Kind::Key, Kind::Key, Kind::Key)
        }
        Ok(Form::Bulk(BulkName::RemoveEvery | BulkName::Clear)) | Err(_) => {
            after_name(Kind::Nothing, Kind::Nothing, Kind::Nothing, Kind::Nothing)
        }
        Ok(Form::Bulk(BulkName::GetAll | BulkName::RemoveAll | BulkName::InvokeAll)) => {
            after_name(Kind::Key, Kind::Key, Kind::Key, Kind::Key)
        }
    }
}

fn bad_in_begin(search: WordSearch, words: &[&[u8]]) -> usize
    ensures { result ≡ bad_in_begin search (map (λ w. w.now) words.now) }
{
    let kinds = operation_kinds(form_in(words));
    bad_among(
        search,
        &[
            Kind::First,
            Kind::Number,
            Kind::Caller,
            Kind::Operation,
            kinds.first,
            kinds.second,
            kinds.third,
        ],
        kinds.rest,
        words,
    )
}

/// Whether a line with this first word has no other word than the number of a call.
fn is_lone(first: &[u8]) -> bool
    ensures { result ≡ is_lone first.now }
{
    is(first, "read")
        || is(first, "end")
        || is(first, "drop")
        || is(first, "more")
        || is(first, "take")
}

fn bad_in_line(search: WordSearch, first: &[u8], words: &[&[u8]]) -> usize
    ensures { result ≡ bad_in_line search first.now (map (λ w. w.now) words.now) }
{
    use Kind::{But, Entry, First, Flag, Key, Nothing, Number, Pair, Value, ValueOrNone};
    match first {
        _ if is(first, "begin") => bad_in_begin(search, words),
        _ if is(first, "open") || is(first, "reopen") => {
            bad_among(
                search,
                &[First, Number, Number, Number, Flag, Flag],
                Nothing,
                words,
            )
        }
        _ if is(first, "set") => bad_among(search, &[First, Key, Value], Nothing, words),
        _ if is(first, "foreign") => bad_among(search, &[First, Key, ValueOrNone], Nothing, words),
        _ if is(first, "invalidate") => bad_among(search, &[First, Key], Nothing, words),
        _ if is(first, "audit") || is(first, "untold") => bad_among(
            search,
            &[First],
            Nothing,
            words,
        ),
        _ if is(first, "say") => bad_among(search, &[First, Number], Pair, words),
        _ if is(first, "apply") => bad_among(search, &[First, Number, But], Key, words),
        _ if is(first, "applyfail") => bad_among(search, &[First, Number, Number, But], Key, words),
        _ if is(first, "readfail") || is(first, "applylie") => {
            bad_among(search, &[First, Number, Number], Nothing, words)
        }
        _ if is(first, "process") => bad_among(search, &[First, Number], Entry, words),
        _ if is_lone(first) => bad_among(search, &[First, Number], Nothing, words),
        _ => bad_among(search, &[], Nothing, words),
    }
}

fn bad_word(search: WordSearch, words: &[&[u8]]) -> usize
    ensures { result ≡ bad_word search (map (λ w. w.now) words.now) }
{
    match words {
        [] => 0,
        [first, ..] => bad_in_line(search, first, words),
    }
}

/// Where the keys of a call of many keys begin, or those after `but`.
fn list_start(words: &[&[u8]]) -> usize
    ensures { result ≡ list_start (map (λ w. w.now) words.now) }
{
    match words {
        [first, _, _, _, ..] if is(first, "apply") => 3,
        [_, _, _, word, ..] if is(word, "loadall") => 5,
        [_, _, _, _, ..] => 4,
        _ => 0,
    }
}

/// The first word whose key isn't new, or is none. The first of these words has this place.
fn repeat_from(alloc: Global, start: usize, words: &[&[u8]]) -> Result<usize, AllocError>
    requires { start + length words.now < 2 ^ 63 }
    ensures { IfOk result (λ found. found ≡ repeat_from [] start (map (λ w. w.now) words.now)) }
{
    let mut keys = Keys::new(alloc);
    let mut at = start;
    for word in words {
        match add_key(&mut keys, key_text(word)) {
            Ok(()) => {}
            Err(ReadError::Memory) => return Err(AllocError),
            Err(ReadError::Fault(_)) => return Ok(at),
        }
        at += 1;
    }
    Ok(at)
}

fn repeated_word(alloc: Global, words: &[&[u8]]) -> Result<usize, AllocError>
    ensures { IfOk result (λ found. found ≡ repeated_word (map (λ w. w.now) words.now)) }
{
    let start = list_start(words);
    if words.len() < start {
        return Ok(start);
    }
    repeat_from(alloc, start, &words[start..])
}

/// The word that a fault is about.
pub fn word_meant(alloc: Global, fault: Fault, words: &[&[u8]]) -> Result<usize, AllocError>
    ensures { IfOk result (λ found. found ≡ word_meant fault (map (λ w. w.now) words.now)) }
{
    Ok(match fault {
        Fault::BadLine => bad_word(WordSearch::Shape, words),
        Fault::BadNumber | Fault::BadCaller | Fault::BadKey | Fault::BadValue => {
            bad_word(WordSearch::Content, words)
        }
        Fault::RepeatedKey => return repeated_word(alloc, words),
        Fault::BadConfig(Field::Stripes) | Fault::NotRising | Fault::NoSuchCall => 1,
        Fault::BadConfig(Field::Capacity) | Fault::CallerBusy => 2,
        Fault::BadConfig(Field::History) => 3,
        Fault::CutLine
        | Fault::LineTooLong
        | Fault::BadByte
        | Fault::NotOpen
        | Fault::OpenTwice
        | Fault::SetTooLate
        | Fault::NotNow => 0,
    })
}

/// How many bytes of a line are before a word. Behind the last word it is one more than the line has.
pub fn start_of(word: usize, line: &[u8]) -> usize
    ensures place { result ≡ start_of word line.now }
    ensures within { result ≤ length line.now + 1 }
{
    let mut left = word;
    let mut at = 0;
    for b in line {
        if left == 0 {
            return at;
        }
        if *b == b' ' {
            left -= 1;
        }
        at += 1;
    }
    if left == 0 { at } else { at + 1 }
}
