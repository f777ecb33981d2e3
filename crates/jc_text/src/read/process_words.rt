//! The words of a `process` line after the call's number: how the loader answers, the processor's calls, and a code.
ghost use Rattle.std.specs.Prelude.{◌≡◌, ◌&&◌, ◌||◌, drop, map, not};
ghost use Rattle.jc_text.specs.Lines.{Gives, ok_with};
ghost use Rattle.jc_text.specs.ProcessWords.{begins_with, is_load_word, is_call_word, is_fail, are_calls, without_load};
ghost use Rattle.jc_text.specs.ProcessWords.{has_process_shape, source_of, call_of, with_word, calls_of, is_entry_word, reads_entry_word};

use crate::fault::{Fault, ReadError};
use crate::read::words::{is, number, value, value_or_none};
use jc_model::EntryCall;
use jc_types::Value;
use jc_world::process::{EntryCalls, LoadSource};
use std::alloc::Global;

/// Whether a word begins with this text.
fn begins_with(text: &str, word: &[u8]) -> bool
    ensures { result ≡ begins_with text.now word.now }
{
    begins(text.as_bytes(), word)
}

/// Whether bytes begin with these.
pub fn begins(first: &[u8], bytes: &[u8]) -> bool
    ensures { result ≡ begins_with first.now bytes.now }
{
    first.len() <= bytes.len() && &bytes[..first.len()] == first
}

fn is_load_word(word: &[u8]) -> bool
    ensures { result ≡ is_load_word word.now }
{
    begins_with("loadfail=", word) || begins_with("loadsay=", word)
}

fn is_call_word(word: &[u8]) -> bool
    ensures { result ≡ is_call_word word.now }
{
    is(word, "get") || is(word, "exists") || is(word, "remove") || begins_with("set=", word)
}

fn is_fail(word: &[u8]) -> bool
    ensures { result ≡ is_fail word.now }
{
    begins_with("fail=", word)
}

/// Whether a call or a failure may come here: the failure hasn't come yet.
fn may_follow(ended: bool, word: &[u8]) -> bool
    ensures { result ≡ (not ended && (is_call_word word.now || is_fail word.now)) }
{
    !ended && (is_call_word(word) || is_fail(word))
}

/// Whether there is no word but calls, and a failure at the end.
fn are_calls(words: &[&[u8]]) -> bool
    ensures { result ≡ are_calls (map (λ w. w.now) words.now) }
{
    let mut ended = false;
    for word in words {
        if !may_follow(ended, word) {
            return false;
        }
        ended = is_fail(word);
    }
    true
}

/// The words after the one for the loader, if there is one.
pub fn without_load<'a, 'b>(words: &'a [&'b [u8]]) -> &'a [&'b [u8]]
    ensures { map (λ w. w.now) result.now ≡ without_load (map (λ w. w.now) words.now) }
{
    match words {
        [first, rest @ ..] if is_load_word(first) => rest,
        _ => words,
    }
}

/// Whether the words have the shape of those after a call's number.
pub fn has_process_shape(words: &[&[u8]]) -> bool
    ensures { result ≡ has_process_shape (map (λ w. w.now) words.now) }
{
    are_calls(without_load(words))
}

/// How the loader answers.
pub fn read_source(words: &[&[u8]]) -> Result<LoadSource, Fault>
    ensures { result ≡ source_of (map (λ w. w.now) words.now) }
{
    match words {
        [first, ..] if begins_with("loadfail=", first) => {
            Ok(LoadSource::Failing(number(behind(9, first))?))
        }
        [first, ..] if begins_with("loadsay=", first) => {
            Ok(LoadSource::Stated(value_or_none(behind(8, first))?))
        }
        _ => Ok(LoadSource::Store),
    }
}

/// The bytes of a word after its first `count`.
fn behind(count: usize, word: &[u8]) -> &[u8]
    ensures { result.now ≡ drop count word.now }
{
    if word.len() < count {
        &[]
    } else {
        &word[count..]
    }
}

/// A call on the entry.
fn read_call(word: &[u8]) -> Result<EntryCall, Fault>
    ensures { result ≡ call_of word.now }
{
    match word {
        _ if is(word, "get") => Ok(EntryCall::GetValue),
        _ if is(word, "exists") => Ok(EntryCall::Exists),
        _ if is(word, "remove") => Ok(EntryCall::Remove),
        _ => Ok(EntryCall::SetValue(value(behind(4, word))?)),
    }
}

/// Whether a word is one of those after a call's number.
pub fn is_entry_word(word: &[u8]) -> bool
    ensures { result ≡ is_entry_word word.now }
{
    is_load_word(word) || is_call_word(word) || is_fail(word)
}

/// Whether such a word can be read: its code, or its value.
pub fn reads_entry_word(word: &[u8]) -> bool
    ensures { result ≡ reads_entry_word word.now }
{
    if is_load_word(word) {
        return read_source(&[word]).is_ok();
    }
    if is_fail(word) {
        number(behind(5, word)).is_ok()
    } else {
        read_call(word).is_ok()
    }
}

/// Takes one more word: a code, or a call.
fn add_word(calls: &mut EntryCalls, fail: &mut Option<u32>, word: &[u8]) -> Result<(), ReadError>
    ensures { Gives (ok_with (calls.new, fail.new) result) (with_word calls.old fail.old word.now) }
{
    if is_fail(word) {
        *fail = Some(number(behind(5, word))?);
        return Ok(());
    }
    let call = read_call(word)?;
    calls.push(call)?;
    Ok(())
}

/// The calls of the processor, and its code.
pub fn read_calls(alloc: Global, words: &[&[u8]]) -> Result<(EntryCalls, Option<u32>), ReadError>
    ensures { Gives result (calls_of (map (λ w. w.now) words.now)) }
{
    let mut calls = EntryCalls::new(alloc);
    let mut fail = None;
    for word in words {
        add_word(&mut calls, &mut fail, word)?;
    }
    Ok((calls, fail))
}
