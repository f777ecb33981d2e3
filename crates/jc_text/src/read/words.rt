//! The kinds of word of a line.
ghost use Rattle.std.specs.Prelude.{◌≡◌, ◌≤◌, ◌<◌, OnOk, IfSome, Ok, [], is_ok, map, length};
ghost use Rattle.std.specs.Str.{bytes_eq};
ghost use Rattle.std.specs.List.{list_all};
ghost use Rattle.jc_types.specs.declared.limits.TheConstants.{VALUE_MAX};
ghost use Rattle.jc_text.specs.Words.{words_of, is_letter, is_text, digits_from, number_of, caller_of, key_of, value_of};
ghost use Rattle.jc_text.specs.Words.{value_or_none_of, equals_at, key_part, value_part, pair_onto, pairs_of, with_key, key_onto, distinct_keys_of};
ghost use Rattle.jc_text.specs.Words.{distinct_pair_onto, distinct_pairs_of, key_text};
ghost use Rattle.jc_text.specs.Lines.{Gives, ok_with};

use crate::fault::{Fault, ReadError};
use crate::read::distinct_pairs::DistinctPairs;
use crate::read::keys::Keys;
use crate::read::pairs::Pairs;
use jc_types::{KEY_MAX, Key, NUMBER_MAX, VALUE_MAX, Value, is_session};
use std::alloc::{AllocError, Global};

/// Whether a word is this text. A table of words is a `match` with such guards: of a byte string as a pattern the prover knows each
/// byte, and no equation.
pub fn is(word: &[u8], text: &str) -> bool
    ensures { result ≡ bytes_eq word.now text.now }
{
    word == text.as_bytes()
}

/// The words of a line, which spaces separate: two spaces together have an empty word between them. They take the place of what
/// the list held.
pub fn split<'a>(line: &'a [u8], words: &mut Vec<&'a [u8]>) -> Result<(), AllocError>
    ensures { OnOk result (map (λ w. w.now) words.new.items ≡ words_of line.now) }
{
    words.clear();
    words.extend(line.split(|b| *b == b' '))?;
    Ok(())
}

/// Whether a byte may be in a key or a value: A to Z, a to z, 0 to 9, an underscore, a dot.
fn letter(b: u8) -> bool
    ensures { result ≡ is_letter b }
{
    matches!(b, b'A'..=b'Z' | b'a'..=b'z' | b'0'..=b'9' | b'_' | b'.')
}

/// The number that digits spell, up to [`NUMBER_MAX`].
fn digits(word: &[u8]) -> Result<u32, Fault>
    ensures { result ≡ digits_from 0 word.now }
{
    let mut n: u32 = 0;
    for b in word {
        let b = *b;
        if b < b'0' || b'9' < b {
            return Err(Fault::BadNumber);
        }
        let next = n as u64 * 10 + (b - b'0') as u64;
        if NUMBER_MAX < next {
            return Err(Fault::BadNumber);
        }
        n = next as u32;
    }
    Ok(n)
}

/// The number that a word says. It has no leading zero, but for 0 itself.
pub fn number(word: &[u8]) -> Result<u32, Fault>
    ensures { result ≡ number_of word.now }
{
    match word {
        [] => Err(Fault::BadNumber),
        [first, rest @ ..] => {
            if *first == b'0' && 0 < rest.len() {
                return Err(Fault::BadNumber);
            }
            digits(word)
        }
    }
}

/// The session that a word says: an s, and its number, from 1 to [`SESSIONS_MAX`](jc_types::SESSIONS_MAX).
pub fn caller(word: &[u8]) -> Result<u32, Fault>
    ensures { result ≡ caller_of word.now }
{
    match word {
        [] => Err(Fault::BadCaller),
        [first, rest @ ..] => {
            if *first != b's' {
                return Err(Fault::BadCaller);
            }
            match number(rest) {
                Ok(n) if is_session(n) => Ok(n),
                _ => Err(Fault::BadCaller),
            }
        }
    }
}

fn all_letters(word: &[u8]) -> bool
    ensures { result ≡ list_all is_letter word.now }
{
    word.iter().all(|b| letter(*b))
}

fn text_within(word: &[u8], most: usize) -> bool
    ensures { result ≡ is_text most word.now }
{
    0 < word.len() && word.len() <= most && all_letters(word)
}

/// The key that a word says.
pub fn key(word: &[u8]) -> Result<Key, Fault>
    ensures { result ≡ key_of word.now }
{
    if !text_within(word, KEY_MAX) {
        return Err(Fault::BadKey);
    }
    match Key::new(word) {
        Ok(key) => Ok(key),
        Err(_) => Err(Fault::BadKey),
    }
}

fn value_new(bytes: &[u8]) -> Result<Value, Fault>
    ensures { length bytes.now ≤ VALUE_MAX → result ≡ Ok bytes.now }
{
    match Value::new(bytes) {
        Ok(value) => Ok(value),
        Err(_) => Err(Fault::BadValue),
    }
}

/// The value that a word says.
pub fn value(word: &[u8]) -> Result<Value, Fault>
    ensures { result ≡ value_of word.now }
{
    if is(word, "~") {
        return value_new(&[]);
    }
    if !text_within(word, VALUE_MAX) {
        return Err(Fault::BadValue);
    }
    value_new(word)
}

/// The value that a word says: a dash says none.
pub fn value_or_none(word: &[u8]) -> Result<Option<Value>, Fault>
    ensures { result ≡ value_or_none_of word.now }
{
    if is(word, "-") {
        return Ok(None);
    }
    match value(word) {
        Ok(value) => Ok(Some(value)),
        Err(fault) => Err(fault),
    }
}

/// The place of the first equals sign.
fn equals_sign(word: &[u8]) -> Option<usize>
    ensures place { result ≡ equals_at word.now }
    ensures within { IfSome result (λ at. at < length word.now) }
{
    word.iter().position(|b| *b == b'=')
}

fn front(at: Option<usize>, word: &[u8]) -> &[u8]
    requires { IfSome at (λ at. at < length word.now) }
    ensures { result.now ≡ key_part at word.now }
{
    match at {
        None => word,
        Some(at) => &word[..at],
    }
}

fn back(at: Option<usize>, word: &[u8]) -> Result<Value, Fault>
    requires { IfSome at (λ at. at < length word.now) }
    ensures { result ≡ value_part at word.now }
{
    match at {
        None => Err(Fault::BadValue),
        Some(at) => value(&word[at + 1..]),
    }
}

/// The bytes of a word before its first equals sign: all of them, if it has none.
pub fn key_text(word: &[u8]) -> &[u8]
    ensures { result.now ≡ key_text word.now }
{
    front(equals_sign(word), word)
}

/// Whether a word says a pair.
#[tactic(auto, unfolding(crate::specs::Words::pair_onto))]
pub fn is_pair(word: &[u8]) -> bool
    ensures { result ≡ is_ok (pair_onto [] word.now) }
{
    let at = equals_sign(word);
    key(front(at, word)).is_ok() && back(at, word).is_ok()
}

#[tactic(auto, unfolding(crate::specs::Words::pair_onto))]
fn add_pair(pairs: &mut Pairs, word: &[u8]) -> Result<(), ReadError>
    ensures { Gives (ok_with pairs.new result) (pair_onto pairs.old word.now) }
{
    let at = equals_sign(word);
    let key = key(front(at, word))?;
    let value = back(at, word)?;
    pairs.add(key, value)?;
    Ok(())
}

#[tactic(auto, unfolding(crate::specs::Words::distinct_pair_onto))]
fn add_distinct_pair(pairs: &mut DistinctPairs, word: &[u8]) -> Result<(), ReadError>
    ensures { Gives (ok_with pairs.new result) (distinct_pair_onto pairs.old word.now) }
{
    let at = equals_sign(word);
    let key = key(front(at, word))?;
    if pairs.names(&key) {
        return Err(ReadError::Fault(Fault::RepeatedKey));
    }
    let value = back(at, word)?;
    pairs.add(key, value)?;
    Ok(())
}

/// The pairs that the words say, each key once.
pub fn distinct_pairs(alloc: Global, words: &[&[u8]]) -> Result<DistinctPairs, ReadError>
    ensures { Gives result (distinct_pairs_of (map (λ w. w.now) words.now)) }
{
    let mut pairs = DistinctPairs::new(alloc);
    for word in words {
        add_distinct_pair(&mut pairs, word)?;
    }
    Ok(pairs)
}

/// The pairs that the words say.
pub fn pairs(alloc: Global, words: &[&[u8]]) -> Result<Pairs, ReadError>
    ensures { Gives result (pairs_of (map (λ w. w.now) words.now)) }
{
    let mut pairs = Pairs::new(alloc);
    for word in words {
        add_pair(&mut pairs, word)?;
    }
    Ok(pairs)
}

fn add_new(keys: &mut Keys, key: Key) -> Result<(), ReadError>
    ensures { Gives (ok_with keys.new result) (with_key keys.old key) }
{
    let is_new = keys.add(key)?;
    if is_new {
        Ok(())
    } else {
        Err(ReadError::Fault(Fault::RepeatedKey))
    }
}

/// Appends the key that a word says.
#[tactic(auto, unfolding(crate::specs::Words::key_onto))]
pub fn add_key(keys: &mut Keys, word: &[u8]) -> Result<(), ReadError>
    ensures { Gives (ok_with keys.new result) (key_onto keys.old word.now) }
{
    let key = key(word)?;
    add_new(keys, key)
}

/// The keys that the words say, each once.
pub fn keys(alloc: Global, words: &[&[u8]]) -> Result<Keys, ReadError>
    ensures { Gives result (distinct_keys_of (map (λ w. w.now) words.now)) }
{
    let mut keys = Keys::new(alloc);
    for word in words {
        add_key(&mut keys, word)?;
    }
    Ok(keys)
}
