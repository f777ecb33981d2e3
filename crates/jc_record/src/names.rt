//! Keys and pairs that words name.
ghost use Rattle.std.specs.Prelude.{◌≡◌, map, IfOk};
ghost use Rattle.jc_text.specs.Lines.{Gives};
ghost use Rattle.jc_text.specs.Words.{distinct_keys_of, pairs_of};
ghost use Rattle.jc_record.specs.Words.{is_named, keys_left, said_of, stored_told};

use jc_check::Stored;
use jc_model::LoadAnswer;
use jc_text::read::keys::Keys;
use jc_text::read::words::{is, keys, pairs, value_or_none};
use jc_text::{Fault, ReadError};
use jc_types::Key;
use std::alloc::{AllocError, Global};

/// Whether a key is among those that some words name.
pub(crate) fn is_named(alloc: Global, key: &Key, words: &[&[u8]]) -> Result<bool, AllocError>
    ensures { IfOk result (λ named. named ≡ is_named key.now (distinct_keys_of (map (λ w. w.now) words.now))) }
{
    match keys(alloc, words) {
        Ok(keys) => Ok(keys.contains(key)),
        Err(ReadError::Fault(_)) => Ok(false),
        Err(ReadError::Memory) => Err(AllocError),
    }
}

/// What pairs say of a key, if the words are pairs.
pub(crate) fn said_of(
    alloc: Global,
    key: &Key,
    words: &[&[u8]],
) -> Result<Option<LoadAnswer>, AllocError>
    ensures { IfOk result (λ said. said ≡ said_of key.now (pairs_of (map (λ w. w.now) words.now))) }
{
    match pairs(alloc, words) {
        Ok(pairs) => Ok(Some(pairs.said(key))),
        Err(ReadError::Fault(_)) => Ok(None),
        Err(ReadError::Memory) => Err(AllocError),
    }
}

/// The keys that a writer left: those after `but`, if it is there.
pub(crate) fn keys_left(alloc: Global, words: &[&[u8]]) -> Result<Keys, ReadError>
    ensures { Gives result (keys_left (map (λ w. w.now) words.now)) }
{
    match words {
        [] => Ok(Keys::new(alloc)),
        [but, rest @ ..] => {
            if !is(but, "but") {
                return Err(ReadError::Fault(Fault::BadLine));
            }
            keys(alloc, rest)
        }
    }
}

/// Whether a writer left a key.
pub(crate) fn is_left(alloc: Global, key: &Key, words: &[&[u8]]) -> Result<bool, AllocError>
    ensures { IfOk result (λ left. left ≡ is_named key.now (keys_left (map (λ w. w.now) words.now))) }
{
    match keys_left(alloc, words) {
        Ok(keys) => Ok(keys.contains(key)),
        Err(ReadError::Fault(_)) => Ok(false),
        Err(ReadError::Memory) => Err(AllocError),
    }
}

/// What the store has at a key.
pub(crate) fn stored_told(word: &[u8]) -> Result<Stored, Fault>
    ensures { result ≡ stored_told word.now }
{
    if is(word, "?") {
        return Ok(Stored::Unknown);
    }
    let value = value_or_none(word)?;
    Ok(Stored::Known(value))
}
