//! The atoms of an expectation, from its words.
ghost use Rattle.std.specs.Prelude.{◌≡◌, ◌++◌, ◌∷◌, [], map, OnOk};
ghost use Rattle.std.specs.List.{list_all};
ghost use Rattle.jc_text.specs.Words.{key_of, value_or_none_of};
ghost use Rattle.jc_text.specs.Lines.{ok_with};
ghost use Rattle.jc_litmus.specs.LineResults.{ReadsAs};
ghost use Rattle.jc_litmus.specs.Atoms.{number_or_bad, numbers_of, in_script, cached_of, stored_of, replied_of, pair_of, atom_of};
ghost use Rattle.jc_litmus.specs.Atoms.{is_about, is_atom, are_atoms, atom_onto, atoms_from};

use crate::calls::call_named;
use crate::line_error::LineError;
use crate::program::{Atom, LineFault};
use crate::reply_words::reply_said;
use crate::word_parts::{begins_with, behind, halves_of};
use jc_explore::Item;
use jc_model::Reply;
use jc_text::Fault;
use jc_text::read::words::{is, key, number, value_or_none};
use jc_types::{Key, Value};
use std::alloc::AllocError;

/// The number that a word spells. A word that is no number doesn't have the shape of an atom.
fn number_or_bad(word: &[u8]) -> Result<u32, LineFault>
    ensures { result ≡ number_or_bad word.now }
{
    match number(word) {
        Ok(n) => Ok(n),
        Err(_) => Err(LineFault::Script(Fault::BadLine)),
    }
}

/// The numbers of a thread and of its item, with a dot between them.
fn numbers_of(word: &[u8]) -> Result<(u32, u32), LineFault>
    ensures { result ≡ numbers_of word.now }
{
    match halves_of(b'.', word) {
        None => Err(LineFault::Script(Fault::BadLine)),
        Some((thread, item)) => {
            let thread = number_or_bad(thread)?;
            let item = number_or_bad(item)?;
            Ok((thread, item))
        }
    }
}

/// A key, or its fault.
fn key_or_fault(word: &[u8]) -> Result<Key, LineFault>
    ensures { result ≡ in_script (key_of word.now) }
{
    match key(word) {
        Ok(key) => Ok(key),
        Err(fault) => Err(LineFault::Script(fault)),
    }
}

/// A value or none, or its fault.
fn value_or_fault(word: &[u8]) -> Result<Option<Value>, LineFault>
    ensures { result ≡ in_script (value_or_none_of word.now) }
{
    match value_or_none(word) {
        Ok(value) => Ok(value),
        Err(fault) => Err(LineFault::Script(fault)),
    }
}

/// The atom that the cache has this value, or none, at a key.
#[tactic(auto, unfolding(crate::specs::Atoms::cached_of))]
fn cached_of(key: &[u8], value: &[u8]) -> Result<Atom, LineFault>
    ensures { result ≡ cached_of key.now value.now }
{
    let key = key_or_fault(key)?;
    let value = value_or_fault(value)?;
    Ok(Atom::Cached { key, value })
}

/// The atom that the store has this value, or none, at a key.
#[tactic(auto, unfolding(crate::specs::Atoms::stored_of))]
fn stored_of(key: &[u8], value: &[u8]) -> Result<Atom, LineFault>
    ensures { result ≡ stored_of key.now value.now }
{
    let key = key_or_fault(key)?;
    let value = value_or_fault(value)?;
    Ok(Atom::Stored { key, value })
}

/// The atom that a call has this reply.
#[tactic(auto, unfolding(crate::specs::Atoms::replied_of))]
fn replied_of(threads: &[Vec<Item>], call: &[u8], reply: &[u8]) -> Result<Atom, LineFault>
    ensures { result ≡ replied_of (map (λ t. t.items) threads.now) call.now reply.now }
{
    let (thread, item) = numbers_of(call)?;
    let named = call_named(threads, thread, item)?;
    let reply = reply_said(named.kind, reply)?;
    Ok(Atom::Replied {
        thread: named.thread,
        call: named.call,
        reply,
    })
}

/// The atom of two words that stood on both sides of an equals sign.
fn pair_of(threads: &[Vec<Item>], what: &[u8], says: &[u8]) -> Result<Atom, LineFault>
    ensures { result ≡ pair_of (map (λ t. t.items) threads.now) what.now says.now }
{
    if begins_with("cache.", what) {
        return cached_of(behind(6, what), says);
    }
    if begins_with("store.", what) {
        return stored_of(behind(6, what), says);
    }
    replied_of(threads, what, says)
}

/// The atom of a word, about an outcome of these threads.
pub(crate) fn atom_of(threads: &[Vec<Item>], word: &[u8]) -> Result<Atom, LineFault>
    ensures { result ≡ atom_of (map (λ t. t.items) threads.now) word.now }
{
    if is(word, "coherent") {
        return Ok(Atom::Coherent);
    }
    if is(word, "differs") {
        return Ok(Atom::Differs);
    }
    match halves_of(b'=', word) {
        None => Err(LineFault::Script(Fault::BadLine)),
        Some((what, says)) => pair_of(threads, what, says),
    }
}

/// Whether the left side names a key, or an item.
fn is_about(what: &[u8]) -> bool
    ensures { result ≡ is_about what.now }
{
    begins_with("cache.", what) || begins_with("store.", what) || numbers_of(what).is_ok()
}

/// Whether a word has the shape of an atom.
pub(crate) fn is_atom(word: &[u8]) -> bool
    ensures { result ≡ is_atom word.now }
{
    if is(word, "coherent") || is(word, "differs") {
        return true;
    }
    match halves_of(b'=', word) {
        None => false,
        Some((what, _)) => is_about(what),
    }
}

/// Whether each word has the shape of an atom.
fn all_atoms(words: &[&[u8]]) -> bool
    ensures { result ≡ list_all is_atom (map (λ w. w.now) words.now) }
{
    for word in words {
        if !is_atom(word) {
            return false;
        }
    }
    true
}

/// Whether each word has the shape of an atom, and there is at least one.
pub(crate) fn are_atoms(words: &[&[u8]]) -> bool
    ensures { result ≡ are_atoms (map (λ w. w.now) words.now) }
{
    match words {
        [] => false,
        _ => all_atoms(words),
    }
}

fn push_atom(atoms: &mut Vec<Atom>, atom: Atom) -> Result<(), AllocError>
    ensures { OnOk result (atoms.new.items ≡ atoms.old.items ++ atom ∷ []) }
{
    let _types: Option<&(Reply, Key, Value)> = None;
    atoms.push(atom)?;
    Ok(())
}

/// Appends the atom of a word, about these threads.
fn add_atom(atoms: &mut Vec<Atom>, threads: &[Vec<Item>], word: &[u8]) -> Result<(), LineError>
    ensures { ReadsAs (ok_with atoms.new.items result)
        (atom_onto (map (λ t. t.items) threads.now) atoms.old.items word.now) }
{
    let _types: Option<&(Reply, Key, Option<Value>)> = None;
    let atom = atom_of(threads, word)?;
    push_atom(atoms, atom)?;
    Ok(())
}

/// Appends the atoms of the words, about these threads.
pub(crate) fn add_atoms(
    atoms: &mut Vec<Atom>,
    threads: &[Vec<Item>],
    words: &[&[u8]],
) -> Result<(), LineError>
    ensures { ReadsAs (ok_with atoms.new.items result)
        (atoms_from (map (λ t. t.items) threads.now) atoms.old.items (map (λ w. w.now) words.now)) }
{
    for word in words {
        add_atom(atoms, threads, word)?;
    }
    Ok(())
}
