//! The keys that a record names, each with the places of the lines that name it.
ghost use Rattle.std.specs.Prelude.{◌≡◌, ◌++◌, ◌∷◌, [], map, IfOk, OnOk};
ghost use Rattle.jc_record.specs.Notes.{note_value};
ghost use Rattle.jc_record.specs.Index.{index_of, key_alone, keys_in, keys_named, keys_of_bulk, keys_of_line, keys_of_words, mention, mentions, new_index, places_at, with_named, with_new, with_word};

use crate::note::{Note, NoteKind, behind};
use crate::told::call_line;
use indexmap::IndexSet;
use jc_text::read::keys::Keys;
use jc_text::read::line::{BulkLine, Line};
use jc_text::read::words::{key, key_text, split};
use jc_text::{Fault, ReadError};
use jc_types::Key;
use std::alloc::{AllocError, Global};
use std::marker::Model;

/// A line that names a key.
#[derive(Clone, Copy, Debug, PartialEq, Eq)]
pub(crate) struct Mention {
    /// The number of the key, from 0.
    pub key: usize,
    /// The place of the line.
    pub place: usize,
}

/// The keys that a record names, in the order in which it does.
#[derive(Drop)]
pub(crate) struct Index {
    /// The keys.
    pub keys: IndexSet<Key>,
    /// The lines that name them, in their order.
    pub mentions: Vec<Mention>,
    /// The places of calls of every key.
    pub every: Vec<usize>,
}

impl Model for Index {
    ghost use Rattle.jc_record.specs.Index.{IndexValue};

    ghost Value = { IndexValue };

    ghost view = { λ x. record { keys = x.keys.keys; mentions = x.mentions.items; every = x.every.items } };
}

fn add_new(keys: &mut Keys, key: Key) -> Result<(), AllocError>
    ensures { OnOk result (keys.new ≡ with_new keys.old key) }
{
    let _is_new = keys.add(key)?;
    Ok(())
}

fn add_word(keys: &mut Keys, key: Result<Key, Fault>) -> Result<(), AllocError>
    ensures { OnOk result (keys.new ≡ with_word keys.old key) }
{
    match key {
        Ok(key) => add_new(keys, key),
        Err(_) => Ok(()),
    }
}

/// The keys before the equals signs of words.
fn keys_of_words(alloc: Global, words: &[&[u8]]) -> Result<Keys, AllocError>
    ensures { IfOk result (λ keys. keys ≡ keys_of_words [] (map (λ w. w.now) words.now)) }
{
    let mut keys = Keys::new(alloc);
    for word in words {
        add_word(&mut keys, key(key_text(word)))?;
    }
    Ok(keys)
}

fn keys_of_bulk(alloc: Global, words: &[&[u8]], bulk: BulkLine) -> Result<Option<Keys>, AllocError>
    ensures { IfOk result (λ keys. keys ≡ keys_of_bulk (map (λ w. w.now) words.now) bulk) }
{
    match bulk {
        BulkLine::GetAll(keys) => Ok(Some(keys)),
        BulkLine::PutAll(_) => Ok(Some(keys_of_words(alloc, behind(1, words))?)),
        BulkLine::RemoveAll(keys) => Ok(Some(keys)),
        BulkLine::RemoveEvery => Ok(None),
        BulkLine::Clear => Ok(None),
        BulkLine::LoadAll { replace: _, keys } => Ok(Some(keys)),
        BulkLine::InvokeAll(keys) => Ok(Some(keys)),
    }
}

fn keys_of_line(alloc: Global, words: &[&[u8]], line: Line) -> Result<Option<Keys>, AllocError>
    ensures { IfOk result (λ keys. keys ≡ keys_of_line (map (λ w. w.now) words.now) line) }
{
    match line {
        Line::Begin(_, _, operation) => {
            let mut keys = Keys::new(alloc);
            add_new(&mut keys, operation.key)?;
            Ok(Some(keys))
        }
        Line::BeginBulk(_, _, bulk) => keys_of_bulk(alloc, words, bulk),
        _ => Ok(Some(Keys::new(alloc))),
    }
}

/// The key of the first word.
fn key_alone(alloc: Global, words: &[&[u8]]) -> Result<Keys, AllocError>
    ensures { IfOk result (λ keys. keys ≡ key_alone (map (λ w. w.now) words.now)) }
{
    let mut keys = Keys::new(alloc);
    if let [first, ..] = words {
        add_word(&mut keys, key(first))?;
    }
    Ok(keys)
}

fn keys_of_call(alloc: Global, words: &[&[u8]]) -> Result<Option<Keys>, AllocError>
    ensures { IfOk result (λ keys. keys ≡ keys_in (map (λ w. w.now) words.now) NoteKind.Call) }
{
    let mut line = Line::Audit;
    match call_line(alloc, words, &mut line) {
        Ok(()) => keys_of_line(alloc, words, line),
        Err(ReadError::Fault(_)) => Ok(Some(Keys::new(alloc))),
        Err(ReadError::Memory) => Err(AllocError),
    }
}

/// The keys that a line names; none if it is a call of every key. `words` is room for words.
#[tactic(auto, unfolding(crate::specs::Index::keys_named))]
fn keys_named<'a>(
    alloc: Global,
    note: &Note<'a>,
    words: &mut Vec<&'a [u8]>,
) -> Result<Option<Keys>, AllocError>
    ensures { IfOk result (λ keys. keys ≡ keys_named (note_value note.now)) }
{
    split(note.text, words)?;
    let rest = behind(note.skip, words);
    match note.kind {
        NoteKind::Set | NoteKind::Foreign => Ok(Some(key_alone(alloc, rest)?)),
        NoteKind::Call => keys_of_call(alloc, rest),
        _ => Ok(Some(Keys::new(alloc))),
    }
}

fn push_place(list: &mut Vec<usize>, place: usize) -> Result<(), AllocError>
    ensures { OnOk result (list.new.items ≡ list.old.items ++ place ∷ []) }
{
    list.push(place)?;
    Ok(())
}

fn push_mention(mentions: &mut Vec<Mention>, one: Mention) -> Result<(), AllocError>
    ensures { OnOk result (mentions.new.items ≡ mentions.old.items ++ one ∷ []) }
{
    mentions.push(one)?;
    Ok(())
}

impl Index {
    fn new(alloc: Global) -> Index
        ensures { result ≡ new_index }
    {
        Index {
            keys: IndexSet::new(alloc),
            mentions: Vec::new(alloc),
            every: Vec::new(alloc),
        }
    }

    /// One more place of a key.
    fn mention(&mut self, place: usize, key: &Key) -> Result<(), AllocError>
        ensures { OnOk result (self.new ≡ mention place self.old key.now) }
    {
        let (key, _is_new) = self.keys.insert_full(*key)?;
        push_mention(&mut self.mentions, Mention { key, place })
    }

    fn mention_all(&mut self, place: usize, keys: &[Key]) -> Result<(), AllocError>
        ensures { OnOk result (self.new ≡ mentions place self.old keys.now) }
    {
        for key in keys {
            self.mention(place, key)?;
        }
        Ok(())
    }

    fn add(&mut self, place: usize, keys: Option<Keys>) -> Result<(), AllocError>
        ensures { OnOk result (self.new ≡ with_named place self.old keys) }
    {
        match keys {
            None => push_place(&mut self.every, place),
            Some(keys) => self.mention_all(place, keys.copy()?.as_slice()),
        }
    }
}

/// The places of the lines that mention the key with a number.
pub(crate) fn places_at(
    alloc: Global,
    key: usize,
    mentions: &[Mention],
) -> Result<Vec<usize>, AllocError>
    ensures { IfOk result (λ places. places.items ≡ places_at key mentions.now) }
{
    let mut places = Vec::new(alloc);
    for one in mentions {
        if one.key == key {
            push_place(&mut places, one.place)?;
        }
    }
    Ok(places)
}

/// The index of some lines.
pub(crate) fn index_of(alloc: Global, notes: &[Note<'_>]) -> Result<Index, AllocError>
    ensures { IfOk result (λ index. index ≡ index_of (map note_value notes.now)) }
{
    let mut index = Index::new(alloc);
    let mut words = Vec::new(alloc);
    for place in 0..notes.len() {
        let keys = keys_named(alloc, &notes[place], &mut words)?;
        index.add(place, keys)?;
    }
    Ok(index)
}
