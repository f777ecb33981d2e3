//! The calls of a record at one key.
ghost use Rattle.std.specs.Prelude.{◌≡◌, ◌++◌, ◌∷◌, [], map, drop, IfOk, OnOk};
ghost use Rattle.jc_record.specs.Notes.{note_value, rest_of};
ghost use Rattle.jc_record.specs.AtKey.{at_note, at_note_of, at_places, call_value, change_of, foreign_call, new_at_key, second_word, with_begun, with_foreign, with_part, with_stored};

use crate::names::stored_told;
use crate::note::{Note, NoteKind, behind};
use crate::part::Part;
use crate::part_begin::part_begun;
use jc_check::{Recorded, Role, Stored};
use jc_model::{Change, Op, Out, Reply};
use jc_text::Fault;
use jc_text::read::words::{split, value_or_none};
use jc_types::{Key, Value};
use std::alloc::{AllocError, Global};
use std::marker::Model;

/// The calls at a key.
#[derive(Drop)]
pub(crate) struct KeyCalls {
    /// What the store has at first.
    pub store: Stored,
    /// The calls, in the order of the lines that begin them.
    pub calls: Vec<Recorded>,
    /// Whether one of them asked its loader or writer twice, or answered before they did.
    pub odd: bool,
}

impl Model for KeyCalls {
    ghost use Rattle.std.specs.Prelude.{map};
    ghost use Rattle.jc_record.specs.AtKey.{AtKey, call_value};

    ghost Value = { AtKey };

    ghost view = { λ k. record { store = k.store; calls = map call_value k.calls.items; odd = k.odd } };
}

/// The second of some words; no bytes if there is none.
fn second_word<'a>(words: &[&'a [u8]]) -> &'a [u8]
    ensures { result.now ≡ second_word (map (λ w. w.now) words.now) }
{
    match words {
        [_, second, ..] => second,
        _ => &[],
    }
}

/// The second of a line's own words. `words` is room for words.
fn second_of<'a>(note: &Note<'a>, words: &mut Vec<&'a [u8]>) -> Result<&'a [u8], AllocError>
    ensures { IfOk result (λ word. word.now ≡ second_word (rest_of (note_value note.now))) }
{
    split(note.text, words)?;
    Ok(second_word(behind(note.skip, words)))
}

fn change_of(value: Option<Value>) -> Change
    ensures { result ≡ change_of value }
{
    match value {
        None => Change::Delete,
        Some(value) => Change::Write(value),
    }
}

/// What another program did.
fn foreign_call(alloc: Global, note: &Note<'_>, value: Option<Value>) -> Recorded
    ensures { call_value result ≡ foreign_call (note_value note.now) value }
{
    Recorded {
        role: Role::Foreign,
        thread: note.thread,
        began: note.at,
        ended: Some(note.at),
        op: Op::Get,
        out: Out::nothing_said(),
        change: Some(change_of(value)),
        sights: Vec::new(alloc),
        reply: Some(Reply::Unit),
    }
}

fn push_call(calls: &mut Vec<Recorded>, call: Recorded) -> Result<(), AllocError>
    ensures { OnOk result (map call_value calls.new.items ≡ map call_value calls.old.items ++ call_value call ∷ []) }
{
    calls.push(call)?;
    Ok(())
}

/// The lines from a place on.
fn notes_from<'a, 'b>(notes: &'b [Note<'a>], place: usize) -> &'b [Note<'a>]
    ensures { result.now ≡ drop place notes.now }
{
    if notes.len() < place {
        &[]
    } else {
        &notes[place..]
    }
}

impl KeyCalls {
    /// No call, and nothing in the store.
    pub(crate) fn new(alloc: Global) -> KeyCalls
        ensures { result ≡ new_at_key }
    {
        KeyCalls {
            store: Stored::Known(None),
            calls: Vec::new(alloc),
            odd: false,
        }
    }

    fn set(&mut self, stored: Result<Stored, Fault>)
        ensures { self.new ≡ with_stored self.old stored }
    {
        if let Ok(stored) = stored {
            self.store = stored;
        }
    }

    fn add_foreign(
        &mut self,
        alloc: Global,
        note: &Note<'_>,
        value: Result<Option<Value>, Fault>,
    ) -> Result<(), AllocError>
        ensures { OnOk result (self.new ≡ with_foreign self.old (note_value note.now) value) }
    {
        match value {
            Ok(value) => push_call(&mut self.calls, foreign_call(alloc, note, value)),
            Err(_) => Ok(()),
        }
    }

    fn add_part(&mut self, alloc: Global, write_through: bool, part: Part) -> Result<(), AllocError>
        ensures { OnOk result (self.new ≡ with_part write_through self.old part) }
    {
        let odd = part.is_odd();
        push_call(&mut self.calls, part.finish(alloc, write_through))?;
        self.odd = self.odd || odd;
        Ok(())
    }

    /// Adds the call of a line, with its lines among those after it.
    fn add_call<'a>(
        &mut self,
        alloc: Global,
        key: &Key,
        write_through: bool,
        note: &Note<'a>,
        after: &[Note<'a>],
        words: &mut Vec<&'a [u8]>,
    ) -> Result<(), AllocError>
        ensures { OnOk result (self.new ≡ at_note_of key.now write_through self.old (note_value note.now) (map note_value after.now) NoteKind.Call) }
    {
        match part_begun(alloc, key, note, words)? {
            None => Ok(()),
            Some(mut part) => {
                part.add_all(alloc, key, note.call, after, words)?;
                self.add_part(alloc, write_through, part)
            }
        }
    }

    fn add_note<'a>(
        &mut self,
        alloc: Global,
        key: &Key,
        write_through: bool,
        note: &Note<'a>,
        after: &[Note<'a>],
        words: &mut Vec<&'a [u8]>,
    ) -> Result<(), AllocError>
        ensures { OnOk result (self.new ≡ at_note_of key.now write_through self.old (note_value note.now) (map note_value after.now) (note.now).kind) }
    {
        match note.kind {
            NoteKind::Set => {
                let word = second_of(note, words)?;
                self.set(stored_told(word));
                Ok(())
            }
            NoteKind::Foreign => {
                let word = second_of(note, words)?;
                self.add_foreign(alloc, note, value_or_none(word))
            }
            NoteKind::Call => self.add_call(alloc, key, write_through, note, after, words),
            _ => Ok(()),
        }
    }

    /// Adds what the first of some lines says of the key.
    #[tactic(auto, unfolding(crate::specs::AtKey::at_note))]
    fn add_first<'a>(
        &mut self,
        alloc: Global,
        key: &Key,
        write_through: bool,
        notes: &[Note<'a>],
        words: &mut Vec<&'a [u8]>,
    ) -> Result<(), AllocError>
        ensures { OnOk result (self.new ≡ at_note key.now write_through self.old (map note_value notes.now)) }
    {
        match notes {
            [] => Ok(()),
            [note, after @ ..] => self.add_note(alloc, key, write_through, note, after, words),
        }
    }

    /// Adds what the line at a place says of the key.
    fn add_place<'a>(
        &mut self,
        alloc: Global,
        key: &Key,
        write_through: bool,
        notes: &[Note<'a>],
        place: usize,
        words: &mut Vec<&'a [u8]>,
    ) -> Result<(), AllocError>
        ensures { OnOk result (self.new ≡ at_note key.now write_through self.old (drop place (map note_value notes.now))) }
    {
        self.add_first(alloc, key, write_through, notes_from(notes, place), words)
    }

    /// Adds what the lines at some places say of the key.
    pub(crate) fn add_places<'a>(
        &mut self,
        alloc: Global,
        key: &Key,
        write_through: bool,
        notes: &[Note<'a>],
        places: &[usize],
        words: &mut Vec<&'a [u8]>,
    ) -> Result<(), AllocError>
        ensures { OnOk result (self.new ≡ at_places key.now write_through (map note_value notes.now) self.old places.now) }
    {
        for place in places {
            self.add_place(alloc, key, write_through, notes, *place, words)?;
        }
        Ok(())
    }
}
