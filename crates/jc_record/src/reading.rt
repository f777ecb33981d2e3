//! A record, read line by line.
ghost use Rattle.std.specs.Prelude.{◌≡◌, ◌++◌, ◌∷◌, [], map, Ok, OnOk};
ghost use Rattle.jc_text.specs.Lines.{Gives, ok_with};
ghost use Rattle.jc_text.specs.Pieces.{pieces_of};
ghost use Rattle.jc_text.specs.Words.{words_of};
ghost use Rattle.jc_record.specs.Notes.{note_value, rest_of};
ghost use Rattle.jc_record.specs.Reading.{after_first, after_line, after_note, after_open, after_other, after_set, after_words, are_set, fault_at, flags_told, if_open, is_blank, is_remark, noted, nothing_read, record_from, record_of, set_note, ReadsLines, ReadsRecord};

use crate::names::stored_told;
use crate::note::{Note, NoteKind, behind, note_of};
use crate::open_calls::{OpenCall, open_after};
use jc_text::lines::first_line;
use jc_text::read::words::{is, key, split};
use jc_text::{Fault, ReadError};
use jc_types::Value;
use std::alloc::{AllocError, Global};
use std::marker::Model;

/// Why a record isn't read.
#[derive(Clone, Copy, Debug, PartialEq, Eq)]
pub enum RecordFault {
    /// An allocation failed.
    OutOfMemory,
    /// The line with this number is the first with a fault. The first line of a record is 1.
    Line(u64, Fault),
}

/// The parts of a record whose lines were read.
#[derive(Drop)]
struct Reading<'a> {
    config: Option<(bool, bool)>,
    last: u64,
    under_way: Vec<OpenCall>,
    notes: Vec<Note<'a>>,
}

impl<'a> Model for Reading<'a> {
    ghost use Rattle.std.specs.Prelude.{map};
    ghost use Rattle.jc_record.specs.Notes.{note_value};
    ghost use Rattle.jc_record.specs.Reading.{ReadSoFar};

    ghost Value = { ReadSoFar };

    ghost view = { λ r. record {
      config = r.config;
      last = r.last;
      under_way = r.under_way.items;
      notes = map note_value r.notes.items;
    } };
}

/// A record that was read.
#[derive(Drop)]
pub(crate) struct Record<'a> {
    /// Whether read-through and write-through are on.
    pub config: (bool, bool),
    /// The lines.
    pub notes: Vec<Note<'a>>,
}

fn flags_told(words: &[&[u8]]) -> Result<(bool, bool), Fault>
    ensures { result ≡ flags_told (map (λ w. w.now) words.now) }
{
    match words {
        [] => Ok((false, false)),
        [a] if is(a, "read") => Ok((true, false)),
        [a] if is(a, "write") => Ok((false, true)),
        [a, b] if is(a, "read") && is(b, "write") => Ok((true, true)),
        _ => Err(Fault::BadLine),
    }
}

/// Tests the words after `set`.
fn check_set(words: &[&[u8]]) -> Result<(), Fault>
    ensures { result ≡ are_set (map (λ w. w.now) words.now) }
{
    let _types: Option<&(Value, Option<Value>)> = None;
    match words {
        [k, v] => {
            let _key = key(k)?;
            let _stored = stored_told(v)?;
            Ok(())
        }
        _ => Err(Fault::BadLine),
    }
}

fn set_note<'a>(text: &'a [u8]) -> Note<'a>
    ensures { note_value result ≡ set_note text.now }
{
    Note {
        at: 0,
        thread: 0,
        call: 0,
        kind: NoteKind::Set,
        text,
        skip: 1,
    }
}

fn push_note<'a>(notes: &mut Vec<Note<'a>>, note: Note<'a>) -> Result<(), AllocError>
    ensures { OnOk result (map note_value notes.new.items ≡ map note_value notes.old.items ++ note_value note.entry ∷ []) }
{
    notes.push(note)?;
    Ok(())
}

/// Whether a line says nothing: it is empty, or its first byte is #.
fn is_remark(text: &[u8]) -> bool
    ensures { result ≡ is_remark text.now }
{
    match text {
        [] => true,
        [first, ..] => *first == b'#',
    }
}

impl<'a> Reading<'a> {
    fn new(alloc: Global) -> Reading<'a>
        ensures { result ≡ nothing_read }
    {
        Reading {
            config: None,
            last: 0,
            under_way: Vec::new(alloc),
            notes: Vec::new(alloc),
        }
    }

    /// Tests that the line that opens the record was read.
    fn check_open(&self) -> Result<(), Fault>
        ensures { result ≡ if_open self.now.config (Ok tt) }
    {
        if self.config.is_none() {
            return Err(Fault::NotOpen);
        }
        Ok(())
    }

    /// Takes what is on.
    fn open(&mut self, words: &[&[u8]]) -> Result<(), Fault>
        ensures { ok_with self.new result ≡ after_open self.old (map (λ w. w.now) words.now) }
    {
        let flags = flags_told(words)?;
        if self.config.is_some() {
            return Err(Fault::OpenTwice);
        }
        self.config = Some(flags);
        Ok(())
    }

    /// Takes what the store has at a key at first.
    fn set(&mut self, text: &'a [u8], words: &[&[u8]]) -> Result<(), ReadError>
        ensures { Gives (ok_with self.new result) (after_set self.old text.now (map (λ w. w.now) words.now)) }
    {
        check_set(words)?;
        self.check_open()?;
        push_note(&mut self.notes, set_note(text))?;
        Ok(())
    }

    /// Takes a line of a call. `words` are all words of it.
    fn add(&mut self, alloc: Global, note: Note<'a>, words: &[&[u8]]) -> Result<(), ReadError>
        requires { rest_of (note_value note) ≡ map (λ w. w.now) words.now }
        ensures { Gives (ok_with self.new result) (noted self.old (note_value note.entry)) }
    {
        if note.at < self.last {
            return Err(ReadError::Fault(Fault::NotRising));
        }
        open_after(alloc, &mut self.under_way, note.call, note.kind, words)?;
        self.last = note.at;
        push_note(&mut self.notes, note)?;
        Ok(())
    }

    /// Takes an event, from its words.
    fn event(
        &mut self,
        alloc: Global,
        number: u64,
        text: &'a [u8],
        words: &[&'a [u8]],
    ) -> Result<(), ReadError>
        requires { map (λ w. w.now) words.now ≡ words_of text.now }
        ensures { Gives (ok_with self.new result) (after_note self.old number text.now (map (λ w. w.now) words.now)) }
    {
        let note = note_of(number, text, words)?;
        self.check_open()?;
        self.add(alloc, note, behind(note.skip, words))
    }

    /// Takes a line, from its words.
    fn line_of_words(
        &mut self,
        alloc: Global,
        number: u64,
        text: &'a [u8],
        words: &[&'a [u8]],
    ) -> Result<(), ReadError>
        requires { map (λ w. w.now) words.now ≡ words_of text.now }
        ensures { Gives (ok_with self.new result) (after_words self.old number text.now (map (λ w. w.now) words.now)) }
    {
        match words {
            [] => Err(ReadError::Fault(Fault::BadLine)),
            [first, rest @ ..] => {
                if is(first, "open") {
                    return Ok(self.open(rest)?);
                }
                if is(first, "set") {
                    return self.set(text, rest);
                }
                self.event(alloc, number, text, words)
            }
        }
    }

    /// Reads one line.
    #[tactic(auto, unfolding(crate::specs::Reading::after_line))]
    fn read_line(
        &mut self,
        alloc: Global,
        number: u64,
        text: &'a [u8],
        words: &mut Vec<&'a [u8]>,
    ) -> Result<(), ReadError>
        ensures { Gives (ok_with self.new result) (after_line self.old number text.now) }
    {
        if number == 1 {
            if is(text, "history 1") {
                return Ok(());
            }
            return Err(ReadError::Fault(Fault::BadLine));
        }
        if is_remark(text) {
            return Ok(());
        }
        split(text, words)?;
        self.line_of_words(alloc, number, text, words)
    }
}

/// Whether there are no bytes.
fn is_blank(bytes: &[u8]) -> bool
    ensures { result ≡ is_blank bytes.now }
{
    match bytes {
        [] => true,
        [_, ..] => false,
    }
}

fn fault_at(number: u64, error: ReadError) -> RecordFault
    ensures { result ≡ fault_at number error }
{
    match error {
        ReadError::Memory => RecordFault::OutOfMemory,
        ReadError::Fault(fault) => RecordFault::Line(number, fault),
    }
}

/// Reads each line that ends in a line feed. It returns the number of the next line, and whether no bytes are left.
fn read_lines<'a>(
    alloc: Global,
    input: &'a [u8],
    reading: &mut Reading<'a>,
) -> Result<(u64, bool), RecordFault>
    ensures { ReadsLines result reading.new (record_from reading.old 1 (pieces_of input.now)) }
{
    let mut words = Vec::new(alloc);
    let mut rest = input;
    let mut number: u64 = 1;
    while let Some((text, after)) = first_line(rest) {
        match reading.read_line(alloc, number, text, &mut words) {
            Ok(()) => {}
            Err(error) => return Err(fault_at(number, error)),
        }
        rest = after;
        number += 1;
    }
    Ok((number, is_blank(rest)))
}

/// Reads a record, up to the first line with a fault. A record without an `open` has its fault at the line after its last.
pub(crate) fn read_record<'a>(alloc: Global, input: &'a [u8]) -> Result<Record<'a>, RecordFault>
    ensures { ReadsRecord result (record_of input.now) }
{
    let mut reading = Reading::new(alloc);
    let (number, ended) = read_lines(alloc, input, &mut reading)?;
    if !ended {
        return Err(RecordFault::Line(number, Fault::CutLine));
    }
    let Reading {
        config,
        last: _,
        under_way: _,
        notes,
    } = reading;
    match config {
        Some(config) => Ok(Record { config, notes }),
        None => Err(RecordFault::Line(number, Fault::NotOpen)),
    }
}
