//! The lines of a call, at a key.
ghost use Rattle.std.specs.Prelude.{◌≡◌, Some, None, map, drop, IfOk, OnOk, MatchOption};
ghost use Rattle.jc_text.specs.Words.{distinct_keys_of, key_of, pairs_of};
ghost use Rattle.jc_record.specs.Notes.{note_value, rest_of};
ghost use Rattle.jc_record.specs.Words.{run_of, told_of};
ghost use Rattle.jc_record.specs.AtKey.{change_said, code_of, form_at, has_call, is_done, is_end_kind, is_key, is_of, load_failed, loads_said, part_after, part_after_words, part_over, processed, reply_at, reply_each, reply_found, reply_of_get_all, reply_one, reply_unfound, value_found, with_reply, with_written, write_failed, write_failed_at, writes_said};

use crate::names::{is_left, is_named, said_of};
use crate::note::{Note, NoteKind, behind};
use crate::part::{Ask, Part};
use crate::run_words::run_of;
use crate::told::{AnswerForm, Told, form_of_op, told_of};
use jc_model::{Change, LoadAnswer, Reply, WriteAnswer};
use jc_text::read::words::{key, number, split};
use jc_text::{Fault, ReadError};
use jc_types::{Key, Refusal, Value};
use std::alloc::{AllocError, Global};

fn code_of(words: &[&[u8]]) -> Result<u32, Fault>
    ensures { result ≡ code_of (map (λ w. w.now) words.now) }
{
    match words {
        [] => number(&[]),
        [code, ..] => number(code),
    }
}

fn value_found(answer: LoadAnswer) -> Option<Value>
    ensures { result ≡ value_found answer }
{
    match answer {
        LoadAnswer::Found(value) => Some(value),
        _ => None,
    }
}

fn reply_unfound(answer: &LoadAnswer) -> Option<Reply>
    ensures { result ≡ reply_unfound answer.now }
{
    match answer {
        LoadAnswer::Failed(code) => Some(Reply::Fault(Refusal::LoaderFailed(*code))),
        _ => None,
    }
}

fn reply_one(told: &Told) -> Option<Reply>
    ensures { result ≡ reply_one told.now }
{
    match told {
        Told::Reply(reply) => Some(*reply),
        _ => None,
    }
}

fn is_done(told: &Told) -> bool
    ensures { result ≡ is_done told.now }
{
    matches!(told, Told::Reply(Reply::Unit))
}

/// Whether a word is this key.
fn is_key(wanted: &Key, word: &[u8]) -> bool
    ensures { result ≡ is_key wanted.now (key_of word.now) }
{
    match key(word) {
        Ok(other) => other == *wanted,
        Err(_) => false,
    }
}

/// Whether a line has the number of a call.
fn has_call(kind: NoteKind) -> bool
    ensures { result ≡ has_call kind }
{
    !matches!(kind, NoteKind::Set | NoteKind::Foreign)
}

fn is_of(call: u32, note: &Note<'_>) -> bool
    ensures { result ≡ is_of call (note_value note.now) }
{
    note.call == call && has_call(note.kind)
}

fn is_end_kind(kind: NoteKind) -> bool
    ensures { result ≡ is_end_kind kind }
{
    matches!(kind, NoteKind::Is)
}

impl Part {
    fn form(&self) -> AnswerForm
        ensures { result ≡ form_at self.now self.now.ask }
    {
        match self.ask {
            Ask::One => form_of_op(&self.op),
            Ask::GetAll => AnswerForm::All,
            Ask::Each | Ask::Every => AnswerForm::Unit,
        }
    }

    /// What a call of many keys answered, by what it got outside.
    fn reply_each(&self, told: &Told) -> Option<Reply>
        ensures { result ≡ reply_each self.now told.now }
    {
        if is_done(told) || self.is_answered() {
            return Some(self.op.reply_after(None, &self.out()));
        }
        None
    }

    /// What a `getAll` answered.
    fn reply_of_get_all(
        &self,
        alloc: Global,
        key: &Key,
        words: &[&[u8]],
        told: &Told,
    ) -> Result<Option<Reply>, AllocError>
        ensures { IfOk result (λ reply. reply ≡ reply_of_get_all key.now self.now (map (λ w. w.now) words.now) told.now) }
    {
        match told {
            Told::All => match said_of(alloc, key, behind(1, words))? {
                None => Ok(None),
                Some(answer) => Ok(Some(Reply::Value(value_found(answer)))),
            },
            _ => Ok(reply_unfound(&self.load)),
        }
    }

    fn reply_at(
        &self,
        alloc: Global,
        key: &Key,
        words: &[&[u8]],
        told: &Told,
    ) -> Result<Option<Reply>, AllocError>
        ensures { IfOk result (λ reply. reply ≡ reply_at key.now self.now (map (λ w. w.now) words.now) self.now.ask told.now) }
    {
        match self.ask {
            Ask::One => Ok(reply_one(told)),
            Ask::GetAll => self.reply_of_get_all(alloc, key, words, told),
            Ask::Each | Ask::Every => Ok(self.reply_each(told)),
        }
    }

    /// The call has ended.
    fn end(
        &mut self,
        alloc: Global,
        key: &Key,
        note: &Note<'_>,
        words: &[&[u8]],
    ) -> Result<(), AllocError>
        ensures { OnOk result (self.new ≡ with_reply key.now self.old (note_value note.now) (map (λ w. w.now) words.now)
            (told_of (form_at self.old self.old.ask) (map (λ w. w.now) words.now))) }
    {
        match told_of(alloc, self.form(), words) {
            Ok(told) => {
                let reply = self.reply_at(alloc, key, words, &told)?;
                self.ended = Some(note.at);
                self.reply = reply;
                Ok(())
            }
            Err(ReadError::Fault(_)) => {
                self.ended = Some(note.at);
                Ok(())
            }
            Err(ReadError::Memory) => Err(AllocError),
        }
    }

    fn loads(&mut self, note: &Note<'_>, said: Option<LoadAnswer>)
        ensures { self.new ≡ loads_said self.old (note_value note.now) said }
    {
        if let Some(answer) = said {
            self.load(note, answer);
        }
    }

    fn load_fails(&mut self, note: &Note<'_>, code: Result<u32, Fault>)
        ensures { self.new ≡ load_failed self.old (note_value note.now) code }
    {
        if let Ok(code) = code {
            self.load(note, LoadAnswer::Failed(code));
        }
    }

    fn ask_to_write(&mut self, note: &Note<'_>, said: Option<LoadAnswer>)
        ensures { self.new ≡ change_said self.old (note_value note.now) said }
    {
        if let Some(LoadAnswer::Found(value)) = &said {
            self.ask_write(note, Change::Write(*value));
        }
    }

    /// The writer returned.
    fn writes(
        &mut self,
        alloc: Global,
        key: &Key,
        note: &Note<'_>,
        words: &[&[u8]],
    ) -> Result<(), AllocError>
        ensures { OnOk result (self.new ≡ with_written self.old (note_value note.now) (writes_said key.now (map (λ w. w.now) words.now))) }
    {
        if is_left(alloc, key, words)? {
            self.write(note, WriteAnswer::Failed(0));
        } else {
            self.write(note, WriteAnswer::Done);
        }
        Ok(())
    }

    /// The writer failed with this code.
    fn write_fails_with(
        &mut self,
        alloc: Global,
        key: &Key,
        note: &Note<'_>,
        code: u32,
        words: &[&[u8]],
    ) -> Result<(), AllocError>
        ensures { OnOk result (self.new ≡ with_written self.old (note_value note.now) (write_failed_at key.now code (map (λ w. w.now) words.now))) }
    {
        match words {
            [] => self.write(note, WriteAnswer::Failed(code)),
            [_, ..] => {
                if is_left(alloc, key, words)? {
                    self.write(note, WriteAnswer::Failed(code));
                } else {
                    self.write(note, WriteAnswer::Done);
                }
            }
        }
        Ok(())
    }

    fn write_fails(
        &mut self,
        alloc: Global,
        key: &Key,
        note: &Note<'_>,
        words: &[&[u8]],
    ) -> Result<(), AllocError>
        ensures { OnOk result (self.new ≡ write_failed key.now self.old (note_value note.now) (map (λ w. w.now) words.now) (code_of (map (λ w. w.now) words.now))) }
    {
        match code_of(words) {
            Ok(code) => self.write_fails_with(alloc, key, note, code, behind(1, words)),
            Err(_) => Ok(()),
        }
    }

    /// The processor ran, at the key that the words name first.
    fn run(&mut self, alloc: Global, key: &Key, words: &[&[u8]]) -> Result<(), AllocError>
        ensures { OnOk result (self.new ≡ processed key.now self.old (map (λ w. w.now) words.now)) }
    {
        match words {
            [] => Ok(()),
            [k, rest @ ..] => {
                if !is_key(key, k) {
                    return Ok(());
                }
                match run_of(alloc, rest) {
                    Ok(run) => {
                        self.process(run);
                        Ok(())
                    }
                    Err(ReadError::Fault(_)) => Ok(()),
                    Err(ReadError::Memory) => Err(AllocError),
                }
            }
        }
    }

    fn ask_keys(
        &mut self,
        alloc: Global,
        key: &Key,
        note: &Note<'_>,
        words: &[&[u8]],
    ) -> Result<(), AllocError>
        ensures { OnOk result (self.new ≡ part_after_words key.now self.old (note_value note.now) (map (λ w. w.now) words.now) NoteKind.Load) }
    {
        if is_named(alloc, key, words)? {
            self.ask_load(note);
        }
        Ok(())
    }

    fn ask_deletes(
        &mut self,
        alloc: Global,
        key: &Key,
        note: &Note<'_>,
        words: &[&[u8]],
    ) -> Result<(), AllocError>
        ensures { OnOk result (self.new ≡ part_after_words key.now self.old (note_value note.now) (map (λ w. w.now) words.now) NoteKind.Delete) }
    {
        if is_named(alloc, key, words)? {
            self.ask_write(note, Change::Delete);
        }
        Ok(())
    }

    /// One more line of the call, by its words.
    fn add_words(
        &mut self,
        alloc: Global,
        key: &Key,
        note: &Note<'_>,
        words: &[&[u8]],
    ) -> Result<(), AllocError>
        ensures { OnOk result (self.new ≡ part_after_words key.now self.old (note_value note.now) (map (λ w. w.now) words.now) (note.now).kind) }
    {
        match note.kind {
            NoteKind::Load => self.ask_keys(alloc, key, note, words),
            NoteKind::Loads => {
                self.loads(note, said_of(alloc, key, words)?);
                Ok(())
            }
            NoteKind::LoadFails => {
                self.load_fails(note, code_of(words));
                Ok(())
            }
            NoteKind::Write => {
                self.ask_to_write(note, said_of(alloc, key, words)?);
                Ok(())
            }
            NoteKind::Delete => self.ask_deletes(alloc, key, note, words),
            NoteKind::Writes => self.writes(alloc, key, note, words),
            NoteKind::WriteFails => self.write_fails(alloc, key, note, words),
            NoteKind::Process => self.run(alloc, key, words),
            NoteKind::Is => self.end(alloc, key, note, words),
            NoteKind::Set | NoteKind::Call | NoteKind::Foreign => Ok(()),
        }
    }

    /// One more line of the call.
    #[tactic(auto, unfolding(crate::specs::AtKey::part_after))]
    fn add<'a>(
        &mut self,
        alloc: Global,
        key: &Key,
        note: &Note<'a>,
        words: &mut Vec<&'a [u8]>,
    ) -> Result<(), AllocError>
        ensures { OnOk result (self.new ≡ part_after key.now self.old (note_value note.now)) }
    {
        split(note.text, words)?;
        self.add_words(alloc, key, note, behind(note.skip, words))
    }

    /// The lines of the call, among these, up to its end.
    pub(crate) fn add_all<'a>(
        &mut self,
        alloc: Global,
        key: &Key,
        call: u32,
        notes: &[Note<'a>],
        words: &mut Vec<&'a [u8]>,
    ) -> Result<(), AllocError>
        ensures { OnOk result (self.new ≡ part_over key.now call self.old (map note_value notes.now)) }
    {
        for note in notes {
            if is_of(call, note) {
                self.add(alloc, key, note, words)?;
                if is_end_kind(note.kind) {
                    return Ok(());
                }
            }
        }
        Ok(())
    }
}
