//! What a call asks for at a key, by the line that begins it.
ghost use Rattle.std.specs.Prelude.{◌≡◌, map, IfOk};
ghost use Rattle.jc_model.specs.Batches.{is_among};
ghost use Rattle.jc_record.specs.Notes.{note_value};
ghost use Rattle.jc_record.specs.Words.{call_line};
ghost use Rattle.jc_record.specs.AtKey.{begun, part_begun, part_of, part_of_bulk, part_of_line, put_part, removal, when};

use crate::names::said_of;
use crate::note::{Note, behind};
use crate::part::{Ask, Part};
use crate::told::call_line;
use jc_model::{LoadAnswer, Op};
use jc_text::ReadError;
use jc_text::read::keys::Keys;
use jc_text::read::line::{BulkLine, Line};
use jc_text::read::words::split;
use jc_types::Key;
use std::alloc::{AllocError, Global};

/// A call of many keys at one of them, if it names it.
fn part_of_keys(
    alloc: Global,
    keys: &Keys,
    key: &Key,
    note: &Note<'_>,
    ask: Ask,
    op: &Op,
) -> Option<Part>
    ensures { result ≡ when (is_among keys.now key.now) (begun (note_value note.now) ask op.now) }
{
    if keys.contains(key) {
        return Some(Part::begun(alloc, note, ask, op));
    }
    None
}

/// A `removeAll` of these keys at one of them, if it names it.
fn removal_of_keys(
    alloc: Global,
    keys: &Keys,
    key: &Key,
    note: &Note<'_>,
) -> Result<Option<Part>, AllocError>
    ensures { IfOk result (λ part. part ≡ when (is_among keys.now key.now) (removal (begun (note_value note.now) Ask.Each Op.Invoke))) }
{
    if keys.contains(key) {
        return Ok(Some(Part::removal(alloc, note, Ask::Each)?));
    }
    Ok(None)
}

/// A `putAll` at a key, if its pairs name it.
fn put_part(alloc: Global, note: &Note<'_>, said: Option<LoadAnswer>) -> Option<Part>
    ensures { result ≡ put_part (note_value note.now) said }
{
    match &said {
        Some(LoadAnswer::Found(value)) => {
            Some(Part::begun(alloc, note, Ask::Each, &Op::Put(*value)))
        }
        _ => None,
    }
}

fn part_of_bulk(
    alloc: Global,
    key: &Key,
    note: &Note<'_>,
    words: &[&[u8]],
    bulk: &BulkLine,
) -> Result<Option<Part>, AllocError>
    ensures { IfOk result (λ part. part ≡ part_of_bulk key.now (note_value note.now) (map (λ w. w.now) words.now) bulk.now) }
{
    match bulk {
        BulkLine::GetAll(keys) => Ok(part_of_keys(alloc, keys, key, note, Ask::GetAll, &Op::Get)),
        BulkLine::PutAll(_) => Ok(put_part(alloc, note, said_of(alloc, key, behind(1, words))?)),
        BulkLine::RemoveAll(keys) => removal_of_keys(alloc, keys, key, note),
        BulkLine::RemoveEvery => Ok(Some(Part::removal(alloc, note, Ask::Every)?)),
        BulkLine::Clear => Ok(Some(Part::begun(alloc, note, Ask::Each, &Op::Clear))),
        BulkLine::LoadAll { replace, keys } => {
            let op = Op::LoadAll { replace: *replace };
            Ok(part_of_keys(alloc, keys, key, note, Ask::Each, &op))
        }
        BulkLine::InvokeAll(keys) => {
            Ok(part_of_keys(alloc, keys, key, note, Ask::Each, &Op::Invoke))
        }
    }
}

fn part_of_line(
    alloc: Global,
    key: &Key,
    note: &Note<'_>,
    words: &[&[u8]],
    line: &Line,
) -> Result<Option<Part>, AllocError>
    ensures { IfOk result (λ part. part ≡ part_of_line key.now (note_value note.now) (map (λ w. w.now) words.now) line.now) }
{
    match line {
        Line::Begin(_, _, operation) => {
            if operation.key == *key {
                return Ok(Some(Part::begun(alloc, note, Ask::One, &operation.op)));
            }
            Ok(None)
        }
        Line::BeginBulk(_, _, bulk) => part_of_bulk(alloc, key, note, words, bulk),
        _ => Ok(None),
    }
}

/// What a call's words ask for at a key, if they name it. `line` is room for a line.
fn part_of(
    alloc: Global,
    key: &Key,
    note: &Note<'_>,
    words: &[&[u8]],
    line: &mut Line,
) -> Result<Option<Part>, AllocError>
    ensures { IfOk result (λ part. part ≡ part_of key.now (note_value note.now) (map (λ w. w.now) words.now) (call_line (map (λ w. w.now) words.now))) }
{
    match call_line(alloc, words, line) {
        Ok(()) => part_of_line(alloc, key, note, words, line),
        Err(ReadError::Fault(_)) => Ok(None),
        Err(ReadError::Memory) => Err(AllocError),
    }
}

/// What the call of a line asks for at a key, if it names it. `words` is room for words.
#[tactic(auto, unfolding(crate::specs::AtKey::part_begun))]
pub(crate) fn part_begun<'a>(
    alloc: Global,
    key: &Key,
    note: &Note<'a>,
    words: &mut Vec<&'a [u8]>,
) -> Result<Option<Part>, AllocError>
    ensures { IfOk result (λ part. part ≡ part_begun key.now (note_value note.now)) }
{
    split(note.text, words)?;
    let mut line = Line::Audit;
    part_of(alloc, key, note, behind(note.skip, words), &mut line)
}
