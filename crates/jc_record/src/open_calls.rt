//! Calls that have begun and not ended, and the words of each kind of line.
ghost use Rattle.std.specs.Prelude.{◌≡◌, ◌++◌, ◌∷◌, [], map, OnOk, IfOk};
ghost use Rattle.jc_text.specs.Lines.{Gives, ok_with};
ghost use Rattle.jc_record.specs.Words.{are_keys, are_pairs};
ghost use Rattle.jc_record.specs.Reading.{are_all_pairs, are_code, are_failure, are_foreign, are_left, are_run, are_words_of, begun_with, during, ended_with, form_begun, form_open, open_after_of, without};

use crate::names::keys_left;
use crate::note::NoteKind;
use crate::run_words::run_of;
use crate::told::{AnswerForm, call_line, form_of, told_of};
use jc_model::Reply;
use jc_text::read::line::Line;
use jc_text::read::words::{key, keys, number, pairs, value_or_none};
use jc_text::{Fault, ReadError};
use jc_types::{Refusal, Value};
use std::alloc::{AllocError, Global};

/// A call that has begun and not ended.
#[derive(Clone, Copy, Debug, PartialEq, Eq)]
pub(crate) struct OpenCall {
    /// Its number.
    pub call: u32,
    /// How it answers.
    pub form: AnswerForm,
}

fn bad_line() -> ReadError
    ensures { result ≡ ReadError.Fault Fault.BadLine }
{
    ReadError::Fault(Fault::BadLine)
}

fn check_keys(alloc: Global, words: &[&[u8]]) -> Result<(), ReadError>
    ensures { Gives result (are_keys (map (λ w. w.now) words.now)) }
{
    match words {
        [] => Err(bad_line()),
        [_, ..] => {
            let _keys = keys(alloc, words)?;
            Ok(())
        }
    }
}

fn check_all_pairs(alloc: Global, words: &[&[u8]]) -> Result<(), ReadError>
    ensures { Gives result (are_all_pairs (map (λ w. w.now) words.now)) }
{
    let _pairs = pairs(alloc, words)?;
    Ok(())
}

fn check_pairs(alloc: Global, words: &[&[u8]]) -> Result<(), ReadError>
    ensures { Gives result (are_pairs (map (λ w. w.now) words.now)) }
{
    match words {
        [] => Err(bad_line()),
        [_, ..] => check_all_pairs(alloc, words),
    }
}

fn check_left(alloc: Global, words: &[&[u8]]) -> Result<(), ReadError>
    ensures { Gives result (are_left (map (λ w. w.now) words.now)) }
{
    let _keys = keys_left(alloc, words)?;
    Ok(())
}

fn check_code(words: &[&[u8]]) -> Result<(), ReadError>
    ensures { Gives result (are_code (map (λ w. w.now) words.now)) }
{
    match words {
        [code] => {
            let _code = number(code)?;
            Ok(())
        }
        _ => Err(bad_line()),
    }
}

fn check_failure(alloc: Global, words: &[&[u8]]) -> Result<(), ReadError>
    ensures { Gives result (are_failure (map (λ w. w.now) words.now)) }
{
    match words {
        [] => Err(bad_line()),
        [code, rest @ ..] => {
            let _code = number(code)?;
            check_left(alloc, rest)
        }
    }
}

fn check_run(alloc: Global, words: &[&[u8]]) -> Result<(), ReadError>
    ensures { Gives result (are_run (map (λ w. w.now) words.now)) }
{
    match words {
        [] => Err(bad_line()),
        [k, rest @ ..] => {
            let _key = key(k)?;
            let _run = run_of(alloc, rest)?;
            Ok(())
        }
    }
}

fn check_foreign(words: &[&[u8]]) -> Result<(), ReadError>
    ensures { Gives result (are_foreign (map (λ w. w.now) words.now)) }
{
    match words {
        [k, v] => {
            let _key = key(k)?;
            let _value = value_or_none(v)?;
            Ok(())
        }
        _ => Err(bad_line()),
    }
}

/// Tests the words of a line between the begin and the end of a call.
fn check_words(alloc: Global, kind: NoteKind, words: &[&[u8]]) -> Result<(), ReadError>
    ensures { Gives result (are_words_of kind (map (λ w. w.now) words.now)) }
{
    match kind {
        NoteKind::Load | NoteKind::Delete => check_keys(alloc, words),
        NoteKind::Loads => check_all_pairs(alloc, words),
        NoteKind::LoadFails => check_code(words),
        NoteKind::Write => check_pairs(alloc, words),
        NoteKind::Writes => check_left(alloc, words),
        NoteKind::WriteFails => check_failure(alloc, words),
        NoteKind::Process => check_run(alloc, words),
        NoteKind::Foreign => check_foreign(words),
        NoteKind::Set | NoteKind::Call | NoteKind::Is => Err(bad_line()),
    }
}

/// How an open call answers, if it is open.
fn form_open(call: u32, under_way: &[OpenCall]) -> Option<AnswerForm>
    ensures { result ≡ form_open call under_way.now }
{
    for one in under_way {
        if one.call == call {
            return Some(one.form);
        }
    }
    None
}

fn push_open(under_way: &mut Vec<OpenCall>, one: OpenCall) -> Result<(), AllocError>
    ensures { OnOk result (under_way.new.items ≡ under_way.old.items ++ one ∷ []) }
{
    under_way.push(one)?;
    Ok(())
}

/// The open calls without one.
fn without(alloc: Global, call: u32, under_way: &[OpenCall]) -> Result<Vec<OpenCall>, AllocError>
    ensures { IfOk result (λ others. others.items ≡ without call under_way.now) }
{
    let mut others = Vec::new(alloc);
    for one in under_way {
        if one.call != call {
            others.push(*one)?;
        }
    }
    Ok(others)
}

/// How the call of these words answers. It has a function of its own, since a line is dear to let go.
fn form_begun(alloc: Global, words: &[&[u8]]) -> Result<AnswerForm, ReadError>
    ensures { Gives result (form_begun (map (λ w. w.now) words.now)) }
{
    let mut line = Line::Audit;
    call_line(alloc, words, &mut line)?;
    Ok(form_of(&line))
}

/// The open calls after a call's begin.
fn begun_with(
    alloc: Global,
    under_way: &mut Vec<OpenCall>,
    call: u32,
    words: &[&[u8]],
) -> Result<(), ReadError>
    ensures { Gives (ok_with under_way.new.items result) (begun_with under_way.old.items call (form_open call under_way.old.items) (map (λ w. w.now) words.now)) }
{
    if form_open(call, under_way).is_some() {
        return Err(ReadError::Fault(Fault::NotNow));
    }
    let form = form_begun(alloc, words)?;
    push_open(under_way, OpenCall { call, form })?;
    Ok(())
}

/// The open calls after a call's end.
fn ended_with(
    alloc: Global,
    under_way: &mut Vec<OpenCall>,
    call: u32,
    words: &[&[u8]],
) -> Result<(), ReadError>
    ensures { Gives (ok_with under_way.new.items result) (ended_with under_way.old.items call (form_open call under_way.old.items) (map (λ w. w.now) words.now)) }
{
    let _types: Option<&(Reply, Refusal, Value, Option<Value>)> = None;
    match form_open(call, under_way) {
        None => Err(ReadError::Fault(Fault::NoSuchCall)),
        Some(form) => {
            let _told = told_of(alloc, form, words)?;
            *under_way = without(alloc, call, under_way)?;
            Ok(())
        }
    }
}

/// Tests a line between the begin and the end of a call.
fn check_during(
    alloc: Global,
    under_way: &[OpenCall],
    call: u32,
    kind: NoteKind,
    words: &[&[u8]],
) -> Result<(), ReadError>
    ensures { Gives (ok_with under_way.now result) (during under_way.now kind (form_open call under_way.now) (map (λ w. w.now) words.now)) }
{
    match form_open(call, under_way) {
        None => Err(ReadError::Fault(Fault::NoSuchCall)),
        Some(_) => check_words(alloc, kind, words),
    }
}

/// The open calls after a line.
pub(crate) fn open_after(
    alloc: Global,
    under_way: &mut Vec<OpenCall>,
    call: u32,
    kind: NoteKind,
    words: &[&[u8]],
) -> Result<(), ReadError>
    ensures { Gives (ok_with under_way.new.items result) (open_after_of under_way.old.items call kind (map (λ w. w.now) words.now)) }
{
    match kind {
        NoteKind::Call => begun_with(alloc, under_way, call, words),
        NoteKind::Is => ended_with(alloc, under_way, call, words),
        NoteKind::Foreign => check_foreign(words),
        _ => check_during(alloc, under_way, call, kind, words),
    }
}
