//! What a call's words ask for, and what it answered.
ghost use Rattle.std.specs.Prelude.{◌≡◌, codes, map, IfOk};
ghost use Rattle.jc_text.specs.Lines.{Gives, ok_with};
ghost use Rattle.jc_text.specs.Words.{pairs_of};
ghost use Rattle.jc_record.specs.Words.{all_told, begin_words, call_line, fault_told, form_of, form_of_bulk, form_of_op, form_of_reply, is_all, plain_told, refusal_named, told_after, told_of};

use jc_model::{Op, Out, Reply};
use jc_text::read::grammar::begin;
use jc_text::read::line::{BulkLine, Line};
use jc_text::read::words::{is, number, pairs, value_or_none};
use jc_text::{Fault, ReadError};
use jc_types::Refusal;
use std::alloc::{AllocError, Global};

/// How a call answers if nothing failed.
#[derive(Clone, Copy, Debug, PartialEq, Eq)]
pub(crate) enum AnswerForm {
    /// It is done, without a value.
    Unit,
    /// A yes or no.
    Flag,
    /// A value or none.
    Value,
    /// The values of many keys.
    All,
}

/// What a call answered.
#[derive(Clone, Copy, Debug, PartialEq, Eq)]
pub(crate) enum Told {
    /// This.
    Reply(Reply),
    /// The values of many keys.
    All,
    /// It threw something that the rules don't know.
    Threw,
}

/// The words after `begin` in a line of a script that begins this call. Its number and its session are placeholders.
fn begin_words<'a>(alloc: Global, words: &[&'a [u8]]) -> Result<Vec<&'a [u8]>, AllocError>
    ensures { IfOk result (λ all. map (λ w. w.now) all.items ≡ begin_words (map (λ w. w.now) words.now)) }
{
    let mut all = Vec::new(alloc);
    all.push("1".as_bytes())?;
    all.push("s1".as_bytes())?;
    all.extend_from_slice(words)?;
    Ok(all)
}

/// Leaves in `line` what a call's words ask for.
pub(crate) fn call_line(alloc: Global, words: &[&[u8]], line: &mut Line) -> Result<(), ReadError>
    ensures { Gives (ok_with line.new result) (call_line (map (λ w. w.now) words.now)) }
{
    let all = begin_words(alloc, words)?;
    begin(alloc, &all, line)
}

fn form_of_reply(reply: &Reply) -> AnswerForm
    ensures { result ≡ form_of_reply reply.now }
{
    match reply {
        Reply::Unit | Reply::Fault(_) => AnswerForm::Unit,
        Reply::Flag(_) => AnswerForm::Flag,
        Reply::Value(_) => AnswerForm::Value,
    }
}

pub(crate) fn form_of_op(op: &Op) -> AnswerForm
    ensures { result ≡ form_of_op op.now }
{
    form_of_reply(&op.reply_after(None, &Out::nothing_said()))
}

fn form_of_bulk(bulk: &BulkLine) -> AnswerForm
    ensures { result ≡ form_of_bulk bulk.now }
{
    match bulk {
        BulkLine::GetAll(_) => AnswerForm::All,
        _ => AnswerForm::Unit,
    }
}

/// How the call of a line answers.
pub(crate) fn form_of(line: &Line) -> AnswerForm
    ensures { result ≡ form_of line.now }
{
    match line {
        Line::Begin(_, _, operation) => form_of_op(&operation.op),
        Line::BeginBulk(_, _, bulk) => form_of_bulk(bulk),
        _ => AnswerForm::Unit,
    }
}

/// The answer of a call without a fault, from its only word.
fn plain_told(form: AnswerForm, word: &[u8]) -> Result<Told, Fault>
    ensures { result ≡ plain_told form word.now }
{
    match form {
        AnswerForm::Unit if is(word, "ok") => Ok(Told::Reply(Reply::Unit)),
        AnswerForm::Unit => Err(Fault::BadLine),
        AnswerForm::Flag if is(word, "true") => Ok(Told::Reply(Reply::Flag(true))),
        AnswerForm::Flag if is(word, "false") => Ok(Told::Reply(Reply::Flag(false))),
        AnswerForm::Flag => Err(Fault::BadLine),
        AnswerForm::Value => {
            let value = value_or_none(word)?;
            Ok(Told::Reply(Reply::Value(value)))
        }
        AnswerForm::All => Err(Fault::BadLine),
    }
}

fn refusal_named(name: &[u8], code: u32) -> Result<Told, Fault>
    ensures { result ≡ refusal_named name.now code }
{
    match name {
        _ if is(name, "LoaderFailed") => Ok(Told::Reply(Reply::Fault(Refusal::LoaderFailed(code)))),
        _ if is(name, "WriterFailed") => Ok(Told::Reply(Reply::Fault(Refusal::WriterFailed(code)))),
        _ if is(name, "ProcessorFailed") => {
            Ok(Told::Reply(Reply::Fault(Refusal::ProcessorFailed(code))))
        }
        _ => Err(Fault::BadLine),
    }
}

/// A fault, from its name and the words after it: its code.
fn fault_told(name: &[u8], words: &[&[u8]]) -> Result<Told, Fault>
    ensures { result ≡ fault_told name.now (map (λ w. w.now) words.now) }
{
    match words {
        [code] => {
            let code = number(code)?;
            refusal_named(name, code)
        }
        _ => Err(Fault::BadLine),
    }
}

/// The answer of a call of many keys that has values.
fn all_told(alloc: Global, words: &[&[u8]]) -> Result<Told, ReadError>
    ensures { Gives result (all_told (map (λ w. w.now) words.now)) }
{
    let _pairs = pairs(alloc, words)?;
    Ok(Told::All)
}

fn is_all(form: AnswerForm, first: &[u8]) -> bool
    ensures { result ≡ is_all form first.now }
{
    match form {
        AnswerForm::All => is(first, "all"),
        _ => false,
    }
}

fn told_after(form: AnswerForm, first: &[u8], words: &[&[u8]]) -> Result<Told, Fault>
    ensures { result ≡ told_after form first.now (map (λ w. w.now) words.now) }
{
    match words {
        [] => plain_told(form, first),
        [_, ..] => {
            if is(first, "threw") {
                return Ok(Told::Threw);
            }
            fault_told(first, words)
        }
    }
}

/// The answer that words tell, of a call that answers in this form.
pub(crate) fn told_of(alloc: Global, form: AnswerForm, words: &[&[u8]]) -> Result<Told, ReadError>
    ensures { Gives result (told_of form (map (λ w. w.now) words.now)) }
{
    match words {
        [] => Err(ReadError::Fault(Fault::BadLine)),
        [first, rest @ ..] => {
            if is_all(form, first) {
                return all_told(alloc, rest);
            }
            Ok(told_after(form, first, rest)?)
        }
    }
}
