//! Replies, as an expectation writes them.
ghost use Rattle.std.specs.Prelude.{◌≡◌};
ghost use Rattle.jc_text.specs.Words.{number_of};
ghost use Rattle.jc_litmus.specs.ReplyWords.{answer_kind_of, failure_with, fault_reply, loading, plain_reply, refusal_of, reply_kind, reply_said, silent, two_words, writing};

use crate::program::LineFault;
use crate::word_parts::halves_of;
use jc_model::{Op, OpKind, Out, Reply};
use jc_text::read::words::{is, number, value_or_none};
use jc_types::Refusal;

/// The kind of answer of a call that is neither refused nor fails.
#[derive(Clone, Copy)]
pub(crate) enum AnswerKind {
    /// It is done, without a value.
    Unit,
    /// A flag.
    Flag,
    /// A value or none.
    Value,
}

/// The replies that an operation may have. Besides these, each call may be refused because a history is full. Any other refusal
/// makes a thread wait, and is no reply.
#[derive(Clone, Copy)]
pub(crate) struct ReplyKind {
    /// The kind of answer without a fault.
    pub answer: AnswerKind,
    /// Whether its loader may fail.
    pub loader: bool,
    /// Whether its entry processor may fail.
    pub processor: bool,
    /// Whether its writer may fail.
    pub writer: bool,
}

/// The replies of an operation that asks nobody outside.
fn silent(answer: AnswerKind) -> ReplyKind
    ensures { result ≡ silent answer }
{
    ReplyKind {
        answer,
        loader: false,
        processor: false,
        writer: false,
    }
}

/// The replies of an operation that asks the loader alone.
fn loading(answer: AnswerKind) -> ReplyKind
    ensures { result ≡ loading answer }
{
    ReplyKind {
        answer,
        loader: true,
        processor: false,
        writer: false,
    }
}

/// The replies of an operation that asks the writer alone.
fn writing(answer: AnswerKind) -> ReplyKind
    ensures { result ≡ writing answer }
{
    ReplyKind {
        answer,
        loader: false,
        processor: false,
        writer: true,
    }
}

/// The kind of answer of an operation, which is the same at each key.
fn answer_kind_of(op: &Op) -> AnswerKind
    ensures { result ≡ answer_kind_of op.now }
{
    match op.reply_after(None, &Out::nothing_said()) {
        Reply::Unit | Reply::Fault(_) => AnswerKind::Unit,
        Reply::Flag(_) => AnswerKind::Flag,
        Reply::Value(_) => AnswerKind::Value,
    }
}

/// The replies that an operation may have.
pub(crate) fn reply_kind(op: &Op) -> ReplyKind
    ensures { result ≡ reply_kind op.now }
{
    let answer = answer_kind_of(op);
    match op.kind() {
        OpKind::Get | OpKind::LoadAll { .. } => loading(answer),
        OpKind::ContainsKey | OpKind::Clear => silent(answer),
        OpKind::Write => writing(answer),
        OpKind::Invoke => ReplyKind {
            answer,
            loader: true,
            processor: true,
            writer: true,
        },
    }
}

/// The reply of a call without a fault, from its only word.
fn plain_reply(answer: AnswerKind, word: &[u8]) -> Result<Reply, LineFault>
    ensures { result ≡ plain_reply answer word.now }
{
    match answer {
        AnswerKind::Unit if is(word, "ok") => Ok(Reply::Unit),
        AnswerKind::Unit => Err(LineFault::BadReply),
        AnswerKind::Flag if is(word, "true") => Ok(Reply::Flag(true)),
        AnswerKind::Flag if is(word, "false") => Ok(Reply::Flag(false)),
        AnswerKind::Flag => Err(LineFault::BadReply),
        AnswerKind::Value => match value_or_none(word) {
            Ok(value) => Ok(Reply::Value(value)),
            Err(_) => Err(LineFault::BadReply),
        },
    }
}

/// The reply of a call that was refused, from the refusal's name.
fn refusal_of(name: &[u8]) -> Result<Reply, LineFault>
    ensures { result ≡ refusal_of name.now }
{
    match name {
        _ if is(name, "HistoryFull") => Ok(Reply::Fault(Refusal::HistoryFull)),
        _ => Err(LineFault::BadReply),
    }
}

/// The reply of a call with a fault, from the name and the code of the fault.
fn fault_reply(kind: ReplyKind, name: &[u8], code: u32) -> Result<Reply, LineFault>
    ensures { result ≡ fault_reply kind name.now code }
{
    match name {
        _ if is(name, "LoaderFailed") && kind.loader => {
            Ok(Reply::Fault(Refusal::LoaderFailed(code)))
        }
        _ if is(name, "ProcessorFailed") && kind.processor => {
            Ok(Reply::Fault(Refusal::ProcessorFailed(code)))
        }
        _ if is(name, "WriterFailed") && kind.writer => {
            Ok(Reply::Fault(Refusal::WriterFailed(code)))
        }
        _ => Err(LineFault::BadReply),
    }
}

/// The reply of a call with a fault, from its name and the word of its code.
fn failure_with(kind: ReplyKind, name: &[u8], word: &[u8]) -> Result<Reply, LineFault>
    ensures { result ≡ failure_with kind name.now (number_of word.now) }
{
    match number(word) {
        Ok(code) => fault_reply(kind, name, code),
        Err(_) => Err(LineFault::BadReply),
    }
}

/// The reply of a call that was refused, or that had a fault, from its two words.
fn two_words(kind: ReplyKind, first: &[u8], second: &[u8]) -> Result<Reply, LineFault>
    ensures { result ≡ two_words kind first.now second.now }
{
    if is(first, "refused") {
        refusal_of(second)
    } else {
        failure_with(kind, first, second)
    }
}

/// The reply that a word of an expectation names, for a call of this kind: two words with a colon between them, or one.
pub(crate) fn reply_said(kind: ReplyKind, word: &[u8]) -> Result<Reply, LineFault>
    ensures { result ≡ reply_said kind word.now }
{
    match halves_of(b':', word) {
        Some((first, second)) => two_words(kind, first, second),
        None => plain_reply(kind.answer, word),
    }
}
