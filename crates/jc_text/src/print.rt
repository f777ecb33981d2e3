//! Printing: each function appends bytes to what is there.
ghost use Rattle.std.specs.Prelude.{◌≡◌, ◌++◌, OnOk, decimal};
ghost use Rattle.std.specs.List.{flat_map};
ghost use Rattle.jc_text.specs.Printing.{value_text, value_or_none_text, coded_text, refusal_text, flag_text, reply_text};
ghost use Rattle.jc_text.specs.Printing.{place_text, subject, piece_text, fault_line};

pub mod audit;
pub mod lines;
pub mod place;
pub(crate) mod process;
pub mod shown;

use crate::fault::{Fault, text};
use itoa::Buffer;
use jc_model::Reply;
use jc_types::{Key, Refusal, Value};
use std::alloc::AllocError;

/// A literal text.
pub fn put(out: &mut Vec<u8>, text: &str) -> Result<(), AllocError>
    ensures { OnOk result (out.new.items ≡ out.old.items ++ text.now) }
{
    out.extend_from_slice(text.as_bytes())?;
    Ok(())
}

/// A number, in decimal.
pub fn put_number(out: &mut Vec<u8>, n: u64) -> Result<(), AllocError>
    ensures { OnOk result (out.new.items ≡ out.old.items ++ decimal n) }
{
    let mut buffer = Buffer::new();
    out.extend_from_slice(buffer.format(n).as_bytes())?;
    Ok(())
}

/// A key.
fn put_key(out: &mut Vec<u8>, key: &Key) -> Result<(), AllocError>
    ensures { OnOk result (out.new.items ≡ out.old.items ++ key.now) }
{
    out.extend_from_slice(key.bytes())?;
    Ok(())
}

/// A value: a tilde for the empty one.
fn put_value(out: &mut Vec<u8>, value: &Value) -> Result<(), AllocError>
    ensures { OnOk result (out.new.items ≡ out.old.items ++ value_text value.now) }
{
    let bytes = value.bytes();
    if bytes.is_empty() {
        return put(out, "~");
    }
    out.extend_from_slice(bytes)?;
    Ok(())
}

/// A value: a dash for none.
fn put_value_or_none(out: &mut Vec<u8>, value: &Option<Value>) -> Result<(), AllocError>
    ensures { OnOk result (out.new.items ≡ out.old.items ++ value_or_none_text value.now) }
{
    match value {
        None => put(out, "-"),
        Some(value) => put_value(out, value),
    }
}

#[tactic(auto, unfolding(crate::specs::Printing::coded_text))]
fn put_coded(out: &mut Vec<u8>, refusal: &Refusal, code: u32) -> Result<(), AllocError>
    ensures { OnOk result (out.new.items ≡ out.old.items ++ coded_text refusal.now code) }
{
    put(out, refusal.name())?;
    put(out, " ")?;
    put_number(out, code as u64)
}

/// A refusal's name, with its code if it has one.
fn put_refusal(out: &mut Vec<u8>, refusal: &Refusal) -> Result<(), AllocError>
    ensures { OnOk result (out.new.items ≡ out.old.items ++ refusal_text refusal.now) }
{
    match refusal {
        Refusal::LoaderFailed(code) => put_coded(out, refusal, *code),
        Refusal::WriterFailed(code) => put_coded(out, refusal, *code),
        Refusal::ProcessorFailed(code) => put_coded(out, refusal, *code),
        Refusal::HistoryFull
        | Refusal::Busy
        | Refusal::TooManyInFlight
        | Refusal::TooManyJoiners
        | Refusal::OutOfMemory
        | Refusal::TooManyKeys
        | Refusal::BadConfig(_)
        | Refusal::NoLoader
        | Refusal::NoWriter
        | Refusal::TooManySessions
        | Refusal::StillReserved
        | Refusal::RepeatedKey => put(out, refusal.name()),
    }
}

/// A yes or no.
pub fn put_flag(out: &mut Vec<u8>, flag: bool) -> Result<(), AllocError>
    ensures { OnOk result (out.new.items ≡ out.old.items ++ flag_text flag) }
{
    if flag {
        put(out, "true")
    } else {
        put(out, "false")
    }
}

/// A reply.
fn put_reply(out: &mut Vec<u8>, reply: &Reply) -> Result<(), AllocError>
    ensures { OnOk result (out.new.items ≡ out.old.items ++ reply_text reply.now) }
{
    match reply {
        Reply::Unit => put(out, "ok"),
        Reply::Flag(flag) => put_flag(out, *flag),
        Reply::Value(value) => put_value_or_none(out, value),
        Reply::Fault(refusal) => put_refusal(out, refusal),
    }
}

/// A stripe, and a place in its history.
#[tactic(auto, unfolding(crate::specs::Printing::place_text))]
fn put_place(out: &mut Vec<u8>, stripe: usize, place: usize) -> Result<(), AllocError>
    ensures { OnOk result (out.new.items ≡ out.old.items ++ place_text stripe place) }
{
    put(out, " at ")?;
    put_number(out, stripe as u64)?;
    put(out, ".")?;
    put_number(out, place as u64)
}

/// How a line about a key of a call begins: the number of the call, and the key.
#[tactic(auto, unfolding(crate::specs::Printing::subject))]
fn put_subject(out: &mut Vec<u8>, call: u64, key: &Key) -> Result<(), AllocError>
    ensures { OnOk result (out.new.items ≡ out.old.items ++ subject call key.now) }
{
    put_number(out, call)?;
    put(out, " ")?;
    put_key(out, key)
}

/// A whole line about a key of a call, with this text behind the key.
pub fn put_key_line(out: &mut Vec<u8>, call: u64, key: &Key, text: &str) -> Result<(), AllocError>
    ensures { OnOk result (out.new.items ≡ out.old.items ++ subject call key.now ++ text.now) }
{
    put_subject(out, call, key)?;
    put(out, text)
}

/// A part of a line.
#[derive(Clone, Copy)]
pub enum Piece<'a> {
    /// A literal text.
    Text(&'a str),
    /// A number, in decimal.
    Number(u64),
    /// A key.
    Key(&'a Key),
    /// How a line about a key of a call begins.
    Subject(u64, &'a Key),
    /// A value.
    Value(&'a Value),
    /// A value, or none.
    ValueOrNone(&'a Option<Value>),
    /// A yes or no.
    Flag(bool),
    /// A refusal.
    Refusal(&'a Refusal),
    /// A reply.
    Reply(&'a Reply),
    /// A stripe, and a place in its history.
    Place(usize, usize),
}

fn put_piece(out: &mut Vec<u8>, piece: &Piece) -> Result<(), AllocError>
    ensures { OnOk result (out.new.items ≡ out.old.items ++ piece_text piece.now) }
{
    match piece {
        Piece::Text(text) => put(out, text),
        Piece::Number(n) => put_number(out, *n),
        Piece::Key(key) => put_key(out, key),
        Piece::Subject(call, key) => put_subject(out, *call, key),
        Piece::Value(value) => put_value(out, value),
        Piece::ValueOrNone(value) => put_value_or_none(out, value),
        Piece::Flag(flag) => put_flag(out, *flag),
        Piece::Refusal(refusal) => put_refusal(out, refusal),
        Piece::Reply(reply) => put_reply(out, reply),
        Piece::Place(stripe, place) => put_place(out, *stripe, *place),
    }
}

/// Parts of lines, one after the other.
pub fn put_pieces(out: &mut Vec<u8>, pieces: &[Piece]) -> Result<(), AllocError>
    ensures { OnOk result (out.new.items ≡ out.old.items ++ flat_map piece_text pieces.now) }
{
    for piece in pieces {
        put_piece(out, piece)?;
    }
    Ok(())
}

/// The line that ends a transcript.
#[tactic(auto, unfolding(crate::specs::Printing::fault_line))]
pub fn put_fault(out: &mut Vec<u8>, line: u64, fault: Fault) -> Result<(), AllocError>
    ensures { OnOk result (out.new.items ≡ out.old.items ++ fault_line line fault) }
{
    put_pieces(
        out,
        &[
            Piece::Text("line "),
            Piece::Number(line),
            Piece::Text(": "),
            Piece::Text(text(fault)),
            Piece::Text("\n"),
        ],
    )
}
