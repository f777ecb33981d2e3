//! Lines that several kinds of events print.
ghost use Rattle.std.specs.Prelude.{◌≡◌, ◌++◌, OnOk};
ghost use Rattle.std.specs.List.{flat_map};
ghost use Rattle.jc_text.specs.Printing.{write_line, asks_text, fails_line, answer_line, answer_text, fails_text};
ghost use Rattle.jc_text.specs.Printing.{refused_whole_line, over_line, cause_text, piece_text, key_text, keys_line};

use crate::print::{Piece, put, put_key_line, put_pieces};
use jc_model::{Change, LoadAnswer};
use jc_types::{Key, Refusal, Value};
use std::alloc::AllocError;

/// The writer is asked to write a value.
#[tactic(auto, unfolding(crate::specs::Printing::write_line))]
fn put_write<'a>(
    out: &mut Vec<u8>,
    call: u64,
    key: &'a Key,
    value: &'a Value,
) -> Result<(), AllocError>
    ensures { OnOk result (out.new.items ≡ out.old.items ++ write_line call key.now value.now) }
{
    put_pieces(
        out,
        &[
            Piece::Subject(call, key),
            Piece::Text(" write "),
            Piece::Value(value),
            Piece::Text("\n"),
        ],
    )
}

/// The writer is asked for a change.
pub fn put_asks(out: &mut Vec<u8>, call: u64, key: &Key, change: &Change) -> Result<(), AllocError>
    ensures { OnOk result (out.new.items ≡ out.old.items ++ asks_text call key.now change.now) }
{
    match change {
        Change::Write(value) => put_write(out, call, key, value),
        Change::Delete => put_key_line(out, call, key, " delete\n"),
    }
}

/// Something failed with a code.
#[tactic(auto, unfolding(crate::specs::Printing::fails_line))]
pub fn put_fails(out: &mut Vec<u8>, call: u64, code: u32) -> Result<(), AllocError>
    ensures { OnOk result (out.new.items ≡ out.old.items ++ fails_line call code) }
{
    put_pieces(
        out,
        &[
            Piece::Number(call),
            Piece::Text(" fails "),
            Piece::Number(code as u64),
            Piece::Text("\n"),
        ],
    )
}

/// The code of a fault, if there is one.
pub fn put_fault_code(out: &mut Vec<u8>, call: u64, fault: Option<u32>) -> Result<(), AllocError>
    ensures { OnOk result (out.new.items ≡ out.old.items ++ fails_text call fault) }
{
    match fault {
        None => Ok(()),
        Some(code) => put_fails(out, call, code),
    }
}

/// The loader's answer: a value, or none.
#[tactic(auto, unfolding(crate::specs::Printing::answer_line))]
fn put_answer_line<'a>(
    out: &mut Vec<u8>,
    call: u64,
    key: &'a Key,
    verb: &'a str,
    value: &'a Option<Value>,
) -> Result<(), AllocError>
    ensures { OnOk result (out.new.items ≡ out.old.items ++ answer_line call key.now verb.now value.now) }
{
    put_pieces(
        out,
        &[
            Piece::Subject(call, key),
            Piece::Text(verb),
            Piece::ValueOrNone(value),
            Piece::Text("\n"),
        ],
    )
}

/// The loader's answer for a key. The line of a failed load doesn't name its key.
pub fn put_answer(
    out: &mut Vec<u8>,
    call: u64,
    key: &Key,
    verb: &str,
    answer: &LoadAnswer,
) -> Result<(), AllocError>
    ensures { OnOk result (out.new.items ≡ out.old.items ++ answer_text call key.now verb.now answer.now) }
{
    match answer {
        LoadAnswer::NotAsked | LoadAnswer::Failed(_) => Ok(()),
        LoadAnswer::Found(value) => put_answer_line(out, call, key, verb, &Some(*value)),
        LoadAnswer::Nothing => put_answer_line(out, call, key, verb, &None),
    }
}

/// A call was refused whole.
#[tactic(auto, unfolding(crate::specs::Printing::refused_whole_line))]
pub fn put_refused_whole(out: &mut Vec<u8>, call: u64, refusal: &Refusal) -> Result<(), AllocError>
    ensures { OnOk result (out.new.items ≡ out.old.items ++ refused_whole_line call refusal.now) }
{
    put_pieces(
        out,
        &[
            Piece::Number(call),
            Piece::Text(" refused "),
            Piece::Text(refusal.name()),
            Piece::Text("\n"),
        ],
    )
}

/// The fault that a call has met first, or that it has met none.
fn cause_piece(cause: &Option<Refusal>) -> Piece<'_>
    ensures { piece_text result ≡ cause_text cause.now }
{
    match cause {
        None => Piece::Text("ok"),
        Some(refusal) => Piece::Refusal(refusal),
    }
}

/// A call of many keys is over.
#[tactic(auto, unfolding(crate::specs::Printing::over_line))]
pub fn put_over(out: &mut Vec<u8>, call: u64, cause: &Option<Refusal>) -> Result<(), AllocError>
    ensures { OnOk result (out.new.items ≡ out.old.items ++ over_line call cause.now) }
{
    put_pieces(
        out,
        &[
            Piece::Number(call),
            Piece::Text(" over "),
            cause_piece(cause),
            Piece::Text("\n"),
        ],
    )
}

#[tactic(auto, unfolding(crate::specs::Printing::key_text))]
fn put_key_text(out: &mut Vec<u8>, key: &Key) -> Result<(), AllocError>
    ensures { OnOk result (out.new.items ≡ out.old.items ++ key_text key.now) }
{
    put_pieces(out, &[Piece::Text(" "), Piece::Key(key)])
}

fn put_keys(out: &mut Vec<u8>, keys: &[Key]) -> Result<(), AllocError>
    ensures { OnOk result (out.new.items ≡ out.old.items ++ flat_map key_text keys.now) }
{
    for key in keys {
        put_key_text(out, key)?;
    }
    Ok(())
}

/// A word, and after it keys.
#[tactic(auto, unfolding(crate::specs::Printing::keys_line))]
pub fn put_keys_line(out: &mut Vec<u8>, name: &str, keys: &[Key]) -> Result<(), AllocError>
    ensures { OnOk result (out.new.items ≡ out.old.items ++ keys_line name.now keys.now) }
{
    put(out, name)?;
    put_keys(out, keys)?;
    put(out, "\n")
}
