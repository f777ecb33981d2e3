//! The lines of an entry processor.
ghost use Rattle.std.specs.Prelude.{◌≡◌, ◌++◌, OnOk};
ghost use Rattle.jc_text.specs.Printing.{process_line, got_line, exists_line, load_verb, answer_text, answers_text};
ghost use Rattle.jc_text.specs.Printing.{due_text, processed_text};

use crate::print::lines::{put_answer, put_asks, put_fails, put_fault_code};
use crate::print::{Piece, put_key_line, put_pieces};
use jc_model::{Change, EntryAnswer, LoadAnswer};
use jc_types::{Key, Value};
use jc_world::process::{LoadSource, ShownRun};
use std::alloc::AllocError;

/// The key is reserved, and the processor is asked, about this entry.
#[tactic(auto, unfolding(crate::specs::Printing::process_line))]
pub fn put_process<'a>(
    out: &mut Vec<u8>,
    call: u64,
    key: &'a Key,
    entry: &'a Option<Value>,
) -> Result<(), AllocError>
    ensures { OnOk result (out.new.items ≡ out.old.items ++ process_line call key.now entry.now) }
{
    put_pieces(
        out,
        &[
            Piece::Subject(call, key),
            Piece::Text(" process "),
            Piece::ValueOrNone(entry),
            Piece::Text("\n"),
        ],
    )
}

#[tactic(auto, unfolding(crate::specs::Printing::got_line))]
fn put_got(out: &mut Vec<u8>, call: u64, value: &Option<Value>) -> Result<(), AllocError>
    ensures { OnOk result (out.new.items ≡ out.old.items ++ got_line call value.now) }
{
    put_pieces(
        out,
        &[
            Piece::Number(call),
            Piece::Text(" got "),
            Piece::ValueOrNone(value),
            Piece::Text("\n"),
        ],
    )
}

#[tactic(auto, unfolding(crate::specs::Printing::exists_line))]
fn put_exists(out: &mut Vec<u8>, call: u64, there: bool) -> Result<(), AllocError>
    ensures { OnOk result (out.new.items ≡ out.old.items ++ exists_line call there) }
{
    put_pieces(
        out,
        &[
            Piece::Number(call),
            Piece::Text(" exists "),
            Piece::Flag(there),
            Piece::Text("\n"),
        ],
    )
}

/// How a line begins that says what such a loader answered.
pub fn verb(source: &LoadSource) -> &'static str
    ensures { result.now ≡ load_verb source.now }
{
    match source {
        LoadSource::Store => " reads ",
        LoadSource::Stated(_) => " says ",
        LoadSource::Failing(_) => " says ",
    }
}

/// The answers to a processor's calls, with its load before the first value.
fn put_answers(
    out: &mut Vec<u8>,
    call: u64,
    key: &Key,
    verb: &str,
    load: &LoadAnswer,
    answers: &[EntryAnswer],
) -> Result<(), AllocError>
    ensures { OnOk result (out.new.items ≡ out.old.items ++ answers_text call (answer_text call key.now verb.now load.now) answers.now) }
{
    let mut loaded = *load;
    for answer in answers {
        match answer {
            EntryAnswer::Value(value) => {
                put_answer(out, call, key, verb, &loaded)?;
                loaded = LoadAnswer::NotAsked;
                put_got(out, call, value)?;
            }
            EntryAnswer::Present(there) => put_exists(out, call, *there)?,
            EntryAnswer::Done => {}
            EntryAnswer::Failed(code) => put_fails(out, call, *code)?,
        }
    }
    Ok(())
}

fn put_due(
    out: &mut Vec<u8>,
    call: u64,
    key: &Key,
    change: &Option<Change>,
) -> Result<(), AllocError>
    ensures { OnOk result (out.new.items ≡ out.old.items ++ due_text call key.now change.now) }
{
    match change {
        None => put_key_line(out, call, key, " ready\n"),
        Some(change) => put_asks(out, call, key, change),
    }
}

/// A processor's run: the answers to its calls, its fault, and the change that the writer is asked for.
#[tactic(auto, unfolding(crate::specs::Printing::processed_text))]
pub fn put_processed(
    out: &mut Vec<u8>,
    call: u64,
    key: &Key,
    verb: &str,
    seen: &ShownRun,
) -> Result<(), AllocError>
    ensures { OnOk result (out.new.items ≡ out.old.items ++ processed_text call key.now verb.now seen.now) }
{
    put_answers(out, call, key, verb, &seen.load, seen.answers.as_slice())?;
    put_fault_code(out, call, seen.fault)?;
    put_due(out, call, key, &seen.change)
}
