//! The check of a history, from the bytes that are read to the bytes that are written.
ghost use Rattle.std.specs.Prelude.{◌≡◌, ◌≢◌, ◌↔◌, ◌++◌, true, false, ◌<◌, length, IfOk, IfErr, IfSome, OnOk};
ghost use Rattle.jc_text.specs.declared.fault.Fault.TheVariants as faults;
ghost use Rattle.jc_record.specs.Reading.{record_value};
ghost use Rattle.jc_record.specs.Running.{end_of, hint_text, complaint_text, AnswersCalls, AnswersRecord, BreaksOffCheck, ChecksRecord};

use crate::answer::{Tally, put_closing};
use crate::index::index_of;
use crate::input::{RECORD_MAX, read_all};
use crate::judge::{Asked, put_keys};
use crate::reading::{Record, RecordFault, read_record};
use jc_text::input::{InputFault, write_out};
use jc_text::print::{put, put_fault};
use jc_text::{Fault, Noted};
use std::alloc::{AllocError, Global};
use std::io::{Read, Write};
use thiserror::Error;

/// The end of a check.
#[derive(Clone, Copy, Debug, PartialEq, Eq)]
pub enum RecordEnd {
    /// Each key is explained.
    Explained,
    /// A line of the record is at fault.
    LineFault,
    /// A key isn't explained.
    NotExplained,
    /// No key is known not to be explained, and the search of one gave up.
    GaveUp,
}

/// Why a check could not be made.
#[derive(Clone, Copy, Debug, PartialEq, Eq, Error)]
pub enum CheckFault {
    /// The reader failed. Nothing was written.
    #[error("read failed")]
    Read,
    /// The record has more than [`RECORD_MAX`] bytes. Nothing was written.
    #[error("input too long")]
    TooLong,
    /// An allocation failed. Nothing was written.
    #[error("out of memory")]
    OutOfMemory,
    /// The writer failed. A prefix of the answer was written.
    #[error("write failed")]
    Write,
}

fn end_of(tally: &Tally) -> RecordEnd
    ensures { result ≡ end_of tally.now }
{
    if 0 < tally.refuted {
        RecordEnd::NotExplained
    } else if 0 < tally.stopped {
        RecordEnd::GaveUp
    } else {
        RecordEnd::Explained
    }
}

/// What to do about a fault.
fn hint(fault: Fault) -> &'static str
    ensures { result.now ≡ hint_text fault }
{
    match fault {
        Fault::CutLine => "the last line has no line feed: the record may be cut off\n",
        Fault::BadLine => "see docs/CHECK.md for the lines of a record; the first is `history 1`\n",
        Fault::BadNumber => "a number has up to 9 digits, and a time up to 19 after its @\n",
        Fault::BadCaller => {
            "a line begins with its time, if it has one, and its thread: t and a number up to 1023\n"
        }
        Fault::BadKey => "a key is 1 to 32 letters, digits, underscores and dots\n",
        Fault::BadValue => {
            "a value is up to 256 letters, digits, underscores and dots; ~ is the empty one, and - is none where none may be\n"
        }
        Fault::RepeatedKey => "the line names a key twice\n",
        Fault::NotOpen => {
            "`open`, with `read` and `write` if they are on, comes before the first event\n"
        }
        Fault::OpenTwice => "one record has one `open`\n",
        Fault::NotRising => {
            "its time is before that of the line above: sort the lines by their times, and keep equal ones as they are\n"
        }
        Fault::NoSuchCall => {
            "no call with this number has begun and not ended: its `call` comes first, and its `is` last\n"
        }
        Fault::NotNow => "a call with this number has begun and not ended\n",
        _ => "",
    }
}

/// The output for a record with a line that is at fault.
#[tactic(auto, unfolding(crate::specs::Running::complaint_text))]
fn complaint(alloc: Global, line: u64, fault: Fault) -> Result<Vec<u8>, AllocError>
    ensures { IfOk result (λ out. out.items ≡ complaint_text line fault) }
{
    let mut out = Vec::new(alloc);
    put_fault(&mut out, line, fault)?;
    put(&mut out, hint(fault))?;
    Ok(out)
}

/// The answer to a record that was read.
fn answer_to(
    alloc: Global,
    asked: &Asked,
    history: &Record<'_>,
) -> Result<(Vec<u8>, RecordEnd), AllocError>
    ensures { IfOk result (λ r. AnswersCalls asked.now (record_value history.now) r.0.items r.1) }
{
    let index = index_of(alloc, &history.notes)?;
    let mut out = Vec::new(alloc);
    let tally = put_keys(alloc, &mut out, asked, history, &index)?;
    put_closing(&mut out, &tally)?;
    Ok((out, end_of(&tally)))
}

/// The answer to a record's text.
fn answered(alloc: Global, asked: &Asked, input: &[u8]) -> Result<(Vec<u8>, RecordEnd), AllocError>
    ensures { IfOk result (λ r. AnswersRecord asked.now input.now r.0.items r.1) }
{
    match read_record(alloc, input) {
        Ok(history) => answer_to(alloc, asked, &history),
        Err(RecordFault::OutOfMemory) => Err(AllocError),
        Err(RecordFault::Line(line, fault)) => {
            Ok((complaint(alloc, line, fault)?, RecordEnd::LineFault))
        }
    }
}

/// Reads a record to its end, judges the calls at each key that it names, and writes the answer, which is complete before the first
/// write. Nothing is kept of a key's calls and its search after its verdict.
pub fn run<R: Read, W: Write>(
    alloc: Global,
    reader: &mut Noted<R>,
    writer: &mut Noted<W>,
    asked: &Asked,
) -> Result<RecordEnd, CheckFault>
    // The bytes written are the answer to the bytes read.
    ensures ran { IfOk result (λ end. ChecksRecord asked.now (R.remaining reader.old.inner) (R.remaining reader.new.inner) (W.contents writer.old.inner) (W.contents writer.new.inner) end) }
    // After a failed write they are a prefix of it.
    ensures broke { result ≡ Err CheckFault.Write → BreaksOffCheck asked.now (R.remaining reader.old.inner) (R.remaining reader.new.inner) (W.contents writer.old.inner) (W.contents writer.new.inner) }
    // Any other fault writes nothing.
    ensures silent { IfErr result (λ e. e ≢ CheckFault.Write → writer.new ≡ writer.old) }
    // `TooLong` means that the record is over the limit.
    ensures long { result ≡ Err CheckFault.TooLong → IfSome (R.remaining reader.old.inner) (λ xs. RECORD_MAX < length xs) }
    // Reading failed exactly if the reader did, and writing exactly if the writer did, in this call.
    ensures read_failed { reader.old.failed ≡ false → (result ≡ Err CheckFault.Read ↔ reader.new.failed ≡ true) }
    ensures write_failed { writer.old.failed ≡ false → (result ≡ Err CheckFault.Write ↔ writer.new.failed ≡ true) }
{
    let input = match read_all(alloc, reader) {
        Ok(input) => input,
        Err(InputFault::Read) => return Err(CheckFault::Read),
        Err(InputFault::TooLong) => return Err(CheckFault::TooLong),
        Err(InputFault::OutOfMemory) => return Err(CheckFault::OutOfMemory),
    };
    let (out, end) = match answered(alloc, asked, &input) {
        Ok(made) => made,
        Err(_) => return Err(CheckFault::OutOfMemory),
    };
    match write_out(writer, &out) {
        Ok(()) => Ok(end),
        Err(_) => Err(CheckFault::Write),
    }
}
