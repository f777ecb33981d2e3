//! A script's run, from the bytes that are read to the bytes that are written.
ghost use Rattle.std.specs.Prelude.{◌≡◌, ◌≢◌, ◌↔◌, true, false, ◌<◌, ◌≤◌, None, length, IfOk, IfErr, IfSome};
ghost use Rattle.jc_script.specs.Transcript.{IsTranscript};
ghost use Rattle.jc_script.specs.Running.{Explains, RunsScript, BreaksOffScript};

use crate::play::Player;
use jc_text::input::{InputFault, read_all, write_out};
use jc_text::lines::first_line;
use jc_text::print::place::put_complaint;
use jc_text::print::put_fault;
use jc_text::{Fault, Noted};
use jc_types::SCRIPT_MAX;
use std::alloc::{AllocError, Global};
use std::io::{Read, Write};
use thiserror::Error;

/// How a run ended.
#[derive(Clone, Copy, Debug, PartialEq, Eq)]
pub enum RunEnd {
    /// At the end of the script.
    Clean,
    /// At the fault of the line with this number. The first line is 1.
    LineFault(u64),
}

/// Why a run could not be made.
#[derive(Clone, Copy, Debug, PartialEq, Eq, Error)]
pub enum RunFault {
    /// The reader failed. Nothing was written.
    #[error("read failed")]
    Read,
    /// The script has more than [`SCRIPT_MAX`] bytes. Nothing was written.
    #[error("input too long")]
    TooLong,
    /// An allocation failed. Nothing was written.
    #[error("out of memory")]
    OutOfMemory,
    /// The writer failed. A prefix of the transcript was written.
    #[error("write failed")]
    Write,
}

/// The transcript of a script, by a player whose world is still to be opened. At a fault `told` gets what is to be said of it.
fn lines(
    alloc: Global,
    input: &[u8],
    player: &mut Player,
    told: &mut Vec<u8>,
) -> Result<(Vec<u8>, RunEnd), AllocError>
    requires closed { player.old.world ≡ None }
    requires fits { length input.now ≤ SCRIPT_MAX }
    ensures transcript { IfOk result (λ r. IsTranscript input.now r.0.items r.1) }
    ensures told { IfOk result (λ r. Explains input.now r.0.items told.old.items told.new.items r.1) }
{
    let mut out = Vec::new(alloc);
    let mut words = Vec::new(alloc);
    let mut rest = input;
    let mut number: u64 = 1;
    while let Some((text, after)) = first_line(rest) {
        match player.play(alloc, text, &mut words, &mut out)? {
            None => {}
            Some(fault) => {
                put_fault(&mut out, number, fault)?;
                put_complaint(alloc, told, number, text, fault)?;
                return Ok((out, RunEnd::LineFault(number)));
            }
        }
        rest = after;
        number += 1;
    }
    if rest.is_empty() {
        return Ok((out, RunEnd::Clean));
    }
    put_fault(&mut out, number, Fault::CutLine)?;
    put_complaint(alloc, told, number, rest, Fault::CutLine)?;
    Ok((out, RunEnd::LineFault(number)))
}

fn transcript(
    alloc: Global,
    input: &[u8],
    told: &mut Vec<u8>,
) -> Result<(Vec<u8>, RunEnd), AllocError>
    requires { length input.now ≤ SCRIPT_MAX }
    ensures transcript { IfOk result (λ r. IsTranscript input.now r.0.items r.1) }
    ensures told { IfOk result (λ r. Explains input.now r.0.items told.old.items told.new.items r.1) }
{
    let mut player = Player::new(alloc);
    let made = lines(alloc, input, &mut player, told);
    player.close();
    made
}

/// Reads a script to its end, and writes its transcript, which is made whole before the first write. If it ends at the fault of a line,
/// one line more is put at the end of `told`, for people: the line's number, the column if there is one, and what is wrong there. After
/// an error there may be such a line, too.
pub fn run<R: Read, W: Write>(
    alloc: Global,
    reader: &mut Noted<R>,
    writer: &mut Noted<W>,
    told: &mut Vec<u8>,
) -> Result<RunEnd, RunFault>
    // What was written is the transcript of what was read, and what was told says where its fault is.
    ensures ran { IfOk result (λ end. RunsScript (R.remaining reader.old.inner) (R.remaining reader.new.inner) (W.contents writer.old.inner)
        (W.contents writer.new.inner) told.old.items told.new.items end) }
    // After a failed write, a prefix of it.
    ensures broke { result ≡ Err RunFault.Write → BreaksOffScript (R.remaining reader.old.inner) (R.remaining reader.new.inner) (W.contents writer.old.inner) (W.contents writer.new.inner) }
    // Any other fault writes nothing.
    ensures silent { IfErr result (λ e. e ≢ RunFault.Write → writer.new ≡ writer.old) }
    // A script is too long only over the limit.
    ensures long { result ≡ Err RunFault.TooLong → IfSome (R.remaining reader.old.inner) (λ xs. SCRIPT_MAX < length xs) }
    // Reading failed exactly if the reader did, and writing exactly if the writer did, in this call.
    ensures read_failed { reader.old.failed ≡ false → (result ≡ Err RunFault.Read ↔ reader.new.failed ≡ true) }
    ensures write_failed { writer.old.failed ≡ false → (result ≡ Err RunFault.Write ↔ writer.new.failed ≡ true) }
{
    let input = match read_all(alloc, reader) {
        Ok(input) => input,
        Err(InputFault::Read) => return Err(RunFault::Read),
        Err(InputFault::TooLong) => return Err(RunFault::TooLong),
        Err(InputFault::OutOfMemory) => return Err(RunFault::OutOfMemory),
    };
    let (out, end) = match transcript(alloc, &input, told) {
        Ok(made) => made,
        Err(_) => return Err(RunFault::OutOfMemory),
    };
    match write_out(writer, &out) {
        Ok(()) => Ok(end),
        Err(_) => Err(RunFault::Write),
    }
}
