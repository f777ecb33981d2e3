//! The run of a program, from the bytes that are read to the bytes that are written.
ghost use Rattle.std.specs.Prelude.{◌≡◌, ◌≢◌, ◌↔◌, true, false, ◌<◌, ◌++◌, ℕ, List, length, IfOk, IfErr, IfSome, OnOk};
ghost use Rattle.jc_litmus.specs.Judging.{end_of};
ghost use Rattle.jc_litmus.specs.Outcomes.{exploration_text};
ghost use Rattle.jc_explore.specs.Search.{HasExplored};
ghost use Rattle.jc_litmus.specs.UnknownValues.{warnings_text};
ghost use Rattle.jc_litmus.specs.Running.{AnswersProgram, BreaksOffExploration, IsProgramAnswer, RunsExploration};

use crate::answer::{answer, complaint};
use crate::judge::end_of;
use crate::program::{Litmus, ProgramFault};
use crate::reading::read_program;
use crate::unknown_values::put_warnings;
use jc_explore::{Explored, Watch, explore};
use jc_text::Noted;
use jc_text::input::{InputFault, read_all, write_out};
use jc_types::SCRIPT_MAX;
use std::alloc::{AllocError, Global};
use std::io::{Read, Write};
use thiserror::Error;

/// The end of a program's run.
#[derive(Clone, Copy, Debug, PartialEq, Eq)]
pub enum LitmusEnd {
    /// All outcomes were found, and each expectation holds.
    Holds,
    /// A line of the program is at fault.
    LineFault,
    /// An expectation fails.
    Fails,
    /// No expectation fails by the outcomes that were found, and there may be others.
    Open,
}

/// Why a run could not be made.
#[derive(Clone, Copy, Debug, PartialEq, Eq, Error)]
pub enum LitmusFault {
    /// The reader failed. Nothing was written.
    #[error("read failed")]
    Read,
    /// The program has more than [`SCRIPT_MAX`] bytes. Nothing was written.
    #[error("input too long")]
    TooLong,
    /// An allocation failed. Nothing was written.
    #[error("out of memory")]
    OutOfMemory,
    /// The writer failed. A prefix of the answer was written.
    #[error("write failed")]
    Write,
}

/// The text of the answer to a program that was read, and explored with this budget of states.
fn text_of(
    alloc: Global,
    states: usize,
    litmus: &Litmus,
    explored: &Explored,
) -> Result<Vec<u8>, AllocError>
    ensures { IfOk result (λ out. out.items
        ≡ exploration_text states litmus.now.program explored.now litmus.now.expectations.items) }
{
    let (program, expectations) = (&litmus.program, litmus.expectations.as_slice());
    answer(alloc, states, program, explored, expectations)
}

/// The end of the run of such a program.
fn end_with(litmus: &Litmus, explored: &Explored) -> LitmusEnd
    ensures { result ≡ end_of explored.now litmus.now.expectations.items }
{
    end_of(explored, &litmus.expectations)
}

/// The answer to a program that was read, and explored.
fn answer_to(
    alloc: Global,
    states: usize,
    litmus: &Litmus,
    explored: &Explored,
) -> Result<(Vec<u8>, LitmusEnd), AllocError>
    requires { HasExplored litmus.now.program states explored.now }
    ensures { IfOk result (λ r. IsProgramAnswer states litmus.now r.0.items r.1) }
{
    let out = text_of(alloc, states, litmus, explored)?;
    Ok((out, end_with(litmus, explored)))
}

/// The answer to a program that was read.
fn answer_to_read<H: Watch>(
    alloc: Global,
    litmus: &Litmus,
    states: usize,
    watch: &mut H,
) -> Result<(Vec<u8>, LitmusEnd), AllocError>
    ensures { IfOk result (λ r. IsProgramAnswer states litmus.now r.0.items r.1) }
{
    match explore(alloc, &litmus.program, states, watch) {
        Ok(explored) => answer_to(alloc, states, litmus, &explored),
        Err(_) => Err(AllocError),
    }
}

/// Notes the values of expectations that no line of the program sets or writes.
fn warn_of(litmus: &Litmus, notes: &mut Vec<u8>) -> Result<(), AllocError>
    ensures { OnOk result (notes.new.items ≡ notes.old.items ++ warnings_text litmus.now.program litmus.now.expectations.items) }
{
    put_warnings(notes, &litmus.program, &litmus.expectations)
}

/// The answer to a program's text. `notes` gets what is to be said of it.
fn answer_to_input<H: Watch>(
    alloc: Global,
    input: &[u8],
    states: usize,
    watch: &mut H,
    notes: &mut Vec<u8>,
) -> Result<(Vec<u8>, LitmusEnd), AllocError>
    ensures { IfOk result (λ r. (said : List ℕ) × AnswersProgram states input.now r.0.items said r.1 × (notes.new.items ≡ notes.old.items ++ said)) }
{
    match read_program(alloc, input, notes) {
        Ok(litmus) => {
            warn_of(&litmus, notes)?;
            answer_to_read(alloc, &litmus, states, watch)
        }
        Err(ProgramFault::OutOfMemory) => Err(AllocError),
        Err(ProgramFault::Line(line, fault)) => {
            Ok((complaint(alloc, line, fault)?, LitmusEnd::LineFault))
        }
    }
}

/// Reads a program to its end, explores it, and writes the answer, which is complete before the first write. `watch` is told the
/// progress of the search, and that it is over before anything is written.
///
/// Lines for people are put at the end of `notes`: of a line with a fault its number, the column if there is one, and what is wrong
/// there; of a program without one each value in an expectation that no line of the program sets or writes. After an error there may
/// be such lines, too.
pub fn run<R: Read, W: Write, H: Watch>(
    alloc: Global,
    reader: &mut Noted<R>,
    writer: &mut Noted<W>,
    states: usize,
    watch: &mut H,
    notes: &mut Vec<u8>,
) -> Result<LitmusEnd, LitmusFault>
    // The bytes written are the answer to the bytes read, and the notes say where its fault is, or which values are unknown.
    ensures ran { IfOk result (λ end. RunsExploration states (R.remaining reader.old.inner) (R.remaining reader.new.inner) (W.contents writer.old.inner)
        (W.contents writer.new.inner) notes.old.items notes.new.items end) }
    // After a failed write they are a prefix of it.
    ensures broke { result ≡ Err LitmusFault.Write → BreaksOffExploration states (R.remaining reader.old.inner) (R.remaining reader.new.inner) (W.contents writer.old.inner) (W.contents writer.new.inner) }
    // Any other fault writes nothing.
    ensures silent { IfErr result (λ e. e ≢ LitmusFault.Write → writer.new ≡ writer.old) }
    // `TooLong` means that the program is over the limit.
    ensures long { result ≡ Err LitmusFault.TooLong → IfSome (R.remaining reader.old.inner) (λ xs. SCRIPT_MAX < length xs) }
    // Reading failed exactly if the reader did, and writing exactly if the writer did, in this call.
    ensures read_failed { reader.old.failed ≡ false → (result ≡ Err LitmusFault.Read ↔ reader.new.failed ≡ true) }
    ensures write_failed { writer.old.failed ≡ false → (result ≡ Err LitmusFault.Write ↔ writer.new.failed ≡ true) }
{
    let input = match read_all(alloc, reader) {
        Ok(input) => input,
        Err(InputFault::Read) => return Err(LitmusFault::Read),
        Err(InputFault::TooLong) => return Err(LitmusFault::TooLong),
        Err(InputFault::OutOfMemory) => return Err(LitmusFault::OutOfMemory),
    };
    let (out, end) = match answer_to_input(alloc, &input, states, watch, notes) {
        Ok(made) => made,
        Err(_) => return Err(LitmusFault::OutOfMemory),
    };
    match write_out(writer, &out) {
        Ok(()) => Ok(end),
        Err(_) => Err(LitmusFault::Write),
    }
}
