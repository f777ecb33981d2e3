//! A session over streams: from the lines that are read to the answers that are written.
ghost use Rattle.std.specs.Prelude.{◌≡◌, ◌≢◌, ◌⊎◌, ◌↔◌, ◌++◌, ◌∷◌, ◌+◌, ◌<◌, ◌≤◌, [], List, ℕ, true, false, length, IfOk, IfErr, IfSome, MatchOption, OnOk};
ghost use Rattle.std.specs.Io.KnownBytes.{Appends, Consumes, IsAtEnd};
ghost use Rattle.jc_script.specs.Transcript.{opened_world};
ghost use Rattle.jc_shell.specs.Holding.{Holds};
ghost use Rattle.jc_shell.specs.Running.{BeginsWithQuit, LastText, LateCalls, RunsDialogue, Stopped, StopsAtAnswer, WrittenBy, cut_text, prompt_end};
ghost use Rattle.jc_shell.specs.Saving.{Calls, SaveCall};
ghost use Rattle.jc_shell.specs.Sessions.{Accepted, AnswersLine, AreAnswered, has_feed, nobody, script_of};
ghost use Rattle.jc_shell.specs.ShellWords.{word_of};
ghost use Rattle.jc_shell.specs.declared.words.Word.TheVariants as words;

use crate::save::Save;
use crate::session::Dialogue;
use crate::words::{Word, word_of};
use jc_text::input::write_out;
use jc_text::lines::first_line;
use jc_text::{Fault, Noted};
use jc_types::SCRIPT_MAX;
use std::alloc::{AllocError, Global};
use std::io::{Read, Write};
use thiserror::Error;

/// Why a session ended before its input did.
#[derive(Clone, Copy, Debug, PartialEq, Eq, Error)]
pub enum ShellFault {
    /// The reader failed. Each complete line that was read before is answered.
    #[error("read failed")]
    Read,
    /// The input has more than [`SCRIPT_MAX`] bytes. Each complete line that was read is answered.
    #[error("input too long")]
    TooLong,
    /// An allocation failed. The first of the complete lines that were read are answered.
    #[error("out of memory")]
    OutOfMemory,
    /// The writer failed. A prefix of the answers was written.
    #[error("write failed")]
    Write,
}

/// Writes a text.
fn say<W: Write>(writer: &mut Noted<W>, text: &[u8]) -> Result<(), ShellFault>
    ensures ok { OnOk result (Appends (W.contents writer.old.inner) (W.contents writer.new.inner) text.now) }
    ensures err { IfErr result (λ e. (e ≡ ShellFault.Write) × ((written : List ℕ) × WrittenBy ShellFault.Write text.now written × Appends (W.contents writer.old.inner) (W.contents writer.new.inner) written)) }
    ensures failed { writer.old.failed ≡ false → (result ≡ Err ShellFault.Write ↔ writer.new.failed ≡ true) }
{
    match write_out(writer, text) {
        Ok(()) => Ok(()),
        Err(_) => Err(ShellFault::Write),
    }
}

/// Writes an answer, and the prompt.
fn say_both<W: Write>(writer: &mut Noted<W>, answer: &[u8], prompt: &[u8]) -> Result<(), ShellFault>
    ensures ok { OnOk result (Appends (W.contents writer.old.inner) (W.contents writer.new.inner) (answer.now ++ prompt.now)) }
    ensures err { IfErr result (λ e. (e ≡ ShellFault.Write) × ((written : List ℕ) × WrittenBy ShellFault.Write (answer.now ++ prompt.now) written × Appends (W.contents writer.old.inner) (W.contents writer.new.inner) written)) }
    ensures failed { writer.old.failed ≡ false → (result ≡ Err ShellFault.Write ↔ writer.new.failed ≡ true) }
{
    match say(writer, answer) {
        Ok(()) => say(writer, prompt),
        Err(fault) => Err(fault),
    }
}

/// Answers a line, and writes the answer and the prompt.
fn answer_line<W: Write, S: Save>(
    alloc: Global,
    prompt: &[u8],
    session: &mut Dialogue,
    line: &[u8],
    writer: &mut Noted<W>,
    saves: &mut S,
) -> Result<(), ShellFault>
    requires whole { has_feed line.now ≡ false }
    requires goes_on { word_of line.now ≢ words.Quit }
    ensures ok { OnOk result ((a : Accepted) → Holds a session.old.script.items session.old.lines (opened_world session.old.player.world)
        → (answer : List ℕ) × (calls : List SaveCall) × (b : Accepted)
        × Holds b session.new.script.items session.new.lines (opened_world session.new.player.world)
        × AnswersLine a line.now answer calls b
        × Appends (W.contents writer.old.inner) (W.contents writer.new.inner) (answer ++ prompt.now)
        × Calls (S.calls saves.old) (S.calls saves.new) calls) }
    ensures kinds { IfErr result (λ e. (e ≡ ShellFault.Write) ⊎ (e ≡ ShellFault.OutOfMemory)) }
    // The line was answered, and a prefix of the answer was written; or an allocation for the answer failed.
    ensures err { IfErr result (λ e. (a : Accepted) → Holds a session.old.script.items session.old.lines (opened_world session.old.player.world)
        → (answered : List (List ℕ)) × (answers : List ℕ) × (written : List ℕ) × (calls : List SaveCall) × (late : List SaveCall) × (b : Accepted)
        × ((answered ≡ []) ⊎ (answered ≡ line.now ∷ []))
        × AreAnswered prompt.now a answered answers calls b
        × WrittenBy e answers written
        × Appends (W.contents writer.old.inner) (W.contents writer.new.inner) written
        × LateCalls e late × Calls (S.calls saves.old) (S.calls saves.new) (calls ++ late)
        × (e ≡ ShellFault.Write → StopsAtAnswer prompt.now [] a answered answers calls b written)) }
    ensures failed { writer.old.failed ≡ false → (result ≡ Err ShellFault.Write ↔ writer.new.failed ≡ true) }
{
    let mut out = Vec::new(alloc);
    match session.answer(alloc, line, saves, &mut out) {
        Ok(()) => say_both(writer, &out, prompt),
        Err(_) => Err(ShellFault::OutOfMemory),
    }
}

/// Answers each complete line of these bytes, up to one that ends the session. `Some` has the number of bytes after the last
/// line; `None` says that a line ended the session.
fn answer_lines<W: Write, S: Save>(
    alloc: Global,
    prompt: &[u8],
    session: &mut Dialogue,
    bytes: &[u8],
    writer: &mut Noted<W>,
    saves: &mut S,
) -> Result<Option<usize>, ShellFault>
    ensures ok { IfOk result (λ left. (a : Accepted) → Holds a session.old.script.items session.old.lines (opened_world session.old.player.world)
        → (lines : List (List ℕ)) × (answers : List ℕ) × (calls : List SaveCall) × (b : Accepted) × (rest : List ℕ)
        × AreAnswered prompt.now a lines answers calls b
        × (bytes.now ≡ script_of lines ++ rest)
        × Appends (W.contents writer.old.inner) (W.contents writer.new.inner) answers
        × Calls (S.calls saves.old) (S.calls saves.new) calls
        × MatchOption left (BeginsWithQuit rest)
        (λ n. (n ≡ length rest) × (has_feed rest ≡ false)
        × Holds b session.new.script.items session.new.lines (opened_world session.new.player.world))) }
    ensures kinds { IfErr result (λ e. (e ≡ ShellFault.Write) ⊎ (e ≡ ShellFault.OutOfMemory)) }
    ensures err { IfErr result (λ e. (a : Accepted) → Holds a session.old.script.items session.old.lines (opened_world session.old.player.world)
        → (lines : List (List ℕ)) × (answers : List ℕ) × (written : List ℕ) × (calls : List SaveCall) × (late : List SaveCall) × (b : Accepted) × (rest : List ℕ)
        × AreAnswered prompt.now a lines answers calls b
        × (bytes.now ≡ script_of lines ++ rest)
        × WrittenBy e answers written
        × Appends (W.contents writer.old.inner) (W.contents writer.new.inner) written
        × LateCalls e late × Calls (S.calls saves.old) (S.calls saves.new) (calls ++ late)
        × (e ≡ ShellFault.Write → StopsAtAnswer prompt.now [] a lines answers calls b written)) }
    ensures failed { writer.old.failed ≡ false → (result ≡ Err ShellFault.Write ↔ writer.new.failed ≡ true) }
{
    let mut rest = bytes;
    while let Some((line, after)) = first_line(rest) {
        if word_of(line) == Word::Quit {
            return Ok(None);
        }
        match answer_line(alloc, prompt, session, line, writer, saves) {
            Ok(()) => rest = after,
            Err(fault) => return Err(fault),
        }
    }
    Ok(Some(rest.len()))
}

/// Ends the line of a prompt after which nothing was typed. Without prompts nobody types, and there is no such line.
fn end_prompt(prompt: &[u8], out: &mut Vec<u8>) -> Result<(), AllocError>
    ensures { OnOk result (out.new.items ≡ out.old.items ++ prompt_end prompt.now) }
{
    if prompt.is_empty() {
        return Ok(());
    }
    out.push(b'\n')?;
    Ok(())
}

/// Appends that the end of the input cuts a line, if it does.
fn put_cut_line(
    alloc: Global,
    session: &Dialogue,
    last: &[u8],
    out: &mut Vec<u8>,
) -> Result<(), AllocError>
    ensures { OnOk result (out.new.items ≡ out.old.items ++ cut_text (session.now.lines + 1) last.now) }
{
    if last.is_empty() {
        return Ok(());
    }
    session.explain(alloc, last, Fault::CutLine, out)?;
    Ok(())
}

/// The text for the end of the input, after these last bytes.
fn last_text(
    alloc: Global,
    prompt: &[u8],
    session: &Dialogue,
    last: &[u8],
) -> Result<Vec<u8>, AllocError>
    ensures { IfOk result (λ text. (a : Accepted)
        → Holds a session.now.script.items session.now.lines (opened_world session.now.player.world)
        → LastText prompt.now a last.now text.items) }
{
    let mut out = Vec::new(alloc);
    end_prompt(prompt, &mut out)?;
    put_cut_line(alloc, session, last, &mut out)?;
    Ok(out)
}

/// Writes the text for the end of the input.
fn end_input<W: Write>(
    alloc: Global,
    prompt: &[u8],
    session: &Dialogue,
    last: &[u8],
    writer: &mut Noted<W>,
) -> Result<(), ShellFault>
    ensures ok { OnOk result ((a : Accepted) → Holds a session.now.script.items session.now.lines (opened_world session.now.player.world)
        → (text : List ℕ) × LastText prompt.now a last.now text
        × Appends (W.contents writer.old.inner) (W.contents writer.new.inner) text) }
    ensures kinds { IfErr result (λ e. (e ≡ ShellFault.Write) ⊎ (e ≡ ShellFault.OutOfMemory)) }
    ensures err { IfErr result (λ e. (a : Accepted) → Holds a session.now.script.items session.now.lines (opened_world session.now.player.world)
        → (text : List ℕ) × (written : List ℕ) × ((text ≡ []) ⊎ ((e ≡ ShellFault.Write) × LastText prompt.now a last.now text))
        × WrittenBy e text written × Appends (W.contents writer.old.inner) (W.contents writer.new.inner) written) }
    ensures failed { writer.old.failed ≡ false → (result ≡ Err ShellFault.Write ↔ writer.new.failed ≡ true) }
{
    match last_text(alloc, prompt, session, last) {
        Ok(text) => say(writer, &text),
        Err(_) => Err(ShellFault::OutOfMemory),
    }
}

/// Reads more of the input. A `false` says that the input has ended.
fn read_more<R: Read>(reader: &mut Noted<R>, input: &mut Vec<u8>) -> Result<bool, ShellFault>
    requires { length input.old.items ≤ SCRIPT_MAX }
    ensures ok { IfOk result (λ more. (bytes : List ℕ) × (input.new.items ≡ input.old.items ++ bytes)
        × Consumes (R.remaining reader.old.inner) (R.remaining reader.new.inner) bytes
        × (length input.new.items ≤ SCRIPT_MAX + 1)
        × (more ≡ true → length input.old.items < length input.new.items)
        × (more ≡ false → (bytes ≡ []) × IsAtEnd (R.remaining reader.new.inner))) }
    // A read that fails takes nothing.
    ensures err { IfErr result (λ e. (e ≢ ShellFault.Write) × (e ≢ ShellFault.TooLong)
        × ((bytes : List ℕ) × (e ≡ ShellFault.Read → bytes ≡ []) × Consumes (R.remaining reader.old.inner) (R.remaining reader.new.inner) bytes
        × (length input.old.items + length bytes ≤ SCRIPT_MAX + 1))) }
    ensures failed { reader.old.failed ≡ false → (result ≡ Err ShellFault.Read ↔ reader.new.failed ≡ true) }
{
    let mut chunk = [0u8; 4096];
    let room = chunk.len().min(SCRIPT_MAX + 1 - input.len());
    let n = match reader.read(&mut chunk[..room]) {
        Ok(n) => n,
        Err(_) => return Err(ShellFault::Read),
    };
    match input.extend_from_slice(&chunk[..n]) {
        Ok(()) => Ok(n != 0),
        Err(_) => Err(ShellFault::OutOfMemory),
    }
}

/// Reads lines to the end of the input, and answers each before it reads more.
///
/// The bytes written are the answers to the lines that were read, and the calls of `save` are those that these lines ask for. After
/// an error this holds up to there; if reading failed or the input is too long, no complete line is left over; after a failed
/// write, a prefix of the answers was written, and all but the last one whole. At most a byte over the limit is read, and `TooLong`
/// means that this one was. Reading failed exactly if the reader did, and writing exactly if the writer did, in this call.
fn converse<R: Read, W: Write, S: Save>(
    alloc: Global,
    prompt: &[u8],
    session: &mut Dialogue,
    reader: &mut Noted<R>,
    writer: &mut Noted<W>,
    saves: &mut S,
) -> Result<(), ShellFault>
    requires { Holds nobody session.old.script.items session.old.lines (opened_world session.old.player.world) }
    ensures ran { OnOk result (RunsDialogue prompt.now (R.remaining reader.old.inner) (R.remaining reader.new.inner) (W.contents writer.old.inner)
        (W.contents writer.new.inner) (S.calls saves.old) (S.calls saves.new)) }
    ensures stopped { IfErr result (λ e. Stopped prompt.now e (R.remaining reader.old.inner) (R.remaining reader.new.inner) (W.contents writer.old.inner)
        (W.contents writer.new.inner) (S.calls saves.old) (S.calls saves.new)) }
    ensures long { result ≡ Err ShellFault.TooLong → IfSome (R.remaining reader.old.inner) (λ xs. SCRIPT_MAX < length xs) }
    ensures read_failed { reader.old.failed ≡ false → (result ≡ Err ShellFault.Read ↔ reader.new.failed ≡ true) }
    ensures write_failed { writer.old.failed ≡ false → (result ≡ Err ShellFault.Write ↔ writer.new.failed ≡ true) }
{
    match say(writer, prompt) {
        Ok(()) => {}
        Err(fault) => return Err(fault),
    }
    let mut input = Vec::new(alloc);
    let mut at = 0;
    'reads: while input.len() <= SCRIPT_MAX {
        match read_more(reader, &mut input) {
            Err(fault) => return Err(fault),
            Ok(false) => return end_input(alloc, prompt, session, &input[at..], writer),
            Ok(true) => {
                match answer_lines(alloc, prompt, session, &input[at..], writer, saves) {
                    Err(fault) => return Err(fault),
                    Ok(None) => return Ok(()),
                    Ok(Some(left)) => at = input.len() - left,
                }
            }
        }
    }
    Err(ShellFault::TooLong)
}

/// Answers the lines of a script as they are read, up to the end of the input or a line `quit` or `exit`, and writes the prompt before it
/// reads a line. A line without a fault is played, and its answer is what it prints. A line with a fault does nothing, and its
/// answer tells the fault. `save NAME` saves the lines that were played, as a script; if `saves` refuses it, the answer shows the
/// reason.
///
/// All that was read is answered before more is read, so a person who types gets an answer to each line: tests show this, since no
/// clause can order two streams. If the input ends after a prompt, a line feed ends the prompt's line.
pub fn run<R: Read, W: Write, S: Save>(
    alloc: Global,
    prompt: &str,
    reader: &mut Noted<R>,
    writer: &mut Noted<W>,
    saves: &mut S,
) -> Result<(), ShellFault>
    // The bytes written are the answers to the lines that were read, and the calls of `save` are those that these lines ask for. At
    // most a byte over the limit was read.
    ensures ran { OnOk result (RunsDialogue prompt.now (R.remaining reader.old.inner) (R.remaining reader.new.inner) (W.contents writer.old.inner)
        (W.contents writer.new.inner) (S.calls saves.old) (S.calls saves.new)) }
    // After an error this holds up to there. If reading failed or the input is too long, no complete line is left over; after a
    // failed write, a prefix of the answers was written, and all but the last one whole, so no line is answered after it.
    ensures stopped { IfErr result (λ e. Stopped prompt.now e (R.remaining reader.old.inner) (R.remaining reader.new.inner) (W.contents writer.old.inner)
        (W.contents writer.new.inner) (S.calls saves.old) (S.calls saves.new)) }
    // `TooLong` means that the input is over the limit.
    ensures long { result ≡ Err ShellFault.TooLong → IfSome (R.remaining reader.old.inner) (λ xs. SCRIPT_MAX < length xs) }
    // Reading failed exactly if the reader did, and writing exactly if the writer did, in this call.
    ensures read_failed { reader.old.failed ≡ false → (result ≡ Err ShellFault.Read ↔ reader.new.failed ≡ true) }
    ensures write_failed { writer.old.failed ≡ false → (result ≡ Err ShellFault.Write ↔ writer.new.failed ≡ true) }
{
    let mut session = Dialogue::new(alloc);
    let ended = converse(
        alloc,
        prompt.as_bytes(),
        &mut session,
        reader,
        writer,
        saves,
    );
    session.close();
    ended
}
