//! All that a reader gives, and all that a writer takes.
ghost use Rattle.std.specs.Prelude.{◌≡◌, ◌<◌, ◌≤◌, ◌↔◌, ℕ, take, length, IfOk, IfErr, IsErr, OnOk, OnErr};
ghost use Rattle.std.specs.Prelude.{IfSome, true, false};
ghost use Rattle.std.specs.Io.KnownBytes.{Appends};
ghost use Rattle.jc_text.specs.Input.{ReadsAll};

use crate::noted::Noted;
use jc_types::SCRIPT_MAX;
use std::alloc::Global;
use std::io::{Read, Write};

/// Why an input could not be had.
#[derive(Clone, Copy, Debug)]
pub enum InputFault {
    /// The reader failed.
    Read,
    /// It gives more than [`SCRIPT_MAX`] bytes.
    TooLong,
    /// An allocation failed.
    OutOfMemory,
}

/// All the bytes that the reader gives. An error of the reader is not retried.
pub fn read_all<R: Read>(alloc: Global, reader: &mut Noted<R>) -> Result<Vec<u8>, InputFault>
    ensures ok { IfOk result (λ v. ReadsAll (R.remaining reader.old.inner) (R.remaining reader.new.inner) v.items) }
    ensures long { IfErr result (λ e. e ≡ InputFault.TooLong → IfSome (R.remaining reader.old.inner) (λ xs. SCRIPT_MAX < length xs)) }
    ensures failed { reader.old.failed ≡ false → (result ≡ Err InputFault.Read ↔ reader.new.failed ≡ true) }
{
    let mut input = Vec::new(alloc);
    let mut chunk = [0u8; 65536];
    while input.len() <= SCRIPT_MAX {
        let room = chunk.len().min(SCRIPT_MAX + 1 - input.len());
        let n = match reader.read(&mut chunk[..room]) {
            Ok(n) => n,
            Err(_) => return Err(InputFault::Read),
        };
        if n == 0 {
            return Ok(input);
        }
        match input.extend_from_slice(&chunk[..n]) {
            Ok(()) => {}
            Err(_) => return Err(InputFault::OutOfMemory),
        }
    }
    Err(InputFault::TooLong)
}

/// A write that failed.
#[derive(Clone, Copy, Debug)]
pub struct OutputFault;

/// Writes all the bytes. An error of the writer is not retried, and a write of nothing is an error.
pub fn write_out<W: Write>(writer: &mut Noted<W>, bytes: &[u8]) -> Result<(), OutputFault>
    ensures ok { OnOk result (Appends (W.contents writer.old.inner) (W.contents writer.new.inner) bytes.now) }
    ensures err { OnErr result ((n : ℕ) × (n ≤ length bytes.now) × Appends (W.contents writer.old.inner) (W.contents writer.new.inner) (take n bytes.now)) }
    ensures failed { writer.old.failed ≡ false → (IsErr result ↔ writer.new.failed ≡ true) }
{
    let mut at = 0;
    while at < bytes.len() {
        match writer.write(&bytes[at..]) {
            Ok(0) => return Err(OutputFault),
            Ok(n) => at += n,
            Err(_) => return Err(OutputFault),
        }
    }
    Ok(())
}
