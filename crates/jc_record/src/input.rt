//! All that a reader gives, up to the length of a record.
ghost use Rattle.std.specs.Prelude.{◌≡◌, ◌<◌, ◌↔◌, length, IfOk, IfErr, IfSome, true, false};
ghost use Rattle.jc_record.specs.Running.{TakesAll};

use jc_text::Noted;
use jc_text::input::InputFault;
use std::alloc::Global;
use std::io::Read;

/// The most bytes of a record.
pub const RECORD_MAX: usize = 1_073_741_824;

/// All the bytes that the reader gives. An error of the reader is not retried.
pub(crate) fn read_all<R: Read>(alloc: Global, reader: &mut Noted<R>) -> Result<Vec<u8>, InputFault>
    ensures ok { IfOk result (λ v. TakesAll (R.remaining reader.old.inner) (R.remaining reader.new.inner) v.items) }
    ensures long { IfErr result (λ e. e ≡ InputFault.TooLong → IfSome (R.remaining reader.old.inner) (λ xs. RECORD_MAX < length xs)) }
    ensures failed { reader.old.failed ≡ false → (result ≡ Err InputFault.Read ↔ reader.new.failed ≡ true) }
{
    let mut input = Vec::new(alloc);
    let mut chunk = [0u8; 65536];
    while input.len() <= RECORD_MAX {
        let room = chunk.len().min(RECORD_MAX + 1 - input.len());
        let n = match reader.read(&mut chunk[..room]) {
            Ok(n) => n,
            Err(_) => return Err(InputFault::Read),
        };
        if n == 0 {
            return Ok(input);
        }
        match input.extend_from_slice(&chunk[..n]) {
            Ok(()) => {}
            Err(_) => return Err(InputFault::OutOfMemory),
        }
    }
    Err(InputFault::TooLong)
}
