//! What the program tells people on standard error, and the statuses that go with it.
ghost use Rattle.std.specs.Prelude.{◌≡◌, ◌⊎◌};
ghost use Rattle.jcache.specs.Exit.{status_without_words};

use crate::status::{STATUS_MEMORY, STATUS_STREAMS, STATUS_USAGE};
use jc_text::Noted;
use jc_text::lines::first_line;
use jc_types::SCRIPT_MAX;
use std::io::{self, Write};

/// Writes what failed. If this write fails, too, there is no one left to tell.
pub(crate) fn complain<E: Write>(err: &mut E, text: &str) {
    let _ = err.write_all(text.as_bytes());
}

/// Writes that a stream failed, and the cause if it is known.
pub(crate) fn complain_of<S, E: Write>(stream: &Noted<S>, err: &mut E, text: &str) {
    match stream.failure() {
        Some(why) => {
            let _ = write!(err, "jcache: {text}: {why}\n");
        }
        None => {
            let _ = write!(err, "jcache: {text}\n");
        }
    }
}

/// Writes that standard output failed, and returns the status. It writes nothing if the reader of standard output has closed it,
/// as `head` does: that reader has all that it wanted.
pub(crate) fn end_of_output<W, E: Write>(out: &Noted<W>, err: &mut E) -> u8
    ensures { result ≡ 3 }
{
    if !matches!(out.failure(), Some(io::ErrorKind::BrokenPipe)) {
        complain_of(out, err, "write failed");
    }
    STATUS_STREAMS
}

/// Writes that an allocation failed, and returns the status.
pub(crate) fn end_without_memory<E: Write>(err: &mut E) -> u8
    ensures { result ≡ 4 }
{
    complain(err, "jcache: out of memory\n");
    STATUS_MEMORY
}

/// Writes that the input is too long, and returns the status.
pub(crate) fn end_of_long_input<E: Write>(err: &mut E) -> u8
    ensures { result ≡ 3 }
{
    let _ = write!(err, "jcache: input too long: over {SCRIPT_MAX} bytes\n");
    STATUS_STREAMS
}

/// Writes why the words of the command line couldn't be read, and returns the status.
pub(crate) fn end_without_words<E: Write>(why: io::ErrorKind, err: &mut E) -> u8
    ensures status { result ≡ status_without_words why }
    ensures others { (result ≡ 2) ⊎ (result ≡ 4) }
{
    match why {
        io::ErrorKind::OutOfMemory => end_without_memory(err),
        _ => {
            complain(err, "jcache: a word of the command line isn't UTF-8\n");
            STATUS_USAGE
        }
    }
}

/// Writes a line for people: where a line's fault is, or a warning.
pub(crate) fn write_note<E: Write>(err: &mut E, note: &[u8]) {
    complain(err, "jcache: ");
    let _ = err.write_all(note);
}

/// Writes each of these lines.
pub(crate) fn write_notes<E: Write>(err: &mut E, notes: &[u8]) {
    let mut rest = notes;
    while let Some((note, after)) = first_line(rest) {
        write_note(err, note);
        complain(err, "\n");
        rest = after;
    }
}
