//! Readers and writers that note their failures, so that a contract can say that one failed.
ghost use Rattle.std.specs.Prelude.{◌≡◌, ◌||◌, false, is_ok, is_some, not, OnOk};
ghost use Rattle.std.specs.Io.{ReadsAtMost, WritesAtMost};
ghost use Rattle.std.specs.Io.KnownBytes.{Appends, Keeps, ReadConsumes, WriteAppends};
ghost use Rattle.jc_text.specs.Noting.{is_failed_write};

use std::io;
use std::io::{Read, Write};
use std::marker::Model;

/// A reader or a writer that notes whether a call of it has failed, and why. The note is never taken back.
#[derive(Drop)]
pub struct Noted<S> {
    inner: S,
    failure: Option<io::ErrorKind>,
}

impl<S> Model for Noted<S> {
    ghost use Rattle.std.specs.Prelude.{is_some};
    ghost use Rattle.jc_text.specs.Noting.{Noting};

    ghost Value = { Noting S };

    ghost view = { λ n. record { inner = n.inner; failed = is_some n.failure } };
}

impl<S> Noted<S> {
    /// A stream none of whose calls has failed yet.
    pub fn new(inner: S) -> Self
        ensures { result ≡ record { inner = inner; failed = false } }
    {
        Noted {
            inner,
            failure: None,
        }
    }

    /// Why the last call that failed has failed. None says that no call has.
    pub fn failure(&self) -> Option<io::ErrorKind>
        ensures { is_some result ≡ self.now.failed }
    {
        self.failure
    }
}

impl<R: Read> Read for Noted<R> {
    ghost remaining = { λ n. R.remaining n.inner };

    fn read(&mut self, buf: &mut [u8]) -> io::Result<usize>
        ensures bound { ReadsAtMost result buf.new }
        ensures bytes { ReadConsumes (R.remaining self.old.inner) (R.remaining self.new.inner) result buf.new }
        ensures noted { self.new.failed ≡ (self.old.failed || not (is_ok result)) }
    {
        let read = self.inner.read(buf);
        if let Err(error) = &read {
            self.failure = Some(error.kind());
        }
        read
    }
}

impl<W: Write> Write for Noted<W> {
    ghost contents = { λ n. W.contents n.inner };

    /// A write that takes nothing of some bytes is a failure, too.
    fn write(&mut self, buf: &[u8]) -> io::Result<usize>
        ensures bound { WritesAtMost result buf.now }
        ensures bytes { WriteAppends (W.contents self.old.inner) (W.contents self.new.inner) result buf.now }
        ensures noted { self.new.failed ≡ (self.old.failed || is_failed_write result buf.now) }
    {
        let written = self.inner.write(buf);
        match &written {
            Ok(n) => {
                if *n == 0 && !buf.is_empty() {
                    self.failure = Some(io::ErrorKind::WriteZero);
                }
            }
            Err(error) => self.failure = Some(error.kind()),
        }
        written
    }

    fn flush(&mut self) -> io::Result<()>
        ensures bytes { Keeps (W.contents self.old.inner) (W.contents self.new.inner) }
        ensures noted { self.new.failed ≡ (self.old.failed || not (is_ok result)) }
    {
        let flushed = self.inner.flush();
        if let Err(error) = &flushed {
            self.failure = Some(error.kind());
        }
        flushed
    }

    fn write_all(&mut self, buf: &[u8]) -> io::Result<()>
        ensures bytes { OnOk result (Appends (W.contents self.old.inner) (W.contents self.new.inner) buf.now) }
        ensures noted { self.new.failed ≡ (self.old.failed || not (is_ok result)) }
    {
        let written = self.inner.write_all(buf);
        if let Err(error) = &written {
            self.failure = Some(error.kind());
        }
        written
    }
}
