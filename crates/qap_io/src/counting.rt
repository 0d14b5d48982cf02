// A reader or a writer that counts its failures, and knows whether all is flushed.
ghost use Rattle.std.specs.Prelude.{◌≡◌, is_err, true, false};
ghost use Rattle.std.specs.Io.{ReadsAtMost, WritesAtMost};
ghost use Rattle.std.specs.Io.KnownBytes.{Keeps, ReadConsumes, WriteAppends};
ghost use Rattle.qap_io.specs.Counting.{is_failed_write, flushed_after, CountsCall};

use std::io;
use std::io::{Read, Write};
use std::marker::Model;

/// A reader or a writer, the number of its calls that failed, and whether all is flushed.
///
/// A read, a write or a flush that returns an error has failed, regardless of the error's kind, and so has a write that
/// accepts no bytes of a nonempty text. The count saturates at `u64::MAX`. All is flushed if no write came after the
/// last successful flush.
#[derive(Debug, Drop)]
pub struct Counted<T> {
    inner: T,
    failures: u64,
    flushed: bool,
}

impl<T> Model for Counted<T> {
    ghost use Rattle.std.specs.Prelude.{◌≤◌};
    ghost use Rattle.qap_io.specs.Counting.{CountedDevice, last_count};

    ghost Value = { CountedDevice T };

    ghost view = { λ c. record { inner = c.inner; failures = c.failures; flushed = c.flushed } };

    ghost invariant = { λ c. c.failures ≤ last_count };
}

impl<T> Counted<T> {
    /// The device, with no calls counted yet.
    pub fn new(inner: T) -> Counted<T>
        ensures inner { result.inner ≡ inner }
        ensures failures { result.failures ≡ 0 }
        ensures flushed { result.flushed ≡ true }
    {
        Counted {
            inner,
            failures: 0,
            flushed: true,
        }
    }

    /// How many calls have failed, at most `u64::MAX`.
    pub fn failed(&self) -> u64
        ensures { result ≡ self.now.failures }
    {
        self.failures
    }

    /// Whether no write came after the last flush that succeeded.
    pub fn is_flushed(&self) -> bool
        ensures { result ≡ self.now.flushed }
    {
        self.flushed
    }

    /// The device inside.
    pub fn get_ref(&self) -> &T
        ensures { result.now ≡ self.now.inner }
    {
        &self.inner
    }

    /// The device, without the count.
    pub fn into_inner(self) -> T
        ensures { result ≡ self.inner }
    {
        let Counted {
            inner,
            failures: _,
            flushed: _,
        } = self;
        inner
    }

    // Counts a call where it has failed.
    fn count(&mut self, failed: bool)
        ensures inner { self.new.inner ≡ self.old.inner }
        ensures failures { CountsCall failed self.old self.new }
        ensures flushed { self.new.flushed ≡ self.old.flushed }
    {
        if failed {
            self.failures = self.failures.saturating_add(1);
        }
    }
}

impl<R: Read> Read for Counted<R> {
    ghost remaining = { λ c. R.remaining c.inner };

    fn read(&mut self, buf: &mut [u8]) -> io::Result<usize>
        ensures bound { ReadsAtMost result buf.new }
        ensures bytes { ReadConsumes (R.remaining self.old.inner) (R.remaining self.new.inner) result buf.new }
        ensures count { CountsCall (is_err result) self.old self.new }
        ensures flushed { self.new.flushed ≡ self.old.flushed }
    {
        let result = self.inner.read(buf);
        self.count(result.is_err());
        result
    }
}

impl<W: Write> Write for Counted<W> {
    ghost contents = { λ c. W.contents c.inner };

    fn write(&mut self, buf: &[u8]) -> io::Result<usize>
        ensures bound { WritesAtMost result buf.now }
        ensures bytes { WriteAppends (W.contents self.old.inner) (W.contents self.new.inner) result buf.now }
        ensures count { CountsCall (is_failed_write result buf.now) self.old self.new }
        ensures flushed { self.new.flushed ≡ false }
    {
        self.flushed = false;
        let result = self.inner.write(buf);
        let failed = match &result {
            Ok(taken) => *taken == 0 && !buf.is_empty(),
            Err(_) => true,
        };
        self.count(failed);
        result
    }

    fn flush(&mut self) -> io::Result<()>
        ensures bytes { Keeps (W.contents self.old.inner) (W.contents self.new.inner) }
        ensures count { CountsCall (is_err result) self.old self.new }
        ensures flushed { self.new.flushed ≡ flushed_after result self.old.flushed }
    {
        let result = self.inner.flush();
        if result.is_ok() {
            self.flushed = true;
        }
        self.count(result.is_err());
        result
    }
}
