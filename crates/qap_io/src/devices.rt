// Readers and writers for tests.
ghost use Rattle.std.specs.Prelude.{◌≡◌, ◌==◌, ◌<◌, ◌≤◌, ◌-◌, IfOk, IsErrAnd};
ghost use Rattle.std.specs.Io.{ReadsAtMost, WritesAtMost};
ghost use Rattle.std.specs.Io.KnownBytes.{Keeps, ReadConsumes, WriteAppends};
ghost use Rattle.std.specs.IoError.{error_kind};

use std::io;
use std::io::{ErrorKind, Read, Write};
use std::marker::Model;

/// Hands each call on, with room or bytes for at most one byte.
#[derive(Debug, Drop)]
pub struct OneByte<T> {
    inner: T,
}

impl<T> Model for OneByte<T> {
    ghost Value = { T };

    ghost view = { λ d. d.inner };
}

impl<T> OneByte<T> {
    /// A device that passes at most one byte a call.
    pub fn new(inner: T) -> OneByte<T>
        ensures { result ≡ inner }
    {
        OneByte { inner }
    }

    /// The device inside.
    pub fn into_inner(self) -> T
        ensures { result ≡ self }
    {
        let OneByte { inner } = self;
        inner
    }
}

impl<R: Read> Read for OneByte<R> {
    ghost remaining = { λ d. R.remaining d };

    fn read(&mut self, buf: &mut [u8]) -> io::Result<usize>
        ensures bound { ReadsAtMost result buf.new }
        ensures bytes { ReadConsumes (R.remaining self.old) (R.remaining self.new) result buf.new }
        ensures one_at_most { IfOk result (λ n. n ≤ 1) }
    {
        let room = buf.len().min(1);
        self.inner.read(&mut buf[..room])
    }
}

impl<W: Write> Write for OneByte<W> {
    ghost contents = { λ d. W.contents d };

    fn write(&mut self, buf: &[u8]) -> io::Result<usize>
        ensures bound { WritesAtMost result buf.now }
        ensures bytes { WriteAppends (W.contents self.old) (W.contents self.new) result buf.now }
        ensures one_at_most { IfOk result (λ n. n ≤ 1) }
    {
        let most = buf.len().min(1);
        self.inner.write(&buf[..most])
    }

    fn flush(&mut self) -> io::Result<()>
        ensures { Keeps (W.contents self.old) (W.contents self.new) }
    {
        self.inner.flush()
    }
}

/// Fails at one of its calls, counted from 1 over reads, writes and flushes, and hands the others on.
///
/// It fails with `Interrupted`, so that a caller that tries such a call again is found out.
#[derive(Debug, Drop)]
pub struct FailAt<T> {
    inner: T,
    calls_left: u64,
}

impl<T> Model for FailAt<T> {
    ghost use Rattle.qap_io.specs.Devices.{FailingDevice};

    ghost Value = { FailingDevice T };

    ghost view = { λ d. record { inner = d.inner; calls_left = d.calls_left } };
}

impl<T> FailAt<T> {
    /// A device whose call of that number fails.
    pub fn new(inner: T, call: u64) -> FailAt<T>
        requires { 0 < call }
        ensures inner { result.inner ≡ inner }
        ensures call { result.calls_left ≡ call }
    {
        FailAt {
            inner,
            calls_left: call,
        }
    }

    /// The device inside.
    pub fn into_inner(self) -> T
        ensures { result ≡ self.inner }
    {
        let FailAt {
            inner,
            calls_left: _,
        } = self;
        inner
    }

    // Whether this call is the one that fails.
    fn is_last(&mut self) -> bool
        ensures last { result ≡ (self.old.calls_left == 1) }
        ensures inner { self.new.inner ≡ self.old.inner }
        ensures calls { self.new.calls_left ≡ self.old.calls_left - 1 }
    {
        let is_last = self.calls_left == 1;
        self.calls_left = self.calls_left.saturating_sub(1);
        is_last
    }
}

impl<R: Read> Read for FailAt<R> {
    ghost remaining = { λ d. R.remaining d.inner };

    fn read(&mut self, buf: &mut [u8]) -> io::Result<usize>
        ensures bound { ReadsAtMost result buf.new }
        ensures bytes { ReadConsumes (R.remaining self.old.inner) (R.remaining self.new.inner) result buf.new }
        ensures calls { self.new.calls_left ≡ self.old.calls_left - 1 }
        ensures fails { self.old.calls_left ≡ 1 → IsErrAnd result (λ e. error_kind e ≡ ErrorKind.Interrupted) }
        ensures kept { self.old.calls_left ≡ 1 → self.new.inner ≡ self.old.inner }
    {
        if self.is_last() {
            return Err(ErrorKind::Interrupted.into());
        }
        self.inner.read(buf)
    }
}

impl<W: Write> Write for FailAt<W> {
    ghost contents = { λ d. W.contents d.inner };

    fn write(&mut self, buf: &[u8]) -> io::Result<usize>
        ensures bound { WritesAtMost result buf.now }
        ensures bytes { WriteAppends (W.contents self.old.inner) (W.contents self.new.inner) result buf.now }
        ensures calls { self.new.calls_left ≡ self.old.calls_left - 1 }
        ensures fails { self.old.calls_left ≡ 1 → IsErrAnd result (λ e. error_kind e ≡ ErrorKind.Interrupted) }
        ensures kept { self.old.calls_left ≡ 1 → self.new.inner ≡ self.old.inner }
    {
        if self.is_last() {
            return Err(ErrorKind::Interrupted.into());
        }
        self.inner.write(buf)
    }

    fn flush(&mut self) -> io::Result<()>
        ensures bytes { Keeps (W.contents self.old.inner) (W.contents self.new.inner) }
        ensures calls { self.new.calls_left ≡ self.old.calls_left - 1 }
        ensures fails { self.old.calls_left ≡ 1 → IsErrAnd result (λ e. error_kind e ≡ ErrorKind.Interrupted) }
        ensures kept { self.old.calls_left ≡ 1 → self.new.inner ≡ self.old.inner }
    {
        if self.is_last() {
            return Err(ErrorKind::Interrupted.into());
        }
        self.inner.flush()
    }
}
