//! A writer that remembers why it failed.

ghost use Rattle.std.specs.Prelude.{◌≡◌};

use std::io::{self, Write};

/// A writer that remembers the last error of another one.
#[derive(Drop)]
pub(crate) struct Noting<W: Write> {
    inner: W,
    failure: Option<io::Error>,
}

impl<W: Write> Noting<W> {
    /// Around this writer, which has not failed.
    pub(crate) fn new(inner: W) -> Noting<W>
        ensures { result.inner ≡ inner }
    {
        Noting {
            inner,
            failure: None,
        }
    }

    /// The writer, and its last error.
    pub(crate) fn into_parts(self) -> (W, Option<io::Error>)
        ensures { result.0 ≡ self.inner }
    {
        let Noting { inner, failure } = self;
        (inner, failure)
    }

    /// Remembers an error; another one of its kind takes its place.
    fn note(&mut self, error: io::Error) -> io::Error
        ensures { self.new.inner ≡ self.old.inner }
    {
        let kind = error.kind();
        self.failure = Some(error);
        io::Error::from(kind)
    }
}

impl<W: Write> Write for Noting<W> {
    ghost contents = { λ n. W.contents n.inner };

    fn write(&mut self, buf: &[u8]) -> io::Result<usize> {
        match self.inner.write(buf) {
            Ok(count) => Ok(count),
            Err(error) => Err(self.note(error)),
        }
    }

    fn flush(&mut self) -> io::Result<()> {
        match self.inner.flush() {
            Ok(()) => Ok(()),
            Err(error) => Err(self.note(error)),
        }
    }
}
