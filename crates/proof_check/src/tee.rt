//! A reader whose lines are copied to a writer as they are read.

ghost use Rattle.std.specs.Prelude.{◌≡◌, ◌+◌, ◌++◌, [], IfOk, IfSome, OnOk, vec_len};
ghost use Rattle.std.specs.Io.{StopsAt, appended_bytes};
ghost use Rattle.std.specs.Io.BufRead.{take_through};
ghost use Rattle.std.specs.Io.KnownBytes.{IsAtEnd};
ghost use Rattle.proof_check.specs.Flow.{Passes};

use std::io::{self, BufRead, Write};
use std::marker::Model;

/// A reader whose lines are copied to a writer as they are read. It is seen as what the reader has left, and what the writer holds.
#[derive(Drop)]
pub struct Tee<R: BufRead, W: Write> {
    reader: R,
    writer: W,
}

impl<R: BufRead, W: Write> Model for Tee<R, W> {
    ghost use Rattle.proof_check.specs.Flow.{Flow};

    ghost Value = { Flow };

    ghost view = { λ t. record { left = R.remaining t.reader; copied = W.contents t.writer } };
}

impl<R: BufRead, W: Write> Tee<R, W> {
    /// This reader, copied to this writer.
    pub fn new(reader: R, writer: W) -> Tee<R, W>
        ensures left { result.left ≡ R.remaining reader }
        ensures copied { result.copied ≡ W.contents writer }
    {
        Tee { reader, writer }
    }

    /// The reader and the writer.
    pub fn into_parts(self) -> (R, W)
        ensures left { R.remaining result.0 ≡ self.left }
        ensures copied { W.contents result.1 ≡ self.copied }
    {
        let Tee { reader, writer } = self;
        (reader, writer)
    }

    /// Reads the next line with its line feed into an empty list, and copies it. Returns how many bytes there were: 0 only at the end.
    pub(crate) fn read_line(&mut self, line: &mut Vec<u8>) -> io::Result<usize>
        requires { line.old.items ≡ [] }
        ensures passed { OnOk result (Passes self.old self.new (appended_bytes line.old.items line.new.items)) }
        ensures bytes { OnOk result (IfSome self.old.left (λ xs. line.new.items ≡ line.old.items ++ take_through 10 xs)) }
        ensures stops { StopsAt (appended_bytes line.old.items line.new.items) 10 }
        ensures count { IfOk result (λ n. vec_len line.new ≡ vec_len line.old + n) }
        ensures end { IfOk result (λ n. n ≡ 0 → IsAtEnd self.old.left) }
    {
        let count = self.reader.read_until(b'\n', line)?;
        self.writer.write_all(line)?;
        Ok(count)
    }
}
