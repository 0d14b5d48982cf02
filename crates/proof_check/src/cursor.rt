//! The lines of a text, in sequence.

ghost use Rattle.std.specs.Prelude.{◌≡◌, ◌++◌, ◌∷◌, [], Some, IfErr, OnOk};
ghost use Rattle.std.specs.Io.KnownBytes.{IsAtEnd};
ghost use Rattle.qap_lines.specs.Line.{HasNoLine};
ghost use Rattle.proof_check.specs.Acceptance.{IsInterruption};
ghost use Rattle.proof_check.specs.Completeness.{RefusesLine};
ghost use Rattle.proof_check.specs.Fault.{IsReadFault};
ghost use Rattle.proof_check.specs.Flow.{Passes};

use crate::tee::Tee;
use qap_proof::ProofError;
use std::alloc::Global;
use std::io::{BufRead, Error, ErrorKind, Write};

/// The line that was read last, without the line feed that ends it, and its number, from 1.
#[derive(Drop)]
pub(crate) struct Cursor {
    pub(crate) line: Vec<u8>,
    pub(crate) number: u64,
}

impl Cursor {
    /// Before the first line.
    pub(crate) fn new(alloc: Global) -> Cursor {
        Cursor {
            line: Vec::new(alloc),
            number: 0,
        }
    }
}

/// Reads and copies the next line, in the memory that the last one had if that suffices.
pub(crate) fn advance<R: BufRead, W: Write>(
    reader: &mut Tee<R, W>,
    cursor: &mut Cursor,
) -> Result<(), ProofError>
    ensures read { OnOk result (Passes reader.old reader.new (cursor.new.line.items ++ 10 ∷ [])) }
    ensures whole { OnOk result (HasNoLine cursor.new.line.items) }
    ensures refused { IfErr result (RefusesLine reader.old.left) }
    ensures class { IfErr result IsReadFault }
{
    cursor.line.clear();
    cursor.number = cursor.number.saturating_add(1);
    let number = cursor.number;
    read_line(reader, &mut cursor.line, number)
}

/// Reads and copies a line into an empty list.
fn read_line<R: BufRead, W: Write>(
    reader: &mut Tee<R, W>,
    line: &mut Vec<u8>,
    number: u64,
) -> Result<(), ProofError>
    requires { line.old.items ≡ [] }
    ensures read { OnOk result (Passes reader.old reader.new (line.new.items ++ 10 ∷ [])) }
    ensures whole { OnOk result (HasNoLine line.new.items) }
    ensures refused { IfErr result (RefusesLine reader.old.left) }
    ensures class { IfErr result IsReadFault }
{
    if let Err(error) = reader.read_line(line) {
        return Err(told(&error));
    }
    match line.pop() {
        Some(b'\n') => Ok(()),
        _ => Err(ProofError::Truncated(number)),
    }
}

/// Makes sure that nothing follows the last line.
pub(crate) fn end<R: BufRead, W: Write>(
    reader: &mut Tee<R, W>,
    cursor: &mut Cursor,
) -> Result<(), ProofError>
    ensures end { OnOk result (IsAtEnd reader.old.left) }
    ensures passed { OnOk result (Passes reader.old reader.new []) }
    ensures refused { IfErr result (λ e. reader.old.left ≡ Some [] → IsInterruption e) }
    ensures class { IfErr result IsReadFault }
{
    cursor.line.clear();
    let number = cursor.number.saturating_add(1);
    nothing(reader, &mut cursor.line, number)
}

/// The same, with an empty list for what follows.
fn nothing<R: BufRead, W: Write>(
    reader: &mut Tee<R, W>,
    line: &mut Vec<u8>,
    number: u64,
) -> Result<(), ProofError>
    requires { line.old.items ≡ [] }
    ensures end { OnOk result (IsAtEnd reader.old.left) }
    ensures passed { OnOk result (Passes reader.old reader.new []) }
    ensures refused { IfErr result (λ e. reader.old.left ≡ Some [] → IsInterruption e) }
    ensures class { IfErr result IsReadFault }
{
    match reader.read_line(line) {
        Ok(0) => Ok(()),
        Ok(_) => Err(ProofError::TrailingText(number)),
        Err(error) => Err(told(&error)),
    }
}

/// What is reported about a read or a write that failed.
fn told(error: &Error) -> ProofError
    ensures { IsInterruption result }
{
    if error.kind() == ErrorKind::OutOfMemory {
        ProofError::OutOfMemory
    } else {
        ProofError::Device
    }
}
