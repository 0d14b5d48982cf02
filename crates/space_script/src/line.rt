//! The lines of a script.

ghost use Rattle.std.specs.Prelude.{◌≡◌, ◌⊎◌, map, IfOk, MatchOption, MatchResult};
ghost use Rattle.std.specs.List.{slice_split};
ghost use Rattle.space_script.specs.Command.{IsBadLine, IsBlankLine, IsCommandLine, without_return as line_without_return};
ghost use Rattle.space_script.specs.Words.{is_blank as blank_of, words_of};
ghost use Rattle.space_script.specs.declared.error.LineError.TheVariants.{BadCommand, OutOfMemory};

use crate::command::{Command, read_command};
use crate::error::LineError;
use std::alloc::{AllocError, Global};

/// The most bytes of a line, not counting the line feed that ends it.
pub const LONGEST_LINE: usize = 65_536;

/// The command in a line of a script, without the line feed that ends it; `None` if it has no words.
///
/// A carriage return at the line's end is dropped, but counts among its bytes.
pub fn read_line(alloc: Global, line: &[u8]) -> Result<Option<Command>, LineError>
    ensures { MatchResult result
        (λ found. MatchOption found (IsBlankLine line.now) (IsCommandLine line.now))
        (λ e. (e ≡ OutOfMemory) ⊎ ((e ≡ BadCommand) × IsBadLine line.now)) }
{
    if line.len() > LONGEST_LINE {
        return Err(LineError::BadCommand);
    }
    let words = words(alloc, without_return(line))?;
    if words.is_empty() {
        return Ok(None);
    }
    match read_command(alloc, &words)? {
        Some(command) => Ok(Some(command)),
        None => Err(LineError::BadCommand),
    }
}

/// A line without the carriage return at its end.
fn without_return(line: &[u8]) -> &[u8]
    ensures { result.now ≡ line_without_return line.now }
{
    match line.split_last() {
        Some((b'\r', rest)) => rest,
        _ => line,
    }
}

/// The words of a line, which spaces and tabs separate.
fn words<'a>(alloc: Global, line: &'a [u8]) -> Result<Vec<&'a [u8]>, AllocError>
    ensures { IfOk result (λ words. map (λ word. word.now) words.items ≡ words_of line.now) }
{
    let mut words = pieces(alloc, line)?;
    words.retain(|word| !word.is_empty());
    Ok(words)
}

/// What is before, between and after the blanks of a line; nothing is between two neighbours.
fn pieces<'a>(alloc: Global, line: &'a [u8]) -> Result<Vec<&'a [u8]>, AllocError>
    ensures { IfOk result (λ pieces. map (λ piece. piece.now) pieces.items ≡ slice_split blank_of line.now) }
{
    line.split(|byte| is_blank(*byte)).collect(alloc)
}

/// Whether the byte separates words.
fn is_blank(byte: u8) -> bool
    ensures { result ≡ blank_of byte }
{
    byte == b' ' || byte == b'\t'
}
