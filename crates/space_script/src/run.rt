//! A whole script, from bytes to bytes.

ghost use Rattle.std.specs.Prelude.{MatchResult};
ghost use Rattle.space_script.specs.Feeding.{FedWhole, FeedingFails, StopsShort};
ghost use Rattle.space_script.specs.Run.{BreaksDown, RunsWhole, streams_of};

use crate::answering::answer;
use crate::feeding::feed;
use crate::script_error::ScriptError;
use crate::session::Session;
use qap_io::{Counted, finish, read_some, send};
use std::alloc::Global;
use std::io::{Read, Write};

/// The most bytes of a script.
const LONGEST_SCRIPT: u64 = 1 << 62;

/// How many bytes are requested at once.
const PIECE: usize = 32_768;

/// Executes the lines of a script on a new space, and writes a reply for each that has words.
///
/// A line is executed once the line feed that ends it has been read, the last one at the end of the input, and replies
/// are flushed before more is read. If the script is aborted, the replies to the lines before have been written, and
/// they are flushed before out of memory is reported; if a write fails, a prefix of the next reply may follow them. A
/// line is stored only up to the length that shows that it is too long.
pub fn run_script<R: Read, W: Write>(
    alloc: Global,
    reader: &mut Counted<R>,
    writer: &mut Counted<W>,
) -> Result<(), ScriptError>
    ensures { let s = streams_of R.remaining W.contents reader.old reader.new writer.old writer.new in MatchResult result (λ _. RunsWhole s) (BreaksDown s) }
{
    let ran = run_lines(alloc, reader, writer);
    if ran == Err(ScriptError::OutOfMemory) {
        finish(writer)?;
    }
    ran
}

/// Executes the lines of a script. If memory runs out, replies may still wait for a flush.
fn run_lines<R: Read, W: Write>(
    alloc: Global,
    reader: &mut Counted<R>,
    writer: &mut Counted<W>,
) -> Result<(), ScriptError>
    ensures { let s = streams_of R.remaining W.contents reader.old reader.new writer.old writer.new in MatchResult result (λ _. RunsWhole s) (StopsShort s) }
{
    let mut session = Session::new(alloc);
    let mut line = Vec::new(alloc);
    feed_all(alloc, reader, &mut session, &mut line, writer)?;
    let reply = answer(alloc, &mut session, &line)?;
    send(writer, &reply)?;
    Ok(())
}

/// Answers the lines that end in what a reader has left, and keeps what is left after them. Replies are flushed before
/// the next read.
fn feed_all<R: Read, W: Write>(
    alloc: Global,
    reader: &mut Counted<R>,
    session: &mut Session,
    line: &mut Vec<u8>,
    writer: &mut Counted<W>,
) -> Result<(), ScriptError>
    ensures { let s = streams_of R.remaining W.contents reader.old reader.new writer.old writer.new in MatchResult result
        (λ _. FedWhole s session.old line.old.items session.new line.new.items)
        (FeedingFails s session.old line.old.items) }
{
    let mut room = LONGEST_SCRIPT;
    let mut piece = [0; PIECE];
    loop {
        let count = read_some(reader, &mut piece)?;
        if count == 0 {
            return Ok(());
        }
        if room < count as u64 {
            return Err(ScriptError::InputTooLong);
        }
        room -= count as u64;
        feed(alloc, session, line, &piece[..count], writer)?;
        finish(writer)?;
    }
}
