//! The pieces in which a script is read.

ghost use Rattle.std.specs.Prelude.{◌≡◌, ◌++◌, ◌∷◌, [], MatchOption, MatchResult, OnOk};
ghost use Rattle.space_script.specs.Feeding.{Fed, FeedFails, HasNoLineFeed, IsCut, front_of, standing};

use crate::answering::answer;
use crate::line::LONGEST_LINE;
use crate::script_error::ScriptError;
use crate::session::Session;
use memchr::memchr;
use qap_io::{Counted, put};
use std::alloc::{AllocError, Global};
use std::io::Write;

/// A text split at its first line feed.
#[derive(Clone, Copy)]
struct Cut<'a> {
    before: &'a [u8],
    behind: &'a [u8],
}

/// Cuts a text at its first line feed.
fn split_line(text: &[u8]) -> Option<Cut<'_>>
    ensures { MatchOption result (HasNoLineFeed text.now) (λ cut. IsCut text.now cut.before.now cut.behind.now) }
{
    match memchr(b'\n', text) {
        Some(place) => Some(Cut {
            before: &text[..place],
            behind: &text[place + 1..],
        }),
        None => None,
    }
}

/// Keeps more of a line, as far as it takes to show that the line is too long.
fn keep(line: &mut Vec<u8>, more: &[u8]) -> Result<(), AllocError>
    ensures { OnOk result (line.new.items ≡ front_of (line.old.items ++ more.now)) }
{
    line.extend_from_slice(more)?;
    line.truncate(LONGEST_LINE + 1);
    Ok(())
}

/// Answers a line, whose beginning was kept before and whose rest is `end`.
fn end_line<W: Write>(
    alloc: Global,
    session: &mut Session,
    line: &mut Vec<u8>,
    end: &[u8],
    writer: &mut Counted<W>,
) -> Result<(), ScriptError>
    requires { HasNoLineFeed end.now }
    ensures { MatchResult result
        (λ _. Fed W.contents (standing session.old line.old.items writer.old) (end.now ++ 10 ∷ []) (standing session.new line.new.items writer.new))
        (FeedFails W.contents (standing session.old line.old.items writer.old) (end.now ++ 10 ∷ []) writer.new) }
{
    keep(line, end)?;
    let reply = answer(alloc, session, line)?;
    line.clear();
    put(writer, &reply)?;
    Ok(())
}

/// Answers the lines that end in a piece of a script, and keeps what is left after them.
pub(crate) fn feed<W: Write>(
    alloc: Global,
    session: &mut Session,
    line: &mut Vec<u8>,
    piece: &[u8],
    writer: &mut Counted<W>,
) -> Result<(), ScriptError>
    ensures { MatchResult result
        (λ _. Fed W.contents (standing session.old line.old.items writer.old) piece.now (standing session.new line.new.items writer.new))
        (FeedFails W.contents (standing session.old line.old.items writer.old) piece.now writer.new) }
{
    let mut rest = piece;
    while let Some(Cut { before, behind }) = split_line(rest) {
        end_line(alloc, session, line, before, writer)?;
        rest = behind;
    }
    keep(line, rest)?;
    Ok(())
}
