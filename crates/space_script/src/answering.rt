//! Answers the lines of a script.

ghost use Rattle.std.specs.Prelude.{IfOk};
ghost use Rattle.space_script.specs.Run.{Answers};

use crate::error::LineError;
use crate::line::read_line;
use crate::reply::{Reply, reply_line};
use crate::session::Session;
use std::alloc::{AllocError, Global};

/// Executes a line, and returns the text that answers it: nothing if it has no words.
pub(crate) fn answer(
    alloc: Global,
    session: &mut Session,
    line: &[u8],
) -> Result<Vec<u8>, AllocError>
    ensures { IfOk result (λ reply. Answers session.old line.now reply.items session.new) }
{
    match read_line(alloc, line) {
        Ok(None) => Ok(Vec::new(alloc)),
        Ok(Some(command)) => {
            let reply = session.perform(command)?;
            reply_line(alloc, &reply)
        }
        Err(LineError::BadCommand) => reply_line(alloc, &Reply::Refused(36)),
        Err(LineError::OutOfMemory) => Err(AllocError),
    }
}
