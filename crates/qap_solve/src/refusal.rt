//! Why a run is aborted, and how that is reported.

ghost use Rattle.std.specs.Prelude.{◌≡◌, MatchResult};
ghost use Rattle.qap_io.specs.Refusal.{refusal_line};
ghost use Rattle.qap_io.specs.Writing.{BreaksOff, Sends};
ghost use Rattle.qap_solve.specs.Refusal.{refusal_of, status_of};

use qap_io::{Counted, Device, Refusal, Status};
use qap_search::SolveError;
use qap_text::TextError;
use space_script::ScriptError;
use std::io::Write;
use thiserror::Error;

/// Why a run is aborted.
#[derive(Clone, Copy, Debug, PartialEq, Eq, Error)]
pub enum RunError {
    /// The input is too long, or not an instance's text.
    #[error("{0}")]
    Text(TextError),
    /// The search ended with this many open nodes.
    #[error("{0} nodes are open")]
    Unfinished(u64),
    /// The search was stopped at its node limit, and its result has been written.
    #[error("the limit of nodes is reached")]
    Stopped,
    /// Memory ran out.
    #[error("out of memory")]
    OutOfMemory,
    /// The reader or the writer failed.
    #[error("the reader or the writer failed")]
    Device,
}

impl From<TextError> for RunError {
    ghost use Rattle.qap_solve.specs.Refusal.{of_text};

    ghost from_gives = { λ e f. f ≡ of_text e };

    fn from(error: TextError) -> RunError {
        match error {
            TextError::OutOfMemory => RunError::OutOfMemory,
            TextError::Device => RunError::Device,
            _ => RunError::Text(error),
        }
    }
}

impl From<ScriptError> for RunError {
    ghost use Rattle.qap_solve.specs.Refusal.{of_script};

    ghost from_gives = { λ e f. f ≡ of_script e };

    fn from(error: ScriptError) -> RunError {
        match error {
            ScriptError::InputTooLong => RunError::Text(TextError::InputTooLong),
            ScriptError::OutOfMemory => RunError::OutOfMemory,
            ScriptError::Device => RunError::Device,
        }
    }
}

impl From<SolveError> for RunError {
    ghost use Rattle.qap_solve.specs.Refusal.{of_search};

    ghost from_gives = { λ e f. f ≡ of_search e };

    fn from(error: SolveError) -> RunError {
        match error {
            SolveError::Unfinished(open) => RunError::Unfinished(open),
            SolveError::Stopped(_) => RunError::Stopped,
            SolveError::OutOfMemory => RunError::OutOfMemory,
        }
    }
}

/// The exit status of a refusal: 3 if memory ran out, 4 if nodes are open, 5 if the search was stopped, else 1.
pub fn status(error: &RunError) -> u8
    ensures { result ≡ status_of error.now }
{
    let status = match error {
        RunError::OutOfMemory => Status::OutOfMemory,
        RunError::Unfinished(_) => Status::Unfinished,
        RunError::Stopped => Status::Stopped,
        RunError::Text(_) | RunError::Device => Status::Refused,
    };
    status.code()
}

/// Writes the line that reports a refusal: `refused`, its number and name, and `at` with its place or the number of
/// open nodes if it carries one; and flushes the writer. If that fails, a prefix of the line has been written.
pub fn fault_line<W: Write>(error: &RunError, writer: &mut Counted<W>) -> Result<(), Device>
    ensures { MatchResult result
        (λ _. Sends W.contents writer.old writer.new (refusal_line (refusal_of error.now)))
        (λ _. BreaksOff W.contents writer.old writer.new (refusal_line (refusal_of error.now))) }
{
    refusal(*error).send(writer)
}

/// The refusal that reports a run's error.
fn refusal(error: RunError) -> Refusal
    ensures { result ≡ refusal_of error }
{
    match error {
        RunError::Text(fault) => fault.refusal(),
        RunError::Unfinished(open) => Refusal::at(41, "Unfinished", open),
        RunError::Stopped => Refusal::new(43, "Stopped"),
        RunError::OutOfMemory => Refusal::out_of_memory(),
        RunError::Device => Refusal::device(),
    }
}
