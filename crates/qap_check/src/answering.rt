//! Answers a request, from the devices to the exit status.

ghost use Rattle.std.specs.Prelude.{◌≡◌, MatchResult};
ghost use Rattle.qap_check.specs.Refusal.{status_of};
ghost use Rattle.qap_check.specs.Answering.{HasAnswered, HasNotAnswered, HasRun, HasTold};
ghost use Rattle.qap_check.specs.Source.{source_of};

use crate::command_line::Question;
use crate::optimal::optimal_stream;
use crate::refusal::{CheckError, fault_line, status};
use crate::value::value_stream;
use qap_io::{Counted, Status};
use std::alloc::Global;
use std::io::{Read, Write};

/// Answers a request on the output, and returns the exit status. If there is no answer, the line of the refusal goes to
/// the other writer; failing to write it does not change the status.
///
/// Without a second reader both texts come from the first one.
pub fn answered<R: Read, S: Read, W: Write, E: Write>(
    alloc: Global,
    question: Question,
    first: &mut Counted<R>,
    second: &mut Option<Counted<S>>,
    output: &mut Counted<W>,
    errors: &mut Counted<E>,
) -> u8
    ensures { let s = source_of R.remaining first.old first.new S.remaining second.old second.new in
        HasRun s question W.contents output.old output.new E.contents errors.old errors.new result }
{
    match answer(alloc, question, first, second, output) {
        Ok(status) => status.code(),
        Err(error) => refused(error, errors),
    }
}

/// Answers a question on the output, and returns how the run ends.
fn answer<R: Read, S: Read, W: Write>(
    alloc: Global,
    question: Question,
    first: &mut Counted<R>,
    second: &mut Option<Counted<S>>,
    output: &mut Counted<W>,
) -> Result<Status, CheckError>
    ensures { let s = source_of R.remaining first.old first.new S.remaining second.old second.new in MatchResult result
        (HasAnswered s question W.contents output.old output.new)
        (HasNotAnswered s question W.contents output.old output.new) }
{
    match question {
        Question::Value => match value_stream(alloc, first, second, output) {
            Ok(found) => Ok(found.status()),
            Err(error) => Err(error),
        },
        Question::Optimal => match optimal_stream(alloc, first, second, output) {
            Ok(()) => Ok(Status::Done),
            Err(error) => Err(error),
        },
    }
}

/// Tells a refusal, and its exit status.
pub fn refused<E: Write>(error: CheckError, errors: &mut Counted<E>) -> u8
    ensures status { result ≡ status_of error }
    ensures told { HasTold E.contents errors.old errors.new error }
{
    let _written = fault_line(&error, errors);
    status(&error)
}
