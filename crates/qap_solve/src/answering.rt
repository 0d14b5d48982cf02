//! Answers a request, from the devices to the exit status.

ghost use Rattle.std.specs.Prelude.{◌≡◌, MatchResult};
ghost use Rattle.qap_solve.specs.Answering.{HasAnswered, HasNotAnswered, HasRun, HasTold};
ghost use Rattle.qap_solve.specs.Options.{MayRun};
ghost use Rattle.qap_solve.specs.Refusal.{status_of};
ghost use Rattle.space_script.specs.Run.{streams_of};

use crate::command_line::Request;
use crate::refusal::{RunError, fault_line, status};
use crate::solving::solve_stream;
use qap_io::{Counted, Status};
use qap_search::{Clock, Gate, Pace};
use space_script::run_script;
use std::alloc::Global;
use std::io::{Read, Write};
use std::sync::Wait;
use std::thread::Threads;
use std::time;

/// Answers a request on the output, and returns the exit status. If there is no answer, the line of the refusal goes to
/// the other writer; failing to write it does not change the status. `system` provides threads, waiting and the time.
pub fn answered<T, R, W, E, C, G>(
    system: &T,
    alloc: Global,
    request: Request,
    input: &mut Counted<R>,
    output: &mut Counted<W>,
    errors: &mut Counted<E>,
    pace: &Pace<'_, C, G>,
) -> u8
where
    T: Threads + Wait + time::Clock + Sync,
    R: Read,
    W: Write,
    E: Write,
    C: Clock,
    G: Gate + Sync,
    requires { MayRun request }
    ensures { let s = streams_of R.remaining W.contents input.old input.new output.old output.new in HasRun s request E.contents errors.old errors.new result }
{
    match answer(system, alloc, request, input, output, pace) {
        Ok(()) => Status::Done.code(),
        Err(error) => refused(error, errors),
    }
}

/// Answers a request on the output.
fn answer<T, R, W, C, G>(
    system: &T,
    alloc: Global,
    request: Request,
    input: &mut Counted<R>,
    output: &mut Counted<W>,
    pace: &Pace<'_, C, G>,
) -> Result<(), RunError>
where
    T: Threads + Wait + time::Clock + Sync,
    R: Read,
    W: Write,
    C: Clock,
    G: Gate + Sync,
    requires { MayRun request }
    ensures { let s = streams_of R.remaining W.contents input.old input.new output.old output.new in MatchResult result (λ _. HasAnswered s request) (HasNotAnswered s request) }
{
    match request {
        Request::Solve(options) => { solve_stream(system, alloc, input, output, &options, pace) }
        Request::Script => match run_script(alloc, input, output) {
            Ok(()) => Ok(()),
            Err(error) => Err(RunError::from(error)),
        },
    }
}

/// Reports a refusal, and returns its exit status. Nothing is reported for a search that was stopped: its result is on
/// the output.
pub fn refused<E: Write>(error: RunError, errors: &mut Counted<E>) -> u8
    ensures status { result ≡ status_of error }
    ensures told { HasTold E.contents errors.old errors.new error }
{
    if !matches!(error, RunError::Stopped) {
        let _written = fault_line(&error, errors);
    }
    status(&error)
}
