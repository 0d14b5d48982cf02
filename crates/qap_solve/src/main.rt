//! Solves instances of the quadratic assignment problem, and executes scripts of the tuple space.
#![tactic(auto)]

mod answering;
mod command_line;
mod elapsed;
mod options;
mod refusal;
mod solving;

ghost use Rattle.std.specs.Prelude.{IfOk};
ghost use Rattle.qap_solve.specs.Options.{MayRun};

use answering::{answered, refused};
use command_line::{Request, USAGE, parse};
use elapsed::Elapsed;
use qap_command::{CommandError, tell_usage, words};
use qap_io::Counted;
use qap_search::{Always, Pace};
use refusal::RunError;
use std::io::{self, BufWriter, Stdout};
use std::process::ExitCode;
use std::rt::Env;
use std::sync::Wait;
use std::thread::Threads;
use std::time::Clock;

/// How many bytes of output are kept until they are written together.
const BUFFER: usize = 65_536;

fn main(rt: HostRuntime) -> ExitCode {
    match requested(&rt) {
        Ok(request) => run(&rt, &rt, request),
        Err(CommandError::OutOfMemory) => refuse(&rt, RunError::OutOfMemory),
        Err(CommandError::Usage) => tell_usage(&rt, USAGE),
    }
}

/// Tells a refusal on standard error.
fn refuse(rt: &HostRuntime, error: RunError) -> ExitCode {
    ExitCode::from(refused(error, &mut Counted::new(rt.stderr())))
}

/// The request of the program's own command line.
fn requested(rt: &(impl Env + AllocGlobal)) -> Result<Request, CommandError>
    ensures { IfOk result MayRun }
{
    parse(rt.alloc(), &words(rt)?)
}

/// Answers a request on standard output. `system` provides threads, waiting and the time.
fn run<T>(system: &T, rt: &HostRuntime, request: Request) -> ExitCode
where
    T: Threads + Wait + Clock + Sync,
    requires { MayRun request }
{
    let Ok(output) = buffered(rt) else {
        return refuse(rt, RunError::OutOfMemory);
    };
    let pace = Pace {
        clock: &Elapsed::new(system),
        gate: &Always,
    };
    ExitCode::from(answered(
        system,
        rt.alloc(),
        request,
        &mut Counted::new(rt.stdin()),
        &mut Counted::new(output),
        &mut Counted::new(rt.stderr()),
        &pace,
    ))
}

/// Standard output, written to in large pieces.
fn buffered(rt: &HostRuntime) -> io::Result<BufWriter<Stdout>> {
    BufWriter::with_capacity(rt.alloc(), BUFFER, rt.stdout())
}
