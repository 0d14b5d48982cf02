//! Plans: arrangements of least cost for people, with what is proved about them.
#![tactic(auto)]

mod commands;
mod output;
mod search;

ghost use Rattle.qap_plan.specs.Asking.{IsLimitedTask};

use crate::commands::check::run_check;
use crate::commands::command_line::{Task, parse};
use crate::commands::compare::run_compare;
use crate::commands::convert::run_convert;
use crate::commands::part::run_part;
use crate::commands::show::run_show;
use crate::commands::solve::solve_plan;
use crate::commands::solve_instance::solve;
use crate::commands::split::run_split;
use clap::Error;
use clap::error::ErrorKind;
use plan_files::{PlannerError, refuse_with};
use plan_input::is_plan;
use qap_io::Status;
use std::process::ExitCode;
use std::rt::Env;
use std::sync::Wait;
use std::thread::Threads;
use std::time::Clock;
use std::{env, io};

fn main(rt: HostRuntime) -> ExitCode {
    let words = match arguments(&rt) {
        Ok(words) => words,
        Err(error) => return tell_unread(&rt, &error),
    };
    match parse(rt.alloc(), &words) {
        Ok(task) => carry_out(&rt, &rt, &task),
        Err(error) => tell(&rt, &error),
    }
}

/// Executes the request. `system` provides threads, waiting and the time.
fn carry_out<T>(system: &T, rt: &HostRuntime, task: &Task<'_>) -> ExitCode
where
    T: Threads + Wait + Clock + Sync,
    requires { IsLimitedTask task.now }
{
    match task {
        Task::Solve(request) if is_plan(request.file) => solve_plan(system, rt, request),
        Task::Solve(request) => solve(system, rt, request),
        Task::Split(request) => run_split(system, rt, request),
        Task::Part(request) => run_part(system, rt, request),
        Task::Convert(request) => run_convert(rt, request),
        Task::Show(request) => run_show(rt, request),
        Task::Check(request) => run_check(rt, request),
        Task::Compare(request) => run_compare(system, rt, request),
    }
}

/// The words of the program's own command line.
fn arguments(rt: &(impl Env + AllocGlobal)) -> io::Result<Vec<String>> {
    Ok(env::args(rt)?.collect(rt.alloc())?)
}

/// Reports why the command line could not be read.
fn tell_unread(rt: &HostRuntime, error: &io::Error) -> ExitCode {
    if error.kind() == io::ErrorKind::OutOfMemory {
        return ExitCode::from(refuse_with(rt, "qapplan", PlannerError::OutOfMemory).code());
    }
    let _ = rt.eprintln("error: an argument is no text in UTF-8");
    ExitCode::from(Status::Usage.code())
}

/// Prints the help or the version if requested, and otherwise what is wrong with the command line.
fn tell(rt: &HostRuntime, error: &Error) -> ExitCode {
    if error.kind() == ErrorKind::OutOfMemory {
        return ExitCode::from(refuse_with(rt, "qapplan", PlannerError::OutOfMemory).code());
    }
    let _ = error.print(rt);
    ExitCode::from(error.exit_code() as u8)
}
