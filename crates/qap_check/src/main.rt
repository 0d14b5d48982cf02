//! Checks claimed costs and claimed optima of the quadratic assignment problem.
#![tactic(auto)]

mod answering;
mod command_line;
mod optimal;
mod reading;
mod refusal;
mod source;
mod valuation;
mod value;

use answering::{answered, refused};
use command_line::{Files, Question, Request, USAGE, parse};
use qap_command::{CommandError, tell_usage, words};
use qap_io::Counted;
use refusal::CheckError;
use std::fs::{self, File};
use std::io::Read;
use std::process::ExitCode;

fn main(rt: HostRuntime) -> ExitCode {
    let words = match words(&rt) {
        Ok(words) => words,
        Err(error) => return tell(&rt, error),
    };
    match parse(rt.alloc(), &words) {
        Ok(request) => run(&rt, request),
        Err(error) => tell(&rt, error),
    }
}

/// Reports why the command line is rejected.
fn tell(rt: &HostRuntime, error: CommandError) -> ExitCode {
    match error {
        CommandError::OutOfMemory => refuse(rt, CheckError::OutOfMemory),
        CommandError::Usage => tell_usage(rt, USAGE),
    }
}

/// Tells a refusal on standard error.
fn refuse(rt: &HostRuntime, error: CheckError) -> ExitCode {
    ExitCode::from(refused(error, &mut Counted::new(rt.stderr())))
}

/// Answers a request. Named files are opened before any of them is read.
fn run(rt: &HostRuntime, request: Request<'_>) -> ExitCode {
    match request.files {
        Some(files) => match open_both(rt, files) {
            Ok((first, second)) => answer(rt, request.question, first, Some(Counted::new(second))),
            Err(error) => refuse(rt, error),
        },
        None => {
            let none: Option<Counted<File>> = None;
            answer(rt, request.question, rt.stdin(), none)
        }
    }
}

/// Both files, opened for reading.
fn open_both(rt: &HostRuntime, files: Files<'_>) -> Result<(File, File), CheckError> {
    Ok((open(rt, files.instance)?, open(rt, files.other)?))
}

/// A named file, opened for reading.
fn open(rt: &HostRuntime, name: &str) -> Result<File, CheckError> {
    fs::open(rt, name).map_err(|_| CheckError::Device)
}

/// Answers a question on standard output.
fn answer<R: Read + Drop, S: Read + Drop>(
    rt: &HostRuntime,
    question: Question,
    first: R,
    mut second: Option<Counted<S>>,
) -> ExitCode {
    ExitCode::from(answered(
        rt.alloc(),
        question,
        &mut Counted::new(first),
        &mut second,
        &mut Counted::new(rt.stdout()),
        &mut Counted::new(rt.stderr()),
    ))
}
