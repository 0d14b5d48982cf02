//! The words of a program's own command line, and its message if they are rejected.

use crate::command_error::CommandError;
use qap_io::Status;
use std::env;
use std::process::ExitCode;
use std::rt::Env;

/// The words of the program's own command line, its name being the first.
pub fn words(rt: &(impl Env + AllocGlobal)) -> Result<Vec<String>, CommandError> {
    Ok(env::args(rt)?.collect(rt.alloc())?)
}

/// Prints the usage line on standard error, and returns the exit status of a rejected command line.
pub fn tell_usage(rt: &HostRuntime, usage: &str) -> ExitCode {
    let _ = rt.eprintln(usage);
    ExitCode::from(Status::Usage.code())
}
