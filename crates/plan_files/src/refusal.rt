//! Why a run ends before its outputs are written, and how that is reported on standard error.

ghost use Rattle.plan_files.specs.Outputs.{IsFailure};

use crate::error::PlannerError;
use plan_check::{AnswerError, ProofFault};
use plan_file::LayoutError;
use plan_input::LoadError;
use qap_io::Status;
use std::process::ExitCode;
use thiserror::Error;

/// What a request asks of a file that it cannot have.
#[derive(Clone, Copy, Debug, PartialEq, Eq, Error)]
pub enum Misuse {
    #[error("a picture needs a plan, a file whose name ends in .toml: remove --svg, or write one")]
    Picture,
    #[error("a report needs a plan, a file whose name ends in .toml: remove --report, or write one")]
    Report,
    #[error("a table of places needs a plan, a file whose name ends in .toml: remove --csv, or write one")]
    Table,
    #[error("a plan is required, a file whose name ends in .toml: name one; an instance in the QAPLIB format stays as it is")]
    Conversion,
    #[error("a plan is required, a file whose name ends in .toml: name one; an instance has no names")]
    Names,
    /// A subcommand or an option does not take plans with costs of places or forbidden places.
    #[error("{0} does not take plans with costs of places, [forbidden] or [allowed]: use solve, and qapverify for its proof")]
    Restricted(&'static str),
}

/// Why a run ends before its outputs are written.
#[derive(Debug, Drop)]
pub enum Refusal<'a> {
    /// A plan or a table of it.
    Load(LoadError),
    /// The file of this name.
    File(&'a str, PlannerError),
    /// The file of an arrangement.
    Layout(&'a str, LayoutError),
    /// The file of a start of a plan with costs of places or forbidden places, which is no table.
    NoTable(&'a str),
    /// The file of an answer.
    Answer(&'a str, AnswerError),
    /// The file of a proof.
    Proof(&'a str, ProofFault),
    Misuse(&'a str, Misuse),
    /// It has been reported.
    Reported(Status),
}

/// How a run ends: it may have been refused, which is reported now.
pub fn ended(rt: &HostRuntime, run: Result<Status, Refusal<'_>>) -> ExitCode {
    let status = match run {
        Ok(status) => status,
        Err(refusal) => tell(rt, &refusal),
    };
    ExitCode::from(status.code())
}

/// Reports a refusal, and returns how the run ends.
fn tell(rt: &HostRuntime, refusal: &Refusal<'_>) -> Status {
    match refusal {
        Refusal::Load(error) => {
            let _ = rt.eprintln(format_args!("error: {error}"));
            error.status()
        }
        Refusal::File(file, error) => refuse_with(rt, file, *error),
        Refusal::Layout(file, error) => tell_layout(rt, file, error),
        Refusal::NoTable(file) => {
            let _ = rt.eprintln(format_args!(
                "error: {file}: a plan with costs of places, [forbidden] or [allowed] starts from a table with the columns department and place: name one, as --csv writes it"
            ));
            Status::Refused
        }
        Refusal::Answer(file, error) => tell_answer(rt, file, error),
        Refusal::Proof(file, fault) => tell_proof(rt, file, fault),
        Refusal::Misuse(file, misuse) => {
            let _ = rt.eprintln(format_args!("error: {file}: {misuse}"));
            Status::Usage
        }
        Refusal::Reported(status) => *status,
    }
}

/// Reports what the file of an arrangement is refused for.
fn tell_layout(rt: &HostRuntime, file: &str, error: &LayoutError) -> Status {
    if let LayoutError::OutOfMemory = error {
        return refuse_with(rt, file, PlannerError::OutOfMemory);
    }
    let _ = rt.eprintln(format_args!("error: {file}: {error}"));
    Status::Refused
}

/// Reports what the file of an answer is refused for.
fn tell_answer(rt: &HostRuntime, file: &str, error: &AnswerError) -> Status {
    if let AnswerError::OutOfMemory = error {
        return refuse_with(rt, file, PlannerError::OutOfMemory);
    }
    let _ = rt.eprintln(format_args!("error: {file}: {error}"));
    Status::Refused
}

/// Reports what the file of a proof is refused for.
fn tell_proof(rt: &HostRuntime, file: &str, fault: &ProofFault) -> Status {
    if let ProofFault::OutOfMemory = fault {
        return refuse_with(rt, file, PlannerError::OutOfMemory);
    }
    let _ = rt.eprintln(format_args!("error: {file}: {fault}"));
    Status::Refused
}

/// Reports what a file is refused for.
pub fn refuse_with(rt: &HostRuntime, file: &str, error: PlannerError) -> Status
    ensures { IsFailure result }
{
    let _ = rt.eprintln(format_args!("error: {file}: {error}"));
    error.status()
}
