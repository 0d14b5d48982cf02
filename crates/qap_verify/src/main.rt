//! Verifies proofs of least costs, and of bounds, of the quadratic assignment problem.
#![tactic(auto)]

ghost use Rattle.plan_charge.specs.Charges.{AreCharges};
ghost use Rattle.plan_charge.specs.Forbidden.{AreForbidden};

mod answering;
mod command_line;
mod larger;
mod leaves;
mod naming;
mod refusal;
mod sources;
mod verifying;

use answering::{answered, refused};
use clap::Error;
use clap::error::ErrorKind;
use command_line::{Files, parse};
use larger::larger_text;
use naming::{Remarks, covered, joined, verified};
use plan_charge::is_restricting;
use plan_input::{Loaded, is_plan, load_problem};
use qap_io::{Counted, Status};
use qap_text::text_of_instance;
use refusal::VerifyError;
use sources::{Sources, System};
use std::io::Read;
use std::process::ExitCode;
use std::rt::Env;
use std::{env, io};

fn main(rt: HostRuntime) -> ExitCode {
    let words = match arguments(&rt) {
        Ok(words) => words,
        Err(error) => return tell_unread(&rt, &error),
    };
    match parse(rt.alloc(), &words) {
        Ok(files) => run(&rt, &files),
        Err(error) => tell(&rt, &error),
    }
}

/// The words of the program's own command line.
fn arguments(rt: &(impl Env + AllocGlobal)) -> io::Result<Vec<String>> {
    Ok(env::args(rt)?.collect(rt.alloc())?)
}

/// Reports why the command line could not be read.
fn tell_unread(rt: &HostRuntime, error: &io::Error) -> ExitCode {
    if error.kind() == io::ErrorKind::OutOfMemory {
        return refuse(rt, VerifyError::OutOfMemory);
    }
    let _ = rt.eprintln("error: an argument is no text in UTF-8");
    ExitCode::from(Status::Usage.code())
}

/// Prints the help or the version if requested, and otherwise what is wrong with the command line.
fn tell(rt: &HostRuntime, error: &Error) -> ExitCode {
    if error.kind() == ErrorKind::OutOfMemory {
        return refuse(rt, VerifyError::OutOfMemory);
    }
    let _ = error.print(rt);
    ExitCode::from(error.exit_code() as u8)
}

/// Tells a refusal on standard error.
fn refuse(rt: &HostRuntime, error: VerifyError) -> ExitCode {
    ExitCode::from(refused(error, &mut Counted::new(rt.stderr())))
}

/// Verifies the proof, and those of parts, if there are any, beside it. All files are opened before any is read, a plan's tables aside.
fn run(rt: &HostRuntime, files: &Files<'_>) -> ExitCode {
    if is_plan(files.instance) {
        return run_on_plan(rt, files);
    }
    match (System { rt }).open(files.instance) {
        Ok(instance) => run_on(rt, files, instance),
        Err(error) => refuse(rt, error),
    }
}

/// Verifies what is claimed of the instance of a plan: of the text that `qapplan convert` writes.
fn run_on_plan(rt: &HostRuntime, files: &Files<'_>) -> ExitCode {
    let loaded = match load_problem(rt, files.instance) {
        Ok(loaded) => loaded,
        Err(error) => {
            let _ = rt.eprintln(format_args!("error: {error}"));
            return ExitCode::from(error.status().code());
        }
    };
    if is_restricting(&loaded.charges, &loaded.forbidden) {
        return run_on_restricted(rt, files, &loaded);
    }
    match text_of_instance(rt.alloc(), &loaded.problem.instance) {
        Ok(text) => run_on(rt, files, text.as_slice()),
        Err(_) => refuse(rt, VerifyError::OutOfMemory),
    }
}

/// Verifies what is claimed of the larger instance of a plan with costs of places or forbidden places.
fn run_on_restricted(rt: &HostRuntime, files: &Files<'_>, loaded: &Loaded) -> ExitCode
    requires charges { AreCharges loaded.now.problem.instance.size loaded.now.charges }
    requires forbidden { AreForbidden loaded.now.problem.instance.size loaded.now.forbidden }
{
    let instance = &loaded.problem.instance;
    match larger_text(rt.alloc(), instance, &loaded.charges, &loaded.forbidden) {
        Ok(Some(text)) => run_on(rt, files, text.as_slice()),
        Ok(None) => {
            let _ = rt.eprintln(format_args!(
                "error: {}: the numbers are too large for [forbidden] and [allowed]: keep fewer decimals in the tables, as by `round = 2`",
                files.instance
            ));
            ExitCode::from(Status::Refused.code())
        }
        Err(_) => refuse(rt, VerifyError::OutOfMemory),
    }
}

/// Verifies what is claimed of the instance whose text this reader has. `-` stands for a proof that comes from standard input.
fn run_on<R: Read + Drop>(rt: &HostRuntime, files: &Files<'_>, instance: R) -> ExitCode {
    if !files.parts.is_empty() {
        return run_with_parts(rt, files, instance);
    }
    let (alloc, system) = (rt.alloc(), System { rt });
    let mut instance = Counted::new(instance);
    let mut output = Counted::new(rt.stdout());
    let mut errors = Counted::new(rt.stderr());
    let code = if files.proof == "-" {
        let mut proof = Counted::new(rt.stdin());
        answered(
            alloc,
            &mut instance,
            &mut proof,
            files.wanted,
            &mut output,
            &mut errors,
        )
    } else {
        verified(
            alloc,
            &system,
            files,
            &mut instance,
            &mut output,
            &mut errors,
        )
    };
    ExitCode::from(code)
}

/// Likewise, with proofs of parts beside that of a whole.
fn run_with_parts<R: Read + Drop>(rt: &HostRuntime, files: &Files<'_>, instance: R) -> ExitCode {
    let (alloc, system) = (rt.alloc(), System { rt });
    let mut instance = Counted::new(instance);
    let mut output = Counted::new(rt.stdout());
    let ended = if files.proof == "-" {
        let mut proof = Counted::new(rt.stdin());
        joined(
            alloc,
            &system,
            files,
            &mut instance,
            &mut proof,
            &mut output,
            &system,
        )
    } else {
        covered(alloc, &system, files, &mut instance, &mut output, &system)
    };
    match ended {
        Ok(code) => ExitCode::from(code),
        Err(error) => refuse(rt, error),
    }
}

impl Remarks for System<'_> {
    fn say(&self, words: &str) {
        let _ = self.rt.eprint(words);
    }
}
