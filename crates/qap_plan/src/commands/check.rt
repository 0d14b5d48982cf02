//! The subcommand `check`: its command line and its run.

ghost use Rattle.std.specs.Prelude.{◌≡◌, IfOk, option_copied, option_map};
ghost use Rattle.qap_io.specs.declared.status.Status.TheVariants.{Done};
ghost use Rattle.qap_plan.specs.Checking.{ConfirmsNumbersIn, ConfirmsPlanIn};
ghost use Rattle.plan_files.specs.Sources.{IsGivenIn};

use crate::commands::checking::{CheckFault, confirmed_numbers, confirmed_plan};
use crate::commands::command_line::ignore_rest;
use crate::commands::show::with_answer;
use clap::{Arg, ArgMatches, Command};
use plan_files::{Misuse, Outputs, Refusal, Sink, bytes_in, ended, instance_in, is_plain, plan_in};
use plan_input::{Disk, Texts, is_plan};
use qap_io::Status;
use std::alloc::{AllocError, Global};
use std::process::ExitCode;

/// The request to check an answer in JSON, with its proof if one is named.
#[derive(Clone, Copy)]
pub struct CheckRequest<'a> {
    /// The file of the plan or of the instance.
    pub file: &'a str,
    /// The file of the answer's JSON.
    pub answer: &'a str,
    /// The file of the proof.
    pub proof: Option<&'a str>,
    /// Whether what follows an instance is skipped.
    pub passes: bool,
}

/// The subcommand `check`.
pub fn check_command<'a>(alloc: Global) -> Result<Command<'a>, AllocError> {
    let command = Command::new(alloc, "check").about(
        "Says what an answer costs, and what a proof shows of it",
    );
    with_answer(alloc, command)?
        .arg(Arg::new(alloc, "PROOF").help("the proof that `solve --proof` wrote with it"))?
        .arg(ignore_rest(alloc))
}

/// The request that was found; `None` if something is missing.
pub fn check_request<'a>(found: &ArgMatches<'a>) -> Option<CheckRequest<'a>> {
    Some(CheckRequest {
        file: found.get_str("PLAN")?,
        answer: found.get_str("ANSWER")?,
        proof: found.get_str("PROOF"),
        passes: found.get_flag("ignore-rest"),
    })
}

/// Prints the cost of the answer in a file, and if a proof is named, what it establishes.
pub fn run_check(rt: &HostRuntime, request: &CheckRequest<'_>) -> ExitCode {
    let (alloc, texts) = (rt.alloc(), Disk { files: rt });
    let mut outputs = Outputs::new(rt);
    let run = if is_plan(request.file) {
        check_plan(alloc, &texts, &mut outputs, request)
    } else {
        check_instance(alloc, &texts, &mut outputs, request)
    };
    ended(rt, run)
}

/// The text of the proof that is named, where one is.
fn proof_in<'a, D: Texts>(
    alloc: Global,
    texts: &D,
    request: &CheckRequest<'a>,
) -> Result<Option<Vec<u8>>, Refusal<'a>>
    ensures { IfOk result (λ proof. IsGivenIn (D.holds texts.now) (option_copied request.now.proof) (option_map (λ v. v.items) proof)) }
{
    match request.proof {
        Some(file) => Ok(Some(bytes_in(alloc, texts, file)?)),
        None => Ok(None),
    }
}

/// Checks an answer to a plan.
pub(crate) fn check_plan<'a, D: Texts, S: Sink>(
    alloc: Global,
    texts: &D,
    sink: &mut S,
    request: &CheckRequest<'a>,
) -> Result<Status, Refusal<'a>>
    ensures { IfOk result (λ status. status ≡ Done → ConfirmsPlanIn (D.holds texts.now) S.prints request.now sink.old sink.new) }
{
    let proof = proof_in(alloc, texts, request)?;
    let loaded = plan_in(alloc, texts, request.file)?;
    if !is_plain(&loaded) {
        return Err(Refusal::Misuse(request.file, Misuse::Restricted("check")));
    }
    let text = bytes_in(alloc, texts, request.answer)?;
    match confirmed_plan(alloc, &loaded.problem, &text, proof.as_deref()) {
        Ok(line) => Ok(sink.print(alloc, &line)),
        Err(fault) => Err(refusal_of(request, fault)),
    }
}

/// Checks an answer to an instance.
pub(crate) fn check_instance<'a, D: Texts, S: Sink>(
    alloc: Global,
    texts: &D,
    sink: &mut S,
    request: &CheckRequest<'a>,
) -> Result<Status, Refusal<'a>>
    ensures { IfOk result (λ status. status ≡ Done → ConfirmsNumbersIn (D.holds texts.now) S.prints request.now sink.old sink.new) }
{
    let proof = proof_in(alloc, texts, request)?;
    let instance = instance_in(alloc, texts, request.file, request.passes)?;
    let text = bytes_in(alloc, texts, request.answer)?;
    match confirmed_numbers(alloc, &instance, &text, proof.as_deref()) {
        Ok(line) => Ok(sink.print(alloc, &line)),
        Err(fault) => Err(refusal_of(request, fault)),
    }
}

/// Why the answer or its proof is refused.
fn refusal_of<'a>(request: &CheckRequest<'a>, fault: CheckFault) -> Refusal<'a> {
    match fault {
        CheckFault::Answer(error) => Refusal::Answer(request.answer, error),
        CheckFault::Proof(fault) => Refusal::Proof(request.proof.unwrap_or(request.file), fault),
    }
}
