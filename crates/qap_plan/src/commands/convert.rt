//! The subcommand `convert`: its command line and its run.

ghost use Rattle.std.specs.Prelude.{◌≡◌, IfOk, None, Some, if◌then◌else◌, option_copied, string_bytes};
ghost use Rattle.qap_io.specs.declared.status.Status.TheVariants.{Done};
ghost use Rattle.qap_plan.specs.Converting.{Converts, WritesConverted, names_file};
ghost use Rattle.plan_files.specs.Outputs.{EndsWith, WritesFor};

use crate::commands::converting::{Converted, converted_texts};
use clap::{Arg, ArgMatches, Command};
use plan_files::{Misuse, Outputs, PlannerError, Refusal, Sink, ended, inputs_of, plan_in};
use plan_input::{Disk, Texts, is_plan};
use qap_io::Status;
use std::alloc::{AllocError, Global};
use std::process::ExitCode;

/// To write the tables of a plan as an instance in the QAPLIB format.
#[derive(Clone, Copy)]
pub struct ConvertRequest<'a> {
    /// The file of the plan.
    pub plan: &'a str,
    /// The file of the instance; the names that its numbers represent are written beside it.
    pub out: &'a str,
}

/// The subcommand that writes a plan's tables as a text of numbers.
pub fn convert_command<'a>(alloc: Global) -> Result<Command<'a>, AllocError> {
    Command::new(alloc, "convert")
        .about("Writes a plan's tables as an instance in the QAPLIB format")
        .arg(
            Arg::new(alloc, "PLAN")
                .required(true)
                .help("the plan, which ends in .toml"),
        )?
        .arg(
            Arg::new(alloc, "out")
                .short('o')
                .long("out")
                .value_name("FILE")
                .required(true)
                .help("the file of the instance; its names and scales are written to FILE.json"),
        )
}

/// The request that was found; `None` if something is missing.
pub fn convert_request<'a>(found: &ArgMatches<'a>) -> Option<ConvertRequest<'a>> {
    Some(ConvertRequest {
        plan: found.get_str("PLAN")?,
        out: found.get_str("out")?,
    })
}

/// Writes the instance of a plan's tables, and beside it the names and the scales, and prints its size.
pub fn run_convert(rt: &HostRuntime, request: &ConvertRequest<'_>) -> ExitCode {
    let mut outputs = Outputs::new(rt);
    let run = convert(rt.alloc(), &Disk { files: rt }, &mut outputs, request);
    ended(rt, run)
}

/// The same with texts from anywhere, and to anywhere.
pub(crate) fn convert<'a, D: Texts, S: Sink>(
    alloc: Global,
    texts: &D,
    sink: &mut S,
    request: &ConvertRequest<'a>,
) -> Result<Status, Refusal<'a>>
    ensures { IfOk result (λ status. status ≡ Done → Converts (D.holds texts.now) S.writes S.prints S.holds_device request.now sink.old sink.new) }
{
    if !is_plan(request.plan) {
        return Err(Refusal::Misuse(request.plan, Misuse::Conversion));
    }
    let loaded = plan_in(alloc, texts, request.plan)?;
    let texts = match converted_texts(alloc, &loaded) {
        Ok(texts) => texts,
        Err(error) => return Err(Refusal::File(request.plan, error)),
    };
    let Ok(name) = name_beside(alloc, request.out) else {
        return Err(Refusal::File(request.out, PlannerError::OutOfMemory));
    };
    let is_device = sink.is_device(request.out);
    let beside = beside_of(is_device, name.as_str());
    let names = [beside, Some(request.out)];
    match sink.open(alloc, &names, &inputs_of(request.plan, &loaded)) {
        Ok(()) => Ok(write_converted(alloc, sink, beside, request.out, &texts)),
        Err(status) => Err(Refusal::Reported(status)),
    }
}

/// The file of the names: there is none beside a device.
fn beside_of<'b>(is_device: bool, name: &'b str) -> Option<&'b str>
    ensures { option_copied result ≡ (if is_device then None else Some name.now) }
{
    if is_device { None } else { Some(name) }
}

/// The name of the file of the names, beside that of the instance.
fn name_beside(alloc: Global, out: &str) -> Result<String, AllocError>
    ensures { IfOk result (λ name. string_bytes name ≡ names_file out.now) }
{
    format!(in alloc; "{out}.json")
}

/// Writes the names, so that no instance is without them, and then the instance; to a device, the instance alone. Then
/// it prints the size.
fn write_converted<S: Sink>(
    alloc: Global,
    sink: &mut S,
    beside: Option<&str>,
    out: &str,
    texts: &Converted,
) -> Status
    ensures { EndsWith result (WritesConverted S.writes S.prints (option_copied beside.entry) out.now texts.now sink.old sink.new) }
{
    let written = write_beside(alloc, sink, beside, texts);
    if written != Status::Done {
        return written;
    }
    let written = sink.put(alloc, out, &texts.text);
    if written != Status::Done {
        return written;
    }
    sink.print(alloc, texts.line.as_bytes())
}

/// Writes the names, if they have a file.
fn write_beside<S: Sink>(
    alloc: Global,
    sink: &mut S,
    beside: Option<&str>,
    texts: &Converted,
) -> Status
    ensures { EndsWith result (WritesFor S.writes (option_copied beside.entry) (λ t. t ≡ texts.now.names.items) sink.old sink.new) }
{
    match beside {
        Some(name) => sink.put(alloc, name, &texts.names),
        None => Status::Done,
    }
}
