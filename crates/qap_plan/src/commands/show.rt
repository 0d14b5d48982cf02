//! The subcommand `show`: its command line and its run.

ghost use Rattle.std.specs.Prelude.{◌≡◌, IfOk, option_copied};
ghost use Rattle.plan_answer.specs.Stated.{IsStatedText};
ghost use Rattle.plan_file.specs.Tables.{HasSizes};
ghost use Rattle.qap_cost.specs.Placement.{Completes};
ghost use Rattle.qap_io.specs.declared.status.Status.TheVariants.{Done};
ghost use Rattle.qap_plan.specs.Answer.{stated_text as text_of_numbers};
ghost use Rattle.plan_files.specs.Outputs.{EndsWith, WritesFor};
ghost use Rattle.qap_plan.specs.Picturing.{Pictures, ShowsStated};
ghost use Rattle.qap_plan.specs.Showing.{Repeats, RepeatsNumbers, RepeatsPlan, RepeatsWords};

use crate::commands::command_line::ignore_rest;
use crate::output::answer::stated_text as numbers_text;
use crate::output::picturing::{Drawn, captioned_picture, drawn_of};
use clap::{Arg, ArgMatches, Command};
use plan_answer::{stated_line, stated_text};
use plan_check::{Answer, answer_to_instance, answer_to_plan};
use plan_file::NamedProblem;
use plan_files::{
    Misuse, Outputs, PlannerError, Refusal, Sink, bytes_in, ended, inputs_of, instance_in,
    is_plain, plan_in, worse,
};
use plan_input::{Disk, Texts, is_plan};
use qap_io::Status;
use std::alloc::{AllocError, Global};
use std::process::ExitCode;

/// To show an answer again that was written as JSON.
#[derive(Clone, Copy)]
pub struct ShowRequest<'a> {
    /// The file of the plan or of the instance.
    pub file: &'a str,
    /// The file of the answer's JSON.
    pub answer: &'a str,
    /// The file that the answer is written to too.
    pub out: Option<&'a str>,
    /// The file that a picture of the answer to a plan is written to.
    pub svg: Option<&'a str>,
    /// Whether what follows an instance is skipped.
    pub passes: bool,
}

/// The subcommand `show`.
pub fn show_command<'a>(alloc: Global) -> Result<Command<'a>, AllocError> {
    let command = Command::new(alloc, "show").about(
        "Shows an answer again, from the JSON that `solve` wrote",
    );
    with_answer(alloc, command)?
        .arg(
            Arg::new(alloc, "out")
                .long("out")
                .value_name("FILE")
                .help("write the answer to this file too"),
        )?
        .arg(
            Arg::new(alloc, "svg").long("svg").value_name("FILE").help(
                "draw the answer to a plan, as an SVG picture in this file",
            ),
        )?
        .arg(ignore_rest(alloc))
}

/// The command with a plan or an instance, and an answer to it.
pub(crate) fn with_answer<'a>(
    alloc: Global,
    command: Command<'a>,
) -> Result<Command<'a>, AllocError> {
    command
        .arg(
            Arg::new(alloc, "PLAN")
                .required(true)
                .help("the plan, which ends in .toml, or the instance"),
        )?
        .arg(
            Arg::new(alloc, "ANSWER")
                .required(true)
                .help("the answer that `solve --json` wrote for it"),
        )
}

/// The request that was found; `None` if something is missing.
pub fn show_request<'a>(found: &ArgMatches<'a>) -> Option<ShowRequest<'a>> {
    Some(ShowRequest {
        file: found.get_str("PLAN")?,
        answer: found.get_str("ANSWER")?,
        out: found.get_str("out"),
        svg: found.get_str("svg"),
        passes: found.get_flag("ignore-rest"),
    })
}

/// Shows the answer with the JSON in a file; its bound is reported as stated.
pub fn run_show(rt: &HostRuntime, request: &ShowRequest<'_>) -> ExitCode {
    let (alloc, texts) = (rt.alloc(), Disk { files: rt });
    let mut outputs = Outputs::new(rt);
    let run = if is_plan(request.file) {
        show_plan(alloc, &texts, &mut outputs, request)
    } else {
        show_instance(alloc, &texts, &mut outputs, request)
    };
    ended(rt, run)
}

/// Shows an answer to a plan.
pub(crate) fn show_plan<'a, D: Texts, S: Sink>(
    alloc: Global,
    texts: &D,
    sink: &mut S,
    request: &ShowRequest<'a>,
) -> Result<Status, Refusal<'a>>
    ensures { IfOk result (λ status. status ≡ Done → RepeatsPlan (D.holds texts.now) S.writes S.prints request.now sink.old sink.new) }
{
    let loaded = plan_in(alloc, texts, request.file)?;
    if !is_plain(&loaded) {
        return Err(Refusal::Misuse(request.file, Misuse::Restricted("show")));
    }
    let text = bytes_in(alloc, texts, request.answer)?;
    let problem = &loaded.problem;
    let answer = match answer_to_plan(alloc, problem, &text) {
        Ok(answer) => answer,
        Err(error) => return Err(Refusal::Answer(request.answer, error)),
    };
    let Ok(words) = plan_words(alloc, problem, &answer) else {
        return Err(Refusal::File(request.answer, PlannerError::OutOfMemory));
    };
    let [plan, flows, distances, _] = inputs_of(request.file, &loaded);
    let inputs = [plan, flows, distances, request.answer];
    if let Err(status) = sink.open(alloc, &[request.out, request.svg], &inputs) {
        return Err(Refusal::Reported(status));
    }
    let drawn = drawn_of(&loaded);
    Ok(tell_plan(alloc, sink, request, problem, &answer, &drawn, &words))
}

/// The words for an answer to a plan.
fn plan_words(alloc: Global, problem: &NamedProblem, answer: &Answer) -> Result<Vec<u8>, AllocError>
    requires sizes { HasSizes problem.now }
    requires kept { Completes problem.now.fixed answer.now.permutation }
    ensures { IfOk result (λ text. IsStatedText problem.now answer.now.permutation answer.now.cost answer.now.bound text.items) }
{
    let (cost, bound) = (answer.cost, answer.bound);
    let text = stated_text(alloc, problem, &answer.permutation, cost, bound)?;
    Ok(text)
}

/// Prints an answer to a plan, and writes it and its picture if requested.
fn tell_plan<S: Sink>(
    alloc: Global,
    sink: &mut S,
    request: &ShowRequest<'_>,
    problem: &NamedProblem,
    answer: &Answer,
    drawn: &Drawn<'_>,
    words: &[u8],
) -> Status
    requires sizes { HasSizes problem.now }
    requires kept { Completes problem.now.fixed answer.now.permutation }
    ensures { result ≡ Done → Repeats S.writes S.prints request.now (Pictures problem.now answer.now.permutation answer.now.cost answer.now.bound) words.now sink.old sink.new }
{
    let printed = sink.print(alloc, words);
    let pictured = write_picture(alloc, sink, request.svg, problem, answer, drawn);
    let written = write_words(alloc, sink, request.out, words);
    worse(worse(printed, pictured), written)
}

/// Writes the picture, if it is requested.
fn write_picture<S: Sink>(
    alloc: Global,
    sink: &mut S,
    name: Option<&str>,
    problem: &NamedProblem,
    answer: &Answer,
    drawn: &Drawn<'_>,
) -> Status
    requires sizes { HasSizes problem.now }
    requires kept { Completes problem.now.fixed answer.now.permutation }
    ensures { EndsWith result (WritesFor S.writes (option_copied name.entry) (Pictures problem.now answer.now.permutation answer.now.cost answer.now.bound) sink.old sink.new) }
{
    let Some(name) = name else {
        return Status::Done;
    };
    match stated_picture(alloc, problem, answer, drawn) {
        Ok(svg) => sink.put(alloc, name, &svg),
        Err(error) => sink.refuse(name, error),
    }
}

/// Writes the words, if that is requested.
fn write_words<S: Sink>(alloc: Global, sink: &mut S, name: Option<&str>, words: &[u8]) -> Status
    ensures { EndsWith result (WritesFor S.writes (option_copied name.entry) (λ t. t ≡ words.now) sink.old sink.new) }
{
    match name {
        Some(name) => sink.put(alloc, name, words),
        None => Status::Done,
    }
}

/// The picture of an answer, with what is stated about its cost.
fn stated_picture(
    alloc: Global,
    problem: &NamedProblem,
    answer: &Answer,
    drawn: &Drawn<'_>,
) -> Result<Vec<u8>, PlannerError>
    requires sizes { HasSizes problem.now }
    requires kept { Completes problem.now.fixed answer.now.permutation }
    ensures { IfOk result (λ text. ShowsStated problem.now answer.now.permutation answer.now.cost answer.now.bound drawn.now.title.now text.items) }
{
    let words = stated_line(alloc, problem, answer.cost, answer.bound)?;
    let text = captioned_picture(alloc, problem, &answer.permutation, &words, drawn)?;
    Ok(text)
}

/// Shows an answer to an instance.
pub(crate) fn show_instance<'a, D: Texts, S: Sink>(
    alloc: Global,
    texts: &D,
    sink: &mut S,
    request: &ShowRequest<'a>,
) -> Result<Status, Refusal<'a>>
    ensures { IfOk result (λ status. status ≡ Done → RepeatsNumbers (D.holds texts.now) S.writes S.prints request.now sink.old sink.new) }
{
    if request.svg.is_some() {
        return Err(Refusal::Misuse(request.file, Misuse::Picture));
    }
    let instance = instance_in(alloc, texts, request.file, request.passes)?;
    let text = bytes_in(alloc, texts, request.answer)?;
    let answer = match answer_to_instance(alloc, &instance, &text) {
        Ok(answer) => answer,
        Err(error) => return Err(Refusal::Answer(request.answer, error)),
    };
    let Ok(words) = instance_words(alloc, &answer) else {
        return Err(Refusal::File(request.answer, PlannerError::OutOfMemory));
    };
    let inputs = [request.file, request.answer];
    if let Err(status) = sink.open(alloc, &[request.out], &inputs) {
        return Err(Refusal::Reported(status));
    }
    Ok(tell(alloc, sink, request, &words))
}

/// The words for an answer to an instance.
fn instance_words(alloc: Global, answer: &Answer) -> Result<Vec<u8>, AllocError>
    ensures { IfOk result (λ text. text.items ≡ text_of_numbers answer.now.permutation answer.now.cost answer.now.bound) }
{
    let text = numbers_text(alloc, &answer.permutation, answer.cost, answer.bound)?;
    Ok(text)
}

/// Prints the words, and writes them to the requested file.
fn tell<S: Sink>(alloc: Global, sink: &mut S, request: &ShowRequest<'_>, words: &[u8]) -> Status
    ensures { result ≡ Done → RepeatsWords S.writes S.prints request.now words.now sink.old sink.new }
{
    let printed = sink.print(alloc, words);
    let written = write_words(alloc, sink, request.out, words);
    worse(printed, written)
}
