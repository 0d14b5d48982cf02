//! The subcommand `split`: its command line and its run.

ghost use Rattle.std.specs.Prelude.{IfOk, IfSome, false, length, option_copied, string_bytes, true, ◌≡◌};
ghost use Rattle.qap_cost.specs.Objective.{Permutes};
ghost use Rattle.plan_search.specs.Options.{AreLimited};
ghost use Rattle.plan_files.specs.Outputs.{EndsWith, IsFailure, IsSuccess};
ghost use Rattle.qap_plan.specs.Estimates.{AreOfSize, PrintsEstimates};
ghost use Rattle.qap_plan.specs.PartFiles.{ArePartFiles, AreTextsOf, BeginsIn, IsFileIn, SplitsUp, TellsParts, TellsSplit, WritesParts, split_line, split_status};
ghost use Rattle.plan_files.specs.Starting.{IsSolutionIn};
ghost use Rattle.qap_text.specs.WrittenSolution.{solution_text};

use crate::commands::command_line::{ignore_rest, time_limit, with_improvement, with_start};
use crate::commands::estimates::tell_estimates;
use crate::commands::solve::copy_of;
use crate::output::node_lines::lines_of_parts;
use crate::output::proof_file::text_of_proof;
use crate::search::splitting::{Skeleton, split_up};
use clap::{Arg, ArgAction, ArgMatches, Command, value_parser};
use plan_files::{
    Outputs, PlannerError, Refusal, Searched, Sink, bytes_in, ended, permutation_in, searched_in,
    worse,
};
use plan_input::{Disk, Texts};
use plan_search::{Keeper, MAX_NODES, Options, RunClock};
use qap_cost::{Instance, Perm};
use qap_io::{Counted, Status};
use qap_text::write_solution;
use std::alloc::{AllocError, Global};
use std::process::ExitCode;
use std::sync::Wait;
use std::thread::Threads;
use std::time;

/// The greatest number of parts that may be requested.
const MAX_PARTS: u64 = 1 << 20;

/// The request to split the search of an instance into parts.
#[derive(Clone, Copy)]
pub struct SplitRequest<'a> {
    /// The file of the instance.
    pub file: &'a str,
    /// The file of the start.
    pub start: Option<&'a str>,
    pub options: Options,
    /// The least number of parts.
    pub parts: u64,
    /// The folder that the files are written to.
    pub folder: &'a str,
    /// Whether the nodes of each part are estimated.
    pub estimate: bool,
}

/// The subcommand `split`.
pub fn split_command<'a>(alloc: Global) -> Result<Command<'a>, AllocError> {
    let command = Command::new(alloc, "split")
        .about("Splits the search of an instance into parts, which part solves")
        .arg(
            Arg::new(alloc, "FILE")
                .required(true)
                .help("the plan, which ends in .toml, or the instance"),
        )?
        .arg(
            Arg::new(alloc, "parts")
                .long("parts")
                .value_name("N")
                .value_parser(value_parser!(u64).range(2..=MAX_PARTS as i64))
                .required(true)
                .help("number of parts; there may be a few more"),
        )?
        .arg(
            Arg::new(alloc, "out")
                .short('o')
                .long("out")
                .value_name("DIR")
                .required(true)
                .help("the folder that the files are written to"),
        )?;
    with_improvement(alloc, with_start(alloc, command)?)?
        .arg(
            Arg::new(alloc, "nodes")
                .long("nodes")
                .value_name("N")
                .value_parser(value_parser!(u64).range(0..=MAX_NODES as i64))
                .help("stop after N nodes"),
        )?
        .arg(
            Arg::new(alloc, "seconds")
                .long("seconds")
                .value_name("S")
                .help("stop after this time: seconds, or minutes (2m) or hours (1h)"),
        )?
        .arg(ignore_rest(alloc))?
        .arg(
            Arg::new(alloc, "estimate")
                .long("estimate")
                .action(ArgAction::SetTrue)
                .help("estimate how many nodes the search of each part evaluates"),
        )
}

/// The request that was found; `None` if something is missing.
pub fn split_request<'a>(found: &ArgMatches<'a>) -> Option<SplitRequest<'a>>
    ensures { IfSome result (λ request. AreLimited request.options) }
{
    Some(SplitRequest {
        file: found.get_str("FILE")?,
        start: found.get_str("start"),
        options: Options {
            workers: 1,
            nodes: found.get_one("nodes"),
            milliseconds: time_limit(found),
            memory: None,
            improve: found.get_one("improve"),
            seed: found.get_one("seed")?,
            passes: found.get_flag("ignore-rest"),
            proves: true,
        },
        parts: found.get_one("parts")?,
        folder: found.get_str("out")?,
        estimate: found.get_flag("estimate"),
    })
}

/// Splits the search of an instance or of a plan into parts, and writes the proof so far, the best permutation and the parts' nodes
/// into a folder. `system` provides threads, waiting and the time.
pub fn run_split<T>(system: &T, rt: &HostRuntime, request: &SplitRequest<'_>) -> ExitCode
where
    T: Threads + Wait + time::Clock + Sync,
    requires { AreLimited request.now.options }
{
    let clock = RunClock::new(system, request.options.milliseconds);
    let mut outputs = Outputs::new(rt);
    let texts = Disk { files: rt };
    let run = split(system, rt.alloc(), &texts, &mut outputs, request, &clock);
    ended(rt, run)
}

/// The same with texts from anywhere, and to anywhere.
pub(crate) fn split<'a, T, D, S, K>(
    system: &T,
    alloc: Global,
    texts: &D,
    sink: &mut S,
    request: &SplitRequest<'a>,
    keeper: &K,
) -> Result<Status, Refusal<'a>>
where
    T: Threads + Wait + time::Clock + Sync,
    D: Texts,
    S: Sink,
    K: Keeper,
    requires { AreLimited request.now.options }
    ensures { IfOk result (λ status. IsSuccess status → SplitsUp (D.holds texts.now) S.writes S.prints request.now status sink.old sink.new) }
{
    let searched = searched_in(alloc, texts, request.file, request.options.passes)?;
    let start = start_of(alloc, texts, request, &searched)?;
    let Ok(names) = PartFiles::new(alloc, request.folder) else {
        return Err(Refusal::File(request.folder, PlannerError::OutOfMemory));
    };
    if let Err(status) = sink.make_folder(request.folder) {
        return Err(Refusal::Reported(status));
    }
    if let Err(status) = sink.open(alloc, &names.all(), &searched.inputs(request.file)) {
        return Err(Refusal::Reported(status));
    }
    let options = &request.options;
    let wanted = request.parts as usize;
    match split_up(system, alloc, &searched, start, options, wanted, keeper) {
        Ok(skeleton) => {
            let instance = &searched.instance;
            Ok(tell_parts(alloc, sink, request, &names, instance, &skeleton, keeper))
        }
        Err(error) => Err(Refusal::File(request.file, error)),
    }
}

/// The permutation with which the search begins: the solution in the file that is named, or else the plan's own, if it
/// has one.
fn start_of<'a, D: Texts>(
    alloc: Global,
    texts: &D,
    request: &SplitRequest<'a>,
    searched: &Searched,
) -> Result<Option<Perm>, Refusal<'a>>
    requires { IfSome searched.now.start (Permutes searched.now.instance) }
    ensures permutes { IfOk result (λ start. IfSome start (Permutes searched.now.instance)) }
    ensures begins { IfOk result (BeginsIn (D.holds texts.now) (option_copied request.now.start) searched.now.instance) }
{
    if let Some(file) = request.start {
        return Ok(Some(start_in(alloc, texts, file, &searched.instance)?));
    }
    match copy_of(&searched.start) {
        Ok(start) => Ok(start),
        Err(_) => Err(Refusal::File(request.file, PlannerError::OutOfMemory)),
    }
}

/// The permutation of the solution in a file.
fn start_in<'a, D: Texts>(
    alloc: Global,
    texts: &D,
    file: &'a str,
    instance: &Instance,
) -> Result<Perm, Refusal<'a>>
    ensures permutes { IfOk result (Permutes instance.now) }
    ensures start { IfOk result (IsSolutionIn (D.holds texts.now) file.now instance.now) }
{
    let bytes = bytes_in(alloc, texts, file)?;
    match permutation_in(alloc, &bytes, instance) {
        Ok(start) => Ok(start),
        Err(error) => Err(Refusal::File(file, error)),
    }
}

/// The files that are written into the folder.
#[derive(Drop)]
pub struct PartFiles {
    pub proof: String,
    pub best: String,
    pub parts: String,
}

impl PartFiles {
    fn new(alloc: Global, folder: &str) -> Result<PartFiles, AllocError>
        ensures { IfOk result (ArePartFiles folder.now) }
    {
        Ok(PartFiles {
            proof: name_in(alloc, folder, "skeleton.proof")?,
            best: name_in(alloc, folder, "best.sln")?,
            parts: name_in(alloc, folder, "parts.txt")?,
        })
    }

    fn all(&self) -> [Option<&str>; 3] {
        [
            Some(self.proof.as_str()),
            Some(self.best.as_str()),
            Some(self.parts.as_str()),
        ]
    }
}

/// The name of a file in a folder.
fn name_in(alloc: Global, folder: &str, file: &str) -> Result<String, AllocError>
    ensures { IfOk result (λ name. IsFileIn folder.now file.now (string_bytes name)) }
{
    format!(in alloc; "{folder}/{file}")
}

/// The texts of the files, and the line that tells what is left.
#[derive(Drop)]
pub struct PartTexts {
    pub proof: Vec<u8>,
    pub best: Vec<u8>,
    pub parts: Vec<u8>,
    pub line: String,
}

/// Writes the files, and prints what is left and, if they are requested, estimates of the parts.
fn tell_parts<S: Sink, K: Keeper>(
    alloc: Global,
    sink: &mut S,
    request: &SplitRequest<'_>,
    names: &PartFiles,
    instance: &Instance,
    skeleton: &Skeleton,
    keeper: &K,
) -> Status
    requires permutes { Permutes instance.now skeleton.now.proof.permutation }
    requires sizes { AreOfSize instance.now.size skeleton.now.parts.items }
    ensures ends { IsSuccess result → result ≡ split_status (length skeleton.now.parts.items) request.now.parts }
    ensures told { IsSuccess result → TellsParts S.writes S.prints request.now.estimate names.now skeleton.now sink.old sink.new }
{
    let status = write_parts(alloc, sink, request, names, skeleton);
    if request.estimate {
        let folder = request.folder;
        return tell_more(alloc, sink, folder, instance, skeleton, keeper, status);
    }
    status
}

/// Prints estimates of the parts, if what was done before has not failed, and returns how the run ends.
fn tell_more<S: Sink, K: Keeper>(
    alloc: Global,
    sink: &mut S,
    folder: &str,
    instance: &Instance,
    skeleton: &Skeleton,
    keeper: &K,
    status: Status,
) -> Status
    requires permutes { Permutes instance.now skeleton.now.proof.permutation }
    requires sizes { AreOfSize instance.now.size skeleton.now.parts.items }
    ensures ends { IsSuccess result → result ≡ status }
    ensures printed { IsSuccess result → PrintsEstimates S.prints true (length skeleton.now.parts.items) sink.old sink.new }
{
    if !succeeds(status) {
        return status;
    }
    match tell_estimates(alloc, sink, folder, instance, skeleton, keeper) {
        Ok(()) => status,
        Err(failed) => failed,
    }
}

/// Writes the files, prints what is left, and returns how the run ends. If a file cannot be written, nothing is printed.
fn write_parts<S: Sink>(
    alloc: Global,
    sink: &mut S,
    request: &SplitRequest<'_>,
    names: &PartFiles,
    skeleton: &Skeleton,
) -> Status
    ensures ends { IsSuccess result → result ≡ split_status (length skeleton.now.parts.items) request.now.parts }
    ensures told { IsSuccess result → TellsSplit S.writes S.prints names.now skeleton.now sink.old sink.new }
{
    let texts = match texts_of(alloc, skeleton) {
        Ok(texts) => texts,
        Err(error) => return sink.refuse(request.folder, error),
    };
    let status = write_files(alloc, sink, names, &texts);
    if status != Status::Done {
        return status;
    }
    let printed = sink.print(alloc, texts.line.as_bytes());
    worse(ending_of(request, skeleton), printed)
}

/// How the run ends if all is written: early if there are fewer parts than requested, but some.
fn ending_of(request: &SplitRequest<'_>, skeleton: &Skeleton) -> Status
    ensures { result ≡ split_status (length skeleton.now.parts.items) request.now.parts }
{
    let left = skeleton.parts.len();
    if left == 0 || left >= request.parts as usize {
        Status::Done
    } else {
        Status::Stopped
    }
}

/// Whether a run that ends so has not failed.
fn succeeds(status: Status) -> bool
    ensures { result ≡ false → IsFailure status }
{
    matches!(status, Status::Done | Status::Stopped)
}

/// Writes the three files, each independently of the others.
fn write_files<S: Sink>(alloc: Global, sink: &mut S, names: &PartFiles, texts: &PartTexts) -> Status
    ensures { EndsWith result (WritesParts S.writes names.now texts.now sink.old sink.new) }
{
    let proof = sink.put(alloc, &names.proof, &texts.proof);
    let best = sink.put(alloc, &names.best, &texts.best);
    let parts = sink.put(alloc, &names.parts, &texts.parts);
    worse(proof, worse(best, parts))
}

/// The texts of a skeleton.
fn texts_of(alloc: Global, skeleton: &Skeleton) -> Result<PartTexts, PlannerError>
    ensures { IfOk result (AreTextsOf skeleton.now) }
{
    let proof = text_of_proof(alloc, &skeleton.proof)?;
    let best = solution_of(alloc, skeleton)?;
    let parts = lines_of_parts(alloc, &skeleton.parts)?;
    let left = skeleton.parts.len();
    let line = line_of(alloc, skeleton.proof.cost(), skeleton.proof.bound(), left)?;
    Ok(PartTexts {
        proof,
        best,
        parts,
        line,
    })
}

/// The line with what is left.
fn line_of(alloc: Global, cost: i128, bound: i128, left: usize) -> Result<String, AllocError>
    ensures { IfOk result (λ line. string_bytes line ≡ split_line cost bound left) }
{
    if left == 0 {
        format!(in alloc; "cost {cost}, optimal, proved: no part is left\n")
    } else {
        format!(in alloc; "cost {cost}, within {bound} to {cost}, proved: {left} parts are left\n")
    }
}

/// The text of the best permutation.
fn solution_of(alloc: Global, skeleton: &Skeleton) -> Result<Vec<u8>, PlannerError>
    ensures { IfOk result (λ text. text.items ≡ solution_text skeleton.now.proof.cost skeleton.now.proof.permutation) }
{
    let mut text = Counted::new(Vec::new(alloc));
    let proof = &skeleton.proof;
    match write_solution(alloc, &mut text, proof.cost(), proof.perm()) {
        Ok(()) => Ok(text.into_inner()),
        // Nothing but want of memory keeps a text from a vector.
        Err(_) => Err(PlannerError::OutOfMemory),
    }
}
