//! The subcommand `part`: its command line and its run.

ghost use Rattle.std.specs.Prelude.{IfOk, IfSome, None, string_bytes, ◌≡◌, ◌≤◌, ◌≤ℤ◌, ◌⊎◌};
ghost use Rattle.qap_cost.specs.Objective.{Permutes};
ghost use Rattle.qap_proof.specs.Claim.{IsRoot};
ghost use Rattle.qap_plan.specs.Answer.{part_line};
ghost use Rattle.plan_search.specs.Options.{AreLimited};
ghost use Rattle.qap_plan.specs.Outcome.{status_of as status_for};
ghost use Rattle.plan_files.specs.Outputs.{IsSuccess, severity};
ghost use Rattle.qap_plan.specs.Solving.{FindsPart, IsPosed, IsSolved, SolvesPart, Stands, TellsKept, TellsPart, WritesPart};

use crate::commands::command_line::{columns_in, ignore_rest, time_limit, with_limits};
use crate::commands::ending::put_proof;
use crate::output::outcome::status_of;
use crate::output::progress::{Teller, telling_of};
use crate::output::proof_file::{Proved, with_proof};
use crate::search::spooling::{RunHooks, spool_for};
use clap::{Arg, ArgMatches, Command};
use plan_files::{
    Outputs, PlannerError, Refusal, Searched, Sink, bytes_in, ended, permutation_in, searched_in,
    worse,
};
use plan_input::{Disk, Texts};
use plan_search::{Keeper, MAX_WORKERS, Options, RunClock, search_below, standing_proof};
use proof_spool::SharedSpool;
use qap_cost::{Partial, Perm, cost};
use qap_io::Status;
use qap_proof::{Stated, read_node_text};
use std::alloc::{AllocError, Global};
use std::process::ExitCode;
use std::sync::Wait;
use std::thread::Threads;
use std::time;

/// To solve a part.
#[derive(Clone, Copy)]
pub struct PartRequest<'a> {
    /// The file of the instance.
    pub file: &'a str,
    /// The node: facilities and locations alternately.
    pub node: &'a str,
    /// The file of the start.
    pub start: &'a str,
    pub options: Options,
    /// The file that the proof is written to.
    pub proof: &'a str,
    /// How many columns a line of progress on standard error may have; `None` if none is to be reported.
    pub columns: Option<usize>,
    /// The file whose being there stops the search.
    pub stop_file: Option<&'a str>,
}

/// The subcommand that solves a part.
pub fn part_command<'a>(alloc: Global) -> Result<Command<'a>, AllocError> {
    let command = Command::new(alloc, "part")
        .about("Solves a part of an instance's search, and writes its proof")
        .arg(
            Arg::new(alloc, "FILE")
                .required(true)
                .help("the plan, which ends in .toml, or the instance"),
        )?
        .arg(
            Arg::new(alloc, "node")
                .long("node")
                .value_name("NODE")
                .required(true)
                .help(
                    "the part's facilities, each followed by its location, counted from 1, as \"1 5 2 7\"",
                ),
        )?
        .arg(
            Arg::new(alloc, "start")
                .long("start")
                .value_name("FILE")
                .required(true)
                .help("start from the solution in this file"),
        )?
        .arg(
            Arg::new(alloc, "out")
                .short('o')
                .long("out")
                .value_name("PROOF")
                .required(true)
                .help("write the proof to this file; a complete one that is there is kept"),
        )?;
    with_limits(alloc, command)?.arg(ignore_rest(alloc))
}

/// The request that was found; `None` if something is missing, or there are too many workers.
pub fn part_request<'a>(found: &ArgMatches<'a>) -> Option<PartRequest<'a>>
    ensures { IfSome result (λ request. AreLimited request.options) }
{
    let workers = found.get_one("workers")?;
    if workers == 0 || workers > MAX_WORKERS {
        return None;
    }
    Some(PartRequest {
        file: found.get_str("FILE")?,
        node: found.get_str("node")?,
        start: found.get_str("start")?,
        options: Options {
            workers,
            nodes: found.get_one("nodes"),
            milliseconds: time_limit(found),
            memory: found.get_one("memory"),
            improve: Some(0),
            seed: 1,
            passes: found.get_flag("ignore-rest"),
            proves: true,
        },
        proof: found.get_str("out")?,
        columns: columns_in(found),
        stop_file: found.get_str("stop-file"),
    })
}

/// Solves a part, and writes its proof; an existing valid one is kept. `system` provides threads and the time.
pub fn run_part<T>(system: &T, rt: &HostRuntime, request: &PartRequest<'_>) -> ExitCode
where
    T: Threads + Wait + time::Clock + Sync,
    requires { AreLimited request.now.options }
{
    let clock = RunClock::new(system, request.options.milliseconds);
    let telling = telling_of(rt, request.columns);
    let teller = Teller::new(rt, &clock, telling, request.stop_file);
    let mut outputs = Outputs::new(rt);
    let texts = Disk { files: rt };
    let run = part(system, rt.alloc(), &texts, &mut outputs, request, &teller);
    ended(rt, run)
}

/// A part, and where its search starts.
#[derive(Drop)]
pub struct Posed {
    pub searched: Searched,
    pub node: Partial,
    pub start: Perm,
}

/// The same with texts from anywhere, and to anywhere.
pub(crate) fn part<'a, T, D, S, K>(
    system: &T,
    alloc: Global,
    texts: &D,
    sink: &mut S,
    request: &PartRequest<'a>,
    keeper: &K,
) -> Result<Status, Refusal<'a>>
where
    T: Threads + Wait + time::Clock + Sync,
    D: Texts,
    S: Sink,
    K: Keeper,
    requires { AreLimited request.now.options }
    ensures { IfOk result (λ status. IsSuccess status → SolvesPart (D.holds texts.now) S.writes S.prints request.now status sink.old sink.new) }
{
    let posed = posed_in(alloc, texts, request)?;
    if let Some(stated) = standing_in(alloc, texts, sink, request.proof, &posed)? {
        return Ok(tell_kept(alloc, sink, &posed, &stated));
    }
    let inputs = posed.searched.inputs(request.file);
    if let Err(status) = sink.open(alloc, &[Some(request.proof)], &inputs) {
        return Err(Refusal::Reported(status));
    }
    match solve_and_write(system, alloc, sink, request, &posed, keeper) {
        Ok(status) => Ok(status),
        Err(error) => Err(Refusal::File(request.file, error)),
    }
}

/// Says that the proof of an earlier run is kept. What it shows reaches the lesser of its own cost and the start's: the part is
/// complete.
fn tell_kept<S: Sink>(alloc: Global, sink: &mut S, posed: &Posed, stated: &Stated) -> Status
    requires { Permutes posed.now.searched.instance posed.now.start }
    ensures { IsSuccess result → TellsKept S.prints posed.now stated.now result sink.old sink.new }
{
    let known = cost(&posed.searched.instance, &posed.start);
    let least = lesser(stated.cost, known);
    tell(alloc, sink, least, stated.bound, " before")
}

/// The lesser of two costs.
fn lesser(left: i128, right: i128) -> i128
    ensures one { (result ≡ left) ⊎ (result ≡ right) }
    ensures left { result ≤ℤ left }
    ensures right { result ≤ℤ right }
{
    if left < right { left } else { right }
}

/// Searches a part, and writes what that finds.
fn solve_and_write<T, S, K>(
    system: &T,
    alloc: Global,
    sink: &mut S,
    request: &PartRequest<'_>,
    posed: &Posed,
    keeper: &K,
) -> Result<Status, PlannerError>
where
    T: Threads + Wait + time::Clock + Sync,
    S: Sink,
    K: Keeper,
    requires root { IsRoot posed.now.searched.instance.size posed.now.node }
    requires start { Permutes posed.now.searched.instance posed.now.start }
    requires limited { AreLimited request.now.options }
    ensures { IfOk result (λ status. IsSuccess status → FindsPart S.writes S.prints request.now.proof.now posed.now status sink.old sink.new) }
{
    let spool = match spool_for(alloc, sink, Some(request.proof)) {
        Ok(spool) => spool,
        Err(status) => return Ok(status),
    };
    let hooks = RunHooks {
        keeper,
        pieces: &SharedSpool::new(system, spool),
    };
    let found = solved(system, alloc, posed, &request.options, &hooks)?;
    Ok(write_part(alloc, sink, request.proof, found))
}

/// What is to be solved.
fn posed_in<'a, D: Texts>(
    alloc: Global,
    texts: &D,
    request: &PartRequest<'a>,
) -> Result<Posed, Refusal<'a>>
    ensures root { IfOk result (λ p. IsRoot p.searched.instance.size p.node) }
    ensures start { IfOk result (λ p. Permutes p.searched.instance p.start) }
    ensures posed { IfOk result (IsPosed (D.holds texts.now) request.now) }
{
    let searched = searched_in(alloc, texts, request.file, request.options.passes)?;
    let node = match read_node_text(alloc, request.node.as_bytes(), searched.instance.size()) {
        Ok(Some(node)) => node,
        Ok(None) => return Err(Refusal::File("--node", PlannerError::Node)),
        Err(_) => return Err(Refusal::File("--node", PlannerError::OutOfMemory)),
    };
    let bytes = bytes_in(alloc, texts, request.start)?;
    match permutation_in(alloc, &bytes, &searched.instance) {
        Ok(start) => Ok(Posed {
            searched,
            node,
            start,
        }),
        Err(error) => Err(Refusal::File(request.start, error)),
    }
}

/// What the proof of an earlier run establishes, if it is there, and the part is complete by it. A device is not read.
fn standing_in<'a, D: Texts, S: Sink>(
    alloc: Global,
    texts: &D,
    sink: &S,
    file: &'a str,
    posed: &Posed,
) -> Result<Option<Stated>, Refusal<'a>>
    requires start { Permutes posed.now.searched.instance posed.now.start }
    ensures { IfOk result (λ stated. IfSome stated (Stands (D.holds texts.now) file.now posed.now)) }
{
    if sink.is_device(file) {
        return Ok(None);
    }
    let text = match bytes_in(alloc, texts, file) {
        Ok(text) => text,
        Err(refusal) => return unread(refusal),
    };
    let instance = &posed.searched.instance;
    let known = cost(instance, &posed.start);
    match standing_proof(alloc, instance, &posed.node, known, &text) {
        Ok(stated) => Ok(stated),
        Err(_) => Err(Refusal::File(file, PlannerError::OutOfMemory)),
    }
}

/// There is no proof if its file cannot be read, unless for want of memory.
fn unread(refusal: Refusal<'_>) -> Result<Option<Stated>, Refusal<'_>>
    ensures { IfOk result (λ stated. stated ≡ None) }
{
    match refusal {
        Refusal::File(_, PlannerError::OutOfMemory) => Err(refusal),
        _ => Ok(None),
    }
}

/// What the search of the part has found, with its proof.
fn solved<T, K>(
    system: &T,
    alloc: Global,
    posed: &Posed,
    options: &Options,
    hooks: &RunHooks<'_, T, K>,
) -> Result<Proved, PlannerError>
where
    T: Threads + Wait + time::Clock + Sync,
    K: Keeper,
    requires root { IsRoot posed.now.searched.instance.size posed.now.node }
    requires start { Permutes posed.now.searched.instance posed.now.start }
    requires limited { AreLimited options.now }
    ensures { IfOk result (IsSolved posed.now) }
{
    let (instance, node) = (&posed.searched.instance, &posed.node);
    let found = search_below(system, alloc, instance, node, &posed.start, options, hooks);
    hooks.keeper.finish();
    let found = found?;
    let answer = with_proof(alloc, instance, node, found, hooks.pieces);
    Ok(answer)
}

/// Writes the proof, and prints what it establishes. If the proof cannot be written, nothing is printed about it.
fn write_part<S: Sink>(alloc: Global, sink: &mut S, file: &str, found: Proved) -> Status
    ensures { IsSuccess result → WritesPart S.writes S.prints file.now found result sink.old sink.new }
{
    let Proved { planned, proof } = found;
    let Some(proof) = proof else {
        return sink.refuse(file, PlannerError::NoProof);
    };
    match put_proof(alloc, sink, file, proof) {
        Status::Done => tell(alloc, sink, planned.cost, planned.bound, ""),
        failed => failed,
    }
}

/// Prints what the proof of the part establishes, and returns how the run ends.
fn tell<S: Sink>(alloc: Global, sink: &mut S, cost: i128, bound: i128, when: &str) -> Status
    ensures severity { severity (status_for cost bound) ≤ severity result }
    ensures told { IsSuccess result → TellsPart S.prints cost bound when.now result sink.old sink.new }
{
    let printed = match line_of(alloc, cost, bound, when) {
        Ok(line) => sink.print(alloc, line.as_bytes()),
        Err(_) => sink.refuse("standard output", PlannerError::OutOfMemory),
    };
    worse(status_of(cost, bound), printed)
}

/// The line with what the proof of the part establishes.
fn line_of(alloc: Global, cost: i128, bound: i128, when: &str) -> Result<String, AllocError>
    ensures { IfOk result (λ line. string_bytes line ≡ part_line cost bound when.now) }
{
    if bound < cost {
        format!(in alloc; "cost {cost}, part within {bound} to {cost}, proved{when}\n")
    } else {
        format!(in alloc; "cost {cost}, part complete, proved{when}\n")
    }
}
