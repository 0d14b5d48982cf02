//! The subcommand `compare`: its command line and its run.

ghost use Rattle.std.specs.Prelude.{IfOk, IfSome, length, option_copied, ◌≡◌};
ghost use Rattle.plan_answer.specs.Layout.{layout_text};
ghost use Rattle.plan_file.specs.Tables.{HasSizes};
ghost use Rattle.qap_cost.specs.Placement.{Completes};
ghost use Rattle.qap_plan.specs.Comparing.{Compares, ComparesFrom, IsComparedIn, TellsComparison};
ghost use Rattle.plan_search.specs.Options.{AreLimited};
ghost use Rattle.plan_files.specs.Outputs.{EndsWith, IsSuccess, WritesFor};

use crate::commands::command_line::{columns_in, options_of, with_improvement, with_limits};
use crate::output::outcome::status_of;
use crate::output::plan_outcome::table_text;
use crate::output::progress::{Teller, telling_of};
use clap::{Arg, ArgMatches, Command};
use plan_answer::compared_text;
use plan_file::NamedProblem;
use plan_files::{
    Misuse, Outputs, PlannerError, Refusal, Sink, cost_decimals, ended, inputs_of, is_plain,
    layout_in, plan_in, text_in, worse,
};
use plan_input::{Disk, Loaded, Texts, is_plan, notes_of};
use plan_search::{Hooks, Keeper, Options, Planned, RunClock, search_keeping};
use qap_cost::Perm;
use qap_io::Status;
use std::alloc::{AllocError, Global};
use std::process::ExitCode;
use std::sync::Wait;
use std::thread::Threads;
use std::time;
use subtree_search::Never;

/// To compare today's arrangement with the best one.
#[derive(Clone, Copy)]
pub struct CompareRequest<'a> {
    /// The file of the plan.
    pub file: &'a str,
    /// The file of today's arrangement.
    pub today: &'a str,
    pub options: Options,
    /// The file that the best arrangement is written to, as a table.
    pub csv: Option<&'a str>,
    /// How many columns a line of progress on standard error may have; `None` if none is to be reported.
    pub columns: Option<usize>,
    /// The file whose being there stops the search.
    pub stop_file: Option<&'a str>,
}

/// The subcommand that compares.
pub fn compare_command<'a>(alloc: Global) -> Result<Command<'a>, AllocError> {
    let command = Command::new(alloc, "compare")
        .about("Compares today's arrangement with the best one, and says what moves")
        .arg(
            Arg::new(alloc, "PLAN")
                .required(true)
                .help("the plan, which ends in .toml"),
        )?
        .arg(
            Arg::new(alloc, "TODAY").required(true).help(
                "today's arrangement, a table with the columns department and place",
            ),
        )?;
    with_improvement(alloc, with_limits(alloc, command)?)?.arg(
        Arg::new(alloc, "csv").long("csv").value_name("FILE").help(
            "write the best arrangement to this file, as a table like that of today",
        ),
    )
}

/// The request that was found; `None` if something is missing.
pub fn compare_request<'a>(found: &ArgMatches<'a>) -> Option<CompareRequest<'a>>
    ensures { IfSome result (λ request. AreLimited request.options) }
{
    Some(CompareRequest {
        file: found.get_str("PLAN")?,
        today: found.get_str("TODAY")?,
        options: options_of(found, false, false)?,
        csv: found.get_str("csv"),
        columns: columns_in(found),
        stop_file: found.get_str("stop-file"),
    })
}

/// Compares today's arrangement of a plan with the best one. `system` provides threads, waiting and the time.
pub fn run_compare<T>(system: &T, rt: &HostRuntime, request: &CompareRequest<'_>) -> ExitCode
where
    T: Threads + Wait + time::Clock + Sync,
    requires { AreLimited request.now.options }
{
    let clock = RunClock::new(system, request.options.milliseconds);
    let telling = telling_of(rt, request.columns);
    let teller = Teller::new(rt, &clock, telling, request.stop_file);
    let mut outputs = Outputs::new(rt);
    let texts = Disk { files: rt };
    let run = compare(system, rt.alloc(), &texts, &mut outputs, request, &teller);
    ended(rt, run)
}

/// The same with texts from anywhere, and to anywhere.
pub(crate) fn compare<'a, T, D, S, K>(
    system: &T,
    alloc: Global,
    texts: &D,
    sink: &mut S,
    request: &CompareRequest<'a>,
    keeper: &K,
) -> Result<Status, Refusal<'a>>
where
    T: Threads + Wait + time::Clock + Sync,
    D: Texts,
    S: Sink,
    K: Keeper,
    requires { AreLimited request.now.options }
    ensures { IfOk result (λ status. IsSuccess status → Compares (D.holds texts.now) S.writes S.prints request.now status sink.old sink.new) }
{
    if !is_plan(request.file) {
        return Err(Refusal::Misuse(request.file, Misuse::Names));
    }
    let loaded = plan_in(alloc, texts, request.file)?;
    if !is_plain(&loaded) {
        return Err(Refusal::Misuse(request.file, Misuse::Restricted("compare")));
    }
    note_all(alloc, sink, &loaded);
    let problem = &loaded.problem;
    keeper.use_decimals(cost_decimals(problem));
    let listed = text_in(alloc, texts, request.today)?;
    let today = layout_in(alloc, problem, request.today, &listed)?;
    let [plan, flows, distances, _] = inputs_of(request.file, &loaded);
    let inputs = [plan, flows, distances, request.today];
    if let Err(status) = sink.open(alloc, &[request.csv], &inputs) {
        return Err(Refusal::Reported(status));
    }
    match compare_and_tell(system, alloc, sink, request, problem, &today, keeper) {
        Ok(status) => Ok(status),
        Err(error) => Err(Refusal::File(request.file, error)),
    }
}

/// Searches from today's arrangement, and reports what that finds.
fn compare_and_tell<T, S, K>(
    system: &T,
    alloc: Global,
    sink: &mut S,
    request: &CompareRequest<'_>,
    problem: &NamedProblem,
    today: &Perm,
    keeper: &K,
) -> Result<Status, PlannerError>
where
    T: Threads + Wait + time::Clock + Sync,
    S: Sink,
    K: Keeper,
    requires limited { AreLimited request.now.options }
    requires sizes { HasSizes problem.now }
    requires today { length today.now ≡ problem.now.instance.size }
    ensures { IfOk result (λ status. IsSuccess status → ComparesFrom S.writes S.prints (option_copied request.now.csv) problem.now today.now status sink.old sink.new) }
{
    let (best, text) = compared(system, alloc, problem, today, &request.options, keeper)?;
    Ok(tell(alloc, sink, request.csv, problem, &best, &text))
}

/// Says what the tables were understood as, and what may not be meant.
pub(crate) fn note_all<S: Sink>(alloc: Global, sink: &S, loaded: &Loaded) {
    if let Ok(notes) = notes_of(alloc, loaded) {
        for note in &notes {
            sink.note(note.as_str());
        }
    }
}

/// What a search from today's arrangement finds, and what is reported about the two.
fn compared<T, K>(
    system: &T,
    alloc: Global,
    problem: &NamedProblem,
    today: &Perm,
    options: &Options,
    keeper: &K,
) -> Result<(Planned, Vec<u8>), PlannerError>
where
    T: Threads + Wait + time::Clock + Sync,
    K: Keeper,
    requires limited { AreLimited options.now }
    requires sizes { HasSizes problem.now }
    requires today { length today.now ≡ problem.now.instance.size }
    ensures { IfOk result (λ found. IsComparedIn problem.now today.now found.0 found.1.items) }
{
    let (instance, fixed) = (&problem.instance, &problem.fixed);
    let start = Some(today.copy()?);
    let hooks = Hooks {
        keeper,
        pieces: &Never,
    };
    let found = search_keeping(system, alloc, instance, fixed, start, options, &hooks);
    keeper.finish();
    let best = found?;
    let text = compared_text(alloc, problem, today, &best.permutation, best.bound)?;
    Ok((best, text))
}

/// Prints what is reported, and writes the best arrangement, if that is requested.
fn tell<S: Sink>(
    alloc: Global,
    sink: &mut S,
    csv: Option<&str>,
    problem: &NamedProblem,
    best: &Planned,
    text: &[u8],
) -> Status
    requires sizes { HasSizes problem.now }
    requires kept { Completes problem.now.fixed best.now.permutation }
    ensures { IsSuccess result → TellsComparison S.writes S.prints (option_copied csv.entry) problem.now best.now text.now result sink.old sink.new }
{
    let printed = sink.print(alloc, text);
    let written = write_table(alloc, sink, csv, problem, best);
    worse(status_of(best.cost, best.bound), worse(printed, written))
}

/// Writes an arrangement as a table, if that is requested.
fn write_table<S: Sink>(
    alloc: Global,
    sink: &mut S,
    csv: Option<&str>,
    problem: &NamedProblem,
    best: &Planned,
) -> Status
    requires sizes { HasSizes problem.now }
    requires kept { Completes problem.now.fixed best.now.permutation }
    ensures { EndsWith result (WritesFor S.writes (option_copied csv.entry) (λ t. t ≡ layout_text problem.now best.now.permutation) sink.old sink.new) }
{
    let Some(name) = csv else {
        return Status::Done;
    };
    match table_text(alloc, problem, &best.permutation) {
        Ok(table) => sink.put(alloc, name, &table),
        Err(error) => sink.refuse(name, error),
    }
}
