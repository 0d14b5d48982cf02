//! Solves an instance, from bytes to bytes.

ghost use Rattle.std.specs.Prelude.{IfOk, IfSome, MatchResult, ◌≡◌};
ghost use Rattle.qap_cost.specs.Placement.{root_of};
ghost use Rattle.qap_text.specs.Input.{input_of};
ghost use Rattle.qap_plan.specs.Answering.{HasAnswered, HasNotAnswered};
ghost use Rattle.plan_search.specs.Options.{AreLimited};
ghost use Rattle.plan_search.specs.Planning.{ProvesOver};
ghost use Rattle.plan_files.specs.Starting.{starting_of};

use crate::output::answer::answer_text;
use part_search::Pieces;
use plan_files::{PlannerError, read_problem, read_start};
use plan_search::{Hooks, Keeper, Options, Planned, search};
use qap_cost::Instance;
use qap_io::{Counted, send};
use std::alloc::Global;
use std::io::{Read, Write};
use std::sync::Wait;
use std::thread::Threads;
use std::time;

/// Reads an instance, and a start if there is a reader of one, searches it, and writes the best permutation found, with
/// what is proved about its cost; also returns the instance, and what the search has found. If there is no answer,
/// nothing is written; if the writer fails, a prefix of the text has been written.
pub fn plan_stream<T, R, Q, W, K, P>(
    system: &T,
    alloc: Global,
    reader: &mut Counted<R>,
    start: &mut Option<Counted<Q>>,
    writer: &mut Counted<W>,
    options: &Options,
    hooks: &Hooks<'_, K, P>,
) -> Result<(Instance, Planned), PlannerError>
where
    T: Threads + Wait + time::Clock + Sync,
    R: Read,
    Q: Read,
    W: Write,
    K: Keeper,
    P: Pieces + Sync,
    requires { AreLimited options.now }
    ensures answered { let i = input_of R.remaining reader.old reader.new in let s = starting_of Q.remaining start.old start.new in MatchResult result
        (λ a. HasAnswered i s options.now.passes W.contents writer.old writer.new a.0 a.1)
        (HasNotAnswered i s options.now.passes W.contents writer.old writer.new) }
    ensures proof { IfOk result (λ a. IfSome a.1.proof (ProvesOver a.0 (root_of a.0.size) a.1.permutation a.1.cost a.1.bound)) }
{
    let instance = read_problem(alloc, reader, options.passes)?;
    let start = read_start(alloc, start, &instance)?;
    let found = search(system, alloc, &instance, start, options, hooks)?;
    let text = answer_text(alloc, &found.permutation, found.cost, found.bound)?;
    send(writer, &text)?;
    Ok((instance, found))
}
