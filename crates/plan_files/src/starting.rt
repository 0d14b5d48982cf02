//! Reads the start of a search.

ghost use Rattle.std.specs.Prelude.{IfOk, IfSome, MatchResult, length, ◌<◌, ◌≡◌, ◌≢◌, ◌≤◌, ◌⊎◌};
ghost use Rattle.qap_cost.specs.Objective.{Permutes, cost_of};
ghost use Rattle.qap_text.specs.Input.{input_of};
ghost use Rattle.plan_files.specs.Starting.{AreSolution, HasNoSolution, HasNoStart, HasOtherCost, HasSolution, HasStart, NoStart, of_start, starting_of};
ghost use Rattle.plan_files.specs.declared.error.PlannerError.TheVariants.{StartCost as OtherCost};

use crate::error::PlannerError;
use qap_cost::{Instance, Perm, cost};
use qap_io::Counted;
use qap_text::{MAX_INPUT, TextError, read_all, read_solution};
use std::alloc::Global;
use std::io::Read;

/// The permutation in the text of a solution, if there is a reader of one; its size must be the instance's, and the
/// cost that it states correct.
pub fn read_start<Q: Read>(
    alloc: Global,
    reader: &mut Option<Counted<Q>>,
    instance: &Instance,
) -> Result<Option<Perm>, PlannerError>
    ensures read { let s = starting_of Q.remaining reader.old reader.new in
        MatchResult result (HasStart s instance.now) (HasNoStart s instance.now) }
    ensures permutes { IfOk result (λ start. IfSome start (Permutes instance.now)) }
{
    match reader {
        Some(reader) => Ok(Some(read_permutation(alloc, reader, instance)?)),
        None => Ok(None),
    }
}

/// The permutation of the solution with which some bytes begin; its size must be the instance's, and the cost that it
/// states correct.
pub fn permutation_in(
    alloc: Global,
    bytes: &[u8],
    instance: &Instance,
) -> Result<Perm, PlannerError>
    ensures solution { IfOk result (AreSolution bytes.now instance.now) }
    ensures permutes { IfOk result (Permutes instance.now) }
{
    read_permutation(alloc, &mut Counted::new(bytes), instance)
}

/// The permutation that the text of a solution has, and states the cost of.
fn read_permutation<Q: Read>(
    alloc: Global,
    reader: &mut Counted<Q>,
    instance: &Instance,
) -> Result<Perm, PlannerError>
    ensures read { let i = input_of Q.remaining reader.old reader.new in
        MatchResult result
        (λ p. HasSolution i instance.now.size (cost_of instance.now p) p)
        (λ e. NoStart i instance.now e ⊎ HasOtherCost i instance.now e) }
    ensures permutes { IfOk result (Permutes instance.now) }
{
    match read_stated(alloc, reader, instance.size()) {
        Ok((stated, permutation)) => with_cost(instance, stated, permutation),
        Err(error) => Err(start_fault(error)),
    }
}

/// The value and the permutation of the solution that the input begins with.
fn read_stated<Q: Read>(
    alloc: Global,
    reader: &mut Counted<Q>,
    n: usize,
) -> Result<(i128, Perm), TextError>
    requires positive { 0 < n }
    requires small { n ≤ 256 }
    ensures { let i = input_of Q.remaining reader.old reader.new in
        MatchResult result (λ r. HasSolution i n r.0 r.1) (HasNoSolution i n) }
{
    let text = read_all(alloc, reader, MAX_INPUT)?;
    let solution = read_solution(alloc, n, &text)?;
    Ok(solution)
}

/// What a fault of the start's text is for the run.
fn start_fault(error: TextError) -> PlannerError
    ensures { result ≡ of_start error }
{
    match error {
        TextError::OutOfMemory => PlannerError::OutOfMemory,
        _ => PlannerError::Start(error),
    }
}

/// The permutation, if its cost is the stated one.
fn with_cost(instance: &Instance, stated: i128, permutation: Perm) -> Result<Perm, PlannerError>
    requires { length permutation ≡ instance.now.size }
    ensures { MatchResult result
        (λ p. (p ≡ permutation) × (stated ≡ cost_of instance.now permutation))
        (λ e. (e ≡ OtherCost (cost_of instance.now permutation)) × (stated ≢ cost_of instance.now permutation)) }
{
    let costs = cost(instance, &permutation);
    if costs == stated {
        Ok(permutation)
    } else {
        Err(PlannerError::StartCost(costs))
    }
}
