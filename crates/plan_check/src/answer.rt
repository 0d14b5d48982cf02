//! Checks answers against their plan or instance.

ghost use Rattle.std.specs.Prelude.{◌≡◌, ◌≢◌, ◌<◌, ◌^◌, MatchOption, MatchResult, length, slice_index};
ghost use Rattle.serde_json.specs.View.{view};
ghost use Rattle.plan_check.specs.Answer.{IsAnswerToInstance, IsAnswerToPlan, IsStated, ListsLocations};
ghost use Rattle.plan_check.specs.Refusal.{IsRefusedByInstance, IsRefusedByPlan, IsUnstated, ListsNoneKept};
ghost use Rattle.plan_file.specs.Tables.{HasSizes};
ghost use Rattle.qap_cost.specs.Placement.{Completes, StandsAt};

use crate::error::AnswerError;
use crate::names::{check_arrangement, check_names, check_unnamed};
use crate::number::{stated_bound, stated_cost};
use crate::permutation::permutation_of;
use crate::stated::{json_of, locations_of};
use plan_file::NamedProblem;
use qap_cost::{Instance, Partial, Perm, cost};
use serde_json::Value;
use std::alloc::Global;

/// An answer that was read.
#[derive(Drop)]
pub struct Answer {
    /// It respects what is fixed.
    pub permutation: Perm,
    /// What the permutation costs.
    pub cost: i128,
    /// The stated bound on all arrangements; the file alone does not prove it.
    pub bound: i128,
}

/// The answer to a plan with this JSON: its permutation is valid for the plan and respects what is fixed, and its cost
/// is stated correctly. Names, if present, are the plan's. Otherwise the reason why it is not an answer.
pub fn answer_to_plan(
    alloc: Global,
    problem: &NamedProblem,
    text: &[u8],
) -> Result<Answer, AnswerError>
    requires { HasSizes problem.now }
    ensures { MatchResult result
        (λ a. IsAnswerToPlan problem.now text.now a.permutation a.cost a.bound)
        (IsRefusedByPlan problem.now text.now) }
{
    let value = json_of(alloc, text)?;
    check_names(problem, &value)?;
    let scale = problem.flow_scale + problem.distance_scale;
    let answer = stated_answer(alloc, &problem.instance, &problem.fixed, scale, &value)?;
    check_arrangement(alloc, problem, &answer.permutation, &value)?;
    Ok(answer)
}

/// The answer to an instance whose JSON a text is. Else why it is none.
pub fn answer_to_instance(
    alloc: Global,
    instance: &Instance,
    text: &[u8],
) -> Result<Answer, AnswerError>
    ensures { MatchResult result
        (λ a. IsAnswerToInstance instance.now text.now a.permutation a.cost a.bound)
        (IsRefusedByInstance instance.now text.now) }
{
    let value = json_of(alloc, text)?;
    check_unnamed(&value)?;
    let root = Partial::root(alloc, instance.size())?;
    let answer = stated_answer(alloc, instance, &root, 0, &value)?;
    Ok(answer)
}

/// The answer that a value states.
fn stated_answer(
    alloc: Global,
    instance: &Instance,
    fixed: &Partial,
    scale: usize,
    value: &Value,
) -> Result<Answer, AnswerError>
    requires same_size { fixed.now.size ≡ instance.now.size }
    requires scale { scale < 2 ^ 32 }
    ensures { MatchResult result
        (λ a. IsStated instance.now fixed.now scale (view value.now) a.permutation a.cost a.bound)
        (IsUnstated instance.now fixed.now scale (view value.now)) }
{
    let permutation = kept_permutation(alloc, fixed, value)?;
    let cost = cost(instance, &permutation);
    stated_cost(alloc, value, cost, scale)?;
    let bound = stated_bound(alloc, value, cost, scale)?;
    Ok(Answer {
        permutation,
        cost,
        bound,
    })
}

/// The permutation that a value lists, if it respects what is fixed.
fn kept_permutation(alloc: Global, fixed: &Partial, value: &Value) -> Result<Perm, AnswerError>
    ensures { MatchResult result
        (λ p. ListsLocations (view value.now) p × Completes fixed.now p)
        (ListsNoneKept fixed.now (view value.now)) }
{
    let size = fixed.size();
    let numbers = locations_of(alloc, value, size)?;
    let permutation = permutation_of(alloc, &numbers, size)?;
    let Some((facility, location)) = moved(fixed, &permutation) else {
        return Ok(permutation);
    };
    Err(AnswerError::Moved {
        number: facility + 1,
        location: usize::from(location) + 1,
    })
}

/// The first facility that is not where it is fixed, and where it should be.
fn moved(fixed: &Partial, permutation: &Perm) -> Option<(usize, u16)>
    requires { length permutation.now ≡ fixed.now.size }
    ensures { MatchOption result
        (Completes fixed.now permutation.now)
        (λ m. StandsAt fixed.now m.0 m.1 × (slice_index permutation.now m.0 ≢ m.1)) }
{
    let locations = permutation.locations();
    for facility in 0..fixed.size() {
        if let Some(location) = fixed.at(facility) {
            if locations[facility] != location {
                return Some((facility, location));
            }
        }
    }
    None
}
