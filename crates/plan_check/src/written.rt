//! Whether a text that was written as the JSON of an answer reads back as that answer.

ghost use Rattle.std.specs.Prelude.{◌<◌, ◌^◌, ◌≡◌, ◌≢◌, IfOk, IsTrue, None};
ghost use Rattle.serde_json.specs.Find.{get};
ghost use Rattle.serde_json.specs.View.{view};
ghost use Rattle.plan_check.specs.Answer.{IsBoundStated, ListsLocations, StatesAnswer, StatesFound, StatesNames, StatesPlanned};
ghost use Rattle.plan_file.specs.Tables.{HasSizes};
ghost use Rattle.plan_check.specs.Stated.{StatesWhole};
ghost use Rattle.qap_cost.specs.Placement.{Completes};

use crate::error::AnswerError;
use crate::lookup::{value_at, whole_in};
use crate::names::{check_arrangement, check_names, check_unnamed};
use crate::number::{stated_bound, stated_cost};
use crate::permutation::permutation_of;
use crate::stated::{json_of, locations_of};
use plan_file::NamedProblem;
use qap_cost::Perm;
use serde_json::Value;
use std::alloc::Global;

/// No stated number is larger.
const MOST: u128 = 1_000_000_000_000_000_000_000_000_000_000_000_000;

/// Whether a text is the JSON of this permutation, this cost and this bound, both in the plan's units, with the plan's
/// names. A program that writes an answer asks it about its own text.
pub fn states_planned(
    alloc: Global,
    problem: &NamedProblem,
    text: &[u8],
    permutation: &Perm,
    cost: i128,
    bound: i128,
) -> Result<bool, AnswerError>
    requires sizes { HasSizes problem.now }
    requires kept { Completes problem.now.fixed permutation.now }
    ensures { IfOk result (λ states. IsTrue states → StatesPlanned problem.now text.now permutation.now cost bound) }
{
    let value = json_of(alloc, text)?;
    check_names(problem, &value)?;
    check_arrangement(alloc, problem, permutation, &value)?;
    let scale = problem.flow_scale + problem.distance_scale;
    let states = states_answer(alloc, &value, permutation, cost, bound, scale)?;
    Ok(states)
}

/// Likewise for an answer to an instance, which has no names.
pub fn states_found(
    alloc: Global,
    text: &[u8],
    permutation: &Perm,
    cost: i128,
    bound: i128,
) -> Result<bool, AnswerError>
    ensures { IfOk result (λ states. IsTrue states → StatesFound text.now permutation.now cost bound) }
{
    let value = json_of(alloc, text)?;
    check_unnamed(&value)?;
    let states = states_answer(alloc, &value, permutation, cost, bound, 0)?;
    Ok(states)
}

/// Whether a text is the JSON of the names of a plan's departments and places, and of its scales.
pub fn states_names(alloc: Global, problem: &NamedProblem, text: &[u8]) -> Result<bool, AnswerError>
    ensures { IfOk result (λ states. IsTrue states → StatesNames problem.now text.now) }
{
    let value = json_of(alloc, text)?;
    check_names(problem, &value)?;
    let states = has_key(&value, "departments")
        && has_key(&value, "places")
        && states_whole(&value, "flow_scale", problem.flow_scale)
        && states_whole(&value, "distance_scale", problem.distance_scale);
    Ok(states)
}

/// Whether a value has a key.
fn has_key(value: &Value, key: &'static str) -> bool
    ensures { IsTrue result → get key.now (view value.now) ≢ None }
{
    value_at(value, key).is_some()
}

/// Whether a value has this whole number at a key.
fn states_whole(value: &Value, key: &'static str, number: usize) -> bool
    ensures { IsTrue result → StatesWhole (view value.now) key.now number }
{
    let Some(found) = value_at(value, key) else {
        return false;
    };
    match whole_in(found) {
        Some(stated) => stated == number as u64,
        None => false,
    }
}

/// Whether a value lists this permutation, and states this cost and this bound.
fn states_answer(
    alloc: Global,
    value: &Value,
    permutation: &Perm,
    cost: i128,
    bound: i128,
    scale: usize,
) -> Result<bool, AnswerError>
    requires { scale < 2 ^ 32 }
    ensures { IfOk result (λ states. IsTrue states → StatesAnswer scale (view value.now) permutation.now cost bound) }
{
    if cost.unsigned_abs() > MOST {
        return Ok(false);
    }
    if !lists(alloc, value, permutation)? {
        return Ok(false);
    }
    stated_cost(alloc, value, cost, scale)?;
    let states = states_bound(alloc, value, cost, bound, scale)?;
    Ok(states)
}

/// Whether a value lists this permutation.
fn lists(alloc: Global, value: &Value, permutation: &Perm) -> Result<bool, AnswerError>
    ensures { IfOk result (λ lists. IsTrue lists → ListsLocations (view value.now) permutation.now) }
{
    let size = permutation.len();
    let numbers = locations_of(alloc, value, size)?;
    let listed = permutation_of(alloc, &numbers, size)?;
    if *listed.locations() == *permutation.locations() {
        return Ok(true);
    }
    Ok(false)
}

/// Whether a value states this bound, beside this cost.
fn states_bound(
    alloc: Global,
    value: &Value,
    cost: i128,
    bound: i128,
    scale: usize,
) -> Result<bool, AnswerError>
    requires { scale < 2 ^ 32 }
    ensures { IfOk result (λ states. IsTrue states → IsBoundStated scale (view value.now) cost bound) }
{
    let stated = stated_bound(alloc, value, cost, scale)?;
    if stated == bound {
        return Ok(true);
    }
    Ok(false)
}
