//! The text of an answer.

ghost use Rattle.std.specs.Prelude.{◌≡◌, IfOk, length};
ghost use Rattle.plan_file.specs.Tables.{HasSizes};
ghost use Rattle.plan_answer.specs.Answer.{IsAnswerText, IsPairsText, IsVerdictText, places_text};

use crate::gap::apart_text;
use crate::lines::{kept_text, push_departments, push_empty_places, push_verdict, rounded_text};
use crate::listing::{cost_text, pairs_text};
use crate::pairs::dearest_pairs;
use plan_file::NamedProblem;
use qap_cost::Perm;
use std::alloc::{AllocError, Global};

/// How many of the costliest pairs an answer lists.
const PAIRS: usize = 5;

/// The text of an answer: a line for each department with its place, one for each place that stays empty, one for the cost in the
/// plan's own units, with what is proved of it, and the pairs of departments that cost most.
pub fn answer_text(
    alloc: Global,
    problem: &NamedProblem,
    permutation: &Perm,
    cost: i128,
    bound: i128,
) -> Result<Vec<u8>, AllocError>
    requires sizes { HasSizes problem.now }
    requires same_size { length permutation.now ≡ problem.now.instance.size }
    ensures { IfOk result (λ text. IsAnswerText problem.now permutation.now cost bound text.items) }
{
    let mut text = places_text(alloc, problem, permutation)?;
    text.extend_from_slice(&verdict_text(alloc, problem, cost, bound)?)?;
    text.extend_from_slice(&dearest_text(alloc, problem, permutation)?)?;
    Ok(text)
}

/// The line that states what is proved about the cost, in the plan's own units: that it is optimal, or the bounds of
/// the least cost.
pub fn verdict_text(
    alloc: Global,
    problem: &NamedProblem,
    cost: i128,
    bound: i128,
) -> Result<Vec<u8>, AllocError>
    requires { HasSizes problem.now }
    ensures { IfOk result (λ text. IsVerdictText problem.now cost bound text.items) }
{
    let cost_words = cost_text(alloc, problem, cost)?;
    let bound_words = cost_text(alloc, problem, bound)?;
    let apart = apart_text(alloc, cost, bound)?;
    let kept = kept_text(problem.fixed.depth() > 0);
    let mut text = Vec::new(alloc);
    push_verdict(
        &mut text,
        bound < cost,
        &cost_words,
        &bound_words,
        kept,
        &apart,
    )?;
    Ok(text)
}

/// The line about the rounding of the tables' numbers, if they were rounded, and the lines of the costliest pairs.
pub(crate) fn dearest_text(
    alloc: Global,
    problem: &NamedProblem,
    permutation: &Perm,
) -> Result<Vec<u8>, AllocError>
    requires sizes { HasSizes problem.now }
    requires same_size { length permutation.now ≡ problem.now.instance.size }
    ensures { IfOk result (λ text. IsPairsText problem.now permutation.now text.items) }
{
    let pairs = dearest_pairs(alloc, &problem.instance, permutation, PAIRS)?;
    let mut text = rounded_text(alloc, problem.rounded)?;
    text.extend_from_slice(&pairs_text(alloc, problem, &pairs)?)?;
    Ok(text)
}

/// The lines that say where each department is, and which places stay empty.
pub(crate) fn places_text(
    alloc: Global,
    problem: &NamedProblem,
    permutation: &Perm,
) -> Result<Vec<u8>, AllocError>
    requires sizes { HasSizes problem.now }
    requires same_size { length permutation.now ≡ problem.now.instance.size }
    ensures { IfOk result (λ text. text.items ≡ places_text problem.now permutation.now) }
{
    let locations = permutation.locations();
    let mut text = Vec::new(alloc);
    push_departments(
        alloc,
        &mut text,
        &problem.departments,
        &problem.places,
        locations,
    )?;
    let taken = &locations[..problem.departments.len()];
    push_empty_places(alloc, &mut text, &problem.places, taken)?;
    Ok(text)
}
