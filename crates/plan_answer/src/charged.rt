//! The text of an answer to a plan with costs of places or forbidden places.

ghost use Rattle.std.specs.Prelude.{◌≡◌, ◌++◌, IfOk, codes, length};
ghost use Rattle.plan_file.specs.Tables.{HasSizes};
ghost use Rattle.plan_answer.specs.Charged.{IsChargedText, IsChargedVerdict, IsPartsLine, IsPartsText, scope_text};

use crate::answer::{dearest_text, places_text};
use crate::gap::apart_text;
use crate::lines::{kept_text, push_verdict};
use crate::listing::cost_text;
use plan_file::NamedProblem;
use qap_cost::Perm;
use std::alloc::{AllocError, Global};

/// The two parts of a cost.
#[derive(Clone, Copy, Debug, PartialEq, Eq)]
pub struct CostParts {
    /// The sum over all pairs of departments of flow times distance.
    pub flows: i128,
    /// What the departments cost at their places.
    pub places: i128,
}

/// The text of an answer as in `answer_text`, but the verdict says whether places are forbidden, and a line after it has
/// the two parts of the cost, if the plan has costs of places.
pub fn charged_text(
    alloc: Global,
    problem: &NamedProblem,
    permutation: &Perm,
    cost: i128,
    bound: i128,
    parts: Option<CostParts>,
    is_forbidding: bool,
) -> Result<Vec<u8>, AllocError>
    requires sizes { HasSizes problem.now }
    requires same_size { length permutation.now ≡ problem.now.instance.size }
    ensures { IfOk result (λ text. IsChargedText problem.now permutation.now cost bound parts is_forbidding text.items) }
{
    let mut text = places_text(alloc, problem, permutation)?;
    text.extend_from_slice(&charged_verdict(alloc, problem, cost, bound, is_forbidding)?)?;
    text.extend_from_slice(&parts_text(alloc, problem, parts)?)?;
    text.extend_from_slice(&dearest_text(alloc, problem, permutation)?)?;
    Ok(text)
}

/// The line that states what is proved about the cost, as in `verdict_text`, but it says whether places are forbidden.
pub fn charged_verdict(
    alloc: Global,
    problem: &NamedProblem,
    cost: i128,
    bound: i128,
    is_forbidding: bool,
) -> Result<Vec<u8>, AllocError>
    requires { HasSizes problem.now }
    ensures { IfOk result (λ text. IsChargedVerdict problem.now is_forbidding cost bound text.items) }
{
    let cost_words = cost_text(alloc, problem, cost)?;
    let bound_words = cost_text(alloc, problem, bound)?;
    let apart = apart_text(alloc, cost, bound)?;
    let scope = scope_text(problem.fixed.depth() > 0, is_forbidding);
    let mut text = Vec::new(alloc);
    push_verdict(
        &mut text,
        bound < cost,
        &cost_words,
        &bound_words,
        scope,
        &apart,
    )?;
    Ok(text)
}

/// The line with the two parts of the cost, if they are given.
pub fn parts_text(
    alloc: Global,
    problem: &NamedProblem,
    parts: Option<CostParts>,
) -> Result<Vec<u8>, AllocError>
    requires { HasSizes problem.now }
    ensures { IfOk result (λ text. IsPartsText problem.now parts text.items) }
{
    match parts {
        Some(parts) => parts_line(alloc, problem, parts),
        None => Ok(Vec::new(alloc)),
    }
}

/// The line with the two parts of the cost.
fn parts_line(
    alloc: Global,
    problem: &NamedProblem,
    parts: CostParts,
) -> Result<Vec<u8>, AllocError>
    requires { HasSizes problem.now }
    ensures { IfOk result (λ text. IsPartsLine problem.now parts text.items) }
{
    let flows = cost_text(alloc, problem, parts.flows)?;
    let places = cost_text(alloc, problem, parts.places)?;
    let text = line_of(alloc, &flows, &places)?;
    Ok(text)
}

/// The line with two costs that are spelled out.
fn line_of(alloc: Global, flows: &[u8], places: &[u8]) -> Result<Vec<u8>, AllocError>
    ensures { IfOk result (λ text. text.items ≡ codes "cost of flows " ++ flows.now ++ codes ", cost of places " ++ places.now ++ codes "\n") }
{
    let mut text = Vec::from_slice(alloc, b"cost of flows ")?;
    text.extend_from_slice(flows)?;
    text.extend_from_slice(b", cost of places ")?;
    text.extend_from_slice(places)?;
    text.extend_from_slice(b"\n")?;
    Ok(text)
}

/// The arrangements that the proof covers: those that respect what is fixed and what is forbidden.
fn scope_text(is_fixed: bool, is_forbidding: bool) -> &'static [u8]
    ensures { result.now ≡ scope_text is_fixed is_forbidding }
{
    if !is_forbidding {
        kept_text(is_fixed)
    } else if is_fixed {
        b" among arrangements that keep what is fixed and use no forbidden place"
    } else {
        b" among arrangements that use no forbidden place"
    }
}
