//! The text of an answer whose bound is stated, not proved.

ghost use Rattle.std.specs.Prelude.{◌≡◌, ◌++◌, IfOk, OnOk, length};
ghost use Rattle.plan_file.specs.Tables.{HasSizes};
ghost use Rattle.plan_answer.specs.Stated.{IsCostLine, IsStatedLine, IsStatedText, between, stated_line, stated_range};

use crate::answer::{dearest_text, places_text};
use crate::lines::kept_text;
use crate::listing::cost_text;
use plan_file::NamedProblem;
use qap_cost::Perm;
use std::alloc::{AllocError, Global};

/// The text of an answer as in `answer_text`, but whose bound is reported as stated, since nothing proves it.
pub fn stated_text(
    alloc: Global,
    problem: &NamedProblem,
    permutation: &Perm,
    cost: i128,
    bound: i128,
) -> Result<Vec<u8>, AllocError>
    requires sizes { HasSizes problem.now }
    requires same_size { length permutation.now ≡ problem.now.instance.size }
    ensures { IfOk result (λ text. IsStatedText problem.now permutation.now cost bound text.items) }
{
    let mut text = places_text(alloc, problem, permutation)?;
    text.extend_from_slice(&stated_line(alloc, problem, cost, bound)?)?;
    text.extend_from_slice(&dearest_text(alloc, problem, permutation)?)?;
    Ok(text)
}

/// The line of the cost alone, in the plan's own units.
pub fn cost_line(alloc: Global, problem: &NamedProblem, cost: i128) -> Result<Vec<u8>, AllocError>
    requires { HasSizes problem.now }
    ensures { IfOk result (λ text. IsCostLine problem.now cost text.items) }
{
    let mut text = Vec::from_slice(alloc, b"cost ")?;
    text.extend_from_slice(&cost_text(alloc, problem, cost)?)?;
    text.extend_from_slice(b"\n")?;
    Ok(text)
}

/// The line that reports what is stated about the cost.
pub fn stated_line(
    alloc: Global,
    problem: &NamedProblem,
    cost: i128,
    bound: i128,
) -> Result<Vec<u8>, AllocError>
    requires { HasSizes problem.now }
    ensures { IfOk result (λ text. IsStatedLine problem.now cost bound text.items) }
{
    let cost_words = cost_text(alloc, problem, cost)?;
    let bound_words = cost_text(alloc, problem, bound)?;
    let kept = kept_text(problem.fixed.depth() > 0);
    let mut text = Vec::new(alloc);
    push_stated(&mut text, bound < cost, &cost_words, &bound_words, kept)?;
    Ok(text)
}

/// Appends what is stated about the cost to the text: that it is optimal, or the bounds of the least cost.
fn push_stated(
    text: &mut Vec<u8>,
    is_open: bool,
    cost: &[u8],
    bound: &[u8],
    kept: &[u8],
) -> Result<(), AllocError>
    ensures { OnOk result (text.new.items ≡ text.old.items ++ stated_line is_open cost.now bound.now kept.now) }
{
    text.extend_from_slice(b"cost ")?;
    text.extend_from_slice(cost)?;
    if is_open {
        push_range(text, cost, bound, kept)
    } else {
        text.extend_from_slice(b", stated as optimal")?;
        text.extend_from_slice(kept)?;
        text.extend_from_slice(b"\n")?;
        Ok(())
    }
}

/// Appends the part after the cost to the text, where it isn't stated to be least.
fn push_range(text: &mut Vec<u8>, cost: &[u8], bound: &[u8], kept: &[u8]) -> Result<(), AllocError>
    ensures { OnOk result (text.new.items ≡ text.old.items ++ stated_range cost.now bound.now kept.now) }
{
    text.extend_from_slice(b", stated within ")?;
    push_between(text, cost, bound)?;
    text.extend_from_slice(kept)?;
    text.extend_from_slice(b"\n")?;
    Ok(())
}

/// Appends two bounds to the text.
fn push_between(text: &mut Vec<u8>, cost: &[u8], bound: &[u8]) -> Result<(), AllocError>
    ensures { OnOk result (text.new.items ≡ text.old.items ++ between cost.now bound.now) }
{
    text.extend_from_slice(bound)?;
    text.extend_from_slice(b" to ")?;
    text.extend_from_slice(cost)?;
    Ok(())
}
