//! The lines of the costliest pairs.

ghost use Rattle.std.specs.Prelude.{◌≡◌, ◌++◌, [], IfOk, OnOk, map, slice_index_or, string_bytes};
ghost use Rattle.plan_table.specs.Spelling.{Spells};
ghost use Rattle.plan_file.specs.Tables.{HasSizes};
ghost use Rattle.plan_answer.specs.Answer.{cost_scale};
ghost use Rattle.plan_answer.specs.Listing.{ArePairLines, IsListing, heading, pair_line};

use crate::pairs::Pair;
use plan_file::NamedProblem;
use plan_table::decimal_text;
use std::alloc::{AllocError, Global};

/// A line for each pair, with its cost in the plan's own units, below a heading; an added facility has no flow, so that each is a department.
pub fn pairs_text(
    alloc: Global,
    problem: &NamedProblem,
    pairs: &[Pair],
) -> Result<Vec<u8>, AllocError>
    requires { HasSizes problem.now }
    ensures { IfOk result (λ text. IsListing (map string_bytes problem.now.departments.items) (cost_scale problem.now) pairs.now text.items) }
{
    let mut text = Vec::from_slice(alloc, heading(pairs))?;
    text.extend_from_slice(&pair_lines(alloc, problem, pairs)?)?;
    Ok(text)
}

/// The heading of the lines, if there are any.
fn heading(pairs: &[Pair]) -> &'static [u8]
    ensures { result.now ≡ heading pairs.now }
{
    if pairs.is_empty() {
        b""
    } else {
        b"dearest pairs:\n"
    }
}

/// A line for each pair.
fn pair_lines(alloc: Global, problem: &NamedProblem, pairs: &[Pair]) -> Result<Vec<u8>, AllocError>
    requires { HasSizes problem.now }
    ensures { IfOk result (λ text. ArePairLines (map string_bytes problem.now.departments.items) (cost_scale problem.now) pairs.now text.items) }
{
    let mut text = Vec::new(alloc);
    for pair in pairs {
        let from = department_name(problem, pair.from);
        let to = department_name(problem, pair.to);
        let cost = cost_text(alloc, problem, i128::from(pair.cost))?;
        push_pair(&mut text, from, to, &cost)?;
    }
    Ok(text)
}

/// Appends the line of a pair to the text.
fn push_pair(text: &mut Vec<u8>, from: &str, to: &str, cost: &[u8]) -> Result<(), AllocError>
    ensures { OnOk result (text.new.items ≡ text.old.items ++ pair_line from.now to.now cost.now) }
{
    text.extend_from_slice(from.as_bytes())?;
    text.extend_from_slice(b" to ")?;
    text.extend_from_slice(to.as_bytes())?;
    text.extend_from_slice(b": ")?;
    text.extend_from_slice(cost)?;
    text.extend_from_slice(b"\n")?;
    Ok(())
}

/// The name of a department; an added one has none.
fn department_name(problem: &NamedProblem, i: usize) -> &str
    ensures { result.now ≡ slice_index_or (map string_bytes problem.now.departments.items) i [] }
{
    match problem.departments.get(i) {
        Some(name) => name.as_str(),
        None => "",
    }
}

/// A cost in the plan's own units, as a decimal number, exactly.
pub fn cost_text(alloc: Global, problem: &NamedProblem, cost: i128) -> Result<Vec<u8>, AllocError>
    requires { HasSizes problem.now }
    ensures { IfOk result (λ text. Spells text.items cost (cost_scale problem.now)) }
{
    decimal_text(alloc, cost, problem.flow_scale + problem.distance_scale)
}
