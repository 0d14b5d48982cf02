//! The rows of the costliest pairs.

ghost use Rattle.std.specs.Prelude.{◌≡◌, ℤ, [], IfOk, length, map, slice_index_or, string_bytes};
ghost use Rattle.plan_table.specs.Spelling.{Spells};
ghost use Rattle.plan_file.specs.Tables.{HasSizes};
ghost use Rattle.plan_picture.specs.Joining.{IsJoinedTo};
ghost use Rattle.plan_picture.specs.Arrows.{no_pair};
ghost use Rattle.plan_report.specs.Pairs.{ArePairRows, IsPairRow};

use plan_answer::{Pair, cost_text, dearest_pairs};
use plan_file::NamedProblem;
use plan_picture::{escaped, escaped_bytes, joined};
use qap_cost::Perm;
use std::alloc::{AllocError, Global};

/// How many of the costliest pairs a report lists.
const LISTED: usize = 10;

/// A row for each of the costliest pairs.
pub fn pair_rows(
    alloc: Global,
    problem: &NamedProblem,
    permutation: &Perm,
) -> Result<Vec<u8>, AllocError>
    requires sizes { HasSizes problem.now }
    requires same_size { length permutation.now ≡ problem.now.instance.size }
    ensures { IfOk result (λ text. ArePairRows problem.now permutation.now text.items) }
{
    let pairs = dearest_pairs(alloc, &problem.instance, permutation, LISTED)?;
    let rows = rows_of(alloc, problem, &pairs)?;
    Ok(rows)
}

/// A row for each pair.
fn rows_of(alloc: Global, problem: &NamedProblem, pairs: &[Pair]) -> Result<Vec<u8>, AllocError>
    requires { HasSizes problem.now }
    ensures { IfOk result (λ text. IsJoinedTo (λ k. IsPairRow problem.now (slice_index_or pairs.now k no_pair)) (length pairs.now) text.items) }
{
    let mut text = Vec::new(alloc);
    for pair in pairs {
        let row = pair_row(alloc, problem, pair)?;
        text.extend_from_slice(&row)?;
    }
    Ok(text)
}

/// The row of a pair.
fn pair_row(alloc: Global, problem: &NamedProblem, pair: &Pair) -> Result<Vec<u8>, AllocError>
    requires { HasSizes problem.now }
    ensures { IfOk result (λ row. IsPairRow problem.now pair.now row.items) }
{
    let from = escaped(alloc, department_name(problem, pair.from))?;
    let to = escaped(alloc, department_name(problem, pair.to))?;
    let cost = cost_text(alloc, problem, i128::from(pair.cost))?;
    let cost = escaped_bytes(alloc, &cost)?;
    joined(
        alloc,
        &[
            b"<tr><td>",
            &from,
            b"</td><td>",
            &to,
            b"</td><td class=\"number\">",
            &cost,
            b"</td></tr>\n",
        ],
    )
}

/// The name of a department; a dummy has none.
fn department_name(problem: &NamedProblem, i: usize) -> &str
    ensures { result.now ≡ slice_index_or (map string_bytes problem.now.departments.items) i [] }
{
    match problem.departments.get(i) {
        Some(name) => name.as_str(),
        None => "",
    }
}
