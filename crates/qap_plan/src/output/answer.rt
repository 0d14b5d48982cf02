//! The text of an answer.

ghost use Rattle.std.specs.Prelude.{IfOk, OnOk, string_bytes, ◌++◌, ◌≡◌};
ghost use Rattle.qap_plan.specs.Answer.{answer_text, cost_line, place_line, place_lines, stated_line, stated_text, verdict_line};

use qap_cost::Perm;
use std::alloc::{AllocError, Global};

/// A line for each facility, with its location, and one for the cost: that it is optimal, or the bounds of the least
/// cost.
pub fn answer_text(
    alloc: Global,
    permutation: &Perm,
    cost: i128,
    bound: i128,
) -> Result<Vec<u8>, AllocError>
    ensures { IfOk result (λ text. text.items ≡ answer_text permutation.now cost bound) }
{
    let mut text = Vec::new(alloc);
    push_places(alloc, &mut text, permutation.locations())?;
    let line = verdict_line(alloc, cost, bound)?;
    text.extend_from_slice(line.as_bytes())?;
    Ok(text)
}

/// Likewise, but the bound is reported as stated, since nothing proves it.
pub fn stated_text(
    alloc: Global,
    permutation: &Perm,
    cost: i128,
    bound: i128,
) -> Result<Vec<u8>, AllocError>
    ensures { IfOk result (λ text. text.items ≡ stated_text permutation.now cost bound) }
{
    let mut text = Vec::new(alloc);
    push_places(alloc, &mut text, permutation.locations())?;
    let line = stated_line(alloc, cost, bound)?;
    text.extend_from_slice(line.as_bytes())?;
    Ok(text)
}

/// The line of the cost alone.
pub fn cost_line(alloc: Global, cost: i128) -> Result<String, AllocError>
    ensures { IfOk result (λ line. string_bytes line ≡ cost_line cost) }
{
    format!(in alloc; "cost {cost}\n")
}

/// Appends a line for each facility to the text.
fn push_places(alloc: Global, text: &mut Vec<u8>, locations: &[u16]) -> Result<(), AllocError>
    ensures { OnOk result (text.new.items ≡ text.old.items ++ place_lines 0 locations.now) }
{
    for (i, &location) in locations.iter().enumerate() {
        let line = place_line(alloc, i + 1, usize::from(location) + 1)?;
        text.extend_from_slice(line.as_bytes())?;
    }
    Ok(())
}

/// The line of a facility and its location, both counted from 1.
fn place_line(alloc: Global, facility: usize, location: usize) -> Result<String, AllocError>
    ensures { IfOk result (λ line. string_bytes line ≡ place_line facility location) }
{
    format!(in alloc; "facility {facility} at location {location}\n")
}

/// What is proved about the cost.
pub fn verdict_line(alloc: Global, cost: i128, bound: i128) -> Result<String, AllocError>
    ensures { IfOk result (λ line. string_bytes line ≡ verdict_line cost bound) }
{
    if bound < cost {
        format!(in alloc; "cost {cost}, within {bound} to {cost}, proved\n")
    } else {
        format!(in alloc; "cost {cost}, optimal, proved\n")
    }
}

/// What is stated of the cost.
fn stated_line(alloc: Global, cost: i128, bound: i128) -> Result<String, AllocError>
    ensures { IfOk result (λ line. string_bytes line ≡ stated_line cost bound) }
{
    if bound < cost {
        format!(in alloc; "cost {cost}, stated within {bound} to {cost}\n")
    } else {
        format!(in alloc; "cost {cost}, stated as optimal\n")
    }
}
