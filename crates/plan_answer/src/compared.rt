//! Compares today's arrangement with the best one.

ghost use Rattle.std.specs.Prelude.{◌≡◌, ◌==◌, ◌<◌, ◌≤◌, ◌*◌, ◌/◌, ◌++◌, [], ℕ, false, true, IfOk, MatchOption, OnOk, if◌then◌else◌, length, map, pos, slice_index, slice_index_or, string_bytes, unsigned_abs};
ghost use Rattle.qap_cost.specs.Limits.{max_value};
ghost use Rattle.plan_file.specs.Tables.{HasSizes};
ghost use Rattle.plan_answer.specs.Compared.{IsComparedText, IsCostsText, IsLessText, IsSavingText, count_line, is_saving, move_line, move_lines, moved_count, costs_of, open_text, proved_text, tenths_less};

use crate::lines::kept_text;
use crate::listing::cost_text;
use plan_file::NamedProblem;
use plan_table::decimal_text;
use qap_cost::{Perm, cost};
use std::alloc::{AllocError, Global};

/// What the arrangement of today and the best one cost, in the plan's own units, what is proved about the best by this
/// bound, and a line for each department that moves.
pub fn compared_text(
    alloc: Global,
    problem: &NamedProblem,
    today: &Perm,
    best: &Perm,
    bound: i128,
) -> Result<Vec<u8>, AllocError>
    requires sizes { HasSizes problem.now }
    requires today { length today.now ≡ problem.now.instance.size }
    requires best { length best.now ≡ problem.now.instance.size }
    ensures { IfOk result (λ text. IsComparedText problem.now today.now best.now bound text.items) }
{
    let before = cost(&problem.instance, today);
    let after = cost(&problem.instance, best);
    let mut text = costs_text(alloc, problem, before, after, bound)?;
    let moved = moved_count(&problem.departments, today.locations(), best.locations());
    let line = count_line(alloc, moved, problem.departments.len())?;
    text.extend_from_slice(line.as_bytes())?;
    push_moves(
        &mut text,
        &problem.departments,
        &problem.places,
        today.locations(),
        best.locations(),
    )?;
    Ok(text)
}

/// What both cost, and what is proved about the best.
fn costs_text(
    alloc: Global,
    problem: &NamedProblem,
    before: i128,
    after: i128,
    bound: i128,
) -> Result<Vec<u8>, AllocError>
    requires sizes { HasSizes problem.now }
    requires before { unsigned_abs before ≤ max_value }
    requires after { unsigned_abs after ≤ max_value }
    ensures { IfOk result (λ text. IsCostsText problem.now before after bound text.items) }
{
    let today = cost_text(alloc, problem, before)?;
    let best = cost_text(alloc, problem, after)?;
    let bound_words = cost_text(alloc, problem, bound)?;
    let less = less_text(alloc, before, after)?;
    let kept = kept_text(problem.fixed.depth() > 0);
    let mut text = Vec::from_slice(alloc, b"today ")?;
    push_costs(&mut text, &today, &best, &less)?;
    push_proved(&mut text, bound < after, &best, &bound_words, kept)?;
    Ok(text)
}

/// Appends both costs to the text, and how much less the second is.
fn push_costs(text: &mut Vec<u8>, today: &[u8], best: &[u8], less: &[u8]) -> Result<(), AllocError>
    ensures { OnOk result (text.new.items ≡ text.old.items ++ costs_of today.now best.now less.now) }
{
    text.extend_from_slice(today)?;
    text.extend_from_slice(b", best ")?;
    text.extend_from_slice(best)?;
    text.extend_from_slice(less)?;
    Ok(())
}

/// Appends what is proved about the best to the text.
fn push_proved(
    text: &mut Vec<u8>,
    is_open: bool,
    best: &[u8],
    bound: &[u8],
    kept: &[u8],
) -> Result<(), AllocError>
    ensures { OnOk result (text.new.items ≡ text.old.items ++ proved_text is_open best.now bound.now kept.now) }
{
    if is_open {
        return push_open(text, best, bound, kept);
    }
    text.extend_from_slice(b", optimal")?;
    text.extend_from_slice(kept)?;
    text.extend_from_slice(b", proved")?;
    Ok(())
}

/// The same where the best isn't shown to be optimal.
fn push_open(text: &mut Vec<u8>, best: &[u8], bound: &[u8], kept: &[u8]) -> Result<(), AllocError>
    ensures { OnOk result (text.new.items ≡ text.old.items ++ open_text best.now bound.now kept.now) }
{
    text.extend_from_slice(b", within ")?;
    text.extend_from_slice(bound)?;
    text.extend_from_slice(b" to ")?;
    text.extend_from_slice(best)?;
    text.extend_from_slice(kept)?;
    text.extend_from_slice(b", proved")?;
    Ok(())
}

/// How much less the second cost is, in percent of the first, rounded down to tenths; nothing if the first isn't above
/// zero, or the second is larger.
fn less_text(alloc: Global, today: i128, best: i128) -> Result<Vec<u8>, AllocError>
    requires today { unsigned_abs today ≤ max_value }
    requires best { unsigned_abs best ≤ max_value }
    ensures { IfOk result (λ text. IsLessText today best text.items) }
{
    match saved_tenths(today, best) {
        Some(tenths) => saving_text(alloc, tenths),
        None => Ok(Vec::new(alloc)),
    }
}

/// What is said about this many tenths of a percent.
fn saving_text(alloc: Global, tenths: i128) -> Result<Vec<u8>, AllocError>
    ensures { IfOk result (λ text. IsSavingText tenths text.items) }
{
    let percent = decimal_text(alloc, tenths, 1)?;
    let mut text = Vec::new(alloc);
    text.extend_from_slice(b" (")?;
    text.extend_from_slice(&percent)?;
    text.extend_from_slice(b"% less)")?;
    Ok(text)
}

/// The first cost less the second, in tenths of a percent of the first, rounded down.
fn saved_tenths(today: i128, best: i128) -> Option<i128>
    requires today { unsigned_abs today ≤ max_value }
    requires best { unsigned_abs best ≤ max_value }
    ensures { MatchOption result (is_saving today best ≡ false) (λ tenths. (is_saving today best ≡ true) × (tenths ≡ pos (tenths_less today best))) }
{
    if today <= 0 || today < best {
        return None;
    }
    let less = (today - best).unsigned_abs();
    Some(tenths_of(less, today.unsigned_abs()) as i128)
}

/// A number in tenths of a percent of another one, rounded down.
fn tenths_of(less: u128, whole: u128) -> u128
    requires less { less ≤ 2 * max_value }
    requires whole { 0 < whole }
    ensures value { result ≡ less * 1000 / whole }
    ensures small { result ≤ less * 1000 }
{
    less * 1000 / whole
}

/// How many departments are at different places.
fn moved_count(departments: &[String], today: &[u16], best: &[u16]) -> usize
    requires today { length departments.now ≤ length today.now }
    requires best { length departments.now ≤ length best.now }
    ensures { result ≡ moved_count (map string_bytes departments.now) today.now best.now }
{
    let mut moved: usize = 0;
    for i in 0..departments.len() {
        moved += moves(today[i], best[i]);
    }
    moved
}

/// One for a department whose places differ.
fn moves(from: u16, to: u16) -> usize
    ensures count { result ≡ (if from == to then 0 else 1) }
    ensures small { result ≤ 1 }
{
    if from == to { 0 } else { 1 }
}

/// The line with the number of departments that move.
fn count_line(alloc: Global, moved: usize, all: usize) -> Result<String, AllocError>
    ensures { IfOk result (λ line. string_bytes line ≡ count_line moved all) }
{
    format!(in alloc; "; {moved} of {all} move\n")
}

/// Appends a line for each department that moves to the text.
fn push_moves(
    text: &mut Vec<u8>,
    departments: &[String],
    places: &[String],
    today: &[u16],
    best: &[u16],
) -> Result<(), AllocError>
    requires from { (i : ℕ) → i < length today.now → slice_index today.now i < length places.now }
    requires to { (i : ℕ) → i < length best.now → slice_index best.now i < length places.now }
    requires today { length departments.now ≤ length today.now }
    requires best { length departments.now ≤ length best.now }
    ensures { OnOk result (text.new.items ≡ text.old.items ++ move_lines (map string_bytes departments.now) (map string_bytes places.now) today.now best.now) }
{
    for (i, department) in departments.iter().enumerate() {
        let from = usize::from(today[i]);
        let to = usize::from(best[i]);
        push_move_between(text, department.as_str(), places, from, to)?;
    }
    Ok(())
}

/// Appends the line of a department that moves between these places to the text; nothing if they are the same.
fn push_move_between(
    text: &mut Vec<u8>,
    department: &str,
    places: &[String],
    from: usize,
    to: usize,
) -> Result<(), AllocError>
    requires from { from < length places.now }
    requires to { to < length places.now }
    ensures { OnOk result (text.new.items ≡ text.old.items ++ (if from == to then [] else move_line department.now (slice_index_or (map string_bytes places.now) from []) (slice_index_or (map string_bytes places.now) to []))) }
{
    if from == to {
        return Ok(());
    }
    push_move(text, department, places[from].as_str(), places[to].as_str())
}

/// Appends the line of a department that moves to the text.
fn push_move(text: &mut Vec<u8>, department: &str, from: &str, to: &str) -> Result<(), AllocError>
    ensures { OnOk result (text.new.items ≡ text.old.items ++ move_line department.now from.now to.now) }
{
    text.extend_from_slice(department.as_bytes())?;
    text.extend_from_slice(b": ")?;
    text.extend_from_slice(from.as_bytes())?;
    text.extend_from_slice(b" to ")?;
    text.extend_from_slice(to.as_bytes())?;
    text.extend_from_slice(b"\n")?;
    Ok(())
}
