//! The lines of an answer.

ghost use Rattle.std.specs.Prelude.{◌≡◌, ◌==◌, ◌<◌, ◌≤◌, ◌++◌, [], ℕ, if◌then◌else◌, length, map, slice_index, IfOk, OnOk, Some, string_bytes};
ghost use Rattle.std.specs.List.{list_any};
ghost use Rattle.plan_answer.specs.Lines.{empty_line, empty_lines, kept_text, open_verdict, rounded_text, stands_line, stands_lines, verdict_line};

use std::alloc::{AllocError, Global};

/// Appends a line for each department and its place to the text.
pub fn push_departments(
    alloc: Global,
    text: &mut Vec<u8>,
    departments: &[String],
    places: &[String],
    locations: &[u16],
) -> Result<(), AllocError>
    requires there { (i : ℕ) → i < length locations.now → slice_index locations.now i < length places.now }
    requires room { length departments.now ≤ length locations.now }
    ensures { OnOk result (text.new.items ≡ text.old.items ++ stands_lines (map string_bytes departments.now) (map string_bytes places.now) locations.now) }
{
    for (i, department) in departments.iter().enumerate() {
        let place = &places[usize::from(locations[i])];
        let line = stands_line(alloc, department.as_str(), place.as_str())?;
        text.extend_from_slice(line.as_bytes())?;
    }
    Ok(())
}

/// Appends a line for each place that is not taken.
pub fn push_empty_places(
    alloc: Global,
    text: &mut Vec<u8>,
    places: &[String],
    taken: &[u16],
) -> Result<(), AllocError>
    ensures { OnOk result (text.new.items ≡ text.old.items ++ empty_lines 0 (map string_bytes places.now) taken.now) }
{
    for (k, place) in places.iter().enumerate() {
        push_if_empty(alloc, text, place.as_str(), is_taken(taken, k))?;
    }
    Ok(())
}

/// Appends the line of a place to the text, unless it is taken.
fn push_if_empty(
    alloc: Global,
    text: &mut Vec<u8>,
    place: &str,
    taken: bool,
) -> Result<(), AllocError>
    ensures { OnOk result (text.new.items ≡ text.old.items ++ (if taken then [] else empty_line place.now)) }
{
    if !taken {
        let line = empty_line(alloc, place)?;
        text.extend_from_slice(line.as_bytes())?;
    }
    Ok(())
}

/// Whether a number is among those taken.
fn is_taken(taken: &[u16], k: usize) -> bool
    ensures { result ≡ list_any (λ l. k == l) taken.now }
{
    taken.iter().any(|other| k == usize::from(*other))
}

/// The line of a department and its place.
fn stands_line(alloc: Global, department: &str, place: &str) -> Result<String, AllocError>
    ensures { IfOk result (λ line. string_bytes line ≡ stands_line department.now place.now) }
{
    format!(in alloc; "{department} at {place}\n")
}

/// The line of a place that stays empty.
fn empty_line(alloc: Global, place: &str) -> Result<String, AllocError>
    ensures { IfOk result (λ line. string_bytes line ≡ empty_line place.now) }
{
    format!(in alloc; "{place} stays empty\n")
}

/// The line with the number of decimals to which the tables' numbers were rounded, if they were.
pub fn rounded_text(alloc: Global, rounded: Option<usize>) -> Result<Vec<u8>, AllocError>
    ensures { IfOk result (λ text. text.items ≡ rounded_text rounded) }
{
    match rounded {
        Some(places) => Ok(rounded_line(alloc, places)?.into_bytes()),
        None => Ok(Vec::new(alloc)),
    }
}

fn rounded_line(alloc: Global, places: usize) -> Result<String, AllocError>
    ensures { IfOk result (λ line. string_bytes line ≡ rounded_text (Some places)) }
{
    format!(in alloc; "numbers rounded, decimals kept: {places}\n")
}

/// The arrangements that the proof covers: if something is fixed, those that respect it.
pub fn kept_text(is_fixed: bool) -> &'static [u8]
    ensures { result.now ≡ kept_text is_fixed }
{
    if is_fixed {
        b" among arrangements that keep what is fixed"
    } else {
        b""
    }
}

/// Appends what is proved about the cost: that it is optimal, or otherwise the bounds of the least cost.
pub fn push_verdict(
    text: &mut Vec<u8>,
    is_open: bool,
    cost: &[u8],
    bound: &[u8],
    kept: &[u8],
    apart: &[u8],
) -> Result<(), AllocError>
    ensures { OnOk result (text.new.items ≡ text.old.items ++ verdict_line is_open cost.now bound.now kept.now apart.now) }
{
    text.extend_from_slice(b"cost ")?;
    text.extend_from_slice(cost)?;
    if is_open {
        push_open(text, cost, bound, kept, apart)
    } else {
        text.extend_from_slice(b", optimal")?;
        text.extend_from_slice(kept)?;
        text.extend_from_slice(b", proved\n")?;
        Ok(())
    }
}

/// Appends the part of the verdict after the cost to the text, where the cost isn't shown to be least.
fn push_open(
    text: &mut Vec<u8>,
    cost: &[u8],
    bound: &[u8],
    kept: &[u8],
    apart: &[u8],
) -> Result<(), AllocError>
    ensures { OnOk result (text.new.items ≡ text.old.items ++ open_verdict cost.now bound.now kept.now apart.now) }
{
    text.extend_from_slice(b", within ")?;
    text.extend_from_slice(bound)?;
    text.extend_from_slice(b" to ")?;
    text.extend_from_slice(cost)?;
    text.extend_from_slice(kept)?;
    text.extend_from_slice(b", proved")?;
    text.extend_from_slice(apart)?;
    text.extend_from_slice(b"\n")?;
    Ok(())
}
