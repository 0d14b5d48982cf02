//! The rows of departments and places.

ghost use Rattle.std.specs.Prelude.{◌≡◌, ◌==◌, ◌<◌, ◌≤◌, ◌++◌, [], ℕ, if◌then◌else◌, length, map, slice_index, IfOk, OnOk, string_bytes};
ghost use Rattle.std.specs.List.{list_any};
ghost use Rattle.plan_file.specs.Tables.{HasSizes};
ghost use Rattle.plan_report.specs.Rows.{empty_row, empty_rows, place_row, place_rows, places_table};

use plan_file::NamedProblem;
use plan_picture::{escaped, joined};
use qap_cost::Perm;
use std::alloc::{AllocError, Global};

/// A row for each department and its place, and one for each place that stays empty.
pub fn places_table(
    alloc: Global,
    problem: &NamedProblem,
    permutation: &Perm,
) -> Result<Vec<u8>, AllocError>
    requires sizes { HasSizes problem.now }
    requires same_size { length permutation.now ≡ problem.now.instance.size }
    ensures { IfOk result (λ text. text.items ≡ places_table problem.now permutation.now) }
{
    let locations = permutation.locations();
    let mut text = Vec::new(alloc);
    push_departments(
        alloc,
        &mut text,
        &problem.departments,
        &problem.places,
        locations,
    )?;
    let taken = &locations[..problem.departments.len()];
    push_empty_places(alloc, &mut text, &problem.places, taken)?;
    Ok(text)
}

/// Appends a row for each department and its place to the text.
fn push_departments(
    alloc: Global,
    text: &mut Vec<u8>,
    departments: &[String],
    places: &[String],
    locations: &[u16],
) -> Result<(), AllocError>
    requires there { (i : ℕ) → i < length locations.now → slice_index locations.now i < length places.now }
    requires room { length departments.now ≤ length locations.now }
    ensures { OnOk result (text.new.items ≡ text.old.items ++ place_rows (map string_bytes departments.now) (map string_bytes places.now) locations.now) }
{
    for (i, department) in departments.iter().enumerate() {
        let place = &places[usize::from(locations[i])];
        let row = place_row(alloc, department.as_str(), place.as_str())?;
        text.extend_from_slice(&row)?;
    }
    Ok(())
}

/// Appends a row for each place that is not taken to the text.
fn push_empty_places(
    alloc: Global,
    text: &mut Vec<u8>,
    places: &[String],
    taken: &[u16],
) -> Result<(), AllocError>
    ensures { OnOk result (text.new.items ≡ text.old.items ++ empty_rows 0 (map string_bytes places.now) taken.now) }
{
    for (k, place) in places.iter().enumerate() {
        push_if_empty(alloc, text, place.as_str(), is_taken(taken, k))?;
    }
    Ok(())
}

/// Appends the row of a place to the text, unless it is taken.
fn push_if_empty(
    alloc: Global,
    text: &mut Vec<u8>,
    place: &str,
    taken: bool,
) -> Result<(), AllocError>
    ensures { OnOk result (text.new.items ≡ text.old.items ++ (if taken then [] else empty_row place.now)) }
{
    if !taken {
        let row = empty_row(alloc, place)?;
        text.extend_from_slice(&row)?;
    }
    Ok(())
}

/// Whether a number is among those taken.
fn is_taken(taken: &[u16], k: usize) -> bool
    ensures { result ≡ list_any (λ l. k == l) taken.now }
{
    taken.iter().any(|other| k == usize::from(*other))
}

/// The row of a department and its place.
fn place_row(alloc: Global, department: &str, place: &str) -> Result<Vec<u8>, AllocError>
    ensures { IfOk result (λ row. row.items ≡ place_row department.now place.now) }
{
    let department = escaped(alloc, department)?;
    let place = escaped(alloc, place)?;
    joined(
        alloc,
        &[
            b"<tr><td>",
            &department,
            b"</td><td>",
            &place,
            b"</td></tr>\n",
        ],
    )
}

/// The row of a place that stays empty.
fn empty_row(alloc: Global, place: &str) -> Result<Vec<u8>, AllocError>
    ensures { IfOk result (λ row. row.items ≡ empty_row place.now) }
{
    let place = escaped(alloc, place)?;
    joined(
        alloc,
        &[
            b"<tr class=\"empty\"><td>stays empty</td><td>",
            &place,
            b"</td></tr>\n",
        ],
    )
}
