//! The decimal mark of a table.

ghost use Rattle.std.specs.Prelude.{◌≡◌, ◌↔◌, ◌<◌, ◌≤◌, ◌-◌, ◌^◌, ℕ, [], length, map, slice_index_or, IfOk, IsTrue, MatchOption};
ghost use Rattle.csv.specs.Records.{fields_of};
ghost use Rattle.plan_table.specs.Marking.{AreEach, IsMark, IsUnmarked, IsWritten};
ghost use Rattle.plan_table.specs.Table.{word_at};

use crate::control::shown;
use crate::error::TableError;
use crate::numeral::{DecimalMark, is_unmarked, is_written};
use crate::rows::{place_of, word_in};
use csv::StringRecord;
use std::alloc::{AllocError, Global};

/// The decimal mark of a table's numbers, which are in the fields from `first` to before `end`: the given one, or
/// otherwise the one with which all of them can be read. It is an error if both can read them with different results.
pub fn mark_of_table(
    alloc: Global,
    text: &[u8],
    given: Option<DecimalMark>,
    rows: &[StringRecord],
    first: usize,
    end: usize,
) -> Result<DecimalMark, TableError>
    ensures { IfOk result (IsMark given (map fields_of rows.now) first end) }
{
    if let Some(mark) = given {
        return Ok(mark);
    }
    if !are_written(alloc, DecimalMark::Comma, rows, first, end)? {
        return Ok(DecimalMark::Point);
    }
    if !are_written(alloc, DecimalMark::Point, rows, first, end)? {
        return Ok(DecimalMark::Comma);
    }
    match first_marked(rows, first, end) {
        None => Ok(DecimalMark::Point),
        Some((i, k)) => Err(two_readings(alloc, text, &rows[i], k)),
    }
}

/// Whether all fields there are numbers by a mark, or say nothing.
fn are_written(
    alloc: Global,
    mark: DecimalMark,
    rows: &[StringRecord],
    first: usize,
    end: usize,
) -> Result<bool, AllocError>
    ensures { IfOk result (λ all. IsTrue all ↔ AreEach (IsWritten mark) (map fields_of rows.now) first end) }
{
    for row in rows {
        let written = is_row_written(alloc, mark, row, first, end)?;
        if !written {
            return Ok(false);
        }
    }
    Ok(true)
}

/// Whether those of a row are.
fn is_row_written(
    alloc: Global,
    mark: DecimalMark,
    row: &StringRecord,
    first: usize,
    end: usize,
) -> Result<bool, AllocError>
    ensures { IfOk result (λ all. IsTrue all ↔ ((k : ℕ) → first ≤ k → k < end → IsWritten mark (word_at (fields_of row.now) k))) }
{
    for k in first..end {
        let written = is_written(alloc, mark, word_in(row, k))?;
        if !written {
            return Ok(false);
        }
    }
    Ok(true)
}

/// The number of the first record that has a point or a comma in a field there, and the number of that field.
fn first_marked(rows: &[StringRecord], first: usize, end: usize) -> Option<(usize, usize)>
    ensures { MatchOption result (AreEach IsUnmarked (map fields_of rows.now) first end) (λ at. (at.0 < length rows.now) × (at.1 < end)) }
{
    for (i, row) in rows.iter().enumerate() {
        if let Some(k) = first_marked_in(row, first, end) {
            return Some((i, k));
        }
    }
    None
}

/// The number of the first field there that has one.
fn first_marked_in(row: &StringRecord, first: usize, end: usize) -> Option<usize>
    ensures { MatchOption result ((k : ℕ) → first ≤ k → k < end → IsUnmarked (word_at (fields_of row.now) k)) (λ k. k < end) }
{
    for k in first..end {
        if !is_unmarked(word_in(row, k).as_bytes()) {
            return Some(k);
        }
    }
    None
}

/// The error of a table that can be read by both marks: it names a number that would be another one.
fn two_readings(alloc: Global, text: &[u8], row: &StringRecord, k: usize) -> TableError
    requires { k < 2 ^ 64 - 1 }
{
    match shown(alloc, word_in(row, k)) {
        Ok(word) => TableError::TwoReadings {
            place: place_of(text, row, k),
            word,
        },
        Err(_) => TableError::OutOfMemory,
    }
}
