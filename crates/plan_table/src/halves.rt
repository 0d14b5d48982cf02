//! Tables in which one half may be left empty.

ghost use Rattle.std.specs.Prelude.{◌≡◌, ◌*◌, ◌+◌, ◌<◌, ◌≤◌, ℕ, length, map, pos, slice_index_or, unsigned_abs, IfOk, MatchOption, None, OnOk, Some};
ghost use Rattle.std.specs.String.{string_bytes};
ghost use Rattle.csv.specs.Records.{field_at, fields_of};
ghost use Rattle.plan_table.specs.Halves.{AreCompleted, AreMirrored, IsCompleted, IsFilledIn, either as either_of, mirror_of as mirror_place};
ghost use Rattle.plan_table.specs.Names.{max_names};
ghost use Rattle.plan_table.specs.Trips.{flow_at, name_at};

use crate::departments::find_name;
use crate::error::TableError;
use crate::numeral::is_nothing;
use crate::rows::{row_of, word_in};
use csv::StringRecord;
use std::alloc::{AllocError, Global};

/// The rows of a square table with these names, in which each empty cell takes the word of the reverse direction.
pub fn completed(
    alloc: Global,
    rows: &[StringRecord],
    names: &[String],
) -> Result<Vec<StringRecord>, AllocError>
    requires { length names.now ≤ max_names }
    ensures { IfOk result (λ v. AreCompleted (map string_bytes names.now) (map fields_of rows.now) (map fields_of v.items)) }
{
    let mut filled = Vec::new(alloc);
    for row in rows {
        filled.push(completed_row(rows, names, row)?)?;
    }
    Ok(filled)
}

/// One of them.
fn completed_row(
    rows: &[StringRecord],
    names: &[String],
    row: &StringRecord,
) -> Result<StringRecord, AllocError>
    requires { length names.now ≤ max_names }
    ensures { IfOk result (λ filled. IsCompleted (map string_bytes names.now) (map fields_of rows.now) (fields_of row.now) (fields_of filled)) }
{
    let mut filled = row.clone()?;
    let Some(name) = row.get(0) else {
        return Ok(filled);
    };
    let Some(from) = find_name(names, name) else {
        return Ok(filled);
    };
    filled.clear();
    for field in 0..row.len().max(names.len() + 1) {
        filled.push_field(word_of(rows, names, row, from, field))?;
    }
    Ok(filled)
}

/// The word of a field of a row, whose name is the one of this number; if it is empty, that of the reverse direction.
fn word_of<'a>(
    rows: &'a [StringRecord],
    names: &[String],
    row: &'a StringRecord,
    from: usize,
    field: usize,
) -> &'a str
    requires few { from < max_names }
    requires named { field_at (fields_of row.now) 0 ≡ Some (name_at (map string_bytes names.now) from) }
    ensures { IsFilledIn (map string_bytes names.now) (map fields_of rows.now) (fields_of row.now) field result.now }
{
    let own = word_in(row, field);
    if field == 0 || field > names.len() || !is_nothing(own.as_bytes()) {
        return own;
    }
    match row_of(rows, names[field - 1].as_str()) {
        Some(k) => word_in(&rows[k], from + 1),
        None => own,
    }
}

/// Checks that from each to each goes as much as back.
pub fn check_mirrored(names: &[String], entries: &[i64]) -> Result<(), TableError>
    requires few { length names.now ≤ max_names }
    requires square { length entries.now ≡ length names.now * length names.now }
    ensures { OnOk result (AreMirrored (length names.now) entries.now) }
{
    let n = names.len();
    for i in 0..n {
        if let Some(j) = other_way(entries, n, i) {
            return Err(TableError::NotMirrored {
                from: names[i].clone()?,
                to: names[j].clone()?,
            });
        }
    }
    Ok(())
}

/// The first number to which from number `i` goes another amount than back.
fn other_way(entries: &[i64], n: usize, i: usize) -> Option<usize>
    requires few { n ≤ max_names }
    requires inside { i < n }
    requires square { length entries.now ≡ n * n }
    ensures { MatchOption result ((j : ℕ) → j < n → flow_at n entries.now i j ≡ flow_at n entries.now j i) (λ j. j < n) }
{
    for j in 0..n {
        if entry_at(entries, n, i, j) != entry_at(entries, n, j, i) {
            return Some(j);
        }
    }
    None
}

/// An entry of a matrix by rows.
fn entry_at(entries: &[i64], n: usize, i: usize, j: usize) -> i64
    requires few { n ≤ max_names }
    requires row { i < n }
    requires column { j < n }
    requires square { length entries.now ≡ n * n }
    ensures { result ≡ flow_at n entries.now i j }
{
    entries[i * n + j]
}

/// The cells of a matrix, in which each empty one takes the content of the reverse direction.
pub fn mirrored(
    alloc: Global,
    n: usize,
    cells: &[Option<i64>],
) -> Result<Vec<Option<i64>>, AllocError>
    requires few { n ≤ max_names }
    requires square { length cells.now ≡ n * n }
    ensures many { IfOk result (λ v. length v.items ≡ n * n) }
    ensures each { IfOk result (λ v. (c : ℕ) → c < n * n → slice_index_or v.items c None ≡ either_of (slice_index_or cells.now c None) (slice_index_or cells.now (mirror_place n c) None)) }
{
    let mut all = Vec::new(alloc);
    for cell in 0..n * n {
        all.push(either(cells[cell], cells[mirror_of(n, cell)]))?;
    }
    Ok(all)
}

/// The cell of the same two the other way round.
fn mirror_of(n: usize, cell: usize) -> usize
    requires few { n ≤ max_names }
    requires inside { cell < n * n }
    ensures place { result ≡ mirror_place n cell }
    ensures inside { result < n * n }
{
    cell % n * n + cell / n
}

/// The first value, or if there is none the second.
fn either(own: Option<i64>, other: Option<i64>) -> Option<i64>
    ensures { result ≡ either_of own other }
{
    match own {
        Some(amount) => Some(amount),
        None => other,
    }
}
