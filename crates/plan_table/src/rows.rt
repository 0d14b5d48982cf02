//! The rows of a table.

ghost use Rattle.std.specs.Prelude.{◌≡◌, ◌↔◌, ◌/◌, ◌<◌, ◌≤◌, ◌+◌, ◌-◌, ◌^◌, ◌++◌, ℕ, [], List, length, map, slice_index_or, IfOk, IfSome, IsTrue, OnOk, Some};
ghost use Rattle.std.specs.String.{string_bytes};
ghost use Rattle.csv.specs.Records.{fields_of, field_at};
ghost use Rattle.plan_table.specs.Names.{max_names};
ghost use Rattle.plan_table.specs.Numerals.{cell_in};
ghost use Rattle.plan_table.specs.Table.{AreRowsOf, IsRow, word_at};
ghost use Rattle.plan_table.specs.declared.decimal.Decimal.{Decimal};

use crate::control::shown;
use crate::decimal::{Decimal, NumberFault};
use crate::error::{Place, TableError};
use crate::names::has_name;
use crate::numeral::{Reading, is_nothing, read_number};
use crate::records::line_of;
use csv::StringRecord;
use std::alloc::{AllocError, Global};

/// The numbers of the rows with these names, by rows, this many in each. The rows may be in any order.
pub fn read_rows(
    alloc: Global,
    text: &[u8],
    rows: &[StringRecord],
    names: &[String],
    count: usize,
    reading: Reading,
) -> Result<Vec<Decimal>, TableError>
    requires names { length names.now ≤ max_names }
    requires count { count ≤ max_names }
    ensures { IfOk result (λ v. AreRowsOf reading count (map string_bytes names.now) (map fields_of rows.now) v.items) }
{
    if rows.len() != names.len() {
        return Err(fault_of_rows(alloc, text, rows, names));
    }
    let mut decimals = Vec::new(alloc);
    for i in 0..names.len() {
        let Some(k) = row_of(rows, names[i].as_str()) else {
            return Err(fault_of_rows(alloc, text, rows, names));
        };
        read_row(alloc, text, &rows[k], i, count, reading, &mut decimals)?;
    }
    Ok(decimals)
}

/// The number of the first record that begins with a name.
pub fn row_of(rows: &[StringRecord], name: &str) -> Option<usize>
    ensures { IfSome result (λ k. (k < length rows.now) × (field_at (slice_index_or (map fields_of rows.now) k []) 0 ≡ Some name.now)) }
{
    for (k, row) in rows.iter().enumerate() {
        if has_field(row, 0, name) {
            return Some(k);
        }
    }
    None
}

/// What is wrong with rows, where they aren't those of the names: a row has no column, a row is repeated, or a column
/// has no row.
fn fault_of_rows(
    alloc: Global,
    text: &[u8],
    rows: &[StringRecord],
    names: &[String],
) -> TableError {
    match find_fault(alloc, text, rows, names) {
        Ok(fault) => fault,
        Err(_) => TableError::OutOfMemory,
    }
}

fn find_fault(
    alloc: Global,
    text: &[u8],
    rows: &[StringRecord],
    names: &[String],
) -> Result<TableError, AllocError> {
    for (k, row) in rows.iter().enumerate() {
        let word = row.get(0).unwrap_or("");
        if !has_name(names, word) {
            return Ok(TableError::NoColumn {
                place: place_of(text, row, 0),
                found: shown(alloc, word)?,
            });
        }
        if row_of(rows, word) != Some(k) {
            return Ok(TableError::NameTwice {
                place: place_of(text, row, 0),
                name: String::from_str(alloc, word)?,
            });
        }
    }
    for name in names {
        if row_of(rows, name.as_str()).is_none() {
            return Ok(TableError::MissingRow {
                name: name.clone()?,
            });
        }
    }
    Ok(TableError::Empty)
}

/// Reads a row of a table, the row of number `i`: its numbers are put after those that were read before.
fn read_row(
    alloc: Global,
    text: &[u8],
    row: &StringRecord,
    i: usize,
    count: usize,
    reading: Reading,
    decimals: &mut Vec<Decimal>,
) -> Result<(), TableError>
    requires { count ≤ max_names }
    ensures { OnOk result ((name : List ℕ) → field_at (fields_of row.now) 0 ≡ Some name →
        (numbers : List Decimal) × IsRow reading i count name (fields_of row.now) numbers × (decimals.new.items ≡ decimals.old.items ++ numbers)) }
{
    for column in 0..count {
        let decimal = read_cell(alloc, text, row, i, column, reading)?;
        decimals.push(decimal).map_err(|_| TableError::OutOfMemory)?;
    }
    check_end(alloc, text, row, count)?;
    Ok(())
}

/// Whether a field of a record is this word.
pub fn has_field(record: &StringRecord, field: usize, word: &str) -> bool
    ensures { IsTrue result ↔ (field_at (fields_of record.now) field ≡ Some word.now) }
{
    match record.get(field) {
        Some(found) => found == word,
        None => false,
    }
}

/// Checks that a record ends after its name and this many cells.
pub fn check_end(
    alloc: Global,
    text: &[u8],
    record: &StringRecord,
    count: usize,
) -> Result<(), TableError>
    requires { count < 2 ^ 64 - 2 }
    ensures { OnOk result (length (fields_of record.now) ≤ count + 1) }
{
    let Some(word) = record.get(count + 1) else {
        return Ok(());
    };
    Err(TableError::ExtraCell {
        place: place_of(text, record, count + 1),
        word: shown(alloc, word)?,
    })
}

/// The number in a cell of the row of number `i`.
pub fn read_cell(
    alloc: Global,
    text: &[u8],
    row: &StringRecord,
    i: usize,
    column: usize,
    reading: Reading,
) -> Result<Decimal, TableError>
    requires { column < max_names }
    ensures { IfOk result (λ d. cell_in reading i column (word_at (fields_of row.now) (column + 1)) ≡ Some d) }
{
    let word = word_in(row, column + 1);
    if reading.is_square && i == column && is_nothing(word.as_bytes()) {
        return Ok(Decimal {
            number: 0,
            places: 0,
        });
    }
    match read_number(alloc, reading, word)? {
        Ok(decimal) => Ok(decimal),
        Err(fault) => Err(cell_fault(alloc, text, row, column + 1, fault)),
    }
}

/// A field of a record, or the empty word if the record has ended.
pub fn word_in(row: &StringRecord, field: usize) -> &str
    ensures { result.now ≡ word_at (fields_of row.now) field }
{
    match row.get(field) {
        Some(word) => word,
        None => "",
    }
}

/// What is wrong with a cell, which is in this field of a record.
fn cell_fault(
    alloc: Global,
    text: &[u8],
    row: &StringRecord,
    field: usize,
    fault: NumberFault,
) -> TableError
    requires { field < 2 ^ 64 - 1 }
{
    let place = place_of(text, row, field);
    if row.len() <= field {
        return TableError::MissingCell { place };
    }
    match shown(alloc, row.get(field).unwrap_or("")) {
        Ok(word) => match fault {
            NumberFault::NotANumber => TableError::NotANumber { place, word },
            NumberFault::TooLarge => TableError::TooLarge { place, word },
        },
        Err(_) => TableError::OutOfMemory,
    }
}

/// The error for a number out of range that is the `i`th of the rows' numbers.
pub fn too_large(
    alloc: Global,
    text: &[u8],
    rows: &[StringRecord],
    names: &[String],
    columns: usize,
    i: usize,
) -> TableError
    requires positive { 0 < columns }
    requires few { columns ≤ max_names }
    requires there { i / columns < length names.now }
{
    match row_of(rows, names[i / columns].as_str()) {
        Some(k) => too_large_in(alloc, text, &rows[k], i % columns + 1),
        None => fault_of_rows(alloc, text, rows, names),
    }
}

/// The error for a number out of range in this field of a record.
pub fn too_large_in(alloc: Global, text: &[u8], record: &StringRecord, field: usize) -> TableError
    requires { field < 2 ^ 64 - 1 }
{
    match shown(alloc, record.get(field).unwrap_or("")) {
        Ok(word) => TableError::TooLarge {
            place: place_of(text, record, field),
            word,
        },
        Err(_) => TableError::OutOfMemory,
    }
}

/// The place of a field of a record, which is given by its number from 0. It counts the lines from the start of the text, so it is called for
/// a refusal alone.
pub fn place_of(text: &[u8], record: &StringRecord, field: usize) -> Place
    requires { field < 2 ^ 64 - 1 }
{
    Place {
        line: line_of(text, record),
        field: field + 1,
    }
}
