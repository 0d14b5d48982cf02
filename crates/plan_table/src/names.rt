//! The names of a table's columns.

ghost use Rattle.std.specs.Prelude.{◌≡◌, ◌≢◌, ◌<◌, ◌≤◌, ◌^◌, ◌-◌, [], ◌∷◌, List, ℕ, length, map, IfOk, IsTrue, OnOk, ◌↔◌};
ghost use Rattle.std.specs.String.{string_bytes};
ghost use Rattle.csv.specs.Records.{fields_of};
ghost use Rattle.plan_table.specs.Control.{HasNoControl};
ghost use Rattle.plan_table.specs.Names.{AreNames, HasName, IsNew, max_names};

use crate::control::first_control;
use crate::error::TableError;
use crate::records::line_of;
use crate::rows::place_of;
use csv::StringRecord;
use std::alloc::Global;

/// The most names that a table may have.
pub const MAX_NAMES: usize = 256;

/// The names after the first field of a record.
pub fn read_names(
    alloc: Global,
    text: &[u8],
    head: &StringRecord,
) -> Result<Vec<String>, TableError>
    ensures { IfOk result (λ names. AreNames (map string_bytes names.items)
        × (corner : List ℕ) × (fields_of head.now ≡ corner ∷ map string_bytes names.items)) }
{
    if head.len() < 2 {
        return Err(TableError::NoName {
            line: line_of(text, head),
        });
    }
    if head.len() > MAX_NAMES + 1 {
        return Err(TableError::TooManyNames {
            line: line_of(text, head),
            count: head.len() - 1,
        });
    }
    let mut names = Vec::new(alloc);
    for column in 1..head.len() {
        let Some(name) = head.get(column) else {
            unreachable!()
        };
        let name = new_name(alloc, &names, name, text, head, column)?;
        names.push(name).map_err(|_| TableError::OutOfMemory)?;
    }
    Ok(names)
}

/// The names that the rows begin with.
pub fn read_first_names(
    alloc: Global,
    text: &[u8],
    rows: &[StringRecord],
) -> Result<Vec<String>, TableError>
    ensures { IfOk result (λ names. AreNames (map string_bytes names.items)) }
{
    if rows.is_empty() {
        return Err(TableError::NoPlace);
    }
    if rows.len() > MAX_NAMES {
        return Err(TableError::TooManyPlaces { count: rows.len() });
    }
    first_names(alloc, text, rows)
}

/// The same, of a table of departments.
pub fn read_row_names(
    alloc: Global,
    text: &[u8],
    rows: &[StringRecord],
) -> Result<Vec<String>, TableError>
    ensures names { IfOk result (λ names. AreNames (map string_bytes names.items)) }
    ensures many { IfOk result (λ names. length names.items ≡ length rows.now) }
{
    if rows.is_empty() {
        return Err(TableError::NoRow);
    }
    if rows.len() > MAX_NAMES {
        return Err(TableError::TooManyRows { count: rows.len() });
    }
    first_names(alloc, text, rows)
}

/// The names that 1 to 256 rows begin with.
fn first_names(alloc: Global, text: &[u8], rows: &[StringRecord]) -> Result<Vec<String>, TableError>
    requires positive { 0 < length rows.now }
    requires few { length rows.now ≤ max_names }
    ensures names { IfOk result (λ names. AreNames (map string_bytes names.items)) }
    ensures many { IfOk result (λ names. length names.items ≡ length rows.now) }
{
    let mut names = Vec::new(alloc);
    for row in rows {
        let name = new_name(alloc, &names, row.get(0).unwrap_or(""), text, row, 0)?;
        names.push(name).map_err(|_| TableError::OutOfMemory)?;
    }
    Ok(names)
}

/// A name that is not empty, has no control character and differs from the others; it is in this field of a row,
/// counted from 0.
fn new_name(
    alloc: Global,
    others: &[String],
    name: &str,
    text: &[u8],
    row: &StringRecord,
    field: usize,
) -> Result<String, TableError>
    requires { field < 2 ^ 64 - 1 }
    ensures { IfOk result (λ own. (string_bytes own ≡ name.now) × IsNew (map string_bytes others.now) name.now) }
{
    check_name_text(text, row, field, name)?;
    let own = String::from_str(alloc, name)?;
    if has_name(others, name) {
        return Err(TableError::NameTwice {
            place: place_of(text, row, field),
            name: own,
        });
    }
    Ok(own)
}

/// Checks that a name, in this field of a row, is not empty and has no control character.
pub fn check_name_text(
    text: &[u8],
    row: &StringRecord,
    field: usize,
    name: &str,
) -> Result<(), TableError>
    requires { field < 2 ^ 64 - 1 }
    ensures some { OnOk result (name.now ≢ []) }
    ensures visible { OnOk result (HasNoControl name.now) }
{
    if name.is_empty() {
        return Err(TableError::EmptyName {
            place: place_of(text, row, field),
        });
    }
    match first_control(name) {
        Some(control) => Err(TableError::ControlInName {
            place: place_of(text, row, field),
            code: control as u32,
        }),
        None => Ok(()),
    }
}

/// Whether one of the names is this one.
pub fn has_name(names: &[String], name: &str) -> bool
    ensures { IsTrue result ↔ HasName (map string_bytes names.now) name.now }
{
    for other in names {
        if other.as_str() == name {
            return true;
        }
    }
    false
}
