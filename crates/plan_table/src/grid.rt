//! Tables of numbers whose rows and columns have names of their own.

ghost use Rattle.std.specs.Prelude.{◌≡◌, ◌≤◌, ◌<◌, ◌∷◌, [], ℕ, List, length, map, slice_index_or, IfOk, MatchOption, OnOk};
ghost use Rattle.std.specs.String.{string_bytes};
ghost use Rattle.csv.specs.Records.{fields_of};
ghost use Rattle.plan_table.specs.Alike.{AreUnlike};
ghost use Rattle.plan_table.specs.Grid.{AreAmong, AreCellsOf, IsGridText, IsNamedGrid};
ghost use Rattle.plan_table.specs.Names.{AreNames, HasName, max_names};
ghost use Rattle.plan_table.specs.Table.{word_at};

use crate::alike::check_unlike;
use crate::error::TableError;
use crate::marking::mark_of_table;
use crate::names::{has_name, read_names, read_row_names};
use crate::numeral::Reading;
use crate::records::read_records;
use crate::rows::{place_of, read_rows, too_large};
use crate::rules::Rules;
use crate::scale::{ScaleError, least_scale, scaled_entries};
use crate::table::{Numbers, check_corner};
use csv::StringRecord;
use std::alloc::Global;

/// A table of numbers: `rows.len()` by `columns.len()` entries by rows. An entry `e` represents `e / 10^scale`.
#[derive(Debug, Drop)]
pub struct Grid {
    pub rows: Vec<String>,
    pub columns: Vec<String>,
    pub scale: usize,
    pub entries: Vec<i64>,
}

/// Reads a table of numbers by department and place from a text in CSV, and each number exactly, or rounded if the
/// rules require it.
///
/// The first record has a first field that is not a number, and then the name of each place once; each further record
/// has the name of a department, none of them twice, and as many numbers, in the columns' order. Both names may be in
/// any order; not each department needs a row, but there is one. No cell is empty. All numbers are multiplied by the
/// least power of ten that makes them whole, and are then from -10^9 to 10^9.
pub fn read_grid(
    alloc: Global,
    text: &[u8],
    rules: Rules,
    departments: &[String],
    places: &[String],
) -> Result<Grid, TableError>
    ensures text { IfOk result (λ g. IsGridText rules text.now (map string_bytes g.rows.items) (map string_bytes g.columns.items) g.scale g.entries.items) }
    ensures shape { IfOk result (λ g. IsNamedGrid (map string_bytes g.rows.items) (map string_bytes g.columns.items) g.entries.items) }
    ensures departments { IfOk result (λ g. AreAmong (map string_bytes g.rows.items) (map string_bytes departments.now)) }
    ensures known { IfOk result (λ g. AreAmong (map string_bytes g.columns.items) (map string_bytes places.now)) }
    ensures places { IfOk result (λ g. AreAmong (map string_bytes places.now) (map string_bytes g.columns.items)) }
{
    let records = read_records(alloc, text)?;
    let Some((head, below)) = records.split_first() else {
        return Err(TableError::Empty);
    };
    let columns = columns_of(alloc, text, head, places)?;
    let rows = rows_of(alloc, text, below, departments)?;
    let numbers = read_cells(alloc, text, rules, head, below, &rows, &columns)?;
    Ok(Grid {
        rows,
        columns,
        scale: numbers.scale,
        entries: numbers.entries,
    })
}

/// The names after the first field of a record, which are those of the places, in any order.
fn columns_of(
    alloc: Global,
    text: &[u8],
    head: &StringRecord,
    places: &[String],
) -> Result<Vec<String>, TableError>
    ensures names { IfOk result (λ names. AreNames (map string_bytes names.items)
        × (corner : List ℕ) × (fields_of head.now ≡ corner ∷ map string_bytes names.items)) }
    ensures unlike { IfOk result (λ names. AreUnlike (map string_bytes names.items)) }
    ensures known { IfOk result (λ names. AreAmong (map string_bytes names.items) (map string_bytes places.now)) }
    ensures places { IfOk result (λ names. AreAmong (map string_bytes places.now) (map string_bytes names.items)) }
{
    let names = read_names(alloc, text, head)?;
    check_unlike(alloc, &names)?;
    check_columns(text, head, &names, places)?;
    check_places(&names, places)?;
    Ok(names)
}

/// The names that records begin with, each of which is a department's.
fn rows_of(
    alloc: Global,
    text: &[u8],
    below: &[StringRecord],
    departments: &[String],
) -> Result<Vec<String>, TableError>
    ensures names { IfOk result (λ names. AreNames (map string_bytes names.items)) }
    ensures unlike { IfOk result (λ names. AreUnlike (map string_bytes names.items)) }
    ensures known { IfOk result (λ names. AreAmong (map string_bytes names.items) (map string_bytes departments.now)) }
{
    let names = read_row_names(alloc, text, below)?;
    check_unlike(alloc, &names)?;
    check_rows(text, below, &names, departments)?;
    Ok(names)
}

/// Checks that each column, whose name is in a field of the first record, is that of a place.
fn check_columns(
    text: &[u8],
    head: &StringRecord,
    names: &[String],
    places: &[String],
) -> Result<(), TableError>
    requires { length names.now ≤ max_names }
    ensures { OnOk result (AreAmong (map string_bytes names.now) (map string_bytes places.now)) }
{
    match first_other(names, places) {
        None => Ok(()),
        Some(k) => Err(TableError::OtherPlace {
            place: place_of(text, head, k + 1),
            name: names[k].clone()?,
        }),
    }
}

/// Checks that each place has a column.
fn check_places(names: &[String], places: &[String]) -> Result<(), TableError>
    ensures { OnOk result (AreAmong (map string_bytes places.now) (map string_bytes names.now)) }
{
    match first_other(places, names) {
        None => Ok(()),
        Some(k) => Err(TableError::MissingColumn {
            name: places[k].clone()?,
        }),
    }
}

/// Checks that each row is that of a department.
fn check_rows(
    text: &[u8],
    below: &[StringRecord],
    names: &[String],
    departments: &[String],
) -> Result<(), TableError>
    requires { length names.now ≡ length below.now }
    ensures { OnOk result (AreAmong (map string_bytes names.now) (map string_bytes departments.now)) }
{
    match first_other(names, departments) {
        None => Ok(()),
        Some(k) => Err(TableError::OtherDepartment {
            place: place_of(text, &below[k], 0),
            name: names[k].clone()?,
        }),
    }
}

/// The number of the first name that is not one of the others.
pub fn first_other(names: &[String], others: &[String]) -> Option<usize>
    ensures { MatchOption result (AreAmong (map string_bytes names.now) (map string_bytes others.now))
        (λ k. (k < length names.now) × (HasName (map string_bytes others.now) (slice_index_or (map string_bytes names.now) k []) → ⊥)) }
{
    for (k, name) in names.iter().enumerate() {
        if !has_name(others, name.as_str()) {
            return Some(k);
        }
    }
    None
}

/// The numbers of the rows of these names, with a cell for each column.
fn read_cells(
    alloc: Global,
    text: &[u8],
    rules: Rules,
    head: &StringRecord,
    below: &[StringRecord],
    rows: &[String],
    columns: &[String],
) -> Result<Numbers, TableError>
    requires rows { AreNames (map string_bytes rows.now) }
    requires columns { AreNames (map string_bytes columns.now) }
    ensures cells { IfOk result (λ m. AreCellsOf rules (word_at (fields_of head.now) 0) (map fields_of below.now) (map string_bytes rows.now) (map string_bytes columns.now) m.scale m.entries.items) }
    ensures shape { IfOk result (λ m. IsNamedGrid (map string_bytes rows.now) (map string_bytes columns.now) m.entries.items) }
{
    let count = columns.len();
    let mark = mark_of_table(alloc, text, rules.decimal_mark, below, 1, count + 1)?;
    check_corner(alloc, text, head, mark)?;
    let reading = Reading {
        mark,
        round: rules.round,
        is_square: false,
    };
    let decimals = read_rows(alloc, text, below, rows, count, reading)?;
    let scale = least_scale(&decimals);
    match scaled_entries(alloc, &decimals, scale) {
        Ok(entries) => Ok(Numbers { scale, entries }),
        Err(ScaleError::TooLarge(i)) => Err(too_large(alloc, text, below, rows, count, i)),
        Err(ScaleError::OutOfMemory) => Err(TableError::OutOfMemory),
    }
}
