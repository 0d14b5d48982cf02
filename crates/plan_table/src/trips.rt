//! Flows listed pair by pair.

ghost use Rattle.std.specs.Prelude.{◌≡◌, ◌*◌, ◌<◌, ◌≤◌, ◌^◌, ◌-◌, length, map, replicate, take, unsigned_abs, false, All, None, Some, IfOk, IfSome, OnOk};
ghost use Rattle.std.specs.String.{string_bytes};
ghost use Rattle.csv.specs.Records.{fields_of, field_at};
ghost use Rattle.plan_table.specs.Alike.{AreUnlike};
ghost use Rattle.plan_table.specs.Decimal.{max_entry};
ghost use Rattle.plan_table.specs.Listing.{AreEntriesOf, AreInside, ArePlaced, AreTripsOf, IsTripOf, added as added_to, cell_of as cell_number, filled as filled_with};
ghost use Rattle.plan_table.specs.Lists.{IsList, IsTripsMatrix, IsTripsText};
ghost use Rattle.plan_table.specs.Marking.{IsMark};
ghost use Rattle.plan_table.specs.Names.{AreNames, max_names};
ghost use Rattle.plan_table.specs.Numbers.{AreNumbers};
ghost use Rattle.plan_table.specs.Shape.{IsNamedSquare};
ghost use Rattle.plan_table.specs.Trips.{AppearInOrder, name_at, words_of};
ghost use Rattle.plan_table.specs.declared.numeral.DecimalMark.{DecimalMark as MarkOf};

use crate::alike::check_unlike;
use crate::control::shown;
use crate::decimal::{Decimal, MAX_ENTRY};
use crate::departments::appearing_names;
use crate::error::TableError;
use crate::halves::{check_mirrored, mirrored};
use crate::head::check_head;
use crate::marking::mark_of_table;
use crate::numbers::{NameNumbers, number_of, numbers_of};
use crate::numeral::Reading;
use crate::records::read_records;
use crate::rows::{check_end, place_of, read_cell, too_large_in};
use crate::rules::Rules;
use crate::scale::{ScaleError, least_scale, scaled_entries};
use crate::table::NamedMatrix;
use csv::StringRecord;
use std::alloc::{AllocError, Global};

/// So much goes from one department to another, each given by its number.
#[derive(Clone, Copy)]
pub struct Trip {
    pub from: usize,
    pub to: usize,
    pub amount: Decimal,
}

/// Reads flows listed pair by pair from a text in CSV, and each number exactly, or rounded if the rules require it; the
/// departments are those of the list, in order of first appearance.
///
/// The first record begins with `from,to,amount`, in upper or lower case; each further one has the names of two
/// departments and a number. Further columns are ignored. No pair is repeated, unless the rules add such amounts up;
/// one that is not listed has no flow, or that of the reverse direction if the rules say so. No two names differ only
/// in case and blanks. All numbers are multiplied by the least power of ten that makes them whole, and are then from
/// -10^9 to 10^9.
pub fn read_trips(alloc: Global, text: &[u8], rules: Rules) -> Result<NamedMatrix, TableError>
    ensures text { IfOk result (λ m. let names = map string_bytes m.names.items in
        (t : IsTripsText rules text.now names m.scale m.entries.items) × AppearInOrder (words_of t.rows) names) }
    ensures square { IfOk result (λ m. IsNamedSquare (map string_bytes m.names.items) m.entries.items) }
{
    let rows = read_list(alloc, text)?;
    let names = appearing_names(alloc, text, &rows)?;
    let matrix = matrix_of(alloc, text, rules, &rows, names)?;
    Ok(matrix)
}

/// The same, between these departments: each name of the list is one of theirs.
pub fn read_trips_between(
    alloc: Global,
    text: &[u8],
    rules: Rules,
    departments: Vec<String>,
) -> Result<NamedMatrix, TableError>
    requires { AreNames (map string_bytes departments.items) }
    ensures text { IfOk result (λ m. IsTripsText rules text.now (map string_bytes m.names.items) m.scale m.entries.items) }
    ensures names { IfOk result (λ m. m.names ≡ departments) }
    ensures square { IfOk result (λ m. IsNamedSquare (map string_bytes m.names.items) m.entries.items) }
{
    let rows = read_list(alloc, text)?;
    let matrix = matrix_of(alloc, text, rules, &rows, departments)?;
    Ok(matrix)
}

/// The first three fields of each record below the first, which names the columns. No record is longer than the first.
fn read_list(alloc: Global, text: &[u8]) -> Result<Vec<StringRecord>, TableError>
    ensures { IfOk result (λ rows. IsList text.now (map fields_of rows.items)) }
{
    let records = read_records(alloc, text)?;
    let Some((head, below)) = records.split_first() else {
        return Err(TableError::NoHead {
            head: "from,to,amount",
            item: "pair",
        });
    };
    check_head(alloc, text, head, "from", "to", "amount", "pair")?;
    let mut rows = Vec::new(alloc);
    for row in below {
        check_length(alloc, text, row, head)?;
        rows.push(front_of(row)?)
            .map_err(|_| TableError::OutOfMemory)?;
    }
    Ok(rows)
}

/// Checks that a record isn't longer than the first.
fn check_length(
    alloc: Global,
    text: &[u8],
    row: &StringRecord,
    head: &StringRecord,
) -> Result<(), TableError> {
    let Some(word) = row.get(head.len()) else {
        return Ok(());
    };
    Err(TableError::ExtraCell {
        place: place_of(text, row, head.len()),
        word: shown(alloc, word)?,
    })
}

/// The first three fields of a record.
fn front_of(row: &StringRecord) -> Result<StringRecord, AllocError>
    ensures { IfOk result (λ front. fields_of front ≡ take 3 (fields_of row.now)) }
{
    let mut front = row.clone()?;
    front.truncate(3);
    Ok(front)
}

/// The matrix of the flows that rows list between departments of these names.
fn matrix_of(
    alloc: Global,
    text: &[u8],
    rules: Rules,
    rows: &[StringRecord],
    names: Vec<String>,
) -> Result<NamedMatrix, TableError>
    requires { AreNames (map string_bytes names.items) }
    ensures names { IfOk result (λ m. m.names ≡ names) }
    ensures unlike { IfOk result (λ m. AreUnlike (map string_bytes m.names.items)) }
    ensures matrix { IfOk result (λ m. (mark : MarkOf) × IsMark rules.decimal_mark (map fields_of rows.now) 2 3 mark
        × IsTripsMatrix rules (record { mark = mark; round = rules.round; is_square = false }) (map string_bytes m.names.items) (map fields_of rows.now) m.scale m.entries.items) }
    ensures square { IfOk result (λ m. IsNamedSquare (map string_bytes m.names.items) m.entries.items) }
{
    check_unlike(alloc, &names)?;
    let mark = mark_of_table(alloc, text, rules.decimal_mark, rows, 2, 3)?;
    let reading = Reading {
        mark,
        round: rules.round,
        is_square: false,
    };
    let trips = read_rows_of_trips(alloc, text, rows, &names, reading)?;
    let decimals = decimals_of(alloc, &trips)?;
    let scale = least_scale(&decimals);
    let amounts = match scaled_entries(alloc, &decimals, scale) {
        Ok(amounts) => amounts,
        Err(ScaleError::TooLarge(k)) => return Err(too_large_in(alloc, text, &rows[k], 2)),
        Err(ScaleError::OutOfMemory) => return Err(TableError::OutOfMemory),
    };
    let cells = place_trips(
        alloc,
        text,
        rows,
        names.len(),
        rules.adds_up,
        &trips,
        &amounts,
    )?;
    let entries = entries_of(alloc, rules.is_symmetric, &names, cells)?;
    Ok(NamedMatrix {
        names,
        scale,
        entries,
    })
}

/// The trips of all rows, in their order.
fn read_rows_of_trips(
    alloc: Global,
    text: &[u8],
    rows: &[StringRecord],
    names: &[String],
    reading: Reading,
) -> Result<Vec<Trip>, TableError>
    requires { reading.is_square ≡ false }
    ensures { IfOk result (λ v. AreTripsOf reading (map string_bytes names.now) (map fields_of rows.now) v.items) }
{
    let numbers = numbers_of(alloc, names)?;
    let mut trips = Vec::new(alloc);
    for row in rows {
        let trip = read_trip(alloc, text, row, names, &numbers, reading)?;
        trips.push(trip).map_err(|_| TableError::OutOfMemory)?;
    }
    Ok(trips)
}

/// The trip of a row: two names and a number, and nothing else.
fn read_trip(
    alloc: Global,
    text: &[u8],
    row: &StringRecord,
    names: &[String],
    numbers: &NameNumbers,
    reading: Reading,
) -> Result<Trip, TableError>
    requires numbered { AreNumbers numbers.now (map string_bytes names.now) }
    requires listed { reading.is_square ≡ false }
    ensures { IfOk result (IsTripOf reading (map string_bytes names.now) (fields_of row.now)) }
{
    check_start(text, row)?;
    check_end(alloc, text, row, 2)?;
    Ok(Trip {
        from: department_in(alloc, text, row, 0, names, numbers)?,
        to: department_in(alloc, text, row, 1, names, numbers)?,
        amount: read_cell(alloc, text, row, 0, 1, reading)?,
    })
}

/// Checks that a row has three fields at its beginning.
fn check_start(text: &[u8], row: &StringRecord) -> Result<(), TableError>
    ensures { OnOk result (3 ≤ length (fields_of row.now)) }
{
    if row.len() >= 3 {
        return Ok(());
    }
    Err(TableError::MissingField {
        place: place_of(text, row, row.len()),
    })
}

/// The number of the department whose name is in a field of a row.
fn department_in(
    alloc: Global,
    text: &[u8],
    row: &StringRecord,
    field: usize,
    names: &[String],
    numbers: &NameNumbers,
) -> Result<usize, TableError>
    requires field { field < 2 ^ 64 - 1 }
    requires numbered { AreNumbers numbers.now (map string_bytes names.now) }
    ensures { IfOk result (λ i. (i < length names.now) × (field_at (fields_of row.now) field ≡ Some (name_at (map string_bytes names.now) i))) }
{
    let Some(name) = row.get(field) else {
        return Err(TableError::MissingField {
            place: place_of(text, row, field),
        });
    };
    match number_of(numbers, name) {
        Some(i) => Ok(i),
        None => Err(TableError::UnknownName {
            place: place_of(text, row, field),
            name: shown(alloc, name)?,
        }),
    }
}

/// The numbers of trips.
fn decimals_of(alloc: Global, trips: &[Trip]) -> Result<Vec<Decimal>, AllocError>
    ensures { IfOk result (λ v. v.items ≡ map (λ t. t.amount) trips.now) }
{
    trips.iter().map(|trip| trip.amount).collect(alloc)
}

/// The matrix of trips, in which each cell has the sum of the amounts that are of it; no pair is repeated, unless
/// amounts add up.
fn place_trips(
    alloc: Global,
    text: &[u8],
    rows: &[StringRecord],
    departments: usize,
    adds_up: bool,
    trips: &[Trip],
    amounts: &[i64],
) -> Result<Vec<Option<i64>>, TableError>
    requires few { departments ≤ max_names }
    requires inside { AreInside departments trips.now }
    requires rows { length rows.now ≡ length trips.now }
    requires amounts { length amounts.now ≡ length trips.now }
    requires small { All (λ z. unsigned_abs z ≤ max_entry) amounts.now }
    ensures { IfOk result (λ v. ArePlaced departments adds_up trips.now amounts.now (length trips.now) v.items) }
{
    let mut cells = empty_cells(alloc, departments * departments)?;
    for k in 0..trips.len() {
        let cell = cell_of(&trips[k], departments);
        let before = cells[cell];
        if before.is_some() && !adds_up {
            return Err(pair_twice(alloc, text, &rows[k]));
        }
        let Some(sum) = added(before, amounts[k]) else {
            return Err(sum_too_large(alloc, text, &rows[k]));
        };
        cells[cell] = Some(sum);
    }
    Ok(cells)
}

/// An amount more, where the sum is from -10^9 to 10^9.
fn added(before: Option<i64>, amount: i64) -> Option<i64>
    requires before { unsigned_abs (filled_with before) ≤ max_entry }
    requires amount { unsigned_abs amount ≤ max_entry }
    ensures { IfSome result (λ sum. (sum ≡ added_to before amount) × (unsigned_abs sum ≤ max_entry)) }
{
    let Some(before) = before else {
        return Some(amount);
    };
    let sum = before + amount;
    if sum.unsigned_abs() > MAX_ENTRY {
        None
    } else {
        Some(sum)
    }
}

/// This many cells that say nothing.
fn empty_cells(alloc: Global, count: usize) -> Result<Vec<Option<i64>>, AllocError>
    ensures { IfOk result (λ v. v.items ≡ replicate count None) }
{
    vec![in alloc; None; count]
}

/// Where a trip's amount is in the matrix.
fn cell_of(trip: &Trip, departments: usize) -> usize
    requires few { departments ≤ max_names }
    requires from { trip.now.from < departments }
    requires to { trip.now.to < departments }
    ensures number { result ≡ cell_number departments trip.now }
    ensures inside { result < departments * departments }
{
    trip.from * departments + trip.to
}

/// The error of a row whose pair was in an earlier one.
fn pair_twice(alloc: Global, text: &[u8], row: &StringRecord) -> TableError {
    let from = String::from_str(alloc, row.get(0).unwrap_or(""));
    let to = String::from_str(alloc, row.get(1).unwrap_or(""));
    match (from, to) {
        (Ok(from), Ok(to)) => TableError::PairTwice {
            place: place_of(text, row, 0),
            from,
            to,
        },
        _ => TableError::OutOfMemory,
    }
}

/// The error of a row whose amount, with those of the same pair before it, is too much.
fn sum_too_large(alloc: Global, text: &[u8], row: &StringRecord) -> TableError {
    let from = shown(alloc, row.get(0).unwrap_or(""));
    let to = shown(alloc, row.get(1).unwrap_or(""));
    match (from, to) {
        (Ok(from), Ok(to)) => TableError::SumTooLarge {
            place: place_of(text, row, 2),
            from,
            to,
        },
        _ => TableError::OutOfMemory,
    }
}

/// The entries of cells; an empty one is 0, or has the content of the reverse direction if the halves complete each
/// other.
fn entries_of(
    alloc: Global,
    is_symmetric: bool,
    names: &[String],
    cells: Vec<Option<i64>>,
) -> Result<Vec<i64>, TableError>
    requires few { length names.now ≤ max_names }
    requires square { length cells.items ≡ length names.now * length names.now }
    ensures { IfOk result (λ v. AreEntriesOf is_symmetric (length names.now) cells.items v.items) }
{
    if !is_symmetric {
        let entries = filled_cells(alloc, &cells)?;
        return Ok(entries);
    }
    let all = mirrored(alloc, names.len(), &cells)?;
    let entries = filled_cells(alloc, &all)?;
    check_mirrored(names, &entries)?;
    Ok(entries)
}

/// What cells say.
fn filled_cells(alloc: Global, cells: &[Option<i64>]) -> Result<Vec<i64>, AllocError>
    ensures { IfOk result (λ v. v.items ≡ map filled_with cells.now) }
{
    cells.iter().map(|cell| filled(*cell)).collect(alloc)
}

/// The content of a cell.
fn filled(cell: Option<i64>) -> i64
    ensures { result ≡ filled_with cell }
{
    cell.unwrap_or(0)
}
