//! Matrices with names.

ghost use Rattle.std.specs.Prelude.{◌≡◌, map, IfOk, None, OnOk};
ghost use Rattle.std.specs.String.{string_bytes};
ghost use Rattle.csv.specs.Records.{fields_of};
ghost use Rattle.plan_table.specs.Numerals.{number_in};
ghost use Rattle.plan_table.specs.Shape.{IsNamedSquare};
ghost use Rattle.plan_table.specs.Names.{AreNames};
ghost use Rattle.plan_table.specs.Table.{AreNumbersOf, IsMatrixText, IsNumbered, word_at};

use crate::alike::check_unlike;
use crate::control::shown;
use crate::error::TableError;
use crate::halves::{check_mirrored, completed};
use crate::marking::mark_of_table;
use crate::names::read_names;
use crate::numeral::{DecimalMark, Reading, is_number};
use crate::records::{line_of, read_records};
use crate::rows::{read_rows, too_large, word_in};
use crate::rules::Rules;
use crate::scale::{ScaleError, least_scale, scaled_entries};
use crate::totals::check_no_total;
use csv::StringRecord;
use std::alloc::Global;

/// A matrix whose rows and columns have the same names: `names.len()` by `names.len()` entries by rows. An entry `e`
/// represents `e / 10^scale`.
#[derive(Debug, Drop)]
pub struct NamedMatrix {
    pub names: Vec<String>,
    pub scale: usize,
    pub entries: Vec<i64>,
}

/// Reads a matrix with names from a text in CSV, and each number exactly, or rounded if the rules require it.
///
/// The first record has a first field that is not a number, and then 1 to 256 names; each further record has a name and
/// as many numbers, in the columns' order. The rows may be in any order. A row and a column named as a total that are
/// the sums of the others are refused. No name is empty, and no two differ only in case and blanks. The separator is
/// that of the first line. Blanks around fields, and empty fields at a record's end, are ignored.
///
/// A number has an optional sign, digits, optionally a decimal mark with digits, and optionally an exponent; see
/// `DecimalMark`. If no mark is given, it is the one with which all numbers can be read. A cell on the diagonal may be
/// empty, a dash or a cross, for 0; if the halves of the matrix complete each other, each such cell takes the value of
/// the reverse direction, and if both directions have numbers, they must be equal. All numbers are multiplied by the
/// least power of ten that makes them whole, and are then from -10^9 to 10^9. A leading byte order mark is skipped.
pub fn read_matrix(alloc: Global, text: &[u8], rules: Rules) -> Result<NamedMatrix, TableError>
    ensures text { IfOk result (λ m. IsMatrixText rules text.now (map string_bytes m.names.items) m.scale m.entries.items) }
    ensures square { IfOk result (λ m. IsNamedSquare (map string_bytes m.names.items) m.entries.items) }
{
    let records = read_records(alloc, text)?;
    let Some((head, rows)) = records.split_first() else {
        return Err(TableError::Empty);
    };
    let names = read_names(alloc, text, head)?;
    check_unlike(alloc, &names)?;
    let numbers = read_numbers(alloc, text, rules, head, rows, &names)?;
    Ok(NamedMatrix {
        names,
        scale: numbers.scale,
        entries: numbers.entries,
    })
}

/// The numbers of a matrix, all times a power of ten.
#[derive(Drop)]
pub struct Numbers {
    pub scale: usize,
    pub entries: Vec<i64>,
}

/// The numbers of the rows of these names.
fn read_numbers(
    alloc: Global,
    text: &[u8],
    rules: Rules,
    head: &StringRecord,
    rows: &[StringRecord],
    names: &[String],
) -> Result<Numbers, TableError>
    requires { AreNames (map string_bytes names.now) }
    ensures numbers { IfOk result (λ m. IsNumbered rules (word_at (fields_of head.now) 0) (map fields_of rows.now) (map string_bytes names.now) m.scale m.entries.items) }
    ensures square { IfOk result (λ m. IsNamedSquare (map string_bytes names.now) m.entries.items) }
{
    if !rules.is_symmetric {
        let numbers = numbers_of_rows(alloc, text, rules, head, rows, names)?;
        return Ok(numbers);
    }
    let filled = completed(alloc, rows, names)?;
    let numbers = numbers_of_rows(alloc, text, rules, head, &filled, names)?;
    check_mirrored(names, &numbers.entries)?;
    Ok(numbers)
}

/// The numbers of these rows, each of which is complete.
fn numbers_of_rows(
    alloc: Global,
    text: &[u8],
    rules: Rules,
    head: &StringRecord,
    rows: &[StringRecord],
    names: &[String],
) -> Result<Numbers, TableError>
    requires { AreNames (map string_bytes names.now) }
    ensures numbers { IfOk result (λ m. AreNumbersOf rules (word_at (fields_of head.now) 0) (map fields_of rows.now) (map string_bytes names.now) m.scale m.entries.items) }
    ensures square { IfOk result (λ m. IsNamedSquare (map string_bytes names.now) m.entries.items) }
{
    let columns = names.len();
    let mark = mark_of_table(alloc, text, rules.decimal_mark, rows, 1, columns + 1)?;
    check_corner(alloc, text, head, mark)?;
    let reading = Reading {
        mark,
        round: rules.round,
        is_square: true,
    };
    let decimals = read_rows(alloc, text, rows, names, columns, reading)?;
    let scale = least_scale(&decimals);
    match scaled_entries(alloc, &decimals, scale) {
        Ok(entries) => {
            check_no_total(alloc, names, &entries)?;
            Ok(Numbers { scale, entries })
        }
        Err(ScaleError::TooLarge(i)) => Err(too_large(alloc, text, rows, names, columns, i)),
        Err(ScaleError::OutOfMemory) => Err(TableError::OutOfMemory),
    }
}

/// Checks that the first field of the first record is not a number, as it would be in a table without names.
pub fn check_corner(
    alloc: Global,
    text: &[u8],
    head: &StringRecord,
    mark: DecimalMark,
) -> Result<(), TableError>
    ensures { OnOk result (number_in mark (word_at (fields_of head.now) 0) ≡ None) }
{
    let corner = word_in(head, 0);
    if is_number(alloc, mark, corner)? {
        return Err(TableError::NoNames {
            line: line_of(text, head),
            word: shown(alloc, corner)?,
        });
    }
    Ok(())
}
