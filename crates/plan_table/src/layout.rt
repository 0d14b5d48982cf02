//! Arrangements listed department by department.

ghost use Rattle.std.specs.Prelude.{◌≡◌, ◌∷◌, [], map, take, IfOk, IsTrue, OnOk};
ghost use Rattle.std.specs.Char.{to_ascii_lowercase};
ghost use Rattle.std.specs.String.{string_bytes};
ghost use Rattle.csv.specs.Records.{fields_of};
ghost use Rattle.plan_table.specs.Layout.{IsLayoutText, layout_head};
ghost use Rattle.plan_table.specs.Table.{word_at};

use crate::error::TableError;
use crate::head::is_word;
use crate::pin::Pin;
use crate::records::{line_of, read_records};
use crate::rows::word_in;
use csv::StringRecord;
use std::alloc::{AllocError, Global};

/// Reads an arrangement from a text in CSV: the first record begins with `department,place`, in upper or lower case,
/// and each further one with a department and its place. Further columns are ignored.
pub fn read_layout(alloc: Global, text: &[u8]) -> Result<Vec<Pin>, TableError>
    ensures { IfOk result (λ pins. IsLayoutText text.now pins.items) }
{
    let records = read_records(alloc, text)?;
    let Some((head, rows)) = records.split_first() else {
        return Err(TableError::NoHead {
            head: "department,place",
            item: "department",
        });
    };
    check_layout_head(alloc, text, head)?;
    let pins = pins_of(alloc, rows)?;
    Ok(pins)
}

/// Whether the first line of a text is that of an arrangement.
pub fn is_layout(alloc: Global, text: &[u8]) -> Result<bool, AllocError> {
    match read_records(alloc, text) {
        Ok(records) => match records.first() {
            Some(head) => has_head(alloc, head),
            None => Ok(false),
        },
        Err(TableError::OutOfMemory) => Err(AllocError),
        Err(_) => Ok(false),
    }
}

/// Checks that the first two fields of a record name the columns.
fn check_layout_head(alloc: Global, text: &[u8], head: &StringRecord) -> Result<(), TableError>
    ensures { OnOk result (map (λ word. map to_ascii_lowercase word) (take 2 (fields_of head.now)) ≡ layout_head) }
{
    let is_head = has_head(alloc, head)?;
    if is_head {
        return Ok(());
    }
    Err(TableError::OtherHead {
        line: line_of(text, head),
        head: String::from_str(alloc, "department,place")?,
        item: "department",
    })
}

/// Whether they do.
fn has_head(alloc: Global, head: &StringRecord) -> Result<bool, AllocError>
    ensures { IfOk result (λ all. IsTrue all → map (λ word. map to_ascii_lowercase word) (take 2 (fields_of head.now)) ≡ layout_head) }
{
    if head.len() < 2 {
        return Ok(false);
    }
    let one = is_word(alloc, word_in(head, 0), "department")?;
    let two = is_word(alloc, word_in(head, 1), "place")?;
    Ok(one && two)
}

/// The departments and places that rows begin with.
fn pins_of(alloc: Global, rows: &[StringRecord]) -> Result<Vec<Pin>, AllocError>
    ensures departments { IfOk result (λ v. map (λ p. string_bytes p.department) v.items ≡ map (λ fields. word_at fields 0) (map fields_of rows.now)) }
    ensures places { IfOk result (λ v. map (λ p. string_bytes p.place) v.items ≡ map (λ fields. word_at fields 1) (map fields_of rows.now)) }
{
    let mut pins = Vec::new(alloc);
    for row in rows {
        let pin = Pin {
            department: String::from_str(alloc, word_in(row, 0))?,
            place: String::from_str(alloc, word_in(row, 1))?,
        };
        pins.push(pin)?;
    }
    Ok(pins)
}
