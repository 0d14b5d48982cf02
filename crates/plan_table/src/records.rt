//! The records of a text.

ghost use Rattle.std.specs.Prelude.{◌≡◌, ◌++◌, ◌↔◌, [], map, take, slice_index_or, IfOk, IsTrue, OnOk};
ghost use Rattle.csv.specs.Records.{fields_of};
ghost use Rattle.plan_table.specs.Table.{AreRecordsOf};
ghost use Rattle.plan_table.specs.Tidy.{filled_front, tidied_record, unless_empty};

use crate::csv_text::{check_csv, without_bom};
use crate::error::TableError;
use crate::separator::separator_of;
use csv::{Error, ErrorKind, Position, ReaderBuilder, StringRecord};
use std::alloc::{AllocError, Global};

/// All records of a text, after an optional byte order mark, without what spreadsheets add to them: blanks around
/// fields, empty fields at the end of a record, and records of such fields only.
pub fn read_records(alloc: Global, text: &[u8]) -> Result<Vec<StringRecord>, TableError>
    ensures { IfOk result (λ v. AreRecordsOf text.now (map fields_of v.items)) }
{
    if text.starts_with(b"PK\x03\x04") {
        return Err(TableError::Workbook);
    }
    let content = without_bom(text);
    let separator = separator_of(content);
    check_csv(separator, content)?;
    let reader = ReaderBuilder::new()
        .has_headers(false)
        .flexible(true)
        .delimiter(separator.byte())
        .from_reader(alloc, text);
    let mut records = Vec::new(alloc);
    for record in reader.into_records() {
        match record {
            Ok(record) => push_tidied(&mut records, record)?,
            Err(error) => return Err(refused(text, error)),
        }
    }
    Ok(records)
}

/// Appends a tidied record to others, unless nothing is left of it.
fn push_tidied(records: &mut Vec<StringRecord>, mut row: StringRecord) -> Result<(), AllocError>
    ensures { OnOk result (map fields_of records.new.items ≡ map fields_of records.old.items ++ unless_empty (tidied_record (fields_of row))) }
{
    row.trim()?;
    let filled = filled_fields(&row);
    row.truncate(filled);
    if !row.is_empty() {
        records.push(row)?;
    }
    Ok(())
}

/// How many fields a record has without the empty ones at its end.
fn filled_fields(row: &StringRecord) -> usize
    ensures { take result (fields_of row.now) ≡ filled_front (fields_of row.now) }
{
    let mut filled = 0;
    for i in 0..row.len() {
        if !is_empty(row, i) {
            filled = i + 1;
        }
    }
    filled
}

/// Whether a field of a record is empty, or there is none.
fn is_empty(row: &StringRecord, field: usize) -> bool
    ensures { IsTrue result ↔ (slice_index_or (fields_of row.now) field [] ≡ []) }
{
    match row.get(field) {
        Some(word) => word.is_empty(),
        None => true,
    }
}

fn refused(text: &[u8], error: Error) -> TableError {
    match error.into_kind() {
        ErrorKind::Utf8 { pos, .. } => TableError::NotText {
            line: line_at(text, pos),
        },
        _ => TableError::OutOfMemory,
    }
}

/// The line of a text in which one of its records begins, counted from 1.
pub fn line_of(text: &[u8], record: &StringRecord) -> u64 {
    line_at(text, record.position())
}

/// The line of the first byte at or after a place that ends no line. What ends the line before, and empty lines, may be
/// at the place.
fn line_at(text: &[u8], position: Option<Position>) -> u64 {
    let before = position.map_or(0, |position| position.byte());
    let mut line: u64 = 1;
    for (i, byte) in text.iter().enumerate() {
        if i as u64 >= before && !matches!(*byte, b'\r' | b'\n') {
            return line;
        }
        if *byte == b'\n' {
            line = line.saturating_add(1);
        }
    }
    line
}
