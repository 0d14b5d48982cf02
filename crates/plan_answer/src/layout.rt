//! An arrangement as CSV.

ghost use Rattle.std.specs.Prelude.{◌≡◌, ◌<◌, ◌≤◌, ◌++◌, ℕ, IfOk, OnOk, length, map, slice_index, string_bytes};
ghost use Rattle.std.specs.List.{list_any};
ghost use Rattle.plan_table.specs.CsvText.{doubled};
ghost use Rattle.plan_file.specs.Tables.{HasSizes};
ghost use Rattle.plan_answer.specs.Layout.{csv_field, csv_line, csv_lines, is_special, layout_text};

use plan_file::NamedProblem;
use qap_cost::Perm;
use std::alloc::{AllocError, Global};

/// An arrangement as CSV: the line `department,place`, and one for each department with its place.
pub fn layout_text(
    alloc: Global,
    problem: &NamedProblem,
    permutation: &Perm,
) -> Result<Vec<u8>, AllocError>
    requires sizes { HasSizes problem.now }
    requires same_size { length permutation.now ≡ problem.now.instance.size }
    ensures { IfOk result (λ text. text.items ≡ layout_text problem.now permutation.now) }
{
    let mut text = Vec::from_slice(alloc, b"department,place\n")?;
    push_lines(
        &mut text,
        &problem.departments,
        &problem.places,
        permutation.locations(),
    )?;
    Ok(text)
}

/// Appends a line for each department with its place to the text.
fn push_lines(
    text: &mut Vec<u8>,
    departments: &[String],
    places: &[String],
    locations: &[u16],
) -> Result<(), AllocError>
    requires there { (i : ℕ) → i < length locations.now → slice_index locations.now i < length places.now }
    requires room { length departments.now ≤ length locations.now }
    ensures { OnOk result (text.new.items ≡ text.old.items ++ csv_lines (map string_bytes departments.now) (map string_bytes places.now) locations.now) }
{
    for (i, department) in departments.iter().enumerate() {
        let place = &places[usize::from(locations[i])];
        push_line(text, department.as_str(), place.as_str())?;
    }
    Ok(())
}

/// Appends the line of a department and its place to the text.
fn push_line(text: &mut Vec<u8>, department: &str, place: &str) -> Result<(), AllocError>
    ensures { OnOk result (text.new.items ≡ text.old.items ++ csv_line department.now place.now) }
{
    push_field(text, department.as_bytes())?;
    text.extend_from_slice(b",")?;
    push_field(text, place.as_bytes())?;
    text.extend_from_slice(b"\n")?;
    Ok(())
}

/// Appends a name to the text, in quotes where it needs them.
fn push_field(text: &mut Vec<u8>, name: &[u8]) -> Result<(), AllocError>
    ensures { OnOk result (text.new.items ≡ text.old.items ++ csv_field name.now) }
{
    if has_special(name) {
        text.extend_from_slice(b"\"")?;
        push_doubled(text, name)?;
        text.extend_from_slice(b"\"")?;
        return Ok(());
    }
    text.extend_from_slice(name)?;
    Ok(())
}

/// Whether a name has a byte by which it needs quotes.
fn has_special(name: &[u8]) -> bool
    ensures { result ≡ list_any is_special name.now }
{
    name.iter().any(|byte| is_special(*byte))
}

/// Whether a byte is a quote, or one that may separate fields.
fn is_special(byte: u8) -> bool
    ensures { result ≡ is_special byte }
{
    byte == b'"' || byte == b',' || byte == b';'
}

/// Appends bytes to the text, each quote twice.
fn push_doubled(text: &mut Vec<u8>, name: &[u8]) -> Result<(), AllocError>
    ensures { OnOk result (text.new.items ≡ text.old.items ++ doubled name.now) }
{
    for byte in name {
        if *byte == b'"' {
            text.push(b'"')?;
        }
        text.push(*byte)?;
    }
    Ok(())
}
