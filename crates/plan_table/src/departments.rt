//! The departments of a list of flows.

ghost use Rattle.std.specs.Prelude.{◌≡◌, ◌<◌, ◌≤◌, ◌^◌, ◌-◌, ℕ, List, length, map, IfOk, MatchOption, OnOk, Some};
ghost use Rattle.std.specs.String.{string_bytes};
ghost use Rattle.csv.specs.Records.{fields_of, field_at};
ghost use Rattle.plan_table.specs.Listing.{IsWith};
ghost use Rattle.plan_table.specs.Names.{AreDifferent, AreNames, HasName, max_names};
ghost use Rattle.plan_table.specs.Numbers.{AreNumbers};
ghost use Rattle.plan_table.specs.Trips.{AppearInOrder, name_at, words_of};

use crate::error::TableError;
use crate::names::{MAX_NAMES, check_name_text};
use crate::numbers::{NameNumbers, add_number, has_number};
use crate::rows::place_of;
use csv::StringRecord;
use std::alloc::Global;
use std::collections::HashMap;

/// The names that the first two fields of rows have, in the order in which they first appear.
pub fn appearing_names(
    alloc: Global,
    text: &[u8],
    rows: &[StringRecord],
) -> Result<Vec<String>, TableError>
    ensures names { IfOk result (λ names. AreNames (map string_bytes names.items)) }
    ensures order { IfOk result (λ names. AppearInOrder (words_of (map fields_of rows.now)) (map string_bytes names.items)) }
{
    let mut names = Vec::new(alloc);
    let mut numbers = HashMap::new(alloc);
    for row in rows {
        add_name(alloc, text, row, 0, &mut names, &mut numbers)?;
        add_name(alloc, text, row, 1, &mut names, &mut numbers)?;
    }
    if names.is_empty() {
        return Err(TableError::NoPair);
    }
    Ok(names)
}

/// Appends the name in a field of a row to the others, unless it is one of them.
fn add_name(
    alloc: Global,
    text: &[u8],
    row: &StringRecord,
    field: usize,
    names: &mut Vec<String>,
    numbers: &mut NameNumbers,
) -> Result<(), TableError>
    requires field { field < 2 ^ 64 - 1 }
    requires few { length names.old.items ≤ max_names }
    requires different { AreDifferent (map string_bytes names.old.items) }
    requires numbered { AreNumbers numbers.old (map string_bytes names.old.items) }
    ensures added { OnOk result ((word : List ℕ) × (field_at (fields_of row.now) field ≡ Some word)
        × IsWith word (map string_bytes names.old.items) (map string_bytes names.new.items)) }
    ensures few { OnOk result (length names.new.items ≤ max_names) }
    ensures different { OnOk result (AreDifferent (map string_bytes names.new.items)) }
    ensures numbered { OnOk result (AreNumbers numbers.new (map string_bytes names.new.items)) }
{
    let Some(name) = row.get(field) else {
        return Err(TableError::MissingField {
            place: place_of(text, row, field),
        });
    };
    if has_number(numbers, name) {
        return Ok(());
    }
    check_name_text(text, row, field, name)?;
    let own = String::from_str(alloc, name)?;
    if names.len() == MAX_NAMES {
        return Err(TableError::TooManyDepartments {
            place: place_of(text, row, field),
            name: own,
        });
    }
    add_number(alloc, numbers, name, names.len())?;
    names.push(own).map_err(|_| TableError::OutOfMemory)?;
    Ok(())
}

/// The number of the name among these.
pub fn find_name(names: &[String], name: &str) -> Option<usize>
    ensures { MatchOption result (HasName (map string_bytes names.now) name.now → ⊥)
        (λ i. (i < length names.now) × (name_at (map string_bytes names.now) i ≡ name.now)) }
{
    for (i, other) in names.iter().enumerate() {
        if other.as_str() == name {
            return Some(i);
        }
    }
    None
}
