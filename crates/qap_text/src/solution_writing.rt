//! Solutions as texts.

ghost use Rattle.std.specs.Prelude.{◌≡◌, ◌+◌, ◌≤◌, ◌⊎◌, ◌++◌, length, IfOk, OnOk, MatchResult};
ghost use Rattle.std.specs.Fmt.{decimal, signed_decimal};
ghost use Rattle.qap_io.specs.Writing.{Sends, BreaksOff};
ghost use Rattle.qap_text.specs.WrittenSolution.{behind_spaces, locations_text, solution_text};

use crate::TextError;
use itoa::Buffer;
use qap_cost::Perm;
use qap_io::{Counted, send};
use std::alloc::{AllocError, Global};
use std::io::Write;

/// Writes the text of a solution, and flushes the writer: a line of its size and its objective value, and a line of the
/// locations of the facilities, counted from 1.
///
/// If memory runs out, nothing has been written; if the writer fails, a prefix of the text.
pub fn write_solution<W: Write>(
    alloc: Global,
    writer: &mut Counted<W>,
    value: i128,
    permutation: &Perm,
) -> Result<(), TextError>
    ensures { MatchResult result
        (λ _. Sends W.contents writer.old writer.new (solution_text value permutation.now))
        (λ e. ((e ≡ TextError.OutOfMemory) × (writer.new ≡ writer.old))
        ⊎ ((e ≡ TextError.Device) × BreaksOff W.contents writer.old writer.new (solution_text value permutation.now))) }
{
    let text = made_text(alloc, value, permutation.locations())?;
    send(writer, &text)?;
    Ok(())
}

/// The text of a solution.
fn made_text(alloc: Global, value: i128, locations: &[u16]) -> Result<Vec<u8>, AllocError>
    ensures { IfOk result (λ text. text.items ≡ solution_text value locations.now) }
{
    let mut text = Vec::new(alloc);
    text.extend_from_slice(Buffer::new().format(locations.len()).as_bytes())?;
    text.push(b' ')?;
    text.extend_from_slice(Buffer::new().format(value).as_bytes())?;
    text.push(b'\n')?;
    push_locations(&mut text, locations)?;
    text.push(b'\n')?;
    Ok(text)
}

/// Appends a location to the text, counted from 1.
fn push_location(text: &mut Vec<u8>, location: u16) -> Result<(), AllocError>
    ensures { OnOk result (text.new.items ≡ text.old.items ++ decimal (location + 1)) }
{
    text.extend_from_slice(Buffer::new().format(u32::from(location) + 1).as_bytes())
}

/// Appends locations to the text, counted from 1, with a space between.
fn push_locations(text: &mut Vec<u8>, locations: &[u16]) -> Result<(), AllocError>
    ensures { OnOk result (text.new.items ≡ text.old.items ++ locations_text locations.now) }
{
    let Some((first, others)) = locations.split_first() else {
        return Ok(());
    };
    push_location(text, *first)?;
    push_others(text, others)
}

/// Appends locations to the text, counted from 1, each after a space.
fn push_others(text: &mut Vec<u8>, locations: &[u16]) -> Result<(), AllocError>
    ensures { OnOk result (text.new.items ≡ text.old.items ++ behind_spaces locations.now) }
{
    for location in locations {
        text.push(b' ')?;
        push_location(text, *location)?;
    }
    Ok(())
}
