//! First lines that name the columns.

ghost use Rattle.std.specs.Prelude.{◌≡◌, ◌≤◌, ◌∷◌, [], length, map, IfOk, IsTrue, OnOk};
ghost use Rattle.std.specs.Char.{to_ascii_lowercase};
ghost use Rattle.csv.specs.Records.{fields_of};
ghost use Rattle.plan_table.specs.Heads.{IsHead};
ghost use Rattle.plan_table.specs.Table.{word_at};

use crate::error::TableError;
use crate::records::line_of;
use crate::rows::word_in;
use csv::StringRecord;
use std::alloc::{AllocError, Global};

/// Checks that the first three fields of a record are these words, in upper or lower case; a line for each item follows
/// it.
pub fn check_head(
    alloc: Global,
    text: &[u8],
    head: &StringRecord,
    first: &str,
    second: &str,
    third: &str,
    item: &'static str,
) -> Result<(), TableError>
    ensures { OnOk result (IsHead (first.now ∷ second.now ∷ third.now ∷ []) (fields_of head.now)) }
{
    if has_words(alloc, head, first, second, third)? {
        return Ok(());
    }
    Err(TableError::OtherHead {
        line: line_of(text, head),
        head: format!(in alloc; "{first},{second},{third}")?,
        item,
    })
}

/// Whether the first three fields of a record are these words.
fn has_words(
    alloc: Global,
    head: &StringRecord,
    first: &str,
    second: &str,
    third: &str,
) -> Result<bool, AllocError>
    ensures { IfOk result (λ all. IsTrue all → IsHead (first.now ∷ second.now ∷ third.now ∷ []) (fields_of head.now)) }
{
    if head.len() < 3 {
        return Ok(false);
    }
    let one = is_word(alloc, word_in(head, 0), first)?;
    let two = is_word(alloc, word_in(head, 1), second)?;
    let three = is_word(alloc, word_in(head, 2), third)?;
    Ok(one && two && three)
}

/// Whether a field is a word, in upper or lower case.
pub fn is_word(alloc: Global, field: &str, word: &str) -> Result<bool, AllocError>
    ensures { IfOk result (λ same. IsTrue same → map to_ascii_lowercase field.now ≡ word.now) }
{
    let small = field.to_ascii_lowercase(alloc)?;
    Ok(small.as_str() == word)
}
