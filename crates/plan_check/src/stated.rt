//! What the JSON of an answer states.

ghost use Rattle.std.specs.Prelude.{◌≡◌, List, MatchResult, codes, map};
ghost use Rattle.serde_json.specs.View.{view};
ghost use Rattle.plan_check.specs.Answer.{IsJsonOf};
ghost use Rattle.plan_check.specs.Refusal.{AreNoNumbers, HasNoText, IsNoJson, ListsNoNumbers};
ghost use Rattle.plan_check.specs.Stated.{ListsNumbers, StatesText, whole};

use crate::error::AnswerError;
use crate::lookup::{items_in, text_in, value_at, whole_in};
use serde_json::Value;
use std::alloc::Global;

/// The value that a text of JSON has.
pub fn json_of(alloc: Global, text: &[u8]) -> Result<Value, AnswerError>
    ensures { MatchResult result (λ value. IsJsonOf text.now (view value)) (IsNoJson text.now) }
{
    match Value::from_slice(alloc, text) {
        Ok(value) => Ok(value),
        Err(error) => {
            if error.is_memory() {
                return Err(AnswerError::OutOfMemory);
            }
            Err(AnswerError::NoJson {
                line: error.line(),
                column: error.column(),
            })
        }
    }
}

/// The locations of an answer, counted from 1, if there are this many facilities.
pub fn locations_of(alloc: Global, value: &Value, size: usize) -> Result<Vec<u64>, AnswerError>
    ensures { MatchResult result
        (λ v. ListsNumbers (view value.now) (codes "permutation") v.items)
        (ListsNoNumbers size (view value.now)) }
{
    let Some(found) = value_at(value, "permutation") else {
        return Err(AnswerError::NoList);
    };
    let Some(items) = items_in(found) else {
        return Err(AnswerError::NoList);
    };
    numbers_of(alloc, items, size)
}

/// The whole numbers of a list.
fn numbers_of(alloc: Global, items: &[Value], size: usize) -> Result<Vec<u64>, AnswerError>
    ensures { MatchResult result (λ v. map view items.now ≡ map whole v.items) (AreNoNumbers size (map view items.now)) }
{
    let mut numbers = Vec::new(alloc);
    for (i, item) in items.iter().enumerate() {
        let Some(number) = whole_in(item) else {
            return Err(AnswerError::NoLocation {
                number: i + 1,
                size,
            });
        };
        if numbers.push(number).is_err() {
            return Err(AnswerError::OutOfMemory);
        }
    }
    Ok(numbers)
}

/// The text of a key.
pub fn text_of<'a>(value: &'a Value, key: &'static str) -> Result<&'a str, AnswerError>
    ensures { MatchResult result
        (λ text. StatesText (view value.now) key.now text.now)
        (HasNoText (view value.now) key.now) }
{
    let Some(found) = value_at(value, key) else {
        return Err(AnswerError::NoText { key });
    };
    let Some(text) = text_in(found) else {
        return Err(AnswerError::NoText { key });
    };
    Ok(text)
}
