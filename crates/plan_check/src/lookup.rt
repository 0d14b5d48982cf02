//! JSON values as the data that contracts see.

ghost use Rattle.std.specs.Prelude.{◌≡◌, ◌≢◌, ◌↔◌, ℕ, IsTrue, List, MatchOption, None, Some};
ghost use Rattle.serde_json.specs.Data.{Data, array, string};
ghost use Rattle.serde_json.specs.Find.{get};
ghost use Rattle.serde_json.specs.View.{items_of, items_view, view};
ghost use Rattle.plan_check.specs.Stated.{whole};

use serde_json::Value;

/// The value at a key.
pub fn value_at<'a>(value: &'a Value, key: &'static str) -> Option<&'a Value>
    ensures { MatchOption result
        (get key.now (view value.now) ≡ None)
        (λ found. get key.now (view value.now) ≡ Some (view found.now)) }
{
    value.get(key)
}

/// The text that a value is.
pub fn text_in(value: &Value) -> Option<&str>
    ensures { MatchOption result ((text : List ℕ) → view value.now ≢ string text) (λ text. view value.now ≡ string text.now) }
{
    value.as_str()
}

/// Whether a value is this text.
pub fn is_text(value: &Value, text: &str) -> bool
    ensures { IsTrue result ↔ (view value.now ≡ string text.now) }
{
    match text_in(value) {
        Some(found) => *found.as_bytes() == *text.as_bytes(),
        None => false,
    }
}

/// The whole number, none below zero, that a value is.
pub fn whole_in(value: &Value) -> Option<u64>
    ensures { MatchOption result ((n : ℕ) → view value.now ≢ whole n) (λ n. view value.now ≡ whole n) }
{
    value.as_u64()
}

/// The items of the list that a value is.
pub fn items_in(value: &Value) -> Option<&[Value]>
    ensures { MatchOption result
        ((ds : List Data) → view value.now ≢ array (items_of ds))
        (λ items. view value.now ≡ array (items_view items.now)) }
{
    match value.as_array() {
        Some(items) => Some(items),
        None => None,
    }
}
