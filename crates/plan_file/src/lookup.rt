//! The values of a TOML table as the data that contracts see.

ghost use Rattle.std.specs.Prelude.{◌≡◌, ◌≢◌, ℕ, ℤ, Bool, List, MatchOption, Some};
ghost use Rattle.toml.specs.Data.{Items, Members, array, boolean, get_member, integer, string, table as table_of};
ghost use Rattle.toml.specs.View.{items_view, table_view, view};
ghost use Rattle.plan_file.specs.Keys.{HasNone};

use toml::{Table, Value};

/// The value at a key.
pub fn value_at<'a>(table: &'a Table, key: &str) -> Option<&'a Value>
    ensures { MatchOption result (HasNone (table_view table.now) key.now) (λ value. get_member key.now (table_view table.now) ≡ Some (view value.now)) }
{
    table.get(key)
}

/// The text that a value is.
pub fn text_in(value: &Value) -> Option<&str>
    ensures { MatchOption result ((text : List ℕ) → view value.now ≢ string text) (λ text. view value.now ≡ string text.now) }
{
    value.as_str()
}

/// The whole number that a value is.
pub fn number_in(value: &Value) -> Option<i64>
    ensures { MatchOption result ((number : ℤ) → view value.now ≢ integer number) (λ number. view value.now ≡ integer number) }
{
    value.as_integer()
}

/// The truth value in a value.
pub fn bool_in(value: &Value) -> Option<bool>
    ensures { MatchOption result ((said : Bool) → view value.now ≢ boolean said) (λ said. view value.now ≡ boolean said) }
{
    value.as_bool()
}

/// The items of the list that a value is.
pub fn items_in(value: &Value) -> Option<&[Value]>
    ensures { MatchOption result ((items : Items) → view value.now ≢ array items) (λ items. view value.now ≡ array (items_view items.now)) }
{
    match value.as_array() {
        Some(items) => Some(items),
        None => None,
    }
}

/// The table that a value is.
pub fn table_in(value: &Value) -> Option<&Table>
    ensures { MatchOption result ((members : Members) → view value.now ≢ table_of members) (λ table. view value.now ≡ table_of (table_view table.now)) }
{
    value.as_table()
}
