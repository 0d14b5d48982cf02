//! Permanent tuples, extracted from their entries.

ghost use Rattle.std.specs.Prelude.{◌≡◌, ◌≤◌, [], length, vec_capacity};
ghost use Rattle.tuple_space.specs.Rows.{permanent_tuples};

use crate::entries::Entries;
use tuple_match::Tuple;

/// Moves the permanent tuples of entries to a list with capacity for them.
pub(crate) fn permanent_of(entries: Entries, room: Vec<Tuple>) -> Vec<Tuple>
    requires empty { room.items ≡ [] }
    requires enough { length entries.items ≤ vec_capacity room }
    ensures { result.items ≡ permanent_tuples entries.items }
{
    let mut tuples = room;
    for place in entries.into_values() {
        let Some(entry) = place else {
            continue;
        };
        if entry.end.is_permanent() {
            tuples.push(entry.tuple).unwrap();
        }
    }
    tuples
}
