//! The marks that a transaction has put on entries.

ghost use Rattle.std.specs.Prelude.{◌≡◌, ◌≤◌, ◌<◌, ◌≢◌, ◌↔◌, ◌==◌, IsTrue, drop, is_some, find, true, List, Some, MatchBool, MatchOption, length};
ghost use Rattle.std.specs.List.{AllPairs, AllWithin, HoldsAt, cons_option, filter_map};
ghost use Rattle.std.specs.Option.{option_copied};
ghost use Rattle.space_txn.specs.declared.mark.Mark.{Mark};
ghost use Rattle.space_txn.specs.Marks.{mark_from, mark_in, mark_of, marks_of, with_mark};

use crate::marks::Marks;
use tuple_match::Tuple;
use tuple_space::{Entry, Held, Hold, Space};

/// This many marks are looked up by their numbers alone.
const FEW: usize = 8;

/// A transaction's mark on an entry: that it took or read it.
#[derive(Debug, Drop)]
pub struct Mark {
    /// The entry's number.
    pub entry: u64,
    /// The entry's tuple.
    pub tuple: Tuple,
    /// Whether the transaction took the entry; else it read it.
    pub taken: bool,
    /// Whether the entry was permanent when it was marked so.
    pub permanent: bool,
}

/// Whether a mark is that of a hold of an entry.
fn is_mark_of(mark: &Mark, entry: &Entry, hold: &Hold) -> bool
    ensures { IsTrue result ↔ (mark.now ≡ mark_from entry.now hold.now) }
{
    mark.entry == entry.number
        && mark.taken == hold.taken
        && mark.permanent == hold.permanent
        && mark.tuple == entry.tuple
}

/// The position after a transaction's mark on an entry, if it has one there, or `None` if another mark is at the place.
fn place_behind(marks: &Marks, place: usize, entry: &Entry, number: u64) -> Option<usize>
    requires { place ≤ length marks.now.items }
    ensures { MatchOption result
        ((behind : List Mark) → drop place marks.now.items ≢ cons_option (mark_of number entry.now) behind)
        (λ next. (next ≤ length marks.now.items) × (drop place marks.now.items ≡ cons_option (mark_of number entry.now) (drop next marks.now.items))) }
{
    let Some(hold) = entry.holds.hold_of(number) else {
        return Some(place);
    };
    if place >= marks.len() || !is_mark_of(marks.at(place), entry, hold) {
        return None;
    }
    Some(place + 1)
}

/// The position after a transaction's mark on the entry of a row, if the row is its own, there is such an entry and it
/// has a mark there, or `None` if another mark is at the place. The entry is looked for first in the place that is this
/// far below its number.
fn place_behind_row(
    marks: &Marks,
    place: usize,
    space: &Space,
    shift: u64,
    row: Held,
    number: u64,
) -> Option<usize>
    requires { place ≤ length marks.now.items }
    ensures { MatchOption result
        ((behind : List Mark) → drop place marks.now.items ≢ cons_option (mark_in number space.now.entries row) behind)
        (λ next. (next ≤ length marks.now.items) × (drop place marks.now.items ≡ cons_option (mark_in number space.now.entries row) (drop next marks.now.items))) }
{
    if row.by != number {
        return Some(place);
    }
    match space.entry_shifted(row.entry, shift) {
        Some(entry) => place_behind(marks, place, entry, number),
        None => Some(place),
    }
}

/// How far the first mark's number is above the place of its entry, if there are many marks; a few are looked up by
/// their numbers.
fn first_shift(marks: &Marks, space: &Space) -> u64 {
    if marks.len() > FEW {
        space.shift_of(marks.at(0).entry)
    } else {
        0
    }
}

/// Whether these are the marks that a transaction has put on the entries of its rows among these.
fn are_marks_at(marks: &Marks, space: &Space, rows: &[Held], number: u64) -> bool
    ensures { IsTrue result ↔ (marks.now.items ≡ filter_map (mark_in number space.now.entries) rows.now) }
{
    let shift = first_shift(marks, space);
    let mut place = 0;
    for row in rows {
        let Some(behind) = place_behind_row(marks, place, space, shift, *row, number) else {
            return false;
        };
        place = behind;
    }
    place == marks.len()
}

/// Whether these are the marks that a transaction has put on the entries of a space.
pub(crate) fn are_marks_in(space: &Space, marks: &Marks, number: u64) -> bool
    ensures { IsTrue result ↔ (marks.now.items ≡ marks_of number space.now.entries) }
{
    are_marks_at(marks, space, space.held(), number)
}

/// The place of the first mark on an entry of this number or a greater one.
fn mark_place(marks: &Marks, number: u64) -> usize
    ensures within { result ≤ length marks.now.items }
    ensures before { AllWithin (λ m. m.entry < number) marks.now.items 0 result }
    ensures at { result < length marks.now.items → HoldsAt (λ m. number ≤ m.entry) marks.now.items result }
    ensures rising { AllPairs (λ m n. m.entry < n.entry) marks.now.items }
{
    let mut low = 0;
    let mut high = marks.len();
    while low < high {
        let middle = low + (high - low) / 2;
        if marks.at(middle).entry < number {
            low = middle + 1;
        } else {
            high = middle;
        }
    }
    low
}

/// Whether the mark at a position is on the entry of this number.
fn is_mark_at(marks: &Marks, place: usize, number: u64) -> bool
    ensures { MatchBool result
        ((place < length marks.now.items) × HoldsAt (λ m. m.entry ≡ number) marks.now.items place)
        (place < length marks.now.items → HoldsAt (λ m. m.entry ≢ number) marks.now.items place) }
{
    if place >= marks.len() {
        return false;
    }
    marks.at(place).entry == number
}

/// The mark on the entry of this number.
pub(crate) fn mark_on(marks: &Marks, number: u64) -> Option<&Mark>
    ensures { option_copied result ≡ find (λ m. m.entry == number) marks.now.items }
{
    let place = mark_place(marks, number);
    if !is_mark_at(marks, place, number) {
        return None;
    }
    Some(marks.at(place))
}

/// Whether one of the marks is on the entry of this number.
pub(crate) fn has_mark_on(marks: &Marks, number: u64) -> bool
    ensures { result ≡ is_some (find (λ m. m.entry == number) marks.now.items) }
{
    match mark_on(marks, number) {
        Some(_) => true,
        None => false,
    }
}

/// Inserts a mark, or replaces an older one on the same entry, if there is capacity for it.
pub(crate) fn put_mark(marks: &mut Marks, mark: Mark)
    requires { 0 < marks.old.room }
    ensures { marks.new.items ≡ with_mark mark marks.old.items }
{
    let place = mark_place(marks, mark.entry);
    if is_mark_at(marks, place, mark.entry) {
        marks.set(place, mark);
        return;
    }
    marks.insert(place, mark);
}

/// Turns the mark on the entry of this number, if there is one, into a mark that takes it. Allocates nothing.
pub(crate) fn take_mark(marks: &mut Marks, number: u64, permanent: bool)
    requires rising { AllPairs (λ m n. m.entry < n.entry) marks.old.items }
    requires marked { is_some (find (λ m. m.entry == number) marks.old.items) ≡ true }
    ensures { (m : Mark) → find (λ m. m.entry == number) marks.old.items ≡ Some m →
        marks.new.items ≡ with_mark (record m { taken = true; permanent = permanent }) marks.old.items }
{
    let place = mark_place(marks, number);
    marks.take(place, permanent);
}
