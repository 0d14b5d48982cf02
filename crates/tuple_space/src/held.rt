//! Which entries each holder holds, by number.

ghost use Rattle.std.specs.Prelude.{ℕ, ◌≡◌, ◌≢◌, ◌<◌, ◌≤◌, ◌+◌, ◌==◌, ◌||◌, ◌&&◌, MatchBool, filter, length, not, vec_capacity, vec_len};
ghost use Rattle.std.specs.List.{AllWithin, HoldsAt};
ghost use Rattle.tuple_space.specs.Held.{AreRising, is_among, numbers_by, stays_noted};

use crate::entries::Entries;
use crate::rows::has_number;

/// That somebody holds an entry.
#[derive(Clone, Copy, Debug, PartialEq, Eq)]
pub struct Held {
    /// The number of the entry.
    pub entry: u64,
    /// The number of the holder.
    pub by: u64,
}

/// The position of the first row of the same holder whose entry's number is not lower; if there is none, how many rows
/// there are.
fn place_for(rows: &[Held], new: Held) -> usize
    ensures within { result ≤ length rows.now }
    ensures before { AllWithin (λ r. r.by ≡ new.by → r.entry < new.entry) rows.now 0 result }
    ensures at { result < length rows.now → HoldsAt (λ r. (r.by ≡ new.by) × (new.entry ≤ r.entry)) rows.now result }
{
    for place in 0..rows.len() {
        if rows[place].by == new.by && rows[place].entry >= new.entry {
            return place;
        }
    }
    rows.len()
}

/// Whether the row at a position is on the entry of this number.
fn is_row_at(rows: &[Held], place: usize, number: u64) -> bool
    ensures { MatchBool result
        ((place < length rows.now) × HoldsAt (λ r. r.entry ≡ number) rows.now place)
        (place < length rows.now → HoldsAt (λ r. r.entry ≢ number) rows.now place) }
{
    if place >= rows.len() {
        return false;
    }
    rows[place].entry == number
}

/// Inserts a row, if there is capacity for it, unless it is already there.
pub(crate) fn add_held(rows: &mut Vec<Held>, new: Held)
    requires rising { (holder : ℕ) → AreRising (numbers_by holder rows.old.items) }
    requires room { vec_len rows.old + 1 ≤ vec_capacity rows.old }
    ensures rising { (holder : ℕ) → AreRising (numbers_by holder rows.new.items) }
    ensures among { (holder n : ℕ) →
        is_among n (numbers_by holder rows.new.items) ≡ (((new.by == holder) && (n == new.entry)) || is_among n (numbers_by holder rows.old.items)) }
{
    let place = place_for(rows, new);
    if is_row_at(rows, place, new.entry) {
        return;
    }
    rows.insert(place, new).unwrap();
}

/// Drops the rows of an entry.
pub(crate) fn drop_rows_of(rows: &mut Vec<Held>, number: u64)
    ensures { rows.new.items ≡ filter (λ r. not (r.entry == number)) rows.old.items }
{
    rows.retain(|row| row.entry != number);
}

/// Drops the rows of entries that are gone: those of a holder, and if requested those of all others too, which is then
/// looked up for each row.
pub(crate) fn drop_rows_gone(rows: &mut Vec<Held>, entries: &Entries, holder: u64, all: bool)
    ensures { rows.new.items ≡ filter (stays_noted holder all entries.now.items) rows.old.items }
{
    rows.retain(|row| is_row_left(row, entries, holder, all));
}

/// Whether a row stays where entries are gone.
fn is_row_left(row: &Held, entries: &Entries, holder: u64, all: bool) -> bool
    ensures { result ≡ stays_noted holder all entries.now.items row.now }
{
    !all && row.by != holder || has_number(entries, row.entry)
}

/// Drops the rows of a holder.
pub(crate) fn drop_rows_by(rows: &mut Vec<Held>, holder: u64)
    ensures { rows.new.items ≡ filter (λ r. not (r.by == holder)) rows.old.items }
{
    rows.retain(|row| row.by != holder);
}
