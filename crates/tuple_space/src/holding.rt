//! The effect of holding entries on rows of them.

ghost use Rattle.std.specs.Prelude.{◌≡◌, All, ◌+◌, ◌≤◌, ◌==◌, ◌&&◌, false, [], ◌∷◌};
ghost use Rattle.std.specs.List.{list_any};
ghost use Rattle.tuple_space.specs.Entry.{is_held_by, is_shared};
ghost use Rattle.tuple_space.specs.Held.{HasHeld};
ghost use Rattle.tuple_space.specs.Index.{AreIndexed};
ghost use Rattle.tuple_space.specs.Rows.{IsRising, edited_at};
ghost use Rattle.tuple_space.specs.Space.{most, released, space_of, stays_without, without_taken};
ghost use Rattle.tuple_space.specs.Places.{items_in};
ghost use Rattle.tuple_space.specs.Writes.{put_count, put_each};

use crate::entries::Entries;
use crate::entry::Entry;
use crate::held::Held;
use crate::hold::Holds;
use crate::index::Bucket;
use crate::rows::take_number;
use crate::write::{Rows, Write, Writes, withdrawn};

/// Whether a holder holds the entry of a number.
pub(crate) fn is_entry_held_by(entries: &Entries, number: u64, holder: u64) -> bool
    requires { IsRising entries.now.items }
    ensures { result ≡ list_any (λ e. (e.number == number) && is_held_by holder e) entries.now.items }
{
    match entries.get(number) {
        Some(entry) => entry.holds.is_held_by(holder),
        None => false,
    }
}

/// Whether an entry stays where a holder's hold of it ends.
pub(crate) fn stays_without(entry: &Entry, holder: u64, moment: u64) -> bool
    ensures { result ≡ stays_without holder moment entry.now }
{
    if !entry.holds.is_held_by(holder) {
        return true;
    }
    entry.end.is_live(moment) || entry.holds.is_held_besides(holder)
}

/// Ends the holds of a holder, and drops the entries that go with them, where these rows tell who holds which entries.
pub(crate) fn release_all(
    entries: &mut Entries,
    buckets: &mut Vec<Bucket>,
    held: &[Held],
    holder: u64,
    moment: u64,
)
    requires rising { IsRising entries.old.items }
    requires held { HasHeld held.now entries.old.items }
    requires indexed { AreIndexed buckets.old.items entries.old.items }
    ensures released { entries.new.items ≡ released holder moment entries.old.items }
    ensures indexed { AreIndexed buckets.new.items entries.new.items }
{
    for row in held {
        if row.by == holder {
            release_number(entries, buckets, row.entry, holder, moment);
        }
    }
}

/// Ends a holder's hold of the entry of a number, and drops the entry where it goes with it.
fn release_number(
    entries: &mut Entries,
    buckets: &mut Vec<Bucket>,
    number: u64,
    holder: u64,
    moment: u64,
)
    requires rising { IsRising entries.old.items }
    requires indexed { AreIndexed buckets.old.items entries.old.items }
    ensures edited { entries.new.items ≡ edited_at number (released holder moment) entries.old.items }
    ensures indexed { AreIndexed buckets.new.items entries.new.items }
{
    let Some(entry) = entries.get(number) else {
        return;
    };
    if stays_without(entry, holder, moment) {
        entries.release(number, holder);
    } else {
        take_number(entries, buckets, number);
    }
}

/// Whether somebody else holds the entry of a number, which a holder took.
fn is_shared(entries: &Entries, number: u64, holder: u64) -> bool
    requires { IsRising entries.now.items }
    ensures { result ≡ list_any (λ e. (e.number == number) && is_shared holder e) entries.now.items }
{
    match entries.get(number) {
        Some(entry) => is_entry_shared(entry, holder),
        None => false,
    }
}

/// Whether somebody else holds an entry that a holder took.
fn is_entry_shared(entry: &Entry, holder: u64) -> bool
    ensures { result ≡ is_shared holder entry.now }
{
    entry.holds.is_taken_by(holder) && entry.holds.is_held_besides(holder)
}

/// Whether somebody else holds one of the entries that a holder took, where these rows tell who holds which entries.
pub(crate) fn is_any_shared(entries: &Entries, held: &[Held], holder: u64) -> bool
    requires rising { IsRising entries.now.items }
    requires held { HasHeld held.now entries.now.items }
    ensures { result ≡ false → All (λ e. is_shared holder e ≡ false) entries.now.items }
{
    for place in 0..held.len() {
        let row = held[place];
        if row.by == holder && is_shared(entries, row.entry, holder) {
            return true;
        }
    }
    false
}

/// Drops the entries that a holder took, where these rows tell who holds which entries.
pub(crate) fn drop_taken(
    entries: &mut Entries,
    buckets: &mut Vec<Bucket>,
    held: &[Held],
    holder: u64,
)
    requires rising { IsRising entries.old.items }
    requires held { HasHeld held.now entries.old.items }
    requires indexed { AreIndexed buckets.old.items entries.old.items }
    ensures taken { entries.new.items ≡ without_taken holder entries.old.items }
    ensures indexed { AreIndexed buckets.new.items entries.new.items }
{
    for row in held {
        if row.by == holder {
            drop_taken_number(entries, buckets, row.entry, holder);
        }
    }
}

/// Drops the entry of a number where a holder took it.
fn drop_taken_number(entries: &mut Entries, buckets: &mut Vec<Bucket>, number: u64, holder: u64)
    requires rising { IsRising entries.old.items }
    requires indexed { AreIndexed buckets.old.items entries.old.items }
    ensures edited { entries.new.items ≡ edited_at number (without_taken holder) entries.old.items }
    ensures indexed { AreIndexed buckets.new.items entries.new.items }
{
    let Some(entry) = entries.get(number) else {
        return;
    };
    if entry.holds.is_taken_by(holder) {
        take_number(entries, buckets, number);
    }
}

/// How many writes are written.
pub(crate) fn count_puts(writes: &Writes) -> usize
    ensures { result ≡ put_count writes.now }
{
    let mut count = 0;
    for place in 0..writes.len() {
        if !writes.at(place).taken {
            count += 1;
        }
    }
    count
}

/// Writes what a place holds, if there is capacity for it, and returns the last number given.
fn put_row(entries: &mut Entries, row: Option<Write>, moment: u64, last: u64) -> u64
    requires early { moment ≤ most }
    requires few { last + put_count (items_in (row ∷ [])) ≤ most }
    requires room { put_count (items_in (row ∷ [])) ≤ entries.old.room }
    requires new { All (λ e. e.number ≤ last) entries.old.items }
    ensures put { space_of entries.new.items moment result ≡ put_each (space_of entries.old.items moment last) (items_in (row ∷ [])) }
    ensures number { result ≡ last + put_count (items_in (row ∷ [])) }
    ensures room { entries.old.room ≤ entries.new.room + put_count (items_in (row ∷ [])) }
    ensures new { All (λ e. e.number ≤ result) entries.new.items }
{
    let Some(write) = row else {
        return last;
    };
    if write.taken {
        return last;
    }
    let number = last + 1;
    let holds = Holds::new(entries.allocator());
    let end = write.lease.granted(moment);
    let tuple = write.tuple;
    entries.push(Entry {
        number,
        tuple,
        end,
        holds,
    });
    number
}

/// Writes tuples in order, if there is capacity for them, and returns the last number given. Their places are then
/// empty, and keep their memory.
pub(crate) fn put_rows(entries: &mut Entries, rows: &mut Rows, moment: u64, last: u64) -> u64
    requires early { moment ≤ most }
    requires few { last + put_count (items_in rows.old.items) ≤ most }
    requires room { put_count (items_in rows.old.items) ≤ entries.old.room }
    requires new { All (λ e. e.number ≤ last) entries.old.items }
    ensures put { space_of entries.new.items moment result ≡ put_each (space_of entries.old.items moment last) (items_in rows.old.items) }
    ensures emptied { rows.new.items ≡ [] }
    ensures memory { rows.new.capacity ≡ rows.old.capacity }
{
    let mut number = last;
    for place in 0..rows.len() {
        let row = withdrawn(rows, place);
        number = put_row(entries, row, moment, number);
    }
    rows.clear();
    number
}
