//! Entries in ascending order of number.

ghost use Rattle.std.specs.Prelude.{◌≡◌, ◌==◌, ◌&&◌, true, false, MatchBool, count_by, find};
ghost use Rattle.std.specs.List.{list_any};
ghost use Rattle.tuple_space.specs.Lease.{is_live, later};
ghost use Rattle.tuple_space.specs.Entry.{is_counted};
ghost use Rattle.tuple_space.specs.Index.{AreIndexed};
ghost use Rattle.tuple_space.specs.Places.{holds_one};
ghost use Rattle.tuple_space.specs.Rows.{IsRising, changed, has_number, with_end, without};

use crate::admission::is_counted_in;
use crate::entries::Entries;
use crate::entry::Entry;
use crate::index::{Bucket, drop_entry};
use crate::lease::LeaseEnd;
use tuple_match::Template;

/// Whether there is an entry of a number.
pub(crate) fn has_number(entries: &Entries, number: u64) -> bool
    ensures { result ≡ has_number number entries.now.items }
{
    entries.get(number).is_some()
}

/// Takes out the entry of a number, and the number out of its bucket.
pub(crate) fn take_number(
    entries: &mut Entries,
    buckets: &mut Vec<Bucket>,
    number: u64,
) -> Option<Entry>
    requires rising { IsRising entries.old.items }
    requires indexed { AreIndexed buckets.old.items entries.old.items }
    ensures value { result ≡ find (λ e. e.number == number) entries.old.items }
    ensures rest { entries.new.items ≡ without number entries.old.items }
    ensures indexed { AreIndexed buckets.new.items entries.new.items }
{
    let entry = entries.remove(number)?;
    drop_entry(buckets, &entry.tuple, entry.number);
    Some(entry)
}

/// Moves the end of a live entry's lease to a later one, and returns whether there is such an entry.
pub(crate) fn change_end(entries: &mut Entries, number: u64, moment: u64, end: LeaseEnd) -> bool
    requires { IsRising entries.old.items }
    ensures is_live { result ≡ list_any (λ e. (e.number == number) && is_live moment e.end) entries.old.items }
    ensures changed { MatchBool result (entries.new.items ≡ changed number (with_end end) entries.old.items) (entries.new.items ≡ entries.old.items) }
{
    let Some(entry) = entries.get(number) else {
        return false;
    };
    if !entry.end.is_live(moment) {
        return false;
    }
    let later = entry.end.later(end);
    entries.set_end(number, later);
    true
}

/// How many places hold an entry that is there and whose tuple matches the template.
fn count_in(places: &[Option<Entry>], moment: u64, template: &Template) -> usize
    ensures { result ≡ count_by (holds_one (is_counted moment template.now)) places.now }
{
    places
        .iter()
        .filter(|place| is_counted_in(place, moment, template))
        .count()
}

/// How many entries are there whose tuples match the template.
pub(crate) fn count_of(entries: &Entries, moment: u64, template: &Template) -> u64
    ensures { result ≡ count_by (is_counted moment template.now) entries.now.items }
{
    count_in(entries.as_slice(), moment, template) as u64
}
