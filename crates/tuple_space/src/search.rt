//! Which entry a template finds: the order in which entries are tried.

ghost use Rattle.std.specs.Prelude.{◌≡◌, ◌==◌, true, false, All, Contains, IfNone, IfSome, Some, count_by};
ghost use Rattle.tuple_space.specs.Entry.{is_counted};
ghost use Rattle.tuple_space.specs.Index.{AreIndexed, HasNoneWanted, IsUnwanted};
ghost use Rattle.tuple_space.specs.Places.{items_in};
ghost use Rattle.tuple_space.specs.Wanted.{is_wanted};
ghost use Rattle.tuple_space.specs.Rows.{IsRising};

use crate::admission::{can_be_had, is_counted};
use crate::entries::Entries;
use crate::entry::{Claim, Entry};
use crate::index::{Bucket, is_of, numbers_at, sought_slot, sought_word};
use crate::numbers::Numbers;
use tuple_match::Template;

/// Which entries are wanted, of those whose tuples match a template.
#[derive(Clone, Copy, Debug, PartialEq, Eq)]
pub(crate) enum Wanted {
    /// Those that a claim allows.
    Allowed(Claim),
    /// Those that are there.
    There,
}

/// Whether the entry is wanted, and its tuple matches the template.
fn is_wanted(entry: &Entry, wanted: Wanted, moment: u64, template: &Template) -> bool
    ensures { result ≡ is_wanted wanted moment template.now entry.now }
{
    match wanted {
        Wanted::Allowed(claim) => can_be_had(entry, claim, moment, template),
        Wanted::There => is_counted(entry, moment, template),
    }
}

/// The entry in a place, if it is wanted.
fn wanted_in<'a>(
    place: &'a Option<Entry>,
    wanted: Wanted,
    moment: u64,
    template: &Template,
) -> Option<&'a Entry>
    ensures none { IfNone result (IfSome place.now (λ e. is_wanted wanted moment template.now e ≡ false)) }
    ensures stands { IfSome result (λ e. place.now ≡ Some e.now) }
    ensures can { IfSome result (λ e. is_wanted wanted moment template.now e.now ≡ true) }
{
    let entry = place.as_ref()?;
    if is_wanted(entry, wanted, moment, template) {
        Some(entry)
    } else {
        None
    }
}

/// The newest wanted entry.
fn newest_wanted<'a>(
    places: &'a [Option<Entry>],
    wanted: Wanted,
    moment: u64,
    template: &Template,
) -> Option<&'a Entry>
    ensures none { IfNone result (All (λ e. is_wanted wanted moment template.now e ≡ false) (items_in places.now)) }
    ensures stands { IfSome result (λ e. Contains (items_in places.now) e.now) }
    ensures can { IfSome result (λ e. is_wanted wanted moment template.now e.now ≡ true) }
{
    for index in (0..places.len()).rev() {
        if let Some(entry) = wanted_in(&places[index], wanted, moment, template) {
            return Some(entry);
        }
    }
    None
}

/// The entry of a number, if it is wanted. It is looked up first in the place that is this far below the number.
fn entry_if_wanted<'a>(
    entries: &'a Entries,
    number: u64,
    shift: u64,
    wanted: Wanted,
    moment: u64,
    template: &Template,
) -> Option<&'a Entry>
    requires { IsRising entries.now.items }
    ensures none { IfNone result (IsUnwanted wanted moment template.now entries.now.items number) }
    ensures stands { IfSome result (λ e. Contains entries.now.items e.now) }
    ensures can { IfSome result (λ e. is_wanted wanted moment template.now e.now ≡ true) }
{
    let entry = entries.get_shifted(number, shift)?;
    if !is_wanted(entry, wanted, moment, template) {
        return None;
    }
    Some(entry)
}

/// How far the last of these numbers is above its place.
fn last_shift(entries: &Entries, numbers: &[u64]) -> u64 {
    match numbers.last() {
        Some(number) => entries.shift_of(*number),
        None => 0,
    }
}

/// The wanted entry whose number is last among these.
fn last_wanted<'a>(
    entries: &'a Entries,
    numbers: &[u64],
    wanted: Wanted,
    moment: u64,
    template: &Template,
) -> Option<&'a Entry>
    requires { IsRising entries.now.items }
    ensures none { IfNone result (All (IsUnwanted wanted moment template.now entries.now.items) numbers.now) }
    ensures stands { IfSome result (λ e. Contains entries.now.items e.now) }
    ensures can { IfSome result (λ e. is_wanted wanted moment template.now e.now ≡ true) }
{
    let shift = last_shift(entries, numbers);
    for i in (0..numbers.len()).rev() {
        if let Some(entry) = entry_if_wanted(entries, numbers[i], shift, wanted, moment, template) {
            return Some(entry);
        }
    }
    None
}

/// The wanted entry whose number is last in the last list that has one.
fn longest_wanted<'a>(
    entries: &'a Entries,
    lists: &[Numbers],
    wanted: Wanted,
    moment: u64,
    template: &Template,
) -> Option<&'a Entry>
    requires { IsRising entries.now.items }
    ensures none { IfNone result (All (All (IsUnwanted wanted moment template.now entries.now.items)) lists.now) }
    ensures stands { IfSome result (λ e. Contains entries.now.items e.now) }
    ensures can { IfSome result (λ e. is_wanted wanted moment template.now e.now ≡ true) }
{
    for i in (0..lists.len()).rev() {
        if let Some(entry) = last_wanted(entries, lists[i].as_slice(), wanted, moment, template) {
            return Some(entry);
        }
    }
    None
}

/// The wanted entry whose number is last in a bucket, if the bucket is that of a word and of the template's length: in
/// the slot of the second field, if the template specifies one.
fn wanted_in_bucket<'a>(
    entries: &'a Entries,
    bucket: &Bucket,
    word: &[u8],
    wanted: Wanted,
    moment: u64,
    template: &Template,
) -> Option<&'a Entry>
    requires { IsRising entries.now.items }
    ensures none { IfNone result (HasNoneWanted word.now wanted moment template.now entries.now.items bucket.now) }
    ensures stands { IfSome result (λ e. Contains entries.now.items e.now) }
    ensures can { IfSome result (λ e. is_wanted wanted moment template.now e.now ≡ true) }
{
    if !is_of(bucket, word, template.patterns().len()) {
        return None;
    }
    match sought_slot(template) {
        Some(slot) => last_wanted(entries, numbers_at(bucket, slot), wanted, moment, template),
        None => longest_wanted(entries, &bucket.by_length, wanted, moment, template),
    }
}

/// The wanted entry whose number is last in the bucket of a word and of the template's length.
fn wanted_of_word<'a>(
    entries: &'a Entries,
    buckets: &[Bucket],
    word: &[u8],
    wanted: Wanted,
    moment: u64,
    template: &Template,
) -> Option<&'a Entry>
    requires { IsRising entries.now.items }
    ensures none { IfNone result (All (HasNoneWanted word.now wanted moment template.now entries.now.items) buckets.now) }
    ensures stands { IfSome result (λ e. Contains entries.now.items e.now) }
    ensures can { IfSome result (λ e. is_wanted wanted moment template.now e.now ≡ true) }
{
    for i in 0..buckets.len() {
        if let Some(entry) = wanted_in_bucket(
            entries,
            &buckets[i],
            word,
            wanted,
            moment,
            template,
        ) {
            return Some(entry);
        }
    }
    None
}

/// A wanted entry. If the template begins with a word, it is one with the longest list as its second field, and the
/// newest of these; otherwise the newest.
pub(crate) fn find_wanted<'a>(
    entries: &'a Entries,
    buckets: &[Bucket],
    wanted: Wanted,
    moment: u64,
    template: &Template,
) -> Option<&'a Entry>
    requires rising { IsRising entries.now.items }
    requires indexed { AreIndexed buckets.now entries.now.items }
    ensures none { IfNone result (All (λ e. is_wanted wanted moment template.now e ≡ false) entries.now.items) }
    ensures stands { IfSome result (λ e. Contains entries.now.items e.now) }
    ensures can { IfSome result (λ e. is_wanted wanted moment template.now e.now ≡ true) }
{
    match sought_word(template) {
        Some(word) => wanted_of_word(entries, buckets, word, wanted, moment, template),
        None => newest_wanted(entries.as_slice(), wanted, moment, template),
    }
}

/// Whether no entry is there whose tuple matches the template.
pub(crate) fn is_lacking(
    entries: &Entries,
    buckets: &[Bucket],
    moment: u64,
    template: &Template,
) -> bool
    requires rising { IsRising entries.now.items }
    requires indexed { AreIndexed buckets.now entries.now.items }
    ensures { result ≡ (count_by (is_counted moment template.now) entries.now.items == 0) }
{
    match find_wanted(entries, buckets, Wanted::There, moment, template) {
        Some(_) => false,
        None => true,
    }
}
