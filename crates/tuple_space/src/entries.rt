//! Entries in order of number, each found by its number in one lookup.

ghost use Rattle.std.specs.Prelude.{◌≡◌, ◌≢◌, ◌<◌, ◌≤◌, ◌+◌, ◌==◌, ◌&&◌, ◌++◌, ◌∷◌, [], true, All, IfSome, IsOk, IsTrue, OnErr, OnOk, Some, filter, find, is_some, nat_eq, option_map};
ghost use Rattle.std.specs.List.{list_any};
ghost use Rattle.std.specs.Option.{option_copied};
ghost use Rattle.indexmap.specs.IndexMap.{get, spare, values};
ghost use Rattle.tuple_space.specs.Entry.{is_held_by, unheld};
ghost use Rattle.tuple_space.specs.Entries.{AreInPlaces};
ghost use Rattle.tuple_space.specs.Places.{holds_one, items_in};
ghost use Rattle.tuple_space.specs.Rows.{IsRising, changed, without};
ghost use Rattle.tuple_space.specs.Space.{held_by};
ghost use Rattle.tuple_space.specs.declared.entry.Entry.{Entry};

use crate::entry::Entry;
use crate::hasher::NumberHasher;
use crate::hold::Hold;
use crate::lease::LeaseEnd;
use indexmap::IndexMap;
use indexmap::map::IntoValues;
use std::alloc::{AllocError, Global};
use std::marker::Model;

/// This many places may be empty before any close up.
const FEW: usize = 64;

/// Places in order of number, each under its own.
type Places = IndexMap<u64, Option<Entry>, NumberHasher>;

/// Entries in order of number, each in a place under its own. The place of one that leaves stays empty until more than
/// 64 of them and a quarter of all are, when those after close up: one at a time would write all rows after it each
/// time, which other threads have read or written last.
#[derive(Debug, Drop)]
pub(crate) struct Entries {
    places: Places,
    /// How many places are empty.
    empty: usize,
}

impl Model for Entries {
    ghost use Rattle.indexmap.specs.IndexMap.{spare, values};
    ghost use Rattle.tuple_space.specs.Entries.{AreInPlaces, EntriesValue};
    ghost use Rattle.tuple_space.specs.Places.{items_in};

    ghost Value = { EntriesValue };

    ghost view = { λ e. record { items = items_in (values e.places); room = spare e.places } };

    ghost invariant = { λ e. AreInPlaces e.places.entries };
}

/// Sets the end of the lease of the entry in a place.
fn set_end_in(place: &mut Option<Entry>, end: LeaseEnd)
    ensures { place.new ≡ option_map (λ (e : Entry). record e { end = end }) place.old }
{
    if let Some(entry) = place {
        entry.end = end;
    }
}

/// Holds an entry.
fn hold_entry(entry: &mut Entry, holder: u64, taken: bool) -> Result<(), AllocError>
    ensures ok { OnOk result (entry.new ≡ held_by holder taken entry.old) }
    ensures err { OnErr result (entry.new ≡ entry.old) }
    ensures ready { is_held_by holder entry.old ≡ true → IsOk result }
{
    let permanent = entry.end.is_permanent();
    entry.holds.put(Hold {
        by: holder,
        taken,
        permanent,
    })?;
    Ok(())
}

/// Holds the entry in a place.
fn hold_in(place: &mut Option<Entry>, holder: u64, taken: bool) -> Result<(), AllocError>
    ensures ok { OnOk result (place.new ≡ option_map (held_by holder taken) place.old) }
    ensures err { OnErr result (place.new ≡ place.old) }
    ensures ready { holds_one (is_held_by holder) place.old ≡ true → IsOk result }
{
    match place {
        Some(entry) => hold_entry(entry, holder, taken),
        None => Ok(()),
    }
}

/// Ends a holder's holds of the entry in a place.
fn release_in(place: &mut Option<Entry>, holder: u64)
    ensures { place.new ≡ option_map (unheld holder) place.old }
{
    if let Some(entry) = place {
        entry.holds.release(holder);
    }
}

/// What the place at an index holds, where it is that of a number.
fn place_at(places: &Places, index: usize, number: u64) -> Option<&Option<Entry>>
    ensures { IfSome result (λ place. Some place.now ≡ get nat_eq places.now number) }
{
    let (key, place) = places.get_index(index)?;
    if *key != number {
        return None;
    }
    Some(place)
}

/// Whether the number is above those of all places.
fn is_above_all(number: u64, places: &Places) -> bool
    requires { AreInPlaces places.now.entries }
    ensures { IsTrue result → All (λ p. p.0 < number) places.now.entries }
{
    match places.last() {
        Some((&last, _)) => last < number,
        None => true,
    }
}

/// Drops the places that are empty.
fn close_up(places: &mut Places)
    ensures entries { places.new.entries ≡ filter (λ p. is_some p.1) places.old.entries }
    ensures room { spare places.old ≤ spare places.new }
{
    places.retain(
        |_number: &u64, place: &mut Option<Entry>| -> bool
            ensures { (result ≡ is_some place.old) × (place.new ≡ place.old) }
        { place.is_some() },
    );
}

/// Compacts the places if a number above those of all entries is not above those of all places, and returns how many
/// are then empty.
fn make_way(number: u64, places: &mut Places, empty: usize) -> usize
    requires places { AreInPlaces places.old.entries }
    requires new { All (λ e. e.number < number) (items_in (values places.old)) }
    ensures places { AreInPlaces places.new.entries }
    ensures items { items_in (values places.new) ≡ items_in (values places.old) }
    ensures above { All (λ p. p.0 < number) places.new.entries }
    ensures room { spare places.old ≤ spare places.new }
{
    if is_above_all(number, places) {
        return empty;
    }
    close_up(places);
    0
}

impl Entries {
    /// No entries. Allocates nothing.
    pub(crate) fn new(alloc: Global) -> Entries
        ensures { result.items ≡ [] }
    {
        Entries {
            places: IndexMap::with_hasher(alloc, NumberHasher::new()),
            empty: 0,
        }
    }

    /// Where the memory comes from.
    pub(crate) fn allocator(&self) -> Global {
        *self.places.allocator()
    }

    /// The places, in order of number: each holds an entry or is empty.
    pub(crate) fn as_slice(&self) -> &[Option<Entry>]
        ensures { items_in result.now ≡ self.now.items }
    {
        self.places.values().as_slice()
    }

    /// Makes room for more entries.
    pub(crate) fn reserve(&mut self, additional: usize) -> Result<(), AllocError>
        ensures items { self.new.items ≡ self.old.items }
        ensures room { OnOk result (additional ≤ self.new.room) }
    {
        self.places.reserve(additional)
    }

    /// Appends an entry whose number is above those of the others, if there is capacity for it.
    pub(crate) fn push(&mut self, entry: Entry)
        requires room { 0 < self.old.room }
        requires new { All (λ e. e.number < entry.number) self.old.items }
        ensures items { self.new.items ≡ self.old.items ++ entry ∷ [] }
        ensures room { self.old.room ≤ self.new.room + 1 }
    {
        self.empty = make_way(entry.number, &mut self.places, self.empty);
        self.places.insert(entry.number, Some(entry)).unwrap();
    }

    /// The entry of a number.
    pub(crate) fn get(&self, number: u64) -> Option<&Entry>
        ensures { option_copied result ≡ find (λ e. e.number == number) self.now.items }
    {
        match self.places.get(&number) {
            Some(place) => place.as_ref(),
            None => None,
        }
    }

    /// How far the number is above its place, if it has one: as far as those beside it, unless entries between them
    /// have left.
    pub(crate) fn shift_of(&self, number: u64) -> u64 {
        match self.places.get_index_of(&number) {
            Some(place) => number.saturating_sub(place as u64),
            None => 0,
        }
    }

    /// The entry of a number, which is looked for first in the place that is this far below it, and then by its hash. So a walk
    /// over many numbers that follow each other reads the places in order.
    pub(crate) fn get_shifted(&self, number: u64, shift: u64) -> Option<&Entry>
        ensures { option_copied result ≡ find (λ e. e.number == number) self.now.items }
    {
        match place_at(&self.places, number.saturating_sub(shift) as usize, number) {
            Some(place) => place.as_ref(),
            None => self.get(number),
        }
    }

    /// Takes out the entry of a number.
    pub(crate) fn remove(&mut self, number: u64) -> Option<Entry>
        ensures value { result ≡ find (λ e. e.number == number) self.old.items }
        ensures rest { self.new.items ≡ without number self.old.items }
    {
        let entry = self.take(number);
        self.close_up_many();
        entry
    }

    /// Takes out the entry of a number, whose place is empty then.
    fn take(&mut self, number: u64) -> Option<Entry>
        ensures value { result ≡ find (λ e. e.number == number) self.old.items }
        ensures rest { self.new.items ≡ without number self.old.items }
    {
        let Some(index) = self.places.get_index_of(&number) else {
            return None;
        };
        let Some(place) = self.places.get_index_mut(index) else {
            unreachable!()
        };
        self.empty = self.empty.saturating_add(1);
        place.take()
    }

    /// Lets the places close up where many of them are empty.
    fn close_up_many(&mut self)
        ensures { self.new.items ≡ self.old.items }
    {
        if self.empty > FEW && self.empty > self.places.len() / 4 {
            close_up(&mut self.places);
            self.empty = 0;
        }
    }

    /// Sets the end of the lease of the entry of a number.
    pub(crate) fn set_end(&mut self, number: u64, end: LeaseEnd)
        ensures { self.new.items ≡ changed number (λ e. record e { end = end }) self.old.items }
    {
        let Some(index) = self.places.get_index_of(&number) else {
            return;
        };
        let Some(place) = self.places.get_index_mut(index) else {
            unreachable!()
        };
        set_end_in(place, end);
    }

    /// Holds the entry of a number, in the place of the holder's older hold of it, which allocates nothing.
    pub(crate) fn hold(&mut self, number: u64, holder: u64, taken: bool) -> Result<(), AllocError>
        ensures ok { OnOk result (self.new.items ≡ changed number (held_by holder taken) self.old.items) }
        ensures err { OnErr result (self.new.items ≡ self.old.items) }
        ensures ready { list_any (λ e. (e.number == number) && is_held_by holder e) self.old.items ≡ true → IsOk result }
    {
        let Some(index) = self.places.get_index_of(&number) else {
            return Ok(());
        };
        let Some(place) = self.places.get_index_mut(index) else {
            unreachable!()
        };
        hold_in(place, holder, taken)
    }

    /// Ends a holder's holds of the entry of a number.
    pub(crate) fn release(&mut self, number: u64, holder: u64)
        ensures { self.new.items ≡ changed number (unheld holder) self.old.items }
    {
        let Some(index) = self.places.get_index_of(&number) else {
            return;
        };
        let Some(place) = self.places.get_index_mut(index) else {
            unreachable!()
        };
        release_in(place, holder);
    }

    /// The places by value, in order of number.
    pub(crate) fn into_values(self) -> IntoValues<u64, Option<Entry>>
        ensures { items_in result ≡ self.items }
    {
        let Entries { places, empty: _ } = self;
        places.into_values()
    }
}
