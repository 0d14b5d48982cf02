//! The space and its calls.

ghost use Rattle.std.specs.Prelude.{◌≡◌, ◌≤◌, ◌+◌, ◌^◌, ◌==◌, ◌&&◌, [], true, IsOk, IfErr, IfSome, IfNone, IfOk, OnErr, OnOk, count_by, find, option_map};
ghost use Rattle.std.specs.Option.{option_copied};
ghost use Rattle.tuple_space.specs.Entry.{is_counted, is_held_by};
ghost use Rattle.tuple_space.specs.Space.{IsSpace, held_by, most, opening, released, with_entries, without_taken};
ghost use Rattle.std.specs.List.{list_any};
ghost use Rattle.tuple_space.specs.Held.{HasHeld};
ghost use Rattle.tuple_space.specs.Places.{items_in};
ghost use Rattle.tuple_space.specs.Index.{class_of, has_class};
ghost use Rattle.tuple_space.specs.Rows.{IsRising, changed, permanent_tuples, without};
ghost use Rattle.tuple_space.specs.Writes.{IsPutRefusal, put_count, put_each};
ghost use Rattle.tuple_space.specs.Step.{IsHad, NothingHad, Step, advance, count, done_reply, inp, inp_reply, now, out, out_reply, rdp, rdp_reply, renew, told};

use crate::ends::{Ends, drop_ended, note_writes};
use crate::entries::Entries;
use crate::entry::{Claim, Entry, EntryId};
use crate::error::SpaceError;
use crate::held::{Held, add_held, drop_rows_by, drop_rows_gone, drop_rows_of};
use crate::hold::Holds;
use crate::holding::{
    count_puts, drop_taken, is_any_shared, is_entry_held_by, put_rows, release_all,
};
use crate::index::{Bucket, add_entry, class_size};
use crate::indexing::{add_writes, drop_writes};
use crate::lease::Lease;
use crate::permanent::permanent_of;
use crate::rows::{change_end, count_of, take_number};
use crate::search::{Wanted, find_wanted, is_lacking};
use crate::write::Writes;
use std::alloc::{AllocError, Global};
use std::marker::Model;
use tuple_match::{Template, Tuple};

/// The most that a moment or the number of an entry can be.
pub const MOST: u64 = 1 << 62;

/// A space of tuples.
#[derive(Debug, Drop)]
pub struct Space {
    entries: Entries,
    /// Which entries each holder holds, in ascending order of their numbers.
    held: Vec<Held>,
    /// The numbers of the entries whose tuples begin with a word, by that word and how many fields they have.
    buckets: Vec<Bucket>,
    /// When the leases of entries end.
    ends: Ends,
    moment: u64,
    last: u64,
}

impl Model for Space {
    ghost use Rattle.tuple_space.specs.Ends.{AreWatched};
    ghost use Rattle.tuple_space.specs.Held.{HasHeld};
    ghost use Rattle.tuple_space.specs.Index.{AreIndexed};
    ghost use Rattle.tuple_space.specs.Space.{IsSpace, SpaceValue, space_of};

    ghost Value = { SpaceValue };

    ghost view = { λ s. space_of s.entries.items s.moment s.last };

    ghost invariant = { λ s. IsSpace (space_of s.entries.items s.moment s.last) × HasHeld s.held.items s.entries.items × AreIndexed s.buckets.items s.entries.items × AreWatched s.ends.rows s.moment s.entries.items };
}

impl Space {
    /// A space with no tuples, at the moment 0. Allocates nothing.
    pub fn new(alloc: Global) -> Space
        ensures { result ≡ opening }
    {
        Space {
            entries: Entries::new(alloc),
            held: Vec::new(alloc),
            buckets: Vec::new(alloc),
            ends: Ends::new(alloc),
            moment: 0,
            last: 0,
        }
    }

    /// A space with no tuples, at the moment 0, whose next tuple gets the number that follows this one, as if tuples up to
    /// it had been written and taken. Allocates nothing.
    pub fn after(alloc: Global, last: u64) -> Space
        requires { last ≤ most }
        ensures { result ≡ record opening { last = last } }
    {
        Space {
            last,
            ..Space::new(alloc)
        }
    }

    /// The moment, in milliseconds.
    pub fn now(&self) -> u64
        ensures step { Step self.now now (told result) self.now }
        ensures valid { IsSpace self.now }
    {
        self.moment
    }

    /// Writes a tuple, with a lease granted at the moment, and returns its number. Refusals: 33 if the numbers are used
    /// up, 50; the tuple is returned.
    pub fn out(&mut self, tuple: Tuple, lease: Lease) -> Result<EntryId, (SpaceError, Tuple)>
        ensures step { Step self.old (out tuple lease) (out_reply result) self.new }
        ensures handed_back { IfErr result (λ back. back.1 ≡ tuple) }
    {
        if self.last >= MOST {
            return Err((SpaceError::Exhausted, tuple));
        }
        let number = self.last + 1;
        if self.entries.reserve(1).is_err() {
            return Err((SpaceError::OutOfMemory, tuple));
        }
        let end = lease.granted(self.moment);
        self.ends.drop_gone(&self.entries);
        if self.ends.note(end, number).is_err() {
            return Err((SpaceError::OutOfMemory, tuple));
        }
        if add_entry(&mut self.buckets, &tuple, number).is_err() {
            return Err((SpaceError::OutOfMemory, tuple));
        }
        let holds = Holds::new(self.entries.allocator());
        self.entries.push(Entry {
            number,
            tuple,
            end,
            holds,
        });
        self.last = number;
        Ok(EntryId::new(number))
    }

    /// Takes a tuple matching the template, or returns `None` if none is available now. Allocates nothing.
    pub fn inp(&mut self, template: &Template) -> Option<(EntryId, Tuple)>
        ensures step { Step self.old (inp template.now) (inp_reply result) self.new }
    {
        let number = self.search(Claim::Take, template)?.number;
        let entry = take_number(&mut self.entries, &mut self.buckets, number)?;
        Some((EntryId::new(number), entry.tuple))
    }

    /// Copies a tuple matching the template, or returns `None` if none is available now. Refusal: 50.
    pub fn rdp(&self, template: &Template) -> Result<Option<(EntryId, Tuple)>, SpaceError>
        ensures step { Step self.now (rdp template.now) (rdp_reply result) self.now }
    {
        match self.search(Claim::Read, template) {
            Some(entry) => Ok(Some((EntryId::new(entry.number), entry.tuple.copy()?))),
            None => Ok(None),
        }
    }

    /// Moves the end of a live entry's lease to that of a lease granted now, if that is later. Refusal: 35 if no live
    /// entry has the number. Allocates nothing.
    pub fn renew(&mut self, id: EntryId, lease: Lease) -> Result<(), SpaceError>
        ensures step { Step self.old (renew id lease) (done_reply result) self.new }
    {
        let end = lease.granted(self.moment);
        if change_end(&mut self.entries, id.number(), self.moment, end) {
            return Ok(());
        }
        Err(SpaceError::NotThere)
    }

    /// Advances the moment, and drops the entries whose lease has ended and that nobody holds; an earlier moment
    /// changes nothing. Refusal: 33 if the moment is past 2^62. Allocates nothing.
    pub fn advance(&mut self, moment: u64) -> Result<(), SpaceError>
        ensures step { Step self.old (advance moment) (done_reply result) self.new }
    {
        if moment > MOST {
            return Err(SpaceError::Exhausted);
        }
        if moment < self.moment {
            return Ok(());
        }
        self.moment = moment;
        drop_ended(&mut self.entries, &mut self.buckets, &mut self.ends, moment);
        Ok(())
    }

    /// How many existing entries have tuples matching the template, including held ones. Allocates nothing.
    pub fn count(&self, template: &Template) -> u64
        ensures step { Step self.now (count template.now) (told result) self.now }
    {
        count_of(&self.entries, self.moment, template)
    }

    /// How many entries the space has whose tuples begin with this word, have this many fields, and have a list of this
    /// many numbers as their second; with 0 numbers, those whose second field is not a list are counted too. It
    /// includes held ones, allocates nothing, and takes constant time.
    pub fn count_of_class(&self, word: &str, fields: usize, numbers: usize) -> usize
        ensures { result ≡ count_by (λ e. has_class (class_of word.now fields numbers) e.tuple) self.now.entries }
    {
        class_size(&self.buckets, word.as_bytes(), fields, numbers)
    }

    /// Whether no existing entry's tuple matches the template, including held ones. Allocates nothing.
    pub fn lacks(&self, template: &Template) -> bool
        ensures { result ≡ (count_by (is_counted self.now.moment template.now) self.now.entries == 0) }
    {
        is_lacking(&self.entries, &self.buckets, self.moment, template)
    }

    /// An entry that is available under a claim. If the template begins with a word, it is one with the longest list as
    /// its second field, and the newest of these; otherwise the newest.
    pub fn search(&self, claim: Claim, template: &Template) -> Option<&Entry>
        ensures found { IfSome result (λ e. IsHad self.now claim template.now e.now) }
        ensures none { IfNone result (NothingHad self.now claim template.now) }
    {
        find_wanted(
            &self.entries,
            &self.buckets,
            Wanted::Allowed(claim),
            self.moment,
            template,
        )
    }

    /// The entry of a number.
    pub fn entry(&self, id: EntryId) -> Option<&Entry>
        ensures { option_copied result ≡ find (λ e. e.number == id) self.now.entries }
    {
        self.entry_numbered(id.number())
    }

    /// The entries, in ascending order of number, in their places: that of one that left may be empty.
    pub fn entries(&self) -> &[Option<Entry>]
        ensures { items_in result.now ≡ self.now.entries }
    {
        self.entries.as_slice()
    }

    /// Which entries each holder holds: with each holder the numbers of all that it holds, in ascending order, and no
    /// others.
    pub fn held(&self) -> &[Held]
        ensures held { HasHeld result.now self.now.entries }
        ensures rising { IsRising self.now.entries }
    {
        &self.held
    }

    /// The entry of a number in `held`.
    pub fn entry_numbered(&self, number: u64) -> Option<&Entry>
        ensures { option_copied result ≡ find (λ e. e.number == number) self.now.entries }
    {
        self.entries.get(number)
    }

    /// How far the number is above the place of its entry, for walks by `entry_shifted`; 0 if it has none.
    pub fn shift_of(&self, number: u64) -> u64 {
        self.entries.shift_of(number)
    }

    /// The entry of a number, which is looked for first in the place that is this far below it: numbers that follow each other are
    /// this far above their places, unless entries between them have left.
    pub fn entry_shifted(&self, number: u64, shift: u64) -> Option<&Entry>
        ensures { option_copied result ≡ find (λ e. e.number == number) self.now.entries }
    {
        self.entries.get_shifted(number, shift)
    }

    /// The tuple of the entry of a number.
    pub fn tuple(&self, id: EntryId) -> Option<&Tuple>
        ensures { option_copied result ≡ option_map (λ e. e.tuple) (find (λ e. e.number == id) self.now.entries) }
    {
        match self.entry(id) {
            Some(entry) => Some(&entry.tuple),
            None => None,
        }
    }

    /// Holds an entry for a holder, named by a number: as taken or as read, in place of its older hold if it has one.
    /// Allocates nothing if it has one.
    pub fn pin(&mut self, id: EntryId, holder: u64, taken: bool) -> Result<(), AllocError>
        requires { list_any (λ e. e.number == id) self.old.entries ≡ true }
        ensures ok { OnOk result (self.new ≡ with_entries self.old (changed id (held_by holder taken) self.old.entries)) }
        ensures err { OnErr result (self.new ≡ self.old) }
        ensures ready { list_any (λ e. (e.number == id) && is_held_by holder e) self.old.entries ≡ true → IsOk result }
    {
        let number = id.number();
        if is_entry_held_by(&self.entries, number, holder) {
            self.entries.hold(number, holder, taken)?;
            return Ok(());
        }
        self.held.reserve(1)?;
        self.entries.hold(number, holder, taken)?;
        let new = Held {
            entry: number,
            by: holder,
        };
        add_held(&mut self.held, new);
        Ok(())
    }

    /// Ends all holds of a holder. An entry whose lease has ended leaves with its last hold. Allocates nothing.
    pub fn unpin(&mut self, holder: u64)
        ensures { self.new ≡ with_entries self.old (released holder self.old.moment self.old.entries) }
    {
        release_all(
            &mut self.entries,
            &mut self.buckets,
            &self.held,
            holder,
            self.moment,
        );
        drop_rows_by(&mut self.held, holder);
    }

    /// Drops the entries that a holder took. Allocates nothing.
    pub fn remove_taken(&mut self, holder: u64)
        ensures { self.new ≡ with_entries self.old (without_taken holder self.old.entries) }
    {
        let shared = is_any_shared(&self.entries, &self.held, holder);
        drop_taken(&mut self.entries, &mut self.buckets, &self.held, holder);
        drop_rows_gone(&mut self.held, &self.entries, holder, shared);
    }

    /// Removes the entry of a number, regardless of who holds it, or returns `None` if there is none. Allocates
    /// nothing.
    pub fn remove(&mut self, id: EntryId) -> Option<Tuple>
        ensures value { result ≡ option_map (λ e. e.tuple) (find (λ e. e.number == id) self.old.entries) }
        ensures rest { self.new ≡ with_entries self.old (without id self.old.entries) }
    {
        let number = id.number();
        let entry = take_number(&mut self.entries, &mut self.buckets, number)?;
        if entry.holds.is_held() {
            drop_rows_of(&mut self.held, number);
        }
        Some(entry.tuple)
    }

    /// Writes tuples in order, except those that were taken again: either all of them or none. Refusals: 33 if too few
    /// numbers are left, 50; the writes are returned. Allocates nothing if nothing is written.
    pub fn put_all(&mut self, writes: Writes) -> Result<(), (SpaceError, Writes)>
        ensures ok { OnOk result ((self.old.last + put_count writes ≤ most) × (self.new ≡ put_each self.old writes)) }
        ensures err { OnErr result (self.new ≡ self.old) }
        ensures handed_back { IfErr result (λ back. back.1 ≡ writes) }
        ensures kind { IfErr result (λ back. IsPutRefusal self.old writes back.0) }
    {
        let mut writes = writes;
        match self.put_from(&mut writes) {
            Ok(()) => Ok(()),
            Err(error) => Err((error, writes)),
        }
    }

    /// Likewise from the list of writes: it is then empty, and keeps its memory. If refused, all stay.
    pub fn put_from(&mut self, writes: &mut Writes) -> Result<(), SpaceError>
        ensures ok { OnOk result ((self.old.last + put_count writes.old ≤ most) × (self.new ≡ put_each self.old writes.old)) }
        ensures emptied { OnOk result (writes.new ≡ []) }
        ensures err { OnErr result ((self.new ≡ self.old) × (writes.new ≡ writes.old)) }
        ensures kind { IfErr result (IsPutRefusal self.old writes.old) }
    {
        let count = count_puts(writes);
        if count as u64 > MOST - self.last {
            return Err(SpaceError::Exhausted);
        }
        if count == 0 {
            writes.clear();
            return Ok(());
        }
        if self.entries.reserve(count).is_err() {
            return Err(SpaceError::OutOfMemory);
        }
        self.ends.drop_gone(&self.entries);
        if note_writes(&mut self.ends, writes, self.moment, self.last).is_err() {
            return Err(SpaceError::OutOfMemory);
        }
        if add_writes(&mut self.buckets, writes, self.last).is_err() {
            drop_writes(&mut self.buckets, writes, self.last);
            return Err(SpaceError::OutOfMemory);
        }
        self.last = put_rows(&mut self.entries, &mut writes.rows, self.moment, self.last);
        Ok(())
    }

    /// Takes the tuples out whose lease is forever, in order of number, held ones included. If memory runs out, the
    /// space is returned whole.
    pub fn into_permanent(self) -> Result<Vec<Tuple>, (AllocError, Space)>
        ensures ok { IfOk result (λ tuples. tuples.items ≡ permanent_tuples self.entries) }
        ensures handed_back { IfErr result (λ back. back.1 ≡ self) }
    {
        let alloc = self.entries.allocator();
        let Ok(room) = Vec::with_capacity(alloc, self.entries.as_slice().len()) else {
            return Err((AllocError, self));
        };
        let Space {
            entries,
            held: _,
            buckets: _,
            ends: _,
            moment: _,
            last: _,
        } = self;
        Ok(permanent_of(entries, room))
    }
}
