//! A transaction's marks in order.

ghost use Rattle.std.specs.Prelude.{◌≡◌, ◌<◌, ◌≤◌, ◌+◌, [], insert, length, slice_get, slice_index_or, slice_set, true, OnErr, OnOk, Some};
ghost use Rattle.std.specs.List.{AllPairs, AllWithin, HoldsAt};
ghost use Rattle.space_txn.specs.declared.mark.Mark.{Mark};

use crate::mark::Mark;
use smallvec::SmallVec;
use std::alloc::{AllocError, Global};
use std::marker::Model;

/// Marks in order, the first four of which allocate nothing; an unused place holds none.
#[derive(Debug, Drop)]
pub(crate) struct Marks {
    places: SmallVec<Option<Mark>, 4>,
}

impl Model for Marks {
    ghost use Rattle.tuple_space.specs.Places.{items_in};
    ghost use Rattle.space_txn.specs.Marks.{AreMarks, MarksValue, room_of};

    ghost Value = { MarksValue };

    ghost view = { λ m. record { items = items_in m.places.items; room = room_of m.places } };

    ghost invariant = { λ m. AreMarks m.places };
}

impl Marks {
    /// No marks. Allocates nothing.
    pub(crate) fn new(alloc: Global) -> Marks
        ensures { result.items ≡ [] }
    {
        Marks {
            places: SmallVec::new(alloc),
        }
    }

    /// Drops all marks, and keeps their memory.
    pub(crate) fn clear(&mut self)
        ensures { self.new.items ≡ [] }
    {
        self.places.clear();
    }

    /// How many marks there are; they are in ascending order of the entries' numbers.
    pub(crate) fn len(&self) -> usize
        ensures len { result ≡ length self.now.items }
        ensures rising { AllPairs (λ m n. m.entry < n.entry) self.now.items }
    {
        self.places.len()
    }

    /// The mark at a position.
    pub(crate) fn at(&self, place: usize) -> &Mark
        requires { place < length self.now.items }
        ensures { result.now ≡ slice_index_or self.now.items place result.now }
    {
        match &self.places[place] {
            Some(mark) => mark,
            None => unreachable!(),
        }
    }

    /// Makes room for one more mark.
    pub(crate) fn reserve(&mut self) -> Result<(), AllocError>
        ensures items { self.new.items ≡ self.old.items }
        ensures room { OnOk result (0 < self.new.room) }
    {
        self.places.reserve(1)
    }

    /// Puts a mark in the place of another one on the same entry.
    pub(crate) fn set(&mut self, place: usize, mark: Mark)
        requires within { place < length self.old.items }
        requires same { HoldsAt (λ m. m.entry ≡ mark.entry) self.old.items place }
        ensures { self.new.items ≡ slice_set self.old.items place mark }
    {
        self.places[place] = Some(mark);
    }

    /// Makes the mark at a position one that takes its entry. Allocates nothing.
    pub(crate) fn take(&mut self, place: usize, permanent: bool)
        requires { place < length self.old.items }
        ensures { (m : Mark) → slice_get self.old.items place ≡ Some m → self.new.items ≡ slice_set self.old.items place (record m { taken = true; permanent = permanent }) }
    {
        let Some(mark) = &mut self.places[place] else {
            unreachable!()
        };
        mark.taken = true;
        mark.permanent = permanent;
    }

    /// Inserts a mark between those on entries with lower and with greater numbers, if there is capacity for it.
    pub(crate) fn insert(&mut self, place: usize, mark: Mark)
        requires within { place ≤ length self.old.items }
        requires before { AllWithin (λ m. m.entry < mark.entry) self.old.items 0 place }
        requires above { place < length self.old.items → HoldsAt (λ m. mark.entry < m.entry) self.old.items place }
        requires room { 0 < self.old.room }
        ensures { self.new.items ≡ insert self.old.items place mark }
    {
        self.places.insert(place, Some(mark)).unwrap();
    }
}
