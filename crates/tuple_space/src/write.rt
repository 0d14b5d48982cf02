//! Tuples that are to be written together.

ghost use Rattle.std.specs.Prelude.{◌≡◌, ◌<◌, ◌+◌, ◌++◌, ◌∷◌, [], false, drop, length, IfErr, IsOk, OnOk, OnErr, slice_get, slice_index_or};
ghost use Rattle.std.specs.Option.{option_copied};
ghost use Rattle.tuple_space.specs.Writes.{taken_at};

use crate::lease::Lease;
use smallvec::SmallVec;
use std::alloc::{AllocError, Global};
use std::marker::Model;
use tuple_match::Tuple;

/// A tuple to be written with a lease, unless it is taken before.
#[derive(Debug, Drop)]
pub struct Write {
    /// The tuple to be written.
    pub tuple: Tuple,
    /// The lease to be requested.
    pub lease: Lease,
    /// Whether it was taken again.
    pub taken: bool,
}

/// Places for writes, the first four of which allocate nothing; an unused place holds none.
pub(crate) type Rows = SmallVec<Option<Write>, 4>;

/// Writes in order.
#[derive(Debug, Drop)]
pub struct Writes {
    pub(crate) rows: Rows,
}

impl Model for Writes {
    ghost use Rattle.std.specs.Prelude.{List};
    ghost use Rattle.tuple_space.specs.Places.{AreFilled, items_in};
    ghost use Rattle.tuple_space.specs.declared.write.Write.{Write};

    ghost Value = { List Write };

    ghost view = { λ w. items_in w.rows.items };

    ghost invariant = { λ w. AreFilled 4 w.rows };
}

impl Writes {
    /// No writes. Allocates nothing.
    pub fn new(alloc: Global) -> Writes
        ensures { result ≡ [] }
    {
        Writes {
            rows: SmallVec::new(alloc),
        }
    }

    /// Adds a write. If memory runs out, the tuple is returned; the first four take none.
    pub fn push(&mut self, tuple: Tuple, lease: Lease) -> Result<(), (AllocError, Tuple)>
        ensures ok { OnOk result (self.new ≡ self.old ++ record { tuple = tuple; lease = lease; taken = false } ∷ []) }
        ensures err { OnErr result (self.new ≡ self.old) }
        ensures handed_back { IfErr result (λ back. back.1 ≡ tuple) }
        ensures ready { length self.old < 4 → IsOk result }
    {
        let taken = false;
        let Err(failed) = self.rows.push(Some(Write {
            tuple,
            lease,
            taken,
        }))
        else {
            return Ok(());
        };
        match failed.value {
            Some(write) => Err((AllocError, write.tuple)),
            None => unreachable!(),
        }
    }

    /// How many writes there are, those that were taken again included.
    pub fn len(&self) -> usize
        ensures { result ≡ length self.now }
    {
        self.rows.len()
    }

    /// The write at a position.
    pub(crate) fn at(&self, place: usize) -> &Write
        requires { place < length self.now }
        ensures { result.now ≡ slice_index_or self.now place result.now }
    {
        match &self.rows[place] {
            Some(write) => write,
            None => unreachable!(),
        }
    }

    /// The write at a position, or `None` past the last.
    pub fn get(&self, place: usize) -> Option<&Write>
        ensures { option_copied result ≡ slice_get self.now place }
    {
        if place >= self.len() {
            return None;
        }
        Some(self.at(place))
    }

    /// Takes a write again.
    pub fn take(&mut self, place: usize)
        requires { place < length self.old }
        ensures { self.new ≡ taken_at place self.old }
    {
        let Some(write) = &mut self.rows[place] else {
            unreachable!()
        };
        write.taken = true;
    }

    /// Drops all writes, and keeps their memory.
    pub fn clear(&mut self)
        ensures { self.new ≡ [] }
    {
        self.rows.clear();
    }
}

/// Takes out what a place holds, which is empty then.
pub(crate) fn withdrawn(rows: &mut Rows, place: usize) -> Option<Write>
    requires { place < length rows.old.items }
    ensures rest { drop place rows.old.items ≡ result ∷ drop (place + 1) rows.new.items }
    ensures places { length rows.new.items ≡ length rows.old.items }
    ensures memory { rows.new.capacity ≡ rows.old.capacity }
{
    rows[place].take()
}
