//! The value of a transaction.

ghost use Rattle.std.specs.Prelude.{◌≡◌, ◌<◌, ◌==◌, ◌++◌, ◌∷◌, [], true, false, length, find, slice_get, option_map, IfErr, IsOk, OnOk, OnErr, All, IfNone, IfSome};
ghost use Rattle.std.specs.Option.{option_copied};
ghost use Rattle.space_txn.specs.Txn.{TxnValue, found_tuple, is_open_write};
ghost use Rattle.std.specs.List.{HoldsAt};

use crate::error::TxnError;
use crate::lists::Lists;
use crate::mark::{Mark, mark_on};
use std::alloc::AllocError;
use std::marker::Model;
use std::mem::swap;
use tuple_match::{Template, Tuple, matches};
use tuple_space::{EntryId, Lease, Write, Writes};

/// What a call on a transaction found.
#[derive(Clone, Copy, Debug, PartialEq, Eq)]
pub enum Found {
    /// An entry of the space.
    Entry(EntryId),
    /// A write of the transaction itself, by its place from 0.
    Own(usize),
}

/// A transaction: its number, what it took and read, and what it wrote.
#[derive(Debug, Drop)]
pub struct Txn {
    pub(crate) number: u64,
    pub(crate) lists: Box<Lists>,
}

impl Model for Txn {
    ghost use Rattle.space_txn.specs.Txn.{TxnValue, txn_of};

    ghost Value = { TxnValue };

    ghost view = { λ t. txn_of t.number t.lists.value.marks.items t.lists.value.writes };
}

impl Txn {
    /// The transaction's number.
    pub fn number(&self) -> u64
        ensures { result ≡ self.now.number }
    {
        self.number
    }

    /// The mark at a position among those of the transaction: what it took, and what it read and did not take, in
    /// ascending order of the entries' numbers. `None` past the last.
    pub fn mark(&self, place: usize) -> Option<&Mark>
        ensures { option_copied result ≡ slice_get self.now.marks place }
    {
        if place >= self.lists.marks.len() {
            return None;
        }
        Some(self.lists.marks.at(place))
    }

    /// What the transaction wrote, in order.
    pub fn writes(&self) -> &Writes
        ensures { result.now ≡ self.now.writes }
    {
        &self.lists.writes
    }

    /// The tuple of an entry that the transaction took or read.
    pub fn tuple(&self, id: EntryId) -> Option<&Tuple>
        ensures { option_copied result ≡ option_map (λ m. m.tuple) (find (λ m. m.entry == id) self.now.marks) }
    {
        match mark_on(&self.lists.marks, id.number()) {
            Some(mark) => Some(&mark.tuple),
            None => None,
        }
    }

    /// Whether an entry that the transaction took or read was permanent when it was marked so.
    pub fn permanent(&self, id: EntryId) -> Option<bool>
        ensures { result ≡ option_map (λ m. m.permanent) (find (λ m. m.entry == id) self.now.marks) }
    {
        match mark_on(&self.lists.marks, id.number()) {
            Some(mark) => Some(mark.permanent),
            None => None,
        }
    }

    /// The tuple that a call found.
    pub fn found(&self, found: &Found) -> Option<&Tuple>
        ensures { option_copied result ≡ found_tuple self.now found.now }
    {
        match found {
            Found::Entry(id) => self.tuple(*id),
            Found::Own(place) => own_tuple(&self.lists.writes, *place),
        }
    }

    /// Writes a tuple under the transaction: the commit adds it, under a lease that is granted then. This is not a step
    /// on the space. If memory runs out, the tuple is returned; the first four writes allocate nothing.
    pub fn out_in(&mut self, tuple: Tuple, lease: Lease) -> Result<(), (TxnError, Tuple)>
        ensures ok { OnOk result (self.new ≡ record self.old { writes = self.old.writes ++ record { tuple = tuple; lease = lease; taken = false } ∷ [] }) }
        ensures err { OnErr result (self.new ≡ self.old) }
        ensures handed_back { IfErr result (λ back. back.1 ≡ tuple) }
        ensures kind { IfErr result (λ back. back.0 ≡ TxnError.OutOfMemory) }
        ensures ready { length self.old.writes < 4 → IsOk result }
    {
        match self.lists.writes.push(tuple, lease) {
            Ok(()) => Ok(()),
            Err((_, tuple)) => Err((TxnError::OutOfMemory, tuple)),
        }
    }

    /// Exchanges the writes of the transaction for these, and returns the old ones. This is not a step on the space,
    /// and allocates nothing.
    pub fn exchange_writes(&mut self, writes: &mut Writes)
        ensures txn { self.new ≡ record self.old { writes = writes.old } }
        ensures back { writes.new ≡ self.old.writes }
    {
        swap(&mut self.lists.writes, writes);
    }
}

fn own_tuple(writes: &Writes, place: usize) -> Option<&Tuple>
    ensures { option_copied result ≡ option_map (λ x. x.tuple) (slice_get writes.now place) }
{
    match writes.get(place) {
        Some(write) => Some(&write.tuple),
        None => None,
    }
}

/// The position of a write that matches the template and was not taken again.
pub(crate) fn open_write(writes: &Writes, template: &Template) -> Option<usize>
    ensures none { IfNone result (All (λ x. is_open_write template.now x ≡ false) writes.now) }
    ensures place { IfSome result (λ i. i < length writes.now) }
    ensures open { IfSome result (HoldsAt (λ x. is_open_write template.now x ≡ true) writes.now) }
{
    for place in 0..writes.len() {
        let write = writes.get(place)?;
        if is_open_write(write, template) {
            return Some(place);
        }
    }
    None
}

fn is_open_write(write: &Write, template: &Template) -> bool
    ensures { result ≡ is_open_write template.now write.now }
{
    !write.taken && matches(template, &write.tuple)
}
