//! Entries: tuples with their numbers, leases and holders.

ghost use Rattle.std.specs.Prelude.{◌≡◌};

use crate::hold::Holds;
use crate::lease::LeaseEnd;
use std::marker::Model;
use tuple_match::Tuple;

/// The number under which a tuple was written.
#[derive(Clone, Copy, Debug, PartialEq, Eq)]
pub struct EntryId {
    number: u64,
}

impl Model for EntryId {
    ghost use Rattle.std.specs.Prelude.{ℕ};

    ghost Value = { ℕ };

    ghost view = { λ id. id.number };

    ghost inverse = { λ n. record { number = n } };
}

impl EntryId {
    pub(crate) fn new(number: u64) -> EntryId
        ensures { result ≡ number }
    {
        EntryId { number }
    }

    /// The number, from 1 on.
    pub fn number(self) -> u64
        ensures { result ≡ self }
    {
        self.number
    }
}

/// What a lookup requires of an entry besides its tuple.
#[derive(Clone, Copy, Debug, PartialEq, Eq)]
pub enum Claim {
    /// That its lease is live and nobody took it.
    Read,
    /// That it can be read, and nobody holds it.
    Take,
    /// That it can be read, and nobody but this holder holds it.
    TakeBy(u64),
}

/// A tuple in the space.
#[derive(Debug, Drop)]
pub struct Entry {
    /// Its number.
    pub number: u64,
    /// The tuple that was written.
    pub tuple: Tuple,
    /// When its lease ends.
    pub end: LeaseEnd,
    /// Who took it or read it.
    pub holds: Holds,
}

impl Entry {
    /// Its number, as calls of the space take it.
    pub fn id(&self) -> EntryId
        ensures { result ≡ self.now.number }
    {
        EntryId::new(self.number)
    }
}
