//! The live transactions, each found by its number in one lookup.

ghost use Rattle.std.specs.Prelude.{◌≡◌, ◌≢◌, ◌<◌, ◌++◌, ◌∷◌, [], All, IfNone, IfSome, OnErr, OnOk, length, nat_lt, not};
ghost use Rattle.std.specs.List.{HoldsAt, list_any};
ghost use Rattle.space_txn.specs.Live.{going_at, is_live_in, others, renewed_rows};

use crate::live::{Live, renewed_row};
use indexmap::IndexMap;
use std::alloc::{AllocError, Global};
use std::marker::Model;

/// The live transactions in the order in which they were begun, each under its number.
#[derive(Debug, Drop)]
pub(crate) struct Transactions {
    by_number: IndexMap<u64, Live>,
}

impl Model for Transactions {
    ghost use Rattle.std.specs.Prelude.{List};
    ghost use Rattle.indexmap.specs.IndexMap.{values};
    ghost use Rattle.space_txn.specs.declared.live.Live.{Live};
    ghost use Rattle.space_txn.specs.Live.{AreInOrder};

    ghost Value = { List Live };

    ghost view = { λ t. values t.by_number };

    ghost invariant = { λ t. AreInOrder t.by_number.entries };
}

impl Transactions {
    /// None. Allocates nothing.
    pub(crate) fn new(alloc: Global) -> Transactions
        ensures { result ≡ [] }
    {
        Transactions {
            by_number: IndexMap::new(alloc),
        }
    }

    /// Where the memory comes from.
    pub(crate) fn allocator(&self) -> Global {
        *self.by_number.allocator()
    }

    /// The transactions, in order.
    pub(crate) fn as_slice(&self) -> &[Live]
        ensures { result.now ≡ self.now }
    {
        self.by_number.values().as_slice()
    }

    /// Adds a transaction of a greater number than the others.
    pub(crate) fn add(&mut self, row: Live) -> Result<(), AllocError>
        requires { All (λ t. t.number < row.number) self.old }
        ensures ok { OnOk result (self.new ≡ self.old ++ row ∷ []) }
        ensures err { OnErr result (self.new ≡ self.old) }
    {
        let Err(_) = self.by_number.insert(row.number, row) else {
            return Ok(());
        };
        Err(AllocError)
    }

    /// The place of the transaction of a number.
    fn place_of(&self, number: u64) -> Option<usize>
        ensures none { IfNone result (All (λ t. t.number ≢ number) self.now) }
        ensures place { IfSome result (λ i. i < length self.now) }
        ensures found { IfSome result (HoldsAt (λ t. t.number ≡ number) self.now) }
    {
        self.by_number.get_index_of(&number)
    }

    /// Whether a live transaction has the number.
    pub(crate) fn is_live(&self, moment: u64, number: u64) -> bool
        ensures { result ≡ is_live_in moment number self.now }
    {
        let rows = self.by_number.values().as_slice();
        match self.place_of(number) {
            Some(place) => moment < rows[place].end,
            None => false,
        }
    }

    /// Moves the end of a transaction's lease to another one where that is later.
    pub(crate) fn renew(&mut self, number: u64, end: u64)
        ensures { self.new ≡ renewed_rows number end self.old }
    {
        let Some(place) = self.place_of(number) else {
            return;
        };
        let Some(row) = self.by_number.get_index_mut(place) else {
            unreachable!()
        };
        *row = renewed_row(*row, number, end);
    }

    /// Drops a transaction; those after it close up.
    pub(crate) fn remove(&mut self, number: u64)
        ensures { self.new ≡ others number self.old }
    {
        if let Some(place) = self.place_of(number) {
            self.by_number.shift_remove_index(place);
        }
    }

    /// Whether the lease of one has ended.
    fn has_ended(&self, moment: u64) -> bool
        ensures { result ≡ list_any (λ t. not (nat_lt moment t.end)) self.now }
    {
        self.as_slice().iter().any(|row| row.end <= moment)
    }

    /// Drops the transactions whose lease has ended. The map's table is rebuilt only if there are any.
    pub(crate) fn drop_ended(&mut self, moment: u64)
        ensures { self.new ≡ going_at moment self.old }
    {
        if !self.has_ended(moment) {
            return;
        }
        self.by_number.retain(
            |_number: &u64, row: &mut Live| -> bool
                ensures { (result ≡ nat_lt moment row.old.end) × (row.new ≡ row.old) }
            { moment < row.end },
        );
    }
}
