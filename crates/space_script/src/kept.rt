//! The transactions of a script, found by number in one lookup.

ghost use Rattle.std.specs.Prelude.{◌≡◌, ◌≢◌, ◌<◌, ◌++◌, ◌∷◌, [], All, IfOk, IfSome, MatchOption, MatchResult, OnErr, OnOk, length, remove, slice_get, slice_set, Some};
ghost use Rattle.std.specs.List.{list_all};
ghost use Rattle.space_txn.specs.Finding.{Shows};
ghost use Rattle.space_txn.specs.Machine.{find_answer, inp_in, rdp_in};
ghost use Rattle.space_txn.specs.Txn.{TxnValue};
ghost use Rattle.space_txn.specs.World.{is_live_transaction};
ghost use Rattle.space_script.specs.Kept.{StepsAt};
ghost use Rattle.space_script.specs.Session.{NoneKept, StandsAt, live_of, with_write};

use indexmap::IndexMap;
use space_txn::{Found, Txn, TxnError, TxnSpace};
use std::alloc::{AllocError, Global};
use std::marker::Model;
use tuple_match::{Template, Tuple};
use tuple_space::Lease;

/// Transactions in the order in which they were begun, each under its number.
#[derive(Debug, Drop)]
pub(crate) struct Kept {
    by_number: IndexMap<u64, Txn>,
}

impl Model for Kept {
    ghost use Rattle.indexmap.specs.IndexMap.{spare, values};
    ghost use Rattle.space_script.specs.Kept.{AreNumbered, KeptValue};

    ghost Value = { KeptValue };

    ghost view = { λ k. record { items = values k.by_number; room = spare k.by_number } };

    ghost invariant = { λ k. AreNumbered k.by_number.entries };
}

impl Kept {
    /// No transactions. Allocates nothing.
    pub(crate) fn new(alloc: Global) -> Kept
        ensures { result.items ≡ [] }
    {
        Kept {
            by_number: IndexMap::new(alloc),
        }
    }

    /// The place of the transaction of a number.
    pub(crate) fn place_of(&self, number: u64) -> Option<usize>
        ensures { MatchOption result (NoneKept self.now.items number) (λ place. (t : TxnValue) × StandsAt self.now.items number place t) }
    {
        self.by_number.get_index_of(&number)
    }

    /// The transaction at a position.
    pub(crate) fn get(&self, place: usize) -> &Txn
        requires { place < length self.now.items }
        ensures { slice_get self.now.items place ≡ Some result.now }
    {
        &self.by_number.values().as_slice()[place]
    }

    /// Makes room for one more transaction.
    pub(crate) fn make_room(&mut self) -> Result<(), AllocError>
        ensures items { self.new.items ≡ self.old.items }
        ensures room { OnOk result (0 < self.new.room) }
    {
        self.by_number.reserve(1)
    }

    /// Appends a transaction to the others, if there is capacity for it.
    fn push(&mut self, txn: Txn)
        requires room { 0 < self.old.room }
        requires new { NoneKept self.old.items txn.number }
        ensures { self.new.items ≡ self.old.items ++ txn ∷ [] }
    {
        self.by_number.insert(txn.number(), txn).unwrap();
    }

    /// Appends a transaction to the others if it is live in a space and there is capacity for it.
    pub(crate) fn push_live(&mut self, world: &TxnSpace, txn: Txn)
        requires room { 0 < self.old.room }
        requires new { NoneKept self.old.items txn.number }
        ensures { self.new.items ≡ self.old.items ++ live_of world.now (txn ∷ []) }
    {
        if world.is_live(&txn) {
            self.push(txn);
        }
    }

    /// Appends a transaction to the others, or drops it if memory runs out.
    pub(crate) fn put_back(&mut self, txn: Txn) -> Result<(), AllocError>
        requires { NoneKept self.old.items txn.number }
        ensures { MatchResult result (λ _. self.new.items ≡ self.old.items ++ txn ∷ []) (λ _. self.new.items ≡ self.old.items) }
    {
        self.make_room()?;
        self.push(txn);
        Ok(())
    }

    /// Takes out the transaction at a position; those after it close up.
    pub(crate) fn remove(&mut self, place: usize) -> Txn
        requires { place < length self.old.items }
        ensures value { slice_get self.old.items place ≡ Some result }
        ensures rest { self.new.items ≡ remove self.old.items place }
        ensures others { NoneKept self.new.items result.number }
    {
        match self.by_number.shift_remove_index(place) {
            Some((_, txn)) => txn,
            None => unreachable!(),
        }
    }

    /// Writes a tuple under the transaction at a position.
    pub(crate) fn out_in(
        &mut self,
        place: usize,
        tuple: Tuple,
        lease: Lease,
    ) -> Result<(), AllocError>
        requires { place < length self.old.items }
        ensures ok { OnOk result ((t : TxnValue) → slice_get self.old.items place ≡ Some t
            → self.new.items ≡ slice_set self.old.items place (with_write t tuple lease)) }
        ensures err { OnErr result (self.new.items ≡ self.old.items) }
    {
        let Some(txn) = self.by_number.get_index_mut(place) else {
            unreachable!()
        };
        match txn.out_in(tuple, lease) {
            Ok(()) => Ok(()),
            Err(_) => Err(AllocError),
        }
    }

    /// Takes a tuple of a space under the transaction at a position.
    pub(crate) fn inp_in(
        &mut self,
        world: &mut TxnSpace,
        place: usize,
        template: &Template,
    ) -> Result<Option<Found>, TxnError>
        requires { place < length self.old.items }
        ensures step { StepsAt world.old self.old.items place (inp_in template.now) (find_answer result) world.new self.new.items }
        ensures found { (t : TxnValue) → slice_get self.new.items place ≡ Some t → IfOk result (λ what. IfSome what (Shows template.now t)) }
    {
        let Some(txn) = self.by_number.get_index_mut(place) else {
            unreachable!()
        };
        world.inp_in(txn, template)
    }

    /// Reads a tuple of a space under the transaction at a position.
    pub(crate) fn rdp_in(
        &mut self,
        world: &mut TxnSpace,
        place: usize,
        template: &Template,
    ) -> Result<Option<Found>, TxnError>
        requires { place < length self.old.items }
        ensures step { StepsAt world.old self.old.items place (rdp_in template.now) (find_answer result) world.new self.new.items }
        ensures found { (t : TxnValue) → slice_get self.new.items place ≡ Some t → IfOk result (λ what. IfSome what (Shows template.now t)) }
    {
        let Some(txn) = self.by_number.get_index_mut(place) else {
            unreachable!()
        };
        world.rdp_in(txn, template)
    }

    /// Whether all transactions are live in a space.
    fn are_live(&self, world: &TxnSpace) -> bool
        ensures { result ≡ list_all (λ t. is_live_transaction world.now t.number) self.now.items }
    {
        self.by_number.values().all(|txn| world.is_live(txn))
    }

    /// Drops the transactions that are not live in a space. Where all are, the table isn't built again.
    pub(crate) fn keep_live(&mut self, world: &TxnSpace)
        ensures { self.new.items ≡ live_of world.now self.old.items }
    {
        if self.are_live(world) {
            return;
        }
        self.by_number.retain(
            |_number: &u64, txn: &mut Txn| -> bool
                ensures { (result ≡ is_live_transaction world.entry.now txn.old.number) × (txn.new ≡ txn.old) }
            { world.is_live(txn) },
        );
    }
}
