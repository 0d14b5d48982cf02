//! A multi-threaded space, as one of its workers sees it.

ghost use Rattle.shared_space.specs.Event.{Event, Reply};

use crate::error::CommitError;
use crate::law::Law;
use crate::room::Room;
use crate::share::Share;
use crate::shared::Shared;
use space_txn::{Found, Spare, Spent, Txn, TxnError};
use std::sync::Wait;
use tuple_match::Template;
use tuple_space::SpaceError;

/// A shared space with the runtime value used for waiting on its lock. The effect of a call is not stated, since other
/// threads' calls come between.
#[derive(Drop)]
pub struct Via<'a, R: Wait, L: Law> {
    rt: &'a R,
    shared: &'a Shared<L>,
}

impl<'a, R: Wait, L: Law> Via<'a, R, L> {
    /// The space as this worker sees it.
    pub fn new(rt: &'a R, shared: &'a Shared<L>) -> Via<'a, R, L> {
        Via { rt, shared }
    }
}

impl<'a, R: Wait, L: Law> Room<L> for Via<'a, R, L> {
    ghost did = { λ _ _ _ _. Unit {0} };

    fn begin(&mut self, asked: u64) -> Result<Txn, TxnError> {
        self.shared.begin(self.rt, asked)
    }

    fn begin_in(&mut self, asked: u64, spare: &mut Option<Spare>) -> Result<Txn, TxnError> {
        self.shared.begin_in(self.rt, asked, spare)
    }

    fn take_spent(&mut self) -> Option<Spent> {
        None
    }

    fn inp_in(&mut self, txn: &mut Txn, template: &Template) -> Result<Option<Found>, TxnError> {
        self.shared.inp_in(self.rt, txn, template)
    }

    fn rdp_in(&mut self, txn: &mut Txn, template: &Template) -> Result<Option<Found>, TxnError> {
        self.shared.rdp_in(self.rt, txn, template)
    }

    fn commit(&mut self, share: &mut Share<L>, txn: Txn) -> Result<(), (CommitError, Txn)> {
        self.shared.commit(self.rt, share, txn)
    }

    fn abort(&mut self, txn: Txn) -> Result<(), (TxnError, Txn)> {
        self.shared.abort(self.rt, txn)
    }

    fn advance(&mut self, moment: u64) -> Result<(), SpaceError> {
        self.shared.advance(self.rt, moment)
    }

    fn close(&mut self, template: &Template) -> bool {
        self.shared.close(self.rt, template)
    }

    fn closed(&self) -> bool {
        self.shared.closed(self.rt)
    }
}
