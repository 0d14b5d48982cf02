//! What accompanies a search.

use crate::tabu::{Beside, Tabu};
use part_search::{Offers, Pieces};
use qap_cost::{Partial, Perm};
use std::sync::Wait;
use std::time;
use subtree_search::TextRecord;

/// What accompanies a search: its keeper, and what takes the pieces of its proof.
#[derive(Drop)]
pub struct Hooks<'a, K, P> {
    pub keeper: &'a K,
    pub pieces: &'a P,
}

/// What a search has beside it: tabu searches, and what takes the pieces of its proof.
#[derive(Drop)]
pub(crate) struct WithPieces<'a, 't, T, P> {
    pub(crate) tabu: &'a Tabu<'t, T>,
    pub(crate) pieces: &'a P,
}

impl<T: Wait + time::Clock, P> Offers for WithPieces<'_, '_, T, P> {
    fn offered(&self, cost: i128) -> Option<Perm> {
        self.tabu.offered(cost)
    }
}

impl<T: Wait + time::Clock, P> Beside for WithPieces<'_, '_, T, P> {
    fn search(&self, number: u16) {
        self.tabu.search(number);
    }

    fn halt(&self) {
        self.tabu.halt();
    }
}

impl<T, P: Pieces> Pieces for WithPieces<'_, '_, T, P> {
    fn are_kept(&self) -> bool {
        self.pieces.are_kept()
    }

    fn keep(&self, node: &Partial, piece: &TextRecord) {
        self.pieces.keep(node, piece);
    }

    fn have_failed(&self) -> bool {
        self.pieces.have_failed()
    }
}
