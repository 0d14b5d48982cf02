//! A worker's share of the accepted commits.

ghost use Rattle.std.specs.Prelude.{◌≡◌, ◌<◌, ◌≤◌, [], replicate, sum, vec_capacity, vec_len};
ghost use Rattle.tuple_space.specs.Space.{most};

use crate::law::Law;
use std::marker::Model;
use std::sync::ledger::{Book, Share as Part};

/// One part of a space's ledger, with the number of accepted commits that were reported to its worker. Its type ties it
/// to the space with which it was created.
#[derive(Drop)]
pub struct Share<L: Law> {
    pub(crate) part: Part<L>,
    pub(crate) count: u64,
}

impl<L: Law> Model for Share<L> {
    ghost use Rattle.std.specs.Prelude.{◌≡◌, ℕ};

    ghost Value = { ℕ };

    ghost view = { λ s. s.count };

    ghost invariant = { λ s. (s.part.parts ≡ 1) × (s.part.amount ≡ s.count) };
}

impl<L: Law> Share<L> {
    /// How many accepted commits were reported to its worker.
    pub fn commits(&self) -> u64
        ensures { result ≡ self.now }
    {
        self.count
    }
}

/// Shares of one part each and no commits, as many as the capacity allows.
pub(crate) fn handed_out<L: Law>(room: Vec<Share<L>>, part: Part<L>, shares: usize) -> Vec<Share<L>>
    requires empty { room.items ≡ [] }
    requires enough { shares ≤ vec_capacity room }
    requires parts { part.parts ≡ shares }
    requires amount { part.amount ≡ 0 }
    ensures { result.items ≡ replicate shares 0 }
{
    let mut handed = room;
    let mut rest = part;
    for _ in 0..shares {
        let part = rest.split_off(1, 0);
        handed.push(Share { part, count: 0 }).unwrap();
    }
    handed
}

/// The number of commits that all shares of a book have counted.
pub(crate) fn gathered<L: Law>(book: Book<L>, shares: Vec<Share<L>>) -> u64
    requires few { book.total ≤ most }
    requires all { vec_len shares ≡ L.parts }
    requires some { 0 < vec_len shares }
    ensures sum { result ≡ sum shares.items }
    ensures total { result ≡ book.total }
{
    let mut book = book;
    let mut rest = shares;
    let Some(Share { part, count }) = rest.pop() else {
        unreachable!()
    };
    let mut all = part;
    let mut counted = count;
    while let Some(Share { part, count }) = rest.pop() {
        all.merge(part);
        book.audit(&mut all);
        counted += count;
    }
    book.audit(&mut all);
    counted
}
