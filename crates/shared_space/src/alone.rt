//! A single-threaded space under its law.

ghost use Rattle.std.specs.Prelude.{◌≡◌, ◌<◌, ◌||◌, IfErr, IfOk, IfSome, None, Option, Some, true, replicate, sum, vec_len};
ghost use Rattle.tuple_match.specs.PatternValue.{Matches};
ghost use Rattle.tuple_space.specs.Step.{inp, inp_reply, out, out_reply, rdp, rdp_reply};
ghost use Rattle.space_txn.specs.Content.{content_of};
ghost use Rattle.shared_space.specs.Law.{IsFree};
ghost use Rattle.shared_space.specs.Limit.{DidWithin, IsWithin, is_reached};
ghost use Rattle.shared_space.specs.Opening.{IsBlankFor, MayOpen, opened};
ghost use Rattle.shared_space.specs.Place.{is_to_close, one_left};
ghost use Rattle.shared_space.specs.Refusals.{IsOutError};
ghost use Rattle.shared_space.specs.Run.{Acts, IsReached, outside};

use crate::error::CommitError;
use crate::law::Law;
use crate::room::Room;
use crate::share::{Share, gathered, handed_out};
use space_txn::{Found, Spare, Spent, Txn, TxnError, TxnSpace, content_law};
use std::alloc::{AllocError, Global};
use std::marker::Model;
use std::sync::ledger::{Blank, Book};
use tuple_match::{Template, Tuple, does_match_law};
use tuple_space::{EntryId, Lease, SpaceError};

/// A space of one thread under its law, with the book of its commits: its content is lawful, its shares count its commits
/// together, these are at most the limit of the law, if it sets one, and if they equal the limit it is closed. It is at a
/// place that its law says is reached: each call is one act, which leads there from the previous place.
#[derive(Drop)]
pub struct Alone<L: Law> {
    space: TxnSpace,
    book: Book<L>,
    shares: usize,
    left: usize,
    closed: bool,
    limit: Option<u64>,
    spent: Option<Spent>,
}

impl<L: Law> Model for Alone<L> {
    ghost use Rattle.std.specs.Prelude.{◌≡◌};
    ghost use Rattle.shared_space.specs.Limit.{IsUnderLaw};
    ghost use Rattle.shared_space.specs.Place.{Place, place_of};

    ghost Value = { Place };

    ghost view = { λ a. place_of a.space a.shares a.left a.closed };

    ghost invariant = { λ a. (a.limit ≡ L.limit) × (a.book.total ≡ a.space.commits)
        × IsUnderLaw L.lawful L.limit L.reached (place_of a.space a.shares a.left a.closed) };
}

impl<L: Law> Alone<L> {
    /// Puts a space with lawful content that has accepted no commit under a law without a limit, with this many shares,
    /// one for each part of the blank. If memory runs out, the blank and the space are returned.
    pub fn new(
        alloc: Global,
        blank: Blank,
        space: TxnSpace,
        shares: usize,
    ) -> Result<(Alone<L>, Vec<Share<L>>), (AllocError, Blank, TxnSpace)>
        requires blank { IsBlankFor L.name L.parts blank shares }
        requires limit { L.limit ≡ None }
        requires space { MayOpen L.lawful None L.reached space shares }
        ensures space { IfOk result (λ made. made.0 ≡ opened space shares None) }
        ensures shares { IfOk result (λ made. made.1.items ≡ replicate shares 0) }
        ensures handed_back { IfErr result (λ back. (back.1 ≡ blank) × (back.2 ≡ space)) }
    {
        Self::limited(alloc, blank, space, shares, None)
    }

    /// The same under a law that may set a limit. With a limit of 0 the space is closed.
    pub fn limited(
        alloc: Global,
        blank: Blank,
        space: TxnSpace,
        shares: usize,
        limit: Option<u64>,
    ) -> Result<(Alone<L>, Vec<Share<L>>), (AllocError, Blank, TxnSpace)>
        requires blank { IsBlankFor L.name L.parts blank shares }
        requires limit { L.limit ≡ limit }
        requires space { MayOpen L.lawful limit L.reached space shares }
        ensures space { IfOk result (λ made. made.0 ≡ opened space shares limit) }
        ensures shares { IfOk result (λ made. made.1.items ≡ replicate shares 0) }
        ensures handed_back { IfErr result (λ back. (back.1 ≡ blank) × (back.2 ≡ space)) }
    {
        let Ok(room) = Vec::with_capacity(alloc, shares) else {
            return Err((AllocError, blank, space));
        };
        let (book, part) = blank.open::<L>();
        let handed = handed_out(room, part, shares);
        let alone = Alone {
            space,
            book,
            shares,
            left: 0,
            closed: is_reached(limit, 0),
            limit,
            spent: None,
        };
        Ok((alone, handed))
    }

    /// The space.
    pub fn space(&self) -> &TxnSpace
        ensures value { result.now ≡ self.now.world }
        ensures lawful { L.lawful (content_of result.now) result.now.commits }
    {
        &self.space
    }

    /// Whether the space is closed. With a limit of 0 it always is.
    pub fn is_closed(&self) -> bool
        ensures value { result ≡ self.now.closed }
        ensures at_0 { L.limit ≡ Some 0 → result ≡ true }
    {
        self.closed
    }

    /// Closes the space, regardless of its content. Allocates nothing.
    pub fn shut(&mut self)
        ensures { self.new ≡ record self.old { closed = true } }
    {
        self.closed = true;
    }

    /// Writes a tuple, outside all transactions.
    pub fn out(&mut self, tuple: Tuple, lease: Lease) -> Result<EntryId, (SpaceError, Tuple)>
        requires free { lease ≡ Lease.Forever → IsFree L.lawful L.allowed L.begins L.changes }
        requires changes { L.changes }
        ensures acts { Acts L.limit self.old (outside (out tuple lease) (out_reply result)) self.new }
        ensures handed_back { IfErr result (λ back. back.1 ≡ tuple) }
        ensures kind { IfErr result (λ back. IsOutError back.0) }
    {
        self.space.out(tuple, lease)
    }

    /// Takes a tuple, outside all transactions, or returns `None` if none is available now.
    pub fn inp(&mut self, template: &Template) -> Option<(EntryId, Tuple)>
        requires { IsFree L.lawful L.allowed L.begins L.changes }
        ensures acts { Acts L.limit self.old (outside (inp template.now) (inp_reply result)) self.new }
        ensures matches { IfSome result (λ found. Matches template.now found.1) }
    {
        does_match_law();
        self.space.inp(template)
    }

    /// Copies a tuple, outside all transactions, or returns `None` if none is available now.
    pub fn rdp(&self, template: &Template) -> Result<Option<(EntryId, Tuple)>, SpaceError>
        ensures acts { Acts L.limit self.now (outside (rdp template.now) (rdp_reply result)) self.now }
        ensures matches { IfOk result (λ found. IfSome found (λ pair. Matches template.now pair.1)) }
        ensures kind { IfErr result (λ error. error ≡ SpaceError.OutOfMemory) }
    {
        does_match_law();
        self.space.rdp(template)
    }

    /// One more worker has left. Allocates nothing.
    pub fn leave(&mut self)
        ensures { self.new ≡ one_left self.old }
    {
        if self.left < self.shares {
            self.left += 1;
        }
    }

    /// Whether it is closed, or is to be since every worker has left or no existing entry's tuple matches the template.
    fn is_to_close(&self, template: &Template) -> bool
        ensures { result ≡ is_to_close self.now template.now }
    {
        self.closed || self.left >= self.shares || self.space.lacks(template)
    }

    /// The space back, out of its law. Allocates nothing.
    pub fn into_space(self) -> TxnSpace
        ensures value { result ≡ self.world }
        ensures lawful { L.lawful (content_of result) result.commits }
    {
        self.space
    }

    /// The space back for all its shares, with the number of commits that they counted, which is the space's own and at
    /// most the limit. Allocates nothing.
    pub fn into_inner(self, shares: Vec<Share<L>>) -> (TxnSpace, u64)
        requires all { vec_len shares ≡ L.parts }
        requires some { 0 < vec_len shares }
        ensures space { result.0 ≡ self.world }
        ensures lawful { L.lawful (content_of result.0) result.0.commits }
        ensures sum { result.1 ≡ sum shares.items }
        ensures commits { result.1 ≡ result.0.commits }
        ensures within { IsWithin L.limit result.0.commits }
        ensures reached { IsReached L.reached result.0 }
    {
        let Alone {
            space,
            book,
            shares: _,
            left: _,
            closed: _,
            limit: _,
            spent: _,
        } = self;
        space.commits_law();
        let counted = gathered(book, shares);
        (space, counted)
    }
}

/// Whether this many commits are the limit.
fn is_reached(limit: Option<u64>, commits: u64) -> bool
    ensures { result ≡ is_reached limit commits }
{
    limit == Some(commits)
}

// The law that the calls cite says that none but an accepted commit changes the content or the count of commits.
impl<L: Law> Room<L> for Alone<L> {
    ghost did = { λ old event reply new. DidWithin L.limit old event reply new };

    fn begin(&mut self, asked: u64) -> Result<Txn, TxnError> {
        content_law();
        self.space.begin(asked)
    }

    fn begin_in(&mut self, asked: u64, spare: &mut Option<Spare>) -> Result<Txn, TxnError> {
        content_law();
        self.space.begin_in(asked, spare)
    }

    fn take_spent(&mut self) -> Option<Spent> {
        self.spent.take()
    }

    fn inp_in(&mut self, txn: &mut Txn, template: &Template) -> Result<Option<Found>, TxnError> {
        content_law();
        self.space.inp_in(txn, template)
    }

    fn rdp_in(&mut self, txn: &mut Txn, template: &Template) -> Result<Option<Found>, TxnError> {
        content_law();
        self.space.rdp_in(txn, template)
    }

    fn commit(&mut self, share: &mut Share<L>, txn: Txn) -> Result<(), (CommitError, Txn)> {
        content_law();
        if is_reached(self.limit, self.space.commits()) {
            return Err((CommitError::Limit, txn));
        }
        let spent = match self.space.commit_leaving(txn) {
            Ok(spent) => spent,
            Err((error, txn)) => return Err((CommitError::Txn(error), txn)),
        };
        keep(&mut self.spent, spent);
        self.closed |= is_reached(self.limit, self.space.commits());
        self.book.audit(&mut share.part);
        self.space.commits_law();
        self.book.add(&mut share.part, 1);
        share.count += 1;
        Ok(())
    }

    fn abort(&mut self, txn: Txn) -> Result<(), (TxnError, Txn)> {
        content_law();
        match self.space.abort_leaving(txn) {
            Ok(spent) => {
                keep(&mut self.spent, spent);
                Ok(())
            }
            Err(back) => Err(back),
        }
    }

    fn advance(&mut self, moment: u64) -> Result<(), SpaceError> {
        content_law();
        self.space.advance(moment)
    }

    fn close(&mut self, template: &Template) -> bool {
        self.closed = self.is_to_close(template);
        self.closed
    }

    fn closed(&self) -> bool {
        self.closed
    }
}

/// Keeps what a transaction held in the place of what was kept before.
fn keep(kept: &mut Option<Spent>, spent: Spent) {
    *kept = Some(spent);
}
