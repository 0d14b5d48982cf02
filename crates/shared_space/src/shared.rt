//! A multi-threaded space under its law.

ghost use Rattle.std.specs.Prelude.{◌≡◌, ◌+◌, ◌<◌, ◌≤◌, [], true, false, None, Some, IfErr, IfOk, IfSome, MatchResult, OnErr, OnOk, replicate, sum, vec_len};
ghost use Rattle.tuple_match.specs.PatternValue.{Matches};
ghost use Rattle.tuple_space.specs.Space.{most};
ghost use Rattle.space_txn.specs.Content.{content_of};
ghost use Rattle.space_txn.specs.Finding.{Finds, Shows};
ghost use Rattle.space_txn.specs.Machine.{find_answer};
ghost use Rattle.shared_space.specs.Law.{InLawful, IsFree, MayCommit};
ghost use Rattle.shared_space.specs.Limit.{IsWithin};
ghost use Rattle.shared_space.specs.Opening.{IsBlankFor, MayOpen};
ghost use Rattle.shared_space.specs.Run.{IsReached};
ghost use Rattle.shared_space.specs.Refusals.{IsAbortError, IsBeginError, IsCommitError, IsFindError, IsOutError};

use crate::alone::Alone;
use crate::error::{CommitError, SharedError};
use crate::law::Law;
use crate::locking::locked;
use crate::room::Room;
use crate::share::Share;
use crate::steps::Steps;
use crossbeam_utils::CachePadded;
use space_txn::{Found, Spare, Txn, TxnError, TxnSpace};
use std::alloc::{AllocError, Global};
use std::sync::ledger::Blank;
use std::sync::{Condvar, Mutex, Wait};
use tuple_match::{Template, Tuple};
use tuple_space::{EntryId, Lease, SpaceError};

/// A value on its own cache lines. Processors fetch lines in pairs, so it has two lines before it and two after.
type Apart<T> = CachePadded<CachePadded<T>>;

/// A space under a lock. Whenever the lock is free, its content is lawful, all shares created with it count its commits
/// together, these are at most the limit of its law, if it sets one, and it is at a place that its law says is reached.
///
/// Each call takes the lock, makes one call on the space and releases the lock. A call may wait for the lock; its
/// clauses hold if it returns. The space is on its own cache lines: threads that wait for the lock take the line of its
/// word from each other, and leave what the lock's owner works on near its processor.
#[derive(Drop)]
pub struct Shared<L: Law> {
    alone: Mutex<Apart<Alone<L>>>,
    changed: Condvar,
}

impl<L: Law> Shared<L> {
    /// Puts a space with lawful content that has accepted no commit under the law and a lock, with this many shares,
    /// one for each part of the blank. The law sets no limit of commits. If memory runs out, the blank and the space
    /// are returned.
    pub fn new(
        alloc: Global,
        blank: Blank,
        space: TxnSpace,
        shares: usize,
    ) -> Result<(Shared<L>, Vec<Share<L>>), (AllocError, Blank, TxnSpace)>
        requires blank { IsBlankFor L.name L.parts blank shares }
        requires limit { L.limit ≡ None }
        requires space { MayOpen L.lawful None L.reached space shares }
        ensures shares { IfOk result (λ made. made.1.items ≡ replicate shares 0) }
        ensures handed_back { IfErr result (λ back. (back.1 ≡ blank) × (back.2 ≡ space)) }
    {
        Self::under_limit(alloc, blank, space, shares, None)
    }

    /// The same under a law that sets a limit of commits. The commit that reaches it closes the space in the same step, and none
    /// is accepted after it; with a limit of 0 the space is closed from the start.
    pub fn with_limit(
        alloc: Global,
        blank: Blank,
        space: TxnSpace,
        shares: usize,
        limit: u64,
    ) -> Result<(Shared<L>, Vec<Share<L>>), (AllocError, Blank, TxnSpace)>
        requires blank { IsBlankFor L.name L.parts blank shares }
        requires limit { L.limit ≡ Some limit }
        requires space { MayOpen L.lawful (Some limit) L.reached space shares }
        ensures shares { IfOk result (λ made. made.1.items ≡ replicate shares 0) }
        ensures handed_back { IfErr result (λ back. (back.1 ≡ blank) × (back.2 ≡ space)) }
    {
        Self::under_limit(alloc, blank, space, shares, Some(limit))
    }

    /// The same under a law that may set a limit. Where memory runs out, the space is dropped.
    pub fn within(
        alloc: Global,
        blank: Blank,
        space: TxnSpace,
        shares: usize,
        limit: Option<u64>,
    ) -> Result<(Shared<L>, Vec<Share<L>>), AllocError>
        requires blank { IsBlankFor L.name L.parts blank shares }
        requires limit { L.limit ≡ limit }
        requires space { MayOpen L.lawful limit L.reached space shares }
        ensures { IfOk result (λ made. made.1.items ≡ replicate shares 0) }
    {
        match Self::under_limit(alloc, blank, space, shares, limit) {
            Ok(made) => Ok(made),
            Err(_) => Err(AllocError),
        }
    }

    fn under_limit(
        alloc: Global,
        blank: Blank,
        space: TxnSpace,
        shares: usize,
        limit: Option<u64>,
    ) -> Result<(Shared<L>, Vec<Share<L>>), (AllocError, Blank, TxnSpace)>
        requires blank { IsBlankFor L.name L.parts blank shares }
        requires limit { L.limit ≡ limit }
        requires space { MayOpen L.lawful limit L.reached space shares }
        ensures shares { IfOk result (λ made. made.1.items ≡ replicate shares 0) }
        ensures handed_back { IfErr result (λ back. (back.1 ≡ blank) × (back.2 ≡ space)) }
    {
        let (alone, handed) = Alone::limited(alloc, blank, space, shares, limit)?;
        let shared = Shared {
            alone: Mutex::new(CachePadded::new(CachePadded::new(alone))),
            changed: Condvar::new(),
        };
        Ok((shared, handed))
    }

    /// Writes a tuple, outside all transactions; a permanent one only if the law always holds. Refusals: 33, 50; the
    /// tuple is returned.
    pub fn out<R: Wait>(
        &self,
        rt: &R,
        tuple: Tuple,
        lease: Lease,
    ) -> Result<EntryId, (SpaceError, Tuple)>
        requires free { lease ≡ Lease.Forever → IsFree L.lawful L.allowed L.begins L.changes }
        requires changes { L.changes }
        ensures handed_back { IfErr result (λ back. back.1 ≡ tuple) }
        ensures kind { IfErr result (λ back. IsOutError back.0) }
    {
        let put = locked(rt, &self.alone).out(tuple, lease);
        self.changed.notify_all();
        put
    }

    /// Takes a tuple, outside all transactions, or returns `None` if none is available now. Allocates nothing.
    pub fn inp<R: Wait>(&self, rt: &R, template: &Template) -> Option<(EntryId, Tuple)>
        requires { IsFree L.lawful L.allowed L.begins L.changes }
        ensures { IfSome result (λ found. Matches template.now found.1) }
    {
        locked(rt, &self.alone).inp(template)
    }

    /// Copies a tuple, outside all transactions, or returns `None` if none is available now. Refusal: 50.
    pub fn rdp<R: Wait>(
        &self,
        rt: &R,
        template: &Template,
    ) -> Result<Option<(EntryId, Tuple)>, SpaceError>
        ensures matches { IfOk result (λ found. IfSome found (λ pair. Matches template.now pair.1)) }
        ensures kind { IfErr result (λ error. error ≡ SpaceError.OutOfMemory) }
    {
        locked(rt, &self.alone).rdp(template)
    }

    /// Waits until a matching tuple is available, and takes it, outside all transactions. Refusal: 34 if the space is
    /// closed and none is available. Allocates nothing.
    pub fn in_<R: Wait>(&self, rt: &R, template: &Template) -> Result<(EntryId, Tuple), SharedError>
        requires { IsFree L.lawful L.allowed L.begins L.changes }
        ensures matches { IfOk result (λ found. Matches template.now found.1) }
        ensures kind { IfErr result (λ error. error ≡ SharedError.Closed) }
    {
        let mut alone = locked(rt, &self.alone);
        for _ in rt.forever() {
            if let Some(found) = alone.inp(template) {
                return Ok(found);
            }
            if alone.is_closed() {
                return Err(SharedError::Closed);
            }
            alone = self.changed.wait(rt, alone);
        }
        unreachable!()
    }

    /// Waits until a matching tuple is available, and copies it, outside all transactions. Refusals: 34 if the space is
    /// closed and none is available, 50.
    pub fn rd<R: Wait>(&self, rt: &R, template: &Template) -> Result<(EntryId, Tuple), SharedError>
        ensures { IfOk result (λ found. Matches template.now found.1) }
    {
        let mut alone = locked(rt, &self.alone);
        for _ in rt.forever() {
            match alone.rdp(template) {
                Ok(Some(found)) => return Ok(found),
                Ok(None) if alone.is_closed() => return Err(SharedError::Closed),
                Ok(None) => {}
                Err(_) => return Err(SharedError::OutOfMemory),
            }
            alone = self.changed.wait(rt, alone);
        }
        unreachable!()
    }

    /// Begins a transaction with a lease of this many milliseconds, and a day at most. Refusals: 33, 50.
    pub fn begin<R: Wait>(&self, rt: &R, asked: u64) -> Result<Txn, TxnError>
        requires { L.begins asked }
        ensures empty { IfOk result (λ txn. (txn.marks ≡ []) × (txn.writes ≡ [])) }
        ensures kind { IfErr result IsBeginError }
    {
        locked(rt, &self.alone).begin(asked)
    }

    /// Likewise in spare memory, if there is some, so that none is allocated for what the transaction will hold. If
    /// refused, that memory is unchanged.
    pub fn begin_in<R: Wait>(
        &self,
        rt: &R,
        asked: u64,
        spare: &mut Option<Spare>,
    ) -> Result<Txn, TxnError>
        requires { L.begins asked }
        ensures empty { IfOk result (λ txn. (txn.marks ≡ []) × (txn.writes ≡ [])) }
        ensures kind { IfErr result IsBeginError }
    {
        locked(rt, &self.alone).begin_in(asked, spare)
    }

    /// Takes for a transaction a tuple matching the template, or returns `None` if none is available now. Refusals: 31,
    /// 32, 50.
    pub fn inp_in<R: Wait>(
        &self,
        rt: &R,
        txn: &mut Txn,
        template: &Template,
    ) -> Result<Option<Found>, TxnError>
        ensures found { IfOk result (λ found. IfSome found (Shows template.now txn.new)) }
        ensures marks { Finds (InLawful L.lawful) true template.now txn.old (find_answer result) txn.new }
        ensures kind { IfErr result IsFindError }
    {
        locked(rt, &self.alone).inp_in(txn, template)
    }

    /// Reads for a transaction a tuple matching the template, or returns `None` if none is available now. Refusals: 31,
    /// 32, 50.
    pub fn rdp_in<R: Wait>(
        &self,
        rt: &R,
        txn: &mut Txn,
        template: &Template,
    ) -> Result<Option<Found>, TxnError>
        ensures found { IfOk result (λ found. IfSome found (Shows template.now txn.new)) }
        ensures marks { Finds (InLawful L.lawful) false template.now txn.old (find_answer result) txn.new }
        ensures kind { IfErr result IsFindError }
    {
        locked(rt, &self.alone).rdp_in(txn, template)
    }

    /// Commits a transaction, and counts that in the share. What the transaction took, read and wrote must be allowed.
    /// Refusals: 37 if the limit is reached, which is checked first; 31, 32, 33, 50. The transaction is then returned
    /// and the share unchanged.
    pub fn commit<R: Wait>(
        &self,
        rt: &R,
        share: &mut Share<L>,
        txn: Txn,
    ) -> Result<(), (CommitError, Txn)>
        requires { MayCommit L.allowed txn }
        ensures counted { OnOk result (share.new ≡ share.old + 1) }
        ensures uncounted { OnErr result (share.new ≡ share.old) }
        ensures handed_back { IfErr result (λ back. back.1 ≡ txn) }
        ensures kind { IfErr result (λ back. IsCommitError L.limit back.0) }
    {
        let mut alone = locked(rt, &self.alone);
        let ended = alone.commit(share, txn);
        let spent = alone.take_spent();
        drop(alone);
        self.changed.notify_all();
        drop(spent);
        ended
    }

    /// Ends a transaction, whose marks are dropped. Refusals: 31, 32; the transaction is returned. Allocates nothing.
    pub fn abort<R: Wait>(&self, rt: &R, txn: Txn) -> Result<(), (TxnError, Txn)>
        ensures handed_back { IfErr result (λ back. back.1 ≡ txn) }
        ensures kind { IfErr result (λ back. IsAbortError back.0) }
    {
        let mut alone = locked(rt, &self.alone);
        let ended = alone.abort(txn);
        let spent = alone.take_spent();
        drop(alone);
        self.changed.notify_all();
        drop(spent);
        ended
    }

    /// Advances the moment; an earlier moment changes nothing. Refusal: 33 if the moment is past 2^62. Allocates
    /// nothing.
    pub fn advance<R: Wait>(&self, rt: &R, moment: u64) -> Result<(), SpaceError>
        ensures { MatchResult result (λ _. moment ≤ most) (λ error. (most < moment) × (error ≡ SpaceError.Exhausted)) }
    {
        let moved = locked(rt, &self.alone).advance(moment);
        self.changed.notify_all();
        moved
    }

    /// Closes the space if no existing entry's tuple matches the template, or every worker has left, and returns
    /// whether it is closed. A closed space stays closed. Allocates nothing.
    pub fn close<R: Wait>(&self, rt: &R, template: &Template) -> bool {
        let closed = locked(rt, &self.alone).close(template);
        self.changed.notify_all();
        closed
    }

    /// Closes the space, regardless of its content and of its workers. A closed space stays closed. Allocates nothing.
    pub fn shut<R: Wait>(&self, rt: &R) {
        locked(rt, &self.alone).shut();
        self.changed.notify_all();
    }

    /// Whether the space is closed, by `close` or `shut` or since its limit of commits is reached. It changes nothing. With a limit of
    /// 0 the space always is.
    pub fn closed<R: Wait>(&self, rt: &R) -> bool
        ensures { L.limit ≡ Some 0 → result ≡ true }
    {
        locked(rt, &self.alone).is_closed()
    }

    /// Makes steps in a row under one acquisition of the lock, and then wakes those who wait. Each is one call on the
    /// space, as if it had been made separately, except that other threads' calls come before or after all of them.
    pub fn together<R: Wait, S: Steps<L>>(&self, rt: &R, steps: &mut S)
        ensures { S.makes steps.old steps.new }
    {
        let mut alone = locked(rt, &self.alone);
        steps.make(&mut ***alone);
        let spent = alone.take_spent();
        drop(alone);
        self.changed.notify_all();
        drop(spent);
    }

    /// One more worker has left. Allocates nothing.
    pub fn leave<R: Wait>(&self, rt: &R) {
        locked(rt, &self.alone).leave();
        self.changed.notify_all();
    }

    /// The space back for all its shares, with the number of commits that they counted, which is the space's own and at
    /// most the limit. Allocates nothing.
    pub fn into_inner(self, shares: Vec<Share<L>>) -> (TxnSpace, u64)
        requires all { vec_len shares ≡ L.parts }
        requires some { 0 < vec_len shares }
        ensures lawful { L.lawful (content_of result.0) result.0.commits }
        ensures sum { result.1 ≡ sum shares.items }
        ensures commits { result.1 ≡ result.0.commits }
        ensures within { IsWithin L.limit result.0.commits }
        ensures reached { IsReached L.reached result.0 }
    {
        let Shared { alone, changed: _ } = self;
        alone
            .into_inner()
            .into_inner()
            .into_inner()
            .into_inner(shares)
    }
}
