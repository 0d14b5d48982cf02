//! The space with transactions, and its calls.

ghost use Rattle.std.specs.Prelude.{◌≡◌, ◌≤◌, ◌==◌, count_by, true, false, Contains, IfErr, IfOk, IfSome, OnOk, MatchResult};
ghost use Rattle.tuple_space.specs.Entry.{is_counted};
ghost use Rattle.tuple_space.specs.Index.{class_of, has_class};
ghost use Rattle.tuple_space.specs.Places.{items_in};
ghost use Rattle.tuple_space.specs.Step as space;
ghost use Rattle.tuple_space.specs.Space.{IsSpace, most};
ghost use Rattle.space_txn.specs.Content.{ChangesContent, content_of};
ghost use Rattle.space_txn.specs.Finding.{Finds, Shows};
ghost use Rattle.space_txn.specs.World.{IsWorld, is_live_transaction, opening, with_space};
ghost use Rattle.space_txn.specs.Machine.{IsAccepted, IsRefused, Step, BeginStep, AdvanceStep, abort, commit, end_answer, find_answer, inp_in, rdp_in, renew_answer, renew_txn};

use crate::error::{TxnError, refusal_of};
use crate::finding::{find_own, mark_for, put_mark_on, take_marked, take_own};
use crate::lists::{Spare, Spent};
use crate::live::{Live, abort_ended};
use crate::mark::{are_marks_in, has_mark_on};
use crate::transactions::Transactions;
use crate::txn::{Found, Txn};
use std::alloc::{AllocError, Global};
use std::marker::Model;
use tuple_match::{Template, Tuple};
use tuple_space::{Claim, Entry, EntryId, Lease, MOST, Space, SpaceError, granted_end};

/// A space of tuples with transactions.
#[derive(Debug, Drop)]
pub struct TxnSpace {
    space: Space,
    live: Transactions,
    begun: u64,
    commits: u64,
}

impl Model for TxnSpace {
    ghost use Rattle.space_txn.specs.Content.{ChangesContent, content_of};
    ghost use Rattle.space_txn.specs.World.{IsWorld, World, world_of};

    ghost Value = { World };

    ghost view = { λ w. world_of w.space w.live w.begun w.commits };

    ghost invariant = { λ w. IsWorld (world_of w.space w.live w.begun w.commits) };
}

impl TxnSpace {
    /// A space with no tuples and no transactions, at the moment 0. Allocates nothing.
    pub fn new(alloc: Global) -> TxnSpace
        ensures { result ≡ opening }
    {
        TxnSpace {
            space: Space::new(alloc),
            live: Transactions::new(alloc),
            begun: 0,
            commits: 0,
        }
    }

    /// A space with no tuples and no transactions, at the moment 0, in which so many commits were accepted. Allocates nothing.
    pub fn after(alloc: Global, commits: u64) -> TxnSpace
        requires { commits ≤ most }
        ensures { result ≡ record opening { commits = commits } }
    {
        TxnSpace {
            commits,
            ..TxnSpace::new(alloc)
        }
    }

    /// The moment, in milliseconds. Its clauses also state what holds for every space.
    pub fn now(&self) -> u64
        ensures moment { result ≡ self.now.space.moment }
        ensures space { IsSpace self.now.space }
        ensures world { IsWorld self.now }
    {
        self.space.now()
    }

    /// How many commits were accepted.
    pub fn commits(&self) -> u64
        ensures value { result ≡ self.now.commits }
        ensures few { result ≤ most }
    {
        self.commits
    }

    /// How many commits there are at most, for a proof that needs it. It costs nothing.
    pub fn commits_law(&self)
        ensures { self.now.commits ≤ most }
    {
        let _ = &self.commits;
    }

    /// Writes a tuple, outside all transactions. Refusals: 33, 50; the tuple is returned.
    pub fn out(&mut self, tuple: Tuple, lease: Lease) -> Result<EntryId, (SpaceError, Tuple)>
        ensures step { space.Step self.old.space (space.out tuple lease) (space.out_reply result) self.new.space }
        ensures rest { self.new ≡ with_space self.old self.new.space }
        ensures handed_back { IfErr result (λ back. back.1 ≡ tuple) }
    {
        self.space.out(tuple, lease)
    }

    /// Takes a tuple, outside all transactions, or returns `None` if none is available now. Allocates nothing.
    pub fn inp(&mut self, template: &Template) -> Option<(EntryId, Tuple)>
        ensures step { space.Step self.old.space (space.inp template.now) (space.inp_reply result) self.new.space }
        ensures rest { self.new ≡ with_space self.old self.new.space }
    {
        self.space.inp(template)
    }

    /// Copies a tuple, outside all transactions, or returns `None` if none is available now. Refusal: 50.
    pub fn rdp(&self, template: &Template) -> Result<Option<(EntryId, Tuple)>, SpaceError>
        ensures { space.Step self.now.space (space.rdp template.now) (space.rdp_reply result) self.now.space }
    {
        self.space.rdp(template)
    }

    /// Renews the lease of a live entry. Refusal: 35. Allocates nothing.
    pub fn renew(&mut self, id: EntryId, lease: Lease) -> Result<(), SpaceError>
        ensures step { space.Step self.old.space (space.renew id lease) (space.done_reply result) self.new.space }
        ensures rest { self.new ≡ with_space self.old self.new.space }
    {
        self.space.renew(id, lease)
    }

    /// How many existing entries have tuples matching the template, including held ones. Allocates nothing.
    pub fn count(&self, template: &Template) -> u64
        ensures { space.Step self.now.space (space.count template.now) (space.told result) self.now.space }
    {
        self.space.count(template)
    }

    /// How many entries the space has whose tuples begin with this word, have this many fields, and have a list of this
    /// many numbers as their second; with 0 numbers, those whose second field is not a list are counted too. It
    /// includes held ones, allocates nothing, and takes constant time.
    pub fn count_of_class(&self, word: &str, fields: usize, numbers: usize) -> usize
        ensures { result ≡ count_by (λ e. has_class (class_of word.now fields numbers) e.tuple) self.now.space.entries }
    {
        self.space.count_of_class(word, fields, numbers)
    }

    /// Whether no existing entry's tuple matches the template, including held ones. Allocates nothing.
    pub fn lacks(&self, template: &Template) -> bool
        ensures { result ≡ (count_by (is_counted self.now.space.moment template.now) self.now.space.entries == 0) }
    {
        self.space.lacks(template)
    }

    /// Advances the moment, which first aborts the transactions whose lease has ended and then drops entries that are
    /// gone; an earlier moment changes nothing. Refusal: 33 if the moment is past 2^62. Allocates nothing.
    pub fn advance(&mut self, moment: u64) -> Result<(), SpaceError>
        ensures { AdvanceStep self.old moment (space.done_reply result) self.new }
    {
        if moment > MOST {
            return Err(SpaceError::Exhausted);
        }
        if moment < self.space.now() {
            return Ok(());
        }
        abort_ended(&mut self.space, self.live.as_slice(), moment);
        self.live.drop_ended(moment);
        self.space.advance(moment)
    }

    /// Begins a transaction with a lease of this many milliseconds, at most a day. Refusals: 33 if the numbers are used
    /// up, 50.
    pub fn begin(&mut self, asked: u64) -> Result<Txn, TxnError>
        ensures { BeginStep self.old asked result self.new }
    {
        self.begin_in(asked, &mut None)
    }

    /// Likewise in spare memory, if there is some, so that none is allocated for what the transaction will hold. If
    /// refused, that memory is unchanged.
    pub fn begin_in(&mut self, asked: u64, spare: &mut Option<Spare>) -> Result<Txn, TxnError>
        ensures { BeginStep self.old asked result self.new }
    {
        if self.begun >= MOST {
            return Err(TxnError::Exhausted);
        }
        let number = self.begun + 1;
        let memory = match spare.take() {
            Some(memory) => memory,
            None => Spare::new(self.live.allocator())?,
        };
        let end = granted_end(self.space.now(), asked);
        if let Err(error) = self.live.add(Live { number, end }) {
            *spare = Some(memory);
            return Err(error.into());
        }
        self.begun = number;
        let lists = memory.into_lists();
        Ok(Txn { number, lists })
    }

    /// Whether this is the value of a live transaction of this space. Refusals: 31, 32.
    fn accept(&self, txn: &Txn) -> Result<(), TxnError>
        ensures judged { MatchResult result (λ _. IsAccepted self.now txn.now) (IsRefused self.now txn.now) }
        ensures valid { IsSpace self.now.space }
    {
        if !self.live.is_live(self.space.now(), txn.number) {
            return Err(TxnError::Expired);
        }
        if !are_marks_in(&self.space, &txn.lists.marks, txn.number) {
            return Err(TxnError::Foreign);
        }
        Ok(())
    }

    /// Takes for a transaction a tuple matching the template: one in the space, or if none is available there, one that
    /// the transaction wrote. `None` if there is none of these either. Refusals: 31, 32, 50. Taking what it has read
    /// allocates nothing.
    pub fn inp_in(&mut self, txn: &mut Txn, template: &Template) -> Result<Option<Found>, TxnError>
        ensures step { Step self.old txn.old (inp_in template.now) (find_answer result) self.new txn.new }
        ensures found { IfOk result (λ found. IfSome found (Shows template.now txn.new)) }
        ensures marks { Finds (Contains (content_of self.old)) true template.now txn.old (find_answer result) txn.new }
        ensures content { content_of self.new ≡ content_of self.old }
    {
        self.accept(txn)?;
        let Some(entry) = self.space.search(Claim::TakeBy(txn.number), template) else {
            return Ok(take_own(&mut txn.lists.writes, template));
        };
        let id = entry.id();
        if has_mark_on(&txn.lists.marks, id.number()) {
            let permanent = entry.end.is_permanent();
            take_marked(
                &mut self.space,
                &mut txn.lists.marks,
                txn.number,
                id,
                permanent,
            );
            return Ok(Some(Found::Entry(id)));
        }
        let mark = mark_for(entry, true)?;
        put_mark_on(&mut self.space, &mut txn.lists.marks, txn.number, id, mark)?;
        Ok(Some(Found::Entry(id)))
    }

    /// Reads for a transaction a tuple matching the template: one in the space, or if none is available there, one that
    /// the transaction wrote. `None` if there is none of these either. Refusals: 31, 32, 50.
    pub fn rdp_in(&mut self, txn: &mut Txn, template: &Template) -> Result<Option<Found>, TxnError>
        ensures step { Step self.old txn.old (rdp_in template.now) (find_answer result) self.new txn.new }
        ensures found { IfOk result (λ found. IfSome found (Shows template.now txn.new)) }
        ensures marks { Finds (Contains (content_of self.old)) false template.now txn.old (find_answer result) txn.new }
        ensures content { content_of self.new ≡ content_of self.old }
    {
        self.accept(txn)?;
        let Some(entry) = self.space.search(Claim::Read, template) else {
            return Ok(find_own(&txn.lists.writes, template));
        };
        let id = entry.id();
        if has_mark_on(&txn.lists.marks, id.number()) {
            return Ok(Some(Found::Entry(id)));
        }
        let mark = mark_for(entry, false)?;
        put_mark_on(&mut self.space, &mut txn.lists.marks, txn.number, id, mark)?;
        Ok(Some(Found::Entry(id)))
    }

    /// Whether the transaction is live in this space.
    pub fn is_live(&self, txn: &Txn) -> bool
        ensures { result ≡ is_live_transaction self.now txn.now.number }
    {
        self.live.is_live(self.space.now(), txn.number)
    }

    /// Renews a transaction's lease: its end is the later of its old end and that of a lease granted now. Refusals: 31,
    /// 32. Allocates nothing.
    pub fn renew_txn(&mut self, txn: &Txn, asked: u64) -> Result<(), TxnError>
        ensures { Step self.old txn.now (renew_txn asked) (renew_answer result) self.new txn.now }
    {
        self.accept(txn)?;
        let end = granted_end(self.space.now(), asked);
        self.live.renew(txn.number, end);
        Ok(())
    }

    /// Ends a transaction, whose marks are dropped. Refusals: 31, 32; the transaction is returned. Allocates nothing.
    pub fn abort(&mut self, txn: Txn) -> Result<(), (TxnError, Txn)>
        ensures step { Step self.old txn abort (end_answer result) self.new txn }
        ensures handed_back { IfErr result (λ back. back.1 ≡ txn) }
    {
        match self.abort_leaving(txn) {
            Ok(_) => Ok(()),
            Err(back) => Err(back),
        }
    }

    /// The same, where what the transaction held is left for the caller to drop. Allocates nothing.
    pub fn abort_leaving(&mut self, txn: Txn) -> Result<Spent, (TxnError, Txn)>
        ensures step { Step self.old txn abort (end_answer result) self.new txn }
        ensures handed_back { IfErr result (λ back. back.1 ≡ txn) }
    {
        if let Err(error) = self.accept(&txn) {
            return Err((error, txn));
        }
        self.space.unpin(txn.number);
        self.live.remove(txn.number);
        let Txn { number: _, lists } = txn;
        Ok(Spent { lists })
    }

    /// Ends a transaction with effect: what it wrote is added, what it took is removed, its marks are dropped.
    /// Refusals: 31, 32, 33 if the commits or the numbers of entries are used up, 50; the transaction is returned.
    pub fn commit(&mut self, txn: Txn) -> Result<(), (TxnError, Txn)>
        ensures step { Step self.old txn commit (end_answer result) self.new txn }
        ensures handed_back { IfErr result (λ back. back.1 ≡ txn) }
        ensures content { OnOk result (ChangesContent self.old self.new txn) }
    {
        match self.commit_leaving(txn) {
            Ok(_) => Ok(()),
            Err(back) => Err(back),
        }
    }

    /// The same, where what the transaction held is left for the caller to drop.
    pub fn commit_leaving(&mut self, txn: Txn) -> Result<Spent, (TxnError, Txn)>
        ensures step { Step self.old txn commit (end_answer result) self.new txn }
        ensures handed_back { IfErr result (λ back. back.1 ≡ txn) }
        ensures content { OnOk result (ChangesContent self.old self.new txn) }
    {
        if let Err(error) = self.accept(&txn) {
            return Err((error, txn));
        }
        if self.commits >= MOST {
            return Err((TxnError::Exhausted, txn));
        }
        let Txn { number, mut lists } = txn;
        if let Err(error) = self.space.put_from(&mut lists.writes) {
            return Err((refusal_of(error), Txn { number, lists }));
        }
        self.space.remove_taken(number);
        self.space.unpin(number);
        self.live.remove(number);
        self.commits += 1;
        Ok(Spent { lists })
    }

    /// The entries, in order of number, in their places: that of one that left may be empty.
    pub fn entries(&self) -> &[Option<Entry>]
        ensures { items_in result.now ≡ self.now.space.entries }
    {
        self.space.entries()
    }

    /// Extracts the permanent tuples in the order in which they were written, including held ones. If memory runs out,
    /// the space is returned unchanged.
    pub fn into_tuples(self) -> Result<Vec<Tuple>, (AllocError, TxnSpace)>
        ensures ok { IfOk result (λ tuples. tuples.items ≡ content_of self) }
        ensures handed_back { IfErr result (λ back. back.1 ≡ self) }
    {
        let TxnSpace {
            space,
            live,
            begun,
            commits,
        } = self;
        match space.into_permanent() {
            Ok(tuples) => Ok(tuples),
            Err((error, space)) => Err((
                error,
                TxnSpace {
                    space,
                    live,
                    begun,
                    commits,
                },
            )),
        }
    }
}
