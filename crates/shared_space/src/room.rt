//! The interface through which workers use a space.

ghost use Rattle.std.specs.Prelude.{◌≡◌, ◌+◌, [], true, false, IfErr, IfOk, IfSome, OnErr, OnOk};
ghost use Rattle.tuple_space.specs.Step.{done_reply};
ghost use Rattle.space_txn.specs.Finding.{Finds, Shows};
ghost use Rattle.space_txn.specs.Machine.{abort, commit, end_answer, find_answer, inp_in, rdp_in};
ghost use Rattle.shared_space.specs.Event.{Event, Reply, advance, answered, ask, begin, begun, call, close, commit_reply, moved, told};
ghost use Rattle.shared_space.specs.Law.{InLawful, MayCommit};
ghost use Rattle.shared_space.specs.Refusals.{IsAbortError};

use crate::error::CommitError;
use crate::law::Law;
use crate::share::Share;
use space_txn::{Found, Spare, Spent, Txn, TxnError};
use tuple_match::Template;
use tuple_space::SpaceError;

/// A space of a law as its workers see it. Each call is one step of the space.
pub trait Room<L: Law> {
    /// What a call may do: from a room, for an event and its reply, to a room.
    ghost did: { Self → Event → Reply → Self → Type 0 };

    /// Begins a transaction with a lease of this many milliseconds, and a day at most. Refusals: 33, 50.
    fn begin(&mut self, asked: u64) -> Result<Txn, TxnError>
        requires { L.begins asked }
        ensures did { did self.old (begin asked) (begun result) self.new }
        ensures empty { IfOk result (λ txn. (txn.marks ≡ []) × (txn.writes ≡ [])) };

    /// Likewise in spare memory, if there is some, so that none is allocated for what the transaction will hold. If
    /// refused, that memory is unchanged.
    fn begin_in(&mut self, asked: u64, spare: &mut Option<Spare>) -> Result<Txn, TxnError>
        requires { L.begins asked }
        ensures did { did self.old (begin asked) (begun result) self.new }
        ensures empty { IfOk result (λ txn. (txn.marks ≡ []) × (txn.writes ≡ [])) };

    /// What the transaction held that was ended last, where the room has kept that and it hasn't been taken before. This is no step.
    fn take_spent(&mut self) -> Option<Spent>
        ensures { self.new ≡ self.old };

    /// Takes for a transaction a tuple matching the template, or returns `None` if none is available now. A permanent
    /// entry's tuple is one that a lawful content holds. Refusals: 31, 32, 50.
    fn inp_in(&mut self, txn: &mut Txn, template: &Template) -> Result<Option<Found>, TxnError>
        ensures did { did self.old (call txn.old (inp_in template.now)) (answered (find_answer result) txn.new) self.new }
        ensures found { IfOk result (λ found. IfSome found (Shows template.now txn.new)) }
        ensures marks { Finds (InLawful L.lawful) true template.now txn.old (find_answer result) txn.new };

    /// Reads for a transaction a tuple matching the template, or returns `None` if none is available now. A permanent
    /// entry's tuple is one that a lawful content holds. Refusals: 31, 32, 50.
    fn rdp_in(&mut self, txn: &mut Txn, template: &Template) -> Result<Option<Found>, TxnError>
        ensures did { did self.old (call txn.old (rdp_in template.now)) (answered (find_answer result) txn.new) self.new }
        ensures found { IfOk result (λ found. IfSome found (Shows template.now txn.new)) }
        ensures marks { Finds (InLawful L.lawful) false template.now txn.old (find_answer result) txn.new };

    /// Commits a transaction, and counts that in the share. What the transaction took, read and wrote must be allowed.
    /// Refusals: 37 if there is a limit and it is reached, which is checked first; 31, 32, 33, 50. The transaction is
    /// then returned and the share unchanged.
    fn commit(&mut self, share: &mut Share<L>, txn: Txn) -> Result<(), (CommitError, Txn)>
        requires { MayCommit L.allowed txn }
        ensures did { did self.old (call txn commit) (commit_reply txn result) self.new }
        ensures counted { OnOk result (share.new ≡ share.old + 1) }
        ensures uncounted { OnErr result (share.new ≡ share.old) }
        ensures handed_back { IfErr result (λ back. back.1 ≡ txn) };

    /// Ends a transaction, whose marks are dropped. Refusals: 31, 32; the transaction is returned. Allocates nothing.
    fn abort(&mut self, txn: Txn) -> Result<(), (TxnError, Txn)>
        ensures did { did self.old (call txn abort) (answered (end_answer result) txn) self.new }
        ensures handed_back { IfErr result (λ back. back.1 ≡ txn) }
        ensures kind { IfErr result (λ back. IsAbortError back.0) };

    /// Advances the moment; an earlier moment changes nothing. Refusal: 33 where the moment is past 2^62. Allocates
    /// nothing.
    fn advance(&mut self, moment: u64) -> Result<(), SpaceError>
        ensures { did self.old (advance moment) (moved (done_reply result)) self.new };

    /// Closes the space if no existing entry's tuple matches the template, or every worker has left, and returns
    /// whether it is closed. A closed space stays closed. Allocates nothing.
    fn close(&mut self, template: &Template) -> bool
        ensures { did self.old (close template.now) (told result) self.new };

    /// Whether the space is closed. It changes nothing.
    fn closed(&self) -> bool
        ensures { did self.now ask (told result) self.now };
}
