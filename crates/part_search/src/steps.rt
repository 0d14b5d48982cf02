//! The steps of a worker's turn, each one call on the space.

ghost use Rattle.std.specs.Prelude.{◌≡◌, ◌≤ℤ◌, ◌⊎◌, [], ℤ, IfErr, IfOk, IfSome, OnOk, true};
ghost use Rattle.qap_cost.specs.Instance.{Problem};
ghost use Rattle.shared_space.specs.Law.{Content, MayCommit};
ghost use Rattle.shared_space.specs.Refusals.{IsAbortError};
ghost use Rattle.space_txn.specs.Machine.{find_answer, found};
ghost use Rattle.subtree_search.specs.Best.{Best, IsIncumbent};
ghost use Rattle.part_search.specs.Replacement.{MayReplace};
ghost use Rattle.part_search.specs.Tuples.{best_template, node_template};
ghost use Rattle.part_search.specs.Worker.{HasBest, HasBoth, HasTried, IsFoundBest, IsFoundOpen, IsStage, Made};
ghost use Rattle.part_search.specs.declared.stage.Stage.{Stage};

use crate::ground::Ground;
use crate::stage::{Outcome, Stage};
use crate::trying::write_one;
use crate::tuples::{read_best, tuple_of_best};
use qap_cost::Instance;
use shared_space::{CommitError, Law, Room, Share, two_marks_law};
use space_txn::{Found, Txn, TxnError};
use std::alloc::{AllocError, Global};
use subtree_search::Incumbent;
use tuple_match::Template;
use tuple_space::EntryId;

/// Begins a transaction with a lease of this many milliseconds.
pub(crate) fn begin<L: Law, M: Room<L>>(room: &mut M, lease_ms: u64) -> Outcome
    requires { L.begins lease_ms }
    ensures made { (I : Problem) → Made M.did I room.old room.new }
    ensures stage { (I : Problem) (c : ℤ) → IsStage I c result.stage }
{
    match room.begin(lease_ms) {
        Ok(txn) => went_on(Stage::Begun(txn)),
        Err(error) => refused(error, Stage::Idle),
    }
}

/// Takes the entry of an open node.
pub(crate) fn take_node<L: Law, M: Room<L>>(
    room: &mut M,
    template: &Template,
    mut txn: Txn,
) -> Outcome
    requires marks { txn.marks ≡ [] }
    requires writes { txn.writes ≡ [] }
    ensures made { (I : Problem) → Made M.did I room.old room.new }
    ensures stage { (I : Problem) (c : ℤ) → IsStage I c result.stage }
{
    let found = room.inp_in(&mut txn, template);
    told_node(found, txn)
}

fn told_node(found: Result<Option<Found>, TxnError>, txn: Txn) -> Outcome
    requires { IsFoundOpen (find_answer found) txn }
    ensures stage { (I : Problem) (c : ℤ) → IsStage I c result.stage }
{
    match found {
        Ok(Some(found)) => took(found, txn),
        Ok(None) => went_on(Stage::GivingUp(txn)),
        Err(error) => refused(error, Stage::Begun(txn)),
    }
}

/// A write of the transaction itself is not one of an open node.
fn took(what: Found, txn: Txn) -> Outcome
    requires { IsFoundOpen (found what) txn }
    ensures stage { (I : Problem) (c : ℤ) → IsStage I c result.stage }
{
    match what {
        Found::Entry(id) => went_on(Stage::Taken(txn, id)),
        Found::Own(_) => went_on(Stage::GivingUp(txn)),
    }
}

/// Takes the best permutation, and writes the better of it and the incumbent.
pub(crate) fn take_best<L: Law, M: Room<L>>(
    alloc: Global,
    instance: &Instance,
    room: &mut M,
    template: &Template,
    mut txn: Txn,
    incumbent: &mut Incumbent,
) -> Outcome
    requires incumbent { IsIncumbent instance.now incumbent.old }
    requires tried { HasTried instance.now incumbent.old.cost txn }
    ensures made { Made M.did instance.now room.old room.new }
    ensures stage { IsStage instance.now incumbent.new.cost result.stage }
    ensures incumbent { IsIncumbent instance.now incumbent.new }
{
    let found = room.inp_in(&mut txn, template);
    told_best(alloc, instance, found, txn, incumbent)
}

fn told_best(
    alloc: Global,
    instance: &Instance,
    found: Result<Option<Found>, TxnError>,
    txn: Txn,
    incumbent: &mut Incumbent,
) -> Outcome
    requires incumbent { IsIncumbent instance.now incumbent.old }
    requires there { IsFoundBest instance.now incumbent.old.cost (find_answer found) txn }
    ensures stage { IsStage instance.now incumbent.new.cost result.stage }
    ensures incumbent { IsIncumbent instance.now incumbent.new }
{
    match found {
        Ok(Some(found)) => told_found(alloc, instance, found, txn, incumbent),
        Ok(None) => went_on(Stage::GivingUp(txn)),
        Err(error) => refused(error, Stage::Tried(txn)),
    }
}

/// A write of the transaction itself is not one of an incumbent.
fn told_found(
    alloc: Global,
    instance: &Instance,
    what: Found,
    mut txn: Txn,
    incumbent: &mut Incumbent,
) -> Outcome
    requires incumbent { IsIncumbent instance.now incumbent.old }
    requires there { IsFoundBest instance.now incumbent.old.cost (found what) txn }
    ensures stage { IsStage instance.now incumbent.new.cost result.stage }
    ensures incumbent { IsIncumbent instance.now incumbent.new }
{
    match what {
        Found::Entry(id) => {
            let written = write_best(alloc, instance, &mut txn, id, incumbent);
            told_written(written, txn)
        }
        Found::Own(_) => went_on(Stage::GivingUp(txn)),
    }
}

fn told_written(written: Result<bool, AllocError>, txn: Txn) -> Outcome
    ensures stage { (I : Problem) (c : ℤ) → IfOk written (λ done. done ≡ true → MayCommit (MayReplace I) txn) → IsStage I c result.stage }
{
    match written {
        Ok(true) => went_on(Stage::Ready(txn)),
        Ok(false) => went_on(Stage::GivingUp(txn)),
        Err(error) => Outcome {
            stage: Stage::GivingUp(txn),
            told: Err(error),
        },
    }
}

/// Writes the better of the permutation in the entry's tuple and the incumbent, which it becomes. `false` if the tuple
/// is of no permutation with its cost, or its lease ends.
fn write_best(
    alloc: Global,
    instance: &Instance,
    txn: &mut Txn,
    id: EntryId,
    incumbent: &mut Incumbent,
) -> Result<bool, AllocError>
    requires incumbent { IsIncumbent instance.now incumbent.old }
    requires both { HasBoth instance.now incumbent.old.cost id txn.old }
    ensures may { IfOk result (λ done. done ≡ true → MayCommit (MayReplace instance.now) txn.new) }
    ensures incumbent { IsIncumbent instance.now incumbent.new }
{
    two_marks_law();
    let Some(found) = best_at(alloc, instance, txn, id)? else {
        return Ok(false);
    };
    keep_better(incumbent, found);
    let tuple = tuple_of_best(alloc, incumbent)?;
    write_one(txn, tuple)?;
    Ok(true)
}

/// The permutation in the tuple of an entry that was taken, where that is there to stay.
fn best_at(
    alloc: Global,
    instance: &Instance,
    txn: &Txn,
    id: EntryId,
) -> Result<Option<Incumbent>, AllocError>
    ensures { IfOk result (λ found. IfSome found (HasBest instance.now txn.now id)) }
{
    if txn.permanent(id) != Some(true) {
        return Ok(None);
    }
    match txn.tuple(id) {
        Some(tuple) => read_best(alloc, instance, tuple),
        None => Ok(None),
    }
}

/// Keeps the better of two permutations.
pub(crate) fn keep_better(incumbent: &mut Incumbent, found: Incumbent)
    ensures either { (incumbent.new ≡ incumbent.old) ⊎ (incumbent.new ≡ found) }
    ensures incumbent { (I : Problem) → IsIncumbent I incumbent.old → IsIncumbent I found → IsIncumbent I incumbent.new }
    ensures no_worse { incumbent.new.cost ≤ℤ incumbent.old.cost }
    ensures as_good { incumbent.new.cost ≤ℤ found.cost }
{
    if found.cost() < incumbent.cost() {
        *incumbent = found;
    }
}

/// Commits the transaction. Where that is refused for another reason than out of memory, the node is given up.
pub(crate) fn commit<L: Law, M: Room<L>>(
    room: &mut M,
    share: &mut Share<L>,
    instance: &Instance,
    txn: Txn,
) -> Outcome
    requires law { (gone kept added : Content) → MayReplace instance.now gone kept added → L.allowed gone kept added }
    requires may { MayCommit (MayReplace instance.now) txn }
    ensures made { Made M.did instance.now room.old room.new }
    ensures stage { (c : ℤ) → IsStage instance.now c result.stage }
{
    match room.commit(share, txn) {
        Ok(()) => went_on(Stage::Idle),
        Err((CommitError::Txn(TxnError::OutOfMemory), txn)) => Outcome {
            stage: Stage::Ready(txn),
            told: Err(AllocError),
        },
        Err((_, txn)) => Outcome {
            stage: Stage::GivingUp(txn),
            told: Ok(false),
        },
    }
}

/// Ends the transaction without a commit, which takes no memory.
pub(crate) fn abort<L: Law, M: Room<L>>(room: &mut M, txn: Txn) -> Outcome
    ensures made { (I : Problem) → Made M.did I room.old room.new }
    ensures stage { (I : Problem) (c : ℤ) → IsStage I c result.stage }
    ensures ended { result.stage ≡ Stage.Idle }
{
    match room.abort(txn) {
        Ok(()) => went_on(Stage::Idle),
        Err((error, txn)) => refused(error, Stage::GivingUp(txn)),
    }
}

/// A step that met no refusal.
fn went_on(stage: Stage) -> Outcome
    ensures { result.stage ≡ stage }
{
    Outcome {
        stage,
        told: Ok(true),
    }
}

/// A step that met this refusal: without memory the worker is where it was, and else it begins again.
fn refused(error: TxnError, stage: Stage) -> Outcome
    ensures stage { (I : Problem) (c : ℤ) → IsStage I c stage → IsStage I c result.stage }
    ensures ended { IsAbortError error → result.stage ≡ Stage.Idle }
{
    match error {
        TxnError::OutOfMemory => Outcome {
            stage,
            told: Err(AllocError),
        },
        TxnError::Expired | TxnError::Foreign | TxnError::Exhausted => Outcome {
            stage: Stage::Idle,
            told: Ok(false),
        },
    }
}
