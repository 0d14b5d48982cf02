//! The steps of a worker's turn that read the incumbent, and the writes that follow.

ghost use Rattle.std.specs.Prelude.{◌≡◌, ◌==◌, ℕ, true, false, ◌++◌, Some, IfOk, MatchOption, OnOk};
ghost use Rattle.qap_cost.specs.Instance.{IsInstance, Problem};
ghost use Rattle.space_txn.specs.Content.{SameItems, added_of};
ghost use Rattle.space_txn.specs.Machine.{find_answer, found};
ghost use Rattle.space_txn.specs.Txn.{TxnValue};
ghost use Rattle.space_txn.specs.declared.txn.Found.TheVariants.{Entry as Stored};
ghost use Rattle.qap_search.specs.Worker.BestSteps.{AfterWrites, HasBestCost, HasBestMark, HasNoBest, IsBestAt, IsFoundBest, Writes};
ghost use Rattle.qap_search.specs.Node.Decision.{IsOn};
ghost use Rattle.qap_search.specs.Tuples.Found.{best_template};
ghost use Rattle.qap_search.specs.Worker.Hand.{is_hopeful, thought_of};
ghost use Rattle.qap_search.specs.Worker.Prepared.{IsPrepared};
ghost use Rattle.qap_search.specs.Law.Replacement.{Best};
ghost use Rattle.qap_search.specs.Law.SearchLaw.{IsSearchLaw};
ghost use Rattle.qap_search.specs.Worker.Standing.{HasNode, IsLastThought, IsStage};
ghost use Rattle.qap_search.specs.Node.Thought.{IsThought};
ghost use Rattle.qap_search.specs.Worker.Turn.{FindsBest, HasMarksOf, TurnsInto};
ghost use Rattle.qap_search.specs.declared.worker.stage.Stage.TheVariants.{Considered};

use crate::node::decision::{decide, decide_anew};
use crate::tuples::parsing::{best_fields, permutation_of};
use crate::worker::forever_writes::put_forever;
use crate::worker::prepared::Prepared;
use crate::worker::stage::{LastThought, Outcome, Stage, Tally};
use crate::worker::turn::{refused, went_on};
use qap_cost::Perm;
use shared_space::{Law, Room, two_marks_law};
use space_txn::{Found, Txn, TxnError};
use std::alloc::{AllocError, Global};
use tuple_match::{Template, Tuple, does_match_law};
use tuple_space::EntryId;

/// Takes the tuple of the best permutation, if none is known or the last evaluation's candidate costs less than that;
/// else reads it, and then what has been prepared for its cost is written as it is.
pub(crate) fn seek_best<L: Law, M: Room<L>>(
    alloc: Global,
    room: &mut M,
    template: &Template,
    mut txn: Txn,
    last: &LastThought,
    prepared: &mut Prepared,
    tally: Tally,
) -> Outcome
    requires template { template.now ≡ best_template }
    requires thought { IsOn last.now.node last.now.thought }
    ensures turn { (I : Problem) (lease : ℕ) → IsInstance I → IsSearchLaw I L.lawful L.allowed → IsLastThought I last.now →
        IsPrepared I (thought_of last.now) prepared.old → HasNode last.now.node txn →
        TurnsInto M.did I lease (Some (thought_of last.now)) (Considered txn) tally room.old result room.new }
    ensures stage { (I : Problem) → IsInstance I → IsSearchLaw I L.lawful L.allowed → IsLastThought I last.now →
        IsPrepared I (thought_of last.now) prepared.old → HasNode last.now.node txn → IsStage I (Some (thought_of last.now)) result.stage }
    ensures accepted { result.tally.accepted ≡ tally.accepted }
{
    does_match_law();
    if tally.is_hopeful(last) {
        let found = room.inp_in(&mut txn, template);
        told_best(alloc, found, txn, last, true, prepared, tally)
    } else {
        let found = room.rdp_in(&mut txn, template);
        told_best(alloc, found, txn, last, false, prepared, tally)
    }
}

fn told_best(
    alloc: Global,
    found: Result<Option<Found>, TxnError>,
    txn: Txn,
    last: &LastThought,
    taking: bool,
    prepared: &mut Prepared,
    tally: Tally,
) -> Outcome
    requires { IsOn last.now.node last.now.thought }
    ensures turn { (I : Problem) (lease : ℕ) (old : TxnValue) → IsLastThought I last.now → IsPrepared I (thought_of last.now) prepared.old →
        IsFoundBest I taking last.now.node (find_answer found) txn →
        FindsBest taking I lease (thought_of last.now) old tally (find_answer found) txn result }
    ensures stage { (I : Problem) → IsLastThought I last.now → IsPrepared I (thought_of last.now) prepared.old →
        IsFoundBest I taking last.now.node (find_answer found) txn → IsStage I (Some (thought_of last.now)) result.stage }
    ensures accepted { result.tally.accepted ≡ tally.accepted }
{
    match found {
        Ok(Some(found)) => told_found(alloc, found, txn, last, taking, prepared, tally),
        Ok(None) => went_on(Stage::GivingUp(txn), tally),
        Err(error) => refused(error, Stage::Considered(txn), tally),
    }
}

/// A write of the transaction itself is not one of an incumbent.
fn told_found(
    alloc: Global,
    what: Found,
    txn: Txn,
    last: &LastThought,
    taking: bool,
    prepared: &mut Prepared,
    tally: Tally,
) -> Outcome
    requires { IsOn last.now.node last.now.thought }
    ensures turn { (I : Problem) (lease : ℕ) (old : TxnValue) → IsLastThought I last.now → IsPrepared I (thought_of last.now) prepared.old →
        IsFoundBest I taking last.now.node (found what) txn →
        FindsBest taking I lease (thought_of last.now) old tally (found what) txn result }
    ensures stage { (I : Problem) → IsLastThought I last.now → IsPrepared I (thought_of last.now) prepared.old →
        IsFoundBest I taking last.now.node (found what) txn → IsStage I (Some (thought_of last.now)) result.stage }
    ensures accepted { result.tally.accepted ≡ tally.accepted }
{
    match what {
        Found::Entry(id) => {
            if taking {
                told_entry(alloc, id, txn, last, taking, tally)
            } else {
                told_read(alloc, id, txn, last, prepared, tally)
            }
        }
        Found::Own(_) => went_on(Stage::GivingUp(txn), tally),
    }
}

/// Writes what was prepared for the cost in the tuple of the entry that was read; else, what that leads to is computed
/// now.
fn told_read(
    alloc: Global,
    id: EntryId,
    txn: Txn,
    last: &LastThought,
    prepared: &mut Prepared,
    tally: Tally,
) -> Outcome
    requires { IsOn last.now.node last.now.thought }
    ensures turn { (I : Problem) (lease : ℕ) (old : TxnValue) → IsLastThought I last.now → IsPrepared I (thought_of last.now) prepared.old →
        HasBestMark I false last.now.node id txn →
        FindsBest false I lease (thought_of last.now) old tally (found (Stored id)) txn result }
    ensures stage { (I : Problem) → IsLastThought I last.now → IsPrepared I (thought_of last.now) prepared.old →
        HasBestMark I false last.now.node id txn → IsStage I (Some (thought_of last.now)) result.stage }
    ensures accepted { result.tally.accepted ≡ tally.accepted }
{
    let Some(cost) = cost_at(&txn, id) else {
        return told_entry(alloc, id, txn, last, false, tally);
    };
    if !prepared.is_for(cost) {
        return told_entry(alloc, id, txn, last, false, tally);
    }
    told_prepared(id, txn, last, prepared, cost, tally)
}

/// Writes what was prepared for the cost in the entry's tuple, which is this, and remembers it.
fn told_prepared(
    id: EntryId,
    mut txn: Txn,
    last: &LastThought,
    prepared: &mut Prepared,
    cost: i128,
    tally: Tally,
) -> Outcome
    requires cost { HasBestCost id txn cost }
    requires prepared { prepared.old.cost ≡ Some cost }
    ensures turn { (I : Problem) (lease : ℕ) (old : TxnValue) → IsLastThought I last.now → IsPrepared I (thought_of last.now) prepared.old →
        HasBestMark I false last.now.node id txn →
        FindsBest false I lease (thought_of last.now) old tally (found (Stored id)) txn result }
    ensures stage { (I : Problem) → IsLastThought I last.now → IsPrepared I (thought_of last.now) prepared.old →
        HasBestMark I false last.now.node id txn → IsStage I (Some (thought_of last.now)) result.stage }
    ensures accepted { result.tally.accepted ≡ tally.accepted }
{
    two_marks_law();
    txn.exchange_writes(&mut prepared.writes);
    told_written(Ok(Some(cost)), txn, tally.with_best(cost))
}

/// If the entry that was found is there to stay, what it leads to is written, and its cost is remembered.
fn told_entry(
    alloc: Global,
    id: EntryId,
    mut txn: Txn,
    last: &LastThought,
    taking: bool,
    tally: Tally,
) -> Outcome
    requires { IsOn last.now.node last.now.thought }
    ensures turn { (I : Problem) (lease : ℕ) (old : TxnValue) → IsLastThought I last.now → HasBestMark I taking last.now.node id txn →
        FindsBest taking I lease (thought_of last.now) old tally (found (Stored id)) txn result }
    ensures stage { (I : Problem) → IsLastThought I last.now → HasBestMark I taking last.now.node id txn →
        IsStage I (Some (thought_of last.now)) result.stage }
    ensures accepted { result.tally.accepted ≡ tally.accepted }
{
    two_marks_law();
    let Some(cost) = cost_at(&txn, id) else {
        return went_on(Stage::GivingUp(txn), tally);
    };
    let written = write(alloc, &mut txn, id, last, taking, cost);
    told_written(written, txn, tally.with_best(cost))
}

fn told_written(written: Result<Option<i128>, AllocError>, txn: Txn, tally: Tally) -> Outcome
    ensures stage { AfterWrites written txn result.told result.stage }
    ensures tally { result.tally ≡ tally }
{
    match written {
        Ok(Some(standing)) => went_on(Stage::Ready(txn, standing), tally),
        Ok(None) => went_on(Stage::GivingUp(txn), tally),
        Err(error) => Outcome {
            stage: Stage::GivingUp(txn),
            tally,
            told: Err(error),
        },
    }
}

/// Writes what the best permutation of the entry, of this cost, leads to, and returns the cost of the incumbent after
/// it. `None` if nothing can be written.
fn write(
    alloc: Global,
    txn: &mut Txn,
    id: EntryId,
    last: &LastThought,
    taking: bool,
    cost: i128,
) -> Result<Option<i128>, AllocError>
    requires { IsOn last.now.node last.now.thought }
    ensures { (I : Problem) (best : Best) → IsThought I last.now.node last.now.thought → IsBestAt id txn.old best → best.cost ≡ cost →
        Writes taking I (thought_of last.now) best txn.old txn.new result }
{
    if taking {
        write_anew(alloc, txn, id, last, cost)
    } else {
        write_beside(alloc, txn, last, cost)
    }
}

/// Writes what is decided of the node under the cost of a best permutation that stays.
fn write_beside(
    alloc: Global,
    txn: &mut Txn,
    last: &LastThought,
    cost: i128,
) -> Result<Option<i128>, AllocError>
    requires { IsOn last.now.node last.now.thought }
    ensures { (I : Problem) (best : Best) → IsThought I last.now.node last.now.thought → best.cost ≡ cost →
        Writes false I (thought_of last.now) best txn.old txn.new result }
{
    let Some(tuples) = decide(alloc, &last.node, &last.thought, cost)? else {
        return Ok(None);
    };
    put(txn, tuples)?;
    Ok(Some(cost))
}

/// Writes the decision on the node together with the incumbent after the commit: the evaluation's candidate if it costs
/// less than the one that was taken, and otherwise that one.
fn write_anew(
    alloc: Global,
    txn: &mut Txn,
    id: EntryId,
    last: &LastThought,
    cost: i128,
) -> Result<Option<i128>, AllocError>
    requires { IsOn last.now.node last.now.thought }
    ensures { (I : Problem) (best : Best) → IsThought I last.now.node last.now.thought → IsBestAt id txn.old best → best.cost ≡ cost →
        Writes true I (thought_of last.now) best txn.old txn.new result }
{
    let Some(perm) = perm_at(alloc, txn, id)? else {
        return Ok(None);
    };
    let Some(tuples) = decide_anew(alloc, &last.node, &last.thought, cost, &perm)? else {
        return Ok(None);
    };
    let standing = last.thought.cost.min(cost);
    put(txn, tuples)?;
    Ok(Some(standing))
}

/// Writes the tuples, permanently.
fn put(txn: &mut Txn, tuples: Vec<Tuple>) -> Result<(), AllocError>
    ensures same { HasMarksOf txn.old txn.new }
    ensures written { OnOk result (SameItems (added_of txn.new.writes) (added_of txn.old.writes ++ tuples.items)) }
{
    match put_forever(txn, tuples) {
        Ok(()) => Ok(()),
        Err(_) => Err(AllocError),
    }
}

/// The cost in the entry's tuple, where that is of a best permutation and there to stay.
fn cost_at(txn: &Txn, id: EntryId) -> Option<i128>
    ensures { MatchOption result (HasNoBest id txn.now) (HasBestCost id txn.now) }
{
    if txn.permanent(id) != Some(true) {
        return None;
    }
    let (cost, _) = best_fields(txn.tuple(id)?)?;
    Some(cost)
}

/// The permutation in the entry's tuple.
fn perm_at(alloc: Global, txn: &Txn, id: EntryId) -> Result<Option<Perm>, AllocError>
    ensures { IfOk result (λ perm. MatchOption perm
        ((best : Best) → IsBestAt id txn.now best → ⊥)
        (λ p. (best : Best) → IsBestAt id txn.now best → best.permutation ≡ p)) }
{
    let Some(tuple) = txn.tuple(id) else {
        return Ok(None);
    };
    let Some((_, locations)) = best_fields(tuple) else {
        return Ok(None);
    };
    permutation_of(alloc, &locations)
}
