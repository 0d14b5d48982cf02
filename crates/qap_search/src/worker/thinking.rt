//! A worker's evaluation of the node that it took.

ghost use Rattle.std.specs.Prelude.{◌≡◌, ◌↔◌, ◌<◌, ◌≤◌, ℕ, IfOk, IsTrue, MatchBool, OnErr, OnOk, Some};
ghost use Rattle.qap_cost.specs.Placement.{IsPlacement};
ghost use Rattle.space_txn.specs.Txn.{TxnValue};
ghost use Rattle.qap_search.specs.Worker.Considering.{Considers, HasNoNode, IsNodeAt, IsOnNode, IsThoughtOn, stage_after};
ghost use Rattle.qap_search.specs.declared.worker.stage.Stage.TheVariants.{Taken};

use crate::node::node_list::read_into;
use crate::node::thought::Thought;
use crate::tuples::parsing::node_numbers;
use crate::worker::gate::Gate;
use crate::worker::stage::{Desk, LastThought, Stage, Tools};
use gilmore_lawler::KeptRows;
use qap_cost::Partial;
use space_txn::Txn;
use std::alloc::{AllocError, Global};
use std::mem::replace;
use tuple_space::EntryId;

/// Evaluates the node that was taken; `false` if its entry's lease ends. At an error nothing
/// changed.
pub(crate) fn think_in<G: Gate>(
    tools: &Tools,
    gate: &G,
    rows: &mut KeptRows,
    desk: &mut Desk,
    stage: &Stage,
    last: &mut Option<LastThought>,
) -> Result<bool, AllocError>
    ensures considers { Considers rows.old stage.now last.old result last.new }
    ensures same { rows.new ≡ rows.old }
{
    let Stage::Taken(txn, id) = stage else {
        return Ok(false);
    };
    let size = rows.instance().size();
    if !read_taken(size, txn, *id, &mut desk.node)? {
        return Ok(false);
    }
    think_on(tools, gate, rows, desk, last)?;
    Ok(true)
}

/// Evaluates the node that was read, where that isn't the one of the last evaluation. At an error nothing changed.
fn think_on<G: Gate>(
    tools: &Tools,
    gate: &G,
    rows: &mut KeptRows,
    desk: &mut Desk,
    last: &mut Option<LastThought>,
) -> Result<(), AllocError>
    requires size { desk.old.node.size ≡ rows.old.size }
    requires placement { IsPlacement desk.old.node }
    ensures thought { OnOk result (IsThoughtOn rows.old desk.old.node last.old last.new) }
    ensures same { rows.new ≡ rows.old }
    ensures unchanged { OnErr result (last.new ≡ last.old) }
{
    if is_on(last, &desk.node) {
        return Ok(());
    }
    rows.reduce_into(&desk.node, &mut desk.matrix)?;
    gate.thinking(tools.worker);
    let thought = desk
        .scratch
        .thought(tools.alloc, rows.instance(), &desk.node, &desk.matrix)?;
    remember(tools.alloc, desk, thought, last);
    Ok(())
}

/// Makes the evaluation of the node that was read the last one, and keeps the memory of the one before.
fn remember(alloc: Global, desk: &mut Desk, thought: Thought, last: &mut Option<LastThought>)
    ensures { last.new ≡ Some (record { node = desk.old.node; thought = thought }) }
{
    let Ok(empty) = Partial::root(alloc, 1) else {
        unreachable!()
    };
    let node = replace(&mut desk.node, empty);
    if let Some(before) = last.replace(LastThought { node, thought }) {
        desk.keep(before);
    }
}

/// Whether the last evaluation is of the node.
fn is_on(last: &Option<LastThought>, node: &Partial) -> bool
    ensures { IsTrue result ↔ IsOnNode last.now node.now }
{
    match last {
        Some(last) => is_same(&last.node, node),
        None => false,
    }
}

/// Whether the nodes are the same.
fn is_same(node: &Partial, other: &Partial) -> bool
    ensures { IsTrue result ↔ (node.now ≡ other.now) }
{
    node.size() == other.size()
        && *node.facilities() == *other.facilities()
        && *node.places() == *other.places()
}

/// Makes this the node of size `n` in the entry's tuple, if that is permanent; returns whether there is one, and
/// otherwise it may be any node.
fn read_taken(n: usize, txn: &Txn, id: EntryId, node: &mut Partial) -> Result<bool, AllocError>
    requires positive { 0 < n }
    requires small { n ≤ 256 }
    ensures { IfOk result (λ read. MatchBool read (IsNodeAt n id txn.now node.new) (HasNoNode n id txn.now)) }
{
    if txn.permanent(id) != Some(true) {
        return Ok(false);
    }
    let Some(tuple) = txn.tuple(id) else {
        return Ok(false);
    };
    let Some(list) = node_numbers(tuple) else {
        return Ok(false);
    };
    read_into(n, &list, node)
}

/// The stage of a worker after an evaluation that was due: whether the node was evaluated.
pub(crate) fn stage_thought(stage: Stage, considered: bool) -> Stage
    ensures { (t : TxnValue) (number : ℕ) → stage ≡ Taken t number → result ≡ stage_after considered t }
{
    match stage {
        Stage::Taken(txn, _) => {
            if considered {
                Stage::Considered(txn)
            } else {
                Stage::GivingUp(txn)
            }
        }
        stage => stage,
    }
}
