//! Whether a proof establishes that no permutation which completes its root costs less than its bound.

ghost use Rattle.std.specs.Prelude.{◌≡◌, ◌<◌, ◌⊎◌, length, true, false, MatchResult, None, OnOk};
ghost use Rattle.number_list.specs.NumberList.{numbers_held};
ghost use Rattle.qap_cost.specs.Objective.{IsLeast, cost_of};
ghost use Rattle.qap_cost.specs.Placement.{IsPlacement};
ghost use Rattle.qap_lines.specs.Line.{line_after};
ghost use Rattle.qap_proof.specs.Cell.{others_on};
ghost use Rattle.qap_proof.specs.Claim.{NoneCompletesForLess, Proves};
ghost use Rattle.qap_proof.specs.Fault.{IsClosedFault, IsFault, IsPermMisfit, IsTreeFault, IsTreeFaultAmong};
ghost use Rattle.qap_proof.specs.Memory.{node_of, nodes_of};
ghost use Rattle.qap_proof.specs.NodeLine.{kept_pair_of, split_of};
ghost use Rattle.gilmore_lawler.specs.Closing.{AreDuals, Closes};
ghost use Rattle.qap_proof.specs.Shape.{HasShape, AllHaveShape, IsSplit, free_count, has_duals as has};
ghost use Rattle.qap_proof.specs.Tree.{child as child_place, child_of, cut, mirrored, node_count, nodes_count, split as split_into, whole};
ghost use Rattle.qap_proof.specs.Valid.{AllValid, MayFit, Valid};
ghost use Rattle.qap_proof.specs.Walk.{AreReached};
ghost use Rattle.qap_proof.specs.declared.error.ProofError.TheVariants.{OutOfMemory, NotFeasible as Misfit};

use crate::acceptance::perm_misfit;
use crate::children::{child_node, free_others};
use crate::error::ProofError;
use crate::node_line::SplitLine;
use crate::proof::Proof;
use crate::tree::{KeptDuals, Tree};
use crate::walking::{Judge, Parent, judge_closed, judge_cut, judge_mirrored, judge_split};
use gilmore_lawler::{NodeRows, RankedInstance};
use qap_cost::{Instance, Partial, Perm};
use std::alloc::Global;

/// Whether the proof alone establishes that no permutation of the instance which completes its root costs less than its
/// bound. If the root is empty and the bound is the cost, that is the least cost.
///
/// The permutation must be of the instance's size (`SizeDiffers(2)` if not) and have the cost (`CostDiffers(3)`). Then
/// each node of the tree, in preorder, must be valid: the duals of a closed node and of a split must fit the
/// Gilmore-Lawler matrix of their part (`NotFeasible`), and those of a closed node, plus the cost of the placed
/// facilities, must be at least the proof's bound (`BoundTooLow`); likewise those of the split above a pruned child,
/// where the entry of the pair that the child places replaces its two duals (`CutTooLow`); and the permutation of a
/// symmetric child must preserve the distances, or the flows if its split is on a location, fix what is placed, and map
/// the earlier child to this one (`NotAnImage`). The first that fails is reported by its line in the proof's text.
/// `OutOfMemory` implies nothing about the proof.
pub fn check(alloc: Global, instance: &Instance, proof: &Proof) -> Result<(), ProofError>
    ensures verdict { MatchResult result
        (λ done. Proves instance.now proof.now)
        (λ e. (e ≡ OutOfMemory) ⊎ IsFault instance.now proof.now e) }
    ensures bound { OnOk result (NoneCompletesForLess instance.now proof.now.root proof.now.bound) }
    ensures least { OnOk result (length proof.now.root.facilities ≡ 0 → proof.now.bound ≡ proof.now.cost → IsLeast instance.now proof.now.cost) }
{
    check_stated(instance, proof)?;
    let ranked = RankedInstance::new(alloc, instance)?;
    let mut rows = NodeRows::new(alloc, &ranked);
    let judge = Judge {
        alloc,
        instance,
        bound: proof.bound(),
    };
    let line = proof.tree_line();
    check_root(&mut rows, &judge, proof.root(), proof.tree(), line)?;
    Ok(())
}

/// Whether the permutation is of the instance's size and has the cost.
fn check_stated(instance: &Instance, proof: &Proof) -> Result<(), ProofError>
    ensures { MatchResult result
        (λ done. (length proof.now.permutation ≡ instance.now.size) × (cost_of instance.now proof.now.permutation ≡ proof.now.cost))
        (IsPermMisfit instance.now proof.now.permutation proof.now.cost) }
{
    match perm_misfit(instance, proof.perm(), proof.cost()) {
        Some(fault) => Err(fault),
        None => Ok(()),
    }
}

/// The line after those of a tree over a root that begins at this line, if it proves that no permutation which
/// completes the root costs less than the bound; and if not, the first semantic fault.
fn check_root(
    rows: &mut NodeRows<'_>,
    judge: &Judge<'_>,
    node: &Partial,
    tree: &Tree,
    line: u64,
) -> Result<u64, ProofError>
    requires size { judge.now.instance.now.size ≡ node.now.size }
    requires shape { HasShape node.now 0 false (node_of tree.now) }
    requires rows { rows.old ≡ judge.now.instance.now }
    ensures { MatchResult result
        (λ next. Valid judge.now.instance.now judge.now.bound (whole node.now) (node_of tree.now) × (next ≡ line_after line (node_count (node_of tree.now))))
        (λ e. (e ≡ OutOfMemory) ⊎ IsTreeFault judge.now.instance.now judge.now.bound (whole node.now) line (node_of tree.now) e) }
{
    match tree {
        Tree::Closed { duals } => {
            check_closed(rows, judge, node, duals, line)?;
            Ok(line.saturating_add(1))
        }
        Tree::Split { split, children } => { check_split(rows, judge, node, split, children, line) }
        Tree::Cut => unreachable!(),
        Tree::Mirrored {
            earlier: _,
            image: _,
        } => unreachable!(),
    }
}

/// Likewise for the child of this number of a split.
#[cycle(check)]
fn check_child(
    rows: &mut NodeRows<'_>,
    judge: &Judge<'_>,
    parent: &Parent<'_>,
    child: usize,
    node: &Partial,
    tree: &Tree,
    line: u64,
) -> Result<u64, ProofError>
    requires size { judge.now.instance.now.size ≡ parent.now.node.now.size }
    requires placement { IsPlacement parent.now.node.now }
    requires others { parent.now.others.now ≡ others_on parent.now.split.now.side parent.now.node.now }
    requires reached { AreReached judge.now.instance.now parent.now.node.now (split_of parent.now.split.now) parent.now.values.now }
    requires inside { child < length parent.now.others.now }
    requires node { node.now ≡ child_of parent.now.node.now (split_of parent.now.split.now) child }
    requires shape { HasShape node.now child (has (split_of parent.now.split.now).duals) (node_of tree.now) }
    requires rows { rows.old ≡ judge.now.instance.now }
    ensures judged { MatchResult result
        (λ next. Valid judge.now.instance.now judge.now.bound (child_place parent.now.node.now (split_of parent.now.split.now) child) (node_of tree.now)
        × (next ≡ line_after line (node_count (node_of tree.now))))
        (λ e. (e ≡ OutOfMemory)
        ⊎ IsTreeFault judge.now.instance.now judge.now.bound (child_place parent.now.node.now (split_of parent.now.split.now) child) line (node_of tree.now) e) }
    ensures same { rows.new ≡ rows.old }
{
    match tree {
        Tree::Closed { duals } => check_closed(rows, judge, node, duals, line)?,
        Tree::Split { split, children } => {
            return check_split(rows, judge, node, split, children, line);
        }
        Tree::Cut => check_cut(judge, parent, child, line)?,
        Tree::Mirrored { earlier, image } => {
            check_mirrored(judge, parent, child, *earlier, image, line)?
        }
    }
    Ok(line.saturating_add(1))
}

/// Likewise for a split, whose own line this is.
#[cycle(check)]
fn check_split(
    rows: &mut NodeRows<'_>,
    judge: &Judge<'_>,
    node: &Partial,
    split: &SplitLine,
    children: &[Tree],
    line: u64,
) -> Result<u64, ProofError>
    requires size { judge.now.instance.now.size ≡ node.now.size }
    requires split { IsSplit node.now (split_of split.now) }
    requires one_each { length children.now ≡ free_count node.now }
    requires shape { AllHaveShape node.now (split_of split.now) 0 (nodes_of children.now) }
    requires rows { rows.old ≡ judge.now.instance.now }
    ensures judged { MatchResult result
        (λ next. Valid judge.now.instance.now judge.now.bound (whole node.now) (split_into (split_of split.now) (nodes_of children.now))
        × (next ≡ line_after (line_after line 1) (nodes_count (nodes_of children.now))))
        (λ e. (e ≡ OutOfMemory)
        ⊎ IsTreeFault judge.now.instance.now judge.now.bound (whole node.now) line (split_into (split_of split.now) (nodes_of children.now)) e) }
    ensures same { rows.new ≡ rows.old }
{
    let values = check_duals(rows, judge, node, split, line)?;
    let others = free_others(node, split.side)?;
    let parent = Parent {
        node,
        split,
        others: &others,
        values: &values,
    };
    let first = line.saturating_add(1);
    check_children(rows, judge, &parent, children, first)
}

/// Likewise for the children of a split, the first of which begins at this line.
#[cycle(check)]
fn check_children(
    rows: &mut NodeRows<'_>,
    judge: &Judge<'_>,
    parent: &Parent<'_>,
    children: &[Tree],
    line: u64,
) -> Result<u64, ProofError>
    requires size { judge.now.instance.now.size ≡ parent.now.node.now.size }
    requires split { IsSplit parent.now.node.now (split_of parent.now.split.now) }
    requires placement { IsPlacement parent.now.node.now }
    requires others { parent.now.others.now ≡ others_on parent.now.split.now.side parent.now.node.now }
    requires reached { AreReached judge.now.instance.now parent.now.node.now (split_of parent.now.split.now) parent.now.values.now }
    requires one_each { length children.now ≡ length parent.now.others.now }
    requires shape { AllHaveShape parent.now.node.now (split_of parent.now.split.now) 0 (nodes_of children.now) }
    requires rows { rows.old ≡ judge.now.instance.now }
    ensures judged { MatchResult result
        (λ next. AllValid judge.now.instance.now judge.now.bound parent.now.node.now (split_of parent.now.split.now) 0 (nodes_of children.now)
        × (next ≡ line_after line (nodes_count (nodes_of children.now))))
        (λ e. (e ≡ OutOfMemory)
        ⊎ IsTreeFaultAmong judge.now.instance.now judge.now.bound parent.now.node.now (split_of parent.now.split.now) 0 line (nodes_of children.now) e) }
    ensures same { rows.new ≡ rows.old }
{
    let mut next = line;
    for (child, tree) in children.iter().enumerate() {
        let node = child_node(parent.node, parent.split, parent.others, child)?;
        next = check_child(rows, judge, parent, child, &node, tree, next)?;
    }
    Ok(next)
}

/// Whether the duals close the node.
fn check_closed(
    rows: &mut NodeRows<'_>,
    judge: &Judge<'_>,
    node: &Partial,
    duals: &KeptDuals,
    line: u64,
) -> Result<(), ProofError>
    requires size { judge.now.instance.now.size ≡ node.now.size }
    requires duals { AreDuals (free_count node.now) (numbers_held duals.now.u) (numbers_held duals.now.v) }
    requires rows { rows.old ≡ judge.now.instance.now }
    ensures judged { MatchResult result
        (λ done. Closes judge.now.instance.now judge.now.bound node.now (numbers_held duals.now.u) (numbers_held duals.now.v))
        (λ e. (e ≡ OutOfMemory) ⊎ IsClosedFault judge.now.instance.now judge.now.bound node.now line (kept_pair_of duals.now) e) }
    ensures same { rows.new ≡ rows.old }
{
    let duals = duals.widened(judge.alloc)?;
    match judge_closed(rows, judge, node, &duals, line, None)? {
        Some(fault) => Err(fault),
        None => Ok(()),
    }
}

/// What the duals of a split, if it has any, yield for each child, where they fit the Gilmore-Lawler matrix of the
/// node.
fn check_duals(
    rows: &mut NodeRows<'_>,
    judge: &Judge<'_>,
    node: &Partial,
    split: &SplitLine,
    line: u64,
) -> Result<Vec<i128>, ProofError>
    requires size { judge.now.instance.now.size ≡ node.now.size }
    requires split { IsSplit node.now (split_of split.now) }
    requires rows { rows.old ≡ judge.now.instance.now }
    ensures judged { MatchResult result
        (λ values. MayFit judge.now.instance.now node.now (split_of split.now).duals × AreReached judge.now.instance.now node.now (split_of split.now) values.items)
        (λ e. (e ≡ OutOfMemory) ⊎ ((e ≡ Misfit line) × (MayFit judge.now.instance.now node.now (split_of split.now).duals → ⊥))) }
    ensures same { rows.new ≡ rows.old }
{
    let judged = judge_split(rows, judge, node, split, line, None)?;
    match judged.fault {
        Some(fault) => Err(fault),
        None => Ok(judged.values),
    }
}

/// Whether the duals of a split reach the bound for the child of this number.
fn check_cut(
    judge: &Judge<'_>,
    parent: &Parent<'_>,
    child: usize,
    line: u64,
) -> Result<(), ProofError>
    requires duals { has (split_of parent.now.split.now).duals ≡ true }
    requires reached { AreReached judge.now.instance.now parent.now.node.now (split_of parent.now.split.now) parent.now.values.now }
    requires inside { child < free_count parent.now.node.now }
    ensures { MatchResult result
        (λ done. Valid judge.now.instance.now judge.now.bound (child_place parent.now.node.now (split_of parent.now.split.now) child) cut)
        (λ e. IsTreeFault judge.now.instance.now judge.now.bound (child_place parent.now.node.now (split_of parent.now.split.now) child) line cut e) }
{
    match judge_cut(judge, parent, child, line, None) {
        Some(fault) => Err(fault),
        None => Ok(()),
    }
}

/// Whether the child of this number of a split is the image of an earlier one by the permutation.
fn check_mirrored(
    judge: &Judge<'_>,
    parent: &Parent<'_>,
    child: usize,
    earlier: u16,
    image: &Perm,
    line: u64,
) -> Result<(), ProofError>
    requires size { judge.now.instance.now.size ≡ parent.now.node.now.size }
    requires placement { IsPlacement parent.now.node.now }
    requires others { parent.now.others.now ≡ others_on parent.now.split.now.side parent.now.node.now }
    requires inside { child < length parent.now.others.now }
    requires earlier { earlier < child }
    requires image { length image.now ≡ parent.now.node.now.size }
    ensures { MatchResult result
        (λ done. Valid judge.now.instance.now judge.now.bound (child_place parent.now.node.now (split_of parent.now.split.now) child) (mirrored earlier image.now))
        (λ e. IsTreeFault judge.now.instance.now judge.now.bound (child_place parent.now.node.now (split_of parent.now.split.now) child) line (mirrored earlier image.now) e) }
{
    match judge_mirrored(judge, parent, child, earlier, image, line, None) {
        Some(fault) => Err(fault),
        None => Ok(()),
    }
}
