//! The leaves of a tree, and the bound of each.

ghost use Rattle.std.specs.Prelude.{◌≡◌, ◌<◌, ◌++◌, ◌∷◌, [], length, pos, slice_index_or, IfOk, OnOk, false};
ghost use Rattle.number_list.specs.NumberList.{numbers_held};
ghost use Rattle.qap_cost.specs.Placement.{IsPlacement};
ghost use Rattle.qap_proof.specs.Cell.{others_on};
ghost use Rattle.qap_proof.specs.Cover.{AreLeaves, leaf};
ghost use Rattle.qap_proof.specs.Leaves.{AreAllPushed, ArePushed};
ghost use Rattle.qap_proof.specs.Memory.{node_of, nodes_of};
ghost use Rattle.qap_proof.specs.NodeLine.{kept_pair_of, split_of};
ghost use Rattle.gilmore_lawler.specs.Closing.{AreDuals};
ghost use Rattle.qap_proof.specs.Shape.{HasShape, AllHaveShape, IsSplit, free_count, has_duals as has};
ghost use Rattle.qap_proof.specs.Tree.{child as child_place, child_of, closed, whole};
ghost use Rattle.qap_proof.specs.Valid.{AllValid, MayFit, Valid};
ghost use Rattle.qap_proof.specs.Walk.{AreReached};

use crate::children::{child_node, free_others};
use crate::node_line::SplitLine;
use crate::tree::{KeptDuals, Tree};
use crate::walking::{Judge, JudgedSplit, Parent, judge_split};
use gilmore_lawler::{NodeRows, dual_sum};
use qap_cost::Partial;
use std::alloc::AllocError;

/// A leaf of a tree: a closed node, or a pruned child. No permutation that completes the node costs less than the
/// value.
#[derive(Drop)]
pub struct Leaf {
    pub node: Partial,
    /// In the units of the costs.
    pub value: i128,
}

/// The leaves of a tree over a root which shows that no permutation which completes the root costs less than the bound.
pub(crate) fn leaves_of(
    rows: &mut NodeRows<'_>,
    judge: &Judge<'_>,
    root: &Partial,
    tree: &Tree,
) -> Result<Vec<Leaf>, AllocError>
    requires size { judge.now.instance.now.size ≡ root.now.size }
    requires shape { HasShape root.now 0 false (node_of tree.now) }
    requires valid { Valid judge.now.instance.now judge.now.bound (whole root.now) (node_of tree.now) }
    requires rows { rows.old ≡ judge.now.instance.now }
    ensures { IfOk result (λ v. AreLeaves judge.now.instance.now (whole root.now) (node_of tree.now) v.items) }
{
    let mut leaves = Vec::new(judge.alloc);
    push_root(rows, judge, root, tree, &mut leaves)?;
    Ok(leaves)
}

/// Adds the leaves of the tree over a root.
fn push_root(
    rows: &mut NodeRows<'_>,
    judge: &Judge<'_>,
    node: &Partial,
    tree: &Tree,
    leaves: &mut Vec<Leaf>,
) -> Result<(), AllocError>
    requires size { judge.now.instance.now.size ≡ node.now.size }
    requires shape { HasShape node.now 0 false (node_of tree.now) }
    requires valid { Valid judge.now.instance.now judge.now.bound (whole node.now) (node_of tree.now) }
    requires rows { rows.old ≡ judge.now.instance.now }
    ensures pushed { OnOk result (ArePushed judge.now.instance.now (whole node.now) (node_of tree.now) leaves.old.items leaves.new.items) }
    ensures same { rows.new ≡ rows.old }
{
    match tree {
        Tree::Closed { duals } => push_closed(judge, node, duals, leaves),
        Tree::Split { split, children } => {
            push_split(rows, judge, node, split, children, leaves)
        }
        Tree::Cut => unreachable!(),
        Tree::Mirrored {
            earlier: _,
            image: _,
        } => unreachable!(),
    }
}

/// Likewise for the child of this number of a split.
#[cycle(leaves)]
fn push_child(
    rows: &mut NodeRows<'_>,
    judge: &Judge<'_>,
    parent: &Parent<'_>,
    child: usize,
    node: &Partial,
    tree: &Tree,
    leaves: &mut Vec<Leaf>,
) -> Result<(), AllocError>
    requires size { judge.now.instance.now.size ≡ parent.now.node.now.size }
    requires placement { IsPlacement parent.now.node.now }
    requires others { parent.now.others.now ≡ others_on parent.now.split.now.side parent.now.node.now }
    requires reached { AreReached judge.now.instance.now parent.now.node.now (split_of parent.now.split.now) parent.now.values.now }
    requires inside { child < length parent.now.others.now }
    requires node { node.now ≡ child_of parent.now.node.now (split_of parent.now.split.now) child }
    requires shape { HasShape node.now child (has (split_of parent.now.split.now).duals) (node_of tree.now) }
    requires valid { Valid judge.now.instance.now judge.now.bound (child_place parent.now.node.now (split_of parent.now.split.now) child) (node_of tree.now) }
    requires rows { rows.old ≡ judge.now.instance.now }
    ensures pushed { OnOk result (ArePushed judge.now.instance.now (child_place parent.now.node.now (split_of parent.now.split.now) child) (node_of tree.now) leaves.old.items leaves.new.items) }
    ensures same { rows.new ≡ rows.old }
{
    match tree {
        Tree::Closed { duals } => push_closed(judge, node, duals, leaves),
        Tree::Split { split, children } => {
            push_split(rows, judge, node, split, children, leaves)
        }
        Tree::Cut => push_cut(parent, child, node, leaves),
        Tree::Mirrored {
            earlier: _,
            image: _,
        } => Ok(()),
    }
}

/// Likewise for a split.
#[cycle(leaves)]
fn push_split(
    rows: &mut NodeRows<'_>,
    judge: &Judge<'_>,
    node: &Partial,
    split: &SplitLine,
    children: &[Tree],
    leaves: &mut Vec<Leaf>,
) -> Result<(), AllocError>
    requires size { judge.now.instance.now.size ≡ node.now.size }
    requires split { IsSplit node.now (split_of split.now) }
    requires one_each { length children.now ≡ free_count node.now }
    requires shape { AllHaveShape node.now (split_of split.now) 0 (nodes_of children.now) }
    requires fits { MayFit judge.now.instance.now node.now (split_of split.now).duals }
    requires valid { AllValid judge.now.instance.now judge.now.bound node.now (split_of split.now) 0 (nodes_of children.now) }
    requires rows { rows.old ≡ judge.now.instance.now }
    ensures pushed { OnOk result (AreAllPushed judge.now.instance.now node.now (split_of split.now) (nodes_of children.now) leaves.old.items leaves.new.items) }
    ensures same { rows.new ≡ rows.old }
{
    let JudgedSplit { values, fault } = judge_split(rows, judge, node, split, 0, None)?;
    match fault {
        None => {
            let others = free_others(node, split.side)?;
            let parent = Parent {
                node,
                split,
                others: &others,
                values: &values,
            };
            push_children(rows, judge, &parent, children, leaves)
        }
        Some(_) => unreachable!(),
    }
}

/// Likewise for the children of a split.
#[cycle(leaves)]
fn push_children(
    rows: &mut NodeRows<'_>,
    judge: &Judge<'_>,
    parent: &Parent<'_>,
    children: &[Tree],
    leaves: &mut Vec<Leaf>,
) -> Result<(), AllocError>
    requires size { judge.now.instance.now.size ≡ parent.now.node.now.size }
    requires split { IsSplit parent.now.node.now (split_of parent.now.split.now) }
    requires placement { IsPlacement parent.now.node.now }
    requires others { parent.now.others.now ≡ others_on parent.now.split.now.side parent.now.node.now }
    requires reached { AreReached judge.now.instance.now parent.now.node.now (split_of parent.now.split.now) parent.now.values.now }
    requires one_each { length children.now ≡ length parent.now.others.now }
    requires shape { AllHaveShape parent.now.node.now (split_of parent.now.split.now) 0 (nodes_of children.now) }
    requires valid { AllValid judge.now.instance.now judge.now.bound parent.now.node.now (split_of parent.now.split.now) 0 (nodes_of children.now) }
    requires rows { rows.old ≡ judge.now.instance.now }
    ensures pushed { OnOk result (AreAllPushed judge.now.instance.now parent.now.node.now (split_of parent.now.split.now) (nodes_of children.now) leaves.old.items leaves.new.items) }
    ensures same { rows.new ≡ rows.old }
{
    for (child, tree) in children.iter().enumerate() {
        let node = child_node(parent.node, parent.split, parent.others, child)?;
        push_child(rows, judge, parent, child, &node, tree, leaves)?;
    }
    Ok(())
}

/// Adds a node that these duals close.
fn push_closed(
    judge: &Judge<'_>,
    node: &Partial,
    duals: &KeptDuals,
    leaves: &mut Vec<Leaf>,
) -> Result<(), AllocError>
    requires size { judge.now.instance.now.size ≡ node.now.size }
    requires duals { AreDuals (free_count node.now) (numbers_held duals.now.u) (numbers_held duals.now.v) }
    ensures { OnOk result (ArePushed judge.now.instance.now (whole node.now) (closed (kept_pair_of duals.now)) leaves.old.items leaves.new.items) }
{
    let duals = duals.widened(judge.alloc)?;
    let fixed = node.fixed_cost(judge.instance);
    let node = node.copy()?;
    let value = fixed + dual_sum(&duals.u, &duals.v);
    leaves.push(Leaf { node, value })?;
    Ok(())
}

/// Adds a child that the duals of its split prune.
fn push_cut(
    parent: &Parent<'_>,
    child: usize,
    node: &Partial,
    leaves: &mut Vec<Leaf>,
) -> Result<(), AllocError>
    requires inside { child < length parent.now.values.now }
    ensures { OnOk result (leaves.new.items ≡ leaves.old.items ++ leaf node.now (slice_index_or parent.now.values.now child (pos 0)) ∷ []) }
{
    let node = node.copy()?;
    let value = parent.values[child];
    leaves.push(Leaf { node, value })?;
    Ok(())
}
