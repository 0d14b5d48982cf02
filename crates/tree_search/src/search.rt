//! The search of the completions of a node, depth first.

ghost use Rattle.std.specs.Prelude.{◌≡◌, ◌+◌, ◌<◌, ◌≤◌, length, IfOk, IfSome, IsTrue};
ghost use Rattle.tree_search.specs.Progress.{Advances, IsProgress};

use crate::branching::{Branch, Child, branch_of};
use crate::completion::completed;
use crate::evaluation::{Evaluation, evaluate};
use crate::ground::Ground;
use crate::progress::Progress;
use crate::symmetry::Symmetry;
use gilmore_lawler::NodeRows;
use qap_cost::Partial;
use qap_proof::{Side, SplitLine, Tree};
use std::alloc::{AllocError, Global};
use subtree_search::Stop;

/// Searches the completions of the node, and returns a tree over it. The values of its leaves that do not reach the
/// incumbent's cost are added to those that are open.
#[cycle(searching)]
pub(crate) fn search<S: Stop>(
    ground: &Ground<'_, S>,
    rows: &mut NodeRows<'_>,
    progress: &mut Progress,
    node: &Partial,
) -> Result<Tree, AllocError>
    requires size { ground.now.instance.now.size ≡ node.now.size }
    requires rows { rows.old ≡ ground.now.instance.now }
    requires progress { IsProgress ground.now.instance.now ground.now.limit progress.old }
    ensures advances { Advances ground.now.instance.now ground.now.limit progress.old progress.new }
    ensures same { rows.new ≡ rows.old }
{
    let evaluation = evaluate(ground.alloc, rows, &mut progress.solver, node)?;
    offer(ground, progress, node, &evaluation)?;
    if !is_split(ground, progress, &evaluation)? {
        return Ok(evaluation.leaf());
    }
    let branch = branch_of(ground, node, evaluation, progress.incumbent.cost())?;
    search_children(ground, rows, progress, node, branch)
}

/// Searches the children of a split. Once a stop is requested, those that are left are leaves under the split's duals.
#[cycle(searching)]
fn search_children<S: Stop>(
    ground: &Ground<'_, S>,
    rows: &mut NodeRows<'_>,
    progress: &mut Progress,
    node: &Partial,
    branch: Branch,
) -> Result<Tree, AllocError>
    requires size { ground.now.instance.now.size ≡ node.now.size }
    requires rows { rows.old ≡ ground.now.instance.now }
    requires progress { IsProgress ground.now.instance.now ground.now.limit progress.old }
    ensures advances { Advances ground.now.instance.now ground.now.limit progress.old progress.new }
    ensures same { rows.new ≡ rows.old }
{
    let Branch {
        split,
        symmetries,
        children: order,
    } = branch;
    let mut children = without_search(ground.alloc, symmetries)?;
    for child in &order {
        let Some(Tree::Cut) = children.get(child.number) else {
            continue;
        };
        let found = search_child(ground, rows, progress, node, &split, child)?;
        put(&mut children, child.number, found);
    }
    Ok(Tree::Split { split, children })
}

/// Searches a child of a split, unless the split's duals prune it or a stop is requested.
#[cycle(searching)]
fn search_child<S: Stop>(
    ground: &Ground<'_, S>,
    rows: &mut NodeRows<'_>,
    progress: &mut Progress,
    node: &Partial,
    split: &SplitLine,
    child: &Child,
) -> Result<Option<Tree>, AllocError>
    requires size { ground.now.instance.now.size ≡ node.now.size }
    requires rows { rows.old ≡ ground.now.instance.now }
    requires progress { IsProgress ground.now.instance.now ground.now.limit progress.old }
    ensures advances { Advances ground.now.instance.now ground.now.limit progress.old progress.new }
    ensures same { rows.new ≡ rows.old }
{
    if child.value >= progress.incumbent.cost() {
        return Ok(None);
    }
    if ground.stop.is_requested() {
        progress.open.push(child.value)?;
        return Ok(None);
    }
    match child_node(node, split, child.other)? {
        Some(node) => Ok(Some(search(ground, rows, progress, &node)?)),
        None => Ok(None),
    }
}

/// Offers the completion by the evaluation's assignment to the incumbent.
fn offer<S>(
    ground: &Ground<'_, S>,
    progress: &mut Progress,
    node: &Partial,
    evaluation: &Evaluation,
) -> Result<(), AllocError>
    requires size { ground.now.instance.now.size ≡ node.now.size }
    requires progress { IsProgress ground.now.instance.now ground.now.limit progress.old }
    ensures advances { Advances ground.now.instance.now ground.now.limit progress.old progress.new }
{
    if let Some(permutation) = completed(ground.alloc, node, evaluation)? {
        progress.incumbent.offer(ground.instance, permutation);
    }
    Ok(())
}

/// Whether the node is to be split. If it is not, since the limit is reached or a stop is requested, its value is added
/// to those that are open, unless it reaches the incumbent's cost.
fn is_split<S: Stop>(
    ground: &Ground<'_, S>,
    progress: &mut Progress,
    evaluation: &Evaluation,
) -> Result<bool, AllocError>
    requires progress { IsProgress ground.now.instance.now ground.now.limit progress.old }
    ensures some { IfOk result (λ split. IsTrue split → 0 < evaluation.now.matrix.size) }
    ensures advances { Advances ground.now.instance.now ground.now.limit progress.old progress.new }
{
    let is_closed = evaluation.value >= progress.incumbent.cost();
    if progress.nodes >= ground.limit || ground.stop.is_requested() {
        if !is_closed {
            progress.open.push(evaluation.value)?;
        }
        return Ok(false);
    }
    progress.nodes += 1;
    Ok(!is_closed && evaluation.matrix.size() > 0)
}

/// The trees of the children of a split before any is searched: those of symmetric ones refer to earlier ones, and the
/// others are pruned.
fn without_search(
    alloc: Global,
    symmetries: Vec<Option<Symmetry>>,
) -> Result<Vec<Tree>, AllocError> {
    let mut children = Vec::with_capacity(alloc, symmetries.len())?;
    for symmetry in symmetries {
        children.push(match symmetry {
            Some(Symmetry { earlier, by }) => Tree::Mirrored { earlier, image: by },
            None => Tree::Cut,
        })?;
    }
    Ok(children)
}

/// Puts the tree of a child, if it has one, at its place.
fn put(children: &mut [Tree], number: usize, found: Option<Tree>) {
    if let (Some(place), Some(tree)) = (children.get_mut(number), found) {
        *place = tree;
    }
}

/// The node of the child of a split that places this one of the other side; `None` if that is not free.
fn child_node(node: &Partial, split: &SplitLine, other: u16) -> Result<Option<Partial>, AllocError>
    ensures { IfOk result (λ child. IfSome child (λ x. (x.size ≡ node.now.size) × (length x.facilities ≡ length node.now.facilities + 1) × (length x.facilities ≤ x.size))) }
{
    let (facility, location) = match split.side {
        Side::Facility => (split.number, other),
        Side::Location => (other, split.number),
    };
    if usize::from(facility) < node.size() && !node.is_placed(facility) && node.is_free(location) {
        let child = node.place(facility, location)?;
        child.placement_law();
        Ok(Some(child))
    } else {
        Ok(None)
    }
}
