//! The children of a node that a split leaves open.

ghost use Rattle.std.specs.Prelude.{◌≡◌, ◌<◌, IfOk, OnOk, All};
ghost use Rattle.subtree_search.specs.Lines.{child_on};
ghost use Rattle.subtree_search.specs.Opens.{Adds, Becomes, IsOpen, IsSettled};
ghost use Rattle.node_split.specs.Branch.{line_of};
ghost use Rattle.node_split.specs.Split.{IsSplit};

use crate::branch::Branch;
use crate::evaluation::{Evaluation, Evaluator};
use qap_cost::Partial;
use std::alloc::{AllocError, Global};
use subtree_search::{Incumbent, OpenChild, Stop};

/// A node with its free facilities and locations, both ascending, its evaluation, and what it is split on. `images`
/// has a mark for each child; those that are marked are symmetric to earlier ones.
#[derive(Clone, Copy)]
pub(crate) struct Split<'a> {
    pub(crate) node: &'a Partial,
    pub(crate) facilities: &'a [u16],
    pub(crate) locations: &'a [u16],
    pub(crate) here: &'a Evaluation,
    pub(crate) branch: Branch,
    pub(crate) images: &'a [bool],
}

/// The children that no bound closes at the incumbent's cost, in ascending order, without those that are symmetric
/// to earlier ones.
pub(crate) fn split_children<S: Stop>(
    alloc: Global,
    split: &Split<'_>,
    evaluator: &mut Evaluator,
    below: &mut Evaluation,
    incumbent: &Incumbent,
    stop: &S,
) -> Result<Vec<OpenChild>, AllocError>
    requires { IsSplit evaluator.old.rows split.now }
    ensures settled { IfOk result (λ children. IsSettled evaluator.old.rows split.now.node.now incumbent.now.cost children.items split.now.node.now) }
    ensures opened { IfOk result (λ children. All (IsOpen evaluator.old.rows 1 split.now.node.now) children.items) }
    ensures same { evaluator.new.rows ≡ evaluator.old.rows }
{
    let mut children = Vec::new(alloc);
    for k in 0..split.images.len() {
        if split.images[k] {
            continue;
        }
        let child = child_left(split, k, evaluator, below, incumbent, stop)?;
        add(&mut children, child)?;
    }
    Ok(children)
}

/// Adds a child, if there is one.
fn add(children: &mut Vec<OpenChild>, child: Option<OpenChild>) -> Result<(), AllocError>
    ensures { OnOk result (Adds child children.old.items children.new.items) }
{
    if let Some(child) = child {
        children.push(child)?;
    }
    Ok(())
}

/// The child of number `k`, if neither the node's duals nor its own bound close it at the incumbent's cost. Once a
/// stop is requested, its own bound is not computed.
fn child_left<S: Stop>(
    split: &Split<'_>,
    k: usize,
    evaluator: &mut Evaluator,
    below: &mut Evaluation,
    incumbent: &Incumbent,
    stop: &S,
) -> Result<Option<OpenChild>, AllocError>
    requires split { IsSplit evaluator.old.rows split.now }
    requires k_in { k < split.now.here.now.matrix.size }
    ensures child { IfOk result (Becomes evaluator.old.rows 1 split.now.node.now (child_on split.now.node.now (line_of split.now.branch) k) incumbent.now.cost) }
    ensures same { evaluator.new.rows ≡ evaluator.old.rows }
{
    let cost = incumbent.cost();
    let (row, column) = (split.branch.row(k), split.branch.column(k));
    let reached = split.here.reached(row, column);
    if reached >= cost {
        return Ok(None);
    }
    let (facility, location) = (split.facilities[row], split.locations[column]);
    let mut child = OpenChild {
        facility,
        location,
        value: reached,
    };
    if stop.is_requested() {
        return Ok(Some(child));
    }
    let node = split.node.place(facility, location)?;
    evaluator.evaluate(&node, below)?;
    if below.value >= cost {
        return Ok(None);
    }
    child.value = reached.max(below.value);
    Ok(Some(child))
}
