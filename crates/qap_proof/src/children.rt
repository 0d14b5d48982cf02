//! The children of a split.

ghost use Rattle.std.specs.Prelude.{◌≡◌, ◌<◌, length, IfOk};
ghost use Rattle.qap_cost.specs.Placement.{IsPlacement};
ghost use Rattle.qap_proof.specs.Cell.{others_on};
ghost use Rattle.qap_proof.specs.NodeLine.{split_of};
ghost use Rattle.qap_proof.specs.Shape.{has_duals as has, IsSplit};
ghost use Rattle.qap_proof.specs.Tree.{child_of};

use crate::node_line::SplitLine;
use crate::side::Side;
use qap_cost::Partial;
use std::alloc::AllocError;

/// Whether a split has duals.
pub(crate) fn has_duals(split: &SplitLine) -> bool
    ensures { result ≡ has (split_of split.now).duals }
{
    match &split.duals {
        Some(_) => true,
        None => false,
    }
}

/// The free ones that a split on this side has children for, ascending.
pub(crate) fn free_others(node: &Partial, side: Side) -> Result<Vec<u16>, AllocError>
    ensures value { IfOk result (λ v. v.items ≡ others_on side node.now) }
    ensures placement { IsPlacement node.now }
{
    match side {
        Side::Facility => node.free_locations(),
        Side::Location => node.free_facilities(),
    }
}

/// The node that the child of this number of a split is, where these are the free ones that the split has children for.
pub(crate) fn child_node(
    node: &Partial,
    split: &SplitLine,
    others: &[u16],
    child: usize,
) -> Result<Partial, AllocError>
    requires split { IsSplit node.now (split_of split.now) }
    requires placement { IsPlacement node.now }
    requires others { others.now ≡ others_on split.now.side node.now }
    requires inside { child < length others.now }
    ensures { IfOk result (λ x. x ≡ child_of node.now (split_of split.now) child) }
{
    let other = others[child];
    match split.side {
        Side::Facility => node.place(split.number, other),
        Side::Location => node.place(other, split.number),
    }
}
