//! Refines a proof at one of its leaves.

ghost use Rattle.std.specs.Prelude.{◌≡◌, IfOk};
ghost use Rattle.qap_proof.specs.Refining.{IsGrafted, IsRefined};

use crate::checking::check;
use crate::error::ProofError;
use crate::proof::Proof;
use crate::tree::Tree;
use qap_cost::Instance;
use std::alloc::Global;

/// The proof with the tree of a part in place of the leaf of this number, counted from 0 in preorder, with the part's
/// permutation, and with this bound.
///
/// The part must be over that leaf's node, and the bound at most the resulting value of each leaf. This is checked as
/// for any proof, so that the result proves its bound for the instance; otherwise the first fault is reported.
pub fn refined(
    alloc: Global,
    instance: &Instance,
    proof: Proof,
    leaf: usize,
    part: Proof,
    bound: i128,
) -> Result<Proof, ProofError>
    ensures { IfOk result (IsRefined instance.now proof part bound) }
{
    let refined = grafted(proof, leaf, part, bound)?;
    check(alloc, instance, &refined)?;
    Ok(refined)
}

/// The same, unjudged.
fn grafted(proof: Proof, leaf: usize, part: Proof, bound: i128) -> Result<Proof, ProofError>
    ensures { IfOk result (IsGrafted proof part bound) }
{
    let Proof {
        root,
        cost: _,
        bound: _,
        perm: _,
        mut tree,
    } = proof;
    let Proof {
        root: _,
        cost,
        bound: _,
        perm,
        tree: finer,
    } = part;
    let mut left = leaf;
    let mut finer = Some(finer);
    graft(&mut tree, &mut left, &mut finer);
    match Proof::new(cost, bound, root, perm, tree) {
        Ok(grafted) => Ok(grafted),
        Err((error, _, _, _)) => Err(error),
    }
}

/// Puts the finer tree, where it is still there, in the place of the leaf before which this many leaves are left, and
/// returns by how many leaves it has come nearer.
#[cycle(grafting)]
fn graft(tree: &mut Tree, left: &mut usize, finer: &mut Option<Tree>) {
    match tree {
        Tree::Closed { duals: _ } | Tree::Cut => graft_leaf(tree, left, finer),
        Tree::Split { split: _, children } => graft_children(children, left, finer),
        Tree::Mirrored {
            earlier: _,
            image: _,
        } => {}
    }
}

/// Likewise for the children of a split.
#[cycle(grafting)]
fn graft_children(children: &mut [Tree], left: &mut usize, finer: &mut Option<Tree>) {
    for i in 0..children.len() {
        graft(&mut children[i], left, finer);
    }
}

/// Likewise for a leaf.
fn graft_leaf(leaf: &mut Tree, left: &mut usize, finer: &mut Option<Tree>) {
    if *left > 0 {
        *left -= 1;
    } else if let Some(tree) = finer.take() {
        *leaf = tree;
    }
}
