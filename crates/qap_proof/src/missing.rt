//! The parts that a proof still needs.

ghost use Rattle.std.specs.Prelude.{◌≡◌, All, IfOk, OnOk};
ghost use Rattle.std.specs.List.Sorted.{IsPermutation};
ghost use Rattle.qap_proof.specs.Claim.{NoneCompletesForLess, Proves};
ghost use Rattle.qap_proof.specs.Missing.{AreMissing, IsHardestFirst, IsListed, IsMissingBounded, ListsMissing};
ghost use Rattle.qap_proof.specs.declared.leaf.Leaf.{Leaf as LeafValue};

use crate::ascending::ascending;
use crate::cover::proof_leaves;
use crate::leaf::Leaf;
use crate::proof::Proof;
use gilmore_lawler::RankedInstance;
use qap_cost::{Instance, Partial};
use std::alloc::{AllocError, Global};

/// A leaf of a proof's tree whose value is below the proof's cost: what is left to search.
#[derive(Drop)]
pub struct MissingPart {
    /// The leaf's number, counted from 0 in preorder.
    pub leaf: usize,
    /// The leaf's node, its facilities ascending.
    pub node: Partial,
    /// The leaf's value, in the units of the costs.
    pub value: i128,
}

/// The leaves whose values are below the cost of a proof that proves its bound for the instance, the lowest first: if
/// no permutation that completes one of their nodes costs less than that cost, none does that completes the proof's
/// root.
pub fn missing_parts(
    alloc: Global,
    instance: &Instance,
    proof: &Proof,
) -> Result<Vec<MissingPart>, AllocError>
    requires { Proves instance.now proof.now }
    ensures missing { IfOk result (λ v. AreMissing instance.now proof.now v.items) }
    ensures enough { IfOk result (λ v. All (IsMissingBounded instance.now proof.now.cost) v.items → NoneCompletesForLess instance.now proof.now.root proof.now.cost) }
{
    proof.proof_law();
    let ranked = RankedInstance::new(alloc, instance)?;
    let leaves = proof_leaves(alloc, &ranked, proof)?;
    let mut parts = short_leaves(alloc, &leaves, proof)?;
    put_in_order(&mut parts)?;
    Ok(parts)
}

/// The leaves that show less than the proof's cost.
fn short_leaves(
    alloc: Global,
    leaves: &[Leaf],
    proof: &Proof,
) -> Result<Vec<MissingPart>, AllocError>
    requires { All (λ (l : LeafValue). l.node.size ≡ proof.now.root.size) leaves.now }
    ensures { IfOk result (λ v. ListsMissing proof.now.root.size proof.now.cost leaves.now v.items) }
{
    let mut parts = Vec::new(alloc);
    for (number, leaf) in leaves.iter().enumerate() {
        push_short(alloc, &mut parts, number, leaf, proof)?;
    }
    Ok(parts)
}

/// Adds the part of the leaf of this number, where it shows less than the proof's cost.
fn push_short(
    alloc: Global,
    parts: &mut Vec<MissingPart>,
    number: usize,
    leaf: &Leaf,
    proof: &Proof,
) -> Result<(), AllocError>
    ensures { OnOk result (IsListed proof.now.cost number leaf.now parts.old.items parts.new.items) }
{
    if leaf.value < proof.cost() {
        let part = MissingPart {
            leaf: number,
            node: ascending(alloc, &leaf.node)?,
            value: leaf.value,
        };
        parts.push(part)?;
    }
    Ok(())
}

/// Puts the parts that show least first.
fn put_in_order(parts: &mut Vec<MissingPart>) -> Result<(), AllocError>
    ensures moved { OnOk result (IsPermutation parts.old.items parts.new.items) }
    ensures ordered { OnOk result (IsHardestFirst parts.new.items) }
{
    parts.sort_by_key(|part| part.value)
}
