//! Proofs of a least cost, or of a bound.

ghost use Rattle.std.specs.Prelude.{◌≡◌, ◌<◌, ◌⊎◌, ◌↔◌, IsTrue, ℕ, length, slice_index, MatchResult};
ghost use Rattle.qap_lines.specs.Bound.{IsBoundFor};
ghost use Rattle.qap_proof.specs.Claim.{claim_of, tree_line, IsProof, IsRoot};
ghost use Rattle.qap_proof.specs.Fault.{IsClaimFault};
ghost use Rattle.qap_proof.specs.Memory.{node_of};
ghost use Rattle.qap_proof.specs.declared.error.ProofError.TheVariants.{OutOfMemory};

use crate::error::ProofError;
use crate::line_number::{COST_LINE, ROOT_LINE};
use crate::shape::judge_tree;
use crate::tree::Tree;
use qap_cost::{MAX_VALUE, Partial, Perm};
use std::marker::Model;

/// A node whose facilities are placed in ascending order, a cost from -10^24 to 10^24, a bound from -10^24 to the cost,
/// a permutation of the node's size that should have the cost, and a tree over the node that should prove that no
/// permutation which completes it costs less than the bound. `check` decides whether it does for an instance.
#[derive(Drop)]
pub struct Proof {
    pub(crate) root: Partial,
    pub(crate) cost: i128,
    pub(crate) bound: i128,
    pub(crate) perm: Perm,
    pub(crate) tree: Tree,
}

impl Model for Proof {
    ghost use Rattle.qap_proof.specs.Claim.{Claim, claim_of, IsProof};
    ghost use Rattle.qap_proof.specs.Code.{claim_code};
    ghost use Rattle.qap_proof.specs.Memory.{node_of};

    ghost Value = { Claim };

    ghost coded = { claim_code };

    ghost view = { λ s. claim_of s.root s.cost s.bound s.perm (node_of s.tree) };

    ghost invariant = { λ s. IsProof (claim_of s.root s.cost s.bound s.perm (node_of s.tree)) };
}

impl Proof {
    /// The proof with this cost, bound, root, permutation and tree, if they have the required shape.
    ///
    /// A refusal returns the root, the permutation and the tree. `OutOfMemory` implies nothing about them; otherwise it
    /// reports the first fault in order of the lines that the proof's text would have: `BadLine(3)` for a cost outside
    /// -10^24 to 10^24; `RootBad(5)` for a root of another size than the permutation, or whose facilities do not
    /// ascend; `BadLine`, at the line of the bound, for a bound that is above the cost or outside that range;
    /// `SplitTooDeep` for a split where nothing is free, `FacilityTaken` or `LocationTaken` for one on a facility or a
    /// location that is not free, `SplitWidth` for one with another number of children than free ones of the other
    /// side; `DualCount` for another number of duals than free facilities or free locations, `DualRange` for a dual
    /// outside -10^24 to 10^24; `CutWithoutDuals` for a pruned child whose split has no duals; and for a symmetric
    /// child `NoEarlierChild` if it refers to no earlier one, `PermBad` if the permutation is of another size.
    pub fn new(
        cost: i128,
        bound: i128,
        root: Partial,
        perm: Perm,
        tree: Tree,
    ) -> Result<Proof, (ProofError, Partial, Perm, Tree)>
        ensures { MatchResult result
            (λ p. (p ≡ claim_of root cost bound perm (node_of tree)) × IsProof p)
            (λ r. ((r.0 ≡ OutOfMemory) ⊎ IsClaimFault (claim_of root cost bound perm (node_of tree)) r.0) × (r.1 ≡ root) × (r.2 ≡ perm) × (r.3 ≡ tree)) }
    {
        match judge_claim(cost, bound, &root, &perm, &tree) {
            Ok(()) => Ok(Proof {
                root,
                cost,
                bound,
                perm,
                tree,
            }),
            Err(error) => Err((error, root, perm, tree)),
        }
    }

    /// The node that the tree is over.
    pub fn root(&self) -> &Partial
        ensures value { result.now ≡ self.now.root }
        ensures proof { IsProof self.now }
    {
        &self.root
    }

    /// The cost of the permutation: from -10^24 to 10^24.
    pub fn cost(&self) -> i128
        ensures value { result ≡ self.now.cost }
        ensures proof { IsProof self.now }
    {
        self.cost
    }

    /// What every proof satisfies, for a contract that needs it. It costs nothing.
    pub fn proof_law(&self)
        ensures { IsProof self.now }
    {
        let _ = &self.cost;
    }

    /// The claimed lower bound on the permutations that complete the root: from -10^24 to the cost.
    pub fn bound(&self) -> i128
        ensures value { result ≡ self.now.bound }
        ensures proof { IsProof self.now }
    {
        self.bound
    }

    /// The permutation that is to have the cost.
    pub fn perm(&self) -> &Perm
        ensures value { result.now ≡ self.now.permutation }
        ensures proof { IsProof self.now }
    {
        &self.perm
    }

    /// The tree that is to show that no permutation which completes the root costs less than the bound.
    pub fn tree(&self) -> &Tree
        ensures value { node_of result.now ≡ self.now.tree }
        ensures proof { IsProof self.now }
    {
        &self.tree
    }

    /// The line of the tree's first node.
    pub(crate) fn tree_line(&self) -> u64
        ensures { result ≡ tree_line self.now.root self.now.cost self.now.bound }
    {
        first_tree_line(&self.root, self.cost, self.bound)
    }
}

/// The line of the first node of a tree, for this root, this cost and this bound.
fn first_tree_line(root: &Partial, cost: i128, bound: i128) -> u64
    ensures { result ≡ tree_line root.now cost bound }
{
    let lines_of_root = u64::from(root.depth() > 0);
    let lines_of_bound = u64::from(bound < cost);
    ROOT_LINE + lines_of_root + lines_of_bound
}

/// Whether the bound is one for this cost.
fn is_bound_for(cost: i128, bound: i128) -> bool
    ensures { IsTrue result ↔ IsBoundFor cost bound }
{
    bound.unsigned_abs() <= MAX_VALUE && bound <= cost
}

/// Whether the node is a root of this size.
fn is_root(node: &Partial, size: usize) -> bool
    ensures { IsTrue result ↔ IsRoot size node.now }
{
    node.size() == size && is_ascending(node.facilities())
}

/// Whether each number is above those before it.
fn is_ascending(numbers: &[u16]) -> bool
    ensures { IsTrue result ↔ ((i j : ℕ) → i < j → j < length numbers.now → slice_index numbers.now i < slice_index numbers.now j) }
{
    for i in 1..numbers.len() {
        if numbers[i] <= numbers[i - 1] {
            return false;
        }
    }
    true
}

/// Whether these have the shape of a proof, and the first fault if not.
fn judge_claim(
    cost: i128,
    bound: i128,
    root: &Partial,
    perm: &Perm,
    tree: &Tree,
) -> Result<(), ProofError>
    ensures { MatchResult result
        (λ done. IsProof (claim_of root.now cost bound perm.now (node_of tree.now)))
        (λ e. (e ≡ OutOfMemory) ⊎ IsClaimFault (claim_of root.now cost bound perm.now (node_of tree.now)) e) }
{
    if cost.unsigned_abs() > MAX_VALUE {
        return Err(ProofError::BadLine(COST_LINE));
    }
    if !is_root(root, perm.len()) {
        return Err(ProofError::RootBad(ROOT_LINE));
    }
    if !is_bound_for(cost, bound) {
        return Err(ProofError::BadLine(first_tree_line(root, cost, cost)));
    }
    let line = first_tree_line(root, cost, bound);
    judge_tree(tree, root, 0, false, line)?;
    Ok(())
}
