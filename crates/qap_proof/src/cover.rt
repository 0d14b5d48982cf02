//! Proofs of parts added to the proof of a whole: what they establish together.

ghost use Rattle.std.specs.Prelude.{◌≡◌, ◌⊎◌, ◌↔◌, ◌<◌, ◌∷◌, ℤ, List, length, map, slice_index_or, slice_index, IfOk, IsTrue, MatchResult};
ghost use Rattle.qap_cost.specs.Placement.{StandsAt};
ghost use Rattle.qap_proof.specs.Acceptance.{IsLimitedVerdict, IsRefused};
ghost use Rattle.qap_proof.specs.Claim.{Proves};
ghost use Rattle.qap_proof.specs.Cover.{AreAmong, AreLeaves, AreRaised, Establishes, HasPart, IsAdmitted, IsCovering, IsLeastOf, IsOpened, IsRaisedValue, IsSoOf, IsVerdictOn, cover_of};
ghost use Rattle.qap_proof.specs.Tree.{whole};
ghost use Rattle.qap_proof.specs.declared.leaf.Leaf.{Leaf as LeafValue};

use crate::acceptance::{Verdict, proved_head, verdict_of};
use crate::checking::check;
use crate::error::ProofError;
use crate::leaf::{Leaf, leaves_of};
use crate::proof::Proof;
use crate::reader::read;
use crate::walking::Judge;
use gilmore_lawler::{NodeRows, RankedInstance};
use qap_cost::{Instance, Partial};
use std::alloc::{AllocError, Global};
use std::marker::Model;

/// The proof of a whole, whose bound may be small, and proofs of parts that were added to it. The value of each leaf of
/// the first's tree is the maximum of its own bound and of the bounds of all parts whose placements are among the
/// leaf's: whatever completes the leaf completes such a part. Together they establish the minimum over the leaves.
///
/// One text is in memory at a time, and of the trees only the leaves of the first.
#[derive(Drop)]
pub struct Cover {
    ranked: RankedInstance,
    root: Partial,
    cost: i128,
    leaves: Vec<Leaf>,
}

impl Model for Cover {
    ghost use Rattle.qap_proof.specs.Cover.{CoverValue, IsCovering, cover_of};

    ghost Value = { CoverValue };

    ghost view = { λ c. cover_of c.ranked c.root c.cost c.leaves.items };

    ghost invariant = { λ c. IsCovering (cover_of c.ranked c.root c.cost c.leaves.items) };
}

impl Cover {
    /// The proof of the whole without parts, from its text. If it is not one that proves its bound for the instance,
    /// the first fault is reported.
    pub fn new(alloc: Global, instance: &Instance, text: &[u8]) -> Result<Cover, ProofError>
        ensures { MatchResult result
            (IsOpened instance.now text.now)
            (λ e. (e ≡ ProofError.OutOfMemory) ⊎ IsRefused instance.now text.now e) }
    {
        let proof = read(alloc, text)?;
        check(alloc, instance, &proof)?;
        let ranked = RankedInstance::new(alloc, instance)?;
        let leaves = proof_leaves(alloc, &ranked, &proof)?;
        let Proof {
            root,
            cost,
            bound: _,
            perm: _,
            tree: _,
        } = proof;
        Ok(Cover {
            ranked,
            root,
            cost,
            leaves,
        })
    }

    /// The proof of the whole without parts, in whichever format it is: its root, its cost, and leaves of its tree. Leaves
    /// whose values are at least the cost may be missing.
    pub fn from_leaves(
        alloc: Global,
        instance: &Instance,
        root: Partial,
        cost: i128,
        leaves: Vec<Leaf>,
    ) -> Result<Cover, AllocError>
        requires { IsCovering (cover_of instance.now root cost leaves.items) }
        ensures { IfOk result (λ c. c ≡ cover_of instance.now root cost leaves.items) }
    {
        let ranked = RankedInstance::new(alloc, instance)?;
        Ok(Cover {
            ranked,
            root,
            cost,
            leaves,
        })
    }

    /// Adds the proof of a part, from its text. If it is not one that proves its bound for the instance, the first
    /// fault is reported, and nothing is added.
    pub fn add(&mut self, alloc: Global, text: &[u8]) -> Result<(), ProofError>
        ensures { MatchResult result
            (λ done. HasPart text.now self.old self.new)
            (λ e. ((e ≡ ProofError.OutOfMemory) ⊎ IsRefused self.old.instance text.now e) × (self.new ≡ self.old)) }
    {
        let part = proved_head(alloc, self.instance(), text)?;
        self.admit(&part.root, part.cost, part.bound);
        Ok(())
    }

    /// Adds what a proof over this root, of this cost and this bound, establishes, in whichever format it is.
    pub fn admit(&mut self, root: &Partial, cost: i128, bound: i128)
        requires { Establishes self.old.instance root.now cost bound }
        ensures { IsAdmitted root.now cost bound self.old self.new }
    {
        raise(&mut self.leaves, root, bound);
        self.cost = self.cost.min(cost);
    }

    /// What all of them establish: the least cost; or a bound, and the least cost of their permutations; or if the root
    /// of the whole is not empty, a lower bound on the permutations that complete it.
    pub fn verdict(&self) -> Verdict
        ensures verdict { IsVerdictOn self.now result }
        ensures bounded { IsLimitedVerdict result }
        ensures so { IsSoOf self.now.instance self.now.root result }
    {
        verdict_of(&self.root, self.bound(), self.cost)
    }

    /// The least of the cost and of what the leaves show.
    fn bound(&self) -> i128
        ensures { IsLeastOf (self.now.cost ∷ map (λ (l : LeafValue). l.value) self.now.leaves) result }
    {
        let mut least = self.cost;
        for leaf in &self.leaves {
            least = least.min(leaf.value);
        }
        least
    }

    /// The instance of all proofs.
    pub fn instance(&self) -> &Instance
        ensures { result.now ≡ self.now.instance }
    {
        self.ranked.instance()
    }

    /// The leaves of the whole, in preorder, each with its current value.
    pub fn leaves(&self) -> &[Leaf]
        ensures { result.now ≡ self.now.leaves }
    {
        &self.leaves
    }

    /// The least cost of the permutations of all proofs.
    pub fn cost(&self) -> i128
        ensures { result ≡ self.now.cost }
    {
        self.cost
    }
}

/// The leaves of a proof that proves its bound.
pub(crate) fn proof_leaves(
    alloc: Global,
    ranked: &RankedInstance,
    proof: &Proof,
) -> Result<Vec<Leaf>, AllocError>
    requires { Proves ranked.now proof.now }
    ensures { IfOk result (λ v. AreLeaves ranked.now (whole proof.now.root) proof.now.tree v.items) }
{
    let mut rows = NodeRows::new(alloc, ranked);
    let judge = Judge {
        alloc,
        instance: ranked.instance(),
        bound: proof.bound(),
    };
    leaves_of(&mut rows, &judge, proof.root(), proof.tree())
}

/// Raises what those leaves show whose placements have this root's among them, to this bound at least.
fn raise(leaves: &mut [Leaf], root: &Partial, bound: i128)
    ensures { AreRaised root.now bound leaves.old leaves.new }
{
    for leaf in leaves.iter_mut() {
        leaf.value = raised(leaf, root, bound);
    }
}

/// What the leaf shows beside a part of this root and this bound.
fn raised(leaf: &Leaf, root: &Partial, bound: i128) -> i128
    ensures { IsRaisedValue root.now bound leaf.now result }
{
    if leaf.value < bound && are_among(root, &leaf.node) {
        bound
    } else {
        leaf.value
    }
}

/// Whether each facility that the first node places is in the second, at the same location.
fn are_among(part: &Partial, node: &Partial) -> bool
    ensures { IsTrue result ↔ AreAmong part.now node.now }
{
    let (facilities, places) = (part.facilities(), part.places());
    for t in 0..facilities.len() {
        if !stands(node, facilities[t], places[t]) {
            return false;
        }
    }
    true
}

/// Whether the node places the facility at the location.
fn stands(node: &Partial, facility: u16, location: u16) -> bool
    ensures { IsTrue result ↔ StandsAt node.now facility location }
{
    let (facilities, places) = (node.facilities(), node.places());
    for t in 0..facilities.len() {
        if facilities[t] == facility && places[t] == location {
            return true;
        }
    }
    false
}
