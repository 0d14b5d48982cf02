//! Certificates of a least cost, or of a bound on it.

ghost use Rattle.std.specs.Prelude.{◌≡◌, ◌↔◌, IsTrue, MatchResult};
ghost use Rattle.qap_lines.specs.Bound.{IsBoundFor};
ghost use Rattle.qap_cert.specs.Certificate.{claim_of, tree_line, IsCertificate};
ghost use Rattle.qap_cert.specs.Fault.{IsClaimFault};
ghost use Rattle.qap_cert.specs.Tree.{node_of};

use crate::CertError;
use crate::line_number::{BOUND_LINE, COST_LINE, TREE_LINE_BEHIND_BOUND};
use crate::placed::Placed;
use crate::shape::judge_tree;
use crate::tree::Tree;
use qap_cost::{MAX_VALUE, Perm};
use std::marker::Model;

/// A cost from -10^24 to 10^24, a bound from -10^24 to the cost, a permutation that should have the cost, and a tree of
/// the permutation's size that should prove that no permutation costs less than the bound. `check` decides whether it
/// does for an instance.
#[derive(Drop)]
pub struct Certificate {
    pub(crate) cost: i128,
    pub(crate) bound: i128,
    pub(crate) perm: Perm,
    pub(crate) tree: Tree,
}

impl Model for Certificate {
    ghost use Rattle.qap_cert.specs.Certificate.{Claim, claim_of, IsCertificate};
    ghost use Rattle.qap_cert.specs.Code.{claim_code};
    ghost use Rattle.qap_cert.specs.Tree.{node_of};

    ghost Value = { Claim };

    ghost coded = { claim_code };

    ghost view = { λ s. claim_of s.cost s.bound s.perm (node_of s.tree) };

    ghost invariant = { λ s. IsCertificate (claim_of s.cost s.bound s.perm (node_of s.tree)) };
}

impl Certificate {
    /// The certificate with this cost, bound, permutation and tree, if they have the required shape.
    ///
    /// Allocates nothing. A refusal reports the first fault in order of the lines that the certificate's text would
    /// have, and returns the permutation and the tree: `BadLine(3)` for a cost outside -10^24 to 10^24, `BadLine(5)`
    /// for a bound that is above the cost or outside that range, `SplitTooDeep` for a split where no facility is free,
    /// `FacilityTaken` for a split on a facility that is placed or not below the size, `SplitWidth` for one with
    /// another number of children than free locations, `DualCount` for a bound with another number of duals than free
    /// facilities or free locations, and `DualRange` for a dual outside -10^24 to 10^24.
    pub fn new(
        cost: i128,
        bound: i128,
        perm: Perm,
        tree: Tree,
    ) -> Result<Certificate, (CertError, Perm, Tree)>
        ensures { MatchResult result
            (λ c. (c ≡ claim_of cost bound perm (node_of tree)) × IsCertificate c)
            (λ r. IsClaimFault (claim_of cost bound perm (node_of tree)) r.0 × (r.1 ≡ perm) × (r.2 ≡ tree)) }
    {
        match judge_claim(cost, bound, &perm, &tree) {
            Ok(()) => Ok(Certificate {
                cost,
                bound,
                perm,
                tree,
            }),
            Err(error) => Err((error, perm, tree)),
        }
    }

    /// The cost of the permutation: from -10^24 to 10^24.
    pub fn cost(&self) -> i128
        ensures value { result ≡ self.now.cost }
        ensures certificate { IsCertificate self.now }
    {
        self.cost
    }

    /// The claimed lower bound: from -10^24 to the cost.
    pub fn bound(&self) -> i128
        ensures value { result ≡ self.now.bound }
        ensures certificate { IsCertificate self.now }
    {
        self.bound
    }

    /// The permutation that is to have the cost.
    pub fn perm(&self) -> &Perm
        ensures value { result.now ≡ self.now.permutation }
        ensures certificate { IsCertificate self.now }
    {
        &self.perm
    }

    /// The tree that is to show that no permutation costs less than the bound.
    pub fn tree(&self) -> &Tree
        ensures value { node_of result.now ≡ self.now.tree }
        ensures certificate { IsCertificate self.now }
    {
        &self.tree
    }

    /// The same certificate with this bound. One that is above the cost or outside -10^24 to 10^24 is refused, and the
    /// certificate is returned.
    pub fn with_bound(self, bound: i128) -> Result<Certificate, Certificate>
        ensures { MatchResult result
            (λ c. (c ≡ claim_of self.cost bound self.permutation self.tree) × IsCertificate c)
            (λ same. (same ≡ self) × IsCertificate self × (IsBoundFor self.cost bound → ⊥)) }
    {
        if !is_bound_for(self.cost, bound) {
            return Err(self);
        }
        Ok(Certificate {
            cost: self.cost,
            bound,
            perm: self.perm,
            tree: self.tree,
        })
    }

    /// The line of the tree's first node.
    pub(crate) fn tree_line(&self) -> u64
        ensures { result ≡ tree_line self.now.cost self.now.bound }
    {
        first_tree_line(self.cost, self.bound)
    }
}

/// The line of the first node of a tree, for this cost and this bound.
fn first_tree_line(cost: i128, bound: i128) -> u64
    ensures { result ≡ tree_line cost bound }
{
    if bound < cost {
        TREE_LINE_BEHIND_BOUND
    } else {
        BOUND_LINE
    }
}

/// Whether the bound is one for this cost.
fn is_bound_for(cost: i128, bound: i128) -> bool
    ensures { IsTrue result ↔ IsBoundFor cost bound }
{
    bound.unsigned_abs() <= MAX_VALUE && bound <= cost
}

/// Whether these have the shape of a certificate, and the first fault if not.
fn judge_claim(cost: i128, bound: i128, perm: &Perm, tree: &Tree) -> Result<(), CertError>
    ensures { MatchResult result
        (λ done. IsCertificate (claim_of cost bound perm.now (node_of tree.now)))
        (λ e. IsClaimFault (claim_of cost bound perm.now (node_of tree.now)) e) }
{
    if cost.unsigned_abs() > MAX_VALUE {
        return Err(CertError::BadLine(COST_LINE));
    }
    if !is_bound_for(cost, bound) {
        return Err(CertError::BadLine(BOUND_LINE));
    }
    let line = first_tree_line(cost, bound);
    judge_tree(tree, perm.len(), &Placed::none(), line)?;
    Ok(())
}
