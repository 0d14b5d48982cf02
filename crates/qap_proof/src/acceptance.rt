//! Checks texts of proofs.

ghost use Rattle.std.specs.Prelude.{◌≡◌, ◌⊎◌, ℕ, List, IfOk, MatchOption, MatchResult, length, None};
ghost use Rattle.qap_cost.specs.Instance.{IsInstance};
ghost use Rattle.qap_cost.specs.Objective.{cost_of};
ghost use Rattle.qap_cost.specs.Placement.{IsPlacement};
ghost use Rattle.qap_cost.specs.Range.{IsLimited};
ghost use Rattle.qap_proof.specs.Acceptance.{ProvesFor, ShowsVerdict, IsVerdictOf, IsSo, IsLimitedVerdict, IsRefused};
ghost use Rattle.qap_lines.specs.Bound.{IsBoundFor};
ghost use Rattle.qap_proof.specs.Claim.{claim_of};
ghost use Rattle.qap_proof.specs.Fault.{IsPermMisfit};
ghost use Rattle.qap_proof.specs.TextFault.{IsFaultFromTree};
ghost use Rattle.qap_proof.specs.Tree.{Node, whole};
ghost use Rattle.qap_proof.specs.Walk.{EndsBehindTree, IsToldOf};

use crate::error::ProofError;
use crate::line_number::{COST_LINE, SIZE_LINE};
use crate::reader::{Head, read_end, read_head};
use crate::walking::{Judge, walk_root};
use gilmore_lawler::{NodeRows, RankedInstance};
use qap_cost::{Instance, Partial, Perm, cost};
use std::alloc::Global;

/// What a text establishes about an instance's costs.
#[derive(Clone, Copy, Debug, PartialEq, Eq)]
pub enum Verdict {
    /// This is the least cost.
    Optimal(i128),
    /// No permutation costs less than the first number, which is below the second one, and some permutation costs that.
    Gap(i128, i128),
    /// No permutation that completes the root costs less.
    Part(i128),
}

/// What a text establishes about an instance's costs, if it is that of a proof which proves its bound for it. Of the
/// tree it stores only the nodes above the current line, with the values of the duals of their splits.
///
/// Otherwise the first fault is reported: every syntactic fault comes before every semantic one.
pub fn accept(alloc: Global, instance: &Instance, text: &[u8]) -> Result<Verdict, ProofError>
    ensures verdict { MatchResult result
        (ShowsVerdict instance.now text.now)
        (λ e. (e ≡ ProofError.OutOfMemory) ⊎ IsRefused instance.now text.now e) }
    ensures bounded { IfOk result IsLimitedVerdict }
    ensures so { IfOk result (IsSo instance.now text.now) }
{
    let head = proved_head(alloc, instance, text)?;
    Ok(verdict_of(&head.root, head.bound, head.cost))
}

/// What is before the tree of a text, where that is the text of a proof which proves its bound for the instance.
pub(crate) fn proved_head<'a>(
    alloc: Global,
    instance: &Instance,
    text: &'a [u8],
) -> Result<Head<'a>, ProofError>
    ensures instance { IfOk result (λ _. IsInstance instance.now) }
    ensures proved { MatchResult result
        (λ h. ProvesFor instance.now text.now h.root h.cost h.bound)
        (λ e. (e ≡ ProofError.OutOfMemory) ⊎ IsRefused instance.now text.now e) }
{
    let head = read_head(alloc, text)?;
    let misfit = perm_misfit(instance, &head.perm, head.cost);
    match walk_to_end(alloc, instance, &head, misfit)? {
        None => Ok(head),
        Some(fault) => Err(fault),
    }
}

/// What keeps the permutation from being of the instance's size and having this cost, if something does.
pub(crate) fn perm_misfit(instance: &Instance, perm: &Perm, stated: i128) -> Option<ProofError>
    ensures { MatchOption result
        ((length perm.now ≡ instance.now.size) × (cost_of instance.now perm.now ≡ stated))
        (IsPermMisfit instance.now perm.now stated) }
{
    if perm.len() != instance.size() {
        return Some(ProofError::SizeDiffers(SIZE_LINE));
    }
    if cost(instance, perm) != stated {
        return Some(ProofError::CostDiffers(COST_LINE));
    }
    None
}

/// Checks the tree and the last line, and reports the first semantic fault, where none was reported before.
fn walk_to_end(
    alloc: Global,
    instance: &Instance,
    head: &Head<'_>,
    told: Option<ProofError>,
) -> Result<Option<ProofError>, ProofError>
    requires { told ≡ None → instance.now.size ≡ head.now.root.size }
    ensures instance { IfOk result (λ _. IsInstance instance.now) }
    ensures judged { MatchResult result
        (λ fault. EndsBehindTree head.now.root head.now.rest.now (IsToldOf instance.now head.now.bound (whole head.now.root) head.now.line told fault))
        (λ e. (e ≡ ProofError.OutOfMemory) ⊎ IsFaultFromTree head.now.root head.now.line head.now.rest.now e) }
{
    let ranked = RankedInstance::new(alloc, instance)?;
    let mut rows = NodeRows::new(alloc, &ranked);
    let judge = Judge {
        alloc,
        instance,
        bound: head.bound,
    };
    let walked = walk_root(&mut rows, &judge, &head.root, head.rest, head.line, told)?;
    read_end(walked.rest, walked.next)?;
    Ok(walked.fault)
}

/// What a proof of this root, this bound and this cost states.
pub(crate) fn verdict_of(root: &Partial, bound: i128, cost: i128) -> Verdict
    requires cost { IsLimited cost }
    requires bound { IsBoundFor cost bound }
    ensures says { (p : List ℕ) (t : Node) → IsVerdictOf (claim_of root.now cost bound p t) result }
    ensures bounded { IsLimitedVerdict result }
{
    if root.depth() > 0 {
        Verdict::Part(bound)
    } else if bound < cost {
        Verdict::Gap(bound, cost)
    } else {
        Verdict::Optimal(cost)
    }
}
