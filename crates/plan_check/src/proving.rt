//! What a proof establishes about an arrangement.

ghost use Rattle.std.specs.Prelude.{◌≡◌, ◌<◌, ◌^◌, ◌≤ℤ◌, IfErr, IfOk, length};
ghost use Rattle.plan_check.specs.Proved.{IsLeastKept, IsProvedBound, IsUnproved, IsUnprovedOver};
ghost use Rattle.qap_cost.specs.Objective.{IsLeast, cost_of};
ghost use Rattle.qap_cost.specs.Placement.{Completes};
ghost use Rattle.qap_proof.specs.Claim.{NoneCompletesForLess};
ghost use Rattle.proof_versions.specs.OverRoot.{EitherProvesFor};

use crate::fault::ProofFault;
use crate::number::cost_text;
use plan_file::ascending;
use proof_versions::accept_over;
use qap_cost::{Instance, Partial, Perm, cost};
use qap_proof::{ProofError, Stated};
use std::alloc::Global;

/// The lower bound on all arrangements that respect what is fixed, if a text is that of a proof in either version which
/// proves it for the instance, over exactly these arrangements, and with the cost of this permutation. Otherwise the
/// reason why not. The cost of another proof is reported with this many decimals.
pub fn proved_bound(
    alloc: Global,
    instance: &Instance,
    fixed: &Partial,
    scale: usize,
    permutation: &Perm,
    text: &[u8],
) -> Result<i128, ProofFault>
    requires same_size { fixed.now.size ≡ instance.now.size }
    requires scale { scale < 2 ^ 32 }
    requires kept { Completes fixed.now permutation.now }
    ensures proved { IfOk result (IsProvedBound instance.now fixed.now (cost_of instance.now permutation.now) text.now) }
    ensures refused { IfErr result (IsUnproved instance.now fixed.now (cost_of instance.now permutation.now) text.now) }
    ensures least_kept { IfOk result (λ g. cost_of instance.now permutation.now ≤ℤ g → IsLeastKept instance.now fixed.now (cost_of instance.now permutation.now)) }
    ensures least { IfOk result (λ g. cost_of instance.now permutation.now ≤ℤ g → length fixed.now.facilities ≡ 0 → IsLeast instance.now (cost_of instance.now permutation.now)) }
{
    let root = ascending(alloc, fixed)?;
    let stated = stated_over(alloc, instance, &root, text)?;
    if stated.cost != cost(instance, permutation) {
        let cost = cost_text(alloc, stated.cost, scale)?;
        return Err(ProofFault::OtherCost { cost });
    }
    Ok(stated.bound)
}

/// What a text states, where it is that of a proof over this root.
fn stated_over(
    alloc: Global,
    instance: &Instance,
    root: &Partial,
    text: &[u8],
) -> Result<Stated, ProofFault>
    ensures proves { IfOk result (λ s. EitherProvesFor instance.now text.now root.now s.cost s.bound) }
    ensures none_less { IfOk result (λ s. NoneCompletesForLess instance.now root.now s.bound) }
    ensures refused { IfErr result (IsUnprovedOver instance.now root.now text.now) }
{
    match accept_over(alloc, instance, root, text) {
        Ok(Some(stated)) => Ok(stated),
        Ok(None) => Err(ProofFault::OtherRoot),
        Err(ProofError::OutOfMemory) => Err(ProofFault::OutOfMemory),
        Err(error) => Err(ProofFault::Refused(error)),
    }
}
