//! Whether the proof of a part already exists.

ghost use Rattle.std.specs.Prelude.{IfOk, IfSome, IsTrue, ◌↔◌};
ghost use Rattle.plan_search.specs.Standing.{IsComplete, IsStanding};

use proof_versions::accept_over;
use qap_cost::{Instance, Partial};
use qap_proof::{ProofError, Stated};
use std::alloc::{AllocError, Global};

/// What the text of an earlier run establishes about the part, if it is the text of a proof in either version over the node which proves
/// its bound for the instance, and that bound reaches the proof's own cost or this one.
pub fn standing_proof(
    alloc: Global,
    instance: &Instance,
    node: &Partial,
    cost: i128,
    text: &[u8],
) -> Result<Option<Stated>, AllocError>
    ensures { IfOk result (λ found. IfSome found (IsStanding instance.now node.now cost text.now)) }
{
    match accept_over(alloc, instance, node, text) {
        Ok(Some(stated)) if is_complete(&stated, cost) => Ok(Some(stated)),
        Ok(_) => Ok(None),
        Err(ProofError::OutOfMemory) => Err(AllocError),
        Err(_) => Ok(None),
    }
}

/// Whether a bound is the proof's own cost, or at least this one.
fn is_complete(stated: &Stated, cost: i128) -> bool
    ensures { IsTrue result ↔ IsComplete stated.now.cost stated.now.bound cost }
{
    stated.bound >= stated.cost || stated.bound >= cost
}
