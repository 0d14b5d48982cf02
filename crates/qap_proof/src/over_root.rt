//! Checks texts of proofs over a known root.

ghost use Rattle.std.specs.Prelude.{◌≡◌, ◌⊎◌, ◌↔◌, IsTrue, IfOk, IfSome, MatchOption, MatchResult};
ghost use Rattle.qap_proof.specs.Acceptance.{IsRefused, ProvesFor};
ghost use Rattle.qap_proof.specs.Claim.{NoneCompletesForLess};
ghost use Rattle.qap_proof.specs.OverRoot.{ProvesForAnother};

use crate::acceptance::proved_head;
use crate::error::ProofError;
use qap_cost::{Instance, Partial};
use std::alloc::Global;

/// What a proof over a root states.
#[derive(Clone, Copy, Debug, PartialEq, Eq)]
pub struct Stated {
    /// Some permutation of the instance costs that.
    pub cost: i128,
    /// No permutation that completes the root costs less.
    pub bound: i128,
}

/// What a text establishes about the permutations that complete this root, if it is that of a proof over the root which
/// proves its bound for the instance; `None` if it is one over another root. It is checked, and faults are reported, as
/// in `accept`.
pub fn accept_over(
    alloc: Global,
    instance: &Instance,
    root: &Partial,
    text: &[u8],
) -> Result<Option<Stated>, ProofError>
    ensures shown { MatchResult result
        (λ found. MatchOption found (ProvesForAnother instance.now text.now root.now) (λ s. ProvesFor instance.now text.now root.now s.cost s.bound))
        (λ e. (e ≡ ProofError.OutOfMemory) ⊎ IsRefused instance.now text.now e) }
    ensures so { IfOk result (λ found. IfSome found (λ s. NoneCompletesForLess instance.now root.now s.bound)) }
{
    let head = proved_head(alloc, instance, text)?;
    if !is_same(&head.root, root) {
        return Ok(None);
    }
    Ok(Some(Stated {
        cost: head.cost,
        bound: head.bound,
    }))
}

/// Whether two nodes are the same, listed in the same order.
fn is_same(first: &Partial, second: &Partial) -> bool
    ensures { IsTrue result ↔ (first.now ≡ second.now) }
{
    first.size() == second.size()
        && *first.facilities() == *second.facilities()
        && *first.places() == *second.places()
}
