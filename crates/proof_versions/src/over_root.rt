//! Checks texts of proofs in both versions over a known root.

ghost use Rattle.std.specs.Prelude.{◌≡◌, ◌⊎◌, ◌↔◌, IsTrue, IfOk, IfSome, MatchOption, MatchResult};
ghost use Rattle.qap_proof.specs.Claim.{NoneCompletesForLess};
ghost use Rattle.proof_versions.specs.OverRoot.{EitherProvesFor, EitherProvesForAnother};
ghost use Rattle.proof_versions.specs.Versions.{EitherIsRefused};

use crate::pairs::{pair_stated, states_version_two};
use qap_cost::{Instance, Partial};
use qap_proof::{ProofError, Stated};
use std::alloc::Global;

/// What a text establishes about the permutations that complete this root, if it is that of a proof in either version
/// over the root which proves its bound for the instance; `None` if it is one over another root. It is checked, and
/// faults are reported, as in `accept`.
pub fn accept_over(
    alloc: Global,
    instance: &Instance,
    root: &Partial,
    text: &[u8],
) -> Result<Option<Stated>, ProofError>
    ensures shown { MatchResult result
        (λ found. MatchOption found (EitherProvesForAnother instance.now text.now root.now) (λ s. EitherProvesFor instance.now text.now root.now s.cost s.bound))
        (λ e. (e ≡ ProofError.OutOfMemory) ⊎ EitherIsRefused instance.now text.now e) }
    ensures so { IfOk result (λ found. IfSome found (λ s. NoneCompletesForLess instance.now root.now s.bound)) }
{
    if !states_version_two(text) {
        return qap_proof::accept_over(alloc, instance, root, text);
    }
    let stated = pair_stated(alloc, instance, text)?;
    if !is_same_node(&stated.root, root) {
        return Ok(None);
    }
    Ok(Some(Stated {
        cost: stated.cost,
        bound: stated.bound,
    }))
}

/// Whether two nodes are the same, listed in the same order.
pub fn is_same_node(first: &Partial, second: &Partial) -> bool
    ensures { IsTrue result ↔ (first.now ≡ second.now) }
{
    first.size() == second.size()
        && *first.facilities() == *second.facilities()
        && *first.places() == *second.places()
}
