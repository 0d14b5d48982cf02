//! Checks texts of proofs in both versions.

ghost use Rattle.std.specs.Prelude.{◌≡◌, ◌⊎◌, IfOk, MatchResult};
ghost use Rattle.qap_proof.specs.Acceptance.{IsLimitedVerdict};
ghost use Rattle.proof_versions.specs.Versions.{EitherIsRefused, EitherIsSo, EitherShows};

use crate::pairs::{accept_pairs, states_version_two};
use pair_duals::step_law;
use proof_check::verdict_law;
use qap_cost::Instance;
use qap_proof::{ProofError, Verdict};
use std::alloc::Global;

/// What a text establishes about an instance's costs, if it is that of a proof in either version which proves its bound
/// for it.
///
/// A text that does not begin with the line of version 2 is checked, and faults are reported, as in
/// `qap_proof::accept`; one that does, as in `proof_check::accept`.
pub fn accept(alloc: Global, instance: &Instance, text: &[u8]) -> Result<Verdict, ProofError>
    ensures verdict { MatchResult result
        (EitherShows instance.now text.now)
        (λ e. (e ≡ ProofError.OutOfMemory) ⊎ EitherIsRefused instance.now text.now e) }
    ensures bounded { IfOk result IsLimitedVerdict }
    ensures so { IfOk result (EitherIsSo instance.now text.now) }
{
    if states_version_two(text) {
        accept_pairs(alloc, instance, text)
    } else {
        qap_proof::accept(alloc, instance, text)
    }
}
