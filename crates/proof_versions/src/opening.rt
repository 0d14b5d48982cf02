//! Opens the proof of a whole in either version, to which proofs of parts can be added.

ghost use Rattle.std.specs.Prelude.{◌≡◌, ◌⊎◌, IfErr, IfOk, MatchResult};
ghost use Rattle.proof_versions.specs.Opening.{EitherOpens};
ghost use Rattle.proof_versions.specs.Streams.{StreamOpens, StreamRefuses};
ghost use Rattle.proof_versions.specs.Versions.{EitherIsRefused};

use crate::pairs::{states_version_two, step};
use proof_check::accept_leaves;
use qap_cost::Instance;
use qap_proof::{Cover, ProofError};
use std::alloc::Global;
use std::io::BufRead;

/// The proof of the whole in either version without parts, from its text. It is checked, and faults are reported, as in
/// `accept`.
pub fn open_cover(alloc: Global, instance: &Instance, text: &[u8]) -> Result<Cover, ProofError>
    ensures { MatchResult result
        (EitherOpens instance.now text.now)
        (λ e. (e ≡ ProofError.OutOfMemory) ⊎ EitherIsRefused instance.now text.now e) }
{
    if states_version_two(text) {
        let mut reader = text;
        open_cover_stream(alloc, instance, &mut reader)
    } else {
        Cover::new(alloc, instance, text)
    }
}

/// The proof of the whole in version 2 without parts, which is all that a reader has left. It is checked as in
/// `accept_stream`; besides, the leaves of its tree whose values are below its cost are in memory.
pub fn open_cover_stream<R: BufRead>(
    alloc: Global,
    instance: &Instance,
    reader: &mut R,
) -> Result<Cover, ProofError>
    ensures opened { IfOk result (StreamOpens instance.now (R.remaining reader.old)) }
    ensures refused { IfErr result (StreamRefuses instance.now (R.remaining reader.old)) }
{
    let checked = accept_leaves(alloc, instance, step(instance), reader)?;
    let cover = Cover::from_leaves(alloc, instance, checked.root, checked.cost, checked.leaves)?;
    Ok(cover)
}
