//! Adds proofs of parts in both versions.

ghost use Rattle.std.specs.Prelude.{◌≡◌, ◌⊎◌, MatchResult};
ghost use Rattle.proof_versions.specs.Adding.{HasEitherPart};
ghost use Rattle.proof_versions.specs.Streams.{StreamAdds, StreamRefuses};
ghost use Rattle.proof_versions.specs.Versions.{EitherIsRefused};

use crate::pairs::{pair_stated, states_version_two, stream_stated};
use qap_proof::{Cover, ProofError};
use std::alloc::Global;
use std::io::BufRead;

/// Adds the proof of a part in either version, from its text. It is checked, and faults are reported, as in `accept`;
/// if it is refused, nothing is added.
pub fn add_part(alloc: Global, cover: &mut Cover, text: &[u8]) -> Result<(), ProofError>
    ensures { MatchResult result
        (λ done. HasEitherPart text.now cover.old cover.new)
        (λ e. ((e ≡ ProofError.OutOfMemory) ⊎ EitherIsRefused cover.old.instance text.now e) × (cover.new ≡ cover.old)) }
{
    if !states_version_two(text) {
        return cover.add(alloc, text);
    }
    let part = pair_stated(alloc, cover.instance(), text)?;
    cover.admit(&part.root, part.cost, part.bound);
    Ok(())
}

/// Adds the proof of a part of version 2, which is all that a reader has left. It is checked as in `accept_stream`; if it
/// is refused, nothing is added.
pub fn add_part_stream<R: BufRead>(
    alloc: Global,
    cover: &mut Cover,
    reader: &mut R,
) -> Result<(), ProofError>
    ensures { MatchResult result
        (λ done. StreamAdds (R.remaining reader.old) cover.old cover.new)
        (λ e. StreamRefuses cover.old.instance (R.remaining reader.old) e × (cover.new ≡ cover.old)) }
{
    let stated = stream_stated(alloc, cover.instance(), reader)?;
    cover.admit(&stated.root, stated.cost, stated.bound);
    Ok(())
}
