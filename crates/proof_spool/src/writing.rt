//! Writes the text of a proof, from its pieces, and checks it as it is written.

ghost use Rattle.std.specs.Prelude.{◌≡◌, MatchOption, OnOk};
ghost use Rattle.proof_spool.specs.Writing.{WritesProof};

use crate::assembly::assembly;
use crate::front::front_text;
use crate::tree::Tree;
use proof_check::{Checked, Tee};
use proof_versions::{copy_stream, is_same_node};
use qap_cost::{Instance, Partial, Perm};
use qap_proof::ProofError;
use std::alloc::Global;
use std::io::{Read, Seek, Write};

/// What a proof establishes: the permutation has this cost, and none that completes the root costs less than the bound.
#[derive(Drop)]
pub struct Claim<'a> {
    pub root: &'a Partial,
    pub permutation: &'a Perm,
    pub cost: i128,
    pub bound: i128,
}

/// Writes the text of a proof with this tree, and checks it as it is written. `Ok` says that it is that of a proof which
/// establishes this of the instance; after an error, what was written is to be dropped. The writer is returned in any case.
pub fn write_checked<F: Read + Seek + Drop, W: Write>(
    alloc: Global,
    instance: &Instance,
    claim: &Claim<'_>,
    tree: Tree<F>,
    writer: W,
) -> (W, Result<(), ProofError>)
    ensures { OnOk result.1 (WritesProof instance.now claim.now.root.now claim.now.permutation.now claim.now.cost claim.now.bound (W.contents writer) (W.contents result.0)) }
{
    let front = match front_text(alloc, claim) {
        Ok(front) => front,
        Err(_) => return (writer, Err(ProofError::OutOfMemory)),
    };
    let reader = match assembly(alloc, front, tree) {
        Ok(reader) => reader,
        Err(_) => return (writer, Err(ProofError::OutOfMemory)),
    };
    let mut text = Tee::new(reader, writer);
    let checked = copy_stream(alloc, instance, &mut text);
    let (_, writer) = text.into_parts();
    match checked {
        Ok(checked) => match difference(&checked, claim) {
            None => (writer, Ok(())),
            Some(error) => (writer, Err(error)),
        },
        Err(error) => (writer, Err(error)),
    }
}

/// Where the text of a proof that was checked differs from what it is to establish, if it does.
fn difference(checked: &Checked, claim: &Claim<'_>) -> Option<ProofError>
    ensures { MatchOption result
        ((checked.now.root ≡ claim.now.root.now) × (checked.now.permutation ≡ claim.now.permutation.now) × (checked.now.cost ≡ claim.now.cost) × (checked.now.bound ≡ claim.now.bound))
        (λ _. ((checked.now.root ≡ claim.now.root.now) × (checked.now.permutation ≡ claim.now.permutation.now) × (checked.now.cost ≡ claim.now.cost) × (checked.now.bound ≡ claim.now.bound)) → ⊥) }
{
    if checked.cost != claim.cost {
        return Some(ProofError::CostDiffers(3));
    }
    if *checked.permutation.locations() != *claim.permutation.locations() {
        return Some(ProofError::PermBad(4));
    }
    if !is_same_node(&checked.root, claim.root) {
        return Some(ProofError::RootBad(5));
    }
    if checked.bound != claim.bound {
        return Some(ProofError::BadLine(6));
    }
    None
}
