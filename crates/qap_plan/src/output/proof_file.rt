//! The proof of an answer, and its text.

ghost use Rattle.std.specs.Prelude.{ℕ, List, ◌≡◌, ◌≤ℤ◌, IfOk, IfSome, OnOk};
ghost use Rattle.std.specs.Io.KnownBytes.{Appends};
ghost use Rattle.qap_proof.specs.Text.{IsProofText};
ghost use Rattle.qap_plan.specs.Proofs.{Is, IsLeftBy, SpoolsFor, TellsProof};
ghost use Rattle.qap_plan.specs.declared.output.proof_file.AnswerProof.TheVariants.{Pairs};

use plan_files::{PlannerError, Source};
use plan_search::Planned;
use proof_spool::{Claim, SharedSpool, Spool, Tree, write_checked};
use qap_cost::{Instance, Partial, Perm};
use qap_io::Counted;
use qap_proof::{Proof, write};
use std::alloc::Global;
use std::fs::File;
use std::io::{self, Write};
use std::sync::Wait;

/// The proof of an answer.
#[derive(Drop)]
pub enum AnswerProof {
    /// By bounds of Gilmore and Lawler.
    Rows(Proof),
    /// With pair duals: what it is made from when it is written.
    Pairs(SpooledProof),
    /// A piece of it could not be kept.
    Lost(io::Error),
}

/// What a proof with pair duals is made from, the instance, and what it is to establish.
#[derive(Drop)]
pub struct SpooledProof {
    pub instance: Instance,
    pub root: Partial,
    pub permutation: Perm,
    pub cost: i128,
    pub bound: i128,
    pub tree: Tree<File>,
}

/// What a search has found, with its proof if one was requested and there is one.
#[derive(Drop)]
pub struct Proved {
    pub planned: Planned,
    pub proof: Option<AnswerProof>,
}

impl Source for AnswerProof {
    ghost tells = { TellsProof };

    fn write_to<W: Write + Drop>(self, alloc: Global, writer: W) -> (W, Result<(), PlannerError>) {
        match self {
            AnswerProof::Rows(proof) => write_rows(alloc, &proof, writer),
            AnswerProof::Pairs(spooled) => write_pairs(alloc, spooled, writer),
            AnswerProof::Lost(_) => (writer, Err(PlannerError::Device)),
        }
    }
}

/// Writes the text of a proof by bounds of Gilmore and Lawler.
fn write_rows<W: Write>(
    alloc: Global,
    proof: &Proof,
    mut writer: W,
) -> (W, Result<(), PlannerError>)
    ensures { OnOk result.1 ((text : List ℕ) × IsProofText text proof.now × Appends (W.contents writer) (W.contents result.0) text) }
{
    let text = match text_of_proof(alloc, proof) {
        Ok(text) => text,
        Err(error) => return (writer, Err(error)),
    };
    match writer.write_all(&text) {
        Ok(()) => (writer, Ok(())),
        Err(_) => (writer, Err(PlannerError::Device)),
    }
}

/// Writes the text of a proof with pair duals, which is checked as it is written.
fn write_pairs<W: Write>(
    alloc: Global,
    spooled: SpooledProof,
    writer: W,
) -> (W, Result<(), PlannerError>)
    ensures { OnOk result.1 ((text : List ℕ) × TellsProof (Pairs spooled) text × Appends (W.contents writer) (W.contents result.0) text) }
{
    let SpooledProof {
        instance,
        root,
        permutation,
        cost,
        bound,
        tree,
    } = spooled;
    let claim = Claim {
        root: &root,
        permutation: &permutation,
        cost,
        bound,
    };
    let (writer, written) = write_checked(alloc, &instance, &claim, tree, writer);
    match written {
        Ok(()) => (writer, Ok(())),
        Err(error) => (writer, Err(PlannerError::from(error))),
    }
}

/// The text of a proof.
pub fn text_of_proof(alloc: Global, proof: &Proof) -> Result<Vec<u8>, PlannerError>
    ensures { IfOk result (λ text. IsProofText text.items proof.now) }
{
    proof.proof_law();
    let mut text = Counted::new(Vec::new(alloc));
    match write(alloc, &mut text, proof) {
        Ok(()) => Ok(text.into_inner()),
        // Nothing but want of memory keeps a text from a vector.
        Err(_) => Err(PlannerError::OutOfMemory),
    }
}

/// What a search below a root has found, with its proof if one was requested. One with pair duals, from the pieces that the
/// search has left, has the least bound that an open leaf reaches: that is the bound then.
pub fn with_proof<T: Wait>(
    alloc: Global,
    instance: &Instance,
    root: &Partial,
    found: Planned,
    pieces: &SharedSpool<'_, T, File>,
) -> Proved
    ensures permutation { result.planned.permutation ≡ found.permutation }
    ensures cost { result.planned.cost ≡ found.cost }
    ensures bound { result.planned.bound ≤ℤ found.bound }
    ensures proof { IfSome result.proof (IsLeftBy instance.now root.now found result.planned) }
{
    let mut planned = found;
    if let Some(proof) = planned.proof.take() {
        return Proved {
            planned,
            proof: Some(AnswerProof::Rows(proof)),
        };
    }
    let Some(spool) = pieces.take() else {
        return Proved {
            planned,
            proof: None,
        };
    };
    match spooled(alloc, instance, root, &planned, spool) {
        Ok(Some(spooled)) => Proved {
            planned: Planned {
                bound: spooled.bound,
                ..planned
            },
            proof: Some(AnswerProof::Pairs(spooled)),
        },
        Ok(None) => Proved {
            planned,
            proof: None,
        },
        Err(error) => Proved {
            planned,
            proof: Some(AnswerProof::Lost(error)),
        },
    }
}

/// The proof that is made from the pieces of a spool, if there is one over the root.
fn spooled(
    alloc: Global,
    instance: &Instance,
    root: &Partial,
    found: &Planned,
    spool: Spool<File>,
) -> io::Result<Option<SpooledProof>>
    ensures { IfOk result (λ made. IfSome made (λ s. SpoolsFor instance.now (Is root.now) found.now.permutation found.now.cost s.bound s × (s.bound ≤ℤ found.now.bound))) }
{
    let Some(tree) = spool.into_tree(root)? else {
        return Ok(None);
    };
    Ok(Some(SpooledProof {
        instance: instance.copy()?,
        root: root.copy()?,
        permutation: found.permutation.copy()?,
        cost: found.cost,
        bound: lesser(found.bound, tree.least_open()),
        tree,
    }))
}

/// The lesser of two bounds, if there is another one.
fn lesser(bound: i128, other: Option<i128>) -> i128
    ensures { result ≤ℤ bound }
{
    match other {
        Some(other) => bound.min(other),
        None => bound,
    }
}
