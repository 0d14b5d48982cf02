//! Reads proofs.

ghost use Rattle.std.specs.Prelude.{◌≡◌, ◌⊎◌, ◌++◌, codes, false, MatchResult};
ghost use Rattle.qap_proof.specs.Head.{HasHead};
ghost use Rattle.qap_proof.specs.Memory.{node_of};
ghost use Rattle.qap_proof.specs.Shape.{HasShape};
ghost use Rattle.qap_proof.specs.Text.{IsProofText, tree_text};
ghost use Rattle.qap_proof.specs.TextFault.{IsTextFault, IsFaultFromTree, IsEndFault};

use crate::bound::read_bound;
use crate::error::ProofError;
use crate::head::{read_cost, read_header, read_permutation, read_size};
use crate::line::line_at;
use crate::proof::Proof;
use crate::root::read_root;
use crate::tree::Tree;
use crate::tree_reader::read_tree;
use qap_cost::{Partial, Perm};
use std::alloc::Global;

/// What is before the tree of a proof, the number of the tree's first line, and the text from there on.
#[derive(Drop)]
pub(crate) struct Head<'a> {
    pub(crate) cost: i128,
    pub(crate) perm: Perm,
    pub(crate) root: Partial,
    pub(crate) bound: i128,
    pub(crate) line: u64,
    pub(crate) rest: &'a [u8],
}

/// The proof in a text.
///
/// A text has one line each for the version, the size, the cost and the permutation, a line for a nonempty root, one
/// for a bound that is below the cost, a line for each node of the tree in preorder, and a last line. Each proof has
/// exactly one text. The first fault in order of lines is reported.
pub fn read(alloc: Global, text: &[u8]) -> Result<Proof, ProofError>
    ensures { MatchResult result
        (IsProofText text.now)
        (λ e. (e ≡ ProofError.OutOfMemory) ⊎ IsTextFault text.now e) }
{
    let head = read_head(alloc, text)?;
    let tree = read_to_end(alloc, &head)?;
    Ok(Proof {
        root: head.root,
        cost: head.cost,
        bound: head.bound,
        perm: head.perm,
        tree,
    })
}

/// Reads the tree and the last line.
fn read_to_end(alloc: Global, head: &Head<'_>) -> Result<Tree, ProofError>
    ensures { MatchResult result
        (λ t. HasShape head.now.root 0 false (node_of t) × (head.now.rest.now ≡ tree_text (node_of t) ++ codes "end\n"))
        (λ e. (e ≡ ProofError.OutOfMemory) ⊎ IsFaultFromTree head.now.root head.now.line head.now.rest.now e) }
{
    let read = read_tree(alloc, head.rest, &head.root, 0, false, head.line)?;
    read_end(read.rest, read.next)?;
    Ok(read.tree)
}

/// Reads what is before the tree.
pub(crate) fn read_head(alloc: Global, text: &[u8]) -> Result<Head<'_>, ProofError>
    ensures { MatchResult result
        (λ h. HasHead text.now h.root h.cost h.bound h.perm h.line h.rest.now)
        (λ e. (e ≡ ProofError.OutOfMemory) ⊎ IsTextFault text.now e) }
{
    let rest = read_header(text)?;
    let (size, rest) = read_size(rest)?;
    let (cost, rest) = read_cost(rest)?;
    let (perm, rest) = read_permutation(alloc, rest, size)?;
    let rooted = read_root(alloc, rest, size)?;
    let bounded = read_bound(rooted.rest, cost, rooted.line)?;
    Ok(Head {
        cost,
        perm,
        root: rooted.root,
        bound: bounded.bound,
        line: bounded.line,
        rest: bounded.rest,
    })
}

/// Reads the last line, whose number this is.
pub(crate) fn read_end(text: &[u8], line: u64) -> Result<(), ProofError>
    ensures { MatchResult result (λ _. text.now ≡ codes "end\n") (IsEndFault line text.now) }
{
    let last = line_at(text, line)?;
    if last.bytes != b"end".as_slice() {
        return Err(ProofError::BadLine(line));
    }
    if !last.rest.is_empty() {
        return Err(ProofError::TrailingText(line.saturating_add(1)));
    }
    Ok(())
}
