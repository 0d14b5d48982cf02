//! Nodes as texts.

ghost use Rattle.std.specs.Prelude.{◌≡◌, ◌≢◌, ◌<◌, ◌≤◌, drop, IfOk, MatchOption};
ghost use Rattle.qap_cost.specs.Placement.{Placement};
ghost use Rattle.qap_proof.specs.Claim.{IsRoot};
ghost use Rattle.qap_proof.specs.NodeText.{node_text};

use crate::error::ProofError;
use crate::root::judge_root;
use crate::writing::push_by_turns;
use qap_cost::Partial;
use std::alloc::{AllocError, Global};

/// The text of a node: its facilities and locations alternately, counted from 1, with one blank between two numbers.
pub fn text_of_node(alloc: Global, node: &Partial) -> Result<Vec<u8>, AllocError>
    ensures { IfOk result (λ text. text.items ≡ node_text node.now) }
{
    let mut numbers = Vec::new(alloc);
    push_by_turns(&mut numbers, node.facilities(), node.places())?;
    behind_first(alloc, &numbers)
}

/// All bytes but the first.
fn behind_first(alloc: Global, bytes: &[u8]) -> Result<Vec<u8>, AllocError>
    ensures { IfOk result (λ rest. rest.items ≡ drop 1 bytes.now) }
{
    match bytes.split_first() {
        Some((_, rest)) => Vec::from_slice(alloc, rest),
        None => Ok(Vec::new(alloc)),
    }
}

/// The node of this size that a text spells; `None` if it spells none whose facilities ascend.
pub fn read_node_text(
    alloc: Global,
    text: &[u8],
    size: usize,
) -> Result<Option<Partial>, AllocError>
    requires positive { 0 < size }
    requires small { size ≤ 256 }
    ensures { IfOk result (λ found. MatchOption found ((x : Placement) → IsRoot size x → text.now ≢ node_text x) (λ x. IsRoot size x × (text.now ≡ node_text x))) }
{
    if text.is_empty() {
        return Ok(Some(Partial::root(alloc, size)?));
    }
    let mut line = Vec::from_slice(alloc, b"node ")?;
    line.extend_from_slice(text)?;
    match judge_root(alloc, &line, size) {
        Ok(found) => Ok(found),
        Err(ProofError::RootBad(_)) => Ok(None),
        Err(_) => Err(AllocError),
    }
}
