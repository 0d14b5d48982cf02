//! Distinguishes the tuples of a search without open nodes.

ghost use Rattle.std.specs.Prelude.{◌≡◌, ◌⊎◌, ◌∷◌, ℕ, MatchResult, Some};
ghost use Rattle.space_txn.specs.Content.{SameItems};
ghost use Rattle.qap_search.specs.Tuples.DecidedTuples.{found_tuple, piece_tuple};
ghost use Rattle.qap_search.specs.Certificate.Pieces.{pieces_tuples, told_tuples};
ghost use Rattle.qap_search.specs.Certificate.Assembling.{IsTreeFault};
ghost use Rattle.qap_search.specs.declared.tuples.parsing.BestFound.{BestFound as Found};
ghost use Rattle.qap_search.specs.declared.certificate.error.AssembleError.TheVariants.{NotATree, OutOfMemory};

use crate::certificate::error::AssembleError;
use crate::tuples::parsing::{BestFound, DecidedNode, Piece, piece_of};
use std::alloc::Global;
use tuple_match::Tuple;

/// What a search without open nodes has found and decided.
#[derive(Drop)]
pub(crate) struct Pieces {
    pub(crate) best: BestFound,
    pub(crate) decided: Vec<DecidedNode>,
}

/// Sorts the tuples by kind. They are refused if one is not of an incumbent or a decided node, or if there is not
/// exactly one incumbent.
pub(crate) fn tell_apart(alloc: Global, mut tuples: Vec<Tuple>) -> Result<Pieces, AssembleError>
    ensures { MatchResult result
        (λ p. SameItems tuples.items (pieces_tuples p))
        (λ e. (n : ℕ) → IsTreeFault n tuples.items e) }
{
    let mut best = None;
    let mut decided = Vec::with_capacity(alloc, tuples.len())?;
    while let Some(tuple) = tuples.pop() {
        let told = piece_of(tuple)?;
        let Some(piece) = told else {
            return Err(AssembleError::NotATree);
        };
        keep_piece(piece, &mut best, &mut decided)?;
    }
    match best {
        Some(best) => Ok(Pieces { best, decided }),
        None => Err(AssembleError::NotATree),
    }
}

/// Keeps a piece beside the others, unless it is a second best permutation.
fn keep_piece(
    piece: Piece,
    best: &mut Option<BestFound>,
    decided: &mut Vec<DecidedNode>,
) -> Result<(), AssembleError>
    ensures { MatchResult result
        (λ done. SameItems (told_tuples best.new decided.new.items) (piece_tuple piece ∷ told_tuples best.old decided.old.items))
        (λ e. (e ≡ OutOfMemory)
        ⊎ ((e ≡ NotATree) × ((a : Found) × (best.old ≡ Some a)) × ((b : Found) × (piece_tuple piece ≡ found_tuple b)))) }
{
    match piece {
        Piece::Decided(node) => {
            decided.push(node).map_err(|_| AssembleError::OutOfMemory)?;
            Ok(())
        }
        Piece::Best(found) => {
            if best.is_some() {
                return Err(AssembleError::NotATree);
            }
            *best = Some(found);
            Ok(())
        }
    }
}
