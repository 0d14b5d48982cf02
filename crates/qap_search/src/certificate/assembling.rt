//! Assembles the tuples of a finished search into a certificate.

ghost use Rattle.std.specs.Prelude.{◌≡◌, ◌⊎◌, ◌<◌, ◌≤◌, MatchResult};
ghost use Rattle.qap_cert.specs.Tree.{Node, node_of};
ghost use Rattle.qap_search.specs.Certificate.Assembling.{IsAssembleFault, IsTreeFault};
ghost use Rattle.qap_search.specs.Certificate.TreeBuilding.{AreTuplesOf};
ghost use Rattle.qap_search.specs.Certificate.Finished.{IsAssembled};
ghost use Rattle.qap_search.specs.Tuples.Piece.{is_open, open_count};
ghost use Rattle.qap_search.specs.Certificate.Pieces.{decided_tuples, pieces_tuples};
ghost use Rattle.qap_search.specs.declared.certificate.error.AssembleError.TheVariants.{NotATree, OutOfMemory};

use crate::certificate::error::AssembleError;
use crate::certificate::pieces::{Pieces, tell_apart};
use crate::certificate::reordering::put_in_order;
use crate::certificate::tree_building::take_tree;
use crate::tuples::parsing::{BestFound, DecidedNode, is_word, permutation_of};
use qap_cert::{Certificate, Tree};
use std::alloc::Global;
use tuple_match::Tuple;

/// The certificate of size `n` with these tuples, in any order: one of the incumbent and one for each node of its tree.
/// Its bound is its cost.
///
/// The lists of duals are moved out of the tuples, not copied. `Unfinished` has the number of tuples of open nodes, and
/// comes first; `NotATree` is returned if none is open and the tuples form no certificate of this size.
pub fn assemble(alloc: Global, n: usize, tuples: Vec<Tuple>) -> Result<Certificate, AssembleError>
    requires positive { 0 < n }
    requires small { n ≤ 256 }
    ensures { MatchResult result
        (λ c. IsAssembled n tuples.items c × (open_count tuples.items ≡ 0))
        (λ e. IsAssembleFault n tuples.items e) }
{
    let open = open_nodes(&tuples);
    if open > 0 {
        return Err(AssembleError::Unfinished(open));
    }
    assemble_finished(alloc, n, tuples)
}

/// The same, where no node is open.
pub(crate) fn assemble_finished(
    alloc: Global,
    n: usize,
    tuples: Vec<Tuple>,
) -> Result<Certificate, AssembleError>
    requires positive { 0 < n }
    requires small { n ≤ 256 }
    ensures { MatchResult result
        (λ c. IsAssembled n tuples.items c)
        (λ e. IsTreeFault n tuples.items e) }
{
    let pieces = tell_apart(alloc, tuples)?;
    certificate_of(alloc, n, pieces)
}

/// How many of the tuples are of open nodes.
pub(crate) fn open_nodes(tuples: &[Tuple]) -> u64
    ensures { result ≡ open_count tuples.now }
{
    let mut count = 0;
    for tuple in tuples {
        count += u64::from(is_open(tuple));
    }
    count
}

/// Whether the tuple is of an open node.
fn is_open(tuple: &Tuple) -> bool
    ensures { result ≡ is_open tuple.now }
{
    match tuple.fields() {
        [name, list] => is_word("node", name) && list.as_list().is_some(),
        _ => false,
    }
}

/// The certificate of size `n` of these pieces. The lists of duals are moved, not copied.
fn certificate_of(alloc: Global, n: usize, pieces: Pieces) -> Result<Certificate, AssembleError>
    requires positive { 0 < n }
    requires small { n ≤ 256 }
    ensures { MatchResult result
        (λ c. IsAssembled n (pieces_tuples pieces) c)
        (λ e. IsTreeFault n (pieces_tuples pieces) e) }
{
    let Pieces { best, decided } = pieces;
    let BestFound { cost, locations } = best;
    let Some(perm) = permutation_of(alloc, &locations.numbers())? else {
        return Err(AssembleError::NotATree);
    };
    if perm.len() != n {
        return Err(AssembleError::NotATree);
    }
    let tree = tree_of(alloc, n, decided)?;
    match Certificate::new(cost, cost, perm, tree) {
        Ok(certificate) => Ok(certificate),
        Err(_) => Err(AssembleError::NotATree),
    }
}

/// The tree of size `n` whose nodes these are, in any order.
fn tree_of(alloc: Global, n: usize, mut nodes: Vec<DecidedNode>) -> Result<Tree, AssembleError>
    requires positive { 0 < n }
    requires small { n ≤ 256 }
    ensures { MatchResult result
        (λ t. AreTuplesOf n (decided_tuples nodes.items) (node_of t))
        (λ e. (e ≡ OutOfMemory) ⊎ ((e ≡ NotATree) × ((s : Node) → AreTuplesOf n (decided_tuples nodes.items) s → ⊥))) }
{
    put_in_order(&mut nodes);
    let tree = take_tree(alloc, n, &mut nodes)?;
    if nodes.is_empty() {
        Ok(tree)
    } else {
        Err(AssembleError::NotATree)
    }
}
