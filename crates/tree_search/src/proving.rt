//! The search for a proof.

ghost use Rattle.std.specs.Prelude.{◌≡◌, ◌≤◌, IfOk, IfSome, None};
ghost use Rattle.qap_cost.specs.Objective.{Permutes};
ghost use Rattle.qap_proof.specs.Claim.{IsRoot, Proves};
ghost use Rattle.subtree_search.specs.Best.{IsIncumbent};
ghost use Rattle.tree_search.specs.Found.{CountsOpen, IsCheckedWith, IsFoundFor, IsFoundWith};

use crate::ground::Ground;
use crate::one_leaf::one_leaf;
use crate::open::bound_shown;
use crate::progress::Progress;
use crate::search::search;
use gilmore_lawler::{NodeRows, RankedInstance};
use qap_cost::{Instance, Partial, Perm};
use qap_proof::{Proof, ProofError, Tree, check};
use std::alloc::{AllocError, Global};
use subtree_search::{Incumbent, Stop};

/// What a search has found.
#[derive(Drop)]
pub struct Found {
    /// No permutation that completes the root costs less than its bound.
    pub proof: Proof,
    /// How many nodes were decided: split, or closed by their own bound.
    pub nodes: u64,
    /// How many leaves do not reach the proof's cost.
    pub open_nodes: u64,
}

/// Searches the completions of a root, whose facilities ascend, depth first, under the bounds of Gilmore (1962) and
/// Lawler (1963), from a permutation of the instance, until nothing is open, this many nodes were decided, or a stop is
/// requested. The proof's tree has what was found, and its bound is the least of the cost and the values of the leaves
/// that are open.
///
/// The root is evaluated in any case, and its assignment's completion may improve the start. At the limit each child
/// that is neither pruned nor symmetric is a leaf under its own duals, so that with a limit of 0 the tree is one leaf,
/// and with a limit of 1 the root is split unless its own bound closes it. Once a stop is requested, children that were
/// not begun are leaves under the duals of their splits. A check of the whole tree follows; one that it refused, which
/// only a bug could cause, would be replaced by one leaf. The only error is out of memory.
pub fn prove<S: Stop>(
    alloc: Global,
    instance: &Instance,
    root: &Partial,
    start: &Perm,
    limit: Option<u64>,
    stop: &S,
) -> Result<Found, AllocError>
    requires root { IsRoot instance.now.size root.now }
    requires start { Permutes instance.now start.now }
    ensures found { IfOk result (λ f. IsFoundFor instance.now root.now start.now f.proof) }
    ensures limit { IfOk result (λ f. IfSome limit (λ most. f.nodes ≤ most)) }
    ensures open { IfOk result CountsOpen }
{
    let ranked = RankedInstance::new(alloc, instance)?;
    let mut rows = NodeRows::new(alloc, &ranked);
    let most = limit.unwrap_or(u64::MAX);
    let ground = Ground::new(alloc, instance, most, stop)?;
    let incumbent = Incumbent::new(instance, start.copy()?);
    let mut progress = Progress::new(alloc, incumbent);
    let tree = search(&ground, &mut rows, &mut progress, root)?;
    concluded(alloc, instance, &mut rows, &mut progress, root, tree)
}

/// What was found, where the search returned this tree.
fn concluded(
    alloc: Global,
    instance: &Instance,
    rows: &mut NodeRows<'_>,
    progress: &mut Progress,
    root: &Partial,
    tree: Tree,
) -> Result<Found, AllocError>
    requires root { IsRoot instance.now.size root.now }
    requires rows { rows.old ≡ instance.now }
    requires incumbent { IsIncumbent instance.now progress.old.incumbent }
    ensures found { IfOk result (λ f. IsFoundWith instance.now root.now progress.old.incumbent f.proof) }
    ensures nodes { IfOk result (λ f. f.nodes ≡ progress.old.nodes) }
    ensures open { IfOk result CountsOpen }
{
    let nodes = progress.nodes;
    let shown = bound_shown(progress.incumbent.cost(), &progress.open);
    let checked = checked(
        alloc,
        instance,
        root,
        &progress.incumbent,
        shown.bound,
        tree,
    )?;
    if let Some(proof) = checked {
        let open_nodes = shown.open_nodes;
        return Ok(Found {
            proof,
            nodes,
            open_nodes,
        });
    }
    let proof = one_leaf(alloc, instance, rows, progress, root)?;
    Ok(unsearched(proof, nodes))
}

/// What was found, where the proof's tree is one leaf.
fn unsearched(proof: Proof, nodes: u64) -> Found
    ensures proof { result.proof ≡ proof }
    ensures nodes { result.nodes ≡ nodes }
    ensures open { CountsOpen result }
{
    let open_nodes = u64::from(proof.bound() != proof.cost());
    Found {
        proof,
        nodes,
        open_nodes,
    }
}

/// The proof with this bound and this tree, if a check confirms it.
fn checked(
    alloc: Global,
    instance: &Instance,
    root: &Partial,
    incumbent: &Incumbent,
    bound: i128,
    tree: Tree,
) -> Result<Option<Proof>, AllocError>
    ensures { IfOk result (λ found. IfSome found (IsCheckedWith instance.now root.now incumbent.now bound)) }
{
    let cost = incumbent.cost();
    let permutation = incumbent.permutation().copy()?;
    match Proof::new(cost, bound, root.copy()?, permutation, tree) {
        Ok(proof) => confirmed(alloc, instance, proof),
        Err((error, ..)) => refused(error),
    }
}

/// The proof, if a check confirms it.
fn confirmed(alloc: Global, instance: &Instance, proof: Proof) -> Result<Option<Proof>, AllocError>
    ensures { IfOk result (λ found. IfSome found (λ C. (C ≡ proof) × Proves instance.now C)) }
{
    match check(alloc, instance, &proof) {
        Ok(()) => Ok(Some(proof)),
        Err(error) => refused(error),
    }
}

/// No proof, unless memory ran out.
fn refused(error: ProofError) -> Result<Option<Proof>, AllocError>
    ensures { IfOk result (λ found. found ≡ None) }
{
    match error {
        ProofError::OutOfMemory => Err(AllocError),
        _ => Ok(None),
    }
}
