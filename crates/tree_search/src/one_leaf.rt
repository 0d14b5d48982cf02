//! The proof without a search.

ghost use Rattle.std.specs.Prelude.{◌≡◌, IfOk};
ghost use Rattle.qap_proof.specs.Claim.{IsProof, IsRoot, claim_of};
ghost use Rattle.qap_proof.specs.Memory.{node_of};
ghost use Rattle.qap_proof.specs.declared.error.ProofError.TheVariants.{OutOfMemory};
ghost use Rattle.subtree_search.specs.Best.{IsIncumbent};
ghost use Rattle.tree_search.specs.Found.{IsFoundWith};

use crate::evaluation::evaluate;
use crate::progress::Progress;
use gilmore_lawler::NodeRows;
use qap_cost::{Instance, Partial, Perm};
use qap_proof::{Proof, ProofError, Tree, fault_law};
use std::alloc::{AllocError, Global};

/// The proof whose tree is one leaf: what the evaluation of the root shows.
pub(crate) fn one_leaf(
    alloc: Global,
    instance: &Instance,
    rows: &mut NodeRows<'_>,
    progress: &mut Progress,
    root: &Partial,
) -> Result<Proof, AllocError>
    requires root { IsRoot instance.now.size root.now }
    requires rows { rows.old ≡ instance.now }
    requires incumbent { IsIncumbent instance.now progress.old.incumbent }
    ensures { IfOk result (IsFoundWith instance.now root.now progress.old.incumbent) }
{
    let evaluation = evaluate(alloc, rows, &mut progress.solver, root)?;
    let cost = progress.incumbent.cost();
    let bound = cost.min(evaluation.value);
    let permutation = progress.incumbent.permutation().copy()?;
    let root = root.copy()?;
    made(cost, bound, root, permutation, evaluation.leaf())
}

/// The proof of these parts, which have the shape of one.
fn made(
    cost: i128,
    bound: i128,
    root: Partial,
    permutation: Perm,
    tree: Tree,
) -> Result<Proof, AllocError>
    requires { IsProof (claim_of root cost bound permutation (node_of tree)) }
    ensures { IfOk result (λ p. (p ≡ claim_of root cost bound permutation (node_of tree)) × IsProof p) }
{
    fault_law();
    match Proof::new(cost, bound, root, permutation, tree) {
        Ok(proof) => Ok(proof),
        Err((error, ..)) => Err(out_of_memory(error)),
    }
}

/// The error, where that is the only one.
fn out_of_memory(error: ProofError) -> AllocError
    requires { error ≡ OutOfMemory }
{
    match error {
        ProofError::OutOfMemory => AllocError,
        _ => unreachable!(),
    }
}
