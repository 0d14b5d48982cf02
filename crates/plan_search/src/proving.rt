//! Searches below a root for a proof by bounds of Gilmore and Lawler.

ghost use Rattle.std.specs.Prelude.{IfOk, IfSome, Some, ◌≡◌};
ghost use Rattle.qap_cost.specs.Objective.{Permutes};
ghost use Rattle.qap_proof.specs.Claim.{IsRoot};
ghost use Rattle.plan_search.specs.Keeping.{IsSearched};
ghost use Rattle.plan_search.specs.Planning.{ProvesOver};

use crate::keeper::{Keeper, Progress};
use crate::memory_limit::WithinMemory;
use crate::options::Options;
use crate::planning::Planned;
use qap_cost::{Instance, Partial, Perm};
use qap_proof::proof_law;
use std::alloc::{AllocError, Global};
use std::cell::Cell;
use subtree_search::Stop;

/// After this many nodes the progress is reported once.
const NODES_PER_LOOK: u64 = 16;

/// Proves a bound on the completions of a root by those of Gilmore and Lawler, from a permutation on.
pub(crate) fn prove_by_rows<K: Keeper>(
    alloc: Global,
    instance: &Instance,
    root: &Partial,
    start: &Perm,
    options: &Options,
    keeper: &K,
) -> Result<Planned, AllocError>
    requires root { IsRoot instance.now.size root.now }
    requires start { Permutes instance.now start.now }
    ensures searched { IfOk result (λ x. IsSearched instance.now root.now start.now x.permutation x.cost x.bound) }
    ensures proof { IfOk result (λ x. IfSome x.proof (ProvesOver instance.now root.now x.permutation x.cost x.bound)) }
{
    proof_law();
    instance.instance_law();
    let counter = Counter {
        within: WithinMemory::new(keeper, options.allowed_bytes()),
        nodes: Cell::new(0),
    };
    let found = tree_search::prove(alloc, instance, root, start, options.nodes, &counter)?;
    let planned = proved_by(found)?;
    Ok(planned)
}

/// What a proof by bounds of Gilmore and Lawler establishes about the completions of its root.
fn proved_by(found: tree_search::Found) -> Result<Planned, AllocError>
    ensures permutation { IfOk result (λ x. x.permutation ≡ found.proof.permutation) }
    ensures cost { IfOk result (λ x. x.cost ≡ found.proof.cost) }
    ensures bound { IfOk result (λ x. x.bound ≡ found.proof.bound) }
    ensures proof { IfOk result (λ x. x.proof ≡ Some found.proof) }
{
    let proof = found.proof;
    Ok(Planned {
        permutation: proof.perm().copy()?,
        cost: proof.cost(),
        bound: proof.bound(),
        nodes: found.nodes,
        open_nodes: found.open_nodes,
        proof: Some(proof),
    })
}

/// Stops a search if a keeper requests it or the memory is used up, and counts the nodes of that search, which asks once
/// for each.
#[derive(Drop)]
struct Counter<'k, K: Keeper> {
    within: WithinMemory<'k, K>,
    nodes: Cell<u64>,
}

impl<K: Keeper> Stop for Counter<'_, K> {
    ghost says = { λ _ _. Unit {0} };

    fn is_requested(&self) -> bool {
        let nodes = self.nodes.get().wrapping_add(1);
        self.nodes.set(nodes);
        if nodes % NODES_PER_LOOK == 0 && self.within.is_watching() {
            self.within.see(&Progress {
                cost: None,
                bound: None,
                settled: None,
                decided: nodes,
            });
        }
        self.within.is_wanted()
    }
}
