//! Splits a search into parts.

ghost use Rattle.std.specs.Prelude.{IfOk, IfSome, ◌≤ℤ◌};
ghost use Rattle.qap_cost.specs.Objective.{Permutes, cost_of};
ghost use Rattle.qap_proof.specs.Claim.{IsRoot};
ghost use Rattle.plan_search.specs.Options.{AreLimited};
ghost use Rattle.qap_plan.specs.Parts.{IsSplitUp};
ghost use Rattle.qap_plan.specs.Splitting.{IsSkeleton};

use plan_files::{PlannerError, Searched};
use plan_search::{Keeper, MAX_NODES, Options, improved_below, own_start};
use qap_cost::{Instance, Partial, Perm};
use qap_proof::{MissingPart, Proof, missing_parts, refined};
use std::alloc::Global;
use std::sync::Wait;
use std::thread::Threads;
use std::time;
use subtree_search::Never;
use tree_search::{Found, prove};

/// The proof of the whole that a search which was stopped early has found, and the parts that are left to search.
#[derive(Drop)]
pub struct Skeleton {
    pub proof: Proof,
    /// The hardest first, as far as their bounds show.
    pub parts: Vec<MissingPart>,
    /// How many nodes were decided.
    pub nodes: u64,
}

/// Repeatedly splits the hardest part of the search of a root's completions, from the start or any of them, until there
/// are as many parts as requested, none is left, the node limit is reached or a stop is requested.
pub fn split_up<T, K>(
    system: &T,
    alloc: Global,
    searched: &Searched,
    start: Option<Perm>,
    options: &Options,
    wanted: usize,
    keeper: &K,
) -> Result<Skeleton, PlannerError>
where
    T: Threads + Wait + time::Clock + Sync,
    K: Keeper,
    requires limited { AreLimited options.now }
    requires root { IsRoot searched.now.instance.size searched.now.root }
    requires start { IfSome start (Permutes searched.now.instance) }
    ensures { IfOk result (IsSplitUp searched.now.instance searched.now.root start) }
{
    let (instance, root) = (&searched.instance, &searched.root);
    let own = own_start(alloc, instance, root, start)?;
    let first = improved_below(system, alloc, instance, root, own, options, keeper)?;
    let skeleton = whole(alloc, instance, root, &first)?;
    split_on(alloc, instance, root, skeleton, options, wanted, keeper)
}

/// The same from a skeleton on.
fn split_on<K: Keeper>(
    alloc: Global,
    instance: &Instance,
    root: &Partial,
    skeleton: Skeleton,
    options: &Options,
    wanted: usize,
    keeper: &K,
) -> Result<Skeleton, PlannerError>
    requires { IsSkeleton instance.now root.now skeleton }
    ensures skeleton { IfOk result (IsSkeleton instance.now root.now) }
    ensures no_dearer { IfOk result (λ s. s.proof.cost ≤ℤ skeleton.proof.cost) }
{
    let mut finer = skeleton;
    for _ in 0..options.nodes.unwrap_or(MAX_NODES) {
        let left = finer.parts.len();
        if left == 0 || left >= wanted || keeper.is_wanted() {
            break;
        }
        finer = split_hardest(alloc, instance, root, finer)?;
    }
    Ok(finer)
}

/// The search that has decided nothing: its proof has one leaf.
fn whole(
    alloc: Global,
    instance: &Instance,
    root: &Partial,
    start: &Perm,
) -> Result<Skeleton, PlannerError>
    requires root { IsRoot instance.now.size root.now }
    requires start { Permutes instance.now start.now }
    ensures skeleton { IfOk result (IsSkeleton instance.now root.now) }
    ensures no_dearer { IfOk result (λ s. s.proof.cost ≤ℤ cost_of instance.now start.now) }
{
    let Found {
        proof,
        nodes,
        open_nodes: _,
    } = prove(alloc, instance, root, start, Some(0), &Never)?;
    let parts = missing_parts(alloc, instance, &proof)?;
    Ok(Skeleton {
        proof,
        parts,
        nodes,
    })
}

/// Splits the hardest part, if there is one.
fn split_hardest(
    alloc: Global,
    instance: &Instance,
    root: &Partial,
    skeleton: Skeleton,
) -> Result<Skeleton, PlannerError>
    requires { IsSkeleton instance.now root.now skeleton }
    ensures skeleton { IfOk result (IsSkeleton instance.now root.now) }
    ensures no_dearer { IfOk result (λ s. s.proof.cost ≤ℤ skeleton.proof.cost) }
{
    let Skeleton {
        proof,
        parts,
        nodes,
    } = skeleton;
    let Some((hardest, others)) = parts.split_first() else {
        return Ok(Skeleton {
            proof,
            parts,
            nodes,
        });
    };
    let part = prove(
        alloc,
        instance,
        &hardest.node,
        proof.perm(),
        Some(1),
        &Never,
    )?;
    let bound = bound_of(&part.proof, others);
    let proof = refined(alloc, instance, proof, hardest.leaf, part.proof, bound)?;
    let parts = missing_parts(alloc, instance, &proof)?;
    Ok(Skeleton {
        proof,
        parts,
        nodes: nodes.saturating_add(part.nodes),
    })
}

/// The bound of a proof whose hardest leaf is refined by this part, where these are the others that are missing.
fn bound_of(part: &Proof, others: &[MissingPart]) -> i128 {
    match others.first() {
        Some(next) => part.bound().min(next.value),
        None => part.bound(),
    }
}
