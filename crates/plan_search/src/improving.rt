//! Improves a permutation by tabu searches before the search for a proof begins: some in turn, and, where a proof by bounds
//! of Gilmore and Lawler is to be assembled under a time limit, several more side by side for a part of the time.

ghost use Rattle.std.specs.Prelude.{IfOk, false, length, true, ◌≡◌, ◌≤ℤ◌};
ghost use Rattle.qap_cost.specs.Objective.{Permutes, cost_of};
ghost use Rattle.qap_cost.specs.Placement.{Completes};

use crate::keeper::Keeper;
use crate::options::{Options, free_in};
use crate::tabu::{Beside, Tabu};
use plan_file::{completes, improved_keeping};
use qap_cost::{Instance, Partial, Perm, cost};
use qap_improve::{Hook, TabuPlan};
use std::alloc::{AllocError, Global};
use std::sync::Wait;
use std::thread::Threads;
use std::time::Duration;
use std::{thread, time};

/// How many a search in turn makes for each free facility.
const ITERATIONS_IN_TURN: u64 = 400;

/// How many it makes at most, times the square of the number of facilities.
const WORK_IN_TURN: u64 = 50_000_000;

/// For how many milliseconds the calling thread pauses before it looks again whether the time is over.
const PAUSE_MS: u64 = 2;

/// The best permutation that tabu searches find from `start` among those that complete a node, which `start` does; `start`
/// itself if they find none that costs less.
pub fn improved_below<T, K>(
    system: &T,
    alloc: Global,
    instance: &Instance,
    node: &Partial,
    start: Perm,
    options: &Options,
    keeper: &K,
) -> Result<Perm, AllocError>
where
    T: Threads + Wait + time::Clock + Sync,
    K: Keeper,
    requires size { node.now.size ≡ instance.now.size }
    requires start { Completes node.now start }
    ensures completes { IfOk result (Completes node.now) }
    ensures no_dearer { IfOk result (λ p. cost_of instance.now p ≤ℤ cost_of instance.now start) }
{
    let plan = options.tabu_plan();
    let mut hook = UntilStopped { keeper };
    let first = improved_keeping(alloc, instance, node, &start, &plan, &mut hook)?;
    let best = improved_in_turn(alloc, instance, node, first.permutation, options, &mut hook)?;
    let Some(end) = options.improving_until(node) else {
        return Ok(best);
    };
    let found = side_by_side(system, alloc, instance, node, &best, options, (keeper, end))?;
    if is_better(instance, node, &found, &best) {
        Ok(found)
    } else {
        Ok(best)
    }
}

/// The best permutation that an iterated tabu search (Misevicius 2004) finds: each of its searches begins with exchanges at
/// random of the best permutation so far.
fn improved_in_turn<H: Hook>(
    alloc: Global,
    instance: &Instance,
    node: &Partial,
    start: Perm,
    options: &Options,
    hook: &mut H,
) -> Result<Perm, AllocError>
    requires size { node.now.size ≡ instance.now.size }
    requires start { Completes node.now start }
    ensures completes { IfOk result (Completes node.now) }
    ensures no_dearer { IfOk result (λ p. cost_of instance.now p ≤ℤ cost_of instance.now start) }
{
    let mut best = start;
    for round in 0..options.searches_in_turn(node) {
        if !hook.goes_on(cost(instance, &best)) {
            break;
        }
        let plan = plan_in_turn(node, options.seed, round);
        best = improved_keeping(alloc, instance, node, &best, &plan, hook)?.permutation;
    }
    Ok(best)
}

/// The plan of a search in turn: it begins with exchanges at random, a third to two thirds as many as there are facilities.
fn plan_in_turn(node: &Partial, seed: u64, round: u32) -> TabuPlan {
    let n = node.size() as u64;
    let third = n / 3;
    let more = u64::from(round).wrapping_mul(7) % (third + 1);
    let iterations = ITERATIONS_IN_TURN.saturating_mul(free_in(node));
    TabuPlan {
        seed: seed.wrapping_add(u64::from(round)).wrapping_add(1),
        kicks: (third + more) as u32,
        iterations: iterations.min(WORK_IN_TURN / n.saturating_mul(n).max(1)),
    }
}

/// Lets a tabu search continue until a stop is requested.
#[derive(Drop)]
struct UntilStopped<'a, K: Keeper> {
    keeper: &'a K,
}

impl<K: Keeper> Hook for UntilStopped<'_, K> {
    fn goes_on(&mut self, _best: i128) -> bool {
        !self.keeper.is_wanted()
    }
}

/// Whether a permutation completes the node and costs less than another one.
pub(crate) fn is_better(instance: &Instance, node: &Partial, found: &Perm, best: &Perm) -> bool
    requires size { node.now.size ≡ instance.now.size }
    requires best { length best.now ≡ instance.now.size }
    ensures completes { result ≡ true → Completes node.now found.now }
    ensures less { result ≡ true → cost_of instance.now found.now ≤ℤ cost_of instance.now best.now }
    ensures other { result ≡ false → Completes node.now found.now → cost_of instance.now best.now ≤ℤ cost_of instance.now found.now }
{
    found.len() == instance.size()
        && completes(node, found)
        && cost(instance, found) < cost(instance, best)
}

/// The best permutation that as many searches find as there are workers, until the time is over or a stop is requested.
fn side_by_side<T, K>(
    system: &T,
    alloc: Global,
    instance: &Instance,
    node: &Partial,
    start: &Perm,
    options: &Options,
    due: (&K, u64),
) -> Result<Perm, AllocError>
where
    T: Threads + Wait + time::Clock + Sync,
    K: Keeper,
    requires { length start.now ≡ instance.now.size }
{
    let (keeper, end) = due;
    let tabu = Tabu::new(system, alloc, instance, node, start, options.seed)?;
    thread::scope(thread::scope_env(), system, |scope| {
        for number in 0..options.workers {
            let tabu = &tabu;
            // A search whose thread cannot be started is left out.
            let _ = scope.spawn(move || tabu.search(number));
        }
        while_due(system, keeper, end);
        tabu.halt();
    });
    tabu.best()
}

/// Waits until the time is over or a stop is requested.
fn while_due<T: Wait + time::Clock, K: Keeper>(system: &T, keeper: &K, end: u64) {
    for _ in system.forever() {
        if keeper.is_wanted() || keeper.now() >= end {
            return;
        }
        thread::sleep(system, Duration::from_millis(PAUSE_MS));
    }
}
