//! Robust tabu search: repeatedly the best exchange that is not tabu (Taillard 1991).

ghost use Rattle.std.specs.Prelude.{◌≡◌, ◌+◌, ◌*◌, ◌<◌, ◌≤◌, ◌≤ℤ◌, ℕ, Bool, List, IfOk, length};
ghost use Rattle.qap_improve.specs.Arrangement.{HasEntriesWithin};
ghost use Rattle.qap_cost.specs.Instance.{IsInstance, Problem};
ghost use Rattle.qap_cost.specs.Objective.{Permutes, cost_of};
ghost use Rattle.qap_improve.specs.Walk.{IsWalk, WalkKeeps};
ghost use Rattle.qap_improve.specs.Exchange.{exchanging};
ghost use Rattle.qap_improve.specs.Moving.{KeepsOthers};
ghost use Rattle.qap_cost.specs.Bijection.{IsBijection, IsPerm};

use crate::arrangement::{Arrangement, arranged, exchange_two};
use crate::choice::choose;
use crate::descent::Improved;
use crate::memory::Memory;
use crate::number::Number;
use crate::small::has_small_entries;
use crate::table::{Differences, all_differences, number_at, update};
use qap_cost::{Instance, Perm, cost};
use std::alloc::{AllocError, Global};

/// How a tabu search goes.
#[derive(Clone, Copy, Debug)]
pub struct TabuPlan {
    /// The seed of its random numbers.
    pub seed: u64,
    /// How many exchanges at random it makes before its first iteration. Where they lead, it goes on; the start is still the
    /// best that it knows.
    pub kicks: u32,
    /// How many iterations it makes at most; with 0, and no kicks, it answers the start.
    pub iterations: u64,
}

/// What is asked before each iteration of a search.
pub trait Hook {
    /// Whether the search goes on, where the least cost known so far is this.
    fn goes_on(&mut self, best: i128) -> bool;
}

/// Lets a search make all its iterations.
#[derive(Clone, Copy, Debug)]
pub struct Always;

impl Hook for Always {
    fn goes_on(&mut self, _best: i128) -> bool {
        true
    }
}

/// Where a search is, and the best that it has come by.
#[derive(Drop)]
struct Walk<N> {
    arrangement: Arrangement,
    cost: i128,
    differences: Differences<N>,
    best: Vec<u16>,
    best_cost: i128,
}

/// The best permutation that a robust tabu search finds from `start`, and its cost, which is at most that of `start`
/// (Taillard, Robust taboo search for the quadratic assignment problem, Parallel Computing 17, 1991).
///
/// Each iteration makes the exchange of two facilities' locations that costs least, even if it increases the cost.
/// Exchanges that would put both facilities where they were a short while ago are tabu, unless they lead below the best
/// known cost; those that would put both where they have not been for very long have priority. An iteration takes time
/// O(n^2) for n facilities, and the initialization O(n^3). Equal plans give equal answers, unless `hook` ends the
/// search. The only error is out of memory.
pub fn tabu_search<H: Hook>(
    alloc: Global,
    instance: &Instance,
    start: &Perm,
    plan: &TabuPlan,
    hook: &mut H,
) -> Result<Improved, AllocError>
    requires { length start.now ≡ instance.now.size }
    ensures permutation { IfOk result (λ x. Permutes instance.now x.permutation) }
    ensures cost { IfOk result (λ x. x.cost ≡ cost_of instance.now x.permutation) }
    ensures no_dearer { IfOk result (λ x. x.cost ≤ℤ cost_of instance.now start.now) }
{
    let all = vec![in alloc; true; instance.size()]?;
    tabu_search_among(alloc, instance, start, &all, plan, hook)
}

/// Likewise, but the facilities for which `may_move` is false keep the locations that `start` gives them: it exchanges
/// only pairs that may move. The tenures of its memory are those of a search among as many facilities as may move.
pub fn tabu_search_among<H: Hook>(
    alloc: Global,
    instance: &Instance,
    start: &Perm,
    may_move: &[bool],
    plan: &TabuPlan,
    hook: &mut H,
) -> Result<Improved, AllocError>
    requires same_size { length start.now ≡ instance.now.size }
    requires movable { length may_move.now ≡ instance.now.size }
    ensures permutation { IfOk result (λ x. Permutes instance.now x.permutation) }
    ensures cost { IfOk result (λ x. x.cost ≡ cost_of instance.now x.permutation) }
    ensures no_dearer { IfOk result (λ x. x.cost ≤ℤ cost_of instance.now start.now) }
    ensures kept { IfOk result (λ x. KeepsOthers may_move.now start.now x.permutation) }
{
    let moving = moving_in(may_move);
    let mut memory = Memory::new(alloc, instance.size(), moving, plan.seed)?;
    if has_small_entries(instance) {
        search::<i64, H>(alloc, instance, start, may_move, plan, &mut memory, hook)
    } else {
        search::<i128, H>(alloc, instance, start, may_move, plan, &mut memory, hook)
    }
}

/// How many facilities may move.
fn moving_in(may_move: &[bool]) -> usize
    ensures { result ≤ length may_move.now }
{
    may_move.iter().filter(|moves| **moves).count()
}

/// The same, where the differences are kept in numbers of this width.
fn search<N: Number, H: Hook>(
    alloc: Global,
    instance: &Instance,
    start: &Perm,
    may_move: &[bool],
    plan: &TabuPlan,
    memory: &mut Memory,
    hook: &mut H,
) -> Result<Improved, AllocError>
    requires same_size { length start.now ≡ instance.now.size }
    requires movable { length may_move.now ≡ instance.now.size }
    requires memory { memory.old.size ≡ instance.now.size }
    requires instance { IsInstance instance.now }
    requires limited { HasEntriesWithin N.limit instance.now }
    ensures permutation { IfOk result (λ x. Permutes instance.now x.permutation) }
    ensures cost { IfOk result (λ x. x.cost ≡ cost_of instance.now x.permutation) }
    ensures no_dearer { IfOk result (λ x. x.cost ≤ℤ cost_of instance.now start.now) }
    ensures kept { IfOk result (λ x. KeepsOthers may_move.now start.now x.permutation) }
{
    let mut walk = begun::<N>(alloc, instance, start)?;
    kick(instance, may_move, &mut walk, memory, plan.kicks);
    for _ in 0..plan.iterations {
        if !hook.goes_on(walk.best_cost) {
            break;
        }
        memory.advance();
        step(instance, may_move, &mut walk, memory);
    }
    Ok(best_of(walk))
}

/// The walk that is at its start.
fn begun<N: Number>(alloc: Global, instance: &Instance, start: &Perm) -> Result<Walk<N>, AllocError>
    requires instance { IsInstance instance.now }
    requires limited { HasEntriesWithin N.limit instance.now }
    requires same_size { length start.now ≡ instance.now.size }
    ensures walk { IfOk result (IsWalk N.value N.limit instance.now) }
    ensures cost { IfOk result (λ walk. walk.best_cost ≡ cost_of instance.now start.now) }
    ensures here { IfOk result (λ walk. walk.arrangement.locations.items ≡ start.now) }
    ensures best { IfOk result (λ walk. walk.best.items ≡ start.now) }
{
    let cost = cost(instance, start);
    let arrangement = arranged(alloc, instance, start.locations())?;
    let best = Vec::from_slice(alloc, start.locations())?;
    let differences = all_differences(alloc, instance, &arrangement)?;
    Ok(Walk {
        arrangement,
        cost,
        differences,
        best,
        best_cost: cost,
    })
}

/// The best permutation that the walk has come by, with its cost.
fn best_of<N: Number>(walk: Walk<N>) -> Improved
    requires { IsPerm walk.best.items }
    ensures permutation { result.permutation ≡ walk.best.items }
    ensures cost { result.cost ≡ walk.best_cost }
{
    let Ok(permutation) = Perm::new(walk.best) else {
        unreachable!()
    };
    Improved {
        permutation,
        cost: walk.best_cost,
    }
}

/// Makes exchanges at random of facilities that may move: as many as `kicks`, less those drawn that may not.
fn kick<N: Number>(
    instance: &Instance,
    may_move: &[bool],
    walk: &mut Walk<N>,
    memory: &mut Memory,
    kicks: u32,
)
    requires walk { IsWalk N.value N.limit instance.now walk.old }
    requires movable { length may_move.now ≡ instance.now.size }
    requires size { memory.old.size ≡ instance.now.size }
    ensures walk { IsWalk N.value N.limit instance.now walk.new }
    ensures no_dearer { walk.new.best_cost ≤ℤ walk.old.best_cost }
    ensures kept { (start : List ℕ) → WalkKeeps may_move.now start walk.old → WalkKeeps may_move.now start walk.new }
    ensures size { memory.new.size ≡ instance.now.size }
{
    for _ in 0..kicks {
        kick_once(instance, may_move, walk, memory);
    }
}

/// Draws two facilities, and exchanges them if both may move.
fn kick_once<N: Number>(
    instance: &Instance,
    may_move: &[bool],
    walk: &mut Walk<N>,
    memory: &mut Memory,
)
    requires walk { IsWalk N.value N.limit instance.now walk.old }
    requires movable { length may_move.now ≡ instance.now.size }
    requires size { memory.old.size ≡ instance.now.size }
    ensures walk { IsWalk N.value N.limit instance.now walk.new }
    ensures no_dearer { walk.new.best_cost ≤ℤ walk.old.best_cost }
    ensures kept { (start : List ℕ) → WalkKeeps may_move.now start walk.old → WalkKeeps may_move.now start walk.new }
    ensures size { memory.new.size ≡ instance.now.size }
{
    if let Some((r, s)) = memory.draw()
        && may_move[r]
        && may_move[s]
    {
        make_exchange(instance, walk, r, s);
        keep_if_best(walk);
    }
}

/// Makes the next exchange of two facilities that may move, if there is one.
fn step<N: Number>(instance: &Instance, may_move: &[bool], walk: &mut Walk<N>, memory: &mut Memory)
    requires walk { IsWalk N.value N.limit instance.now walk.old }
    requires movable { length may_move.now ≡ instance.now.size }
    requires size { memory.old.size ≡ instance.now.size }
    ensures walk { IsWalk N.value N.limit instance.now walk.new }
    ensures no_dearer { walk.new.best_cost ≤ℤ walk.old.best_cost }
    ensures kept { (start : List ℕ) → WalkKeeps may_move.now start walk.old → WalkKeeps may_move.now start walk.new }
    ensures size { memory.new.size ≡ instance.now.size }
{
    let bar = N::at_least(walk.best_cost - walk.cost);
    let chosen = choose(
        memory,
        &walk.arrangement.locations,
        may_move,
        &walk.differences.entries,
        bar,
    );
    if let Some(choice) = chosen {
        let (r, s) = (choice.first, choice.second);
        leave_both(memory, &walk.arrangement.locations, r, s);
        make_exchange(instance, walk, r, s);
        keep_if_best(walk);
    }
}

/// Keeps both facilities from coming back soon to where they are.
fn leave_both(memory: &mut Memory, locations: &[u16], r: usize, s: usize)
    requires permutation { IsBijection locations.now }
    requires size { memory.old.size ≡ length locations.now }
    requires order { r < s }
    requires second { s < length locations.now }
    ensures { memory.new.size ≡ memory.old.size }
{
    memory.leave(r, usize::from(locations[r]));
    memory.leave(s, usize::from(locations[s]));
}

/// Exchanges the locations of `r` and `s`.
fn make_exchange<N: Number>(instance: &Instance, walk: &mut Walk<N>, r: usize, s: usize)
    requires walk { IsWalk N.value N.limit instance.now walk.old }
    requires first { r < s }
    requires second { s < instance.now.size }
    ensures walk { IsWalk N.value N.limit instance.now walk.new }
    ensures best_cost { walk.new.best_cost ≡ walk.old.best_cost }
    ensures here { walk.new.arrangement.locations.items ≡ exchanging walk.old.arrangement.locations.items r s }
    ensures best { walk.new.best.items ≡ walk.old.best.items }
{
    let place = r * instance.size() + s;
    walk.cost += number_at(&walk.differences.entries, place).widen();
    exchange_two(instance, &mut walk.arrangement, r, s);
    update(instance, &walk.arrangement, &mut walk.differences, r, s);
}

/// Keeps where the walk is if nothing as cheap is known.
fn keep_if_best<N: Number>(walk: &mut Walk<N>)
    requires { length walk.old.best.items ≡ length walk.old.arrangement.locations.items }
    ensures walk { (I : Problem) → IsWalk N.value N.limit I walk.old → IsWalk N.value N.limit I walk.new }
    ensures kept { (may_move : List Bool) (start : List ℕ) → WalkKeeps may_move start walk.old → WalkKeeps may_move start walk.new }
    ensures no_dearer { walk.new.best_cost ≤ℤ walk.old.best_cost }
{
    if walk.cost < walk.best_cost {
        walk.best.copy_from_slice(&walk.arrangement.locations);
        walk.best_cost = walk.cost;
    }
}
