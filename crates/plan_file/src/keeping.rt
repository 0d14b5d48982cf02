//! Permutations that respect what is fixed: those that complete a node, and a search among them.

ghost use Rattle.std.specs.List.{range_with_len};
ghost use Rattle.std.specs.Prelude.{◌≡◌, ◌≢◌, ◌<◌, ◌≤◌, ◌≤ℤ◌, ◌↔◌, ◌+◌, ℕ, List, IfOk, IsTrue, MatchOption, OnOk, length, slice_index};
ghost use Rattle.qap_cost.specs.Bijection.{IsPerm};
ghost use Rattle.qap_cost.specs.Objective.{Permutes, cost_of};
ghost use Rattle.qap_cost.specs.Placement.{Completes, IsPlacement, StandsAt};
ghost use Rattle.plan_file.specs.Freeing.{IsFixedBelow};
ghost use Rattle.plan_file.specs.Settling.{IsSettled};
ghost use Rattle.plan_file.specs.Sorting.{Ascend, IsSortedTo};

use qap_cost::{Instance, Partial, Perm};
use qap_improve::{Hook, Improved, TabuPlan, tabu_search_among};
use std::alloc::{AllocError, Global};

/// The permutation of the instance that puts facility i at location i.
pub fn identity(alloc: Global, instance: &Instance) -> Result<Perm, AllocError>
    ensures value { IfOk result (λ p. p ≡ range_with_len 0 instance.now.size) }
    ensures permutes { IfOk result (Permutes instance.now) }
{
    let locations = first_numbers(alloc, instance.size())?;
    match Perm::new(locations) {
        Ok(permutation) => Ok(permutation),
        Err(_) => unreachable!(),
    }
}

/// The numbers below `n`, ascending.
fn first_numbers(alloc: Global, n: usize) -> Result<Vec<u16>, AllocError>
    requires { n ≤ 256 }
    ensures { IfOk result (λ numbers. numbers.items ≡ range_with_len 0 n) }
{
    let mut numbers = Vec::with_capacity(alloc, n)?;
    for k in 0..n {
        numbers.push(k as u16)?;
    }
    Ok(numbers)
}

/// Whether a permutation puts each facility that a node places at its place.
pub fn completes(node: &Partial, permutation: &Perm) -> bool
    requires { length permutation.now ≡ node.now.size }
    ensures { IsTrue result ↔ Completes node.now permutation.now }
{
    let facilities = node.facilities();
    let places = node.places();
    let locations = permutation.locations();
    for t in 0..facilities.len() {
        if locations[usize::from(facilities[t])] != places[t] {
            return false;
        }
    }
    true
}

/// A permutation that puts each facility that a node places at its location, unchanged if it already does. Each
/// facility in the way takes the location of the one for which it makes room.
pub fn completed(node: &Partial, permutation: &Perm) -> Result<Perm, AllocError>
    requires { length permutation.now ≡ node.now.size }
    ensures completes { IfOk result (Completes node.now) }
    ensures same { Completes node.now permutation.now → IfOk result (λ p. p ≡ permutation.now) }
{
    let facilities = node.facilities();
    let places = node.places();
    let mut locations = permutation.copy()?.into_locations();
    for t in 0..facilities.len() {
        locations = settled(locations, usize::from(facilities[t]), places[t]);
    }
    Ok(Perm::new(locations).unwrap())
}

/// The best permutation that a tabu search finds from `start` among those that complete a node, which `start` does, and what it costs: no
/// more than `start`. The search exchanges free facilities alone, so that those that the node places stay.
pub fn improved_keeping<H: Hook>(
    alloc: Global,
    instance: &Instance,
    node: &Partial,
    start: &Perm,
    plan: &TabuPlan,
    hook: &mut H,
) -> Result<Improved, AllocError>
    requires size { node.now.size ≡ instance.now.size }
    requires start { Completes node.now start.now }
    ensures completes { IfOk result (λ x. Completes node.now x.permutation) }
    ensures permutation { IfOk result (λ x. Permutes instance.now x.permutation) }
    ensures cost { IfOk result (λ x. x.cost ≡ cost_of instance.now x.permutation) }
    ensures no_dearer { IfOk result (λ x. x.cost ≤ℤ cost_of instance.now start.now) }
{
    let free = free_in(alloc, node)?;
    let found = tabu_search_among(alloc, instance, start, &free, plan, hook)?;
    Ok(found)
}

/// For each facility of a node whether it is free.
fn free_in(alloc: Global, node: &Partial) -> Result<Vec<bool>, AllocError>
    ensures count { IfOk result (λ free. length free.items ≡ node.now.size) }
    ensures fixed { IfOk result (λ free. IsFixedBelow node.now node.now.size free.items) }
    ensures placement { IsPlacement node.now }
{
    let mut free = Vec::new(alloc);
    for f in 0..node.size() {
        free.push(is_free(node, f))?;
    }
    Ok(free)
}

/// Whether a facility is free.
fn is_free(node: &Partial, f: usize) -> bool
    ensures { IsTrue result → (k : ℕ) → StandsAt node.now f k → ⊥ }
{
    match node.at(f) {
        Some(_) => false,
        None => true,
    }
}

/// The same node with its facilities listed ascending.
pub fn ascending(alloc: Global, node: &Partial) -> Result<Partial, AllocError>
    ensures placement { IfOk result IsPlacement }
    ensures size { IfOk result (λ x. x.size ≡ node.now.size) }
    ensures ascending { IfOk result (λ x. Ascend x.facilities) }
    ensures same { IfOk result (λ x. (p : List ℕ) → Completes node.now p ↔ Completes x p) }
{
    let mut sorted = Partial::root(alloc, node.size())?;
    for f in 0..node.size() {
        place_if(&mut sorted, node, f)?;
    }
    Ok(sorted)
}

/// Places a facility where a node has it, if it does.
fn place_if(sorted: &mut Partial, node: &Partial, f: usize) -> Result<(), AllocError>
    requires placement { IsPlacement node.now }
    requires inside { f < node.now.size }
    requires sorted { IsSortedTo node.now f sorted.old }
    ensures { OnOk result (IsSortedTo node.now (f + 1) sorted.new) }
{
    match node.at(f) {
        Some(place) => sorted.put(f as u16, place),
        None => Ok(()),
    }
}

/// The locations with a facility brought to one of them, by an exchange with the facility that was there.
fn settled(mut locations: Vec<u16>, facility: usize, location: u16) -> Vec<u16>
    requires permutation { IsPerm locations.items }
    requires facility { facility < length locations.items }
    requires location { location < length locations.items }
    ensures { IsSettled locations.items facility location result.items }
{
    if let Some(other) = find(&locations, location) {
        if other != facility {
            let here = locations[facility];
            locations[facility] = location;
            locations[other] = here;
        }
    }
    locations
}

/// The first position of a number.
fn find(numbers: &[u16], number: u16) -> Option<usize>
    ensures { MatchOption result
        ((i : ℕ) → i < length numbers.now → slice_index numbers.now i ≢ number)
        (λ i. (i < length numbers.now) × (slice_index numbers.now i ≡ number)) }
{
    for i in 0..numbers.len() {
        if numbers[i] == number {
            return Some(i);
        }
    }
    None
}
