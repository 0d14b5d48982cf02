//! What is fixed, and permutations, with the extra facilities and without.

ghost use Rattle.std.specs.Prelude.{◌≡◌, ◌+◌, ◌<◌, ◌≤◌, IfOk, OnOk, length, take};
ghost use Rattle.qap_cost.specs.Bijection.{IsPerm};
ghost use Rattle.qap_cost.specs.Placement.{Completes, IsPlacement, Placement};
ghost use Rattle.plan_charge.specs.Extended.{IsExtendedNode, extended_list};

use qap_cost::{Partial, Perm};
use std::alloc::{AllocError, Global};

/// The node that places what another one does, and extra facilities at the extra locations of the same numbers.
pub fn extended_node(alloc: Global, node: &Partial, count: usize) -> Result<Partial, AllocError>
    requires { node.now.size + count ≤ 256 }
    ensures extended { IfOk result (IsExtendedNode count node.now) }
    ensures placement { IfOk result IsPlacement }
{
    let mut extended = Partial::root(alloc, node.size() + count)?;
    let facilities = node.facilities();
    let places = node.places();
    for t in 0..facilities.len() {
        extended.put(facilities[t], places[t])?;
    }
    for i in 0..count {
        let extra = (node.size() + i) as u16;
        extended.put(extra, extra)?;
    }
    Ok(extended)
}

/// The permutation with extra facilities at the extra locations of the same numbers.
pub fn extended_permutation(permutation: &Perm, count: usize) -> Result<Perm, AllocError>
    requires { length permutation.now + count ≤ 256 }
    ensures { IfOk result (λ q. q ≡ extended_list count permutation.now) }
{
    let n = permutation.len();
    let mut locations = permutation.copy()?.into_locations();
    for i in 0..count {
        locations.push((n + i) as u16)?;
    }
    Ok(Perm::new(locations).unwrap())
}

/// A permutation without the extra facilities, which are at the extra locations.
pub fn front(permutation: &Perm, n: usize) -> Result<Perm, AllocError>
    requires positive { 0 < n }
    requires front { IsPerm (take n permutation.now) }
    ensures { IfOk result (λ p. p ≡ take n permutation.now) }
{
    let mut locations = permutation.copy()?.into_locations();
    locations.truncate(n);
    Ok(Perm::new(locations).unwrap())
}
