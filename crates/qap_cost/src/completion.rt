//! Completes a node by an assignment of its free facilities to its free locations.

ghost use Rattle.std.specs.Prelude.{◌≡◌, ◌<◌, ℕ, IfOk, OnOk, length, map, slice_index};
ghost use Rattle.qap_cost.specs.Bijection.{AreDifferent, IsPerm};
ghost use Rattle.qap_cost.specs.Completion.{IsCompletion, IsMatching, Puts};
ghost use Rattle.qap_cost.specs.Placement.{Completes, free_facilities, free_locations};

use crate::partial::Partial;
use crate::permutation::Perm;
use std::alloc::AllocError;

/// The permutation that leaves the placed facilities at their locations, and puts the `r`-th free facility at the free
/// location of number `matching[r]`. The free facilities and locations are ascending. The locations of the free
/// facilities are written to `matched`, and the permutation's to `memory`.
pub fn completed(
    node: &Partial,
    facilities: &[u16],
    locations: &[u16],
    matching: &[u16],
    matched: &mut Vec<u16>,
    memory: Vec<u16>,
) -> Result<Perm, AllocError>
    requires facilities { facilities.now ≡ free_facilities node.now }
    requires locations { locations.now ≡ free_locations node.now }
    requires matching { IsMatching node.now matching.now }
    ensures completion { IfOk result (IsCompletion node.now matching.now) }
    ensures completes { IfOk result (Completes node.now) }
{
    let places = completion(node, facilities, locations, matching, matched, memory)?;
    Ok(Perm::new(places).unwrap())
}

/// The locations that this permutation gives the facilities.
fn completion(
    node: &Partial,
    facilities: &[u16],
    locations: &[u16],
    matching: &[u16],
    matched: &mut Vec<u16>,
    memory: Vec<u16>,
) -> Result<Vec<u16>, AllocError>
    requires facilities { facilities.now ≡ free_facilities node.now }
    requires locations { locations.now ≡ free_locations node.now }
    requires matching { IsMatching node.now matching.now }
    ensures completion { IfOk result (λ v. IsCompletion node.now matching.now v.items) }
    ensures permutation { IfOk result (λ v. IsPerm v.items) }
    ensures completes { IfOk result (λ v. Completes node.now v.items) }
{
    let n = node.size();
    pick(locations, matching, matched)?;
    let places = sized(memory, n)?;
    let places = put_each(places, node.facilities(), node.places());
    Ok(put_each(places, facilities, matched))
}

/// Makes the list that of the numbers at these positions.
fn pick(numbers: &[u16], positions: &[u16], picked: &mut Vec<u16>) -> Result<(), AllocError>
    requires { (t : ℕ) → t < length positions.now → slice_index positions.now t < length numbers.now }
    ensures { OnOk result (picked.new.items ≡ map (slice_index numbers.now) positions.now) }
{
    picked.clear();
    picked.reserve(positions.len())?;
    for position in positions {
        picked.push(numbers[usize::from(*position)])?;
    }
    Ok(())
}

/// The list with this many numbers.
fn sized(mut list: Vec<u16>, count: usize) -> Result<Vec<u16>, AllocError>
    ensures { IfOk result (λ v. length v.items ≡ count) }
{
    list.resize(count, 0)?;
    Ok(list)
}

/// The list with each value at its position, and all else unchanged.
fn put_each(mut target: Vec<u16>, positions: &[u16], values: &[u16]) -> Vec<u16>
    requires paired { length values.now ≡ length positions.now }
    requires different { AreDifferent (length target.items) positions.now }
    ensures { Puts positions.now values.now target.items result.items }
{
    for t in 0..positions.len() {
        target[usize::from(positions[t])] = values[t];
    }
    target
}
