//! Small instances of every kind, and what all their permutations cost: for tests against an enumeration.
#![tactic(auto)]

use itertools::Itertools;
use qap_cost::{Instance, Partial, Perm, cost};
use std::alloc::{AllocError, Global};

/// The kinds of generated matrices.
#[derive(Clone, Copy, Debug, PartialEq)]
pub enum Kind {
    /// Any entries from -9 to 9.
    Signed,
    /// The same, but symmetric, with no diagonal.
    Symmetric,
    /// From 0 to 2.
    Small,
    /// 0 everywhere.
    Zero,
}

/// The next number of Knuth's linear congruential generator of 64 bits.
pub fn next(state: &mut u64) -> u64 {
    *state = state
        .wrapping_mul(6364136223846793005)
        .wrapping_add(1442695040888963407);
    *state >> 33
}

/// An entry of a kind of matrix.
fn entry(kind: Kind, i: usize, j: usize, state: &mut u64) -> i64 {
    let number = next(state);
    let signed = (number % 19) as i64 - 9;
    match kind {
        Kind::Signed => signed,
        Kind::Symmetric => { if i == j { 0 } else { signed } }
        Kind::Small => (number % 3) as i64,
        Kind::Zero => 0,
    }
}

/// The entries of such a matrix, by rows.
fn matrix(alloc: Global, n: usize, kind: Kind, state: &mut u64) -> Result<Vec<i64>, AllocError> {
    let mut entries: Vec<i64> = Vec::new(alloc);
    for i in 0..n {
        for j in 0..n {
            let own = entry(kind, i, j, state);
            let other = entries.get(j.wrapping_mul(n).wrapping_add(i)).copied();
            let is_copied = kind == Kind::Symmetric && j < i;
            entries.push(if is_copied { other.unwrap_or(own) } else { own })?;
        }
    }
    Ok(entries)
}

/// The instance that this seed gives.
pub fn instance(
    alloc: Global,
    n: usize,
    a: Kind,
    b: Kind,
    seed: u64,
) -> Result<Option<Instance>, AllocError> {
    let mut state = seed;
    let flows = matrix(alloc, n, a, &mut state)?;
    let distances = matrix(alloc, n, b, &mut state)?;
    Ok(Instance::new(n, flows, distances).ok())
}

/// Whether a permutation completes a node.
pub fn completes(node: &Partial, permutation: &Perm) -> bool {
    for (f, k) in node.facilities().iter().zip(node.places()) {
        if permutation.locations().get(usize::from(*f)) != Some(k) {
            return false;
        }
    }
    true
}

/// Every permutation with its cost.
pub fn listing(alloc: Global, instance: &Instance) -> Result<Vec<(Perm, i128)>, AllocError> {
    let mut all = Vec::new(alloc);
    for locations in (0..instance.size() as u16).permutations(alloc, instance.size())? {
        if let Ok(found) = Perm::new(locations?)
            && found.len() == instance.size()
        {
            let own = cost(instance, &found);
            all.push((found, own))?;
        }
    }
    Ok(all)
}

/// The least cost of a completion of the node.
pub fn least_of(node: &Partial, all: &[(Perm, i128)]) -> Option<i128> {
    let mut least = None;
    for (permutation, own) in all {
        if completes(node, permutation) {
            least = match least {
                Some(other) if other <= *own => Some(other),
                _ => Some(*own),
            };
        }
    }
    least
}

/// The node with one facility more.
pub fn child(node: &Partial, f: u16, k: u16) -> Result<Option<Partial>, AllocError> {
    if usize::from(f) < node.size() && !node.is_placed(f) && node.is_free(k) {
        Ok(Some(node.place(f, k)?))
    } else {
        Ok(None)
    }
}
