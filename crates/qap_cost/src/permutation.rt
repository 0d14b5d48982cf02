//! A permutation: for each facility its location.

ghost use Rattle.std.specs.Prelude.{◌≡◌, ◌<◌, ◌≤◌, ℕ, List, length, MatchResult, slice_index, IfOk, IsTrue, ◌↔◌, vec_len};
ghost use Rattle.qap_cost.specs.Bijection.{IsPerm, IsInverse};
ghost use Rattle.qap_cost.specs.declared.error.CostError.TheVariants.{NotPermutation};

use crate::CostError;
use crate::instance::MAX_SIZE;
use std::alloc::AllocError;
use std::marker::Model;

/// A permutation of 1 to 256 numbers: facility `i` is at the location `at(i)`, both counted from 0.
#[derive(Drop)]
pub struct Perm {
    locations: Vec<u16>,
}

impl Model for Perm {
    ghost Value = { List ℕ };

    ghost view = { λ p. p.locations.items };

    ghost invariant = { λ p. IsPerm p.locations.items };
}

impl Perm {
    /// The permutation with these locations, if they list each of 0 to their count less one, once.
    ///
    /// Allocates nothing; a refusal returns the locations.
    pub fn new(locations: Vec<u16>) -> Result<Perm, (CostError, Vec<u16>)>
        ensures { MatchResult result
            (λ p. (p ≡ locations.items) × IsPerm locations.items)
            (λ e. (e.0 ≡ NotPermutation) × (e.1.items ≡ locations.items) × (IsPerm locations.items → ⊥)) }
    {
        if is_permutation(&locations) {
            Ok(Perm { locations })
        } else {
            Err((CostError::NotPermutation, locations))
        }
    }

    /// How many facilities there are: from 1 to 256.
    pub fn len(&self) -> usize
        ensures value { result ≡ length self.now }
        ensures permutation { IsPerm self.now }
    {
        self.locations.len()
    }

    /// What every permutation satisfies, for a proof that needs it. It costs nothing.
    pub fn permutation_law(&self)
        ensures { IsPerm self.now }
    {
        let _ = &self.locations;
    }

    /// The location of facility `i`.
    pub fn at(&self, i: usize) -> u16
        requires { i < length self.now }
        ensures { result ≡ slice_index self.now i }
    {
        self.locations[i]
    }

    /// The locations of all facilities, that of facility 0 first.
    pub fn locations(&self) -> &[u16]
        ensures value { result.now ≡ self.now }
        ensures permutation { IsPerm result.now }
    {
        &self.locations
    }

    /// The locations of all facilities, in the memory that the permutation had.
    pub fn into_locations(self) -> Vec<u16>
        ensures { result.items ≡ self }
    {
        let Perm { locations } = self;
        locations
    }

    /// The same permutation again.
    pub fn copy(&self) -> Result<Perm, AllocError>
        ensures { IfOk result (λ p. p ≡ self.now) }
    {
        let locations = self.locations.clone()?;
        Ok(Perm { locations })
    }

    /// The inverse: for each location its facility.
    pub fn inverse(&self) -> Result<Perm, AllocError>
        ensures inverse { IfOk result (IsInverse self.now) }
        ensures permutation { IfOk result IsPerm }
    {
        let facilities = inverted(&self.locations, self.locations.clone()?);
        Ok(Perm {
            locations: facilities,
        })
    }
}

/// Whether each number below the count is there once, and there are from 1 to 256.
fn is_permutation(locations: &[u16]) -> bool
    ensures { IsTrue result ↔ IsPerm locations.now }
{
    let n = locations.len();
    if n == 0 || n > MAX_SIZE {
        return false;
    }
    let mut seen = [false; MAX_SIZE];
    for &location in locations {
        let k = usize::from(location);
        if k >= n || seen[k] {
            return false;
        }
        seen[k] = true;
    }
    true
}

/// Writes to each location's place the facility that is there.
fn inverted(locations: &[u16], mut facilities: Vec<u16>) -> Vec<u16>
    requires permutation { IsPerm locations.now }
    requires same_length { vec_len facilities ≡ length locations.now }
    ensures inverse { IsInverse locations.now result.items }
    ensures permutation { IsPerm result.items }
{
    for (i, &location) in locations.iter().enumerate() {
        facilities[usize::from(location)] = i as u16;
    }
    facilities
}
