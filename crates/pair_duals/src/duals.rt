//! Pair duals of a node.

ghost use Rattle.std.specs.Prelude.{◌≡◌, ◌*◌, ◌<◌, ◌≤◌, ◌↔◌, ℕ, ℤ, ◌*ℤ◌, pos, length, map, slice_index, unsigned_abs, IsTrue, MatchOption};
ghost use Rattle.qap_cost.specs.Range.{AllWithin};
ghost use Rattle.pair_duals.specs.DualRow.{IsDualRow};
ghost use Rattle.pair_duals.specs.PairDuals.{Duals, AreDuals, alpha_of, beta_of, cube, in_layers};

use crate::number::Number;
use std::marker::Model;

/// The greatest scale: 2^20.
pub const MAX_SCALE: u32 = 1_048_576;

/// Pair duals of a node with `m` free facilities: for each free facility of number `i` and each free location of number `k` a
/// number `alpha(i, k, j)` for each other facility and `beta(i, k, l)` for each other location, all counted in units of a cost
/// divided by the scale.
///
/// `alpha` is listed by `j`, then `i`, then `k`, and `beta` by `l`, then `i`, then `k`; those with `j = i` or `l = k` mean
/// nothing.
#[derive(Drop)]
pub struct PairDuals<N: Number> {
    size: usize,
    facilities: Vec<u16>,
    locations: Vec<u16>,
    scale: u32,
    alpha: Vec<N>,
    beta: Vec<N>,
}

impl<N: Number> Model for PairDuals<N> {
    ghost Value = { Duals };

    ghost view = { λ s. record { size = s.size; facilities = s.facilities.items; locations = s.locations.items; scale = s.scale; alpha = map N.value s.alpha.items; beta = map N.value s.beta.items } };

    ghost invariant = { λ s. AreDuals N.limits (record { size = s.size; facilities = s.facilities.items; locations = s.locations.items; scale = s.scale; alpha = map N.value s.alpha.items; beta = map N.value s.beta.items }) };
}

impl<N: Number> PairDuals<N> {
    /// Pair duals of a node of an instance of this size with these free facilities and locations; `None` if it is too
    /// large for the width, if the count of numbers is wrong, or if a number or the scale is outside its limits.
    /// Allocates nothing.
    pub fn new(
        size: usize,
        facilities: Vec<u16>,
        locations: Vec<u16>,
        scale: u32,
        alpha: Vec<N>,
        beta: Vec<N>,
    ) -> Option<PairDuals<N>>
        ensures { MatchOption result
            (AreDuals N.limits (record { size = size; facilities = facilities.items; locations = locations.items; scale = scale; alpha = map N.value alpha.items; beta = map N.value beta.items }) → ⊥)
            (λ D. (D ≡ record { size = size; facilities = facilities.items; locations = locations.items; scale = scale; alpha = map N.value alpha.items; beta = map N.value beta.items }) × AreDuals N.limits D) }
    {
        let m = facilities.len();
        if size > N::most_size()
            || m > size
            || locations.len() != m
            || scale == 0
            || scale > MAX_SCALE
        {
            return None;
        }
        if !are_below(&facilities, size) || !are_below(&locations, size) {
            return None;
        }
        if alpha.len() != m * m * m || beta.len() != m * m * m {
            return None;
        }
        if !are_duals(&alpha) || !are_duals(&beta) {
            return None;
        }
        Some(PairDuals {
            size,
            facilities,
            locations,
            scale,
            alpha,
            beta,
        })
    }

    /// The size of the instance.
    pub fn size(&self) -> usize
        ensures value { result ≡ self.now.size }
        ensures duals { AreDuals N.limits self.now }
    {
        self.size
    }

    /// What all pair duals satisfy, for a proof that needs it. It costs nothing.
    pub fn duals_law(&self)
        ensures { AreDuals N.limits self.now }
    {
        let _ = &self.size;
    }

    /// How many facilities, and locations, are free.
    pub fn free(&self) -> usize
        ensures value { result ≡ length self.now.facilities }
        ensures duals { AreDuals N.limits self.now }
    {
        self.facilities.len()
    }

    /// The scale.
    pub fn scale(&self) -> u32
        ensures value { result ≡ self.now.scale }
        ensures duals { AreDuals N.limits self.now }
    {
        self.scale
    }

    /// The facility of number `i`.
    pub fn facility(&self, i: usize) -> usize
        requires { i < length self.now.facilities }
        ensures value { result ≡ slice_index self.now.facilities i }
        ensures within { result < self.now.size }
    {
        usize::from(self.facilities[i])
    }

    /// The location of number `k`.
    pub fn location(&self, k: usize) -> usize
        requires { k < length self.now.locations }
        ensures value { result ≡ slice_index self.now.locations k }
        ensures within { result < self.now.size }
    {
        usize::from(self.locations[k])
    }

    /// The dual of facility number `i` at location number `k` for facility number `j`.
    pub fn alpha(&self, i: usize, k: usize, j: usize) -> N
        requires i_in { i < length self.now.facilities }
        requires k_in { k < length self.now.locations }
        requires j_in { j < length self.now.facilities }
        ensures value { N.value result ≡ alpha_of self.now i k j }
        ensures range { unsigned_abs (N.value result) ≤ N.limits.dual }
    {
        in_layers(&self.alpha, self.facilities.len(), j, i, k)
    }

    /// The dual of facility number `i` at location number `k` for location number `l`.
    pub fn beta(&self, i: usize, k: usize, l: usize) -> N
        requires i_in { i < length self.now.facilities }
        requires k_in { k < length self.now.locations }
        requires l_in { l < length self.now.locations }
        ensures value { N.value result ≡ beta_of self.now i k l }
        ensures range { unsigned_abs (N.value result) ≤ N.limits.dual }
    {
        in_layers(&self.beta, self.facilities.len(), l, i, k)
    }

    /// The duals of facility number `i` for facility number `j`, at each location.
    pub(crate) fn alpha_row(&self, i: usize, j: usize) -> &[N]
        requires i_in { i < length self.now.facilities }
        requires j_in { j < length self.now.facilities }
        ensures row { IsDualRow N.limits.dual (length self.now.facilities) (in_layers (length self.now.facilities) self.now.alpha j i) (map N.value result.now) }
        ensures duals { AreDuals N.limits self.now }
    {
        row_of_layer(&self.alpha, self.facilities.len(), j, i)
    }

    /// The duals of facility number `i` for location number `l`, at each location.
    pub(crate) fn beta_row(&self, i: usize, l: usize) -> &[N]
        requires i_in { i < length self.now.facilities }
        requires l_in { l < length self.now.locations }
        ensures row { IsDualRow N.limits.dual (length self.now.facilities) (in_layers (length self.now.facilities) self.now.beta l i) (map N.value result.now) }
        ensures duals { AreDuals N.limits self.now }
    {
        row_of_layer(&self.beta, self.facilities.len(), l, i)
    }
}

/// The number in layer `j`, row `i`, column `k` of `m` layers that are `m` by `m`.
fn in_layers<N: Number>(numbers: &[N], m: usize, j: usize, i: usize, k: usize) -> N
    requires small { m ≤ 256 }
    requires count { length numbers.now ≡ cube m }
    requires j_in { j < m }
    requires i_in { i < m }
    requires k_in { k < m }
    requires range { AllWithin N.limits.dual (map N.value numbers.now) }
    ensures value { N.value result ≡ in_layers m (map N.value numbers.now) j i k }
    ensures range { unsigned_abs (N.value result) ≤ N.limits.dual }
{
    numbers[(j * m + i) * m + k]
}

/// Row `i` of layer `j`.
fn row_of_layer<N: Number>(numbers: &[N], m: usize, j: usize, i: usize) -> &[N]
    requires small { m ≤ 256 }
    requires count { length numbers.now ≡ cube m }
    requires j_in { j < m }
    requires i_in { i < m }
    requires range { AllWithin N.limits.dual (map N.value numbers.now) }
    ensures { IsDualRow N.limits.dual m (in_layers m (map N.value numbers.now) j i) (map N.value result.now) }
{
    let start = (j * m + i) * m;
    &numbers[start..start + m]
}

/// Whether each number is below `n`.
fn are_below(numbers: &[u16], n: usize) -> bool
    ensures { IsTrue result ↔ ((i : ℕ) → i < length numbers.now → slice_index numbers.now i < n) }
{
    for number in numbers {
        if usize::from(*number) >= n {
            return false;
        }
    }
    true
}

/// Whether each number is within the limit of duals.
pub fn are_duals<N: Number>(numbers: &[N]) -> bool
    ensures { IsTrue result ↔ AllWithin N.limits.dual (map N.value numbers.now) }
{
    for number in numbers {
        if number.widen().unsigned_abs() > N::most_dual() {
            return false;
        }
    }
    true
}
