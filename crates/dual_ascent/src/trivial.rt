//! Pair duals that trivially fit, but give a weak bound.

ghost use Rattle.std.specs.Prelude.{◌≡◌, ◌<◌, ◌≤◌, ◌^◌, ◌*◌, ℕ, negsuc, pos, length, replicate, slice_index, IfOk};
ghost use Rattle.qap_cost.specs.Instance.{Problem};
ghost use Rattle.pair_duals.specs.PairDuals.{AreOf, Fit, cube};
ghost use Rattle.dual_ascent.specs.AscentRange.{HasRange};

use pair_duals::PairDuals;
use qap_cost::Partial;
use std::alloc::{AllocError, Global};

/// The least that a product of two entries can be, scaled: -2^45.
const LEAST_PRODUCT: i64 = -35_184_372_088_832;

/// Pair duals of a node that fit regardless of the instance: a pair is charged, for both of its products, their least
/// possible value.
pub fn trivial(alloc: Global, node: &Partial, scale: u32) -> Result<PairDuals<i64>, AllocError>
    requires size { node.now.size ≤ 64 }
    requires positive { 0 < scale }
    requires bounded { scale ≤ 2 ^ 20 }
    ensures of_node { IfOk result (AreOf node.now) }
    ensures scale { IfOk result (λ D. D.scale ≡ scale) }
    ensures fits { IfOk result (λ D. (I : Problem) → I.size ≡ node.now.size → HasRange I scale → Fit I D) }
{
    let facilities = node.free_facilities()?;
    let locations = node.free_locations()?;
    let m = facilities.len();
    let count = m * m * m;
    let alpha = vec![in alloc; LEAST_PRODUCT; count]?;
    let beta = vec![in alloc; 0; count]?;
    Ok(constant(node.size(), facilities, locations, scale, alpha, beta))
}

/// The pair duals with these numbers.
fn constant(
    size: usize,
    facilities: Vec<u16>,
    locations: Vec<u16>,
    scale: u32,
    alpha: Vec<i64>,
    beta: Vec<i64>,
) -> PairDuals<i64>
    requires small { size ≤ 64 }
    requires positive { 0 < scale }
    requires bounded { scale ≤ 2 ^ 20 }
    requires same_count { length locations.items ≡ length facilities.items }
    requires count { length facilities.items ≤ size }
    requires facilities { (i : ℕ) → i < length facilities.items → slice_index facilities.items i < size }
    requires locations { (k : ℕ) → k < length locations.items → slice_index locations.items k < size }
    requires alpha { alpha.items ≡ replicate (cube (length facilities.items)) (negsuc 35184372088831) }
    requires beta { beta.items ≡ replicate (cube (length facilities.items)) (pos 0) }
    ensures { result ≡ record { size = size; facilities = facilities.items; locations = locations.items; scale = scale; alpha = alpha.items; beta = beta.items } }
{
    match PairDuals::new(size, facilities, locations, scale, alpha, beta) {
        Some(duals) => duals,
        None => unreachable!(),
    }
}
