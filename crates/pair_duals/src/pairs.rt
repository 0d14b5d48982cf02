//! The cost of a pair, and its residual under pair duals.

ghost use Rattle.std.specs.Prelude.{◌≡◌, ◌*◌, ◌^◌, ◌<◌, ◌≤◌, pos, ◌+ℤ◌, ◌-ℤ◌, ◌*ℤ◌, length, unsigned_abs};
ghost use Rattle.qap_cost.specs.Range.{InRange};
ghost use Rattle.pair_duals.specs.CostOfPair.{cost_of_pair};
ghost use Rattle.pair_duals.specs.PairDuals.{residual};
ghost use Rattle.pair_duals.specs.Range.{IsInScale};

use crate::duals::PairDuals;
use crate::number::Number;
use qap_cost::Instance;

/// The product of two entries, scaled.
pub fn scaled_product<N: Number>(scale: u32, a: i64, b: i64) -> N
    requires scale { scale ≤ 2 ^ 20 }
    requires a_range { InRange a }
    requires small { scale * (unsigned_abs a * unsigned_abs b) ≤ N.limits.cost }
    ensures value { N.value result ≡ pos scale *ℤ (a *ℤ b) }
    ensures range { unsigned_abs (N.value result) ≤ N.limits.cost }
{
    N::product(i64::from(scale) * a, b)
}

/// An entry of A, scaled.
pub fn scaled_entry(scale: u32, a: i64) -> i64
    requires scale { scale ≤ 2 ^ 20 }
    requires a_range { InRange a }
    ensures { result ≡ pos scale *ℤ a }
{
    i64::from(scale) * a
}

/// What two numbers, the sums of two duals each, leave of two products of a scaled entry of A and an entry of B.
pub fn left_of<N: Number>(there: i64, b: i64, back: i64, b_back: i64, own: N, other: N) -> N
    requires there { unsigned_abs (there *ℤ b) ≤ N.limits.cost }
    requires back { unsigned_abs (back *ℤ b_back) ≤ N.limits.cost }
    requires own { unsigned_abs (N.value own) ≤ 2 * N.limits.dual }
    requires other { unsigned_abs (N.value other) ≤ 2 * N.limits.dual }
    ensures value { N.value result ≡ (there *ℤ b +ℤ back *ℤ b_back) -ℤ (N.value own +ℤ N.value other) }
    ensures range { unsigned_abs (N.value result) ≤ N.limits.pair }
{
    let cost = N::product(there, b).plus(N::product(back, b_back));
    cost.minus(own.plus(other))
}

/// What facilities `i` and `j` cost together at locations `k` and `l`, scaled.
pub fn scaled_pair<N: Number>(
    instance: &Instance,
    scale: u32,
    i: usize,
    k: usize,
    j: usize,
    l: usize,
) -> N
    requires i_in { i < instance.now.size }
    requires k_in { k < instance.now.size }
    requires j_in { j < instance.now.size }
    requires l_in { l < instance.now.size }
    requires scale { scale ≤ 2 ^ 20 }
    requires in_scale { IsInScale N.limits instance.now scale }
    ensures value { N.value result ≡ pos scale *ℤ cost_of_pair instance.now i k j l }
    ensures range { unsigned_abs (N.value result) ≤ 2 * N.limits.cost }
{
    let there: N = scaled_product(scale, instance.a(i, j), instance.b(k, l));
    let back: N = scaled_product(scale, instance.a(j, i), instance.b(l, k));
    there.plus(back)
}

/// What the pair duals leave of the scaled cost of facilities number `i` and `j` at locations number `k` and `l`.
pub fn residual<N: Number>(
    instance: &Instance,
    duals: &PairDuals<N>,
    i: usize,
    k: usize,
    j: usize,
    l: usize,
) -> N
    requires size { instance.now.size ≡ duals.now.size }
    requires in_scale { IsInScale N.limits instance.now duals.now.scale }
    requires i_in { i < length duals.now.facilities }
    requires k_in { k < length duals.now.locations }
    requires j_in { j < length duals.now.facilities }
    requires l_in { l < length duals.now.locations }
    ensures value { N.value result ≡ residual instance.now duals.now i k j l }
    ensures range { unsigned_abs (N.value result) ≤ N.limits.pair }
{
    let facility = duals.facility(i);
    let location = duals.location(k);
    let cost: N = scaled_pair(
        instance,
        duals.scale(),
        facility,
        location,
        duals.facility(j),
        duals.location(l),
    );
    let own = duals.alpha(i, k, j).plus(duals.beta(i, k, l));
    let other = duals.alpha(j, l, i).plus(duals.beta(j, l, k));
    cost.minus(own.plus(other))
}
