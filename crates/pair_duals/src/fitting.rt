//! Whether pair duals fit.

ghost use Rattle.std.specs.Prelude.{◌≡◌, ◌≢◌, ◌<◌, ◌^◌, ◌↔◌, pos, ◌≤ℤ◌, length, IsTrue};
ghost use Rattle.pair_duals.specs.DualRow.{IsDualRow};
ghost use Rattle.pair_duals.specs.Fitting.{FitsFacility, FitsLocation, FitsPair, distance};
ghost use Rattle.pair_duals.specs.PairDuals.{Fit};
ghost use Rattle.pair_duals.specs.Range.{IsInScale};

use crate::duals::PairDuals;
use crate::number::Number;
use crate::pairs::{left_of, scaled_entry};
use qap_cost::Instance;

/// The most locations that an instance of either width may have.
const MOST: usize = 256;

/// Whether the pair duals fit: whether they leave no pair of different free facilities at different free locations less
/// than 0.
///
/// One pass over all pairs, in time `m^4 / 2` for `m` free facilities. Allocates nothing.
pub fn fits<N: Number>(instance: &Instance, duals: &PairDuals<N>) -> bool
    requires size { instance.now.size ≡ duals.now.size }
    requires in_scale { IsInScale N.limits instance.now duals.now.scale }
    ensures { IsTrue result ↔ Fit instance.now duals.now }
{
    for k in 0..duals.free() {
        if !fits_location(instance, duals, k) {
            return false;
        }
    }
    true
}

/// Whether they leave no less than 0 to each facility at location number `k` with each one after it.
fn fits_location<N: Number>(instance: &Instance, duals: &PairDuals<N>, k: usize) -> bool
    requires size { instance.now.size ≡ duals.now.size }
    requires in_scale { IsInScale N.limits instance.now duals.now.scale }
    requires k_in { k < length duals.now.locations }
    ensures { IsTrue result ↔ FitsLocation instance.now duals.now k }
{
    let m = duals.free();
    let mut there = [0; MOST];
    let mut back = [0; MOST];
    let (there, back) = (&mut there[..m], &mut back[..m]);
    write_distances_from(instance, duals, k, there);
    write_distances_to(instance, duals, k, back);
    for j in 0..m {
        if !fits_facility(instance, duals, k, j, there, back) {
            return false;
        }
    }
    true
}

/// Writes the entries of B from location number `k` to each location.
fn write_distances_from<N: Number>(
    instance: &Instance,
    duals: &PairDuals<N>,
    k: usize,
    list: &mut [i64],
)
    requires size { instance.now.size ≡ duals.now.size }
    requires k_in { k < length duals.now.locations }
    requires room { length list.old ≡ length duals.now.locations }
    ensures { IsDualRow (10 ^ 9) (length duals.now.locations) (distance instance.now duals.now k) list.new }
{
    let from = duals.location(k);
    for l in 0..list.len() {
        list[l] = instance.b(from, duals.location(l));
    }
}

/// Writes the entries of B to location number `k` from each location.
fn write_distances_to<N: Number>(
    instance: &Instance,
    duals: &PairDuals<N>,
    k: usize,
    list: &mut [i64],
)
    requires size { instance.now.size ≡ duals.now.size }
    requires k_in { k < length duals.now.locations }
    requires room { length list.old ≡ length duals.now.locations }
    ensures { IsDualRow (10 ^ 9) (length duals.now.locations) (λ l. distance instance.now duals.now l k) list.new }
{
    let to = duals.location(k);
    for l in 0..list.len() {
        list[l] = instance.b(duals.location(l), to);
    }
}

/// Whether they leave no less than 0 to facility number `j` with each one before it, which is at location number `k`.
fn fits_facility<N: Number>(
    instance: &Instance,
    duals: &PairDuals<N>,
    k: usize,
    j: usize,
    there: &[i64],
    back: &[i64],
) -> bool
    requires size { instance.now.size ≡ duals.now.size }
    requires in_scale { IsInScale N.limits instance.now duals.now.scale }
    requires k_in { k < length duals.now.locations }
    requires j_in { j < length duals.now.facilities }
    requires there { IsDualRow (10 ^ 9) (length duals.now.locations) (distance instance.now duals.now k) there.now }
    requires back { IsDualRow (10 ^ 9) (length duals.now.locations) (λ l. distance instance.now duals.now l k) back.now }
    ensures { IsTrue result ↔ FitsFacility instance.now duals.now k j }
{
    for i in 0..j {
        if !fits_pair(instance, duals, &(i, k, j), there, back) {
            return false;
        }
    }
    true
}

/// Whether they leave no less than 0 to facility number `i` at location number `k` and facility number `j` at each other one.
fn fits_pair<N: Number>(
    instance: &Instance,
    duals: &PairDuals<N>,
    seat: &(usize, usize, usize),
    there: &[i64],
    back: &[i64],
) -> bool
    requires size { instance.now.size ≡ duals.now.size }
    requires in_scale { IsInScale N.limits instance.now duals.now.scale }
    requires i_in { seat.now.0 < length duals.now.facilities }
    requires k_in { seat.now.1 < length duals.now.locations }
    requires j_in { seat.now.2 < length duals.now.facilities }
    requires there { IsDualRow (10 ^ 9) (length duals.now.locations) (distance instance.now duals.now seat.now.1) there.now }
    requires back { IsDualRow (10 ^ 9) (length duals.now.locations) (λ l. distance instance.now duals.now l seat.now.1) back.now }
    ensures { IsTrue result ↔ FitsPair instance.now duals.now seat.now.0 seat.now.1 seat.now.2 }
{
    let (i, k, j) = *seat;
    let (facility, other) = (duals.facility(i), duals.facility(j));
    let a_there = scaled_entry(duals.scale(), instance.a(facility, other));
    let a_back = scaled_entry(duals.scale(), instance.a(other, facility));
    let own = duals.alpha(i, k, j);
    let (alpha, beta) = (duals.alpha_row(j, i), duals.beta_row(j, k));
    for l in 0..duals.free() {
        let left = left_of(
            a_there,
            there[l],
            a_back,
            back[l],
            own.plus(duals.beta(i, k, l)),
            alpha[l].plus(beta[l]),
        );
        if !is_met(left, k, l) {
            return false;
        }
    }
    true
}

/// Whether the residual of a pair at two locations is nonnegative, or these are the same.
fn is_met<N: Number>(left: N, k: usize, l: usize) -> bool
    ensures { IsTrue result ↔ (k ≢ l → pos 0 ≤ℤ N.value left) }
{
    k == l || !left.is_less(N::narrow(0))
}
