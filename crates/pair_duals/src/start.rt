//! The matrix of a node from its own pair duals.

ghost use Rattle.std.specs.Prelude.{◌≡◌, ◌*◌, ◌^◌, ◌<◌, ◌≤◌, ◌+◌, pos, ◌*ℤ◌, length, map, unsigned_abs, IfOk};
ghost use Rattle.qap_cost.specs.Placement.{IsFreeFacility, IsPlacement};
ghost use Rattle.gilmore_lawler.specs.ReducedMatrix.{linear_cost};
ghost use Rattle.pair_duals.specs.Filling.{AreEntries, FillsPart, FillsRows};
ghost use Rattle.pair_duals.specs.PairDuals.{AreOf, alpha_of, beta_of};
ghost use Rattle.pair_duals.specs.Range.{IsInScale};
ghost use Rattle.pair_duals.specs.Reduced.{sum_but};
ghost use Rattle.pair_duals.specs.Start.{AreFirst, own_entry};

use crate::duals::PairDuals;
use crate::filling::write;
use crate::number::Number;
use crate::pairs::{scaled_pair, scaled_product};
use qap_cost::{Instance, Partial};
use std::alloc::AllocError;

/// The numbers 0 to `count - 1`, in the memory of a list.
pub fn first_numbers(mut list: Vec<u16>, count: usize) -> Result<Vec<u16>, AllocError>
    requires { count ≤ 256 }
    ensures { IfOk result (λ v. AreFirst count v.items) }
{
    list.clear();
    for k in 0..count {
        list.push(k as u16)?;
    }
    Ok(list)
}

/// The entries of the node that the pair duals belong to, in the memory of a list.
pub fn start_entries<N: Number>(
    mut list: Vec<N>,
    instance: &Instance,
    node: &Partial,
    duals: &PairDuals<N>,
) -> Result<Vec<N>, AllocError>
    requires size { instance.now.size ≡ node.now.size }
    requires duals { AreOf node.now duals.now }
    requires in_scale { IsInScale N.limits instance.now duals.now.scale }
    ensures length { IfOk result (λ v. length v.items ≡ length duals.now.facilities * length duals.now.facilities) }
    ensures entries { IfOk result (λ v. AreEntries (length duals.now.facilities) (own_entry instance.now duals.now node.now) (map N.value v.items)) }
{
    let m = duals.free();
    list.clear();
    list.resize(m * m, N::narrow(0))?;
    fill_start(instance, node, duals, &mut list);
    Ok(list)
}

/// Writes them.
fn fill_start<N: Number>(
    instance: &Instance,
    node: &Partial,
    duals: &PairDuals<N>,
    entries: &mut [N],
)
    requires size { instance.now.size ≡ node.now.size }
    requires duals { AreOf node.now duals.now }
    requires in_scale { IsInScale N.limits instance.now duals.now.scale }
    requires room { length entries.old ≡ length duals.now.facilities * length duals.now.facilities }
    ensures { FillsRows (length duals.now.facilities) (own_entry instance.now duals.now node.now) (length duals.now.facilities) (map N.value entries.old) (map N.value entries.new) }
{
    for r in 0..duals.free() {
        fill_start_row(instance, node, duals, r, entries);
    }
}

/// Writes row `r` of them.
fn fill_start_row<N: Number>(
    instance: &Instance,
    node: &Partial,
    duals: &PairDuals<N>,
    r: usize,
    entries: &mut [N],
)
    requires size { instance.now.size ≡ node.now.size }
    requires duals { AreOf node.now duals.now }
    requires in_scale { IsInScale N.limits instance.now duals.now.scale }
    requires room { length entries.old ≡ length duals.now.facilities * length duals.now.facilities }
    requires r_in { r < length duals.now.facilities }
    ensures { FillsPart (length duals.now.facilities) (own_entry instance.now duals.now node.now) r (length duals.now.facilities) (map N.value entries.old) (map N.value entries.new) }
{
    let m = duals.free();
    for c in 0..m {
        let entry = start_entry(instance, node, duals, r, c);
        write(entries, m, r, c, entry);
    }
}

/// Row `r`, column `c` of them.
fn start_entry<N: Number>(
    instance: &Instance,
    node: &Partial,
    duals: &PairDuals<N>,
    r: usize,
    c: usize,
) -> N
    requires size { instance.now.size ≡ node.now.size }
    requires duals { AreOf node.now duals.now }
    requires in_scale { IsInScale N.limits instance.now duals.now.scale }
    requires r_in { r < length duals.now.facilities }
    requires c_in { c < length duals.now.locations }
    ensures value { N.value result ≡ own_entry instance.now duals.now node.now r c }
    ensures range { unsigned_abs (N.value result) ≤ N.limits.start }
{
    let facility = duals.facility(r);
    let location = duals.location(c);
    let linear = scaled_linear(instance, node, duals.scale(), facility, location);
    let own: N = alpha_sum(duals, r, c).plus(beta_sum(duals, r, c));
    own.plus(linear)
}

/// What facility `i` costs at location `k`, alone and with the placed facilities, scaled.
fn scaled_linear<N: Number>(
    instance: &Instance,
    node: &Partial,
    scale: u32,
    i: usize,
    k: usize,
) -> N
    requires size { instance.now.size ≡ node.now.size }
    requires small { node.now.size ≤ N.limits.size }
    requires i_in { i < instance.now.size }
    requires k_in { k < instance.now.size }
    requires free { IsPlacement node.now → IsFreeFacility node.now i }
    requires scale { scale ≤ 2 ^ 20 }
    requires in_scale { IsInScale N.limits instance.now scale }
    ensures value { N.value result ≡ pos scale *ℤ linear_cost instance.now node.now i k }
    ensures range { unsigned_abs (N.value result) ≤ 2 * (N.limits.size * N.limits.cost) }
{
    let (facilities, places) = (node.facilities(), node.places());
    let mut total: N = scaled_product(scale, instance.a(i, i), instance.b(k, k));
    for t in 0..facilities.len() {
        let pair: N = scaled_pair(
            instance,
            scale,
            i,
            k,
            usize::from(facilities[t]),
            usize::from(places[t]),
        );
        total = total.plus(pair);
    }
    total
}

/// The sum of the duals of facility number `i` at location number `k` for the other facilities.
fn alpha_sum<N: Number>(duals: &PairDuals<N>, i: usize, k: usize) -> N
    requires i_in { i < length duals.now.facilities }
    requires k_in { k < length duals.now.locations }
    ensures value { N.value result ≡ sum_but i (alpha_of duals.now i k) (length duals.now.facilities) }
    ensures range { unsigned_abs (N.value result) ≤ N.limits.size * N.limits.dual }
{
    let mut total = N::narrow(0);
    for j in 0..duals.free() {
        if j != i {
            total = total.plus(duals.alpha(i, k, j));
        }
    }
    total
}

/// The sum of its duals for the other locations.
fn beta_sum<N: Number>(duals: &PairDuals<N>, i: usize, k: usize) -> N
    requires i_in { i < length duals.now.facilities }
    requires k_in { k < length duals.now.locations }
    ensures value { N.value result ≡ sum_but k (beta_of duals.now i k) (length duals.now.locations) }
    ensures range { unsigned_abs (N.value result) ≤ N.limits.size * N.limits.dual }
{
    let mut total = N::narrow(0);
    for l in 0..duals.free() {
        if l != k {
            total = total.plus(duals.beta(i, k, l));
        }
    }
    total
}
