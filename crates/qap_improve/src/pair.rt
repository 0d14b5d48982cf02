//! The cost change when two facilities exchange their locations (Burkard and Rendl 1984).

ghost use Rattle.std.specs.Prelude.{◌≡◌, ◌≢◌, ◌*◌, ◌^◌, ◌<◌, ◌≤◌, ◌+ℤ◌, ◌-ℤ◌, ◌*ℤ◌, length, unsigned_abs};
ghost use Rattle.qap_cost.specs.Objective.{Permutes, cost_of};
ghost use Rattle.qap_cost.specs.Range.{InRange};
ghost use Rattle.qap_cost.specs.Sum.{sum_to};
ghost use Rattle.qap_improve.specs.Difference.{change_between, change_with};
ghost use Rattle.qap_improve.specs.Exchange.{exchanging};

use qap_cost::{Instance, Perm};

/// The change of the permutation's cost when the facilities `r` and `s` exchange their locations: the new cost minus
/// the old one.
///
/// Takes time O(n) for n facilities. The matrices need not be symmetric, and their diagonals need not be 0.
pub fn difference(instance: &Instance, permutation: &Perm, r: usize, s: usize) -> i128
    requires same_size { length permutation.now ≡ instance.now.size }
    requires first { r < instance.now.size }
    requires second { s < instance.now.size }
    requires two { r ≢ s }
    ensures value { cost_of instance.now permutation.now +ℤ result ≡ cost_of instance.now (exchanging permutation.now r s) }
    ensures bounded { unsigned_abs result ≤ 259 * (8 * 10 ^ 18) }
{
    difference_at(instance, permutation.locations(), r, s)
}

/// The same, where these are the locations of the facilities.
fn difference_at(instance: &Instance, locations: &[u16], r: usize, s: usize) -> i128
    requires permutation { Permutes instance.now locations.now }
    requires first { r < instance.now.size }
    requires second { s < instance.now.size }
    requires two { r ≢ s }
    ensures value { cost_of instance.now locations.now +ℤ result ≡ cost_of instance.now (exchanging locations.now r s) }
    ensures bounded { unsigned_abs result ≤ 259 * (8 * 10 ^ 18) }
{
    let with_all = changes_with_all(instance, locations, r, s);
    let with_first = change(instance, locations, r, s, r);
    let with_second = change(instance, locations, r, s, s);
    let between = change_among(instance, locations, r, s);
    with_all - i128::from(with_first) - i128::from(with_second) + i128::from(between)
}

/// The sum of `change` over all facilities, `r` and `s` too.
fn changes_with_all(instance: &Instance, locations: &[u16], r: usize, s: usize) -> i128
    requires permutation { Permutes instance.now locations.now }
    requires first { r < instance.now.size }
    requires second { s < instance.now.size }
    ensures value { result ≡ sum_to (change_with instance.now locations.now r s) instance.now.size }
    ensures bounded { unsigned_abs result ≤ 256 * (8 * 10 ^ 18) }
{
    let mut total = 0;
    for k in 0..instance.size() {
        let with_each = change(instance, locations, r, s, k);
        total += i128::from(with_each);
    }
    total
}

/// What the cost between facility `k` and the two changes by, where `k` is neither.
fn change(instance: &Instance, locations: &[u16], r: usize, s: usize, k: usize) -> i64
    requires permutation { Permutes instance.now locations.now }
    requires first { r < instance.now.size }
    requires second { s < instance.now.size }
    requires other { k < instance.now.size }
    ensures value { result ≡ change_with instance.now locations.now r s k }
    ensures bounded { unsigned_abs result ≤ 8 * 10 ^ 18 }
{
    let at_r = usize::from(locations[r]);
    let at_s = usize::from(locations[s]);
    let at_k = usize::from(locations[k]);
    let to_both = crossed(
        instance.a(k, r),
        instance.a(k, s),
        instance.b(at_k, at_s),
        instance.b(at_k, at_r),
    );
    let from_both = crossed(
        instance.a(r, k),
        instance.a(s, k),
        instance.b(at_s, at_k),
        instance.b(at_r, at_k),
    );
    to_both + from_both
}

/// What the cost of the two, with themselves and each other, changes by.
fn change_among(instance: &Instance, locations: &[u16], r: usize, s: usize) -> i64
    requires permutation { Permutes instance.now locations.now }
    requires first { r < instance.now.size }
    requires second { s < instance.now.size }
    ensures value { result ≡ change_between instance.now locations.now r s }
    ensures bounded { unsigned_abs result ≤ 8 * 10 ^ 18 }
{
    let at_r = usize::from(locations[r]);
    let at_s = usize::from(locations[s]);
    let own = crossed(
        instance.a(r, r),
        instance.a(s, s),
        instance.b(at_s, at_s),
        instance.b(at_r, at_r),
    );
    let mutual = crossed(
        instance.a(r, s),
        instance.a(s, r),
        instance.b(at_s, at_r),
        instance.b(at_r, at_s),
    );
    own + mutual
}

/// The difference of two entries times that of two others, which fits 64 bits.
fn crossed(x: i64, y: i64, u: i64, v: i64) -> i64
    requires x { InRange x }
    requires y { InRange y }
    requires u { InRange u }
    requires v { InRange v }
    ensures value { result ≡ (x -ℤ y) *ℤ (u -ℤ v) }
    ensures bounded { unsigned_abs result ≤ 4 * 10 ^ 18 }
{
    (x - y) * (u - v)
}
