//! The cost of a permutation.

ghost use Rattle.std.specs.Prelude.{◌≡◌, ◌*◌, ◌^◌, ◌<◌, ◌≤◌, ◌*ℤ◌, List, ℕ, length, slice_index, unsigned_abs};
ghost use Rattle.qap_cost.specs.Sum.{sum_to};
ghost use Rattle.qap_cost.specs.Instance.{Problem};
ghost use Rattle.qap_cost.specs.Range.{AllInRange, InRange};
ghost use Rattle.qap_cost.specs.Row.{product_at};
ghost use Rattle.qap_cost.specs.Bijection.{IsBijection, IsInverse};
ghost use Rattle.qap_cost.specs.Objective.{cost_of, exchanged};

use crate::{Instance, Perm};

/// What the permutation costs: the sum over all `i` and `j` of `a(i, j) * b(p(i), p(j))`, where `i` and `j`
/// may be equal (Koopmans and Beckmann 1957; QAPLIB).
pub fn cost(instance: &Instance, permutation: &Perm) -> i128
    requires { length permutation.now ≡ instance.now.size }
    ensures value { result ≡ cost_of instance.now permutation.now }
    ensures bounded { unsigned_abs result ≤ 65536 * 10 ^ 18 }
{
    let locations = permutation.locations();
    let mut total = 0;
    for (i, &location) in locations.iter().enumerate() {
        let a_row = instance.a_row(i);
        let b_row = instance.b_row(usize::from(location));
        let with_each = row_product(a_row, b_row, locations);
        total += with_each;
    }
    total
}

/// The sum over all `j` below the number of locations of `a_row[j] * b_row[locations[j]]`.
fn row_product(a_row: &[i64], b_row: &[i64], locations: &[u16]) -> i128
    requires small { length locations.now ≤ 256 }
    requires a_count { length locations.now ≤ length a_row.now }
    requires b_count { (j : ℕ) → j < length locations.now → slice_index locations.now j < length b_row.now }
    requires a_range { AllInRange a_row.now }
    requires b_range { AllInRange b_row.now }
    ensures value { result ≡ sum_to (product_at a_row.now b_row.now locations.now) (length locations.now) }
    ensures bounded { unsigned_abs result ≤ 256 * 10 ^ 18 }
{
    let mut total = 0;
    for (j, &location) in locations.iter().enumerate() {
        let term = product(a_row[j], b_row[usize::from(location)]);
        total += i128::from(term);
    }
    total
}

/// The product of two entries, which fits 64 bits.
pub fn product(x: i64, y: i64) -> i64
    requires left { InRange x }
    requires right { InRange y }
    ensures value { result ≡ x *ℤ y }
    ensures bounded { unsigned_abs result ≤ 10 ^ 18 }
{
    x * y
}

/// Exchanging the two matrices gives a permutation the cost that its inverse has with the matrices unchanged.
///
/// Two conventions are in use for which matrix a permutation is applied to; this law is the bridge.
pub fn exchange_law()
    ensures { (I : Problem) (p q : List ℕ) → IsBijection p → length p ≡ I.size → IsInverse p q → cost_of (exchanged I) p ≡ cost_of I q }
{}
