//! By how much the costs of two permutations may differ.

ghost use Rattle.std.specs.Prelude.{◌≡◌, ◌+◌, ◌*◌, ◌^◌, ◌<◌, ◌≤◌, ◌*ℤ◌, ℕ, pos, unsigned_abs};
ghost use Rattle.qap_cost.specs.Sum.{sum_to};
ghost use Rattle.plan_charge.specs.Charges.{AreCharges};
ghost use Rattle.plan_charge.specs.Spread.{charge_range, distance_at, distance_range, flow_size, spread};

use crate::charges::Charges;
use qap_cost::Instance;

/// No two permutations' costs, the charges included, differ by more: the range of the distances times each flow's size,
/// and the ranges of what the facilities pay.
pub(crate) fn spread(instance: &Instance, charges: &Charges) -> u128
    requires { AreCharges instance.now.size charges.now }
    ensures value { pos result ≡ spread instance.now charges.now }
    ensures bounded { result ≤ 10 ^ 34 }
{
    let flows = times(distance_range(instance), total_flow(instance));
    let total = flows + total_range(charges, instance.size());
    total.unsigned_abs()
}

/// The product of a range and a sum of flows.
fn times(range: i128, flow: i128) -> i128
    requires range { unsigned_abs range ≤ 2 ^ 64 }
    requires flow { unsigned_abs flow ≤ 65536 * 10 ^ 9 }
    ensures value { result ≡ range *ℤ flow }
    ensures bounded { unsigned_abs result ≤ 2 ^ 64 * (65536 * 10 ^ 9) }
{
    range * flow
}

/// The sum of the absolute values of all flows.
fn total_flow(instance: &Instance) -> i128
    ensures value { result ≡ sum_to (flow_size instance.now) (instance.now.size * instance.now.size) }
    ensures bounded { unsigned_abs result ≤ 65536 * 10 ^ 9 }
{
    let n = instance.size();
    let mut total = 0;
    for k in 0..n * n {
        let flow = flow_size(instance, k);
        total += i128::from(flow);
    }
    total
}

/// The absolute value of flow `k`, by rows.
fn flow_size(instance: &Instance, k: usize) -> i64
    requires { k < instance.now.size * instance.now.size }
    ensures value { result ≡ flow_size instance.now k }
    ensures bounded { unsigned_abs result ≤ 10 ^ 9 }
{
    let n = instance.size();
    instance.a(k / n, k % n).abs()
}

/// The greatest distance less the least.
fn distance_range(instance: &Instance) -> i128
    ensures value { result ≡ distance_range instance.now }
    ensures bounded { unsigned_abs result ≤ 2 ^ 64 }
{
    let n = instance.size();
    let mut least = distance(instance, 0);
    let mut greatest = least;
    for k in 0..n * n {
        let next = distance(instance, k);
        least = least.min(next);
        greatest = greatest.max(next);
    }
    i128::from(greatest) - i128::from(least)
}

/// Distance `k`, by rows.
fn distance(instance: &Instance, k: usize) -> i64
    requires { k < instance.now.size * instance.now.size }
    ensures { result ≡ distance_at instance.now k }
{
    let n = instance.size();
    instance.b(k / n, k % n)
}

/// The ranges of what the facilities pay, added up, for `n` locations.
fn total_range(charges: &Charges, n: usize) -> i128
    requires { AreCharges n charges.now }
    ensures value { result ≡ sum_to (charge_range n charges.now) charges.now.count }
    ensures bounded { unsigned_abs result ≤ 256 * 2 ^ 64 }
{
    let mut total = 0;
    for i in 0..charges.count {
        let range = charge_range(charges, n, i);
        total += range;
    }
    total
}

/// The most that facility `i` may pay less the least, for `n` locations.
fn charge_range(charges: &Charges, n: usize, i: usize) -> i128
    requires charges { AreCharges n charges.now }
    requires row { i < charges.now.count }
    ensures value { result ≡ charge_range n charges.now i }
    ensures bounded { unsigned_abs result ≤ 2 ^ 64 }
{
    let mut least = charges.charge(n, i, 0);
    let mut greatest = least;
    for k in 0..n {
        let next = charges.charge(n, i, k);
        least = least.min(next);
        greatest = greatest.max(next);
    }
    i128::from(greatest) - i128::from(least)
}
