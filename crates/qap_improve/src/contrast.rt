//! How facilities differ in their flows and distances to two that are exchanged, and the resulting change (Taillard
//! 1991).

ghost use Rattle.std.specs.Prelude.{◌≡◌, ◌*◌, ◌^◌, ◌<◌, ◌≤◌, ◌*ℤ◌, length, unsigned_abs};
ghost use Rattle.qap_improve.specs.Arrangement.{IsArrangement};
ghost use Rattle.qap_improve.specs.Table.{AreContrasts, IsContrast, IsSmall, change_of_difference};

use crate::arrangement::{Arrangement, rows_back, rows_there};
use crate::rows::{distance_contrast, flow_contrast};
use qap_cost::Instance;

/// How the flows, and the distances, between a facility and two exchanged ones differ.
#[derive(Clone, Copy)]
pub(crate) struct Contrast {
    pub flow: i64,
    pub flow_back: i64,
    pub distance: i64,
    pub distance_back: i64,
}

/// No difference.
pub(crate) const NO_CONTRAST: Contrast = Contrast {
    flow: 0,
    flow_back: 0,
    distance: 0,
    distance_back: 0,
};

/// Makes the list those between each facility and the exchanged `u` and `v`.
pub(crate) fn fill_contrasts(
    instance: &Instance,
    arrangement: &Arrangement,
    u: usize,
    v: usize,
    contrasts: &mut [Contrast],
)
    requires arrangement { IsArrangement instance.now arrangement.now }
    requires first { u < instance.now.size }
    requires second { v < instance.now.size }
    requires count { length contrasts.old ≡ instance.now.size }
    ensures { AreContrasts instance.now arrangement.now.locations.items u v contrasts.new }
{
    for k in 0..contrasts.len() {
        contrasts[k] = contrast_of(instance, arrangement, u, v, k);
    }
}

/// Those between facility `k` and the exchanged `u` and `v`.
fn contrast_of(
    instance: &Instance,
    arrangement: &Arrangement,
    u: usize,
    v: usize,
    k: usize,
) -> Contrast
    requires arrangement { IsArrangement instance.now arrangement.now }
    requires first { u < instance.now.size }
    requires second { v < instance.now.size }
    requires other { k < instance.now.size }
    ensures { IsContrast instance.now arrangement.now.locations.items u v k result }
{
    let there = rows_there(instance, arrangement, u, v);
    let back = rows_back(instance, arrangement, u, v);
    Contrast {
        flow: flow_contrast(&there, k),
        flow_back: flow_contrast(&back, k),
        distance: distance_contrast(&there, k),
        distance_back: distance_contrast(&back, k),
    }
}

/// What the difference of two facilities that take no part in an exchange changes by, where these are theirs.
pub(crate) fn change(first: &Contrast, second: &Contrast) -> i128
    requires first { IsSmall (10 ^ 9) first.now }
    requires second { IsSmall (10 ^ 9) second.now }
    ensures value { result ≡ change_of_difference first.now second.now }
    ensures bounded { unsigned_abs result ≤ 32 * 10 ^ 18 }
{
    let there = wide_product(first.flow - second.flow, second.distance - first.distance);
    let back = wide_product(
        first.flow_back - second.flow_back,
        second.distance_back - first.distance_back,
    );
    there + back
}

/// The same where entries are small.
pub(crate) fn small_change(first: &Contrast, second: &Contrast) -> i64
    requires first { IsSmall (5 * 10 ^ 7) first.now }
    requires second { IsSmall (5 * 10 ^ 7) second.now }
    ensures value { result ≡ change_of_difference first.now second.now }
    ensures bounded { unsigned_abs result ≤ 8 * 10 ^ 16 }
{
    let there = small_product(first.flow - second.flow, second.distance - first.distance);
    let back = small_product(
        first.flow_back - second.flow_back,
        second.distance_back - first.distance_back,
    );
    there + back
}

/// The product of two differences of differences of entries, which may not fit 64 bits.
fn wide_product(x: i64, y: i64) -> i128
    requires left { unsigned_abs x ≤ 4 * 10 ^ 9 }
    requires right { unsigned_abs y ≤ 4 * 10 ^ 9 }
    ensures value { result ≡ x *ℤ y }
    ensures bounded { unsigned_abs result ≤ 16 * 10 ^ 18 }
{
    i128::from(x) * i128::from(y)
}

/// Likewise for small entries: one instruction multiplies two pairs of numbers of 32 bits side by side.
fn small_product(x: i64, y: i64) -> i64
    requires left { unsigned_abs x ≤ 2 * 10 ^ 8 }
    requires right { unsigned_abs y ≤ 2 * 10 ^ 8 }
    ensures value { result ≡ x *ℤ y }
    ensures bounded { unsigned_abs result ≤ 4 * 10 ^ 16 }
{
    product(narrow(x), narrow(y))
}

/// The product of two numbers of 32 bits, which fits 64.
fn product(x: i32, y: i32) -> i64
    requires left { unsigned_abs x ≤ 2 * 10 ^ 8 }
    requires right { unsigned_abs y ≤ 2 * 10 ^ 8 }
    ensures value { result ≡ x *ℤ y }
    ensures bounded { unsigned_abs result ≤ 4 * 10 ^ 16 }
{
    i64::from(x) * i64::from(y)
}

/// The number in 32 bits, which hold it.
fn narrow(number: i64) -> i32
    requires { unsigned_abs number ≤ 2 * 10 ^ 8 }
    ensures { result ≡ number }
{
    number as i32
}
