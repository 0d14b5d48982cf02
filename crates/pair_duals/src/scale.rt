//! Whether the entries of an instance, scaled, are small enough for a width.

ghost use Rattle.std.specs.Prelude.{◌≡◌, ◌<◌, ◌≤◌, ◌↔◌, ◌^◌, IsTrue, length};
ghost use Rattle.qap_cost.specs.Range.{AllInRange};
ghost use Rattle.pair_duals.specs.Range.{IsInScale};
ghost use Rattle.pair_duals.specs.Largest.{IsLargest, IsLargestOfRow};

use crate::number::Number;
use qap_cost::Instance;

/// Whether no scaled product of an entry of A and one of B is above the limit of the width.
///
/// This holds for every instance in 128 bits, and in 64 bits if the size is at most 64 and the greatest product is at
/// most 2^52 divided by the scale.
pub fn is_in_scale<N: Number>(instance: &Instance, scale: u32) -> bool
    ensures { IsTrue result ↔ IsInScale N.limits instance.now scale }
{
    let a = u128::from(largest_a(instance));
    let b = u128::from(largest_b(instance));
    u128::from(scale) * (a * b) <= N::most_cost()
}

/// The greatest absolute value of an entry of A.
fn largest_a(instance: &Instance) -> u64
    ensures { IsLargest instance.now.size instance.now.a result }
{
    let mut largest = 0;
    for i in 0..instance.size() {
        largest = largest_of_row(instance.a_row(i), largest);
    }
    largest
}

/// The greatest absolute value of an entry of B.
fn largest_b(instance: &Instance) -> u64
    ensures { IsLargest instance.now.size instance.now.b result }
{
    let mut largest = 0;
    for i in 0..instance.size() {
        largest = largest_of_row(instance.b_row(i), largest);
    }
    largest
}

/// The greatest of a number and the absolute values of a row.
fn largest_of_row(row: &[i64], before: u64) -> u64
    requires range { AllInRange row.now }
    requires before { before ≤ 10 ^ 9 }
    ensures { IsLargestOfRow row.now before result }
{
    let mut largest = before;
    for number in row {
        let size = number.unsigned_abs();
        if size > largest {
            largest = size;
        }
    }
    largest
}
