//! Dot products of rows.

ghost use Rattle.std.specs.Prelude.{◌≡◌, ◌+◌, ◌*◌, ◌^◌, ◌≤◌, ◌*ℤ◌, IsTrue, length, pos, slice_index_or, unsigned_abs};
ghost use Rattle.qap_cost.specs.Range.{AllInRange};
ghost use Rattle.qap_cost.specs.Sum.{sum_to};
ghost use Rattle.gilmore_lawler.specs.Small.{AllSmall};
ghost use Rattle.gilmore_lawler.specs.Table.{dot};

use qap_cost::product;

/// How many products of two entries are added up in 64 bits: eight are at most 8 * 10^18, which is below 2^63.
const BLOCK: usize = 8;

/// The sum over all `j` of `xs[j] * ys[j]`; where the numbers are known to be small it is made in 64 bits.
pub(crate) fn dot_product(xs: &[i32], ys: &[i32], are_small: bool) -> i128
    requires same_length { length xs.now ≡ length ys.now }
    requires few { length xs.now ≤ 512 }
    requires xs_range { AllInRange xs.now }
    requires ys_range { AllInRange ys.now }
    requires known { IsTrue are_small → (AllSmall xs.now × AllSmall ys.now) }
    ensures value { result ≡ dot xs.now ys.now }
    ensures bounded { unsigned_abs result ≤ length xs.now * 10 ^ 18 }
{
    if are_small {
        i128::from(small_sum(xs, ys))
    } else {
        sum_by_eights(xs, ys)
    }
}

/// Likewise for small numbers.
fn small_sum(xs: &[i32], ys: &[i32]) -> i64
    requires same_length { length xs.now ≡ length ys.now }
    requires few { length xs.now ≤ 512 }
    requires xs_small { AllSmall xs.now }
    requires ys_small { AllSmall ys.now }
    ensures value { result ≡ dot xs.now ys.now }
    ensures bounded { unsigned_abs result ≤ length xs.now * 10 ^ 16 }
{
    let mut sum = 0;
    for j in 0..xs.len() {
        sum += product(i64::from(xs[j]), i64::from(ys[j]));
    }
    sum
}

/// Likewise for any entries.
fn sum_by_eights(xs: &[i32], ys: &[i32]) -> i128
    requires same_length { length xs.now ≡ length ys.now }
    requires small { length xs.now ≤ 512 }
    requires xs_range { AllInRange xs.now }
    requires ys_range { AllInRange ys.now }
    ensures value { result ≡ dot xs.now ys.now }
    ensures bounded { unsigned_abs result ≤ length xs.now * 10 ^ 18 }
{
    let mut total = 0;
    let mut start = 0;
    while start + BLOCK <= xs.len() {
        let end = start + BLOCK;
        total += i128::from(few_products(&xs[start..end], &ys[start..end]));
        start = end;
    }
    total + i128::from(few_products(&xs[start..], &ys[start..]))
}

/// Likewise for at most eight products, in 64 bits.
fn few_products(xs: &[i32], ys: &[i32]) -> i64
    requires same_length { length xs.now ≡ length ys.now }
    requires few { length xs.now ≤ 8 }
    requires xs_range { AllInRange xs.now }
    requires ys_range { AllInRange ys.now }
    ensures value { result ≡ dot xs.now ys.now }
    ensures bounded { unsigned_abs result ≤ length xs.now * 10 ^ 18 }
{
    let mut sum = 0;
    for j in 0..xs.len() {
        sum += product(i64::from(xs[j]), i64::from(ys[j]));
    }
    sum
}
