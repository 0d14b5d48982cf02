//! The least sum of products of two lists over all pairings of their numbers.

ghost use Rattle.std.specs.Prelude.{◌≡◌, ◌*◌, ◌^◌, ◌≤◌, ◌*ℤ◌, length, IfOk, pos, slice_index_or, unsigned_abs};
ghost use Rattle.qap_cost.specs.Range.{AllInRange};
ghost use Rattle.qap_cost.specs.Sum.{sum_to};
ghost use Rattle.gilmore_lawler.specs.LeastProduct.{IsLeastProduct};

use qap_cost::product;
use std::alloc::{AllocError, Global};

/// The least sum, over all pairings of the numbers of `xs` with those of `ys`, of the products of the pairs; 0 if the
/// lists are empty.
///
/// Pairing one list in ascending with the other in descending order attains it regardless of the signs (Hardy,
/// Littlewood and Polya 1934).
pub fn least_product(alloc: Global, xs: &[i64], ys: &[i64]) -> Result<i128, AllocError>
    requires same_length { length xs.now ≡ length ys.now }
    requires small { length xs.now ≤ 256 }
    requires xs_range { AllInRange xs.now }
    requires ys_range { AllInRange ys.now }
    ensures least { IfOk result (IsLeastProduct xs.now ys.now) }
    ensures bounded { IfOk result (λ r. unsigned_abs r ≤ 256 * 10 ^ 18) }
{
    let mut ascending = Vec::from_slice(alloc, xs)?;
    let mut descending = Vec::from_slice(alloc, ys)?;
    ascending.sort_unstable();
    descending.sort_unstable();
    descending.reverse();
    Ok(sum_of_products(&ascending, &descending))
}

/// The sum over all `j` of `xs[j] * ys[j]`.
pub(crate) fn sum_of_products(xs: &[i64], ys: &[i64]) -> i128
    requires same_length { length xs.now ≡ length ys.now }
    requires small { length xs.now ≤ 512 }
    requires xs_range { AllInRange xs.now }
    requires ys_range { AllInRange ys.now }
    ensures value { result ≡ sum_to (λ j. slice_index_or xs.now j (pos 0) *ℤ slice_index_or ys.now j (pos 0)) (length xs.now) }
    ensures bounded { unsigned_abs result ≤ length xs.now * 10 ^ 18 }
{
    let mut total = 0;
    for j in 0..xs.len() {
        let term = product(xs[j], ys[j]);
        total += i128::from(term);
    }
    total
}
