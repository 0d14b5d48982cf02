//! The test for entries that are in range.

ghost use Rattle.std.specs.Prelude.{◌↔◌, ◌^◌, IsTrue};
ghost use Rattle.qap_cost.specs.Range.{AllWithin};

use qap_cost::Matrix;

/// The greatest absolute value of an entry: 10^21.
pub const MAX_MATRIX_ENTRY: u128 = 1_000_000_000_000_000_000_000;

/// Whether every entry is from -10^21 to 10^21.
pub fn is_in_range(matrix: &Matrix) -> bool
    ensures { IsTrue result ↔ AllWithin (10 ^ 21) matrix.now.entries }
{
    are_within(matrix.entries(), MAX_MATRIX_ENTRY)
}

/// Whether no number is further from 0 than the limit.
pub(crate) fn are_within(numbers: &[i128], limit: u128) -> bool
    ensures { IsTrue result ↔ AllWithin limit numbers.now }
{
    for number in numbers {
        if number.unsigned_abs() > limit {
            return false;
        }
    }
    true
}
