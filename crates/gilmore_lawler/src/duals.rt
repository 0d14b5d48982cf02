//! Whether duals fit a matrix, and what they sum to.

ghost use Rattle.std.specs.Prelude.{◌≡◌, ◌↔◌, ◌≤◌, ◌*◌, ◌^◌, length, unsigned_abs, IsTrue};
ghost use Rattle.qap_cost.specs.Matrix.{DualsFit, dual_value, total};
ghost use Rattle.qap_cost.specs.Range.{AllLimited, IsLimited};
ghost use Rattle.gilmore_lawler.specs.Duals.{RowFits};

use qap_cost::Matrix;

/// Whether `(u, v)` fits the matrix: no entry in row `i` and column `k` is below `u[i] + v[k]`.
///
/// Allocates nothing.
pub fn fits(matrix: &Matrix, u: &[i128], v: &[i128]) -> bool
    requires u_count { length u.now ≡ matrix.now.size }
    requires v_count { length v.now ≡ matrix.now.size }
    requires u_range { AllLimited u.now }
    requires v_range { AllLimited v.now }
    ensures { IsTrue result ↔ DualsFit matrix.now u.now v.now }
{
    for (i, &row_dual) in u.iter().enumerate() {
        if !row_fits(matrix.row(i), row_dual, v) {
            return false;
        }
    }
    true
}

/// Whether no number of the row is below `row_dual` and its column's dual together.
fn row_fits(row: &[i128], row_dual: i128, column_duals: &[i128]) -> bool
    requires same_length { length row.now ≡ length column_duals.now }
    requires row_range { IsLimited row_dual }
    requires column_range { AllLimited column_duals.now }
    ensures { IsTrue result ↔ RowFits row.now row_dual column_duals.now }
{
    for k in 0..row.len() {
        if row_dual + column_duals[k] > row[k] {
            return false;
        }
    }
    true
}

/// The sum of the duals of the rows and of the columns.
pub fn dual_sum(u: &[i128], v: &[i128]) -> i128
    requires u_count { length u.now ≤ 256 }
    requires v_count { length v.now ≤ 256 }
    requires u_range { AllLimited u.now }
    requires v_range { AllLimited v.now }
    ensures value { result ≡ dual_value u.now v.now }
    ensures bounded { unsigned_abs result ≤ 512 * 10 ^ 24 }
{
    sum(u) + sum(v)
}

fn sum(numbers: &[i128]) -> i128
    requires count { length numbers.now ≤ 256 }
    requires range { AllLimited numbers.now }
    ensures value { result ≡ total numbers.now }
    ensures bounded { unsigned_abs result ≤ 256 * 10 ^ 24 }
{
    let mut sum = 0;
    for &number in numbers {
        sum += number;
    }
    sum
}
