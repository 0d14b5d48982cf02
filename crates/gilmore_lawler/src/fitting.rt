//! Whether duals fit products of rows, which are computed one by one and not stored.

ghost use Rattle.std.specs.Prelude.{◌≡◌, ◌+◌, ◌*◌, ◌^◌, ◌≤◌, ◌↔◌, length, IsTrue, unsigned_abs};
ghost use Rattle.qap_cost.specs.Range.{AllInRange, AllLimited, IsLimited};
ghost use Rattle.gilmore_lawler.specs.Duals.{ProductsFit, RowProductsFit};
ghost use Rattle.gilmore_lawler.specs.Small.{AllSmall};
ghost use Rattle.gilmore_lawler.specs.Table.{dot, segment};

use crate::blocks::dot_product;

/// Whether no product of a row of the one table with one of the other, which have rows of this width, is below the
/// duals of both together: as many rows as there are duals.
pub(crate) fn products_fit(
    a_rows: &[i32],
    b_rows: &[i32],
    width: usize,
    are_small: bool,
    u: &[i128],
    v: &[i128],
) -> bool
    requires u_count { length u.now ≤ 256 }
    requires v_count { length v.now ≤ 256 }
    requires width { width ≤ 512 }
    requires a_size { length a_rows.now ≡ length u.now * width }
    requires b_size { length b_rows.now ≡ length v.now * width }
    requires a_range { AllInRange a_rows.now }
    requires b_range { AllInRange b_rows.now }
    requires known { IsTrue are_small → (AllSmall a_rows.now × AllSmall b_rows.now) }
    requires u_range { AllLimited u.now }
    requires v_range { AllLimited v.now }
    ensures { IsTrue result ↔ ProductsFit width a_rows.now b_rows.now u.now v.now }
{
    for i in 0..u.len() {
        let start = i * width;
        let row = &a_rows[start..start + width];
        if !row_products_fit(row, b_rows, are_small, u[i], v) {
            return false;
        }
    }
    true
}

/// Likewise for one row.
fn row_products_fit(
    row: &[i32],
    others: &[i32],
    are_small: bool,
    row_dual: i128,
    column_duals: &[i128],
) -> bool
    requires count { length column_duals.now ≤ 256 }
    requires width { length row.now ≤ 512 }
    requires size { length others.now ≡ length column_duals.now * length row.now }
    requires range { AllInRange row.now }
    requires others_range { AllInRange others.now }
    requires known { IsTrue are_small → (AllSmall row.now × AllSmall others.now) }
    requires row_dual { IsLimited row_dual }
    requires column_duals { AllLimited column_duals.now }
    ensures { IsTrue result ↔ RowProductsFit row.now others.now row_dual column_duals.now }
{
    for k in 0..column_duals.len() {
        let product = product_with(row, others, k, are_small);
        if row_dual + column_duals[k] > product {
            return false;
        }
    }
    true
}

/// The product of this row with that of number `k` among others of its width.
pub(crate) fn product_with(row: &[i32], others: &[i32], k: usize, are_small: bool) -> i128
    requires width { length row.now ≤ 512 }
    requires inside { k * length row.now + length row.now ≤ length others.now }
    requires range { AllInRange row.now }
    requires others_range { AllInRange others.now }
    requires known { IsTrue are_small → (AllSmall row.now × AllSmall others.now) }
    ensures value { result ≡ dot row.now (segment (length row.now) others.now k) }
    ensures bounded { unsigned_abs result ≤ 512 * 10 ^ 18 }
{
    let width = row.len();
    let start = k * width;
    dot_product(row, &others[start..start + width], are_small)
}
