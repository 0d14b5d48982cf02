//! Whether entries are small.

ghost use Rattle.std.specs.Prelude.{◌↔◌, IsTrue};
ghost use Rattle.gilmore_lawler.specs.Small.{AllSmall};
ghost use Rattle.gilmore_lawler.specs.Table.{matrix_of};

use crate::side::{Side, row_of};
use qap_cost::Instance;

/// How far from 0 a small entry is at most.
const SMALL: u64 = 100_000_000;

/// Whether both matrices have small entries alone.
pub(crate) fn has_small_entries(instance: &Instance) -> bool
    ensures { IsTrue result → (AllSmall instance.now.a × AllSmall instance.now.b) }
{
    are_all_small(instance, Side::Flow) && are_all_small(instance, Side::Distance)
}

/// Whether all entries of that matrix are small.
fn are_all_small(instance: &Instance, side: Side) -> bool
    ensures { IsTrue result → AllSmall (matrix_of instance.now side) }
{
    for i in 0..instance.size() {
        if !is_small_row(row_of(instance, side, i)) {
            return false;
        }
    }
    true
}

/// Whether all entries of a row are small.
fn is_small_row(row: &[i64]) -> bool
    ensures { IsTrue result ↔ AllSmall row.now }
{
    for &entry in row {
        if entry.unsigned_abs() > SMALL {
            return false;
        }
    }
    true
}
