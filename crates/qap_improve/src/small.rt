//! Whether the sum of an exchange's changes fits 64 bits.

ghost use Rattle.std.specs.Prelude.{◌*◌, ◌^◌, IsTrue};
ghost use Rattle.qap_cost.specs.Range.{AllWithin};
ghost use Rattle.qap_improve.specs.Arrangement.{HasSmallEntries};

use qap_cost::Instance;

/// How far from 0 a small entry is at most.
const SMALL: u64 = 50_000_000;

/// Whether both matrices have small entries alone.
pub(crate) fn has_small_entries(instance: &Instance) -> bool
    ensures { IsTrue result → HasSmallEntries instance.now }
{
    for i in 0..instance.size() {
        if !is_small_row(instance.a_row(i)) || !is_small_row(instance.b_row(i)) {
            return false;
        }
    }
    true
}

/// Whether all entries of a row are small.
fn is_small_row(row: &[i64]) -> bool
    ensures { IsTrue result → AllWithin (5 * 10 ^ 7) row.now }
{
    for &entry in row {
        if entry.unsigned_abs() > SMALL {
            return false;
        }
    }
    true
}
