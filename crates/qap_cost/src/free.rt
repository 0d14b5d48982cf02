//! Free numbers, listed in memory that is kept from one list to the next.

ghost use Rattle.std.specs.Prelude.{◌≡◌, ◌≤◌, OnOk};
ghost use Rattle.qap_cost.specs.Bijection.{AreDifferent};
ghost use Rattle.qap_cost.specs.Placement.{ListsFree, free_below};

use crate::marks::marked;
use std::alloc::AllocError;

/// Makes `free` the numbers below `n` that are not among these, ascending.
pub fn list_free(n: usize, taken: &[u16], free: &mut Vec<u16>) -> Result<(), AllocError>
    requires small { n ≤ 256 }
    requires different { AreDifferent n taken.now }
    ensures value { OnOk result (free.new.items ≡ free_below n taken.now) }
    ensures free { OnOk result (ListsFree n taken.now free.new.items) }
{
    let is_taken = marked(taken);
    free.clear();
    free.reserve(n - taken.len())?;
    for k in 0..n {
        if !is_taken[k] {
            free.push(k as u16)?;
        }
    }
    Ok(())
}
