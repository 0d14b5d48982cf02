//! Writing a square matrix.

ghost use Rattle.std.specs.Prelude.{◌≡◌, ◌+◌, ◌*◌, ◌<◌, ◌≤◌, length, slice_set};

use crate::number::Number;

/// Writes row `r`, column `c` of a matrix with `m` columns.
pub fn write<N: Number>(entries: &mut [N], m: usize, r: usize, c: usize, entry: N)
    requires count { length entries.old ≡ m * m }
    requires small { m ≤ 256 }
    requires row { r < m }
    requires column { c < m }
    ensures { entries.new ≡ slice_set entries.old (r * m + c) entry }
{
    let at = place(m, r, c);
    entries[at] = entry;
}

/// Writes a number of a list.
pub fn put<N: Number>(numbers: &mut [N], at: usize, number: N)
    requires { at < length numbers.old }
    ensures { numbers.new ≡ slice_set numbers.old at number }
{
    numbers[at] = number;
}

/// The position of row `r`, column `c`.
fn place(m: usize, r: usize, c: usize) -> usize
    requires small { m ≤ 256 }
    requires row { r < m }
    requires column { c < m }
    ensures value { result ≡ r * m + c }
    ensures within { result < m * m }
{
    r * m + c
}
