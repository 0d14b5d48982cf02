//! Row and column minima of a square matrix, and the matrix with these subtracted.

ghost use Rattle.std.specs.Prelude.{◌≡◌, ◌+◌, ◌*◌, ◌<◌, ◌≤◌, ℕ, ℤ, ◌-ℤ◌, pos, length, map, slice_index_or, unsigned_abs};
ghost use Rattle.qap_cost.specs.Instance.{entry};
ghost use Rattle.qap_cost.specs.Matrix.{total};
ghost use Rattle.qap_cost.specs.Range.{AllWithin};
ghost use Rattle.pair_duals.specs.Filling.{FillsPart, FillsRows};
ghost use Rattle.pair_duals.specs.Lines.{IsSmaller, LowersBy, TakesRow};
ghost use Rattle.pair_duals.specs.Reduced.{AreLeast, AreLeastOfRows, IsLeast, less_both, less_own};

use crate::number::Number;

/// Makes each number of `v` the least of its column, where each row is taken less its number of `u`.
pub fn least_of_columns<N: Number>(entries: &[N], u: &[N], v: &mut [N])
    requires count { length entries.now ≡ length u.now * length u.now }
    requires columns { length v.old ≡ length u.now }
    requires small { length u.now ≤ 256 }
    requires range { AllWithin N.limits.reach (map N.value entries.now) }
    requires u_range { AllWithin N.limits.reach (map N.value u.now) }
    ensures { AreLeast (length u.now) (map N.value entries.now) (map N.value u.now) (map N.value v.new) }
{
    let m = u.len();
    for r in 0..m {
        if r == 0 {
            take_row(entries, u[r], v);
        } else {
            lower(entries, r * m, u[r], v);
        }
    }
}

/// Makes the numbers the first entries, less a number.
fn take_row<N: Number>(entries: &[N], own: N, least: &mut [N])
    requires count { length least.old ≤ length entries.now }
    requires range { AllWithin N.limits.reach (map N.value entries.now) }
    requires own_range { unsigned_abs (N.value own) ≤ N.limits.reach }
    ensures { TakesRow (map N.value entries.now) (N.value own) (map N.value least.new) }
{
    for c in 0..least.len() {
        least[c] = difference(entries[c], own);
    }
}

/// Lowers each number to the entry from `start` on, less a number, where that is smaller.
fn lower<N: Number>(entries: &[N], start: usize, own: N, least: &mut [N])
    requires count { start + length least.old ≤ length entries.now }
    requires range { AllWithin N.limits.reach (map N.value entries.now) }
    requires own_range { unsigned_abs (N.value own) ≤ N.limits.reach }
    ensures { LowersBy (map N.value entries.now) start (N.value own) (map N.value least.old) (map N.value least.new) }
{
    for c in 0..least.len() {
        let left = difference(entries[start + c], own);
        least[c] = smaller(least[c], left);
    }
}

/// The smaller of two numbers. A loop that always writes it has no branch.
fn smaller<N: Number>(first: N, second: N) -> N
    ensures { IsSmaller (N.value first) (N.value second) (N.value result) }
{
    if second.is_less(first) { second } else { first }
}

/// An entry less a number.
fn difference<N: Number>(entry: N, own: N) -> N
    requires entry { unsigned_abs (N.value entry) ≤ N.limits.reach }
    requires own { unsigned_abs (N.value own) ≤ N.limits.reach }
    ensures { N.value result ≡ N.value entry -ℤ N.value own }
{
    entry.minus(own)
}

/// Makes each number of `u` the least of its row.
pub fn least_of_rows<N: Number>(entries: &[N], u: &mut [N])
    requires count { length entries.now ≡ length u.old * length u.old }
    requires small { length u.old ≤ 256 }
    ensures { AreLeastOfRows (length u.old) (map N.value entries.now) (map N.value u.new) }
{
    let m = u.len();
    for r in 0..m {
        u[r] = least_of_row(entries, m, r);
    }
}

/// The least number of row `r`.
fn least_of_row<N: Number>(entries: &[N], m: usize, r: usize) -> N
    requires count { length entries.now ≡ m * m }
    requires small { m ≤ 256 }
    requires row { r < m }
    ensures { IsLeast (entry m (map N.value entries.now) r) m (N.value result) }
{
    let start = r * m;
    let mut least = entries[start];
    for c in 1..m {
        let next = entries[start + c];
        if next.is_less(least) {
            least = next;
        }
    }
    least
}

/// Takes the numbers of its row and its column from each entry.
pub fn take_both<N: Number>(entries: &mut [N], u: &[N], v: &[N])
    requires count { length entries.old ≡ length u.now * length u.now }
    requires columns { length v.now ≡ length u.now }
    requires small { length u.now ≤ 256 }
    requires range { AllWithin N.limits.reach (map N.value entries.old) }
    requires u_range { AllWithin N.limits.reach (map N.value u.now) }
    requires room { (r c : ℕ) → r < length u.now → c < length u.now → unsigned_abs (less_both (length u.now) (map N.value entries.old) (map N.value u.now) (map N.value v.now) r c) ≤ N.limits.sum }
    ensures { FillsRows (length u.now) (less_both (length u.now) (map N.value entries.old) (map N.value u.now) (map N.value v.now)) (length u.now) (map N.value entries.old) (map N.value entries.new) }
{
    let m = u.len();
    for r in 0..m {
        take_from_row(entries, r, r * m, u[r], v);
    }
}

/// Takes `own` and the number of its column from each entry of row `r`, which begins at `start`.
fn take_from_row<N: Number>(entries: &mut [N], r: usize, start: usize, own: N, v: &[N])
    requires start { start ≡ r * length v.now }
    requires inside { start + length v.now ≤ length entries.old }
    requires range { (c : ℕ) → c < length v.now → unsigned_abs (entry (length v.now) (map N.value entries.old) r c) ≤ N.limits.reach }
    requires own_range { unsigned_abs (N.value own) ≤ N.limits.reach }
    requires room { (c : ℕ) → c < length v.now → unsigned_abs (less_own (length v.now) (map N.value entries.old) (N.value own) (map N.value v.now) r c) ≤ N.limits.sum }
    ensures { FillsPart (length v.now) (less_own (length v.now) (map N.value entries.old) (N.value own) (map N.value v.now)) r (length v.now) (map N.value entries.old) (map N.value entries.new) }
{
    for c in 0..v.len() {
        let left = difference(entries[start + c], own);
        entries[start + c] = left.minus(v[c]);
    }
}

/// The sum of the numbers.
pub fn sum<N: Number>(numbers: &[N]) -> i128
    requires small { length numbers.now ≤ 256 }
    requires range { AllWithin N.limits.sum (map N.value numbers.now) }
    ensures value { result ≡ total (map N.value numbers.now) }
    ensures bounded { unsigned_abs result ≤ length numbers.now * N.limits.sum }
{
    let mut sum = 0;
    for number in numbers {
        sum += number.widen();
    }
    sum
}
