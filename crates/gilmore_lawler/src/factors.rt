//! The rows whose products are the entries of a Gilmore-Lawler matrix.

ghost use Rattle.std.specs.Prelude.{◌≡◌, ◌<◌, ◌≤◌, ◌==◌, ◌+◌, ◌*◌, ◌++◌, ◌∷◌, [], false, length, map, take, OnOk, slice_index, slice_index_or, ℕ};
ghost use Rattle.std.specs.List.{flat_map};
ghost use Rattle.std.specs.List.Sorted.{IsStrictlyIncreasing};
ghost use Rattle.qap_cost.specs.Instance.{entry, IsInstance};
ghost use Rattle.qap_cost.specs.Range.{AllWithin};
ghost use Rattle.gilmore_lawler.specs.Ranking.{IsRankings};
ghost use Rattle.gilmore_lawler.specs.Table.{IsTable, AllBelow, matrix_of, pair_with, linear_row, IsFactorRow};

use crate::ranking::{Ranked, pick_others, ranking_of};
use crate::side::{Side, entry_at, narrow};
use qap_cost::{Instance, marked};
use std::alloc::AllocError;

/// Makes `table` a row for each free facility, or for each free location: its entry with itself, its entries with each
/// placed one and that one's with it, and then its entries with the other free ones in order.
///
/// `rankings` are the rows of the matrix in order of their entries, and `free` ascends.
pub fn factor_rows(
    instance: &Instance,
    side: Side,
    rankings: &[Ranked],
    placed: &[u16],
    free: &[u16],
    table: &mut Vec<i32>,
) -> Result<(), AllocError>
    requires instance { IsInstance instance.now }
    requires rankings { IsRankings instance.now side rankings.now }
    requires placed { AllBelow instance.now.size placed.now }
    requires free { AllBelow instance.now.size free.now }
    requires rising { IsStrictlyIncreasing free.now }
    requires counts { length placed.now + length free.now ≤ 256 }
    ensures rows { OnOk result (IsTable (2 * length placed.now + length free.now) (length free.now) (IsFactorRow instance.now side placed.now free.now) table.new.items) }
    ensures range { OnOk result ((l : ℕ) → AllWithin l (matrix_of instance.now side) → AllWithin l table.new.items) }
{
    let count = free.len() * (2 * placed.len() + free.len());
    table.clear();
    table.resize(count + instance.size(), 0)?;
    let end = fill_rows(instance, side, rankings, placed, free, table);
    table.truncate(end);
    Ok(())
}

/// Writes these rows from the front on, and returns the position after them. There is room for one more row of the
/// matrix.
fn fill_rows(
    instance: &Instance,
    side: Side,
    rankings: &[Ranked],
    placed: &[u16],
    free: &[u16],
    table: &mut [i32],
) -> usize
    requires instance { IsInstance instance.now }
    requires rankings { IsRankings instance.now side rankings.now }
    requires placed { AllBelow instance.now.size placed.now }
    requires free { AllBelow instance.now.size free.now }
    requires rising { IsStrictlyIncreasing free.now }
    requires room { length table.old ≡ length free.now * (2 * length placed.now + length free.now) + instance.now.size }
    ensures within { result ≤ length table.new }
    ensures rows { IsTable (2 * length placed.now + length free.now) (length free.now) (IsFactorRow instance.now side placed.now free.now) (take result table.new) }
    ensures range { (l : ℕ) → AllWithin l (matrix_of instance.now side) → AllWithin l (take result table.new) }
{
    let is_free = marked(free);
    let mut end = 0;
    for r in 0..free.len() {
        let own = free[r];
        let row = ranking_of(instance, side, rankings, usize::from(own));
        let behind = write_linear(instance, side, placed, own, table, end);
        end = pick_others(row, &is_free, own, table, behind);
    }
    end
}

/// Writes the entry of `i` with itself, and the pairs with each placed one, from this position on, and returns the
/// position after them.
pub(crate) fn write_linear(
    instance: &Instance,
    side: Side,
    placed: &[u16],
    i: u16,
    numbers: &mut [i32],
    start: usize,
) -> usize
    requires own { i < instance.now.size }
    requires placed { AllBelow instance.now.size placed.now }
    requires room { start + 1 + 2 * length placed.now ≤ length numbers.old }
    ensures end { result ≡ start + 1 + 2 * length placed.now }
    ensures count { length numbers.new ≡ length numbers.old }
    ensures written { take result numbers.new ≡ take start numbers.old ++ linear_row instance.now.size (matrix_of instance.now side) placed.now i }
{
    let own = usize::from(i);
    let with_itself = narrow(entry_at(instance, side, own, own));
    let first = write_one(with_itself, numbers, start);
    write_pairs(instance, side, own, placed, numbers, first)
}

/// Writes the entries of `i` with each of these and theirs with it from this position on, and returns the position
/// after them.
fn write_pairs(
    instance: &Instance,
    side: Side,
    i: usize,
    others: &[u16],
    numbers: &mut [i32],
    start: usize,
) -> usize
    requires row { i < instance.now.size }
    requires others { AllBelow instance.now.size others.now }
    requires room { start + 2 * length others.now ≤ length numbers.old }
    ensures end { result ≡ start + 2 * length others.now }
    ensures count { length numbers.new ≡ length numbers.old }
    ensures written { take result numbers.new ≡ take start numbers.old ++ flat_map (pair_with instance.now.size (matrix_of instance.now side) i) others.now }
{
    let mut place = start;
    for &other in others {
        place = write_pair(instance, side, i, usize::from(other), numbers, place);
    }
    place
}

/// Writes the entry of `i` with another one, and of that one with it, at this position, and returns the position after
/// them.
pub(crate) fn write_pair(
    instance: &Instance,
    side: Side,
    i: usize,
    other: usize,
    numbers: &mut [i32],
    start: usize,
) -> usize
    requires row { i < instance.now.size }
    requires other { other < instance.now.size }
    requires room { start + 2 ≤ length numbers.old }
    ensures end { result ≡ start + 2 }
    ensures count { length numbers.new ≡ length numbers.old }
    ensures written { take result numbers.new ≡ take start numbers.old ++ pair_with instance.now.size (matrix_of instance.now side) i other }
{
    let there = narrow(entry_at(instance, side, i, other));
    let back = narrow(entry_at(instance, side, other, i));
    let middle = write_one(there, numbers, start);
    write_one(back, numbers, middle)
}

/// Writes one number at this position, and returns the position after it.
fn write_one(number: i32, numbers: &mut [i32], start: usize) -> usize
    requires room { start < length numbers.old }
    ensures end { result ≡ start + 1 }
    ensures count { length numbers.new ≡ length numbers.old }
    ensures written { take result numbers.new ≡ take start numbers.old ++ number ∷ [] }
{
    numbers[start] = number;
    start + 1
}
