//! The rows of the two matrices, each sorted.

ghost use Rattle.std.specs.Prelude.{◌≡◌, ◌+◌, ◌<◌, ◌≤◌, ◌++◌, IfOk, OnOk, length, map, take};
ghost use Rattle.std.specs.List.{All, range_with_len};
ghost use Rattle.std.specs.List.Sorted.{IsPermutation};
ghost use Rattle.gilmore_lawler.specs.Ranking.{IsRanking, IsRankings, entry_with_column, is_other, others_in, values_of};
ghost use Rattle.gilmore_lawler.specs.Table.{IsOrdered, matrix_of};

use crate::side::{Side, narrow, row_of};
use qap_cost::Instance;
use std::alloc::{AllocError, Global};

/// An entry of a row, with its column.
#[derive(Clone, Copy)]
pub struct Ranked {
    pub value: i32,
    pub column: u16,
}

/// The rows of that matrix in sequence, each in order of its entries: flows ascend, distances descend.
pub fn ranked_rows(
    alloc: Global,
    instance: &Instance,
    side: Side,
) -> Result<Vec<Ranked>, AllocError>
    ensures { IfOk result (λ v. IsRankings instance.now side v.items) }
{
    let n = instance.size();
    let mut rows = Vec::with_capacity(alloc, n * n)?;
    let mut row = Vec::with_capacity(alloc, n)?;
    for i in 0..n {
        rank_row(instance, side, i, &mut row)?;
        rows.extend_from_slice(&row)?;
    }
    Ok(rows)
}

/// Makes `row` the entries of row `i` in order.
fn rank_row(
    instance: &Instance,
    side: Side,
    i: usize,
    row: &mut Vec<Ranked>,
) -> Result<(), AllocError>
    requires { i < instance.now.size }
    ensures { OnOk result (IsRanking instance.now side i row.new.items) }
{
    row.clear();
    push_entries(instance, side, i, row)?;
    sort_entries(side, row);
    Ok(())
}

/// Adds the entries of row `i`.
fn push_entries(
    instance: &Instance,
    side: Side,
    i: usize,
    row: &mut Vec<Ranked>,
) -> Result<(), AllocError>
    requires { i < instance.now.size }
    ensures { OnOk result (row.new.items ≡ row.old.items ++ map (entry_with_column instance.now.size (matrix_of instance.now side) i) (range_with_len 0 instance.now.size)) }
{
    let n = instance.size();
    let entries = row_of(instance, side, i);
    for j in 0..n {
        row.push(Ranked {
            value: narrow(entries[j]),
            column: j as u16,
        })?;
    }
    Ok(())
}

/// Puts flows in ascending and distances in descending order.
fn sort_entries(side: Side, row: &mut [Ranked])
    ensures moved { IsPermutation row.old row.new }
    ensures ordered { IsOrdered side (values_of row.new) }
{
    row.sort_unstable_by_key(|entry| entry.value);
    match side {
        Side::Flow => {}
        Side::Distance => row.reverse(),
    }
}

/// The ranking of row `i`.
pub fn ranking_of<'a>(
    instance: &Instance,
    side: Side,
    rankings: &'a [Ranked],
    i: usize,
) -> &'a [Ranked]
    requires row { i < instance.now.size }
    requires rankings { IsRankings instance.now side rankings.now }
    ensures ranking { IsRanking instance.now side i result.now }
    ensures columns { All (λ x. x.column < 256) result.now }
    ensures count { length result.now ≡ instance.now.size }
{
    let n = instance.size();
    let start = i * n;
    &rankings[start..start + n]
}

/// Writes the values of a row in order, except those in column `own` and in columns that are not free, from this
/// position on, and returns the position after them. What follows has no meaning.
///
/// Each value is written, but the position only advances if it belongs there, so that no branch waits for the test.
pub fn pick_others(
    row: &[Ranked],
    is_free: &[bool],
    own: u16,
    numbers: &mut [i32],
    start: usize,
) -> usize
    requires columns { All (λ x. x.column < length is_free.now) row.now }
    requires room { start + length row.now ≤ length numbers.old }
    ensures count { length numbers.new ≡ length numbers.old }
    ensures within { result ≤ length numbers.new }
    ensures picked { take result numbers.new ≡ take start numbers.old ++ others_in is_free.now own row.now }
{
    let mut place = start;
    for entry in row {
        numbers[place] = entry.value;
        place += usize::from(is_other(entry, is_free, own));
    }
    place
}

/// Whether an entry is in a free column other than this one.
fn is_other(entry: &Ranked, is_free: &[bool], own: u16) -> bool
    requires { entry.now.column < length is_free.now }
    ensures { result ≡ is_other is_free.now own entry.now }
{
    (entry.column != own) & is_free[usize::from(entry.column)]
}
