//! The rows of a node's distances, derived from those of its parent.

ghost use Rattle.std.specs.Prelude.{◌≡◌, ◌≢◌, ◌<◌, ◌≤◌, ◌+◌, ◌-◌, ◌*◌, ◌++◌, ◌∷◌, [], drop, length, pos, remove, slice_index, slice_index_or, take, ℕ, ⊤, MatchOption, OnOk};
ghost use Rattle.qap_cost.specs.Instance.{IsInstance, entry};
ghost use Rattle.gilmore_lawler.specs.FlowRows.{HasDistanceRows, HasLocationRows};
ghost use Rattle.gilmore_lawler.specs.Levels.{AreRowsAt};
ghost use Rattle.gilmore_lawler.specs.Order.{IsDescending};
ghost use Rattle.gilmore_lawler.specs.Table.{pair_with, segment};

use crate::factors::write_pair;
use crate::left_out::write_without;
use crate::side::{Side, entry_at, narrow};
use qap_cost::Instance;
use std::alloc::{AllocError, Global};

/// The rows of the distances where certain locations are taken, with these and the free ones.
#[derive(Drop)]
pub(crate) struct LocationRows {
    pub(crate) places: Vec<u16>,
    pub(crate) free: Vec<u16>,
    pub(crate) rows: Vec<i32>,
}

impl LocationRows {
    /// No rows, and no memory yet.
    pub(crate) fn new(alloc: Global) -> LocationRows {
        LocationRows {
            places: Vec::new(alloc),
            free: Vec::new(alloc),
            rows: Vec::new(alloc),
        }
    }

    /// No rows, with memory for those of any locations of an instance of this size.
    pub(crate) fn with_room(alloc: Global, size: usize) -> Result<LocationRows, AllocError>
        requires { size ≤ 256 }
    {
        Ok(LocationRows {
            places: Vec::with_capacity(alloc, size)?,
            free: Vec::with_capacity(alloc, size)?,
            rows: Vec::with_capacity(alloc, size * size + size)?,
        })
    }

    /// Makes `made` the rows where the free location of number `s` is taken too, with the locations.
    pub(crate) fn make_child(
        &self,
        instance: &Instance,
        s: usize,
        made: &mut LocationRows,
    ) -> Result<(), AllocError>
        requires instance { IsInstance instance.now }
        requires known { HasLocationRows instance.now self.now.places.items self.now.free.items self.now.rows.items }
        requires place { s < length self.now.free.items }
        ensures { OnOk result (AreRowsAt instance.now (self.now.places.items ++ slice_index self.now.free.items s ∷ []) made.new) }
    {
        list_with(&self.places, self.free[s], &mut made.places)?;
        list_without(&self.free, s, &mut made.free)?;
        let LocationRows { places, free, rows } = self;
        child_rows(instance, places, free, rows, s, &mut made.rows)
    }
}

/// Makes `numbers` these and one more after them.
pub(crate) fn list_with(those: &[u16], last: u16, numbers: &mut Vec<u16>) -> Result<(), AllocError>
    ensures { OnOk result (numbers.new.items ≡ those.now ++ last ∷ []) }
{
    numbers.clear();
    numbers.reserve(those.len() + 1)?;
    numbers.extend_from_slice(those)?;
    numbers.push(last)?;
    Ok(())
}

/// Makes `numbers` these but number `s` of them.
fn list_without(those: &[u16], s: usize, numbers: &mut Vec<u16>) -> Result<(), AllocError>
    requires { s < length those.now }
    ensures { OnOk result (numbers.new.items ≡ remove those.now s) }
{
    numbers.clear();
    numbers.extend_from_slice(those)?;
    numbers.remove(s);
    Ok(())
}

/// Which of the free locations is taken at these positions, where they are those that are taken and one more after
/// them.
pub(crate) fn place_behind(taken: &[u16], free: &[u16], places: &[u16]) -> Option<usize>
    ensures { MatchOption result ⊤ (λ s. (s < length free.now) × (places.now ≡ taken.now ++ slice_index free.now s ∷ [])) }
{
    let depth = taken.len();
    if places.len() <= depth || places.len() - depth != 1 {
        return None;
    }
    let before = &places[..depth];
    if *before == *taken {
        place_of(free, places[depth])
    } else {
        None
    }
}

/// Where the location is among these, which have it.
pub(crate) fn place_among(free: &[u16], location: u16) -> usize
    requires { (s : ℕ) × (s < length free.now) × (slice_index free.now s ≡ location) }
    ensures inside { result < length free.now }
    ensures value { slice_index free.now result ≡ location }
{
    match place_of(free, location) {
        Some(s) => s,
        None => unreachable!(),
    }
}

/// Where the number is among these.
fn place_of(numbers: &[u16], number: u16) -> Option<usize>
    ensures { MatchOption result ((s : ℕ) → s < length numbers.now → slice_index numbers.now s ≢ number) (λ s. (s < length numbers.now) × (slice_index numbers.now s ≡ number)) }
{
    for s in 0..numbers.len() {
        if numbers[s] == number {
            return Some(s);
        }
    }
    None
}

/// Makes `table` the rows of the distances where the free location of number `s` is taken too, from those where it is free.
pub(crate) fn child_rows(
    instance: &Instance,
    places: &[u16],
    free: &[u16],
    rows: &[i32],
    s: usize,
    table: &mut Vec<i32>,
) -> Result<(), AllocError>
    requires instance { IsInstance instance.now }
    requires known { HasLocationRows instance.now places.now free.now rows.now }
    requires place { s < length free.now }
    ensures { OnOk result (HasDistanceRows instance.now (places.now ++ slice_index free.now s ∷ []) table.new.items) }
{
    let count = (free.len() - 1) * (2 * places.len() + free.len() + 1);
    table.resize(count, 0)?;
    let end = fill_child_rows(instance, places, free, rows, s, table);
    table.truncate(end);
    Ok(())
}

/// Writes these rows from the front on, and returns the position after them.
fn fill_child_rows(
    instance: &Instance,
    places: &[u16],
    free: &[u16],
    rows: &[i32],
    s: usize,
    table: &mut [i32],
) -> usize
    requires instance { IsInstance instance.now }
    requires known { HasLocationRows instance.now places.now free.now rows.now }
    requires place { s < length free.now }
    requires room { length table.old ≡ (length free.now - 1) * (2 * length places.now + length free.now + 1) }
    ensures within { result ≤ length table.new }
    ensures rows { HasDistanceRows instance.now (places.now ++ slice_index free.now s ∷ []) (take result table.new) }
{
    let linear = 1 + 2 * places.len();
    let width = 2 * places.len() + free.len();
    let taken = free[s];
    let mut end = 0;
    for r in 0..free.len() - 1 {
        let from = behind_gap(s, r);
        let row = row_at(rows, width, free.len(), from);
        end = write_child_row(instance, free[from], taken, row, linear, table, end);
    }
    end
}

/// Row `q` of `count` rows of this width.
pub(crate) fn row_at(rows: &[i32], width: usize, count: usize, q: usize) -> &[i32]
    requires count { count ≤ 256 }
    requires width { width ≤ 512 }
    requires size { length rows.now ≡ count * width }
    requires inside { q < count }
    ensures row { result.now ≡ segment width rows.now q }
    ensures width { length result.now ≡ width }
{
    let start = q * width;
    &rows[start..start + width]
}

/// Number `r` of those other than `s`.
fn behind_gap(s: usize, r: usize) -> usize
    requires { r < 256 }
    ensures before { r < s → result ≡ r }
    ensures after { s ≤ r → result ≡ r + 1 }
{
    r + usize::from(r >= s)
}

/// Writes a free location's row where one more is taken, from that where this one is free, and returns the position
/// after it.
///
/// The first `linear` numbers stay, the pair with the location that is taken comes after them, and of those in order
/// its distance is left out.
fn write_child_row(
    instance: &Instance,
    own: u16,
    taken: u16,
    row: &[i32],
    linear: usize,
    numbers: &mut [i32],
    start: usize,
) -> usize
    requires own { own < instance.now.size }
    requires taken { taken < instance.now.size }
    requires linear { linear < length row.now }
    requires falls { IsDescending (drop linear row.now) }
    requires room { start + length row.now + 1 ≤ length numbers.old }
    ensures end { result ≡ start + length row.now + 1 }
    ensures count { length numbers.new ≡ length numbers.old }
    ensures written { (t : ℕ) → t < length (drop linear row.now) → slice_index_or (drop linear row.now) t (pos 0) ≡ entry instance.now.size instance.now.b own taken →
        take result numbers.new ≡ ((take start numbers.old ++ take linear row.now) ++ pair_with instance.now.size instance.now.b own taken) ++ remove (drop linear row.now) t }
{
    let i = usize::from(own);
    let k = usize::from(taken);
    let gone = narrow(entry_at(instance, Side::Distance, i, k));
    let first = write_all(&row[..linear], numbers, start);
    let second = write_pair(instance, Side::Distance, i, k, numbers, first);
    write_without(&row[linear..], gone, numbers, second)
}

/// Writes these numbers from this position on, and returns the position after them.
fn write_all(xs: &[i32], numbers: &mut [i32], start: usize) -> usize
    requires room { start + length xs.now ≤ length numbers.old }
    ensures end { result ≡ start + length xs.now }
    ensures count { length numbers.new ≡ length numbers.old }
    ensures written { take result numbers.new ≡ take start numbers.old ++ xs.now }
{
    for j in 0..xs.len() {
        numbers[start + j] = xs[j];
    }
    start + xs.len()
}
