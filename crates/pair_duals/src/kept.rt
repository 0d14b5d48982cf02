//! Residuals of pairs that are kept in a table.

ghost use Rattle.std.specs.Prelude.{◌≡◌, ◌+◌, ◌-◌, ◌*◌, ◌^◌, ◌<◌, ◌≤◌, length, map, remove, slice_index, IfOk, OnOk};
ghost use Rattle.qap_cost.specs.Instance.{entry};
ghost use Rattle.pair_duals.specs.DualRow.{IsDualRow};
ghost use Rattle.pair_duals.specs.Filling.{FillsPart, FillsRows};
ghost use Rattle.pair_duals.specs.Kept.{AreKept, kept_row};
ghost use Rattle.pair_duals.specs.PairDuals.{AreDuals, cube, residual};
ghost use Rattle.pair_duals.specs.Range.{IsInScale};
ghost use Rattle.pair_duals.specs.Reduced.{AreWithin, child_entry, count_of};
ghost use Rattle.pair_duals.specs.Shared.{beta_along, entry_from, entry_to};
ghost use Rattle.pair_duals.specs.Start.{AreFirst};

use crate::child::{Shared, past, share_columns};
use crate::duals::PairDuals;
use crate::filling::{put, write};
use crate::number::Number;
use crate::pairs::{left_of, scaled_entry};
use crate::reduced::Reduced;
use crate::residuals::Residuals;
use crate::start::first_numbers;
use qap_cost::Instance;
use std::alloc::{AllocError, Global};
use std::marker::Model;
use std::mem::replace;

/// The memory of kept residuals: `m^4` numbers for `m` free facilities.
#[derive(Drop)]
pub struct ResidualMemory<N: Number> {
    table: Vec<N>,
    columns: Vec<u16>,
    shared: Shared<N>,
}

impl<N: Number> ResidualMemory<N> {
    /// That of no residuals. Allocates nothing.
    pub fn empty(alloc: Global) -> ResidualMemory<N> {
        ResidualMemory {
            table: Vec::new(alloc),
            columns: Vec::new(alloc),
            shared: Shared::empty(alloc),
        }
    }
}

/// Residuals that are kept in a table of `m^4` numbers for `m` free facilities: `E(i, k, j, l)` is in row
/// `(j m + l) m + i`, column `k`, so that a child that puts facility `j` at location `l` reads one block of the table.
///
/// A child takes less time than from residuals that are computed, and filling the table takes as long as some `m^2`
/// children of the node that the pair duals belong to.
#[derive(Drop)]
pub struct KeptResiduals<'a, N: Number> {
    instance: &'a Instance,
    duals: &'a PairDuals<N>,
    memory: ResidualMemory<N>,
}

impl<'a, N: Number> Model for KeptResiduals<'a, N> {
    ghost use Rattle.std.specs.Prelude.{length, map};
    ghost use Rattle.pair_duals.specs.PairDuals.{cube};
    ghost use Rattle.pair_duals.specs.Kept.{AreKept, Kept};

    ghost Value = { Kept };

    ghost view = { λ s. record { problem = s.instance.now; duals = s.duals.now } };

    ghost invariant = { λ s. AreKept s.instance.now s.duals.now (cube (length s.duals.now.facilities)) (map N.value s.memory.table.items) };
}

impl<'a, N: Number> KeptResiduals<'a, N> {
    /// The residuals of an instance under pair duals. An error says that memory ran out.
    pub fn new(
        alloc: Global,
        instance: &'a Instance,
        duals: &'a PairDuals<N>,
    ) -> Result<KeptResiduals<'a, N>, AllocError>
        requires size { instance.now.size ≡ duals.now.size }
        requires in_scale { IsInScale N.limits instance.now duals.now.scale }
        ensures { IfOk result (λ kept. kept ≡ record { problem = instance.now; duals = duals.now }) }
    {
        KeptResiduals::fill(ResidualMemory::empty(alloc), instance, duals)
    }

    /// The same in memory that others used: nothing is allocated if it suffices. If memory runs out, it is freed.
    pub fn fill(
        memory: ResidualMemory<N>,
        instance: &'a Instance,
        duals: &'a PairDuals<N>,
    ) -> Result<KeptResiduals<'a, N>, AllocError>
        requires size { instance.now.size ≡ duals.now.size }
        requires in_scale { IsInScale N.limits instance.now duals.now.scale }
        ensures { IfOk result (λ kept. kept ≡ record { problem = instance.now; duals = duals.now }) }
    {
        let ResidualMemory {
            mut table,
            columns,
            mut shared,
        } = memory;
        let m = duals.free();
        let columns = first_numbers(columns, m)?;
        table.resize(m * m * m * m, N::narrow(0))?;
        keep_all(instance, duals, &columns, &mut shared, &mut table)?;
        let memory = ResidualMemory {
            table,
            columns,
            shared,
        };
        Ok(KeptResiduals {
            instance,
            duals,
            memory,
        })
    }

    /// Their memory, for other residuals.
    pub fn into_memory(self) -> ResidualMemory<N> {
        self.memory
    }

    /// The residuals of facility number `i` at each location with facility number `j` at location number `l`.
    fn row(&self, i: usize, j: usize, l: usize) -> &[N]
        requires size { self.now.problem.size ≡ self.now.duals.size }
        requires in_scale { IsInScale N.limits self.now.problem self.now.duals.scale }
        requires i_in { i < length self.now.duals.facilities }
        requires j_in { j < length self.now.duals.facilities }
        requires l_in { l < length self.now.duals.locations }
        ensures row { IsDualRow N.limits.pair (length self.now.duals.facilities) (λ k. residual self.now.problem self.now.duals i k j l) (map N.value result.now) }
        ensures count { length self.now.duals.locations ≡ length self.now.duals.facilities }
    {
        let _ = self.duals.free();
        row_of_table(self.instance, self.duals, &self.memory.table, &(i, j, l))
    }
}

/// Where the row of facility number `i` with facility number `j` at location number `l` begins in a table for `m` free
/// facilities.
fn start_of_row(m: usize, i: usize, j: usize, l: usize) -> usize
    requires small { m ≤ 256 }
    requires i_in { i < m }
    requires j_in { j < m }
    requires l_in { l < m }
    ensures value { result ≡ kept_row m i j l * m }
    ensures within { result + m ≤ cube m * m }
    ensures small { cube m * m ≤ 2 ^ 32 }
{
    ((j * m + l) * m + i) * m
}

/// Such a row.
fn row_of_table<'t, N: Number>(
    instance: &Instance,
    duals: &PairDuals<N>,
    table: &'t [N],
    pair: &(usize, usize, usize),
) -> &'t [N]
    requires size { instance.now.size ≡ duals.now.size }
    requires in_scale { IsInScale N.limits instance.now duals.now.scale }
    requires i_in { pair.now.0 < length duals.now.facilities }
    requires j_in { pair.now.1 < length duals.now.facilities }
    requires l_in { pair.now.2 < length duals.now.facilities }
    requires kept { AreKept instance.now duals.now (cube (length duals.now.facilities)) (map N.value table.now) }
    ensures { IsDualRow N.limits.pair (length duals.now.facilities) (λ k. residual instance.now duals.now pair.now.0 k pair.now.1 pair.now.2) (map N.value result.now) }
{
    let (i, j, l) = *pair;
    let m = duals.free();
    let start = start_of_row(m, i, j, l);
    &table[start..start + m]
}

/// Writes the residuals of all pairs.
fn keep_all<N: Number>(
    instance: &Instance,
    duals: &PairDuals<N>,
    columns: &[u16],
    shared: &mut Shared<N>,
    table: &mut [N],
) -> Result<(), AllocError>
    requires size { instance.now.size ≡ duals.now.size }
    requires in_scale { IsInScale N.limits instance.now duals.now.scale }
    requires columns { AreFirst (length duals.now.facilities) columns.now }
    requires room { length table.old ≡ cube (length duals.now.facilities) * length duals.now.facilities }
    ensures { OnOk result (AreKept instance.now duals.now (cube (length duals.now.facilities)) (map N.value table.new)) }
{
    for j in 0..duals.free() {
        keep_facility(instance, duals, columns, j, shared, table)?;
    }
    Ok(())
}

/// Writes those of all pairs with facility number `j`, which follow those of the facilities before it.
fn keep_facility<N: Number>(
    instance: &Instance,
    duals: &PairDuals<N>,
    columns: &[u16],
    j: usize,
    shared: &mut Shared<N>,
    table: &mut [N],
) -> Result<(), AllocError>
    requires size { instance.now.size ≡ duals.now.size }
    requires in_scale { IsInScale N.limits instance.now duals.now.scale }
    requires columns { AreFirst (length duals.now.facilities) columns.now }
    requires j_in { j < length duals.now.facilities }
    requires before { AreKept instance.now duals.now (kept_row (length duals.now.facilities) 0 j 0) (map N.value table.old) }
    ensures { OnOk result (AreKept instance.now duals.now (kept_row (length duals.now.facilities) 0 (j + 1) 0) (map N.value table.new)) }
{
    for l in 0..duals.free() {
        keep_block(instance, duals, columns, &(j, l), shared, table)?;
    }
    Ok(())
}

/// Writes those of all pairs with a facility at a location, which follow those of its other locations.
fn keep_block<N: Number>(
    instance: &Instance,
    duals: &PairDuals<N>,
    columns: &[u16],
    seat: &(usize, usize),
    shared: &mut Shared<N>,
    table: &mut [N],
) -> Result<(), AllocError>
    requires size { instance.now.size ≡ duals.now.size }
    requires in_scale { IsInScale N.limits instance.now duals.now.scale }
    requires duals { AreDuals N.limits duals.now }
    requires columns { AreFirst (length duals.now.facilities) columns.now }
    requires j_in { seat.now.0 < length duals.now.facilities }
    requires l_in { seat.now.1 < length duals.now.facilities }
    requires before { AreKept instance.now duals.now (kept_row (length duals.now.facilities) 0 seat.now.0 seat.now.1) (map N.value table.old) }
    ensures { OnOk result (AreKept instance.now duals.now (kept_row (length duals.now.facilities) 0 seat.now.0 (seat.now.1 + 1)) (map N.value table.new)) }
{
    let alloc = *shared.there.allocator();
    let (j, l) = *seat;
    let old = replace(shared, Shared::empty(alloc));
    *shared = share_columns(old, instance, duals, columns, j, l)?;
    keep_rows(instance, duals, columns, seat, shared, table);
    Ok(())
}

/// Writes the rows of such a block.
fn keep_rows<N: Number>(
    instance: &Instance,
    duals: &PairDuals<N>,
    columns: &[u16],
    seat: &(usize, usize),
    shared: &Shared<N>,
    table: &mut [N],
)
    requires size { instance.now.size ≡ duals.now.size }
    requires in_scale { IsInScale N.limits instance.now duals.now.scale }
    requires columns { AreFirst (length duals.now.facilities) columns.now }
    requires j_in { seat.now.0 < length duals.now.facilities }
    requires l_in { seat.now.1 < length duals.now.facilities }
    requires there { IsDualRow (10 ^ 9) (length columns.now) (entry_to instance.now duals.now columns.now seat.now.1) shared.now.there.items }
    requires back { IsDualRow (10 ^ 9) (length columns.now) (entry_from instance.now duals.now columns.now seat.now.1) shared.now.back.items }
    requires own { IsDualRow N.limits.dual (length columns.now) (beta_along duals.now columns.now seat.now.0 seat.now.1) (map N.value shared.now.own.items) }
    requires before { AreKept instance.now duals.now (kept_row (length duals.now.facilities) 0 seat.now.0 seat.now.1) (map N.value table.old) }
    ensures { AreKept instance.now duals.now (kept_row (length duals.now.facilities) 0 seat.now.0 (seat.now.1 + 1)) (map N.value table.new) }
{
    let (j, l) = *seat;
    for i in 0..duals.free() {
        keep_row(instance, duals, columns, &(i, j, l), shared, table);
    }
}

/// Writes a row of such a block: those of a facility before `j` have been written in its own rows.
fn keep_row<N: Number>(
    instance: &Instance,
    duals: &PairDuals<N>,
    columns: &[u16],
    pair: &(usize, usize, usize),
    shared: &Shared<N>,
    table: &mut [N],
)
    requires size { instance.now.size ≡ duals.now.size }
    requires in_scale { IsInScale N.limits instance.now duals.now.scale }
    requires columns { AreFirst (length duals.now.facilities) columns.now }
    requires i_in { pair.now.0 < length duals.now.facilities }
    requires j_in { pair.now.1 < length duals.now.facilities }
    requires l_in { pair.now.2 < length duals.now.facilities }
    requires there { IsDualRow (10 ^ 9) (length columns.now) (entry_to instance.now duals.now columns.now pair.now.2) shared.now.there.items }
    requires back { IsDualRow (10 ^ 9) (length columns.now) (entry_from instance.now duals.now columns.now pair.now.2) shared.now.back.items }
    requires own { IsDualRow N.limits.dual (length columns.now) (beta_along duals.now columns.now pair.now.1 pair.now.2) (map N.value shared.now.own.items) }
    requires before { AreKept instance.now duals.now (kept_row (length duals.now.facilities) pair.now.0 pair.now.1 pair.now.2) (map N.value table.old) }
    ensures { FillsPart (length duals.now.facilities) (λ _ k. residual instance.now duals.now pair.now.0 k pair.now.1 pair.now.2) (kept_row (length duals.now.facilities) pair.now.0 pair.now.1 pair.now.2) (length duals.now.facilities) (map N.value table.old) (map N.value table.new) }
{
    if pair.0 < pair.1 {
        copy_row(duals.free(), pair, table);
    } else {
        compute_row(instance, duals, columns, pair, shared, table);
    }
}

/// Copies the row of a facility `i` with a later one `j`, at location number `l`, from the rows of `j` with `i`.
fn copy_row<N: Number>(m: usize, pair: &(usize, usize, usize), table: &mut [N])
    requires small { m ≤ 256 }
    requires earlier { pair.now.0 < pair.now.1 }
    requires j_in { pair.now.1 < m }
    requires l_in { pair.now.2 < m }
    requires room { length table.old ≡ cube m * m }
    ensures { FillsPart m (λ _ k. entry m (map N.value table.old) (kept_row m pair.now.1 pair.now.0 k) pair.now.2) (kept_row m pair.now.0 pair.now.1 pair.now.2) m (map N.value table.old) (map N.value table.new) }
{
    let (i, j, l) = *pair;
    let start = start_of_row(m, i, j, l);
    for k in 0..m {
        let from = start_of_row(m, j, i, k) + l;
        let number = table[from];
        put(table, start + k, number);
    }
}

/// Computes the residuals of facility number `i` with facility number `j` at location number `l`.
fn compute_row<N: Number>(
    instance: &Instance,
    duals: &PairDuals<N>,
    columns: &[u16],
    pair: &(usize, usize, usize),
    shared: &Shared<N>,
    table: &mut [N],
)
    requires size { instance.now.size ≡ duals.now.size }
    requires in_scale { IsInScale N.limits instance.now duals.now.scale }
    requires columns { AreFirst (length duals.now.facilities) columns.now }
    requires i_in { pair.now.0 < length duals.now.facilities }
    requires j_in { pair.now.1 < length duals.now.facilities }
    requires l_in { pair.now.2 < length duals.now.facilities }
    requires there { IsDualRow (10 ^ 9) (length columns.now) (entry_to instance.now duals.now columns.now pair.now.2) shared.now.there.items }
    requires back { IsDualRow (10 ^ 9) (length columns.now) (entry_from instance.now duals.now columns.now pair.now.2) shared.now.back.items }
    requires own { IsDualRow N.limits.dual (length columns.now) (beta_along duals.now columns.now pair.now.1 pair.now.2) (map N.value shared.now.own.items) }
    requires room { length table.old ≡ cube (length duals.now.facilities) * length duals.now.facilities }
    ensures { FillsPart (length duals.now.facilities) (λ _ k. residual instance.now duals.now pair.now.0 k pair.now.1 pair.now.2) (kept_row (length duals.now.facilities) pair.now.0 pair.now.1 pair.now.2) (length duals.now.facilities) (map N.value table.old) (map N.value table.new) }
{
    let (i, j, l) = *pair;
    let (facility, other) = (duals.facility(i), duals.facility(j));
    let a_there = scaled_entry(duals.scale(), instance.a(facility, other));
    let a_back = scaled_entry(duals.scale(), instance.a(other, facility));
    let (alpha, beta) = (duals.alpha_row(i, j), duals.beta_row(i, l));
    let own = duals.alpha(j, l, i);
    let (there, back, owns): (&[i64], &[i64], &[N]) = (&shared.there, &shared.back, &shared.own);
    let m = duals.free();
    let start = start_of_row(m, i, j, l);
    for k in 0..m {
        let left = left_of(
            a_there,
            there[k],
            a_back,
            back[k],
            alpha[k].plus(beta[k]),
            own.plus(owns[k]),
        );
        put(table, start + k, left);
    }
}

impl<N: Number> Residuals<N> for KeptResiduals<'_, N> {
    ghost problem = { λ s. s.problem };

    ghost duals = { λ s. s.duals };

    fn write_child(
        &self,
        _shared: &mut Shared<N>,
        parent: &Reduced<N>,
        h: usize,
        g: usize,
        columns: &[u16],
        entries: &mut [N],
    ) -> Result<(), AllocError>
        requires row { h < count_of parent.now }
        requires column { g < count_of parent.now }
        requires columns { columns.now ≡ remove parent.now.columns g }
        requires size { self.now.problem.size ≡ self.now.duals.size }
        requires in_scale { IsInScale N.limits self.now.problem self.now.duals.scale }
        requires within { AreWithin self.now.duals parent.now.rows parent.now.columns }
        requires room { length entries.old ≡ (count_of parent.now - 1) * (count_of parent.now - 1) }
        ensures { OnOk result (FillsRows (count_of parent.now - 1) (child_entry self.now.problem self.now.duals parent.now.rows parent.now.columns parent.now.entries h g) (count_of parent.now - 1) (map N.value entries.old) (map N.value entries.new)) }
    {
        add_kept(self, parent, &(h, g), columns, entries);
        Ok(())
    }
}

/// Writes the entries of the child of `parent` that puts a row at a column; `columns` are the child's.
fn add_kept<N: Number>(
    kept: &KeptResiduals<N>,
    parent: &Reduced<N>,
    seat: &(usize, usize),
    columns: &[u16],
    entries: &mut [N],
)
    requires row { seat.now.0 < count_of parent.now }
    requires column { seat.now.1 < count_of parent.now }
    requires columns { columns.now ≡ remove parent.now.columns seat.now.1 }
    requires size { kept.now.problem.size ≡ kept.now.duals.size }
    requires in_scale { IsInScale N.limits kept.now.problem kept.now.duals.scale }
    requires within { AreWithin kept.now.duals parent.now.rows parent.now.columns }
    requires room { length entries.old ≡ (count_of parent.now - 1) * (count_of parent.now - 1) }
    ensures { FillsRows (count_of parent.now - 1) (child_entry kept.now.problem kept.now.duals parent.now.rows parent.now.columns parent.now.entries seat.now.0 seat.now.1) (count_of parent.now - 1) (map N.value entries.old) (map N.value entries.new) }
{
    for r in 0..parent.free() - 1 {
        add_kept_row(kept, parent, seat, columns, r, entries);
    }
}

/// Writes row `r` of it.
fn add_kept_row<N: Number>(
    kept: &KeptResiduals<N>,
    parent: &Reduced<N>,
    seat: &(usize, usize),
    columns: &[u16],
    r: usize,
    entries: &mut [N],
)
    requires row { seat.now.0 < count_of parent.now }
    requires column { seat.now.1 < count_of parent.now }
    requires columns { columns.now ≡ remove parent.now.columns seat.now.1 }
    requires size { kept.now.problem.size ≡ kept.now.duals.size }
    requires in_scale { IsInScale N.limits kept.now.problem kept.now.duals.scale }
    requires within { AreWithin kept.now.duals parent.now.rows parent.now.columns }
    requires room { length entries.old ≡ (count_of parent.now - 1) * (count_of parent.now - 1) }
    requires r_in { r < count_of parent.now - 1 }
    ensures { FillsPart (count_of parent.now - 1) (child_entry kept.now.problem kept.now.duals parent.now.rows parent.now.columns parent.now.entries seat.now.0 seat.now.1) r (count_of parent.now - 1) (map N.value entries.old) (map N.value entries.new) }
{
    let (h, g) = *seat;
    let m = parent.free() - 1;
    let row = past(h, r);
    let rows = parent.rows();
    let (i, j) = (usize::from(rows[row]), usize::from(rows[h]));
    let l = usize::from(parent.columns()[g]);
    let (own, left) = (parent.row(row), kept.row(i, j, l));
    for c in 0..m {
        let k = usize::from(columns[c]);
        let column = past(g, c);
        write(entries, m, r, c, own[column].plus(left[k]));
    }
}
