//! The matrix of a child.

ghost use Rattle.std.specs.Prelude.{◌≡◌, ◌+◌, ◌-◌, ◌*◌, ◌<◌, length, map, remove, unsigned_abs, ◌≤◌, ◌^◌, IfOk, OnOk, ℕ, slice_index};
ghost use Rattle.pair_duals.specs.DualRow.{IsDualRow};
ghost use Rattle.pair_duals.specs.Filling.{FillsPart, FillsRows};
ghost use Rattle.pair_duals.specs.Shared.{beta_along, entry_from, entry_to};
ghost use Rattle.pair_duals.specs.Range.{IsInScale};
ghost use Rattle.pair_duals.specs.Reduced.{AreWithin, child_entry, count_of, past};

use crate::duals::PairDuals;
use crate::filling::write;
use crate::number::Number;
use crate::pairs::{left_of, scaled_entry};
use crate::reduced::Reduced;
use crate::residuals::Residuals;
use qap_cost::Instance;
use std::alloc::{AllocError, Global};
use std::mem::replace;

/// The numbers without that at place `h`, in the memory of a list.
pub fn without(mut list: Vec<u16>, numbers: &[u16], h: usize) -> Result<Vec<u16>, AllocError>
    requires { h < length numbers.now }
    ensures { IfOk result (λ v. v.items ≡ remove numbers.now h) }
{
    list.clear();
    list.extend_from_slice(&numbers[..h])?;
    list.extend_from_slice(&numbers[h + 1..])?;
    Ok(list)
}

/// For each column of a child what all entries there share: the entry of B that leads to the location of the placed
/// facility, the entry that leads back, and the dual of that facility for the column's location.
#[derive(Drop)]
pub struct Shared<N: Number> {
    pub there: Vec<i64>,
    pub back: Vec<i64>,
    pub own: Vec<N>,
}

impl<N: Number> Shared<N> {
    /// Of no columns. Allocates nothing.
    pub fn empty(alloc: Global) -> Shared<N> {
        Shared {
            there: Vec::new(alloc),
            back: Vec::new(alloc),
            own: Vec::new(alloc),
        }
    }
}

/// Writes the entries of B from the locations of columns to location number `l`.
fn write_entries_to<N: Number>(
    instance: &Instance,
    duals: &PairDuals<N>,
    columns: &[u16],
    l: usize,
    list: &mut [i64],
)
    requires size { instance.now.size ≡ duals.now.size }
    requires columns { (c : ℕ) → c < length columns.now → slice_index columns.now c < length duals.now.locations }
    requires l_in { l < length duals.now.locations }
    requires room { length list.old ≡ length columns.now }
    ensures { IsDualRow (10 ^ 9) (length columns.now) (entry_to instance.now duals.now columns.now l) list.new }
{
    let to = duals.location(l);
    for c in 0..columns.len() {
        list[c] = instance.b(duals.location(usize::from(columns[c])), to);
    }
}

/// Writes the entries of B from location number `l` to the locations of columns.
fn write_entries_from<N: Number>(
    instance: &Instance,
    duals: &PairDuals<N>,
    columns: &[u16],
    l: usize,
    list: &mut [i64],
)
    requires size { instance.now.size ≡ duals.now.size }
    requires columns { (c : ℕ) → c < length columns.now → slice_index columns.now c < length duals.now.locations }
    requires l_in { l < length duals.now.locations }
    requires room { length list.old ≡ length columns.now }
    ensures { IsDualRow (10 ^ 9) (length columns.now) (entry_from instance.now duals.now columns.now l) list.new }
{
    let from = duals.location(l);
    for c in 0..columns.len() {
        list[c] = instance.b(from, duals.location(usize::from(columns[c])));
    }
}

/// Writes the duals of facility number `j` at location number `l` for the locations of columns.
fn write_betas<N: Number>(duals: &PairDuals<N>, columns: &[u16], j: usize, l: usize, list: &mut [N])
    requires columns { (c : ℕ) → c < length columns.now → slice_index columns.now c < length duals.now.locations }
    requires j_in { j < length duals.now.facilities }
    requires l_in { l < length duals.now.locations }
    requires room { length list.old ≡ length columns.now }
    ensures { IsDualRow N.limits.dual (length columns.now) (beta_along duals.now columns.now j l) (map N.value list.new) }
{
    for c in 0..columns.len() {
        list[c] = duals.beta(j, l, usize::from(columns[c]));
    }
}

/// What the entries of each of the columns share where facility number `j` is put at location number `l`, in the memory
/// of another.
pub fn share_columns<N: Number>(
    shared: Shared<N>,
    instance: &Instance,
    duals: &PairDuals<N>,
    columns: &[u16],
    j: usize,
    l: usize,
) -> Result<Shared<N>, AllocError>
    requires size { instance.now.size ≡ duals.now.size }
    requires columns { (c : ℕ) → c < length columns.now → slice_index columns.now c < length duals.now.locations }
    requires j_in { j < length duals.now.facilities }
    requires l_in { l < length duals.now.locations }
    ensures there { IfOk result (λ s. IsDualRow (10 ^ 9) (length columns.now) (entry_to instance.now duals.now columns.now l) s.there.items) }
    ensures back { IfOk result (λ s. IsDualRow (10 ^ 9) (length columns.now) (entry_from instance.now duals.now columns.now l) s.back.items) }
    ensures own { IfOk result (λ s. IsDualRow N.limits.dual (length columns.now) (beta_along duals.now columns.now j l) (map N.value s.own.items)) }
{
    let Shared {
        mut there,
        mut back,
        mut own,
    } = shared;
    there.resize(columns.len(), 0)?;
    back.resize(columns.len(), 0)?;
    own.resize(columns.len(), N::narrow(0))?;
    write_entries_to(instance, duals, columns, l, &mut there);
    write_entries_from(instance, duals, columns, l, &mut back);
    write_betas(duals, columns, j, l, &mut own);
    Ok(Shared { there, back, own })
}

/// Residuals that are computed from the duals wherever they are read.
#[derive(Drop)]
pub struct ComputedResiduals<'a, N: Number> {
    pub instance: &'a Instance,
    pub duals: &'a PairDuals<N>,
}

impl<N: Number> Residuals<N> for ComputedResiduals<'_, N> {
    ghost problem = { λ s. s.instance.now };

    ghost duals = { λ s. s.duals.now };

    fn write_child(
        &self,
        shared: &mut Shared<N>,
        parent: &Reduced<N>,
        h: usize,
        g: usize,
        columns: &[u16],
        entries: &mut [N],
    ) -> Result<(), AllocError>
        requires row { h < count_of parent.now }
        requires column { g < count_of parent.now }
        requires columns { columns.now ≡ remove parent.now.columns g }
        requires size { self.now.instance.now.size ≡ self.now.duals.now.size }
        requires in_scale { IsInScale N.limits self.now.instance.now self.now.duals.now.scale }
        requires within { AreWithin self.now.duals.now parent.now.rows parent.now.columns }
        requires room { length entries.old ≡ (count_of parent.now - 1) * (count_of parent.now - 1) }
        ensures { OnOk result (FillsRows (count_of parent.now - 1) (child_entry self.now.instance.now self.now.duals.now parent.now.rows parent.now.columns parent.now.entries h g) (count_of parent.now - 1) (map N.value entries.old) (map N.value entries.new)) }
    {
        let alloc = *shared.there.allocator();
        let (j, l) = (
            usize::from(parent.rows()[h]),
            usize::from(parent.columns()[g]),
        );
        let old = replace(shared, Shared::empty(alloc));
        *shared = share_columns(old, self.instance, self.duals, columns, j, l)?;
        fill_child(self, parent, &(h, g), columns, shared, entries);
        Ok(())
    }
}

/// Writes the entries of the child of `parent` that puts a row at a column; `columns` are the child's.
fn fill_child<N: Number>(
    residuals: &ComputedResiduals<N>,
    parent: &Reduced<N>,
    seat: &(usize, usize),
    columns: &[u16],
    shared: &Shared<N>,
    entries: &mut [N],
)
    requires row { seat.now.0 < count_of parent.now }
    requires column { seat.now.1 < count_of parent.now }
    requires columns { columns.now ≡ remove parent.now.columns seat.now.1 }
    requires count { length columns.now + 1 ≡ count_of parent.now }
    requires size { residuals.now.instance.now.size ≡ residuals.now.duals.now.size }
    requires in_scale { IsInScale N.limits residuals.now.instance.now residuals.now.duals.now.scale }
    requires within { AreWithin residuals.now.duals.now parent.now.rows parent.now.columns }
    requires there { IsDualRow (10 ^ 9) (length columns.now) (entry_to residuals.now.instance.now residuals.now.duals.now columns.now (slice_index parent.now.columns seat.now.1)) shared.now.there.items }
    requires back { IsDualRow (10 ^ 9) (length columns.now) (entry_from residuals.now.instance.now residuals.now.duals.now columns.now (slice_index parent.now.columns seat.now.1)) shared.now.back.items }
    requires own { IsDualRow N.limits.dual (length columns.now) (beta_along residuals.now.duals.now columns.now (slice_index parent.now.rows seat.now.0) (slice_index parent.now.columns seat.now.1)) (map N.value shared.now.own.items) }
    requires room { length entries.old ≡ (count_of parent.now - 1) * (count_of parent.now - 1) }
    ensures { FillsRows (count_of parent.now - 1) (child_entry residuals.now.instance.now residuals.now.duals.now parent.now.rows parent.now.columns parent.now.entries seat.now.0 seat.now.1) (count_of parent.now - 1) (map N.value entries.old) (map N.value entries.new) }
{
    for r in 0..parent.free() - 1 {
        fill_child_row(residuals, parent, seat, columns, shared, r, entries);
    }
}

/// Writes row `r` of it.
fn fill_child_row<N: Number>(
    residuals: &ComputedResiduals<N>,
    parent: &Reduced<N>,
    seat: &(usize, usize),
    columns: &[u16],
    shared: &Shared<N>,
    r: usize,
    entries: &mut [N],
)
    requires row { seat.now.0 < count_of parent.now }
    requires column { seat.now.1 < count_of parent.now }
    requires columns { columns.now ≡ remove parent.now.columns seat.now.1 }
    requires count { length columns.now + 1 ≡ count_of parent.now }
    requires size { residuals.now.instance.now.size ≡ residuals.now.duals.now.size }
    requires in_scale { IsInScale N.limits residuals.now.instance.now residuals.now.duals.now.scale }
    requires within { AreWithin residuals.now.duals.now parent.now.rows parent.now.columns }
    requires there { IsDualRow (10 ^ 9) (length columns.now) (entry_to residuals.now.instance.now residuals.now.duals.now columns.now (slice_index parent.now.columns seat.now.1)) shared.now.there.items }
    requires back { IsDualRow (10 ^ 9) (length columns.now) (entry_from residuals.now.instance.now residuals.now.duals.now columns.now (slice_index parent.now.columns seat.now.1)) shared.now.back.items }
    requires own { IsDualRow N.limits.dual (length columns.now) (beta_along residuals.now.duals.now columns.now (slice_index parent.now.rows seat.now.0) (slice_index parent.now.columns seat.now.1)) (map N.value shared.now.own.items) }
    requires room { length entries.old ≡ (count_of parent.now - 1) * (count_of parent.now - 1) }
    requires r_in { r < count_of parent.now - 1 }
    ensures { FillsPart (count_of parent.now - 1) (child_entry residuals.now.instance.now residuals.now.duals.now parent.now.rows parent.now.columns parent.now.entries seat.now.0 seat.now.1) r (count_of parent.now - 1) (map N.value entries.old) (map N.value entries.new) }
{
    let (instance, duals) = (residuals.instance, residuals.duals);
    let (h, g) = *seat;
    let m = parent.free() - 1;
    let row = past(h, r);
    let rows = parent.rows();
    let (i, j) = (usize::from(rows[row]), usize::from(rows[h]));
    let l = usize::from(parent.columns()[g]);
    let (facility, other) = (duals.facility(i), duals.facility(j));
    let a_there = scaled_entry(duals.scale(), instance.a(facility, other));
    let a_back = scaled_entry(duals.scale(), instance.a(other, facility));
    let (alpha, beta) = (duals.alpha_row(i, j), duals.beta_row(i, l));
    let own = duals.alpha(j, l, i);
    let (there, back, owns): (&[i64], &[i64], &[N]) = (&shared.there, &shared.back, &shared.own);
    for c in 0..m {
        let k = usize::from(columns[c]);
        let left = left_of(
            a_there,
            there[c],
            a_back,
            back[c],
            alpha[k].plus(beta[k]),
            own.plus(owns[c]),
        );
        let column = past(g, c);
        write(entries, m, r, c, parent.entry(row, column).plus(left));
    }
}

/// The number, among all, of the one of number `k` among those other than `h`.
pub fn past(h: usize, k: usize) -> usize
    requires { k < 256 }
    ensures value { result ≡ past h k }
    ensures within { result ≤ k + 1 }
{
    if k < h { k } else { k + 1 }
}
