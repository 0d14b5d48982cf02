//! The reduced form of a node: a number and a matrix that, with pair duals, give the cost of each completion.

ghost use Rattle.std.specs.Prelude.{◌≡◌, ◌+◌, ◌<◌, ◌↔◌, [], ℕ, ℤ, pos, ◌+ℤ◌, ◌<ℤ◌, ◌*◌, ◌≤◌, false, length, map, unsigned_abs, IfOk, IsTrue, OnErr, OnOk};
ghost use Rattle.qap_cost.specs.Instance.{Problem, entry};
ghost use Rattle.qap_cost.specs.Matrix.{total};
ghost use Rattle.qap_cost.specs.Placement.{Placement, IsPlacement};
ghost use Rattle.qap_cost.specs.Range.{AllWithin};
ghost use Rattle.pair_duals.specs.DualRow.{IsDualRow};
ghost use Rattle.pair_duals.specs.PairDuals.{Duals, AreDuals, AreOf};
ghost use Rattle.pair_duals.specs.Range.{IsInReach, IsInScale};
ghost use Rattle.pair_duals.specs.Seats.{child_at};
ghost use Rattle.pair_duals.specs.Reduced.{Form, AreLeast, AreLeastOfRows, AreWithin, IsChild, IsFormOf, IsLine, IsNonNegative, IsStart, at, count_of, empty_form};

use crate::child::{ComputedResiduals, Shared, without};
use crate::duals::PairDuals;
use crate::least::{least_of_columns, least_of_rows, sum, take_both};
use crate::number::Number;
use crate::residuals::Residuals;
use crate::start::{first_numbers, start_entries};
use qap_cost::{Instance, Partial};
use std::alloc::{AllocError, Global};
use std::marker::Model;
use std::mem::replace;

/// The reduced form of a node below the one that pair duals belong to: a value `z` and a matrix `R` with a row for each free
/// facility and a column for each free location. Each completion `p` of the node costs, scaled, `z` and the entries
/// `R(i, p(i))` and what the duals leave of the pairs of free facilities.
#[derive(Drop)]
pub struct Reduced<N: Number> {
    value: i128,
    rows: Vec<u16>,
    columns: Vec<u16>,
    entries: Vec<N>,
    depth: usize,
    is_lined: bool,
    shared: Shared<N>,
}

impl<N: Number> Model for Reduced<N> {
    ghost Value = { Form };

    ghost view = { λ s. record { value = s.value; rows = s.rows.items; columns = s.columns.items; entries = map N.value s.entries.items; depth = s.depth; is_lined = s.is_lined } };

    ghost invariant = { λ s. IsInReach N.limits (record { value = s.value; rows = s.rows.items; columns = s.columns.items; entries = map N.value s.entries.items; depth = s.depth; is_lined = s.is_lined }) };
}

impl<N: Number> Reduced<N> {
    /// The form with no rows, which has room for none. Allocates nothing.
    pub fn empty(alloc: Global) -> Reduced<N>
        ensures { result ≡ empty_form }
    {
        Reduced {
            value: 0,
            rows: Vec::new(alloc),
            columns: Vec::new(alloc),
            entries: Vec::new(alloc),
            depth: 0,
            is_lined: false,
            shared: Shared::empty(alloc),
        }
    }

    /// The value: if the pair duals fit and no entry is negative, no completion costs less, scaled.
    pub fn value(&self) -> i128
        ensures value { result ≡ self.now.value }
        ensures reach { IsInReach N.limits self.now }
    {
        self.value
    }

    /// The number of rows, and of columns.
    pub fn free(&self) -> usize
        ensures value { result ≡ count_of self.now }
        ensures reach { IsInReach N.limits self.now }
    {
        self.rows.len()
    }

    /// For each row the number of its facility among those of the pair duals.
    pub fn rows(&self) -> &[u16]
        ensures value { result.now ≡ self.now.rows }
        ensures reach { IsInReach N.limits self.now }
    {
        &self.rows
    }

    /// For each column the number of its location among those of the pair duals.
    pub fn columns(&self) -> &[u16]
        ensures value { result.now ≡ self.now.columns }
        ensures reach { IsInReach N.limits self.now }
    {
        &self.columns
    }

    /// Whether a line has been drawn at the node.
    pub fn is_lined(&self) -> bool
        ensures { result ≡ self.now.is_lined }
    {
        self.is_lined
    }

    /// Row `r`, column `c`.
    pub fn entry(&self, r: usize, c: usize) -> N
        requires row { r < count_of self.now }
        requires column { c < count_of self.now }
        ensures { N.value result ≡ at self.now r c }
    {
        self.entries[r * self.rows.len() + c]
    }

    /// The entries, by rows.
    pub fn entries(&self) -> &[N]
        ensures { map N.value result.now ≡ self.now.entries }
    {
        &self.entries
    }

    /// Row `r`.
    pub(crate) fn row(&self, r: usize) -> &[N]
        requires { r < count_of self.now }
        ensures { IsDualRow N.limits.reach (count_of self.now) (at self.now r) (map N.value result.now) }
    {
        let m = self.free();
        row_of_square(&self.entries, m, r)
    }

    /// Makes this the form of the node to which the pair duals belong, in its own memory if that suffices. If memory
    /// runs out, it is the form with no rows.
    pub fn start(
        &mut self,
        instance: &Instance,
        node: &Partial,
        duals: &PairDuals<N>,
    ) -> Result<(), AllocError>
        requires node { IsPlacement node.now }
        requires size { instance.now.size ≡ node.now.size }
        requires duals { AreOf node.now duals.now }
        requires in_scale { IsInScale N.limits instance.now duals.now.scale }
        ensures start { OnOk result (IsStart instance.now duals.now node.now self.new) }
        ensures form { OnOk result (IsFormOf instance.now duals.now node.now self.new) }
        ensures refused { OnErr result (self.new ≡ empty_form) }
    {
        let alloc = *self.rows.allocator();
        let Reduced {
            rows,
            columns,
            entries,
            shared,
            ..
        } = replace(self, Reduced::empty(alloc));
        let rows = first_numbers(rows, duals.free())?;
        let columns = first_numbers(columns, duals.free())?;
        let entries = start_entries(entries, instance, node, duals)?;
        let value = i128::from(duals.scale()) * node.fixed_cost(instance);
        *self = Reduced {
            value,
            rows,
            columns,
            entries,
            depth: 0,
            is_lined: false,
            shared,
        };
        Ok(())
    }

    /// Subtracts `u[r]` from each row, then each column's minimum from it, and adds all these numbers to the value;
    /// then no entry is negative. Writes the numbers of the columns to `v`.
    ///
    /// A line is applied once per node, which keeps the entries within their range at any depth.
    pub fn line(&mut self, u: &[N], v: &mut [N])
        requires first { self.old.is_lined ≡ false }
        requires rows { length u.now ≡ count_of self.old }
        requires columns { length v.old ≡ count_of self.old }
        requires range { AllWithin N.limits.dual (map N.value u.now) }
        ensures line { IsLine self.old self.new (map N.value u.now) (map N.value v.new) }
        ensures least { IsNonNegative self.new }
        ensures form { (I : Problem) (D : Duals) (y : Placement) → IsPlacement y → IsFormOf I D y self.old → IsFormOf I D y self.new }
    {
        least_of_columns(&self.entries, u, v);
        take_both(&mut self.entries, u, v);
        self.value += sum(u) + sum(v);
        self.is_lined = true;
    }

    /// Makes `child` the form of the child that puts row `h` at column `g`, in the memory of `child` if that suffices.
    /// If memory runs out, `child` is the form with no rows. The residuals of pairs are computed from the duals.
    pub fn child(
        &self,
        instance: &Instance,
        duals: &PairDuals<N>,
        h: usize,
        g: usize,
        child: &mut Reduced<N>,
    ) -> Result<(), AllocError>
        requires row { h < count_of self.now }
        requires column { g < count_of self.now }
        requires size { instance.now.size ≡ duals.now.size }
        requires in_scale { IsInScale N.limits instance.now duals.now.scale }
        requires duals { AreDuals N.limits duals.now }
        requires within { AreWithin duals.now self.now.rows self.now.columns }
        ensures child { OnOk result (IsChild instance.now duals.now self.now h g child.new) }
        ensures form { OnOk result ((y : Placement) → IsPlacement y → IsFormOf instance.now duals.now y self.now → IsFormOf instance.now duals.now (child_at y h g) child.new) }
        ensures refused { OnErr result (child.new ≡ empty_form) }
    {
        self.child_with(&ComputedResiduals { instance, duals }, h, g, child)
    }

    /// The same by residuals of any kind.
    pub fn child_with<R: Residuals<N>>(
        &self,
        residuals: &R,
        h: usize,
        g: usize,
        child: &mut Reduced<N>,
    ) -> Result<(), AllocError>
        requires row { h < count_of self.now }
        requires column { g < count_of self.now }
        requires size { (R.problem residuals.now).size ≡ (R.duals residuals.now).size }
        requires in_scale { IsInScale N.limits (R.problem residuals.now) (R.duals residuals.now).scale }
        requires duals { AreDuals N.limits (R.duals residuals.now) }
        requires within { AreWithin (R.duals residuals.now) self.now.rows self.now.columns }
        ensures child { OnOk result (IsChild (R.problem residuals.now) (R.duals residuals.now) self.now h g child.new) }
        ensures form { OnOk result ((y : Placement) → IsPlacement y → IsFormOf (R.problem residuals.now) (R.duals residuals.now) y self.now → IsFormOf (R.problem residuals.now) (R.duals residuals.now) (child_at y h g) child.new) }
        ensures refused { OnErr result (child.new ≡ empty_form) }
    {
        let alloc = *self.rows.allocator();
        let Reduced {
            rows,
            columns,
            mut entries,
            mut shared,
            ..
        } = replace(child, Reduced::empty(alloc));
        let value = self.value + self.entry(h, g).widen();
        let rows = without(rows, &self.rows, h)?;
        let columns = without(columns, &self.columns, g)?;
        let m = self.free() - 1;
        entries.resize(m * m, N::narrow(0))?;
        residuals.write_child(&mut shared, self, h, g, &columns, &mut entries)?;
        *child = Reduced {
            value,
            rows,
            columns,
            entries,
            depth: self.depth + 1,
            is_lined: false,
            shared,
        };
        Ok(())
    }

    /// Whether the value is above the threshold.
    pub fn closes(&self, threshold: i128) -> bool
        ensures { IsTrue result ↔ threshold <ℤ self.now.value }
    {
        self.value > threshold
    }

    /// Whether the child that puts row `h` at column `g` has a value above the threshold.
    pub fn prunes(&self, h: usize, g: usize, threshold: i128) -> bool
        requires row { h < count_of self.now }
        requires column { g < count_of self.now }
        ensures { IsTrue result ↔ threshold <ℤ (self.now.value +ℤ at self.now h g) }
    {
        self.value + self.entry(h, g).widen() > threshold
    }

    /// Whether the value, the least entry of each row, and the least of what these leave in each column, are together above the
    /// threshold. Writes these numbers to `u` and `v`.
    pub fn closes_trivially(&self, threshold: i128, u: &mut [N], v: &mut [N]) -> bool
        requires rows { length u.old ≡ count_of self.now }
        requires columns { length v.old ≡ count_of self.now }
        ensures rows { AreLeastOfRows (count_of self.now) self.now.entries (map N.value u.new) }
        ensures columns { AreLeast (count_of self.now) self.now.entries (map N.value u.new) (map N.value v.new) }
        ensures closes { IsTrue result ↔ threshold <ℤ (self.now.value +ℤ (total (map N.value u.new) +ℤ total (map N.value v.new))) }
    {
        least_of_rows(&self.entries, u);
        least_of_columns(&self.entries, u, v);
        self.value + (sum(u) + sum(v)) > threshold
    }
}

/// Row `r` of a matrix with `m` columns.
fn row_of_square<N: Number>(entries: &[N], m: usize, r: usize) -> &[N]
    requires small { m ≤ 256 }
    requires count { length entries.now ≡ m * m }
    requires row { r < m }
    requires range { (c : ℕ) → c < m → unsigned_abs (entry m (map N.value entries.now) r c) ≤ N.limits.reach }
    ensures { IsDualRow N.limits.reach m (entry m (map N.value entries.now) r) (map N.value result.now) }
{
    let start = r * m;
    &entries[start..start + m]
}
