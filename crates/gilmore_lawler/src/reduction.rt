//! The Gilmore-Lawler matrix of a node.

ghost use Rattle.std.specs.Prelude.{◌≡◌, ◌<◌, ◌≤◌, ◌*◌, ◌-◌, ◌^◌, ◌++◌, length, IfOk, IsTrue, OnOk};
ghost use Rattle.qap_cost.specs.Bijection.{AreDifferent};
ghost use Rattle.qap_cost.specs.Instance.{IsInstance, Problem};
ghost use Rattle.qap_cost.specs.Range.{AllInRange, AllLimited, AllWithin};
ghost use Rattle.gilmore_lawler.specs.Duals.{TellsFit};
ghost use Rattle.gilmore_lawler.specs.FlowRows.{HasDistanceRows, HasFlowRows, HasLocationRows};
ghost use Rattle.gilmore_lawler.specs.Levels.{AreRowsAt};
ghost use Rattle.gilmore_lawler.specs.Ranking.{HasRankings, IsRankings};
ghost use Rattle.gilmore_lawler.specs.ReducedMatrix.{IsReduced};
ghost use Rattle.gilmore_lawler.specs.Small.{AllSmall};
ghost use Rattle.gilmore_lawler.specs.Table.{IsTable, IsProductRow, product_row};
ghost use Rattle.gilmore_lawler.specs.declared.side.Side.TheVariants.{Distance};

use crate::child_rows::{LocationRows, child_rows, place_behind};
use crate::factors::factor_rows;
use crate::fitting::{product_with, products_fit};
use crate::ranking::{Ranked, ranked_rows};
use crate::side::Side;
use crate::small::has_small_entries;
use qap_cost::{Instance, Matrix, Partial, list_free};
use std::alloc::{AllocError, Global};
use std::marker::Model;
use std::mem::replace;

/// The Gilmore-Lawler matrix of the node: a row for each free facility and a column for each free location, both
/// ascending.
///
/// An entry is the least that its facility can cost at its location with itself, with the placed facilities, and with
/// the other free facilities, however these are put on the other free locations (Gilmore 1962; Lawler 1963).
pub fn reduced(alloc: Global, instance: &Instance, node: &Partial) -> Result<Matrix, AllocError>
    requires { instance.now.size ≡ node.now.size }
    ensures reduced { IfOk result (IsReduced instance.now node.now) }
    ensures size { IfOk result (λ M. M.size ≡ node.now.size - length node.now.facilities) }
    ensures bounded { IfOk result (λ M. AllWithin (512 * 10 ^ 18) M.entries) }
{
    RankedInstance::new(alloc, instance)?.reduced(&mut Workspace::new(alloc), node)
}

/// An instance with the rows of its matrices in order, which all its Gilmore-Lawler matrices are made from.
#[derive(Drop)]
pub struct RankedInstance {
    instance: Instance,
    a_rankings: Vec<Ranked>,
    b_rankings: Vec<Ranked>,
    are_small: bool,
}

impl Model for RankedInstance {
    ghost Value = { Problem };

    ghost view = { λ r. r.instance };

    ghost invariant = { λ r. HasRankings r.instance r.a_rankings.items r.b_rankings.items r.are_small };
}

impl RankedInstance {
    /// The instance, whose rows are sorted here, once.
    pub fn new(alloc: Global, instance: &Instance) -> Result<RankedInstance, AllocError>
        ensures value { IfOk result (λ r. r ≡ instance.now) }
        ensures instance { IfOk result IsInstance }
    {
        Ok(RankedInstance {
            instance: instance.copy()?,
            a_rankings: ranked_rows(alloc, instance, Side::Flow)?,
            b_rankings: ranked_rows(alloc, instance, Side::Distance)?,
            are_small: has_small_entries(instance),
        })
    }

    /// The instance itself.
    pub fn instance(&self) -> &Instance
        ensures value { result.now ≡ self.now }
        ensures instance { IsInstance self.now }
    {
        &self.instance
    }

    /// The Gilmore-Lawler matrix of the node, as the function `reduced` returns it for the instance.
    pub fn reduced(&self, workspace: &mut Workspace, node: &Partial) -> Result<Matrix, AllocError>
        requires { self.now.size ≡ node.now.size }
        ensures reduced { IfOk result (IsReduced self.now node.now) }
        ensures size { IfOk result (λ M. M.size ≡ node.now.size - length node.now.facilities) }
        ensures bounded { IfOk result (λ M. AllWithin (512 * 10 ^ 18) M.entries) }
    {
        let mut matrix = Matrix::empty(self.allocator());
        self.reduce_into(workspace, node, &mut matrix)?;
        Ok(matrix)
    }

    /// Turns the matrix into the Gilmore-Lawler matrix of the node, as the function `reduced` returns it for the
    /// instance, in its own memory and the workspace's if these suffice. After an error it may be any matrix.
    pub fn reduce_into(
        &self,
        workspace: &mut Workspace,
        node: &Partial,
        matrix: &mut Matrix,
    ) -> Result<(), AllocError>
        requires { self.now.size ≡ node.now.size }
        ensures reduced { OnOk result (IsReduced self.now node.now matrix.new) }
        ensures size { OnOk result (matrix.new.size ≡ node.now.size - length node.now.facilities) }
        ensures bounded { OnOk result (AllWithin (512 * 10 ^ 18) matrix.new.entries) }
    {
        self.make_flow_rows(
            node.facilities(),
            &mut workspace.free,
            &mut workspace.a_rows,
        )?;
        self.make_location_rows(node.places(), &mut workspace.distances)?;
        self.reduce_by(&workspace.a_rows, &workspace.distances.rows, node, matrix)
    }

    /// Where the memory of its rows comes from.
    pub(crate) fn allocator(&self) -> Global {
        *self.a_rankings.allocator()
    }

    /// Whether its entries are known to be small.
    pub(crate) fn are_small(&self) -> bool
        ensures { IsTrue result → (AllSmall self.now.a × AllSmall self.now.b) }
    {
        self.are_small
    }

    /// Makes `rows` those of the flows for each node that places these facilities, and `free` the other ones.
    pub(crate) fn make_flow_rows(
        &self,
        facilities: &[u16],
        free: &mut Vec<u16>,
        rows: &mut Vec<i32>,
    ) -> Result<(), AllocError>
        requires { AreDifferent self.now.size facilities.now }
        ensures { OnOk result (HasFlowRows (record { instance = self.now; facilities = facilities.now }) rows.new.items) }
    {
        list_free(self.instance.size(), facilities, free)?;
        factor_rows(
            &self.instance,
            Side::Flow,
            &self.a_rankings,
            facilities,
            free,
            rows,
        )
    }

    /// Makes the rows those of the distances where these locations are taken, with the locations.
    pub(crate) fn make_location_rows(
        &self,
        places: &[u16],
        made: &mut LocationRows,
    ) -> Result<(), AllocError>
        requires { AreDifferent self.now.size places.now }
        ensures { OnOk result (AreRowsAt self.now places.now made.new) }
    {
        made.places.clear();
        made.places.extend_from_slice(places)?;
        list_free(self.instance.size(), places, &mut made.free)?;
        factor_rows(
            &self.instance,
            Side::Distance,
            &self.b_rankings,
            places,
            &made.free,
            &mut made.rows,
        )
    }

    /// Computes the rows of the distances with these locations taken, together with the locations, from those with the
    /// last of them free, if these are such.
    pub(crate) fn make_known_behind(
        &self,
        before: &LocationRows,
        places: &[u16],
        made: &mut LocationRows,
    ) -> Result<(), AllocError>
        requires different { AreDifferent self.now.size places.now }
        requires before { HasLocationRows self.now before.now.places.items before.now.free.items before.now.rows.items }
        ensures { OnOk result (AreRowsAt self.now places.now made.new) }
    {
        match place_behind(&before.places, &before.free, places) {
            Some(s) => before.make_child(&self.instance, s, made),
            None => self.make_location_rows(places, made),
        }
    }

    /// Makes the rows those of the distances at the node, without the locations, from those where one location fewer is taken, if
    /// these are such.
    pub(crate) fn make_rows_behind(
        &self,
        before: &LocationRows,
        node: &Partial,
        made: &mut LocationRows,
    ) -> Result<(), AllocError>
        requires size { self.now.size ≡ node.now.size }
        requires before { HasLocationRows self.now before.now.places.items before.now.free.items before.now.rows.items }
        ensures { OnOk result (HasDistanceRows self.now node.now.places made.new.rows.items) }
    {
        let LocationRows { places, free, rows } = before;
        match place_behind(places, free, node.places()) {
            Some(s) => child_rows(&self.instance, places, free, rows, s, &mut made.rows),
            None => self.make_location_rows(node.places(), made),
        }
    }

    /// Makes the matrix the reduced one of the node, from its rows of both sides. At an error it may be any matrix.
    pub(crate) fn reduce_by(
        &self,
        a_rows: &[i32],
        b_rows: &[i32],
        node: &Partial,
        matrix: &mut Matrix,
    ) -> Result<(), AllocError>
        requires size { self.now.size ≡ node.now.size }
        requires a_rows { HasFlowRows (record { instance = self.now; facilities = node.now.facilities }) a_rows.now }
        requires b_rows { HasDistanceRows self.now node.now.places b_rows.now }
        ensures reduced { OnOk result (IsReduced self.now node.now matrix.new) }
        ensures size { OnOk result (matrix.new.size ≡ node.now.size - length node.now.facilities) }
        ensures bounded { OnOk result (AllWithin (512 * 10 ^ 18) matrix.new.entries) }
    {
        let memory = replace(matrix, Matrix::empty(self.allocator())).into_entries();
        let made = reduced_from(memory, &self.instance, a_rows, b_rows, self.are_small, node)?;
        *matrix = made;
        Ok(())
    }

    /// Whether `(u, v)` fits the Gilmore-Lawler matrix of the node, from its rows of both sides; the matrix isn't made.
    pub(crate) fn fit_by(
        &self,
        a_rows: &[i32],
        b_rows: &[i32],
        node: &Partial,
        u: &[i128],
        v: &[i128],
    ) -> bool
        requires size { self.now.size ≡ node.now.size }
        requires a_rows { HasFlowRows (record { instance = self.now; facilities = node.now.facilities }) a_rows.now }
        requires b_rows { HasDistanceRows self.now node.now.places b_rows.now }
        requires u_count { length u.now ≡ node.now.size - length node.now.facilities }
        requires v_count { length v.now ≡ node.now.size - length node.now.facilities }
        requires u_range { AllLimited u.now }
        requires v_range { AllLimited v.now }
        ensures { TellsFit self.now node.now u.now v.now result }
    {
        fit_from(&self.instance, a_rows, b_rows, self.are_small, node, u, v)
    }
}

/// Memory for Gilmore-Lawler matrices, kept from one to the next. It can be used again after any answer, for any
/// instance.
#[derive(Drop)]
pub struct Workspace {
    free: Vec<u16>,
    a_rows: Vec<i32>,
    pub(crate) distances: LocationRows,
}

impl Workspace {
    /// A workspace that has no memory yet.
    pub fn new(alloc: Global) -> Workspace {
        Workspace {
            free: Vec::new(alloc),
            a_rows: Vec::new(alloc),
            distances: LocationRows::new(alloc),
        }
    }

    /// A workspace with memory for all nodes of instances of this size.
    pub fn with_room(alloc: Global, size: usize) -> Result<Workspace, AllocError>
        requires { size ≤ 256 }
    {
        Ok(Workspace {
            free: Vec::with_capacity(alloc, size)?,
            a_rows: Vec::with_capacity(alloc, size * size + size)?,
            distances: LocationRows::with_room(alloc, size)?,
        })
    }
}

/// The Gilmore-Lawler matrix of the node, from its rows of both sides, in this memory.
fn reduced_from(
    memory: Vec<i128>,
    instance: &Instance,
    a_rows: &[i32],
    b_rows: &[i32],
    are_small: bool,
    node: &Partial,
) -> Result<Matrix, AllocError>
    requires size { instance.now.size ≡ node.now.size }
    requires instance { IsInstance instance.now }
    requires a_rows { HasFlowRows (record { instance = instance.now; facilities = node.now.facilities }) a_rows.now }
    requires b_rows { HasDistanceRows instance.now node.now.places b_rows.now }
    requires known { IsTrue are_small → (AllSmall instance.now.a × AllSmall instance.now.b) }
    ensures reduced { IfOk result (IsReduced instance.now node.now) }
    ensures size { IfOk result (λ M. M.size ≡ node.now.size - length node.now.facilities) }
    ensures bounded { IfOk result (λ M. AllWithin (512 * 10 ^ 18) M.entries) }
{
    let n = instance.size();
    let depth = node.depth();
    let entries = products(memory, a_rows, b_rows, n - depth, n + depth, are_small)?;
    Ok(Matrix::new(n - depth, entries).unwrap())
}

/// Whether `(u, v)` fits the Gilmore-Lawler matrix of the node, from its rows of both sides.
fn fit_from(
    instance: &Instance,
    a_rows: &[i32],
    b_rows: &[i32],
    are_small: bool,
    node: &Partial,
    u: &[i128],
    v: &[i128],
) -> bool
    requires size { instance.now.size ≡ node.now.size }
    requires instance { IsInstance instance.now }
    requires a_rows { HasFlowRows (record { instance = instance.now; facilities = node.now.facilities }) a_rows.now }
    requires b_rows { HasDistanceRows instance.now node.now.places b_rows.now }
    requires known { IsTrue are_small → (AllSmall instance.now.a × AllSmall instance.now.b) }
    requires u_count { length u.now ≡ node.now.size - length node.now.facilities }
    requires v_count { length v.now ≡ node.now.size - length node.now.facilities }
    requires u_range { AllLimited u.now }
    requires v_range { AllLimited v.now }
    ensures { TellsFit instance.now node.now u.now v.now result }
{
    let n = instance.size();
    let depth = node.depth();
    products_fit(a_rows, b_rows, n + depth, are_small, u, v)
}

/// The products of each row of the one table with each of the other, in this memory: this many rows of this width each.
fn products(
    memory: Vec<i128>,
    a_rows: &[i32],
    b_rows: &[i32],
    count: usize,
    width: usize,
    are_small: bool,
) -> Result<Vec<i128>, AllocError>
    requires count { count ≤ 256 }
    requires width { width ≤ 512 }
    requires a_size { length a_rows.now ≡ count * width }
    requires b_size { length b_rows.now ≡ count * width }
    requires a_range { AllInRange a_rows.now }
    requires b_range { AllInRange b_rows.now }
    requires known { IsTrue are_small → (AllSmall a_rows.now × AllSmall b_rows.now) }
    ensures { IfOk result (λ v. IsTable count count (IsProductRow width count a_rows.now b_rows.now) v.items) }
{
    let mut entries = memory;
    entries.clear();
    entries.reserve(count * count)?;
    for r in 0..count {
        let start = r * width;
        let row = &a_rows[start..start + width];
        push_products(row, b_rows, count, are_small, &mut entries)?;
    }
    Ok(entries)
}

/// Adds the products of this row with each of this many others.
fn push_products(
    row: &[i32],
    others: &[i32],
    count: usize,
    are_small: bool,
    entries: &mut Vec<i128>,
) -> Result<(), AllocError>
    requires count { count ≤ 256 }
    requires width { length row.now ≤ 512 }
    requires size { length others.now ≡ count * length row.now }
    requires range { AllInRange row.now }
    requires others_range { AllInRange others.now }
    requires known { IsTrue are_small → (AllSmall row.now × AllSmall others.now) }
    ensures { OnOk result (entries.new.items ≡ entries.old.items ++ product_row (length row.now) count row.now others.now) }
{
    for c in 0..count {
        let product = product_with(row, others, c, are_small);
        entries.push(product)?;
    }
    Ok(())
}
