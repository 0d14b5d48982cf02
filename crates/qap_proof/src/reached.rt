//! The bound of each child of a split under the split's duals.

ghost use Rattle.std.specs.Prelude.{◌≡◌, ◌-◌, ◌*◌, ◌^◌, ◌<◌, ◌≤◌, ◌-ℤ◌, length, IfOk, ℕ, pos, slice_index, slice_index_or, unsigned_abs};
ghost use Rattle.qap_cost.specs.Matrix.{DualsFit, entry_of};
ghost use Rattle.qap_cost.specs.Placement.{IsPlacement};
ghost use Rattle.qap_cost.specs.Range.{AllLimited, AllWithin};
ghost use Rattle.gilmore_lawler.specs.ReducedMatrix.{IsReduced};
ghost use Rattle.qap_proof.specs.Cell.{IsCell, IsPlaceOf, own_on};
ghost use Rattle.qap_proof.specs.NodeLine.{pair_of};
ghost use Rattle.gilmore_lawler.specs.Closing.{AreDuals};
ghost use Rattle.qap_proof.specs.Tree.{IsFreeOn, facility_on, location_on};
ghost use Rattle.qap_proof.specs.Valid.{Reaches};

use crate::side::Side;
use crate::tree::Duals;
use gilmore_lawler::dual_sum;
use qap_cost::{Instance, Matrix, Partial};
use std::alloc::{AllocError, Global};

/// The bound of each child under the duals of a split on this facility or this location, if these fit the
/// Gilmore-Lawler matrix of the node: the cost of the placed facilities, plus the duals, where the entry of the pair
/// that the child places replaces its two duals.
pub fn child_values(
    alloc: Global,
    instance: &Instance,
    matrix: &Matrix,
    node: &Partial,
    side: Side,
    number: u16,
    duals: &Duals,
) -> Result<Vec<i128>, AllocError>
    requires size { instance.now.size ≡ node.now.size }
    requires reduced { IsReduced instance.now node.now matrix.now }
    requires bounded { AllWithin (512 * 10 ^ 18) matrix.now.entries }
    requires matrix_size { matrix.now.size ≡ node.now.size - length node.now.facilities }
    requires duals { AreDuals (node.now.size - length node.now.facilities) duals.now.u.items duals.now.v.items }
    requires fits { DualsFit matrix.now duals.now.u.items duals.now.v.items }
    requires free { IsFreeOn side node.now number }
    ensures count { IfOk result (λ v. length v.items ≡ node.now.size - length node.now.facilities) }
    ensures each { IfOk result (λ v. (c : ℕ) → c < length v.items
        → Reaches instance.now node.now (pair_of duals.now) (facility_on side node.now number c) (location_on side node.now number c) (slice_index_or v.items c (pos 0))) }
{
    let free = matrix.size();
    let own = own_place(node, side, number)?;
    let all = node.fixed_cost(instance) + dual_sum(&duals.u, &duals.v);
    let mut values = Vec::with_capacity(alloc, free)?;
    for child in 0..free {
        let (row, column) = cell(side, own, child);
        let more = excess(matrix, &duals.u, &duals.v, row, column);
        values.push(all + more)?;
    }
    Ok(values)
}

/// The row of the facility, or the column of the location, that a split is on.
fn own_place(node: &Partial, side: Side, number: u16) -> Result<usize, AllocError>
    requires { IsFreeOn side node.now number }
    ensures place { IfOk result (IsPlaceOf (own_on side node.now) number) }
    ensures placement { IsPlacement node.now }
{
    match side {
        Side::Facility => Ok(place_of(&node.free_facilities()?, number)),
        Side::Location => Ok(place_of(&node.free_locations()?, number)),
    }
}

/// Where the number is in a list that has it.
fn place_of(free: &[u16], number: u16) -> usize
    requires { (i : ℕ) × (i < length free.now) × (slice_index free.now i ≡ number) }
    ensures { IsPlaceOf free.now number result }
{
    for place in 0..free.len() {
        if free[place] == number {
            return place;
        }
    }
    unreachable!()
}

/// The row and the column of the pair that a child of this number places, where `own` is the place of what the split is
/// on.
fn cell(side: Side, own: usize, child: usize) -> (usize, usize)
    ensures { IsCell side own child result.0 result.1 }
{
    match side {
        Side::Facility => (own, child),
        Side::Location => (child, own),
    }
}

/// By how much an entry exceeds its two duals.
fn excess(matrix: &Matrix, u: &[i128], v: &[i128], row: usize, column: usize) -> i128
    requires row { row < matrix.now.size }
    requires column { column < matrix.now.size }
    requires u_count { length u.now ≡ matrix.now.size }
    requires v_count { length v.now ≡ matrix.now.size }
    requires u_range { AllLimited u.now }
    requires v_range { AllLimited v.now }
    requires bounded { AllWithin (512 * 10 ^ 18) matrix.now.entries }
    ensures value { result ≡ entry_of matrix.now row column -ℤ slice_index_or u.now row (pos 0) -ℤ slice_index_or v.now column (pos 0) }
    ensures bounded { unsigned_abs result ≤ 3 * 10 ^ 24 }
{
    matrix.at(row, column) - u[row] - v[column]
}
