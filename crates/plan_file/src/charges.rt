//! What departments pay for places, and which they may not take.

ghost use Rattle.std.specs.Prelude.{◌≡◌, ◌+◌, ◌-◌, ◌*◌, ◌^◌, ◌≤◌, ◌<◌, All, pos, IfOk, length, map, slice_index_or, string_bytes};
ghost use Rattle.qap_cost.specs.Range.{InRange};
ghost use Rattle.plan_charge.specs.Charges.{AreCharges};
ghost use Rattle.plan_charge.specs.Forbidden.{AreForbidden};
ghost use Rattle.plan_file.specs.Charges.{AreCostsOf, AreTextCosts, HasRow, IsCostCell, IsCostOf, IsForbiddenBy};
ghost use Rattle.plan_file.specs.Filled.{AreFilled};
ghost use Rattle.plan_file.specs.Last.{IsUpToLast};
ghost use Rattle.plan_file.specs.Tables.{HasSizes};
ghost use Rattle.plan_table.specs.Grid.{AreAmong, IsNamedGrid};
ghost use Rattle.plan_table.specs.Names.{HasName};
ghost use Rattle.plan_table.specs.Trips.{name_at};

use crate::error::ChargesError;
use crate::forbidding::{check_room, forbidden_of};
use crate::source::Plan;
use crate::tables::NamedProblem;
use plan_charge::{Charges, Forbidden};
use plan_table::{Grid, Rules, find_name, has_name, read_grid};
use std::alloc::{AllocError, Global};

/// What departments pay for places, and which places they may not take.
#[derive(Drop)]
pub struct PlaceCharges {
    pub charges: Charges,
    pub forbidden: Forbidden,
}

/// Reads what the departments of a problem pay for its places, from the text of the plan's costs if it has them, and
/// which places the plan forbids to them. A cost `c` is charged as `c` times the power of ten by which flows times
/// distances are multiplied.
pub fn read_charges(
    alloc: Global,
    plan: &Plan,
    problem: &NamedProblem,
    costs: Option<&[u8]>,
) -> Result<PlaceCharges, ChargesError>
    requires { HasSizes problem.now }
    ensures charges { IfOk result (λ r. AreCharges problem.now.instance.size r.charges) }
    ensures forbidden { IfOk result (λ r. AreForbidden problem.now.instance.size r.forbidden) }
    ensures costs { IfOk result (λ r. AreCostsOf plan.now.rules costs.entry problem.now r.charges) }
    ensures barred { IfOk result (λ r. IsForbiddenBy plan.now.charging (map string_bytes problem.now.departments.items) (map string_bytes problem.now.places.items) r.forbidden) }
{
    let charges = charges_of(alloc, plan.rules, problem, costs)?;
    let departments = problem.departments.as_slice();
    let forbidden = forbidden_of(alloc, &plan.charging, departments, &problem.places)?;
    Ok(PlaceCharges { charges, forbidden })
}

/// What the departments of a problem pay.
fn charges_of(
    alloc: Global,
    rules: Rules,
    problem: &NamedProblem,
    costs: Option<&[u8]>,
) -> Result<Charges, ChargesError>
    requires { HasSizes problem.now }
    ensures charges { IfOk result (AreCharges problem.now.instance.size) }
    ensures costs { IfOk result (AreCostsOf rules costs.entry problem.now) }
{
    let departments = problem.departments.as_slice();
    let places = problem.places.as_slice();
    match costs {
        None => no_charges(alloc, places.len()),
        Some(text) => {
            let fraction = problem.flow_scale + problem.distance_scale;
            text_charges(alloc, rules, text, departments, places, fraction)
        }
    }
}

/// The charges of an instance of this size in which no department pays.
fn no_charges(alloc: Global, size: usize) -> Result<Charges, ChargesError>
    ensures charges { IfOk result (AreCharges size) }
    ensures none { IfOk result (λ charges. charges.count ≡ 0) }
{
    check_room(size, 0)?;
    Ok(Charges {
        count: 0,
        weight: 0,
        entries: Vec::new(alloc),
    })
}

/// The charges that a text lists, for flows times distances that are multiplied by 10^`fraction`.
fn text_charges(
    alloc: Global,
    rules: Rules,
    text: &[u8],
    departments: &[String],
    places: &[String],
    fraction: usize,
) -> Result<Charges, ChargesError>
    requires { length departments.now ≤ length places.now }
    ensures charges { IfOk result (AreCharges (length places.now)) }
    ensures costs { IfOk result (AreTextCosts rules text.now (map string_bytes departments.now) (map string_bytes places.now) fraction) }
{
    let grid = match read_grid(alloc, text, rules, departments, places) {
        Ok(grid) => grid,
        Err(error) => return Err(ChargesError::Costs(error)),
    };
    let weight = weight_of(fraction, grid.scale)?;
    let count = payers(&grid.rows, departments);
    check_room(places.len(), count)?;
    let entries = entries_of(alloc, &grid, departments, places, count)?;
    Ok(Charges {
        count,
        weight,
        entries,
    })
}

/// The power of ten that makes costs of this scale those of another one, which is at most 9 more.
fn weight_of(fraction: usize, scale: usize) -> Result<i64, ChargesError>
    ensures fine { IfOk result (λ w. scale ≤ fraction) }
    ensures weight { IfOk result (λ w. w ≡ pos (10 ^ (fraction - scale))) }
    ensures range { IfOk result InRange }
{
    if scale > fraction {
        return Err(ChargesError::TooFine {
            decimals: scale,
            most: fraction,
        });
    }
    if fraction - scale > 9 {
        return Err(ChargesError::TooCoarse { decimals: fraction });
    }
    Ok(power_of_ten((fraction - scale) as u32))
}

fn power_of_ten(power: u32) -> i64
    requires { power ≤ 9 }
    ensures { result ≡ pos (10 ^ power) }
{
    i64::from(10_u32.pow(power))
}

/// How many departments there are up to the last that has a row.
fn payers(rows: &[String], departments: &[String]) -> usize
    ensures { IsUpToLast (HasRow (map string_bytes rows.now) (map string_bytes departments.now)) (length departments.now) result }
{
    for k in 0..departments.len() {
        let i = departments.len() - 1 - k;
        if has_name(rows, departments[i].as_str()) {
            return i + 1;
        }
    }
    0
}

/// For each of the first departments and each place, by rows, what the department pays for the place.
fn entries_of(
    alloc: Global,
    grid: &Grid,
    departments: &[String],
    places: &[String],
    count: usize,
) -> Result<Vec<i64>, AllocError>
    requires shape { IsNamedGrid (map string_bytes grid.now.rows.items) (map string_bytes grid.now.columns.items) grid.now.entries.items }
    requires places { AreAmong (map string_bytes places.now) (map string_bytes grid.now.columns.items) }
    requires count { count ≤ length departments.now }
    requires room { length places.now + count ≤ 256 }
    ensures { IfOk result (λ v. AreFilled (IsCostCell (map string_bytes grid.now.rows.items) (map string_bytes grid.now.columns.items) grid.now.entries.items (map string_bytes departments.now) (map string_bytes places.now)) (pos 0) (length places.now) (count * length places.now) v.items) }
{
    let n = places.len();
    let mut entries = Vec::with_capacity(alloc, count * n)?;
    for q in 0..count * n {
        let i = q / n;
        let k = q % n;
        let entry = cost_of(grid, departments[i].as_str(), places[k].as_str());
        entries.push(entry)?;
    }
    Ok(entries)
}

/// What a department pays for a place.
fn cost_of(grid: &Grid, department: &str, place: &str) -> i64
    requires shape { IsNamedGrid (map string_bytes grid.now.rows.items) (map string_bytes grid.now.columns.items) grid.now.entries.items }
    requires place { HasName (map string_bytes grid.now.columns.items) place.now }
    ensures cost { IsCostOf (map string_bytes grid.now.rows.items) (map string_bytes grid.now.columns.items) grid.now.entries.items department.now place.now result }
    ensures range { InRange result }
{
    match find_name(&grid.rows, department) {
        None => 0,
        Some(row) => {
            let column = number_of(&grid.columns, place);
            cell(&grid.entries, grid.columns.len(), row, column)
        }
    }
}

/// A number of a table, by rows, with this many columns.
fn cell(entries: &[i64], columns: usize, row: usize, column: usize) -> i64
    requires inside { row * columns + column < length entries.now }
    requires range { All InRange entries.now }
    ensures value { result ≡ slice_index_or entries.now (row * columns + column) (pos 0) }
    ensures range { InRange result }
{
    entries[row * columns + column]
}

/// The number of a name that is one of these.
fn number_of(names: &[String], name: &str) -> usize
    requires { HasName (map string_bytes names.now) name.now }
    ensures inside { result < length names.now }
    ensures named { name_at (map string_bytes names.now) result ≡ name.now }
{
    match find_name(names, name) {
        Some(number) => number,
        None => unreachable!(),
    }
}
