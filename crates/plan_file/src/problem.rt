//! The instance of two matrices with names.

ghost use Rattle.std.specs.Prelude.{◌≡◌, ◌/◌, ◌%◌, ◌*◌, ◌<◌, ◌≤◌, All, ℕ, IfOk, MatchResult, length, map, pos, slice_index_or, string_bytes, unsigned_abs};
ghost use Rattle.qap_cost.specs.Range.{InRange};
ghost use Rattle.plan_table.specs.Shape.{IsNamedSquare};
ghost use Rattle.plan_file.specs.Filling.{IsFilledUp};
ghost use Rattle.plan_file.specs.Problem.{IsProblemFault, IsProblemOf, flow_of};

use crate::error::ProblemError;
use plan_table::NamedMatrix;
use qap_cost::Instance;
use std::alloc::{AllocError, Global};

/// The instance of a matrix of flows between departments and one of distances between places: a facility for each place, the
/// departments first, in their order, and then as many without flow as there are places left.
pub fn problem_of(
    alloc: Global,
    flows: &NamedMatrix,
    distances: &NamedMatrix,
) -> Result<Instance, ProblemError>
    requires flows { IsNamedSquare (map string_bytes flows.now.names.items) flows.now.entries.items }
    requires distances { IsNamedSquare (map string_bytes distances.now.names.items) distances.now.entries.items }
    ensures { let m = length flows.now.names.items in let n = length distances.now.names.items in
        MatchResult result (IsProblemOf m flows.now.entries.items n distances.now.entries.items) (IsProblemFault m n) }
{
    let departments = flows.names.len();
    let places = distances.names.len();
    if departments > places {
        return Err(ProblemError::TooManyDepartments {
            departments,
            places,
        });
    }
    let a = filled_up(alloc, &flows.entries, departments, places)?;
    let b = Vec::from_slice(alloc, &distances.entries)?;
    match Instance::new(places, a, b) {
        Ok(instance) => Ok(instance),
        Err(_) => unreachable!(),
    }
}

/// The flows between departments, filled up with none for those that are added, `places * places` by rows.
fn filled_up(
    alloc: Global,
    flows: &[i64],
    departments: usize,
    places: usize,
) -> Result<Vec<i64>, AllocError>
    requires square { length flows.now ≡ departments * departments }
    requires in_range { All InRange flows.now }
    requires room { departments ≤ places }
    requires few { places ≤ 256 }
    ensures { IfOk result (λ v. IsFilledUp departments flows.now places (places * places) v.items) }
{
    let mut filled = Vec::with_capacity(alloc, places * places)?;
    for k in 0..places * places {
        filled.push(flow_between(flows, departments, k / places, k % places))?;
    }
    Ok(filled)
}

/// The flow between two departments, or none if one of them is added.
fn flow_between(flows: &[i64], departments: usize, i: usize, j: usize) -> i64
    requires square { length flows.now ≡ departments * departments }
    requires in_range { All InRange flows.now }
    requires few { departments ≤ 256 }
    ensures value { result ≡ flow_of departments flows.now i j }
    ensures range { InRange result }
{
    if i < departments && j < departments {
        flows[i * departments + j]
    } else {
        0
    }
}
