//! Reads the two tables of a plan.

ghost use Rattle.std.specs.Prelude.{◌≡◌, ◌<◌, ◌≤◌, [], IfOk, length, map, string_bytes};
ghost use Rattle.plan_file.specs.Metric.{IsFine};
ghost use Rattle.plan_table.specs.Shape.{IsNamedSquare};
ghost use Rattle.plan_table.specs.Table.{IsMatrixText};
ghost use Rattle.plan_file.specs.Tables.{AreTablesOf, HasSizes, IsDistanceText, IsFlowText, IsMeasured, IsSound, IsSoundDistances, IsSoundFlows, max_places};

use crate::distances::{DistanceError, distance_matrix};
use crate::error::TablesError;
use crate::fixing::fixed_node;
use crate::metric::{MAX_COORDINATE_PLACES, Metric, distance_scale};
use crate::problem::problem_of;
use crate::source::{Distances, Flows, Plan};
use plan_table::{
    NamedMatrix, Point, Rules, TableError, read_matrix, read_places, read_trips, read_trips_between,
};
use qap_cost::{Instance, Partial};
use std::alloc::{AllocError, Global};

/// The greatest number of decimals of a table's numbers.
pub const MAX_PLACES: usize = 100;

/// An instance with names. Facility `i` is the department of number `i`, or otherwise a dummy without flow; location
/// `k` is the place of number `k`. A cost `c` represents `c / 10^(flow_scale + distance_scale)`.
#[derive(Drop)]
pub struct NamedProblem {
    pub departments: Vec<String>,
    pub places: Vec<String>,
    /// A flow `f` represents `f / 10^flow_scale`.
    pub flow_scale: usize,
    /// A distance `d` represents `d / 10^distance_scale`.
    pub distance_scale: usize,
    pub instance: Instance,
    /// The places' coordinates, if the distances were measured; otherwise none.
    pub points: Vec<Point>,
    /// The departments that are fixed, at their places.
    pub fixed: Partial,
    /// To how many decimals the tables' numbers were rounded, if they were.
    pub rounded: Option<usize>,
}

/// The distances between places, and where these are, if that is known.
#[derive(Drop)]
struct Layout {
    matrix: NamedMatrix,
    points: Vec<Point>,
}

/// Reads the flows between departments and the distances between places, or these places, from the texts of the files that a plan names, and
/// makes their instance.
pub fn read_tables(
    alloc: Global,
    plan: &Plan,
    flows: &[u8],
    distances: &[u8],
) -> Result<NamedProblem, TablesError>
    requires { IsSound plan.now }
    ensures tables { IfOk result (AreTablesOf plan.now flows.now distances.now) }
    ensures sizes { IfOk result HasSizes }
{
    let flows = read_flows(alloc, &plan.flows, plan.rules, flows)?;
    let Layout {
        matrix: distances,
        points,
    } = read_layout(alloc, &plan.distances, plan.rules, distances)?;
    let instance = match problem_of(alloc, &flows, &distances) {
        Ok(instance) => instance,
        Err(error) => return Err(TablesError::Problem(error)),
    };
    let fixed = match fixed_node(alloc, &plan.fixed, &flows.names, &distances.names) {
        Ok(fixed) => fixed,
        Err(error) => return Err(TablesError::Fixing(error)),
    };
    Ok(NamedProblem {
        departments: flows.names,
        places: distances.names,
        flow_scale: flows.scale,
        distance_scale: distances.scale,
        instance,
        points,
        fixed,
        rounded: plan.rules.round,
    })
}

/// The flows.
fn read_flows(
    alloc: Global,
    source: &Flows,
    rules: Rules,
    text: &[u8],
) -> Result<NamedMatrix, TablesError>
    requires { IsSoundFlows source.now }
    ensures text { IfOk result (λ m. IsFlowText source.now rules text.now (map string_bytes m.names.items) m.scale m.entries.items) }
    ensures square { IfOk result (λ m. IsNamedSquare (map string_bytes m.names.items) m.entries.items) }
    ensures fine { IfOk result (λ m. m.scale ≤ max_places) }
{
    match source {
        Flows::Matrix(_) => fine_flows(read_matrix(alloc, text, rules)),
        Flows::Trips(_) => fine_flows(read_trips(alloc, text, rules)),
        Flows::TripsBetween(_, names) => {
            fine_flows(read_trips_between(alloc, text, rules, copied(alloc, names)?))
        }
    }
}

/// The flows that were read, where their numbers have few decimals.
fn fine_flows(read: Result<NamedMatrix, TableError>) -> Result<NamedMatrix, TablesError>
    ensures same { IfOk result (λ m. read ≡ Ok m) }
    ensures fine { IfOk result (λ m. m.scale ≤ max_places) }
{
    match read {
        Ok(matrix) if matrix.scale > MAX_PLACES => Err(TablesError::FlowsTooFine),
        Ok(matrix) => Ok(matrix),
        Err(error) => Err(TablesError::Flows(error)),
    }
}

/// The same names again.
fn copied(alloc: Global, names: &[String]) -> Result<Vec<String>, AllocError>
    ensures { IfOk result (λ v. map string_bytes v.items ≡ map string_bytes names.now) }
{
    let mut copy = Vec::new(alloc);
    for name in names {
        copy.push(name.clone()?)?;
    }
    Ok(copy)
}

/// The distances.
fn read_layout(
    alloc: Global,
    source: &Distances,
    rules: Rules,
    text: &[u8],
) -> Result<Layout, TablesError>
    requires { IsSoundDistances source.now }
    ensures text { IfOk result (λ l. IsDistanceText source.now rules text.now (map string_bytes l.matrix.names.items) l.matrix.scale l.points.items l.matrix.entries.items) }
    ensures square { IfOk result (λ l. IsNamedSquare (map string_bytes l.matrix.names.items) l.matrix.entries.items) }
    ensures fine { IfOk result (λ l. l.matrix.scale ≤ max_places) }
{
    match source {
        Distances::Matrix(_) => read_distances(alloc, rules, text),
        Distances::Places(_, metric) => read_measured(alloc, *metric, rules, text),
    }
}

/// The matrix of distances.
fn read_distances(alloc: Global, rules: Rules, text: &[u8]) -> Result<Layout, TablesError>
    ensures text { IfOk result (λ l. IsMatrixText rules text.now (map string_bytes l.matrix.names.items) l.matrix.scale l.matrix.entries.items × (l.points.items ≡ [])) }
    ensures square { IfOk result (λ l. IsNamedSquare (map string_bytes l.matrix.names.items) l.matrix.entries.items) }
    ensures fine { IfOk result (λ l. l.matrix.scale ≤ max_places) }
{
    match read_matrix(alloc, text, rules) {
        Ok(matrix) if matrix.scale > MAX_PLACES => Err(TablesError::DistancesTooFine),
        Ok(matrix) => Ok(Layout {
            matrix,
            points: Vec::new(alloc),
        }),
        Err(error) => Err(TablesError::Distances(error)),
    }
}

/// The distances between the places that a text lists.
fn read_measured(
    alloc: Global,
    metric: Metric,
    rules: Rules,
    text: &[u8],
) -> Result<Layout, TablesError>
    requires { IsFine metric }
    ensures text { IfOk result (λ l. IsMeasured metric rules text.now (map string_bytes l.matrix.names.items) l.matrix.scale l.points.items l.matrix.entries.items) }
    ensures square { IfOk result (λ l. IsNamedSquare (map string_bytes l.matrix.names.items) l.matrix.entries.items) }
    ensures fine { IfOk result (λ l. l.matrix.scale ≤ max_places) }
{
    let table = match read_places(alloc, text, rules) {
        Ok(table) => table,
        Err(error) => return Err(TablesError::Distances(error)),
    };
    if table.scale > MAX_COORDINATE_PLACES {
        return Err(TablesError::CoordinatesTooFine);
    }
    match distance_matrix(alloc, metric, table.scale, &table.points) {
        Ok(entries) => Ok(Layout {
            matrix: NamedMatrix {
                scale: distance_scale(metric, table.scale),
                names: table.names,
                entries,
            },
            points: table.points,
        }),
        Err(DistanceError::TooFar(i, j)) => Err(too_far(&table.names, i, j)?),
        Err(DistanceError::OutOfMemory) => Err(TablesError::OutOfMemory),
    }
}

/// The error of two places that lie too far apart.
fn too_far(names: &[String], i: usize, j: usize) -> Result<TablesError, AllocError>
    requires from { i < length names.now }
    requires to { j < length names.now }
{
    Ok(TablesError::TooFar {
        from: names[i].clone()?,
        to: names[j].clone()?,
    })
}
