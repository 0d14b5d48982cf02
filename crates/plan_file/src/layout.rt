//! Listed arrangements of a plan's departments.

ghost use Rattle.std.specs.Prelude.{◌≡◌, ◌<◌, ◌≤◌, IfOk, length, map, string_bytes};
ghost use Rattle.qap_cost.specs.Placement.{IsPlacement};
ghost use Rattle.plan_file.specs.Layout.{IsLayout};

use crate::error::FixingError;
use crate::fixing::fixed_node;
use plan_table::{TableError, read_layout};
use qap_cost::Partial;
use std::alloc::{AllocError, Global};
use thiserror::Error;

/// Why a text lists no arrangement of the departments.
#[derive(Debug, Drop, Error)]
pub enum LayoutError {
    /// The text is not such a list.
    #[error("{0}")]
    Table(TableError),
    /// No department has the name.
    #[error("no department has the name \"{department}\": write the names of the plan")]
    UnknownDepartment { department: String },
    /// No place has the name.
    #[error("\"{department}\": no place has the name \"{place}\": write the names of the plan")]
    UnknownPlace { department: String, place: String },
    /// The department is repeated, or another one is at its place.
    #[error("\"{department}\" at \"{place}\": the department or the place occurs twice: give each department one line, and a place of its own")]
    Twice { department: String, place: String },
    /// A department has no line.
    #[error("the department \"{department}\" is missing: write a line with its place")]
    Missing { department: String },
    /// Memory ran out.
    #[error("out of memory")]
    OutOfMemory,
}

impl From<AllocError> for LayoutError {
    ghost use Rattle.plan_file.specs.declared.layout.LayoutError.TheVariants.{OutOfMemory};

    ghost from_gives = { λ _ e. e ≡ OutOfMemory };

    fn from(_error: AllocError) -> LayoutError {
        LayoutError::OutOfMemory
    }
}

/// The node of an instance that places each department where a text puts it. There are 1 to 256 places, and no more
/// departments; each department has a line.
pub fn layout_node(
    alloc: Global,
    text: &[u8],
    departments: &[String],
    places: &[String],
) -> Result<Partial, LayoutError>
    requires positive { 0 < length places.now }
    requires few { length places.now ≤ 256 }
    requires room { length departments.now ≤ length places.now }
    ensures layout { IfOk result (IsLayout text.now (map string_bytes departments.now) (map string_bytes places.now)) }
    ensures placement { IfOk result IsPlacement }
{
    let pins = match read_layout(alloc, text) {
        Ok(pins) => pins,
        Err(error) => return Err(table_fault(error)),
    };
    let node = match fixed_node(alloc, &pins, departments, places) {
        Ok(node) => node,
        Err(error) => return Err(fault_of(error)),
    };
    if node.depth() == departments.len() {
        return Ok(node);
    }
    Err(missing(&node, departments)?)
}

/// What is wrong with the text.
fn table_fault(error: TableError) -> LayoutError {
    match error {
        TableError::OutOfMemory => LayoutError::OutOfMemory,
        error => LayoutError::Table(error),
    }
}

/// What is wrong with a line.
fn fault_of(error: FixingError) -> LayoutError {
    match error {
        FixingError::UnknownDepartment { department } => {
            LayoutError::UnknownDepartment { department }
        }
        FixingError::KeyAmongFixed { key } => LayoutError::UnknownDepartment { department: key },
        FixingError::UnknownPlace { department, place } => {
            LayoutError::UnknownPlace { department, place }
        }
        FixingError::PlaceTwice { department, place } => LayoutError::Twice { department, place },
        FixingError::OutOfMemory => LayoutError::OutOfMemory,
    }
}

/// The error of the first department that isn't placed.
fn missing(node: &Partial, departments: &[String]) -> Result<LayoutError, AllocError> {
    for (i, department) in departments.iter().enumerate() {
        if node.at(i).is_none() {
            return Ok(LayoutError::Missing {
                department: department.clone()?,
            });
        }
    }
    Ok(LayoutError::OutOfMemory)
}
