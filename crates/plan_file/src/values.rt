//! The values at the keys of a plan.

ghost use Rattle.std.specs.Prelude.{◌≡◌, ◌↔◌, IfErr, IfOk, IfSome, IsTrue, MatchOption, None, OnOk, Some, codes, map, string_bytes};
ghost use Rattle.toml.specs.Data.{array, get_member};
ghost use Rattle.toml.specs.View.{table_view, view};
ghost use Rattle.plan_table.specs.Control.{HasNoControl};
ghost use Rattle.plan_table.specs.Names.{AreNames};
ghost use Rattle.plan_file.specs.Keys.{HasNone, HasText, strings_of};
ghost use Rattle.plan_file.specs.Plan.{ArePins, IsAmongFixed, IsFaultOf, IsFixingFault, IsPin, SaysFixed, SaysFlows};

use crate::error::{NamesFault, PinsFault, PlanError};
use crate::lookup::{items_in, table_in, text_in, value_at};
use crate::names::names_of;
use crate::source::Flows;
use plan_table::{Pin, first_control, shown};
use std::alloc::Global;
use toml::{Table, Value};

/// The text at a key, if present. It has no control character.
pub fn text_of(alloc: Global, table: &Table, key: &'static str) -> Result<Option<String>, PlanError>
    ensures text { IfOk result (λ found. MatchOption found (HasNone (table_view table.now) key.now) (λ s. HasText (table_view table.now) key.now (string_bytes s))) }
    ensures visible { IfOk result (λ found. IfSome found (λ s. HasNoControl (string_bytes s))) }
    ensures refused { IfErr result (IsFaultOf (table_view table.now)) }
{
    let Some(value) = value_at(table, key) else {
        return Ok(None);
    };
    let Some(text) = text_in(value) else {
        return Err(PlanError::NoText {
            key,
            found: value.type_str(),
        });
    };
    match first_control(text) {
        Some(control) => Err(PlanError::ControlInText {
            key,
            code: u32::from(control),
        }),
        None => Ok(Some(String::from_str(alloc, text)?)),
    }
}

/// The fault if neither of two keys is present: one of them may be in the table of what is fixed.
pub fn neither_of(table: &Table, key: &'static str, other: &'static str) -> PlanError
    requires key { HasNone (table_view table.now) key.now }
    requires other { HasNone (table_view table.now) other.now }
    ensures { IsFaultOf (table_view table.now) result }
{
    if is_among_fixed(table, key) {
        return PlanError::AmongFixed { key };
    }
    if is_among_fixed(table, other) {
        return PlanError::AmongFixed { key: other };
    }
    PlanError::NeitherKey { key, other }
}

/// Whether a key is in the table of what is fixed.
fn is_among_fixed(table: &Table, key: &str) -> bool
    ensures { IsTrue result ↔ IsAmongFixed (table_view table.now) key.now }
{
    match value_at(table, "fixed") {
        Some(value) => match table_in(value) {
            Some(pins) => value_at(pins, key).is_some(),
            None => false,
        },
        None => false,
    }
}

/// The source of the flows.
pub fn flows_of(alloc: Global, table: &Table) -> Result<Flows, PlanError>
    ensures flows { IfOk result (SaysFlows (table_view table.now)) }
    ensures refused { IfErr result (IsFaultOf (table_view table.now)) }
{
    let matrix = text_of(alloc, table, "flows")?;
    let list = text_of(alloc, table, "trips")?;
    let departments = departments_of(alloc, table)?;
    match (matrix, list, departments) {
        (Some(_), Some(_), _) => Err(PlanError::BothKeys {
            key: "flows",
            other: "trips",
        }),
        (None, None, _) => Err(neither_of(table, "flows", "trips")),
        (Some(_), None, Some(_)) => Err(PlanError::LoneKey {
            key: "departments",
            other: "trips",
        }),
        (Some(file), None, None) => Ok(Flows::Matrix(file)),
        (None, Some(file), None) => Ok(Flows::Trips(file)),
        (None, Some(file), Some(names)) => Ok(Flows::TripsBetween(file, names)),
    }
}

/// The departments that are named, where they are.
fn departments_of(alloc: Global, table: &Table) -> Result<Option<Vec<String>>, PlanError>
    ensures names { IfOk result (λ found. MatchOption found (HasNone (table_view table.now) (codes "departments"))
        (λ names. (get_member (codes "departments") (table_view table.now) ≡ Some (array (strings_of (map string_bytes names.items)))) × AreNames (map string_bytes names.items))) }
    ensures refused { IfErr result (IsFaultOf (table_view table.now)) }
{
    let Some(value) = value_at(table, "departments") else {
        return Ok(None);
    };
    let Some(items) = items_in(value) else {
        return Err(PlanError::Departments(NamesFault::NoList {
            found: value.type_str(),
        }));
    };
    Ok(Some(names_of(alloc, items)?))
}

/// What is fixed.
pub fn fixed_of(alloc: Global, table: &Table) -> Result<Vec<Pin>, PlanError>
    ensures fixed { IfOk result (λ pins. SaysFixed (get_member (codes "fixed") (table_view table.now)) pins.items) }
    ensures refused { IfErr result (IsFaultOf (table_view table.now)) }
{
    let Some(value) = value_at(table, "fixed") else {
        return Ok(Vec::new(alloc));
    };
    match table_in(value) {
        Some(pins) => pins_of(alloc, pins),
        None => Err(PlanError::Fixed(PinsFault::NoTable {
            found: value.type_str(),
        })),
    }
}

/// Each department with its place.
fn pins_of(alloc: Global, table: &Table) -> Result<Vec<Pin>, PlanError>
    ensures pins { IfOk result (λ pins. ArePins (table_view table.now) pins.items) }
    ensures refused { IfErr result IsFixingFault }
{
    let mut pins = Vec::new(alloc);
    'pins: for (department, place) in table.iter() {
        let pin = pin_of(alloc, department.as_str(), place)?;
        pins.push(pin).map_err(|_| PlanError::OutOfMemory)?;
    }
    Ok(pins)
}

/// A department with its place.
fn pin_of(alloc: Global, department: &str, value: &Value) -> Result<Pin, PlanError>
    ensures pin { IfOk result (IsPin department.now (view value.now)) }
    ensures refused { IfErr result IsFixingFault }
{
    check_department(alloc, department)?;
    let own = String::from_str(alloc, department)?;
    let Some(place) = text_in(value) else {
        return Err(PlanError::Fixed(PinsFault::NoPlace {
            department: own,
            found: value.type_str(),
        }));
    };
    check_place(alloc, department, place)?;
    Ok(Pin {
        department: own,
        place: String::from_str(alloc, place)?,
    })
}

/// Checks that the name of a department has no control character.
fn check_department(alloc: Global, department: &str) -> Result<(), PlanError>
    ensures visible { OnOk result (HasNoControl department.now) }
    ensures refused { IfErr result IsFixingFault }
{
    match first_control(department) {
        Some(control) => Err(PlanError::Fixed(PinsFault::ControlInDepartment {
            department: shown(alloc, department)?,
            code: u32::from(control),
        })),
        None => Ok(()),
    }
}

/// Checks that the name of a department's place has no control character.
fn check_place(alloc: Global, department: &str, place: &str) -> Result<(), PlanError>
    ensures visible { OnOk result (HasNoControl place.now) }
    ensures refused { IfErr result IsFixingFault }
{
    match first_control(place) {
        Some(control) => Err(PlanError::Fixed(PinsFault::ControlInPlace {
            department: shown(alloc, department)?,
            code: u32::from(control),
        })),
        None => Ok(()),
    }
}
