//! Departments fixed at places.

ghost use Rattle.std.specs.Prelude.{◌≡◌, ◌<◌, ◌≤◌, ℕ, IfOk, OnOk, length, map, string_bytes};
ghost use Rattle.qap_cost.specs.Placement.{IsPlacement, placing};
ghost use Rattle.plan_file.specs.Fixing.{AreFixed, IsNameAt};

use crate::error::FixingError;
use crate::plan::is_known;
use plan_table::{Pin, find_name};
use qap_cost::Partial;
use std::alloc::Global;

/// The node of an instance that places the named departments at their places and leaves the others free. There are 1 to
/// 256 places, and no more departments.
pub fn fixed_node(
    alloc: Global,
    pins: &[Pin],
    departments: &[String],
    places: &[String],
) -> Result<Partial, FixingError>
    requires positive { 0 < length places.now }
    requires few { length places.now ≤ 256 }
    requires room { length departments.now ≤ length places.now }
    ensures fixed { IfOk result (AreFixed pins.now (map string_bytes departments.now) (map string_bytes places.now)) }
    ensures placement { IfOk result IsPlacement }
{
    let mut node = Partial::root(alloc, places.len())?;
    for pin in pins {
        place_pin(alloc, &mut node, pin, departments, places)?;
    }
    Ok(node)
}

/// Places a department at its place.
fn place_pin(
    alloc: Global,
    node: &mut Partial,
    pin: &Pin,
    departments: &[String],
    places: &[String],
) -> Result<(), FixingError>
    requires few { length places.now ≤ 256 }
    requires room { length departments.now ≤ length places.now }
    requires size { node.old.size ≡ length places.now }
    ensures placed { OnOk result ((f k : ℕ) × IsNameAt (map string_bytes departments.now) f (string_bytes pin.now.department)
        × IsNameAt (map string_bytes places.now) k (string_bytes pin.now.place) × (node.new ≡ placing node.old f k)) }
    ensures placement { OnOk result (IsPlacement node.new) }
{
    let Some(facility) = find_name(departments, pin.department.as_str()) else {
        return Err(unknown_department(pin.department.clone()?));
    };
    let Some(location) = find_name(places, pin.place.as_str()) else {
        return Err(FixingError::UnknownPlace {
            department: pin.department.clone()?,
            place: pin.place.clone()?,
        });
    };
    let facility = facility as u16;
    let location = location as u16;
    if node.is_placed(facility) || !node.is_free(location) {
        return Err(FixingError::PlaceTwice {
            department: pin.department.clone()?,
            place: pin.place.clone()?,
        });
    }
    node.put(facility, location)?;
    Ok(())
}

/// What is wrong with a name that no department has: it may be that of a key which is after `[fixed]`.
fn unknown_department(name: String) -> FixingError {
    if is_known(name.as_str()) {
        FixingError::KeyAmongFixed { key: name }
    } else {
        FixingError::UnknownDepartment { department: name }
    }
}
