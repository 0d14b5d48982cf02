//! Which places departments may not take.

ghost use Rattle.std.specs.Prelude.{◌≡◌, ◌↔◌, ◌+◌, ◌*◌, ◌≤◌, ◌<◌, false, IfOk, IsTrue, OnOk, length, map, string_bytes};
ghost use Rattle.plan_charge.specs.Forbidden.{AreForbidden};
ghost use Rattle.plan_file.specs.Charges.{IsBarCell, IsForbiddenBy};
ghost use Rattle.plan_file.specs.Choices.{AreKnownChoices, HasChosen, HasOthers, IsBarred, IsRestricted};
ghost use Rattle.plan_file.specs.Filled.{AreFilled};
ghost use Rattle.plan_file.specs.Last.{IsUpToLast};
ghost use Rattle.plan_table.specs.Grid.{AreAmong};
ghost use Rattle.plan_table.specs.Names.{HasName};
ghost use Rattle.plan_table.specs.Trips.{name_at};

use crate::error::ChargesError;
use crate::source::{Charging, Choice};
use plan_charge::Forbidden;
use plan_table::{first_other, has_name, shown};
use qap_cost::MAX_SIZE;
use std::alloc::{AllocError, Global};

/// The places that a plan forbids to departments, or does not allow to them.
pub fn forbidden_of(
    alloc: Global,
    charging: &Charging,
    departments: &[String],
    places: &[String],
) -> Result<Forbidden, ChargesError>
    requires { length departments.now ≤ length places.now }
    ensures forbidden { IfOk result (AreForbidden (length places.now)) }
    ensures barred { IfOk result (IsForbiddenBy charging.now (map string_bytes departments.now) (map string_bytes places.now)) }
{
    check_choices(alloc, "forbidden", &charging.forbidden, departments, places)?;
    check_choices(alloc, "allowed", &charging.allowed, departments, places)?;
    let count = restricted(charging, departments, places);
    check_room(places.len(), count)?;
    let cells = cells_of(alloc, charging, departments, places, count)?;
    Ok(Forbidden { count, cells })
}

/// Checks that there is room for so many facilities beside a facility for each place.
pub fn check_room(places: usize, count: usize) -> Result<(), ChargesError>
    ensures { OnOk result (places + count ≤ 256) }
{
    if places <= MAX_SIZE && count <= MAX_SIZE - places {
        return Ok(());
    }
    Err(ChargesError::NoRoom { places, count })
}

/// Checks that each name at a key is that of a department, or of a place.
fn check_choices(
    alloc: Global,
    key: &'static str,
    choices: &[Choice],
    departments: &[String],
    places: &[String],
) -> Result<(), ChargesError>
    ensures { OnOk result (AreKnownChoices (map string_bytes departments.now) (map string_bytes places.now) choices.now) }
{
    for choice in choices {
        check_choice(alloc, key, choice, departments, places)?;
    }
    Ok(())
}

/// Checks that a department's name and those of its places are known.
fn check_choice(
    alloc: Global,
    key: &'static str,
    choice: &Choice,
    departments: &[String],
    places: &[String],
) -> Result<(), ChargesError>
    ensures department { OnOk result (HasName (map string_bytes departments.now) (string_bytes choice.now.department)) }
    ensures places { OnOk result (AreAmong (map string_bytes choice.now.places.items) (map string_bytes places.now)) }
{
    if !has_name(departments, choice.department.as_str()) {
        return Err(ChargesError::UnknownDepartment {
            key,
            department: shown(alloc, choice.department.as_str())?,
        });
    }
    match first_other(&choice.places, places) {
        None => Ok(()),
        Some(k) => Err(ChargesError::UnknownPlace {
            key,
            department: shown(alloc, choice.department.as_str())?,
            place: shown(alloc, choice.places[k].as_str())?,
        }),
    }
}

/// How many departments there are up to the last that may not take each place.
fn restricted(charging: &Charging, departments: &[String], places: &[String]) -> usize
    ensures { IsUpToLast (λ i. IsRestricted charging.now (map string_bytes places.now) (name_at (map string_bytes departments.now) i)) (length departments.now) result }
{
    for k in 0..departments.len() {
        let i = departments.len() - 1 - k;
        if is_restricted(charging, departments[i].as_str(), places) {
            return i + 1;
        }
    }
    0
}

/// Whether there is a place that a department may not take.
fn is_restricted(charging: &Charging, department: &str, places: &[String]) -> bool
    ensures { IsTrue result ↔ IsRestricted charging.now (map string_bytes places.now) department.now }
{
    for place in places {
        if is_barred(charging, department, place.as_str()) {
            return true;
        }
    }
    false
}

/// For each of the first departments and each place, by rows, whether the department may not take the place.
fn cells_of(
    alloc: Global,
    charging: &Charging,
    departments: &[String],
    places: &[String],
    count: usize,
) -> Result<Vec<bool>, AllocError>
    requires count { count ≤ length departments.now }
    requires room { length places.now + count ≤ 256 }
    ensures { IfOk result (λ v. AreFilled (IsBarCell charging.now (map string_bytes departments.now) (map string_bytes places.now)) false (length places.now) (count * length places.now) v.items) }
{
    let n = places.len();
    let mut cells = Vec::with_capacity(alloc, count * n)?;
    for q in 0..count * n {
        let i = q / n;
        let k = q % n;
        let cell = is_barred(charging, departments[i].as_str(), places[k].as_str());
        cells.push(cell)?;
    }
    Ok(cells)
}

/// Whether a department may not take a place.
fn is_barred(charging: &Charging, department: &str, place: &str) -> bool
    ensures { IsTrue result ↔ IsBarred charging.now department.now place.now }
{
    has_chosen(&charging.forbidden, department, place)
        || has_others(&charging.allowed, department, place)
}

/// Whether a department is among these with this place.
fn has_chosen(choices: &[Choice], department: &str, place: &str) -> bool
    ensures { IsTrue result ↔ HasChosen choices.now department.now place.now }
{
    for choice in choices {
        if has_place(choice, department, place) {
            return true;
        }
    }
    false
}

/// Whether a department is among these without this place.
fn has_others(choices: &[Choice], department: &str, place: &str) -> bool
    ensures { IsTrue result ↔ HasOthers choices.now department.now place.now }
{
    for choice in choices {
        if lacks_place(choice, department, place) {
            return true;
        }
    }
    false
}

/// Whether the department is this one, and the place among its places.
fn has_place(choice: &Choice, department: &str, place: &str) -> bool
    ensures { IsTrue result ↔ ((string_bytes choice.now.department ≡ department.now) × HasName (map string_bytes choice.now.places.items) place.now) }
{
    choice.department.as_str() == department && has_name(&choice.places, place)
}

/// Whether the department is this one, and the place not among its places.
fn lacks_place(choice: &Choice, department: &str, place: &str) -> bool
    ensures { IsTrue result ↔ ((string_bytes choice.now.department ≡ department.now) × (HasName (map string_bytes choice.now.places.items) place.now → ⊥)) }
{
    choice.department.as_str() == department && !has_name(&choice.places, place)
}
