//! Names in a list of a plan.

ghost use Rattle.std.specs.Prelude.{◌≡◌, ◌<◌, IfErr, IfOk, OnOk, length, map, string_bytes};
ghost use Rattle.toml.specs.Data.{string};
ghost use Rattle.toml.specs.View.{items_view, view};
ghost use Rattle.plan_table.specs.Control.{HasNoControl};
ghost use Rattle.plan_table.specs.Names.{AreNames, IsNew};
ghost use Rattle.plan_file.specs.Keys.{strings_of};
ghost use Rattle.plan_file.specs.Plan.{IsNamesFault};

use crate::error::{NamesFault, PlanError};
use crate::lookup::text_in;
use plan_table::{MAX_NAMES, find_name, first_control};
use std::alloc::Global;
use toml::Value;

/// The names of a list: 1 to 256, none empty, none with a control character and none twice.
pub fn names_of(alloc: Global, items: &[Value]) -> Result<Vec<String>, PlanError>
    ensures items { IfOk result (λ names. items_view items.now ≡ strings_of (map string_bytes names.items)) }
    ensures names { IfOk result (λ names. AreNames (map string_bytes names.items)) }
    ensures refused { IfErr result IsNamesFault }
{
    let count = items.len();
    if count == 0 || count > MAX_NAMES {
        return Err(PlanError::Departments(NamesFault::OtherCount { count }));
    }
    let mut names = Vec::new(alloc);
    for i in 0..count {
        let name = name_of(alloc, &items[i], i + 1)?;
        let name = new_name(&names, name, i + 1)?;
        names.push(name).map_err(|_| PlanError::OutOfMemory)?;
    }
    Ok(names)
}

/// The name that an item is, which has this number.
fn name_of(alloc: Global, item: &Value, number: usize) -> Result<String, PlanError>
    ensures name { IfOk result (λ name. view item.now ≡ string (string_bytes name)) }
    ensures refused { IfErr result IsNamesFault }
{
    match text_in(item) {
        Some(name) => Ok(String::from_str(alloc, name)?),
        None => Err(PlanError::Departments(NamesFault::NoName {
            number,
            found: item.type_str(),
        })),
    }
}

/// The name, where it isn't empty, has no control character, and none of the others is it.
fn new_name(others: &[String], name: String, number: usize) -> Result<String, PlanError>
    ensures name { IfOk result (λ own. (own ≡ name) × IsNew (map string_bytes others.now) (string_bytes own)) }
    ensures refused { IfErr result IsNamesFault }
{
    if name.is_empty() {
        return Err(PlanError::Departments(NamesFault::EmptyName { number }));
    }
    check_visible(name.as_str(), number)?;
    if find_name(others, name.as_str()).is_some() {
        return Err(PlanError::Departments(NamesFault::NameTwice { number, name }));
    }
    Ok(name)
}

/// Checks that a name has no control character.
fn check_visible(name: &str, number: usize) -> Result<(), PlanError>
    ensures visible { OnOk result (HasNoControl name.now) }
    ensures refused { IfErr result IsNamesFault }
{
    match first_control(name) {
        Some(control) => Err(PlanError::Departments(NamesFault::ControlInName {
            number,
            code: u32::from(control),
        })),
        None => Ok(()),
    }
}
