//! What places cost departments, and which of them these may take.

ghost use Rattle.std.specs.Prelude.{◌≡◌, ◌↔◌, IfErr, IfOk, IsTrue, OnOk, Some, codes, map, string_bytes};
ghost use Rattle.toml.specs.Data.{get_member, string};
ghost use Rattle.toml.specs.View.{items_view, table_view, view};
ghost use Rattle.plan_file.specs.Charging.{AreChoices, IsChoice, SaysCharging, SaysChoices, SaysCosts};
ghost use Rattle.plan_file.specs.Choices.{AreApart, HavePlaces, choosers};
ghost use Rattle.plan_file.specs.Keys.{strings_of};
ghost use Rattle.plan_file.specs.Plan.{IsChoosingFault, IsFaultOf};
ghost use Rattle.plan_table.specs.Names.{HasName};

use crate::error::{ChoicesFault, PlanError};
use crate::lookup::{items_in, table_in, text_in, value_at};
use crate::source::{Charging, Choice};
use crate::values::text_of;
use plan_table::shown;
use std::alloc::Global;
use toml::{Table, Value};

/// What places cost, and which of them departments may take.
pub fn charging_of(alloc: Global, table: &Table) -> Result<Charging, PlanError>
    ensures charging { IfOk result (SaysCharging (table_view table.now)) }
    ensures refused { IfErr result (IsFaultOf (table_view table.now)) }
{
    let costs = costs_of(alloc, table)?;
    let forbidden = choices_of(alloc, table, "forbidden")?;
    let allowed = allowed_of(alloc, table, &forbidden)?;
    Ok(Charging {
        costs,
        forbidden,
        allowed,
    })
}

/// The file of the costs, where the plan names one.
fn costs_of(alloc: Global, table: &Table) -> Result<Option<String>, PlanError>
    ensures costs { IfOk result (SaysCosts (table_view table.now)) }
    ensures refused { IfErr result (IsFaultOf (table_view table.now)) }
{
    text_of(alloc, table, "costs")
}

/// The departments with places at a key, if it is there.
fn choices_of(alloc: Global, table: &Table, key: &'static str) -> Result<Vec<Choice>, PlanError>
    ensures choices { IfOk result (λ v. SaysChoices (get_member key.now (table_view table.now)) v.items) }
    ensures refused { IfErr result (IsFaultOf (table_view table.now)) }
{
    let Some(value) = value_at(table, key) else {
        return Ok(Vec::new(alloc));
    };
    Ok(choices_at(alloc, key, value)?)
}

/// The departments with the only places that they may take; none of them is among the others.
fn allowed_of(alloc: Global, table: &Table, others: &[Choice]) -> Result<Vec<Choice>, PlanError>
    ensures choices { IfOk result (λ v. SaysChoices (get_member (codes "allowed") (table_view table.now)) v.items) }
    ensures some { IfOk result (λ v. HavePlaces v.items) }
    ensures apart { IfOk result (λ v. AreApart others.now v.items) }
    ensures refused { IfErr result (IsFaultOf (table_view table.now)) }
{
    let Some(value) = value_at(table, "allowed") else {
        return Ok(Vec::new(alloc));
    };
    Ok(allowed_at(alloc, value, others)?)
}

/// The same, of the value at that key.
fn allowed_at(alloc: Global, value: &Value, others: &[Choice]) -> Result<Vec<Choice>, PlanError>
    ensures choices { IfOk result (λ v. SaysChoices (Some (view value.now)) v.items) }
    ensures some { IfOk result (λ v. HavePlaces v.items) }
    ensures apart { IfOk result (λ v. AreApart others.now v.items) }
    ensures refused { IfErr result (IsChoosingFault (codes "allowed")) }
{
    let choices = choices_at(alloc, "allowed", value)?;
    check_some(alloc, &choices)?;
    check_apart(alloc, others, &choices)?;
    Ok(choices)
}

/// Departments with places, of the value at a key.
fn choices_at(alloc: Global, key: &'static str, value: &Value) -> Result<Vec<Choice>, PlanError>
    ensures choices { IfOk result (λ v. SaysChoices (Some (view value.now)) v.items) }
    ensures refused { IfErr result (IsChoosingFault key.now) }
{
    match table_in(value) {
        Some(choices) => choices_in(alloc, key, choices),
        None => Err(PlanError::Choosing {
            key,
            fault: ChoicesFault::NoTable {
                found: value.type_str(),
            },
        }),
    }
}

/// Each department of a table with its places.
fn choices_in(alloc: Global, key: &'static str, table: &Table) -> Result<Vec<Choice>, PlanError>
    ensures choices { IfOk result (λ v. AreChoices (table_view table.now) v.items) }
    ensures refused { IfErr result (IsChoosingFault key.now) }
{
    let mut choices = Vec::new(alloc);
    'choices: for (department, value) in table.iter() {
        let choice = choice_of(alloc, key, department.as_str(), value)?;
        choices.push(choice).map_err(|_| PlanError::OutOfMemory)?;
    }
    Ok(choices)
}

/// A department with its places.
fn choice_of(
    alloc: Global,
    key: &'static str,
    department: &str,
    value: &Value,
) -> Result<Choice, PlanError>
    ensures choice { IfOk result (IsChoice department.now (view value.now)) }
    ensures refused { IfErr result (IsChoosingFault key.now) }
{
    let Some(items) = items_in(value) else {
        return Err(PlanError::Choosing {
            key,
            fault: ChoicesFault::NoList {
                department: shown(alloc, department)?,
                found: value.type_str(),
            },
        });
    };
    let places = places_of(alloc, key, department, items)?;
    Ok(Choice {
        department: String::from_str(alloc, department)?,
        places,
    })
}

/// The places of a department, in order.
fn places_of(
    alloc: Global,
    key: &'static str,
    department: &str,
    items: &[Value],
) -> Result<Vec<String>, PlanError>
    ensures items { IfOk result (λ places. items_view items.now ≡ strings_of (map string_bytes places.items)) }
    ensures refused { IfErr result (IsChoosingFault key.now) }
{
    let mut places = Vec::new(alloc);
    for i in 0..items.len() {
        let place = place_of(alloc, key, department, &items[i], i + 1)?;
        places.push(place).map_err(|_| PlanError::OutOfMemory)?;
    }
    Ok(places)
}

/// The place that an item names, which has this number.
fn place_of(
    alloc: Global,
    key: &'static str,
    department: &str,
    item: &Value,
    number: usize,
) -> Result<String, PlanError>
    ensures place { IfOk result (λ place. view item.now ≡ string (string_bytes place)) }
    ensures refused { IfErr result (IsChoosingFault key.now) }
{
    match text_in(item) {
        Some(place) => Ok(String::from_str(alloc, place)?),
        None => Err(PlanError::Choosing {
            key,
            fault: ChoicesFault::NoPlace {
                department: shown(alloc, department)?,
                number,
                found: item.type_str(),
            },
        }),
    }
}

/// Checks that each department that may take only some places has one.
fn check_some(alloc: Global, choices: &[Choice]) -> Result<(), PlanError>
    ensures some { OnOk result (HavePlaces choices.now) }
    ensures refused { IfErr result (IsChoosingFault (codes "allowed")) }
{
    for choice in choices {
        if choice.places.is_empty() {
            return Err(PlanError::Choosing {
                key: "allowed",
                fault: ChoicesFault::NoneLeft {
                    department: shown(alloc, choice.department.as_str())?,
                },
            });
        }
    }
    Ok(())
}

/// Checks that no department that may take only some places is among the others.
fn check_apart(alloc: Global, others: &[Choice], choices: &[Choice]) -> Result<(), PlanError>
    ensures apart { OnOk result (AreApart others.now choices.now) }
    ensures refused { IfErr result (IsChoosingFault (codes "allowed")) }
{
    for choice in choices {
        if is_chooser(others, choice.department.as_str()) {
            return Err(PlanError::Choosing {
                key: "allowed",
                fault: ChoicesFault::Both {
                    department: shown(alloc, choice.department.as_str())?,
                },
            });
        }
    }
    Ok(())
}

/// Whether a department is among these.
fn is_chooser(choices: &[Choice], department: &str) -> bool
    ensures { IsTrue result ↔ HasName (choosers choices.now) department.now }
{
    for choice in choices {
        if choice.department.as_str() == department {
            return true;
        }
    }
    false
}
