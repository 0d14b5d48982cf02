//! Reads a plan.

ghost use Rattle.std.specs.Prelude.{◌≡◌, ◌↔◌, IfErr, IfOk, IsTrue, MatchOption, OnOk};
ghost use Rattle.toml.specs.Errors.{IsMemory};
ghost use Rattle.toml.specs.View.{table_view};
ghost use Rattle.plan_file.specs.Plan.{AreKnown, IsFaultOf, IsKnown, IsKnownOfCharging, IsKnownOfDistances, IsKnownOfDrawing, IsKnownOfFlows, IsKnownOfRules, IsPlanFault, IsPlanText, IsSyntaxError};
ghost use Rattle.plan_file.specs.Tables.{IsSound};
ghost use Rattle.plan_file.specs.declared.error.PlanError.TheVariants.{OutOfMemory as WantOfMemory};

use crate::choosing::charging_of;
use crate::drawing::drawing_of;
use crate::error::PlanError;
use crate::measuring::distances_of;
use crate::place::TextPlace;
use crate::ruling::rules_of;
use crate::source::Plan;
use crate::values::{fixed_of, flows_of};
use plan_table::shown;
use std::alloc::Global;
use toml::de::Error;
use toml::{Table, table_from_slice};

/// Reads a plan: a text in TOML with the keys `flows` or `trips`, `departments`, `distances` or `places`, `metric`, `decimals`, `decimal_mark`,
/// `round`, `symmetric`, `duplicates`, `title`, `y`, `costs`, `fixed`, `forbidden` and `allowed`, and no other.
///
/// `departments` goes with `trips` alone; `metric` goes with `places` and must be there; `decimals` goes with the Euclidean metric alone;
/// `y` goes with `places`. No department is under both `forbidden` and `allowed`, and one under `allowed` has a place.
pub fn read_plan(alloc: Global, text: &[u8]) -> Result<Plan, PlanError>
    ensures plan { IfOk result (IsPlanText text.now) }
    ensures sound { IfOk result IsSound }
    ensures refused { IfErr result (IsPlanFault text.now) }
{
    let table = match table_from_slice(alloc, text) {
        Ok(table) => table,
        Err(error) => return Err(syntax_error(alloc, text, &error)),
    };
    check_keys(alloc, &table)?;
    let flows = flows_of(alloc, &table)?;
    let distances = distances_of(alloc, &table)?;
    let rules = rules_of(alloc, &table)?;
    let fixed = fixed_of(alloc, &table)?;
    let charging = charging_of(alloc, &table)?;
    let drawing = drawing_of(alloc, &table)?;
    Ok(Plan {
        flows,
        distances,
        rules,
        fixed,
        charging,
        drawing,
    })
}

/// What is wrong with a text that is not TOML.
fn syntax_error(alloc: Global, text: &[u8], error: &Error) -> PlanError
    ensures memory { IsMemory error.now → result ≡ WantOfMemory }
    ensures syntax { IsSyntaxError result }
{
    let Some(span) = error.span() else {
        return PlanError::OutOfMemory;
    };
    match shown(alloc, error.message()) {
        Ok(message) => PlanError::Syntax {
            place: TextPlace::behind(&text[..span.start.min(text.len())]),
            message,
        },
        Err(_) => PlanError::OutOfMemory,
    }
}

/// Checks that a plan may have each key of a table.
fn check_keys(alloc: Global, table: &Table) -> Result<(), PlanError>
    ensures known { OnOk result (AreKnown (table_view table.now)) }
    ensures refused { IfErr result (IsFaultOf (table_view table.now)) }
{
    match unknown_key(table) {
        Some(key) => Err(PlanError::UnknownKey {
            key: shown(alloc, key)?,
        }),
        None => Ok(()),
    }
}

/// The first key of a table that a plan may not have.
fn unknown_key(table: &Table) -> Option<&str>
    ensures { MatchOption result (AreKnown (table_view table.now))
        (λ key. (IsKnown key.now → ⊥) × (AreKnown (table_view table.now) → ⊥)) }
{
    for key in table.keys() {
        if !is_known(key.as_str()) {
            return Some(key.as_str());
        }
    }
    None
}

/// Whether a plan may have a key.
pub fn is_known(key: &str) -> bool
    ensures { IsTrue result ↔ IsKnown key.now }
{
    is_known_of_flows(key)
        || is_known_of_distances(key)
        || is_known_of_rules(key)
        || is_known_of_drawing(key)
        || is_known_of_charging(key)
        || key == "fixed"
}

/// Whether a key is one that specifies how the tables are read.
fn is_known_of_rules(key: &str) -> bool
    ensures { IsTrue result ↔ IsKnownOfRules key.now }
{
    key == "decimal_mark" || key == "round" || key == "symmetric" || key == "duplicates"
}

/// Whether a key is one that specifies how the plan is drawn.
fn is_known_of_drawing(key: &str) -> bool
    ensures { IsTrue result ↔ IsKnownOfDrawing key.now }
{
    key == "title" || key == "y"
}

/// Whether a key is one of those for the flows.
fn is_known_of_flows(key: &str) -> bool
    ensures { IsTrue result ↔ IsKnownOfFlows key.now }
{
    key == "flows" || key == "trips" || key == "departments"
}

/// Whether a key is one of those for the distances.
fn is_known_of_distances(key: &str) -> bool
    ensures { IsTrue result ↔ IsKnownOfDistances key.now }
{
    key == "distances" || key == "places" || key == "metric" || key == "decimals"
}

/// Whether a key is one of those for the costs of places, and for which of them departments may take.
fn is_known_of_charging(key: &str) -> bool
    ensures { IsTrue result ↔ IsKnownOfCharging key.now }
{
    key == "costs" || key == "forbidden" || key == "allowed"
}
