//! The names in an answer, if present.

ghost use Rattle.std.specs.Prelude.{◌≡◌, ◌≢◌, ◌⊎◌, ◌<◌, IfOk, MatchOption, MatchResult, None, codes, length, map, slice_get, string_bytes};
ghost use Rattle.serde_json.specs.Data.{string};
ghost use Rattle.serde_json.specs.Find.{get};
ghost use Rattle.serde_json.specs.View.{view};
ghost use Rattle.plan_check.specs.Names.{HasNoNames, MayList, arrangement_of, department_names, place_names};
ghost use Rattle.plan_check.specs.Refusal.{IsMisnamed, IsNamed};
ghost use Rattle.plan_file.specs.Tables.{HasSizes};

use crate::error::AnswerError;
use crate::lookup::{is_text, items_in, value_at};
use plan_file::NamedProblem;
use qap_cost::Perm;
use serde_json::Value;
use std::alloc::{AllocError, Global};

/// Checks that the names of an answer are the plan's.
pub fn check_names(problem: &NamedProblem, value: &Value) -> Result<(), AnswerError>
    ensures { MatchResult result
        (λ _. MayList (view value.now) (codes "departments") (department_names problem.now) × MayList (view value.now) (codes "places") (place_names problem.now))
        (λ e. IsMisnamed (view value.now) (codes "departments") (department_names problem.now) e
        ⊎ IsMisnamed (view value.now) (codes "places") (place_names problem.now) e) }
{
    check_list(value, "departments", &problem.departments)?;
    check_list(value, "places", &problem.places)?;
    Ok(())
}

/// Checks the places of the departments, by their names.
pub fn check_arrangement(
    alloc: Global,
    problem: &NamedProblem,
    permutation: &Perm,
    value: &Value,
) -> Result<(), AnswerError>
    requires sizes { HasSizes problem.now }
    requires same_size { length permutation.now ≡ problem.now.instance.size }
    ensures { MatchResult result
        (λ _. MayList (view value.now) (codes "arrangement") (arrangement_of problem.now permutation.now))
        (IsMisnamed (view value.now) (codes "arrangement") (arrangement_of problem.now permutation.now)) }
{
    let places = places_of(alloc, problem, permutation)?;
    check_list(value, "arrangement", &places)
}

/// Checks that there are no names.
pub fn check_unnamed(value: &Value) -> Result<(), AnswerError>
    ensures { MatchResult result
        (λ _. HasNoNames (view value.now))
        (λ e. IsNamed (view value.now) (codes "departments") e ⊎ IsNamed (view value.now) (codes "places") e ⊎ IsNamed (view value.now) (codes "arrangement") e) }
{
    check_missing(value, "departments")?;
    check_missing(value, "places")?;
    check_missing(value, "arrangement")?;
    Ok(())
}

/// Checks that a key isn't there.
fn check_missing(value: &Value, key: &'static str) -> Result<(), AnswerError>
    ensures { MatchResult result (λ _. get key.now (view value.now) ≡ None) (IsNamed (view value.now) key.now) }
{
    match value_at(value, key) {
        Some(_) => Err(AnswerError::Named { key }),
        None => Ok(()),
    }
}

/// The place of each department, by its name.
fn places_of(
    alloc: Global,
    problem: &NamedProblem,
    permutation: &Perm,
) -> Result<Vec<String>, AllocError>
    requires sizes { HasSizes problem.now }
    requires same_size { length permutation.now ≡ problem.now.instance.size }
    ensures { IfOk result (λ v. map string_bytes v.items ≡ arrangement_of problem.now permutation.now) }
{
    let locations = permutation.locations();
    let mut places = Vec::new(alloc);
    for i in 0..problem.departments.len() {
        let place = problem.places[usize::from(locations[i])].clone()?;
        places.push(place)?;
    }
    Ok(places)
}

/// Checks the names of a key, where it is there.
fn check_list(value: &Value, key: &'static str, names: &[String]) -> Result<(), AnswerError>
    ensures { MatchResult result
        (λ _. MayList (view value.now) key.now (map string_bytes names.now))
        (IsMisnamed (view value.now) key.now (map string_bytes names.now)) }
{
    let Some(found) = value_at(value, key) else {
        return Ok(());
    };
    let count = names.len();
    let Some(items) = items_in(found) else {
        return Err(AnswerError::OtherNames { key, count });
    };
    if items.len() != count {
        return Err(AnswerError::OtherNames { key, count });
    }
    let Some(i) = other_name(items, names) else {
        return Ok(());
    };
    let name = names[i].clone()?;
    Err(AnswerError::OtherName {
        key,
        number: i + 1,
        name,
    })
}

/// The first position whose value is not this name.
fn other_name(items: &[Value], names: &[String]) -> Option<usize>
    requires { length items.now ≡ length names.now }
    ensures { MatchOption result
        (map view items.now ≡ map string (map string_bytes names.now))
        (λ i. (i < length names.now) × (slice_get (map view items.now) i ≢ slice_get (map string (map string_bytes names.now)) i)) }
{
    for i in 0..names.len() {
        if !is_text(&items[i], names[i].as_str()) {
            return Some(i);
        }
    }
    None
}
