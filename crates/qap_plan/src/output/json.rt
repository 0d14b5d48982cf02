//! An answer as JSON. Each text is read back before it is given out, so that what `show` and `check` read in it is that
//! answer.

ghost use Rattle.std.specs.Prelude.{IfOk};
ghost use Rattle.plan_check.specs.Answer.{StatesFound, StatesPlanned};
ghost use Rattle.plan_file.specs.Tables.{HasSizes};
ghost use Rattle.qap_cost.specs.Placement.{Completes};

use plan_answer::{CostParts, cost_text, dearest_pairs, gap_text};
use plan_check::{states_found, states_planned};
use plan_file::NamedProblem;
use plan_files::PlannerError;
use plan_search::Planned;
use qap_command::VERSION;
use qap_cost::Perm;
use serde_json::{Map, Value, json};
use std::alloc::{AllocError, Global};

/// How many of the costliest pairs are listed.
const PAIRS: usize = 5;

/// The answer, in one object: `status` is `optimal` or `bounded`; `cost` and `bound` are texts, since they may pass 64
/// bits; `permutation` has the location of each facility, counted from 1; `nodes` were decided and `open` were left
/// open, in this many `milliseconds`.
pub fn json_text(
    alloc: Global,
    answer: &Planned,
    milliseconds: u64,
) -> Result<Vec<u8>, PlannerError>
    ensures { IfOk result (λ text. StatesFound text.items answer.now.permutation answer.now.cost answer.now.bound) }
{
    let text = numbers_text(alloc, answer, milliseconds)?.into_bytes();
    if !states_found(alloc, &text, &answer.permutation, answer.cost, answer.bound)? {
        return Err(PlannerError::Json);
    }
    Ok(text)
}

/// The text of that object.
fn numbers_text(alloc: Global, answer: &Planned, milliseconds: u64) -> Result<String, AllocError> {
    let cost = answer.cost;
    let bound = answer.bound;
    let value = json!(in alloc; {
        "version": VERSION,
        "status": status_word(answer),
        "cost": format!(in alloc; "{cost}")?,
        "bound": format!(in alloc; "{bound}")?,
        "permutation": locations(alloc, &answer.permutation)?,
        "nodes": answer.nodes,
        "open": answer.open_nodes,
        "milliseconds": milliseconds,
    })?;
    value.to_string(alloc)
}

/// Likewise for a problem with names: `cost` and `bound` are in the plan's own units, `departments` and `places` are
/// the names, in the tables' order, and `arrangement` lists the place of each department. `gap` is how far the cost may
/// be above the least, in percent, or null if that is unknown; `pairs` are the costliest; `fixed`, if something is
/// fixed, has the place of each fixed department, and `round`, if the tables' numbers were rounded, the number of
/// decimals.
pub fn named_json_text(
    alloc: Global,
    problem: &NamedProblem,
    answer: &Planned,
    milliseconds: u64,
) -> Result<Vec<u8>, PlannerError>
    requires sizes { HasSizes problem.now }
    requires kept { Completes problem.now.fixed answer.now.permutation }
    ensures { IfOk result (λ text. StatesPlanned problem.now text.items answer.now.permutation answer.now.cost answer.now.bound) }
{
    let text = named_value(alloc, problem, answer, milliseconds)?.to_string(alloc)?;
    read_back(alloc, problem, answer, text.into_bytes())
}

/// The text, if it reads back as the answer.
fn read_back(
    alloc: Global,
    problem: &NamedProblem,
    answer: &Planned,
    text: Vec<u8>,
) -> Result<Vec<u8>, PlannerError>
    requires sizes { HasSizes problem.now }
    requires kept { Completes problem.now.fixed answer.now.permutation }
    ensures { IfOk result (λ text. StatesPlanned problem.now text.items answer.now.permutation answer.now.cost answer.now.bound) }
{
    let permutation = &answer.permutation;
    if !states_planned(
        alloc,
        problem,
        &text,
        permutation,
        answer.cost,
        answer.bound,
    )? {
        return Err(PlannerError::Json);
    }
    Ok(text)
}

/// Likewise for a problem whose places cost something or are forbidden: `flows_cost` and `places_cost` are the parts of
/// the cost, if they are given.
pub fn charged_json_text(
    alloc: Global,
    problem: &NamedProblem,
    answer: &Planned,
    parts: Option<CostParts>,
    milliseconds: u64,
) -> Result<Vec<u8>, PlannerError>
    requires sizes { HasSizes problem.now }
    requires kept { Completes problem.now.fixed answer.now.permutation }
    ensures { IfOk result (λ text. StatesPlanned problem.now text.items answer.now.permutation answer.now.cost answer.now.bound) }
{
    let value = charged_value(alloc, problem, answer, parts, milliseconds)?;
    let text = value.to_string(alloc)?;
    read_back(alloc, problem, answer, text.into_bytes())
}

/// The object of such an answer.
fn charged_value(
    alloc: Global,
    problem: &NamedProblem,
    answer: &Planned,
    parts: Option<CostParts>,
    milliseconds: u64,
) -> Result<Value, AllocError>
    requires sizes { HasSizes problem.now }
    requires kept { Completes problem.now.fixed answer.now.permutation }
{
    let mut value = named_value(alloc, problem, answer, milliseconds)?;
    if let (Some(parts), Some(fields)) = (parts, value.as_object_mut()) {
        let flows = cost_value(alloc, problem, parts.flows)?;
        fields.insert(String::from_str(alloc, "flows_cost")?, Value::String(flows))?;
        let places = cost_value(alloc, problem, parts.places)?;
        fields.insert(
            String::from_str(alloc, "places_cost")?,
            Value::String(places),
        )?;
    }
    Ok(value)
}

/// The object of an answer to a problem with names.
fn named_value(
    alloc: Global,
    problem: &NamedProblem,
    answer: &Planned,
    milliseconds: u64,
) -> Result<Value, AllocError>
    requires sizes { HasSizes problem.now }
    requires kept { Completes problem.now.fixed answer.now.permutation }
{
    let mut value = json!(in alloc; {
        "version": VERSION,
        "status": status_word(answer),
        "cost": cost_value(alloc, problem, answer.cost)?,
        "bound": cost_value(alloc, problem, answer.bound)?,
        "gap": gap_value(alloc, answer)?,
        "departments": names_value(alloc, &problem.departments)?,
        "places": names_value(alloc, &problem.places)?,
        "arrangement": arrangement(alloc, problem, &answer.permutation)?,
        "permutation": locations(alloc, &answer.permutation)?,
        "pairs": pairs_value(alloc, problem, &answer.permutation)?,
        "flow_scale": problem.flow_scale as u64,
        "distance_scale": problem.distance_scale as u64,
        "nodes": answer.nodes,
        "open": answer.open_nodes,
        "milliseconds": milliseconds,
    })?;
    add_fixed(alloc, problem, &mut value)?;
    if let (Some(places), Some(fields)) = (problem.rounded, value.as_object_mut()) {
        fields.insert(
            String::from_str(alloc, "round")?,
            Value::from(places as u64),
        )?;
    }
    Ok(value)
}

/// How far the cost may lie above the least, in percent, or null.
fn gap_value(alloc: Global, answer: &Planned) -> Result<Value, AllocError> {
    match gap_text(alloc, answer.cost, answer.bound)? {
        Some(text) => Ok(Value::String(String::from_str(
            alloc,
            std::str::from_utf8(&text).unwrap_or(""),
        )?)),
        None => Ok(Value::Null),
    }
}

/// The pairs of departments that cost most, each with its cost in the plan's own units.
fn pairs_value(
    alloc: Global,
    problem: &NamedProblem,
    permutation: &Perm,
) -> Result<Value, AllocError>
    requires sizes { HasSizes problem.now }
    requires kept { Completes problem.now.fixed permutation.now }
{
    let mut values = Vec::new(alloc);
    for pair in &dearest_pairs(alloc, &problem.instance, permutation, PAIRS)? {
        let value = json!(in alloc; {
            "from": name_value(alloc, problem, pair.from)?,
            "to": name_value(alloc, problem, pair.to)?,
            "cost": cost_value(alloc, problem, i128::from(pair.cost))?,
        })?;
        values.push(value)?;
    }
    Ok(Value::Array(values))
}

/// The name of a department.
fn name_value(alloc: Global, problem: &NamedProblem, i: usize) -> Result<String, AllocError> {
    match problem.departments.get(i) {
        Some(name) => name.clone(),
        None => Ok(String::new(alloc)),
    }
}

/// What a problem's instance only numbers: `departments` and `places` are the names, in the tables' order, `flow_scale` and `distance_scale` the powers of
/// ten that made the tables whole, and `fixed`, where something is fixed, has the place of each department that is, by its name.
pub fn names_text(alloc: Global, problem: &NamedProblem) -> Result<String, AllocError> {
    let mut value = json!(in alloc; {
        "version": VERSION,
        "departments": names_value(alloc, &problem.departments)?,
        "places": names_value(alloc, &problem.places)?,
        "flow_scale": problem.flow_scale as u64,
        "distance_scale": problem.distance_scale as u64,
    })?;
    add_fixed(alloc, problem, &mut value)?;
    value.to_string(alloc)
}

/// Adds the places of what is fixed to an object, where something is.
fn add_fixed(alloc: Global, problem: &NamedProblem, value: &mut Value) -> Result<(), AllocError> {
    if problem.fixed.depth() > 0 {
        if let Some(fields) = value.as_object_mut() {
            fields.insert(
                String::from_str(alloc, "fixed")?,
                fixed_places(alloc, problem)?,
            )?;
        }
    }
    Ok(())
}

/// The place of each department that is fixed, by its name.
fn fixed_places(alloc: Global, problem: &NamedProblem) -> Result<Value, AllocError> {
    let mut fixed = Map::new(alloc);
    for (i, department) in problem.departments.iter().enumerate() {
        let place = problem
            .fixed
            .at(i)
            .and_then(|location| problem.places.get(usize::from(location)));
        if let Some(place) = place {
            fixed.insert(department.clone()?, Value::String(place.clone()?))?;
        }
    }
    Ok(Value::Object(fixed))
}

fn status_word(answer: &Planned) -> &'static str {
    if answer.is_optimal() {
        "optimal"
    } else {
        "bounded"
    }
}

/// A cost in the plan's own units.
fn cost_value(alloc: Global, problem: &NamedProblem, cost: i128) -> Result<String, AllocError>
    requires { HasSizes problem.now }
{
    let text = cost_text(alloc, problem, cost)?;
    String::from_str(alloc, std::str::from_utf8(&text).unwrap_or(""))
}

/// Names, as a list of texts.
fn names_value(alloc: Global, names: &[String]) -> Result<Value, AllocError> {
    let mut values = Vec::new(alloc);
    for name in names {
        values.push(Value::String(name.clone()?))?;
    }
    Ok(Value::Array(values))
}

/// The place of each department, by its name.
fn arrangement(
    alloc: Global,
    problem: &NamedProblem,
    permutation: &Perm,
) -> Result<Value, AllocError> {
    let mut places = Vec::new(alloc);
    for (_, &location) in problem.departments.iter().zip(permutation.locations()) {
        if let Some(place) = problem.places.get(usize::from(location)) {
            places.push(Value::String(place.clone()?))?;
        }
    }
    Ok(Value::Array(places))
}

/// The location of each facility, counted from 1.
fn locations(alloc: Global, permutation: &Perm) -> Result<Value, AllocError> {
    let mut locations = Vec::new(alloc);
    for &location in permutation.locations() {
        locations.push(Value::from(u32::from(location) + 1))?;
    }
    Ok(Value::Array(locations))
}
