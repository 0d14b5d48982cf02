//! A plan's tables as a text of numbers, and what the numbers mean.

ghost use Rattle.std.specs.Prelude.{IfOk};
ghost use Rattle.plan_charge.specs.Charges.{AreCharges};
ghost use Rattle.plan_charge.specs.Forbidden.{AreForbidden};
ghost use Rattle.plan_check.specs.Answer.{StatesNames};
ghost use Rattle.plan_file.specs.Tables.{HasSizes};
ghost use Rattle.qap_plan.specs.Converting.{IsConverted, IsInstanceOf};

use crate::output::json::names_text;
use plan_check::states_names;
use plan_file::NamedProblem;
use plan_files::{PlannerError, Restriction, is_plain, widened};
use plan_input::Loaded;
use qap_text::text_of_instance;
use std::alloc::{AllocError, Global};

/// The tables of a plan, their numbers apart from their names.
#[derive(Drop)]
pub struct Converted {
    /// The text of the instance, in the QAPLIB format.
    pub text: Vec<u8>,
    /// The names and the scales, as JSON.
    pub names: Vec<u8>,
    /// The line that states the size, and what the tables were multiplied with.
    pub line: String,
}

/// What a plan's tables are converted to. A plan with costs of places or forbidden places gives the larger instance that has
/// these, with the names of its first facilities and locations.
pub fn converted_texts(alloc: Global, loaded: &Loaded) -> Result<Converted, PlannerError>
    requires sizes { HasSizes loaded.now.problem }
    requires charges { AreCharges loaded.now.problem.instance.size loaded.now.charges }
    requires forbidden { AreForbidden loaded.now.problem.instance.size loaded.now.forbidden }
    ensures { IfOk result (IsConverted loaded.now) }
{
    let (text, size) = instance_text(alloc, loaded)?;
    let names = checked_names(alloc, &loaded.problem)?;
    let line = summary(alloc, &loaded.problem, size)?;
    Ok(Converted { text, names, line })
}

/// The text of the instance, and its size.
fn instance_text(alloc: Global, loaded: &Loaded) -> Result<(Vec<u8>, usize), PlannerError>
    requires sizes { HasSizes loaded.now.problem }
    requires charges { AreCharges loaded.now.problem.instance.size loaded.now.charges }
    requires forbidden { AreForbidden loaded.now.problem.instance.size loaded.now.forbidden }
    ensures { IfOk result (λ made. IsInstanceOf loaded.now made.0.items) }
{
    if is_plain(loaded) {
        let instance = &loaded.problem.instance;
        let text = text_of_instance(alloc, instance)?;
        return Ok((text, instance.size()));
    }
    let restriction = Restriction {
        fixed: &loaded.problem.fixed,
        charges: &loaded.charges,
        forbidden: &loaded.forbidden,
    };
    let larger = widened(alloc, &loaded.problem.instance, &restriction)?;
    let text = text_of_instance(alloc, &larger.instance)?;
    Ok((text, larger.instance.size()))
}

/// The names and the scales as JSON, which reads back as these.
fn checked_names(alloc: Global, problem: &NamedProblem) -> Result<Vec<u8>, PlannerError>
    ensures { IfOk result (λ names. StatesNames problem.now names.items) }
{
    let text = names_text(alloc, problem)?.into_bytes();
    if !states_names(alloc, problem, &text)? {
        return Err(PlannerError::Json);
    }
    Ok(text)
}

/// The line that states the size, and what the tables were multiplied with.
fn summary(alloc: Global, problem: &NamedProblem, size: usize) -> Result<String, AllocError> {
    let flows = power_of_ten(alloc, problem.flow_scale)?;
    let distances = power_of_ten(alloc, problem.distance_scale)?;
    format!(in alloc; "size {size}, flows times {flows}, distances times {distances}\n")
}

/// A power of ten, in digits.
fn power_of_ten(alloc: Global, exponent: usize) -> Result<String, AllocError> {
    let zeros = "0".repeat(alloc, exponent)?;
    format!(in alloc; "1{zeros}")
}
