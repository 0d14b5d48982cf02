//! The reports on checked answers.

ghost use Rattle.std.specs.Prelude.{IfOk, option_copied};
ghost use Rattle.plan_file.specs.Tables.{HasSizes};
ghost use Rattle.qap_cost.specs.Objective.{Permutes};
ghost use Rattle.qap_plan.specs.Checking.{ConfirmsFound, ConfirmsPlan, TellsOfNumbers, TellsOfPlan};

use crate::output::answer::{cost_line, verdict_line};
use plan_check::{
    AnswerError, ProofFault, answer_to_instance, answer_to_plan, checked_line, proved_bound,
};
use plan_file::NamedProblem;
use qap_cost::{Instance, Partial, Perm, cost};
use std::alloc::Global;

/// Why an answer is not confirmed.
#[derive(Debug, Drop)]
pub enum CheckFault {
    /// The text is no answer.
    Answer(AnswerError),
    /// The proof establishes nothing about it.
    Proof(ProofFault),
}

/// The line that reports what the answer costs whose JSON a text is, and if the text of a proof is given, what that
/// establishes.
pub fn confirmed_plan(
    alloc: Global,
    problem: &NamedProblem,
    text: &[u8],
    proof: Option<&[u8]>,
) -> Result<Vec<u8>, CheckFault>
    requires { HasSizes problem.now }
    ensures { IfOk result (λ line. ConfirmsPlan problem.now text.now (λ p. TellsOfPlan problem.now (option_copied proof.entry) p line.items)) }
{
    let answer = match answer_to_plan(alloc, problem, text) {
        Ok(answer) => answer,
        Err(error) => return Err(CheckFault::Answer(error)),
    };
    match checked_line(alloc, problem, &answer.permutation, proof) {
        Ok(line) => Ok(line),
        Err(fault) => Err(CheckFault::Proof(fault)),
    }
}

/// Likewise for an answer to an instance.
pub fn confirmed_numbers(
    alloc: Global,
    instance: &Instance,
    text: &[u8],
    proof: Option<&[u8]>,
) -> Result<Vec<u8>, CheckFault>
    ensures { IfOk result (λ line. ConfirmsFound instance.now text.now (λ p. TellsOfNumbers instance.now (option_copied proof.entry) p line.items)) }
{
    let answer = match answer_to_instance(alloc, instance, text) {
        Ok(answer) => answer,
        Err(error) => return Err(CheckFault::Answer(error)),
    };
    match checked_numbers(alloc, instance, &answer.permutation, proof) {
        Ok(line) => Ok(line),
        Err(fault) => Err(CheckFault::Proof(fault)),
    }
}

/// The line that reports the cost of a permutation, and if the text of a proof is given, what that establishes.
fn checked_numbers(
    alloc: Global,
    instance: &Instance,
    permutation: &Perm,
    proof: Option<&[u8]>,
) -> Result<Vec<u8>, ProofFault>
    requires { Permutes instance.now permutation.now }
    ensures { IfOk result (λ line. TellsOfNumbers instance.now (option_copied proof.entry) permutation.now line.items) }
{
    let cost = cost(instance, permutation);
    let Some(text) = proof else {
        return Ok(cost_line(alloc, cost)?.into_bytes());
    };
    let root = Partial::root(alloc, instance.size())?;
    let bound = proved_bound(alloc, instance, &root, 0, permutation, text)?;
    Ok(verdict_line(alloc, cost, bound)?.into_bytes())
}
