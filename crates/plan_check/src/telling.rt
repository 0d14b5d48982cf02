//! The report on a checked answer to a plan.

ghost use Rattle.std.specs.Prelude.{IfOk, MatchOption};
ghost use Rattle.plan_answer.specs.Stated.{IsCostLine};
ghost use Rattle.plan_check.specs.Telling.{TellsProved};
ghost use Rattle.plan_file.specs.Tables.{HasSizes};
ghost use Rattle.qap_cost.specs.Objective.{cost_of};
ghost use Rattle.qap_cost.specs.Placement.{Completes};

use crate::fault::ProofFault;
use crate::proving::proved_bound;
use plan_answer::{cost_line, verdict_text};
use plan_file::NamedProblem;
use qap_cost::{Perm, cost};
use std::alloc::Global;

/// The line that reports the cost of an arrangement that respects what is fixed, in the plan's own units, and if the
/// text of a proof is given, what that establishes.
pub fn checked_line(
    alloc: Global,
    problem: &NamedProblem,
    permutation: &Perm,
    proof: Option<&[u8]>,
) -> Result<Vec<u8>, ProofFault>
    requires sizes { HasSizes problem.now }
    requires kept { Completes problem.now.fixed permutation.now }
    ensures { IfOk result (λ line. MatchOption proof.entry (IsCostLine problem.now (cost_of problem.now.instance permutation.now) line.items)
        (λ text. TellsProved problem.now permutation.now text.now line.items)) }
{
    let cost = cost(&problem.instance, permutation);
    let Some(text) = proof else {
        return Ok(cost_line(alloc, problem, cost)?);
    };
    let scale = problem.flow_scale + problem.distance_scale;
    let bound = proved_bound(
        alloc,
        &problem.instance,
        &problem.fixed,
        scale,
        permutation,
        text,
    )?;
    Ok(verdict_text(alloc, problem, cost, bound)?)
}
