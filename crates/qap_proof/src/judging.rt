//! Whether duals close a node.

ghost use Rattle.std.specs.Prelude.{◌≡◌, IfOk, MatchOption};
ghost use Rattle.qap_proof.specs.Fault.{IsClosedFault};
ghost use Rattle.qap_proof.specs.NodeLine.{pair_of};
ghost use Rattle.gilmore_lawler.specs.Closing.{AreDuals, Closes};
ghost use Rattle.qap_proof.specs.Shape.{free_count};

use crate::error::ProofError;
use crate::tree::Duals;
use gilmore_lawler::{NodeRows, dual_sum};
use qap_cost::Partial;
use std::alloc::AllocError;

/// The fault that keeps duals from closing a node, if any. Its Gilmore-Lawler matrix isn't made.
pub(crate) fn closed_fault(
    rows: &mut NodeRows<'_>,
    bound: i128,
    node: &Partial,
    duals: &Duals,
    line: u64,
) -> Result<Option<ProofError>, AllocError>
    requires size { rows.old.size ≡ node.now.size }
    requires duals { AreDuals (free_count node.now) duals.now.u.items duals.now.v.items }
    ensures judged { IfOk result (λ found. MatchOption found
        (Closes rows.old bound node.now duals.now.u.items duals.now.v.items)
        (IsClosedFault rows.old bound node.now line (pair_of duals.now))) }
    ensures same { rows.new ≡ rows.old }
{
    if !rows.fits(node, &duals.u, &duals.v)? {
        return Ok(Some(ProofError::NotFeasible(line)));
    }
    let reached = node.fixed_cost(rows.instance()) + dual_sum(&duals.u, &duals.v);
    if reached < bound {
        return Ok(Some(ProofError::BoundTooLow(line)));
    }
    Ok(None)
}
