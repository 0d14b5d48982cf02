//! What restricts an arrangement: what is fixed, what facilities pay for their locations, and which they may not take.

ghost use Rattle.std.specs.Prelude.{◌≡◌, IfOk, IfSome, IsTrue};
ghost use Rattle.plan_charge.specs.Charges.{AreCharges};
ghost use Rattle.plan_charge.specs.Forbidden.{AreForbidden};
ghost use Rattle.plan_charge.specs.Restricted.{IsAllowed, Restricts};

use crate::error::PlannerError;
use assign_dual::{is_in_range, solve};
use plan_charge::{Charges, Forbidden, Restricted, restrict};
use plan_file::completes;
use qap_cost::{Instance, Matrix, Partial, Perm};
use std::alloc::{AllocError, Global};

/// What restricts an arrangement.
#[derive(Clone, Copy, Drop)]
pub struct Restriction<'a> {
    /// What is fixed.
    pub fixed: &'a Partial,
    /// What facilities pay for their locations.
    pub charges: &'a Charges,
    /// Which locations they may not take.
    pub forbidden: &'a Forbidden,
}

/// The instance and the node that a search with a restriction searches. It is an error if forbidden locations cannot cost
/// enough.
pub fn widened(
    alloc: Global,
    instance: &Instance,
    restriction: &Restriction<'_>,
) -> Result<Restricted, PlannerError>
    requires size { restriction.now.fixed.now.size ≡ instance.now.size }
    requires charges { AreCharges instance.now.size restriction.now.charges.now }
    requires forbidden { AreForbidden instance.now.size restriction.now.forbidden.now }
    ensures { IfOk result (λ w. Restricts instance.now restriction.now.fixed.now restriction.now.charges.now restriction.now.forbidden.now w.instance w.node) }
{
    match restrict(
        alloc,
        instance,
        restriction.fixed,
        restriction.charges,
        restriction.forbidden,
    )? {
        Some(restricted) => Ok(restricted),
        None => Err(PlannerError::TooWide),
    }
}

/// The requested start, or any arrangement that respects the restriction. It is an error if the requested one does not,
/// or if none is found.
pub fn allowed_start(
    alloc: Global,
    restriction: &Restriction<'_>,
    requested: Option<Perm>,
) -> Result<Perm, PlannerError>
    requires { AreForbidden restriction.now.fixed.now.size restriction.now.forbidden.now }
    ensures allowed { IfOk result (IsAllowed restriction.now.fixed.now restriction.now.forbidden.now) }
    ensures requested { IfOk result (λ start. IfSome requested (λ p. start ≡ p)) }
{
    match requested {
        Some(start) => {
            if is_allowed(restriction, &start) {
                Ok(start)
            } else {
                Err(PlannerError::StartForbidden)
            }
        }
        None => match any_allowed(alloc, restriction)? {
            Some(start) if is_allowed(restriction, &start) => Ok(start),
            _ => Err(PlannerError::NoArrangement),
        },
    }
}

/// Whether an arrangement respects what is fixed and uses no forbidden location.
fn is_allowed(restriction: &Restriction<'_>, permutation: &Perm) -> bool
    requires { AreForbidden restriction.now.fixed.now.size restriction.now.forbidden.now }
    ensures { IsTrue result → IsAllowed restriction.now.fixed.now restriction.now.forbidden.now permutation.now }
{
    permutation.len() == restriction.fixed.size()
        && completes(restriction.fixed, permutation)
        && restriction.forbidden.is_spared(permutation.locations())
}

/// A least assignment of facilities to locations, of which those that are barred cost 1.
fn any_allowed(alloc: Global, restriction: &Restriction<'_>) -> Result<Option<Perm>, AllocError>
    requires { AreForbidden restriction.now.fixed.now.size restriction.now.forbidden.now }
{
    let n = restriction.fixed.size();
    let mut entries = Vec::with_capacity(alloc, n * n)?;
    for cell in 0..n * n {
        let barred = is_barred(restriction, cell / n, cell % n);
        entries.push(if barred { 1 } else { 0 })?;
    }
    let Some(matrix) = Matrix::new(n, entries) else {
        return Ok(None);
    };
    if !is_in_range(&matrix) {
        return Ok(None);
    }
    let assignment = solve(alloc, &matrix)?;
    match Perm::new(assignment.matching) {
        Ok(permutation) => Ok(Some(permutation)),
        Err(_) => Ok(None),
    }
}

/// Whether a facility may not be at a location: it is fixed elsewhere, or the location is forbidden.
fn is_barred(restriction: &Restriction<'_>, i: usize, k: usize) -> bool
    requires { AreForbidden restriction.now.fixed.now.size restriction.now.forbidden.now }
{
    let n = restriction.fixed.size();
    match restriction.fixed.at(i) {
        Some(place) => usize::from(place) != k,
        None => k < n && restriction.forbidden.at(n, i, k),
    }
}
