//! Charges that keep facilities off forbidden locations.

ghost use Rattle.std.specs.Prelude.{◌≡◌, ◌+ℤ◌, ◌<◌, ◌≤◌, ◌<ℤ◌, ◌≤ℤ◌, IfOk, MatchOption, pos, true};
ghost use Rattle.qap_cost.specs.Limits.{max_entry};
ghost use Rattle.qap_cost.specs.Range.{InRange};
ghost use Rattle.plan_charge.specs.Charges.{AreCharges, charge_at};
ghost use Rattle.plan_charge.specs.Forbidden.{AreForbidden, is_forbidden};
ghost use Rattle.plan_charge.specs.Forbidding.{DoesNotFit, Forbids, IsPassed, IsRaised, base_at, raised_at};

use crate::charges::Charges;
use crate::forbidden::Forbidden;
use crate::penalty::{Penalty, penalty_for};
use qap_cost::Instance;
use std::alloc::{AllocError, Global};

/// The greatest entry.
const MAX_ENTRY: i64 = 1_000_000_000;

/// The charges, raised where a location is forbidden, so that a permutation that uses a forbidden location costs more
/// than each that uses none; those cost what they did. The weight stays if a facility pays. `None` if such charges are out of range.
pub fn forbid(
    alloc: Global,
    instance: &Instance,
    charges: &Charges,
    forbidden: &Forbidden,
) -> Result<Option<Charges>, AllocError>
    requires charges { AreCharges instance.now.size charges.now }
    requires forbidden { AreForbidden instance.now.size forbidden.now }
    ensures { IfOk result (λ found. MatchOption found (DoesNotFit instance.now charges.now forbidden.now) (Forbids instance.now charges.now forbidden.now)) }
{
    let Some(penalty) = penalty_for(instance, charges, forbidden) else {
        return Ok(None);
    };
    match raised(alloc, charges, forbidden, instance.size(), penalty)? {
        Some(raised) => Ok(Some(raised)),
        None => Ok(None),
    }
}

/// The charges of `n` facilities with a penalty where a location is forbidden. `None` if an entry passes the greatest.
fn raised(
    alloc: Global,
    charges: &Charges,
    forbidden: &Forbidden,
    n: usize,
    penalty: Penalty,
) -> Result<Option<Charges>, AllocError>
    requires positive { 0 < n }
    requires charges { AreCharges n charges.now }
    requires forbidden { AreForbidden n forbidden.now }
    requires weight { InRange penalty.weight }
    requires least { pos 0 ≤ℤ penalty.step }
    requires small { penalty.step ≤ℤ pos max_entry }
    ensures { IfOk result (λ found. MatchOption found (IsPassed n charges.now forbidden.now penalty.step) (IsRaised n charges.now forbidden.now penalty)) }
{
    let count = charges.count.max(forbidden.count);
    let mut entries = Vec::with_capacity(alloc, count * n)?;
    for k in 0..count * n {
        match raised_entry(charges, forbidden, n, k / n, k % n, penalty.step) {
            Some(entry) => entries.push(entry)?,
            None => return Ok(None),
        }
    }
    let weight = penalty.weight;
    Ok(Some(Charges {
        count,
        weight,
        entries,
    }))
}

/// The entry of a facility at a location, raised by a step if that is forbidden. `None` if that passes the greatest.
fn raised_entry(
    charges: &Charges,
    forbidden: &Forbidden,
    n: usize,
    i: usize,
    k: usize,
    step: i64,
) -> Option<i64>
    requires charges { AreCharges n charges.now }
    requires forbidden { AreForbidden n forbidden.now }
    requires column { k < n }
    requires least { pos 0 ≤ℤ step }
    requires small { step ≤ℤ pos max_entry }
    ensures { MatchOption result
        ((is_forbidden n forbidden.now i k ≡ true) × (pos max_entry <ℤ (base_at n charges.now i k +ℤ step)))
        (λ e. (e ≡ raised_at n charges.now forbidden.now step i k) × InRange e) }
{
    let entry = base(charges, n, i, k);
    if !forbidden.at(n, i, k) {
        return Some(entry);
    }
    let raised = entry + step;
    if raised > MAX_ENTRY {
        return None;
    }
    Some(raised)
}

/// The entry of a facility at a location, or 0 if it does not pay.
fn base(charges: &Charges, n: usize, i: usize, k: usize) -> i64
    requires charges { AreCharges n charges.now }
    requires column { k < n }
    ensures value { result ≡ base_at n charges.now i k }
    ensures range { InRange result }
{
    if i < charges.count {
        charges.entry(n, i, k)
    } else {
        0
    }
}
