//! What the use of a forbidden location costs.

ghost use Rattle.std.specs.Prelude.{◌≡◌, ◌-◌, ◌*◌, ◌^◌, ◌<◌, ◌≤◌, ◌≤ℤ◌, ◌*ℤ◌, ◌⊎◌, pos, MatchOption};
ghost use Rattle.qap_cost.specs.Limits.{max_entry};
ghost use Rattle.plan_charge.specs.Charges.{AreCharges};
ghost use Rattle.plan_charge.specs.Forbidding.{IsPenalty, IsStep, most_weight};
ghost use Rattle.plan_charge.specs.Spread.{spread};

use crate::charges::Charges;
use crate::forbidden::Forbidden;
use crate::spread::spread;
use qap_cost::Instance;

/// The greatest entry and weight.
const MAX_ENTRY: u128 = 1_000_000_000;

/// What the use of a forbidden location costs: the weight times the step.
#[derive(Clone, Copy, Debug, PartialEq, Eq)]
pub struct Penalty {
    /// The weight of the charges.
    pub weight: i64,
    /// By how much the entry of a forbidden location is raised.
    pub step: i64,
}

/// The least penalty above the spread of the costs, at the weight of the charges if a facility pays, and 0 if no
/// location is forbidden. `None` if it does not fit.
pub(crate) fn penalty_for(
    instance: &Instance,
    charges: &Charges,
    forbidden: &Forbidden,
) -> Option<Penalty>
    requires { AreCharges instance.now.size charges.now }
    ensures { MatchOption result
        ((most_weight charges.now *ℤ pos max_entry) ≤ℤ spread instance.now charges.now)
        (IsPenalty charges.now forbidden.now (spread instance.now charges.now)) }
{
    if forbidden.count == 0 {
        return Some(Penalty {
            weight: charges.weight,
            step: 0,
        });
    }
    let spread = spread(instance, charges);
    let weight = weight_for(charges, spread);
    match step_above(weight, spread) {
        Some(step) => Some(Penalty {
            weight: weight as i64,
            step: step as i64,
        }),
        None => None,
    }
}

/// The weight of the charges, or 0 if it is negative; if no facility pays, one at which an entry costs more than the
/// spread, or the greatest.
fn weight_for(charges: &Charges, spread: u128) -> u64
    requires weight { charges.now.weight ≤ℤ pos max_entry }
    requires small { spread ≤ 10 ^ 34 }
    ensures small { result ≤ 10 ^ 9 }
    ensures payers { 0 < charges.now.count → (pos result ≡ charges.now.weight) ⊎ ((charges.now.weight ≤ℤ pos 0) × (result ≡ 0)) }
    ensures none { charges.now.count ≡ 0 → (result ≡ 10 ^ 9) ⊎ (spread < result * 10 ^ 9) }
{
    if charges.count == 0 {
        return (spread / MAX_ENTRY + 1).min(MAX_ENTRY) as u64;
    }
    if charges.weight <= 0 {
        return 0;
    }
    charges.weight as u64
}

/// The least step that costs more than the spread at this weight. `None` if it is above the greatest entry.
fn step_above(weight: u64, spread: u128) -> Option<u64>
    requires { spread ≤ 10 ^ 34 }
    ensures { MatchOption result (weight * 10 ^ 9 ≤ spread) (IsStep weight spread) }
{
    if weight == 0 {
        return None;
    }
    let step = spread / u128::from(weight) + 1;
    if step > MAX_ENTRY {
        return None;
    }
    Some(step as u64)
}
