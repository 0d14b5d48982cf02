//! Exchanges of two facilities' locations as long as one improves the cost (Armour and Buffa 1963).

ghost use Rattle.std.specs.Prelude.{◌≡◌, ◌<◌, ◌≤ℤ◌, IfOk, length};
ghost use Rattle.qap_cost.specs.Instance.{IsInstance};
ghost use Rattle.qap_cost.specs.Objective.{Permutes, cost_of};
ghost use Rattle.qap_improve.specs.Arrangement.{IsArrangement};
ghost use Rattle.qap_improve.specs.Exchange.{IsLocallyLeast, exchanging};
ghost use Rattle.qap_improve.specs.Round.{HasTried, NoneGainsWith};

use crate::arrangement::{Arrangement, arranged, change_at, exchange_two};
use qap_cost::{Instance, Perm, cost};
use std::alloc::{AllocError, Global};

/// A permutation and what it costs.
#[derive(Drop)]
pub struct Improved {
    pub permutation: Perm,
    pub cost: i128,
}

/// A permutation that costs no more than `start`, and that no exchange of two facilities' locations improves.
///
/// It goes over all pairs of facilities in order, makes each exchange that improves the cost at once, and ends with a
/// round in which none does. A round takes time O(n^3) for n facilities; the number of rounds is not bounded in
/// advance. It stores four tables of n^2 numbers of 32 bits. The only error is out of memory.
pub fn exchange(alloc: Global, instance: &Instance, start: &Perm) -> Result<Improved, AllocError>
    requires { length start.now ≡ instance.now.size }
    ensures permutation { IfOk result (λ x. Permutes instance.now x.permutation) }
    ensures cost { IfOk result (λ x. x.cost ≡ cost_of instance.now x.permutation) }
    ensures no_dearer { IfOk result (λ x. x.cost ≤ℤ cost_of instance.now start.now) }
    ensures least { IfOk result (λ x. IsLocallyLeast instance.now x.permutation) }
{
    let arrangement = arranged(alloc, instance, start.locations())?;
    let Ok(permutation) = Perm::new(descended(instance, arrangement)) else {
        unreachable!()
    };
    let cost = cost(instance, &permutation);
    Ok(Improved { permutation, cost })
}

/// These locations after all exchanges that gain.
fn descended(instance: &Instance, mut arrangement: Arrangement) -> Vec<u16>
    requires { IsArrangement instance.now arrangement }
    ensures permutation { Permutes instance.now result.items }
    ensures no_dearer { cost_of instance.now result.items ≤ℤ cost_of instance.now arrangement.locations.items }
    ensures least { IsLocallyLeast instance.now result.items }
{
    descend(instance, &mut arrangement);
    arrangement.locations
}

/// Goes over all pairs until a round has no gain.
fn descend(instance: &Instance, arrangement: &mut Arrangement)
    requires { IsArrangement instance.now arrangement.old }
    ensures permutation { Permutes instance.now arrangement.new.locations.items }
    ensures no_dearer { cost_of instance.now arrangement.new.locations.items ≤ℤ cost_of instance.now arrangement.old.locations.items }
    ensures least { IsLocallyLeast instance.now arrangement.new.locations.items }
{
    while improve(instance, arrangement) {}
}

/// Goes over all pairs once and exchanges each that gains; whether one did.
fn improve(instance: &Instance, arrangement: &mut Arrangement) -> bool
    requires { IsArrangement instance.now arrangement.old }
    ensures arrangement { IsArrangement instance.now arrangement.new }
    ensures tried { HasTried instance.now (IsLocallyLeast instance.now) arrangement.old.locations.items arrangement.new.locations.items result }
    ensures instance { IsInstance instance.now }
{
    let mut gained = false;
    for r in 0..instance.size() {
        gained |= improve_with(instance, arrangement, r);
    }
    gained
}

/// Likewise for the pairs of facility `r` and a greater one.
fn improve_with(instance: &Instance, arrangement: &mut Arrangement, r: usize) -> bool
    requires arrangement { IsArrangement instance.now arrangement.old }
    requires first { r < instance.now.size }
    ensures arrangement { IsArrangement instance.now arrangement.new }
    ensures tried { HasTried instance.now (NoneGainsWith instance.now r instance.now.size) arrangement.old.locations.items arrangement.new.locations.items result }
{
    let mut gained = false;
    for s in r + 1..instance.size() {
        gained |= exchange_if_gain(instance, arrangement, r, s);
    }
    gained
}

/// Exchanges the locations of the two if that gains; whether it did.
fn exchange_if_gain(instance: &Instance, arrangement: &mut Arrangement, r: usize, s: usize) -> bool
    requires arrangement { IsArrangement instance.now arrangement.old }
    requires order { r < s }
    requires second { s < instance.now.size }
    ensures arrangement { IsArrangement instance.now arrangement.new }
    ensures tried { HasTried instance.now (λ p. cost_of instance.now p ≤ℤ cost_of instance.now (exchanging p r s)) arrangement.old.locations.items arrangement.new.locations.items result }
{
    let gains = change_at(instance, arrangement, r, s) < 0;
    if gains {
        exchange_two(instance, arrangement, r, s);
    }
    gains
}
