//! The costliest pairs of facilities.

ghost use Rattle.std.specs.Prelude.{◌≡◌, ◌<◌, ◌≤◌, IfOk, OnOk, int_lt, length};
ghost use Rattle.std.specs.List.{position_or_len};
ghost use Rattle.qap_cost.specs.Objective.{pair_cost};
ghost use Rattle.plan_answer.specs.Pairs.{AreDearest};
ghost use Rattle.plan_answer.specs.Putting.{kept_with};

use qap_cost::{Instance, Perm, product};
use std::alloc::{AllocError, Global};

/// Two facilities, and what they cost together at their locations.
#[derive(Clone, Copy, Debug, PartialEq, Eq)]
pub struct Pair {
    pub from: usize,
    pub to: usize,
    pub cost: i64,
}

/// The pairs of facilities that cost most, at most this many, the costliest first, and of equal ones the first by rows;
/// none that costs nothing.
pub fn dearest_pairs(
    alloc: Global,
    instance: &Instance,
    permutation: &Perm,
    most: usize,
) -> Result<Vec<Pair>, AllocError>
    requires { length permutation.now ≡ instance.now.size }
    ensures { IfOk result (λ v. AreDearest instance.now permutation.now most v.items) }
{
    let mut pairs = Vec::new(alloc);
    for from in 0..instance.size() {
        for to in 0..instance.size() {
            let pair = Pair {
                from,
                to,
                cost: pair_cost(instance, permutation, from, to),
            };
            put_pair(&mut pairs, pair, most)?;
        }
    }
    Ok(pairs)
}

/// What two facilities cost together at their locations.
fn pair_cost(instance: &Instance, permutation: &Perm, from: usize, to: usize) -> i64
    requires same_size { length permutation.now ≡ instance.now.size }
    requires from { from < instance.now.size }
    requires to { to < instance.now.size }
    ensures { result ≡ pair_cost instance.now permutation.now from to }
{
    let flow = instance.a(from, to);
    let locations = permutation.locations();
    let here = usize::from(locations[from]);
    let there = usize::from(locations[to]);
    product(flow, instance.b(here, there))
}

/// Puts a pair that costs something where it belongs among the costliest, so that at most this many are left.
fn put_pair(pairs: &mut Vec<Pair>, pair: Pair, most: usize) -> Result<(), AllocError>
    requires { length pairs.old.items ≤ most }
    ensures { OnOk result (pairs.new.items ≡ kept_with most pair pairs.old.items) }
{
    if pair.cost <= 0 {
        return Ok(());
    }
    let at = place_of(pairs, &pair);
    if at < most {
        pairs.insert(at, pair)?;
        pairs.truncate(most);
    }
    Ok(())
}

/// The place of the first pair that costs less, or how many there are.
fn place_of(pairs: &[Pair], pair: &Pair) -> usize
    ensures { result ≡ position_or_len (λ other. int_lt other.cost pair.now.cost) pairs.now }
{
    pairs
        .iter()
        .position(|other| other.cost < pair.cost)
        .unwrap_or(pairs.len())
}
