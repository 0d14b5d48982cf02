//! The least cost by trying every permutation: slow and plain, as an oracle for faster methods.

ghost use Rattle.std.specs.Prelude.{◌≡◌, ◌≤◌, ◌-◌, ◌≤ℤ◌, [], IfOk, MatchOption, ◌⊎◌, length};
ghost use Rattle.std.specs.List.{range_with_len};
ghost use Rattle.itertools.specs.Odometer.{ways};
ghost use Rattle.itertools.specs.Pool.{permutation_can, permutation_left};
ghost use Rattle.qap_cost.specs.Objective.{IsLeast, Permutes, cost_of};

use crate::{Instance, Perm, cost};
use itertools::{Itertools, Permutations};
use std::alloc::{AllocError, Global};

/// The least cost of an instance of size at most 8, and a permutation that reaches it.
///
/// Every permutation is tried, so this takes time proportional to the factorial of the size.
pub fn least_by_listing(alloc: Global, instance: &Instance) -> Result<(i128, Perm), AllocError>
    requires { instance.now.size ≤ 8 }
    ensures reached { IfOk result (λ r. (r.0 ≡ cost_of instance.now r.1) × Permutes instance.now r.1) }
    ensures least { IfOk result (λ r. IsLeast instance.now r.0) }
{
    let mut best = None;
    for locations in all_orders(alloc, instance.size())? {
        let Ok(permutation) = Perm::new(locations?) else {
            unreachable!()
        };
        let next = (cost(instance, &permutation), permutation);
        best = Some(cheaper(best, next));
    }
    match best {
        Some(best) => Ok(best),
        None => unreachable!(),
    }
}

/// The numbers 0 to `n - 1` in every order.
fn all_orders(alloc: Global, n: usize) -> Result<Permutations<u16, Global>, AllocError>
    requires { n ≤ 256 }
    ensures can { IfOk result permutation_can }
    ensures pool { IfOk result (λ c. c.pool.items ≡ range_with_len 0 n) }
    ensures places { IfOk result (λ c. permutation_left c ≡ ways (λ _. 0) (λ q. n - length q) n []) }
{
    (0..n as u16).permutations(alloc, n)
}

/// The one of lower cost, and of equal ones the first.
fn cheaper(best: Option<(i128, Perm)>, next: (i128, Perm)) -> (i128, Perm)
    ensures { MatchOption best (result ≡ next)
        (λ b. ((result ≡ b) × (b.0 ≤ℤ next.0)) ⊎ ((result ≡ next) × (next.0 ≤ℤ b.0))) }
{
    match best {
        Some(best) if best.0 <= next.0 => best,
        _ => next,
    }
}
