//! The initial space of a search.

ghost use Rattle.std.specs.Prelude.{◌≡◌, ◌<◌, ◌≤◌, ℕ, IfOk, OnOk};
ghost use Rattle.std.specs.List.{range_with_len};
ghost use Rattle.qap_cost.specs.Objective.{Permutes};
ghost use Rattle.tuple_space.specs.Space.{most, put};
ghost use Rattle.space_txn.specs.World.{with_space};
ghost use Rattle.tuple_space.specs.declared.lease.Lease.TheVariants.{Forever};
ghost use Rattle.qap_search.specs.Runs.Opening.{IsOpening};
ghost use Rattle.qap_search.specs.Law.Search.{whole};

use crate::law::opening_law;
use crate::tuples::composing::{tuple_of_best, tuple_of_node};
use qap_cost::{Instance, Partial, Perm, cost};
use space_txn::TxnSpace;
use std::alloc::{AllocError, Global};
use tuple_match::Tuple;
use tuple_space::{Lease, SpaceError};

/// A space that holds the open root of all permutations, and the identity as the incumbent; both permanently.
pub fn opening_space(alloc: Global, instance: &Instance) -> Result<TxnSpace, AllocError>
    ensures { IfOk result (IsOpening (whole instance.now)) }
{
    opening_law();
    let root = Partial::root(alloc, instance.size())?;
    let start = identity(alloc, instance)?;
    let best = tuple_of_best(alloc, cost(instance, &start), &start)?;
    let mut space = TxnSpace::new(alloc);
    put_forever(&mut space, tuple_of_node(alloc, &root)?)?;
    put_forever(&mut space, best)?;
    Ok(space)
}

/// The permutation of the instance that puts facility i at location i.
pub fn identity(alloc: Global, instance: &Instance) -> Result<Perm, AllocError>
    ensures value { IfOk result (λ p. p ≡ range_with_len 0 instance.now.size) }
    ensures permutes { IfOk result (Permutes instance.now) }
{
    let locations = first_numbers(alloc, instance.size())?;
    match Perm::new(locations) {
        Ok(permutation) => Ok(permutation),
        Err(_) => unreachable!(),
    }
}

/// The numbers below `n`, ascending.
fn first_numbers(alloc: Global, n: usize) -> Result<Vec<u16>, AllocError>
    requires { n ≤ 256 }
    ensures { IfOk result (λ numbers. numbers.items ≡ range_with_len 0 n) }
{
    let mut numbers = Vec::with_capacity(alloc, n)?;
    for k in 0..n {
        numbers.push(k as u16)?;
    }
    Ok(numbers)
}

/// Puts a tuple out permanently.
fn put_forever(space: &mut TxnSpace, tuple: Tuple) -> Result<(), AllocError>
    requires { space.old.space.last < most }
    ensures { OnOk result (space.new ≡ with_space space.old (put space.old.space tuple Forever)) }
{
    match space.out(tuple, Lease::Forever) {
        Ok(_) => Ok(()),
        Err((SpaceError::OutOfMemory, _)) => Err(AllocError),
        Err(_) => unreachable!(),
    }
}
