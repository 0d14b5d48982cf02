//! The initial space of a search.

ghost use Rattle.std.specs.Prelude.{◌≡◌, ◌<◌, IfOk, OnOk, length};
ghost use Rattle.space_txn.specs.World.{with_space};
ghost use Rattle.subtree_search.specs.Best.{Best, IsIncumbent};
ghost use Rattle.tuple_space.specs.Space.{most, put};
ghost use Rattle.tuple_space.specs.declared.lease.Lease.TheVariants.{Forever};
ghost use Rattle.part_search.specs.Opening.{IsOpening, part_of};

use crate::law::opening_law;
use crate::open_node::Open;
use crate::tuples::{tuple_of_best, tuple_of_open};
use qap_cost::{Instance, Partial};
use space_txn::TxnSpace;
use std::alloc::{AllocError, Global};
use subtree_search::Incumbent;
use tuple_match::Tuple;
use tuple_space::{Lease, SpaceError};

/// The least that a permutation can cost.
pub(crate) const LEAST_COST: i128 = -65_536_000_000_000_000_000_000;

/// A space that holds the root as an open node, and the permutation to start from as the best one; both forever. Of the root nothing is
/// proved but that no permutation of any instance costs less than its value.
pub(crate) fn opening_space(
    alloc: Global,
    instance: &Instance,
    root: &Partial,
    start: &Incumbent,
) -> Result<TxnSpace, AllocError>
    requires same_size { root.now.size ≡ instance.now.size }
    requires start { IsIncumbent instance.now start.now }
    ensures { IfOk result (IsOpening (part_of instance.now root.now start.now)) }
{
    opening_law();
    instance.instance_law();
    let open_node = Open {
        node: root.copy()?,
        value: LEAST_COST,
    };
    let node = tuple_of_open(alloc, &open_node)?;
    let best = tuple_of_best(alloc, start)?;
    let mut space = TxnSpace::new(alloc);
    put_forever(&mut space, node)?;
    put_forever(&mut space, best)?;
    Ok(space)
}

/// Puts a tuple out permanently.
fn put_forever(space: &mut TxnSpace, tuple: Tuple) -> Result<(), AllocError>
    requires { space.old.space.last < most }
    ensures { OnOk result (space.new ≡ with_space space.old (put space.old.space tuple Forever)) }
{
    match space.out(tuple, Lease::Forever) {
        Ok(_) => Ok(()),
        Err((SpaceError::OutOfMemory, _)) => Err(AllocError),
        Err(_) => unreachable!(),
    }
}
