//! Estimates of how many nodes searches evaluate.

ghost use Rattle.std.specs.Prelude.{◌≡◌};
ghost use Rattle.qap_cost.specs.Objective.{Permutes};

use crate::keeper::Keeper;
use crate::options::has_few_free;
use crate::subtrees::scale_for;
use dual_ascent::Effort;
use part_search::Ground;
use qap_cost::{Instance, Partial, Perm, cost};
use std::alloc::{AllocError, Global};
use subtree_search::Estimate;

/// How many random dives estimate the nodes of a search.
const DIVES: u32 = 1000;

/// Estimates how many nodes a search of the completions of a node evaluates from a permutation on, under pair duals of that
/// node. `None` if a stop is requested, more than 36 facilities are free, or a number is out of range.
pub fn estimate_below<K: Keeper>(
    alloc: Global,
    instance: &Instance,
    node: &Partial,
    start: &Perm,
    keeper: &K,
) -> Result<Option<Estimate>, AllocError>
    requires size { instance.now.size ≡ node.now.size }
    requires start { Permutes instance.now start.now }
{
    if keeper.is_wanted() || !has_few_free(node) {
        return Ok(None);
    }
    let scale = scale_for(cost(instance, start));
    match Ground::new(alloc, instance, node, scale, &Effort::root())? {
        Some(ground) => {
            let found = ground.estimate(alloc, node, start.copy()?, DIVES)?;
            Ok(found)
        }
        None => Ok(None),
    }
}
