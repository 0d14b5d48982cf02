//! The decision at a node, once the incumbent's cost is known.

ghost use Rattle.std.specs.Prelude.{◌≡◌, ◌<ℤ◌, IfOk, MatchOption, length};
ghost use Rattle.qap_cost.specs.Instance.{Problem};
ghost use Rattle.qap_search.specs.Node.Decision.{DecidesBeside, DecidesBetter, DecidesBy, IsBetterOf, IsOn};
ghost use Rattle.qap_search.specs.Law.Replacement.{Best};
ghost use Rattle.qap_search.specs.Node.Thought.{IsThought, candidate_of, thought_on};

use crate::node::thought::Thought;
use crate::tuples::composing::{split_tuples, tuple_of_best, tuple_of_closed};
use qap_cost::{Partial, Perm};
use std::alloc::{AllocError, Global};
use tuple_match::Tuple;

/// The tuples that replace the open node: if the evaluation's value is at least the best cost, that of the node closed
/// by its duals; otherwise those of its split, all of whose children are open. `None` if no facility is free to split
/// on.
pub fn decide(
    alloc: Global,
    node: &Partial,
    thought: &Thought,
    best: i128,
) -> Result<Option<Vec<Tuple>>, AllocError>
    requires { IsOn node.now thought.now }
    ensures { IfOk result (λ written. MatchOption written
        ((length node.now.facilities ≡ node.now.size) × (thought.now.value <ℤ best))
        (λ tuples. (I : Problem) → IsThought I node.now thought.now → DecidesBy I best (thought_on node.now thought.now) tuples.items)) }
{
    if thought.value >= best {
        let tuple = tuple_of_closed(alloc, node, &thought.u, &thought.v)?;
        return Ok(Some(vec![in alloc; tuple]?));
    }
    let Some(facility) = thought.branch else {
        return Ok(None);
    };
    Ok(Some(split_tuples(alloc, node, facility)?))
}

/// Likewise, together with the tuple of the new incumbent, of this cost.
pub fn decide_beside(
    alloc: Global,
    node: &Partial,
    thought: &Thought,
    cost: i128,
    perm: &Perm,
) -> Result<Option<Vec<Tuple>>, AllocError>
    requires { IsOn node.now thought.now }
    ensures { IfOk result (λ written. MatchOption written
        ((length node.now.facilities ≡ node.now.size) × (thought.now.value <ℤ cost))
        (λ tuples. (I : Problem) → IsThought I node.now thought.now → DecidesBeside I cost perm.now (thought_on node.now thought.now) tuples.items)) }
{
    let Some(mut tuples) = decide(alloc, node, thought, cost)? else {
        return Ok(None);
    };
    tuples.push(tuple_of_best(alloc, cost, perm)?)?;
    Ok(Some(tuples))
}

/// Likewise if the incumbent of this cost was taken: together with the evaluation's candidate, if that costs less,
/// otherwise with the one that was taken. `None` if no facility is free to split on and the node is not
/// closed.
pub fn decide_anew(
    alloc: Global,
    node: &Partial,
    thought: &Thought,
    cost: i128,
    perm: &Perm,
) -> Result<Option<Vec<Tuple>>, AllocError>
    requires { IsOn node.now thought.now }
    ensures { IfOk result (λ written. MatchOption written
        ((new : Best) × IsBetterOf (candidate_of thought.now) (record { cost = cost; permutation = perm.now }) new
        × (length node.now.facilities ≡ node.now.size) × (thought.now.value <ℤ new.cost))
        (λ tuples. (I : Problem) → IsThought I node.now thought.now →
        DecidesBetter I (thought_on node.now thought.now) (record { cost = cost; permutation = perm.now }) tuples.items)) }
{
    if thought.cost < cost {
        decide_beside(alloc, node, thought, thought.cost, &thought.candidate)
    } else {
        decide_beside(alloc, node, thought, cost, perm)
    }
}
