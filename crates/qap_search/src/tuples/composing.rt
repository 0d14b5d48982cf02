//! Composes the tuples of nodes and of the incumbent.

ghost use Rattle.std.specs.Prelude.{◌≡◌, ◌≤◌, IfOk, length, map, pos};
ghost use Rattle.qap_cost.specs.Placement.{IsPlacement, placing};
ghost use Rattle.number_list.specs.NumberList.{numbers_held};
ghost use Rattle.qap_search.specs.Node.NodeList.{IsListOf};
ghost use Rattle.qap_search.specs.Tuples.Piece.{best_tuple, closed_tuple, node_list, node_tuple, pieces, split_tuple};
ghost use Rattle.qap_search.specs.Law.SearchTree.{split_open};

use number_list::NumberList;
use qap_cost::{Partial, Perm};
use std::alloc::{AllocError, Global};
use tuple_match::{Field, Tuple};

/// The tuples of a node that is split on this facility, all of whose children are open: that of the split, and one for each
/// free location, ascending.
pub(crate) fn split_tuples(
    alloc: Global,
    node: &Partial,
    facility: u16,
) -> Result<Vec<Tuple>, AllocError>
    ensures value { IfOk result (λ v. v.items ≡ pieces node.now (split_open node.now facility)) }
    ensures placement { IfOk result (λ _. IsPlacement node.now) }
{
    let locations = node.free_locations()?;
    let list = list_of(alloc, node)?;
    let parent = Parent { node, list };
    let mut tuples = Vec::with_capacity(alloc, locations.len() + 1)?;
    tuples.push(tuple_of_split(alloc, node, facility)?)?;
    for location in &locations {
        tuples.push(tuple_of_child(alloc, &parent, facility, *location)?)?;
    }
    Ok(tuples)
}

/// A node that is split, with its list, with which those of its children begin.
#[derive(Drop)]
struct Parent<'a> {
    node: &'a Partial,
    list: NumberList,
}

impl Parent<'_> {
    /// The list of the child that puts the facility at the location too.
    fn child_list(
        &self,
        alloc: Global,
        facility: u16,
        location: u16,
    ) -> Result<NumberList, AllocError>
        requires { IsListOf self.now.node.now (numbers_held self.now.list) }
        ensures list { IfOk result (λ list. numbers_held list ≡ node_list (placing self.now.node.now facility location)) }
        ensures short { IfOk result (λ list. length (numbers_held list) ≤ 514) }
    {
        self.list.with_two(alloc, facility, location)
    }
}

/// The tuple of a node that these duals close.
pub(crate) fn tuple_of_closed(
    alloc: Global,
    node: &Partial,
    u: &[i128],
    v: &[i128],
) -> Result<Tuple, AllocError>
    requires u_count { length u.now ≤ 256 }
    requires v_count { length v.now ≤ 256 }
    ensures { IfOk result (λ t. t ≡ closed_tuple node.now u.now v.now) }
{
    let name = Field::word(alloc, "closed")?;
    let list = Field::of_list(list_of(alloc, node)?);
    let (u, v) = (Field::list(alloc, u)?, Field::list(alloc, v)?);
    Tuple::of_four(alloc, [name, list, u, v])
}

/// The tuple of a node that is split on this facility.
fn tuple_of_split(alloc: Global, node: &Partial, facility: u16) -> Result<Tuple, AllocError>
    ensures { IfOk result (λ t. t ≡ split_tuple node.now facility) }
{
    let name = Field::word(alloc, "split")?;
    let list = Field::of_list(list_of(alloc, node)?);
    Tuple::of_three(alloc, [name, list, Field::Int(i128::from(facility))])
}

/// The tuple of an open node.
pub(crate) fn tuple_of_node(alloc: Global, node: &Partial) -> Result<Tuple, AllocError>
    ensures value { IfOk result (λ t. t ≡ node_tuple node.now) }
    ensures placement { IfOk result (λ _. IsPlacement node.now) }
{
    let name = Field::word(alloc, "node")?;
    let list = Field::of_list(list_of(alloc, node)?);
    Tuple::of_two(alloc, [name, list])
}

/// The tuple of the open node that puts the facility at the location too.
fn tuple_of_child(
    alloc: Global,
    parent: &Parent<'_>,
    facility: u16,
    location: u16,
) -> Result<Tuple, AllocError>
    requires { IsListOf parent.now.node.now (numbers_held parent.now.list) }
    ensures { IfOk result (λ t. t ≡ node_tuple (placing parent.now.node.now facility location)) }
{
    let name = Field::word(alloc, "node")?;
    let list = Field::of_list(parent.child_list(alloc, facility, location)?);
    Tuple::of_two(alloc, [name, list])
}

/// The tuple of the best permutation found, with its cost.
pub fn tuple_of_best(alloc: Global, cost: i128, perm: &Perm) -> Result<Tuple, AllocError>
    ensures { IfOk result (λ t. t ≡ best_tuple cost perm.now) }
{
    let name = Field::word(alloc, "best")?;
    let list = Field::List(locations_of(alloc, perm)?).narrowed();
    Tuple::of_three(alloc, [name, Field::Int(cost), list])
}

/// The locations of the permutation, as numbers of a tuple.
fn locations_of(alloc: Global, perm: &Perm) -> Result<Vec<i128>, AllocError>
    ensures list { IfOk result (λ v. v.items ≡ map pos perm.now) }
    ensures short { IfOk result (λ v. length v.items ≤ 256) }
{
    let mut numbers = Vec::with_capacity(alloc, perm.len())?;
    for i in 0..perm.len() {
        numbers.push(i128::from(perm.at(i)))?;
    }
    Ok(numbers)
}

/// The node as a list: facility and location alternately, in the order of placing.
fn list_of(alloc: Global, node: &Partial) -> Result<NumberList, AllocError>
    ensures list { IfOk result (λ list. IsListOf node.now (numbers_held list)) }
    ensures short { IfOk result (λ list. length (numbers_held list) ≤ 512) }
{
    NumberList::by_turns(alloc, node.facilities(), node.places())
}
