//! Builds a tree from decided nodes in the order of their lists.

ghost use Rattle.std.specs.Prelude.{◌≡◌, ◌≢◌, ◌↔◌, ◌⊎◌, ◌*◌, ◌<◌, ◌≤◌, ◌∷◌, [], ℕ, IsTrue, MatchOption, MatchResult, length, pos};
ghost use Rattle.number_list.specs.Numbers.{numbers_in};
ghost use Rattle.qap_cost.specs.Placement.{IsFreeFacility, IsFreeLocation, placing, root_of};
ghost use Rattle.qap_cert.specs.Tree.{node_of};
ghost use Rattle.qap_search.specs.Certificate.TreeBuilding.{BeginWith, BeginWithNone, BeginsByTurns, EndsWith, IsBuildFault, ahead};
ghost use Rattle.qap_search.specs.Tuples.DecidedTuples.{decision_tuple, split_of};
ghost use Rattle.qap_search.specs.Tuples.Piece.{node_list, split_tuple};

use crate::certificate::error::AssembleError;
use crate::node::node_list::free_facility;
use crate::tuples::parsing::{DecidedNode, Decision};
use number_list::Numbers;
use qap_cert::Tree;
use qap_cost::Partial;
use std::alloc::Global;

/// Takes the tree of size `n` at the root from the end of the nodes.
pub(crate) fn take_tree(
    alloc: Global,
    n: usize,
    nodes: &mut Vec<DecidedNode>,
) -> Result<Tree, AssembleError>
    requires positive { 0 < n }
    requires small { n ≤ 256 }
    ensures { MatchResult result
        (λ t. BeginWith (root_of n) (node_of t) (ahead nodes.old.items) (ahead nodes.new.items))
        (λ e. IsBuildFault (root_of n) (ahead nodes.old.items) e) }
{
    match decision_at_root(nodes) {
        Some(Decision::Closed { u, v }) => Ok(Tree::Bound { u, v }),
        Some(Decision::Split(number)) => {
            let node = Partial::root(alloc, n)?;
            take_split(alloc, &node, number, nodes)
        }
        None => Err(AssembleError::NotATree),
    }
}

/// Takes the tree at the node that puts the facility at the location too.
#[cycle(building)]
fn take_child(
    alloc: Global,
    parent: &Partial,
    facility: u16,
    location: u16,
    nodes: &mut Vec<DecidedNode>,
) -> Result<Tree, AssembleError>
    requires facility { IsFreeFacility parent.now facility }
    requires location { IsFreeLocation parent.now location }
    ensures { MatchResult result
        (λ t. BeginWith (placing parent.now facility location) (node_of t) (ahead nodes.old.items) (ahead nodes.new.items))
        (λ e. IsBuildFault (placing parent.now facility location) (ahead nodes.old.items) e) }
{
    match decision_at_child(parent, facility, location, nodes) {
        Some(Decision::Closed { u, v }) => Ok(Tree::Bound { u, v }),
        Some(Decision::Split(number)) => {
            let node = parent.place(facility, location)?;
            take_split(alloc, &node, number, nodes)
        }
        None => Err(AssembleError::NotATree),
    }
}

/// Takes what is below a node that is split on the facility of this number, and builds its tree.
#[cycle(building)]
fn take_split(
    alloc: Global,
    node: &Partial,
    number: i128,
    nodes: &mut Vec<DecidedNode>,
) -> Result<Tree, AssembleError>
    ensures { MatchResult result
        (λ t. BeginWith node.now (node_of t) (split_of (node_list node.now) number ∷ ahead nodes.old.items) (ahead nodes.new.items))
        (λ e. IsBuildFault node.now (split_of (node_list node.now) number ∷ ahead nodes.old.items) e) }
{
    let Some(facility) = free_facility(node, number) else {
        return Err(AssembleError::NotATree);
    };
    take_children(alloc, node, facility, nodes)
}

/// Takes the children of a node that is split on this facility, and builds its tree.
#[cycle(building)]
fn take_children(
    alloc: Global,
    node: &Partial,
    facility: u16,
    nodes: &mut Vec<DecidedNode>,
) -> Result<Tree, AssembleError>
    requires { IsFreeFacility node.now facility }
    ensures { MatchResult result
        (λ t. BeginWith node.now (node_of t) (split_tuple node.now facility ∷ ahead nodes.old.items) (ahead nodes.new.items))
        (λ e. IsBuildFault node.now (split_tuple node.now facility ∷ ahead nodes.old.items) e) }
{
    let locations = node.free_locations()?;
    let mut children = Vec::with_capacity(alloc, locations.len())?;
    for i in 0..locations.len() {
        let child = take_child(alloc, node, facility, locations[i], nodes)?;
        children
            .push(child)
            .map_err(|_| AssembleError::OutOfMemory)?;
    }
    Ok(Tree::Split { facility, children })
}

/// Takes what was decided at the root from the end of the nodes.
#[tactic(auto, using(crate::proofs::CertificateLemmas::Taking::none_at_end))]
fn decision_at_root(nodes: &mut Vec<DecidedNode>) -> Option<Decision>
    ensures { MatchOption result
        ((n : ℕ) → BeginWithNone (root_of n) (ahead nodes.old.items))
        (λ d. ahead nodes.old.items ≡ decision_tuple [] d ∷ ahead nodes.new.items) }
{
    let DecidedNode { node, decision } = nodes.pop()?;
    if node.numbers().len() == 0 {
        Some(decision)
    } else {
        None
    }
}

/// Takes what was decided at the node that puts the facility at the location too.
#[tactic(auto, using(crate::proofs::CertificateLemmas::Taking::none_at_end))]
fn decision_at_child(
    parent: &Partial,
    facility: u16,
    location: u16,
    nodes: &mut Vec<DecidedNode>,
) -> Option<Decision>
    ensures { MatchOption result
        (BeginWithNone (placing parent.now facility location) (ahead nodes.old.items))
        (λ d. ahead nodes.old.items ≡ decision_tuple (node_list (placing parent.now facility location)) d ∷ ahead nodes.new.items) }
{
    let DecidedNode { node, decision } = nodes.pop()?;
    if is_child(parent, facility, location, &node.numbers()) {
        Some(decision)
    } else {
        None
    }
}

/// Whether the list is that of the node that puts the facility at the location too.
fn is_child(parent: &Partial, facility: u16, location: u16, list: &Numbers<'_>) -> bool
    ensures { IsTrue result ↔ (numbers_in list.now ≡ node_list (placing parent.now facility location)) }
{
    let (facilities, places) = (parent.facilities(), parent.places());
    if list.len() != 2 * facilities.len() + 2 {
        return false;
    }
    if !are_by_turns(facilities, places, list) {
        return false;
    }
    ends_with(list, facility, location)
}

/// Whether the last two numbers of the list are these.
fn ends_with(list: &Numbers<'_>, facility: u16, location: u16) -> bool
    requires { 2 ≤ length (numbers_in list.now) }
    ensures { IsTrue result ↔ EndsWith facility location (numbers_in list.now) }
{
    let last = list.len() - 1;
    list.at(last - 1) == i128::from(facility) && list.at(last) == i128::from(location)
}

/// Whether the list begins with these facilities and locations alternately.
fn are_by_turns(facilities: &[u16], places: &[u16], list: &Numbers<'_>) -> bool
    requires paired { length places.now ≡ length facilities.now }
    requires long { 2 * length facilities.now ≤ length (numbers_in list.now) }
    ensures { IsTrue result ↔ BeginsByTurns facilities.now places.now (numbers_in list.now) }
{
    for t in 0..facilities.len() {
        let (facility, place) = (i128::from(facilities[t]), i128::from(places[t]));
        if list.at(2 * t) != facility || list.at(2 * t + 1) != place {
            return false;
        }
    }
    true
}
