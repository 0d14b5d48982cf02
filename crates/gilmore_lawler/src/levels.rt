//! Kept rows, one level for each number of placed facilities.

ghost use Rattle.std.specs.Prelude.{◌≡◌, ◌<◌, ◌≤◌, ⊤, length, IsTrue, MatchOption, OnOk};
ghost use Rattle.std.specs.List.{All};
ghost use Rattle.qap_cost.specs.Bijection.{AreDifferent};
ghost use Rattle.qap_cost.specs.Instance.{Problem};
ghost use Rattle.gilmore_lawler.specs.FlowRows.{HasDistanceRows, HasFlowRows};
ghost use Rattle.gilmore_lawler.specs.Levels.{HasLevel, KeepsDistances, KeepsRows};

use crate::child_rows::LocationRows;
use crate::flow_level::FlowLevel;
use crate::reduction::RankedInstance;
use qap_cost::Partial;
use std::alloc::{AllocError, Global};

/// The rows of both sides of the last node of this depth, if they were made.
#[derive(Drop)]
pub(crate) struct Level {
    pub(crate) flows: FlowLevel,
    pub(crate) distances: DistanceLevel,
}

impl Level {
    /// No rows yet. Allocates nothing.
    fn new(alloc: Global) -> Level
        ensures { (I : Problem) → KeepsRows I result }
    {
        Level {
            flows: FlowLevel::new(alloc),
            distances: DistanceLevel::new(alloc),
        }
    }

    /// Makes the rows those at the node, where they aren't yet.
    fn make(
        &mut self,
        ranked: &RankedInstance,
        above: Option<&Level>,
        node: &Partial,
        free: &mut Vec<u16>,
    ) -> Result<(), AllocError>
        requires size { ranked.now.size ≡ node.now.size }
        requires above { MatchOption above ⊤ (λ level. KeepsRows ranked.now level.now) }
        requires kept { KeepsRows ranked.now self.old }
        ensures kept { KeepsRows ranked.now self.new }
        ensures flows { OnOk result (HasFlowRows (record { instance = ranked.now; facilities = node.now.facilities }) self.new.flows.rows.items) }
        ensures distances { OnOk result (HasDistanceRows ranked.now node.now.places self.new.distances.known.rows.items) }
    {
        self.flows.make(ranked, node, free)?;
        self.distances.make(ranked, above, node.places())
    }
}

/// Rows of the distances with the locations that are taken, if they were made.
#[derive(Drop)]
pub(crate) struct DistanceLevel {
    pub(crate) known: LocationRows,
    are_made: bool,
}

impl DistanceLevel {
    /// No rows yet. Allocates nothing.
    fn new(alloc: Global) -> DistanceLevel
        ensures { (I : Problem) → KeepsDistances I result }
    {
        DistanceLevel {
            known: LocationRows::new(alloc),
            are_made: false,
        }
    }

    /// Whether its rows are made, and those where these locations are taken.
    fn is_at(&self, places: &[u16]) -> bool
        ensures { IsTrue result → (IsTrue self.now.are_made × (self.now.known.places.items ≡ places.now)) }
    {
        self.are_made && *self.known.places == *places
    }

    /// Makes the rows those where these locations are taken, where they aren't yet, from those of the level above where the last
    /// location is free there.
    fn make(
        &mut self,
        ranked: &RankedInstance,
        above: Option<&Level>,
        places: &[u16],
    ) -> Result<(), AllocError>
        requires different { AreDifferent ranked.now.size places.now }
        requires above { MatchOption above ⊤ (λ level. KeepsRows ranked.now level.now) }
        requires kept { KeepsDistances ranked.now self.old }
        ensures kept { KeepsDistances ranked.now self.new }
        ensures made { OnOk result (HasDistanceRows ranked.now places.now self.new.known.rows.items) }
    {
        if self.is_at(places) {
            return Ok(());
        }
        self.are_made = false;
        match above {
            Some(level) if level.distances.are_made => {
                let before = &level.distances.known;
                ranked.make_known_behind(before, places, &mut self.known)?;
            }
            _ => ranked.make_location_rows(places, &mut self.known)?,
        }
        self.are_made = true;
        Ok(())
    }
}

/// Makes the rows of the node's level those at the node; the other levels keep theirs. `free` may be any list.
pub(crate) fn keep_level(
    ranked: &RankedInstance,
    node: &Partial,
    free: &mut Vec<u16>,
    levels: &mut Vec<Level>,
) -> Result<(), AllocError>
    requires size { ranked.now.size ≡ node.now.size }
    requires kept { All (KeepsRows ranked.now) levels.old.items }
    ensures made { OnOk result (HasLevel ranked.now node.now levels.new.items) }
    ensures kept { All (KeepsRows ranked.now) levels.new.items }
{
    deepen(ranked.allocator(), node.depth(), levels)?;
    make_level(ranked, node, free, levels)
}

/// Adds levels that have no rows yet, until there is one for this depth.
fn deepen(alloc: Global, depth: usize, levels: &mut Vec<Level>) -> Result<(), AllocError>
    requires { depth ≤ 256 }
    ensures deep { OnOk result (depth < length levels.new.items) }
    ensures kept { (I : Problem) → All (KeepsRows I) levels.old.items → All (KeepsRows I) levels.new.items }
{
    while levels.len() <= depth {
        levels.push(Level::new(alloc))?;
    }
    Ok(())
}

/// Makes the rows of the node's level those at the node, of the distances from those of its parent, which the level above has then.
fn make_level(
    ranked: &RankedInstance,
    node: &Partial,
    free: &mut Vec<u16>,
    levels: &mut [Level],
) -> Result<(), AllocError>
    requires size { ranked.now.size ≡ node.now.size }
    requires deep { length node.now.facilities < length levels.old }
    requires kept { All (KeepsRows ranked.now) levels.old }
    ensures made { OnOk result (HasLevel ranked.now node.now levels.new) }
    ensures kept { All (KeepsRows ranked.now) levels.new }
    ensures count { length levels.new ≡ length levels.old }
{
    make_ancestors(ranked, node.places(), levels)?;
    let (above, own) = levels.split_at_mut(node.depth());
    own[0].make(ranked, above.last(), node, free)
}

/// Computes the rows of the distances at each level above the node with these locations for its ancestor there,
/// starting from the lowest ancestor with stored rows. Siblings that come later find those of their parent, regardless
/// of who evaluated it.
fn make_ancestors(
    ranked: &RankedInstance,
    places: &[u16],
    levels: &mut [Level],
) -> Result<(), AllocError>
    requires different { AreDifferent ranked.now.size places.now }
    requires deep { length places.now < length levels.old }
    requires kept { All (KeepsRows ranked.now) levels.old }
    ensures kept { All (KeepsRows ranked.now) levels.new }
    ensures count { length levels.new ≡ length levels.old }
{
    for depth in first_missing(places, levels)..places.len() {
        make_distances(ranked, &places[..depth], levels)?;
    }
    Ok(())
}

/// The level below that of the lowest ancestor of the node with these locations whose rows of the distances are kept,
/// or 0 if those of none are.
fn first_missing(places: &[u16], levels: &[Level]) -> usize
    requires { length places.now < length levels.now }
    ensures { result ≤ length places.now }
{
    let mut depth = places.len();
    while depth > 0 && !levels[depth - 1].distances.is_at(&places[..depth - 1]) {
        depth -= 1;
    }
    depth
}

/// Makes the rows of the distances at the level of this many locations those where these are taken, where they aren't
/// yet.
fn make_distances(
    ranked: &RankedInstance,
    places: &[u16],
    levels: &mut [Level],
) -> Result<(), AllocError>
    requires different { AreDifferent ranked.now.size places.now }
    requires deep { length places.now < length levels.old }
    requires kept { All (KeepsRows ranked.now) levels.old }
    ensures kept { All (KeepsRows ranked.now) levels.new }
    ensures count { length levels.new ≡ length levels.old }
{
    let (above, own) = levels.split_at_mut(places.len());
    own[0].distances.make(ranked, above.last(), places)
}
