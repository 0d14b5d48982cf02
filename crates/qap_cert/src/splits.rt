//! Splits whose children are checked one after another.

ghost use Rattle.std.specs.Prelude.{◌≡◌, ◌∷◌, [], ◌+◌, ◌≤◌, ◌<◌, ℕ, drop, length, slice_index, IfOk};
ghost use Rattle.qap_cost.specs.Placement.{IsFreeFacility, IsFreeLocation};
ghost use Rattle.qap_cert.specs.Levels.{IsSplitOf, OpenSplit, placed_behind};

use crate::placed::Placed;
use qap_cost::Partial;
use std::alloc::AllocError;
use std::marker::Model;

/// A split: its node, its facility, the locations of its children, and how many of these have been checked.
#[derive(Drop)]
pub(crate) struct Split {
    node: Partial,
    facility: u16,
    locations: Vec<u16>,
    judged: usize,
}

impl Model for Split {
    ghost use Rattle.std.specs.Prelude.{◌≡◌, ◌≤◌, ◌<◌, ℕ, drop, length, slice_index};
    ghost use Rattle.qap_cost.specs.Placement.{IsFreeFacility, IsFreeLocation};
    ghost use Rattle.qap_cert.specs.Levels.{OpenSplit};

    ghost Value = { OpenSplit };

    ghost view = { λ s. record { node = s.node; facility = s.facility; locations = drop s.judged s.locations.items } };

    ghost invariant = { λ s. (length s.node.facilities < s.node.size) × IsFreeFacility s.node s.facility
        × ((i : ℕ) → i < length s.locations.items → IsFreeLocation s.node (slice_index s.locations.items i)) × (s.judged ≤ length s.locations.items) };
}

impl Split {
    /// The split of a node on this facility, with no child checked yet.
    pub(crate) fn new(node: Partial, facility: u16) -> Result<Split, AllocError>
        requires depth { length node.facilities < node.size }
        requires facility { IsFreeFacility node facility }
        ensures value { IfOk result (IsSplitOf node facility) }
        ensures count { IfOk result (λ s. length s.locations + length node.facilities ≡ node.size) }
    {
        let locations = node.free_locations()?;
        Ok(Split {
            node,
            facility,
            locations,
            judged: 0,
        })
    }

    /// The node.
    pub(crate) fn node(&self) -> &Partial
        ensures value { result.now ≡ self.now.node }
        ensures depth { length self.now.node.facilities < self.now.node.size }
    {
        &self.node
    }

    /// The facility.
    pub(crate) fn facility(&self) -> u16
        ensures value { result ≡ self.now.facility }
        ensures free { IsFreeFacility self.now.node self.now.facility }
    {
        self.facility
    }

    /// The locations of the remaining children.
    pub(crate) fn locations(&self) -> &[u16]
        ensures value { result.now ≡ self.now.locations }
        ensures free { (i : ℕ) → i < length self.now.locations → IsFreeLocation self.now.node (slice_index self.now.locations i) }
    {
        &self.locations[self.judged..]
    }

    /// The facilities that are placed at its children.
    pub(crate) fn placed(&self) -> Placed
        ensures value { result ≡ placed_behind self.now }
        ensures depth { length result ≤ self.now.node.size }
    {
        Placed::at(&self.node).with(self.facility)
    }

    /// Skips this many of the remaining children.
    pub(crate) fn pass(&mut self, count: usize)
        requires { count ≤ length self.old.locations }
        ensures { self.new ≡ record self.old { locations = drop count self.old.locations } }
    {
        self.judged += count;
    }
}
