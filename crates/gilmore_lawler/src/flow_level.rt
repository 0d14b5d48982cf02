//! Rows of the flows, kept for the nodes with the same placed facilities.

ghost use Rattle.std.specs.Prelude.{◌≡◌, OnOk};
ghost use Rattle.qap_cost.specs.Instance.{Problem};
ghost use Rattle.gilmore_lawler.specs.FlowRows.{HasFlowRows};
ghost use Rattle.gilmore_lawler.specs.Levels.{KeepsFlows};

use crate::reduction::RankedInstance;
use qap_cost::Partial;
use std::alloc::{AllocError, Global};

/// Rows of the flows with the facilities that are placed, if they were made.
#[derive(Drop)]
pub(crate) struct FlowLevel {
    facilities: Vec<u16>,
    pub(crate) rows: Vec<i32>,
    are_made: bool,
}

impl FlowLevel {
    /// No rows yet. Allocates nothing.
    pub(crate) fn new(alloc: Global) -> FlowLevel
        ensures { (I : Problem) → KeepsFlows I result }
    {
        FlowLevel {
            facilities: Vec::new(alloc),
            rows: Vec::new(alloc),
            are_made: false,
        }
    }

    /// Makes the rows those for the facilities that the node places, where they aren't yet. `free` may be any list.
    pub(crate) fn make(
        &mut self,
        ranked: &RankedInstance,
        node: &Partial,
        free: &mut Vec<u16>,
    ) -> Result<(), AllocError>
        requires size { ranked.now.size ≡ node.now.size }
        requires kept { KeepsFlows ranked.now self.old }
        ensures kept { KeepsFlows ranked.now self.new }
        ensures made { OnOk result (HasFlowRows (record { instance = ranked.now; facilities = node.now.facilities }) self.new.rows.items) }
    {
        if self.are_made && *self.facilities == *node.facilities() {
            return Ok(());
        }
        self.are_made = false;
        self.facilities.clear();
        self.facilities.extend_from_slice(node.facilities())?;
        ranked.make_flow_rows(node.facilities(), free, &mut self.rows)?;
        self.are_made = true;
        Ok(())
    }
}
