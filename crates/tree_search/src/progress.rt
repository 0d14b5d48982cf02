//! What a search has found so far.

ghost use Rattle.std.specs.Prelude.{◌≡◌};

use assign_dual::Solver;
use std::alloc::Global;
use subtree_search::Incumbent;

/// The incumbent, the numbers of nodes, and memory for least assignments.
#[derive(Drop)]
pub(crate) struct Progress {
    pub(crate) incumbent: Incumbent,
    /// How many nodes were decided: split, or closed by their own bound.
    pub(crate) nodes: u64,
    /// The values of the leaves that did not reach the incumbent's cost when they were left.
    pub(crate) open: Vec<i128>,
    pub(crate) solver: Solver,
}

impl Progress {
    /// Nothing but an incumbent.
    pub(crate) fn new(alloc: Global, incumbent: Incumbent) -> Progress
        ensures incumbent { result.incumbent ≡ incumbent }
        ensures nodes { result.nodes ≡ 0 }
    {
        Progress {
            incumbent,
            nodes: 0,
            open: Vec::new(alloc),
            solver: Solver::new(alloc),
        }
    }
}
