//! Observers of a search, which may stop it.

use subtree_search::{Never, Stop};

/// How far a search has come: advice, which no proof relies on.
#[derive(Clone, Copy, Debug, PartialEq, Eq)]
pub struct Progress {
    /// How many open nodes were taken and tried.
    pub tried: u64,
    /// The cost of the incumbent.
    pub cost: i128,
    /// The least value of the nodes that are open or being worked on, if it is known and there are any: no completion of the root
    /// costs less than the smaller of it and the incumbent's cost.
    pub least: Option<i128>,
    /// How many percent of the root's completions no node has that is open or being worked on.
    pub settled: u64,
}

/// May stop a search, and observes its progress.
pub trait Watch: Stop {
    /// Sees how far the search has come, in each round of the thread that keeps the space, outside its lock.
    fn see(&self, progress: &Progress);
}

impl Watch for Never {
    fn see(&self, _progress: &Progress) {}
}
