//! What helps a worker to try the node that it took.

use pair_duals::PairDuals;
use qap_cost::Partial;
use std::alloc::AllocError;
use std::sync::Arc;
use subtree_search::Stop;

/// Ends a trial, and knows pair duals of nodes that were split before, which need not be of any use.
pub trait Aid: Stop {
    /// Pair duals from which those of a node may start.
    fn start_for(&self, node: &Partial) -> Result<Option<Arc<PairDuals<i64>>>, AllocError>;

    /// Takes note of pair duals of a node.
    fn keep(&self, node: &Partial, duals: PairDuals<i64>) -> Result<(), AllocError>;
}

/// Knows of no pair duals.
#[derive(Clone, Copy, Debug)]
pub(crate) struct Alone<'a, S>(pub(crate) &'a S);

impl<S: Stop> Stop for Alone<'_, S> {
    ghost says = { λ _ _. Unit {0} };

    fn is_requested(&self) -> bool {
        self.0.is_requested()
    }
}

impl<S: Stop> Aid for Alone<'_, S> {
    fn start_for(&self, _node: &Partial) -> Result<Option<Arc<PairDuals<i64>>>, AllocError> {
        Ok(None)
    }

    fn keep(&self, _node: &Partial, _duals: PairDuals<i64>) -> Result<(), AllocError> {
        Ok(())
    }
}
