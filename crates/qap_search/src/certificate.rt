//! The certificate that the tuples of a search form.

pub(crate) mod assembling;
pub(crate) mod best_permutation;
pub(crate) mod closing_open_nodes;
pub(crate) mod closing_threads;
pub(crate) mod error;
pub(crate) mod leaf_bounds;
pub(crate) mod pieces;
pub(crate) mod reordering;
pub(crate) mod stopped_assembling;
pub(crate) mod tree_building;
