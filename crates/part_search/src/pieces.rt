//! The texts of the nodes that a search splits, as pieces of a proof: advice, which no proof relies on.

use qap_cost::Partial;
use subtree_search::{Never, TextRecord};

/// Takes pieces of a proof while a search goes on.
pub trait Pieces {
    /// Whether it takes them. Otherwise none are written.
    fn are_kept(&self) -> bool;

    /// Takes the text of a tree over a node, whose open children are leaves, once the commit was accepted that replaces
    /// the node by these. A worker calls it outside the locks of the search, and goes on once it has returned.
    fn keep(&self, node: &Partial, piece: &TextRecord);

    /// Whether a piece could not be kept, so that the search need not go on for the sake of its proof.
    fn have_failed(&self) -> bool;
}

impl Pieces for Never {
    fn are_kept(&self) -> bool {
        false
    }

    fn keep(&self, _node: &Partial, _piece: &TextRecord) {}

    fn have_failed(&self) -> bool {
        false
    }
}
