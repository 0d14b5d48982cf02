//! Instances of the quadratic assignment problem, permutations, and the cost of a permutation.
#![tactic(auto)]

mod completion;
mod error;
mod free;
mod instance;
mod listing;
mod marks;
mod matrix;
mod objective;
mod partial;
mod permutation;
mod placement;

pub use completion::completed;
pub use error::CostError;
pub use free::list_free;
pub use instance::{Instance, MAX_ENTRY, MAX_SIZE, MAX_VALUE};
pub use listing::least_by_listing;
pub use marks::marked;
pub use matrix::{Matrix, weak_duality_law};
pub use objective::{cost, exchange_law, product};
pub use partial::Partial;
pub use permutation::Perm;
pub use placement::{children_law, free_law, root_law, whole_node_law};
