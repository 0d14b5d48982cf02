//! The bound of Gilmore and Lawler on the cost of a node of the quadratic assignment problem.
#![tactic(auto)]

mod blocks;
mod bound;
mod child_rows;
mod duals;
mod factors;
mod fitting;
mod flow_level;
mod flow_rows;
mod kept_rows;
mod left_out;
mod levels;
mod pairing;
mod ranking;
mod reduction;
mod side;
mod small;
mod split_rows;

pub use bound::{node_bound_law, one_reduced_matrix_law};
pub use duals::{dual_sum, fits};
pub use flow_rows::FlowRows;
pub use kept_rows::{Hold, KeptRows, NodeRows, RowsOf};
pub use pairing::least_product;
pub use reduction::{RankedInstance, Workspace, reduced};
pub use split_rows::SplitRows;
