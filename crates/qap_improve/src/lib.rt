//! Improves permutations, by exchanges and by tabu search.
#![tactic(auto)]

mod arrangement;
mod choice;
mod contrast;
mod descent;
mod facility_table;
mod memory;
mod number;
mod pair;
mod rows;
mod small;
mod table;
mod tabu;

pub use descent::{Improved, exchange};
pub use pair::difference;
pub use tabu::{Always, Hook, TabuPlan, tabu_search, tabu_search_among};
