//! Least assignments of a matrix's rows to its columns, with duals that prove them.
//!
//! A [`Solver`] is proved to find them. An [`Assigner`] is for searches that check its duals or need none of them to be
//! right: it starts from given duals, ends early, and its numbers of 64 bits wrap.
#![tactic(auto)]

mod assigner;
mod assignment;
mod lists;
mod matching;
mod number;
mod path;
pub mod places;
mod range;
mod room;
mod rows;
mod search;
mod shift;
mod solver;
mod tree;

pub use assigner::Assigner;
pub use assignment::{Assignment, solve};
pub use matching::Matching;
pub use range::{MAX_MATRIX_ENTRY, is_in_range};
pub use solver::Solver;
