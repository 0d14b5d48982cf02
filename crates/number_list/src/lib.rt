//! Lists of integers in as few bits as they need: each number in 8, 16, 32 or 128, and short lists in place.
#![tactic(auto)]

mod few;
mod lists;
mod numbers;
mod widths;

pub use few::{FewBytes, FewShorts};
pub use lists::NumberList;
pub use numbers::Numbers;
