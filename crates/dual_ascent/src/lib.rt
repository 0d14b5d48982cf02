//! Finds pair duals of a node: dual ascent on the level-1 reformulation of the quadratic assignment problem (Adams and
//! Johnson 1994; Hahn and Grant 1998).
//!
//! The results are unverified until one pass of the crate `pair_duals` has established that they fit. The search
//! therefore uses wrapping integers and reads lists by `get`: it is safe for all numbers.
#![tactic(auto)]

mod ascent;
mod costs;
mod effort;
mod inherited;
mod range;
mod rounds;
mod rows;
mod softening;
mod state;
mod sweeps;
mod trivial;
mod weights;

pub use ascent::{ascend, ascend_softly};
pub use effort::Effort;
pub use range::has_range;
