//! Depth-first search for a proof of version 1: a tree whose bounds are those of Gilmore and Lawler. Of the search only
//! safety and termination are proved; a check of what it found establishes what a caller relies on.
#![tactic(auto)]

mod branching;
mod completion;
mod evaluation;
mod gain;
mod ground;
mod one_leaf;
mod open;
mod progress;
mod proving;
mod search;
mod symmetry;

pub use proving::{Found, prove};
