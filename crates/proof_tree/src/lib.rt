//! Proofs of bounds with pair duals: what a valid tree is, and why validity suffices.
#![tactic(auto)]

mod law;

pub use law::{leaves_law, monotone_law, proof_law, reaching_law, tree_law, valid_law};
