//! Splits nodes of an instance by the bound of Gilmore and Lawler.
#![tactic(auto)]

mod branch;
mod children;
mod evaluation;
mod node_split;
mod parent;

pub use node_split::NodeSplit;
