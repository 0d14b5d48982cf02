//! Proofs of least costs and of lower bounds: what a valid tree with pruned and symmetric children is, why validity
//! suffices, and how it is decided.
#![tactic(auto)]

mod acceptance;
mod ascending;
mod bound;
mod checking;
mod children;
mod cover;
mod error;
mod head;
mod image;
mod judging;
mod law;
mod leaf;
mod line;
mod line_number;
mod missing;
mod node_line;
mod node_text;
mod over_root;
mod proof;
mod reached;
mod reader;
mod refining;
mod root;
mod shape;
mod side;
mod tree;
mod tree_reader;
mod walking;
mod writing;

pub use acceptance::{Verdict, accept};
pub use checking::check;
pub use cover::Cover;
pub use error::ProofError;
pub use image::{keeps_distances, keeps_flows, stay, takes_facility, takes_location};
pub use law::{fault_law, proof_law, proof_text_law, tree_law};
pub use leaf::Leaf;
pub use missing::{MissingPart, missing_parts};
pub use node_line::{LineRead, NodeLine, SplitLine, read_node_line};
pub use node_text::{read_node_text, text_of_node};
pub use over_root::{Stated, accept_over};
pub use proof::Proof;
pub use reached::child_values;
pub use reader::read;
pub use refining::refined;
pub use side::Side;
pub use tree::{Duals, KeptDuals, Tree};
pub use writing::write;
