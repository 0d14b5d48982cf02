//! Certificates of least costs and of lower bounds: what a valid tree is, why validity suffices, and how it is
//! decided.
#![tactic(auto)]

mod acceptance;
mod bound;
mod certificate;
mod checking;
mod error;
mod head;
mod law;
mod line;
mod line_number;
mod node_line;
mod placed;
mod reader;
mod shape;
mod skimming;
mod splits;
mod tree;
mod tree_reader;
mod version;
mod walking;
mod writing;

pub use acceptance::{Verdict, accept};
pub use certificate::Certificate;
pub use checking::check;
pub use error::CertError;
pub use law::{certificate_text_law, certified_law, fault_law};
pub use reader::read;
pub use tree::Tree;
pub use version::Version;
pub use writing::write;
