//! Pictures of arrangements as SVG: each department at its place, lines as wide as the flows, and arrows as wide as the
//! costs of the costliest pairs.
#![tactic(auto)]

mod arrows;
mod boxes;
mod drawing;
mod escape;
mod layout;
mod legend;
mod lines;
mod naming;
mod parts;
mod wrapping;

pub use drawing::{Caption, picture};
pub use escape::{escaped, escaped_bytes};
pub use parts::joined;
