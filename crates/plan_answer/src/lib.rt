//! Answers with names: the place of each department, the cost in the plan's own units, and the costliest pairs.
#![tactic(auto)]

mod answer;
mod charged;
mod compared;
mod gap;
mod layout;
mod lines;
mod listing;
mod pairs;
mod stated;

pub use answer::{answer_text, verdict_text};
pub use charged::{CostParts, charged_text, charged_verdict};
pub use compared::compared_text;
pub use gap::gap_text;
pub use layout::layout_text;
pub use listing::cost_text;
pub use pairs::{Pair, dearest_pairs};
pub use stated::{cost_line, stated_line, stated_text};
