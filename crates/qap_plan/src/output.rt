//! What a run writes and reports.

pub(crate) mod answer;
pub(crate) mod estimate_lines;
pub(crate) mod found_outcome;
pub(crate) mod json;
pub(crate) mod node_lines;
pub(crate) mod outcome;
pub(crate) mod picturing;
pub(crate) mod plan_outcome;
pub(crate) mod progress;
pub(crate) mod proof_file;
pub(crate) mod resident;
