//! How a search ended.

/// How a search of a subtree ended.
#[derive(Clone, Copy, Debug, PartialEq, Eq)]
pub enum Outcome {
    /// No permutation that completes the node costs less than the incumbent.
    Closed,
    /// As many nodes were evaluated as the limit allows, and one more was due.
    LimitReached,
    /// The stop said so.
    Stopped,
}
