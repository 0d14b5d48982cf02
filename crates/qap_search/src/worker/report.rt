//! A worker's report.

/// Why a worker ended.
#[derive(Clone, Copy, Debug, PartialEq, Eq)]
pub enum Ended {
    /// The search was over.
    Done,
    /// Its gate did not let it pass.
    ByGate,
    /// There was no memory for it.
    Memory,
}

/// What a worker did, and why it ended.
#[derive(Clone, Copy, Debug, PartialEq, Eq)]
pub struct Report {
    /// Its accepted commits.
    pub accepted: u64,
    /// Its commits that were refused since its transaction had ended.
    pub refused: u64,
    /// Why it ended.
    pub ended: Ended,
}
