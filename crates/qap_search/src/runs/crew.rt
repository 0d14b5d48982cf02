//! The workers of a search, and its limit.

/// The workers of a search, and its limit.
#[derive(Clone, Copy, Debug)]
pub struct Crew {
    /// How many workers there are, each a thread: 1 to 64.
    pub workers: u16,
    /// For how many milliseconds their transactions ask.
    pub lease_ms: u64,
    /// How many commits are accepted at most.
    pub limit: Option<u64>,
}
