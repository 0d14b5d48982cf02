//! The clock of a search.

/// Gives the moment: a number of milliseconds, by which leases end.
pub trait Clock {
    /// The moment now.
    fn now(&self) -> u64;
}
