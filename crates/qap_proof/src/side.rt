//! The two sides of a split.

/// What a split is on.
#[derive(Clone, Copy, Debug, PartialEq, Eq)]
pub enum Side {
    /// One facility, which is put at each free location.
    Facility,
    /// One location, at which each free facility is put.
    Location,
}
