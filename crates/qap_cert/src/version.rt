//! The versions of a certificate's text.

/// The two versions of a certificate's text. Both are read, and the second is written.
#[derive(Clone, Copy)]
pub enum Version {
    /// A split does not name its facility, which is the one whose number is the depth; no bound is stated.
    First,
    /// A split names its facility, and a bound that is below the cost is stated.
    Second,
}
