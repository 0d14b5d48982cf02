//! The version of the programs.

/// The version that all four programs have.
pub const VERSION: &str = "0.3.0";
