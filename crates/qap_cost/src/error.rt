//! Why numbers do not form an instance, or a permutation.

use thiserror::Error;

/// Why `Instance::new` or `Perm::new` refuses what it was given.
#[derive(Clone, Copy, Debug, PartialEq, Eq, Error)]
pub enum CostError {
    /// The size is 0.
    #[error("the size is 0")]
    SizeZero,
    /// The size is above 256.
    #[error("the size is above 256")]
    SizeTooLarge,
    /// An entry is outside -10^9 to 10^9.
    #[error("an entry lies outside -10^9 to 10^9")]
    EntryRange,
    /// The number of a matrix's entries is not its size squared.
    #[error("a matrix has another number of entries")]
    CountDiffers,
    /// The numbers do not list each of 0 to their count less one, once, or there are none or more than 256.
    #[error("the numbers are no permutation")]
    NotPermutation,
}
