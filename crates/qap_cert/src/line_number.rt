//! The numbers of a certificate's lines.

/// The line of the version.
pub(crate) const VERSION_LINE: u64 = 1;
/// The line of the size.
pub(crate) const SIZE_LINE: u64 = 2;
/// The line of the cost.
pub(crate) const COST_LINE: u64 = 3;
/// The line of the permutation.
pub(crate) const PERM_LINE: u64 = 4;
/// The line of the bound where it is below the cost, and else that of the tree's first node.
pub(crate) const BOUND_LINE: u64 = 5;
/// The line of the tree's first node after that of a bound.
pub(crate) const TREE_LINE_BEHIND_BOUND: u64 = 6;
