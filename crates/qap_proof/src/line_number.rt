//! The numbers of a proof's lines.

/// The line of the version.
pub(crate) const VERSION_LINE: u64 = 1;
/// The line of the size.
pub(crate) const SIZE_LINE: u64 = 2;
/// The line of the cost.
pub(crate) const COST_LINE: u64 = 3;
/// The line of the permutation.
pub(crate) const PERM_LINE: u64 = 4;
/// The line of the root where it isn't empty, and else that of the bound or of the tree's first node.
pub(crate) const ROOT_LINE: u64 = 5;
/// The line after that of a root.
pub(crate) const LINE_BEHIND_ROOT: u64 = 6;
