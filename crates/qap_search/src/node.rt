//! A node of the search, its evaluation, and the decision made there.

pub(crate) mod branching;
pub(crate) mod decision;
pub(crate) mod node_list;
pub(crate) mod scratch;
pub(crate) mod thought;
