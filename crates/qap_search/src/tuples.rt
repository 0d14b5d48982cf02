//! The tuples of a search: how they are composed, parsed and requested.

pub(crate) mod composing;
pub(crate) mod parsing;
pub(crate) mod templates;
