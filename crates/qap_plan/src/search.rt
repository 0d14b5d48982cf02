//! Searches of plans with costs of places, and the split of a search into parts.

pub(crate) mod charging;
pub(crate) mod splitting;
pub(crate) mod spooling;
