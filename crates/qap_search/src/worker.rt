//! A worker: the steps of its turns, and its reports.

pub(crate) mod best_steps;
pub(crate) mod forever_writes;
pub(crate) mod gate;
pub(crate) mod hand;
pub(crate) mod job;
pub(crate) mod prepared;
pub(crate) mod report;
pub(crate) mod stage;
pub(crate) mod thinking;
pub(crate) mod turn;
