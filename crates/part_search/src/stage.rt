//! The stages of a worker's turn.

use space_txn::Txn;
use std::alloc::AllocError;
use tuple_space::EntryId;

/// The stage of a worker's turn.
#[derive(Drop)]
pub(crate) enum Stage {
    /// It has no transaction.
    Idle,
    /// It has begun one.
    Begun(Txn),
    /// It took the entry of an open node, which must be tried next.
    Taken(Txn, EntryId),
    /// The node was split and its children were tried; those that are left open are written.
    Tried(Txn),
    /// The incumbent was taken, and one that is no worse is also written.
    Ready(Txn),
    /// The transaction must be ended without a commit.
    GivingUp(Txn),
}

/// Where a step leaves a worker, and whether it met no refusal.
#[derive(Drop)]
pub(crate) struct Outcome {
    pub(crate) stage: Stage,
    pub(crate) told: Result<bool, AllocError>,
}
