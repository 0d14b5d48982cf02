//! Why a wait for a tuple ends without one, and why a commit is refused.

use space_txn::TxnError;
use thiserror::Error;

/// Why a wait for a tuple ends without one.
#[derive(Clone, Copy, Debug, PartialEq, Eq, Error)]
pub enum SharedError {
    /// Refusal 34: the space is closed, and no such tuple is available.
    #[error("the space is closed")]
    Closed,
    /// Refusal 50: memory ran out.
    #[error("out of memory")]
    OutOfMemory,
}

/// Why a commit is refused.
#[derive(Clone, Copy, Debug, PartialEq, Eq, Error)]
pub enum CommitError {
    /// Refusal 37: the limit of commits is reached.
    #[error("the limit of commits is reached")]
    Limit,
    /// The transaction's own refusal: 31, 32, 33 or 50.
    #[error("{0}")]
    Txn(TxnError),
}
