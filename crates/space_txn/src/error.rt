//! Why a call on a transaction is refused.

ghost use Rattle.std.specs.Prelude.{◌≡◌, ◌≢◌};
ghost use Rattle.space_txn.specs.declared.error.TxnError.TheVariants.{OutOfMemory};
ghost use Rattle.space_txn.specs.Refusal.{IsRefusalOf};

use std::alloc::{AllocError, AllocFailed};
use thiserror::Error;
use tuple_space::SpaceError;

/// Why a call on a transaction is refused.
#[derive(Clone, Copy, Debug, PartialEq, Eq, Error)]
pub enum TxnError {
    /// Refusal 31: no live transaction of this space has the number.
    #[error("no live transaction has this number")]
    Expired,
    /// Refusal 32: the marks of the transaction are not those of the space.
    #[error("the transaction belongs to another space")]
    Foreign,
    /// Refusal 33: the numbers of transactions, of entries or of commits are used up.
    #[error("the numbers are used up")]
    Exhausted,
    /// Refusal 50: memory ran out.
    #[error("out of memory")]
    OutOfMemory,
}

impl From<AllocError> for TxnError {
    ghost from_gives = { λ _ e. e ≡ OutOfMemory };

    fn from(_error: AllocError) -> TxnError {
        TxnError::OutOfMemory
    }
}

impl<T: Drop> From<AllocFailed<T>> for TxnError {
    ghost from_gives = { λ _ e. e ≡ OutOfMemory };

    fn from(_error: AllocFailed<T>) -> TxnError {
        TxnError::OutOfMemory
    }
}

/// The refusal of a transaction where the space refused what it would write.
pub(crate) fn refusal_of(error: SpaceError) -> TxnError
    requires { error ≢ SpaceError.NotThere }
    ensures { IsRefusalOf error result }
{
    match error {
        SpaceError::Exhausted => TxnError::Exhausted,
        SpaceError::OutOfMemory => TxnError::OutOfMemory,
        SpaceError::NotThere => unreachable!(),
    }
}
