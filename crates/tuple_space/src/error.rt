//! Why the space refuses a call.

ghost use Rattle.tuple_space.specs.declared.error.SpaceError.TheVariants.{OutOfMemory};
ghost use Rattle.std.specs.Prelude.{◌≡◌};

use std::alloc::{AllocError, AllocFailed};
use thiserror::Error;

/// Why a call of the space is refused.
#[derive(Clone, Copy, Debug, PartialEq, Eq, Error)]
pub enum SpaceError {
    /// Refusal 33: the numbers of entries are used up, or a moment is past 2^62.
    #[error("the numbers are used up")]
    Exhausted,
    /// Refusal 35: no live entry has the number.
    #[error("no live entry has this number")]
    NotThere,
    /// Refusal 50: memory ran out.
    #[error("out of memory")]
    OutOfMemory,
}

impl From<AllocError> for SpaceError {
    ghost from_gives = { λ _ e. e ≡ OutOfMemory };

    fn from(_error: AllocError) -> SpaceError {
        SpaceError::OutOfMemory
    }
}

impl<T: Drop> From<AllocFailed<T>> for SpaceError {
    ghost from_gives = { λ _ e. e ≡ OutOfMemory };

    fn from(_error: AllocFailed<T>) -> SpaceError {
        SpaceError::OutOfMemory
    }
}
