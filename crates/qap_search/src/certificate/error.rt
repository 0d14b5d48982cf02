//! Why the tuples of a search cannot be assembled into a certificate.

use std::alloc::AllocError;
use thiserror::Error;

/// Why the tuples of a search are not assembled into a certificate.
#[derive(Clone, Copy, Debug, PartialEq, Eq, Error)]
pub enum AssembleError {
    /// Refusal 41: this many nodes are open.
    #[error("{0} nodes are open")]
    Unfinished(u64),
    /// Refusal 42: the tuples are not those of one tree and one permutation of the size.
    #[error("the tuples are not those of a certificate")]
    NotATree,
    /// Refusal 50: memory ran out.
    #[error("out of memory")]
    OutOfMemory,
}

impl From<AllocError> for AssembleError {
    ghost use Rattle.std.specs.Prelude.{◌≡◌};
    ghost use Rattle.qap_search.specs.declared.certificate.error.AssembleError.TheVariants.{OutOfMemory};

    ghost from_gives = { λ _ f. f ≡ OutOfMemory };

    fn from(_error: AllocError) -> AssembleError {
        AssembleError::OutOfMemory
    }
}
