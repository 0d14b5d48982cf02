//! Why a line of a script is not a command.

ghost use Rattle.std.specs.Prelude.{◌≡◌};

use std::alloc::AllocError;
use thiserror::Error;

/// Why a line of a script is not a command.
#[derive(Clone, Copy, Debug, PartialEq, Eq, Error)]
pub enum LineError {
    /// Refusal 36: it is not a command, exceeds a limit of tuples, or is longer than 65,536 bytes.
    #[error("the line is no command, or a tuple or the line is beyond its limits")]
    BadCommand,
    /// Refusal 50: memory ran out.
    #[error("there is no memory left to read the line")]
    OutOfMemory,
}

impl From<AllocError> for LineError {
    ghost use Rattle.space_script.specs.declared.error.LineError.TheVariants.{OutOfMemory};

    ghost from_gives = { λ _ e. e ≡ OutOfMemory };

    fn from(_error: AllocError) -> LineError {
        LineError::OutOfMemory
    }
}
