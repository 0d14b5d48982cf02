//! Why a script is aborted, and how that is reported.

ghost use Rattle.std.specs.Prelude.{◌≡◌};
ghost use Rattle.space_script.specs.Refusal.{script_refusal};
ghost use Rattle.space_script.specs.declared.script_error.ScriptError.TheVariants.{OutOfMemory as WantOfMemory, Device as FailedDevice};

use qap_io::{Device, Refusal};
use std::alloc::AllocError;
use thiserror::Error;

/// Why a script is aborted.
#[derive(Clone, Copy, Debug, PartialEq, Eq, Error)]
pub enum ScriptError {
    /// More than 2^62 bytes came.
    #[error("the script is too long")]
    InputTooLong,
    /// Memory ran out.
    #[error("out of memory")]
    OutOfMemory,
    /// The reader or the writer failed.
    #[error("the reader or the writer failed")]
    Device,
}

impl ScriptError {
    /// The refusal with which the fault is reported: its number and its name.
    pub fn refusal(self) -> Refusal
        ensures { result ≡ script_refusal self }
    {
        match self {
            ScriptError::InputTooLong => Refusal::new(24, "InputTooLong"),
            ScriptError::OutOfMemory => Refusal::out_of_memory(),
            ScriptError::Device => Refusal::device(),
        }
    }
}

impl From<AllocError> for ScriptError {
    ghost from_gives = { λ _ e. e ≡ WantOfMemory };

    fn from(_error: AllocError) -> ScriptError {
        ScriptError::OutOfMemory
    }
}

impl From<Device> for ScriptError {
    ghost from_gives = { λ _ e. e ≡ FailedDevice };

    fn from(_error: Device) -> ScriptError {
        ScriptError::Device
    }
}
