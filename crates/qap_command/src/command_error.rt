//! Why a command line is rejected.

use clap::error::ErrorKind;
use std::alloc::AllocError;
use std::io;
use thiserror::Error;

/// Why a command line is rejected. The usage line answers every fault, and a request for help.
#[derive(Clone, Copy, Debug, PartialEq, Eq, Error)]
pub enum CommandError {
    /// It does not match the usage line.
    #[error("the command line is not as the usage line says")]
    Usage,
    /// Memory ran out.
    #[error("out of memory")]
    OutOfMemory,
}

impl From<AllocError> for CommandError {
    fn from(_error: AllocError) -> CommandError {
        CommandError::OutOfMemory
    }
}

impl From<io::Error> for CommandError {
    fn from(error: io::Error) -> CommandError {
        match error.kind() {
            io::ErrorKind::OutOfMemory => CommandError::OutOfMemory,
            _ => CommandError::Usage,
        }
    }
}

impl From<clap::Error> for CommandError {
    fn from(error: clap::Error) -> CommandError {
        match error.kind() {
            ErrorKind::OutOfMemory => CommandError::OutOfMemory,
            _ => CommandError::Usage,
        }
    }
}
