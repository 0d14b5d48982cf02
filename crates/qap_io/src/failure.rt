// The sign that a device failed.
use thiserror::Error;

/// A read, a write or a flush of the reader or the writer that the call was given has failed.
#[derive(Clone, Copy, Debug, PartialEq, Eq, Error)]
#[error("a read or write of the device failed")]
pub struct Device;
