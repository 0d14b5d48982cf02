//! Why a file cannot be written.

use std::alloc::{AllocError, Global};
use std::io;

/// The system's words for an error, without their number: `No such file or directory`.
pub fn reason(alloc: Global, error: &io::Error) -> Result<String, AllocError> {
    let text = format!(in alloc; "{error}")?;
    match text.as_str().split_once(" (os error ") {
        Some((words, _)) => String::from_str(alloc, words),
        None => Ok(text),
    }
}
