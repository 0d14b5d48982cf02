//! Files that a program replaces atomically or leaves unchanged.
#![tactic(auto)]

mod opening;
mod output;
mod system_error;

pub use opening::open_output;
pub use output::{FileId, Output, Place, file_id};
pub use system_error::reason;
