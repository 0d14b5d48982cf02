//! What the programs' command lines share: reading their words, the version, and the usage line.
#![tactic(auto)]

mod command_error;
mod command_line;
mod version;

pub use command_error::CommandError;
pub use command_line::{tell_usage, words};
pub use version::VERSION;
