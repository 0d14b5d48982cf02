//! Scripts of the tuple space: reads and executes their commands, and writes the replies.
#![tactic(auto)]

mod answering;
mod arguments;
mod carrying;
mod command;
mod error;
mod feeding;
mod fields;
mod keeping;
mod kept;
mod law;
mod line;
mod lists;
mod numbers;
mod reply;
mod run;
mod script_error;
mod session;
mod verb;

pub use command::Command;
pub use error::LineError;
pub use law::line_law;
pub use line::{LONGEST_LINE, read_line};
pub use reply::{Reply, reply_line};
pub use run::run_script;
pub use script_error::ScriptError;
