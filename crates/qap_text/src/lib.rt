//! QAPLIB texts: instances and solutions, read and written.
#![tactic(auto)]

mod error;
mod gap;
mod instance_text;
mod instance_writing;
mod number;
mod numeral;
mod solution_text;
mod solution_writing;
mod whole;
mod word;

pub use error::TextError;
pub use gap::gap_line;
pub use instance_text::{instance_text_law, read_instance};
pub use instance_writing::text_of_instance;
pub use solution_text::{read_solution, solution_text_law};
pub use solution_writing::write_solution;
pub use whole::{MAX_INPUT, read_all, read_behind, read_front};
pub use word::skip_separators;
