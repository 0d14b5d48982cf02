//! Loads the problem of a plan's file and of the tables that it names.
#![tactic(auto)]

mod loading;
mod notes;
mod texts;

pub use loading::{LoadError, Loaded, is_plan, load_from, load_problem};
pub use notes::notes_of;
pub use texts::{Disk, Texts};
