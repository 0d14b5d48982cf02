//! What a run of the planner's program reads and writes: which file is read as what, where outputs go, and how a run that is refused ends.
#![tactic(auto)]

mod error;
mod file_bytes;
mod instance_file;
mod layout_file;
mod noting;
mod outputs;
mod reading;
mod refusal;
mod restriction;
mod sink;
mod source;
mod starting;

pub use error::PlannerError;
pub use file_bytes::{bytes_in, text_in};
pub use instance_file::{
    Searched, cost_decimals, inputs_of, instance_in, is_plain, plan_in, searched_in,
};
pub use layout_file::{layout_in, start_in};
pub use outputs::{Outputs, worse};
pub use reading::read_problem;
pub use refusal::{Misuse, Refusal, ended, refuse_with};
pub use restriction::{Restriction, allowed_start, widened};
pub use sink::Sink;
pub use source::Source;
pub use starting::{permutation_in, read_start};
