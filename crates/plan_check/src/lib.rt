//! Checks answers to plans and to instances: what their JSON states, and what a proof establishes about them.
#![tactic(auto)]

mod answer;
mod error;
mod fault;
mod law;
mod layout;
mod lookup;
mod names;
mod number;
mod permutation;
mod proving;
mod stated;
mod telling;
mod written;

pub use answer::{Answer, answer_to_instance, answer_to_plan};
pub use error::AnswerError;
pub use fault::ProofFault;
pub use law::{refusal_law, stated_law};
pub use layout::layout_of;
pub use proving::proved_bound;
pub use telling::checked_line;
pub use written::{states_found, states_names, states_planned};
