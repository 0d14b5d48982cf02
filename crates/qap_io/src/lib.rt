//! What all texts share: readers and writers whose failures are counted, reading and writing, decimal digits, and how
//! programs report refusals and exit.
#![tactic(auto)]

mod counting;
mod devices;
mod digits;
mod failure;
mod number;
mod reading;
mod refusal;
mod status;
mod writing;

pub use counting::Counted;
pub use devices::{FailAt, OneByte};
pub use digits::{Digits, all_digits, front_digits};
pub use failure::Device;
pub use number::{MAX_READ, from_one, negated};
pub use reading::read_some;
pub use refusal::Refusal;
pub use status::Status;
pub use writing::{finish, put, send};
