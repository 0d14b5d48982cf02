//! A space of tuples under a law, for workers that count their accepted commits.
//!
//! The law defines which permanent tuples the space may hold and which commits may change them. A worker's share
//! counts its own accepted commits; the shares of a space together count every accepted commit.
#![tactic(auto)]

mod alone;
mod error;
mod law;
mod laws;
mod locking;
mod room;
mod share;
mod shared;
mod steps;
mod via;

pub use alone::Alone;
pub use error::{CommitError, SharedError};
pub use law::Law;
pub use laws::{content_run_law, no_limit_law, run_law, two_marks_law, writing_law};
pub use room::Room;
pub use share::Share;
pub use shared::Shared;
pub use steps::Steps;
pub use via::Via;
