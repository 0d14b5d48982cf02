//! Transactions on a space of tuples: a transaction holds what it takes or reads until it commits or ends.
//!
//! The rules are this project's own, in the style of JavaSpaces. A transaction has a lease; once that has ended,
//! nothing that it did counts.
#![tactic(auto)]

mod error;
mod finding;
mod laws;
mod lists;
mod live;
mod mark;
mod marks;
mod transactions;
mod txn;
mod world;

pub use error::TxnError;
pub use laws::{
    begun_law, content_law, ending_law, expired_law, finding_law, granting_law, holding_law,
    lease_law, leaving_law, moment_law, renewal_law,
};
pub use lists::{Spare, Spent};
pub use mark::Mark;
pub use txn::{Found, Txn};
pub use world::TxnSpace;
