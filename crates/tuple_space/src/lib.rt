//! A space of tuples with leases, in the style of Linda (Gelernter, Generative Communication in Linda, 1985).
//!
//! Tuples are written under numbers that increase from 1, each with a lease, and are taken or read by templates. Time
//! is a number of milliseconds that the caller advances. A layer above may hold entries for its own transactions.
#![tactic(auto)]

mod admission;
mod ends;
mod entries;
mod entry;
mod error;
mod hasher;
mod held;
mod hold;
mod holding;
mod index;
mod indexing;
mod lease;
mod numbers;
mod permanent;
mod rows;
mod search;
mod space;
mod write;

pub use entry::{Claim, Entry, EntryId};
pub use error::SpaceError;
pub use held::Held;
pub use hold::{Hold, Holds};
pub use lease::{Lease, LeaseEnd, granted_end};
pub use space::{MOST, Space};
pub use write::{Write, Writes};
