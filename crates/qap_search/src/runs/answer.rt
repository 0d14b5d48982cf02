//! What a search yields.

use crate::worker::report::Report;
use qap_cert::Certificate;
use qap_cost::Perm;
use std::alloc::AllocError;
use std::fmt;
use thiserror::Error;

/// Why a search ends without an answer.
#[derive(Drop, Debug, Error)]
pub enum SolveError {
    /// Refusal 41: this many nodes are open.
    #[error("{0} nodes are open")]
    Unfinished(u64),
    /// Refusal 43: the limit of commits was reached while nodes were open. The certificate bounds the least cost from
    /// below, and has a permutation that has this cost.
    #[error("the limit of nodes is reached")]
    Stopped(Answer),
    /// Refusal 50: memory ran out.
    #[error("out of memory")]
    OutOfMemory,
}

impl From<AllocError> for SolveError {
    ghost use Rattle.std.specs.Prelude.{◌≡◌};
    ghost use Rattle.qap_search.specs.declared.runs.answer.SolveError.TheVariants.{OutOfMemory};

    ghost from_gives = { λ _ f. f ≡ OutOfMemory };

    fn from(_error: AllocError) -> SolveError {
        SolveError::OutOfMemory
    }
}

/// A certificate of an instance's cost, and what each worker reports of the search.
#[derive(Drop)]
pub struct Answer {
    pub certificate: Certificate,
    /// One for each worker, in their order.
    pub reports: Vec<Report>,
}

impl fmt::Debug for Answer {
    fn fmt<W: fmt::Write>(&self, f: &mut fmt::Formatter<W>) -> fmt::Result {
        f.write_str("Answer")
    }
}

/// A permutation of an instance's least cost, and what each worker reports of the search.
#[derive(Drop)]
pub struct Least {
    pub permutation: Perm,
    pub cost: i128,
    /// One for each worker, in their order.
    pub reports: Vec<Report>,
}
