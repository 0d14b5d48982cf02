//! A node that a worker is working on, with its transaction.

ghost use Rattle.std.specs.Prelude.{All, IfOk};
ghost use Rattle.qap_search.specs.Worker.Standing.{IsIdle};

use crate::worker::prepared::Prepared;
use crate::worker::stage::{LastThought, Reserve, Stage};
use std::alloc::{AllocError, Global};

/// One of the nodes on which a worker is working, each with its own transaction: its stage, the last evaluation, and
/// the writes.
#[derive(Drop)]
pub(crate) struct Job {
    pub(crate) stage: Stage,
    pub(crate) last: Option<LastThought>,
    pub(crate) prepared: Prepared,
    pub(crate) reserve: Reserve,
}

impl Job {
    /// No node yet. Allocates nothing.
    pub(crate) fn new(alloc: Global) -> Job
        ensures { IsIdle result }
    {
        Job {
            stage: Stage::Idle,
            last: None,
            prepared: Prepared::new(alloc),
            reserve: Reserve::new(),
        }
    }
}

/// This many jobs with no node yet.
pub(crate) fn idle_jobs(alloc: Global, count: usize) -> Result<Vec<Job>, AllocError>
    ensures { IfOk result (λ jobs. All IsIdle jobs.items) }
{
    let mut jobs = Vec::with_capacity(alloc, count)?;
    for _ in 0..count {
        jobs.push(Job::new(alloc))?;
    }
    Ok(jobs)
}
