//! Assembles the tuples of a stopped search, whose open nodes are closed first.

ghost use Rattle.std.specs.Prelude.{MatchResult};
ghost use Rattle.qap_search.specs.Certificate.Stopped.{IsStopped, IsStoppedFault};

use crate::certificate::assembling::assemble;
use crate::certificate::closing_threads::{Closers, One};
use crate::certificate::error::AssembleError;
use crate::certificate::leaf_bounds::bound_of;
use gilmore_lawler::RankedInstance;
use qap_cert::Certificate;
use qap_cost::Instance;
use std::alloc::Global;
use tuple_match::Tuple;

/// The certificate of a search that was stopped: each open node is closed by the duals of a least assignment of its
/// Gilmore-Lawler matrix. Its bound is the minimum of the cost and of the bounds of its tree's leaves, each the cost of
/// its placed facilities among themselves plus the sum of its duals.
///
/// The tuples may be in any order. `NotATree` is returned if they are not those of a tree of the instance's size, whose
/// nodes may be open, and of one permutation, or if the bound is below -10^24. `Unfinished` is never returned.
pub fn assemble_stopped(
    alloc: Global,
    instance: &Instance,
    tuples: Vec<Tuple>,
) -> Result<Certificate, AssembleError>
    ensures { MatchResult result
        (λ c. IsStopped instance.now tuples.items c)
        (λ e. IsStoppedFault instance.now tuples.items e) }
{
    assemble_stopped_by(&One, alloc, instance, tuples)
}

/// The same, where these close the open nodes.
pub(crate) fn assemble_stopped_by<K: Closers>(
    closers: &K,
    alloc: Global,
    instance: &Instance,
    tuples: Vec<Tuple>,
) -> Result<Certificate, AssembleError>
    requires { K.ready }
    ensures { MatchResult result
        (λ c. IsStopped instance.now tuples.items c)
        (λ e. IsStoppedFault instance.now tuples.items e) }
{
    let ranked = RankedInstance::new(alloc, instance)?;
    let closed = closers.close_open(alloc, &ranked, tuples)?;
    let finished = assemble(alloc, instance.size(), closed)?;
    let bound = bound_of(alloc, instance, &finished)?;
    match finished.with_bound(bound) {
        Ok(certificate) => Ok(certificate),
        Err(_) => Err(AssembleError::NotATree),
    }
}
