//! The result of a search, from the space and the reports that it leaves.

ghost use Rattle.std.specs.Prelude.{◌≡◌, ◌<◌, ◌≤ℤ◌, ℕ, IfOk, MatchResult, length};
ghost use Rattle.qap_search.specs.Runs.Answer.{CertifiesLeast, IsAnswer, IsLeastFrom};
ghost use Rattle.qap_search.specs.Law.CutTree.{IsCutTree};
ghost use Rattle.qap_search.specs.Runs.Outcome.{IsEndFault, IsEnded, IsFinished};
ghost use Rattle.qap_search.specs.Tuples.Piece.{open_count};
ghost use Rattle.qap_search.specs.Runs.Ran.{FaultTells, HoldsAnswer, HoldsLeast, Tells};
ghost use Rattle.qap_search.specs.Law.Replacement.{Best};
ghost use Rattle.qap_search.specs.Law.Search.{from_root};
ghost use Rattle.qap_search.specs.Certificate.Finished.{IsAssembled};
ghost use Rattle.qap_search.specs.Certificate.Stopped.{CertifiesStopped, IsStopped};

use crate::certificate::assembling::{assemble_finished, open_nodes};
use crate::certificate::best_permutation::best_of;
use crate::certificate::closing_threads::Closers;
use crate::certificate::error::AssembleError;
use crate::certificate::stopped_assembling::assemble_stopped_by;
use crate::law::{certificate_law, stopped_law};
use crate::runs::answer::{Answer, Least, SolveError};
use crate::runs::run::Run;
use crate::worker::report::Report;
use qap_cert::Certificate;
use qap_cost::Instance;
use std::alloc::{AllocError, Global};
use tuple_match::Tuple;

/// What a search leaves that has gone on until no node was open.
#[derive(Drop)]
pub(crate) struct Finished {
    pub(crate) tuples: Vec<Tuple>,
    pub(crate) reports: Vec<Report>,
}

/// The certificate that a search yields.
pub(crate) fn answer_of<K: Closers>(
    closers: &K,
    alloc: Global,
    instance: &Instance,
    limit: Option<u64>,
    run: Run,
) -> Result<Answer, SolveError>
    requires ready { K.ready }
    requires ended { (known : Best) × IsEnded (from_root instance.now known) limit run }
    ensures answer { (known : Best) → IsEnded (from_root instance.now known) limit run →
        MatchResult result (IsAnswer instance.now (length run.reports.items) limit) (IsEndFault (from_root instance.now known) limit run) }
    ensures tells { MatchResult result (λ a. Tells run (HoldsAnswer instance.now a) a.reports.items) (FaultTells instance.now run) }
{
    let Finished { tuples, reports } = finished_run(closers, alloc, instance, limit, run)?;
    let certificate = assembled(alloc, instance, tuples)?;
    Ok(Answer {
        certificate,
        reports,
    })
}

/// The permutation of least cost that a search yields.
pub(crate) fn least_of<K: Closers>(
    closers: &K,
    alloc: Global,
    instance: &Instance,
    limit: Option<u64>,
    run: Run,
) -> Result<Least, SolveError>
    requires ready { K.ready }
    requires ended { (known : Best) × IsEnded (from_root instance.now known) limit run }
    ensures answer { (known : Best) → IsEnded (from_root instance.now known) limit run →
        MatchResult result (IsLeastFrom (from_root instance.now known) (length run.reports.items) limit)
        (IsEndFault (from_root instance.now known) limit run) }
    ensures tells { MatchResult result (λ a. Tells run (HoldsLeast a) a.reports.items) (FaultTells instance.now run) }
{
    let Finished { tuples, reports } = finished_run(closers, alloc, instance, limit, run)?;
    let (permutation, cost) = best_of(alloc, &tuples)?;
    Ok(Least {
        permutation,
        cost,
        reports,
    })
}

/// The tuples and the reports of a run that has gone on until no node was open. Runs for a certificate, or for a least permutation
/// alone, end here: one that has reached its limit of commits while nodes were open was stopped, and any other with open nodes is
/// unfinished.
fn finished_run<K: Closers>(
    closers: &K,
    alloc: Global,
    instance: &Instance,
    limit: Option<u64>,
    run: Run,
) -> Result<Finished, SolveError>
    requires ready { K.ready }
    requires ended { (known : Best) × IsEnded (from_root instance.now known) limit run }
    ensures finished { (known : Best) → IsEnded (from_root instance.now known) limit run →
        MatchResult result (IsFinished run) (IsEndFault (from_root instance.now known) limit run) }
    ensures tells { MatchResult result (λ f. Tells run (λ content. open_count content ≡ 0) f.reports.items) (FaultTells instance.now run) }
{
    let Run { space, reports } = run;
    let reached = limit == Some(space.commits());
    let Ok(tuples) = space.into_tuples() else {
        return Err(SolveError::OutOfMemory);
    };
    let open = open_nodes(&tuples);
    if open == 0 {
        return Ok(Finished { tuples, reports });
    }
    if !reached {
        return Err(SolveError::Unfinished(open));
    }
    let certificate = closed(closers, alloc, instance, tuples)?;
    Err(SolveError::Stopped(Answer {
        certificate,
        reports,
    }))
}

/// The certificate of tuples that are a cut tree without open nodes.
fn assembled(
    alloc: Global,
    instance: &Instance,
    tuples: Vec<Tuple>,
) -> Result<Certificate, AllocError>
    requires tree { (known : Best) × (commits : ℕ) × IsCutTree (from_root instance.now known) tuples.items commits }
    requires none_open { open_count tuples.items ≡ 0 }
    ensures certifies { IfOk result (λ c. (known : Best) (commits : ℕ) →
        IsCutTree (from_root instance.now known) tuples.items commits → CertifiesLeast instance.now commits c) }
    ensures assembled { IfOk result (IsAssembled instance.now.size tuples.items) }
{
    certificate_law();
    let size = instance.size();
    match assemble_finished(alloc, size, tuples) {
        Ok(certificate) => Ok(certificate),
        Err(AssembleError::OutOfMemory) => Err(AllocError),
        Err(AssembleError::Unfinished(_)) => unreachable!(),
        Err(AssembleError::NotATree) => unreachable!(),
    }
}

/// The certificate of tuples that are a cut tree, with each open node closed.
fn closed<K: Closers>(
    closers: &K,
    alloc: Global,
    instance: &Instance,
    tuples: Vec<Tuple>,
) -> Result<Certificate, AllocError>
    requires ready { K.ready }
    requires tree { (known : Best) × (commits : ℕ) × IsCutTree (from_root instance.now known) tuples.items commits }
    requires open { 0 < open_count tuples.items }
    ensures certifies { IfOk result (λ c. (known : Best) (commits : ℕ) → IsCutTree (from_root instance.now known) tuples.items commits →
        CertifiesStopped instance.now commits c × (c.cost ≤ℤ known.cost)) }
    ensures stopped { IfOk result (IsStopped instance.now tuples.items) }
{
    stopped_law();
    instance.instance_law();
    match assemble_stopped_by(closers, alloc, instance, tuples) {
        Ok(certificate) => Ok(certificate),
        Err(AssembleError::OutOfMemory) => Err(AllocError),
        Err(AssembleError::Unfinished(_)) => unreachable!(),
        Err(AssembleError::NotATree) => unreachable!(),
    }
}
