//! A search by several workers, each in its own thread.

ghost use Rattle.std.specs.Prelude.{◌≡◌, ◌<◌, ◌≤◌, [], All, IfOk, MatchResult, ℕ, length, sum, vec_capacity, vec_len};
ghost use Rattle.std.specs.List.{sum_by};
ghost use Rattle.qap_search.specs.Runs.Answer.{IsAnswer, IsLeastAnswer, IsSolveFault, accepted_of};
ghost use Rattle.qap_search.specs.Runs.Outcome.{IsEnded};
ghost use Rattle.qap_search.specs.Runs.Opening.{IsOpening};
ghost use Rattle.qap_search.specs.Runs.Ran.{HoldsAnswer, HoldsLeast, Ran, RanTo, RanToFault};
ghost use Rattle.qap_search.specs.Law.Search.{Search, whole};
ghost use Rattle.qap_search.specs.Law.SearchLaw.{IsLawOf, IsSearchLaw};
ghost use Rattle.shared_space.specs.Opening.{IsBlankFor, MayOpen, opened};
ghost use Rattle.shared_space.specs.Run.{IsReached};
ghost use Rattle.std.specs.Arc.{arc_value};

use crate::certificate::closing_threads::Many;
use crate::runs::alone::shared_rows;
use crate::runs::answer::{Answer, Least, SolveError};
use crate::runs::clock::Clock;
use crate::runs::crew::Crew;
use crate::runs::opening::opening_space;
use crate::runs::pace::Pace;
use crate::runs::run::Run;
use crate::runs::run_ending::{answer_of, least_of};
use crate::runs::seat::{Seat, Workplace};
use crate::tuples::templates::{best_template, node_template};
use crate::worker::forever_writes::turned_round;
use crate::worker::gate::Gate;
use crate::worker::hand::Hand;
use crate::worker::job::idle_jobs;
use crate::worker::report::Report;
use gilmore_lawler::RankedInstance;
use qap_cost::Instance;
use shared_space::{Law, Share, Shared};
use space_txn::TxnSpace;
use std::alloc::{AllocError, Global};
use std::marker::Brand;
use std::sync::ledger::Blank;
use std::sync::{Arc, Mutex, Wait};
use std::thread::Threads;
use std::time::Duration;
use std::{thread, time};
use tuple_match::Template;

/// How many nodes the workers of a search work on together, if that is at least one each.
const AT_HAND: usize = 16;

/// How many nodes a worker has at hand at most.
const AT_HAND_OF_ONE: usize = 4;

/// Up to this size a node is so little work that a worker has several at hand, for one taking of the space's lock.
const SMALL_SIZE: usize = 32;

/// How many milliseconds the keeper pauses before it looks again.
const PAUSE_MS: u64 = 1;

/// The certificate of an instance's least cost, from this many workers, each a thread, whose transactions begin with
/// leases of this many milliseconds.
///
/// The calling thread keeps the space: it advances the moment by the clock, and closes the space when no node is left
/// or every worker has left. The gate is consulted before each step of a worker and informed after it. `Unfinished` is
/// returned if nodes are left, with their number: if workers were ended by the gate or ran out of memory. With a lease
/// of 0 ms no commit is ever accepted. With a limit, no more commits are accepted than that: if it is reached while
/// nodes are left, `Stopped` is returned with a certificate in which these nodes are closed.
pub fn solve<R, C, G>(
    rt: &R,
    alloc: Global,
    instance: &Instance,
    crew: Crew,
    pace: &Pace<'_, C, G>,
) -> Result<Answer, SolveError>
where
    R: Threads + Wait + time::Clock + Sync,
    C: Clock,
    G: Gate + Sync,
    requires some { 0 < crew.workers }
    requires few { crew.workers ≤ 64 }
    ensures answer { MatchResult result (IsAnswer instance.now crew.workers crew.limit) (IsSolveFault instance.now crew.workers crew.limit) }
    ensures ran { MatchResult result (λ a. Ran (whole instance.now) crew (accepted_of a.reports.items) (HoldsAnswer instance.now a))
        (RanToFault (whole instance.now) crew) }
{
    let run = run_of(rt, alloc, instance, crew, pace)?;
    answer_of(
        &Many::new(rt, crew.workers),
        alloc,
        instance,
        crew.limit,
        run,
    )
}

/// A permutation of an instance's least cost, by the same search, for callers that need no certificate, which is then
/// not assembled. The workers, the gate, the lease, the limit and the errors are as for `solve`.
pub fn solve_least<R, C, G>(
    rt: &R,
    alloc: Global,
    instance: &Instance,
    crew: Crew,
    pace: &Pace<'_, C, G>,
) -> Result<Least, SolveError>
where
    R: Threads + Wait + time::Clock + Sync,
    C: Clock,
    G: Gate + Sync,
    requires some { 0 < crew.workers }
    requires few { crew.workers ≤ 64 }
    ensures answer { MatchResult result (IsLeastAnswer instance.now crew.workers crew.limit) (IsSolveFault instance.now crew.workers crew.limit) }
    ensures ran { MatchResult result (λ a. Ran (whole instance.now) crew (accepted_of a.reports.items) (HoldsLeast a))
        (RanToFault (whole instance.now) crew) }
{
    let run = run_of(rt, alloc, instance, crew, pace)?;
    least_of(
        &Many::new(rt, crew.workers),
        alloc,
        instance,
        crew.limit,
        run,
    )
}

/// The run of a search by these workers.
fn run_of<R, C, G>(
    rt: &R,
    alloc: Global,
    instance: &Instance,
    crew: Crew,
    pace: &Pace<'_, C, G>,
) -> Result<Run, AllocError>
where
    R: Threads + Wait + time::Clock + Sync,
    C: Clock,
    G: Gate + Sync,
    requires some { 0 < crew.workers }
    requires few { crew.workers ≤ 64 }
    ensures ended { IfOk result (IsEnded (whole instance.now) crew.limit) }
    ensures one_each { IfOk result (λ run. length run.reports.items ≡ crew.workers) }
    ensures ran { IfOk result (λ run. RanTo (whole instance.now) crew run.space) }
{
    let space = opening_space(alloc, instance)?;
    let blank = Blank::new(u64::from(crew.workers));
    search::<Brand, R, C, G>(rt, alloc, instance, space, blank, crew, pace)
}

/// The same, on a space that is at the opening, under a law that is the search's.
fn search<L, R, C, G>(
    rt: &R,
    alloc: Global,
    instance: &Instance,
    space: TxnSpace,
    blank: Blank,
    crew: Crew,
    pace: &Pace<'_, C, G>,
) -> Result<Run, AllocError>
where
    L: Law + Send + Sync,
    R: Threads + Wait + time::Clock + Sync,
    C: Clock,
    G: Gate + Sync,
    requires some { 0 < crew.workers }
    requires blank { IsBlankFor L.name L.parts blank crew.workers }
    requires few { crew.workers ≤ 64 }
    requires law { IsLawOf (whole instance.now) L.lawful L.allowed }
    requires lease { L.begins crew.lease_ms }
    requires limit { L.limit ≡ crew.limit }
    requires opening { IsOpening (whole instance.now) space }
    requires reached { L.reached (opened space crew.workers crew.limit) }
    ensures ended { IfOk result (IsEnded (whole instance.now) crew.limit) }
    ensures one_each { IfOk result (λ run. length run.reports.items ≡ crew.workers) }
    ensures reached { IfOk result (λ run. IsReached L.reached run.space) }
{
    let count = usize::from(crew.workers);
    let room = Left::with_capacity(alloc, count)?;
    let templates = Templates::new(alloc)?;
    let staffed = staff::<L>(alloc, instance, space, blank, crew)?;
    Ok(run_out(rt, staffed, room, &templates, pace))
}

/// What workers wait for on the space.
#[derive(Drop)]
struct Templates {
    nodes: Template,
    best: Template,
}

impl Templates {
    fn new(alloc: Global) -> Result<Templates, AllocError> {
        Ok(Templates {
            nodes: node_template(alloc)?,
            best: best_template(alloc)?,
        })
    }
}

/// A space under its lock, with a seat for each worker.
#[derive(Drop)]
struct Staffed<L: Law> {
    shared: Shared<L>,
    seats: Vec<Mutex<Seat<L>>>,
}

/// The space under its lock and its limit, with these workers, who haven't begun.
fn staff<L: Law>(
    alloc: Global,
    instance: &Instance,
    space: TxnSpace,
    blank: Blank,
    crew: Crew,
) -> Result<Staffed<L>, AllocError>
    requires blank { IsBlankFor L.name L.parts blank crew.workers }
    requires few { crew.workers ≤ 64 }
    requires law { IsSearchLaw instance.now L.lawful L.allowed }
    requires lease { L.begins crew.lease_ms }
    requires limit { L.limit ≡ crew.limit }
    requires space { MayOpen L.lawful crew.limit L.reached space crew.workers }
    ensures { IfOk result (λ made. vec_len made.seats ≡ crew.workers) }
{
    let ranked = shared_rows(alloc, instance)?;
    let workers = usize::from(crew.workers);
    let (shared, shares) = Shared::<L>::within(alloc, blank, space, workers, crew.limit)?;
    let seats = seats_for(alloc, &ranked, crew, shares)?;
    Ok(Staffed { shared, seats })
}

/// What is left where all workers have worked until the space was closed.
fn run_out<L, R, C, G>(
    rt: &R,
    staffed: Staffed<L>,
    room: Left<L>,
    templates: &Templates,
    pace: &Pace<'_, C, G>,
) -> Run
where
    L: Law + Send + Sync,
    R: Threads + Wait + time::Clock + Sync,
    C: Clock,
    G: Gate + Sync,
    requires all { vec_len staffed.seats ≡ L.parts }
    requires some { 0 < vec_len staffed.seats }
    requires no_shares { room.shares.items ≡ [] }
    requires no_reports { room.reports.items ≡ [] }
    requires room_for_shares { vec_len staffed.seats ≤ vec_capacity room.shares }
    requires room_for_reports { vec_len staffed.seats ≤ vec_capacity room.reports }
    ensures ended { (S : Search) → IsLawOf S L.lawful L.allowed → IsEnded S L.limit result }
    ensures reached { IsReached L.reached result.space }
    ensures reports { length result.reports.items ≡ vec_len staffed.seats }
{
    let Staffed { shared, seats } = staffed;
    let place = Workplace {
        rt,
        shared: &shared,
        nodes: &templates.nodes,
        best: &templates.best,
        gate: pace.gate,
    };
    work_all(&place, &seats, pace.clock);
    let Left { shares, reports } = left_by(room, seats);
    let (space, _) = shared.into_inner(shares);
    Run { space, reports }
}

/// A seat for each share, the workers numbered from 0.
fn seats_for<L: Law>(
    alloc: Global,
    ranked: &Arc<RankedInstance>,
    crew: Crew,
    shares: Vec<Share<L>>,
) -> Result<Vec<Mutex<Seat<L>>>, AllocError>
    requires law { IsSearchLaw (arc_value ranked.now) L.lawful L.allowed }
    requires lease { L.begins crew.lease_ms }
    requires fresh { All (λ (n : ℕ). n ≡ 0) shares.items }
    requires few { vec_len shares ≤ 64 }
    ensures { IfOk result (λ seats. vec_len seats ≡ vec_len shares) }
{
    let others = jobs_beside(usize::from(crew.workers), ranked.instance().size());
    let mut seats = Vec::with_capacity(alloc, shares.len())?;
    let mut rest = shares;
    let mut worker = 0;
    while let Some(share) = rest.pop() {
        let hand = Hand::new(alloc, worker, ranked.clone()?, crew.lease_ms)?.beside(idle_jobs(
            alloc, others,
        )?);
        seats.push(Mutex::new(Seat::new(worker, hand, share)))?;
        worker += 1;
    }
    Ok(seats)
}

/// How many jobs each of this many workers has beside the one that it is at, in a search on an instance of this size.
/// One worker alone takes node by node.
fn jobs_beside(workers: usize, size: usize) -> usize {
    if workers < 2 || size > SMALL_SIZE {
        return 0;
    }
    (AT_HAND / workers).clamp(1, AT_HAND_OF_ONE) - 1
}

/// Runs each worker in its own thread, and keeps the space until it is closed. A worker whose thread cannot be started
/// has left.
fn work_all<R, L, C, G>(place: &Workplace<'_, R, L, G>, seats: &[Mutex<Seat<L>>], clock: &C)
where
    R: Threads + Wait + time::Clock + Sync,
    L: Law + Send + Sync,
    C: Clock,
    G: Gate + Sync,
{
    thread::scope(thread::scope_env(), place.rt, |scope| {
        for seat in seats {
            if scope.spawn(move || work(place, seat)).is_err() {
                place.shared.leave(place.rt);
            }
        }
        keep(place, clock);
    });
}

/// Lets the worker of a seat work, which it leaves then.
fn work<R: Wait, L: Law, G: Gate>(place: &Workplace<'_, R, L, G>, seat: &Mutex<Seat<L>>) {
    seat.lock(place.rt).work(place);
    place.shared.leave(place.rt);
}

/// Advances the moment by the clock until the space is closed.
fn keep<R, L, C, G>(place: &Workplace<'_, R, L, G>, clock: &C)
where
    R: Wait + time::Clock,
    L: Law,
    C: Clock,
    G: Gate,
{
    for _ in place.rt.forever() {
        if place.shared.close(place.rt, place.nodes) {
            return;
        }
        // A moment that is too late changes nothing.
        let _ = place.shared.advance(place.rt, clock.now());
        thread::sleep(place.rt, Duration::from_millis(PAUSE_MS));
    }
}

/// What the workers leave: their shares, and their reports in the order of the workers.
#[derive(Drop)]
struct Left<L: Law> {
    shares: Vec<Share<L>>,
    reports: Vec<Report>,
}

impl<L: Law> Left<L> {
    /// Room for what this many workers leave.
    fn with_capacity(alloc: Global, workers: usize) -> Result<Left<L>, AllocError>
        ensures empty { IfOk result (λ left. (left.shares.items ≡ []) × (left.reports.items ≡ [])) }
        ensures shares { IfOk result (λ left. workers ≤ vec_capacity left.shares) }
        ensures reports { IfOk result (λ left. workers ≤ vec_capacity left.reports) }
    {
        Ok(Left {
            shares: Vec::with_capacity(alloc, workers)?,
            reports: Vec::with_capacity(alloc, workers)?,
        })
    }
}

/// What the workers leave, in the room that was made for it.
fn left_by<L: Law>(room: Left<L>, seats: Vec<Mutex<Seat<L>>>) -> Left<L>
    requires no_shares { room.shares.items ≡ [] }
    requires no_reports { room.reports.items ≡ [] }
    requires room_for_shares { vec_len seats ≤ vec_capacity room.shares }
    requires room_for_reports { vec_len seats ≤ vec_capacity room.reports }
    ensures shares { vec_len result.shares ≡ vec_len seats }
    ensures reports { length result.reports.items ≡ vec_len seats }
    ensures counted { sum_by (λ r. r.accepted) result.reports.items ≡ sum result.shares.items }
{
    let Left {
        mut shares,
        mut reports,
    } = room;
    let mut rest = seats;
    while let Some(seat) = rest.pop() {
        let (share, report) = seat.into_inner().left();
        shares.push(share).unwrap();
        reports.push(report).unwrap();
    }
    let reports = turned_round(reports);
    Left { shares, reports }
}
