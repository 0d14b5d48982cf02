//! Runs of a search by a schedule: turns of workers, moments and losses in any order.

ghost use Rattle.std.specs.Prelude.{◌≡◌, ◌<◌, ◌≤◌, All, IfOk, None, OnOk, ℕ, map, replicate, slice_get, vec_len};
ghost use Rattle.std.specs.Arc.{arc_value};
ghost use Rattle.qap_search.specs.Runs.Interleaving.{AreReady, IsRun, Moment, Moves, TurnOf, beginner, report_of, without_worker};
ghost use Rattle.shared_space.specs.Opening.{IsBlankFor, opened};
ghost use Rattle.shared_space.specs.Place.{Place};
ghost use Rattle.qap_search.specs.Runs.Opening.{IsOpening};
ghost use Rattle.qap_search.specs.Law.Search.{whole};
ghost use Rattle.qap_search.specs.Law.SearchLaw.{IsLawOf, IsSearchLaw};

use crate::runs::alone::shared_rows;
use crate::runs::opening::opening_space;
use crate::runs::run::Run;
use crate::runs::schedule_place::Post;
use crate::worker::report::Report;
use gilmore_lawler::RankedInstance;
use qap_cost::Instance;
use shared_space::{Alone, Law, Room, Share};
use space_txn::TxnSpace;
use std::alloc::{AllocError, Global};
use std::marker::Brand;
use std::sync::Arc;
use std::sync::ledger::Blank;

/// How many milliseconds a transaction of a schedule may take.
const LEASE_MS: u64 = 1000;

/// One step of a schedule. A number that names no worker, and a moment past the greatest one, change nothing.
#[derive(Clone, Copy, Debug, PartialEq, Eq)]
pub enum Step {
    /// The worker makes its next step, and the evaluation that it requires.
    Turn(u16),
    /// The moment moves on to this one.
    Advance(u64),
    /// The worker is lost with its transaction, which is not ended, and a new one takes its place.
    Lose(u16),
}

/// Runs a search under a schedule: this many workers, with transactions leased for 1000 ms, take their turns in the
/// given order, at the given moments. The only error is out of memory.
pub fn play(
    alloc: Global,
    instance: &Instance,
    workers: u16,
    steps: &[Step],
) -> Result<Run, AllocError>
    requires some { 0 < workers }
    requires few { workers ≤ 64 }
    ensures { IfOk result (IsRun instance.now workers steps.now) }
{
    let space = opening_space(alloc, instance)?;
    let blank = Blank::new(u64::from(workers));
    follow::<Brand>(alloc, instance, space, blank, workers, steps)
}

/// The same, on a space that is at the opening, under a law that is the search's.
fn follow<L: Law>(
    alloc: Global,
    instance: &Instance,
    space: TxnSpace,
    blank: Blank,
    workers: u16,
    steps: &[Step],
) -> Result<Run, AllocError>
    requires blank { IsBlankFor L.name L.parts blank workers }
    requires few { workers ≤ 64 }
    requires law { IsLawOf (whole instance.now) L.lawful L.allowed }
    requires lease { L.begins 1000 }
    requires limit { L.limit ≡ None }
    requires opening { IsOpening (whole instance.now) space }
    requires reached { L.reached (opened space workers None) }
    ensures { IfOk result (IsRun instance.now workers steps.now) }
{
    let rows = shared_rows(alloc, instance)?;
    let made = Alone::<L>::new(alloc, blank, space, usize::from(workers));
    let Ok((mut room, shares)) = made else {
        return Err(AllocError);
    };
    let mut posts = posts_for(alloc, &rows, shares)?;
    for i in 0..steps.len() {
        make(alloc, &rows, steps[i], &mut posts, &mut room)?;
    }
    let reports = reports_of(alloc, &posts)?;
    Ok(Run {
        space: room.into_space(),
        reports,
    })
}

/// A place for each share, the workers numbered from 0.
fn posts_for<L: Law>(
    alloc: Global,
    rows: &Arc<RankedInstance>,
    shares: Vec<Share<L>>,
) -> Result<Vec<Post<L>>, AllocError>
    requires law { IsSearchLaw (arc_value rows.now) L.lawful L.allowed }
    requires lease { L.begins 1000 }
    requires limit { L.limit ≡ None }
    requires fresh { All (λ (n : ℕ). n ≡ 0) shares.items }
    requires few { vec_len shares ≤ 64 }
    ensures { IfOk result (λ posts. posts.items ≡ replicate (vec_len shares) (beginner (arc_value rows.now) 1000)) }
{
    let mut posts = Vec::with_capacity(alloc, shares.len())?;
    let mut rest = shares;
    let mut worker = 0;
    while let Some(share) = rest.pop() {
        posts.push(Post::new(alloc, worker, rows, LEASE_MS, share)?)?;
        worker += 1;
    }
    Ok(posts)
}

/// Makes one step of a schedule.
fn make<L: Law>(
    alloc: Global,
    rows: &Arc<RankedInstance>,
    step: Step,
    posts: &mut Vec<Post<L>>,
    room: &mut Alone<L>,
) -> Result<(), AllocError>
    requires law { IsSearchLaw (arc_value rows.now) L.lawful L.allowed }
    requires lease { L.begins 1000 }
    requires ready { AreReady posts.old.items }
    ensures moves { let old : Moment = record { posts = posts.old.items; place = room.old } in let new : Moment = record { posts = posts.new.items; place = room.new } in
        OnOk result (Moves (arc_value rows.now) 1000 old step new) }
    ensures ready { OnOk result (AreReady posts.new.items) }
{
    match step {
        Step::Turn(worker) => turn(usize::from(worker), posts, room),
        Step::Advance(moment) => {
            let _ = room.advance(moment);
            Ok(())
        }
        Step::Lose(worker) => lose(alloc, rows, usize::from(worker), posts),
    }
}

/// The turn of the worker of this number, if there is one.
fn turn<L: Law>(
    worker: usize,
    posts: &mut Vec<Post<L>>,
    room: &mut Alone<L>,
) -> Result<(), AllocError>
    requires { AreReady posts.old.items }
    ensures turn { let old : Moment = record { posts = posts.old.items; place = room.old } in let new : Moment = record { posts = posts.new.items; place = room.new } in
        OnOk result (TurnOf (slice_get posts.old.items worker) worker old new) }
    ensures ready { OnOk result (AreReady posts.new.items) }
{
    if worker < posts.len() {
        posts[worker].turn(room)?;
    }
    Ok(())
}

/// Loses the worker of this number, if there is one.
fn lose<L: Law>(
    alloc: Global,
    rows: &Arc<RankedInstance>,
    worker: usize,
    posts: &mut Vec<Post<L>>,
) -> Result<(), AllocError>
    requires law { IsSearchLaw (arc_value rows.now) L.lawful L.allowed }
    requires lease { L.begins 1000 }
    requires ready { AreReady posts.old.items }
    ensures lost { (place : Place) → let old : Moment = record { posts = posts.old.items; place = place } in let new : Moment = record { posts = posts.new.items; place = place } in
        OnOk result (new ≡ without_worker (arc_value rows.now) 1000 (slice_get posts.old.items worker) worker old) }
    ensures ready { OnOk result (AreReady posts.new.items) }
{
    if worker < posts.len() {
        posts[worker].lose(alloc, rows, LEASE_MS)?;
    }
    Ok(())
}

/// What is reported about each worker.
fn reports_of<L: Law>(alloc: Global, posts: &[Post<L>]) -> Result<Vec<Report>, AllocError>
    ensures { IfOk result (λ reports. reports.items ≡ map report_of posts.now) }
{
    let mut reports = Vec::with_capacity(alloc, posts.len())?;
    for post in posts {
        reports.push(post.report())?;
    }
    Ok(reports)
}
