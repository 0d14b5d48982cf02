//! A search by one worker on its own space.

ghost use Rattle.std.specs.Prelude.{◌≡◌, ◌∷◌, [], IfOk, MatchResult, None, length};
ghost use Rattle.std.specs.Arc.{arc_value};
ghost use Rattle.qap_search.specs.Runs.Answer.{IsAnswer, IsSolveFault};
ghost use Rattle.qap_search.specs.Runs.Outcome.{IsEnded};
ghost use Rattle.qap_search.specs.Runs.Opening.{IsOpening};
ghost use Rattle.qap_search.specs.Runs.Seat.{HasShare};
ghost use Rattle.qap_search.specs.Law.Search.{Search, whole};
ghost use Rattle.qap_search.specs.Law.SearchLaw.{IsLawOf, IsSearchLaw};
ghost use Rattle.shared_space.specs.Opening.{IsBlankFor, MayOpen, opened};

use crate::certificate::closing_threads::One;
use crate::runs::answer::{Answer, SolveError};
use crate::runs::opening::opening_space;
use crate::runs::run::Run;
use crate::runs::run_ending::answer_of;
use crate::tuples::templates::node_template;
use crate::worker::gate::{Always, Kind};
use crate::worker::hand::Hand;
use crate::worker::report::{Ended, Report};
use gilmore_lawler::RankedInstance;
use qap_cost::Instance;
use shared_space::{Alone, Law, Room, Share};
use space_txn::TxnSpace;
use std::alloc::{AllocError, Global};
use std::marker::Brand;
use std::sync::ledger::Blank;
use std::sync::{Arc, Wait};
use tuple_match::Template;

/// The certificate of an instance's least cost, from one worker whose transactions begin with leases of this many
/// milliseconds.
///
/// `Unfinished` is returned if the worker ran out of memory with nodes open, with their number. With a lease of 0 ms no
/// commit is ever accepted, and the call does not return.
pub fn solve_alone<R: Wait>(
    rt: &R,
    alloc: Global,
    instance: &Instance,
    lease_ms: u64,
) -> Result<Answer, SolveError>
    ensures { MatchResult result (IsAnswer instance.now 1 None) (IsSolveFault instance.now 1 None) }
{
    let space = opening_space(alloc, instance)?;
    let run = search::<Brand, R>(rt, alloc, instance, space, Blank::new(1), lease_ms)?;
    answer_of(&One, alloc, instance, None, run)
}

/// The run on a space that is at the opening, under a law that is the search's.
fn search<L: Law, R: Wait>(
    rt: &R,
    alloc: Global,
    instance: &Instance,
    space: TxnSpace,
    blank: Blank,
    lease_ms: u64,
) -> Result<Run, AllocError>
    requires blank { IsBlankFor L.name L.parts blank 1 }
    requires law { IsLawOf (whole instance.now) L.lawful L.allowed }
    requires lease { L.begins lease_ms }
    requires limit { L.limit ≡ None }
    requires opening { IsOpening (whole instance.now) space }
    requires reached { L.reached (opened space 1 None) }
    ensures ended { IfOk result (IsEnded (whole instance.now) None) }
    ensures one { IfOk result (λ run. length run.reports.items ≡ 1) }
{
    let hand = Hand::new(alloc, 0, shared_rows(alloc, instance)?, lease_ms)?;
    let nodes = node_template(alloc)?;
    let (room, shares) = room_alone::<L>(alloc, blank, space)?;
    worked(rt, alloc, hand, room, shares, &nodes)
}

/// The space as a room of one worker, with its share.
fn room_alone<L: Law>(
    alloc: Global,
    blank: Blank,
    space: TxnSpace,
) -> Result<(Alone<L>, Vec<Share<L>>), AllocError>
    requires blank { IsBlankFor L.name L.parts blank 1 }
    requires limit { L.limit ≡ None }
    requires space { MayOpen L.lawful None L.reached space 1 }
    ensures { IfOk result (λ made. made.1.items ≡ 0 ∷ []) }
{
    match Alone::<L>::new(alloc, blank, space, 1) {
        Ok(made) => Ok(made),
        Err(_) => Err(AllocError),
    }
}

/// The run of a worker that hasn't begun, in a room of its own.
fn worked<L: Law, R: Wait>(
    rt: &R,
    alloc: Global,
    mut hand: Hand,
    mut room: Alone<L>,
    mut shares: Vec<Share<L>>,
    nodes: &Template,
) -> Result<Run, AllocError>
    requires law { IsSearchLaw hand.instance L.lawful L.allowed }
    requires lease { L.begins hand.lease }
    requires fresh { hand.accepted ≡ 0 }
    requires one { L.parts ≡ 1 }
    requires share { shares.items ≡ 0 ∷ [] }
    ensures ended { (S : Search) → IsLawOf S L.lawful L.allowed → IfOk result (IsEnded S None) }
    ensures one { IfOk result (λ run. length run.reports.items ≡ 1) }
{
    let ended = work(rt, &mut hand, &mut room, &mut shares[0], nodes);
    let (space, _) = room.into_inner(shares);
    let report = Report {
        ended,
        ..hand.report()
    };
    only_run(alloc, space, report)
}

/// The run of the only worker, by the space and the report that it leaves.
fn only_run(alloc: Global, space: TxnSpace, report: Report) -> Result<Run, AllocError>
    ensures { IfOk result (λ run. (run.space ≡ space) × (run.reports.items ≡ report ∷ [])) }
{
    let reports = vec![in alloc; report]?;
    Ok(Run { space, reports })
}

/// The instance with the rows of its matrices in order, to be shared by workers.
pub(crate) fn shared_rows(
    alloc: Global,
    instance: &Instance,
) -> Result<Arc<RankedInstance>, AllocError>
    ensures { IfOk result (λ shared. arc_value shared ≡ instance.now) }
{
    Ok(Arc::new(alloc, RankedInstance::new(alloc, instance)?)?)
}

/// Steps the worker until the space is closed or memory runs out. Closing the space is considered only when the worker
/// gives its transaction up.
fn work<L: Law, R: Wait>(
    rt: &R,
    hand: &mut Hand,
    room: &mut Alone<L>,
    share: &mut Share<L>,
    nodes: &Template,
) -> Ended
    requires { HasShare L.lawful L.allowed L.begins hand.old share.old }
    ensures { hand.new.accepted ≡ share.new }
{
    for _ in rt.forever() {
        if hand.thinks() {
            if hand.think(&Always).is_err() {
                return Ended::Memory;
            }
        } else if hand.step(room, share).is_err() {
            return Ended::Memory;
        } else if gives_up(hand) && room.close(nodes) {
            return Ended::Done;
        }
    }
    unreachable!()
}

/// Whether the worker's coming step gives its transaction up.
fn gives_up(hand: &Hand) -> bool {
    !hand.thinks() && hand.next() == Kind::Abort
}
