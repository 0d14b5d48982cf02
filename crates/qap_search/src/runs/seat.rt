//! A worker with its share, and its run on a shared space.

ghost use Rattle.std.specs.Prelude.{◌≡◌};
ghost use Rattle.qap_search.specs.Runs.Seat.{HasShare, KeepsShare};

use crate::worker::gate::{Gate, Kind};
use crate::worker::hand::Hand;
use crate::worker::report::{Ended, Report};
use shared_space::{Law, Room, Share, Shared, SharedError, Steps};
use std::marker::Model;
use std::sync::Wait;
use tuple_match::Template;

/// What workers share: the space, what they wait for there, and the gate that is consulted before each step.
#[derive(Drop)]
pub(crate) struct Workplace<'a, R: Wait, L: Law, G: Gate> {
    pub(crate) rt: &'a R,
    pub(crate) shared: &'a Shared<L>,
    pub(crate) nodes: &'a Template,
    pub(crate) best: &'a Template,
    pub(crate) gate: &'a G,
}

/// What a worker lacks that has no node at hand.
#[derive(Clone, Copy, Debug, PartialEq, Eq)]
enum Lack {
    /// An open node: there is none that nobody has taken.
    Node,
    /// The best permutation: somebody has taken it.
    Best,
}

/// A worker with its share of the commits: both have counted the same.
#[derive(Drop)]
pub(crate) struct Seat<L: Law> {
    worker: u16,
    hand: Hand,
    share: Share<L>,
    /// How it ended, if it has.
    ended: Option<Ended>,
    /// How far it is in its round over its nodes.
    round: Round,
    /// How many steps it may make in a row.
    in_a_row: usize,
    /// The last of the steps that it made in a row, and whether it met no refusal.
    last: Option<(Kind, bool)>,
}

impl<L: Law> Model for Seat<L> {
    ghost use Rattle.std.specs.Prelude.{ℕ};
    ghost use Rattle.qap_search.specs.Runs.Seat.{HasShare};

    ghost Value = { ℕ };

    ghost view = { λ s. s.share };

    ghost invariant = { λ s. HasShare L.lawful L.allowed L.begins s.hand s.share };
}

impl<L: Law> Seat<L> {
    /// A worker that hasn't begun, with its share.
    pub(crate) fn new(worker: u16, hand: Hand, share: Share<L>) -> Seat<L>
        requires { HasShare L.lawful L.allowed L.begins hand share }
        ensures { result ≡ share }
    {
        Seat {
            worker,
            hand,
            share,
            ended: None,
            round: Round::new(0),
            in_a_row: 1,
            last: None,
        }
    }

    /// Works until the space is closed, the gate ends the worker or memory runs out.
    pub(crate) fn work<R: Wait, G: Gate>(&mut self, place: &Workplace<'_, R, L, G>) {
        for _ in place.rt.forever() {
            let most = place.gate.steps_in_a_row() / STEPS_PER_NODE;
            if let Err(ended) = think_on_all(&mut self.hand, place.gate, most) {
                self.ended = Some(ended);
            }
            self.round = Round::new(most);
            self.go_on_at(place);
            if self.ended.is_none() {
                self.ended = wait_at(place, self.round.lack).err();
            }
            if self.ended.is_some() {
                return;
            }
        }
    }

    /// Goes on until its round is over: by as many steps in a row as the gate allows, each time under one acquisition of the space's
    /// lock.
    fn go_on_at<R: Wait, G: Gate>(&mut self, place: &Workplace<'_, R, L, G>) {
        for _ in place.rt.forever() {
            if self.ended.is_some() {
                return;
            }
            let Some(kind) = due(&mut self.hand, &mut self.round) else {
                return;
            };
            if !place.gate.pass(self.worker, kind) {
                self.ended = Some(Ended::ByGate);
                return;
            }
            self.in_a_row = place.gate.steps_in_a_row();
            self.last = None;
            place.shared.together(place.rt, self);
            if let Some((kind, accepted)) = self.last {
                place.gate.after(self.worker, kind, accepted);
            }
        }
    }

    /// The share, and what the worker reports; one that has never run counts as one that found no memory.
    pub(crate) fn left(self) -> (Share<L>, Report)
        ensures share { result.0 ≡ self }
        ensures counted { result.1.accepted ≡ self }
    {
        let Seat {
            worker: _,
            hand,
            share,
            ended,
            round: _,
            in_a_row: _,
            last: _,
        } = self;
        let report = Report {
            ended: ended.unwrap_or(Ended::Memory),
            ..hand.report()
        };
        (share, report)
    }
}

impl<L: Law> Steps<L> for Seat<L> {
    /// Goes on by as many steps as it may make in a row.
    fn make<M: Room<L>>(&mut self, room: &mut M) {
        for _ in 0..self.in_a_row {
            match go_on(room, &mut self.hand, &mut self.share, &mut self.round) {
                Ok(Some(made)) => self.last = Some(made),
                Ok(None) => return,
                Err(ended) => {
                    self.ended = Some(ended);
                    return;
                }
            }
        }
    }
}

/// The kinds of steps by which a worker finishes with a node that it evaluated: it reads or takes the best permutation and commits
/// what it decided, or gives the node up.
const FINISHING: [Kind; 4] = [Kind::ReadBest, Kind::TakeBest, Kind::Commit, Kind::Abort];

/// The kinds of steps by which it takes a node, or gives the transaction up if there is none.
const TAKING: [Kind; 3] = [Kind::Begin, Kind::TakeNode, Kind::Abort];

/// How many steps it takes at most to finish with a node and to take another one.
const STEPS_PER_NODE: usize = 7;

/// How far a worker is in a round over its jobs: it finishes with the node of each, and then takes a node for each, as far as there
/// are any. At each job it goes through a list of kinds, and makes a step of a kind where that is due.
#[derive(Clone, Copy, Debug, PartialEq, Eq)]
struct Round {
    /// How many jobs it turns to at most: those whose steps it may make in a row, besides the one that it is at.
    most: usize,
    /// Whether it takes nodes now.
    takes: bool,
    /// How many jobs it has turned to.
    turned: usize,
    /// How many kinds it has gone through at this job.
    kinds: usize,
    /// What it lacks.
    lack: Option<Lack>,
    /// There is no node for further jobs.
    is_last: bool,
}

impl Round {
    /// At its beginning, with this many jobs to turn to at most.
    fn new(most: usize) -> Round {
        Round {
            most,
            takes: false,
            turned: 0,
            kinds: 0,
            lack: None,
            is_last: false,
        }
    }

    /// The kind that is next at this job; `None` if it is through with the job.
    fn kind(&self) -> Option<Kind> {
        if self.takes {
            TAKING.get(self.kinds).copied()
        } else {
            FINISHING.get(self.kinds).copied()
        }
    }

    /// Takes note of a step of this kind, which leaves the worker at a stage whose next step is of another one.
    fn note(&mut self, kind: Kind, next: Option<Kind>) {
        self.kinds = self.kinds.saturating_add(1);
        if next != Some(Kind::Abort) {
            return;
        }
        match kind {
            Kind::ReadBest | Kind::TakeBest => self.lack = Some(Lack::Best),
            Kind::TakeNode => {
                self.is_last = true;
                if self.turned == 0 {
                    self.lack = Some(Lack::Node);
                }
            }
            Kind::Begin | Kind::Commit | Kind::Abort => {}
        }
    }

    /// Leaves a job that it is through with: `false` if the round is over, and from then on. A worker that lacks the best permutation
    /// takes no nodes.
    fn leave(&mut self, hand: &mut Hand) -> bool
        ensures accepted { hand.new.accepted ≡ hand.old.accepted }
        ensures instance { hand.new.instance ≡ hand.old.instance }
        ensures lease { hand.new.lease ≡ hand.old.lease }
    {
        if self.turned < hand.others().min(self.most) && !self.is_last {
            hand.turn_to(self.turned);
            self.turned += 1;
            self.kinds = 0;
            return true;
        }
        if self.takes || self.lack.is_some() {
            return false;
        }
        self.takes = true;
        self.turned = 0;
        self.kinds = 0;
        true
    }
}

/// The worker's next step, where no evaluation is due.
fn next_of(hand: &Hand) -> Option<Kind> {
    if hand.thinks() {
        None
    } else {
        Some(hand.next())
    }
}

/// Goes on in the round to the next step that is due, and returns its kind; `None` if the round is over.
fn due(hand: &mut Hand, round: &mut Round) -> Option<Kind>
    ensures accepted { hand.new.accepted ≡ hand.old.accepted }
    ensures instance { hand.new.instance ≡ hand.old.instance }
    ensures lease { hand.new.lease ≡ hand.old.lease }
{
    for _ in 0..u64::MAX {
        match round.kind() {
            Some(kind) if next_of(hand) == Some(kind) => return Some(kind),
            Some(_) => round.kinds = round.kinds.saturating_add(1),
            None => {
                if !round.leave(hand) {
                    return None;
                }
            }
        }
    }
    None
}

/// Makes the next step of the round, and returns its kind and whether it met no refusal; `None` if the round is over. No transaction
/// begins on a closed space. The error is how the worker ends.
fn go_on<L: Law, M: Room<L>>(
    room: &mut M,
    hand: &mut Hand,
    share: &mut Share<L>,
    round: &mut Round,
) -> Result<Option<(Kind, bool)>, Ended>
    requires { HasShare L.lawful L.allowed L.begins hand.old share.old }
    ensures { KeepsShare hand.old hand.new share.new }
{
    let Some(kind) = due(hand, round) else {
        return Ok(None);
    };
    if kind == Kind::Begin && room.closed() {
        return Err(Ended::Done);
    }
    let accepted = step(room, hand, share)?;
    round.note(kind, next_of(hand));
    Ok(Some((kind, accepted)))
}

/// Makes the worker's next step, and reports whether it met no refusal. What an ended transaction held is kept, to be dropped outside
/// the space's lock.
fn step<L: Law, M: Room<L>>(
    room: &mut M,
    hand: &mut Hand,
    share: &mut Share<L>,
) -> Result<bool, Ended>
    requires { HasShare L.lawful L.allowed L.begins hand.old share.old }
    ensures { KeepsShare hand.old hand.new share.new }
{
    if hand.thinks() {
        return Ok(true);
    }
    let Ok(accepted) = hand.step(room, share) else {
        return Err(Ended::Memory);
    };
    if let Some(spent) = room.take_spent() {
        hand.keep(spent);
    }
    Ok(accepted)
}

/// Evaluates the node of its job, and those of at most so many others, where that is due, and prepares its writes. The error is how
/// the worker ends.
fn think_on_all<G: Gate>(hand: &mut Hand, gate: &G, most: usize) -> Result<(), Ended>
    ensures accepted { hand.new.accepted ≡ hand.old.accepted }
    ensures instance { hand.new.instance ≡ hand.old.instance }
    ensures lease { hand.new.lease ≡ hand.old.lease }
{
    think(hand, gate)?;
    for other in 0..hand.others().min(most) {
        hand.turn_to(other);
        think(hand, gate)?;
    }
    Ok(())
}

fn think<G: Gate>(hand: &mut Hand, gate: &G) -> Result<(), Ended>
    ensures accepted { hand.new.accepted ≡ hand.old.accepted }
    ensures instance { hand.new.instance ≡ hand.old.instance }
    ensures lease { hand.new.lease ≡ hand.old.lease }
{
    if hand.thinks() && hand.think(gate).is_err() {
        return Err(Ended::Memory);
    }
    hand.prepare();
    Ok(())
}

/// Waits for what the worker lacks, if it lacks anything. The error is how the worker ends.
fn wait_at<R: Wait, L: Law, G: Gate>(
    place: &Workplace<'_, R, L, G>,
    lack: Option<Lack>,
) -> Result<(), Ended> {
    match lack {
        Some(Lack::Node) => wait_for(place, place.nodes),
        Some(Lack::Best) => wait_for(place, place.best),
        None => Ok(()),
    }
}

/// Waits until there is a tuple matching the template. The error is how the worker ends: if the space is closed it is
/// done.
fn wait_for<R: Wait, L: Law, G: Gate>(
    place: &Workplace<'_, R, L, G>,
    template: &Template,
) -> Result<(), Ended> {
    match place.shared.rd(place.rt, template) {
        Ok(_) => Ok(()),
        Err(SharedError::Closed) => Err(Ended::Done),
        Err(SharedError::OutOfMemory) => Err(Ended::Memory),
    }
}
