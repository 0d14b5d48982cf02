//! A worker with its share, and its run on a shared space.

ghost use Rattle.std.specs.Prelude.{◌≡◌, OnErr, true};
ghost use Rattle.part_search.specs.Worker.{Allows, IsIdle, IsLeaving, Leaves};

use crate::aid::Aid;
use crate::board::{Board, Wanted};
use crate::offers::Offers;
use crate::pieces::Pieces;
use crate::threads::Order;
use crate::trying::Trial;
use crate::values::Values;
use crate::worker::Worker;
use pair_duals::PairDuals;
use qap_cost::Partial;
use shared_space::{Law, Room, Share, Shared, SharedError, Steps};
use std::alloc::{AllocError, Global};
use std::marker::Model;
use std::sync::atomic::{AtomicBool, AtomicU64, Ordering};
use std::sync::{Arc, Mutex, Wait};
use std::time::{self, Duration, Instant};
use subtree_search::{Silent, Stop, TextRecord};
use tuple_match::Template;

/// How many steps a worker makes at most until it has no transaction, if there is memory.
const STEPS_TO_IDLE: usize = 3;

/// What workers share: the space, the node below which they search, what they wait for there, how many wait, whether
/// the search should stop, how many nodes were taken and tried, when children are left open untried, what they know of
/// open nodes, which they take first, the values of the nodes that they have yet to decide, and what offers
/// permutations and takes pieces of a proof.
#[derive(Drop)]
pub(crate) struct Workplace<'a, R: Wait + time::Clock, L: Law, O> {
    pub(crate) rt: &'a R,
    pub(crate) alloc: Global,
    pub(crate) shared: &'a Shared<L>,
    pub(crate) root: &'a Partial,
    pub(crate) nodes: &'a Template,
    pub(crate) waiting: &'a AtomicU64,
    pub(crate) halt: &'a AtomicBool,
    pub(crate) tried: &'a AtomicU64,
    pub(crate) turn_ms: u64,
    pub(crate) board: &'a Mutex<Board>,
    pub(crate) order: Order,
    pub(crate) values: &'a Mutex<Values>,
    pub(crate) beside: &'a O,
}

/// Lets a worker try the children of a node until the search is to stop, another worker has no node, or its time is up.
#[derive(Drop)]
struct Due<'a, R: Wait + time::Clock> {
    rt: &'a R,
    waiting: &'a AtomicU64,
    halt: &'a AtomicBool,
    board: &'a Mutex<Board>,
    alloc: Global,
    since: Option<Instant>,
    turn: Duration,
}

impl<R: Wait + time::Clock> Stop for Due<'_, R> {
    ghost says = { λ _ _. Unit {0} };

    fn is_requested(&self) -> bool {
        self.waiting.load(Ordering::SeqCst) > 0
            || self.halt.load(Ordering::SeqCst)
            || self.is_over()
    }
}

impl<R: Wait + time::Clock> Aid for Due<'_, R> {
    fn start_for(&self, node: &Partial) -> Result<Option<Arc<PairDuals<i64>>>, AllocError> {
        self.board.lock(self.rt).nearest(node)
    }

    fn keep(&self, node: &Partial, duals: PairDuals<i64>) -> Result<(), AllocError> {
        let duals = Arc::new(self.alloc, duals)?;
        self.board.lock(self.rt).keep(node, duals)
    }
}

impl<R: Wait + time::Clock> Due<'_, R> {
    /// Whether its time is up; without a clock it always is.
    fn is_over(&self) -> bool {
        match self.since {
            Some(since) => match since.elapsed(self.rt) {
                Ok(elapsed) => elapsed >= self.turn,
                Err(_) => true,
            },
            None => true,
        }
    }
}

/// How a worker ended.
#[derive(Clone, Copy, Debug, PartialEq, Eq)]
enum Ended {
    /// The space is closed.
    Done,
    /// There was no memory.
    Memory,
}

/// A worker with its share of the commits. Once it has ended it has no transaction, or one that its next step ends.
#[derive(Drop)]
pub(crate) struct Seat<L: Law> {
    worker: Worker,
    share: Share<L>,
    /// How it ended, if it has.
    ended: Option<Ended>,
    /// Whether it found no open node when it went on last.
    lacks: bool,
}

impl<L: Law> Model for Seat<L> {
    ghost use Rattle.std.specs.Prelude.{◌≡◌, is_some, true};
    ghost use Rattle.part_search.specs.Worker.{Allows, IsLeaving, SeatValue};

    ghost Value = { SeatValue };

    ghost view = { λ s. record { share = s.share; ended = is_some s.ended; to_idle = s.worker.to_idle } };

    ghost invariant = { λ s. Allows s.worker.job L.allowed L.begins × (is_some s.ended ≡ true → IsLeaving s.worker) };
}

impl<L: Law> Seat<L> {
    /// A worker that hasn't begun, with its share.
    pub(crate) fn new(worker: Worker, share: Share<L>) -> Seat<L>
        requires { Allows worker.job L.allowed L.begins }
        ensures { result.share ≡ share }
    {
        Seat {
            worker,
            share,
            ended: None,
            lacks: false,
        }
    }

    /// Its share.
    pub(crate) fn into_share(self) -> Share<L>
        ensures { result ≡ self.share }
    {
        self.share
    }

    /// Works until the space is closed or there is no memory; a worker that found none gives its node up. At the end it has
    /// no transaction.
    pub(crate) fn work<R: Wait + time::Clock, O: Offers + Pieces>(
        &mut self,
        place: &Workplace<'_, R, L, O>,
    )
        ensures { self.new.to_idle ≡ 0 }
    {
        for _ in place.rt.forever() {
            if self.ended.is_some() {
                break;
            }
            self.take_offer(place);
            self.go_on_at(place);
        }
        if !self.worker.is_idle() {
            place.shared.together(place.rt, self);
        }
    }

    /// Leaves the space, once it has no transaction.
    pub(crate) fn leave<R: Wait + time::Clock, O>(&self, place: &Workplace<'_, R, L, O>)
        requires { self.now.to_idle ≡ 0 }
    {
        place.shared.leave(place.rt);
    }

    /// Ends, and gives its node up.
    fn end(&mut self, ended: Ended)
        ensures { self.new.ended ≡ true }
    {
        self.worker.give_up();
        self.ended = Some(ended);
    }

    /// Outside the space's lock takes up what is offered, if that is better than what its worker has.
    fn take_offer<R: Wait + time::Clock, O: Offers>(&mut self, place: &Workplace<'_, R, L, O>) {
        if let Some(offered) = place.beside.offered(self.worker.cost()) {
            self.worker.consider(place.root, offered);
        }
    }

    /// Tries its node outside the space's lock; then it commits what is left and takes another node under one
    /// acquisition of the lock, and waits for one if there is none.
    fn go_on_at<R: Wait + time::Clock, O: Offers + Pieces>(
        &mut self,
        place: &Workplace<'_, R, L, O>,
    ) {
        let due = Due {
            rt: place.rt,
            waiting: place.waiting,
            halt: place.halt,
            board: place.board,
            alloc: place.alloc,
            since: Instant::now(place.rt).ok(),
            turn: Duration::from_millis(place.turn_ms),
        };
        if self.worker.has_node() {
            place.tried.fetch_add(1, Ordering::SeqCst);
        }
        let mut record = TextRecord::new(place.alloc);
        let is_recorded = place.beside.are_kept();
        self.ended = match try_node(&mut self.worker, &due, is_recorded, &mut record) {
            Ok(()) => None,
            Err(AllocError) => Some(Ended::Memory),
        };
        if let Some(trial) = self.worker.trial() {
            place.values.lock(place.rt).announce(trial);
        }
        self.lacks = false;
        let wanted = wanted_at(place);
        let is_advised = wanted.is_some();
        self.worker.want(wanted);
        place.shared.together(place.rt, self);
        let accepted = self.worker.is_accepted().then_some(self.worker.cost());
        if let Some(trial) = self.worker.take_trial()
            && post(place, trial, &record, accepted).is_err()
        {
            self.end(Ended::Memory);
        }
        if self.ended.is_none()
            && self.lacks
            && !is_advised
            && let Err(ended) = wait(place)
        {
            self.end(ended);
        }
    }
}

impl<L: Law> Steps<L> for Seat<L> {
    ghost makes = { λ old new. Leaves old new };

    /// A worker that has ended gives up its node; any other continues.
    fn make<M: Room<L>>(&mut self, room: &mut M) {
        if self.ended.is_some() {
            abandon(room, &mut self.worker, &mut self.share);
            return;
        }
        match go_on(room, &mut self.worker, &mut self.share) {
            Ok(lacks) => self.lacks = lacks,
            Err(ended) => self.end(ended),
        }
    }
}

/// Tries the node of a worker, if it has one, and records its split if that is requested.
fn try_node<S: Aid>(
    worker: &mut Worker,
    aid: &S,
    is_recorded: bool,
    record: &mut TextRecord,
) -> Result<(), AllocError>
    ensures job { worker.new.job ≡ worker.old.job }
    ensures given_up { OnErr result (IsLeaving worker.new) }
{
    if is_recorded {
        worker.try_node(aid, record)
    } else {
        worker.try_node(aid, &mut Silent)
    }
}

/// Commits what was tried or gives it up, and then, unless the space is closed, takes an open node; returns whether
/// there was none. The error is how the worker ends.
fn go_on<L: Law, M: Room<L>>(
    room: &mut M,
    worker: &mut Worker,
    share: &mut Share<L>,
) -> Result<bool, Ended>
    requires { Allows worker.old.job L.allowed L.begins }
    ensures { worker.new.job ≡ worker.old.job }
{
    finish(room, worker, share)?;
    if room.closed() {
        return Err(Ended::Done);
    }
    step(room, worker, share)?;
    step(room, worker, share)?;
    if worker.has_node() {
        return Ok(false);
    }
    finish(room, worker, share)?;
    Ok(true)
}

/// Makes steps until the worker has no transaction.
fn finish<L: Law, M: Room<L>>(
    room: &mut M,
    worker: &mut Worker,
    share: &mut Share<L>,
) -> Result<(), Ended>
    requires { Allows worker.old.job L.allowed L.begins }
    ensures { worker.new.job ≡ worker.old.job }
{
    for _ in 0..STEPS_TO_IDLE {
        if !worker.is_idle() {
            step(room, worker, share)?;
        }
    }
    Ok(())
}

/// Ends the transaction of a worker that gives its node up, if it has one.
fn abandon<L: Law, M: Room<L>>(room: &mut M, worker: &mut Worker, share: &mut Share<L>)
    requires allows { Allows worker.old.job L.allowed L.begins }
    requires leaving { IsLeaving worker.old }
    ensures job { worker.new.job ≡ worker.old.job }
    ensures idle { IsIdle worker.new }
{
    if !worker.is_idle() {
        let _ = worker.step(room, share);
    }
}

/// Makes the next step.
fn step<L: Law, M: Room<L>>(
    room: &mut M,
    worker: &mut Worker,
    share: &mut Share<L>,
) -> Result<(), Ended>
    requires { Allows worker.old.job L.allowed L.begins }
    ensures { worker.new.job ≡ worker.old.job }
{
    match worker.step(room, share) {
        Ok(_) => Ok(()),
        Err(AllocError) => Err(Ended::Memory),
    }
}

/// Waits until there is an open node. The error is how the worker ends: if the space is closed it is done.
fn wait<R: Wait + time::Clock, L: Law, O>(place: &Workplace<'_, R, L, O>) -> Result<(), Ended> {
    place.waiting.fetch_add(1, Ordering::SeqCst);
    let found = place.shared.rd(place.rt, place.nodes);
    place.waiting.fetch_sub(1, Ordering::SeqCst);
    match found {
        Ok(_) => Ok(()),
        Err(SharedError::Closed) => Err(Ended::Done),
        Err(SharedError::OutOfMemory) => Err(Ended::Memory),
    }
}

/// The open node that a worker should take next, if the order says which.
fn wanted_at<R: Wait + time::Clock, L: Law, O>(place: &Workplace<'_, R, L, O>) -> Option<Wanted> {
    match place.order {
        Order::Deepest => None,
        Order::Least => place.board.lock(place.rt).take_least(),
    }
}

/// Settles the values of a trial, whose commit, if it was accepted, left an incumbent of this cost; then it has its text kept,
/// if one was recorded, and puts the nodes that were left open on the board, if workers take nodes from there.
fn post<R: Wait + time::Clock, L: Law, O: Pieces>(
    place: &Workplace<'_, R, L, O>,
    trial: Trial,
    record: &TextRecord,
    accepted: Option<i128>,
) -> Result<(), AllocError> {
    let Some(cost) = accepted else {
        place.values.lock(place.rt).refuse(&trial);
        return Ok(());
    };
    place.values.lock(place.rt).accept(&trial, cost);
    let Trial { node, opened, .. } = trial;
    if !record.text().is_empty() {
        place.beside.keep(&node, record);
    }
    if matches!(place.order, Order::Least) {
        let mut board = place.board.lock(place.rt);
        for wanted in opened {
            board.add(wanted)?;
        }
    }
    Ok(())
}
