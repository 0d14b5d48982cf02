//! A worker of a search on parts.

ghost use Rattle.std.specs.Prelude.{◌≡◌, ◌≤◌, ◌↔◌, ℤ, IfOk, IsTrue, OnErr, length};
ghost use Rattle.std.specs.Arc.{arc_value};
ghost use Rattle.subtree_search.specs.Best.{IsIncumbent};
ghost use Rattle.qap_cost.specs.Instance.{Problem};
ghost use Rattle.part_search.specs.Ground.{IsSplitter};
ghost use Rattle.part_search.specs.Worker.{Allows, IsIdle, IsLeaving, IsStage, IsWorker, Made, job_of, steps_to_idle};
ghost use Rattle.part_search.specs.declared.stage.Stage.{Stage};

use crate::aid::Aid;
use crate::board::Wanted;
use crate::ground::{Ground, Splitter};
use crate::offers::take_up;
use crate::stage::{Outcome, Stage};
use crate::steps::{abort, begin, commit, take_best, take_node};
use crate::trying::{Trial, try_taken};
use crate::tuples::{best_template, node_template};
use qap_cost::{Partial, Perm};
use shared_space::{Law, Room, Share};
use std::alloc::{AllocError, Global};
use std::marker::Model;
use std::mem::replace;
use std::sync::Arc;
use subtree_search::{Incumbent, Record};
use tuple_match::Template;

/// What a worker's calls are made with.
#[derive(Drop)]
pub(crate) struct Tools {
    /// How many milliseconds its transactions ask for.
    lease_ms: u64,
    /// Asks for any open node.
    node: Template,
    /// Asks for the open node to take next, if one is wanted.
    wanted: Option<Template>,
    /// Asks for the best permutation.
    best: Template,
}

impl Tools {
    /// What its next call asks for that takes a node.
    fn next(&self) -> &Template {
        match &self.wanted {
            Some(template) => template,
            None => &self.node,
        }
    }
}

/// A worker of a search on parts: it takes an open node, splits it and tries its children, and commits those that are left open with
/// the best permutation that it knows. It is seen as its job, and the number of steps after which it has no transaction.
#[derive(Drop)]
pub struct Worker {
    alloc: Global,
    ground: Arc<Ground>,
    tools: Tools,
    splitter: Splitter,
    incumbent: Incumbent,
    stage: Stage,
    /// What its last trial found.
    trial: Option<Trial>,
    /// Whether the commit of that was accepted.
    is_accepted: bool,
}

impl Model for Worker {
    ghost use Rattle.std.specs.Arc.{arc_value};
    ghost use Rattle.part_search.specs.Ground.{IsSplitter};
    ghost use Rattle.part_search.specs.Worker.{IsWorker, WorkerValue, job_of, steps_to_idle};

    ghost Value = { WorkerValue };

    ghost view = { λ w. record { job = job_of (arc_value w.ground) w.tools.lease_ms; to_idle = steps_to_idle w.stage } };

    ghost invariant = { λ w. IsSplitter (arc_value w.ground) w.splitter × IsWorker (arc_value w.ground) w.incumbent w.stage };
}

impl Worker {
    /// A worker that begins with this permutation, and begins its transactions with leases of this many milliseconds.
    pub fn new(
        alloc: Global,
        ground: Arc<Ground>,
        start: Perm,
        lease_ms: u64,
    ) -> Result<Worker, AllocError>
        requires { length start ≡ (arc_value ground).size }
        ensures job { IfOk result (λ worker. worker.job ≡ job_of (arc_value ground) lease_ms) }
        ensures idle { IfOk result IsIdle }
    {
        let tools = Tools {
            lease_ms,
            node: node_template(alloc)?,
            wanted: None,
            best: best_template(alloc)?,
        };
        let incumbent = Incumbent::new(ground.instance(), start);
        Ok(Worker {
            alloc,
            ground,
            tools,
            splitter: Splitter::new(alloc),
            incumbent,
            stage: Stage::Idle,
            trial: None,
            is_accepted: false,
        })
    }

    /// Takes up a permutation found elsewhere, if it completes the root and costs less than the best one that it knows;
    /// its next commit writes it.
    pub(crate) fn consider(&mut self, root: &Partial, offered: Perm)
        ensures { self.new ≡ self.old }
    {
        let instance = self.ground.instance();
        take_up(instance, root, &mut self.incumbent, offered);
    }

    /// If it took an open node, splits it and tries its children, outside the space, and records the split; its next step commits
    /// what is left. At an error memory ran out, and the node is given up.
    pub fn try_node<S: Aid, W: Record>(&mut self, aid: &S, record: &mut W) -> Result<(), AllocError>
        ensures job { self.new.job ≡ self.old.job }
        ensures given_up { OnErr result (IsLeaving self.new) }
    {
        let stage = replace(&mut self.stage, Stage::Idle);
        let (stage, tried) = tried(
            self.alloc,
            &self.ground,
            &mut self.splitter,
            &mut self.incumbent,
            stage,
            aid,
            record,
        );
        self.stage = stage;
        self.trial = tried?;
        self.is_accepted = false;
        Ok(())
    }

    /// Makes the next step, one call on the room, and answers whether it met no refusal. At an error there was no memory.
    /// A step that ends the transaction without a commit takes none.
    pub fn step<L: Law, M: Room<L>>(
        &mut self,
        room: &mut M,
        share: &mut Share<L>,
    ) -> Result<bool, AllocError>
        requires { Allows self.old.job L.allowed L.begins }
        ensures made { Made M.did self.old.job.instance room.old room.new }
        ensures job { self.new.job ≡ self.old.job }
        ensures ended { self.old.to_idle ≡ 1 → IsIdle self.new }
    {
        let stage = replace(&mut self.stage, Stage::Idle);
        let is_ready = matches!(stage, Stage::Ready(_));
        let outcome = turn(
            self.alloc,
            &self.ground,
            &self.tools,
            room,
            share,
            stage,
            &mut self.incumbent,
        );
        self.stage = outcome.stage;
        self.is_accepted |= is_ready && matches!(outcome.told, Ok(true));
        outcome.told
    }

    /// Says which open node it asks for when it next takes one; any, if none is wanted.
    pub(crate) fn want(&mut self, wanted: Option<Wanted>)
        ensures { self.new ≡ self.old }
    {
        self.tools.wanted = match wanted {
            Some(wanted) => Some(wanted.into_template()),
            None => None,
        };
    }

    /// What its last trial found, until that is taken.
    pub(crate) fn trial(&self) -> Option<&Trial> {
        self.trial.as_ref()
    }

    /// The same, once.
    pub(crate) fn take_trial(&mut self) -> Option<Trial>
        ensures { self.new ≡ self.old }
    {
        self.trial.take()
    }

    /// Whether the commit of its last trial was accepted.
    pub(crate) fn is_accepted(&self) -> bool {
        self.is_accepted
    }

    /// What the best permutation that it knows costs.
    pub(crate) fn cost(&self) -> i128 {
        self.incumbent.cost()
    }

    /// Whether it has no transaction.
    pub(crate) fn is_idle(&self) -> bool
        ensures { IsTrue result ↔ IsIdle self.now }
    {
        matches!(self.stage, Stage::Idle)
    }

    /// Whether it took an open node that must be tried.
    pub(crate) fn has_node(&self) -> bool {
        matches!(self.stage, Stage::Taken(..))
    }

    /// Gives up its node: if it has a transaction, the next step aborts it.
    pub(crate) fn give_up(&mut self)
        ensures job { self.new.job ≡ self.old.job }
        ensures given_up { IsLeaving self.new }
    {
        let stage = replace(&mut self.stage, Stage::Idle);
        self.stage = given_up(stage);
    }
}

/// The stage of a worker after it has tried the node that it took, and what the trial found. At an error there was no
/// memory.
fn tried<S: Aid, W: Record>(
    alloc: Global,
    ground: &Ground,
    splitter: &mut Splitter,
    incumbent: &mut Incumbent,
    stage: Stage,
    aid: &S,
    record: &mut W,
) -> (Stage, Result<Option<Trial>, AllocError>)
    requires splitter { IsSplitter ground.now splitter.old }
    requires worker { IsWorker ground.now incumbent.old stage }
    ensures splitter { IsSplitter ground.now splitter.new }
    ensures worker { IsWorker ground.now incumbent.new result.0 }
    ensures given_up { OnErr result.1 (steps_to_idle result.0 ≤ 1) }
{
    match stage {
        Stage::Taken(mut txn, id) => {
            let tried = try_taken(
                alloc, ground, splitter, incumbent, &mut txn, id, aid, record,
            );
            match tried {
                Ok(Some(trial)) => (Stage::Tried(txn), Ok(Some(trial))),
                Ok(None) => (Stage::GivingUp(txn), Ok(None)),
                Err(error) => (Stage::GivingUp(txn), Err(error)),
            }
        }
        other => (other, Ok(None)),
    }
}

/// Makes the next step of a worker that is there. A node that was taken and not tried is given up.
fn turn<L: Law, M: Room<L>>(
    alloc: Global,
    ground: &Ground,
    tools: &Tools,
    room: &mut M,
    share: &mut Share<L>,
    stage: Stage,
    incumbent: &mut Incumbent,
) -> Outcome
    requires law { Allows (job_of ground.now tools.now.lease_ms) L.allowed L.begins }
    requires worker { IsWorker ground.now incumbent.old stage }
    ensures made { Made M.did ground.now room.old room.new }
    ensures worker { IsWorker ground.now incumbent.new result.stage }
    ensures ended { steps_to_idle stage ≡ 1 → result.stage ≡ Stage.Idle }
{
    let instance = ground.instance();
    match stage {
        Stage::Idle => begin(room, tools.lease_ms),
        Stage::Begun(txn) => take_node(room, tools.next(), txn),
        Stage::Taken(txn, _) => abort(room, txn),
        Stage::Tried(txn) => take_best(alloc, instance, room, &tools.best, txn, incumbent),
        Stage::Ready(txn) => commit(room, share, instance, txn),
        Stage::GivingUp(txn) => abort(room, txn),
    }
}

/// The stage of a worker that gives up its node.
fn given_up(stage: Stage) -> Stage
    ensures stage { (I : Problem) (c : ℤ) → IsStage I c result }
    ensures leaving { steps_to_idle result ≤ 1 }
{
    match stage {
        Stage::Idle => Stage::Idle,
        Stage::Begun(txn) => Stage::GivingUp(txn),
        Stage::Taken(txn, _) => Stage::GivingUp(txn),
        Stage::Tried(txn) => Stage::GivingUp(txn),
        Stage::Ready(txn) => Stage::GivingUp(txn),
        Stage::GivingUp(txn) => Stage::GivingUp(txn),
    }
}
