//! A worker of the search.

ghost use Rattle.std.specs.Prelude.{◌≡◌, ◌+◌, ◌≤◌, true, false, All, IfOk, OnErr, OnOk};
ghost use Rattle.std.specs.Arc.{arc_value};
ghost use Rattle.qap_search.specs.Worker.Hand.{is_due, kind_of, new_hand};
ghost use Rattle.qap_search.specs.Law.SearchLaw.{IsSearchLaw};
ghost use Rattle.qap_search.specs.Worker.Standing.{IsIdle};
ghost use Rattle.qap_search.specs.Worker.Thinking.{Thinks};
ghost use Rattle.qap_search.specs.Worker.Turn.{Turn};
ghost use Rattle.qap_search.specs.declared.worker.report.Ended.TheVariants.{Done};

use crate::tuples::templates::{best_template, node_template};
use crate::worker::gate::{Gate, Kind};
use crate::worker::job::Job;
use crate::worker::prepared::prepare_at;
use crate::worker::report::{Ended, Report};
use crate::worker::stage::{Desk, Stage, Standing, Tally, Tools};
use crate::worker::thinking::{stage_thought, think_in};
use crate::worker::turn::{is_hopeful, turn};
use gilmore_lawler::{KeptRows, RankedInstance};
use shared_space::{Law, Room, Share};
use space_txn::Spent;
use std::alloc::{AllocError, Global};
use std::marker::Model;
use std::mem::{replace, swap};
use std::sync::Arc;

/// A worker of the search: it takes an open node and the best permutation, and commits what it decides of them, one call on the
/// room a step.
#[derive(Drop)]
pub struct Hand {
    /// The instance, with the rows that it keeps from one node to the next.
    rows: KeptRows,
    desk: Desk,
    tools: Tools,
    tally: Tally,
    /// The node that it is at.
    job: Job,
    /// Others that it has at hand.
    others: Vec<Job>,
}

impl Model for Hand {
    ghost use Rattle.std.specs.Prelude.{All};
    ghost use Rattle.qap_search.specs.Worker.Hand.{HandValue, hand_of, last_of};
    ghost use Rattle.qap_search.specs.Worker.Standing.{IsJob};

    ghost Value = { HandValue };

    ghost view = { λ h. hand_of h.rows h.tools.lease_ms (last_of h.job.last) h.job.stage h.tally };

    ghost invariant = { λ h. IsJob h.rows h.tools h.job × All (IsJob h.rows h.tools) h.others.items };
}

impl Hand {
    /// A worker of this number, which begins its transactions with leases of this many milliseconds.
    pub fn new(
        alloc: Global,
        worker: u16,
        instance: Arc<RankedInstance>,
        lease_ms: u64,
    ) -> Result<Hand, AllocError>
        ensures instance { IfOk result (λ hand. hand.instance ≡ arc_value instance) }
        ensures accepted { IfOk result (λ hand. hand.accepted ≡ 0) }
        ensures value { IfOk result (λ hand. hand ≡ new_hand (arc_value instance) lease_ms) }
    {
        instance.instance().instance_law();
        let desk = Desk::new(alloc)?;
        let tools = Tools {
            alloc,
            worker,
            lease_ms,
            node: node_template(alloc)?,
            best: best_template(alloc)?,
        };
        Ok(Hand {
            rows: KeptRows::new(alloc, instance),
            desk,
            tools,
            tally: Tally::new(),
            job: Job::new(alloc),
            others: Vec::new(alloc),
        })
    }

    /// Such a worker with these jobs beside the one that it is at.
    pub(crate) fn beside(self, others: Vec<Job>) -> Hand
        requires { All IsIdle others.items }
        ensures { result ≡ self }
    {
        Hand { others, ..self }
    }

    /// How many jobs it has beside the one that it is at.
    pub(crate) fn others(&self) -> usize {
        self.others.len()
    }

    /// Turns to this other job, and leaves the one that it was at in its place.
    pub(crate) fn turn_to(&mut self, other: usize)
        ensures instance { self.new.instance ≡ self.old.instance }
        ensures lease { self.new.lease ≡ self.old.lease }
        ensures accepted { self.new.accepted ≡ self.old.accepted }
        ensures refused { self.new.refused ≡ self.old.refused }
        ensures best { self.new.best ≡ self.old.best }
    {
        if other < self.others.len() {
            let other = &mut self.others[other];
            swap(&mut self.job, other);
        }
    }

    /// Whether an evaluation is due: it comes before the next step.
    pub fn thinks(&self) -> bool
        ensures { result ≡ is_due self.now.stage }
    {
        matches!(self.job.stage, Stage::Taken(..))
    }

    /// The kind of the next step.
    pub fn next(&self) -> Kind
        requires { is_due self.now.stage ≡ false }
        ensures { result ≡ kind_of self.now }
    {
        match &self.job.stage {
            Stage::Idle => Kind::Begin,
            Stage::Begun(_) | Stage::Taken(..) => Kind::TakeNode,
            Stage::Considered(_) => {
                if is_hopeful(&self.tally, &self.job.last) {
                    Kind::TakeBest
                } else {
                    Kind::ReadBest
                }
            }
            Stage::Ready(..) => Kind::Commit,
            Stage::GivingUp(_) => Kind::Abort,
        }
    }

    /// Makes the next step, one call on the room, and reports whether it met no refusal. Refused since its transaction
    /// has ended the worker begins again; after another refusal its next turn tries the same step. At an error there
    /// was no memory, for the call or for what it was to write.
    pub fn step<L: Law, M: Room<L>>(
        &mut self,
        room: &mut M,
        share: &mut Share<L>,
    ) -> Result<bool, AllocError>
        requires law { IsSearchLaw self.old.instance L.lawful L.allowed }
        requires lease { L.begins self.old.lease }
        requires not_due { is_due self.old.stage ≡ false }
        requires counted { self.old.accepted ≤ share.old }
        ensures turn { Turn M.did self.old room.old result self.new room.new }
        ensures counted { share.new + self.old.accepted ≡ share.old + self.new.accepted }
        ensures instance { self.new.instance ≡ self.old.instance }
        ensures lease { self.new.lease ≡ self.old.lease }
    {
        let stage = replace(&mut self.job.stage, Stage::Idle);
        let outcome = turn(
            &self.tools,
            room,
            share,
            &self.job.last,
            Standing {
                stage,
                tally: self.tally,
            },
            &mut self.job.prepared,
            &mut self.job.reserve.spare,
        );
        self.job.prepared.forget();
        self.job.stage = outcome.stage;
        self.tally = outcome.tally;
        outcome.told
    }

    /// Evaluates the node that was taken, outside the space's lock; if that is the node of the last evaluation, this is
    /// kept. At an error nothing changed, and the evaluation is still due.
    pub fn think<G: Gate>(&mut self, gate: &G) -> Result<(), AllocError>
        requires { is_due self.old.stage ≡ true }
        ensures thought { OnOk result (Thinks self.old self.new) }
        ensures not_due { OnOk result (is_due self.new.stage ≡ false) }
        ensures unchanged { OnErr result (self.new ≡ self.old) }
        ensures accepted { self.new.accepted ≡ self.old.accepted }
        ensures instance { self.new.instance ≡ self.old.instance }
        ensures lease { self.new.lease ≡ self.old.lease }
    {
        self.job.reserve.restock(self.tools.alloc);
        self.job.prepared.forget();
        let considered = think_in(
            &self.tools,
            gate,
            &mut self.rows,
            &mut self.desk,
            &self.job.stage,
            &mut self.job.last,
        )?;
        let stage = replace(&mut self.job.stage, Stage::Idle);
        self.job.stage = stage_thought(stage, considered);
        Ok(())
    }

    /// Prepares the next steps outside the space's lock. If the next one reads the incumbent and finds the cost that
    /// the worker remembers, it writes what is prepared here; if memory runs out, or if the cost is another one, the
    /// step computes the writes. The next transaction gets its memory, and what the last ones held is dropped.
    pub fn prepare(&mut self)
        ensures { self.new ≡ self.old }
    {
        self.job.reserve.restock(self.tools.alloc);
        if !matches!(self.job.stage, Stage::Considered(_))
            || is_hopeful(&self.tally, &self.job.last)
        {
            return;
        }
        prepare_at(
            self.tools.alloc,
            &mut self.job.prepared,
            &self.job.last,
            self.tally.best,
        );
    }

    /// Keeps what a transaction held that has ended, to be dropped when it next thinks or makes ready, outside the space's lock.
    pub fn keep(&mut self, spent: Spent)
        ensures { self.new ≡ self.old }
    {
        self.job.reserve.keep(spent);
    }

    /// What it did so far.
    pub fn report(&self) -> Report
        ensures { result ≡ record { accepted = self.now.accepted; refused = self.now.refused; ended = Done } }
    {
        Report {
            accepted: self.tally.accepted,
            refused: self.tally.refused,
            ended: Ended::Done,
        }
    }
}
