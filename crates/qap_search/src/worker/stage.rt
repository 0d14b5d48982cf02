//! The stages of a worker's turn.

ghost use Rattle.std.specs.Prelude.{◌≡◌, ◌+◌, ◌<◌, ◌-◌, ◌^◌, None, Some};
ghost use Rattle.qap_search.specs.Worker.Hand.{is_hopeful, thought_of};
ghost use Rattle.qap_search.specs.Worker.Turn.{one_more};

use crate::node::scratch::Scratch;
use crate::node::thought::Thought;
use qap_cost::{Matrix, Partial};
use space_txn::{Spare, Spent, Txn};
use std::alloc::{AllocError, Global};
use tuple_match::Template;
use tuple_space::EntryId;

/// The stage of a worker's turn.
#[derive(Drop)]
pub(crate) enum Stage {
    /// It has no transaction.
    Idle,
    /// It has begun one.
    Begun(Txn),
    /// It took the entry of an open node, whose evaluation is due.
    Taken(Txn, EntryId),
    /// The node has been evaluated.
    Considered(Txn),
    /// The writes are in the transaction; the incumbent after its commit has this cost.
    Ready(Txn, i128),
    /// The transaction must be ended without a commit.
    GivingUp(Txn),
}

/// A node with what was computed about it.
#[derive(Drop)]
pub(crate) struct LastThought {
    pub(crate) node: Partial,
    pub(crate) thought: Thought,
}

/// Memory in which a worker thinks, kept from one node to the next.
#[derive(Drop)]
pub(crate) struct Desk {
    /// The node that was read.
    pub(crate) node: Partial,
    /// Its Gilmore-Lawler matrix.
    pub(crate) matrix: Matrix,
    pub(crate) scratch: Scratch,
}

impl Desk {
    /// Allocates nothing.
    pub(crate) fn new(alloc: Global) -> Result<Desk, AllocError> {
        Ok(Desk {
            node: Partial::root(alloc, 1)?,
            matrix: Matrix::empty(alloc),
            scratch: Scratch::new(alloc)?,
        })
    }

    /// Keeps the memory of an evaluation that is no longer needed.
    pub(crate) fn keep(&mut self, last: LastThought) {
        let LastThought { node, thought } = last;
        self.node = node;
        self.scratch.keep(thought);
    }
}

/// Memory of a worker's transactions, kept from one to the next.
#[derive(Drop)]
pub(crate) struct Reserve {
    /// What the transaction held that was ended last.
    spent: Option<Spent>,
    /// What the one before it held: a worker that commits and then finds no node ends two in one taking of the lock.
    older: Option<Spent>,
    /// What the next one is to lie in.
    pub(crate) spare: Option<Spare>,
}

impl Reserve {
    /// Allocates nothing.
    pub(crate) fn new() -> Reserve {
        Reserve {
            spent: None,
            older: None,
            spare: None,
        }
    }

    /// Keeps what a transaction held that has ended, beside what the last one held.
    pub(crate) fn keep(&mut self, spent: Spent) {
        self.older = self.spent.replace(spent);
    }

    /// Allocates memory for the next transaction, if possible, before the space's lock is taken for it. What the last
    /// ones held is dropped.
    pub(crate) fn restock(&mut self, alloc: Global) {
        self.older = None;
        let spent = self.spent.take();
        if self.spare.is_some() {
            return;
        }
        self.spare = match spent {
            Some(spent) => Some(spent.emptied()),
            None => Spare::new(alloc).ok(),
        };
    }
}

/// What a worker's calls are made with.
#[derive(Drop)]
pub(crate) struct Tools {
    pub(crate) alloc: Global,
    /// The worker's number.
    pub(crate) worker: u16,
    /// How many milliseconds its transactions ask for.
    pub(crate) lease_ms: u64,
    /// Asks for any open node.
    pub(crate) node: Template,
    /// Asks for the best permutation.
    pub(crate) best: Template,
}

/// What a worker remembers and counts.
#[derive(Clone, Copy)]
pub(crate) struct Tally {
    /// The cost of the best permutation that it knows of.
    pub(crate) best: Option<i128>,
    pub(crate) accepted: u64,
    pub(crate) refused: u64,
}

/// The stage of a worker's turn, and what it remembers and counts.
#[derive(Drop)]
pub(crate) struct Standing {
    pub(crate) stage: Stage,
    pub(crate) tally: Tally,
}

/// Where a step leaves a worker, and whether it met no refusal.
#[derive(Drop)]
pub(crate) struct Outcome {
    pub(crate) stage: Stage,
    pub(crate) tally: Tally,
    pub(crate) told: Result<bool, AllocError>,
}

impl Tally {
    /// Nothing is known, and nothing has been counted.
    pub(crate) fn new() -> Tally
        ensures { result ≡ record { best = None; accepted = 0; refused = 0 } }
    {
        Tally {
            best: None,
            accepted: 0,
            refused: 0,
        }
    }

    /// One accepted commit more, after which the best permutation has this cost.
    pub(crate) fn with_commit(self, cost: i128) -> Tally
        requires { self.accepted < 2 ^ 64 - 1 }
        ensures { result ≡ record self { best = Some cost; accepted = self.accepted + 1 } }
    {
        Tally {
            best: Some(cost),
            accepted: self.accepted + 1,
            refused: self.refused,
        }
    }

    /// Whether no incumbent is known, or the evaluation's candidate costs less than that.
    pub(crate) fn is_hopeful(&self, last: &LastThought) -> bool
        ensures { result ≡ is_hopeful self.now.best (Some (thought_of last.now)) }
    {
        match self.best {
            Some(best) => last.thought.cost < best,
            None => true,
        }
    }

    /// The same where the best permutation has this cost.
    pub(crate) fn with_best(self, cost: i128) -> Tally
        ensures { result ≡ record self { best = Some cost } }
    {
        Tally {
            best: Some(cost),
            accepted: self.accepted,
            refused: self.refused,
        }
    }

    /// One commit more that was refused, as far as 64 bits count.
    pub(crate) fn with_refusal(self) -> Tally
        ensures { result ≡ record self { refused = one_more self.refused } }
    {
        Tally {
            best: self.best,
            accepted: self.accepted,
            refused: self.refused.saturating_add(1),
        }
    }
}
