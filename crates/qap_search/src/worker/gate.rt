//! The gate that is consulted before each step of a worker.

ghost use Rattle.std.specs.Prelude.{IsTrue};

/// The kinds of a worker's steps.
#[derive(Clone, Copy, Debug, PartialEq, Eq)]
pub enum Kind {
    /// Begins a transaction.
    Begin,
    /// Takes the tuple of an open node.
    TakeNode,
    /// Reads the tuple of the best permutation.
    ReadBest,
    /// Takes the tuple of the best permutation.
    TakeBest,
    /// Commits the transaction.
    Commit,
    /// Ends the transaction without a commit.
    Abort,
}

/// Is consulted before the steps of a worker, each by itself unless it lets several be made in a row, and informed after them; both
/// outside the space's lock.
pub trait Gate {
    /// Whether the worker may go on; `false` ends it, and its transaction is dropped.
    fn pass(&self, worker: u16, kind: Kind) -> bool;

    /// The step was made; whether it was answered without a refusal.
    fn after(&self, worker: u16, kind: Kind, accepted: bool);

    /// The worker has a node's Gilmore-Lawler matrix and computes its duals.
    fn thinking(&self, worker: u16);

    /// How many steps a worker makes in a row, at most, under one acquisition of the space's lock. It is consulted before the first of
    /// them and informed after the last.
    fn steps_in_a_row(&self) -> usize {
        1
    }
}

/// Lets each worker pass, and does nothing.
#[derive(Clone, Copy, Debug)]
pub struct Always;

impl Gate for Always {
    fn pass(&self, _worker: u16, _kind: Kind) -> bool
        ensures { IsTrue result }
    {
        true
    }

    fn after(&self, _worker: u16, _kind: Kind, _accepted: bool) {}

    fn thinking(&self, _worker: u16) {}

    fn steps_in_a_row(&self) -> usize {
        usize::MAX
    }
}
