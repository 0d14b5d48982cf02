//! The evaluation of a node before any decision.

ghost use Rattle.std.specs.Prelude.{◌≡◌, ◌*◌, ◌^◌, IfOk};
ghost use Rattle.qap_cost.specs.Range.{AllWithin};
ghost use Rattle.gilmore_lawler.specs.ReducedMatrix.{IsReduced};

use crate::node::scratch::Scratch;
use qap_cost::{Instance, Matrix, Partial, Perm};
use std::alloc::{AllocError, Global};

/// The evaluation of a node: a bound on its completions, and one of them.
#[derive(Drop)]
pub struct Thought {
    /// A dual for each free facility, ascending.
    pub u: Vec<i128>,
    /// A dual for each free location, ascending.
    pub v: Vec<i128>,
    /// What the placed facilities cost among themselves, and the sum of the duals: no completion costs less.
    pub value: i128,
    /// The completion by a least assignment of the Gilmore-Lawler matrix.
    pub candidate: Perm,
    /// What the candidate costs.
    pub cost: i128,
    /// The facility to split the node on. `None` if none is free.
    pub branch: Option<u16>,
}

impl Thought {
    ghost use Rattle.qap_search.specs.Node.Thought.{IsThought};

    /// The evaluation of the node from its Gilmore-Lawler matrix; it will be split on the facility of the greatest matched entry.
    pub fn new(
        alloc: Global,
        instance: &Instance,
        node: &Partial,
        matrix: &Matrix,
    ) -> Result<Thought, AllocError>
        requires same_size { instance.now.size ≡ node.now.size }
        requires reduced { IsReduced instance.now node.now matrix.now }
        requires bounded { AllWithin (512 * 10 ^ 18) matrix.now.entries }
        ensures { IfOk result (IsThought instance.now node.now) }
    {
        Scratch::new(alloc)?.thought(alloc, instance, node, matrix)
    }
}
