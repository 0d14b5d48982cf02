//! Closes the open nodes among the tuples of a search.

ghost use Rattle.std.specs.Prelude.{◌≡◌, ◌<◌, ◌≤◌, ◌⊎◌, IfOk, MatchResult, OnOk};
ghost use Rattle.qap_cost.specs.Placement.{IsPlacement};
ghost use Rattle.qap_search.specs.Certificate.ClosedTuples.{AreClosed, HasNoNode, IsClosedBy, IsClosedTuple, IsNoNode};
ghost use Rattle.qap_search.specs.Certificate.OpenNodes.{AreLeastDuals};
ghost use Rattle.qap_search.specs.declared.certificate.error.AssembleError.TheVariants.{NotATree, OutOfMemory};

use crate::certificate::error::AssembleError;
use crate::node::node_list::read_into;
use crate::tuples::composing::tuple_of_closed;
use crate::tuples::parsing::node_numbers;
use assign_dual::{Assignment, Solver};
use gilmore_lawler::{RankedInstance, Workspace};
use qap_cost::{Matrix, Partial};
use std::alloc::{AllocError, Global};
use tuple_match::Tuple;

/// Memory in which open nodes are read and their duals computed, kept from one node to the next.
#[derive(Drop)]
struct Closing {
    /// The node that was read.
    node: Partial,
    /// A least assignment of its Gilmore-Lawler matrix, with the duals.
    answer: Assignment,
    workspace: Workspace,
    matrix: Matrix,
    solver: Solver,
}

impl Closing {
    /// With all the memory that nodes of this size want.
    fn with_room(alloc: Global, size: usize) -> Result<Closing, AllocError>
        requires positive { 0 < size }
        requires small { size ≤ 256 }
    {
        let mut node = Partial::root(alloc, size)?;
        node.reserve()?;
        Ok(Closing {
            node,
            answer: Assignment::with_room(alloc, size)?,
            workspace: Workspace::with_room(alloc, size)?,
            matrix: Matrix::with_room(alloc, size)?,
            solver: Solver::with_room(alloc, size)?,
        })
    }

    /// Makes the answer the least assignment of the Gilmore-Lawler matrix of the node that was read.
    fn work_out(&mut self, instance: &RankedInstance) -> Result<(), AllocError>
        requires same_size { instance.now.size ≡ self.old.node.size }
        requires placement { IsPlacement self.old.node }
        ensures duals { OnOk result (AreLeastDuals instance.now self.old.node self.new.answer.u.items self.new.answer.v.items) }
        ensures node { self.new.node ≡ self.old.node }
    {
        instance.reduce_into(&mut self.workspace, &self.node, &mut self.matrix)?;
        self.matrix.matrix_law();
        self.solver.solve_into(&self.matrix, &mut self.answer)?;
        Ok(())
    }
}

/// The tuples, where each open node is closed by the duals of a least assignment of its Gilmore-Lawler matrix.
pub(crate) fn close_open(
    alloc: Global,
    instance: &RankedInstance,
    mut tuples: Vec<Tuple>,
) -> Result<Vec<Tuple>, AssembleError>
    ensures { MatchResult result
        (λ closed. AreClosed instance.now tuples.items closed.items)
        (λ e. (e ≡ OutOfMemory) ⊎ ((e ≡ NotATree) × HasNoNode instance.now.size tuples.items)) }
{
    let mut closing = Closing::with_room(alloc, instance.instance().size())?;
    let mut closed = Vec::with_capacity(alloc, tuples.len())?;
    while let Some(tuple) = tuples.pop() {
        let new = closed_tuple(alloc, instance, &mut closing, tuple)?;
        closed.push(new).map_err(|_| AssembleError::OutOfMemory)?;
    }
    Ok(closed)
}

/// The tuple, closed where it is that of an open node.
fn closed_tuple(
    alloc: Global,
    instance: &RankedInstance,
    closing: &mut Closing,
    tuple: Tuple,
) -> Result<Tuple, AssembleError>
    ensures { MatchResult result
        (λ new. IsClosedTuple instance.now tuple new)
        (λ e. (e ≡ OutOfMemory) ⊎ ((e ≡ NotATree) × IsNoNode instance.now.size tuple)) }
{
    let size = instance.instance().size();
    let Some(list) = node_numbers(&tuple) else {
        return Ok(tuple);
    };
    if !read_into(size, &list, &mut closing.node)? {
        return Err(AssembleError::NotATree);
    }
    Ok(close(alloc, instance, closing)?)
}

/// The tuple of the node that was read, closed by the duals of a least assignment of its Gilmore-Lawler matrix.
fn close(
    alloc: Global,
    instance: &RankedInstance,
    closing: &mut Closing,
) -> Result<Tuple, AllocError>
    requires same_size { instance.now.size ≡ closing.old.node.size }
    requires placement { IsPlacement closing.old.node }
    ensures { IfOk result (IsClosedBy instance.now closing.old.node) }
{
    closing.work_out(instance)?;
    tuple_of_closed(alloc, &closing.node, &closing.answer.u, &closing.answer.v)
}
