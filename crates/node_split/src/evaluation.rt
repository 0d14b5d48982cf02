//! The bound of Gilmore and Lawler on a node, with the assignment and the duals that yield it.

ghost use Rattle.std.specs.Prelude.{◌≡◌, ◌<◌, ◌≤◌, ◌*◌, ◌^◌, OnOk, unsigned_abs};
ghost use Rattle.qap_cost.specs.Placement.{IsPlacement};
ghost use Rattle.node_split.specs.Evaluation.{AreInRange, IsEvaluated, reached_at, reduced_cost};

use assign_dual::{Assignment, Solver};
use gilmore_lawler::{KeptRows, dual_sum};
use qap_cost::{Matrix, Partial};
use std::alloc::{AllocError, Global};

/// The Gilmore-Lawler matrix of a node, a least assignment of it, and the bound on the node's completions: what the
/// placed facilities cost among themselves, and what the assignment costs. Its memory is kept from one node to the
/// next.
#[derive(Drop)]
pub(crate) struct Evaluation {
    pub(crate) matrix: Matrix,
    pub(crate) assignment: Assignment,
    pub(crate) value: i128,
}

/// What evaluates nodes: rows of the instance and lists, kept from one node to the next.
#[derive(Drop)]
pub(crate) struct Evaluator {
    pub(crate) rows: KeptRows,
    pub(crate) solver: Solver,
}

impl Evaluation {
    /// One that has no memory yet.
    pub(crate) fn new(alloc: Global) -> Result<Evaluation, AllocError> {
        Ok(Evaluation {
            matrix: Matrix::empty(alloc),
            assignment: Assignment::with_room(alloc, 0)?,
            value: 0,
        })
    }

    /// The bound of the child that puts the facility of this row at the location of this column, by this node's duals.
    pub(crate) fn reached(&self, row: usize, column: usize) -> i128
        requires range { AreInRange self.now }
        requires row { row < self.now.matrix.size }
        requires column { column < self.now.matrix.size }
        ensures value { result ≡ reached_at self.now row column }
        ensures bounded { unsigned_abs result ≤ 10 ^ 27 }
    {
        self.value + self.reduced(row, column)
    }

    /// What is left of an entry without the duals of its row and column.
    pub(crate) fn reduced(&self, row: usize, column: usize) -> i128
        requires range { AreInRange self.now }
        requires row { row < self.now.matrix.size }
        requires column { column < self.now.matrix.size }
        ensures value { result ≡ reduced_cost self.now row column }
        ensures bounded { unsigned_abs result ≤ 2048 * 10 ^ 18 }
    {
        let (u, v): (&[i128], &[i128]) = (&self.assignment.u, &self.assignment.v);
        let entry = self.matrix.at(row, column);
        entry - u[row] - v[column]
    }
}

impl Evaluator {
    /// Turns `made` into the evaluation of the node.
    pub(crate) fn evaluate(
        &mut self,
        node: &Partial,
        made: &mut Evaluation,
    ) -> Result<(), AllocError>
        requires { self.old.rows.size ≡ node.now.size }
        ensures evaluated { OnOk result (IsEvaluated self.old.rows node.now made.new) }
        ensures placement { OnOk result (IsPlacement node.now) }
        ensures same { self.new.rows ≡ self.old.rows }
    {
        self.rows.reduce_into(node, &mut made.matrix)?;
        self.solver.solve_into(&made.matrix, &mut made.assignment)?;
        made.matrix.matrix_law();
        node.placement_law();
        let fixed = node.fixed_cost(self.rows.instance());
        made.value = fixed + dual_sum(&made.assignment.u, &made.assignment.v);
        Ok(())
    }
}
