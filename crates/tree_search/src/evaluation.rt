//! The evaluation of a node by the bound of Gilmore and Lawler.

ghost use Rattle.std.specs.Prelude.{◌≡◌, ◌<◌, length, IfOk};
ghost use Rattle.qap_proof.specs.Memory.{node_of};
ghost use Rattle.qap_proof.specs.NodeLine.{pair_of};
ghost use Rattle.qap_proof.specs.Tree.{closed};
ghost use Rattle.tree_search.specs.Evaluation.{HasLines, IsEvaluation};

use assign_dual::{Assignment, Solver};
use gilmore_lawler::{NodeRows, dual_sum};
use qap_cost::{Matrix, Partial};
use qap_proof::{Duals, Side, Tree};
use std::alloc::{AllocError, Global};

/// A node's Gilmore-Lawler matrix, and a least assignment of it with its duals.
#[derive(Drop)]
pub(crate) struct Evaluation {
    pub(crate) matrix: Matrix,
    /// The free facilities, ascending: that of each row.
    pub(crate) facilities: Vec<u16>,
    /// The free locations, ascending: that of each column.
    pub(crate) locations: Vec<u16>,
    /// The column that each row takes.
    pub(crate) matching: Vec<u16>,
    pub(crate) duals: Duals,
    /// The cost of the placed facilities among themselves, plus the sum of the duals: no completion costs less.
    pub(crate) value: i128,
}

impl Evaluation {
    /// The leaf with these duals.
    pub(crate) fn leaf(self) -> Tree
        ensures { node_of result ≡ closed (pair_of self.duals) }
    {
        Tree::Closed {
            duals: self.duals.kept(),
        }
    }

    /// What the children of a split on this side place beside what the split is on.
    pub(crate) fn others(&self, side: Side) -> &[u16]
        requires lines { HasLines self.now }
        ensures { length result.now ≡ self.now.matrix.size }
    {
        match side {
            Side::Facility => &self.locations,
            Side::Location => &self.facilities,
        }
    }

    /// The reduced cost of the pair that a child places, where the split is on the row or column of this number.
    pub(crate) fn reduced_cost(&self, side: Side, own: usize, child: usize) -> i128
        requires lines { HasLines self.now }
        requires own { own < self.now.matrix.size }
        requires child { child < self.now.matrix.size }
    {
        match side {
            Side::Facility => self.reduced_entry(own, child),
            Side::Location => self.reduced_entry(child, own),
        }
    }

    /// The entry of the matrix less its two duals.
    fn reduced_entry(&self, row: usize, column: usize) -> i128
        requires lines { HasLines self.now }
        requires row { row < self.now.matrix.size }
        requires column { column < self.now.matrix.size }
    {
        let entry = self.matrix.at(row, column);
        entry
            .wrapping_sub(self.duals.u[row])
            .wrapping_sub(self.duals.v[column])
    }
}

/// Evaluates the node.
pub(crate) fn evaluate(
    alloc: Global,
    rows: &mut NodeRows<'_>,
    solver: &mut Solver,
    node: &Partial,
) -> Result<Evaluation, AllocError>
    requires size { rows.old.size ≡ node.now.size }
    ensures evaluation { IfOk result (IsEvaluation rows.old node.now) }
    ensures same { rows.new ≡ rows.old }
{
    let matrix = rows.reduced(node)?;
    matrix.matrix_law();
    let Assignment { matching, u, v } = solver.solve(alloc, &matrix)?;
    let facilities = node.free_facilities()?;
    let locations = node.free_locations()?;
    let value = node.fixed_cost(rows.instance()) + dual_sum(&u, &v);
    Ok(Evaluation {
        matrix,
        facilities,
        locations,
        matching,
        duals: Duals { u, v },
        value,
    })
}
