//! Rows of an instance that are kept from one node to the next.

ghost use Rattle.std.specs.Prelude.{◌≡◌, ◌-◌, ◌*◌, ◌^◌, length, IfOk, OnOk};
ghost use Rattle.std.specs.Arc.{arc_value};
ghost use Rattle.qap_cost.specs.Instance.{IsInstance, Problem};
ghost use Rattle.qap_cost.specs.Range.{AllLimited, AllWithin};
ghost use Rattle.gilmore_lawler.specs.Duals.{TellsFit};
ghost use Rattle.gilmore_lawler.specs.ReducedMatrix.{IsReduced};

use crate::levels::{Level, keep_level};
use crate::reduction::RankedInstance;
use qap_cost::{Instance, Matrix, Partial};
use std::alloc::{AllocError, Global};
use std::marker::Model;
use std::sync::Arc;

/// How a ranked instance is held: borrowed, or shared by threads.
pub trait Hold {
    /// The instance.
    ghost problem: { Self → Problem };

    /// The ranked instance itself.
    fn ranked(&self) -> &RankedInstance
        ensures { result.now ≡ problem self.now };
}

impl Hold for &RankedInstance {
    ghost problem = { λ r. r.now };

    fn ranked(&self) -> &RankedInstance {
        self
    }
}

impl Hold for Arc<RankedInstance> {
    ghost problem = { λ r. arc_value r };

    fn ranked(&self) -> &RankedInstance {
        self
    }
}

/// A ranked instance, with the rows of the last node at each depth: those of the flows also serve the next node if it
/// places the same facilities, those of the distances if it takes the same locations. From the latter those of its
/// children are derived; those of a node's missing ancestors are computed first, so that its siblings find them in any
/// order of nodes. Contracts see it as the instance, and its answers do not depend on earlier calls.
#[derive(Drop)]
pub struct RowsOf<H: Hold> {
    held: H,
    free: Vec<u16>,
    levels: Vec<Level>,
}

/// The rows that a worker keeps, of an instance that is shared by threads.
pub type KeptRows = RowsOf<Arc<RankedInstance>>;

/// The rows that a checker keeps which walks along the nodes of a tree.
pub type NodeRows<'a> = RowsOf<&'a RankedInstance>;

impl<H: Hold> Model for RowsOf<H> {
    ghost use Rattle.qap_cost.specs.Instance.{Problem};
    ghost use Rattle.std.specs.List.{All};
    ghost use Rattle.gilmore_lawler.specs.Levels.{KeepsRows};

    ghost Value = { Problem };

    ghost view = { λ k. H.problem k.held };

    ghost invariant = { λ k. All (KeepsRows (H.problem k.held)) k.levels.items };
}

impl<H: Hold> RowsOf<H> {
    /// No rows yet of this instance. Allocates nothing.
    pub fn new(alloc: Global, held: H) -> RowsOf<H>
        ensures { result ≡ H.problem held }
    {
        RowsOf {
            held,
            free: Vec::new(alloc),
            levels: Vec::new(alloc),
        }
    }

    /// The instance itself.
    pub fn instance(&self) -> &Instance
        ensures value { result.now ≡ self.now }
        ensures instance { IsInstance self.now }
    {
        self.held.ranked().instance()
    }

    /// The Gilmore-Lawler matrix of the node, as the function `reduced` returns it for the instance. It can be called
    /// again after an error.
    pub fn reduced(&mut self, node: &Partial) -> Result<Matrix, AllocError>
        requires { self.old.size ≡ node.now.size }
        ensures reduced { IfOk result (IsReduced self.old node.now) }
        ensures size { IfOk result (λ M. M.size ≡ node.now.size - length node.now.facilities) }
        ensures bounded { IfOk result (λ M. AllWithin (512 * 10 ^ 18) M.entries) }
        ensures same { self.new ≡ self.old }
    {
        let mut matrix = Matrix::empty(self.held.ranked().allocator());
        self.reduce_into(node, &mut matrix)?;
        Ok(matrix)
    }

    /// Turns the matrix into the Gilmore-Lawler matrix of the node, as the function `reduced` returns it for the
    /// instance, in the matrix's own memory if that suffices. After an error it may be any matrix; the call can be
    /// repeated.
    pub fn reduce_into(&mut self, node: &Partial, matrix: &mut Matrix) -> Result<(), AllocError>
        requires { self.old.size ≡ node.now.size }
        ensures reduced { OnOk result (IsReduced self.old node.now matrix.new) }
        ensures size { OnOk result (matrix.new.size ≡ node.now.size - length node.now.facilities) }
        ensures bounded { OnOk result (AllWithin (512 * 10 ^ 18) matrix.new.entries) }
        ensures same { self.new ≡ self.old }
    {
        let ranked = self.held.ranked();
        keep_level(ranked, node, &mut self.free, &mut self.levels)?;
        let Level { flows, distances } = &self.levels[node.depth()];
        ranked.reduce_by(&flows.rows, &distances.known.rows, node, matrix)
    }

    /// Whether `(u, v)` fits the Gilmore-Lawler matrix of the node, as `fits` decides it for the matrix, which is not
    /// built here.
    pub fn fits(&mut self, node: &Partial, u: &[i128], v: &[i128]) -> Result<bool, AllocError>
        requires size { self.old.size ≡ node.now.size }
        requires u_count { length u.now ≡ node.now.size - length node.now.facilities }
        requires v_count { length v.now ≡ node.now.size - length node.now.facilities }
        requires u_range { AllLimited u.now }
        requires v_range { AllLimited v.now }
        ensures fit { IfOk result (TellsFit self.old node.now u.now v.now) }
        ensures same { self.new ≡ self.old }
    {
        let ranked = self.held.ranked();
        keep_level(ranked, node, &mut self.free, &mut self.levels)?;
        let Level { flows, distances } = &self.levels[node.depth()];
        Ok(ranked.fit_by(&flows.rows, &distances.known.rows, node, u, v))
    }
}
