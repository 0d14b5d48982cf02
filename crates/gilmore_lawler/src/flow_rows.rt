//! Rows of the flows, kept for all nodes with the same placed facilities.

ghost use Rattle.std.specs.Prelude.{◌≡◌, ◌-◌, ◌*◌, ◌^◌, length, IfOk};
ghost use Rattle.qap_cost.specs.Bijection.{AreDifferent};
ghost use Rattle.qap_cost.specs.Instance.{IsInstance};
ghost use Rattle.qap_cost.specs.Range.{AllLimited, AllWithin};
ghost use Rattle.gilmore_lawler.specs.Duals.{TellsFit};
ghost use Rattle.gilmore_lawler.specs.FlowRows.{FlowSide, HasFlowRows, HasLocationRows};
ghost use Rattle.gilmore_lawler.specs.ReducedMatrix.{IsReduced};

use crate::child_rows::LocationRows;
use crate::reduction::{RankedInstance, Workspace};
use qap_cost::{Instance, Matrix, Partial};
use std::alloc::AllocError;
use std::marker::Model;

/// The rows of the flows between facilities where certain ones are placed: what the Gilmore-Lawler matrices of all
/// nodes that place these have in common, wherever they place them; and the rows of the distances except the last
/// location, which siblings have in common too.
#[derive(Drop)]
pub struct FlowRows<'a> {
    ranked: &'a RankedInstance,
    facilities: Vec<u16>,
    rows: Vec<i32>,
    before: LocationRows,
}

impl<'a> Model for FlowRows<'a> {
    ghost Value = { FlowSide };

    ghost view = { λ r. record { instance = r.ranked.now; facilities = r.facilities.items } };

    ghost invariant = { λ r. HasFlowRows (record { instance = r.ranked.now; facilities = r.facilities.items }) r.rows.items
        × HasLocationRows r.ranked.now r.before.places.items r.before.free.items r.before.rows.items };
}

impl<'a> FlowRows<'a> {
    /// The rows for each node that places the facilities of this one.
    pub fn new(ranked: &'a RankedInstance, node: &Partial) -> Result<FlowRows<'a>, AllocError>
        requires { ranked.now.size ≡ node.now.size }
        ensures { IfOk result (λ r. r ≡ record { instance = ranked.now; facilities = node.now.facilities }) }
    {
        let alloc = ranked.allocator();
        let facilities = Vec::from_slice(alloc, node.facilities())?;
        let mut free = Vec::new(alloc);
        let mut rows = Vec::new(alloc);
        ranked.make_flow_rows(node.facilities(), &mut free, &mut rows)?;
        let mut before = LocationRows::new(alloc);
        ranked.make_location_rows(but_last(node), &mut before)?;
        Ok(FlowRows {
            ranked,
            facilities,
            rows,
            before,
        })
    }

    /// The instance itself.
    pub fn instance(&self) -> &Instance
        ensures value { result.now ≡ self.now.instance }
        ensures instance { IsInstance self.now.instance }
    {
        self.ranked.instance()
    }

    /// The Gilmore-Lawler matrix of a node that places these facilities, as the function `reduced` returns it for the
    /// instance.
    pub fn reduced(&self, workspace: &mut Workspace, node: &Partial) -> Result<Matrix, AllocError>
        requires size { self.now.instance.size ≡ node.now.size }
        requires facilities { self.now.facilities ≡ node.now.facilities }
        ensures reduced { IfOk result (IsReduced self.now.instance node.now) }
        ensures size { IfOk result (λ M. M.size ≡ node.now.size - length node.now.facilities) }
        ensures bounded { IfOk result (λ M. AllWithin (512 * 10 ^ 18) M.entries) }
    {
        let distances = &mut workspace.distances;
        self.ranked.make_rows_behind(&self.before, node, distances)?;
        let mut matrix = Matrix::empty(self.ranked.allocator());
        self.ranked
            .reduce_by(&self.rows, &distances.rows, node, &mut matrix)?;
        Ok(matrix)
    }

    /// Whether `(u, v)` fits the Gilmore-Lawler matrix of a node that places these facilities, as `fits` decides it for
    /// the matrix, which is not built here.
    pub fn fits(
        &self,
        workspace: &mut Workspace,
        node: &Partial,
        u: &[i128],
        v: &[i128],
    ) -> Result<bool, AllocError>
        requires size { self.now.instance.size ≡ node.now.size }
        requires facilities { self.now.facilities ≡ node.now.facilities }
        requires u_count { length u.now ≡ node.now.size - length node.now.facilities }
        requires v_count { length v.now ≡ node.now.size - length node.now.facilities }
        requires u_range { AllLimited u.now }
        requires v_range { AllLimited v.now }
        ensures { IfOk result (TellsFit self.now.instance node.now u.now v.now) }
    {
        let distances = &mut workspace.distances;
        self.ranked.make_rows_behind(&self.before, node, distances)?;
        Ok(self.ranked.fit_by(&self.rows, &distances.rows, node, u, v))
    }
}

/// The locations of the node but the last, which its siblings share; none if it has none.
fn but_last(node: &Partial) -> &[u16]
    ensures { AreDifferent node.now.size result.now }
{
    let places = node.places();
    &places[..places.len().saturating_sub(1)]
}
