//! What the children of a split share, computed once.

ghost use Rattle.std.specs.Prelude.{◌≡◌, ◌≤◌, ◌+◌, ◌-◌, ◌*◌, ◌^◌, ◌++◌, ◌∷◌, [], length, unsigned_abs, IfOk};
ghost use Rattle.qap_cost.specs.Placement.{IsFreeFacility, IsFreeLocation, fixed_cost_of, placing};
ghost use Rattle.qap_cost.specs.Range.{AllLimited};
ghost use Rattle.gilmore_lawler.specs.Duals.{TellsFit};
ghost use Rattle.gilmore_lawler.specs.FlowRows.{HasFlowRows};
ghost use Rattle.gilmore_lawler.specs.Split.{Split, HasSplitRows};
ghost use Rattle.gilmore_lawler.specs.Table.{linear_row};

use crate::blocks::dot_product;
use crate::child_rows::{LocationRows, child_rows, list_with, place_among, row_at};
use crate::factors::write_linear;
use crate::fitting::products_fit;
use crate::reduction::{RankedInstance, Workspace};
use crate::side::Side;
use qap_cost::Partial;
use std::alloc::AllocError;
use std::marker::Model;

/// Caches what the children of a split share; it checks a child's duals and computes its fixed cost without building
/// the child. It has the rows of the flows, which all children share, the rows of the distances at the node itself,
/// from which a child's are derived, and the cost of the node's placed facilities.
#[derive(Drop)]
pub struct SplitRows<'a> {
    ranked: &'a RankedInstance,
    node: &'a Partial,
    facility: u16,
    flows: Vec<i32>,
    linear: Vec<i32>,
    before: LocationRows,
    fixed: i128,
}

impl<'a> Model for SplitRows<'a> {
    ghost Value = { Split };

    ghost view = { λ r. record { instance = r.ranked.now; node = r.node.now; facility = r.facility } };

    ghost invariant = { λ r. HasSplitRows (record { instance = r.ranked.now; node = r.node.now; facility = r.facility })
        r.flows.items r.linear.items r.before.places.items r.before.free.items r.before.rows.items r.fixed };
}

impl<'a> SplitRows<'a> {
    /// The children of the node that place this facility.
    pub fn new(
        ranked: &'a RankedInstance,
        node: &'a Partial,
        facility: u16,
    ) -> Result<SplitRows<'a>, AllocError>
        requires size { ranked.now.size ≡ node.now.size }
        requires facility { IsFreeFacility node.now facility }
        ensures { IfOk result (λ r. r ≡ record { instance = ranked.now; node = node.now; facility = facility }) }
    {
        let flows = child_flows(ranked, node, facility)?;
        let linear = linear_flows(ranked, node, facility)?;
        let mut before = LocationRows::new(ranked.allocator());
        ranked.make_location_rows(node.places(), &mut before)?;
        let fixed = node.fixed_cost(ranked.instance());
        Ok(SplitRows {
            ranked,
            node,
            facility,
            flows,
            linear,
            before,
            fixed,
        })
    }

    /// The node of the child at this location.
    pub fn child(&self, location: u16) -> Result<Partial, AllocError>
        requires { IsFreeLocation self.now.node location }
        ensures { IfOk result (λ x. x ≡ placing self.now.node self.now.facility location) }
    {
        self.node.place(self.facility, location)
    }

    /// Whether `(u, v)` fits the Gilmore-Lawler matrix of the child at this location, as `fits` decides it for the
    /// matrix.
    pub fn fits(
        &self,
        workspace: &mut Workspace,
        location: u16,
        u: &[i128],
        v: &[i128],
    ) -> Result<bool, AllocError>
        requires location { IsFreeLocation self.now.node location }
        requires u_count { length u.now ≡ self.now.node.size - (length self.now.node.facilities + 1) }
        requires v_count { length v.now ≡ self.now.node.size - (length self.now.node.facilities + 1) }
        requires u_range { AllLimited u.now }
        requires v_range { AllLimited v.now }
        ensures { IfOk result (TellsFit self.now.instance (placing self.now.node self.now.facility location) u.now v.now) }
    {
        let LocationRows { places, free, rows } = &self.before;
        let s = place_among(free, location);
        let distances = &mut workspace.distances.rows;
        let instance = self.ranked.instance();
        child_rows(instance, places, free, rows, s, distances)?;
        let width = instance.size() + self.node.depth() + 1;
        let are_small = self.ranked.are_small();
        Ok(products_fit(&self.flows, distances, width, are_small, u, v))
    }

    /// What the facilities that the child at this location places cost among themselves.
    pub fn fixed_cost(&self, location: u16) -> i128
        requires { IsFreeLocation self.now.node location }
        ensures value { result ≡ fixed_cost_of self.now.instance (placing self.now.node self.now.facility location) }
        ensures bounded { unsigned_abs result ≤ 66048 * 10 ^ 18 }
    {
        let LocationRows { free, rows, .. } = &self.before;
        let number = place_among(free, location);
        let depth = self.node.depth();
        let width = self.ranked.instance().size() + depth;
        let row = row_at(rows, width, free.len(), number);
        let linear = &row[..1 + 2 * depth];
        self.fixed + dot_product(&self.linear, linear, self.ranked.are_small())
    }
}

/// The rows of the flows where the facility is placed too.
fn child_flows(
    ranked: &RankedInstance,
    node: &Partial,
    facility: u16,
) -> Result<Vec<i32>, AllocError>
    requires size { ranked.now.size ≡ node.now.size }
    requires facility { IsFreeFacility node.now facility }
    ensures { IfOk result (λ v. HasFlowRows (record { instance = ranked.now; facilities = node.now.facilities ++ facility ∷ [] }) v.items) }
{
    let alloc = ranked.allocator();
    let mut facilities = Vec::new(alloc);
    list_with(node.facilities(), facility, &mut facilities)?;
    let mut free = Vec::new(alloc);
    let mut flows = Vec::new(alloc);
    ranked.make_flow_rows(&facilities, &mut free, &mut flows)?;
    Ok(flows)
}

/// The flow of the facility with itself, and of it with each placed one both ways.
fn linear_flows(
    ranked: &RankedInstance,
    node: &Partial,
    facility: u16,
) -> Result<Vec<i32>, AllocError>
    requires size { ranked.now.size ≡ node.now.size }
    requires facility { IsFreeFacility node.now facility }
    ensures { IfOk result (λ v. v.items ≡ linear_row ranked.now.size ranked.now.a node.now.facilities facility) }
{
    let count = 1 + 2 * node.depth();
    let mut numbers = Vec::new(ranked.allocator());
    numbers.resize(count, 0)?;
    write_linear(
        ranked.instance(),
        Side::Flow,
        node.facilities(),
        facility,
        &mut numbers,
        0,
    );
    Ok(numbers)
}
