//! The bounds of the leaves of a certificate's tree.

ghost use Rattle.std.specs.Prelude.{◌≡◌, ◌<◌, ◌-◌, ◌+ℤ◌, ◌++◌, ◌∷◌, [], ℕ, IfOk, length, slice_index};
ghost use Rattle.gilmore_lawler.specs.Closing.{AreDuals};
ghost use Rattle.qap_cost.specs.Matrix.{dual_value};
ghost use Rattle.qap_cost.specs.Placement.{IsFreeFacility, IsFreeLocation, IsPlacement, fixed_cost_of};
ghost use Rattle.qap_cert.specs.Shape.{AllHaveShape, HasShape};
ghost use Rattle.qap_cert.specs.Tree.{node_of, nodes_of};
ghost use Rattle.qap_cert.specs.declared.version.Version.TheVariants.{Second};
ghost use Rattle.qap_search.specs.Certificate.LeafBounds.{IsBoundOf, IsLeastOf, shown, shown_by_all};

use gilmore_lawler::dual_sum;
use qap_cert::{Certificate, Tree};
use qap_cost::{Instance, Partial};
use std::alloc::{AllocError, Global};

/// The minimum of the certificate's cost and of the bounds of its tree's leaves.
pub(crate) fn bound_of(
    alloc: Global,
    instance: &Instance,
    certificate: &Certificate,
) -> Result<i128, AllocError>
    requires { length certificate.now.permutation ≡ instance.now.size }
    ensures { IfOk result (IsBoundOf instance.now certificate.now.cost certificate.now.tree) }
{
    let root = Partial::root(alloc, instance.size())?;
    let cost = certificate.cost();
    least_shown(alloc, instance, &root, certificate.tree(), cost)
}

/// The minimum of this number and of the bounds of the leaves of the tree at the node.
#[cycle(showing)]
fn least_shown(
    alloc: Global,
    instance: &Instance,
    node: &Partial,
    tree: &Tree,
    least: i128,
) -> Result<i128, AllocError>
    requires same_size { instance.now.size ≡ node.now.size }
    requires placement { IsPlacement node.now }
    requires shape { HasShape Second node.now.size node.now.facilities (node_of tree.now) }
    ensures { IfOk result (IsLeastOf (least ∷ shown instance.now node.now (node_of tree.now))) }
{
    match tree {
        Tree::Split { facility, children } => {
            let locations = node.free_locations()?;
            least_shown_by_all(
                alloc, instance, node, *facility, &locations, children, least,
            )
        }
        Tree::Bound { u, v } => {
            let u = u.numbers().to_vec(alloc)?;
            let v = v.numbers().to_vec(alloc)?;
            Ok(least_with(instance, node, &u, &v, least))
        }
    }
}

/// Likewise for the trees of the nodes that put the facility at each of these locations too.
#[cycle(showing)]
fn least_shown_by_all(
    alloc: Global,
    instance: &Instance,
    node: &Partial,
    facility: u16,
    locations: &[u16],
    children: &[Tree],
    least: i128,
) -> Result<i128, AllocError>
    requires same_size { instance.now.size ≡ node.now.size }
    requires placement { IsPlacement node.now }
    requires facility { IsFreeFacility node.now facility }
    requires free { (i : ℕ) → i < length locations.now → IsFreeLocation node.now (slice_index locations.now i) }
    requires one_each { length children.now ≡ length locations.now }
    requires shape { AllHaveShape Second node.now.size (node.now.facilities ++ facility ∷ []) (nodes_of children.now) }
    ensures { IfOk result (IsLeastOf (least ∷ shown_by_all instance.now node.now facility locations.now (nodes_of children.now))) }
{
    let mut found = least;
    for (i, child) in children.iter().enumerate() {
        let part = node.place(facility, locations[i])?;
        found = least_shown(alloc, instance, &part, child, found)?;
    }
    Ok(found)
}

/// The smaller of this number and of what duals show at the node: the cost of its placed facilities among themselves,
/// and the sum of the duals.
fn least_with(instance: &Instance, node: &Partial, u: &[i128], v: &[i128], least: i128) -> i128
    requires same_size { instance.now.size ≡ node.now.size }
    requires placement { IsPlacement node.now }
    requires duals { AreDuals (node.now.size - length node.now.facilities) u.now v.now }
    ensures { IsLeastOf (least ∷ (fixed_cost_of instance.now node.now +ℤ dual_value u.now v.now) ∷ []) result }
{
    let value = node.fixed_cost(instance) + dual_sum(u, v);
    if value < least { value } else { least }
}
