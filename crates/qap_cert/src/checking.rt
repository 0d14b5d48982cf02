//! Whether a certificate establishes that no permutation costs less than its bound.

ghost use Rattle.std.specs.Prelude.{◌≡◌, ◌+◌, ◌-◌, ◌*◌, ◌^◌, ◌<◌, ◌≤◌, ◌⊎◌, ◌++◌, ◌∷◌, [], ℕ, length, IfOk, MatchResult, OnOk, slice_index, unsigned_abs};
ghost use Rattle.qap_cost.specs.Objective.{IsLeast, NoneCostsLess, cost_of};
ghost use Rattle.qap_cost.specs.Placement.{IsFreeFacility, IsFreeLocation, placing};
ghost use Rattle.qap_cert.specs.Certificate.{Certifies};
ghost use Rattle.qap_cert.specs.Fault.{IsBoundFault, IsPermMisfit, IsTreeFault, IsTreeFaultAmong, IsFault};
ghost use Rattle.qap_lines.specs.Line.{line_after};
ghost use Rattle.gilmore_lawler.specs.Closing.{AreDuals};
ghost use Rattle.qap_cert.specs.Shape.{HasShape, AllHaveShape};
ghost use Rattle.qap_cert.specs.Tree.{node_of, nodes_of, node_count, nodes_count};
ghost use Rattle.qap_cert.specs.Valid.{ClosesPart, Valid, AllValid};
ghost use Rattle.qap_cert.specs.declared.error.CertError.TheVariants.{OutOfMemory};
ghost use Rattle.qap_cert.specs.declared.version.Version.TheVariants.{Second};

use crate::line_number::{COST_LINE, SIZE_LINE};
use crate::tree::Tree;
use crate::{CertError, Certificate};
use gilmore_lawler::{FlowRows, RankedInstance, SplitRows, Workspace, dual_sum};
use qap_cost::{Instance, Partial, Perm, cost};
use std::alloc::{AllocError, Global};

/// The parameters of a tree's check: the instance, and the bound that it should prove, in the units of the costs; and
/// where the memory for that comes from.
#[derive(Clone, Copy)]
struct Judge<'a> {
    alloc: Global,
    ranked: &'a RankedInstance,
    bound: i128,
}

/// A split whose children are checked: the node that it is of, its facility, and the locations that it has children
/// for.
#[derive(Clone, Copy)]
struct Parent<'a> {
    node: &'a Partial,
    facility: u16,
    locations: &'a [u16],
}

/// Whether the certificate alone proves that no permutation of the instance costs less than its bound. If the bound is
/// the cost, that is the least cost.
///
/// The permutation must be of the instance's size (`SizeDiffers(2)` if not) and have the cost (`CostDiffers(3)`). Then
/// each bound of the tree, in preorder, must have duals that fit the Gilmore-Lawler matrix of its part (`NotFeasible`)
/// and whose sum plus the cost of the placed facilities is at least the certificate's bound (`BoundTooLow`). The first
/// that fails is reported by its line in the certificate's text. `OutOfMemory` implies nothing about the certificate.
pub fn check(alloc: Global, instance: &Instance, certificate: &Certificate) -> Result<(), CertError>
    ensures verdict { MatchResult result
        (λ done. Certifies instance.now certificate.now)
        (λ e. (e ≡ OutOfMemory) ⊎ IsFault instance.now certificate.now e) }
    ensures bound { OnOk result (NoneCostsLess instance.now certificate.now.bound) }
    ensures least { OnOk result (certificate.now.bound ≡ certificate.now.cost → IsLeast instance.now certificate.now.cost) }
{
    judge_stated(instance, certificate)?;
    let root = Partial::root(alloc, instance.size())?;
    let ranked = RankedInstance::new(alloc, instance)?;
    let rows = FlowRows::new(&ranked, &root)?;
    let mut workspace = Workspace::new(alloc);
    let judge = Judge {
        alloc,
        ranked: &ranked,
        bound: certificate.bound(),
    };
    let line = certificate.tree_line();
    check_tree(
        &mut workspace,
        &judge,
        &rows,
        &root,
        certificate.tree(),
        line,
    )?;
    Ok(())
}

/// Whether the permutation is of the instance's size and has the cost.
fn judge_stated(instance: &Instance, certificate: &Certificate) -> Result<(), CertError>
    ensures { MatchResult result
        (λ done. (length certificate.now.permutation ≡ instance.now.size) × (cost_of instance.now certificate.now.permutation ≡ certificate.now.cost))
        (IsPermMisfit instance.now certificate.now.permutation certificate.now.cost) }
{
    judge_perm(instance, certificate.perm(), certificate.cost())
}

/// Whether the permutation is of the instance's size and has this cost.
pub(crate) fn judge_perm(instance: &Instance, perm: &Perm, stated: i128) -> Result<(), CertError>
    ensures { MatchResult result
        (λ done. (length perm.now ≡ instance.now.size) × (cost_of instance.now perm.now ≡ stated))
        (IsPermMisfit instance.now perm.now stated) }
{
    if perm.len() != instance.size() {
        return Err(CertError::SizeDiffers(SIZE_LINE));
    }
    if cost(instance, perm) != stated {
        return Err(CertError::CostDiffers(COST_LINE));
    }
    Ok(())
}

/// The line after those of a tree that begins at this line, if it proves that no completion of the node costs less than
/// the bound; and if not, the first bound that fails.
#[cycle(check)]
fn check_tree(
    workspace: &mut Workspace,
    judge: &Judge<'_>,
    rows: &FlowRows<'_>,
    node: &Partial,
    tree: &Tree,
    line: u64,
) -> Result<u64, CertError>
    requires same_size { judge.now.ranked.now.size ≡ node.now.size }
    requires rows { rows.now ≡ record { instance = judge.now.ranked.now; facilities = node.now.facilities } }
    requires shape { HasShape Second node.now.size node.now.facilities (node_of tree.now) }
    ensures { MatchResult result
        (λ next. Valid judge.now.ranked.now judge.now.bound node.now (node_of tree.now) × (next ≡ line_after line (node_count (node_of tree.now))))
        (λ e. (e ≡ OutOfMemory) ⊎ IsTreeFault judge.now.ranked.now judge.now.bound node.now line (node_of tree.now) e) }
{
    match tree {
        Tree::Split { facility, children } => {
            let locations = node.free_locations()?;
            let parent = Parent {
                node,
                facility: *facility,
                locations: &locations,
            };
            let first = line.saturating_add(1);
            check_children(workspace, judge, &parent, children, first)
        }
        Tree::Bound { u, v } => {
            let u = u.numbers().to_vec(judge.alloc)?;
            let v = v.numbers().to_vec(judge.alloc)?;
            check_bound(workspace, rows, judge.bound, node, &u, &v, line)?;
            Ok(line.saturating_add(1))
        }
    }
}

/// Likewise for the children of a split, the first of which begins at this line.
#[cycle(check)]
fn check_children(
    workspace: &mut Workspace,
    judge: &Judge<'_>,
    parent: &Parent<'_>,
    children: &[Tree],
    line: u64,
) -> Result<u64, CertError>
    requires same_size { judge.now.ranked.now.size ≡ parent.now.node.now.size }
    requires facility { IsFreeFacility parent.now.node.now parent.now.facility }
    requires free { (i : ℕ) → i < length parent.now.locations.now → IsFreeLocation parent.now.node.now (slice_index parent.now.locations.now i) }
    requires some { 0 < length parent.now.locations.now }
    requires one_each { length children.now ≡ length parent.now.locations.now }
    requires shape { AllHaveShape Second parent.now.node.now.size (parent.now.node.now.facilities ++ parent.now.facility ∷ []) (nodes_of children.now) }
    ensures { MatchResult result
        (λ next. AllValid judge.now.ranked.now judge.now.bound parent.now.node.now parent.now.facility parent.now.locations.now (nodes_of children.now)
        × (next ≡ line_after line (nodes_count (nodes_of children.now))))
        (λ e. (e ≡ OutOfMemory)
        ⊎ IsTreeFaultAmong judge.now.ranked.now judge.now.bound parent.now.node.now parent.now.facility parent.now.locations.now line (nodes_of children.now) e) }
{
    let rows = child_rows(judge.ranked, parent)?;
    let mut next = line;
    for (i, child) in children.iter().enumerate() {
        let part = parent.node.place(parent.facility, parent.locations[i])?;
        next = check_tree(workspace, judge, &rows, &part, child, next)?;
    }
    Ok(next)
}

/// The rows of the flows for any child of the split.
fn child_rows<'a>(
    ranked: &'a RankedInstance,
    parent: &Parent<'_>,
) -> Result<FlowRows<'a>, AllocError>
    requires same_size { ranked.now.size ≡ parent.now.node.now.size }
    requires facility { IsFreeFacility parent.now.node.now parent.now.facility }
    requires some { 0 < length parent.now.locations.now }
    requires free { (i : ℕ) → i < length parent.now.locations.now → IsFreeLocation parent.now.node.now (slice_index parent.now.locations.now i) }
    ensures { IfOk result (λ r. r ≡ record { instance = ranked.now; facilities = parent.now.node.now.facilities ++ parent.now.facility ∷ [] }) }
{
    let child = parent.node.place(parent.facility, parent.locations[0])?;
    FlowRows::new(ranked, &child)
}

/// Whether the duals fit the Gilmore-Lawler matrix of the node and reach the bound, with the cost of the placed
/// facilities.
pub(crate) fn check_bound(
    workspace: &mut Workspace,
    rows: &FlowRows<'_>,
    bound: i128,
    node: &Partial,
    u: &[i128],
    v: &[i128],
    line: u64,
) -> Result<(), CertError>
    requires same_size { rows.now.instance.size ≡ node.now.size }
    requires facilities { rows.now.facilities ≡ node.now.facilities }
    requires duals { AreDuals (node.now.size - length node.now.facilities) u.now v.now }
    ensures { MatchResult result
        (λ done. ClosesPart rows.now.instance bound node.now u.now v.now)
        (λ e. (e ≡ OutOfMemory) ⊎ IsBoundFault rows.now.instance bound node.now line u.now v.now e) }
{
    let fit = rows.fits(workspace, node, u, v)?;
    if !fit {
        return Err(CertError::NotFeasible(line));
    }
    let reached = node.fixed_cost(rows.instance()) + dual_sum(u, v);
    if reached < bound {
        return Err(CertError::BoundTooLow(line));
    }
    Ok(())
}

/// Likewise for the child of a split at this location, whose node is not built.
pub(crate) fn check_child_bound(
    workspace: &mut Workspace,
    rows: &SplitRows<'_>,
    bound: i128,
    location: u16,
    u: &[i128],
    v: &[i128],
    line: u64,
) -> Result<(), CertError>
    requires location { IsFreeLocation rows.now.node location }
    requires duals { AreDuals (rows.now.node.size - length (rows.now.node.facilities ++ rows.now.facility ∷ [])) u.now v.now }
    ensures { MatchResult result
        (λ done. ClosesPart rows.now.instance bound (placing rows.now.node rows.now.facility location) u.now v.now)
        (λ e. (e ≡ OutOfMemory) ⊎ IsBoundFault rows.now.instance bound (placing rows.now.node rows.now.facility location) line u.now v.now e) }
{
    let fits = rows.fits(workspace, location, u, v)?;
    if !fits {
        return Err(CertError::NotFeasible(line));
    }
    let least = rows.fixed_cost(location) + dual_sum(u, v);
    if least < bound {
        return Err(CertError::BoundTooLow(line));
    }
    Ok(())
}
