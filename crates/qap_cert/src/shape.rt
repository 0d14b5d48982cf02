//! Whether a tree has the shape that its size requires.

ghost use Rattle.std.specs.Prelude.{◌≡◌, ◌-◌, ◌<◌, ◌≤◌, ◌↔◌, IsTrue, length, MatchResult};
ghost use Rattle.number_list.specs.Numbers.{numbers_in};
ghost use Rattle.qap_cost.specs.Placement.{IsFree};
ghost use Rattle.qap_cert.specs.Fault.{IsDualFault, IsFacilityFault, IsSplitFault, IsShapeFault, IsShapeFaultAmong};
ghost use Rattle.qap_lines.specs.Line.{line_after};
ghost use Rattle.gilmore_lawler.specs.Closing.{AreDuals};
ghost use Rattle.qap_cert.specs.Shape.{HasShape, AllHaveShape};
ghost use Rattle.qap_cert.specs.Tree.{node_of, nodes_of, node_count, nodes_count};
ghost use Rattle.qap_cert.specs.declared.version.Version.TheVariants.{Second};

use crate::CertError;
use crate::placed::Placed;
use crate::tree::Tree;
use number_list::Numbers;
use qap_lines::are_limited;

/// The line after those of a tree that begins at this line, in which these of `size` facilities are placed; or what is
/// wrong with its shape.
#[cycle(shape)]
pub(crate) fn judge_tree(
    tree: &Tree,
    size: usize,
    placed: &Placed,
    line: u64,
) -> Result<u64, CertError>
    requires small { size ≤ 256 }
    requires depth { length placed.now ≤ size }
    ensures { MatchResult result
        (λ next. HasShape Second size placed.now (node_of tree.now) × (next ≡ line_after line (node_count (node_of tree.now))))
        (λ e. IsShapeFault size placed.now line (node_of tree.now) e) }
{
    match tree {
        Tree::Split { facility, children } => {
            judge_split(*facility, children.len(), size, placed, line)?;
            let inner = placed.with(*facility);
            judge_trees(children, size, &inner, line.saturating_add(1))
        }
        Tree::Bound { u, v } => {
            judge_duals(&u.numbers(), &v.numbers(), size - placed.count(), line)?;
            Ok(line.saturating_add(1))
        }
    }
}

/// Likewise for trees in sequence.
#[cycle(shape)]
fn judge_trees(trees: &[Tree], size: usize, placed: &Placed, line: u64) -> Result<u64, CertError>
    requires small { size ≤ 256 }
    requires depth { length placed.now ≤ size }
    ensures { MatchResult result
        (λ next. AllHaveShape Second size placed.now (nodes_of trees.now) × (next ≡ line_after line (nodes_count (nodes_of trees.now))))
        (λ e. IsShapeFaultAmong size placed.now line (nodes_of trees.now) e) }
{
    let mut next = line;
    for tree in trees {
        next = judge_tree(tree, size, placed, next)?;
    }
    Ok(next)
}

/// Whether a split may be on this facility and have this many children.
fn judge_split(
    facility: u16,
    children: usize,
    size: usize,
    placed: &Placed,
    line: u64,
) -> Result<(), CertError>
    requires { length placed.now ≤ size }
    ensures { MatchResult result
        (λ done. (length placed.now < size) × IsFree size placed.now facility × (children ≡ size - length placed.now))
        (λ e. IsSplitFault size placed.now line facility children e) }
{
    judge_facility(facility, size, placed, line)?;
    if children != size - placed.count() {
        return Err(CertError::SplitWidth(line));
    }
    Ok(())
}

/// Whether a split may be on this facility.
pub(crate) fn judge_facility(
    facility: u16,
    size: usize,
    placed: &Placed,
    line: u64,
) -> Result<(), CertError>
    ensures { MatchResult result
        (λ done. (length placed.now < size) × IsFree size placed.now facility)
        (λ e. IsFacilityFault size placed.now line facility e) }
{
    if placed.count() >= size {
        return Err(CertError::SplitTooDeep(line));
    }
    if !is_free(facility, size, placed) {
        return Err(CertError::FacilityTaken(line));
    }
    Ok(())
}

/// Whether the facility is one of `size`, and not among those placed.
fn is_free(facility: u16, size: usize, placed: &Placed) -> bool
    ensures { IsTrue result ↔ IsFree size placed.now facility }
{
    usize::from(facility) < size && !placed.has(facility)
}

/// Whether there is a dual for each of `free` facilities and locations, and all are within -10^24 to 10^24.
fn judge_duals(u: &Numbers<'_>, v: &Numbers<'_>, free: usize, line: u64) -> Result<(), CertError>
    ensures { MatchResult result
        (λ done. AreDuals free (numbers_in u.now) (numbers_in v.now))
        (λ e. IsDualFault free line (numbers_in u.now) (numbers_in v.now) e) }
{
    if u.len() != free || v.len() != free {
        return Err(CertError::DualCount(line));
    }
    if !are_limited(u) || !are_limited(v) {
        return Err(CertError::DualRange(line));
    }
    Ok(())
}
