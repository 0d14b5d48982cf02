//! Whether a tree has the shape that its root requires.

ghost use Rattle.std.specs.Prelude.{◌≡◌, ◌<◌, ◌≤◌, ◌⊎◌, ◌↔◌, IsTrue, length, true, false, MatchResult};
ghost use Rattle.number_list.specs.NumberList.{numbers_held};
ghost use Rattle.qap_lines.specs.Line.{line_after};
ghost use Rattle.qap_proof.specs.Fault.{IsPairFault, MayBePairFault, IsSplitFault, IsShapeFault, IsShapeFaultAmong};
ghost use Rattle.qap_proof.specs.Memory.{node_of, nodes_of};
ghost use Rattle.qap_proof.specs.NodeLine.{kept_pair_of, may_pair_of, split_of};
ghost use Rattle.gilmore_lawler.specs.Closing.{AreDuals};
ghost use Rattle.qap_proof.specs.Shape.{MayBeDuals, IsSplit, IsPermOf, HasShape, AllHaveShape, free_count};
ghost use Rattle.qap_proof.specs.Tree.{node_count, nodes_count};
ghost use Rattle.qap_proof.specs.declared.error.ProofError.TheVariants.{OutOfMemory, CutWithoutDuals as WithoutDuals, NoEarlierChild as NoEarlier, PermBad as BadPermutation};

use crate::children::{child_node, free_others, has_duals};
use crate::error::ProofError;
use crate::node_line::{SplitLine, judge_number};
use crate::tree::{KeptDuals, Tree};
use qap_cost::{Partial, Perm};
use qap_lines::are_limited;

/// The line after those of a tree that begins at this line, before which its split has this many earlier children, and
/// which has duals or hasn't; or the first fault of the tree's shape.
#[cycle(shape)]
pub(crate) fn judge_tree(
    tree: &Tree,
    node: &Partial,
    earlier: usize,
    has_duals: bool,
    line: u64,
) -> Result<u64, ProofError>
    ensures { MatchResult result
        (λ next. HasShape node.now earlier has_duals (node_of tree.now) × (next ≡ line_after line (node_count (node_of tree.now))))
        (λ e. (e ≡ OutOfMemory) ⊎ IsShapeFault node.now earlier has_duals line (node_of tree.now) e) }
{
    match tree {
        Tree::Closed { duals } => judge_duals(duals, node.size() - node.depth(), line)?,
        Tree::Split { split, children } => {
            judge_split(split, node, children.len(), line)?;
            return judge_children(children, node, split, line.saturating_add(1));
        }
        Tree::Cut => judge_cut(has_duals, line)?,
        Tree::Mirrored {
            earlier: number,
            image,
        } => judge_mirrored(*number, image, earlier, node.size(), line)?,
    }
    Ok(line.saturating_add(1))
}

/// Likewise for the children of a split, the first of which begins at this line.
#[cycle(shape)]
fn judge_children(
    children: &[Tree],
    node: &Partial,
    split: &SplitLine,
    line: u64,
) -> Result<u64, ProofError>
    requires split { IsSplit node.now (split_of split.now) }
    requires one_each { length children.now ≡ free_count node.now }
    ensures { MatchResult result
        (λ next. AllHaveShape node.now (split_of split.now) 0 (nodes_of children.now) × (next ≡ line_after line (nodes_count (nodes_of children.now))))
        (λ e. (e ≡ OutOfMemory) ⊎ IsShapeFaultAmong node.now (split_of split.now) 0 line (nodes_of children.now) e) }
{
    let others = free_others(node, split.side)?;
    let mut next = line;
    for (child, tree) in children.iter().enumerate() {
        let part = child_node(node, split, &others, child)?;
        next = judge_tree(tree, &part, child, has_duals(split), next)?;
    }
    Ok(next)
}

/// Whether a split may be what it is, and have this many children.
fn judge_split(
    split: &SplitLine,
    node: &Partial,
    children: usize,
    line: u64,
) -> Result<(), ProofError>
    ensures { MatchResult result
        (λ done. IsSplit node.now (split_of split.now) × (children ≡ free_count node.now))
        (λ e. IsSplitFault node.now line (split_of split.now) children e) }
{
    judge_number(node, split.side, split.number, line)?;
    let free = node.size() - node.depth();
    judge_split_duals(&split.duals, free, line)?;
    if children != free {
        return Err(ProofError::SplitWidth(line));
    }
    Ok(())
}

/// Whether the duals of a split, if it has any, are such of this many facilities and locations.
fn judge_split_duals(duals: &Option<KeptDuals>, free: usize, line: u64) -> Result<(), ProofError>
    ensures { MatchResult result
        (λ done. MayBeDuals free (may_pair_of duals.now))
        (λ e. MayBePairFault free line (may_pair_of duals.now) e) }
{
    match duals {
        Some(duals) => judge_duals(duals, free, line),
        None => Ok(()),
    }
}

/// Whether there is a dual for each of this many facilities and locations, and all are within -10^24 to 10^24.
fn judge_duals(duals: &KeptDuals, free: usize, line: u64) -> Result<(), ProofError>
    ensures { MatchResult result
        (λ done. AreDuals free (numbers_held duals.now.u) (numbers_held duals.now.v))
        (λ e. IsPairFault free line (kept_pair_of duals.now) e) }
{
    let (u, v) = (duals.u.numbers(), duals.v.numbers());
    if u.len() != free || v.len() != free {
        return Err(ProofError::DualCount(line));
    }
    if !are_limited(&u) || !are_limited(&v) {
        return Err(ProofError::DualRange(line));
    }
    Ok(())
}

/// Whether a child of a split with or without duals may be pruned.
fn judge_cut(has_duals: bool, line: u64) -> Result<(), ProofError>
    ensures { MatchResult result
        (λ done. has_duals ≡ true)
        (λ e. (e ≡ WithoutDuals line) × (has_duals ≡ false)) }
{
    if !has_duals {
        return Err(ProofError::CutWithoutDuals(line));
    }
    Ok(())
}

/// Whether a child may be the symmetric image of the one of this number, with this many earlier ones, under this
/// permutation.
fn judge_mirrored(
    number: u16,
    image: &Perm,
    earlier: usize,
    size: usize,
    line: u64,
) -> Result<(), ProofError>
    ensures { MatchResult result
        (λ done. (number < earlier) × IsPermOf size image.now)
        (λ e. ((e ≡ NoEarlier line) × (earlier ≤ number)) ⊎ ((e ≡ BadPermutation line) × (number < earlier) × (IsPermOf size image.now → ⊥))) }
{
    if usize::from(number) >= earlier {
        return Err(ProofError::NoEarlierChild(line));
    }
    if image.len() != size {
        return Err(ProofError::PermBad(line));
    }
    Ok(())
}
