//! Reads a tree into memory.

ghost use Rattle.std.specs.Prelude.{◌≡◌, ◌⊎◌, ◌≤◌, MatchResult};
ghost use Rattle.qap_proof.specs.Memory.{node_of, nodes_of};
ghost use Rattle.qap_proof.specs.NodeLine.{split_of};
ghost use Rattle.qap_proof.specs.Shape.{IsSplit, free_count};
ghost use Rattle.qap_proof.specs.TextFault.{IsTreeTextFault};
ghost use Rattle.qap_proof.specs.Tree.{mirrored, split as split_into};
ghost use Rattle.qap_proof.specs.Walk.{BeginsWithTree, BeginsWithTrees, IsFaultBefore};

use crate::children::{child_node, free_others, has_duals};
use crate::error::ProofError;
use crate::node_line::{NodeLine, SplitLine, read_node_line};
use crate::tree::Tree;
use qap_cost::{Partial, Perm};
use std::alloc::Global;

/// A tree that was read, the text after its lines, and the number of the next line.
#[derive(Drop)]
pub(crate) struct TreeRead<'a> {
    pub(crate) tree: Tree,
    pub(crate) rest: &'a [u8],
    pub(crate) next: u64,
}

/// The children of a split that were read, the text after their lines, and the number of the next line.
#[derive(Drop)]
struct ChildrenRead<'a> {
    trees: Vec<Tree>,
    rest: &'a [u8],
    next: u64,
}

/// Reads the tree of a node at the beginning of a text, whose first line has this number, before which its split has
/// this many earlier children, and which has duals or hasn't.
#[cycle(reading)]
pub(crate) fn read_tree<'a>(
    alloc: Global,
    text: &'a [u8],
    node: &Partial,
    earlier: usize,
    has_duals: bool,
    line: u64,
) -> Result<TreeRead<'a>, ProofError>
    requires { earlier ≤ 256 }
    ensures { MatchResult result
        (λ r. BeginsWithTree node.now earlier has_duals line text.now r.rest.now r.next (λ t. t ≡ node_of r.tree))
        (λ e. (e ≡ ProofError.OutOfMemory) ⊎ IsTreeTextFault (free_count node.now) node.now earlier has_duals line text.now e) }
{
    let read = read_node_line(alloc, text, node, earlier, has_duals, line)?;
    let rest = read.rest;
    let next = line.saturating_add(1);
    match read.line {
        NodeLine::Closed(duals) => Ok(TreeRead {
            tree: Tree::Closed {
                duals: duals.kept(),
            },
            rest,
            next,
        }),
        NodeLine::Split(split) => read_split(alloc, rest, node, split, next),
        NodeLine::Cut => Ok(TreeRead {
            tree: Tree::Cut,
            rest,
            next,
        }),
        NodeLine::Mirrored(earlier, image) => Ok(TreeRead {
            tree: mirrored_tree(earlier, image),
            rest,
            next,
        }),
    }
}

/// A child that is the image of an earlier one.
fn mirrored_tree(earlier: u16, image: Perm) -> Tree
    ensures { node_of result ≡ mirrored earlier image }
{
    Tree::Mirrored { earlier, image }
}

/// Reads the children of a split, the first of which is at the beginning of the text and begins at this line.
#[cycle(reading)]
fn read_split<'a>(
    alloc: Global,
    text: &'a [u8],
    node: &Partial,
    split: SplitLine,
    line: u64,
) -> Result<TreeRead<'a>, ProofError>
    requires { IsSplit node.now (split_of split) }
    ensures { MatchResult result
        (λ r. BeginsWithTrees node.now (split_of split) (free_count node.now) line text.now r.rest.now r.next (λ ts. split_into (split_of split) ts ≡ node_of r.tree))
        (λ e. (e ≡ ProofError.OutOfMemory) ⊎ IsFaultBefore node.now (split_of split) line text.now e) }
{
    let read = read_children(alloc, text, node, &split, line)?;
    Ok(TreeRead {
        tree: Tree::Split {
            split,
            children: read.trees,
        },
        rest: read.rest,
        next: read.next,
    })
}

/// The same, where the split is lent.
#[cycle(reading)]
fn read_children<'a>(
    alloc: Global,
    text: &'a [u8],
    node: &Partial,
    split: &SplitLine,
    line: u64,
) -> Result<ChildrenRead<'a>, ProofError>
    requires { IsSplit node.now (split_of split.now) }
    ensures { MatchResult result
        (λ r. BeginsWithTrees node.now (split_of split.now) (free_count node.now) line text.now r.rest.now r.next (λ ts. ts ≡ nodes_of r.trees.items))
        (λ e. (e ≡ ProofError.OutOfMemory) ⊎ IsFaultBefore node.now (split_of split.now) line text.now e) }
{
    let others = free_others(node, split.side)?;
    let count = others.len();
    let mut trees = Vec::with_capacity(alloc, count)?;
    let mut rest = text;
    let mut next = line;
    for child in 0..count {
        let part = child_node(node, split, &others, child)?;
        let read = read_tree(alloc, rest, &part, child, has_duals(split), next)?;
        trees.push(read.tree).map_err(|_| ProofError::OutOfMemory)?;
        rest = read.rest;
        next = read.next;
    }
    Ok(ChildrenRead { trees, rest, next })
}
