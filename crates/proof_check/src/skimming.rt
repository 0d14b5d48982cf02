//! Reads a tree for its grammar alone, from the instance's size and the free facilities and locations of each node.

ghost use Rattle.std.specs.Prelude.{◌≡◌, ◌⊎◌, ◌+◌, ◌<◌, ◌≤◌, ◌++◌, ◌∷◌, [], Bool, IfErr, OnOk, length, true, false};
ghost use Rattle.qap_cost.specs.Placement.{IsPlacement};
ghost use Rattle.proof_tree.specs.Shape.{IsImageOf};
ghost use Rattle.proof_tree.specs.Text.{image_text};
ghost use Rattle.proof_tree.specs.Tree.{Image};
ghost use Rattle.proof_check.specs.Completeness.{Any, BeginsChildren, BeginsLined, BeginsOwn, BeginsSplit, BeginsTree, Leaves, LeavesOthers, RefusesImage};
ghost use Rattle.proof_check.specs.Fault.{IsReadFault};
ghost use Rattle.proof_check.specs.Image.{IsSplitOf};
ghost use Rattle.proof_check.specs.Lines.{AreMarks};
ghost use Rattle.proof_check.specs.Walk.{SkimsChildren, SkimsLined, SkimsSplit, SkimsTree};

use crate::cursor::{Cursor, advance};
use crate::image_line::read_image;
use crate::node_line::{NodeLine, SplitLine, read_node_line};
use crate::rows::{read_rows, scale_of};
use crate::split::{SplitOf, begins_image, cell, child_node, open};
use crate::tee::Tee;
use qap_cost::Partial;
use qap_proof::ProofError;
use std::alloc::Global;
use std::io::{BufRead, Write};

/// Reads the tree of a root, whose first line is current.
pub(crate) fn skim_root<R: BufRead, W: Write>(
    alloc: Global,
    reader: &mut Tee<R, W>,
    node: &Partial,
    cursor: &mut Cursor,
) -> Result<(), ProofError>
    requires placement { IsPlacement node.now }
    ensures passed { Leaves (BeginsTree node.now false Any cursor.old.line.items reader.old.left) reader.new.left result }
    ensures skimmed { OnOk result (SkimsTree node.now false cursor.old.line.items reader.old reader.new) }
{
    if cursor.line.starts_with(b"p") {
        skim_own(alloc, reader, node, cursor)
    } else {
        Err(ProofError::BadLine(cursor.number))
    }
}

/// Reads a tree below a node, whose first line is current.
#[cycle(skimming)]
fn skim_below<R: BufRead, W: Write>(
    alloc: Global,
    reader: &mut Tee<R, W>,
    node: &Partial,
    cursor: &mut Cursor,
) -> Result<(), ProofError>
    requires placement { IsPlacement node.now }
    ensures passed { Leaves (BeginsTree node.now true Any cursor.old.line.items reader.old.left) reader.new.left result }
    ensures skimmed { OnOk result (SkimsTree node.now true cursor.old.line.items reader.old reader.new) }
{
    if cursor.line.starts_with(b"p") {
        skim_own(alloc, reader, node, cursor)
    } else {
        skim_lined(alloc, reader, node, cursor)
    }
}

/// Reads a tree that begins with pair duals of its own.
#[cycle(skimming)]
fn skim_own<R: BufRead, W: Write>(
    alloc: Global,
    reader: &mut Tee<R, W>,
    node: &Partial,
    cursor: &mut Cursor,
) -> Result<(), ProofError>
    requires placement { IsPlacement node.now }
    ensures passed { Leaves (BeginsOwn node.now Any cursor.old.line.items reader.old.left) reader.new.left result }
    ensures skimmed { (above : Bool) → OnOk result (SkimsTree node.now above cursor.old.line.items reader.old reader.new) }
{
    let number = cursor.number;
    let Some(_scale) = scale_of(&cursor.line) else {
        return Err(ProofError::BadLine(number));
    };
    let m = node.size() - node.depth();
    let _rows = read_rows(alloc, reader, cursor, m)?;
    advance(reader, cursor)?;
    skim_lined(alloc, reader, node, cursor)
}

/// Reads a tree from the line of its root on, which is current.
#[cycle(skimming)]
pub(crate) fn skim_lined<R: BufRead, W: Write>(
    alloc: Global,
    reader: &mut Tee<R, W>,
    node: &Partial,
    cursor: &mut Cursor,
) -> Result<(), ProofError>
    requires placement { IsPlacement node.now }
    ensures passed { Leaves (BeginsLined node.now Any cursor.old.line.items reader.old.left) reader.new.left result }
    ensures skimmed { OnOk result (SkimsLined node.now cursor.old.line.items reader.old reader.new) }
{
    let number = cursor.number;
    let m = node.size() - node.depth();
    let line = read_node_line(alloc, &cursor.line, number, m, node.size())?;
    match line {
        NodeLine::Leaf(_u) => Ok(()),
        NodeLine::Split(split) => skim_split(alloc, reader, node, &split, cursor),
    }
}

/// Reads the children of a split, whose line is current.
#[cycle(skimming)]
fn skim_split<R: BufRead, W: Write>(
    alloc: Global,
    reader: &mut Tee<R, W>,
    node: &Partial,
    split: &SplitLine,
    cursor: &mut Cursor,
) -> Result<(), ProofError>
    requires placement { IsPlacement node.now }
    requires count { length split.now.marks.items + length node.now.facilities ≡ node.now.size }
    requires marks { AreMarks split.now.marks.items }
    ensures passed { Leaves (BeginsSplit node.now split.now.side split.now.number (λ _. Any) split.now.marks.items reader.old.left) reader.new.left result }
    ensures skimmed { OnOk result (SkimsSplit node.now split.now.side split.now.number split.now.marks.items reader.old reader.new) }
{
    let opened = open(node, split.side, split.number, cursor.number)?;
    let of = SplitOf {
        node,
        facilities: &opened.facilities,
        locations: &opened.locations,
        side: split.side,
        own: opened.own,
    };
    skim_children(alloc, reader, &of, 0, &split.marks, cursor)
}

/// Reads the children of a split from this one on, which have these marks.
#[cycle(skimming)]
pub(crate) fn skim_children<R: BufRead, W: Write>(
    alloc: Global,
    reader: &mut Tee<R, W>,
    split: &SplitOf<'_>,
    first: usize,
    marks: &[u8],
    cursor: &mut Cursor,
) -> Result<(), ProofError>
    requires split { IsSplitOf split.now.node.now split.now.facilities.now split.now.locations.now split.now.side split.now.own }
    requires count { first + length marks.now + length split.now.node.now.facilities ≡ split.now.node.now.size }
    requires marks { AreMarks marks.now }
    ensures passed { Leaves (BeginsChildren split.now.node.now split.now.side split.now.own first Any marks.now reader.old.left) reader.new.left result }
    ensures skimmed { OnOk result (SkimsChildren split.now.node.now split.now.side split.now.own first marks.now reader.old reader.new) }
{
    for place in 0..marks.len() {
        skim_marked(alloc, reader, split, first + place, marks[place], cursor)?;
    }
    Ok(())
}

/// Reads a child, which has this mark.
#[cycle(skimming)]
fn skim_marked<R: BufRead, W: Write>(
    alloc: Global,
    reader: &mut Tee<R, W>,
    split: &SplitOf<'_>,
    child: usize,
    mark: u8,
    cursor: &mut Cursor,
) -> Result<(), ProofError>
    requires split { IsSplitOf split.now.node.now split.now.facilities.now split.now.locations.now split.now.side split.now.own }
    requires child { child + length split.now.node.now.facilities < split.now.node.now.size }
    requires mark { (mark ≡ 46) ⊎ (mark ≡ 43) }
    ensures passed { LeavesOthers split.now.node.now split.now.side split.now.own child mark reader.old.left reader.new.left result }
    ensures skimmed { OnOk result (SkimsChildren split.now.node.now split.now.side split.now.own child (mark ∷ []) reader.old reader.new) }
{
    if mark == b'+' {
        skim_child(alloc, reader, split, child, cursor)
    } else {
        Ok(())
    }
}

/// Reads a child that has a text.
#[cycle(skimming)]
fn skim_child<R: BufRead, W: Write>(
    alloc: Global,
    reader: &mut Tee<R, W>,
    split: &SplitOf<'_>,
    child: usize,
    cursor: &mut Cursor,
) -> Result<(), ProofError>
    requires split { IsSplitOf split.now.node.now split.now.facilities.now split.now.locations.now split.now.side split.now.own }
    requires child { child + length split.now.node.now.facilities < split.now.node.now.size }
    ensures passed { LeavesOthers split.now.node.now split.now.side split.now.own child 43 reader.old.left reader.new.left result }
    ensures skimmed { OnOk result (SkimsChildren split.now.node.now split.now.side split.now.own child (43 ∷ []) reader.old reader.new) }
{
    advance(reader, cursor)?;
    if begins_image(&cursor.line) {
        return skim_image(alloc, &cursor.line, cursor.number, split.node.size(), child);
    }
    let (h, g) = cell(split, child);
    let node = child_node(split, h, g)?;
    skim_below(alloc, reader, &node, cursor)
}

/// Reads the line of an image of one of this many earlier children, where `n` is the size.
fn skim_image(
    alloc: Global,
    line: &[u8],
    number: u64,
    n: usize,
    earlier: usize,
) -> Result<(), ProofError>
    requires size { n ≤ 256 }
    requires few { earlier ≤ 256 }
    ensures stated { OnOk result ((m : Image) × (line.now ++ 10 ∷ [] ≡ image_text m) × IsImageOf n earlier m) }
    ensures refused { IfErr result (RefusesImage n earlier line.now) }
    ensures class { IfErr result IsReadFault }
{
    read_image(alloc, line, number, n, earlier)?;
    Ok(())
}
