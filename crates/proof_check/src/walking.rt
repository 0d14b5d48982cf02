//! Checks a tree as its lines are read, without storing it: it keeps the reduced form of each node above the current
//! line, and the pair duals of those that have their own. After a fault of content, the rest is read for its grammar.

ghost use Rattle.std.specs.Prelude.{◌≡◌, ◌⊎◌, ◌+◌, ◌<◌, ◌∷◌, [], ℕ, ℤ, Option, None, Some, List, length, false, true, IfErr, IfOk, MatchBool, MatchOption, OnOk};
ghost use Rattle.qap_cost.specs.Instance.{Problem};
ghost use Rattle.qap_cost.specs.Placement.{IsPlacement, Placement};
ghost use Rattle.qap_cost.specs.Range.{AllLimited};
ghost use Rattle.pair_duals.specs.PairDuals.{Duals};
ghost use Rattle.pair_duals.specs.Range.{IsInScale};
ghost use Rattle.pair_duals.specs.Reduced.{IsFormOf, IsLine, count_of};
ghost use Rattle.pair_duals.specs.Seats.{child_at};
ghost use Rattle.proof_tree.specs.Tree.{child_on, column_of, row_of};
ghost use Rattle.proof_tree.specs.Valid.{IsClosed, Under, under};
ghost use Rattle.proof_check.specs.Completeness.{Any, BeginsChildren, BeginsLined, BeginsOwn, BeginsSplit, BeginsTree, Finds, HasChildren, HasLined, HasOthers, HasOwn, HasSplit, HasTree, Leaves, LeavesOthers, PassesOthers, RefusesImage};
ghost use Rattle.proof_check.specs.Fault.{IsReadFault};
ghost use Rattle.proof_check.specs.Judge.{IsJudge, IsParent, wide};
ghost use Rattle.proof_check.specs.Lines.{AreMarks};
ghost use Rattle.proof_check.specs.Walk.{JudgesImage, PushesLeaf, SkimsChildren, SkimsLined, SkimsSplit, SkimsTree, WalksChildren, WalksLined, WalksSplit, WalksTree, is_there};

use crate::cursor::{Cursor, advance};
use crate::image_line::{is_image, read_image};
use crate::leaf::{Judge, bound_threshold, check_value, threshold, value_with_minima, zeros};
use crate::listed::listed;
use crate::node_line::{NodeLine, SplitLine, read_node_line};
use crate::rows::{read_rows, scale_of};
use crate::skimming::{skim_children, skim_lined};
use crate::split::{SplitOf, begins_image, cell, child_node, open};
use crate::tee::Tee;
use pair_duals::{PairDuals, Reduced};
use qap_cost::Partial;
use qap_proof::{Leaf, ProofError};
use std::alloc::{AllocError, Global};
use std::io::{BufRead, Write};

/// A split whose children are being checked, with the pair duals in force and the form after its line, and the value to
/// be exceeded; and the number of its line.
#[derive(Clone, Copy)]
pub(crate) struct Parent<'a> {
    pub(crate) split: SplitOf<'a>,
    pub(crate) duals: &'a PairDuals<i128>,
    pub(crate) form: &'a Reduced<i128>,
    pub(crate) threshold: i128,
    pub(crate) line: u64,
}

/// How far a check is: the current line, and the leaves below the cost that were found.
#[derive(Drop)]
pub(crate) struct Walk {
    pub(crate) cursor: Cursor,
    pub(crate) leaves: Vec<Leaf>,
}

/// The first fault of content of the tree of a root, whose first line is current, if it has one.
pub(crate) fn walk_root<R: BufRead, W: Write>(
    reader: &mut Tee<R, W>,
    judge: &Judge<'_>,
    node: &Partial,
    walk: &mut Walk,
) -> Result<Option<ProofError>, ProofError>
    requires size { judge.now.instance.now.size ≡ node.now.size }
    requires placement { IsPlacement node.now }
    requires judge { IsJudge judge.now.step judge.now.bound judge.now.below judge.now.cost judge.now.enough }
    ensures passed { Leaves (BeginsTree node.now false Any walk.old.cursor.line.items reader.old.left) reader.new.left result }
    ensures walked { IfOk result (λ fault. MatchOption fault
        (WalksTree judge.now.instance.now judge.now.step judge.now.bound judge.now.cost node.now None walk.old.cursor.line.items reader.old reader.new walk.old.leaves.items walk.new.leaves.items)
        (Finds (SkimsTree node.now false walk.old.cursor.line.items reader.old reader.new) (HasTree judge.now.instance.now judge.now.step judge.now.bound node.now None walk.old.cursor.line.items reader.old.left))) }
{
    if walk.cursor.line.starts_with(b"p") {
        walk_own(reader, judge, node, walk)
    } else {
        Err(ProofError::BadLine(walk.cursor.number))
    }
}

/// Likewise for a tree below a node, whose first line is current.
#[cycle(walking)]
fn walk_below<R: BufRead, W: Write>(
    reader: &mut Tee<R, W>,
    judge: &Judge<'_>,
    node: &Partial,
    duals: &PairDuals<i128>,
    form: &mut Reduced<i128>,
    walk: &mut Walk,
) -> Result<Option<ProofError>, ProofError>
    requires size { judge.now.instance.now.size ≡ node.now.size }
    requires placement { IsPlacement node.now }
    requires judge { IsJudge judge.now.step judge.now.bound judge.now.below judge.now.cost judge.now.enough }
    requires duals_size { duals.now.size ≡ node.now.size }
    requires in_scale { IsInScale wide judge.now.instance.now duals.now.scale }
    requires form { IsFormOf judge.now.instance.now duals.now node.now form.old }
    requires fresh { form.old.is_lined ≡ false }
    ensures passed { Leaves (BeginsTree node.now true Any walk.old.cursor.line.items reader.old.left) reader.new.left result }
    ensures walked { IfOk result (λ fault. MatchOption fault
        (WalksTree judge.now.instance.now judge.now.step judge.now.bound judge.now.cost node.now (Some (under duals.now form.old)) walk.old.cursor.line.items reader.old reader.new walk.old.leaves.items walk.new.leaves.items)
        (Finds (SkimsTree node.now true walk.old.cursor.line.items reader.old reader.new) (HasTree judge.now.instance.now judge.now.step judge.now.bound node.now (Some (under duals.now form.old)) walk.old.cursor.line.items reader.old.left))) }
{
    if walk.cursor.line.starts_with(b"p") {
        walk_own(reader, judge, node, walk)
    } else {
        walk_lined(reader, judge, node, duals, form, walk)
    }
}

/// Likewise for a tree that begins with pair duals of its own.
#[cycle(walking)]
fn walk_own<R: BufRead, W: Write>(
    reader: &mut Tee<R, W>,
    judge: &Judge<'_>,
    node: &Partial,
    walk: &mut Walk,
) -> Result<Option<ProofError>, ProofError>
    requires size { judge.now.instance.now.size ≡ node.now.size }
    requires placement { IsPlacement node.now }
    requires judge { IsJudge judge.now.step judge.now.bound judge.now.below judge.now.cost judge.now.enough }
    ensures passed { Leaves (BeginsOwn node.now Any walk.old.cursor.line.items reader.old.left) reader.new.left result }
    ensures walked { (above : Option Under) → IfOk result (λ fault. MatchOption fault
        (WalksTree judge.now.instance.now judge.now.step judge.now.bound judge.now.cost node.now above walk.old.cursor.line.items reader.old reader.new walk.old.leaves.items walk.new.leaves.items)
        (Finds (SkimsTree node.now (is_there above) walk.old.cursor.line.items reader.old reader.new) (HasOwn judge.now.instance.now judge.now.step judge.now.bound node.now above walk.old.cursor.line.items reader.old.left))) }
{
    let number = walk.cursor.number;
    let Some(scale) = scale_of(&walk.cursor.line) else {
        return Err(ProofError::BadLine(number));
    };
    let m = node.size() - node.depth();
    let rows = read_rows(judge.alloc, reader, &mut walk.cursor, m)?;
    advance(reader, &mut walk.cursor)?;
    let Some(duals) = listed(judge.alloc, judge.instance, node, scale, &rows)? else {
        skim_lined(judge.alloc, reader, node, &mut walk.cursor)?;
        return Ok(Some(ProofError::NotFeasible(number)));
    };
    let mut form = Reduced::empty(judge.alloc);
    form.start(judge.instance, node, &duals)?;
    walk_lined(reader, judge, node, &duals, &mut form, walk)
}

/// Likewise for a tree from the line of its root on, which is current, by the pair duals in force at its root, and the
/// form there.
#[cycle(walking)]
fn walk_lined<R: BufRead, W: Write>(
    reader: &mut Tee<R, W>,
    judge: &Judge<'_>,
    node: &Partial,
    duals: &PairDuals<i128>,
    form: &mut Reduced<i128>,
    walk: &mut Walk,
) -> Result<Option<ProofError>, ProofError>
    requires size { judge.now.instance.now.size ≡ node.now.size }
    requires placement { IsPlacement node.now }
    requires judge { IsJudge judge.now.step judge.now.bound judge.now.below judge.now.cost judge.now.enough }
    requires duals_size { duals.now.size ≡ node.now.size }
    requires in_scale { IsInScale wide judge.now.instance.now duals.now.scale }
    requires form { IsFormOf judge.now.instance.now duals.now node.now form.old }
    requires fresh { form.old.is_lined ≡ false }
    ensures passed { Leaves (BeginsLined node.now Any walk.old.cursor.line.items reader.old.left) reader.new.left result }
    ensures walked { IfOk result (λ fault. MatchOption fault
        (WalksLined judge.now.instance.now judge.now.step judge.now.bound judge.now.cost node.now (under duals.now form.old) walk.old.cursor.line.items reader.old reader.new walk.old.leaves.items walk.new.leaves.items)
        (Finds (SkimsLined node.now walk.old.cursor.line.items reader.old reader.new) (HasLined judge.now.instance.now judge.now.step judge.now.bound node.now (under duals.now form.old) walk.old.cursor.line.items reader.old.left))) }
{
    let number = walk.cursor.number;
    let m = form.free();
    let line = read_node_line(judge.alloc, &walk.cursor.line, number, m, node.size())?;
    match line {
        NodeLine::Leaf(u) => {
            draw(judge.alloc, form, &u)?;
            let reached = check_value(judge, duals, form.value(), node, &mut walk.leaves)?;
            if reached {
                Ok(None)
            } else {
                Ok(Some(ProofError::BoundTooLow(number)))
            }
        }
        NodeLine::Split(split) => {
            draw(judge.alloc, form, &split.u)?;
            walk_split(reader, judge, node, duals, form, &split, walk)
        }
    }
}

/// Likewise for the children of a split, whose line is current and has been drawn.
#[cycle(walking)]
fn walk_split<'a, R: BufRead, W: Write>(
    reader: &mut Tee<R, W>,
    judge: &Judge<'_>,
    node: &'a Partial,
    duals: &'a PairDuals<i128>,
    form: &'a Reduced<i128>,
    split: &SplitLine,
    walk: &mut Walk,
) -> Result<Option<ProofError>, ProofError>
    requires size { judge.now.instance.now.size ≡ node.now.size }
    requires placement { IsPlacement node.now }
    requires judge { IsJudge judge.now.step judge.now.bound judge.now.below judge.now.cost judge.now.enough }
    requires duals_size { duals.now.size ≡ node.now.size }
    requires in_scale { IsInScale wide judge.now.instance.now duals.now.scale }
    requires form { IsFormOf judge.now.instance.now duals.now node.now form.now }
    requires count { length split.now.marks.items + length node.now.facilities ≡ node.now.size }
    requires marks { AreMarks split.now.marks.items }
    ensures passed { Leaves (BeginsSplit node.now split.now.side split.now.number (λ _. Any) split.now.marks.items reader.old.left) reader.new.left result }
    ensures walked { IfOk result (λ fault. MatchOption fault
        (WalksSplit judge.now.instance.now judge.now.step judge.now.bound judge.now.cost node.now (under duals.now form.now) split.now.side split.now.number split.now.marks.items reader.old reader.new walk.old.leaves.items walk.new.leaves.items)
        (Finds (SkimsSplit node.now split.now.side split.now.number split.now.marks.items reader.old reader.new) (HasSplit judge.now.instance.now judge.now.step judge.now.bound node.now (under duals.now form.now) split.now.side split.now.number split.now.marks.items reader.old.left))) }
{
    let opened = open(node, split.side, split.number, walk.cursor.number)?;
    let parent = Parent {
        split: SplitOf {
            node,
            facilities: &opened.facilities,
            locations: &opened.locations,
            side: split.side,
            own: opened.own,
        },
        duals,
        form,
        threshold: bound_threshold(judge, duals),
        line: walk.cursor.number,
    };
    walk_children(reader, judge, &parent, &split.marks, walk)
}

/// Likewise for the children of a split, which have these marks.
#[cycle(walking)]
fn walk_children<R: BufRead, W: Write>(
    reader: &mut Tee<R, W>,
    judge: &Judge<'_>,
    parent: &Parent<'_>,
    marks: &[u8],
    walk: &mut Walk,
) -> Result<Option<ProofError>, ProofError>
    requires judge { IsJudge judge.now.step judge.now.bound judge.now.below judge.now.cost judge.now.enough }
    requires parent { IsParent judge.now.instance.now judge.now.below parent.now.split.node.now (under parent.now.duals.now parent.now.form.now) parent.now.split.facilities.now parent.now.split.locations.now parent.now.split.side parent.now.split.own parent.now.threshold }
    requires count { length marks.now + length parent.now.split.node.now.facilities ≡ parent.now.split.node.now.size }
    requires marks { AreMarks marks.now }
    ensures passed { Leaves (BeginsChildren parent.now.split.node.now parent.now.split.side parent.now.split.own 0 Any marks.now reader.old.left) reader.new.left result }
    ensures walked { IfOk result (λ fault. MatchOption fault
        (WalksChildren judge.now.instance.now judge.now.step judge.now.bound judge.now.cost parent.now.split.node.now (under parent.now.duals.now parent.now.form.now) parent.now.split.side parent.now.split.own 0 marks.now reader.old reader.new walk.old.leaves.items walk.new.leaves.items)
        (Finds (SkimsChildren parent.now.split.node.now parent.now.split.side parent.now.split.own 0 marks.now reader.old reader.new) (HasChildren judge.now.instance.now judge.now.step judge.now.bound parent.now.split.node.now (under parent.now.duals.now parent.now.form.now) parent.now.split.side parent.now.split.own 0 marks.now reader.old.left))) }
{
    let mut below = Reduced::empty(judge.alloc);
    for child in 0..marks.len() {
        let judged = walk_marked(reader, judge, parent, child, marks[child], &mut below, walk)?;
        if let Some(fault) = judged {
            let others = &marks[child + 1..];
            skim_children(
                judge.alloc,
                reader,
                &parent.split,
                child + 1,
                others,
                &mut walk.cursor,
            )?;
            return Ok(Some(fault));
        }
    }
    Ok(None)
}

/// Likewise for a child, which has this mark.
#[cycle(walking)]
fn walk_marked<R: BufRead, W: Write>(
    reader: &mut Tee<R, W>,
    judge: &Judge<'_>,
    parent: &Parent<'_>,
    child: usize,
    mark: u8,
    below: &mut Reduced<i128>,
    walk: &mut Walk,
) -> Result<Option<ProofError>, ProofError>
    requires judge { IsJudge judge.now.step judge.now.bound judge.now.below judge.now.cost judge.now.enough }
    requires parent { IsParent judge.now.instance.now judge.now.below parent.now.split.node.now (under parent.now.duals.now parent.now.form.now) parent.now.split.facilities.now parent.now.split.locations.now parent.now.split.side parent.now.split.own parent.now.threshold }
    requires child { child + length parent.now.split.node.now.facilities < parent.now.split.node.now.size }
    requires mark { (mark ≡ 46) ⊎ (mark ≡ 43) }
    ensures passed { LeavesOthers parent.now.split.node.now parent.now.split.side parent.now.split.own child mark reader.old.left reader.new.left result }
    ensures walked { IfOk result (λ fault. MatchOption fault
        (WalksChildren judge.now.instance.now judge.now.step judge.now.bound judge.now.cost parent.now.split.node.now (under parent.now.duals.now parent.now.form.now) parent.now.split.side parent.now.split.own child (mark ∷ []) reader.old reader.new walk.old.leaves.items walk.new.leaves.items
        × PassesOthers judge.now.instance.now judge.now.step judge.now.bound parent.now.split.node.now (under parent.now.duals.now parent.now.form.now) parent.now.split.side parent.now.split.own child mark reader.old.left reader.new.left)
        (Finds (SkimsChildren parent.now.split.node.now parent.now.split.side parent.now.split.own child (mark ∷ []) reader.old reader.new) (HasOthers judge.now.instance.now judge.now.step judge.now.bound parent.now.split.node.now (under parent.now.duals.now parent.now.form.now) parent.now.split.side parent.now.split.own child mark reader.old.left))) }
{
    if mark == b'+' {
        return walk_child(reader, judge, parent, child, below, walk);
    }
    let closed = check_closed(judge, parent, child, below, &mut walk.leaves)?;
    if closed {
        Ok(None)
    } else {
        Ok(Some(ProofError::CutTooLow(parent.line)))
    }
}

/// Likewise for a child that has a text.
#[cycle(walking)]
fn walk_child<R: BufRead, W: Write>(
    reader: &mut Tee<R, W>,
    judge: &Judge<'_>,
    parent: &Parent<'_>,
    child: usize,
    below: &mut Reduced<i128>,
    walk: &mut Walk,
) -> Result<Option<ProofError>, ProofError>
    requires judge { IsJudge judge.now.step judge.now.bound judge.now.below judge.now.cost judge.now.enough }
    requires parent { IsParent judge.now.instance.now judge.now.below parent.now.split.node.now (under parent.now.duals.now parent.now.form.now) parent.now.split.facilities.now parent.now.split.locations.now parent.now.split.side parent.now.split.own parent.now.threshold }
    requires child { child + length parent.now.split.node.now.facilities < parent.now.split.node.now.size }
    ensures passed { LeavesOthers parent.now.split.node.now parent.now.split.side parent.now.split.own child 43 reader.old.left reader.new.left result }
    ensures walked { IfOk result (λ fault. MatchOption fault
        (WalksChildren judge.now.instance.now judge.now.step judge.now.bound judge.now.cost parent.now.split.node.now (under parent.now.duals.now parent.now.form.now) parent.now.split.side parent.now.split.own child (43 ∷ []) reader.old reader.new walk.old.leaves.items walk.new.leaves.items
        × PassesOthers judge.now.instance.now judge.now.step judge.now.bound parent.now.split.node.now (under parent.now.duals.now parent.now.form.now) parent.now.split.side parent.now.split.own child 43 reader.old.left reader.new.left)
        (Finds (SkimsChildren parent.now.split.node.now parent.now.split.side parent.now.split.own child (43 ∷ []) reader.old reader.new) (HasOthers judge.now.instance.now judge.now.step judge.now.bound parent.now.split.node.now (under parent.now.duals.now parent.now.form.now) parent.now.split.side parent.now.split.own child 43 reader.old.left))) }
{
    advance(reader, &mut walk.cursor)?;
    if begins_image(&walk.cursor.line) {
        return image_fault(judge, parent, child, &walk.cursor);
    }
    let (h, g) = cell(&parent.split, child);
    let node = child_node(&parent.split, h, g)?;
    parent
        .form
        .child(judge.instance, parent.duals, h, g, below)?;
    walk_below(reader, judge, &node, parent.duals, below, walk)
}

/// The fault of content of a line that begins as one of an image, if it has one.
fn image_fault(
    judge: &Judge<'_>,
    parent: &Parent<'_>,
    child: usize,
    cursor: &Cursor,
) -> Result<Option<ProofError>, ProofError>
    requires judge { IsJudge judge.now.step judge.now.bound judge.now.below judge.now.cost judge.now.enough }
    requires parent { IsParent judge.now.instance.now judge.now.below parent.now.split.node.now (under parent.now.duals.now parent.now.form.now) parent.now.split.facilities.now parent.now.split.locations.now parent.now.split.side parent.now.split.own parent.now.threshold }
    requires child { child + length parent.now.split.node.now.facilities < parent.now.split.node.now.size }
    ensures judged { IfOk result (λ fault. JudgesImage judge.now.instance.now parent.now.split.node.now parent.now.split.side parent.now.split.own child cursor.now.line.items fault) }
    ensures refused { IfErr result (RefusesImage parent.now.split.node.now.size child cursor.now.line.items) }
    ensures class { IfErr result IsReadFault }
{
    let number = cursor.number;
    let split = &parent.split;
    let image = read_image(judge.alloc, &cursor.line, number, split.node.size(), child)?;
    if is_image(judge.instance, split, child, &image) {
        Ok(None)
    } else {
        Ok(Some(ProofError::NotAnImage(number)))
    }
}

/// Whether a child reaches the bound without a text; it is listed if it does not reach the cost.
fn check_closed(
    judge: &Judge<'_>,
    parent: &Parent<'_>,
    child: usize,
    below: &mut Reduced<i128>,
    leaves: &mut Vec<Leaf>,
) -> Result<bool, AllocError>
    requires judge { IsJudge judge.now.step judge.now.bound judge.now.below judge.now.cost judge.now.enough }
    requires parent { IsParent judge.now.instance.now judge.now.below parent.now.split.node.now (under parent.now.duals.now parent.now.form.now) parent.now.split.facilities.now parent.now.split.locations.now parent.now.split.side parent.now.split.own parent.now.threshold }
    requires child { child + length parent.now.split.node.now.facilities < parent.now.split.node.now.size }
    ensures { IfOk result (λ closed. MatchBool closed
        (PushesLeaf (λ g. IsClosed judge.now.instance.now judge.now.step g (under parent.now.duals.now parent.now.form.now) (row_of parent.now.split.side parent.now.split.own child) (column_of parent.now.split.side parent.now.split.own child)) judge.now.bound judge.now.cost (child_on parent.now.split.side parent.now.split.node.now parent.now.split.own child) leaves.old.items leaves.new.items)
        (IsClosed judge.now.instance.now judge.now.step judge.now.bound (under parent.now.duals.now parent.now.form.now) (row_of parent.now.split.side parent.now.split.own child) (column_of parent.now.split.side parent.now.split.own child) → ⊥)) }
{
    let (h, g) = cell(&parent.split, child);
    check_cell(judge, parent, h, g, below, leaves)
}

/// The same for the child that puts row `h` at column `g`.
fn check_cell(
    judge: &Judge<'_>,
    parent: &Parent<'_>,
    h: usize,
    g: usize,
    below: &mut Reduced<i128>,
    leaves: &mut Vec<Leaf>,
) -> Result<bool, AllocError>
    requires judge { IsJudge judge.now.step judge.now.bound judge.now.below judge.now.cost judge.now.enough }
    requires parent { IsParent judge.now.instance.now judge.now.below parent.now.split.node.now (under parent.now.duals.now parent.now.form.now) parent.now.split.facilities.now parent.now.split.locations.now parent.now.split.side parent.now.split.own parent.now.threshold }
    requires row { h < count_of parent.now.form.now }
    requires column { g < count_of parent.now.form.now }
    ensures { IfOk result (λ closed. MatchBool closed
        (PushesLeaf (λ b. IsClosed judge.now.instance.now judge.now.step b (under parent.now.duals.now parent.now.form.now) h g) judge.now.bound judge.now.cost (child_at parent.now.split.node.now h g) leaves.old.items leaves.new.items)
        (IsClosed judge.now.instance.now judge.now.step judge.now.bound (under parent.now.duals.now parent.now.form.now) h g → ⊥)) }
{
    let enough = threshold(judge.enough, parent.duals);
    if parent.form.prunes(h, g, enough) {
        return Ok(true);
    }
    parent
        .form
        .child(judge.instance, parent.duals, h, g, below)?;
    let value = value_with_minima(judge.alloc, below)?;
    if value > enough {
        return Ok(true);
    }
    let node = child_node(&parent.split, h, g)?;
    check_value(judge, parent.duals, value, &node, leaves)
}

/// Draws a line.
fn draw(alloc: Global, form: &mut Reduced<i128>, u: &[i128]) -> Result<(), AllocError>
    requires first { form.old.is_lined ≡ false }
    requires rows { length u.now ≡ count_of form.old }
    requires range { AllLimited u.now }
    ensures line { OnOk result ((v : List ℤ) × IsLine form.old form.new u.now v) }
    ensures form { OnOk result ((I : Problem) (D : Duals) (y : Placement) → IsPlacement y → IsFormOf I D y form.old → IsFormOf I D y form.new) }
{
    let mut v = zeros(alloc, form.free())?;
    form.line(u, &mut v);
    Ok(())
}
