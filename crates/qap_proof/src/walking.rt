//! Checks a tree as its lines are read, without storing it.

ghost use Rattle.std.specs.Prelude.{◌≡◌, ◌⊎◌, ◌-◌, ◌<◌, ◌≤◌, ◌↔◌, IsTrue, length, IfOk, MatchResult, None, true, false};
ghost use Rattle.qap_cost.specs.Placement.{IsPlacement};
ghost use Rattle.qap_lines.specs.Line.{line_after};
ghost use Rattle.qap_proof.specs.Cell.{others_on};
ghost use Rattle.qap_proof.specs.NodeLine.{pair_of, split_of};
ghost use Rattle.gilmore_lawler.specs.Closing.{AreDuals};
ghost use Rattle.qap_proof.specs.Shape.{IsPermOf, IsSplit, free_count, has_duals as has};
ghost use Rattle.qap_proof.specs.TextFault.{IsTreeTextFault};
ghost use Rattle.qap_proof.specs.Tree.{IsFreeOn, child as child_place, child_of, cut, mirrored, whole};
ghost use Rattle.qap_proof.specs.Valid.{TakesOn};
ghost use Rattle.qap_proof.specs.Walk.{AreReached, BeginsWithTree, BeginsWithTrees, IsFaultBefore, IsToldOf, IsToldOfAll, IsToldOfClosed, IsToldOfDuals, IsToldOfSplit};

use crate::children::{child_node, free_others, has_duals};
use crate::error::ProofError;
use crate::image::{takes_facility, takes_location};
use crate::judging::closed_fault;
use crate::node_line::{NodeLine, SplitLine, read_node_line};
use crate::reached::child_values;
use crate::side::Side;
use crate::tree::Duals;
use gilmore_lawler::{NodeRows, fits};
use qap_cost::{Instance, Partial, Perm};
use std::alloc::{AllocError, Global};

/// The parameters of a tree's check: the instance, and the bound that it should prove, in the units of the costs; and
/// where the memory for that comes from.
#[derive(Clone, Copy)]
pub(crate) struct Judge<'a> {
    pub(crate) alloc: Global,
    pub(crate) instance: &'a Instance,
    pub(crate) bound: i128,
}

/// A split whose children are being checked: its node, its content, the free ones for which it has children, and the
/// values of its duals, if it has any, for each.
#[derive(Clone, Copy)]
pub(crate) struct Parent<'a> {
    pub(crate) node: &'a Partial,
    pub(crate) split: &'a SplitLine,
    pub(crate) others: &'a [u16],
    pub(crate) values: &'a [i128],
}

/// The text after lines that were walked along, the number of its first line, and the first semantic fault.
#[derive(Clone, Copy)]
pub(crate) struct Walked<'a> {
    pub(crate) rest: &'a [u8],
    pub(crate) next: u64,
    pub(crate) fault: Option<ProofError>,
}

/// The result of checking a split's duals: their value for each child, and the first semantic fault of the lines up to
/// the split's.
#[derive(Drop)]
pub(crate) struct JudgedSplit {
    pub(crate) values: Vec<i128>,
    pub(crate) fault: Option<ProofError>,
}

/// Checks the tree at the beginning of a text, whose first line has this number, for a root. Where a fault was reported
/// before, and after the first semantic fault, only their syntax is checked.
pub(crate) fn walk_root<'a>(
    rows: &mut NodeRows<'_>,
    judge: &Judge<'_>,
    node: &Partial,
    text: &'a [u8],
    line: u64,
    told: Option<ProofError>,
) -> Result<Walked<'a>, ProofError>
    requires size { told ≡ None → judge.now.instance.now.size ≡ node.now.size }
    requires rows { rows.old ≡ judge.now.instance.now }
    ensures { MatchResult result
        (λ w. BeginsWithTree node.now 0 false line text.now w.rest.now w.next (IsToldOf judge.now.instance.now judge.now.bound (whole node.now) line told w.fault))
        (λ e. (e ≡ ProofError.OutOfMemory) ⊎ IsTreeTextFault (free_count node.now) node.now 0 false line text.now e) }
{
    let read = read_node_line(judge.alloc, text, node, 0, false, line)?;
    let rest = read.rest;
    let next = line.saturating_add(1);
    match read.line {
        NodeLine::Closed(duals) => {
            let fault = judge_closed(rows, judge, node, &duals, line, told)?;
            Ok(Walked { rest, next, fault })
        }
        NodeLine::Split(split) => { walk_split(rows, judge, node, &split, rest, line, told) }
        NodeLine::Cut => unreachable!(),
        NodeLine::Mirrored(_, _) => unreachable!(),
    }
}

/// Likewise for the child of this number of a split, after the lines that were walked along.
#[cycle(walking)]
fn walk_child<'a>(
    rows: &mut NodeRows<'_>,
    judge: &Judge<'_>,
    parent: &Parent<'_>,
    child: usize,
    node: &Partial,
    walked: Walked<'a>,
) -> Result<Walked<'a>, ProofError>
    requires size { walked.fault ≡ None → judge.now.instance.now.size ≡ parent.now.node.now.size }
    requires split { IsSplit parent.now.node.now (split_of parent.now.split.now) }
    requires placement { IsPlacement parent.now.node.now }
    requires others { parent.now.others.now ≡ others_on parent.now.split.now.side parent.now.node.now }
    requires reached { walked.fault ≡ None → AreReached judge.now.instance.now parent.now.node.now (split_of parent.now.split.now) parent.now.values.now }
    requires inside { child < length parent.now.others.now }
    requires node { node.now ≡ child_of parent.now.node.now (split_of parent.now.split.now) child }
    requires rows { rows.old ≡ judge.now.instance.now }
    ensures judged { MatchResult result
        (λ w. BeginsWithTree node.now child (has (split_of parent.now.split.now).duals) walked.entry.next walked.entry.rest.now w.rest.now w.next
        (IsToldOf judge.now.instance.now judge.now.bound (child_place parent.now.node.now (split_of parent.now.split.now) child) walked.entry.next walked.entry.fault w.fault))
        (λ e. (e ≡ ProofError.OutOfMemory) ⊎ IsTreeTextFault (free_count node.now) node.now child (has (split_of parent.now.split.now).duals) walked.entry.next walked.entry.rest.now e) }
    ensures same { rows.new ≡ rows.old }
{
    let line = walked.next;
    let told = walked.fault;
    let with_duals = has_duals(parent.split);
    let read = read_node_line(judge.alloc, walked.rest, node, child, with_duals, line)?;
    let rest = read.rest;
    let next = line.saturating_add(1);
    match read.line {
        NodeLine::Closed(duals) => {
            let fault = judge_closed(rows, judge, node, &duals, line, told)?;
            Ok(Walked { rest, next, fault })
        }
        NodeLine::Split(split) => { walk_split(rows, judge, node, &split, rest, line, told) }
        NodeLine::Cut => {
            let fault = judge_cut(judge, parent, child, line, told);
            Ok(Walked { rest, next, fault })
        }
        NodeLine::Mirrored(earlier, image) => {
            let fault = judge_mirrored(judge, parent, child, earlier, &image, line, told);
            Ok(Walked { rest, next, fault })
        }
    }
}

/// Checks a split, whose line has this number, and its children, the first of which is at the beginning of the text.
#[cycle(walking)]
fn walk_split<'a>(
    rows: &mut NodeRows<'_>,
    judge: &Judge<'_>,
    node: &Partial,
    split: &SplitLine,
    text: &'a [u8],
    line: u64,
    told: Option<ProofError>,
) -> Result<Walked<'a>, ProofError>
    requires size { told ≡ None → judge.now.instance.now.size ≡ node.now.size }
    requires split { IsSplit node.now (split_of split.now) }
    requires rows { rows.old ≡ judge.now.instance.now }
    ensures judged { MatchResult result
        (λ w. BeginsWithTrees node.now (split_of split.now) (free_count node.now) (line_after line 1) text.now w.rest.now w.next
        (IsToldOfSplit judge.now.instance.now judge.now.bound node.now (split_of split.now) line told w.fault))
        (λ e. (e ≡ ProofError.OutOfMemory) ⊎ IsFaultBefore node.now (split_of split.now) (line_after line 1) text.now e) }
    ensures same { rows.new ≡ rows.old }
{
    let judged = judge_split(rows, judge, node, split, line, told)?;
    let others = free_others(node, split.side)?;
    let parent = Parent {
        node,
        split,
        others: &others,
        values: &judged.values,
    };
    let next = line.saturating_add(1);
    walk_children(rows, judge, &parent, text, next, judged.fault)
}

/// Checks the children of a split, the first of which is at the beginning of the text and begins at this line.
#[cycle(walking)]
fn walk_children<'a>(
    rows: &mut NodeRows<'_>,
    judge: &Judge<'_>,
    parent: &Parent<'_>,
    text: &'a [u8],
    line: u64,
    told: Option<ProofError>,
) -> Result<Walked<'a>, ProofError>
    requires size { told ≡ None → judge.now.instance.now.size ≡ parent.now.node.now.size }
    requires split { IsSplit parent.now.node.now (split_of parent.now.split.now) }
    requires placement { IsPlacement parent.now.node.now }
    requires others { parent.now.others.now ≡ others_on parent.now.split.now.side parent.now.node.now }
    requires reached { told ≡ None → AreReached judge.now.instance.now parent.now.node.now (split_of parent.now.split.now) parent.now.values.now }
    requires rows { rows.old ≡ judge.now.instance.now }
    ensures judged { MatchResult result
        (λ w. BeginsWithTrees parent.now.node.now (split_of parent.now.split.now) (length parent.now.others.now) line text.now w.rest.now w.next
        (IsToldOfAll judge.now.instance.now judge.now.bound parent.now.node.now (split_of parent.now.split.now) line told w.fault))
        (λ e. (e ≡ ProofError.OutOfMemory) ⊎ IsFaultBefore parent.now.node.now (split_of parent.now.split.now) line text.now e) }
    ensures same { rows.new ≡ rows.old }
{
    let mut walked = Walked {
        rest: text,
        next: line,
        fault: told,
    };
    for child in 0..parent.others.len() {
        let node = child_node(parent.node, parent.split, parent.others, child)?;
        walked = walk_child(rows, judge, parent, child, &node, walked)?;
    }
    Ok(walked)
}

/// The first fault to report if a closed node follows what was reported before, if any.
pub(crate) fn judge_closed(
    rows: &mut NodeRows<'_>,
    judge: &Judge<'_>,
    node: &Partial,
    duals: &Duals,
    line: u64,
    told: Option<ProofError>,
) -> Result<Option<ProofError>, AllocError>
    requires size { told ≡ None → judge.now.instance.now.size ≡ node.now.size }
    requires duals { AreDuals (free_count node.now) duals.now.u.items duals.now.v.items }
    requires rows { rows.old ≡ judge.now.instance.now }
    ensures judged { IfOk result (λ after. IsToldOfClosed judge.now.instance.now judge.now.bound node.now line told after (pair_of duals.now)) }
    ensures same { rows.new ≡ rows.old }
{
    match told {
        Some(fault) => Ok(Some(fault)),
        None => closed_fault(rows, judge.bound, node, duals, line),
    }
}

/// The first fault to report if a split follows what was reported before, if any; and if there is none, the values of
/// its duals, if it has any, for each child.
pub(crate) fn judge_split(
    rows: &mut NodeRows<'_>,
    judge: &Judge<'_>,
    node: &Partial,
    split: &SplitLine,
    line: u64,
    told: Option<ProofError>,
) -> Result<JudgedSplit, AllocError>
    requires size { told ≡ None → judge.now.instance.now.size ≡ node.now.size }
    requires split { IsSplit node.now (split_of split.now) }
    requires rows { rows.old ≡ judge.now.instance.now }
    ensures told { IfOk result (λ j. IsToldOfDuals judge.now.instance.now node.now (split_of split.now) line told j.fault) }
    ensures reached { IfOk result (λ j. j.fault ≡ None → AreReached judge.now.instance.now node.now (split_of split.now) j.values.items) }
    ensures same { rows.new ≡ rows.old }
{
    let none = Vec::new(judge.alloc);
    if told.is_some() {
        return Ok(JudgedSplit {
            values: none,
            fault: told,
        });
    }
    match &split.duals {
        None => Ok(JudgedSplit {
            values: none,
            fault: None,
        }),
        Some(duals) => {
            let duals = duals.widened(judge.alloc)?;
            let matrix = rows.reduced(node)?;
            if !fits(&matrix, &duals.u, &duals.v) {
                return Ok(JudgedSplit {
                    values: none,
                    fault: Some(ProofError::NotFeasible(line)),
                });
            }
            let values = child_values(
                judge.alloc,
                judge.instance,
                &matrix,
                node,
                split.side,
                split.number,
                &duals,
            )?;
            Ok(JudgedSplit {
                values,
                fault: None,
            })
        }
    }
}

/// The first fault to report if a pruned child follows what was reported before, if any.
pub(crate) fn judge_cut(
    judge: &Judge<'_>,
    parent: &Parent<'_>,
    child: usize,
    line: u64,
    told: Option<ProofError>,
) -> Option<ProofError>
    requires duals { has (split_of parent.now.split.now).duals ≡ true }
    requires reached { told ≡ None → AreReached judge.now.instance.now parent.now.node.now (split_of parent.now.split.now) parent.now.values.now }
    requires inside { child < free_count parent.now.node.now }
    ensures { IsToldOf judge.now.instance.now judge.now.bound (child_place parent.now.node.now (split_of parent.now.split.now) child) line told result cut }
{
    match told {
        Some(fault) => Some(fault),
        None if parent.values[child] < judge.bound => Some(ProofError::CutTooLow(line)),
        None => None,
    }
}

/// The first fault to report if a symmetric child follows what was reported before, if any.
pub(crate) fn judge_mirrored(
    judge: &Judge<'_>,
    parent: &Parent<'_>,
    child: usize,
    earlier: u16,
    image: &Perm,
    line: u64,
    told: Option<ProofError>,
) -> Option<ProofError>
    requires size { told ≡ None → judge.now.instance.now.size ≡ parent.now.node.now.size }
    requires placement { IsPlacement parent.now.node.now }
    requires others { parent.now.others.now ≡ others_on parent.now.split.now.side parent.now.node.now }
    requires inside { child < length parent.now.others.now }
    requires earlier { earlier < child }
    requires image { length image.now ≡ parent.now.node.now.size }
    ensures { IsToldOf judge.now.instance.now judge.now.bound (child_place parent.now.node.now (split_of parent.now.split.now) child) line told result (mirrored earlier image.now) }
{
    match told {
        Some(fault) => Some(fault),
        None if is_image(judge, parent, child, earlier, image) => None,
        None => Some(ProofError::NotAnImage(line)),
    }
}

/// Whether the permutation takes the earlier child of a split to this one.
fn is_image(
    judge: &Judge<'_>,
    parent: &Parent<'_>,
    child: usize,
    earlier: u16,
    image: &Perm,
) -> bool
    requires size { judge.now.instance.now.size ≡ parent.now.node.now.size }
    requires placement { IsPlacement parent.now.node.now }
    requires others { parent.now.others.now ≡ others_on parent.now.split.now.side parent.now.node.now }
    requires inside { child < length parent.now.others.now }
    requires earlier { earlier < child }
    requires image { length image.now ≡ parent.now.node.now.size }
    ensures { IsTrue result ↔ TakesOn parent.now.split.now.side judge.now.instance.now parent.now.node.now earlier child image.now }
{
    let instance = judge.instance;
    let from = parent.others[usize::from(earlier)];
    let to = parent.others[child];
    match parent.split.side {
        Side::Facility => takes_location(instance, parent.node, image, from, to),
        Side::Location => takes_facility(instance, parent.node, image, from, to),
    }
}
