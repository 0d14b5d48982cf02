//! Checks a tree line by line, without storing it.

ghost use Rattle.std.specs.Prelude.{◌≡◌, ◌⊎◌, ◌++◌, ◌∷◌, [], ◌+◌, ◌-◌, ◌*◌, ◌<◌, ◌≤◌, length, drop, take, map, reverse, slice_index, vec_len, ℕ, IfOk, OnOk, MatchResult};
ghost use Rattle.qap_cost.specs.Placement.{IsFree, IsFreeFacility, IsFreeLocation, free_locations, placing, root_of};
ghost use Rattle.gilmore_lawler.specs.Closing.{AreDuals};
ghost use Rattle.qap_lines.specs.Line.{IsLine};
ghost use Rattle.qap_cert.specs.Levels.{AreOfSize, BeginsWithLevels, IsFaultAtLevels, IsRunTold, IsSplitOf, IsToldBehind, IsToldOfLevels, level_of, placed_behind};
ghost use Rattle.qap_cert.specs.TextFault.{IsNodeFault, IsSplitLine, IsTreeTextFault};
ghost use Rattle.qap_cert.specs.Tree.{bound};
ghost use Rattle.qap_cert.specs.Walk.{ClosesOrTells, BeginsWithTree, BeginsWithTrees, IsFaultBefore, IsToldOf};

use crate::checking::{check_bound, check_child_bound};
use crate::error::CertError;
use crate::node_line::{Grammar, NodeLine, bound_numbers, node_line};
use crate::placed::Placed;
use crate::skimming::{Behind, skim_trees};
use crate::splits::Split;
use gilmore_lawler::{FlowRows, RankedInstance, SplitRows, Workspace};
use qap_cost::Partial;
use std::alloc::{AllocError, Global};

/// What a tree is checked against: the grammar of its lines, the instance, and the bound that it has to establish.
#[derive(Clone, Copy)]
pub(crate) struct Task<'a> {
    pub(crate) grammar: Grammar,
    pub(crate) ranked: &'a RankedInstance,
    pub(crate) bound: i128,
}

/// The text after some checked lines, the number of its first line, and the first of their bounds that fails.
#[derive(Clone, Copy)]
pub(crate) struct Judged<'a> {
    pub(crate) rest: &'a [u8],
    pub(crate) next: u64,
    pub(crate) fault: Option<CertError>,
}

/// Memory reused from one line to the next, for the rows of a node and the duals of a bound; and its allocator.
#[derive(Drop)]
pub(crate) struct Buffers {
    alloc: Global,
    workspace: Workspace,
    duals: Vec<i128>,
}

impl Buffers {
    /// Without memory.
    pub(crate) fn new(alloc: Global) -> Buffers {
        Buffers {
            alloc,
            workspace: Workspace::new(alloc),
            duals: Vec::new(alloc),
        }
    }
}

/// Checks the tree at the beginning of a text, whose first line has this number, where nothing is placed. After the
/// first bound that fails, only the syntax of the lines is checked.
pub(crate) fn judge_tree<'a>(
    buffers: &mut Buffers,
    task: &Task<'_>,
    root: Partial,
    text: &'a [u8],
    line: u64,
) -> Result<Judged<'a>, CertError>
    requires small { task.now.grammar.size ≤ 256 }
    requires same_size { task.now.ranked.now.size ≡ task.now.grammar.size }
    requires root { root ≡ root_of task.now.grammar.size }
    ensures { MatchResult result
        (λ r. BeginsWithTree task.now.grammar.version task.now.grammar.size [] line text.now r.rest.now r.next
        (IsToldOf task.now.ranked.now task.now.bound (root_of task.now.grammar.size) line r.fault))
        (λ e. (e ≡ CertError.OutOfMemory) ⊎ IsTreeTextFault task.now.grammar.version task.now.grammar.size task.now.grammar.size [] line text.now e) }
{
    let placed = Placed::none();
    let first = node_line(text, task.grammar, &placed, line)?;
    let next = line.saturating_add(1);
    let Some(facility) = first.facility else {
        let rows = FlowRows::new(task.ranked, &root)?;
        let fault = judge_bound(buffers, task, &rows, &root, first.bytes, &placed, line)?;
        let rest = first.rest;
        return Ok(Judged { rest, next, fault });
    };
    let split = Split::new(root, facility)?;
    judge_split(buffers, task, split, first.rest, next)
}

/// Likewise for the children of a split, the first of which begins at this line.
///
/// The splits with children left are in a list, the innermost last, so that the use of the stack does not depend on the
/// depth. After a bound that fails, a second list holds the number of children left at each level. Each list has room
/// for one level more than the instance has facilities, and neither grows.
fn judge_split<'a>(
    buffers: &mut Buffers,
    task: &Task<'_>,
    split: Split,
    text: &'a [u8],
    line: u64,
) -> Result<Judged<'a>, CertError>
    requires small { task.now.grammar.size ≤ 256 }
    requires same_size { task.now.ranked.now.size ≡ task.now.grammar.size }
    requires size { split.node.size ≡ task.now.grammar.size }
    ensures { MatchResult result
        (λ r. IsToldOfLevels task.now.grammar.version task.now.grammar.size task.now.ranked.now task.now.bound r.fault (split ∷ []) line text.now r.rest.now r.next)
        (λ e. (e ≡ CertError.OutOfMemory) ⊎ IsFaultAtLevels task.now.grammar.version task.now.grammar.size (level_of split ∷ []) line text.now e) }
{
    let levels = task.grammar.size + 1;
    let mut left = Vec::with_capacity(buffers.alloc, levels)?;
    let mut splits = Vec::with_capacity(buffers.alloc, levels)?;
    push_split(&mut splits, split)?;
    let mut rest = text;
    let mut next = line;
    while let Some(innermost) = splits.pop() {
        let judged = judge_step(buffers, task, &mut splits, innermost, rest, next)?;
        rest = judged.rest;
        next = judged.next;
        if let Some(fault) = judged.fault {
            let behind = skim_splits(&mut splits, &mut left, task.grammar, rest, next)?;
            return Ok(Judged {
                rest: behind.rest,
                next: behind.next,
                fault: Some(fault),
            });
        }
    }
    Ok(Judged {
        rest,
        next,
        fault: None,
    })
}

/// Checks children of the innermost split as long as they are bounds; or enters a child that is a split; or leaves the
/// innermost split, if none of its children is left.
fn judge_step<'a>(
    buffers: &mut Buffers,
    task: &Task<'_>,
    splits: &mut Vec<Split>,
    innermost: Split,
    text: &'a [u8],
    line: u64,
) -> Result<Judged<'a>, CertError>
    requires small { task.now.grammar.size ≤ 256 }
    requires same_size { task.now.ranked.now.size ≡ task.now.grammar.size }
    requires size { innermost.node.size ≡ task.now.grammar.size }
    requires sizes { AreOfSize task.now.grammar.size (reverse splits.old.items) }
    ensures judged { MatchResult result
        (λ r. IsToldBehind task.now.grammar.version task.now.grammar.size task.now.ranked.now task.now.bound r.fault (innermost ∷ reverse splits.old.items) line text.now
        (reverse splits.new.items) r.next r.rest.now)
        (λ e. (e ≡ CertError.OutOfMemory)
        ⊎ IsFaultAtLevels task.now.grammar.version task.now.grammar.size (map level_of (innermost ∷ reverse splits.old.items)) line text.now e) }
    ensures sizes { OnOk result (AreOfSize task.now.grammar.size (reverse splits.new.items)) }
    ensures smaller { IfOk result (λ r. 2 * length r.rest.now + vec_len splits.new < 2 * length text.now + vec_len splits.old + 1) }
{
    if innermost.locations().is_empty() {
        return Ok(Judged {
            rest: text,
            next: line,
            fault: None,
        });
    }
    let placed = innermost.placed();
    let first = node_line(text, task.grammar, &placed, line)?;
    let Some(facility) = first.facility else {
        let run = judge_bounds(buffers, task, &innermost, &placed, text, first, line)?;
        push_rest(splits, innermost, run.count)?;
        return Ok(Judged {
            rest: run.rest,
            next: run.next,
            fault: run.fault,
        });
    };
    let child = child_split(&innermost, facility)?;
    push_rest(splits, innermost, 1)?;
    push_split(splits, child)?;
    Ok(Judged {
        rest: first.rest,
        next: line.saturating_add(1),
        fault: None,
    })
}

/// A run of checked bounds: how many there are, the text after them, the number of its first line, and why the last of
/// them does not close its node, if it does not.
#[derive(Clone, Copy)]
struct Run<'a> {
    count: usize,
    rest: &'a [u8],
    next: u64,
    fault: Option<CertError>,
}

/// Checks the bounds at the beginning of a text, up to a split, the first fault or the last child. The first of them has
/// this line, which has been read already. What the children share is computed once, and no child's node is built.
fn judge_bounds<'a>(
    buffers: &mut Buffers,
    task: &Task<'_>,
    split: &Split,
    placed: &Placed,
    text: &'a [u8],
    first: NodeLine<'a>,
    line: u64,
) -> Result<Run<'a>, CertError>
    requires small { task.now.grammar.size ≤ 256 }
    requires same_size { task.now.ranked.now.size ≡ task.now.grammar.size }
    requires size { split.now.node.size ≡ task.now.grammar.size }
    requires placed { placed.now ≡ placed_behind split.now }
    requires some { 0 < length split.now.locations }
    requires first { IsLine text.now first.bytes.now first.rest.now }
    requires no_split { (f : ℕ) → IsSplitLine task.now.grammar.version task.now.grammar.size placed.now first.bytes.now f → ⊥ }
    ensures judged { MatchResult result
        (λ r. BeginsWithTrees task.now.grammar.version task.now.grammar.size placed.now r.count line text.now r.rest.now r.next
        (IsRunTold task.now.ranked.now task.now.bound split.now.node split.now.facility (take r.count split.now.locations) split.now.locations line r.fault))
        (λ e. (e ≡ CertError.OutOfMemory)
        ⊎ IsFaultBefore task.now.grammar.version task.now.grammar.size placed.now (length split.now.locations) line text.now e) }
    ensures within { IfOk result (λ r. r.count ≤ length split.now.locations) }
    ensures smaller { IfOk result (λ r. length r.rest.now < length text.now) }
{
    let rows = SplitRows::new(task.ranked, split.node(), split.facility())?;
    let locations = split.locations();
    let mut here = first;
    let mut rest = text;
    let mut next = line;
    for i in 0..locations.len() {
        let location = locations[i];
        let fault = judge_child_bound(buffers, task, &rows, location, here.bytes, placed, next)?;
        rest = here.rest;
        next = next.saturating_add(1);
        let count = i + 1;
        if fault.is_some() || count == locations.len() {
            return Ok(Run {
                count,
                rest,
                next,
                fault,
            });
        }
        here = node_line(rest, task.grammar, placed, next)?;
        if here.facility.is_some() {
            return Ok(Run {
                count,
                rest,
                next,
                fault: None,
            });
        }
    }
    Ok(Run {
        count: locations.len(),
        rest,
        next,
        fault: None,
    })
}

/// The split, on this facility, of the first remaining child.
fn child_split(split: &Split, facility: u16) -> Result<Split, AllocError>
    requires some { 0 < length split.now.locations }
    requires depth { length (placed_behind split.now) < split.now.node.size }
    requires facility { IsFree split.now.node.size (placed_behind split.now) facility }
    ensures value { IfOk result (IsSplitOf (placing split.now.node split.now.facility (slice_index split.now.locations 0)) facility) }
    ensures count { IfOk result (λ s. length s.locations + length (placed_behind split.now) ≡ split.now.node.size) }
{
    let child = split.node().place(split.facility(), split.locations()[0])?;
    Split::new(child, facility)
}

/// Appends a split, after this many more of its children have been checked.
fn push_rest(splits: &mut Vec<Split>, split: Split, count: usize) -> Result<(), AllocError>
    requires { count ≤ length split.locations }
    ensures { OnOk result (splits.new.items ≡ splits.old.items ++ record split { locations = drop count split.locations } ∷ []) }
{
    let mut rest = split;
    rest.pass(count);
    push_split(splits, rest)
}

/// Appends a split.
fn push_split(splits: &mut Vec<Split>, split: Split) -> Result<(), AllocError>
    ensures { OnOk result (splits.new.items ≡ splits.old.items ++ split ∷ []) }
{
    splits.push(split)?;
    Ok(())
}

/// Checks only the syntax of the remaining children of these splits, of which the last is the innermost.
fn skim_splits<'a>(
    splits: &mut Vec<Split>,
    left: &mut Vec<usize>,
    grammar: Grammar,
    text: &'a [u8],
    line: u64,
) -> Result<Behind<'a>, CertError>
    requires small { grammar.size ≤ 256 }
    requires sizes { AreOfSize grammar.size (reverse splits.old.items) }
    ensures { MatchResult result
        (λ r. BeginsWithLevels grammar.version grammar.size (map level_of (reverse splits.old.items)) line text.now r.rest.now r.next)
        (λ e. (e ≡ CertError.OutOfMemory) ⊎ IsFaultAtLevels grammar.version grammar.size (map level_of (reverse splits.old.items)) line text.now e) }
{
    let mut rest = text;
    let mut next = line;
    while let Some(split) = splits.pop() {
        let mut placed = split.placed();
        let count = split.locations().len();
        let behind = skim_trees(left, rest, grammar, &mut placed, next, count)?;
        rest = behind.rest;
        next = behind.next;
    }
    Ok(Behind { rest, next })
}

/// Checks the line of a bound, and reports why its duals do not close the node, if they do not.
fn judge_bound(
    buffers: &mut Buffers,
    task: &Task<'_>,
    rows: &FlowRows<'_>,
    node: &Partial,
    bytes: &[u8],
    placed: &Placed,
    line: u64,
) -> Result<Option<CertError>, CertError>
    requires small { task.now.grammar.size ≤ 256 }
    requires depth { length placed.now ≤ task.now.grammar.size }
    requires no_split { (f : ℕ) → IsSplitLine task.now.grammar.version task.now.grammar.size placed.now bytes.now f → ⊥ }
    requires rows_size { rows.now.instance.size ≡ node.now.size }
    requires facilities { rows.now.facilities ≡ node.now.facilities }
    requires size { task.now.grammar.size ≡ node.now.size }
    requires placed { placed.now ≡ node.now.facilities }
    ensures { MatchResult result
        (λ fault. ClosesOrTells rows.now.instance task.now.bound node.now line bytes.now fault)
        (λ e. (e ≡ CertError.OutOfMemory) ⊎ IsNodeFault task.now.grammar.version task.now.grammar.size placed.now line bytes.now e) }
{
    let free = task.grammar.size - placed.count();
    let duals = &mut buffers.duals;
    bound_numbers(bytes, task.grammar, placed, line, 2 * free, duals)?;
    let (u, v) = (&duals[..free], &duals[free..]);
    bound_fault(&mut buffers.workspace, task, rows, node, u, v, line)
}

/// Likewise for the bound of the child at this location.
fn judge_child_bound(
    buffers: &mut Buffers,
    task: &Task<'_>,
    rows: &SplitRows<'_>,
    location: u16,
    bytes: &[u8],
    placed: &Placed,
    line: u64,
) -> Result<Option<CertError>, CertError>
    requires small { task.now.grammar.size ≤ 256 }
    requires depth { length placed.now ≤ task.now.grammar.size }
    requires no_split { (f : ℕ) → IsSplitLine task.now.grammar.version task.now.grammar.size placed.now bytes.now f → ⊥ }
    requires size { task.now.grammar.size ≡ rows.now.node.size }
    requires placed { placed.now ≡ rows.now.node.facilities ++ rows.now.facility ∷ [] }
    requires location { IsFreeLocation rows.now.node location }
    ensures { MatchResult result
        (λ fault. ClosesOrTells rows.now.instance task.now.bound (placing rows.now.node rows.now.facility location) line bytes.now fault)
        (λ e. (e ≡ CertError.OutOfMemory) ⊎ IsNodeFault task.now.grammar.version task.now.grammar.size placed.now line bytes.now e) }
{
    let free = task.grammar.size - placed.count();
    let duals = &mut buffers.duals;
    bound_numbers(bytes, task.grammar, placed, line, 2 * free, duals)?;
    let u = &duals[..free];
    let v = &duals[free..];
    child_bound_fault(&mut buffers.workspace, task, rows, location, u, v, line)
}

/// Why a bound does not close its node, if it does not.
fn bound_fault(
    workspace: &mut Workspace,
    task: &Task<'_>,
    rows: &FlowRows<'_>,
    node: &Partial,
    u: &[i128],
    v: &[i128],
    line: u64,
) -> Result<Option<CertError>, CertError>
    requires same_size { rows.now.instance.size ≡ node.now.size }
    requires facilities { rows.now.facilities ≡ node.now.facilities }
    requires duals { AreDuals (node.now.size - length node.now.facilities) u.now v.now }
    ensures { MatchResult result
        (λ fault. IsToldOf rows.now.instance task.now.bound node.now line fault (bound u.now v.now))
        (λ e. e ≡ CertError.OutOfMemory) }
{
    match check_bound(workspace, rows, task.bound, node, u, v, line) {
        Ok(()) => Ok(None),
        Err(CertError::OutOfMemory) => Err(CertError::OutOfMemory),
        Err(fault) => Ok(Some(fault)),
    }
}

/// Likewise for the bound of the child at this location.
fn child_bound_fault(
    workspace: &mut Workspace,
    task: &Task<'_>,
    rows: &SplitRows<'_>,
    location: u16,
    u: &[i128],
    v: &[i128],
    line: u64,
) -> Result<Option<CertError>, CertError>
    requires location { IsFreeLocation rows.now.node location }
    requires duals { AreDuals (rows.now.node.size - length (rows.now.node.facilities ++ rows.now.facility ∷ [])) u.now v.now }
    ensures { MatchResult result
        (λ fault. IsToldOf rows.now.instance task.now.bound (placing rows.now.node rows.now.facility location) line fault (bound u.now v.now))
        (λ e. e ≡ CertError.OutOfMemory) }
{
    match check_child_bound(workspace, rows, task.bound, location, u, v, line) {
        Ok(()) => Ok(None),
        Err(CertError::OutOfMemory) => Err(CertError::OutOfMemory),
        Err(fault) => Ok(Some(fault)),
    }
}
