//! The split of a node whose children are tried, each within a limit, and recorded.

ghost use Rattle.std.specs.Prelude.{◌≡◌, ◌<◌, ◌≤◌, ◌≤ℤ◌, pos, All, IfOk, IfSome, OnOk, length};
ghost use Rattle.pair_duals.specs.CostStep.{step_of};
ghost use Rattle.pair_duals.specs.PairDuals.{AreOf, Fit};
ghost use Rattle.pair_duals.specs.Range.{IsInScale};
ghost use Rattle.pair_duals.specs.Reduced.{IsNonNegative, count_of};
ghost use Rattle.subtree_search.specs.Best.{IsIncumbent};
ghost use Rattle.subtree_search.specs.Evaluated.{IsKept};
ghost use Rattle.subtree_search.specs.Lines.{IsLineOf, child_on};
ghost use Rattle.subtree_search.specs.Needs.{IsLeft, IsLined, NeedsTrial};
ghost use Rattle.subtree_search.specs.Opens.{Adds, Becomes, IsOpen, IsSettled};
ghost use Rattle.subtree_search.specs.Premises.{AreSound, AreSymmetries, IsNode, limits_of_64};

use crate::ground::Ground;
use crate::incumbent::Incumbent;
use crate::level::Level;
use crate::path::Path;
use crate::record::Record;
use crate::residuals::{keep, take_back};
use crate::search::{Split, Subtree, SubtreeSearch, Task, make_room, skip, step_within};
use crate::stop::Stop;
use crate::trial::try_child;
use qap_cost::Partial;
use std::alloc::{AllocError, Global};

/// A child that a split leaves open: a free facility at a free location, by their numbers in the instance. No completion costs,
/// scaled as the pair duals are, less than its value.
#[derive(Clone, Copy, Debug)]
pub struct OpenChild {
    pub facility: u16,
    pub location: u16,
    pub value: i128,
}

impl SubtreeSearch {
    /// Splits a node on a row or column, tries each child that is neither pruned nor symmetric to an earlier one, and
    /// returns those whose trials end at their limit, or by the stop; none if the node is closed.
    ///
    /// The trial of a child with `m` free facilities evaluates at most `m^4 / 8` nodes, but at least 200 and at most
    /// 100,000. Once a stop is requested, children are left open untried.
    ///
    /// The text of the node's tree is added to the record, where an open child is a leaf: advice, which no proof relies on.
    pub fn split<S: Stop, W: Record>(
        &mut self,
        subtree: &Subtree<'_>,
        incumbent: &mut Incumbent,
        stop: &S,
        proof: &mut W,
    ) -> Result<Vec<OpenChild>, AllocError>
        requires size { subtree.now.instance.now.size ≡ subtree.now.node.now.size }
        requires duals { AreOf subtree.now.node.now subtree.now.duals.now }
        requires in_scale { IsInScale limits_of_64 subtree.now.instance.now subtree.now.duals.now.scale }
        requires fit { Fit subtree.now.instance.now subtree.now.duals.now }
        requires step { subtree.now.step ≡ pos (step_of subtree.now.instance.now) }
        requires symmetries { AreSymmetries subtree.now.instance.now subtree.now.flows.now subtree.now.distances.now }
        requires incumbent { IsIncumbent subtree.now.instance.now incumbent.old }
        ensures settled { IfOk result (λ children. IsSettled subtree.now.instance.now subtree.now.node.now incumbent.new.cost children.items subtree.now.node.now) }
        ensures opened { IfOk result (λ children. All (IsOpen subtree.now.instance.now subtree.now.duals.now.scale subtree.now.node.now) children.items) }
        ensures needed { IfOk result (λ children. All (NeedsTrial subtree.now.instance.now subtree.now.duals.now (step_of subtree.now.instance.now) subtree.now.node.now incumbent.new.cost incumbent.old.cost) children.items) }
        ensures incumbent { IsIncumbent subtree.now.instance.now incumbent.new }
        ensures no_worse { incumbent.new.cost ≤ℤ incumbent.old.cost }
    {
        let alloc = *self.levels.allocator();
        make_room(&mut self.levels, &mut self.size, subtree.duals.free())?;
        let kept = keep(
            alloc,
            &mut self.residuals,
            subtree.instance,
            subtree.duals,
            u64::MAX,
        );
        let ground = Ground {
            instance: subtree.instance,
            duals: subtree.duals,
            step: step_within(subtree.step),
            flows: subtree.flows,
            distances: subtree.distances,
            kept: kept.as_ref(),
        };
        let task = Task {
            ground: &ground,
            limit: 0,
            stop,
        };
        let mut nodes = 0;
        let children = split_node(
            alloc,
            &task,
            subtree.node,
            &mut self.levels,
            &mut self.path,
            incumbent,
            &mut nodes,
            proof,
        )?;
        self.nodes = nodes;
        take_back(&mut self.residuals, kept);
        Ok(children)
    }

    /// Adds a tree over a node to the record that is one leaf, which is left open: advice, as above.
    pub fn leave<W: Record>(
        &mut self,
        subtree: &Subtree<'_>,
        incumbent: &Incumbent,
        proof: &mut W,
    ) -> Result<(), AllocError>
        requires size { subtree.now.instance.now.size ≡ subtree.now.node.now.size }
        requires duals { AreOf subtree.now.node.now subtree.now.duals.now }
        requires in_scale { IsInScale limits_of_64 subtree.now.instance.now subtree.now.duals.now.scale }
        requires fit { Fit subtree.now.instance.now subtree.now.duals.now }
        requires step { subtree.now.step ≡ pos (step_of subtree.now.instance.now) }
    {
        make_room(&mut self.levels, &mut self.size, subtree.duals.free())?;
        let ground = Ground {
            instance: subtree.instance,
            duals: subtree.duals,
            step: step_within(subtree.step),
            flows: subtree.flows,
            distances: subtree.distances,
            kept: None,
        };
        let (levels, path) = (&mut self.levels, &mut self.path);
        leave_node(&ground, subtree.node, levels, path, incumbent, proof)
    }
}

/// Records the node that the pair duals belong to as a leaf that is left open.
fn leave_node<W: Record>(
    ground: &Ground<'_>,
    node: &Partial,
    levels: &mut [Level],
    path: &mut Path,
    incumbent: &Incumbent,
    proof: &mut W,
) -> Result<(), AllocError>
    requires size { ground.now.instance.now.size ≡ node.now.size }
    requires duals { AreOf node.now ground.now.duals.now }
    requires sound { AreSound ground.now.instance.now ground.now.duals.now ground.now.step }
    requires room { 0 < length levels.old }
{
    let level = &mut levels[0];
    ground.begin(node, level, path)?;
    level.draw_line(ground.threshold(incumbent))?;
    let bound = ground.bound_of(level).min(incumbent.cost());
    proof.pair_duals(ground.duals)?;
    proof.leave(None, bound, level.u())
}

/// Splits the node that the pair duals belong to.
fn split_node<S: Stop, W: Record>(
    alloc: Global,
    task: &Task<'_, S>,
    node: &Partial,
    levels: &mut [Level],
    path: &mut Path,
    incumbent: &mut Incumbent,
    nodes: &mut u64,
    proof: &mut W,
) -> Result<Vec<OpenChild>, AllocError>
    requires size { task.now.ground.now.instance.now.size ≡ node.now.size }
    requires duals { AreOf node.now task.now.ground.now.duals.now }
    requires sound { AreSound task.now.ground.now.instance.now task.now.ground.now.duals.now task.now.ground.now.step }
    requires room { length task.now.ground.now.duals.now.facilities < length levels.old }
    requires symmetries { AreSymmetries task.now.ground.now.instance.now task.now.ground.now.flows.now task.now.ground.now.distances.now }
    requires incumbent { IsIncumbent task.now.ground.now.instance.now incumbent.old }
    ensures settled { IfOk result (λ children. IsSettled task.now.ground.now.instance.now node.now incumbent.new.cost children.items node.now) }
    ensures opened { IfOk result (λ children. All (IsOpen task.now.ground.now.instance.now task.now.ground.now.duals.now.scale node.now) children.items) }
    ensures needed { IfOk result (λ children. All (NeedsTrial task.now.ground.now.instance.now task.now.ground.now.duals.now task.now.ground.now.step node.now incumbent.new.cost incumbent.old.cost) children.items) }
    ensures incumbent { IsIncumbent task.now.ground.now.instance.now incumbent.new }
    ensures no_worse { incumbent.new.cost ≤ℤ incumbent.old.cost }
{
    let (first, deeper) = levels.split_at_mut(1);
    let level = &mut first[0];
    task.ground.begin(node, level, path)?;
    proof.pair_duals(task.ground.duals)?;
    if task.ground.closes_as_leaf(level, path, incumbent, proof)? {
        return Ok(Vec::new(alloc));
    }
    let children = split_children(alloc, task, level, deeper, path, incumbent, nodes, proof)?;
    Ok(children)
}

/// Tries the children on a row or column, and lists those that are left open.
fn split_children<S: Stop, W: Record>(
    alloc: Global,
    task: &Task<'_, S>,
    level: &Level,
    deeper: &mut [Level],
    path: &mut Path,
    incumbent: &mut Incumbent,
    nodes: &mut u64,
    proof: &mut W,
) -> Result<Vec<OpenChild>, AllocError>
    requires node { IsNode task.now.ground.now.instance.now task.now.ground.now.duals.now task.now.ground.now.step path.old level.now.form }
    requires least { IsNonNegative level.now.form }
    requires lined { IsLined task.now.ground.now.instance.now task.now.ground.now.duals.now path.old level.now.form }
    requires left { 0 < count_of level.now.form }
    requires room { count_of level.now.form ≤ length deeper.old }
    requires symmetries { AreSymmetries task.now.ground.now.instance.now task.now.ground.now.flows.now task.now.ground.now.distances.now }
    requires incumbent { IsIncumbent task.now.ground.now.instance.now incumbent.old }
    ensures settled { IfOk result (λ children. IsSettled task.now.ground.now.instance.now path.old incumbent.new.cost children.items path.old) }
    ensures opened { IfOk result (λ children. All (IsOpen task.now.ground.now.instance.now task.now.ground.now.duals.now.scale path.old) children.items) }
    ensures needed { IfOk result (λ children. All (NeedsTrial task.now.ground.now.instance.now task.now.ground.now.duals.now task.now.ground.now.step path.old incumbent.new.cost incumbent.old.cost) children.items) }
    ensures incumbent { IsIncumbent task.now.ground.now.instance.now incumbent.new }
    ensures no_worse { incumbent.new.cost ≤ℤ incumbent.old.cost }
{
    let line = task.ground.sampled_line(level, deeper, path, incumbent)?;
    let number = task.ground.number_of(level, path, line);
    let marks = proof.split(line.side(), number, level.u())?;
    let split = Split { level, line, marks };
    let mut children = Vec::new(alloc);
    for k in 0..level.form.free() {
        if skip(task, &split, path, incumbent, k, proof)? {
            continue;
        }
        let child = child_left(task, &split, k, deeper, path, incumbent, nodes, proof)?;
        add(&mut children, child)?;
    }
    Ok(children)
}

/// Adds a child, if there is one.
fn add(children: &mut Vec<OpenChild>, child: Option<OpenChild>) -> Result<(), AllocError>
    ensures { OnOk result (Adds child children.old.items children.new.items) }
{
    if let Some(child) = child {
        children.push(child)?;
    }
    Ok(())
}

/// The child of number `k`, where it is left open; `None` if its trial closes it.
fn child_left<S: Stop, W: Record>(
    task: &Task<'_, S>,
    split: &Split<'_>,
    k: usize,
    deeper: &mut [Level],
    path: &mut Path,
    incumbent: &mut Incumbent,
    nodes: &mut u64,
    proof: &mut W,
) -> Result<Option<OpenChild>, AllocError>
    requires node { IsNode task.now.ground.now.instance.now task.now.ground.now.duals.now task.now.ground.now.step path.old split.now.level.now.form }
    requires line { IsLineOf (count_of split.now.level.now.form) split.now.line }
    requires k_in { k < count_of split.now.level.now.form }
    requires kept { IsKept task.now.ground.now.duals.now task.now.ground.now.step split.now.level.now.form split.now.line k incumbent.old.cost }
    requires room { count_of split.now.level.now.form ≤ length deeper.old }
    requires symmetries { AreSymmetries task.now.ground.now.instance.now task.now.ground.now.flows.now task.now.ground.now.distances.now }
    requires incumbent { IsIncumbent task.now.ground.now.instance.now incumbent.old }
    ensures child { IfOk result (Becomes task.now.ground.now.instance.now task.now.ground.now.duals.now.scale path.old (child_on path.old split.now.line k) incumbent.new.cost) }
    ensures left { IfOk result (λ child. IfSome child (IsLeft task.now.ground.now.instance.now task.now.ground.now.duals.now task.now.ground.now.step path.old split.now.level.now.form incumbent.old.cost)) }
    ensures path { OnOk result (path.new ≡ path.old) }
    ensures incumbent { IsIncumbent task.now.ground.now.instance.now incumbent.new }
    ensures no_worse { incumbent.new.cost ≤ℤ incumbent.old.cost }
{
    let child = try_child(task, split, k, deeper, path, incumbent, nodes, proof)?;
    record_open(task.ground, &child, &deeper[0], incumbent, proof)?;
    Ok(child)
}

/// Records the leaf of a child, if it is left open; its form after a line is in the level.
fn record_open<W: Record>(
    ground: &Ground<'_>,
    child: &Option<OpenChild>,
    level: &Level,
    incumbent: &Incumbent,
    proof: &mut W,
) -> Result<(), AllocError>
    requires { AreSound ground.now.instance.now ground.now.duals.now ground.now.step }
{
    if let Some(child) = child {
        let bound = ground.bound_of(level).min(incumbent.cost());
        proof.leave(Some((child.facility, child.location)), bound, level.u())?;
    }
    Ok(())
}
