//! Trials of the children of a split, each within a limit.

ghost use Rattle.std.specs.Prelude.{◌≡◌, ◌<◌, ◌≤◌, ◌≤ℤ◌, ℕ, List, false, IfOk, IfSome, IsTrue, OnOk, length};
ghost use Rattle.pair_duals.specs.Reduced.{count_of};
ghost use Rattle.subtree_search.specs.Best.{IsIncumbent};
ghost use Rattle.subtree_search.specs.Closed.{threshold_of};
ghost use Rattle.subtree_search.specs.Drawn.{IsDrawn};
ghost use Rattle.subtree_search.specs.Lines.{IsLineOf, child_on, column_on, row_on};
ghost use Rattle.subtree_search.specs.Needs.{StaysOpen};
ghost use Rattle.subtree_search.specs.Opens.{Becomes};
ghost use Rattle.subtree_search.specs.Premises.{AreSymmetries, IsNode};
ghost use Rattle.subtree_search.specs.Recorded.{HasTree};
ghost use Rattle.subtree_search.specs.Trials.{Settles};

use crate::incumbent::Incumbent;
use crate::level::Level;
use crate::outcome::Outcome;
use crate::path::Path;
use crate::record::Record;
use crate::search::{Split, Task, explore_children};
use crate::split::OpenChild;
use crate::stop::Stop;
use std::alloc::AllocError;

/// The least and the greatest limit of a trial.
const LEAST_TRIAL: u64 = 200;

const MOST_TRIAL: u64 = 100_000;

/// Tries the `k`-th child of a split: `None` if it is closed, and recorded. A child that is left open is marked as one
/// whose text follows.
pub(crate) fn try_child<S: Stop, W: Record>(
    task: &Task<'_, S>,
    split: &Split<'_>,
    k: usize,
    deeper: &mut [Level],
    path: &mut Path,
    incumbent: &mut Incumbent,
    nodes: &mut u64,
    proof: &mut W,
) -> Result<Option<OpenChild>, AllocError>
    requires node { IsNode task.now.ground.now.instance.now task.now.ground.now.duals.now task.now.ground.now.step path.old split.now.level.now.form }
    requires line { IsLineOf (count_of split.now.level.now.form) split.now.line }
    requires k_in { k < count_of split.now.level.now.form }
    requires room { count_of split.now.level.now.form ≤ length deeper.old }
    requires symmetries { AreSymmetries task.now.ground.now.instance.now task.now.ground.now.flows.now task.now.ground.now.distances.now }
    requires incumbent { IsIncumbent task.now.ground.now.instance.now incumbent.old }
    ensures child { IfOk result (Becomes task.now.ground.now.instance.now task.now.ground.now.duals.now.scale path.old (child_on path.old split.now.line k) incumbent.new.cost) }
    ensures left { IfOk result (λ child. IfSome child (StaysOpen task.now.ground.now.instance.now task.now.ground.now.duals.now task.now.ground.now.step split.now.level.now.form (row_on split.now.line k) (column_on split.now.line k) incumbent.old.cost)) }
    ensures recorded { IfOk result (Settles task.now.ground.now.instance.now task.now.ground.now.duals.now path.old split.now.level.now.form split.now.line k incumbent.new.cost (W.ends split.now.marks) (W.holds proof.old) (W.holds proof.new)) }
    ensures path { OnOk result (path.new ≡ path.old) }
    ensures incumbent { IsIncumbent task.now.ground.now.instance.now incumbent.new }
    ensures no_worse { incumbent.new.cost ≤ℤ incumbent.old.cost }
{
    let (h, g) = (split.line.row(k), split.line.column(k));
    *nodes = nodes.saturating_add(1);
    let (first, rest) = deeper.split_at_mut(1);
    let next = &mut first[0];
    let ground = task.ground;
    ground.descend(split.level, next, path, h, g)?;
    if ground.closes_below(split.level, next, path, incumbent, h, g)? {
        path.pop();
        return Ok(None);
    }
    proof.mark(split.marks, k);
    let is_closed = try_node(task, next, rest, path, incumbent, nodes, proof)?;
    path.pop();
    if is_closed {
        return Ok(None);
    }
    Ok(Some(ground.open_child(split.level, next, path, h, g)))
}

/// Whether the node that the path leads to becomes closed within the limit of its trial, and is recorded. Where it doesn't, the record
/// is set back.
fn try_node<S: Stop, W: Record>(
    task: &Task<'_, S>,
    level: &mut Level,
    deeper: &mut [Level],
    path: &mut Path,
    incumbent: &mut Incumbent,
    nodes: &mut u64,
    proof: &mut W,
) -> Result<bool, AllocError>
    requires node { IsNode task.now.ground.now.instance.now task.now.ground.now.duals.now task.now.ground.now.step path.old level.old.form }
    requires first { level.old.form.is_lined ≡ false }
    requires room { count_of level.old.form ≤ length deeper.old }
    requires symmetries { AreSymmetries task.now.ground.now.instance.now task.now.ground.now.flows.now task.now.ground.now.distances.now }
    requires incumbent { IsIncumbent task.now.ground.now.instance.now incumbent.old }
    ensures recorded { IfOk result (λ closed. IsTrue closed → HasTree task.now.ground.now.instance.now task.now.ground.now.duals.now path.old level.old.form incumbent.new.cost (W.holds proof.old) (W.holds proof.new)) }
    ensures drawn { IfOk result (λ closed. closed ≡ false → IsDrawn level.old.form level.new.form level.new.u.items) }
    ensures left { IfOk result (λ closed. closed ≡ false → (t : List ℕ) → W.holds proof.old t → W.holds proof.new t) }
    ensures within { IfOk result (λ closed. closed ≡ false → level.new.form.value ≤ℤ threshold_of task.now.ground.now.duals.now.scale task.now.ground.now.step incumbent.old.cost) }
    ensures path { OnOk result (path.new ≡ path.old) }
    ensures incumbent { IsIncumbent task.now.ground.now.instance.now incumbent.new }
    ensures no_worse { incumbent.new.cost ≤ℤ incumbent.old.cost }
{
    if task.ground.closes_as_leaf(level, path, incumbent, proof)? {
        return Ok(true);
    }
    if task.stop.is_requested() {
        return Ok(false);
    }
    let most = trial_limit(level.form.free());
    if task
        .ground
        .is_hopeless(level, deeper, path, incumbent, most)?
    {
        return Ok(false);
    }
    let trial = Task {
        ground: task.ground,
        limit: nodes.saturating_add(most),
        stop: task.stop,
    };
    let place = proof.end();
    match explore_children(&trial, level, deeper, path, incumbent, nodes, proof)? {
        Outcome::Closed => Ok(true),
        _ => {
            proof.set_back(place);
            Ok(false)
        }
    }
}

/// How many nodes the trial of a child with `m` free facilities evaluates at most.
fn trial_limit(m: usize) -> u64 {
    let m = m as u64;
    let square = m.saturating_mul(m);
    let limit = square.saturating_mul(square) / 8;
    limit.max(LEAST_TRIAL).min(MOST_TRIAL)
}
