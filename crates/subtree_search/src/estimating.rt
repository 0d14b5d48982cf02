//! Estimates of how many nodes a search evaluates (Knuth, Estimating the Efficiency of Backtrack Programs, 1975).

ghost use Rattle.std.specs.Prelude.{◌≡◌, ◌<◌, ◌≤ℤ◌, pos, length};
ghost use Rattle.pair_duals.specs.CostStep.{step_of};
ghost use Rattle.pair_duals.specs.PairDuals.{AreOf, Fit};
ghost use Rattle.pair_duals.specs.Range.{IsInScale};
ghost use Rattle.subtree_search.specs.Best.{IsIncumbent};
ghost use Rattle.subtree_search.specs.Premises.{AreSound, AreSymmetries, limits_of_64};

use crate::ground::Ground;
use crate::incumbent::Incumbent;
use crate::level::Level;
use crate::path::Path;
use crate::residuals::{keep, take_back};
use crate::search::{Subtree, SubtreeSearch, make_room, step_within};
use qap_cost::Partial;
use std::alloc::AllocError;

/// An estimate of how many nodes a search evaluates.
#[derive(Clone, Copy, Debug)]
pub struct Estimate {
    /// The mean of what random dives represent.
    pub nodes: f64,
    /// The standard error of that mean, as far as so many dives show it.
    pub error: f64,
}

impl Estimate {
    /// The estimate by dives that represent numbers of nodes with this sum, whose squares have that sum.
    pub(crate) fn of_sums(dives: u32, total: f64, squares: f64) -> Estimate {
        let count = f64::from(dives.max(1));
        let nodes = total / count;
        let variance = (squares / count - nodes * nodes).max(0.0);
        let others = (count - 1.0).max(1.0);
        Estimate {
            nodes,
            error: (variance / others).powf(0.5),
        }
    }
}

impl SubtreeSearch {
    /// Estimates how many nodes `search` evaluates below a node, by this many random dives, which may improve the incumbent.
    /// The estimate is 0 if the node is closed at once.
    pub fn estimate(
        &mut self,
        subtree: &Subtree<'_>,
        incumbent: &mut Incumbent,
        dives: u32,
    ) -> Result<Estimate, AllocError>
        requires size { subtree.now.instance.now.size ≡ subtree.now.node.now.size }
        requires duals { AreOf subtree.now.node.now subtree.now.duals.now }
        requires in_scale { IsInScale limits_of_64 subtree.now.instance.now subtree.now.duals.now.scale }
        requires fit { Fit subtree.now.instance.now subtree.now.duals.now }
        requires step { subtree.now.step ≡ pos (step_of subtree.now.instance.now) }
        requires symmetries { AreSymmetries subtree.now.instance.now subtree.now.flows.now subtree.now.distances.now }
        requires incumbent { IsIncumbent subtree.now.instance.now incumbent.old }
        ensures nodes { self.new ≡ self.old }
        ensures incumbent { IsIncumbent subtree.now.instance.now incumbent.new }
        ensures no_worse { incumbent.new.cost ≤ℤ incumbent.old.cost }
    {
        let alloc = *self.levels.allocator();
        make_room(&mut self.levels, &mut self.size, subtree.duals.free())?;
        let kept = keep(
            alloc,
            &mut self.residuals,
            subtree.instance,
            subtree.duals,
            u64::MAX,
        );
        let ground = Ground {
            instance: subtree.instance,
            duals: subtree.duals,
            step: step_within(subtree.step),
            flows: subtree.flows,
            distances: subtree.distances,
            kept: kept.as_ref(),
        };
        let (levels, path) = (&mut self.levels, &mut self.path);
        let estimate = estimate_node(&ground, subtree.node, levels, path, incumbent, dives)?;
        take_back(&mut self.residuals, kept);
        Ok(estimate)
    }
}

/// The estimate below the node that the pair duals belong to.
fn estimate_node(
    ground: &Ground<'_>,
    node: &Partial,
    levels: &mut [Level],
    path: &mut Path,
    incumbent: &mut Incumbent,
    dives: u32,
) -> Result<Estimate, AllocError>
    requires size { ground.now.instance.now.size ≡ node.now.size }
    requires duals { AreOf node.now ground.now.duals.now }
    requires sound { AreSound ground.now.instance.now ground.now.duals.now ground.now.step }
    requires room { length ground.now.duals.now.facilities < length levels.old }
    requires symmetries { AreSymmetries ground.now.instance.now ground.now.flows.now ground.now.distances.now }
    requires incumbent { IsIncumbent ground.now.instance.now incumbent.old }
    ensures incumbent { IsIncumbent ground.now.instance.now incumbent.new }
    ensures no_worse { incumbent.new.cost ≤ℤ incumbent.old.cost }
{
    let (first, deeper) = levels.split_at_mut(1);
    let level = &mut first[0];
    ground.begin(node, level, path)?;
    if ground.closes(level, path, incumbent)? {
        return Ok(Estimate {
            nodes: 0.0,
            error: 0.0,
        });
    }
    let line = ground.best_line(level, path, incumbent);
    let estimate = ground.estimate(level, line, deeper, path, incumbent, dives)?;
    Ok(estimate)
}
