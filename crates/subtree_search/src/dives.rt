//! Chooses the line to split on: by its entries, or by random dives that estimate the number of nodes below (Knuth 1975).

ghost use Rattle.std.specs.Prelude.{◌≡◌, ◌<◌, ◌≤◌, ◌≤ℤ◌, false, IfOk, OnOk, length};
ghost use Rattle.std.specs.Option.{IfSome};
ghost use Rattle.pair_duals.specs.Reduced.{count_of};
ghost use Rattle.pair_duals.specs.Seats.{child_at};
ghost use Rattle.subtree_search.specs.Best.{IsIncumbent};
ghost use Rattle.subtree_search.specs.Lines.{IsLineOf};
ghost use Rattle.subtree_search.specs.Premises.{AreSymmetries, IsNode};

use crate::estimating::Estimate;
use crate::ground::Ground;
use crate::incumbent::Incumbent;
use crate::level::{Level, gap_to};
use crate::line::{Hints, Line, best_line, entry_on, hinted_line, lack, nth};
use crate::path::Path;
use qap_symmetry::Table;
use rand_core::{Rng, SeedableRng};
use rand_xoshiro::Xoshiro256PlusPlus;
use std::alloc::AllocError;
use std::num::nearest_i64_to_f64;

/// How many rows, and how many columns, are sampled.
const LINES: usize = 4;

/// How many dives estimate the nodes below a line.
const DIVES: u32 = 30;

/// How many dives estimate the nodes of a trial.
const FEW_DIVES: u32 = 10;

/// The seed of the dives below each line.
const SEED: u64 = 1;

/// The child that a dive goes to.
#[derive(Clone, Copy)]
struct Draw {
    /// Its number on the line.
    k: usize,
    /// How many children are left on it.
    count: f64,
    /// How many children it represents: the inverse of its probability.
    weight: f64,
}

/// A number from 0 to 1.
fn uniform(random: &mut Xoshiro256PlusPlus) -> f64 {
    let number = random.next_u64() >> 11;
    nearest_i64_to_f64(i64::try_from(number).unwrap_or(0)) / 9_007_199_254_740_992.0
}

impl Ground<'_> {
    /// The row or column to split on: its entries together lack least to the gap, without those of symmetric children.
    pub fn best_line(&self, level: &Level, path: &Path, incumbent: &Incumbent) -> Line
        requires node { IsNode self.now.instance.now self.now.duals.now self.now.step path.now level.now.form }
        requires left { 0 < count_of level.now.form }
        requires symmetries { AreSymmetries self.now.instance.now self.now.flows.now self.now.distances.now }
        ensures { IsLineOf (count_of level.now.form) result }
    {
        let threshold = self.threshold(incumbent);
        if level.kept(Table::Flows).is_empty() && level.kept(Table::Distances).is_empty() {
            return best_line(&level.form, threshold);
        }
        let hints = self.hints(level, path);
        hinted_line(&level.form, threshold, &hints)
    }

    /// Whether the child of number `k` on a line is neither pruned nor symmetric to an earlier one.
    fn is_left(
        &self,
        level: &Level,
        path: &Path,
        incumbent: &Incumbent,
        line: Line,
        k: usize,
    ) -> bool
        requires node { IsNode self.now.instance.now self.now.duals.now self.now.step path.now level.now.form }
        requires line { IsLineOf (count_of level.now.form) line }
        requires k_in { k < count_of level.now.form }
        requires symmetries { AreSymmetries self.now.instance.now self.now.flows.now self.now.distances.now }
        requires incumbent { IsIncumbent self.now.instance.now incumbent.now }
    {
        !self.prunes(level, incumbent, line.row(k), line.column(k))
            && !self.is_image(level, path, line.table(), k)
    }

    /// The chance of the child of number `k`: the greater, the further it is from being pruned.
    fn chance(&self, level: &Level, incumbent: &Incumbent, line: Line, k: usize) -> f64
        requires line { IsLineOf (count_of level.now.form) line }
        requires k_in { k < count_of level.now.form }
    {
        let gap = nearest_i64_to_f64(gap_to(&level.form, self.threshold(incumbent)).max(1));
        let rest = 1.0 - nearest_i64_to_f64(entry_on(&level.form, line, k)) / gap;
        let square = rest * rest;
        square * square + 0.01
    }

    /// How many children are left on a line, and the sum of their chances.
    fn chances(&self, level: &Level, path: &Path, incumbent: &Incumbent, line: Line) -> (f64, f64)
        requires node { IsNode self.now.instance.now self.now.duals.now self.now.step path.now level.now.form }
        requires line { IsLineOf (count_of level.now.form) line }
        requires symmetries { AreSymmetries self.now.instance.now self.now.flows.now self.now.distances.now }
        requires incumbent { IsIncumbent self.now.instance.now incumbent.now }
    {
        let mut count = 0.0;
        let mut total = 0.0;
        for k in 0..level.form.free() {
            if self.is_left(level, path, incumbent, line, k) {
                count += 1.0;
                total += self.chance(level, incumbent, line, k);
            }
        }
        (count, total)
    }

    /// Draws one of the children that are left on a line, if there is one.
    fn draw(
        &self,
        level: &Level,
        path: &Path,
        incumbent: &Incumbent,
        line: Line,
        random: &mut Xoshiro256PlusPlus,
    ) -> Option<Draw>
        requires node { IsNode self.now.instance.now self.now.duals.now self.now.step path.now level.now.form }
        requires line { IsLineOf (count_of level.now.form) line }
        requires symmetries { AreSymmetries self.now.instance.now self.now.flows.now self.now.distances.now }
        requires incumbent { IsIncumbent self.now.instance.now incumbent.now }
        ensures { IfSome result (λ d. d.k < count_of level.now.form) }
    {
        let (count, total) = self.chances(level, path, incumbent, line);
        let mut rest = uniform(random) * total;
        for k in 0..level.form.free() {
            if self.is_left(level, path, incumbent, line, k) {
                let own = self.chance(level, incumbent, line, k);
                if rest < own {
                    let weight = total / own;
                    return Some(Draw { k, count, weight });
                }
                rest -= own;
            }
        }
        None
    }

    /// Goes to the child that puts row `h` at column `g`, with what its search starts from.
    fn follow(
        &self,
        level: &Level,
        next: &mut Level,
        path: &mut Path,
        h: usize,
        g: usize,
    ) -> Result<(), AllocError>
        requires node { IsNode self.now.instance.now self.now.duals.now self.now.step path.old level.now.form }
        requires row { h < count_of level.now.form }
        requires column { g < count_of level.now.form }
        ensures path { OnOk result (path.new ≡ child_at path.old h g) }
        ensures node { OnOk result (IsNode self.now.instance.now self.now.duals.now self.now.step path.new next.new.form) }
        ensures first { OnOk result (next.new.form.is_lined ≡ false) }
        ensures fewer { OnOk result (count_of next.new.form < count_of level.now.form) }
    {
        self.descend(level, next, path, h, g)?;
        next.inherit(level, h, g, self.flows, self.distances, path)
    }

    /// The nodes that a random dive below a line represents.
    #[cycle(diving)]
    fn dive(
        &self,
        level: &Level,
        line: Line,
        deeper: &mut [Level],
        path: &mut Path,
        incumbent: &mut Incumbent,
        random: &mut Xoshiro256PlusPlus,
    ) -> Result<f64, AllocError>
        requires node { IsNode self.now.instance.now self.now.duals.now self.now.step path.old level.now.form }
        requires line { IsLineOf (count_of level.now.form) line }
        requires room { count_of level.now.form ≤ length deeper.old }
        requires symmetries { AreSymmetries self.now.instance.now self.now.flows.now self.now.distances.now }
        requires incumbent { IsIncumbent self.now.instance.now incumbent.old }
        ensures path { OnOk result (path.new ≡ path.old) }
        ensures incumbent { IsIncumbent self.now.instance.now incumbent.new }
        ensures no_worse { incumbent.new.cost ≤ℤ incumbent.old.cost }
    {
        let Some(draw) = self.draw(level, path, incumbent, line, random) else {
            return Ok(0.0);
        };
        let (h, g) = (line.row(draw.k), line.column(draw.k));
        let (first, rest) = deeper.split_at_mut(1);
        let next = &mut first[0];
        self.follow(level, next, path, h, g)?;
        let below = self.dive_below(next, rest, path, incumbent, random)?;
        path.pop();
        Ok(draw.count + draw.weight * below)
    }

    /// The nodes that a random dive below a node represents.
    #[cycle(diving)]
    fn dive_below(
        &self,
        level: &mut Level,
        deeper: &mut [Level],
        path: &mut Path,
        incumbent: &mut Incumbent,
        random: &mut Xoshiro256PlusPlus,
    ) -> Result<f64, AllocError>
        requires node { IsNode self.now.instance.now self.now.duals.now self.now.step path.old level.old.form }
        requires first { level.old.form.is_lined ≡ false }
        requires room { count_of level.old.form ≤ length deeper.old }
        requires symmetries { AreSymmetries self.now.instance.now self.now.flows.now self.now.distances.now }
        requires incumbent { IsIncumbent self.now.instance.now incumbent.old }
        ensures path { OnOk result (path.new ≡ path.old) }
        ensures incumbent { IsIncumbent self.now.instance.now incumbent.new }
        ensures no_worse { incumbent.new.cost ≤ℤ incumbent.old.cost }
    {
        if self.closes(level, path, incumbent)? {
            return Ok(0.0);
        }
        let line = self.best_line(level, path, incumbent);
        self.dive(level, line, deeper, path, incumbent, random)
    }
}

impl Ground<'_> {
    /// The estimate of the nodes below a line by this many dives.
    pub fn estimate(
        &self,
        level: &Level,
        line: Line,
        deeper: &mut [Level],
        path: &mut Path,
        incumbent: &mut Incumbent,
        dives: u32,
    ) -> Result<Estimate, AllocError>
        requires node { IsNode self.now.instance.now self.now.duals.now self.now.step path.old level.now.form }
        requires line { IsLineOf (count_of level.now.form) line }
        requires room { count_of level.now.form ≤ length deeper.old }
        requires symmetries { AreSymmetries self.now.instance.now self.now.flows.now self.now.distances.now }
        requires incumbent { IsIncumbent self.now.instance.now incumbent.old }
        ensures path { OnOk result (path.new ≡ path.old) }
        ensures incumbent { IsIncumbent self.now.instance.now incumbent.new }
        ensures no_worse { incumbent.new.cost ≤ℤ incumbent.old.cost }
    {
        let mut random = Xoshiro256PlusPlus::seed_from_u64(SEED);
        let mut total = 0.0;
        let mut squares = 0.0;
        'dives: for _ in 0..dives {
            let nodes = self.dive(level, line, deeper, path, incumbent, &mut random)?;
            total += nodes;
            squares += nodes * nodes;
        }
        Ok(Estimate::of_sums(dives, total, squares))
    }

    /// Whether a few dives estimate the nodes below a node at more than four times as many as its trial may evaluate.
    pub fn is_hopeless(
        &self,
        level: &Level,
        deeper: &mut [Level],
        path: &mut Path,
        incumbent: &mut Incumbent,
        limit: u64,
    ) -> Result<bool, AllocError>
        requires node { IsNode self.now.instance.now self.now.duals.now self.now.step path.old level.now.form }
        requires left { 0 < count_of level.now.form }
        requires room { count_of level.now.form ≤ length deeper.old }
        requires symmetries { AreSymmetries self.now.instance.now self.now.flows.now self.now.distances.now }
        requires incumbent { IsIncumbent self.now.instance.now incumbent.old }
        ensures path { OnOk result (path.new ≡ path.old) }
        ensures incumbent { IsIncumbent self.now.instance.now incumbent.new }
        ensures no_worse { incumbent.new.cost ≤ℤ incumbent.old.cost }
    {
        let line = self.best_line(level, path, incumbent);
        let estimate = self.estimate(level, line, deeper, path, incumbent, FEW_DIVES)?;
        let most = i64::try_from(limit.saturating_mul(4)).unwrap_or(i64::MAX);
        Ok(estimate.nodes > nearest_i64_to_f64(most))
    }

    /// The line below which dives estimate the fewest nodes, of the four rows and the four columns that lack least
    /// to the gap.
    pub fn sampled_line(
        &self,
        level: &Level,
        deeper: &mut [Level],
        path: &mut Path,
        incumbent: &mut Incumbent,
    ) -> Result<Line, AllocError>
        requires node { IsNode self.now.instance.now self.now.duals.now self.now.step path.old level.now.form }
        requires left { 0 < count_of level.now.form }
        requires room { count_of level.now.form ≤ length deeper.old }
        requires symmetries { AreSymmetries self.now.instance.now self.now.flows.now self.now.distances.now }
        requires incumbent { IsIncumbent self.now.instance.now incumbent.old }
        ensures line { IfOk result (IsLineOf (count_of level.now.form)) }
        ensures path { OnOk result (path.new ≡ path.old) }
        ensures incumbent { IsIncumbent self.now.instance.now incumbent.new }
        ensures no_worse { incumbent.new.cost ≤ℤ incumbent.old.cost }
    {
        let threshold = self.threshold(incumbent);
        let hints = self.hints(level, path);
        let mut best = self.best_line(level, path, incumbent);
        let mut fewest = f64::INFINITY;
        for rank in 0..2 * LINES {
            let line = ranked_line(level, threshold, rank, &hints);
            let estimate = self.estimate(level, line, deeper, path, incumbent, DIVES)?;
            if estimate.nodes < fewest {
                best = line;
                fewest = estimate.nodes;
            }
        }
        Ok(best)
    }
}

/// Of the rows, for an even rank, or else of the columns, the one before which half as many lack less to the gap.
fn ranked_line(level: &Level, threshold: i128, rank: usize, hints: &Hints) -> Line
    requires { 0 < count_of level.now.form }
    ensures { IsLineOf (count_of level.now.form) result }
{
    let is_row = rank % 2 == 0;
    let mut line = nth(is_row, 0);
    for k in 0..level.form.free() {
        let other = nth(is_row, k);
        if lines_before(level, threshold, other, is_row, hints) == rank / 2 {
            line = other;
        }
    }
    line
}

/// How many rows or columns lack less to the gap than this one, or as little and come before it.
fn lines_before(level: &Level, threshold: i128, line: Line, is_row: bool, hints: &Hints) -> usize
    requires { IsLineOf (count_of level.now.form) line }
{
    let gap = gap_to(&level.form, threshold).saturating_add(1);
    let own = lack(&level.form, line, gap, hints);
    let mut count: usize = 0;
    let mut is_past = false;
    for k in 0..level.form.free() {
        let other = nth(is_row, k);
        is_past = is_past || other == line;
        let theirs = lack(&level.form, other, gap, hints);
        if theirs < own || theirs == own && !is_past {
            count = count.saturating_add(1);
        }
    }
    count
}
