//! What a search needs, and its single steps.

ghost use Rattle.std.specs.Prelude.{◌≡◌, ◌<◌, ◌+ℤ◌, ◌≤ℤ◌, false, IfOk, IsTrue, OnOk, length};
ghost use Rattle.std.specs.Option.{ForSome};
ghost use Rattle.qap_cost.specs.Placement.{Placement, IsPlacement};
ghost use Rattle.qap_proof.specs.Cell.{IsPlaceOf, own_on};
ghost use Rattle.pair_duals.specs.PairDuals.{AreDuals, AreOf};
ghost use Rattle.pair_duals.specs.Range.{IsInScale};
ghost use Rattle.pair_duals.specs.Reduced.{AreWithin, IsChild, IsFormOf, IsNonNegative, IsStart, at, count_of};
ghost use Rattle.pair_duals.specs.Seats.{child_at};
ghost use Rattle.subtree_search.specs.Adding.{Extends};
ghost use Rattle.subtree_search.specs.Best.{IsIncumbent};
ghost use Rattle.subtree_search.specs.Closed.{IsClosed, Reaches, ReachesTrivially, StaysWithin, threshold_of};
ghost use Rattle.subtree_search.specs.Drawn.{IsDrawn};
ghost use Rattle.subtree_search.specs.Evaluated.{ClosesByForm};
ghost use Rattle.subtree_search.specs.Lines.{IsLineOf, own_of, side_of};
ghost use Rattle.subtree_search.specs.Opens.{IsOpenAt};
ghost use Rattle.subtree_search.specs.Premises.{AreSound, IsNode, limits_of_64};
ghost use Rattle.subtree_search.specs.Recorded.{HasTree};

use crate::incumbent::Incumbent;
use crate::level::Level;
use crate::line::Line;
use crate::path::Path;
use crate::record::Record;
use crate::split::OpenChild;
use crate::threshold::{greatest_reached, threshold};
use pair_duals::{KeptResiduals, PairDuals, Reduced};
use qap_cost::{Instance, Partial, Perm};
use std::alloc::AllocError;

/// An instance, pair duals of one of its nodes, and a number that divides the cost of every permutation.
#[derive(Drop)]
pub(crate) struct Ground<'a> {
    pub instance: &'a Instance,
    pub duals: &'a PairDuals<i64>,
    pub step: u64,
    /// Permutations that preserve the flows.
    pub flows: &'a [Perm],
    /// Permutations that preserve the distances.
    pub distances: &'a [Perm],
    /// The residuals of pairs, if they are kept.
    pub kept: Option<&'a KeptResiduals<'a, i64>>,
    /// They are those of the instance under the pair duals.
    ghost belongs: { ForSome kept (λ k. k.now ≡ record { problem = instance.now; duals = duals.now }) },
}

impl Ground<'_> {
    /// The threshold above which a node's value closes it.
    pub fn threshold(&self, incumbent: &Incumbent) -> i128
        ensures { result ≡ threshold_of self.now.duals.now.scale self.now.step incumbent.now.cost }
    {
        threshold(self.duals.scale(), self.step, incumbent.cost())
    }

    /// The greatest bound that the value of a node reaches.
    pub fn bound_of(&self, level: &Level) -> i128
        requires { AreSound self.now.instance.now self.now.duals.now self.now.step }
        ensures { Reaches self.now.instance.now self.now.duals.now.scale result level.now.form.value }
    {
        self.duals.duals_law();
        greatest_reached(self.step, self.duals.scale(), level.form.value())
    }

    /// Goes to the node that the pair duals belong to, whose form is made in the level.
    pub fn begin(
        &self,
        node: &Partial,
        level: &mut Level,
        path: &mut Path,
    ) -> Result<(), AllocError>
        requires size { self.now.instance.now.size ≡ node.now.size }
        requires duals { AreOf node.now self.now.duals.now }
        requires sound { AreSound self.now.instance.now self.now.duals.now self.now.step }
        ensures path { OnOk result (path.new ≡ node.now) }
        ensures node { OnOk result (IsNode self.now.instance.now self.now.duals.now self.now.step path.new level.new.form) }
        ensures first { OnOk result (level.new.form.is_lined ≡ false) }
        ensures count { OnOk result (count_of level.new.form ≡ length self.now.duals.now.facilities) }
        ensures start { OnOk result (IsStart self.now.instance.now self.now.duals.now node.now level.new.form) }
    {
        node.placement_law();
        path.start(node)?;
        level.begin(node, self.flows, self.distances)?;
        level.form.start(self.instance, node, self.duals)?;
        Ok(())
    }

    /// The open child that puts row `h` at column `g`, whose form after a line is in `next`.
    pub fn open_child(
        &self,
        level: &Level,
        next: &Level,
        path: &Path,
        h: usize,
        g: usize,
    ) -> OpenChild
        requires node { IsNode self.now.instance.now self.now.duals.now self.now.step path.now level.now.form }
        requires row { h < count_of level.now.form }
        requires column { g < count_of level.now.form }
        requires next { IsNode self.now.instance.now self.now.duals.now self.now.step (child_at path.now h g) next.now.form }
        requires least { IsNonNegative next.now.form }
        ensures opened { IsOpenAt self.now.instance.now self.now.duals.now.scale path.now (child_at path.now h g) result }
        ensures value { result.value ≡ next.now.form.value }
    {
        let facility = self.duals.facility(usize::from(level.form.rows()[h]));
        let location = self.duals.location(usize::from(level.form.columns()[g]));
        OpenChild {
            facility: facility as u16,
            location: location as u16,
            value: next.form.value(),
        }
    }

    /// The facility or the location that a node is split on.
    pub fn number_of(&self, level: &Level, path: &Path, line: Line) -> u16
        requires node { IsNode self.now.instance.now self.now.duals.now self.now.step path.now level.now.form }
        requires line { IsLineOf (count_of level.now.form) line }
        ensures { IsPlaceOf (own_on (side_of line) path.now) result (own_of line) }
    {
        match line {
            Line::Row(h) => self.duals.facility(usize::from(level.form.rows()[h])) as u16,
            Line::Column(g) => self.duals.location(usize::from(level.form.columns()[g])) as u16,
        }
    }

    /// Whether the node that the path leads to prunes the child that puts row `h` at column `g`.
    pub fn prunes(&self, level: &Level, incumbent: &Incumbent, h: usize, g: usize) -> bool
        requires sound { AreSound self.now.instance.now self.now.duals.now self.now.step }
        requires incumbent { IsIncumbent self.now.instance.now incumbent.now }
        requires row { h < count_of level.now.form }
        requires column { g < count_of level.now.form }
        ensures reaches { IsTrue result → Reaches self.now.instance.now self.now.duals.now.scale incumbent.now.cost (level.now.form.value +ℤ at level.now.form h g) }
        ensures kept { result ≡ false → (level.now.form.value +ℤ at level.now.form h g) ≤ℤ threshold_of self.now.duals.now.scale self.now.step incumbent.now.cost }
    {
        let prunes = level.form.prunes(h, g, self.threshold(incumbent));
        prunes
    }

    /// Goes to that child, whose form is made in `next`.
    pub fn descend(
        &self,
        level: &Level,
        next: &mut Level,
        path: &mut Path,
        h: usize,
        g: usize,
    ) -> Result<(), AllocError>
        requires node { IsNode self.now.instance.now self.now.duals.now self.now.step path.old level.now.form }
        requires row { h < count_of level.now.form }
        requires column { g < count_of level.now.form }
        ensures path { OnOk result (path.new ≡ child_at path.old h g) }
        ensures node { OnOk result (IsNode self.now.instance.now self.now.duals.now self.now.step path.new next.new.form) }
        ensures first { OnOk result (next.new.form.is_lined ≡ false) }
        ensures fewer { OnOk result (count_of next.new.form < count_of level.now.form) }
        ensures child { OnOk result (IsChild self.now.instance.now self.now.duals.now level.now.form h g next.new.form) }
    {
        let facility = self.duals.facility(usize::from(level.form.rows()[h]));
        let location = self.duals.location(usize::from(level.form.columns()[g]));
        self.duals.duals_law();
        self.child(&level.form, h, g, &mut next.form)?;
        path.push(facility as u16, location as u16)?;
        Ok(())
    }

    /// Makes `child` the form of the child that puts row `h` at column `g`: by the kept residuals, if there are some.
    fn child(
        &self,
        form: &Reduced<i64>,
        h: usize,
        g: usize,
        child: &mut Reduced<i64>,
    ) -> Result<(), AllocError>
        requires row { h < count_of form.now }
        requires column { g < count_of form.now }
        requires size { self.now.instance.now.size ≡ self.now.duals.now.size }
        requires in_scale { IsInScale limits_of_64 self.now.instance.now self.now.duals.now.scale }
        requires duals { AreDuals limits_of_64 self.now.duals.now }
        requires within { AreWithin self.now.duals.now form.now.rows form.now.columns }
        ensures child { OnOk result (IsChild self.now.instance.now self.now.duals.now form.now h g child.new) }
        ensures form { OnOk result ((y : Placement) → IsPlacement y → IsFormOf self.now.instance.now self.now.duals.now y form.now → IsFormOf self.now.instance.now self.now.duals.now (child_at y h g) child.new) }
    {
        match self.kept {
            Some(kept) => form.child_with(kept, h, g, child),
            None => form.child(self.instance, self.duals, h, g, child),
        }
    }

    /// Whether the node that the path leads to is closed before a line is drawn: by least entries, or since it is a permutation,
    /// by which the incumbent is improved then.
    pub fn closes_at_once(
        &self,
        level: &mut Level,
        path: &Path,
        incumbent: &mut Incumbent,
    ) -> Result<bool, AllocError>
        requires node { IsNode self.now.instance.now self.now.duals.now self.now.step path.now level.old.form }
        requires incumbent { IsIncumbent self.now.instance.now incumbent.old }
        ensures closed { IfOk result (λ closes. IsTrue closes → ReachesTrivially self.now.instance.now self.now.duals.now.scale incumbent.new.cost level.old.form) }
        ensures left { IfOk result (λ closes. closes ≡ false → StaysWithin level.old.form (threshold_of self.now.duals.now.scale self.now.step incumbent.old.cost)) }
        ensures form { level.new.form ≡ level.old.form }
        ensures incumbent { IsIncumbent self.now.instance.now incumbent.new }
        ensures no_worse { incumbent.new.cost ≤ℤ incumbent.old.cost }
    {
        if level.closes_trivially(self.threshold(incumbent))? {
            return Ok(true);
        }
        if level.form.free() > 0 {
            return Ok(false);
        }
        self.finish(level, path, incumbent)?;
        Ok(true)
    }

    /// The same for the child that puts row `h` of a parent at column `g`. If it is not closed, it takes from the parent what
    /// its search starts from; most children are closed, and never need it.
    pub fn closes_below(
        &self,
        parent: &Level,
        level: &mut Level,
        path: &Path,
        incumbent: &mut Incumbent,
        h: usize,
        g: usize,
    ) -> Result<bool, AllocError>
        requires node { IsNode self.now.instance.now self.now.duals.now self.now.step path.now level.old.form }
        requires incumbent { IsIncumbent self.now.instance.now incumbent.old }
        ensures closed { IfOk result (λ closes. IsTrue closes → ReachesTrivially self.now.instance.now self.now.duals.now.scale incumbent.new.cost level.old.form) }
        ensures left { IfOk result (λ closes. closes ≡ false → StaysWithin level.old.form (threshold_of self.now.duals.now.scale self.now.step incumbent.old.cost)) }
        ensures form { level.new.form ≡ level.old.form }
        ensures incumbent { IsIncumbent self.now.instance.now incumbent.new }
        ensures no_worse { incumbent.new.cost ≤ℤ incumbent.old.cost }
    {
        if self.closes_at_once(level, path, incumbent)? {
            return Ok(true);
        }
        level.inherit(parent, h, g, self.flows, self.distances, path)?;
        Ok(false)
    }

    /// Whether the value of the node that the path leads to closes it once a line is drawn; or it is a permutation, by which the
    /// incumbent is improved then.
    pub fn closes_by_value(
        &self,
        level: &Level,
        path: &Path,
        incumbent: &mut Incumbent,
    ) -> Result<bool, AllocError>
        requires node { IsNode self.now.instance.now self.now.duals.now self.now.step path.now level.now.form }
        requires incumbent { IsIncumbent self.now.instance.now incumbent.old }
        ensures closed { IfOk result (λ closes. IsTrue closes → Reaches self.now.instance.now self.now.duals.now.scale incumbent.new.cost level.now.form.value) }
        ensures left { IfOk result (λ closes. closes ≡ false → 0 < count_of level.now.form) }
        ensures within { IfOk result (λ closes. closes ≡ false → level.now.form.value ≤ℤ threshold_of self.now.duals.now.scale self.now.step incumbent.old.cost) }
        ensures incumbent { IsIncumbent self.now.instance.now incumbent.new }
        ensures no_worse { incumbent.new.cost ≤ℤ incumbent.old.cost }
    {
        if level.form.closes(self.threshold(incumbent)) {
            return Ok(true);
        }
        if level.form.free() > 0 {
            return Ok(false);
        }
        self.finish(level, path, incumbent)?;
        Ok(true)
    }

    /// Whether the node at the end of the path is closed, by either test. If it is not, its line is applied.
    pub fn closes(
        &self,
        level: &mut Level,
        path: &Path,
        incumbent: &mut Incumbent,
    ) -> Result<bool, AllocError>
        requires node { IsNode self.now.instance.now self.now.duals.now self.now.step path.now level.old.form }
        requires first { level.old.form.is_lined ≡ false }
        requires incumbent { IsIncumbent self.now.instance.now incumbent.old }
        ensures closed { IfOk result (λ closes. IsTrue closes → IsClosed self.now.instance.now path.now incumbent.new.cost) }
        ensures left { IfOk result (λ closes. closes ≡ false → IsDrawn level.old.form level.new.form level.new.u.items) }
        ensures incumbent { IsIncumbent self.now.instance.now incumbent.new }
        ensures no_worse { incumbent.new.cost ≤ℤ incumbent.old.cost }
    {
        if self.closes_at_once(level, path, incumbent)? {
            return Ok(true);
        }
        level.draw_line(self.threshold(incumbent))?;
        let closes = self.closes_by_value(level, path, incumbent)?;
        Ok(closes)
    }

    /// Draws the line of the node that the path leads to. Whether its value closes the node then, which is recorded as a leaf.
    pub fn closes_as_leaf<W: Record>(
        &self,
        level: &mut Level,
        path: &Path,
        incumbent: &mut Incumbent,
        proof: &mut W,
    ) -> Result<bool, AllocError>
        requires node { IsNode self.now.instance.now self.now.duals.now self.now.step path.now level.old.form }
        requires first { level.old.form.is_lined ≡ false }
        requires incumbent { IsIncumbent self.now.instance.now incumbent.old }
        ensures closed { IfOk result (λ closes. IsTrue closes → ClosesByForm self.now.instance.now self.now.duals.now.scale incumbent.new.cost level.old.form) }
        ensures recorded { IfOk result (λ closes. IsTrue closes → HasTree self.now.instance.now self.now.duals.now path.now level.old.form incumbent.new.cost (W.holds proof.old) (W.holds proof.new)) }
        ensures extended { OnOk result (Extends (W.holds proof.old) (W.holds proof.new)) }
        ensures drawn { IfOk result (λ closes. closes ≡ false → IsDrawn level.old.form level.new.form level.new.u.items) }
        ensures left { IfOk result (λ closes. closes ≡ false → proof.new ≡ proof.old) }
        ensures within { IfOk result (λ closes. closes ≡ false → level.new.form.value ≤ℤ threshold_of self.now.duals.now.scale self.now.step incumbent.old.cost) }
        ensures incumbent { IsIncumbent self.now.instance.now incumbent.new }
        ensures no_worse { incumbent.new.cost ≤ℤ incumbent.old.cost }
    {
        level.draw_line(self.threshold(incumbent))?;
        if self.closes_by_value(level, path, incumbent)? {
            proof.leaf(level.u())?;
            return Ok(true);
        }
        Ok(false)
    }

    /// Improves the incumbent by the permutation that a node with no free facility is, where that costs less.
    fn finish(
        &self,
        level: &Level,
        path: &Path,
        incumbent: &mut Incumbent,
    ) -> Result<(), AllocError>
        requires node { IsNode self.now.instance.now self.now.duals.now self.now.step path.now level.now.form }
        requires whole { count_of level.now.form ≡ 0 }
        requires incumbent { IsIncumbent self.now.instance.now incumbent.old }
        ensures closed { OnOk result (Reaches self.now.instance.now self.now.duals.now.scale incumbent.new.cost level.now.form.value) }
        ensures incumbent { IsIncumbent self.now.instance.now incumbent.new }
        ensures no_worse { incumbent.new.cost ≤ℤ incumbent.old.cost }
    {
        self.duals.duals_law();
        let candidate = path.completion()?;
        incumbent.offer(self.instance, candidate);
        Ok(())
    }
}
