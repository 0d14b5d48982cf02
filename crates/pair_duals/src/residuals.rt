//! The residuals of pairs under pair duals.

ghost use Rattle.std.specs.Prelude.{◌≡◌, ◌-◌, ◌*◌, ◌<◌, length, map, remove, OnOk};
ghost use Rattle.qap_cost.specs.Instance.{Problem};
ghost use Rattle.pair_duals.specs.Filling.{FillsRows};
ghost use Rattle.pair_duals.specs.PairDuals.{Duals};
ghost use Rattle.pair_duals.specs.Range.{IsInScale};
ghost use Rattle.pair_duals.specs.Reduced.{AreWithin, child_entry, count_of};

use crate::child::Shared;
use crate::number::Number;
use crate::reduced::Reduced;
use std::alloc::AllocError;

/// What pair duals leave of the scaled cost of each pair of facilities at each pair of locations: the numbers
/// `E(i, k, j, l) = s q(i, k, j, l) - alpha(i, k, j) - beta(i, k, l) - alpha(j, l, i) - beta(j, l, k)`.
pub trait Residuals<N: Number> {
    ghost problem: { Self → Problem };

    ghost duals: { Self → Duals };

    /// Writes the entries of the child of `parent` that puts row `h` at column `g`: those of the parent, each with the
    /// residual of its pair with the facility that is put there. `columns` are the child's.
    fn write_child(
        &self,
        shared: &mut Shared<N>,
        parent: &Reduced<N>,
        h: usize,
        g: usize,
        columns: &[u16],
        entries: &mut [N],
    ) -> Result<(), AllocError>
        requires row { h < count_of parent.now }
        requires column { g < count_of parent.now }
        requires columns { columns.now ≡ remove parent.now.columns g }
        requires size { (problem self.now).size ≡ (duals self.now).size }
        requires in_scale { IsInScale N.limits (problem self.now) (duals self.now).scale }
        requires within { AreWithin (duals self.now) parent.now.rows parent.now.columns }
        requires room { length entries.old ≡ (count_of parent.now - 1) * (count_of parent.now - 1) }
        ensures { OnOk result (FillsRows (count_of parent.now - 1) (child_entry (problem self.now) (duals self.now) parent.now.rows parent.now.columns parent.now.entries h g) (count_of parent.now - 1) (map N.value entries.old) (map N.value entries.new)) };
}
