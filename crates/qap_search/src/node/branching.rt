//! The facility that a node is split on.

ghost use Rattle.std.specs.Prelude.{◌≡◌, ◌<◌, ℕ, MatchOption, length, slice_index};
ghost use Rattle.qap_cost.specs.Placement.{IsFreeFacility};
ghost use Rattle.qap_cost.specs.Range.{AllLimited};
ghost use Rattle.gilmore_lawler.specs.Closing.{AreDuals};
ghost use Rattle.qap_cost.specs.Completion.{IsMatching};
ghost use Rattle.qap_search.specs.Node.Free.{IsFreeOf};

use qap_cost::Partial;

/// The free facilities and locations of a node, both ascending.
#[derive(Drop)]
pub(crate) struct Free<'a> {
    pub(crate) facilities: &'a [u16],
    pub(crate) locations: &'a [u16],
}

/// The free facility of the greatest matched entry, the sum of its dual and of that of its location, in a least
/// assignment with its duals; of equal ones the first. `None` if no facility is free.
pub(crate) fn branch_of(
    node: &Partial,
    free: &Free<'_>,
    matching: &[u16],
    u: &[i128],
    v: &[i128],
) -> Option<u16>
    requires free { IsFreeOf node.now free.now }
    requires matching { IsMatching node.now matching.now }
    requires duals { AreDuals (length matching.now) u.now v.now }
    ensures { MatchOption result (length node.now.facilities ≡ node.now.size) (IsFreeFacility node.now) }
{
    node.placement_law();
    if matching.is_empty() {
        return None;
    }
    let row = greatest_row(matching, u, v);
    Some(free.facilities[row])
}

/// The row whose matched entry is greatest; of equal ones the first.
fn greatest_row(matching: &[u16], u: &[i128], v: &[i128]) -> usize
    requires some { 0 < length matching.now }
    requires columns { (r : ℕ) → r < length matching.now → slice_index matching.now r < length matching.now }
    requires u_count { length u.now ≡ length matching.now }
    requires v_count { length v.now ≡ length matching.now }
    requires u_range { AllLimited u.now }
    requires v_range { AllLimited v.now }
    ensures { result < length matching.now }
{
    let mut row = 0;
    for r in 1..matching.len() {
        let (old, new) = (usize::from(matching[row]), usize::from(matching[r]));
        if u[r] + v[new] > u[row] + v[old] {
            row = r;
        }
    }
    row
}
