//! Which exchange a tabu search makes next (Taillard 1991).

ghost use Rattle.std.specs.Prelude.{◌≡◌, ◌+◌, ◌*◌, ◌<◌, ◌≤◌, IfSome, length};
ghost use Rattle.qap_cost.specs.Bijection.{IsBijection};
ghost use Rattle.qap_improve.specs.Moving.{Moves};
ghost use Rattle.qap_improve.specs.Pair.{IsPair, IsPairIfAny};

use crate::memory::{Memory, Verdict};
use crate::number::Number;

/// An exchange of the facilities `first` and `second`.
#[derive(Clone, Copy)]
pub(crate) struct Choice {
    pub first: usize,
    pub second: usize,
}

/// The exchange that has priority over all others seen so far; before any is found, that of a facility with itself.
///
/// Its parts are side by side, without an `Option`, so that they stay in registers during the enumeration of the pairs.
#[derive(Clone, Copy)]
struct Best<N> {
    first: usize,
    second: usize,
    /// What it changes the cost by.
    difference: N,
    /// Whether it has priority over those that do not aspire.
    aspires: bool,
}

/// The exchange to make of two facilities that may move, with the facilities at these locations: of those that aspire
/// the one that costs least, and if none does, of those that are not tabu; of equal ones the first.
///
/// One aspires whose difference is below `bar`, or that is due.
pub(crate) fn choose<N: Number>(
    memory: &Memory,
    locations: &[u16],
    may_move: &[bool],
    differences: &[N],
    bar: N,
) -> Option<Choice>
    requires permutation { IsBijection locations.now }
    requires size { memory.now.size ≡ length locations.now }
    requires movable { length may_move.now ≡ length locations.now }
    requires count { length differences.now ≡ length locations.now * length locations.now }
    ensures { IfSome result (IsPair (length locations.now) may_move.now) }
{
    let mut best = Best {
        first: 0,
        second: 0,
        difference: N::greatest(),
        aspires: false,
    };
    for r in 0..locations.len() {
        best = best_with(memory, locations, may_move, differences, bar, r, best);
    }
    if best.first < best.second {
        Some(Choice {
            first: best.first,
            second: best.second,
        })
    } else {
        None
    }
}

/// The best so far, or one of the exchanges of facility `r` and a greater one, if both may move.
fn best_with<N: Number>(
    memory: &Memory,
    locations: &[u16],
    may_move: &[bool],
    differences: &[N],
    bar: N,
    r: usize,
    known: Best<N>,
) -> Best<N>
    requires permutation { IsBijection locations.now }
    requires size { memory.now.size ≡ length locations.now }
    requires movable { length may_move.now ≡ length locations.now }
    requires count { length differences.now ≡ length locations.now * length locations.now }
    requires first { r < length locations.now }
    requires known { IsPairIfAny (length locations.now) may_move.now known.first known.second }
    ensures { IsPairIfAny (length locations.now) may_move.now result.first result.second }
{
    if !may_move[r] {
        return known;
    }
    let n = locations.len();
    let start = r * n;
    let row = &differences[start..start + n];
    let mut best = known;
    for s in r + 1..n {
        let difference = row[s];
        if difference.is_less(best.difference) || memory.may_be_due(r, usize::from(locations[s])) {
            best = better(memory, locations, may_move, difference, bar, (r, s), best);
        }
    }
    best
}

/// The exchange of this pair, whose first facility may move, if it may be made and has priority over the best so far,
/// and otherwise the latter.
fn better<N: Number>(
    memory: &Memory,
    locations: &[u16],
    may_move: &[bool],
    difference: N,
    bar: N,
    pair: (usize, usize),
    best: Best<N>,
) -> Best<N>
    requires permutation { IsBijection locations.now }
    requires size { memory.now.size ≡ length locations.now }
    requires movable { length may_move.now ≡ length locations.now }
    requires order { pair.0 < pair.1 }
    requires second { pair.1 < length locations.now }
    requires first_moves { Moves may_move.now pair.0 }
    requires best { IsPairIfAny (length locations.now) may_move.now best.first best.second }
    ensures { IsPairIfAny (length locations.now) may_move.now result.first result.second }
{
    let (first, second) = pair;
    if !may_move[second] {
        return best;
    }
    let to = usize::from(locations[second]);
    let back = usize::from(locations[first]);
    let verdict = memory.verdict(first, to, second, back);
    let is_below_bar = difference.is_less(bar);
    let is_less = difference.is_less(best.difference);
    let aspires = match verdict {
        Verdict::Due => true,
        Verdict::Free | Verdict::Tabu => is_below_bar,
    };
    let may_be_made = match verdict {
        Verdict::Tabu => is_below_bar,
        Verdict::Due | Verdict::Free => true,
    };
    let goes_before = if aspires == best.aspires {
        is_less
    } else {
        aspires
    };
    if may_be_made && goes_before {
        Best {
            first,
            second,
            difference,
            aspires,
        }
    } else {
        best
    }
}
