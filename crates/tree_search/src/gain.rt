//! Which split of a node saves most.

ghost use Rattle.std.specs.Prelude.{◌≡◌, ◌<◌};
ghost use Rattle.tree_search.specs.Evaluation.{HasLines};

use crate::evaluation::Evaluation;
use crate::symmetry::Symmetry;
use qap_proof::Side;

/// The row or column of the facility or location that a split is on, and what it saves.
#[derive(Clone, Copy)]
pub(crate) struct Line {
    pub(crate) number: usize,
    /// How many of its children are pruned or symmetric.
    pub(crate) spared: usize,
    /// The sum of the reduced costs of the others.
    pub(crate) sum: i128,
}

impl Line {
    /// Whether it saves more than the other.
    pub(crate) fn saves_more(&self, other: &Line) -> bool {
        self.spared > other.spared || (self.spared == other.spared && self.sum > other.sum)
    }
}

/// The line of this side that saves most, where a child is pruned if its reduced cost is at least the gap; of equal
/// ones the first.
pub(crate) fn best_line(
    evaluation: &Evaluation,
    side: Side,
    symmetries: &[Option<Symmetry>],
    gap: i128,
) -> Line
    requires lines { HasLines evaluation.now }
    requires some { 0 < evaluation.now.matrix.size }
    ensures { result.number < evaluation.now.matrix.size }
{
    let mut best = line_at(evaluation, side, 0, symmetries, gap);
    for number in 1..evaluation.matrix.size() {
        let line = line_at(evaluation, side, number, symmetries, gap);
        if line.saves_more(&best) {
            best = line;
        }
    }
    best
}

/// The line of this number.
fn line_at(
    evaluation: &Evaluation,
    side: Side,
    number: usize,
    symmetries: &[Option<Symmetry>],
    gap: i128,
) -> Line
    requires lines { HasLines evaluation.now }
    requires inside { number < evaluation.now.matrix.size }
    ensures { result.number ≡ number }
{
    let mut spared = 0usize;
    let mut sum = 0i128;
    for child in 0..evaluation.matrix.size() {
        let reduced = evaluation.reduced_cost(side, number, child);
        if reduced >= gap || matches!(symmetries.get(child), Some(Some(_))) {
            spared = spared.wrapping_add(1);
        } else {
            sum = sum.wrapping_add(reduced);
        }
    }
    Line {
        number,
        spared,
        sum,
    }
}
