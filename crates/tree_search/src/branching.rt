//! The split of a node, and the order in which its children are searched.

ghost use Rattle.std.specs.Prelude.{◌<◌};
ghost use Rattle.tree_search.specs.Evaluation.{HasLines};

use crate::evaluation::Evaluation;
use crate::gain::best_line;
use crate::ground::Ground;
use crate::symmetry::{Symmetry, symmetric_children};
use qap_cost::Partial;
use qap_proof::{Side, SplitLine};
use std::alloc::{AllocError, Global};

/// A split of a node.
#[derive(Drop)]
pub(crate) struct Branch {
    pub(crate) split: SplitLine,
    /// The symmetry of each child to an earlier one, if it has any.
    pub(crate) symmetries: Vec<Option<Symmetry>>,
    /// All children, in ascending order of their values.
    pub(crate) children: Vec<Child>,
}

/// A child of a split.
#[derive(Clone, Copy)]
pub(crate) struct Child {
    /// Its number, counted from 0 in ascending order of the other side.
    pub(crate) number: usize,
    /// The location of the facility that the split is on, or the facility at the location.
    pub(crate) other: u16,
    /// The value of the split's duals, with the reduced cost of the pair that it places: no completion costs less.
    pub(crate) value: i128,
}

/// The split on the free facility or location with the most children that are pruned at this cost, or symmetric to
/// earlier ones; of equal ones that whose other children have the greatest sum of reduced costs.
pub(crate) fn branch_of<S>(
    ground: &Ground<'_, S>,
    node: &Partial,
    evaluation: Evaluation,
    cost: i128,
) -> Result<Branch, AllocError>
    requires lines { HasLines evaluation }
    requires some { 0 < evaluation.matrix.size }
{
    let alloc = ground.alloc;
    let gap = cost.wrapping_sub(evaluation.value);
    let (facilities, locations) = (&evaluation.facilities, &evaluation.locations);
    let on_facility = symmetric_children(alloc, &ground.distances, node.places(), locations)?;
    let on_location = symmetric_children(alloc, &ground.flows, node.facilities(), facilities)?;
    let row = best_line(&evaluation, Side::Facility, &on_facility, gap);
    let column = best_line(&evaluation, Side::Location, &on_location, gap);
    if column.saves_more(&row) {
        split_on(
            alloc,
            evaluation,
            Side::Location,
            column.number,
            on_location,
        )
    } else {
        split_on(alloc, evaluation, Side::Facility, row.number, on_facility)
    }
}

/// The split on the facility or location of the row or column of this number.
fn split_on(
    alloc: Global,
    evaluation: Evaluation,
    side: Side,
    number: usize,
    symmetries: Vec<Option<Symmetry>>,
) -> Result<Branch, AllocError>
    requires lines { HasLines evaluation }
    requires inside { number < evaluation.matrix.size }
{
    let mut children = children_on(alloc, &evaluation, side, number)?;
    children.sort_by_key(|child| child.value)?;
    let own = match side {
        Side::Facility => evaluation.facilities[number],
        Side::Location => evaluation.locations[number],
    };
    let split = SplitLine {
        side,
        number: own,
        duals: Some(evaluation.duals.kept()),
    };
    Ok(Branch {
        split,
        symmetries,
        children,
    })
}

/// The children of that split, in order of their numbers.
fn children_on(
    alloc: Global,
    evaluation: &Evaluation,
    side: Side,
    own: usize,
) -> Result<Vec<Child>, AllocError>
    requires lines { HasLines evaluation.now }
    requires inside { own < evaluation.now.matrix.size }
{
    let others = evaluation.others(side);
    let mut children = Vec::with_capacity(alloc, others.len())?;
    for (number, other) in others.iter().enumerate() {
        let reduced = evaluation.reduced_cost(side, own, number);
        children.push(Child {
            number,
            other: *other,
            value: evaluation.value.wrapping_add(reduced),
        })?;
    }
    Ok(children)
}
