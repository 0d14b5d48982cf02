//! Listed arrangements as permutations.

ghost use Rattle.std.specs.Prelude.{◌≡◌, IfOk, length};
ghost use Rattle.plan_check.specs.Layout.{IsLayoutOf};
ghost use Rattle.plan_file.specs.Tables.{HasSizes};

use plan_file::{LayoutError, NamedProblem, completed, layout_node};
use qap_cost::Perm;
use std::alloc::Global;

/// The arrangement that a text lists: a department and its place on each line. Dummy departments take the remaining
/// places, as in `any` if possible.
pub fn layout_of(
    alloc: Global,
    problem: &NamedProblem,
    text: &[u8],
    any: &Perm,
) -> Result<Perm, LayoutError>
    requires sizes { HasSizes problem.now }
    requires same_size { length any.now ≡ problem.now.instance.size }
    ensures { IfOk result (IsLayoutOf problem.now text.now) }
{
    let node = layout_node(alloc, text, &problem.departments, &problem.places)?;
    let arrangement = completed(&node, any)?;
    Ok(arrangement)
}
