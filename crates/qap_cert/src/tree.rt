//! Search trees.

use number_list::NumberList;

/// A part of the permutations of an instance: all that complete a node of the search.
#[derive(Drop)]
pub enum Tree {
    /// The facility is put at each free location in turn, in ascending order.
    Split { facility: u16, children: Vec<Tree> },
    /// The part is closed by duals of its Gilmore-Lawler matrix.
    Bound { u: NumberList, v: NumberList },
}
