//! The lists to which rows are added.

ghost use Rattle.std.specs.Prelude.{◌≡◌, ◌*◌, length, map, pos, replicate};
ghost use Rattle.qap_cost.specs.Bijection.{IsBijection};
ghost use Rattle.assign_dual.specs.Room.{HasRoom};

use crate::number::Number;

/// What belongs to the rows that are placed, and lists with a place for each column in which the tree of shortest paths from
/// a further row grows.
#[derive(Drop)]
pub struct Room<'a, N> {
    /// The row of each column that has one.
    pub row_of: &'a mut [Option<usize>],
    /// The duals of the rows.
    pub u: &'a mut [N],
    /// The duals of the columns.
    pub v: &'a mut [N],
    /// The columns in the order in which they are scanned.
    pub columns: &'a mut [usize],
    /// The rows of the tree, in the order in which they joined it.
    pub tree_rows: &'a mut [usize],
    /// The place in the tree that each column is reached from.
    pub origins: &'a mut [usize],
    /// The distances of the tree's rows from its root.
    pub row_distances: &'a mut [N],
    /// The distance of each column.
    pub distances: &'a mut [N],
}

impl<'a, N: Number> Room<'a, N> {
    /// Lists for as many columns as `row_of` has: one list of indices and one of zeros, each in place of several, since
    /// allocations are costly for small matrices.
    pub fn new(
        row_of: &'a mut [Option<usize>],
        indices: &'a mut [usize],
        zeros: &'a mut [N],
    ) -> Room<'a, N>
        requires indices_count { length indices.old ≡ 3 * length row_of.old }
        requires zeros { map N.value zeros.old ≡ replicate (4 * length row_of.old) (pos 0) }
        ensures room { HasRoom (length row_of.old) result }
        ensures row_of { result.row_of.now ≡ row_of.old }
        ensures u { map N.value result.u.now ≡ replicate (length row_of.old) (pos 0) }
        ensures v { map N.value result.v.now ≡ replicate (length row_of.old) (pos 0) }
    {
        let n = row_of.len();
        let (columns, rest) = indices.split_at_mut(n);
        let (tree_rows, origins) = rest.split_at_mut(n);
        let (duals, rest) = zeros.split_at_mut(2 * n);
        let (u, v) = duals.split_at_mut(n);
        let (row_distances, distances) = rest.split_at_mut(n);
        put_in_order(columns);
        Room {
            row_of,
            u,
            v,
            columns,
            tree_rows,
            origins,
            row_distances,
            distances,
        }
    }
}

/// Makes the list that of the numbers from 0 on.
fn put_in_order(columns: &mut [usize])
    ensures { IsBijection columns.new }
{
    for k in 0..columns.len() {
        columns[k] = k;
    }
}
