//! Updates the duals so that each edge of a tree becomes tight.

ghost use Rattle.std.specs.Prelude.{◌≡◌, ℕ, ◌+◌, ◌*◌, ◌^◌, ◌<◌, ◌≤◌, List, length, map, ℤ, ◌+ℤ◌, ◌-ℤ◌, slice_index, unsigned_abs};
ghost use Rattle.qap_cost.specs.Bijection.{IsBijection};
ghost use Rattle.qap_cost.specs.Range.{AllWithin};
ghost use Rattle.assign_dual.specs.Steps.{RaisesRows, LowersColumns};
ghost use Rattle.assign_dual.specs.Number.{number_at};

use crate::number::Number;

/// Raises the duals of the tree's first `count` rows by what they lack of the path's length.
pub fn raise_rows<N: Number>(
    tree_rows: &[usize],
    row_distances: &[N],
    count: usize,
    path_length: N,
    u: &mut [N],
)
    requires rows_count { count ≤ length tree_rows.now }
    requires distances_count { count ≤ length row_distances.now }
    requires within { (p : ℕ) → p < count → slice_index tree_rows.now p < length u.old }
    requires distinct { (p q : ℕ) → p < count → q < count → slice_index tree_rows.now p ≡ slice_index tree_rows.now q → p ≡ q }
    requires u_range { AllWithin N.most (map N.value u.old) }
    requires row_distances_range { (p : ℕ) → p < count → unsigned_abs (number_at (map N.value row_distances.now) p) ≤ 3 * N.most }
    requires path_range { unsigned_abs (N.value path_length) ≤ 3 * N.most }
    ensures { RaisesRows tree_rows.now (map N.value row_distances.now) count (N.value path_length) (map N.value u.old) (map N.value u.new) }
{
    for p in 0..count {
        let row = tree_rows[p];
        u[row] = raised(u[row], path_length, row_distances[p]);
    }
}

/// A row's dual, raised by what its distance lacks of the path's length.
fn raised<N: Number>(dual: N, path_length: N, distance: N) -> N
    requires dual { unsigned_abs (N.value dual) ≤ N.most }
    requires path { unsigned_abs (N.value path_length) ≤ 3 * N.most }
    requires distance { unsigned_abs (N.value distance) ≤ 3 * N.most }
    ensures { N.value result ≡ N.value dual +ℤ (N.value path_length -ℤ N.value distance) }
{
    dual.plus(path_length.minus(distance))
}

/// Lowers the duals of the first `done` columns by what they lack of the path's length.
pub fn lower_columns<N: Number>(
    columns: &[usize],
    distances: &[N],
    done: usize,
    path_length: N,
    v: &mut [N],
)
    requires order { IsBijection columns.now }
    requires distances_count { length distances.now ≡ length columns.now }
    requires v_count { length v.old ≡ length columns.now }
    requires left { done ≤ length columns.now }
    requires v_range { AllWithin (2 * N.most) (map N.value v.old) }
    requires distances_range { AllWithin (3 * N.most) (map N.value distances.now) }
    requires path_range { unsigned_abs (N.value path_length) ≤ 3 * N.most }
    ensures { LowersColumns columns.now (map N.value distances.now) done (N.value path_length) (map N.value v.old) (map N.value v.new) }
{
    for q in 0..done {
        let k = columns[q];
        v[k] = lowered(v[k], path_length, distances[k]);
    }
}

/// A column's dual, lowered by what its distance lacks of the path's length.
///
/// The dual is taken from the distance first, so that no sum goes further from 0 than eight times an entry.
fn lowered<N: Number>(dual: N, path_length: N, distance: N) -> N
    requires dual { unsigned_abs (N.value dual) ≤ 2 * N.most }
    requires path { unsigned_abs (N.value path_length) ≤ 3 * N.most }
    requires distance { unsigned_abs (N.value distance) ≤ 3 * N.most }
    ensures { N.value result ≡ N.value dual -ℤ (N.value path_length -ℤ N.value distance) }
{
    dual.plus(distance).minus(path_length)
}
