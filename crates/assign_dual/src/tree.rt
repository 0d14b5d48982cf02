//! The tree of shortest alternating paths from a row that is being assigned (Jonker and Volgenant 1987).

ghost use Rattle.std.specs.Prelude.{◌≡◌, ℕ, ◌+◌, ◌*◌, ◌^◌, ◌<◌, ◌≤◌, List, length, map, ℤ, pos, ◌+ℤ◌, ◌-ℤ◌, ◌≤ℤ◌, slice_index, slice_index_or, Option, None, unsigned_abs};
ghost use Rattle.qap_cost.specs.Bijection.{IsBijection};
ghost use Rattle.qap_cost.specs.Matrix.{IsMatrix};
ghost use Rattle.qap_cost.specs.Range.{AllWithin};
ghost use Rattle.assign_dual.specs.Partial.{FitsRows, OwnersDiffer, owner_of};
ghost use Rattle.assign_dual.specs.Tree.{IsTree, IsNext};
ghost use Rattle.assign_dual.specs.Steps.{StartsRow, KeepsScanned, Relaxes};
ghost use Rattle.assign_dual.specs.Number.{number_at};
ghost use Rattle.assign_dual.specs.Room.{HasRoom};
ghost use Rattle.assign_dual.specs.Square.{square_of};
ghost use Rattle.qap_cost.specs.Row.{IsRow};

use crate::number::Number;
use crate::room::Room;

/// Starts at a row: each column is reached from it, at the entry less the column's dual.
fn start_row<N: Number>(row: &[N], v: &[N], distances: &mut [N], origins: &mut [usize])
    requires v_count { length v.now ≡ length row.now }
    requires distances_count { length distances.old ≡ length row.now }
    requires origins_count { length origins.old ≡ length row.now }
    requires row_range { AllWithin N.most (map N.value row.now) }
    requires v_range { AllWithin (2 * N.most) (map N.value v.now) }
    ensures { StartsRow (map N.value row.now) (map N.value v.now) (map N.value distances.new) origins.new }
{
    for k in 0..row.len() {
        distances[k] = less(row[k], v[k]);
        origins[k] = 0;
    }
}

/// An entry less its column's dual.
fn less<N: Number>(entry: N, dual: N) -> N
    requires entry { unsigned_abs (N.value entry) ≤ N.most }
    requires dual { unsigned_abs (N.value dual) ≤ 2 * N.most }
    ensures { N.value result ≡ N.value entry -ℤ N.value dual }
{
    entry.minus(dual)
}

/// The position from `done` on whose column is nearest: of equally near ones the last, which more often has no row,
/// since those scanned for earlier rows were moved to the front.
fn nearest<N: Number>(columns: &[usize], distances: &[N], done: usize) -> usize
    requires order { IsBijection columns.now }
    requires distances_count { length distances.now ≡ length columns.now }
    requires left { done < length columns.now }
    ensures from_done { done ≤ result }
    ensures within { result < length columns.now }
    ensures nearest { (q : ℕ) → done ≤ q → q < length columns.now →
        number_at (map N.value distances.now) (slice_index columns.now result) ≤ℤ number_at (map N.value distances.now) (slice_index columns.now q) }
{
    let mut best = columns.len() - 1;
    let mut q = best;
    while q > done {
        q -= 1;
        if distances[columns[q]].is_less(distances[columns[best]]) {
            best = q;
        }
    }
    best
}

/// Brings the nearest column that isn't scanned to place `done`.
fn choose<N: Number>(columns: &mut [usize], distances: &[N], done: usize)
    requires order { IsBijection columns.old }
    requires distances_count { length distances.now ≡ length columns.old }
    requires left { done < length columns.old }
    ensures order { IsBijection columns.new }
    ensures scanned { KeepsScanned columns.old columns.new done }
    ensures next { IsNext columns.new (map N.value distances.now) done }
{
    let best = nearest(columns, distances, done);
    columns.swap(done, best);
}

/// Relaxes the unscanned columns from `place` on from the row at that position of the tree, if that is shorter: `base`
/// is the row's distance minus its dual.
fn relax<N: Number>(
    row: &[N],
    base: N,
    place: usize,
    v: &[N],
    columns: &[usize],
    distances: &mut [N],
    origins: &mut [usize],
)
    requires order { IsBijection columns.now }
    requires columns_count { length columns.now ≡ length row.now }
    requires v_count { length v.now ≡ length row.now }
    requires distances_count { length distances.old ≡ length row.now }
    requires origins_count { length origins.old ≡ length row.now }
    requires row_range { AllWithin N.most (map N.value row.now) }
    requires v_range { AllWithin (2 * N.most) (map N.value v.now) }
    requires base_range { unsigned_abs (N.value base) ≤ 4 * N.most }
    ensures { Relaxes (map N.value row.now) (map N.value v.now) (N.value base) place columns.now (map N.value distances.old) origins.old (map N.value distances.new) origins.new }
{
    for q in place..columns.len() {
        let k = columns[q];
        let distance = reach(base, row[k], v[k]);
        if distance.is_less(distances[k]) {
            distances[k] = distance;
            origins[k] = place;
        }
    }
}

/// The distance of a column with this entry and this dual from a row whose distance less its dual is `base`.
fn reach<N: Number>(base: N, entry: N, dual: N) -> N
    requires base { unsigned_abs (N.value base) ≤ 4 * N.most }
    requires entry { unsigned_abs (N.value entry) ≤ N.most }
    requires dual { unsigned_abs (N.value dual) ≤ 2 * N.most }
    ensures { N.value result ≡ (N.value base +ℤ N.value entry) -ℤ N.value dual }
{
    base.plus(entry).minus(dual)
}

/// A row's distance less its dual.
fn base<N: Number>(distance: N, dual: N) -> N
    requires distance { unsigned_abs (N.value distance) ≤ 3 * N.most }
    requires dual { unsigned_abs (N.value dual) ≤ N.most }
    ensures value { N.value result ≡ N.value distance -ℤ N.value dual }
    ensures bounded { unsigned_abs (N.value result) ≤ 4 * N.most }
{
    distance.minus(dual)
}

/// Row `i` of a matrix of size `n`.
fn row_at<N: Number>(n: usize, entries: &[N], i: usize) -> &[N]
    requires small { n ≤ 256 }
    requires row { i < n }
    requires count { length entries.now ≡ n * n }
    ensures { IsRow n (map N.value entries.now) i (map N.value result.now) }
{
    let start = i * n;
    &entries[start..start + n]
}

/// Grows the tree from row `root` of a matrix of size `n`: scans columns, the nearest first, until one has no row.
///
/// Answers how many columns had one, which is the place of the column that has none.
pub fn grow<N: Number>(n: usize, entries: &[N], root: usize, room: &mut Room<'_, N>) -> usize
    requires is_matrix { IsMatrix (square_of n (map N.value entries.now)) }
    requires entries { AllWithin N.most (map N.value entries.now) }
    requires root_below { root < n }
    requires row_of_count { length room.old.row_of.now ≡ n }
    requires owners { OwnersDiffer n root room.old.row_of.now }
    requires fits { FitsRows (square_of n (map N.value entries.now)) root (map N.value room.old.u.now) (map N.value room.old.v.now) }
    requires u_range { AllWithin N.most (map N.value room.old.u.now) }
    requires v_range { AllWithin (2 * N.most) (map N.value room.old.v.now) }
    requires room { HasRoom n room.old }
    ensures left { result < n }
    ensures tree { IsTree (square_of n (map N.value entries.now)) root room.old.row_of.now (map N.value room.old.u.now) (map N.value room.old.v.now) room.new.columns.now room.new.tree_rows.now (map N.value room.new.row_distances.now) (map N.value room.new.distances.now) room.new.origins.now result }
    ensures next { IsNext room.new.columns.now (map N.value room.new.distances.now) result }
    ensures distances_range { AllWithin (3 * N.most) (map N.value room.new.distances.now) }
    ensures free { owner_of room.old.row_of.now (slice_index room.new.columns.now result) ≡ None }
    ensures row_of { room.new.row_of.now ≡ room.old.row_of.now }
    ensures u { room.new.u.now ≡ room.old.u.now }
    ensures v { room.new.v.now ≡ room.old.v.now }
{
    let row_of: &mut [Option<usize>] = room.row_of;
    let u: &mut [N] = room.u;
    let v: &mut [N] = room.v;
    let columns: &mut [usize] = room.columns;
    let tree_rows: &mut [usize] = room.tree_rows;
    let origins: &mut [usize] = room.origins;
    let row_distances: &mut [N] = room.row_distances;
    let distances: &mut [N] = room.distances;
    start_row(row_at(n, entries, root), v, distances, origins);
    tree_rows[0] = root;
    row_distances[0] = N::narrow(0);
    let mut done = 0;
    choose(columns, distances, done);
    while let Some(row) = row_of[columns[done]] {
        let distance = distances[columns[done]];
        done += 1;
        tree_rows[done] = row;
        row_distances[done] = distance;
        relax(
            row_at(n, entries, row),
            base(distance, u[row]),
            done,
            v,
            columns,
            distances,
            origins,
        );
        choose(columns, distances, done);
    }
    done
}
