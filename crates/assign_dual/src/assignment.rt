//! Computes a least assignment one row at a time (Kuhn 1955; Jonker and Volgenant 1987).

ghost use Rattle.std.specs.Prelude.{◌≡◌, ℕ, ◌+◌, ◌*◌, ◌^◌, ◌<◌, ◌≤◌, List, length, map, ℤ, ◌≤ℤ◌, pos, replicate, IfOk, IsOk, OnOk, Option, None};
ghost use Rattle.qap_cost.specs.Bijection.{IsBijection};
ghost use Rattle.qap_cost.specs.Matrix.{IsMatrix, Assigns, DualsFit, assignment_cost, dual_value};
ghost use Rattle.assign_dual.specs.Least.{IsLeast, IsPlacedWhole};
ghost use Rattle.assign_dual.specs.Lists.{HasRoomFor, HoldsNumbers, HoldsTrees};
ghost use Rattle.assign_dual.specs.Range.{NoneAbove};
ghost use Rattle.qap_cost.specs.Range.{AllWithin};
ghost use Rattle.assign_dual.specs.Placed.{IsPlaced};
ghost use Rattle.assign_dual.specs.Room.{HasRoom};
ghost use Rattle.assign_dual.specs.Square.{square_of};

use crate::lists::{NumberLists, TreeLists};
use crate::number::Number;
use crate::path::augment;
use crate::room::Room;
use crate::shift::{lower_columns, raise_rows};
use crate::solver::Solver;
use crate::tree::grow;
use qap_cost::Matrix;
use std::alloc::{AllocError, Global};

/// An assignment with duals: row `i` takes the column `matching[i]`; `u` has a number for each row, `v` for each column.
#[derive(Debug, Drop)]
pub struct Assignment {
    pub matching: Vec<u16>,
    pub u: Vec<i128>,
    pub v: Vec<i128>,
}

impl Assignment {
    /// An assignment of no rows, with memory for this many.
    pub fn with_room(alloc: Global, rows: usize) -> Result<Assignment, AllocError>
        ensures room { IfOk result (HasRoomFor rows) }
        ensures free { rows ≡ 0 → IsOk result }
    {
        Ok(Assignment {
            matching: Vec::with_capacity(alloc, rows)?,
            u: Vec::with_capacity(alloc, rows)?,
            v: Vec::with_capacity(alloc, rows)?,
        })
    }

    /// Makes its lists those of this many rows and columns, with any numbers.
    fn make_ready(&mut self, rows: usize) -> Result<(), AllocError>
        ensures matching { OnOk result (length self.new.matching.items ≡ rows) }
        ensures u { OnOk result (length self.new.u.items ≡ rows) }
        ensures v { OnOk result (length self.new.v.items ≡ rows) }
        ensures there { HasRoomFor rows self.old → IsOk result }
        ensures kept { (n : ℕ) → HasRoomFor n self.old → HasRoomFor n self.new }
    {
        self.matching.resize(rows, 0)?;
        self.u.resize(rows, 0)?;
        self.v.resize(rows, 0)?;
        Ok(())
    }
}

/// An assignment of least cost, with duals that fit and whose sum is that cost.
///
/// Takes time O(m^3) for m rows. The only error is out of memory.
pub fn solve(alloc: Global, matrix: &Matrix) -> Result<Assignment, AllocError>
    requires { AllWithin (10 ^ 21) matrix.now.entries }
    ensures assigns { IfOk result (λ a. Assigns matrix.now a.matching.items) }
    ensures fits { IfOk result (λ a. DualsFit matrix.now a.u.items a.v.items) }
    ensures equal { IfOk result (λ a. dual_value a.u.items a.v.items ≡ assignment_cost matrix.now a.matching.items) }
    ensures least { IfOk result (λ a. (p : List ℕ) → Assigns matrix.now p →
        assignment_cost matrix.now a.matching.items ≤ℤ assignment_cost matrix.now p) }
    ensures u_range { IfOk result (λ a. (m : ℕ) → AllWithin m matrix.now.entries → AllWithin m a.u.items) }
    ensures v_range { IfOk result (λ a. (m : ℕ) → AllWithin m matrix.now.entries → AllWithin (2 * m) a.v.items) }
    ensures v_sign { IfOk result (λ a. NoneAbove a.v.items) }
{
    Solver::new(alloc).solve(alloc, matrix)
}

/// Makes the answer a least assignment with its duals, sought in these lists.
pub(crate) fn least<N: Number>(
    trees: &mut TreeLists,
    numbers: &mut NumberLists<N>,
    matrix: &Matrix,
    answer: &mut Assignment,
) -> Result<(), AllocError>
    requires { AllWithin N.most matrix.now.entries }
    ensures least { OnOk result (IsLeast matrix.now answer.new) }
    ensures there { HoldsTrees matrix.now.size trees.old → HoldsNumbers matrix.now.size numbers.old → HasRoomFor matrix.now.size answer.old → IsOk result }
    ensures trees { (n : ℕ) → HoldsTrees n trees.old → HoldsTrees n trees.new }
    ensures numbers { (n : ℕ) → HoldsNumbers n numbers.old → HoldsNumbers n numbers.new }
    ensures room { (n : ℕ) → HasRoomFor n answer.old → HasRoomFor n answer.new }
{
    let n = matrix.size();
    trees.make_ready(n)?;
    numbers.make_ready(n)?;
    answer.make_ready(n)?;
    place_all(
        matrix,
        &mut numbers.entries,
        &mut numbers.zeros,
        &mut trees.row_of,
        &mut trees.indices,
        answer,
    );
    Ok(())
}

/// Places every row of the matrix in these lists, and writes the columns that they take and the duals to the answer.
fn place_all<N: Number>(
    matrix: &Matrix,
    entries: &mut [N],
    zeros: &mut [N],
    row_of: &mut [Option<usize>],
    indices: &mut [usize],
    answer: &mut Assignment,
)
    requires range { AllWithin N.most matrix.now.entries }
    requires entries_count { length entries.old ≡ matrix.now.size * matrix.now.size }
    requires zeros { map N.value zeros.old ≡ replicate (4 * matrix.now.size) (pos 0) }
    requires row_of { row_of.old ≡ replicate matrix.now.size None }
    requires indices_count { length indices.old ≡ 3 * matrix.now.size }
    requires matching_count { length answer.old.matching.items ≡ matrix.now.size }
    requires u_count { length answer.old.u.items ≡ matrix.now.size }
    requires v_count { length answer.old.v.items ≡ matrix.now.size }
    ensures placed { IsPlacedWhole matrix.now answer.new.matching.items answer.new.u.items answer.new.v.items }
    ensures room { (n : ℕ) → HasRoomFor n answer.old → HasRoomFor n answer.new }
{
    let n = matrix.size();
    fill(entries, matrix.entries());
    let mut room = Room::new(row_of, indices, zeros);
    place_rows(n, entries, &mut answer.matching, &mut room);
    widen(room.u, &mut answer.u);
    widen(room.v, &mut answer.v);
}

/// Makes `target` the numbers, in its width.
fn fill<N: Number>(target: &mut [N], numbers: &[i128])
    requires same_length { length target.old ≡ length numbers.now }
    requires range { AllWithin N.most numbers.now }
    ensures { map N.value target.new ≡ numbers.now }
{
    for k in 0..numbers.len() {
        target[k] = N::narrow(numbers[k]);
    }
}

/// Makes `target` the numbers, in 128 bits.
fn widen<N: Number>(numbers: &[N], target: &mut [i128])
    requires { length target.old ≡ length numbers.now }
    ensures { target.new ≡ map N.value numbers.now }
{
    for k in 0..numbers.len() {
        target[k] = numbers[k].widen();
    }
}

/// Places every row; nothing is placed before.
#[inline(never)]
fn place_rows<N: Number>(n: usize, entries: &[N], matching: &mut [u16], room: &mut Room<'_, N>)
    requires is_matrix { IsMatrix (square_of n (map N.value entries.now)) }
    requires entries { AllWithin N.most (map N.value entries.now) }
    requires placed { IsPlaced N.value n entries.now 0 matching.old room.old }
    requires room { HasRoom n room.old }
    ensures { IsPlaced N.value n entries.now n matching.new room.new }
{
    for root in 0..n {
        place_row(n, entries, root, matching, room);
    }
}

/// Places row `root`, where those before it are placed.
fn place_row<N: Number>(
    n: usize,
    entries: &[N],
    root: usize,
    matching: &mut [u16],
    room: &mut Room<'_, N>,
)
    requires is_matrix { IsMatrix (square_of n (map N.value entries.now)) }
    requires entries { AllWithin N.most (map N.value entries.now) }
    requires root_below { root < n }
    requires placed { IsPlaced N.value n entries.now root matching.old room.old }
    requires room { HasRoom n room.old }
    ensures placed { IsPlaced N.value n entries.now (root + 1) matching.new room.new }
    ensures room { HasRoom n room.new }
{
    let done = grow(n, entries, root, room);
    let row_of: &mut [Option<usize>] = room.row_of;
    let u: &mut [N] = room.u;
    let v: &mut [N] = room.v;
    let columns: &mut [usize] = room.columns;
    let tree_rows: &mut [usize] = room.tree_rows;
    let origins: &mut [usize] = room.origins;
    let row_distances: &mut [N] = room.row_distances;
    let distances: &mut [N] = room.distances;
    let path_length = distances[columns[done]];
    raise_rows(tree_rows, row_distances, done + 1, path_length, u);
    lower_columns(columns, distances, done, path_length, v);
    augment(columns, tree_rows, origins, done, matching, row_of);
}
