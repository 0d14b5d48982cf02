//! Duals of a least assignment, by shortest augmenting paths (Jonker and Volgenant 1987).

use crate::matching::Matching;
use crate::places::{add_at, at, row_of};
use crate::rows::{least, sum};
use crate::search::{Search, find_path, turn};
use std::alloc::{AllocError, Global};

/// Finds duals of square matrices, in lists that it keeps from call to call.
///
/// The duals of an `m` by `m` matrix are numbers `u` of its rows and `v` of its columns whose sums `u[r] + v[c]` are at
/// most the entries, and which add up to the cost of a least assignment. The result is unverified: clauses state only
/// that lists keep their lengths. Sums wrap, and code that relies on the duals has to establish that they fit.
#[derive(Drop)]
pub struct Assigner {
    matching: Matching,
    search: Search,
}

impl Assigner {
    /// Lists for matrices of at most `n` rows and columns.
    pub fn with_size(alloc: Global, n: usize) -> Result<Assigner, AllocError> {
        Ok(Assigner {
            matching: Matching::with_size(alloc, n)?,
            search: Search::with_size(alloc, n)?,
        })
    }

    /// Writes the duals of a matrix, listed by rows, to `u` and `v`, a number for each row and one for each column, and
    /// returns their sum. Takes time `m^3` for `m` rows; nothing is allocated.
    pub fn solve(&mut self, matrix: &[i64], u: &mut [i64], v: &mut [i64]) -> i64 {
        start_duals(matrix, u, v);
        self.matching.clear();
        complete(matrix, &mut self.matching, &mut self.search, u, v, i64::MAX)
    }

    /// Likewise from given duals `u` and `v`, and from a matching whose pairs that are not tight are dropped, in time
    /// `m^2` for each row left without a column. Ends as soon as the duals, which need not be those of a least
    /// assignment, add up to more than `enough`. Leaves the matching that it has found; allocates nothing.
    pub fn solve_from(
        &mut self,
        matrix: &[i64],
        matching: &mut Matching,
        u: &mut [i64],
        v: &mut [i64],
        enough: i64,
    ) -> i64 {
        part_others(matrix, matching, u, v);
        complete(matrix, matching, &mut self.search, u, v, enough)
    }
}

/// Makes the duals of the rows their least entries, and those of the columns the least that is left.
fn start_duals(matrix: &[i64], u: &mut [i64], v: &mut [i64]) {
    let m = u.len();
    v.fill(i64::MAX);
    for r in 0..m {
        let row = row_of(matrix, m, r);
        let own = least(row);
        u[r] = own;
        lower(row, own, v);
    }
}

/// Lowers each number to the entry less a number, where that is smaller.
fn lower(row: &[i64], own: i64, columns: &mut [i64]) {
    if row.len() != columns.len() {
        return;
    }
    for c in 0..columns.len() {
        let left = row[c].wrapping_sub(own);
        if left < columns[c] {
            columns[c] = left;
        }
    }
}

/// Unmatches the rows and columns whose entry is not the sum of the two duals.
fn part_others(matrix: &[i64], matching: &mut Matching, u: &[i64], v: &[i64]) {
    let m = u.len();
    for r in 0..m {
        if let Some(c) = matching.column_of(r)
            && at(row_of(matrix, m, r), c).wrapping_sub(u[r]) != at(v, c)
        {
            matching.part(r, c);
        }
    }
}

/// Gives each row without a column one, until the duals add up to more than `enough`, and returns their sum.
fn complete(
    matrix: &[i64],
    matching: &mut Matching,
    search: &mut Search,
    u: &mut [i64],
    v: &mut [i64],
    enough: i64,
) -> i64 {
    match_tight(matrix, matching, u, v);
    let mut value = sum(u).wrapping_add(sum(v));
    for root in 0..u.len() {
        if value > enough {
            return value;
        }
        if matching.column_of(root).is_none() {
            let gap = enough.saturating_sub(value);
            let raised = place(matrix, root, matching, search, u, v, gap);
            value = value.wrapping_add(raised);
        }
    }
    value
}

/// Gives each row without a column the first that has no row and whose entry is the sum of the two duals, if there is
/// one.
fn match_tight(matrix: &[i64], matching: &mut Matching, u: &[i64], v: &[i64]) {
    let m = u.len();
    for r in 0..m {
        if matching.column_of(r).is_none() {
            let found = find_tight(row_of(matrix, m, r), u[r], v, matching.rows());
            if let Some(c) = found {
                matching.join(r, c);
            }
        }
    }
}

/// The first column without a row whose entry is the sum of the two duals.
fn find_tight(row: &[i64], own: i64, columns: &[i64], row_of: &[Option<usize>]) -> Option<usize> {
    if columns.len() != row.len() || row_of.len() < row.len() {
        return None;
    }
    for c in 0..row.len() {
        if row[c].wrapping_sub(own) == columns[c] && row_of[c].is_none() {
            return Some(c);
        }
    }
    None
}

/// Seeks a column for row `root` along a shortest path, but no further than `gap`, raises the sum of the duals by the
/// length of the path, and returns it.
fn place(
    matrix: &[i64],
    root: usize,
    matching: &mut Matching,
    search: &mut Search,
    u: &mut [i64],
    v: &mut [i64],
    gap: i64,
) -> i64 {
    let path = find_path(matrix, root, u, v, matching.rows(), search, gap);
    add_at(u, root, path.length);
    raise_rows(path.length, search, matching.rows(), u);
    lower_columns(path.length, &search.closed, &search.lengths, v);
    if path.is_whole {
        turn(u.len(), root, path.end, &search.origins, matching);
    }
    path.length
}

/// Raises the duals of the rows of closed columns by what these columns lack of the path's length.
fn raise_rows(length: i64, search: &Search, row_of: &[Option<usize>], u: &mut [i64]) {
    for c in 0..u.len() {
        if at(&search.closed, c) != 0
            && let Some(Some(r)) = row_of.get(c)
        {
            add_at(u, *r, length.wrapping_sub(at(&search.lengths, c)));
        }
    }
}

/// Lowers the duals of closed columns by what they lack of the path's length.
fn lower_columns(length: i64, closed: &[i64], lengths: &[i64], v: &mut [i64]) {
    let (Some(closed), Some(lengths)) = (closed.get(..v.len()), lengths.get(..v.len())) else {
        return;
    };
    for c in 0..v.len() {
        if closed[c] != 0 {
            v[c] = v[c].wrapping_sub(length.wrapping_sub(lengths[c]));
        }
    }
}
