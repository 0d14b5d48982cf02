//! Shortest alternating paths (Jonker and Volgenant 1987).

use crate::matching::Matching;
use crate::places::{at, first, index_of, put, row_of};
use crate::rows::nearest;
use std::alloc::{AllocError, Global};

/// What is known about each column while a path is searched.
#[derive(Drop)]
pub struct Search {
    /// The distance of the column; the greatest possible number if it is closed.
    pub distances: Vec<i64>,
    /// The row from which it is reached.
    pub origins: Vec<usize>,
    /// 0 while the column is open, and then the greatest number there is.
    pub closed: Vec<i64>,
    /// How far it was when it was closed.
    pub lengths: Vec<i64>,
}

/// A path, or a prefix of it.
#[derive(Drop)]
pub struct Path {
    /// The nearest column that is not closed.
    pub end: usize,
    /// How far it is.
    pub length: i64,
    /// Whether the column has no row.
    pub is_whole: bool,
}

impl Search {
    /// Lists for `n` columns.
    pub fn with_size(alloc: Global, n: usize) -> Result<Search, AllocError> {
        Ok(Search {
            distances: vec![in alloc; 0; n]?,
            origins: vec![in alloc; 0; n]?,
            closed: vec![in alloc; 0; n]?,
            lengths: vec![in alloc; 0; n]?,
        })
    }

    /// Opens all columns, with none reached.
    fn reset(&mut self) {
        self.distances.fill(i64::MAX);
        self.closed.fill(0);
    }

    /// Closes a column, whose distance is known from then on.
    fn close(&mut self, c: usize) {
        let length = at(&self.distances, c);
        put(&mut self.lengths, c, length);
        put(&mut self.closed, c, i64::MAX);
        put(&mut self.distances, c, i64::MAX);
    }
}

/// Seeks the nearest column without a row from row `root`, until the nearest one is further than `gap`.
pub fn find_path(
    matrix: &[i64],
    root: usize,
    u: &[i64],
    v: &[i64],
    row_of_column: &[Option<usize>],
    search: &mut Search,
    gap: i64,
) -> Path {
    search.reset();
    let mut from = root;
    let mut length: i64 = 0;
    let mut end = 0;
    for _ in 0..v.len() {
        let base = length.wrapping_sub(at(u, from));
        relax(
            row_of(matrix, v.len(), from),
            base,
            from,
            v,
            &search.closed,
            &mut search.distances,
            &mut search.origins,
        );
        end = nearest(first(&search.distances, v.len()));
        length = at(&search.distances, end);
        let Some(row) = index_of(row_of_column, end) else {
            return Path {
                end,
                length,
                is_whole: true,
            };
        };
        if length > gap {
            break;
        }
        search.close(end);
        from = row;
    }
    Path {
        end,
        length,
        is_whole: false,
    }
}

/// Lets each open column be reached from row `from`, where that is shorter: `base` is the row's distance less its dual.
fn relax(
    row: &[i64],
    base: i64,
    from: usize,
    columns: &[i64],
    closed: &[i64],
    distances: &mut [i64],
    origins: &mut [usize],
) {
    let m = row.len();
    let (Some(closed), Some(distances), Some(origins)) = (
        closed.get(..m),
        distances.get_mut(..m),
        origins.get_mut(..m),
    ) else {
        return;
    };
    if columns.len() != m {
        return;
    }
    for c in 0..row.len() {
        let reached = base.wrapping_add(row[c].wrapping_sub(columns[c])) | closed[c];
        if reached < distances[c] {
            distances[c] = reached;
            origins[c] = from;
        }
    }
}

/// Exchanges what is joined along the path from row `root` to column `end`.
pub fn turn(n: usize, root: usize, end: usize, origins: &[usize], matching: &mut Matching) {
    let mut column = end;
    for _ in 0..n {
        let Some(row) = origins.get(column) else {
            return;
        };
        let row = *row;
        let next = matching.column_of(row);
        matching.join(row, column);
        if row == root {
            return;
        }
        let Some(before) = next else {
            return;
        };
        column = before;
    }
}
