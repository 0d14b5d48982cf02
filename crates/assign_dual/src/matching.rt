//! Which rows and columns of a matrix are matched.

use crate::places::{index_of, past};
use std::alloc::{AllocError, Global};

/// A column for some rows, and a row for some columns, of a square matrix.
#[derive(Drop)]
pub struct Matching {
    /// The row of each column that has one.
    row_of: Vec<Option<usize>>,
    /// The column of each row that has one.
    column_of: Vec<Option<usize>>,
}

impl Matching {
    /// An empty matching of at most `n` rows and columns.
    pub fn with_size(alloc: Global, n: usize) -> Result<Matching, AllocError> {
        let row_of = vec![in alloc; None; n]?;
        let column_of = vec![in alloc; None; n]?;
        Ok(Matching { row_of, column_of })
    }

    /// Parts all.
    pub fn clear(&mut self) {
        self.row_of.fill(None);
        self.column_of.fill(None);
    }

    /// The column of row `r`, if it has one.
    pub fn column_of(&self, r: usize) -> Option<usize> {
        index_of(&self.column_of, r)
    }

    /// The row of column `c`, if it has one.
    pub fn row_of(&self, c: usize) -> Option<usize> {
        index_of(&self.row_of, c)
    }

    /// The row of each column.
    pub(crate) fn rows(&self) -> &[Option<usize>] {
        &self.row_of
    }

    /// Makes it that of `m` rows and columns in `parent`, without row `h` and column `g`, whose partners are left
    /// alone.
    pub fn copy_without(&mut self, parent: &Matching, m: usize, h: usize, g: usize) {
        self.clear();
        for r in 0..m.saturating_sub(1) {
            if let Some(c) = parent.column_of(past(h, r))
                && c != g
            {
                let column = if c < g { c } else { c.wrapping_sub(1) };
                self.join(r, column);
            }
        }
    }

    /// Joins a row and a column.
    pub(crate) fn join(&mut self, r: usize, c: usize) {
        if let Some(row) = self.row_of.get_mut(c) {
            *row = Some(r);
        }
        if let Some(column) = self.column_of.get_mut(r) {
            *column = Some(c);
        }
    }

    /// Parts a row and a column.
    pub(crate) fn part(&mut self, r: usize, c: usize) {
        if let Some(row) = self.row_of.get_mut(c) {
            *row = None;
        }
        if let Some(column) = self.column_of.get_mut(r) {
            *column = None;
        }
    }
}
