//! The state of an ascent.

use assign_dual::Assigner;
use assign_dual::places::{put, row_of_mut};
use std::alloc::{AllocError, Global};

/// Pair duals of a node with `m` free facilities, and what they leave of its costs.
#[derive(Drop)]
pub struct State {
    /// How many facilities, and locations, are free.
    pub m: usize,
    /// What was taken from the matrix.
    pub value: i64,
    /// What is left of facility `i` at location `k` with `j` at `l`: a block for each `i` and `k`, listed by `j` and
    /// `l`.
    pub pairs: Vec<i64>,
    /// What is left of facility `i` at location `k`, by `i` and `k`.
    pub matrix: Vec<i64>,
    /// The duals for other facilities, by `j`, `i` and `k`.
    pub alpha: Vec<i64>,
    /// The duals for other locations, by `l`, `i` and `k`.
    pub beta: Vec<i64>,
}

impl State {
    /// Where all are 0.
    pub fn with_size(alloc: Global, m: usize) -> Result<State, AllocError> {
        let square = m.wrapping_mul(m);
        let cube = square.wrapping_mul(m);
        Ok(State {
            m,
            value: 0,
            pairs: vec![in alloc; 0; square.wrapping_mul(square)]?,
            matrix: vec![in alloc; 0; square]?,
            alpha: vec![in alloc; 0; cube]?,
            beta: vec![in alloc; 0; cube]?,
        })
    }

    /// Makes the duals of facilities for themselves, and of locations for themselves, 0.
    pub fn clear_own(&mut self) {
        clear_own(self.m, &mut self.alpha, &mut self.beta);
    }

    /// The duals, those for itself being 0.
    pub fn into_duals(mut self) -> (Vec<i64>, Vec<i64>) {
        self.clear_own();
        let State {
            m: _,
            value: _,
            pairs: _,
            matrix: _,
            alpha,
            beta,
        } = self;
        (alpha, beta)
    }
}

/// Makes the duals of facilities for themselves, and of locations for themselves, 0.
fn clear_own(m: usize, alpha: &mut [i64], beta: &mut [i64]) {
    let square = m.wrapping_mul(m);
    for j in 0..m {
        row_of_mut(row_of_mut(alpha, square, j), m, j).fill(0);
        let layer = row_of_mut(beta, square, j);
        for i in 0..m {
            put(row_of_mut(layer, m, i), j, 0);
        }
    }
}

/// Lists that a round needs.
#[derive(Drop)]
pub struct Workspace {
    /// For the matrix of all free facilities and locations.
    pub whole: Assigner,
    /// For that of one fewer.
    pub others: Assigner,
    /// A matrix of one fewer.
    pub block: Vec<i64>,
    /// A block of pairs.
    pub left: Vec<i64>,
    /// A share for each facility and location.
    pub shares: Vec<i64>,
    /// A number for each facility.
    pub rows: Vec<i64>,
    /// A number for each location.
    pub columns: Vec<i64>,
    /// A number for each facility but one.
    pub other_rows: Vec<i64>,
    /// A number for each location but one.
    pub other_columns: Vec<i64>,
}

impl Workspace {
    /// Lists for `m` free facilities.
    pub fn with_size(alloc: Global, m: usize) -> Result<Workspace, AllocError> {
        let n = m.saturating_sub(1);
        let square = m.wrapping_mul(m);
        Ok(Workspace {
            whole: Assigner::with_size(alloc, m)?,
            others: Assigner::with_size(alloc, n)?,
            block: vec![in alloc; 0; n.wrapping_mul(n)]?,
            left: vec![in alloc; 0; square]?,
            shares: vec![in alloc; 0; square]?,
            rows: vec![in alloc; 0; m]?,
            columns: vec![in alloc; 0; m]?,
            other_rows: vec![in alloc; 0; n]?,
            other_columns: vec![in alloc; 0; n]?,
        })
    }
}
