//! A square matrix, whose rows are assigned to its columns.

ghost use Rattle.std.specs.Prelude.{◌≡◌, ◌<◌, ◌≤◌, ◌≤ℤ◌, [], List, ℕ, ℤ, IfOk, MatchOption};
ghost use Rattle.qap_cost.specs.Row.{IsRow};
ghost use Rattle.qap_cost.specs.Matrix.{Square, IsMatrix, Assigns, DualsFit, assignment_cost, dual_value, entry_of};

use crate::MAX_SIZE;
use std::alloc::{AllocError, Global};
use std::marker::Model;

/// A square matrix of whole numbers, of size 0 to 256.
#[derive(Drop)]
pub struct Matrix {
    size: usize,
    entries: Vec<i128>,
}

impl Model for Matrix {
    ghost Value = { Square };

    ghost view = { λ s. record { size = s.size; entries = s.entries.items } };

    ghost invariant = { λ s. IsMatrix (record { size = s.size; entries = s.entries.items }) };
}

impl Matrix {
    /// The matrix of size `m` with these entries, listed by rows; `None` if `m` is above 256 or there are not `m * m`
    /// entries. Allocates nothing.
    pub fn new(m: usize, entries: Vec<i128>) -> Option<Matrix>
        ensures { MatchOption result
            (IsMatrix (record { size = m; entries = entries.items }) → ⊥)
            (λ M. (M ≡ record { size = m; entries = entries.items }) × IsMatrix (record { size = m; entries = entries.items })) }
    {
        if m > MAX_SIZE || entries.len() != m * m {
            return None;
        }
        Some(Matrix { size: m, entries })
    }

    /// The matrix of size 0. Allocates nothing.
    pub fn empty(alloc: Global) -> Matrix
        ensures { result ≡ record { size = 0; entries = [] } }
    {
        Matrix {
            size: 0,
            entries: Vec::new(alloc),
        }
    }

    /// The matrix of size 0, with memory for the entries of one of this size.
    pub fn with_room(alloc: Global, size: usize) -> Result<Matrix, AllocError>
        requires { size ≤ 256 }
        ensures { IfOk result (λ M. M ≡ record { size = 0; entries = [] }) }
    {
        Ok(Matrix {
            size: 0,
            entries: Vec::with_capacity(alloc, size * size)?,
        })
    }

    /// Its entries, listed by rows, in the memory that it had.
    pub fn into_entries(self) -> Vec<i128>
        ensures { result.items ≡ self.entries }
    {
        let Matrix { entries, .. } = self;
        entries
    }

    /// The number of rows, and of columns: from 0 to 256.
    pub fn size(&self) -> usize
        ensures value { result ≡ self.now.size }
        ensures matrix { IsMatrix self.now }
    {
        self.size
    }

    /// What every matrix satisfies, for a proof that needs it. It costs nothing.
    pub fn matrix_law(&self)
        ensures { IsMatrix self.now }
    {
        let _ = &self.size;
    }

    /// All entries, listed by rows.
    pub fn entries(&self) -> &[i128]
        ensures { result.now ≡ self.now.entries }
    {
        &self.entries
    }

    /// Row `i`, column `k`.
    pub fn at(&self, i: usize, k: usize) -> i128
        requires row { i < self.now.size }
        requires column { k < self.now.size }
        ensures { result ≡ entry_of self.now i k }
    {
        self.entries[i * self.size + k]
    }

    /// Row `i`.
    pub fn row(&self, i: usize) -> &[i128]
        requires { i < self.now.size }
        ensures { IsRow self.now.size self.now.entries i result.now }
    {
        let start = i * self.size;
        &self.entries[start..start + self.size]
    }
}

/// If `(u, v)` fits a matrix, no assignment costs less than the sum of `u` and `v`.
pub fn weak_duality_law()
    ensures { (M : Square) (u v : List ℤ) (p : List ℕ) → DualsFit M u v → Assigns M p → dual_value u v ≤ℤ assignment_cost M p }
{}
