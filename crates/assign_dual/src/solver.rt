//! Solves a sequence of assignments in memory that is kept.

ghost use Rattle.std.specs.Prelude.{◌≡◌, ◌≤◌, ◌^◌, ℕ, IfOk, IsOk, OnOk};
ghost use Rattle.qap_cost.specs.Range.{AllWithin};
ghost use Rattle.assign_dual.specs.Least.{IsLeast};
ghost use Rattle.assign_dual.specs.Lists.{HasRoomFor, HoldsNumbers, HoldsTrees};

use crate::assignment::{Assignment, least};
use crate::lists::{NumberLists, TreeLists};
use crate::range::are_within;
use qap_cost::Matrix;
use std::alloc::{AllocError, Global};
use std::marker::Model;

/// The greatest absolute value of entries for which 64 bits are used: 10^18, of which eight fit.
const MAX_NARROW: u128 = 1_000_000_000_000_000_000;

/// Lists for computing least assignments, kept from one to the next; answers do not depend on earlier calls. Contracts
/// see its capacity: for a matrix of at most this size it allocates nothing.
#[derive(Drop)]
pub struct Solver {
    room: usize,
    trees: TreeLists,
    narrow: NumberLists<i64>,
    wide: NumberLists<i128>,
}

impl Model for Solver {
    ghost use Rattle.std.specs.Prelude.{ℕ};
    ghost use Rattle.assign_dual.specs.Lists.{HoldsNumbers, HoldsTrees};

    ghost Value = { ℕ };

    ghost view = { λ s. s.room };

    ghost invariant = { λ s. HoldsTrees s.room s.trees × HoldsNumbers s.room s.narrow × HoldsNumbers s.room s.wide };
}

impl Solver {
    /// A solver that has no memory yet.
    pub fn new(alloc: Global) -> Solver
        ensures { result ≡ 0 }
    {
        match Solver::with_room(alloc, 0) {
            Ok(solver) => solver,
            Err(AllocError) => unreachable!(),
        }
    }

    /// A solver with memory for matrices of this size.
    pub fn with_room(alloc: Global, size: usize) -> Result<Solver, AllocError>
        requires { size ≤ 256 }
        ensures room { IfOk result (λ solver. solver ≡ size) }
        ensures free { size ≡ 0 → IsOk result }
    {
        Ok(Solver {
            room: size,
            trees: TreeLists::with_room(alloc, size)?,
            narrow: NumberLists::with_room(alloc, size)?,
            wide: NumberLists::with_room(alloc, size)?,
        })
    }

    /// A least assignment, as the function `solve` returns it for the matrix.
    pub fn solve(&mut self, alloc: Global, matrix: &Matrix) -> Result<Assignment, AllocError>
        requires { AllWithin (10 ^ 21) matrix.now.entries }
        ensures least { IfOk result (IsLeast matrix.now) }
        ensures room { self.new ≡ self.old }
    {
        let mut answer = Assignment::with_room(alloc, matrix.size())?;
        self.solve_into(matrix, &mut answer)?;
        Ok(answer)
    }

    /// Makes the answer a least assignment, as the function `solve` returns it for the matrix. Allocates nothing if
    /// solver and answer have capacity for it. At an error the answer's lists may have any numbers.
    pub fn solve_into(&mut self, matrix: &Matrix, answer: &mut Assignment) -> Result<(), AllocError>
        requires { AllWithin (10 ^ 21) matrix.now.entries }
        ensures least { OnOk result (IsLeast matrix.now answer.new) }
        ensures there { matrix.now.size ≤ self.old → HasRoomFor matrix.now.size answer.old → IsOk result }
        ensures room { self.new ≡ self.old }
        ensures answer_room { (n : ℕ) → HasRoomFor n answer.old → HasRoomFor n answer.new }
    {
        if are_within(matrix.entries(), MAX_NARROW) {
            least(&mut self.trees, &mut self.narrow, matrix, answer)
        } else {
            least(&mut self.trees, &mut self.wide, matrix, answer)
        }
    }
}
