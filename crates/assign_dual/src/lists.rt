//! The lists of an assignment, kept from one to the next.

ghost use Rattle.std.specs.Prelude.{◌≡◌, ◌≤◌, ◌*◌, ℕ, None, length, map, pos, replicate, vec_capacity, IfOk, IsOk, OnOk};
ghost use Rattle.assign_dual.specs.Lists.{HoldsNumbers, HoldsTrees};

use crate::number::Number;
use std::alloc::{AllocError, Global};

/// What has a place for each column.
#[derive(Drop)]
pub struct TreeLists {
    /// The row of each column that has one.
    pub row_of: Vec<Option<usize>>,
    /// Three numbers for each column.
    pub indices: Vec<usize>,
}

/// The numbers of one width.
#[derive(Drop)]
pub struct NumberLists<N> {
    /// The entries of the matrix, by rows.
    pub entries: Vec<N>,
    /// Four numbers for each column: duals and distances.
    pub zeros: Vec<N>,
}

impl TreeLists {
    /// Lists with memory for this many columns.
    pub fn with_room(alloc: Global, columns: usize) -> Result<TreeLists, AllocError>
        requires { columns ≤ 256 }
        ensures holds { IfOk result (HoldsTrees columns) }
        ensures free { columns ≡ 0 → IsOk result }
    {
        Ok(TreeLists {
            row_of: Vec::with_capacity(alloc, columns)?,
            indices: Vec::with_capacity(alloc, 3 * columns)?,
        })
    }

    /// Resizes the lists for this many columns, none of which has a row.
    pub fn make_ready(&mut self, columns: usize) -> Result<(), AllocError>
        requires { columns ≤ 256 }
        ensures row_of { OnOk result (self.new.row_of.items ≡ replicate columns None) }
        ensures indices { OnOk result (length self.new.indices.items ≡ 3 * columns) }
        ensures there { HoldsTrees columns self.old → IsOk result }
        ensures kept { (n : ℕ) → HoldsTrees n self.old → HoldsTrees n self.new }
    {
        refill(&mut self.row_of, columns, None)?;
        self.indices.resize(3 * columns, 0)?;
        Ok(())
    }
}

impl<N: Number> NumberLists<N> {
    /// Lists with memory for this many columns.
    pub fn with_room(alloc: Global, columns: usize) -> Result<NumberLists<N>, AllocError>
        requires { columns ≤ 256 }
        ensures holds { IfOk result (HoldsNumbers columns) }
        ensures free { columns ≡ 0 → IsOk result }
    {
        Ok(NumberLists {
            entries: Vec::with_capacity(alloc, columns * columns)?,
            zeros: Vec::with_capacity(alloc, 4 * columns)?,
        })
    }

    /// Makes them lists of this many columns; the entries may be any.
    pub fn make_ready(&mut self, columns: usize) -> Result<(), AllocError>
        requires { columns ≤ 256 }
        ensures entries { OnOk result (length self.new.entries.items ≡ columns * columns) }
        ensures zeros { OnOk result (map N.value self.new.zeros.items ≡ replicate (4 * columns) (pos 0)) }
        ensures there { HoldsNumbers columns self.old → IsOk result }
        ensures kept { (n : ℕ) → HoldsNumbers n self.old → HoldsNumbers n self.new }
    {
        let zero = N::narrow(0);
        self.entries.resize(columns * columns, zero)?;
        refill(&mut self.zeros, 4 * columns, zero)?;
        Ok(())
    }
}

/// Makes the list this many copies of the item.
fn refill<T: Copy>(list: &mut Vec<T>, count: usize, item: T) -> Result<(), AllocError>
    ensures items { OnOk result (list.new.items ≡ replicate count item) }
    ensures there { count ≤ vec_capacity list.old → IsOk result }
    ensures capacity { vec_capacity list.old ≤ vec_capacity list.new }
{
    list.clear();
    list.resize(count, item)
}
