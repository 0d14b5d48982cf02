//! The memory of a transaction's lists: one block, which later transactions reuse.

ghost use Rattle.std.specs.Prelude.{◌≡◌, [], IfOk};

use crate::marks::Marks;
use std::alloc::{AllocError, Global};
use std::marker::Model;
use tuple_space::Writes;

/// What a transaction took and read, and what it wrote. It lies in a block of its own, so that a transaction is moved in a few words.
#[derive(Debug, Drop)]
pub(crate) struct Lists {
    pub(crate) marks: Marks,
    pub(crate) writes: Writes,
}

/// What a transaction held that has ended. Whoever ended it under a lock drops or empties this when the lock is free again: a tuple
/// that no entry has any more gives its memory back then.
#[derive(Debug, Drop)]
pub struct Spent {
    pub(crate) lists: Box<Lists>,
}

impl Spent {
    /// The memory for another transaction. Its content is dropped.
    pub fn emptied(self) -> Spare {
        let Spent { mut lists } = self;
        lists.marks.clear();
        lists.writes.clear();
        Spare { lists }
    }
}

/// Memory for what a transaction is to hold, with nothing in it.
#[derive(Debug, Drop)]
pub struct Spare {
    lists: Box<Lists>,
}

impl Model for Spare {
    ghost use Rattle.std.specs.Prelude.{◌≡◌, []};

    ghost Value = { Unit {0} };

    ghost view = { λ _. tt };

    ghost invariant = { λ s. (s.lists.value.marks.items ≡ []) × (s.lists.value.writes ≡ []) };
}

impl Spare {
    /// Such memory, taken again.
    pub fn new(alloc: Global) -> Result<Spare, AllocError> {
        let lists = Lists {
            marks: Marks::new(alloc),
            writes: Writes::new(alloc),
        };
        Ok(Spare {
            lists: Box::new(alloc, lists)?,
        })
    }

    /// The lists that lie in it.
    pub(crate) fn into_lists(self) -> Box<Lists>
        ensures marks { result.value.marks.items ≡ [] }
        ensures writes { result.value.writes ≡ [] }
    {
        let Spare { lists } = self;
        lists
    }
}
