//! Numbers in ascending order, the first of which is removed without moving the others.

ghost use Rattle.std.specs.Prelude.{◌≡◌, ◌<◌, ◌≤◌, ◌+◌, ◌-◌, ◌*◌, ◌==◌, ◌++◌, ◌∷◌, [], not, OnErr, OnOk, drop, filter, length, remove, take, vec_len};
ghost use Rattle.tuple_space.specs.Held.{AreRising};

use std::alloc::{AllocError, Global};
use std::marker::Model;

/// Numbers in ascending order. Those removed from the front stay in memory while they are no more than half of the
/// items, so that removing all numbers one by one from the front takes time in proportion to how many there are.
#[derive(Debug, Drop)]
pub(crate) struct Numbers {
    /// Those removed from the front, and behind them the numbers.
    items: Vec<u64>,
    /// How many are removed from the front.
    removed: usize,
}

impl Model for Numbers {
    ghost use Rattle.std.specs.Prelude.{ℕ, ◌*◌, ◌≤◌, List, drop, vec_len};

    ghost Value = { List ℕ };

    ghost view = { λ n. drop n.removed n.items.items };

    ghost invariant = { λ n. 2 * n.removed ≤ vec_len n.items };
}

/// Removes the item at a place behind those that are removed, and returns how many are removed then.
fn remove_behind(items: &mut Vec<u64>, removed: usize, place: usize) -> usize
    requires { removed + place < vec_len items.old }
    ensures rest { drop result items.new.items ≡ remove (drop removed items.old.items) place }
    ensures within { result ≤ vec_len items.new }
{
    if place == 0 {
        return removed + 1;
    }
    items.remove(removed + place);
    removed
}

/// Drops the items that are removed if they are more than half of all, and returns how many are left of them.
fn close_up(items: &mut Vec<u64>, removed: usize) -> usize
    requires { removed ≤ vec_len items.old }
    ensures rest { drop result items.new.items ≡ drop removed items.old.items }
    ensures few { 2 * result ≤ vec_len items.new }
{
    let left = items.len() - removed;
    if removed <= left {
        return removed;
    }
    items.rotate_left(removed);
    items.truncate(left);
    0
}

impl Numbers {
    /// No numbers. Allocates nothing.
    pub(crate) fn new(alloc: Global) -> Numbers
        ensures { result ≡ [] }
    {
        Numbers {
            items: Vec::new(alloc),
            removed: 0,
        }
    }

    /// The numbers.
    pub(crate) fn as_slice(&self) -> &[u64]
        ensures { result.now ≡ self.now }
    {
        &self.items[self.removed..]
    }

    /// Appends a number.
    pub(crate) fn push(&mut self, number: u64) -> Result<(), AllocError>
        ensures ok { OnOk result (self.new ≡ self.old ++ number ∷ []) }
        ensures err { OnErr result (self.new ≡ self.old) }
    {
        self.items.push(number)?;
        Ok(())
    }

    /// Removes the last number, if there is one.
    pub(crate) fn drop_last(&mut self)
        ensures { self.new ≡ take (length self.old - 1) self.old }
    {
        self.items.pop();
        self.removed = close_up(&mut self.items, self.removed);
    }

    /// Removes a number, if it is one of them.
    pub(crate) fn remove(&mut self, number: u64)
        requires { AreRising self.old }
        ensures { self.new ≡ filter (λ n. not (n == number)) self.old }
    {
        if let Ok(place) = self.as_slice().binary_search(&number) {
            self.remove_at(place);
        }
    }

    /// Removes the number at a place.
    fn remove_at(&mut self, place: usize)
        requires { place < length self.old }
        ensures { self.new ≡ remove self.old place }
    {
        let removed = remove_behind(&mut self.items, self.removed, place);
        self.removed = close_up(&mut self.items, removed);
    }
}
