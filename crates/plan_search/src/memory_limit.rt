//! A limit of a run's memory.

use crate::keeper::{Keeper, Progress};
use std::cell::Cell;

/// Stops a search once the program uses more memory than it may, or when its keeper requests it.
#[derive(Drop)]
pub struct WithinMemory<'a, K: Keeper> {
    keeper: &'a K,
    /// How many bytes of memory the program may have.
    allowed: Option<u64>,
    is_passed: Cell<bool>,
}

impl<'a, K: Keeper> WithinMemory<'a, K> {
    /// For a search that has come nowhere yet, and may have this many bytes; by default as many as the keeper finds usable.
    pub fn new(keeper: &'a K, allowed: Option<u64>) -> WithinMemory<'a, K> {
        let allowed = match allowed {
            Some(bytes) => Some(bytes),
            None => keeper.usable_bytes(),
        };
        WithinMemory {
            keeper,
            allowed,
            is_passed: Cell::new(false),
        }
    }

    /// Whether the program is known to have more memory than it may.
    fn is_too_much(&self) -> bool {
        let Some(allowed) = self.allowed else {
            return false;
        };
        match self.keeper.resident_bytes() {
            Some(taken) => taken > allowed,
            None => false,
        }
    }

    /// How many milliseconds ago the run began.
    pub fn now(&self) -> u64 {
        self.keeper.now()
    }

    /// Whether the search is to stop.
    pub fn is_wanted(&self) -> bool {
        self.is_passed.get() || self.keeper.is_wanted()
    }

    /// Whether it makes anything of the progress.
    pub fn is_watching(&self) -> bool {
        self.allowed.is_some() || self.keeper.is_watching()
    }

    /// Sees how far the search has come, and looks how much memory there is.
    pub fn see(&self, progress: &Progress) {
        if !self.is_passed.get() && self.is_too_much() {
            self.is_passed.set(true);
            self.keeper.tell_memory();
        }
        if self.keeper.is_watching() {
            self.keeper.see(progress);
        }
    }
}
