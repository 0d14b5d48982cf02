//! The options of a search.

ghost use Rattle.std.specs.Prelude.{◌<◌, ◌≤◌};
ghost use Rattle.plan_search.specs.Options.{AreLimited};

use part_search::{Crew, Order};
use qap_cost::Partial;
use qap_improve::TabuPlan;

/// The most workers.
pub const MAX_WORKERS: u16 = 64;

/// The most nodes that a limit may allow.
pub const MAX_NODES: u64 = 1 << 62;

/// For how many milliseconds a worker's transaction is leased: ten minutes.
const LEASE_MS: u64 = 600_000;

/// How many exchanges the first tabu search makes if their number is not given.
const ITERATIONS: u64 = 5000;

/// Up to this many free facilities that search nearly always finds an optimum.
const LARGEST_FOR_ONE: u64 = 12;

/// Up to this many free facilities a few searches in turn nearly always find one.
const LARGEST_EASY: u64 = 20;

/// How many searches in turn follow the first one.
const SEARCHES_IN_TURN: u32 = 8;

/// The most free facilities with which a root is searched under pair duals: finding them takes memory with the fourth power
/// of their number.
const MAX_FREE: u64 = 36;

/// From this many free facilities on it never is.
const LEAST_UNPROVED: u64 = 40;

/// About how many entries of the pair duals of a root are found in a millisecond.
const ENTRIES_PER_MS: u64 = 500;

/// For how many milliseconds a worker tries the children of the node that it took.
const TURN_MS: u64 = 1000;

/// The options of a search.
#[derive(Clone, Copy)]
pub struct Options {
    /// The number of workers, each in its own thread: from 1 to 64.
    pub workers: u16,
    /// After how many decided nodes the search stops.
    pub nodes: Option<u64>,
    /// After how many milliseconds the search stops.
    pub milliseconds: Option<u64>,
    /// How many megabytes the program may have while it searches.
    pub memory: Option<u64>,
    /// How many exchanges a tabu search makes before the search for a proof begins, if that is given.
    pub improve: Option<u64>,
    /// What the tabu search draws its random numbers from.
    pub seed: u64,
    /// Whether what follows the instance is skipped.
    pub passes: bool,
    /// Whether the search's proof is assembled.
    pub proves: bool,
}

impl Options {
    /// The workers of a search below a root, and its limit. Under a time limit they take the open node with the least
    /// value first, so that the bound rises.
    pub fn crew(&self, root: &Partial) -> Crew
        requires { AreLimited self.now }
        ensures some { 0 < result.workers }
        ensures few { result.workers ≤ 64 }
    {
        let order = if self.milliseconds.is_some() {
            Order::Least
        } else {
            Order::Deepest
        };
        Crew {
            workers: self.workers - self.tabu_threads(root),
            lease_ms: LEASE_MS,
            turn_ms: TURN_MS,
            order,
            limit: self.nodes,
        }
    }

    /// How many threads make tabu searches beside the other workers: under a time limit one of several, and from 40
    /// free facilities on all but one.
    pub fn tabu_threads(&self, root: &Partial) -> u16
        requires { AreLimited self.now }
        ensures { result < self.now.workers }
    {
        if self.workers < 2 || !self.has_tabu_beside(root) {
            0
        } else if free_in(root) < LEAST_UNPROVED {
            1
        } else {
            self.workers - 1
        }
    }

    /// How many milliseconds the first turn of tabu searches takes where a single worker is under a time limit: a tenth
    /// of that.
    pub fn first_turn_ms(&self, root: &Partial) -> Option<u64> {
        if self.workers < 2 && self.has_tabu_beside(root) {
            Some(self.milliseconds? / 10)
        } else {
            None
        }
    }

    /// Whether tabu searches go on beside a search: under a time limit, unless a number of iterations is given, or few
    /// facilities are free.
    fn has_tabu_beside(&self, root: &Partial) -> bool {
        self.milliseconds.is_some() && self.improve.is_none() && free_in(root) > LARGEST_EASY
    }

    /// The tabu search before it.
    pub fn tabu_plan(&self) -> TabuPlan {
        TabuPlan {
            kicks: 0,
            iterations: self.improve.unwrap_or(ITERATIONS),
            seed: self.seed,
        }
    }

    /// How many more follow it in turn: some, unless a number of iterations is given, or few facilities are free.
    pub fn searches_in_turn(&self, root: &Partial) -> u32 {
        if self.improve.is_some() || free_in(root) <= LARGEST_FOR_ONE {
            0
        } else {
            SEARCHES_IN_TURN
        }
    }

    /// Until how many milliseconds after the beginning of the run tabu searches continue side by side after these: where
    /// the proof is to be assembled, no number of iterations is given, and more facilities are free than are searched under
    /// pair duals, until three quarters of the time limit have passed.
    pub fn improving_until(&self, root: &Partial) -> Option<u64> {
        let limit = self.milliseconds?;
        if self.improve.is_some() || !self.proves || has_few_free(root) {
            return None;
        }
        Some(limit.saturating_sub(limit / 4))
    }

    /// Whether pair duals of a root will probably be found within the time limit, by a search for them that begins this
    /// many milliseconds after the run. It takes time with the fourth power of the number of free facilities, and is not
    /// interrupted.
    pub fn has_time_for_duals(&self, root: &Partial, now: u64) -> bool {
        let Some(limit) = self.milliseconds else {
            return true;
        };
        let free = free_in(root);
        let square = free.saturating_mul(free);
        let entries = square.saturating_mul(square);
        now.saturating_add(entries / ENTRIES_PER_MS) <= limit
    }

    /// How many bytes of memory the program may have while it searches.
    pub fn allowed_bytes(&self) -> Option<u64> {
        Some(self.memory?.saturating_mul(1 << 20))
    }
}

/// Whether a root has few enough free facilities for pair duals.
pub(crate) fn has_few_free(root: &Partial) -> bool {
    free_in(root) <= MAX_FREE
}

/// How many facilities a root leaves free.
pub(crate) fn free_in(root: &Partial) -> u64 {
    root.size().saturating_sub(root.depth()) as u64
}
