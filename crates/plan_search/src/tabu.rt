//! Tabu searches in threads of their own, or in turn with a single worker, that share their best permutation.

ghost use Rattle.std.specs.Prelude.{length, ◌≡◌};

use part_search::Offers;
use plan_file::{completed, improved_keeping};
use qap_cost::{Instance, Partial, Perm};
use qap_improve::{Hook, TabuPlan};
use std::alloc::{AllocError, Global};
use std::sync::atomic::{AtomicBool, AtomicU64, Ordering};
use std::sync::{Mutex, Wait};
use std::time::{self, Instant};
use subtree_search::Incumbent;

/// How many iterations a search makes for each facility before it begins again elsewhere.
const ITERATIONS: u64 = 2_000;

/// For how many milliseconds at least a single worker goes on before tabu searches have their next turn.
const TURN_MS: u64 = 1_000;

/// Tabu searches from a permutation that completes a node, and the best permutation that they have found: advice, which
/// is checked where it is used.
#[derive(Drop)]
pub(crate) struct Tabu<'a, T> {
    system: &'a T,
    alloc: Global,
    instance: &'a Instance,
    node: &'a Partial,
    start: &'a Perm,
    seed: u64,
    best: Mutex<Incumbent>,
    halt: AtomicBool,
    /// How many searches have begun.
    rounds: AtomicU64,
    /// When these searches began, if that could be read.
    since: Option<Instant>,
    /// How many milliseconds their first turn takes, if they have turns.
    first_ms: Option<u64>,
    /// After how many milliseconds their last turn ended, or 0.
    ended_ms: AtomicU64,
}

/// Searches that go on beside another one, and offer it what they find.
pub(crate) trait Beside: Offers {
    /// One of them, until it is halted.
    fn search(&self, number: u16);

    /// Lets all of them end.
    fn halt(&self);
}

impl<'a, T: Wait + time::Clock> Tabu<'a, T> {
    /// Searches that have not begun, and draw their random numbers from this seed.
    pub(crate) fn new(
        system: &'a T,
        alloc: Global,
        instance: &'a Instance,
        node: &'a Partial,
        start: &'a Perm,
        seed: u64,
    ) -> Result<Tabu<'a, T>, AllocError>
        requires { length start.now ≡ instance.now.size }
    {
        Ok(Tabu {
            system,
            alloc,
            instance,
            node,
            start,
            seed,
            best: Mutex::new(Incumbent::new(instance, start.copy()?)),
            halt: AtomicBool::new(false),
            rounds: AtomicU64::new(0),
            since: Instant::now(system).ok(),
            first_ms: None,
            ended_ms: AtomicU64::new(0),
        })
    }

    /// With turns, of which the first takes this many milliseconds; with none if that is `None`.
    pub(crate) fn with_turns(self, first_ms: Option<u64>) -> Tabu<'a, T> {
        Tabu { first_ms, ..self }
    }

    /// What the best permutation so far costs.
    pub(crate) fn cost(&self) -> i128 {
        self.best.lock(self.system).cost()
    }

    /// The best permutation so far.
    pub(crate) fn best(&self) -> Result<Perm, AllocError> {
        self.best.lock(self.system).permutation().copy()
    }

    /// Where a search begins again after one from here: one of an even number at the best permutation of all, another
    /// one where it has come.
    fn next_from(&self, here: &Perm, number: u16) -> Result<Perm, AllocError> {
        let found = self.searched_from(here, None)?;
        if number % 2 == 0 {
            self.best()
        } else {
            Ok(found)
        }
    }

    /// Searches until these milliseconds are over.
    fn take_turn(&self, end: u64) {
        for _ in 0..u32::MAX {
            if self.is_over(Some(end)) || self.search_on(end).is_err() {
                break;
            }
        }
        self.ended_ms
            .store(self.now().unwrap_or(0), Ordering::SeqCst);
    }

    /// One search from the best permutation, until these milliseconds are over.
    fn search_on(&self, end: u64) -> Result<(), AllocError> {
        let here = self.best()?;
        self.searched_from(&here, Some(end))?;
        Ok(())
    }

    /// Where a search comes from a permutation, with what the node places put there.
    fn searched_from(&self, here: &Perm, end: Option<u64>) -> Result<Perm, AllocError> {
        let size = self.instance.size();
        if here.len() != size || self.node.size() != size {
            return here.copy();
        }
        let found = improved_keeping(
            self.alloc,
            self.instance,
            self.node,
            &completed(self.node, here)?,
            &self.plan(),
            &mut Until { tabu: self, end },
        )?;
        let incumbent = Incumbent::new(self.instance, found.permutation.copy()?);
        self.best.lock(self.system).adopt(incumbent);
        Ok(found.permutation)
    }

    /// The plan of the next search: more exchanges at random from one to the next, up to a quarter of the facilities.
    fn plan(&self) -> TabuPlan {
        let n = self.instance.size() as u64;
        let round = self.rounds.fetch_add(1, Ordering::SeqCst);
        let kicks = if round == 0 {
            0
        } else {
            round.wrapping_mul(7) % (n / 4).max(2) + 2
        };
        TabuPlan {
            seed: self.seed.wrapping_add(round),
            kicks: kicks as u32,
            iterations: ITERATIONS.saturating_mul(n),
        }
    }

    /// The elapsed milliseconds, if they can be read.
    fn now(&self) -> Option<u64> {
        let elapsed = self.since?.elapsed(self.system).ok()?;
        u64::try_from(elapsed.as_millis()).ok()
    }

    /// Whether the searches are halted, or these milliseconds are over.
    fn is_over(&self, end: Option<u64>) -> bool {
        if self.halt.load(Ordering::SeqCst) {
            return true;
        }
        match end {
            Some(end) => self.now().unwrap_or(u64::MAX) >= end,
            None => false,
        }
    }

    /// When their turn ends if it is their turn: after the first part of the time, and later after as long as the
    /// worker has gone on since their last turn, once that is a second.
    fn turn_end(&self) -> Option<u64> {
        let first_ms = self.first_ms?;
        let now = self.now()?;
        let ended = self.ended_ms.load(Ordering::SeqCst);
        if ended == 0 {
            return Some(now.saturating_add(first_ms));
        }
        let passed = now.saturating_sub(ended);
        if passed < TURN_MS {
            None
        } else {
            Some(now.saturating_add(passed))
        }
    }
}

impl<T: Wait + time::Clock> Beside for Tabu<'_, T> {
    /// An iterated tabu search (Misevicius 2004), until it is halted or memory runs out: after some iterations it
    /// begins again from exchanges at random.
    fn search(&self, number: u16) {
        let Ok(mut here) = self.start.copy() else {
            return;
        };
        for _ in 0..u32::MAX {
            if self.is_over(None) {
                return;
            }
            match self.next_from(&here, number) {
                Ok(next) => here = next,
                Err(AllocError) => return,
            }
        }
    }

    fn halt(&self) {
        self.halt.store(true, Ordering::SeqCst);
    }
}

impl<T: Wait + time::Clock> Offers for Tabu<'_, T> {
    fn offered(&self, cost: i128) -> Option<Perm> {
        if let Some(end) = self.turn_end() {
            self.take_turn(end);
        }
        if self.cost() < cost {
            self.best().ok()
        } else {
            None
        }
    }
}

/// Lets a tabu search continue until it is halted or its turn is over.
#[derive(Drop)]
struct Until<'a, 'b, T> {
    tabu: &'a Tabu<'b, T>,
    end: Option<u64>,
}

impl<T: Wait + time::Clock> Hook for Until<'_, '_, T> {
    fn goes_on(&mut self, _best: i128) -> bool {
        !self.tabu.is_over(self.end)
    }
}
