//! The elapsed time of a run: the clock of its search, and its time limit.

use crate::keeper::{Keeper, Progress};
use std::time::{self, Instant};

/// How long ago a run began, and how long it may take.
#[derive(Drop)]
pub struct RunClock<'a, T: time::Clock> {
    system: &'a T,
    /// When it began, if that could be read.
    start: Option<Instant>,
    /// After how many milliseconds the search is to stop.
    limit_ms: Option<u64>,
}

impl<'a, T: time::Clock> RunClock<'a, T> {
    /// A run that begins now, and may take this many milliseconds.
    pub fn new(system: &'a T, limit_ms: Option<u64>) -> RunClock<'a, T> {
        RunClock {
            system,
            start: Instant::now(system).ok(),
            limit_ms,
        }
    }

    /// The elapsed milliseconds; 0 if the time cannot be read.
    pub fn milliseconds(&self) -> u64 {
        let Some(start) = self.start else {
            return 0;
        };
        match start.elapsed(self.system) {
            Ok(time) => u64::try_from(time.as_millis()).unwrap_or(u64::MAX),
            Err(_) => 0,
        }
    }
}

impl<T: time::Clock> Keeper for RunClock<'_, T> {
    fn now(&self) -> u64 {
        self.milliseconds()
    }

    fn is_wanted(&self) -> bool {
        match self.limit_ms {
            Some(limit) => self.milliseconds() >= limit,
            None => false,
        }
    }

    fn is_watching(&self) -> bool {
        false
    }

    fn see(&self, _progress: &Progress) {}

    fn use_decimals(&self, _decimals: usize) {}

    fn resident_bytes(&self) -> Option<u64> {
        None
    }

    fn usable_bytes(&self) -> Option<u64> {
        None
    }

    fn tell_memory(&self) {}

    fn finish(&self) {}
}
