//! The elapsed time of a run, as the clock of its search.

use qap_search::Clock;
use std::time::{self, Instant};

/// How long ago a run began.
#[derive(Drop)]
pub struct Elapsed<'a, T: time::Clock> {
    system: &'a T,
    /// When it began, if that could be read.
    start: Option<Instant>,
}

impl<'a, T: time::Clock> Elapsed<'a, T> {
    /// A run that begins now.
    pub fn new(system: &'a T) -> Elapsed<'a, T> {
        Elapsed {
            system,
            start: Instant::now(system).ok(),
        }
    }
}

impl<T: time::Clock> Clock for Elapsed<'_, T> {
    /// In milliseconds; 0 if the time can't be read.
    fn now(&self) -> u64 {
        let Some(start) = self.start else {
            return 0;
        };
        match start.elapsed(self.system) {
            Ok(time) => u64::try_from(time.as_millis()).unwrap_or(u64::MAX),
            Err(_) => 0,
        }
    }
}
