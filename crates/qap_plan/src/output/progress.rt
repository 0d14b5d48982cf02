//! Reports on standard error how far a search has come.

use crate::output::resident::{resident_bytes, usable_bytes};
use plan_answer::gap_text;
use plan_search::{Keeper, Progress, RunClock};
use plan_table::decimal_text;
use std::alloc::{AllocError, Global};
use std::cell::Cell;
use std::fs::{self, Files};
use std::io::IsTerminal;
use std::time;

/// How many milliseconds lie at least between two lines.
const PAUSE_MS: u64 = 10_000;

/// After how many milliseconds it is looked again whether the search is to stop.
const LOOK_MS: u64 = 100;

/// The cells of a bar of which everything is settled, and of one of which nothing is.
const FULL: &[u8] = b"==========";

const EMPTY: &[u8] = b"----------";

/// More decimals than a cost has digits.
const MOST_DECIMALS: usize = 40;

/// How a run reports its progress.
#[derive(Clone, Copy)]
pub enum Telling {
    /// Not at all.
    Never,
    /// By a line of this many columns that is kept up to date, on a terminal.
    OneLine(usize),
    /// By a line of at most this many columns every ten seconds.
    Lines(usize),
}

/// How a run on this system reports its progress in lines of this many columns, if it is to.
pub fn telling_of(rt: &HostRuntime, columns: Option<usize>) -> Telling {
    match columns {
        Some(columns) if rt.stderr().is_terminal() => Telling::OneLine(columns),
        Some(columns) => Telling::Lines(columns),
        None => Telling::Never,
    }
}

/// Measures the time and memory of a search, reports its progress, and may stop it when its time is over or a file
/// requests it.
#[derive(Drop)]
pub struct Teller<'a, R: Eprint + AllocGlobal + Files, T: time::Clock> {
    rt: &'a R,
    elapsed: &'a RunClock<'a, T>,
    telling: Telling,
    /// How many decimals costs have.
    decimals: Cell<usize>,
    /// When the last line was written, in milliseconds since the run began.
    told_ms: Cell<u64>,
    /// The file whose being there stops the search.
    stop_file: Option<&'a str>,
    /// When it was last looked for, in milliseconds since the run began.
    looked_ms: Cell<u64>,
    /// Whether it was there.
    is_stopped: Cell<bool>,
}

impl<'a, R: Eprint + AllocGlobal + Files, T: time::Clock> Teller<'a, R, T> {
    /// One that has reported nothing yet.
    pub fn new(
        rt: &'a R,
        elapsed: &'a RunClock<'a, T>,
        telling: Telling,
        stop_file: Option<&'a str>,
    ) -> Teller<'a, R, T> {
        Teller {
            rt,
            elapsed,
            telling,
            decimals: Cell::new(0),
            told_ms: Cell::new(0),
            stop_file,
            looked_ms: Cell::new(0),
            is_stopped: Cell::new(false),
        }
    }

    /// Looks whether the file is there that stops the search, ten times in a second.
    fn look(&self, file: &str) {
        let now = self.elapsed.milliseconds();
        if now.saturating_sub(self.looked_ms.get()) >= LOOK_MS {
            self.looked_ms.set(now);
            self.is_stopped.set(fs::metadata(self.rt, file).is_ok());
        }
    }
}

impl<R: Eprint + AllocGlobal + Files, T: time::Clock> Keeper for Teller<'_, R, T> {
    fn now(&self) -> u64 {
        self.elapsed.now()
    }

    fn is_wanted(&self) -> bool {
        if let Some(file) = self.stop_file {
            if !self.is_stopped.get() {
                self.look(file);
            }
        }
        self.is_stopped.get() || self.elapsed.is_wanted()
    }

    fn is_watching(&self) -> bool {
        !matches!(self.telling, Telling::Never)
    }

    fn see(&self, progress: &Progress) {
        let now = self.elapsed.milliseconds();
        let decimals = self.decimals.get();
        match self.telling {
            Telling::Never => {}
            Telling::OneLine(columns) => {
                if let Ok(line) = progress_line(self.rt.alloc(), now, progress, decimals) {
                    let _ = self.rt.eprint(format_args!("\r{line:<columns$.columns$}"));
                }
            }
            Telling::Lines(columns) => {
                if now.saturating_sub(self.told_ms.get()) < PAUSE_MS {
                    return;
                }
                self.told_ms.set(now);
                if let Ok(line) = progress_line(self.rt.alloc(), now, progress, decimals) {
                    let _ = self.rt.eprintln(format_args!("{line:.columns$}"));
                }
            }
        }
    }

    fn use_decimals(&self, decimals: usize) {
        self.decimals.set(decimals);
    }

    fn resident_bytes(&self) -> Option<u64> {
        resident_bytes(self.rt)
    }

    fn usable_bytes(&self) -> Option<u64> {
        usable_bytes(self.rt)
    }

    fn tell_memory(&self) {
        self.finish();
        let _ = self.rt.eprintln(format_args!(
            "the search ends, since it has more memory than it may: --memory MB allows more"
        ));
    }

    /// Makes the terminal's line empty again.
    fn finish(&self) {
        if let Telling::OneLine(columns) = self.telling {
            let _ = self.rt.eprint(format_args!("\r{:<columns$}\r", ""));
        }
    }
}

/// How far a search has come after this many milliseconds: the seconds, how much of it is settled, the cost of the
/// incumbent with this many decimals, how far that may be above the least, and how many nodes were decided.
fn progress_line(
    alloc: Global,
    milliseconds: u64,
    progress: &Progress,
    decimals: usize,
) -> Result<String, AllocError> {
    let seconds = milliseconds / 1000;
    let bar = bar_phrase(alloc, progress.settled)?;
    let cost = cost_phrase(alloc, progress, decimals)?;
    let nodes = nodes_phrase(alloc, milliseconds, progress.decided)?;
    format!(in alloc; "{seconds} s{bar}{cost}{nodes}")
}

/// How much is settled, as a bar and in percent, if it is known.
fn bar_phrase(alloc: Global, settled: Option<u64>) -> Result<String, AllocError> {
    let Some(percent) = settled else {
        return Ok(String::new(alloc));
    };
    let tenths = usize::try_from(percent / 10).unwrap_or(FULL.len());
    let full = cells(FULL, tenths);
    let empty = cells(EMPTY, EMPTY.len().saturating_sub(tenths));
    format!(in alloc; " [{full}{empty}] {percent}%")
}

/// A bar with this many cells, if it has any.
fn cells(bar: &[u8], count: usize) -> &str {
    std::str::from_utf8(bar.get(..count).unwrap_or(bar)).unwrap_or("")
}

/// How many nodes were decided, and how many in a second, if there are any.
fn nodes_phrase(alloc: Global, milliseconds: u64, decided: u64) -> Result<String, AllocError> {
    if decided == 0 {
        return Ok(String::new(alloc));
    }
    let rate = u128::from(decided) * 1000 / u128::from(milliseconds.max(1));
    format!(in alloc; ", {decided} nodes, {rate}/s")
}

/// The cost of the incumbent, if it is to be reported, and how far it may be above the least, if a bound is known.
fn cost_phrase(alloc: Global, progress: &Progress, decimals: usize) -> Result<String, AllocError> {
    let Some(cost) = progress.cost else {
        return Ok(String::new(alloc));
    };
    let number = decimal_text(alloc, cost, decimals.min(MOST_DECIMALS))?;
    let number = std::str::from_utf8(&number).unwrap_or("");
    let percent = match progress.bound {
        Some(bound) => gap_text(alloc, cost, bound)?,
        None => None,
    };
    match percent {
        Some(percent) => {
            let percent = std::str::from_utf8(&percent).unwrap_or("");
            format!(in alloc; ", cost {number}, at most {percent}% above the least")
        }
        None => format!(in alloc; ", cost {number}"),
    }
}
