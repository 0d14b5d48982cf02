//! The clock, stop and observer of a run.

/// How far a search has come.
#[derive(Clone, Copy)]
pub struct Progress {
    /// The cost of the incumbent, if that is to be reported.
    pub cost: Option<i128>,
    /// What no permutation that the search is among costs less than, if that is known.
    pub bound: Option<i128>,
    /// How many percent of these are settled, if that is known.
    pub settled: Option<u64>,
    /// How many nodes were decided.
    pub decided: u64,
}

/// Controls a run: measures its time, may stop it, observes its progress, and measures and limits its memory.
pub trait Keeper {
    /// How many milliseconds ago the run began.
    fn now(&self) -> u64;

    /// Whether the search is to stop.
    fn is_wanted(&self) -> bool;

    /// Whether it makes anything of the progress.
    fn is_watching(&self) -> bool;

    /// Sees how far the search has come.
    fn see(&self, progress: &Progress);

    /// Is to report costs with this many decimals: those of the search are whole numbers.
    fn use_decimals(&self, decimals: usize);

    /// How many bytes of memory the program has now, where that can be found out.
    fn resident_bytes(&self) -> Option<u64>;

    /// How many bytes it may have if no limit is given, where that can be found out.
    fn usable_bytes(&self) -> Option<u64>;

    /// Reports that the search ends since it has more.
    fn tell_memory(&self);

    /// Makes room for the answer, once the search has ended.
    fn finish(&self);
}
