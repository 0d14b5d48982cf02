//! Runs of a search: by threads, by the calling thread alone, and by a schedule.

pub(crate) mod alone;
pub(crate) mod answer;
pub(crate) mod clock;
pub(crate) mod crew;
pub(crate) mod opening;
pub(crate) mod pace;
pub(crate) mod run;
pub(crate) mod run_ending;
pub(crate) mod schedule;
pub(crate) mod schedule_place;
pub(crate) mod seat;
pub(crate) mod threads;
