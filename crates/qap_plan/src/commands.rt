//! The subcommands: their options and their runs.

pub(crate) mod answering;
pub(crate) mod charged_answer;
pub(crate) mod charged_outcome;
pub(crate) mod check;
pub(crate) mod checking;
pub(crate) mod command_line;
pub(crate) mod compare;
pub(crate) mod convert;
pub(crate) mod converting;
pub(crate) mod duration;
pub(crate) mod ending;
pub(crate) mod estimates;
pub(crate) mod part;
pub(crate) mod show;
pub(crate) mod solve;
pub(crate) mod solve_instance;
pub(crate) mod solve_restricted;
pub(crate) mod split;
