//! Reports on arrangements as HTML: one page with the picture, the places, the costliest pairs, what is proved, and how
//! to check it.
#![tactic(auto)]

mod checking;
mod page;
mod pairs;
mod rows;

pub use page::{Report, report_page};
