//! Tuples, templates and matching, as in Linda (Gelernter, Generative Communication in Linda, 1985).
//!
//! A tuple is a row of 1 to 8 fields, each a number, a word or a list of numbers. A template is a row of as many
//! patterns: an actual, which specifies a field, or a formal, which specifies a type. `matches` decides whether a
//! tuple matches a template.
#![tactic(auto)]

mod block;
mod fields;
mod matching;
mod refusal;
mod row;
mod templates;
mod tuples;
mod words;

pub use fields::Field;
pub use matching::{does_match_law, matches};
pub use refusal::MatchError;
pub use templates::{Pattern, Template};
pub use tuples::Tuple;
pub use words::ShortWord;
