//! Why fields do not form a tuple, or patterns a template.

use thiserror::Error;

/// Why a row of fields does not form a tuple, or a row of patterns a template.
#[derive(Clone, Copy, Debug, PartialEq, Eq, Error)]
pub enum MatchError {
    /// Refusal 30: there are not 1 to 8 of them, or a word or a list in one of them is outside its limits.
    #[error("there are not 1 to 8 parts, or one of them is outside its limits")]
    BadTuple,
}
