//! How the tables of a plan are read.

use crate::numeral::DecimalMark;

/// How the tables of a plan are read.
#[derive(Clone, Copy, Debug, PartialEq, Eq)]
pub struct Rules {
    /// The mark before the fractions of numbers, if it is given.
    pub decimal_mark: Option<DecimalMark>,
    /// To how many decimals numbers are rounded, half away from zero, if they are.
    pub round: Option<usize>,
    /// Whether each half of a matrix completes the other.
    pub is_symmetric: bool,
    /// Whether amounts that a list has for the same two departments are added.
    pub adds_up: bool,
}

impl Rules {
    /// The rules of a plan that gives none.
    pub const NONE: Rules = Rules {
        decimal_mark: None,
        round: None,
        is_symmetric: false,
        adds_up: false,
    };
}
