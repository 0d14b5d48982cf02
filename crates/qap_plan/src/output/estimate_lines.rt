//! The lines about how many nodes the searches of parts evaluate.

use std::alloc::{AllocError, Global};
use std::num::saturating_f64_to_u64;
use subtree_search::Estimate;

/// From this power of ten on, numbers are in scientific notation.
const SCIENTIFIC: u32 = 4;

/// The greatest power of ten of a number.
const MAX_EXPONENT: u32 = 308;

/// The sum of the estimates of independent searches.
#[derive(Clone, Copy, Debug)]
pub struct Total {
    /// How many estimates were added.
    pub searches: usize,
    pub estimate: Estimate,
}

impl Total {
    /// Of no search.
    pub fn new() -> Total {
        Total {
            searches: 0,
            estimate: Estimate {
                nodes: 0.0,
                error: 0.0,
            },
        }
    }

    /// Adds the estimate of another search, if there is one.
    pub fn add(&mut self, found: Option<Estimate>) {
        if let Some(other) = found {
            self.searches = self.searches.saturating_add(1);
            self.estimate.nodes += other.nodes;
            self.estimate.error = self.estimate.error.hypot(other.error);
        }
    }
}

/// The line about a part.
pub fn part_line(
    alloc: Global,
    number: usize,
    found: Option<Estimate>,
) -> Result<String, AllocError> {
    let Some(estimate) = found else {
        return format!(in alloc; "part {number}: no estimate\n");
    };
    let about = estimate_text(alloc, estimate)?;
    format!(in alloc; "part {number}: {about}\n")
}

/// The line about all parts that have estimates.
pub fn total_line(alloc: Global, total: Total) -> Result<String, AllocError> {
    let about = estimate_text(alloc, total.estimate)?;
    let searches = total.searches;
    format!(in alloc; "total of {searches} parts: {about}\n")
}

/// An estimate and its standard error.
fn estimate_text(alloc: Global, estimate: Estimate) -> Result<String, AllocError> {
    let nodes = number_text(alloc, estimate.nodes)?;
    let error = number_text(alloc, estimate.error)?;
    format!(in alloc; "about {nodes} nodes, standard error {error}")
}

/// A number, rounded to three significant digits, if it has so many.
fn number_text(alloc: Global, number: f64) -> Result<String, AllocError> {
    let (digits, exponent) = rounded(number);
    if exponent < SCIENTIFIC {
        let whole = digits.saturating_mul(10_u64.saturating_pow(exponent));
        return format!(in alloc; "{whole}");
    }
    let (first, rest) = (digits / 100, digits % 100);
    let exponent = exponent.saturating_add(2);
    format!(in alloc; "{first}.{rest:02}e{exponent}")
}

/// The number of up to three digits, and the power of ten, whose product is nearest to a number.
fn rounded(number: f64) -> (u64, u32) {
    let mut rest = number;
    for exponent in 0..MAX_EXPONENT {
        if rest < 999.5 {
            return (saturating_f64_to_u64(rest + 0.5), exponent);
        }
        rest /= 10.0;
    }
    (saturating_f64_to_u64(rest + 0.5), MAX_EXPONENT)
}
