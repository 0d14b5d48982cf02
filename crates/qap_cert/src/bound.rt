//! The line of a certificate's bound.

ghost use Rattle.std.specs.Prelude.{◌≡◌, ◌++◌, ◌∷◌, [], ℤ, codes, MatchOption, MatchResult};
ghost use Rattle.qap_lines.specs.Number.{IsNamed};
ghost use Rattle.qap_lines.specs.LineText.{line_text};
ghost use Rattle.qap_cert.specs.TextFault.{HasNoBound, IsBelow, IsBoundLineFault};

use crate::CertError;
use crate::line_number::BOUND_LINE;
use qap_cost::MAX_VALUE;
use qap_lines::{first_line, one_number};

/// A bound that is stated, and what follows its line.
#[derive(Clone, Copy)]
pub(crate) struct Stated<'a> {
    pub(crate) bound: i128,
    pub(crate) rest: &'a [u8],
}

/// The bound that the fifth line of a text of version 2 states, if it states one.
pub(crate) fn stated_bound(text: &[u8], cost: i128) -> Result<Option<Stated<'_>>, CertError>
    ensures { MatchResult result
        (λ found. MatchOption found
        (HasNoBound text.now)
        (λ s. IsBelow cost s.bound × (text.now ≡ line_text (codes "bound") (s.bound ∷ []) ++ s.rest.now)))
        (IsBoundLineFault cost text.now) }
{
    let Some(line) = first_line(text) else {
        return Ok(None);
    };
    match judge_bound(line.bytes, cost)? {
        Some(bound) => Ok(Some(Stated {
            bound,
            rest: line.rest,
        })),
        None => Ok(None),
    }
}

/// The bound that a line states, if it is one of a bound.
fn judge_bound(line: &[u8], cost: i128) -> Result<Option<i128>, CertError>
    ensures { MatchResult result
        (λ found. MatchOption found
        ((g : ℤ) → IsNamed (codes "bound") line.now (g ∷ []) → ⊥)
        (λ g. IsBelow cost g × IsNamed (codes "bound") line.now (g ∷ [])))
        (λ e. (e ≡ CertError.BadLine 5) × (g : ℤ) × IsNamed (codes "bound") line.now (g ∷ []) × (IsBelow cost g → ⊥)) }
{
    match one_number(b"bound", line) {
        None => Ok(None),
        Some(bound) if bound.unsigned_abs() <= MAX_VALUE && bound < cost => Ok(Some(bound)),
        Some(_) => Err(CertError::BadLine(BOUND_LINE)),
    }
}
