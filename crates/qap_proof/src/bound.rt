//! The line of a proof's bound.

ghost use Rattle.std.specs.Prelude.{◌≡◌, ◌+◌, ◌≤◌, ◌++◌, ◌∷◌, [], ℤ, codes, MatchOption, MatchResult};
ghost use Rattle.qap_cost.specs.Placement.{Placement};
ghost use Rattle.qap_cost.specs.Range.{IsLimited};
ghost use Rattle.qap_lines.specs.Number.{IsNamed};
ghost use Rattle.qap_lines.specs.LineText.{line_text};
ghost use Rattle.qap_lines.specs.Bound.{IsBoundFor};
ghost use Rattle.qap_proof.specs.Claim.{lines_of_bound};
ghost use Rattle.qap_proof.specs.Text.{bound_text};
ghost use Rattle.qap_proof.specs.TextFault.{HasNoBound, IsBelow, IsBoundLineFault, IsFaultFromBound, IsFaultFromTree};

use crate::error::ProofError;
use qap_cost::MAX_VALUE;
use qap_lines::{first_line, one_number};

/// The bound, which may have a line, the number of the line after it, and the text from there on.
#[derive(Clone, Copy)]
pub(crate) struct Bounded<'a> {
    pub(crate) bound: i128,
    pub(crate) line: u64,
    pub(crate) rest: &'a [u8],
}

/// A bound that is stated, and what follows its line.
#[derive(Clone, Copy)]
struct Stated<'a> {
    bound: i128,
    rest: &'a [u8],
}

/// Reads the line of the bound, which has this number, if there is one: otherwise the bound is the cost.
pub(crate) fn read_bound(text: &[u8], cost: i128, number: u64) -> Result<Bounded<'_>, ProofError>
    requires cost { IsLimited cost }
    requires number { number ≤ 6 }
    ensures { MatchResult result
        (λ b. IsBoundFor cost b.bound × (b.line ≡ number + lines_of_bound cost b.bound) × (text.now ≡ bound_text cost b.bound ++ b.rest.now)
        × ((x : Placement) (e : ProofError) → IsFaultFromTree x b.line b.rest.now e → IsFaultFromBound x cost number text.now e))
        (λ e. (x : Placement) → IsFaultFromBound x cost number text.now e) }
{
    match stated_bound(text, cost, number)? {
        None => Ok(Bounded {
            bound: cost,
            line: number,
            rest: text,
        }),
        Some(stated) => Ok(Bounded {
            bound: stated.bound,
            line: number + 1,
            rest: stated.rest,
        }),
    }
}

/// The bound that the first line of a text states, if it states one.
fn stated_bound(text: &[u8], cost: i128, number: u64) -> Result<Option<Stated<'_>>, ProofError>
    ensures { MatchResult result
        (λ found. MatchOption found
        (HasNoBound text.now)
        (λ s. IsBelow cost s.bound × (text.now ≡ line_text (codes "bound") (s.bound ∷ []) ++ s.rest.now)))
        (IsBoundLineFault cost number text.now) }
{
    let Some(line) = first_line(text) else {
        return Ok(None);
    };
    match judge_bound(line.bytes, cost, number)? {
        Some(bound) => Ok(Some(Stated {
            bound,
            rest: line.rest,
        })),
        None => Ok(None),
    }
}

/// The bound that a line states, if it is one of a bound.
fn judge_bound(line: &[u8], cost: i128, number: u64) -> Result<Option<i128>, ProofError>
    ensures { MatchResult result
        (λ found. MatchOption found
        ((g : ℤ) → IsNamed (codes "bound") line.now (g ∷ []) → ⊥)
        (λ g. IsBelow cost g × IsNamed (codes "bound") line.now (g ∷ [])))
        (λ e. (e ≡ ProofError.BadLine number) × (g : ℤ) × IsNamed (codes "bound") line.now (g ∷ []) × (IsBelow cost g → ⊥)) }
{
    match one_number(b"bound", line) {
        None => Ok(None),
        Some(bound) if bound.unsigned_abs() <= MAX_VALUE && bound < cost => Ok(Some(bound)),
        Some(_) => Err(ProofError::BadLine(number)),
    }
}
