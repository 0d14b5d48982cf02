//! The first four lines of a proof.

ghost use Rattle.std.specs.Prelude.{◌≡◌, ◌<◌, ◌≤◌, ◌⊎◌, ◌++◌, ◌∷◌, [], pos, length, codes, MatchResult, MatchOption};
ghost use Rattle.qap_cost.specs.Bijection.{IsPerm};
ghost use Rattle.qap_cost.specs.Range.{IsLimited};
ghost use Rattle.qap_lines.specs.Number.{IsNamed};
ghost use Rattle.qap_io.specs.Number.{from_one as counted_from_one};
ghost use Rattle.qap_lines.specs.LineText.{line_text};
ghost use Rattle.qap_proof.specs.TextFault.{IsLineFault, IsHeaderFault, IsSizeFault, IsCostFault, IsPermFault};

use crate::error::ProofError;
use crate::line::line_at;
use crate::line_number::{COST_LINE, PERM_LINE, SIZE_LINE, VERSION_LINE};
use qap_cost::{MAX_SIZE, MAX_VALUE, Perm};
use qap_lines::{one_number, permutation_from_one, read_numbers};
use std::alloc::Global;

/// Reads the first line, which states the version, and hands out what follows it.
pub(crate) fn read_header(text: &[u8]) -> Result<&[u8], ProofError>
    ensures { MatchResult result
        (λ rest. text.now ≡ line_text (codes "qapproof") (pos 1 ∷ []) ++ rest.now)
        (IsLineFault 1 text.now IsHeaderFault) }
{
    let line = line_at(text, VERSION_LINE)?;
    judge_header(line.bytes)?;
    Ok(line.rest)
}

fn judge_header(line: &[u8]) -> Result<(), ProofError>
    ensures { MatchResult result (λ done. IsNamed (codes "qapproof") line.now (pos 1 ∷ [])) (IsHeaderFault line.now) }
{
    match one_number(b"qapproof", line) {
        Some(1) => Ok(()),
        Some(version) if version > 0 => Err(ProofError::BadVersion),
        Some(_) => Err(ProofError::BadHeader),
        None => Err(ProofError::BadHeader),
    }
}

/// The size, which the second line states, and what follows that.
pub(crate) fn read_size(text: &[u8]) -> Result<(usize, &[u8]), ProofError>
    ensures { MatchResult result
        (λ r. (0 < r.0) × (r.0 ≤ 256) × (text.now ≡ line_text (codes "n") (pos r.0 ∷ []) ++ r.1.now))
        (IsLineFault 2 text.now IsSizeFault) }
{
    let line = line_at(text, SIZE_LINE)?;
    let size = judge_size(line.bytes)?;
    Ok((size, line.rest))
}

fn judge_size(line: &[u8]) -> Result<usize, ProofError>
    ensures { MatchResult result
        (λ n. (0 < n) × (n ≤ 256) × IsNamed (codes "n") line.now (pos n ∷ []))
        (IsSizeFault line.now) }
{
    match one_number(b"n", line) {
        Some(size) if size > 0 && size <= MAX_SIZE as i128 => Ok(size as usize),
        _ => Err(ProofError::BadLine(SIZE_LINE)),
    }
}

/// The cost, which the third line states, from -10^24 to 10^24, and what follows that.
pub(crate) fn read_cost(text: &[u8]) -> Result<(i128, &[u8]), ProofError>
    ensures { MatchResult result
        (λ r. (IsLimited r.0) × (text.now ≡ line_text (codes "cost") (r.0 ∷ []) ++ r.1.now))
        (IsLineFault 3 text.now IsCostFault) }
{
    let line = line_at(text, COST_LINE)?;
    let cost = judge_cost(line.bytes)?;
    Ok((cost, line.rest))
}

fn judge_cost(line: &[u8]) -> Result<i128, ProofError>
    ensures { MatchResult result
        (λ c. (IsLimited c) × IsNamed (codes "cost") line.now (c ∷ []))
        (IsCostFault line.now) }
{
    match one_number(b"cost", line) {
        Some(cost) if cost.unsigned_abs() <= MAX_VALUE => Ok(cost),
        _ => Err(ProofError::BadLine(COST_LINE)),
    }
}

/// The permutation of a proof of size `n`, whose locations the fourth line states, counted from 1, and what follows that.
pub(crate) fn read_permutation(
    alloc: Global,
    text: &[u8],
    n: usize,
) -> Result<(Perm, &[u8]), ProofError>
    requires positive { 0 < n }
    requires small { n ≤ 256 }
    ensures { MatchResult result
        (λ r. IsPerm r.0 × (length r.0 ≡ n) × (text.now ≡ line_text (codes "perm") (counted_from_one r.0) ++ r.1.now))
        (λ e. (e ≡ ProofError.OutOfMemory) ⊎ IsLineFault 4 text.now (IsPermFault n) e) }
{
    let line = line_at(text, PERM_LINE)?;
    let permutation = judge_permutation(alloc, line.bytes, n)?;
    Ok((permutation, line.rest))
}

fn judge_permutation(alloc: Global, line: &[u8], n: usize) -> Result<Perm, ProofError>
    requires small { n ≤ 256 }
    ensures { MatchResult result
        (λ p. IsPerm p × (length p ≡ n) × IsNamed (codes "perm") line.now (counted_from_one p))
        (λ e. (e ≡ ProofError.OutOfMemory) ⊎ IsPermFault n line.now e) }
{
    let mut locations = Vec::new(alloc);
    let Some(numbers) = read_numbers(b"perm", line, n, &mut locations)? else {
        return Err(ProofError::BadLine(PERM_LINE));
    };
    if numbers.count != n {
        return Err(ProofError::BadLine(PERM_LINE));
    }
    match permutation_from_one(alloc, &locations)? {
        Some(permutation) => Ok(permutation),
        None => Err(ProofError::PermBad(PERM_LINE)),
    }
}
