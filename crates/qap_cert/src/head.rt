//! The first four lines of a certificate.

ghost use Rattle.std.specs.Prelude.{◌≡◌, ◌<◌, ◌≤◌, ◌⊎◌, ◌++◌, ◌∷◌, [], pos, length, codes, MatchResult, MatchOption};
ghost use Rattle.qap_cost.specs.Bijection.{IsPerm};
ghost use Rattle.qap_cost.specs.Range.{IsLimited};
ghost use Rattle.qap_lines.specs.Number.{IsNamed};
ghost use Rattle.qap_cert.specs.declared.error.CertError.TheVariants.{OutOfMemory};
ghost use Rattle.qap_io.specs.Number.{from_one as counted_from_one};
ghost use Rattle.qap_lines.specs.LineText.{line_text};
ghost use Rattle.qap_cert.specs.TextFault.{IsLineFault, IsHeaderFault, IsSizeFault, IsCostFault, IsPermFault};
ghost use Rattle.qap_cert.specs.Version.{version_number};

use crate::CertError;
use crate::line::line_at;
use crate::line_number::{COST_LINE, PERM_LINE, SIZE_LINE, VERSION_LINE};
use crate::version::Version;
use qap_cost::{MAX_SIZE, MAX_VALUE, Perm};
use qap_lines::{one_number, permutation_from_one, read_numbers};
use std::alloc::Global;

/// The version, which the first line states, and what follows that.
pub(crate) fn read_header(text: &[u8]) -> Result<(Version, &[u8]), CertError>
    ensures { MatchResult result
        (λ r. text.now ≡ line_text (codes "qapcert") (pos (version_number r.0) ∷ []) ++ r.1.now)
        (IsLineFault 1 text.now IsHeaderFault) }
{
    let line = line_at(text, VERSION_LINE)?;
    let version = judge_header(line.bytes)?;
    Ok((version, line.rest))
}

fn judge_header(line: &[u8]) -> Result<Version, CertError>
    ensures { MatchResult result (λ v. IsNamed (codes "qapcert") line.now (pos (version_number v) ∷ [])) (IsHeaderFault line.now) }
{
    match one_number(b"qapcert", line) {
        Some(1) => Ok(Version::First),
        Some(2) => Ok(Version::Second),
        Some(version) if version > 0 => Err(CertError::BadVersion),
        Some(_) => Err(CertError::BadHeader),
        None => Err(CertError::BadHeader),
    }
}

/// The size, which the second line states, and what follows that.
pub(crate) fn read_size(text: &[u8]) -> Result<(usize, &[u8]), CertError>
    ensures { MatchResult result
        (λ r. (0 < r.0) × (r.0 ≤ 256) × (text.now ≡ line_text (codes "n") (pos r.0 ∷ []) ++ r.1.now))
        (IsLineFault 2 text.now IsSizeFault) }
{
    let line = line_at(text, SIZE_LINE)?;
    let size = judge_size(line.bytes)?;
    Ok((size, line.rest))
}

fn judge_size(line: &[u8]) -> Result<usize, CertError>
    ensures { MatchResult result
        (λ n. (0 < n) × (n ≤ 256) × IsNamed (codes "n") line.now (pos n ∷ []))
        (IsSizeFault line.now) }
{
    match one_number(b"n", line) {
        Some(size) if size > 0 && size <= MAX_SIZE as i128 => Ok(size as usize),
        _ => Err(CertError::BadLine(SIZE_LINE)),
    }
}

/// The cost, which the third line states, from -10^24 to 10^24, and what follows that.
pub(crate) fn read_cost(text: &[u8]) -> Result<(i128, &[u8]), CertError>
    ensures { MatchResult result
        (λ r. (IsLimited r.0) × (text.now ≡ line_text (codes "cost") (r.0 ∷ []) ++ r.1.now))
        (IsLineFault 3 text.now IsCostFault) }
{
    let line = line_at(text, COST_LINE)?;
    let cost = judge_cost(line.bytes)?;
    Ok((cost, line.rest))
}

fn judge_cost(line: &[u8]) -> Result<i128, CertError>
    ensures { MatchResult result
        (λ c. (IsLimited c) × IsNamed (codes "cost") line.now (c ∷ []))
        (IsCostFault line.now) }
{
    match one_number(b"cost", line) {
        Some(cost) if cost.unsigned_abs() <= MAX_VALUE => Ok(cost),
        _ => Err(CertError::BadLine(COST_LINE)),
    }
}

/// The permutation of a certificate of size `n`, whose locations the fourth line states, counted from 1, and what follows
/// that.
pub(crate) fn read_permutation(
    alloc: Global,
    text: &[u8],
    n: usize,
) -> Result<(Perm, &[u8]), CertError>
    requires positive { 0 < n }
    requires small { n ≤ 256 }
    ensures { MatchResult result
        (λ r. IsPerm r.0 × (length r.0 ≡ n) × (text.now ≡ line_text (codes "perm") (counted_from_one r.0) ++ r.1.now))
        (λ e. (e ≡ OutOfMemory) ⊎ IsLineFault 4 text.now (IsPermFault n) e) }
{
    let line = line_at(text, PERM_LINE)?;
    let permutation = judge_permutation(alloc, line.bytes, n)?;
    Ok((permutation, line.rest))
}

fn judge_permutation(alloc: Global, line: &[u8], n: usize) -> Result<Perm, CertError>
    requires small { n ≤ 256 }
    ensures { MatchResult result
        (λ p. IsPerm p × (length p ≡ n) × IsNamed (codes "perm") line.now (counted_from_one p))
        (λ e. (e ≡ OutOfMemory) ⊎ IsPermFault n line.now e) }
{
    let mut locations = Vec::new(alloc);
    let Some(numbers) = read_numbers(b"perm", line, n, &mut locations)? else {
        return Err(CertError::BadLine(PERM_LINE));
    };
    if numbers.count != n {
        return Err(CertError::BadLine(PERM_LINE));
    }
    match permutation_from_one(alloc, &locations)? {
        Some(permutation) => Ok(permutation),
        None => Err(CertError::PermBad(PERM_LINE)),
    }
}
