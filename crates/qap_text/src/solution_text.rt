//! Texts of solutions.

ghost use Rattle.std.specs.Prelude.{◌≡◌, ◌≢◌, ◌<◌, ◌≤◌, ◌+◌, ◌^◌, ◌⊎◌, List, length, ℕ, ℤ, pos, MatchResult, unsigned_abs, slice_index};
ghost use Rattle.qap_cost.specs.Bijection.{AreDifferent};
ghost use Rattle.qap_io.specs.Number.{from_one as as_texts_count};
ghost use Rattle.qap_text.specs.Spelling.{IsNumberAt, Spells};
ghost use Rattle.qap_text.specs.SolutionText.{
  IsSolutionText,
  IsSolutionFault,
  IsOtherSizeFault,
  IsValueFault,
  IsLocationFault,
  HasLocationFault,
};

use crate::TextError;
use crate::numeral::next_number;
use qap_cost::{MAX_VALUE, Perm};
use qap_io::from_one;
use std::alloc::Global;

/// Reads a solution of size `n` at the beginning of a text: `n`, the objective value (-10^24 to 10^24), and the
/// locations of the facilities, counted from 1.
///
/// White space and commas separate the numbers. What follows the last one is ignored. The words are checked in order,
/// and the first fault is reported.
pub fn read_solution(alloc: Global, n: usize, text: &[u8]) -> Result<(i128, Perm), TextError>
    requires positive { 0 < n }
    requires small { n ≤ 256 }
    ensures { MatchResult result
        (λ r. IsSolutionText text.now n r.0 r.1)
        (λ e. (e ≡ TextError.OutOfMemory) ⊎ IsSolutionFault text.now n e) }
{
    let stop = read_known_size(text, n)?;
    let (value, stop) = read_value(text, stop)?;
    let locations = read_locations(alloc, text, stop, n)?;
    match Perm::new(locations) {
        Ok(permutation) => Ok((value, permutation)),
        Err(_) => unreachable!(),
    }
}

/// The position after the first word, which must be the size `n`.
fn read_known_size(text: &[u8], n: usize) -> Result<usize, TextError>
    requires { n ≤ 256 }
    ensures { MatchResult result
        (λ stop. (start : ℕ) × IsNumberAt text.now 0 start stop (pos n))
        (IsOtherSizeFault text.now n) }
{
    let Some(numeral) = next_number(text, 0)? else {
        return Err(TextError::Empty);
    };
    if numeral.value != n as i128 {
        return Err(TextError::SizeDiffers(numeral.start));
    }
    Ok(numeral.stop)
}

/// The objective value from a position on, and the position after it.
fn read_value(text: &[u8], from: usize) -> Result<(i128, usize), TextError>
    requires { from ≤ length text.now }
    ensures { MatchResult result
        (λ r. (unsigned_abs r.0 ≤ 10 ^ 24) × (start : ℕ) × IsNumberAt text.now from start r.1 r.0)
        (IsValueFault text.now from) }
{
    let Some(numeral) = next_number(text, from)? else {
        return Err(TextError::CountDiffers);
    };
    if numeral.value.unsigned_abs() > MAX_VALUE {
        return Err(TextError::ValueRange(numeral.start));
    }
    Ok((numeral.value, numeral.stop))
}

/// The next location from a position on, counted from 0, and the position after it.
fn read_location(
    text: &[u8],
    from: usize,
    n: usize,
    earlier: &[u16],
) -> Result<(u16, usize), TextError>
    requires place { from ≤ length text.now }
    requires small { n ≤ 256 }
    ensures { MatchResult result
        (λ r. (r.0 < n) × ((i : ℕ) → i < length earlier.now → slice_index earlier.now i ≢ r.0)
        × (start : ℕ) × IsNumberAt text.now from start r.1 (pos (r.0 + 1)))
        (IsLocationFault text.now from n earlier.now) }
{
    let Some(numeral) = next_number(text, from)? else {
        return Err(TextError::CountDiffers);
    };
    let Some(location) = from_one(numeral.value, n) else {
        return Err(TextError::NotPermutation(numeral.start));
    };
    if earlier.contains(&location) {
        return Err(TextError::NotPermutation(numeral.start));
    }
    Ok((location, numeral.stop))
}

/// The locations of `n` facilities from a position on, counted from 0.
fn read_locations(alloc: Global, text: &[u8], from: usize, n: usize) -> Result<Vec<u16>, TextError>
    requires place { from ≤ length text.now }
    requires small { n ≤ 256 }
    ensures { MatchResult result
        (λ v. AreDifferent n v.items × (length v.items ≡ n) × (stop : ℕ) × Spells text.now from (as_texts_count v.items) stop)
        (λ e. (e ≡ TextError.OutOfMemory) ⊎ HasLocationFault text.now from n e) }
{
    let mut locations = Vec::with_capacity(alloc, n).map_err(|_| TextError::OutOfMemory)?;
    let mut stop = from;
    for _ in 0..n {
        let (location, next) = read_location(text, stop, n, &locations)?;
        locations
            .push(location)
            .map_err(|_| TextError::OutOfMemory)?;
        stop = next;
    }
    Ok(locations)
}

/// A text is that of one solution of a size at most, a text of a solution has no fault, and there is only one first fault.
pub fn solution_text_law()
    ensures one { (text : List ℕ) (n : ℕ) (c d : ℤ) (p q : List ℕ) → IsSolutionText text n c p → IsSolutionText text n d q → (c ≡ d) × (p ≡ q) }
    ensures faultless { (text : List ℕ) (n : ℕ) (c : ℤ) (p : List ℕ) (e : TextError) → IsSolutionText text n c p → IsSolutionFault text n e → ⊥ }
    ensures one_fault { (text : List ℕ) (n : ℕ) (e f : TextError) → IsSolutionFault text n e → IsSolutionFault text n f → e ≡ f }
{}
