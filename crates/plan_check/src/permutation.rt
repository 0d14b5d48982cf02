//! Locations as a permutation.

ghost use Rattle.std.specs.Prelude.{◌≡◌, ◌≢◌, ◌+◌, ◌<◌, ◌≤◌, ℕ, MatchOption, MatchResult, length, map, slice_index};
ghost use Rattle.qap_cost.specs.Bijection.{IsPerm};
ghost use Rattle.plan_check.specs.Apart.{AreApart};
ghost use Rattle.plan_check.specs.Refusal.{AreNoLocations};

use crate::error::AnswerError;
use qap_cost::Perm;
use std::alloc::Global;

/// The permutation of this many facilities whose locations are these, counted from 1.
pub fn permutation_of(alloc: Global, numbers: &[u64], size: usize) -> Result<Perm, AnswerError>
    requires positive { 0 < size }
    requires small { size ≤ 256 }
    ensures { MatchResult result
        (λ p. (numbers.now ≡ map (λ k. k + 1) p) × (length p ≡ size))
        (AreNoLocations size numbers.now) }
{
    if numbers.len() != size {
        return Err(AnswerError::OtherCount {
            found: numbers.len(),
            wanted: size,
        });
    }
    let locations = locations_of(alloc, numbers, size)?;
    match repeated(numbers) {
        Some(j) => Err(AnswerError::LocationTwice {
            number: j + 1,
            location: numbers[j],
        }),
        None => Ok(perm_of(locations)),
    }
}

/// The permutation that these locations are.
fn perm_of(locations: Vec<u16>) -> Perm
    requires { IsPerm locations.items }
    ensures { result ≡ locations.items }
{
    Perm::new(locations).unwrap()
}

/// The same locations, counted from 0.
fn locations_of(alloc: Global, numbers: &[u64], size: usize) -> Result<Vec<u16>, AnswerError>
    requires { size ≤ 256 }
    ensures { MatchResult result
        (λ v. (numbers.now ≡ map (λ k. k + 1) v.items) × ((i : ℕ) → i < length numbers.now → slice_index numbers.now i ≤ size))
        (AreNoLocations size numbers.now) }
{
    let mut locations = Vec::new(alloc);
    for (i, &number) in numbers.iter().enumerate() {
        if number == 0 {
            return Err(AnswerError::NoLocation {
                number: i + 1,
                size,
            });
        }
        if number > size as u64 {
            return Err(AnswerError::NoLocation {
                number: i + 1,
                size,
            });
        }
        if locations.push((number - 1) as u16).is_err() {
            return Err(AnswerError::OutOfMemory);
        }
    }
    Ok(locations)
}

/// The first position whose number already occurs before it.
fn repeated(numbers: &[u64]) -> Option<usize>
    ensures { MatchOption result
        (AreApart numbers.now (length numbers.now))
        (λ j. (j < length numbers.now) × (i : ℕ) × (i < j) × (slice_index numbers.now i ≡ slice_index numbers.now j)) }
{
    for j in 0..numbers.len() {
        if let Some(_) = same_before(numbers, j) {
            return Some(j);
        }
    }
    None
}

/// The first earlier position with the same number.
fn same_before(numbers: &[u64], j: usize) -> Option<usize>
    requires { j < length numbers.now }
    ensures { MatchOption result
        ((i : ℕ) → i < j → slice_index numbers.now i ≢ slice_index numbers.now j)
        (λ i. (i < j) × (slice_index numbers.now i ≡ slice_index numbers.now j)) }
{
    for i in 0..j {
        if numbers[i] == numbers[j] {
            return Some(i);
        }
    }
    None
}
