//! Permutations as lines spell them, counted from 1.

ghost use Rattle.std.specs.Prelude.{◌≡◌, ◌≢◌, ◌<◌, ◌≤◌, ◌+◌, ℕ, List, pos, length, slice_index_or, MatchOption, IfOk, SomeIndex};
ghost use Rattle.qap_cost.specs.Bijection.{IsPerm};
ghost use Rattle.qap_io.specs.Number.{from_one as counted_from_one};

use qap_cost::Perm;
use qap_io::from_one;
use std::alloc::{AllocError, Global};

/// The permutation with these numbers, counted from 1; `None` if they do not list each of 1 to their count once. The
/// only error is out of memory.
pub fn permutation_from_one(alloc: Global, values: &[i128]) -> Result<Option<Perm>, AllocError>
    requires small { length values.now ≤ 256 }
    ensures { IfOk result (λ found. MatchOption found
        ((p : List ℕ) → IsPerm p → values.now ≢ counted_from_one p)
        (λ p. IsPerm p × (values.now ≡ counted_from_one p))) }
{
    let Some(locations) = locations_from_one(alloc, values)? else {
        return Ok(None);
    };
    match Perm::new(locations) {
        Ok(permutation) => Ok(Some(permutation)),
        Err(_) => Ok(None),
    }
}

/// Locations that are counted from 1, counted from 0; `None` if one of them isn't from 1 to their count.
fn locations_from_one(alloc: Global, values: &[i128]) -> Result<Option<Vec<u16>>, AllocError>
    requires small { length values.now ≤ 256 }
    ensures { IfOk result (λ found. MatchOption found
        (SomeIndex values.now (λ i. (k : ℕ) → k < length values.now → slice_index_or values.now i (pos 0) ≢ pos (k + 1)))
        (λ v. values.now ≡ counted_from_one v.items)) }
{
    let mut locations = Vec::with_capacity(alloc, values.len())?;
    for value in values {
        let Some(location) = from_one(*value, values.len()) else {
            return Ok(None);
        };
        locations.push(location)?;
    }
    Ok(Some(locations))
}
