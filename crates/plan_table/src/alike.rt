//! Names that a reader would confuse.

ghost use Rattle.std.specs.Prelude.{◌≡◌, ◌≢◌, ◌<◌, ℕ, [], length, map, slice_index_or, IfOk, MatchOption, OnOk};
ghost use Rattle.std.specs.String.{string_bytes};
ghost use Rattle.plan_table.specs.Alike.{AreUnlike, folded};

use crate::error::TableError;
use std::alloc::{AllocError, Global};

/// Checks that no two names differ only in case and blanks.
pub fn check_unlike(alloc: Global, names: &[String]) -> Result<(), TableError>
    ensures { OnOk result (AreUnlike (map string_bytes names.now)) }
{
    let keys = folded_names(alloc, names)?;
    for k in 0..names.len() {
        if let Some(j) = same_before(&keys, k) {
            return Err(TableError::NamesAlike {
                first: names[j].clone()?,
                second: names[k].clone()?,
            });
        }
    }
    Ok(())
}

/// The names in small letters and without blanks.
fn folded_names(alloc: Global, names: &[String]) -> Result<Vec<Vec<u8>>, AllocError>
    ensures { IfOk result (λ v. map (λ key. key.items) v.items ≡ map (λ name. folded (string_bytes name)) names.now) }
{
    let mut keys = Vec::new(alloc);
    for name in names {
        keys.push(folded_name(alloc, name.as_str())?)?;
    }
    Ok(keys)
}

/// A name in small letters and without blanks.
pub fn folded_name(alloc: Global, name: &str) -> Result<Vec<u8>, AllocError>
    ensures { IfOk result (λ key. key.items ≡ folded name.now) }
{
    let small = name.to_lowercase(alloc)?;
    let mut key = Vec::new(alloc);
    for byte in small.as_bytes() {
        if *byte != b' ' {
            key.push(*byte)?;
        }
    }
    Ok(key)
}

/// The number of a key before the one of number `k` that is the same.
fn same_before(keys: &[Vec<u8>], k: usize) -> Option<usize>
    requires { k < length keys.now }
    ensures { let all = map (λ key. key.items) keys.now in
        MatchOption result ((j : ℕ) → j < k → slice_index_or all j [] ≢ slice_index_or all k []) (λ j. j < k) }
{
    for j in 0..k {
        if keys[j].as_slice() == keys[k].as_slice() {
            return Some(j);
        }
    }
    None
}
