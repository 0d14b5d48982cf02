//! Decimal numbers made whole by one power of ten.

ghost use Rattle.std.specs.Prelude.{◌≡◌, ◌<◌, ◌≤◌, All, MatchOption, MatchResult, unsigned_abs};
ghost use Rattle.plan_table.specs.Decimal.{max_entry};
ghost use Rattle.plan_table.specs.Scale.{scaled as scaled_of, shifted as shifted_by, AreScaled, IsLeastScale, IsScaleFault};

use crate::decimal::{Decimal, MAX_ENTRY};
use std::alloc::{AllocError, Global};

/// The exponent of the least power of ten that makes each of the numbers whole.
pub fn least_scale(decimals: &[Decimal]) -> usize
    ensures { IsLeastScale decimals.now result }
{
    let mut scale = 0;
    for decimal in decimals {
        scale = decimal.places.max(scale);
    }
    scale
}

/// Why numbers have no entries.
#[derive(Clone, Copy)]
pub enum ScaleError {
    /// The number at this position is outside -10^9 to 10^9 once it is scaled.
    TooLarge(usize),
    /// Memory ran out.
    OutOfMemory,
}

/// The numbers times a power of ten, each from -10^9 to 10^9.
pub fn scaled_entries(
    alloc: Global,
    decimals: &[Decimal],
    scale: usize,
) -> Result<Vec<i64>, ScaleError>
    requires { All (λ d. d.places ≤ scale) decimals.now }
    ensures { MatchResult result (λ v. AreScaled scale decimals.now v.items) (IsScaleFault scale decimals.now) }
{
    let mut entries = Vec::with_capacity(alloc, decimals.len()).map_err(
        |_| ScaleError::OutOfMemory,
    )?;
    for (i, decimal) in decimals.iter().enumerate() {
        let Some(entry) = scaled(decimal, scale) else {
            return Err(ScaleError::TooLarge(i));
        };
        entries.push(entry).map_err(|_| ScaleError::OutOfMemory)?;
    }
    Ok(entries)
}

/// A number times a power of ten, where that is from -10^9 to 10^9.
fn scaled(decimal: &Decimal, scale: usize) -> Option<i64>
    requires { decimal.now.places ≤ scale }
    ensures { MatchOption result
        (max_entry < unsigned_abs (scaled_of scale decimal.now))
        (λ z. (z ≡ scaled_of scale decimal.now) × (unsigned_abs z ≤ max_entry)) }
{
    shifted(decimal.number, scale - decimal.places)
}

/// A number times a power of ten, where that is from -10^9 to 10^9.
fn shifted(number: i64, power: usize) -> Option<i64>
    ensures { MatchOption result
        (max_entry < unsigned_abs (shifted_by number power))
        (λ z. (z ≡ shifted_by number power) × (unsigned_abs z ≤ max_entry)) }
{
    if number == 0 {
        return Some(0);
    }
    let mut value = number;
    for _ in 0..power {
        if value.unsigned_abs() > MAX_ENTRY {
            return None;
        }
        value *= 10;
    }
    if value.unsigned_abs() > MAX_ENTRY {
        None
    } else {
        Some(value)
    }
}
