//! How far a cost may be above the least.

ghost use Rattle.std.specs.Prelude.{◌≡◌, ◌<◌, ◌≤◌, ◌*◌, false, true, IfOk, MatchOption, pos};
ghost use Rattle.std.specs.Int.{div_ceil};
ghost use Rattle.qap_cost.specs.Limits.{max_value};
ghost use Rattle.plan_table.specs.Spelling.{Spells};
ghost use Rattle.plan_answer.specs.Gap.{IsApartText, IsPercentText, is_told, tenths_above};

use plan_table::decimal_text;
use qap_cost::MAX_VALUE;
use std::alloc::{AllocError, Global};

/// How far the cost may be above the least in percent, rounded up to tenths; nothing if the bound is not positive.
pub fn apart_text(alloc: Global, cost: i128, bound: i128) -> Result<Vec<u8>, AllocError>
    ensures { IfOk result (λ text. IsApartText cost bound text.items) }
{
    match tenths_apart(cost, bound) {
        Some(tenths) => percent_text(alloc, tenths),
        None => Ok(Vec::new(alloc)),
    }
}

/// Likewise as a number alone, in percent; `None` if the bound is not positive.
pub fn gap_text(alloc: Global, cost: i128, bound: i128) -> Result<Option<Vec<u8>>, AllocError>
    ensures { IfOk result (λ found. MatchOption found (is_told cost bound ≡ false) (λ text. (is_told cost bound ≡ true) × Spells text.items (pos (tenths_above cost bound)) 1)) }
{
    match tenths_apart(cost, bound) {
        Some(tenths) => Ok(Some(decimal_text(alloc, tenths, 1)?)),
        None => Ok(None),
    }
}

/// The text of an answer for this many tenths of a percent.
fn percent_text(alloc: Global, tenths: i128) -> Result<Vec<u8>, AllocError>
    ensures { IfOk result (λ text. IsPercentText tenths text.items) }
{
    let percent = decimal_text(alloc, tenths, 1)?;
    let mut text = Vec::new(alloc);
    text.extend_from_slice(b", at most ")?;
    text.extend_from_slice(&percent)?;
    text.extend_from_slice(b"% above the least")?;
    Ok(text)
}

/// The cost less the bound, in tenths of a percent of the bound, rounded up; `None` if the bound isn't above zero, or
/// above the cost, or where the cost is larger than one can be.
fn tenths_apart(cost: i128, bound: i128) -> Option<i128>
    ensures { MatchOption result (is_told cost bound ≡ false) (λ tenths. (is_told cost bound ≡ true) × (tenths ≡ pos (tenths_above cost bound))) }
{
    if bound <= 0 || cost < bound || cost.unsigned_abs() > MAX_VALUE {
        return None;
    }
    let above = (cost - bound).unsigned_abs();
    Some(tenths_of(above, bound.unsigned_abs()) as i128)
}

/// A number in tenths of a percent of another one, rounded up.
fn tenths_of(above: u128, bound: u128) -> u128
    requires above { above ≤ max_value }
    requires bound { 0 < bound }
    ensures value { result ≡ div_ceil (above * 1000) bound }
    ensures small { result ≤ above * 1000 }
{
    (above * 1000).div_ceil(bound)
}
