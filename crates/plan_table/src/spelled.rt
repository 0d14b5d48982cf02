//! Numbers over a power of ten, read from decimal numbers: in the form that `decimal_text` writes, and in any other.

ghost use Rattle.std.specs.Prelude.{◌≡◌, ◌<◌, ◌≤◌, ◌*◌, ◌^◌, ℕ, pos, neg_ℤ, if◌then◌else◌, MatchOption};
ghost use Rattle.plan_table.specs.Decimal.{decimal_of, max_number, signed_of};
ghost use Rattle.plan_table.specs.Spelling.{IsWorth, IsWorthNone, SpellsJust, SpellsNone};

use crate::decimal::{MAX_NUMBER, parse_unsigned};

/// The number that a word spells over `10^places`. None if it spells no number, or one that is not whole over that
/// power of ten, or is outside -10^36 to 10^36.
pub fn spelled_number(word: &[u8], places: usize) -> Option<i128>
    ensures { MatchOption result (SpellsNone word.now places) (SpellsJust word.now places) }
{
    number_at(word, places)
}

/// The same, of the decimal number that a word spells.
fn number_at(word: &[u8], places: usize) -> Option<i128>
    ensures { MatchOption result (IsWorthNone (decimal_of word.now) places) (IsWorth (decimal_of word.now) places) }
{
    match word.split_first() {
        Some((b'+', digits)) => signed_number(false, digits, places),
        Some((b'-', digits)) => signed_number(true, digits, places),
        _ => signed_number(false, word, places),
    }
}

/// The same, of the number that a word without a sign spells, with a sign.
fn signed_number(negative: bool, word: &[u8], places: usize) -> Option<i128>
    ensures { MatchOption result (IsWorthNone (signed_of negative word.now) places) (IsWorth (signed_of negative word.now) places) }
{
    let Some(unsigned) = parse_unsigned(word) else {
        return None;
    };
    if unsigned.places > places {
        return None;
    }
    match raised(unsigned.magnitude, places - unsigned.places) {
        Some(magnitude) => Some(with_sign(negative, magnitude)),
        None => None,
    }
}

/// A magnitude times a power of ten, where that is 10^36 at most.
fn raised(magnitude: u128, power: usize) -> Option<u128>
    ensures { MatchOption result
        (max_number < magnitude * 10 ^ power)
        (λ m. (m ≡ magnitude * 10 ^ power) × (m ≤ max_number)) }
{
    if magnitude == 0 {
        return Some(0);
    }
    if magnitude > MAX_NUMBER {
        return None;
    }
    let mut value = magnitude;
    for _ in 0..power {
        value *= 10;
        if value > MAX_NUMBER {
            return None;
        }
    }
    Some(value)
}

/// A magnitude with a sign.
fn with_sign(negative: bool, magnitude: u128) -> i128
    requires { magnitude ≤ max_number }
    ensures { result ≡ (if negative then neg_ℤ (pos magnitude) else pos magnitude) }
{
    let number = magnitude as i128;
    if negative { -number } else { number }
}
