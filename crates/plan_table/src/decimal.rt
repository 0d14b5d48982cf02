//! The decimal numbers that the cells of a table spell.

ghost use Rattle.std.specs.Prelude.{◌≡◌, ◌≤◌, ◌+◌, ◌++◌, ◌<◌, ℕ, ℤ, List, length, position, unsigned_abs, IfSome, MatchResult, Some};
ghost use Rattle.std.specs.Option.{option_map};
ghost use Rattle.std.specs.List.{list_all};
ghost use Rattle.plan_table.specs.Least.{IsWholeAt};
ghost use Rattle.plan_table.specs.Scale.{scaled};
ghost use Rattle.plan_table.specs.declared.decimal.Decimal.{Decimal};
ghost use Rattle.plan_table.specs.Decimal.{are_digits as digits_of, decimal_of, held_magnitude, held_unsigned, is_digit as digit_of, is_point, max_entry, max_number, pointed as pointed_of, signed_of, unsigned, unsigned_of, whole as whole_of, without_zeros as zeros_cut, IsNumberFault};

use thiserror::Error;

/// The largest entry of an instance: each entry is between its negative and it.
pub const MAX_ENTRY: u64 = 1_000_000_000;

/// The largest number that is distinguished from larger ones: no cost of an instance comes near it.
pub const MAX_NUMBER: u128 = 1_000_000_000_000_000_000_000_000_000_000_000_000;

/// Stands for each number that is larger.
pub const BEYOND: u128 = MAX_NUMBER + 1;

/// A decimal number, `number / 10^places`, with as few places as it can have.
#[derive(Clone, Copy, Debug, PartialEq, Eq)]
pub struct Decimal {
    pub number: i64,
    pub places: usize,
}

/// A decimal number without its sign.
#[derive(Clone, Copy)]
pub struct Unsigned {
    pub magnitude: u128,
    pub places: usize,
}

/// Why a word is not an entry, regardless of the scale.
#[derive(Clone, Copy, Debug, PartialEq, Eq, Error)]
pub enum NumberFault {
    /// It spells no decimal number.
    #[error("not a decimal number")]
    NotANumber,
    /// Its digits represent more than 10^9.
    #[error("a number above 10^9")]
    TooLarge,
}

/// The decimal number that a word spells: an optional sign, one or more digits, and optionally a point followed by one
/// or more digits. Trailing zeros after a point are ignored.
pub fn parse_decimal(word: &[u8]) -> Result<Decimal, NumberFault>
    ensures { MatchResult result
        (λ d. (decimal_of word.now ≡ Some d) × (unsigned_abs d.number ≤ max_entry))
        (IsNumberFault (decimal_of word.now)) }
{
    match word.split_first() {
        Some((b'+', digits)) => signed(false, digits),
        Some((b'-', digits)) => signed(true, digits),
        _ => signed(false, word),
    }
}

/// A number that a word spells is whole at no power of ten below its places, and at each other is the entry of that scale.
pub fn decimal_law()
    ensures least { (word : List ℕ) (d : Decimal) (power : ℕ) (z : ℤ) → decimal_of word ≡ Some d → IsWholeAt d power z → d.places ≤ power }
    ensures whole { (d : Decimal) (power : ℕ) → d.places ≤ power → IsWholeAt d power (scaled power d) }
{}

/// The number that a word without a sign spells, with a sign.
fn signed(negative: bool, word: &[u8]) -> Result<Decimal, NumberFault>
    ensures { MatchResult result
        (λ d. (signed_of negative word.now ≡ Some d) × (unsigned_abs d.number ≤ max_entry))
        (IsNumberFault (signed_of negative word.now)) }
{
    let Some(unsigned) = parse_unsigned(word) else {
        return Err(NumberFault::NotANumber);
    };
    if unsigned.magnitude > u128::from(MAX_ENTRY) {
        return Err(NumberFault::TooLarge);
    }
    let magnitude = unsigned.magnitude as i64;
    Ok(Decimal {
        number: if negative { -magnitude } else { magnitude },
        places: unsigned.places,
    })
}

/// The number that a word without a sign spells, clamped to one above 10^36.
pub fn parse_unsigned(word: &[u8]) -> Option<Unsigned>
    ensures { result ≡ option_map held_unsigned (unsigned_of word.now) }
{
    match first_point(word) {
        Some(point) => pointed(&word[..point], &word[point + 1..]),
        None => whole(word),
    }
}

/// The place of the first point of a word.
pub fn first_point(word: &[u8]) -> Option<usize>
    ensures place { result ≡ position is_point word.now }
    ensures inside { IfSome result (λ i. i < length word.now) }
{
    word.iter().position(|byte| *byte == b'.')
}

/// The number that digits with no point spell.
pub fn whole(digits: &[u8]) -> Option<Unsigned>
    ensures { result ≡ option_map held_unsigned (whole_of digits.now) }
{
    if are_digits(digits) {
        Some(held(digits, &[]))
    } else {
        None
    }
}

/// The number that the digits before a point and those after it spell.
fn pointed(whole: &[u8], fraction: &[u8]) -> Option<Unsigned>
    ensures { result ≡ option_map held_unsigned (pointed_of whole.now fraction.now) }
{
    if are_digits(whole) && are_digits(fraction) {
        Some(held(whole, without_zeros(fraction)))
    } else {
        None
    }
}

/// Whether these are one or more digits, and nothing else.
pub fn are_digits(text: &[u8]) -> bool
    ensures { result ≡ digits_of text.now }
{
    !text.is_empty() && all_digits(text)
}

/// Whether these are digits, and nothing else.
pub fn all_digits(text: &[u8]) -> bool
    ensures { result ≡ list_all digit_of text.now }
{
    text.iter().all(|byte| is_digit(*byte))
}

/// Whether a byte is a digit.
pub fn is_digit(byte: u8) -> bool
    ensures { result ≡ digit_of byte }
{
    matches!(byte, b'0'..=b'9')
}

/// Digits without the zeros at their end.
pub fn without_zeros(digits: &[u8]) -> &[u8]
    ensures { result.now ≡ zeros_cut digits.now }
{
    let mut kept = digits;
    while let Some((last, front)) = kept.split_last() {
        if *last != b'0' {
            return kept;
        }
        kept = front;
    }
    kept
}

/// The number that digits and decimals represent, clamped to one above 10^36.
pub fn held(whole: &[u8], fraction: &[u8]) -> Unsigned
    ensures { result ≡ held_unsigned (unsigned whole.now fraction.now) }
{
    let before = followed_by(0, whole);
    let magnitude = followed_by(before, fraction);
    Unsigned {
        magnitude,
        places: fraction.len(),
    }
}

/// The value of digits that follow digits with the value `before`, clamped to one above 10^36.
pub fn followed_by(before: u128, digits: &[u8]) -> u128
    requires { before ≤ max_number + 1 }
    ensures held { result ≤ max_number + 1 }
    ensures value { (front : List ℕ) → before ≡ held_magnitude front → result ≡ held_magnitude (front ++ digits.now) }
{
    let mut magnitude = before;
    for digit in digits {
        let value = u128::from(digit.saturating_sub(b'0'));
        magnitude = BEYOND.min(magnitude * 10 + value);
    }
    magnitude
}
