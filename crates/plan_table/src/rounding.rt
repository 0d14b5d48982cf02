//! Numbers rounded to a given number of decimals, half away from zero.

ghost use Rattle.std.specs.Prelude.{◌≡◌, ◌≤◌, ◌<◌, true, length, unsigned_abs, MatchResult, Some};
ghost use Rattle.std.specs.Option.{option_map};
ghost use Rattle.std.specs.List.{list_all};
ghost use Rattle.plan_table.specs.Decimal.{IsNumberFault, held_unsigned, is_digit as digit_of, max_entry, pointed as pointed_of, unsigned, unsigned_of};
ghost use Rattle.plan_table.specs.Rounding.{carry as carry_of, rounded, rounded_decimal_of, rounded_signed as signed_of};

use crate::decimal::{
    BEYOND, Decimal, MAX_ENTRY, NumberFault, Unsigned, are_digits, first_point, held, whole,
    without_zeros,
};

/// The decimal number that a plain text spells, rounded.
pub fn parse_rounded(word: &[u8], places: usize) -> Result<Decimal, NumberFault>
    ensures { MatchResult result
        (λ d. (rounded_decimal_of places word.now ≡ Some d) × (unsigned_abs d.number ≤ max_entry))
        (IsNumberFault (rounded_decimal_of places word.now)) }
{
    match word.split_first() {
        Some((b'+', digits)) => rounded_signed(places, false, digits),
        Some((b'-', digits)) => rounded_signed(places, true, digits),
        Some(_) => rounded_signed(places, false, word),
        None => Err(NumberFault::NotANumber),
    }
}

/// The number that a text without a sign spells, rounded, with a sign.
fn rounded_signed(places: usize, negative: bool, word: &[u8]) -> Result<Decimal, NumberFault>
    ensures { MatchResult result
        (λ d. (signed_of places negative word.now ≡ Some d) × (unsigned_abs d.number ≤ max_entry))
        (IsNumberFault (signed_of places negative word.now)) }
{
    let Some(unsigned) = rounded_unsigned(word, places) else {
        return Err(NumberFault::NotANumber);
    };
    if unsigned.magnitude > u128::from(MAX_ENTRY) {
        return Err(NumberFault::TooLarge);
    }
    let magnitude = unsigned.magnitude as i64;
    Ok(Decimal {
        number: if negative { -magnitude } else { magnitude },
        places: unsigned.places,
    })
}

/// The number that a text without a sign spells, rounded and clamped to one above 10^36.
fn rounded_unsigned(word: &[u8], places: usize) -> Option<Unsigned>
    ensures { result ≡ option_map held_unsigned (option_map (rounded places) (unsigned_of word.now)) }
{
    match first_point(word) {
        Some(point) => rounded_pointed(&word[..point], &word[point + 1..], places),
        None => whole(word),
    }
}

/// The number that the digits before a point and those after it spell, rounded.
fn rounded_pointed(whole: &[u8], fraction: &[u8], places: usize) -> Option<Unsigned>
    ensures { result ≡ option_map held_unsigned (option_map (rounded places) (pointed_of whole.now fraction.now)) }
{
    if are_digits(whole) && are_digits(fraction) {
        Some(rounded_digits(whole, without_zeros(fraction), places))
    } else {
        None
    }
}

/// The number of digits before a point and after it, rounded.
fn rounded_digits(whole: &[u8], fraction: &[u8], places: usize) -> Unsigned
    requires { list_all digit_of fraction.now ≡ true }
    ensures { result ≡ held_unsigned (rounded places (unsigned whole.now fraction.now)) }
{
    if fraction.len() <= places {
        return held(whole, fraction);
    }
    let (kept, dropped) = fraction.split_at(places);
    let below = held(whole, kept);
    Unsigned {
        magnitude: BEYOND.min(below.magnitude + carry(dropped)),
        places,
    }
}

/// One where the first of the digits that are dropped is 5 or more.
fn carry(dropped: &[u8]) -> u128
    ensures value { result ≡ carry_of dropped.now }
    ensures small { result ≤ 1 }
{
    match dropped.first() {
        Some(digit) if *digit >= b'5' => 1,
        _ => 0,
    }
}
