//! Exponents of numbers, which shift the point.

ghost use Rattle.std.specs.Prelude.{◌≡◌, ◌++◌, ◌+◌, ◌<◌, ◌^◌, length, true, IfOk, IfSome, OnOk};
ghost use Rattle.plan_table.specs.Decimal.{magnitude_of};
ghost use Rattle.plan_table.specs.Numerals.{exponent_at as exponent_of, front_to as front_of, is_exponent as exponent_is, is_exponent_sign as begins_exponent, is_power as power_is, lowered_text, pointed_digits, raised_text, shifted_text, unsigned_text};

use crate::decimal::{all_digits, followed_by};
use crate::numeral::{push_digits, push_fraction, push_whole, split_sign};
use std::alloc::{AllocError, Global};

/// The place of the letter that begins a word's exponent.
pub fn exponent_at(word: &[u8]) -> Option<usize>
    ensures place { result ≡ exponent_of word.now }
    ensures inside { IfSome result (λ i. i < length word.now) }
{
    word.iter().position(|byte| begins_exponent(*byte))
}

fn begins_exponent(byte: u8) -> bool
    ensures { result ≡ begins_exponent byte }
{
    byte == b'e' || byte == b'E'
}

/// The part of a word before a position, or the whole word.
pub fn front_to(word: &[u8], at: Option<usize>) -> &[u8]
    requires { IfSome at (λ i. i < length word.now) }
    ensures { result.now ≡ front_of word.now at }
{
    match at {
        Some(place) => &word[..place],
        None => word,
    }
}

/// Whether an exponent, if present, is one to three digits after an optional sign.
pub fn is_exponent(word: &[u8], at: Option<usize>) -> bool
    requires { IfSome at (λ i. i < length word.now) }
    ensures { result ≡ exponent_is word.now at }
{
    match at {
        None => true,
        Some(place) => {
            let (_, digits) = split_sign(&word[place + 1..]);
            is_power(digits)
        }
    }
}

/// Whether these are one to three digits.
fn is_power(digits: &[u8]) -> bool
    ensures { result ≡ power_is digits.now }
{
    !digits.is_empty() && digits.len() <= 3 && all_digits(digits)
}

/// Appends the digits of a whole part and of a fraction to a text, with the point shifted by the exponent.
pub fn push_unsigned(
    alloc: Global,
    text: &mut Vec<u8>,
    word: &[u8],
    at: Option<usize>,
    whole: &[u8],
    fraction: &[u8],
) -> Result<(), AllocError>
    requires inside { IfSome at (λ i. i < length word.now) }
    requires power { exponent_is word.now at ≡ true }
    ensures { OnOk result (text.new.items ≡ text.old.items ++ unsigned_text word.now at whole.now fraction.now) }
{
    match at {
        None => {
            push_whole(text, whole)?;
            push_fraction(text, fraction)
        }
        Some(place) => {
            let (sign, power) = split_sign(&word[place + 1..]);
            push_shifted(alloc, text, sign, power, whole, fraction)
        }
    }
}

/// The same, by the sign and the digits of an exponent.
fn push_shifted(
    alloc: Global,
    text: &mut Vec<u8>,
    sign: &[u8],
    power: &[u8],
    whole: &[u8],
    fraction: &[u8],
) -> Result<(), AllocError>
    requires { power_is power.now ≡ true }
    ensures { OnOk result (text.new.items ≡ text.old.items ++ shifted_text sign.now power.now whole.now fraction.now) }
{
    match sign.first() {
        Some(b'-') => push_lowered(alloc, text, power_of(power), whole, fraction),
        _ => push_raised(alloc, text, power_of(power), whole, fraction),
    }
}

/// What one to three digits represent.
fn power_of(digits: &[u8]) -> usize
    requires { power_is digits.now ≡ true }
    ensures value { result ≡ magnitude_of digits.now }
    ensures small { result < 1000 }
{
    followed_by(0, digits) as usize
}

/// Appends the digits of a number times 10^power to the text.
fn push_raised(
    alloc: Global,
    text: &mut Vec<u8>,
    power: usize,
    whole: &[u8],
    fraction: &[u8],
) -> Result<(), AllocError>
    ensures { OnOk result (text.new.items ≡ text.old.items ++ raised_text power whole.now fraction.now) }
{
    let mut digits = Vec::new(alloc);
    push_digits(&mut digits, whole)?;
    digits.extend_from_slice(fraction)?;
    digits.extend_from_slice(&vec![in alloc; b'0'; power]?)?;
    push_pointed(text, &digits, fraction.len())
}

/// Appends the digits of a number over 10^power to the text.
fn push_lowered(
    alloc: Global,
    text: &mut Vec<u8>,
    power: usize,
    whole: &[u8],
    fraction: &[u8],
) -> Result<(), AllocError>
    requires { power < 1000 }
    ensures { OnOk result (text.new.items ≡ text.old.items ++ lowered_text power whole.now fraction.now) }
{
    let mut digits = vec![in alloc; b'0'; power]?;
    push_digits(&mut digits, whole)?;
    digits.extend_from_slice(fraction)?;
    push_pointed(text, &digits, fraction.len() + power)
}

/// Appends digits to the text, with a zero before them, and a point before the last of them, this many.
fn push_pointed(text: &mut Vec<u8>, digits: &[u8], places: usize) -> Result<(), AllocError>
    ensures { OnOk result (text.new.items ≡ text.old.items ++ pointed_digits digits.now places) }
{
    let (front, behind) = digits.split_at(digits.len().saturating_sub(places));
    text.push(b'0')?;
    text.extend_from_slice(front)?;
    push_fraction(text, behind)
}
