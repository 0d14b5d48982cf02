//! Numbers over a power of ten as decimal numbers.

ghost use Rattle.std.specs.Prelude.{◌≡◌, ◌++◌, ◌<◌, ◌^◌, IfOk, OnOk, length, true};
ghost use Rattle.std.specs.List.{list_all};
ghost use Rattle.plan_table.specs.Decimal.{is_digit, magnitude_of};
ghost use Rattle.plan_table.specs.Spelling.{Spells, pointed_text, sign_text};

use crate::decimal::without_zeros;
use std::alloc::{AllocError, Global};

/// `number / 10^places` as a decimal number, exactly: a sign if it is negative, digits, and if it is not whole a point
/// and its decimals, the last of them not zero.
pub fn decimal_text(alloc: Global, number: i128, places: usize) -> Result<Vec<u8>, AllocError>
    requires { places < 2 ^ 32 }
    ensures { IfOk result (λ text. Spells text.items number places) }
{
    let digits = padded_digits(alloc, number.unsigned_abs(), places)?;
    let (whole, fraction) = digits.split_at(digits.len() - places);
    let mut text = Vec::from_slice(alloc, sign(number))?;
    push_digits(&mut text, whole, without_zeros(fraction))?;
    Ok(text)
}

/// A minus where the number is below zero.
fn sign(number: i128) -> &'static [u8]
    ensures { result.now ≡ sign_text number }
{
    if number < 0 { b"-" } else { b"" }
}

/// The digits of a number, with as many zeros in front as make them more than these places.
fn padded_digits(alloc: Global, magnitude: u128, places: usize) -> Result<Vec<u8>, AllocError>
    requires { places < 2 ^ 32 }
    ensures digits { IfOk result (λ v. list_all is_digit v.items ≡ true) }
    ensures value { IfOk result (λ v. magnitude_of v.items ≡ magnitude) }
    ensures more { IfOk result (λ v. places < length v.items) }
{
    let digits = format!(in alloc; "{magnitude}")?;
    let mut padded = vec![in alloc; b'0'; (places + 1).saturating_sub(digits.len())]?;
    padded.extend_from_slice(digits.as_bytes())?;
    Ok(padded)
}

/// Appends the digits before a point to the text, and if there are any after it, the point and these.
fn push_digits(text: &mut Vec<u8>, whole: &[u8], fraction: &[u8]) -> Result<(), AllocError>
    ensures { OnOk result (text.new.items ≡ text.old.items ++ pointed_text whole.now fraction.now) }
{
    text.extend_from_slice(whole)?;
    if !fraction.is_empty() {
        text.push(b'.')?;
        text.extend_from_slice(fraction)?;
    }
    Ok(())
}
