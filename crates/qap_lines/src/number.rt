//! Numbers of a line.

ghost use Rattle.std.specs.Prelude.{◌↔◌, IsTrue, ◌≡◌, ◌≢◌, ◌<◌, ◌≤◌, ◌+◌, ◌^◌, ◌++◌, ◌∷◌, [], ℕ, ℤ, pos, neg_ℤ, List, length, map, take, min, MatchOption, IfOk, slice_index};
ghost use Rattle.number_list.specs.Numbers.{numbers_in};
ghost use Rattle.qap_cost.specs.Range.{AllLimited, IsLimited};
ghost use Rattle.qap_lines.specs.Number.{Spells, IsNamed, held};
ghost use Rattle.qap_lines.specs.Numeral.{IsFrontDecimal, IsFrontNumber, HasNoFrontDecimal, HasNoFrontNumber};

use number_list::Numbers;
use qap_cost::MAX_VALUE;
use qap_io::{Digits, MAX_READ, front_digits, negated};
use std::alloc::AllocError;

/// A number at the beginning of a text: how many bytes spell it, and its value, clamped to -10^25 to 10^25.
#[derive(Clone, Copy)]
struct Numeral {
    count: usize,
    value: i128,
}

/// The number without a sign at the beginning of a text.
fn front_decimal(text: &[u8]) -> Option<Digits>
    ensures { MatchOption result (HasNoFrontDecimal text.now) (λ d. IsFrontDecimal text.now d.count d.magnitude) }
{
    let digits = front_digits(text, MAX_READ);
    if digits.count == 0 || (digits.count > 1 && text[0] == b'0') {
        None
    } else {
        Some(digits)
    }
}

fn signed(magnitude: u128) -> i128
    requires { magnitude ≤ 10 ^ 25 }
    ensures { result ≡ pos magnitude }
{
    magnitude as i128
}

/// The number with a minus sign, after which these are the bytes.
fn front_negative(text: &[u8]) -> Option<Numeral>
    ensures { MatchOption result (HasNoFrontNumber (45 ∷ text.now)) (λ m. IsFrontNumber (45 ∷ text.now) m.count m.value) }
{
    match front_decimal(text) {
        Some(digits) if digits.magnitude == 0 => None,
        Some(digits) => Some(Numeral {
            count: digits.count + 1,
            value: negated(digits.magnitude),
        }),
        None => None,
    }
}

/// The number without a sign at the beginning of a text that doesn't begin with a minus sign.
fn front_positive(text: &[u8]) -> Option<Numeral>
    requires { slice_index text.now 0 ≢ 45 }
    ensures { MatchOption result (HasNoFrontNumber text.now) (λ m. IsFrontNumber text.now m.count m.value) }
{
    match front_decimal(text) {
        Some(digits) => Some(Numeral {
            count: digits.count,
            value: signed(digits.magnitude),
        }),
        None => None,
    }
}

/// The number at the beginning of a text.
///
/// It is in the loop over a line's numbers without a call: each would go through memory with its 128 bits.
#[inline(always)]
fn front_number(text: &[u8]) -> Option<Numeral>
    ensures { MatchOption result (HasNoFrontNumber text.now) (λ m. IsFrontNumber text.now m.count m.value) }
{
    match text.split_first() {
        Some((b'-', digits)) => front_negative(digits),
        _ => front_positive(text),
    }
}

/// What follows a name at the beginning of a line.
fn behind_name<'a>(name: &[u8], line: &'a [u8]) -> Option<&'a [u8]>
    ensures { MatchOption result ((rest : List ℕ) → line.now ≢ name.now ++ rest) (λ rest. line.now ≡ name.now ++ rest.now) }
{
    line.strip_prefix(name)
}

/// The one number that a text spells.
fn only_number(text: &[u8]) -> Option<i128>
    ensures { MatchOption result
        ((z : ℤ) → Spells text.now (z ∷ []) → ⊥)
        (λ v. (z : ℤ) × Spells text.now (z ∷ []) × (v ≡ held z)) }
{
    match text.split_first() {
        Some((b' ', word)) => match front_number(word) {
            Some(numeral) if numeral.count == word.len() => Some(numeral.value),
            _ => None,
        },
        _ => None,
    }
}

/// The number of a line of a name and one number, clamped to -10^25 to 10^25; `None` if the line has another form.
pub fn one_number(name: &[u8], line: &[u8]) -> Option<i128>
    ensures { MatchOption result
        ((z : ℤ) → IsNamed name.now line.now (z ∷ []) → ⊥)
        (λ v. (z : ℤ) × IsNamed name.now line.now (z ∷ []) × (v ≡ held z)) }
{
    match behind_name(name, line) {
        Some(text) => only_number(text),
        None => None,
    }
}

/// The numbers of a line: how many they are, and whether all are within -10^24 to 10^24.
#[derive(Clone, Copy)]
pub struct LineNumbers {
    pub count: usize,
    pub limited: bool,
}

/// The numbers of a line of a name and numbers; `None` if the line has another form. The first `wanted` of them, each
/// clamped to -10^25 to 10^25, replace the content of `first`.
///
/// Memory for `wanted` numbers is allocated at once, and no more. The only error is out of memory.
pub fn read_numbers(
    name: &[u8],
    line: &[u8],
    wanted: usize,
    first: &mut Vec<i128>,
) -> Result<Option<LineNumbers>, AllocError>
    ensures { IfOk result (λ found. MatchOption found
        ((zs : List ℤ) → IsNamed name.now line.now zs → ⊥)
        (λ r. (zs : List ℤ) × IsNamed name.now line.now zs × (r.count ≡ length zs) × (IsTrue r.limited ↔ AllLimited zs) × (first.new.items ≡ map held (take wanted zs)))) }
{
    let Some(text) = behind_name(name, line) else {
        return Ok(None);
    };
    first.clear();
    first.reserve(wanted)?;
    let mut count = 0;
    let mut limited = true;
    let mut rest = text;
    while let Some((space, after)) = rest.split_first() {
        if *space != b' ' {
            return Ok(None);
        }
        let Some(numeral) = front_number(after) else {
            return Ok(None);
        };
        if count < wanted {
            first.push(numeral.value)?;
        }
        limited = still_limited(limited, numeral);
        count += 1;
        rest = &after[numeral.count..];
    }
    Ok(Some(LineNumbers { count, limited }))
}

/// Whether numbers are within -10^24 to 10^24, where those before were, or weren't, and one more comes.
fn still_limited(limited: bool, numeral: Numeral) -> bool
    ensures { IsTrue result ↔ (IsTrue limited × IsLimited numeral.value) }
{
    limited && numeral.value.unsigned_abs() <= MAX_VALUE
}

/// Whether the numbers are within -10^24 to 10^24.
pub fn are_limited(numbers: &Numbers<'_>) -> bool
    ensures { IsTrue result ↔ AllLimited (numbers_in numbers.now) }
{
    for place in 0..numbers.len() {
        if numbers.at(place).unsigned_abs() > MAX_VALUE {
            return false;
        }
    }
    true
}
