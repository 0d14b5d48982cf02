//! Numbers as spreadsheets write them: with a point or a comma, in groups of three digits, and with an exponent.

ghost use Rattle.std.specs.Prelude.{◌≡◌, ◌↔◌, ◌++◌, ◌==◌, ◌||◌, ◌<◌, false, length, position, IfOk, IfSome, IsTrue, None, OnOk, Some};
ghost use Rattle.std.specs.List.{filter, list_all};
ghost use Rattle.std.specs.Option.{option_map};
ghost use Rattle.plan_table.specs.Decimal.{is_digit as digit_of};
ghost use Rattle.plan_table.specs.Marking.{IsUnmarked, IsWritten, is_no_mark};
ghost use Rattle.plan_table.specs.Numerals.{are_groups, are_in_place, byte_for, decimal_byte, fraction_of, group_byte, is_blank, is_in_place, is_nothing, is_numeral, is_sign, is_spelled, is_whole, kept_in, leads_with_zero, number_bytes, number_in, plain, plain_fraction, plain_whole, sign_of, whole_of, without_sign};

use crate::decimal::{Decimal, NumberFault, all_digits, is_digit, parse_decimal};
use crate::exponent::{exponent_at, front_to, is_exponent, push_unsigned};
use crate::rounding::parse_rounded;
use std::alloc::{AllocError, Global};

/// The mark before the fraction of a number.
#[derive(Clone, Copy, Debug, PartialEq, Eq)]
pub enum DecimalMark {
    Point,
    Comma,
}

impl DecimalMark {
    /// Its byte.
    fn byte(self) -> u8
        ensures { result ≡ decimal_byte self }
    {
        match self {
            DecimalMark::Point => b'.',
            DecimalMark::Comma => b',',
        }
    }

    /// The other one's byte, which may be between groups of digits.
    fn group(self) -> u8
        ensures { result ≡ group_byte self }
    {
        match self {
            DecimalMark::Point => b',',
            DecimalMark::Comma => b'.',
        }
    }
}

/// How the cells of a table are read.
#[derive(Clone, Copy, Debug, PartialEq, Eq)]
pub struct Reading {
    pub mark: DecimalMark,
    /// To how many decimals numbers are rounded, if they are.
    pub round: Option<usize>,
    /// Whether row `i` and column `i` have the same name, so that the cell there may be empty.
    pub is_square: bool,
}

/// The plain text of the number that a word spells: without marks between groups and without an exponent, with a point
/// before the fraction.
///
/// A number has an optional sign, digits and optionally the mark with digits after it; digits may lack on one side of
/// the mark. The digits before the mark may be in groups of three from the right, with the other mark, a blank or an
/// apostrophe between them, unless the first of them is 0. At the end there may be an exponent: `e` or `E`, an optional
/// sign, and one to three digits.
fn plain_number(
    alloc: Global,
    mark: DecimalMark,
    word: &[u8],
) -> Result<Option<Vec<u8>>, AllocError>
    ensures { IfOk result (λ found. option_map (λ v. v.items) found ≡ plain mark word.now) }
{
    if !is_spelled(mark, word) {
        return Ok(None);
    }
    let at = exponent_at(word);
    let (sign, digits) = split_sign(front_to(word, at));
    let (whole, fraction) = split_fraction(mark, digits);
    let mut text = Vec::new(alloc);
    text.extend_from_slice(sign)?;
    push_unsigned(alloc, &mut text, word, at, whole, fraction)?;
    Ok(Some(text))
}

/// Whether a word spells a number.
#[tactic(auto, unfolding(crate::specs::Numerals::number_in))]
pub fn is_number(alloc: Global, mark: DecimalMark, word: &str) -> Result<bool, AllocError>
    ensures { IfOk result (λ is. is ≡ false → number_in mark word.now ≡ None) }
{
    let bytes = number_bytes(alloc, word)?;
    Ok(is_spelled(mark, &bytes))
}

/// The number that is read from a word.
#[tactic(auto, unfolding(crate::specs::Numerals::kept_in))]
pub fn read_number(
    alloc: Global,
    reading: Reading,
    word: &str,
) -> Result<Result<Decimal, NumberFault>, AllocError>
    ensures { IfOk result (λ read. IfOk read (λ d. kept_in reading word.now ≡ Some d)) }
{
    let bytes = number_bytes(alloc, word)?;
    let Some(text) = plain_number(alloc, reading.mark, &bytes)? else {
        return Ok(Err(NumberFault::NotANumber));
    };
    match reading.round {
        None => Ok(parse_decimal(&text)),
        Some(places) => Ok(parse_rounded(&text, places)),
    }
}

/// Whether a word is a number, or empty.
#[tactic(auto, unfolding(crate::specs::Marking::IsWritten))]
pub fn is_written(alloc: Global, mark: DecimalMark, word: &str) -> Result<bool, AllocError>
    ensures { IfOk result (λ written. IsTrue written ↔ IsWritten mark word.now) }
{
    let bytes = number_bytes(alloc, word)?;
    Ok(is_nothing(word.as_bytes()) || is_spelled(mark, &bytes))
}

/// The bytes for a word's characters.
fn number_bytes(alloc: Global, word: &str) -> Result<Vec<u8>, AllocError>
    ensures { IfOk result (λ v. v.items ≡ number_bytes word.now) }
{
    word.chars().map(|c| byte_for(c)).collect(alloc)
}

/// A character as a byte: each blank is an ordinary one, and 255 represents each that no number has.
fn byte_for(c: char) -> u8
    ensures { result ≡ byte_for c }
{
    if is_blank(c) {
        b' '
    } else if u32::from(c) < 128 {
        c as u8
    } else {
        255
    }
}

/// Whether a character is a blank: an ordinary one, or one that is narrow or keeps a line together.
fn is_blank(c: char) -> bool
    ensures { result ≡ is_blank c }
{
    c == ' ' || c == '\u{A0}' || c == '\u{2009}' || c == '\u{202F}'
}

/// Whether a word is a number by a mark.
fn is_spelled(mark: DecimalMark, word: &[u8]) -> bool
    ensures { result ≡ is_spelled mark word.now }
{
    let at = exponent_at(word);
    let (_, digits) = split_sign(front_to(word, at));
    let (whole, fraction) = split_fraction(mark, digits);
    is_numeral(mark, whole, fraction) && is_exponent(word, at)
}

/// Whether a word has neither a point nor a comma.
pub fn is_unmarked(word: &[u8]) -> bool
    ensures { IsTrue result ↔ IsUnmarked word.now }
{
    let all = are_no_marks(word);
    all
}

fn are_no_marks(word: &[u8]) -> bool
    ensures { result ≡ list_all is_no_mark word.now }
{
    word.iter().all(|byte| is_no_mark(*byte))
}

fn is_no_mark(byte: u8) -> bool
    ensures { result ≡ is_no_mark byte }
{
    !(byte == b'.' || byte == b',')
}

/// A word's sign, if it has one, and what follows it.
pub fn split_sign(word: &[u8]) -> (&[u8], &[u8])
    ensures sign { result.0.now ≡ sign_of word.now }
    ensures rest { result.1.now ≡ without_sign word.now }
{
    match word.first() {
        Some(first) if is_sign(*first) => word.split_at(1),
        _ => (&[], word),
    }
}

fn is_sign(byte: u8) -> bool
    ensures { result ≡ is_sign byte }
{
    byte == b'+' || byte == b'-'
}

/// What is before the first mark of a text, and what after it.
fn split_fraction(mark: DecimalMark, text: &[u8]) -> (&[u8], &[u8])
    ensures whole { result.0.now ≡ whole_of mark text.now }
    ensures fraction { result.1.now ≡ fraction_of mark text.now }
{
    match place_of_mark(mark, text) {
        Some(place) => (&text[..place], &text[place + 1..]),
        None => (text, &[]),
    }
}

/// The place of the first mark of a text.
fn place_of_mark(mark: DecimalMark, text: &[u8]) -> Option<usize>
    ensures place { result ≡ position (λ b. b == decimal_byte mark) text.now }
    ensures inside { IfSome result (λ i. i < length text.now) }
{
    let sought = mark.byte();
    text.iter().position(|byte| *byte == sought)
}

/// Whether these are the parts of a number.
fn is_numeral(mark: DecimalMark, whole: &[u8], fraction: &[u8]) -> bool
    ensures { result ≡ is_numeral mark whole.now fraction.now }
{
    !(whole.is_empty() && fraction.is_empty()) && is_whole(mark, whole) && all_digits(fraction)
}

/// Whether these are the digits before a fraction.
fn is_whole(mark: DecimalMark, text: &[u8]) -> bool
    ensures { result ≡ is_whole mark text.now }
{
    all_digits(text)
        || are_groups(mark.group(), text)
        || are_groups(b' ', text)
        || are_groups(b'\'', text)
}

/// Whether these are groups of three digits, the first of which may be shorter and does not begin with 0, with this
/// separator.
fn are_groups(group: u8, text: &[u8]) -> bool
    ensures { result ≡ are_groups group text.now }
{
    !text.len().is_multiple_of(4) && !leads_with_zero(text) && are_in_place(group, text)
}

/// Whether a text begins with the digit 0.
fn leads_with_zero(text: &[u8]) -> bool
    ensures { result ≡ leads_with_zero text.now }
{
    match text {
        [first, ..] => *first == b'0',
        [] => false,
    }
}

/// Whether each fourth byte from the right is the mark between groups, and the others are digits.
fn are_in_place(group: u8, text: &[u8]) -> bool
    ensures { result ≡ are_in_place group text.now }
{
    let mut rest = text;
    while let Some((byte, behind)) = rest.split_first() {
        if !is_in_place(group, *byte, rest.len()) {
            return false;
        }
        rest = behind;
    }
    true
}

/// Whether a byte is in its place, with `left` bytes from it on.
fn is_in_place(group: u8, byte: u8, left: usize) -> bool
    ensures { result ≡ is_in_place group byte left }
{
    if left % 4 == 0 {
        byte == group
    } else {
        is_digit(byte)
    }
}

/// Appends the digits of a whole part to a text, or a zero if there is none.
pub fn push_whole(text: &mut Vec<u8>, whole: &[u8]) -> Result<(), AllocError>
    ensures { OnOk result (text.new.items ≡ text.old.items ++ plain_whole whole.now) }
{
    if whole.is_empty() {
        text.push(b'0')?;
        return Ok(());
    }
    push_digits(text, whole)
}

/// Appends the digits among these bytes to a text.
pub fn push_digits(text: &mut Vec<u8>, whole: &[u8]) -> Result<(), AllocError>
    ensures { OnOk result (text.new.items ≡ text.old.items ++ filter digit_of whole.now) }
{
    for byte in whole {
        if is_digit(*byte) {
            text.push(*byte)?;
        }
    }
    Ok(())
}

/// Appends a point and the digits of a fraction to a text, if there are any.
pub fn push_fraction(text: &mut Vec<u8>, fraction: &[u8]) -> Result<(), AllocError>
    ensures { OnOk result (text.new.items ≡ text.old.items ++ plain_fraction fraction.now) }
{
    if fraction.is_empty() {
        return Ok(());
    }
    text.push(b'.')?;
    text.extend_from_slice(fraction)
}

/// Whether a cell is empty, a dash or a cross.
pub fn is_nothing(word: &[u8]) -> bool
    ensures { result ≡ is_nothing word.now }
{
    match word {
        [] => true,
        [byte] => *byte == b'-' || *byte == b'x' || *byte == b'X',
        _ => false,
    }
}
