//! Words as numbers.

ghost use Rattle.std.specs.Prelude.{MatchOption, ℕ, ℤ, ◌≡◌, ◌∷◌, ◌≢◌, slice_index};
ghost use Rattle.std.specs.Char.{is_ascii_digit};
ghost use Rattle.std.specs.List.{list_all};
ghost use Rattle.std.specs.Str.{IsAscii};
ghost use Rattle.space_script.specs.Number.{IsCount, IsInteger};

/// The number below 2^64 with these decimal digits; `None` if they spell none.
pub fn read_count(word: &[u8]) -> Option<u64>
    ensures { MatchOption result ((n : ℕ) → IsCount word.now n → ⊥) (IsCount word.now) }
{
    if word.is_empty() || !are_digits(word) {
        return None;
    }
    as_text(word).parse().ok()
}

/// The 128-bit number that a word spells, with an optional minus sign; `None` if there is none.
pub fn read_integer(word: &[u8]) -> Option<i128>
    ensures { MatchOption result ((z : ℤ) → IsInteger word.now z → ⊥) (IsInteger word.now) }
{
    match word.split_first() {
        Some((b'-', digits)) => read_negative(word, digits),
        _ => read_plain(word),
    }
}

/// The number that a minus sign and these digits spell.
fn read_negative(word: &[u8], digits: &[u8]) -> Option<i128>
    requires { word.now ≡ 45 ∷ digits.now }
    ensures { MatchOption result ((z : ℤ) → IsInteger word.now z → ⊥) (IsInteger word.now) }
{
    if digits.is_empty() || !are_digits(digits) {
        return None;
    }
    as_text(word).parse().ok()
}

/// The number that digits spell, with no sign before them.
fn read_plain(word: &[u8]) -> Option<i128>
    requires { slice_index word.now 0 ≢ 45 }
    ensures { MatchOption result ((z : ℤ) → IsInteger word.now z → ⊥) (IsInteger word.now) }
{
    if word.is_empty() || !are_digits(word) {
        return None;
    }
    as_text(word).parse().ok()
}

/// Whether each byte is a decimal digit.
fn are_digits(word: &[u8]) -> bool
    ensures { result ≡ list_all is_ascii_digit word.now }
{
    word.iter().all(|byte| byte.is_ascii_digit())
}

/// A word of ASCII characters as a text.
fn as_text(word: &[u8]) -> &str
    requires { IsAscii word.now }
    ensures { result.now ≡ word.now }
{
    match str::from_utf8(word) {
        Ok(text) => text,
        Err(_) => "",
    }
}
