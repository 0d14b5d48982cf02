//! Words as numbers.

ghost use Rattle.std.specs.Prelude.{◌≡◌};
ghost use Rattle.std.specs.Option.{option_map};
ghost use Rattle.qap_io.specs.Number.{held};
ghost use Rattle.qap_text.specs.Number.{number_of};

use qap_io::{MAX_READ, all_digits, negated};

/// The number that a word spells, clamped to -10^25 to 10^25; `None` if the word is not a number.
///
/// The number of digits is not limited.
pub fn parse(word: &[u8]) -> Option<i128>
    ensures { result ≡ option_map (held MAX_READ) (number_of word.now) }
{
    match word.split_first() {
        Some((b'+', digits)) => Some(all_digits(digits, MAX_READ)? as i128),
        Some((b'-', digits)) => Some(negated(all_digits(digits, MAX_READ)?)),
        _ => Some(all_digits(word, MAX_READ)? as i128),
    }
}
