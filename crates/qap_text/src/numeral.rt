//! The numbers that the words of a text spell.

ghost use Rattle.std.specs.Prelude.{◌≡◌, ◌≤◌, length, ℕ, ℤ, MatchOption, MatchResult};
ghost use Rattle.qap_io.specs.Number.{held};
ghost use Rattle.qap_text.specs.Word.{HasNoWord};
ghost use Rattle.qap_text.specs.Spelling.{IsNumberAt, IsNoNumberAt};

use crate::TextError;
use crate::number::parse;
use crate::word::next_word;
use qap_io::MAX_READ;

/// A number in a text: the position of its word, the position after it, and its value clamped to -10^25 to 10^25.
#[derive(Clone, Copy)]
pub struct Numeral {
    pub start: usize,
    pub stop: usize,
    pub value: i128,
}

/// The number that the next word from a position on spells; `None` if there is no word.
pub fn next_number(text: &[u8], from: usize) -> Result<Option<Numeral>, TextError>
    requires { from ≤ length text.now }
    ensures { MatchResult result
        (λ found. MatchOption found
        (HasNoWord text.now from)
        (λ m. (z : ℤ) × IsNumberAt text.now from m.start m.stop z × (m.value ≡ held MAX_READ z)))
        (λ e. (start : ℕ) × (e ≡ TextError.NotANumber start) × IsNoNumberAt text.now from start) }
{
    let Some(word) = next_word(text, from) else {
        return Ok(None);
    };
    match parse(&text[word.start..word.stop]) {
        Some(value) => Ok(Some(Numeral {
            start: word.start,
            stop: word.stop,
            value,
        })),
        None => Err(TextError::NotANumber(word.start)),
    }
}
