//! Words as lists of numbers.

ghost use Rattle.std.specs.Prelude.{◌≡◌, ◌≢◌, List, [], ◌∷◌, ◌++◌, ℕ, ℤ, map, IfOk, MatchOption};
ghost use Rattle.std.specs.List.{AllZip, slice_split};
ghost use Rattle.space_script.specs.Field.{AreNumbers, IsListWord, is_comma};
ghost use Rattle.space_script.specs.Number.{IsInteger};

use crate::numbers::read_integer;
use std::alloc::{AllocError, Global};

/// The numbers of a list that a word spells in brackets; `None` if there is none.
pub fn read_list(alloc: Global, word: &[u8]) -> Result<Option<Vec<i128>>, AllocError>
    ensures { IfOk result (λ found. MatchOption found ((zs : List ℤ) → IsListWord word.now zs → ⊥) (λ v. IsListWord word.now v.items)) }
{
    match in_brackets(word) {
        Some(inner) => read_numbers(alloc, inner),
        None => Ok(None),
    }
}

/// What is in the brackets of a word; `None` if it isn't in brackets.
fn in_brackets(word: &[u8]) -> Option<&[u8]>
    ensures { MatchOption result ((inner : List ℕ) → word.now ≢ 91 ∷ inner ++ 93 ∷ []) (λ inner. word.now ≡ 91 ∷ inner.now ++ 93 ∷ []) }
{
    match word.split_first() {
        Some((b'[', rest)) => before_bracket(rest),
        _ => None,
    }
}

/// What precedes the closing bracket at the end of a text; `None` if there is none.
fn before_bracket(text: &[u8]) -> Option<&[u8]>
    ensures { MatchOption result ((inner : List ℕ) → text.now ≢ inner ++ 93 ∷ []) (λ inner. text.now ≡ inner.now ++ 93 ∷ []) }
{
    match text.split_last() {
        Some((b']', inner)) => Some(inner),
        _ => None,
    }
}

/// Numbers with single commas between them, or none if the text is empty.
fn read_numbers(alloc: Global, text: &[u8]) -> Result<Option<Vec<i128>>, AllocError>
    ensures { IfOk result (λ found. MatchOption found ((zs : List ℤ) → AreNumbers text.now zs → ⊥) (λ v. AreNumbers text.now v.items)) }
{
    if text.is_empty() {
        return Ok(Some(Vec::new(alloc)));
    }
    let words = between_commas(alloc, text)?;
    read_each(alloc, &words)
}

/// The numbers that these words spell.
fn read_each(alloc: Global, words: &[&[u8]]) -> Result<Option<Vec<i128>>, AllocError>
    ensures { IfOk result (λ found. MatchOption found
        ((zs : List ℤ) → AllZip IsInteger (map (λ word. word.now) words.now) zs → ⊥)
        (λ v. AllZip IsInteger (map (λ word. word.now) words.now) v.items)) }
{
    let mut numbers = Vec::with_capacity(alloc, words.len())?;
    for word in words {
        let Some(number) = read_integer(word) else {
            return Ok(None);
        };
        numbers.push(number)?;
    }
    Ok(Some(numbers))
}

/// What is before, between and after the commas of a text.
fn between_commas<'a>(alloc: Global, text: &'a [u8]) -> Result<Vec<&'a [u8]>, AllocError>
    ensures { IfOk result (λ words. map (λ word. word.now) words.items ≡ slice_split is_comma text.now) }
{
    text.split(|byte| *byte == b',').collect(alloc)
}
