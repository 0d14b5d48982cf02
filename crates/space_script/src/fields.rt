//! Words as fields and patterns.

ghost use Rattle.std.specs.Prelude.{◌≡◌, ◌≢◌, IfOk, MatchOption, List, map, codes};
ghost use Rattle.std.specs.List.{AllZip};
ghost use Rattle.tuple_match.specs.Field.{field_value, fields_value};
ghost use Rattle.tuple_match.specs.FieldValue.{FieldValue, word as word_value};
ghost use Rattle.tuple_match.specs.Pattern.{pattern_value, patterns_value};
ghost use Rattle.tuple_match.specs.PatternValue.{PatternValue};
ghost use Rattle.tuple_match.specs.Word.{IsWord};
ghost use Rattle.space_script.specs.Field.{AreTemplateWords, AreTupleWords, IsFieldWord, IsFormal, IsPatternWord};

use crate::lists::read_list;
use crate::numbers::read_integer;
use std::alloc::{AllocError, Global};
use tuple_match::{Field, Pattern, Template, Tuple};

/// The tuple whose fields these words spell; `None` if there is none.
pub fn read_tuple(alloc: Global, words: &[&[u8]]) -> Result<Option<Tuple>, AllocError>
    ensures { IfOk result (λ found. MatchOption found
        ((fields : List FieldValue) → AreTupleWords (map (λ word. word.now) words.now) fields → ⊥)
        (λ tuple. AreTupleWords (map (λ word. word.now) words.now) tuple)) }
{
    let Some(fields) = read_fields(alloc, words)? else {
        return Ok(None);
    };
    match Tuple::new(fields) {
        Ok(tuple) => Ok(Some(tuple)),
        Err(_) => Ok(None),
    }
}

/// The template whose patterns these words spell; `None` if there is none.
pub fn read_template(alloc: Global, words: &[&[u8]]) -> Result<Option<Template>, AllocError>
    ensures { IfOk result (λ found. MatchOption found
        ((patterns : List PatternValue) → AreTemplateWords (map (λ word. word.now) words.now) patterns → ⊥)
        (λ template. AreTemplateWords (map (λ word. word.now) words.now) template)) }
{
    let Some(patterns) = read_patterns(alloc, words)? else {
        return Ok(None);
    };
    match Template::new(patterns) {
        Ok(template) => Ok(Some(template)),
        Err(_) => Ok(None),
    }
}

/// The fields that these words spell, one each.
fn read_fields(alloc: Global, words: &[&[u8]]) -> Result<Option<Vec<Field>>, AllocError>
    ensures { IfOk result (λ found. MatchOption found
        ((fields : List FieldValue) → AllZip IsFieldWord (map (λ word. word.now) words.now) fields → ⊥)
        (λ fields. AllZip IsFieldWord (map (λ word. word.now) words.now) (fields_value fields.items))) }
{
    let mut fields = Vec::new(alloc);
    for word in words {
        let Some(field) = read_field(alloc, word)? else {
            return Ok(None);
        };
        fields.push(field)?;
    }
    Ok(Some(fields))
}

/// The patterns that these words spell, one each.
fn read_patterns(alloc: Global, words: &[&[u8]]) -> Result<Option<Vec<Pattern>>, AllocError>
    ensures { IfOk result (λ found. MatchOption found
        ((patterns : List PatternValue) → AllZip IsPatternWord (map (λ word. word.now) words.now) patterns → ⊥)
        (λ patterns. AllZip IsPatternWord (map (λ word. word.now) words.now) (patterns_value patterns.items))) }
{
    let mut patterns = Vec::new(alloc);
    for word in words {
        let Some(pattern) = read_pattern(alloc, word)? else {
            return Ok(None);
        };
        patterns.push(pattern)?;
    }
    Ok(Some(patterns))
}

/// The field that a word spells: a number, a word of the tuple space, or a list of numbers in brackets.
fn read_field(alloc: Global, word: &[u8]) -> Result<Option<Field>, AllocError>
    ensures { IfOk result (λ found. MatchOption found
        ((field : FieldValue) → IsFieldWord word.now field → ⊥)
        (λ field. IsFieldWord word.now (field_value field))) }
{
    match word.first() {
        Some(b'[') => Ok(read_list(alloc, word)?.map(Field::List)),
        Some(b'a'..=b'z') => read_word(alloc, word),
        _ => Ok(read_integer(word).map(Field::Int)),
    }
}

/// The field of a word of the tuple space.
fn read_word(alloc: Global, word: &[u8]) -> Result<Option<Field>, AllocError>
    ensures { IfOk result (λ found. MatchOption found (IsWord word.now → ⊥) (λ field. (field_value field ≡ word_value word.now) × IsWord word.now)) }
{
    let Ok(text) = str::from_utf8(word) else {
        return Ok(None);
    };
    let field = Field::Word(String::from_str(alloc, text)?);
    if field.is_within_limits() {
        Ok(Some(field))
    } else {
        Ok(None)
    }
}

/// The pattern that a word spells: a formal, or an actual field.
fn read_pattern(alloc: Global, word: &[u8]) -> Result<Option<Pattern>, AllocError>
    ensures { IfOk result (λ found. MatchOption found
        ((pattern : PatternValue) → IsPatternWord word.now pattern → ⊥)
        (λ pattern. IsPatternWord word.now (pattern_value pattern))) }
{
    if let Some(formal) = read_formal(word) {
        return Ok(Some(formal));
    }
    match read_field(alloc, word)? {
        Some(field) => Ok(Some(Pattern::Is(field))),
        None => Ok(None),
    }
}

/// The formal that a word spells.
fn read_formal(word: &[u8]) -> Option<Pattern>
    ensures { MatchOption result ((pattern : PatternValue) → IsFormal word.now pattern → ⊥) (λ pattern. IsFormal word.now (pattern_value pattern)) }
{
    if word == b"?i".as_slice() {
        Some(Pattern::AnyInt)
    } else if word == b"?w".as_slice() {
        Some(Pattern::AnyWord)
    } else if word == b"?l".as_slice() {
        Some(Pattern::AnyList)
    } else {
        None
    }
}
