//! One field of a tuple, and its limits.

ghost use Rattle.std.specs.Prelude.{◌≡◌, ◌↔◌, ℤ, IsTrue, IfOk, string_bytes};
ghost use Rattle.std.specs.Global.{Vec};
ghost use Rattle.std.specs.Option.{option_copied, option_map};
ghost use Rattle.std.specs.Cmp.{on_equiv, on_per};
ghost use Rattle.tuple_match.specs.Equality.{field_eq, field_eq_equiv, field_eq_per, same_list, same_word};
ghost use Rattle.tuple_match.specs.Field.{field_value};
ghost use Rattle.tuple_match.specs.Word.{IsWord, IsWordByte};
ghost use Rattle.tuple_match.specs.FieldValue.{IsField, number_of, numbers, numbers_of, word, word_of};
ghost use Rattle.number_list.specs.NumberList.{numbers_held};
ghost use Rattle.number_list.specs.Numbers.{numbers_in};

use crate::words::ShortWord;
use number_list::{FewBytes, FewShorts, NumberList, Numbers};
use std::alloc::{AllocError, Global};

/// The most bytes of a word.
const LONGEST_WORD: usize = 32;
/// The most numbers of a list.
const LONGEST_LIST: usize = 1024;

/// One field of a tuple.
#[derive(Debug, Drop)]
pub enum Field {
    /// A number.
    Int(i128),
    /// In a tuple, 1 to 32 bytes: a letter `a` to `z`, then letters `a` to `z`, digits and `_`.
    Word(String),
    /// In a tuple, at most 1,024 numbers.
    List(Vec<i128>),
    /// A short list of numbers from 0 to 255, in place.
    Bytes(FewBytes),
    /// A short list of numbers of 16 bits, in place.
    Shorts(FewShorts),
    /// The same as a `List` for numbers of 32 bits.
    Narrow(Vec<i32>),
    /// The same as a `Word` of at most 30 bytes, in place.
    ShortWord(ShortWord),
}

impl Field {
    /// The word as a field: in place if it has at most 30 bytes, and otherwise in separate memory, whose allocation may
    /// fail.
    pub fn word(alloc: Global, text: &str) -> Result<Field, AllocError>
        ensures { IfOk result (λ field. field_value field ≡ word text.now) }
    {
        match ShortWord::of(text) {
            Some(short) => Ok(Field::ShortWord(short)),
            None => Ok(Field::Word(String::from_str(alloc, text)?)),
        }
    }

    /// The numbers as a field, in as few bits as they need: in place if they are few and small, and otherwise in
    /// separate memory, whose allocation may fail.
    pub fn list(alloc: Global, list: &[i128]) -> Result<Field, AllocError>
        ensures { IfOk result (λ field. field_value field ≡ numbers list.now) }
    {
        Ok(Field::of_list(NumberList::of(alloc, list)?))
    }

    /// Whether a tuple may hold this field: any number, a word of 1 to 32 bytes that is spelled
    /// right, or a list of at most 1,024 numbers.
    pub fn is_within_limits(&self) -> bool
        ensures { IsTrue result ↔ IsField (field_value self.now) }
    {
        match self {
            Field::Int(_) => true,
            Field::Word(word) => is_word(word.as_bytes()),
            Field::List(numbers) => numbers.len() <= LONGEST_LIST,
            Field::Bytes(few) => few.as_slice().len() <= LONGEST_LIST,
            Field::Shorts(few) => few.as_slice().len() <= LONGEST_LIST,
            Field::Narrow(numbers) => numbers.len() <= LONGEST_LIST,
            Field::ShortWord(word) => is_word(word.as_bytes()),
        }
    }

    /// The number in this field, or `None` if it has none.
    pub fn as_int(&self) -> Option<i128>
        ensures { result ≡ number_of (field_value self.now) }
    {
        match self {
            Field::Int(number) => Some(*number),
            _ => None,
        }
    }

    /// The text of the word in this field, or `None` if it has none.
    pub fn as_word(&self) -> Option<&str>
        ensures { option_copied result ≡ word_of (field_value self.now) }
    {
        match self {
            Field::Word(word) => Some(word.as_str()),
            Field::ShortWord(word) => Some(word.as_str()),
            _ => None,
        }
    }

    /// The bytes of the word in this field, or `None` if it has none.
    pub fn as_word_bytes(&self) -> Option<&[u8]>
        ensures { option_copied result ≡ word_of (field_value self.now) }
    {
        match self {
            Field::Word(word) => Some(word.as_bytes()),
            Field::ShortWord(word) => Some(word.as_bytes()),
            _ => None,
        }
    }

    /// The numbers of the list in this field, or `None` if it has none.
    pub fn as_list(&self) -> Option<Numbers<'_>>
        ensures { option_map numbers_in result ≡ numbers_of (field_value self.now) }
    {
        match self {
            Field::List(numbers) => Some(Numbers::Wide(numbers.as_slice())),
            Field::Bytes(few) => Some(Numbers::Bytes(few.as_slice())),
            Field::Shorts(few) => Some(Numbers::Shorts(few.as_slice())),
            Field::Narrow(numbers) => Some(Numbers::Narrow(numbers.as_slice())),
            Field::Int(_) | Field::Word(_) | Field::ShortWord(_) => None,
        }
    }

    /// The numbers of the list in this field, or `None` if it has none. They are moved if they are stored in 128 bits,
    /// and otherwise copied, which may fail for lack of memory.
    pub fn into_list(self, alloc: Global) -> Result<Option<Vec<i128>>, AllocError>
        ensures { IfOk result (λ found. option_map (λ (list : Vec ℤ). list.items) found ≡ numbers_of (field_value self)) }
    {
        match self {
            Field::List(numbers) => Ok(Some(numbers)),
            field => match field.as_list() {
                Some(list) => Ok(Some(list.to_vec(alloc)?)),
                None => Ok(None),
            },
        }
    }

    /// The list as a field, in its stored form. Allocates nothing.
    pub fn of_list(list: NumberList) -> Field
        ensures { field_value result ≡ numbers (numbers_held list) }
    {
        match list {
            NumberList::Bytes(few) => Field::Bytes(few),
            NumberList::Shorts(few) => Field::Shorts(few),
            NumberList::Narrow(numbers) => Field::Narrow(numbers),
            NumberList::Wide(numbers) => Field::List(numbers),
        }
    }

    /// The list in this field, in its stored form, or `None` if it has none. Allocates nothing.
    pub fn into_numbers(self) -> Option<NumberList>
        ensures { option_map numbers_held result ≡ numbers_of (field_value self) }
    {
        match self {
            Field::List(numbers) => Some(NumberList::Wide(numbers)),
            Field::Bytes(few) => Some(NumberList::Bytes(few)),
            Field::Shorts(few) => Some(NumberList::Shorts(few)),
            Field::Narrow(numbers) => Some(NumberList::Narrow(numbers)),
            Field::Int(_) | Field::Word(_) | Field::ShortWord(_) => None,
        }
    }

    /// The field with a short word in place or the numbers of a list in fewer bits, if they fit and memory suffices;
    /// otherwise unchanged.
    pub fn narrowed(self) -> Field
        ensures { field_value result ≡ field_value self }
    {
        match self {
            Field::List(numbers) => Field::of_list(NumberList::narrowed(numbers)),
            Field::Word(text) => narrow_word(text),
            field => field,
        }
    }
}

/// The word in place, where it is short enough.
fn narrow_word(text: String) -> Field
    ensures { field_value result ≡ word (string_bytes text) }
{
    match ShortWord::of(&text) {
        Some(short) => Field::ShortWord(short),
        None => Field::Word(text),
    }
}

// By hand, so that its contract speaks of what the fields say.
impl PartialEq for Field {
    ghost eq = { λ field other. field_eq (field_value field) (field_value other) };

    ghost laws = { on_per field_value field_eq_per };

    /// Whether the two are of one type and hold equal numbers, texts or lists.
    #[tactic(auto, using(number_list::proofs::Equal::same_lists))]
    fn eq(&self, other: &Field) -> bool
        ensures test { result ≡ field_eq (field_value self.now) (field_value other.now) }
        ensures same { IsTrue result ↔ (field_value self.now ≡ field_value other.now) }
    {
        match (self, other) {
            (Field::Int(number), Field::Int(other)) => number == other,
            (Field::ShortWord(word), Field::ShortWord(other)) => word.as_bytes()
                == other.as_bytes(),
            _ => is_same_word(self, other) || is_same_list(self, other),
        }
    }
}

impl Eq for Field {
    ghost laws = { on_equiv field_value field_eq_equiv };
}

// By hand, so that its contract speaks of what the fields say.
impl Clone for Field {
    ghost is_clone = { λ field copy. field_value copy ≡ field_value field };

    /// A copy of the field, or `AllocError` if memory ran out for its text or list.
    fn clone(&self) -> Result<Field, AllocError>
        ensures { IfOk result (λ copy. field_value copy ≡ field_value self.now) }
    {
        match self {
            Field::Int(number) => Ok(Field::Int(*number)),
            Field::Word(word) => Ok(Field::Word(word.clone()?)),
            Field::List(numbers) => Ok(Field::List(numbers.clone()?)),
            Field::Bytes(few) => Ok(Field::Bytes(few.copy())),
            Field::Shorts(few) => Ok(Field::Shorts(few.copy())),
            Field::Narrow(numbers) => Ok(Field::Narrow(numbers.clone()?)),
            Field::ShortWord(word) => Ok(Field::ShortWord(word.copy())),
        }
    }
}

/// Whether both are words, and the same.
fn is_same_word(field: &Field, other: &Field) -> bool
    ensures { result ≡ same_word (field_value field.now) (field_value other.now) }
{
    match (field.as_word_bytes(), other.as_word_bytes()) {
        (Some(word), Some(other)) => word == other,
        (None, _) | (_, None) => false,
    }
}

/// Whether both are lists, and the same.
fn is_same_list(field: &Field, other: &Field) -> bool
    ensures { result ≡ same_list (field_value field.now) (field_value other.now) }
{
    match (field.as_list(), other.as_list()) {
        (Some(numbers), Some(other)) => numbers.is_same(&other),
        (None, _) | (_, None) => false,
    }
}

fn is_word(bytes: &[u8]) -> bool
    ensures { IsTrue result ↔ IsWord bytes.now }
{
    match bytes {
        [] => false,
        [first, rest @ ..] => {
            first.is_ascii_lowercase()
                && rest.len() < LONGEST_WORD
                && rest.iter().all(|byte| is_word_byte(*byte))
        }
    }
}

fn is_word_byte(byte: u8) -> bool
    ensures { IsTrue result ↔ IsWordByte byte }
{
    matches!(byte, b'a'..=b'z' | b'0'..=b'9' | b'_')
}
