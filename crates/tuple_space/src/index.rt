//! The index of entries: the numbers of those whose tuples begin with a word, by that word and their number of fields.

ghost use Rattle.std.specs.Prelude.{ℕ, ◌≡◌, ◌≢◌, ◌<◌, ◌-◌, ◌%◌, ◌^◌, ◌==◌, ◌++◌, ◌∷◌, [], true, false, not, All, IfNone, IfOk, IfSome, None, OnErr, OnOk, filter, length, nat_eq, take, unsigned_abs, vec_len};
ghost use Rattle.std.specs.List.{AllWithin, HoldsAt};
ghost use Rattle.std.specs.Option.{option_copied};
ghost use Rattle.indexmap.specs.IndexMap.{get};
ghost use Rattle.tuple_space.specs.Held.{AreRising};
ghost use Rattle.tuple_match.specs.Field.{field_value};
ghost use Rattle.tuple_space.specs.Index.{AreInUse, AreOnce, AreOrdered, AreSame, HasSame, IsAdded, IsDropped, IsPutIn, IsTakenFrom, class_of, first_word, is_of, key, list_at, list_under, numbers_at, numbers_of, sought_word};
ghost use Rattle.tuple_space.specs.Slots.{second_length, second_value, slot_of, sought_slot, value_of, word_value};
ghost use Rattle.tuple_space.specs.declared.index.Slot.{Slot};

use crate::hasher::NumberHasher;
use crate::numbers::Numbers;
use indexmap::IndexMap;
use std::alloc::AllocError;
use tuple_match::{Field, Pattern, Template, Tuple};

/// How many values there are of second fields that are not lists.
const VALUES: u128 = 1 << 64;

/// Lists of numbers, each under a value. One that becomes empty is dropped, so values that are gone take no memory.
type ByValue = IndexMap<u64, Numbers, NumberHasher>;

/// Where numbers are in a bucket.
#[derive(Clone, Copy, Debug, PartialEq, Eq)]
pub(crate) enum Slot {
    /// Under the length of the second field, 0 if it is not a list.
    Length(usize),
    /// Under the value of the second field, which is not a list.
    Value(u64),
}

/// The numbers of the entries whose tuples begin with one word and have one count of fields.
#[derive(Debug, Drop)]
pub(crate) struct Bucket {
    /// The bytes of the word.
    pub(crate) word: Vec<u8>,
    /// How many fields the tuples have.
    pub(crate) count: usize,
    /// The numbers, by the length of the second field where that is a list; 0 for all others.
    pub(crate) by_length: Vec<Numbers>,
    /// Those whose second field is not a list, by its value.
    pub(crate) by_value: ByValue,
}

/// The word that a tuple begins with.
fn first_word(tuple: &Tuple) -> Option<&[u8]>
    ensures { option_copied result ≡ first_word tuple.now }
{
    match tuple.fields() {
        [first, ..] => first.as_word_bytes(),
        [] => None,
    }
}

/// The length of a tuple's second field where that is a list.
fn second_length(tuple: &Tuple) -> usize
    ensures { result ≡ second_length tuple.now }
{
    match tuple.fields() {
        [_, second, ..] => match second.as_list() {
            Some(numbers) => numbers.len(),
            None => 0,
        },
        _ => 0,
    }
}

/// The value under which a number is.
fn number_value(number: i128) -> u64
    ensures { result ≡ unsigned_abs number % 2 ^ 64 }
{
    (number.unsigned_abs() % VALUES) as u64
}

/// The value under which a word is.
fn word_value(word: &[u8]) -> u64
    ensures { result ≡ word_value word.now }
{
    let mut value = 0;
    for place in (0..word.len()).rev() {
        value = (u128::from(word[place]) + 31 * value) % VALUES;
    }
    value as u64
}

/// The value under which a field is, if it is not a list.
fn value_of(field: &Field) -> Option<u64>
    ensures { result ≡ value_of (field_value field.now) }
{
    if let Some(number) = field.as_int() {
        return Some(number_value(number));
    }
    match field.as_word_bytes() {
        Some(word) => Some(word_value(word)),
        None => None,
    }
}

/// The value under which a tuple's second field is, if there is one that is not a list.
fn second_value(tuple: &Tuple) -> Option<u64>
    ensures { result ≡ second_value tuple.now }
{
    match tuple.fields() {
        [_, second, ..] => value_of(second),
        _ => None,
    }
}

/// Where a tuple with this second field is.
fn slot_of(field: &Field) -> Slot
    ensures { result ≡ slot_of (field_value field.now) }
{
    match (value_of(field), field.as_list()) {
        (Some(value), _) => Slot::Value(value),
        (None, Some(numbers)) => Slot::Length(numbers.len()),
        (None, None) => unreachable!(),
    }
}

/// The slot of the tuples whose second field is the one that a template specifies, if it specifies one.
pub(crate) fn sought_slot(template: &Template) -> Option<Slot>
    ensures { result ≡ sought_slot template.now }
{
    match template.patterns() {
        [_, Pattern::Is(field), ..] => Some(slot_of(field)),
        _ => None,
    }
}

/// The first word of a template.
pub(crate) fn sought_word(template: &Template) -> Option<&[u8]>
    ensures { option_copied result ≡ sought_word template.now }
{
    match template.patterns() {
        [Pattern::Is(field), ..] => field.as_word_bytes(),
        _ => None,
    }
}

/// Whether a bucket is that of a word and a count of fields.
pub(crate) fn is_of(bucket: &Bucket, word: &[u8], count: usize) -> bool
    ensures { result ≡ is_of word.now count bucket.now }
{
    bucket.count == count && *bucket.word.as_slice() == *word
}

/// The place of the bucket of a word and a count of fields.
fn place_of_bucket(buckets: &[Bucket], word: &[u8], count: usize) -> Option<usize>
    ensures none { IfNone result (All (λ b. is_of word.now count b ≡ false) buckets.now) }
    ensures place { IfSome result (λ i. i < length buckets.now) }
    ensures is { IfSome result (HoldsAt (λ b. is_of word.now count b ≡ true) buckets.now) }
    ensures before { IfSome result (AllWithin (λ b. is_of word.now count b ≡ false) buckets.now 0) }
{
    for place in 0..buckets.len() {
        if is_of(&buckets[place], word, count) {
            return Some(place);
        }
    }
    None
}

/// The position of the bucket of a word and a number of fields, which is created if there is none.
fn place_for(buckets: &mut Vec<Bucket>, word: &[u8], count: usize) -> Result<usize, AllocError>
    ensures place { IfOk result (λ i. i < length buckets.new.items) }
    ensures is { IfOk result (HoldsAt (λ b. is_of word.now count b ≡ true) buckets.new.items) }
    ensures before { IfOk result (AllWithin (λ b. is_of word.now count b ≡ false) buckets.new.items 0) }
    ensures same { AreSame buckets.old.items buckets.new.items }
    ensures once { AreOnce buckets.old.items → AreOnce buckets.new.items }
{
    if let Some(place) = place_of_bucket(buckets, word, count) {
        return Ok(place);
    }
    let place = buckets.len();
    let alloc = *buckets.allocator();
    let word = Vec::from_slice(alloc, word)?;
    let by_length = Vec::new(alloc);
    let by_value = IndexMap::with_hasher(alloc, NumberHasher::new());
    buckets.push(Bucket {
        word,
        count,
        by_length,
        by_value,
    })?;
    Ok(place)
}

/// Sees to it that there is a list for a length.
fn grow(lists: &mut Vec<Numbers>, length: usize) -> Result<(), AllocError>
    ensures long { OnOk result (length < vec_len lists.new) }
    ensures same { (l : ℕ) → list_at l lists.new.items ≡ list_at l lists.old.items }
{
    let alloc = *lists.allocator();
    while lists.len() <= length {
        lists.push(Numbers::new(alloc))?;
    }
    Ok(())
}

/// Puts a number after those of a length.
fn put_number(lists: &mut Vec<Numbers>, length: usize, number: u64) -> Result<(), AllocError>
    ensures long { OnOk result (length < vec_len lists.new) }
    ensures put { OnOk result (list_at length lists.new.items ≡ list_at length lists.old.items ++ number ∷ []) }
    ensures err { OnErr result (list_at length lists.new.items ≡ list_at length lists.old.items) }
    ensures others { (l : ℕ) → l ≢ length → list_at l lists.new.items ≡ list_at l lists.old.items }
{
    grow(lists, length)?;
    lists[length].push(number)?;
    Ok(())
}

/// Takes the number that was put last out of a list.
fn take_back(lists: &mut Vec<Numbers>, place: usize)
    requires { place < vec_len lists.old }
    ensures back { list_at place lists.new.items ≡ take (length (list_at place lists.old.items) - 1) (list_at place lists.old.items) }
    ensures others { (l : ℕ) → l ≢ place → list_at l lists.new.items ≡ list_at l lists.old.items }
{
    lists[place].drop_last();
}

/// Puts the first number of a value that has no list.
fn put_first(lists: &mut ByValue, value: u64, number: u64) -> Result<(), AllocError>
    requires { get nat_eq lists.old value ≡ None }
    ensures put { OnOk result (list_under value lists.new ≡ number ∷ []) }
    ensures err { OnErr result (list_under value lists.new ≡ []) }
    ensures others { (v : ℕ) → v ≢ value → list_under v lists.new ≡ list_under v lists.old }
    ensures in_use { AreInUse lists.old → AreInUse lists.new }
{
    let alloc = *lists.allocator();
    let mut numbers = Numbers::new(alloc);
    numbers.push(number)?;
    lists.insert(value, numbers)?;
    Ok(())
}

/// Puts a number after those of a value.
fn put_value(lists: &mut ByValue, value: u64, number: u64) -> Result<(), AllocError>
    ensures put { OnOk result (list_under value lists.new ≡ list_under value lists.old ++ number ∷ []) }
    ensures err { OnErr result (list_under value lists.new ≡ list_under value lists.old) }
    ensures others { (v : ℕ) → v ≢ value → list_under v lists.new ≡ list_under v lists.old }
    ensures in_use { AreInUse lists.old → AreInUse lists.new }
{
    let Some(numbers) = lists.get_mut(&value) else {
        return put_first(lists, value, number);
    };
    numbers.push(number)?;
    Ok(())
}

/// Puts a number after those of a length and of a value, or after neither.
fn put_both(bucket: &mut Bucket, length: usize, value: u64, number: u64) -> Result<(), AllocError>
    ensures key { key bucket.new ≡ key bucket.old }
    ensures put { OnOk result (IsPutIn length (Some value) number bucket.old bucket.new) }
    ensures err { OnErr result (HasSame bucket.old bucket.new) }
{
    put_number(&mut bucket.by_length, length, number)?;
    let Err(error) = put_value(&mut bucket.by_value, value, number) else {
        return Ok(());
    };
    take_back(&mut bucket.by_length, length);
    Err(error)
}

/// Puts the number of a tuple into its slots of a bucket. If memory runs out, it is in none.
fn put_in(bucket: &mut Bucket, tuple: &Tuple, number: u64) -> Result<(), AllocError>
    ensures key { key bucket.new ≡ key bucket.old }
    ensures put { OnOk result (IsPutIn (second_length tuple.now) (second_value tuple.now) number bucket.old bucket.new) }
    ensures err { OnErr result (HasSame bucket.old bucket.new) }
{
    let length = second_length(tuple);
    match second_value(tuple) {
        Some(value) => put_both(bucket, length, value, number),
        None => put_number(&mut bucket.by_length, length, number),
    }
}

/// Takes the number of a tuple out of its slots of a bucket.
fn take_from(bucket: &mut Bucket, tuple: &Tuple, number: u64)
    requires { (s : Slot) → AreRising (numbers_at s bucket.old) }
    ensures key { key bucket.new ≡ key bucket.old }
    ensures taken { IsTakenFrom tuple.now number bucket.old bucket.new }
{
    take_number(&mut bucket.by_length, second_length(tuple), number);
    if let Some(value) = second_value(tuple) {
        take_value(&mut bucket.by_value, value, number);
    }
}

/// The numbers in a slot of a bucket.
pub(crate) fn numbers_at(bucket: &Bucket, slot: Slot) -> &[u64]
    ensures { result.now ≡ numbers_at slot bucket.now }
{
    match slot {
        Slot::Length(length) => numbers_in(&bucket.by_length, length),
        Slot::Value(value) => numbers_under(&bucket.by_value, value),
    }
}

/// The numbers of a list.
fn numbers_in(lists: &[Numbers], place: usize) -> &[u64]
    ensures { result.now ≡ list_at place lists.now }
{
    if place < lists.len() {
        lists[place].as_slice()
    } else {
        &[]
    }
}

/// The numbers of a value.
fn numbers_under(lists: &ByValue, value: u64) -> &[u64]
    ensures { result.now ≡ list_under value lists.now }
{
    match lists.get(&value) {
        Some(numbers) => numbers.as_slice(),
        None => &[],
    }
}

/// How many numbers are under a class: under a word and a count of fields, those of a length.
pub(crate) fn class_size(buckets: &[Bucket], word: &[u8], count: usize, numbers: usize) -> usize
    ensures { result ≡ length (numbers_of (class_of word.now count numbers) buckets.now) }
{
    let Some(place) = place_of_bucket(buckets, word, count) else {
        return 0;
    };
    count_at(&buckets[place].by_length, numbers)
}

/// How many numbers there are of a length.
fn count_at(lists: &[Numbers], numbers: usize) -> usize
    ensures { result ≡ length (list_at numbers lists.now) }
{
    if numbers < lists.len() {
        lists[numbers].as_slice().len()
    } else {
        0
    }
}

/// Takes a number out of those of a length.
fn take_number(lists: &mut Vec<Numbers>, length: usize, number: u64)
    requires { AreRising (list_at length lists.old.items) }
    ensures gone { list_at length lists.new.items ≡ filter (λ n. not (n == number)) (list_at length lists.old.items) }
    ensures others { (l : ℕ) → l ≢ length → list_at l lists.new.items ≡ list_at l lists.old.items }
{
    if length < lists.len() {
        lists[length].remove(number);
    }
}

/// Takes a number out of those of a value, and drops their list if it is empty then.
fn take_value(lists: &mut ByValue, value: u64, number: u64)
    requires { AreRising (list_under value lists.old) }
    ensures gone { list_under value lists.new ≡ filter (λ n. not (n == number)) (list_under value lists.old) }
    ensures others { (v : ℕ) → v ≢ value → list_under v lists.new ≡ list_under v lists.old }
    ensures in_use { AreInUse lists.old → AreInUse lists.new }
{
    let Some(numbers) = lists.get_mut(&value) else {
        return;
    };
    numbers.remove(number);
    if numbers.as_slice().is_empty() {
        lists.swap_remove(&value);
    }
}

/// Puts the number of a tuple, which is above all that were put before, into its bucket. If memory runs out, no number
/// has been put.
pub(crate) fn add_entry(
    buckets: &mut Vec<Bucket>,
    tuple: &Tuple,
    number: u64,
) -> Result<(), AllocError>
    ensures put { OnOk result (IsAdded tuple.now number buckets.old.items buckets.new.items) }
    ensures err { OnErr result (AreSame buckets.old.items buckets.new.items) }
    ensures once { AreOnce buckets.old.items → AreOnce buckets.new.items }
{
    let Some(word) = first_word(tuple) else {
        return Ok(());
    };
    let place = place_for(buckets, word, tuple.fields().len())?;
    put_in(&mut buckets[place], tuple, number)
}

/// Takes the number of a tuple out of its bucket.
pub(crate) fn drop_entry(buckets: &mut Vec<Bucket>, tuple: &Tuple, number: u64)
    requires { AreOrdered buckets.old.items }
    ensures dropped { IsDropped tuple.now number buckets.old.items buckets.new.items }
    ensures once { AreOnce buckets.old.items → AreOnce buckets.new.items }
{
    let Some(word) = first_word(tuple) else {
        return;
    };
    if let Some(place) = place_of_bucket(buckets, word, tuple.fields().len()) {
        take_from(&mut buckets[place], tuple, number);
    }
}
