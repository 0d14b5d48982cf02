//! The numbers of a list, regardless of its width.

ghost use Rattle.std.specs.Prelude.{◌≡◌, ◌<◌, ◌↔◌, IfOk, IsTrue, length, map, pos, slice_index_or};
ghost use Rattle.std.specs.Cmp.Lexicographic.{pointwise, slice_cmp};
ghost use Rattle.std.specs.Ordering.{int_cmp, int_eq};
ghost use Rattle.number_list.specs.Numbers.{numbers_in};

use crate::widths::widened;
use std::alloc::{AllocError, Global};
use std::cmp::Ordering;

/// The numbers of a borrowed list, in its stored width.
#[derive(Clone, Copy, Debug)]
pub enum Numbers<'a> {
    /// From 0 to 255.
    Bytes(&'a [u8]),
    /// Of 16 bits.
    Shorts(&'a [i16]),
    /// Of 32 bits.
    Narrow(&'a [i32]),
    /// Of 128 bits.
    Wide(&'a [i128]),
}

impl Numbers<'_> {
    /// How many there are.
    pub fn len(&self) -> usize
        ensures { result ≡ length (numbers_in self.now) }
    {
        match self {
            Numbers::Bytes(numbers) => numbers.len(),
            Numbers::Shorts(numbers) => numbers.len(),
            Numbers::Narrow(numbers) => numbers.len(),
            Numbers::Wide(numbers) => numbers.len(),
        }
    }

    /// The number at a position.
    pub fn at(&self, place: usize) -> i128
        requires { place < length (numbers_in self.now) }
        ensures { result ≡ slice_index_or (numbers_in self.now) place (pos 0) }
    {
        match self {
            Numbers::Bytes(numbers) => byte_at(numbers, place),
            Numbers::Shorts(numbers) => short_at(numbers, place),
            Numbers::Narrow(numbers) => narrow_at(numbers, place),
            Numbers::Wide(numbers) => wide_at(numbers, place),
        }
    }

    /// The numbers in 128 bits each, or `AllocError` if memory ran out.
    pub fn to_vec(&self, alloc: Global) -> Result<Vec<i128>, AllocError>
        ensures { IfOk result (λ numbers. numbers.items ≡ numbers_in self.now) }
    {
        match self {
            Numbers::Bytes(numbers) => widened(alloc, numbers),
            Numbers::Shorts(numbers) => widened(alloc, numbers),
            Numbers::Narrow(numbers) => widened(alloc, numbers),
            Numbers::Wide(numbers) => numbers.to_vec(alloc),
        }
    }

    /// Compares the two lists: the first numbers that differ decide, and a list precedes its extensions. Lists of bytes
    /// are compared in their stored form.
    pub fn compare(&self, other: &Numbers<'_>) -> Ordering
        ensures { result ≡ slice_cmp int_cmp (numbers_in self.now) (numbers_in other.now) }
    {
        match (self, other) {
            (Numbers::Bytes(numbers), Numbers::Bytes(other)) => compare_bytes(numbers, other),
            _ => compare_each(self, other),
        }
    }

    /// Whether the lists are equal. Those of one width are compared in their stored form.
    pub fn is_same(&self, other: &Numbers<'_>) -> bool
        ensures { result ≡ pointwise int_eq (numbers_in self.now) (numbers_in other.now) }
    {
        match (self, other) {
            (Numbers::Bytes(numbers), Numbers::Bytes(other)) => are_same_bytes(numbers, other),
            (Numbers::Shorts(numbers), Numbers::Shorts(other)) => *numbers == *other,
            (Numbers::Narrow(numbers), Numbers::Narrow(other)) => *numbers == *other,
            (Numbers::Wide(numbers), Numbers::Wide(other)) => *numbers == *other,
            _ => are_same(self, other),
        }
    }
}

fn are_same_bytes(numbers: &[u8], other: &[u8]) -> bool
    ensures { result ≡ pointwise int_eq (map pos numbers.now) (map pos other.now) }
{
    numbers == other
}

fn compare_bytes(numbers: &[u8], other: &[u8]) -> Ordering
    ensures { result ≡ slice_cmp int_cmp (map pos numbers.now) (map pos other.now) }
{
    numbers.cmp(other)
}

/// How the two lists compare, number by number.
fn compare_each(numbers: &Numbers<'_>, other: &Numbers<'_>) -> Ordering
    ensures { result ≡ slice_cmp int_cmp (numbers_in numbers.now) (numbers_in other.now) }
{
    for place in 0..numbers.len().min(other.len()) {
        let order = numbers.at(place).cmp(&other.at(place));
        if order != Ordering::Equal {
            return order;
        }
    }
    numbers.len().cmp(&other.len())
}

/// Whether both are equal lists, number by number.
fn are_same(numbers: &Numbers<'_>, other: &Numbers<'_>) -> bool
    ensures { IsTrue result ↔ (numbers_in numbers.now ≡ numbers_in other.now) }
{
    if numbers.len() != other.len() {
        return false;
    }
    for place in 0..numbers.len() {
        if numbers.at(place) != other.at(place) {
            return false;
        }
    }
    true
}

fn byte_at(numbers: &[u8], place: usize) -> i128
    requires { place < length (map pos numbers.now) }
    ensures { result ≡ slice_index_or (map pos numbers.now) place (pos 0) }
{
    i128::from(numbers[place])
}

fn short_at(numbers: &[i16], place: usize) -> i128
    requires { place < length numbers.now }
    ensures { result ≡ slice_index_or numbers.now place (pos 0) }
{
    i128::from(numbers[place])
}

fn narrow_at(numbers: &[i32], place: usize) -> i128
    requires { place < length numbers.now }
    ensures { result ≡ slice_index_or numbers.now place (pos 0) }
{
    i128::from(numbers[place])
}

fn wide_at(numbers: &[i128], place: usize) -> i128
    requires { place < length numbers.now }
    ensures { result ≡ slice_index_or numbers.now place (pos 0) }
{
    numbers[place]
}
