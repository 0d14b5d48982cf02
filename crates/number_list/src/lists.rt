//! Lists of numbers, regardless of their width.

ghost use Rattle.std.specs.Prelude.{◌≡◌, ◌∷◌, ◌++◌, [], IfOk, IfSome, length, pos};
ghost use Rattle.number_list.specs.NumberList.{numbers_held};
ghost use Rattle.number_list.specs.Turns.{by_turns};
ghost use Rattle.number_list.specs.Numbers.{numbers_in};

use crate::few::{FewBytes, FewShorts};
use crate::numbers::Numbers;
use crate::widths::fill;
use std::alloc::{AllocError, Global};

/// A list of numbers.
#[derive(Debug, Drop)]
pub enum NumberList {
    /// From 0 to 255, in place.
    Bytes(FewBytes),
    /// Of 16 bits, in place.
    Shorts(FewShorts),
    /// Of 32 bits.
    Narrow(Vec<i32>),
    /// Of 128 bits.
    Wide(Vec<i128>),
}

impl NumberList {
    /// These numbers in as few bits as they need, or `AllocError` if they do not fit in place and memory ran out.
    pub fn of(alloc: Global, numbers: &[i128]) -> Result<NumberList, AllocError>
        ensures { IfOk result (λ list. numbers_held list ≡ numbers.now) }
    {
        match narrow(alloc, numbers)? {
            Some(list) => Ok(list),
            None => Ok(NumberList::Wide(Vec::from_slice(alloc, numbers)?)),
        }
    }

    /// The numbers in fewer bits, if they fit and memory suffices; otherwise unchanged.
    pub fn narrowed(numbers: Vec<i128>) -> NumberList
        ensures { numbers_held result ≡ numbers.items }
    {
        match narrow(*numbers.allocator(), &numbers) {
            Ok(Some(list)) => list,
            _ => NumberList::Wide(numbers),
        }
    }

    /// The numbers of both rows alternately, or `AllocError` if they do not fit in place and memory ran out.
    pub fn by_turns(alloc: Global, first: &[u16], second: &[u16]) -> Result<NumberList, AllocError>
        requires { length second.now ≡ length first.now }
        ensures { IfOk result (λ list. numbers_held list ≡ by_turns first.now second.now) }
    {
        match FewBytes::by_turns(first, second) {
            Some(few) => Ok(NumberList::Bytes(few)),
            None => Ok(NumberList::Narrow(narrow_by_turns(alloc, first, second)?)),
        }
    }

    /// Another list of these numbers and two more at its end, or `AllocError` if they do not fit in place and memory
    /// ran out.
    pub fn with_two(&self, alloc: Global, first: u16, second: u16) -> Result<NumberList, AllocError>
        ensures { IfOk result (λ list. numbers_held list ≡ numbers_held self.now ++ pos first ∷ pos second ∷ []) }
    {
        match self {
            NumberList::Bytes(few) => {
                if let Some(few) = few.with_two(first, second) {
                    return Ok(NumberList::Bytes(few));
                }
            }
            NumberList::Narrow(numbers) => {
                let numbers = narrow_with_two(alloc, numbers, first, second)?;
                return Ok(NumberList::Narrow(numbers));
            }
            NumberList::Shorts(_) | NumberList::Wide(_) => {}
        }
        let mut numbers = self.numbers().to_vec(alloc)?;
        numbers.push(i128::from(first))?;
        numbers.push(i128::from(second))?;
        Ok(NumberList::narrowed(numbers))
    }

    /// The numbers, in their stored width.
    pub fn numbers(&self) -> Numbers<'_>
        ensures { numbers_in result ≡ numbers_held self.now }
    {
        match self {
            NumberList::Bytes(few) => Numbers::Bytes(few.as_slice()),
            NumberList::Shorts(few) => Numbers::Shorts(few.as_slice()),
            NumberList::Narrow(numbers) => Numbers::Narrow(numbers.as_slice()),
            NumberList::Wide(numbers) => Numbers::Wide(numbers.as_slice()),
        }
    }

    /// The numbers in 128 bits each. They are moved if they are stored so, and otherwise copied, which may fail for
    /// lack of memory.
    pub fn into_vec(self, alloc: Global) -> Result<Vec<i128>, AllocError>
        ensures { IfOk result (λ numbers. numbers.items ≡ numbers_held self) }
    {
        match self {
            NumberList::Wide(numbers) => Ok(numbers),
            list => list.numbers().to_vec(alloc),
        }
    }
}

/// The numbers in fewer than 128 bits each, or `None` if one of them takes as many.
fn narrow(alloc: Global, numbers: &[i128]) -> Result<Option<NumberList>, AllocError>
    ensures { IfOk result (λ found. IfSome found (λ list. numbers_held list ≡ numbers.now)) }
{
    if let Some(few) = FewBytes::of(numbers) {
        return Ok(Some(NumberList::Bytes(few)));
    }
    if let Some(few) = FewShorts::of(numbers) {
        return Ok(Some(NumberList::Shorts(few)));
    }
    let mut narrow = vec![in alloc; 0; numbers.len()]?;
    if fill(&mut narrow, numbers) {
        Ok(Some(NumberList::Narrow(narrow)))
    } else {
        Ok(None)
    }
}

/// The numbers of both rows alternately.
fn narrow_by_turns(alloc: Global, first: &[u16], second: &[u16]) -> Result<Vec<i32>, AllocError>
    requires { length second.now ≡ length first.now }
    ensures { IfOk result (λ numbers. numbers.items ≡ by_turns first.now second.now) }
{
    let mut numbers = Vec::with_capacity(alloc, first.len().saturating_add(second.len()))?;
    for t in 0..first.len() {
        numbers.push(i32::from(first[t]))?;
        numbers.push(i32::from(second[t]))?;
    }
    Ok(numbers)
}

/// The numbers and two more after them.
fn narrow_with_two(
    alloc: Global,
    numbers: &[i32],
    first: u16,
    second: u16,
) -> Result<Vec<i32>, AllocError>
    ensures { IfOk result (λ more. more.items ≡ numbers.now ++ pos first ∷ pos second ∷ []) }
{
    let mut more = Vec::with_capacity(alloc, numbers.len().saturating_add(2))?;
    more.extend_from_slice(numbers)?;
    more.push(i32::from(first))?;
    more.push(i32::from(second))?;
    Ok(more)
}
