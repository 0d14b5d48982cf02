//! Short lists of small numbers, in place.

ghost use Rattle.std.specs.Prelude.{◌≡◌, ◌∷◌, ◌++◌, [], IfSome, length, map, pos};
ghost use Rattle.number_list.specs.Turns.{by_turns};

use crate::widths::fill;
use std::marker::Model;

/// The most numbers of 8 bits in place, by which a list stays at 32 bytes.
const MOST_BYTES: usize = 30;
/// The most numbers of 16 bits in place, by which a list stays at 32 bytes.
const MOST_SHORTS: usize = 14;

/// At most 30 numbers from 0 to 255, in place.
#[derive(Debug, Drop)]
pub struct FewBytes {
    count: u8,
    numbers: [u8; MOST_BYTES],
}

impl Model for FewBytes {
    ghost use Rattle.std.specs.Prelude.{◌≡◌, ◌≤◌, List, ℕ, length, take};

    ghost Value = { List ℕ };

    ghost view = { λ f. take f.count f.numbers };

    ghost invariant = { λ f. (length f.numbers ≡ 30) × (f.count ≤ 30) };
}

impl FewBytes {
    /// These numbers in place, or `None` if there are too many or one of them is not from 0 to 255.
    pub(crate) fn of(numbers: &[i128]) -> Option<FewBytes>
        ensures { IfSome result (λ few. map pos few ≡ numbers.now) }
    {
        let mut room = [0; MOST_BYTES];
        let count = u8::try_from(numbers.len()).ok()?;
        if numbers.len() <= MOST_BYTES && fill(&mut room, numbers) {
            Some(FewBytes {
                count,
                numbers: room,
            })
        } else {
            None
        }
    }

    /// The numbers of both rows alternately in place, or `None` if there are too many or one of them is above 255.
    pub(crate) fn by_turns(first: &[u16], second: &[u16]) -> Option<FewBytes>
        requires { length second.now ≡ length first.now }
        ensures { IfSome result (λ few. map pos few ≡ by_turns first.now second.now) }
    {
        let mut few = FewBytes::none();
        for t in 0..first.len() {
            few = few.with_two(first[t], second[t])?;
        }
        Some(few)
    }

    /// No numbers.
    fn none() -> FewBytes
        ensures { result ≡ [] }
    {
        FewBytes {
            count: 0,
            numbers: [0; MOST_BYTES],
        }
    }

    /// These numbers and two more after them, or `None` if there are too many or one of the two is above 255.
    pub(crate) fn with_two(&self, first: u16, second: u16) -> Option<FewBytes>
        ensures { IfSome result (λ few. few ≡ self.now ++ first ∷ second ∷ []) }
    {
        let first = u8::try_from(first).ok()?;
        let second = u8::try_from(second).ok()?;
        let count = usize::from(self.count);
        if count + 2 > MOST_BYTES {
            return None;
        }
        let mut numbers = self.numbers;
        numbers[count] = first;
        numbers[count + 1] = second;
        Some(FewBytes {
            count: self.count + 2,
            numbers,
        })
    }

    /// The numbers, first to last.
    pub fn as_slice(&self) -> &[u8]
        ensures { result.now ≡ self.now }
    {
        &self.numbers[..usize::from(self.count)]
    }

    /// The same numbers once more.
    pub fn copy(&self) -> FewBytes
        ensures { result ≡ self.now }
    {
        FewBytes {
            count: self.count,
            numbers: self.numbers,
        }
    }
}

/// At most 14 numbers of 16 bits, in place.
#[derive(Debug, Drop)]
pub struct FewShorts {
    count: u8,
    numbers: [i16; MOST_SHORTS],
}

impl Model for FewShorts {
    ghost use Rattle.std.specs.Prelude.{◌≡◌, ◌≤◌, List, ℤ, length, take};

    ghost Value = { List ℤ };

    ghost view = { λ f. take f.count f.numbers };

    ghost invariant = { λ f. (length f.numbers ≡ 14) × (f.count ≤ 14) };
}

impl FewShorts {
    /// These numbers in place, or `None` if there are too many or one of them takes more than 16 bits.
    pub(crate) fn of(numbers: &[i128]) -> Option<FewShorts>
        ensures { IfSome result (λ few. few ≡ numbers.now) }
    {
        let mut room = [0; MOST_SHORTS];
        let count = u8::try_from(numbers.len()).ok()?;
        if numbers.len() <= MOST_SHORTS && fill(&mut room, numbers) {
            Some(FewShorts {
                count,
                numbers: room,
            })
        } else {
            None
        }
    }

    /// The numbers, first to last.
    pub fn as_slice(&self) -> &[i16]
        ensures { result.now ≡ self.now }
    {
        &self.numbers[..usize::from(self.count)]
    }

    /// The same numbers once more.
    pub fn copy(&self) -> FewShorts
        ensures { result ≡ self.now }
    {
        FewShorts {
            count: self.count,
            numbers: self.numbers,
        }
    }
}
