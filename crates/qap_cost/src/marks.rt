//! Sets of numbers as marks.

ghost use Rattle.std.specs.Prelude.{◌≡◌, ◌<◌, ◌==◌, false, length, slice_index, slice_index_or, ℕ};
ghost use Rattle.std.specs.List.{list_any};

use crate::instance::MAX_SIZE;

/// For each number below 256 whether it is in the list.
pub fn marked(numbers: &[u16]) -> [bool; MAX_SIZE]
    requires { (i : ℕ) → i < length numbers.now → slice_index numbers.now i < 256 }
    ensures { (k : ℕ) → k < 256 → slice_index_or result k false ≡ list_any (λ l. k == l) numbers.now }
{
    let mut marks = [false; MAX_SIZE];
    for &number in numbers {
        marks[usize::from(number)] = true;
    }
    marks
}
