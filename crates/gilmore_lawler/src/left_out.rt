//! A sorted row of distances without one of its numbers.

ghost use Rattle.std.specs.Prelude.{◌≡◌, ◌<◌, ◌≤◌, ◌+◌, ◌++◌, ◌<ℤ◌, ◌≤ℤ◌, length, pos, remove, slice_index_or, take, ℕ};
ghost use Rattle.gilmore_lawler.specs.Order.{IsDescending};

/// Writes the numbers of a row that falls but one of this value, from this position on, and returns the position after
/// them.
///
/// Each place takes its number or the next one, so that no branch waits for the comparison.
pub(crate) fn write_without(sorted: &[i32], gone: i32, numbers: &mut [i32], start: usize) -> usize
    requires falls { IsDescending sorted.now }
    requires some { 0 < length sorted.now }
    requires room { start + length sorted.now ≤ length numbers.old + 1 }
    ensures end { result + 1 ≡ start + length sorted.now }
    ensures count { length numbers.new ≡ length numbers.old }
    ensures written { (t : ℕ) → t < length sorted.now → slice_index_or sorted.now t (pos 0) ≡ gone →
        take result numbers.new ≡ take start numbers.old ++ remove sorted.now t }
{
    let count = sorted.len() - 1;
    for j in 0..count {
        numbers[start + j] = one_of(sorted[j], sorted[j + 1], gone);
    }
    start + count
}

/// The first number where it is above `gone`, and else the next one, which isn't greater.
///
/// Both are read in either case, so that the compiler needs no branch.
fn one_of(number: i32, next: i32, gone: i32) -> i32
    requires { next ≤ℤ number }
    ensures above { gone <ℤ number → result ≡ number }
    ensures below { number ≤ℤ gone → result ≡ next }
{
    if number > gone {
        number.max(next)
    } else {
        next
    }
}
