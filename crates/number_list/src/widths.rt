//! The widths in which the numbers of a list are stored.

ghost use Rattle.std.specs.Prelude.{◌≡◌, ◌≤◌, ℤ, IfOk, IfSome, IsTrue, length, map, pos, take};

use std::alloc::{AllocError, Global};

/// A whole number in fewer than 128 bits.
pub(crate) trait Width: Copy {
    ghost value: { Self → ℤ };

    /// The number in this width, or `None` if it takes more.
    fn narrowed(number: i128) -> Option<Self>
        ensures { IfSome result (λ narrow. value narrow ≡ number) };

    /// The number in 128 bits.
    fn widened(self) -> i128
        ensures { result ≡ value self };
}

impl Width for u8 {
    ghost value = { λ x. pos x };

    fn narrowed(number: i128) -> Option<u8> {
        u8::try_from(number).ok()
    }

    fn widened(self) -> i128 {
        i128::from(self)
    }
}

impl Width for i16 {
    ghost value = { λ x. x };

    fn narrowed(number: i128) -> Option<i16> {
        i16::try_from(number).ok()
    }

    fn widened(self) -> i128 {
        i128::from(self)
    }
}

impl Width for i32 {
    ghost value = { λ x. x };

    fn narrowed(number: i128) -> Option<i32> {
        i32::try_from(number).ok()
    }

    fn widened(self) -> i128 {
        i128::from(self)
    }
}

/// Puts the numbers at the beginning of the buffer, in its width; answers whether each fits.
pub(crate) fn fill<W: Width>(room: &mut [W], numbers: &[i128]) -> bool
    requires { length numbers.now ≤ length room.old }
    ensures filled { IsTrue result → map W.value (take (length numbers.now) room.new) ≡ numbers.now }
    ensures same_length { length room.new ≡ length room.old }
{
    for k in 0..numbers.len() {
        let Some(number) = W::narrowed(numbers[k]) else {
            return false;
        };
        room[k] = number;
    }
    true
}

/// The numbers in 128 bits.
pub(crate) fn widened<W: Width>(alloc: Global, numbers: &[W]) -> Result<Vec<i128>, AllocError>
    ensures { IfOk result (λ wide. wide.items ≡ map W.value numbers.now) }
{
    let mut wide = Vec::with_capacity(alloc, numbers.len())?;
    for number in numbers {
        wide.push(number.widened())?;
    }
    Ok(wide)
}
