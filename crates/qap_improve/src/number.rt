//! The number types of cost changes: 64 bits if an instance's entries are small, else 128.

ghost use Rattle.std.specs.Prelude.{◌≡◌, ℕ, ℤ, ◌*◌, ◌^◌, ◌≤◌, ◌+ℤ◌, length, IfOk, unsigned_abs};
ghost use Rattle.std.proofs.Common.{lit<};
ghost use Rattle.qap_improve.specs.Table.{IsSmall, change_of_difference};

use crate::contrast::{Contrast, change, small_change};
use std::alloc::{AllocError, Global};

/// A whole number of some width, which holds what an exchange changes the cost by, and what another exchange changes that
/// by, where no entry is further from 0 than `limit`.
pub(crate) trait Number: Copy {
    ghost value: { Self → ℤ };

    ghost limit: { ℕ };

    /// This many numbers.
    fn zeros(alloc: Global, count: usize) -> Result<Vec<Self>, AllocError>
        ensures { IfOk result (λ numbers. length numbers.items ≡ count) };

    /// A number that no other is greater than.
    fn greatest() -> Self;

    /// The number in this width.
    fn narrow(number: i128) -> Self
        requires { unsigned_abs number ≤ 2072 * (limit * limit) }
        ensures { value result ≡ number };

    /// The number in this width, or the least that it holds.
    fn at_least(number: i128) -> Self;

    /// The number in 128 bits.
    fn widen(self) -> i128
        ensures { result ≡ value self };

    /// The difference of two facilities that take no part in an exchange, after it, where these are their contrasts.
    fn after_exchange(self, first: &Contrast, second: &Contrast) -> Self
        requires difference { unsigned_abs (value self) ≤ 2072 * (limit * limit) }
        requires first { IsSmall limit first.now }
        requires second { IsSmall limit second.now }
        ensures { value result ≡ value self +ℤ change_of_difference first.now second.now };

    /// Whether this number is less than the other.
    fn is_less(self, other: Self) -> bool;

    ghost limited: { limit ≤ 10 ^ 9 };
}

impl Number for i64 {
    ghost value = { λ x. x };

    ghost limit = { 5 * 10 ^ 7 };

    fn zeros(alloc: Global, count: usize) -> Result<Vec<i64>, AllocError> {
        vec![in alloc; 0; count]
    }

    fn greatest() -> i64 {
        i64::MAX
    }

    fn narrow(number: i128) -> i64 {
        number as i64
    }

    fn at_least(number: i128) -> i64 {
        i64::try_from(number).unwrap_or(i64::MIN)
    }

    fn widen(self) -> i128 {
        i128::from(self)
    }

    fn after_exchange(self, first: &Contrast, second: &Contrast) -> i64 {
        self + small_change(first, second)
    }

    fn is_less(self, other: i64) -> bool {
        self < other
    }

    ghost limited = { lit< tt };
}

impl Number for i128 {
    ghost value = { λ x. x };

    ghost limit = { 10 ^ 9 };

    fn zeros(alloc: Global, count: usize) -> Result<Vec<i128>, AllocError> {
        vec![in alloc; 0; count]
    }

    fn greatest() -> i128 {
        i128::MAX
    }

    fn narrow(number: i128) -> i128 {
        number
    }

    fn at_least(number: i128) -> i128 {
        number
    }

    fn widen(self) -> i128 {
        self
    }

    fn after_exchange(self, first: &Contrast, second: &Contrast) -> i128 {
        self + change(first, second)
    }

    fn is_less(self, other: i128) -> bool {
        self < other
    }

    ghost limited = { lit< tt };
}
