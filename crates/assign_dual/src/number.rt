//! The number types of an assignment: 64 bits if a matrix's entries allow it, else 128.

ghost use Rattle.std.specs.Prelude.{◌≡◌, false, ℕ, ℤ, ◌*◌, ◌^◌, ◌≤◌, ◌+ℤ◌, ◌-ℤ◌, ◌<ℤ◌, ◌≤ℤ◌, IsTrue, unsigned_abs};
ghost use Rattle.std.proofs.Common.{lit<};

/// A whole number of some width, which holds eight times the entries that it is used for.
pub trait Number: Copy {
    ghost value: { Self → ℤ };

    ghost most: { ℕ };

    /// The number in this width.
    fn narrow(number: i128) -> Self
        requires { unsigned_abs number ≤ most }
        ensures { value result ≡ number };

    /// The number in 128 bits.
    fn widen(self) -> i128
        ensures { result ≡ value self };

    /// The sum.
    fn plus(self, other: Self) -> Self
        requires { unsigned_abs (value self +ℤ value other) ≤ 8 * most }
        ensures { value result ≡ value self +ℤ value other };

    /// The difference.
    fn minus(self, other: Self) -> Self
        requires { unsigned_abs (value self -ℤ value other) ≤ 8 * most }
        ensures { value result ≡ value self -ℤ value other };

    /// Whether this number is less than the other.
    fn is_less(self, other: Self) -> bool
        ensures less { IsTrue result → value self <ℤ value other }
        ensures not_less { result ≡ false → value other ≤ℤ value self };

    ghost small: { most ≤ 10 ^ 21 };
}

impl Number for i64 {
    ghost value = { λ x. x };

    ghost most = { 10 ^ 18 };

    fn narrow(number: i128) -> i64 {
        number as i64
    }

    fn widen(self) -> i128 {
        i128::from(self)
    }

    fn plus(self, other: i64) -> i64 {
        self + other
    }

    fn minus(self, other: i64) -> i64 {
        self - other
    }

    fn is_less(self, other: i64) -> bool {
        self < other
    }

    ghost small = { lit< tt };
}

impl Number for i128 {
    ghost value = { λ x. x };

    ghost most = { 10 ^ 21 };

    fn narrow(number: i128) -> i128 {
        number
    }

    fn widen(self) -> i128 {
        self
    }

    fn plus(self, other: i128) -> i128 {
        self + other
    }

    fn minus(self, other: i128) -> i128 {
        self - other
    }

    fn is_less(self, other: i128) -> bool {
        self < other
    }

    ghost small = { lit< tt };
}
