//! The number types of pair duals: 64 bits if the instance and the scale allow it, else 128.

ghost use Rattle.std.specs.Prelude.{◌≡◌, ◌+◌, ◌*◌, ◌^◌, ◌≤◌, ℤ, ◌+ℤ◌, ◌-ℤ◌, ◌*ℤ◌, ◌<ℤ◌, ◌↔◌, IsTrue, unsigned_abs};
ghost use Rattle.std.proofs.Common.{lit<, lit≤};
ghost use Rattle.pair_duals.specs.Limits.{Limits, AreEnough};

/// An integer of some width, with limits under which no sum overflows.
pub trait Number: Copy {
    ghost value: { Self → ℤ };

    ghost limits: { Limits };

    /// The greatest size of an instance.
    fn most_size() -> usize
        ensures { result ≡ limits.size };

    /// How far from 0 a scaled product of two entries may lie.
    fn most_cost() -> u128
        ensures { result ≡ limits.cost };

    /// How far from 0 a dual, or a number of a line, may lie.
    fn most_dual() -> u128
        ensures { result ≡ limits.dual };

    /// The number in this width.
    fn narrow(number: i128) -> Self
        requires { unsigned_abs number ≤ limits.sum }
        ensures { value result ≡ number };

    /// The number in 128 bits.
    fn widen(self) -> i128
        ensures { result ≡ value self };

    /// The sum.
    fn plus(self, other: Self) -> Self
        requires { unsigned_abs (value self +ℤ value other) ≤ limits.sum }
        ensures { value result ≡ value self +ℤ value other };

    /// The difference.
    fn minus(self, other: Self) -> Self
        requires { unsigned_abs (value self -ℤ value other) ≤ limits.sum }
        ensures { value result ≡ value self -ℤ value other };

    /// The product of two numbers of 64 bits.
    fn product(a: i64, b: i64) -> Self
        requires { unsigned_abs (a *ℤ b) ≤ limits.sum }
        ensures { value result ≡ a *ℤ b };

    /// Whether this number is less than the other.
    fn is_less(self, other: Self) -> bool
        ensures { IsTrue result ↔ value self <ℤ value other };

    ghost enough: { AreEnough limits };
}

impl Number for i64 {
    ghost value = { λ x. x };

    ghost limits = { record { size = 64; cost = 2 ^ 52; dual = 2 ^ 45; pair = 2 ^ 53 + 2 ^ 48; start = 2 ^ 59 + 2 ^ 53; reach = 2 ^ 61 + 2 ^ 57; sum = 2 ^ 62 + 2 ^ 61 } };

    fn most_size() -> usize {
        64
    }

    fn most_cost() -> u128 {
        4_503_599_627_370_496
    }

    fn most_dual() -> u128 {
        35_184_372_088_832
    }

    fn narrow(number: i128) -> i64 {
        number as i64
    }

    fn widen(self) -> i128 {
        i128::from(self)
    }

    fn plus(self, other: i64) -> i64 {
        self + other
    }

    fn minus(self, other: i64) -> i64 {
        self - other
    }

    fn product(a: i64, b: i64) -> i64 {
        a * b
    }

    fn is_less(self, other: i64) -> bool {
        self < other
    }

    ghost enough = { record { pair = lit≤ tt; start = lit≤ tt; reach = lit≤ tt; sum = lit≤ tt; value = lit≤ tt; positive = lit< tt; small = lit≤ tt } };
}

impl Number for i128 {
    ghost value = { λ x. x };

    ghost limits = { record { size = 256; cost = 2 ^ 20 * 10 ^ 18; dual = 10 ^ 24; pair = 10 ^ 25; start = 10 ^ 28; reach = 10 ^ 29; sum = 10 ^ 30 } };

    fn most_size() -> usize {
        256
    }

    fn most_cost() -> u128 {
        1_048_576_000_000_000_000_000_000
    }

    fn most_dual() -> u128 {
        1_000_000_000_000_000_000_000_000
    }

    fn narrow(number: i128) -> i128 {
        number
    }

    fn widen(self) -> i128 {
        self
    }

    fn plus(self, other: i128) -> i128 {
        self + other
    }

    fn minus(self, other: i128) -> i128 {
        self - other
    }

    fn product(a: i64, b: i64) -> i128 {
        i128::from(a) * i128::from(b)
    }

    fn is_less(self, other: i128) -> bool {
        self < other
    }

    ghost enough = { record { pair = lit≤ tt; start = lit≤ tt; reach = lit≤ tt; sum = lit≤ tt; value = lit≤ tt; positive = lit< tt; small = lit≤ tt } };
}
