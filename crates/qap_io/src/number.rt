// Numbers by their sign and size, and numbers counted from 1.
ghost use Rattle.std.specs.Prelude.{◌≡◌, ◌≢◌, ◌≤◌, ◌<◌, ◌^◌, ◌+◌, ℕ, pos, neg_ℤ, MatchOption};

/// A number beyond this one is read as this one: it is outside every range that the text of an instance, a solution or
/// a certificate may use.
pub const MAX_READ: u128 = 10_000_000_000_000_000_000_000_000;

/// The number with a minus sign before it.
pub fn negated(magnitude: u128) -> i128
    requires { magnitude ≤ 2 ^ 127 }
    ensures { result ≡ neg_ℤ (pos magnitude) }
{
    if magnitude == 0 {
        0
    } else {
        -1 - (magnitude - 1) as i128
    }
}

/// A number counted from 1, of `count` many, as counted from 0; `None` if it is out of range.
pub fn from_one(number: i128, count: usize) -> Option<u16>
    requires { count ≤ 65536 }
    ensures { MatchOption result
        ((k : ℕ) → k < count → number ≢ pos (k + 1))
        (λ k. (k < count) × (number ≡ pos (k + 1))) }
{
    if number < 1 || number > count as i128 {
        None
    } else {
        Some((number - 1) as u16)
    }
}
