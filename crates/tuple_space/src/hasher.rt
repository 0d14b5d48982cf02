//! Hashes of numbers under which consecutive numbers are adjacent.

ghost use Rattle.std.specs.Prelude.{◌≡◌};
ghost use Rattle.tuple_space.specs.Hasher as hashing;

use std::hash::{BuildHasher, Hasher};

/// How many numbers in a row have the same place in a table, whose place holds twelve.
const IN_A_ROW: u64 = 4;

/// The fraction of the golden ratio in 64 bits, which is odd: multiples of it are spread well (Knuth, The Art of Computer Programming,
/// volume 3, section 6.4).
const MULTIPLIER: u64 = 0x9e37_79b9_7f4a_7c15;

/// Hashes a number so that a map finds it in the same cache line as the next three, and other groups of four in other
/// lines. A space writes and takes entries with consecutive numbers, so these are found with fewer accesses to memory
/// that another processor wrote last. No answer depends on the hash of a number.
#[derive(Clone, Copy, Debug)]
pub(crate) struct NumberHasher {
    hash: u64,
}

impl NumberHasher {
    /// One that has hashed nothing.
    pub(crate) fn new() -> NumberHasher {
        NumberHasher { hash: 0 }
    }
}

impl BuildHasher for NumberHasher {
    type Hasher = NumberHasher;

    ghost build_hasher = { λ builder. builder };

    fn build_hasher(&self) -> NumberHasher {
        *self
    }
}

impl Hasher for NumberHasher {
    ghost write = { hashing.write };

    ghost finish = { λ hasher. hasher.hash };

    fn finish(&self) -> u64 {
        self.hash
    }

    /// The hash of the number that the first eight bytes are, the lowest first.
    fn write(&mut self, bytes: &[u8]) {
        let Some(bytes) = bytes.first_chunk::<8>() else {
            return;
        };
        let number = u64::from_le_bytes(*bytes);
        let spread = (number / IN_A_ROW).wrapping_mul(MULTIPLIER) >> 32;
        self.hash = spread ^ (number % IN_A_ROW) << 30;
    }
}
