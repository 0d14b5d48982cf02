//! Short words, in place.

ghost use Rattle.std.specs.Prelude.{◌≡◌, ◌≤◌, IfSome, length, take};
ghost use Rattle.std.specs.Str.{IsUtf8};

use std::marker::Model;

/// The most bytes of a word in place, by which a field stays at 32 bytes.
const MOST_BYTES: usize = 30;

/// A word of at most 30 bytes, in place.
#[derive(Debug, Drop)]
pub struct ShortWord {
    count: u8,
    bytes: [u8; MOST_BYTES],
}

impl Model for ShortWord {
    ghost use Rattle.std.specs.Prelude.{◌≡◌, ◌≤◌, List, ℕ, length, take};
    ghost use Rattle.std.specs.Str.{IsUtf8};

    ghost Value = { List ℕ };

    ghost view = { λ w. take w.count w.bytes };

    ghost invariant = { λ w. (length w.bytes ≡ 30) × (w.count ≤ 30) × IsUtf8 (take w.count w.bytes) };
}

impl ShortWord {
    /// The word in place, or `None` if it has too many bytes.
    pub(crate) fn of(word: &str) -> Option<ShortWord>
        ensures { IfSome result (λ short. short ≡ word.now) }
    {
        let mut bytes = [0; MOST_BYTES];
        let count = u8::try_from(word.len()).ok()?;
        if word.len() > MOST_BYTES {
            return None;
        }
        put(&mut bytes, word.as_bytes());
        Some(ShortWord { count, bytes })
    }

    /// The bytes of the word.
    pub fn as_bytes(&self) -> &[u8]
        ensures value { result.now ≡ self.now }
        ensures text { IsUtf8 result.now }
    {
        &self.bytes[..usize::from(self.count)]
    }

    /// The text of the word.
    pub(crate) fn as_str(&self) -> &str
        ensures { result.now ≡ self.now }
    {
        str::from_utf8(self.as_bytes()).unwrap()
    }

    /// The same word once more.
    pub(crate) fn copy(&self) -> ShortWord
        ensures { result ≡ self.now }
    {
        ShortWord {
            count: self.count,
            bytes: self.bytes,
        }
    }
}

/// Puts the bytes at the beginning of the buffer.
fn put(room: &mut [u8], bytes: &[u8])
    requires { length bytes.now ≤ length room.old }
    ensures front { take (length bytes.now) room.new ≡ bytes.now }
    ensures same_length { length room.new ≡ length room.old }
{
    room[..bytes.len()].copy_from_slice(bytes);
}
