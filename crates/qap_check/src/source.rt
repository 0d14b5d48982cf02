//! The two texts of a request.

ghost use Rattle.std.specs.Prelude.{◌≡◌, ◌≤◌, drop, vec_len};

use qap_cost::Instance;
use std::marker::Model;

/// What becomes of the separators between an instance and the text that follows it on one input.
#[derive(Clone, Copy, Debug, PartialEq, Eq)]
pub enum Separators {
    /// They belong to the text.
    Kept,
    /// They are ignored.
    PassedOver,
}

/// An instance, and the text of a solution or a certificate that goes with it.
#[derive(Drop)]
pub struct Texts {
    pub instance: Instance,
    pub other: OtherText,
}

/// Bytes from a position on.
#[derive(Drop)]
pub struct OtherText {
    bytes: Vec<u8>,
    start: usize,
}

impl Model for OtherText {
    ghost use Rattle.std.specs.Prelude.{◌≤◌, List, ℕ, drop, vec_len};

    ghost Value = { List ℕ };

    ghost view = { λ t. drop t.start t.bytes.items };

    ghost invariant = { λ t. t.start ≤ vec_len t.bytes };
}

impl OtherText {
    /// The text, of which no byte is copied.
    pub fn as_slice(&self) -> &[u8]
        ensures { result.now ≡ self.now }
    {
        &self.bytes[self.start..]
    }

    /// What follows a place in a text.
    pub fn behind(bytes: Vec<u8>, start: usize) -> OtherText
        requires { start ≤ vec_len bytes }
        ensures { result ≡ drop start bytes.items }
    {
        OtherText { bytes, start }
    }

    /// A separate text.
    pub fn whole(bytes: Vec<u8>) -> OtherText
        ensures { result ≡ bytes.items }
    {
        OtherText { bytes, start: 0 }
    }
}
