//! Positions in a text.

use std::fmt;

/// A place in a text: its line, and the character in that line, both counted from 1.
#[derive(Clone, Copy, Debug, PartialEq, Eq)]
pub struct TextPlace {
    pub line: usize,
    pub column: usize,
}

impl TextPlace {
    /// The position after the first bytes of a text.
    pub fn behind(before: &[u8]) -> TextPlace {
        let mut place = TextPlace { line: 1, column: 1 };
        for byte in before {
            if *byte == b'\n' {
                place.line = place.line.saturating_add(1);
                place.column = 1;
            } else if *byte & 0xC0 != 0x80 {
                place.column = place.column.saturating_add(1);
            }
        }
        place
    }
}

impl fmt::Display for TextPlace {
    fn fmt<W: fmt::Write>(&self, f: &mut fmt::Formatter<W>) -> fmt::Result {
        write!(f, "line {}, column {}", self.line, self.column)
    }
}
