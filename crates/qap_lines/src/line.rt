//! Lines of a text.

ghost use Rattle.std.specs.Prelude.{MatchOption};
ghost use Rattle.qap_lines.specs.Line.{HasNoLine, IsLine};

use memchr::memchr;

/// A line of a text, without the line feed that ends it, and what follows that.
#[derive(Clone, Copy)]
pub struct Line<'a> {
    pub bytes: &'a [u8],
    pub rest: &'a [u8],
}

/// The first line of a text; `None` if there is no line feed.
pub fn first_line(text: &[u8]) -> Option<Line<'_>>
    ensures { MatchOption result (HasNoLine text.now) (λ l. IsLine text.now l.bytes.now l.rest.now) }
{
    match memchr(b'\n', text) {
        Some(end) => Some(Line {
            bytes: &text[..end],
            rest: &text[end + 1..],
        }),
        None => None,
    }
}
