//! The words of a text.

ghost use Rattle.std.specs.Prelude.{◌≡◌, ◌≤◌, length, MatchOption};
ghost use Rattle.qap_text.specs.Word.{is_separator as separator_of, after_separators, IsWordAt, HasNoWord, IsFirstThatIs};

/// The position of a word in a text: from its first byte up to the position after its last.
#[derive(Clone, Copy)]
pub struct Word {
    pub start: usize,
    pub stop: usize,
}

/// The first word from a position on, if there is one.
pub fn next_word(text: &[u8], from: usize) -> Option<Word>
    requires { from ≤ length text.now }
    ensures { MatchOption result (HasNoWord text.now from) (λ w. IsWordAt text.now from w.start w.stop) }
{
    let start = first_place(text, from, false);
    if start == text.len() {
        return None;
    }
    let stop = first_place(text, start, true);
    Some(Word { start, stop })
}

/// The text after its leading white space and commas. No byte is copied.
pub fn skip_separators(text: &[u8]) -> &[u8]
    ensures { result.now ≡ after_separators text.now }
{
    let start = first_place(text, 0, false);
    &text[start..]
}

/// The first position from one on whose byte is a separator, or is not, as `separator` says; otherwise the text's end.
fn first_place(text: &[u8], from: usize, separator: bool) -> usize
    requires { from ≤ length text.now }
    ensures { IsFirstThatIs separator text.now from result }
{
    for i in from..text.len() {
        if is_separator(text[i]) == separator {
            return i;
        }
    }
    text.len()
}

/// Whether the byte separates words: white space, or a comma.
fn is_separator(byte: u8) -> bool
    ensures { result ≡ separator_of byte }
{
    matches!(byte, 9..=13 | b' ' | b',')
}
