//! How texts are broken into lines.

ghost use Rattle.std.specs.Prelude.{◌≡◌, ◌<◌, ◌++◌, [], IfOk, MatchOption, length, map};
ghost use Rattle.std.specs.List.{concat};

use std::alloc::{AllocError, Global};
use unicode_width::UnicodeWidthChar;

/// The lines of a text, each of at most this many columns, broken behind blanks where possible; of an empty text none.
pub fn wrapped<'a>(alloc: Global, text: &'a str, columns: usize) -> Result<Vec<&'a str>, AllocError>
    ensures { IfOk result (λ lines. concat (map (λ line. line.now) lines.items) ≡ text.now) }
{
    let mut lines = Vec::new(alloc);
    let mut rest = text;
    while let Some((line, more)) = first_line(rest, columns) {
        lines.push(line)?;
        rest = more;
    }
    Ok(lines)
}

/// The first line of a text, and what follows it.
fn first_line(text: &str, columns: usize) -> Option<(&str, &str)>
    ensures { MatchOption result (text.now ≡ []) (λ both. (text.now ≡ both.0.now ++ both.1.now) × (length both.1.now < length text.now)) }
{
    if text.is_empty() {
        return None;
    }
    let end = text.floor_char_boundary(line_end(text, columns));
    let end = if end == 0 { text.len() } else { end };
    Some(text.split_at(end))
}

/// Where the first line of a text ends: behind the last blank that fits, or with what fits.
fn line_end(text: &str, columns: usize) -> usize {
    let mut room = columns;
    let mut behind_blank = 0;
    for (at, letter) in text.char_indices() {
        let needed = if letter == ' ' { 0 } else { columns_of(letter) };
        if needed > room {
            return if behind_blank > 0 { behind_blank } else { at };
        }
        room = room.saturating_sub(columns_of(letter));
        if letter == ' ' {
            behind_blank = at.saturating_add(1);
        }
    }
    text.len()
}

/// How many columns a character takes in a font whose letters are equally wide.
fn columns_of(letter: char) -> usize {
    letter.width().unwrap_or(0)
}
