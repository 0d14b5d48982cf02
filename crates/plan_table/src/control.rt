//! Control characters, which no name may have and no message shows unescaped.

ghost use Rattle.std.specs.Prelude.{◌≡◌, ◌++◌, find, IfOk, OnOk};
ghost use Rattle.std.specs.Char.{is_control};
ghost use Rattle.std.specs.Str.{chars};
ghost use Rattle.std.specs.String.{string_bytes};
ghost use Rattle.plan_table.specs.Control.{shown_char, shown_chars};

use std::alloc::{AllocError, Global};
use std::fmt::Write;

/// The first control character of a text, U+0000 to U+001F or U+007F to U+009F.
pub fn first_control(text: &str) -> Option<char>
    ensures { result ≡ find is_control (chars text.now) }
{
    text.chars().find(|c| c.is_control())
}

/// A word of the input as messages show it: each control character as `\u{..}`.
pub fn shown(alloc: Global, word: &str) -> Result<String, AllocError>
    ensures { IfOk result (λ text. string_bytes text ≡ shown_chars (chars word.now)) }
{
    let mut text = String::new(alloc);
    for letter in word.chars() {
        push_shown(&mut text, letter)?;
    }
    Ok(text)
}

/// Puts a character at the end of the text as messages show it.
fn push_shown(text: &mut String, letter: char) -> Result<(), AllocError>
    ensures { OnOk result (string_bytes text.new ≡ string_bytes text.old ++ shown_char letter) }
{
    if letter.is_control() {
        let code = u32::from(letter);
        write!(text, "\\u{{{code:x}}}")
    } else {
        text.push(letter)
    }
}
