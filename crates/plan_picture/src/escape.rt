//! Names as text of an XML or HTML document.

ghost use Rattle.std.specs.Prelude.{◌≡◌, ◌++◌, IfOk, OnOk};
ghost use Rattle.std.specs.Char.{encode_utf8};
ghost use Rattle.std.specs.Str.Lossy.{utf8_lossy};
ghost use Rattle.plan_picture.specs.Escaping.{escaped, escaped_char, is_xml_char, plain_char};

use std::alloc::{AllocError, Global};

/// The text with each character that has a meaning in XML written as its entity, each that no document may have as
/// U+FFFD, and each tab or carriage return as a blank; line feeds stay.
pub fn escaped(alloc: Global, text: &str) -> Result<Vec<u8>, AllocError>
    ensures { IfOk result (λ v. v.items ≡ escaped text.now) }
{
    let mut all = Vec::with_capacity(alloc, text.len())?;
    for letter in text.chars() {
        push_letter(&mut all, letter)?;
    }
    Ok(all)
}

/// Likewise for bytes: what is not UTF-8 is replaced first.
pub fn escaped_bytes(alloc: Global, bytes: &[u8]) -> Result<Vec<u8>, AllocError>
    ensures { IfOk result (λ v. v.items ≡ escaped (utf8_lossy bytes.now)) }
{
    let text = String::from_utf8_lossy(alloc, bytes)?;
    escaped(alloc, text.as_str())
}

/// Appends a character to the text, escaped.
fn push_letter(text: &mut Vec<u8>, letter: char) -> Result<(), AllocError>
    ensures { OnOk result (text.new.items ≡ text.old.items ++ escaped_char letter) }
{
    match letter {
        '&' => text.extend_from_slice(b"&amp;"),
        '<' => text.extend_from_slice(b"&lt;"),
        '>' => text.extend_from_slice(b"&gt;"),
        '"' => text.extend_from_slice(b"&quot;"),
        _ => push_plain(text, letter),
    }
}

/// Appends a character without a meaning of its own to the text.
fn push_plain(text: &mut Vec<u8>, letter: char) -> Result<(), AllocError>
    ensures { OnOk result (text.new.items ≡ text.old.items ++ plain_char letter) }
{
    if !is_xml_char(letter) {
        return push_encoded(text, '\u{fffd}');
    }
    if letter < ' ' && letter != '\n' {
        return text.extend_from_slice(b" ");
    }
    push_encoded(text, letter)
}

/// Whether a document may have a character.
fn is_xml_char(letter: char) -> bool
    ensures { result ≡ is_xml_char letter }
{
    matches!(
        letter,
        '\t' | '\n' | '\r' | ' '..='\u{d7ff}' | '\u{e000}'..='\u{fffd}' | '\u{10000}'..='\u{10ffff}'
    )
}

/// Puts a character at the end of the text as UTF-8 spells it.
fn push_encoded(text: &mut Vec<u8>, letter: char) -> Result<(), AllocError>
    ensures { OnOk result (text.new.items ≡ text.old.items ++ encode_utf8 letter) }
{
    let mut bytes = [0; 4];
    text.extend_from_slice(letter.encode_utf8(&mut bytes).as_bytes())
}
