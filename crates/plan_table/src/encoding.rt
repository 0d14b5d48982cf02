//! The encodings of tables.

ghost use Rattle.std.specs.Prelude.{◌≡◌, IfOk, IsUtf8};

use std::alloc::{AllocError, Global};

/// How the bytes of a text encode its characters.
#[derive(Clone, Copy, Debug, PartialEq, Eq)]
pub enum Encoding {
    Utf8,
    /// In pairs of bytes, as a byte order mark specifies.
    Utf16,
    /// One byte for each character, as older programs write texts of Western Europe.
    Windows1252,
}

/// A text in UTF-8, and the encoding that it had.
#[derive(Debug, Drop)]
pub struct Decoded {
    pub text: Vec<u8>,
    pub encoding: Encoding,
}

/// Windows-1252 has these at 0x80 to 0x9F, and U+FFFD if it has none.
const UPPER: [u16; 32] = [
    0x20AC, 0xFFFD, 0x201A, 0x0192, 0x201E, 0x2026, 0x2020, 0x2021, 0x02C6, 0x2030, 0x0160, 0x2039,
    0x0152, 0xFFFD, 0x017D, 0xFFFD, 0xFFFD, 0x2018, 0x2019, 0x201C, 0x201D, 0x2022, 0x2013, 0x2014,
    0x02DC, 0x2122, 0x0161, 0x203A, 0x0153, 0xFFFD, 0x017E, 0x0178,
];

/// A text in UTF-8: unchanged if it is UTF-8; from pairs of bytes if it begins with the byte order mark of UTF-16;
/// otherwise from Windows-1252.
pub fn decode(alloc: Global, bytes: Vec<u8>) -> Result<Decoded, AllocError>
    ensures same { IfOk result (λ decoded. IsUtf8 bytes.items → decoded.text.items ≡ bytes.items) }
{
    if std::str::from_utf8(&bytes).is_ok() {
        return Ok(Decoded {
            text: bytes,
            encoding: Encoding::Utf8,
        });
    }
    let (text, encoding) = if bytes.starts_with(&[0xFF, 0xFE]) {
        (from_utf16(alloc, &bytes, false)?, Encoding::Utf16)
    } else if bytes.starts_with(&[0xFE, 0xFF]) {
        (from_utf16(alloc, &bytes, true)?, Encoding::Utf16)
    } else {
        (from_windows_1252(alloc, &bytes)?, Encoding::Windows1252)
    };
    Ok(Decoded {
        text: text.into_bytes(),
        encoding,
    })
}

/// A text of pairs of bytes after its byte order mark, the higher byte first or last.
fn from_utf16(alloc: Global, bytes: &[u8], is_big: bool) -> Result<String, AllocError> {
    let mut text = String::new(alloc);
    let mut high: Option<u32> = None;
    for pair in bytes.chunks_exact(2).skip(1) {
        let (first, second) = (u32::from(pair[0]), u32::from(pair[1]));
        let unit = if is_big {
            first << 8 | second
        } else {
            second << 8 | first
        };
        match (high.take(), unit) {
            (Some(before), 0xDC00..=0xDFFF) => {
                push_code(&mut text, beyond(before, unit))?;
            }
            (before, _) => {
                if before.is_some() {
                    push_code(&mut text, 0xFFFD)?;
                }
                if (0xD800..0xDC00).contains(&unit) {
                    high = Some(unit);
                } else {
                    push_code(&mut text, unit)?;
                }
            }
        }
    }
    if high.is_some() {
        push_code(&mut text, 0xFFFD)?;
    }
    Ok(text)
}

/// The number of the character beyond U+FFFF that two surrogates represent.
fn beyond(high: u32, low: u32) -> u32 {
    0x10000_u32.wrapping_add((high & 0x3FF) << 10 | low & 0x3FF)
}

/// Appends a character to the text; U+FFFD if there is none of that number.
fn push_code(text: &mut String, code: u32) -> Result<(), AllocError> {
    text.push(char::from_u32(code).unwrap_or('\u{FFFD}'))
}

/// A text of one byte for each character.
fn from_windows_1252(alloc: Global, bytes: &[u8]) -> Result<String, AllocError> {
    let mut text = String::new(alloc);
    for byte in bytes {
        let code = match byte {
            0x80..=0x9F => u32::from(UPPER[usize::from(*byte - 0x80)]),
            _ => u32::from(*byte),
        };
        push_code(&mut text, code)?;
    }
    Ok(text)
}
