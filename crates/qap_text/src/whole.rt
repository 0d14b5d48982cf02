//! A reader's bytes as one text.

ghost use Rattle.std.specs.Prelude.{◌-◌, ◌≤◌, ℕ, MatchResult, length, vec_len};
ghost use Rattle.qap_text.specs.Whole.{ReadsWhole, ReadsBehind, ReadsFront, IsReadFault};

use crate::TextError;
use qap_io::{Counted, read_some};
use std::alloc::Global;
use std::io::Read;

/// The most bytes that a program reads of an input: 1 GiB.
pub const MAX_INPUT: usize = 1_073_741_824;

/// How many bytes are requested at once.
const PIECE: usize = 32_768;

/// Reads all the bytes that a reader has left, if they are at most `limit`. It stops at the first read that fails.
pub fn read_all<R: Read>(
    alloc: Global,
    reader: &mut Counted<R>,
    limit: usize,
) -> Result<Vec<u8>, TextError>
    ensures { MatchResult result
        (λ v. ReadsWhole R.remaining limit reader.old reader.new v.items)
        (IsReadFault R.remaining limit reader.old reader.new) }
{
    read_behind(Vec::new(alloc), reader, limit)
}

/// Reads all the bytes that a reader has left, behind bytes that were read before, if all are at most `limit`. It stops
/// at the first read that fails.
pub fn read_behind<R: Read>(
    front: Vec<u8>,
    reader: &mut Counted<R>,
    limit: usize,
) -> Result<Vec<u8>, TextError>
    requires { vec_len front ≤ limit }
    ensures { MatchResult result
        (λ v. ReadsBehind R.remaining limit reader.old reader.new front.items v.items)
        (IsReadFault R.remaining (limit - length front.items) reader.old reader.new) }
{
    let mut bytes = front;
    let mut piece = [0; PIECE];
    loop {
        let count = read_some(reader, &mut piece)?;
        if count == 0 {
            return Ok(bytes);
        }
        if limit - bytes.len() < count {
            return Err(TextError::InputTooLong);
        }
        bytes.extend_from_slice(&piece[..count])?;
    }
}

/// Reads the first bytes that a reader has left: `count` of them, or all if there are fewer. It stops at the first read
/// that fails.
pub fn read_front<R: Read>(
    alloc: Global,
    reader: &mut Counted<R>,
    count: usize,
) -> Result<Vec<u8>, TextError>
    ensures { MatchResult result
        (λ v. ReadsFront R.remaining count reader.old reader.new v.items)
        (λ e. (limit : ℕ) → IsReadFault R.remaining limit reader.old reader.new e) }
{
    let mut bytes = Vec::with_capacity(alloc, count)?;
    let mut byte = [0; 1];
    while bytes.len() < count {
        if read_some(reader, &mut byte)? == 0 {
            break;
        }
        bytes.extend_from_slice(&byte)?;
    }
    Ok(bytes)
}
