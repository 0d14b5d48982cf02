//! The bytes of files, and the texts in them.

ghost use Rattle.std.specs.Prelude.{IfOk};
ghost use Rattle.plan_files.specs.Sources.{IsTextIn};

use crate::error::PlannerError;
use crate::refusal::Refusal;
use plan_input::{LoadError, Texts};
use plan_table::decode;
use qap_text::TextError;
use std::alloc::Global;

/// All bytes of a file.
pub fn bytes_in<'a, D: Texts>(
    alloc: Global,
    texts: &D,
    file: &'a str,
) -> Result<Vec<u8>, Refusal<'a>>
    ensures { IfOk result (λ bytes. D.holds texts.now file.now bytes.items) }
{
    match texts.read(alloc, file) {
        Ok(bytes) => Ok(bytes),
        Err(error) => Err(Refusal::File(file, read_fault(error))),
    }
}

/// The text of a file, which is in one of several encodings.
pub fn text_in<'a, D: Texts>(
    alloc: Global,
    texts: &D,
    file: &'a str,
) -> Result<Vec<u8>, Refusal<'a>>
    ensures { IfOk result (λ text. IsTextIn (D.holds texts.now) file.now text.items) }
{
    let bytes = bytes_in(alloc, texts, file)?;
    match decode(alloc, bytes) {
        Ok(decoded) => Ok(decoded.text),
        Err(_) => Err(Refusal::File(file, PlannerError::OutOfMemory)),
    }
}

/// Why a file cannot be read.
fn read_fault(error: LoadError) -> PlannerError {
    match error {
        LoadError::OutOfMemory => PlannerError::OutOfMemory,
        LoadError::TooLong { .. } => PlannerError::Text(TextError::InputTooLong),
        _ => PlannerError::Device,
    }
}
