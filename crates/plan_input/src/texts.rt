//! The texts of files.

ghost use Rattle.std.specs.Prelude.{ℕ, List, IfOk};

use crate::loading::LoadError;
use qap_io::Counted;
use qap_text::{MAX_INPUT, TextError, read_all};
use std::alloc::Global;
use std::fs::{self, Files};

/// Where texts come from, by name.
pub trait Texts {
    /// Holds of a name and the bytes that may stand under it.
    ghost holds: { Self → List ℕ → List ℕ → Type 0 };

    /// All bytes under a name.
    fn read(&self, alloc: Global, name: &str) -> Result<Vec<u8>, LoadError>
        ensures { IfOk result (λ bytes. holds self.now name.now bytes.items) };
}

/// The files of a system. No contract says what they contain, so that any bytes may stand under a name.
#[derive(Drop)]
pub struct Disk<'a, R> {
    pub files: &'a R,
}

impl<R: Files> Texts for Disk<'_, R> {
    ghost holds = { λ _ _ _. Unit {0} };

    fn read(&self, alloc: Global, name: &str) -> Result<Vec<u8>, LoadError> {
        let Ok(opened) = fs::open(self.files, name) else {
            let file = String::from_str(alloc, name)?;
            return Err(LoadError::Unread { file });
        };
        match read_all(alloc, &mut Counted::new(opened), MAX_INPUT) {
            Ok(bytes) => Ok(bytes),
            Err(TextError::OutOfMemory) => Err(LoadError::OutOfMemory),
            Err(TextError::InputTooLong) => {
                let file = String::from_str(alloc, name)?;
                Err(LoadError::TooLong { file })
            }
            Err(_) => {
                let file = String::from_str(alloc, name)?;
                Err(LoadError::Unread { file })
            }
        }
    }
}
