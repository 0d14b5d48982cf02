//! Where the files of a run come from.

ghost use Rattle.std.specs.Prelude.{◌≡◌, ℕ, List, IfErr, IfOk};
ghost use Rattle.qap_verify.specs.Naming.{IsReaderOf};

use crate::refusal::VerifyError;
use std::fs::{self, File};
use std::io::Read;

/// Where readers of files come from, by name.
pub trait Sources<F: Read> {
    /// Holds of a name and the bytes that its file may contain.
    ghost holds: { Self → List ℕ → List ℕ → Type 0 };

    /// Opens the file of a name for reading.
    fn open(&self, name: &str) -> Result<F, VerifyError>
        ensures reader { IfOk result (IsReaderOf (holds self.now) F.remaining name.now) }
        ensures refused { IfErr result (λ error. error ≡ VerifyError.Device) };
}

/// The files of the system. No contract says what they contain, so that any bytes may be there.
#[derive(Drop)]
pub struct System<'a> {
    pub rt: &'a HostRuntime,
}

impl Sources<File> for System<'_> {
    ghost holds = { λ _ _ _. Unit {0} };

    fn open(&self, name: &str) -> Result<File, VerifyError> {
        match fs::open(self.rt, name) {
            Ok(file) => Ok(file),
            Err(_) => Err(VerifyError::Device),
        }
    }
}
