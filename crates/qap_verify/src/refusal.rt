//! Why a run yields no verdict, and how that is reported.

ghost use Rattle.std.specs.Prelude.{◌≡◌, MatchResult};
ghost use Rattle.qap_io.specs.Refusal.{refusal_line};
ghost use Rattle.qap_io.specs.Writing.{Sends, BreaksOff};
ghost use Rattle.qap_verify.specs.Refusal.{refusal_of, status_of};
ghost use Rattle.qap_verify.specs.declared.refusal.VerifyError.TheVariants.{OutOfMemory as WantOfMemory, Device as FailedDevice};

use qap_io::{Counted, Device, Refusal, Status};
use qap_proof::ProofError;
use qap_text::TextError;
use std::alloc::AllocError;
use std::io::Write;
use thiserror::Error;

/// Why a run answers no verdict.
#[derive(Clone, Copy, Debug, PartialEq, Eq, Error)]
pub enum VerifyError {
    /// An input is too long, or a text in it is at fault.
    #[error("{0}")]
    Text(TextError),
    /// The proof is at fault.
    #[error("{0}")]
    Proof(ProofError),
    /// Memory ran out.
    #[error("out of memory")]
    OutOfMemory,
    /// A reader or the writer failed.
    #[error("a reader or the writer failed")]
    Device,
}

impl From<TextError> for VerifyError {
    ghost use Rattle.qap_verify.specs.Refusal.{of_text};

    ghost from_gives = { λ e f. f ≡ of_text e };

    fn from(error: TextError) -> VerifyError {
        match error {
            TextError::OutOfMemory => VerifyError::OutOfMemory,
            TextError::Device => VerifyError::Device,
            _ => VerifyError::Text(error),
        }
    }
}

impl From<ProofError> for VerifyError {
    ghost use Rattle.qap_verify.specs.Refusal.{of_proof};

    ghost from_gives = { λ e f. f ≡ of_proof e };

    fn from(error: ProofError) -> VerifyError {
        match error {
            ProofError::OutOfMemory => VerifyError::OutOfMemory,
            ProofError::Device => VerifyError::Device,
            _ => VerifyError::Proof(error),
        }
    }
}

impl From<AllocError> for VerifyError {
    ghost from_gives = { λ _ f. f ≡ WantOfMemory };

    fn from(_error: AllocError) -> VerifyError {
        VerifyError::OutOfMemory
    }
}

impl From<Device> for VerifyError {
    ghost from_gives = { λ _ f. f ≡ FailedDevice };

    fn from(_error: Device) -> VerifyError {
        VerifyError::Device
    }
}

/// The exit status of a refusal: 3 if memory ran out, else 1.
pub fn status(error: &VerifyError) -> u8
    ensures { result ≡ status_of error.now }
{
    let status = match error {
        VerifyError::OutOfMemory => Status::OutOfMemory,
        _ => Status::Refused,
    };
    status.code()
}

/// Writes the line that reports a refusal: `refused`, its number and name, and `at` with its place or its line if it
/// carries one; and flushes the writer. If that fails, a prefix of the line has been written.
pub fn fault_line<W: Write>(error: &VerifyError, writer: &mut Counted<W>) -> Result<(), Device>
    ensures { MatchResult result
        (λ _. Sends W.contents writer.old writer.new (refusal_line (refusal_of error.now)))
        (λ _. BreaksOff W.contents writer.old writer.new (refusal_line (refusal_of error.now))) }
{
    refusal(*error).send(writer)
}

/// The refusal that reports a run's error.
fn refusal(error: VerifyError) -> Refusal
    ensures { result ≡ refusal_of error }
{
    match error {
        VerifyError::Text(fault) => fault.refusal(),
        VerifyError::Proof(fault) => fault.refusal(),
        VerifyError::OutOfMemory => Refusal::out_of_memory(),
        VerifyError::Device => Refusal::device(),
    }
}
