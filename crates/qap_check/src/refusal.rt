//! Why a run yields no verdict, and how that is reported.

ghost use Rattle.std.specs.Prelude.{◌≡◌, MatchResult};
ghost use Rattle.qap_io.specs.Refusal.{refusal_line};
ghost use Rattle.qap_io.specs.Writing.{Sends, BreaksOff};
ghost use Rattle.qap_check.specs.Refusal.{refusal_of, status_of};
ghost use Rattle.qap_check.specs.declared.refusal.CheckError.TheVariants.{OutOfMemory as WantOfMemory, Device as FailedDevice};

use qap_cert::CertError;
use qap_io::{Counted, Device, Refusal, Status};
use qap_text::TextError;
use std::alloc::AllocError;
use std::io::Write;
use thiserror::Error;

/// Why a run answers no verdict.
#[derive(Clone, Copy, Debug, PartialEq, Eq, Error)]
pub enum CheckError {
    /// An input is too long, or a text in it is at fault.
    #[error("{0}")]
    Text(TextError),
    /// The certificate is at fault.
    #[error("{0}")]
    Certificate(CertError),
    /// Memory ran out.
    #[error("out of memory")]
    OutOfMemory,
    /// A reader or the writer failed.
    #[error("a reader or the writer failed")]
    Device,
}

impl From<TextError> for CheckError {
    ghost use Rattle.qap_check.specs.Refusal.{of_text};

    ghost from_gives = { λ e f. f ≡ of_text e };

    fn from(error: TextError) -> CheckError {
        match error {
            TextError::OutOfMemory => CheckError::OutOfMemory,
            TextError::Device => CheckError::Device,
            _ => CheckError::Text(error),
        }
    }
}

impl From<CertError> for CheckError {
    ghost use Rattle.qap_check.specs.Refusal.{of_certificate};

    ghost from_gives = { λ e f. f ≡ of_certificate e };

    fn from(error: CertError) -> CheckError {
        match error {
            CertError::OutOfMemory => CheckError::OutOfMemory,
            CertError::Device => CheckError::Device,
            _ => CheckError::Certificate(error),
        }
    }
}

impl From<AllocError> for CheckError {
    ghost from_gives = { λ _ f. f ≡ WantOfMemory };

    fn from(_error: AllocError) -> CheckError {
        CheckError::OutOfMemory
    }
}

impl From<Device> for CheckError {
    ghost from_gives = { λ _ f. f ≡ FailedDevice };

    fn from(_error: Device) -> CheckError {
        CheckError::Device
    }
}

/// The exit status of a refusal: 3 if memory ran out, else 1.
pub fn status(error: &CheckError) -> u8
    ensures { result ≡ status_of error.now }
{
    let status = match error {
        CheckError::OutOfMemory => Status::OutOfMemory,
        _ => Status::Refused,
    };
    status.code()
}

/// Writes the line that reports a refusal: `refused`, its number and name, and `at` with its place or its line if it
/// carries one; and flushes the writer. If that fails, a prefix of the line has been written.
pub fn fault_line<W: Write>(error: &CheckError, writer: &mut Counted<W>) -> Result<(), Device>
    ensures { MatchResult result
        (λ _. Sends W.contents writer.old writer.new (refusal_line (refusal_of error.now)))
        (λ _. BreaksOff W.contents writer.old writer.new (refusal_line (refusal_of error.now))) }
{
    refusal(*error).send(writer)
}

/// The refusal that reports a run's error.
fn refusal(error: CheckError) -> Refusal
    ensures { result ≡ refusal_of error }
{
    match error {
        CheckError::Text(fault) => fault.refusal(),
        CheckError::Certificate(fault) => fault.refusal(),
        CheckError::OutOfMemory => Refusal::out_of_memory(),
        CheckError::Device => Refusal::device(),
    }
}
