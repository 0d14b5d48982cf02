//! Why a certificate is refused.

use qap_io::{Device, Refusal};
use qap_lines::WriteError;
use std::alloc::AllocError;
use thiserror::Error;

/// Why a certificate is refused. Lines are counted from 1; a line past 2^64 - 1 is reported by that number.
#[derive(Clone, Copy, Debug, PartialEq, Eq, Error)]
pub enum CertError {
    /// The certificate is of another size than the instance.
    #[error("line {0}: the size is not the instance's")]
    SizeDiffers(u64),
    /// The first line is not that of a certificate.
    #[error("the first line is not that of a certificate")]
    BadHeader,
    /// The first line names an unknown version.
    #[error("the certificate's version is not known")]
    BadVersion,
    /// A line is malformed.
    #[error("line {0} is not spelled as it should be")]
    BadLine(u64),
    /// The text ends before this line does.
    #[error("the text ends in line {0}")]
    Truncated(u64),
    /// Something follows the last line.
    #[error("line {0} follows the last line")]
    TrailingText(u64),
    /// The permutation has another cost than is stated.
    #[error("line {0}: the permutation has another cost")]
    CostDiffers(u64),
    /// The locations do not list each of 1 to the size once.
    #[error("line {0}: the locations are no permutation")]
    PermBad(u64),
    /// A split occurs where no facility is free.
    #[error("line {0} splits where no facility is free")]
    SplitTooDeep(u64),
    /// A split names a facility that is already placed, or not below the size.
    #[error("line {0} splits on a facility that is not free")]
    FacilityTaken(u64),
    /// A bound does not have one dual for each free facility and each free location.
    #[error("line {0} has another number of duals")]
    DualCount(u64),
    /// A dual is outside -10^24 to 10^24.
    #[error("line {0} has a dual outside -10^24 to 10^24")]
    DualRange(u64),
    /// The duals do not fit the Gilmore-Lawler matrix.
    #[error("line {0}: the duals don't fit the reduced matrix")]
    NotFeasible(u64),
    /// The duals fit, but bound their part by less than the certificate's bound.
    #[error("line {0}: the duals bound their part by too little")]
    BoundTooLow(u64),
    /// A split does not have one child for each free location.
    #[error("line {0} splits into another number of children")]
    SplitWidth(u64),
    /// Memory ran out.
    #[error("out of memory")]
    OutOfMemory,
    /// The writer failed.
    #[error("the writer failed")]
    Device,
}

impl CertError {
    ghost use Rattle.std.specs.Prelude.{◌≡◌};
    ghost use Rattle.qap_cert.specs.Refusal.{certificate_refusal};

    /// The refusal with which the fault is reported: its number, its name, and its line if it has one.
    pub fn refusal(self) -> Refusal
        ensures { result ≡ certificate_refusal self }
    {
        match self {
            CertError::SizeDiffers(line) => Refusal::at(8, "SizeDiffers", line),
            CertError::BadHeader => Refusal::new(11, "BadHeader"),
            CertError::BadVersion => Refusal::new(12, "BadVersion"),
            CertError::BadLine(line) => Refusal::at(13, "BadLine", line),
            CertError::Truncated(line) => Refusal::at(14, "Truncated", line),
            CertError::TrailingText(line) => Refusal::at(15, "TrailingText", line),
            CertError::CostDiffers(line) => Refusal::at(16, "CostDiffers", line),
            CertError::PermBad(line) => Refusal::at(17, "PermBad", line),
            CertError::SplitTooDeep(line) => Refusal::at(18, "SplitTooDeep", line),
            CertError::DualCount(line) => Refusal::at(19, "DualCount", line),
            CertError::DualRange(line) => Refusal::at(20, "DualRange", line),
            CertError::NotFeasible(line) => Refusal::at(21, "NotFeasible", line),
            CertError::BoundTooLow(line) => Refusal::at(22, "BoundTooLow", line),
            CertError::SplitWidth(line) => Refusal::at(23, "SplitWidth", line),
            CertError::FacilityTaken(line) => Refusal::at(25, "FacilityTaken", line),
            CertError::OutOfMemory => Refusal::out_of_memory(),
            CertError::Device => Refusal::device(),
        }
    }
}

impl From<AllocError> for CertError {
    ghost use Rattle.std.specs.Prelude.{◌≡◌};
    ghost use Rattle.qap_cert.specs.declared.error.CertError.TheVariants.{OutOfMemory};

    ghost from_gives = { λ _ f. f ≡ OutOfMemory };

    fn from(_error: AllocError) -> CertError {
        CertError::OutOfMemory
    }
}

impl From<Device> for CertError {
    ghost use Rattle.std.specs.Prelude.{◌≡◌};
    ghost use Rattle.qap_cert.specs.declared.error.CertError.TheVariants.{Device as FailedDevice};

    ghost from_gives = { λ _ f. f ≡ FailedDevice };

    fn from(_error: Device) -> CertError {
        CertError::Device
    }
}

impl From<WriteError> for CertError {
    ghost use Rattle.std.specs.Prelude.{◌≡◌};
    ghost use Rattle.qap_cert.specs.Writing.{told_write};

    ghost from_gives = { λ e f. f ≡ told_write e };

    fn from(error: WriteError) -> CertError {
        match error {
            WriteError::OutOfMemory => CertError::OutOfMemory,
            WriteError::Device => CertError::Device,
        }
    }
}
