//! Why a proof is refused.

use qap_io::{Device, Refusal};
use qap_lines::WriteError;
use std::alloc::AllocError;
use thiserror::Error;

/// Why a proof is refused. Lines are counted from 1; a line past 2^64 - 1 is reported as that number.
#[derive(Clone, Copy, Debug, PartialEq, Eq, Error)]
pub enum ProofError {
    /// The proof is of another size than the instance.
    #[error("line {0}: the size is not the instance's")]
    SizeDiffers(u64),
    /// The first line is not that of a proof.
    #[error("the first line is not that of a proof")]
    BadHeader,
    /// The first line names an unknown version.
    #[error("the proof's version is not known")]
    BadVersion,
    /// A line is malformed.
    #[error("line {0} is not spelled as it should be")]
    BadLine(u64),
    /// The text ends before this line does.
    #[error("the text ends in line {0}")]
    Truncated(u64),
    /// Something follows the last line.
    #[error("line {0} follows the last line")]
    TrailingText(u64),
    /// The permutation has another cost than is stated.
    #[error("line {0}: the permutation has another cost")]
    CostDiffers(u64),
    /// The numbers do not list each of 1 to the size once.
    #[error("line {0}: the numbers are no permutation")]
    PermBad(u64),
    /// A split occurs where nothing is free.
    #[error("line {0} splits where nothing is free")]
    SplitTooDeep(u64),
    /// A split names a facility that is already placed, or not below the size.
    #[error("line {0} splits on a facility that is not free")]
    FacilityTaken(u64),
    /// A split names a location that is already taken, or not below the size.
    #[error("line {0} splits on a location that is not free")]
    LocationTaken(u64),
    /// There is not one dual for each free facility and each free location.
    #[error("line {0} has another number of duals")]
    DualCount(u64),
    /// A dual is outside -10^24 to 10^24.
    #[error("line {0} has a dual outside -10^24 to 10^24")]
    DualRange(u64),
    /// A pruned child of a split without duals.
    #[error("line {0} cuts a child where there are no duals")]
    CutWithoutDuals(u64),
    /// A child is symmetric to no earlier one of its split.
    #[error("line {0} is the image of no earlier child")]
    NoEarlierChild(u64),
    /// A split does not have one child for each free one of the other side.
    #[error("line {0} splits into another number of children")]
    SplitWidth(u64),
    /// The root is not a node with distinct facilities, ascending, at distinct locations.
    #[error("line {0} is no root")]
    RootBad(u64),
    /// The duals do not fit the Gilmore-Lawler matrix.
    #[error("line {0}: the duals don't fit the reduced matrix")]
    NotFeasible(u64),
    /// The duals fit, but bound their part by less than the proof's bound.
    #[error("line {0}: the duals bound their part by too little")]
    BoundTooLow(u64),
    /// The duals of a split bound a pruned child by less than the proof's bound.
    #[error("line {0}: the duals bound the child by too little")]
    CutTooLow(u64),
    /// A permutation does not preserve the matrix, moves what is placed, or does not map the earlier child to this one.
    #[error("line {0}: the permutation takes no earlier child to this one")]
    NotAnImage(u64),
    /// Memory ran out.
    #[error("out of memory")]
    OutOfMemory,
    /// The writer failed.
    #[error("the writer failed")]
    Device,
}

impl ProofError {
    ghost use Rattle.std.specs.Prelude.{◌≡◌};
    ghost use Rattle.qap_proof.specs.Refusal.{proof_refusal};

    /// The refusal that reports the fault: its number, its name, and its line if it has one.
    pub fn refusal(self) -> Refusal
        ensures { result ≡ proof_refusal self }
    {
        match self {
            ProofError::SizeDiffers(line) => Refusal::at(8, "SizeDiffers", line),
            ProofError::BadHeader => Refusal::new(11, "BadHeader"),
            ProofError::BadVersion => Refusal::new(12, "BadVersion"),
            ProofError::BadLine(line) => Refusal::at(13, "BadLine", line),
            ProofError::Truncated(line) => Refusal::at(14, "Truncated", line),
            ProofError::TrailingText(line) => Refusal::at(15, "TrailingText", line),
            ProofError::CostDiffers(line) => Refusal::at(16, "CostDiffers", line),
            ProofError::PermBad(line) => Refusal::at(17, "PermBad", line),
            ProofError::SplitTooDeep(line) => Refusal::at(18, "SplitTooDeep", line),
            ProofError::DualCount(line) => Refusal::at(19, "DualCount", line),
            ProofError::DualRange(line) => Refusal::at(20, "DualRange", line),
            ProofError::NotFeasible(line) => Refusal::at(21, "NotFeasible", line),
            ProofError::BoundTooLow(line) => Refusal::at(22, "BoundTooLow", line),
            ProofError::SplitWidth(line) => Refusal::at(23, "SplitWidth", line),
            ProofError::FacilityTaken(line) => Refusal::at(25, "FacilityTaken", line),
            ProofError::LocationTaken(line) => Refusal::at(26, "LocationTaken", line),
            ProofError::CutWithoutDuals(line) => Refusal::at(27, "CutWithoutDuals", line),
            ProofError::CutTooLow(line) => Refusal::at(28, "CutTooLow", line),
            ProofError::NoEarlierChild(line) => Refusal::at(29, "NoEarlierChild", line),
            ProofError::NotAnImage(line) => Refusal::at(52, "NotAnImage", line),
            ProofError::RootBad(line) => Refusal::at(53, "RootBad", line),
            ProofError::OutOfMemory => Refusal::out_of_memory(),
            ProofError::Device => Refusal::device(),
        }
    }
}

impl From<AllocError> for ProofError {
    ghost use Rattle.std.specs.Prelude.{◌≡◌};
    ghost use Rattle.qap_proof.specs.declared.error.ProofError.TheVariants.{OutOfMemory};

    ghost from_gives = { λ _ f. f ≡ OutOfMemory };

    fn from(_error: AllocError) -> ProofError {
        ProofError::OutOfMemory
    }
}

impl From<Device> for ProofError {
    ghost use Rattle.std.specs.Prelude.{◌≡◌};
    ghost use Rattle.qap_proof.specs.declared.error.ProofError.TheVariants.{Device as FailedDevice};

    ghost from_gives = { λ _ f. f ≡ FailedDevice };

    fn from(_error: Device) -> ProofError {
        ProofError::Device
    }
}

impl From<WriteError> for ProofError {
    ghost use Rattle.std.specs.Prelude.{◌≡◌};
    ghost use Rattle.qap_proof.specs.Writing.{told_write};

    ghost from_gives = { λ e f. f ≡ told_write e };

    fn from(error: WriteError) -> ProofError {
        match error {
            WriteError::OutOfMemory => ProofError::OutOfMemory,
            WriteError::Device => ProofError::Device,
        }
    }
}
