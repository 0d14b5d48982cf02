//! Why a proof establishes nothing about an answer, and how to fix it.

use qap_proof::ProofError;
use std::alloc::AllocError;
use thiserror::Error;

/// Why a proof establishes nothing about an answer.
#[derive(Debug, Drop, Error)]
pub enum ProofFault {
    /// It is not a proof for the instance.
    #[error("the proof is refused: {0}: name the one that `qapplan solve --proof` wrote with this answer")]
    Refused(ProofError),
    /// It is one over other arrangements.
    #[error("the proof is not over all arrangements that keep what is fixed: name the one that `qapplan solve --proof` wrote with this answer")]
    OtherRoot,
    /// Its own arrangement has another cost.
    #[error("the proof is of an arrangement that costs {cost}: name the one that `qapplan solve --proof` wrote with this answer")]
    OtherCost { cost: String },
    /// Memory ran out.
    #[error("out of memory")]
    OutOfMemory,
}

impl From<AllocError> for ProofFault {
    ghost use Rattle.std.specs.Prelude.{◌≡◌};
    ghost use Rattle.plan_check.specs.declared.fault.ProofFault.TheVariants.{OutOfMemory};

    ghost from_gives = { λ _ e. e ≡ OutOfMemory };

    fn from(_error: AllocError) -> ProofFault {
        ProofFault::OutOfMemory
    }
}
