//! What a run has found, as its outputs tell it.

ghost use Rattle.std.specs.Prelude.{◌≡◌, ℕ, IfOk, IfSome, List};
ghost use Rattle.qap_io.specs.declared.status.Status.{Status};
ghost use Rattle.qap_plan.specs.Outcome.{status_of as status_for};
ghost use Rattle.qap_plan.specs.Proofs.{TellsProof};
ghost use Rattle.plan_files.specs.Outputs.{IsSuccess};
ghost use Rattle.qap_plan.specs.declared.output.outcome.Kind.{Kind};

use crate::output::proof_file::AnswerProof;
use plan_files::PlannerError;
use qap_io::Status;
use std::alloc::Global;

/// An output of a run, apart from its proof.
#[derive(Clone, Copy)]
pub enum Kind {
    /// The answer in words.
    Answer,
    Json,
    /// A table of departments and places.
    Table,
    Picture,
    Report,
}

/// What a run has found, with the text of each of its outputs, and its proof.
pub trait Outcome {
    /// The text of an output can be made.
    ghost is_sound: { Self → Type 0 };

    /// What the text of an output tells.
    ghost tells: { Self → Kind → List ℕ → Type 0 };

    /// What the text of the proof tells.
    ghost proves: { Self → List ℕ → Type 0 };

    /// How the run ends if all outputs are written.
    ghost ends: { Self → Status };

    fn text(&self, alloc: Global, kind: Kind) -> Result<Vec<u8>, PlannerError>
        requires { is_sound self.now }
        ensures { IfOk result (λ text. tells self.now kind text.items) };

    fn status(&self) -> Status
        ensures ends { result ≡ ends self.now }
        ensures success { IsSuccess result };

    /// The proof, if there is one.
    fn into_proof(self) -> Option<AnswerProof>
        requires { is_sound self }
        ensures { IfSome result (λ a. (text : List ℕ) → TellsProof a text → proves self text) };
}

/// How a run ends that has found an arrangement with this cost and this bound.
pub fn status_of(cost: i128, bound: i128) -> Status
    ensures value { result ≡ status_for cost bound }
    ensures success { IsSuccess result }
{
    if bound < cost {
        Status::Stopped
    } else {
        Status::Done
    }
}
