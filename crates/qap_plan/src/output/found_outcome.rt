//! What the outputs of a run on an instance tell.

ghost use Rattle.std.specs.Prelude.{IfOk, IfSome, ◌≡◌};
ghost use Rattle.qap_cost.specs.Placement.{root_of};
ghost use Rattle.qap_plan.specs.Answer.{answer_text as text_of_answer};
ghost use Rattle.qap_plan.specs.Outcome.{TellsFound, status_of as status_for};
ghost use Rattle.qap_plan.specs.Proofs.{Is, MakesFor, ShowsFor};

use crate::output::answer::answer_text;
use crate::output::json::json_text;
use crate::output::outcome::{Kind, Outcome, status_of};
use crate::output::proof_file::{AnswerProof, Proved};
use plan_files::PlannerError;
use plan_search::Planned;
use qap_cost::Instance;
use qap_io::Status;
use std::alloc::Global;

/// What a run on an instance has found. It has neither table nor picture nor report.
#[derive(Drop)]
pub struct FoundOutcome<'a> {
    pub instance: &'a Instance,
    pub answer: Proved,
    pub milliseconds: u64,
}

impl Outcome for FoundOutcome<'_> {
    ghost is_sound = { λ s. IfSome s.answer.proof (MakesFor s.instance.now (Is (root_of s.instance.now.size)) s.answer.planned.permutation s.answer.planned.cost s.answer.planned.bound) };

    ghost tells = { λ s. TellsFound s.answer.planned };

    ghost proves = { λ s. ShowsFor s.instance.now (Is (root_of s.instance.now.size)) s.answer.planned.permutation s.answer.planned.cost s.answer.planned.bound };

    ghost ends = { λ s. status_for s.answer.planned.cost s.answer.planned.bound };

    fn text(&self, alloc: Global, kind: Kind) -> Result<Vec<u8>, PlannerError> {
        match kind {
            Kind::Answer => words_text(alloc, &self.answer.planned),
            Kind::Json => json_text(alloc, &self.answer.planned, self.milliseconds),
            Kind::Table | Kind::Picture | Kind::Report => Ok(Vec::new(alloc)),
        }
    }

    fn status(&self) -> Status {
        status_of(self.answer.planned.cost, self.answer.planned.bound)
    }

    fn into_proof(self) -> Option<AnswerProof> {
        self.answer.proof
    }
}

/// The answer in words.
fn words_text(alloc: Global, answer: &Planned) -> Result<Vec<u8>, PlannerError>
    ensures { IfOk result (λ text. text.items ≡ text_of_answer answer.now.permutation answer.now.cost answer.now.bound) }
{
    let text = answer_text(alloc, &answer.permutation, answer.cost, answer.bound)?;
    Ok(text)
}
