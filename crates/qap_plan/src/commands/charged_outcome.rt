//! What the outputs of a run on a plan with costs of places or forbidden places tell.

ghost use Rattle.std.specs.Prelude.{IfOk, IfSome};
ghost use Rattle.plan_file.specs.Tables.{HasSizes};
ghost use Rattle.qap_cost.specs.Placement.{Completes};
ghost use Rattle.qap_plan.specs.ChargedOutcome.{PicturesCharged, TellsCharged};
ghost use Rattle.qap_plan.specs.Outcome.{status_of as status_for};
ghost use Rattle.qap_plan.specs.Proofs.{MakesCharged, ShowsCharged};

use crate::commands::charged_answer::ChargedAnswer;
use crate::output::json::charged_json_text;
use crate::output::outcome::{Kind, Outcome, status_of};
use crate::output::picturing::{captioned_picture, drawn_of};
use crate::output::plan_outcome::table_text;
use crate::output::proof_file::AnswerProof;
use plan_answer::charged_verdict;
use plan_files::PlannerError;
use plan_input::Loaded;
use plan_search::Planned;
use qap_io::Status;
use std::alloc::Global;

/// What a run on such a plan has found. It has no report.
#[derive(Drop)]
pub struct ChargedOutcome<'a> {
    pub loaded: &'a Loaded,
    pub answer: ChargedAnswer,
    pub milliseconds: u64,
}

impl Outcome for ChargedOutcome<'_> {
    ghost is_sound = { λ s. HasSizes s.loaded.now.problem × Completes s.loaded.now.problem.fixed s.answer.planned.permutation
        × IfSome s.answer.proof (MakesCharged s.loaded.now.problem.instance s.loaded.now.problem.fixed s.loaded.now.charges s.loaded.now.forbidden s.answer.planned.permutation s.answer.planned.cost s.answer.planned.bound) };

    ghost tells = { λ s. TellsCharged s.loaded.now.problem s.answer };

    ghost proves = { λ s. ShowsCharged s.loaded.now.problem.instance s.loaded.now.problem.fixed s.loaded.now.charges s.loaded.now.forbidden s.answer.planned.permutation s.answer.planned.cost s.answer.planned.bound };

    ghost ends = { λ s. status_for s.answer.planned.cost s.answer.planned.bound };

    fn text(&self, alloc: Global, kind: Kind) -> Result<Vec<u8>, PlannerError> {
        let (problem, answer) = (&self.loaded.problem, &self.answer);
        let found = &answer.planned;
        match kind {
            Kind::Answer => Ok(answer.text.clone()?),
            Kind::Json => {
                charged_json_text(alloc, problem, found, answer.parts, self.milliseconds)
            }
            Kind::Table => table_text(alloc, problem, &found.permutation),
            Kind::Picture => picture_text(alloc, self.loaded, found),
            Kind::Report => Ok(Vec::new(alloc)),
        }
    }

    fn status(&self) -> Status {
        status_of(self.answer.planned.cost, self.answer.planned.bound)
    }

    fn into_proof(self) -> Option<AnswerProof> {
        let ChargedOutcome { answer, .. } = self;
        answer.proof
    }
}

/// The picture of the arrangement, with what is proved about its cost.
fn picture_text(alloc: Global, loaded: &Loaded, found: &Planned) -> Result<Vec<u8>, PlannerError>
    requires sizes { HasSizes loaded.now.problem }
    requires kept { Completes loaded.now.problem.fixed found.now.permutation }
    ensures { IfOk result (λ text. PicturesCharged loaded.now.problem found.now.permutation found.now.cost found.now.bound text.items) }
{
    let problem = &loaded.problem;
    let is_forbidding = loaded.forbidden.count > 0;
    let verdict = charged_verdict(alloc, problem, found.cost, found.bound, is_forbidding)?;
    let drawn = drawn_of(loaded);
    let text = captioned_picture(alloc, problem, &found.permutation, &verdict, &drawn)?;
    Ok(text)
}
