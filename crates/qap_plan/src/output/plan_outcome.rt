//! What the outputs of a run on a plan tell.

ghost use Rattle.std.specs.Prelude.{ℕ, IfOk, IfSome, List, length, ◌≡◌};
ghost use Rattle.plan_answer.specs.Answer.{IsAnswerText};
ghost use Rattle.plan_answer.specs.Layout.{layout_text as layout_of};
ghost use Rattle.plan_file.specs.Tables.{HasSizes};
ghost use Rattle.qap_cost.specs.Placement.{Completes};
ghost use Rattle.qap_plan.specs.Outcome.{TellsPlan, status_of as status_for};
ghost use Rattle.qap_plan.specs.Proofs.{HasSame, MakesFor, ShowsFor};
ghost use Rattle.qap_plan.specs.Picturing.{ShowsVerdict};

use crate::output::json::named_json_text;
use crate::output::outcome::{Kind, Outcome, status_of};
use crate::output::picturing::{drawn_of, proved_picture, report_text};
use crate::output::proof_file::{AnswerProof, Proved};
use plan_answer::{answer_text, layout_text};
use plan_file::NamedProblem;
use plan_files::PlannerError;
use plan_input::Loaded;
use plan_search::Planned;
use qap_cost::Perm;
use qap_io::Status;
use std::alloc::Global;

/// What a run on a plan has found.
#[derive(Drop)]
pub struct PlanOutcome<'a> {
    pub loaded: &'a Loaded,
    /// The arrangement with which the search began, if one is named.
    pub start: &'a Option<Perm>,
    pub answer: Proved,
    /// The name of the plan's file.
    pub file: &'a str,
    pub milliseconds: u64,
}

impl Outcome for PlanOutcome<'_> {
    ghost is_sound = { λ s. HasSizes s.loaded.now.problem × Completes s.loaded.now.problem.fixed s.answer.planned.permutation
        × IfSome s.start.now (λ p. length p ≡ s.loaded.now.problem.instance.size)
        × IfSome s.answer.proof (MakesFor s.loaded.now.problem.instance (HasSame s.loaded.now.problem.fixed) s.answer.planned.permutation s.answer.planned.cost s.answer.planned.bound) };

    ghost tells = { λ s. TellsPlan s.loaded.now.problem s.answer.planned };

    ghost proves = { λ s. ShowsFor s.loaded.now.problem.instance (HasSame s.loaded.now.problem.fixed) s.answer.planned.permutation s.answer.planned.cost s.answer.planned.bound };

    ghost ends = { λ s. status_for s.answer.planned.cost s.answer.planned.bound };

    fn text(&self, alloc: Global, kind: Kind) -> Result<Vec<u8>, PlannerError> {
        let (problem, answer) = (&self.loaded.problem, &self.answer.planned);
        match kind {
            Kind::Answer => words_text(alloc, problem, answer),
            Kind::Json => named_json_text(alloc, problem, answer, self.milliseconds),
            Kind::Table => table_text(alloc, problem, &answer.permutation),
            Kind::Picture => picture_text(alloc, self.loaded, answer),
            Kind::Report => {
                let drawn = &drawn_of(self.loaded);
                report_text(alloc, problem, answer, self.file, drawn, self.start)
            }
        }
    }

    fn status(&self) -> Status {
        status_of(self.answer.planned.cost, self.answer.planned.bound)
    }

    fn into_proof(self) -> Option<AnswerProof> {
        self.answer.proof
    }
}

/// The answer in words.
fn words_text(
    alloc: Global,
    problem: &NamedProblem,
    answer: &Planned,
) -> Result<Vec<u8>, PlannerError>
    requires sizes { HasSizes problem.now }
    requires kept { Completes problem.now.fixed answer.now.permutation }
    ensures { IfOk result (λ text. IsAnswerText problem.now answer.now.permutation answer.now.cost answer.now.bound text.items) }
{
    let text = answer_text(
        alloc,
        problem,
        &answer.permutation,
        answer.cost,
        answer.bound,
    )?;
    Ok(text)
}

/// The picture, with what is proved about the cost.
fn picture_text(alloc: Global, loaded: &Loaded, answer: &Planned) -> Result<Vec<u8>, PlannerError>
    requires sizes { HasSizes loaded.now.problem }
    requires kept { Completes loaded.now.problem.fixed answer.now.permutation }
    ensures { IfOk result (λ text. (title : List ℕ) × ShowsVerdict loaded.now.problem answer.now.permutation answer.now.cost answer.now.bound title text.items) }
{
    let drawn = drawn_of(loaded);
    let text = proved_picture(alloc, &loaded.problem, answer, &drawn)?;
    Ok(text)
}

/// An arrangement as a table of departments and places.
pub fn table_text(
    alloc: Global,
    problem: &NamedProblem,
    permutation: &Perm,
) -> Result<Vec<u8>, PlannerError>
    requires sizes { HasSizes problem.now }
    requires kept { Completes problem.now.fixed permutation.now }
    ensures { IfOk result (λ text. text.items ≡ layout_of problem.now permutation.now) }
{
    let text = layout_text(alloc, problem, permutation)?;
    Ok(text)
}
