//! The picture of an answer, and the report on it.

ghost use Rattle.std.specs.Prelude.{IfOk, IfSome, length, ◌≡◌};
ghost use Rattle.plan_file.specs.Tables.{HasSizes};
ghost use Rattle.plan_picture.specs.Picture.{IsPicture};
ghost use Rattle.plan_report.specs.Page.{IsPage};
ghost use Rattle.plan_report.specs.declared.page.Report.{Report};
ghost use Rattle.qap_cost.specs.Placement.{Completes};
ghost use Rattle.qap_plan.specs.Picturing.{ShowsVerdict};

use plan_answer::{compared_text, verdict_text};
use plan_file::{NamedProblem, YAxis};
use plan_files::PlannerError;
use plan_input::Loaded;
use plan_picture::{Caption, picture};
use plan_report::{Report, report_page};
use plan_search::Planned;
use qap_command::VERSION;
use qap_cost::Perm;
use std::alloc::{AllocError, Global};

/// How a plan wants to be drawn.
#[derive(Clone, Copy, Drop)]
pub struct Drawn<'a> {
    /// The title; empty if there is none.
    pub title: &'a str,
    /// Whether y grows downwards.
    pub is_down: bool,
}

/// How a plan wants to be drawn.
pub fn drawn_of(loaded: &Loaded) -> Drawn<'_> {
    let title = match &loaded.drawing.title {
        Some(title) => title.as_str(),
        None => "",
    };
    Drawn {
        title,
        is_down: matches!(loaded.drawing.y, YAxis::Down),
    }
}

/// The picture of what a search has found, with what is proved about its cost.
pub fn proved_picture(
    alloc: Global,
    problem: &NamedProblem,
    answer: &Planned,
    drawn: &Drawn<'_>,
) -> Result<Vec<u8>, PlannerError>
    requires sizes { HasSizes problem.now }
    requires kept { Completes problem.now.fixed answer.now.permutation }
    ensures { IfOk result (λ text. ShowsVerdict problem.now answer.now.permutation answer.now.cost answer.now.bound drawn.now.title.now text.items) }
{
    let verdict = verdict_text(alloc, problem, answer.cost, answer.bound)?;
    let text = captioned_picture(alloc, problem, &answer.permutation, &verdict, drawn)?;
    Ok(text)
}

/// The picture of an arrangement, with these words about its cost.
pub fn captioned_picture(
    alloc: Global,
    problem: &NamedProblem,
    permutation: &Perm,
    words: &[u8],
    drawn: &Drawn<'_>,
) -> Result<Vec<u8>, PlannerError>
    requires sizes { HasSizes problem.now }
    requires kept { Completes problem.now.fixed permutation.now }
    ensures { IfOk result (λ text. IsPicture problem.now permutation.now drawn.now.title.now words.now text.items) }
{
    let caption = Caption {
        title: drawn.title,
        verdict: words,
    };
    let text = picture(alloc, problem, permutation, &caption, drawn.is_down)?;
    Ok(text)
}

/// The report on what a search of a plan has found, which compares it with the arrangement that the search began with, if
/// there is one.
pub fn report_text(
    alloc: Global,
    problem: &NamedProblem,
    answer: &Planned,
    file: &str,
    drawn: &Drawn<'_>,
    start: &Option<Perm>,
) -> Result<Vec<u8>, PlannerError>
    requires sizes { HasSizes problem.now }
    requires kept { Completes problem.now.fixed answer.now.permutation }
    requires start { IfSome start.now (λ p. length p ≡ problem.now.instance.size) }
    ensures { IfOk result (λ text. (report : Report) × IsPage problem.now answer.now.permutation answer.now.cost answer.now.bound report text.items) }
{
    let compared = compared_with(alloc, problem, answer, start)?;
    let title = title_or(drawn.title, file);
    let report = report_of(title, file, compared.as_deref(), drawn.is_down);
    let text = report_page(
        alloc,
        problem,
        &answer.permutation,
        answer.cost,
        answer.bound,
        &report,
    )?;
    Ok(text)
}

/// The title of a report: that of the plan, or else the name of its file.
fn title_or<'a>(title: &'a str, file: &'a str) -> &'a str {
    if title.is_empty() { file } else { title }
}

/// The comparison of an answer with the arrangement that the search began with, if there is one.
fn compared_with(
    alloc: Global,
    problem: &NamedProblem,
    answer: &Planned,
    start: &Option<Perm>,
) -> Result<Option<Vec<u8>>, AllocError>
    requires sizes { HasSizes problem.now }
    requires kept { Completes problem.now.fixed answer.now.permutation }
    requires start { IfSome start.now (λ p. length p ≡ problem.now.instance.size) }
{
    let Some(today) = start else {
        return Ok(None);
    };
    let text = compared_text(alloc, problem, today, &answer.permutation, answer.bound)?;
    Ok(Some(text))
}

/// What a report says besides the arrangement.
fn report_of<'a>(
    title: &'a str,
    plan: &'a str,
    compared: Option<&'a [u8]>,
    is_down: bool,
) -> Report<'a> {
    Report {
        title,
        plan,
        compared,
        is_down,
        version: VERSION,
    }
}
