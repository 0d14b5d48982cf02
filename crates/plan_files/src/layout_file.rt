//! Arrangements that a run reads: as a list of departments and places, as the JSON of an answer, or as a solution.

ghost use Rattle.std.specs.Prelude.{IfOk, IfSome, length, option_copied, ◌≡◌};
ghost use Rattle.plan_check.specs.Layout.{IsLayoutOf};
ghost use Rattle.plan_file.specs.Tables.{HasSizes};
ghost use Rattle.plan_files.specs.Begun.{IsArrangementIn, IsArrangementOf, IsStartIn};

use crate::error::PlannerError;
use crate::file_bytes::text_in;
use crate::refusal::Refusal;
use crate::starting::permutation_in;
use plan_check::{answer_to_plan, layout_of};
use plan_file::{NamedProblem, identity};
use plan_input::Texts;
use plan_table::is_layout;
use qap_cost::Perm;
use std::alloc::{AllocError, Global};

/// The arrangement with which the search of a plan begins, if a file is named: a list of departments and places, the
/// JSON of an answer, or a solution.
pub fn start_in<'a, D: Texts>(
    alloc: Global,
    texts: &D,
    problem: &NamedProblem,
    file: Option<&'a str>,
) -> Result<Option<Perm>, Refusal<'a>>
    requires { HasSizes problem.now }
    ensures size { IfOk result (λ start. IfSome start (λ p. length p ≡ problem.now.instance.size)) }
    ensures start { IfOk result (IsStartIn (D.holds texts.now) problem.now (option_copied file.entry)) }
{
    match file {
        Some(file) => Ok(Some(arrangement_in(alloc, texts, problem, file)?)),
        None => Ok(None),
    }
}

/// The arrangement in a file.
fn arrangement_in<'a, D: Texts>(
    alloc: Global,
    texts: &D,
    problem: &NamedProblem,
    file: &'a str,
) -> Result<Perm, Refusal<'a>>
    requires { HasSizes problem.now }
    ensures size { IfOk result (λ p. length p ≡ problem.now.instance.size) }
    ensures arrangement { IfOk result (IsArrangementIn (D.holds texts.now) problem.now file.now) }
{
    let text = text_in(alloc, texts, file)?;
    arrangement_of(alloc, problem, file, &text)
}

/// The arrangement in a text; `file` is the name of its file.
fn arrangement_of<'a>(
    alloc: Global,
    problem: &NamedProblem,
    file: &'a str,
    text: &[u8],
) -> Result<Perm, Refusal<'a>>
    requires { HasSizes problem.now }
    ensures size { IfOk result (λ p. length p ≡ problem.now.instance.size) }
    ensures arrangement { IfOk result (IsArrangementOf problem.now text.now) }
{
    match form_of(alloc, text) {
        Ok(Form::Json) => match answer_to_plan(alloc, problem, text) {
            Ok(answer) => Ok(answer.permutation),
            Err(error) => Err(Refusal::Answer(file, error)),
        },
        Ok(Form::Layout) => layout_in(alloc, problem, file, text),
        Ok(Form::Solution) => match permutation_in(alloc, text, &problem.instance) {
            Ok(permutation) => Ok(permutation),
            Err(error) => Err(Refusal::File(file, error)),
        },
        Err(_) => Err(Refusal::File(file, PlannerError::OutOfMemory)),
    }
}

/// The arrangement that a text lists; `file` is the name of its file.
pub fn layout_in<'a>(
    alloc: Global,
    problem: &NamedProblem,
    file: &'a str,
    text: &[u8],
) -> Result<Perm, Refusal<'a>>
    requires { HasSizes problem.now }
    ensures { IfOk result (IsLayoutOf problem.now text.now) }
{
    let Ok(any) = identity(alloc, &problem.instance) else {
        return Err(Refusal::File(file, PlannerError::OutOfMemory));
    };
    match layout_of(alloc, problem, text, &any) {
        Ok(arrangement) => Ok(arrangement),
        Err(error) => Err(Refusal::Layout(file, error)),
    }
}

/// How a text states an arrangement.
#[derive(Clone, Copy)]
enum Form {
    Json,
    Layout,
    Solution,
}

/// How a text states an arrangement: JSON begins with a brace, and a list with the names of its columns.
fn form_of(alloc: Global, text: &[u8]) -> Result<Form, AllocError> {
    if text.trim_ascii_start().first() == Some(&b'{') {
        return Ok(Form::Json);
    }
    if is_layout(alloc, text)? {
        return Ok(Form::Layout);
    }
    Ok(Form::Solution)
}
